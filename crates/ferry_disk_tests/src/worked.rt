//! A counter that is stopped while it reserves, and a session behind an entry that isn't committed: what it makes, and what stops leave of it.
ghost use Rattle.std.specs.Prelude.{◌≡◌, false, true, OnOk};
ghost use Rattle.ferry_disk.specs.Image.{settled};

use crate::devices::depot_of;
use crate::stop::stopped;
use ferry_base::Id;
use ferry_disk::{Choice, Depot, Kind, MemoryDepot, Name, Shelf, StoreFault};
use ferry_log::{LogFault, open_log};
use ferry_nonce::{Counter, NonceFault};
use ferry_segment::{COMMIT_SEGMENT, MAGIC, put_head};
use ferry_write::{Session, WriteFault};
use std::alloc::{AllocError, Global};

/// A stop in the act behind so many, which took effect or didn't, with nothing listed.
fn stop_in(alloc: Global, acts: u64, took: bool) -> Choice {
    Choice {
        acts,
        cut: true,
        took,
        tails: Vec::new(alloc),
    }
}

// ---- the counter

/// Settles a depot.
fn settle_all(depot: &mut MemoryDepot) -> Result<(), StoreFault>
    ensures settled { OnOk result (settled depot.new.history.acts ≡ true) }
{
    depot.settle()
}

/// The first number of five blocks that are drawn in a run.
fn first_of_five(depot: &mut MemoryDepot) -> Result<u64, NonceFault> {
    let mut counter = Counter::open(depot, true)?;
    settle_all(depot)?;
    counter.draw(depot, 5)
}

/// The depot of a file `nonce` of this text.
fn counted(alloc: Global, text: &[u8]) -> Result<MemoryDepot, AllocError> {
    let text = Vec::from_slice(alloc, text)?;
    let files = vec![in alloc; (Name::Nonce, text)]?;
    depot_of(alloc, files, 0)
}

/// A depot in which five blocks were drawn from 268435457 on.
fn drawn(alloc: Global) -> Result<Option<MemoryDepot>, AllocError> {
    let mut depot = counted(alloc, b"0000000010000001")?;
    if first_of_five(&mut depot) == Ok(268_435_457) {
        Ok(Some(depot))
    } else {
        Ok(None)
    }
}

/// Whether a file `nonce` has this text.
fn has_text(depot: &mut MemoryDepot, want: &[u8; 16]) -> bool {
    let mut text = [b'.'; 16];
    depot.read_at(Name::Nonce, 0, &mut text) == Ok(16) && text == *want
}

/// Whether a stop in the second act leaves this text of the file `nonce`, from which the next run draws this number first.
fn leaves(
    alloc: Global,
    depot: MemoryDepot,
    took: bool,
    text: &[u8; 16],
    first: u64,
) -> Result<bool, AllocError> {
    match stopped(depot, stop_in(alloc, 2, took))? {
        Some(mut next) => Ok(has_text(&mut next, text) && first_of_five(&mut next) == Ok(first)),
        None => Ok(false),
    }
}

/// Whether a stop in the Replace of that run leaves this.
fn a_draw_leaves(
    alloc: Global,
    took: bool,
    text: &[u8; 16],
    first: u64,
) -> Result<bool, AllocError> {
    match drawn(alloc)? {
        Some(depot) => leaves(alloc, depot, took, text, first),
        None => Ok(false),
    }
}

#[test]
fn a_stop_in_a_reservation_repeats_no_number(rt: HostRuntime) {
    for (took, text, first) in [
        (false, b"0000000010000001", 268_435_457),
        (true, b"0000000020000006", 536_870_918),
    ] {
        assert!(rt; a_draw_leaves(rt.alloc(), took, text, first) == Ok(true));
    }
}

// ---- the session

const KEY: Id = [7; 32];

/// A segment in which a blob is put under the key.
fn put_segment(alloc: Global, blob: &[u8; 5], size: usize) -> Result<Vec<u8>, AllocError> {
    let blob = &blob[..size.min(5)];
    let mut bytes = Vec::from_slice(alloc, &MAGIC)?;
    bytes.extend_from_slice(&put_head(&KEY, blob))?;
    bytes.extend_from_slice(blob)?;
    Ok(bytes)
}

/// Segment 0 with `abc` under the key, the commit 1, and segment 2 with `abcde`, which isn't committed.
fn files(alloc: Global) -> Result<Vec<(Name, Vec<u8>)>, AllocError> {
    let mut files = Vec::new(alloc);
    files.push((Name::Segment(0), put_segment(alloc, b"abcde", 3)?))?;
    files.push((Name::Segment(1), Vec::from_slice(alloc, &COMMIT_SEGMENT)?))?;
    files.push((Name::Segment(2), put_segment(alloc, b"abcde", 5)?))?;
    Ok(files)
}

fn started(alloc: Global) -> Result<MemoryDepot, AllocError> {
    let files = files(alloc)?;
    depot_of(alloc, files, 0)
}

/// The size of the key's blob in the log of a depot, where it is live.
fn size_in(alloc: Global, depot: &mut MemoryDepot) -> Result<Option<u32>, LogFault> {
    let log = open_log(alloc, depot)?;
    Ok(match log.find(&KEY) {
        Some(place) => Some(place.size),
        None => None,
    })
}

/// Puts `z` under the key and commits, and answers the commit's number. Where it isn't to be committed, the answer is 0.
fn written(session: &mut Session, depot: &mut MemoryDepot, commits: bool) -> Result<u64, WriteFault>
    requires not_spent { session.old.spent ≡ false }
{
    session.put(depot, &KEY, b"z")?;
    if commits {
        return session.commit(depot);
    }
    Ok(0)
}

/// The same by a session behind the commit 1.
fn wrote(alloc: Global, depot: &mut MemoryDepot, commits: bool) -> Result<u64, WriteFault> {
    let mut session = Session::begin(alloc, depot, Some(1), 1000)?;
    written(&mut session, depot, commits)
}

/// Whether the first two acts are a Settle and the removal of segment 2.
fn cleared(depot: &MemoryDepot) -> bool {
    match (depot.act(0), depot.act(1)) {
        (Some(first), Some(second)) => {
            matches!(first.kind, Kind::Settle) && matches!(second.kind, Kind::Remove(2))
        }
        _ => false,
    }
}

/// Whether two segments have the sizes of an entry of one byte and of a commit.
fn has_sizes(depot: &mut MemoryDepot) -> bool {
    depot.size(Name::Segment(2)) == Ok(Some(50)) && depot.size(Name::Segment(3)) == Ok(Some(17))
}

/// Whether a session writes over what isn't committed, and its own blob is live then.
fn a_session_writes(alloc: Global) -> Result<bool, AllocError> {
    let mut depot = started(alloc)?;
    Ok(
        wrote(alloc, &mut depot, true) == Ok(3)
            && cleared(&depot)
            && has_sizes(&mut depot)
            && size_in(alloc, &mut depot) == Ok(Some(1)),
    )
}

#[test]
fn what_is_not_committed_gives_way_to_a_session(rt: HostRuntime) {
    assert!(rt; a_session_writes(rt.alloc()) == Ok(true));
}

/// Whether a stop behind so many acts may leave segment 2 absent, where `z` was put and committed, or put alone.
fn may_lack(alloc: Global, commits: bool, acts: u64) -> Result<bool, AllocError> {
    let mut depot = started(alloc)?;
    let _number = wrote(alloc, &mut depot, commits);
    let choice = Choice {
        acts,
        cut: false,
        took: false,
        tails: vec![in alloc; (2, None)]?,
    };
    Ok(depot.allows(&choice))
}

#[test]
fn a_segment_may_be_absent_until_it_is_synced(rt: HostRuntime) {
    for (commits, acts, want) in [(false, 5, true), (true, 5, true), (true, 6, false)] {
        assert!(rt;
            may_lack(rt.alloc(), commits, acts) == Ok(want),
            "{acts} acts"
        );
    }
}

/// The choice of a stop in the append of the commit 3, of which so many bytes are there.
fn stop_in_commit(alloc: Global, count: usize) -> Result<Choice, AllocError> {
    let tail = Vec::from_slice(alloc, &COMMIT_SEGMENT[..count.min(17)])?;
    Ok(Choice {
        acts: 7,
        cut: true,
        took: false,
        tails: vec![in alloc; (3, Some(tail))]?,
    })
}

/// The depot that such a stop leaves.
fn left_in_commit(alloc: Global, count: usize) -> Result<Option<MemoryDepot>, AllocError> {
    let mut depot = started(alloc)?;
    let _number = wrote(alloc, &mut depot, true);
    let choice = stop_in_commit(alloc, count)?;
    stopped(depot, choice)
}

/// The size of the key's blob after such a stop.
fn size_after(alloc: Global, count: usize) -> Result<Option<u32>, AllocError> {
    match left_in_commit(alloc, count)? {
        Some(mut next) => Ok(size_in(alloc, &mut next).unwrap_or(None)),
        None => Ok(None),
    }
}

#[test]
fn a_torn_commit_shows_the_old_entries(rt: HostRuntime) {
    for count in 0..18usize {
        let want = if count < 17 { 3 } else { 1 };
        assert!(rt;
            size_after(rt.alloc(), count) == Ok(Some(want)),
            "{count} bytes"
        );
    }
}

/// What a session behind the last number of all answers to a PUT.
fn put_behind_the_last(alloc: Global, depot: &mut MemoryDepot) -> Result<(), WriteFault> {
    let mut session = Session::begin(alloc, depot, Some(4_294_967_295), 1000)?;
    session.put(depot, &KEY, b"z")?;
    Ok(())
}

/// Whether no segment follows the one of the last number.
fn numbers_end(alloc: Global) -> Result<bool, AllocError> {
    let mut depot = depot_of(alloc, Vec::new(alloc), 0)?;
    Ok(put_behind_the_last(alloc, &mut depot) == Err(WriteFault::Numbers))
}

#[test]
fn no_segment_follows_the_last_number(rt: HostRuntime) {
    assert!(rt; numbers_end(rt.alloc()) == Ok(true));
}
