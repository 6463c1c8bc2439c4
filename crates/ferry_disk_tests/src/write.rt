//! A session behind a commit, over a depot in memory.
ghost use Rattle.std.specs.Prelude.{◌≡◌, false};

use ferry_disk::{Depot, MemoryDepot, Name, Shelf};
use ferry_log::Place;
use ferry_segment::{COMMIT_SEGMENT, MAGIC};
use ferry_write::{Session, WriteFault};
use std::alloc::{AllocError, Global};

/// A committed segment 1, and a segment 2 that was left behind it.
const FILES: [(u64, &[u8]); 2] = [(1, &COMMIT_SEGMENT), (2, &MAGIC)];

fn files(alloc: Global) -> Result<Vec<(Name, Vec<u8>)>, AllocError> {
    let mut files = Vec::new(alloc);
    for (number, bytes) in FILES {
        files.push((Name::Segment(number), Vec::from_slice(alloc, bytes)?))?;
    }
    Ok(files)
}

/// Whether entries are put into two segments, and committed in a third.
fn commits(session: &mut Session, depot: &mut MemoryDepot) -> Result<bool, WriteFault>
    requires not_spent { session.old.spent ≡ false }
{
    let first = session.put(depot, &[7; 32], b"a")?;
    session.delete(depot, &[7; 32])?;
    let second = session.put(depot, &[7; 32], b"")?;
    let number = session.commit(depot)?;
    let place = Place {
        segment: 2,
        at: 49,
        size: 1,
    };
    let next = Place {
        segment: 3,
        at: 49,
        size: 0,
    };
    Ok(first == place && second == next && number == 4 && !session.is_spent())
}

/// Whether what was committed is there, and the three segments behind it have these sizes.
fn are_there(depot: &mut MemoryDepot) -> bool {
    for (number, size) in [(1, 17), (2, 91), (3, 49), (4, 17)] {
        if depot.size(Name::Segment(number)) != Ok(Some(size)) {
            return false;
        }
    }
    true
}

/// Whether entries are put and committed behind the commit of a depot, and are there then.
fn is_committed(alloc: Global, depot: &mut MemoryDepot) -> Result<bool, WriteFault> {
    let mut session = Session::begin(alloc, depot, Some(1), 100)?;
    Ok(commits(&mut session, depot) == Ok(true) && are_there(depot))
}

/// Whether they are over a depot of those files.
fn a_depot_commits(alloc: Global) -> Result<bool, AllocError> {
    let mut depot = MemoryDepot::new(alloc, files(alloc)?, Vec::new(alloc))?;
    Ok(is_committed(alloc, &mut depot) == Ok(true))
}

#[test]
fn entries_are_put_and_committed(rt: HostRuntime) {
    assert!(rt; a_depot_commits(rt.alloc()) == Ok(true));
}
