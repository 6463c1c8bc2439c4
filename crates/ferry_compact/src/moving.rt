//! The entries of chosen segments that are put again.
ghost use Rattle.std.specs.Prelude.{◌≡◌, ◌+◌, ◌<◌, ◌≤◌, ◌^◌, ◌∷◌, ◌++◌, [], false, length, IfOk, IfErr, OnOk};
ghost use Rattle.ferry_compact.specs.Moving.{lies_at};
ghost use Rattle.ferry_compact.specs.Steps.{Did, EachOfEntry, EachOfLog, EachOfSegment, EachPut, MovesEntry, MovesLog, MovesSegment, MovesWhere};
ghost use Rattle.ferry_compact.specs.Steps.{PutsEntry, PutsOne, RefusesEntry, RefusesLog, RefusesPut, RefusesSegment};
ghost use Rattle.ferry_log.specs.State.{place_in};
ghost use Rattle.ferry_segment.specs.Entry.{DeleteEntry, PutEntry};

use crate::choice::is_among;
use crate::fault::CompactFault;
use crate::reading::{DELETE, PUT, head_there, place_behind};
use crate::stays::is_put_below;
use ferry_base::{Id, PUT_HEAD};
use ferry_disk::{Depot, Name, read_part};
use ferry_log::{Extent, Log};
use ferry_segment::{Entry, Head, MAGIC, read_entry};
use ferry_write::Session;
use std::alloc::Global;
use std::collections::BTreeMap;

/// Whether the PUT that begins at byte `at` of a segment is that of a live key.
fn is_live(log: &Log, key: &Id, segment: u64, at: u64) -> bool
    ensures { result ≡ lies_at (place_in log.now key.now) segment (at + 41) }
{
    let head = PUT_HEAD as u64;
    match log.find(key) {
        Some(place) => place.segment == segment && place.at >= head && place.at - head == at,
        None => false,
    }
}

/// Puts a blob again under its key.
fn put_again<D: Depot>(
    depot: &mut D,
    key: &Id,
    blob: &[u8],
    session: &mut Session,
) -> Result<(), CompactFault>
    requires unspent { session.old.spent ≡ false }
    requires small { length blob.now ≤ 20971479 }
    ensures did { Did (EachPut (PutEntry key.now blob.now) session.old) (PutsOne (PutEntry key.now blob.now) session.old session.new)
        (RefusesPut session.old) (D.told depot.old) (D.told depot.new) (D.faults depot.old) (D.faults depot.new) result }
    ensures unspent { OnOk result (session.new.spent ≡ false) }
{
    session.put(depot, key, blob)?;
    Ok(())
}

/// Deletes a key again.
fn delete_again<D: Depot>(
    depot: &mut D,
    key: &Id,
    session: &mut Session,
) -> Result<(), CompactFault>
    requires unspent { session.old.spent ≡ false }
    ensures did { Did (EachPut (DeleteEntry key.now) session.old) (PutsOne (DeleteEntry key.now) session.old session.new)
        (RefusesPut session.old) (D.told depot.old) (D.told depot.new) (D.faults depot.old) (D.faults depot.new) result }
    ensures unspent { OnOk result (session.new.spent ≡ false) }
{
    session.delete(depot, key)?;
    Ok(())
}

/// Reads the PUT that begins at byte `at` of a segment whole into `bytes`, and puts it again once it is found to be right.
fn move_put<D: Depot>(
    depot: &mut D,
    segment: u64,
    at: u64,
    head: &Head,
    session: &mut Session,
    bytes: &mut Vec<u8>,
) -> Result<(), CompactFault>
    requires unspent { session.old.spent ≡ false }
    requires within { at + head.now.size < 2 ^ 64 }
    requires put { head.now.tag ≡ 0 }
    ensures did { Did (EachOfEntry segment at head.now session.old) (PutsEntry segment at head.now session.old session.new)
        (RefusesEntry segment at head.now session.old) (D.told depot.old) (D.told depot.new) (D.faults depot.old) (D.faults depot.new) result }
    ensures unspent { OnOk result (session.new.spent ≡ false) }
{
    read_part(depot, Name::Segment(segment), at, head.size as usize, bytes)?;
    let Ok(read) = read_entry(bytes, 0) else {
        return Err(CompactFault::Damaged { segment, at });
    };
    match read.0 {
        Entry::Put { key, blob } => put_again(depot, &key, blob, session),
        _ => Err(CompactFault::Damaged { segment, at }),
    }
}

/// Puts the entry with this head again, which begins at byte `at` of a segment, where it is to be.
fn move_entry<D: Depot>(
    depot: &mut D,
    log: &Log,
    stays: &BTreeMap<Id, Option<u64>>,
    segment: u64,
    at: u64,
    head: &Head,
    session: &mut Session,
    bytes: &mut Vec<u8>,
) -> Result<(), CompactFault>
    requires unspent { session.old.spent ≡ false }
    requires within { at + head.now.size < 2 ^ 64 }
    ensures did { Did (EachOfEntry segment at head.now session.old) (MovesEntry log.now stays.now.entries segment at head.now session.old session.new)
        (RefusesEntry segment at head.now session.old) (D.told depot.old) (D.told depot.new) (D.faults depot.old) (D.faults depot.new) result }
    ensures unspent { OnOk result (session.new.spent ≡ false) }
{
    if head.tag == PUT && is_live(log, &head.key, segment, at) {
        return move_put(depot, segment, at, head, session, bytes);
    }
    if head.tag == DELETE && is_put_below(stays, &head.key, segment) {
        return delete_again(depot, &head.key, session);
    }
    Ok(())
}

/// Puts the entries of a segment again that are to be.
fn move_segment<D: Depot>(
    alloc: Global,
    depot: &mut D,
    log: &Log,
    stays: &BTreeMap<Id, Option<u64>>,
    extent: &Extent,
    session: &mut Session,
    bytes: &mut Vec<u8>,
) -> Result<(), CompactFault>
    requires unspent { session.old.spent ≡ false }
    ensures did { Did (EachOfSegment extent.now session.old) (MovesSegment log.now stays.now.entries extent.now session.old session.new)
        (RefusesSegment extent.now session.old) (D.told depot.old) (D.told depot.new) (D.faults depot.old) (D.faults depot.new) result }
    ensures unspent { OnOk result (session.new.spent ≡ false) }
{
    let segment = extent.segment;
    let size = extent.size;
    let mut at = MAGIC.len() as u64;
    while at < size {
        let head = head_there(alloc, depot, extent, at)?;
        let place = place_behind(segment, at, head.size)?;
        move_entry(depot, log, stays, segment, at, &head, session, bytes)?;
        at = place;
    }
    Ok(())
}

/// The same where the segment is a chosen one.
fn move_where<D: Depot>(
    alloc: Global,
    depot: &mut D,
    log: &Log,
    stays: &BTreeMap<Id, Option<u64>>,
    extent: &Extent,
    chosen: &[u64],
    session: &mut Session,
    bytes: &mut Vec<u8>,
) -> Result<(), CompactFault>
    requires unspent { session.old.spent ≡ false }
    ensures did { Did (EachOfSegment extent.now session.old) (MovesWhere log.now stays.now.entries extent.now chosen.now session.old session.new)
        (RefusesSegment extent.now session.old) (D.told depot.old) (D.told depot.new) (D.faults depot.old) (D.faults depot.new) result }
    ensures unspent { OnOk result (session.new.spent ≡ false) }
{
    if !is_among(chosen, extent.segment) {
        return Ok(());
    }
    move_segment(alloc, depot, log, stays, extent, session, bytes)
}

/// Puts the entries of the chosen segments again that are to be: the PUTs of live keys, and the DELETEs of keys that a lower segment puts which stays.
pub(crate) fn move_all<D: Depot>(
    alloc: Global,
    depot: &mut D,
    log: &Log,
    extents: &[Extent],
    chosen: &[u64],
    stays: &BTreeMap<Id, Option<u64>>,
    session: &mut Session,
) -> Result<(), CompactFault>
    requires unspent { session.old.spent ≡ false }
    ensures did { Did (EachOfLog extents.now chosen.now session.old) (MovesLog log.now stays.now.entries extents.now chosen.now session.old session.new)
        (RefusesLog extents.now chosen.now session.old) (D.told depot.old) (D.told depot.new) (D.faults depot.old) (D.faults depot.new) result }
    ensures unspent { OnOk result (session.new.spent ≡ false) }
{
    let mut bytes = Vec::new(alloc);
    for extent in extents {
        move_where(
            alloc, depot, log, stays, extent, chosen, session, &mut bytes,
        )?;
    }
    Ok(())
}
