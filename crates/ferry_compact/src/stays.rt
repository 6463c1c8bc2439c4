//! The keys that a chosen segment deletes, and in which of the segments that stay they are put.
ghost use Rattle.std.specs.Prelude.{◌≡◌, ◌∷◌, [], IfOk, IfErr, OnOk, MatchResult};
ghost use Rattle.std.specs.List.Sorted.{IsStrictlyIncreasing};
ghost use Rattle.ferry_compact.specs.Fault.{compact_failed};
ghost use Rattle.ferry_compact.specs.Reading.{Covers, HasSegment, IsOutside};
ghost use Rattle.ferry_compact.specs.Stays.{HasNotes, TakesNotes, entries_of, is_below, is_unfound, noted_at};
ghost use Rattle.ferry_compact.specs.declared.fault.CompactFault.TheVariants as Compact;
ghost use Rattle.ferry_disk.specs.Device.{HasCause, KeepsTold};
ghost use Rattle.ferry_disk.specs.Files.{Files};
ghost use Rattle.ferry_log.specs.Log.{Located, located};
ghost use Rattle.ferry_log.specs.Opening.{entry_at};
ghost use Rattle.ferry_log.specs.Window.{Tells};
ghost use Rattle.ferry_segment.specs.Entry.{DeleteEntry, LogEntry, PutEntry};
ghost use Rattle.ferry_segment.specs.Head.{head_of};
ghost use Rattle.std.specs.Prelude.{List, ℕ, true, false};

use crate::choice::is_among;
use crate::fault::CompactFault;
use crate::reading::{DELETE, PUT, head_there, place_behind};
use ferry_base::Id;
use ferry_disk::Depot;
use ferry_log::{Extent, Log};
use ferry_segment::{Head, MAGIC};
use std::alloc::Global;
use std::collections::BTreeMap;

/// Whether a key is noted of which no PUT was found yet.
fn is_unfound(stays: &BTreeMap<Id, Option<u64>>, key: &Id) -> bool
    ensures { result ≡ is_unfound (noted_at key.now stays.now.entries) }
{
    match stays.get(key) {
        Some(found) => found.is_none(),
        None => false,
    }
}

/// Whether a PUT of a key was found in a segment below this one.
pub(crate) fn is_put_below(stays: &BTreeMap<Id, Option<u64>>, key: &Id, segment: u64) -> bool
    ensures { result ≡ is_below (noted_at key.now stays.now.entries) segment }
{
    match stays.get(key) {
        Some(Some(low)) => *low < segment,
        _ => false,
    }
}

/// Notes a key that a chosen segment deletes, where it isn't live.
fn note_delete(
    log: &Log,
    segment: u64,
    key: &Id,
    stays: &mut BTreeMap<Id, Option<u64>>,
) -> Result<(), CompactFault>
    ensures noted { (at : ℕ) → OnOk result (TakesNotes log.now true (entry_at segment at (DeleteEntry key.now) ∷ []) stays.old.entries stays.new.entries) }
    ensures memory { IfErr result (λ fault. fault ≡ Compact.Memory) }
{
    if log.find(key).is_none() {
        stays.insert(*key, None)?;
    }
    Ok(())
}

/// Notes the segment of the first PUT of a noted key.
fn note_put(
    log: &Log,
    segment: u64,
    key: &Id,
    stays: &mut BTreeMap<Id, Option<u64>>,
) -> Result<(), CompactFault>
    ensures noted { (at : ℕ) (blob : List ℕ) → OnOk result
        (TakesNotes log.now false (entry_at segment at (PutEntry key.now blob) ∷ []) stays.old.entries stays.new.entries) }
    ensures memory { IfErr result (λ fault. fault ≡ Compact.Memory) }
{
    if is_unfound(stays, key) {
        stays.insert(*key, Some(segment))?;
    }
    Ok(())
}

/// Takes the entry with this head, of a chosen segment or of another, into the notes.
fn note_head(
    log: &Log,
    segment: u64,
    among: bool,
    head: &Head,
    stays: &mut BTreeMap<Id, Option<u64>>,
) -> Result<(), CompactFault>
    ensures noted { (at : ℕ) (entry : LogEntry) → head.now ≡ head_of entry → OnOk result
        (TakesNotes log.now among (entry_at segment at entry ∷ []) stays.old.entries stays.new.entries) }
    ensures memory { IfErr result (λ fault. fault ≡ Compact.Memory) }
{
    if among && head.tag == DELETE {
        return note_delete(log, segment, &head.key, stays);
    }
    if !among && head.tag == PUT {
        return note_put(log, segment, &head.key, stays);
    }
    Ok(())
}

/// Takes the entries of a segment, a chosen one or another, into the notes.
fn note_segment<D: Depot>(
    alloc: Global,
    depot: &mut D,
    log: &Log,
    extent: &Extent,
    among: bool,
    stays: &mut BTreeMap<Id, Option<u64>>,
) -> Result<(), CompactFault>
    ensures noted { (files : Files) → Tells (D.told depot.old) files → (entries : List LogEntry) → HasSegment files extent.now entries
        → MatchResult result (λ _. TakesNotes log.now among (located extent.now.segment 8 entries) stays.old.entries stays.new.entries) IsOutside }
    ensures same { KeepsTold compact_failed (D.told depot.old) (D.told depot.new) result }
    ensures cause { HasCause compact_failed (D.faults depot.old) (D.faults depot.new) result }
{
    let segment = extent.segment;
    let size = extent.size;
    let mut at = MAGIC.len() as u64;
    while at < size {
        let head = head_there(alloc, depot, extent, at)?;
        note_head(log, segment, among, &head, stays)?;
        at = place_behind(segment, at, head.size)?;
    }
    Ok(())
}

/// The same where the segment is a chosen one, or isn't, as is asked for.
fn note_where<D: Depot>(
    alloc: Global,
    depot: &mut D,
    log: &Log,
    extent: &Extent,
    chosen: &[u64],
    among: bool,
    stays: &mut BTreeMap<Id, Option<u64>>,
) -> Result<(), CompactFault>
    ensures noted { (files : Files) → Tells (D.told depot.old) files → (entries : List LogEntry) → HasSegment files extent.now entries
        → IsStrictlyIncreasing chosen.now
        → MatchResult result (λ _. TakesNotes log.now among (entries_of chosen.now among (located extent.now.segment 8 entries)) stays.old.entries
        stays.new.entries) IsOutside }
    ensures same { KeepsTold compact_failed (D.told depot.old) (D.told depot.new) result }
    ensures cause { HasCause compact_failed (D.faults depot.old) (D.faults depot.new) result }
{
    if is_among(chosen, extent.segment) != among {
        return Ok(());
    }
    note_segment(alloc, depot, log, extent, among, stays)
}

/// Takes the entries of the chosen segments, or those of the others, into the notes.
fn note_segments<D: Depot>(
    alloc: Global,
    depot: &mut D,
    log: &Log,
    extents: &[Extent],
    chosen: &[u64],
    among: bool,
    stays: &mut BTreeMap<Id, Option<u64>>,
) -> Result<(), CompactFault>
    ensures noted { (files : Files) → Tells (D.told depot.old) files → (entries : List Located) → Covers files extents.now entries
        → IsStrictlyIncreasing chosen.now
        → MatchResult result (λ _. TakesNotes log.now among (entries_of chosen.now among entries) stays.old.entries stays.new.entries) IsOutside }
    ensures same { KeepsTold compact_failed (D.told depot.old) (D.told depot.new) result }
    ensures cause { HasCause compact_failed (D.faults depot.old) (D.faults depot.new) result }
{
    for extent in extents {
        note_where(alloc, depot, log, extent, chosen, among, stays)?;
    }
    Ok(())
}

/// The keys that a chosen segment deletes and that aren't live, each with the lowest segment that isn't chosen and puts it, where one does.
pub(crate) fn puts_that_stay<D: Depot>(
    alloc: Global,
    depot: &mut D,
    log: &Log,
    extents: &[Extent],
    chosen: &[u64],
) -> Result<BTreeMap<Id, Option<u64>>, CompactFault>
    ensures stays { (files : Files) → Tells (D.told depot.old) files → (entries : List Located) → Covers files extents.now entries
        → IsStrictlyIncreasing chosen.now → MatchResult result (λ stays. HasNotes log.now chosen.now entries stays.entries) IsOutside }
    ensures same { KeepsTold compact_failed (D.told depot.old) (D.told depot.new) result }
    ensures cause { HasCause compact_failed (D.faults depot.old) (D.faults depot.new) result }
{
    let mut stays = BTreeMap::new(alloc);
    note_segments(alloc, depot, log, extents, chosen, true, &mut stays)?;
    if stays.is_empty() {
        return Ok(stays);
    }
    note_segments(alloc, depot, log, extents, chosen, false, &mut stays)?;
    Ok(stays)
}
