//! How a log is opened: its end is found from the last segment down, and its entries are taken from the first one up.
ghost use Rattle.std.specs.Prelude.{◌≡◌, ◌<◌, ◌≤◌, ◌^◌, ◌++◌, ◌∷◌, ◌↔◌, [], length, map, IfOk, IfErr, OnOk, MatchResult, IsTrue};
ghost use Rattle.ferry_segment.specs.Segment.{Committed, HasMagic};
ghost use Rattle.ferry_disk.specs.Files.{Files, segment_bytes};
ghost use Rattle.ferry_disk.specs.Device.{KeepsTold, HasCause};
ghost use Rattle.ferry_log.specs.Fault.{log_failed};
ghost use Rattle.ferry_log.specs.Window.{Tells, IsWindowOf, OnSame, segment_of};
ghost use Rattle.ferry_log.specs.Opening.{EndsAt, HasNoEnd, IsOutside, TakesSegment, IsUnread, uncounted, HasTaken, IsStopped};

use crate::fault::LogFault;
use crate::live::take_entry;
use crate::place::{Extent, Place};
use crate::window::{Window, entry_head, has_magic, open_window};
use ferry_base::Id;
use ferry_disk::Shelf;
use ferry_segment::MAGIC;
use std::collections::BTreeMap;

/// The tag of a COMMIT.
const COMMIT_TAG: u8 = 2;

/// How many of the segments are in the log: those up to the last one that is committed.
pub(crate) fn log_length<S: Shelf>(
    shelf: &mut S,
    numbers: &[u64],
    window: &mut Window,
) -> Result<usize, LogFault>
    ensures within { IfOk result (λ count. (0 < count) × (count ≤ length numbers.now)) }
    ensures end { (files : Files) → Tells (S.told shelf.old) files → MatchResult result (EndsAt files numbers.now) (HasNoEnd files numbers.now) }
    ensures same { KeepsTold log_failed (S.told shelf.old) (S.told shelf.new) result }
    ensures cause { HasCause log_failed (S.faults shelf.old) (S.faults shelf.new) result }
{
    let mut count = numbers.len();
    while count > 0 {
        if is_committed(shelf, numbers[count - 1], window)? {
            return Ok(count);
        }
        count -= 1;
    }
    Err(LogFault::NoCommit)
}

/// Whether a segment is committed.
fn is_committed<S: Shelf>(
    shelf: &mut S,
    segment: u64,
    window: &mut Window,
) -> Result<bool, LogFault>
    ensures committed { (files : Files) → Tells (S.told shelf.old) files → IfOk result
        (λ committed. IsTrue committed ↔ Committed (segment_bytes files segment)) }
    ensures outside { IfErr result IsOutside }
    ensures same { KeepsTold log_failed (S.told shelf.old) (S.told shelf.new) result }
    ensures cause { HasCause log_failed (S.faults shelf.old) (S.faults shelf.new) result }
{
    open_window(shelf, segment, window)?;
    if !has_magic(shelf, window)? {
        return Ok(false);
    }
    ends_committed(shelf, window)
}

/// Whether the window's segment, which begins with the magic, is committed.
fn ends_committed<S: Shelf>(shelf: &mut S, window: &mut Window) -> Result<bool, LogFault>
    requires { 8 ≤ window.old.size }
    ensures committed { (files : Files) → Tells (S.told shelf.old) files → IsWindowOf (segment_of files window.old) window.old
        → HasMagic (segment_of files window.old)
        → IfOk result (λ committed. IsTrue committed ↔ Committed (segment_of files window.old)) }
    ensures outside { IfErr result IsOutside }
    ensures same { KeepsTold log_failed (S.told shelf.old) (S.told shelf.new) result }
    ensures cause { HasCause log_failed (S.faults shelf.old) (S.faults shelf.new) result }
{
    let size = window.size;
    let mut at = MAGIC.len() as u64;
    let mut closed = false;
    while at < size {
        let head = match entry_head(shelf, window, at) {
            Ok(head) => head,
            Err(LogFault::Damaged { .. }) => return Ok(false),
            Err(fault) => return Err(fault),
        };
        let commits = head.tag == COMMIT_TAG;
        if closed && !commits {
            return Ok(false);
        }
        closed = commits;
        at += u64::from(head.size);
    }
    Ok(closed)
}

/// Takes the entries of the window's segment, in order, into the places.
fn take_entries<S: Shelf>(
    shelf: &mut S,
    window: &mut Window,
    live: &mut BTreeMap<Id, Place>,
) -> Result<(), LogFault>
    requires { 8 ≤ window.old.size }
    ensures segment { OnSame window.old window.new }
    ensures taken { (files : Files) → Tells (S.told shelf.old) files → IsWindowOf (segment_of files window.old) window.old
        → HasMagic (segment_of files window.old)
        → MatchResult result (λ _. TakesSegment window.old.segment (segment_of files window.old) live.old.entries live.new.entries)
        (IsUnread window.old.segment (segment_of files window.old)) }
    ensures same { KeepsTold log_failed (S.told shelf.old) (S.told shelf.new) result }
    ensures cause { HasCause log_failed (S.faults shelf.old) (S.faults shelf.new) result }
{
    let segment = window.segment;
    let size = window.size;
    let mut at = MAGIC.len() as u64;
    while at < size {
        let head = entry_head(shelf, window, at)?;
        take_entry(live, segment, at, &head)?;
        at += u64::from(head.size);
    }
    Ok(())
}

/// Reads a segment and takes it into the places and the extents.
fn take_segment<S: Shelf>(
    shelf: &mut S,
    segment: u64,
    window: &mut Window,
    live: &mut BTreeMap<Id, Place>,
    extents: &mut Vec<Extent>,
) -> Result<(), LogFault>
    ensures taken { (files : Files) → Tells (S.told shelf.old) files
        → MatchResult result (λ _. TakesSegment segment (segment_bytes files segment) live.old.entries live.new.entries
        × (length (segment_bytes files segment) < 2 ^ 64)
        × (extents.new.items ≡ extents.old.items ++ uncounted segment (length (segment_bytes files segment)) ∷ []))
        (IsUnread segment (segment_bytes files segment)) }
    ensures extent { OnOk result (map (λ e. e.segment) extents.new.items ≡ map (λ e. e.segment) extents.old.items ++ segment ∷ []) }
    ensures same { KeepsTold log_failed (S.told shelf.old) (S.told shelf.new) result }
    ensures cause { HasCause log_failed (S.faults shelf.old) (S.faults shelf.new) result }
{
    open_window(shelf, segment, window)?;
    if !has_magic(shelf, window)? {
        return Err(LogFault::Damaged { segment, at: 0 });
    }
    take_entries(shelf, window, live)?;
    let extent = Extent {
        segment,
        size: window.size,
        live: 0,
    };
    extents.push(extent)?;
    Ok(())
}

/// Takes these segments, in order.
pub(crate) fn take_segments<S: Shelf>(
    shelf: &mut S,
    numbers: &[u64],
    window: &mut Window,
    live: &mut BTreeMap<Id, Place>,
    extents: &mut Vec<Extent>,
) -> Result<(), LogFault>
    requires no_places { live.old.entries ≡ [] }
    requires no_extents { extents.old.items ≡ [] }
    ensures segments { OnOk result (map (λ e. e.segment) extents.new.items ≡ numbers.now) }
    ensures taken { (files : Files) → Tells (S.told shelf.old) files
        → MatchResult result (λ _. HasTaken files numbers.now live.new.entries extents.new.items) (IsStopped files numbers.now) }
    ensures same { KeepsTold log_failed (S.told shelf.old) (S.told shelf.new) result }
    ensures cause { HasCause log_failed (S.faults shelf.old) (S.faults shelf.new) result }
{
    for number in numbers {
        take_segment(shelf, *number, window, live, extents)?;
    }
    Ok(())
}
