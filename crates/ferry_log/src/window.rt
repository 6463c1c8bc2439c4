//! A segment that is read in windows, so that no more of it is held than one of them.
ghost use Rattle.std.specs.Prelude.{◌≡◌, ◌≤◌, ◌<◌, ◌+◌, ◌-◌, ◌^◌, ◌↔◌, true, Some, IfOk, IfErr, OnOk, IsTrue, length, take, drop, MatchResult};
ghost use Rattle.ferry_segment.specs.Head.{HasHead};
ghost use Rattle.ferry_segment.specs.Segment.{HasMagic};
ghost use Rattle.ferry_disk.specs.Files.{Files, segment_bytes};
ghost use Rattle.ferry_disk.specs.Device.{KeepsTold, HasCause, store_failed};
ghost use Rattle.ferry_log.specs.Fault.{log_failed};
ghost use Rattle.ferry_log.specs.Head.{NamesPlace};
ghost use Rattle.ferry_log.specs.Window.{Tells, IsWindowOf, Holds, OnSame, segment_of, sum_between, IsBrokenAt};

use crate::fault::LogFault;
use ferry_base::PUT_HEAD;
use ferry_disk::{Name, Shelf, StoreFault, length_of, read_part};
use ferry_segment::{Head, MAGIC, crc32_more, read_head};
use std::alloc::Global;

/// The most bytes of a window.
const WINDOW: usize = 65536;

/// A window on a segment: some of its bytes, from `at` on. `size` is the segment's length.
#[derive(Drop)]
pub(crate) struct Window {
    pub segment: u64,
    pub size: u64,
    pub at: u64,
    pub bytes: Vec<u8>,
}

/// A window on nothing.
pub(crate) fn no_window(alloc: Global) -> Window {
    Window {
        segment: 0,
        size: 0,
        at: 0,
        bytes: Vec::new(alloc),
    }
}

/// Sets the window before the first byte of a segment, whose length is asked for.
pub(crate) fn open_window<S: Shelf>(
    shelf: &mut S,
    segment: u64,
    window: &mut Window,
) -> Result<(), StoreFault>
    ensures segment { OnOk result (window.new.segment ≡ segment) }
    ensures small { OnOk result (window.new.size < 2 ^ 64) }
    ensures window { (files : Files) → Tells (S.told shelf.old) files → OnOk result (IsWindowOf (segment_bytes files segment) window.new) }
    ensures same { KeepsTold store_failed (S.told shelf.old) (S.told shelf.new) result }
    ensures cause { HasCause store_failed (S.faults shelf.old) (S.faults shelf.new) result }
{
    window.size = length_of(shelf, Name::Segment(segment))?;
    window.segment = segment;
    window.at = 0;
    window.bytes.clear();
    Ok(())
}

/// Sees to it that the window holds `count` bytes from `at` on. `false` where the file ends before them.
///
/// Where it doesn't hold them, as much is read from `at` on as a window takes.
fn reach<S: Shelf>(
    shelf: &mut S,
    window: &mut Window,
    at: u64,
    count: u64,
) -> Result<bool, StoreFault>
    requires inside { at + count ≤ window.old.size }
    requires fits { count ≤ 65536 }
    ensures segment { OnSame window.old window.new }
    ensures holds { IfOk result (λ there. there ≡ true → Holds window.new at count) }
    ensures window { (files : Files) → Tells (S.told shelf.old) files → IsWindowOf (segment_of files window.old) window.old
        → IfOk result (λ there. (there ≡ true) × IsWindowOf (segment_of files window.old) window.new) }
    ensures same { KeepsTold store_failed (S.told shelf.old) (S.told shelf.new) result }
    ensures cause { HasCause store_failed (S.faults shelf.old) (S.faults shelf.new) result }
{
    let end = window.at.saturating_add(window.bytes.len() as u64);
    if window.at <= at && at + count <= end {
        return Ok(true);
    }
    let left = window.size - at;
    let part = if left < WINDOW as u64 {
        left as usize
    } else {
        WINDOW
    };
    read_part(
        shelf,
        Name::Segment(window.segment),
        at,
        part,
        &mut window.bytes,
    )?;
    window.at = at;
    Ok(window.bytes.len() as u64 >= count)
}

/// The bytes that a window holds from `at` on, up to `to` or to its end.
fn part_of(window: &Window, at: u64, to: u64) -> &[u8]
    requires holds { Holds window.now at 0 }
    requires forward { at ≤ to }
    ensures { result.now ≡ take (to - at) (drop (at - window.now.at) window.now.bytes.items) }
{
    let first = (at - window.at) as usize;
    let left = window.bytes.len() - first;
    let count = if to - at < left as u64 {
        (to - at) as usize
    } else {
        left
    };
    &window.bytes[first..first + count]
}

/// The checksum of a segment's bytes from `from` to `to`, window by window; `None` where the file ends before `to`.
fn checksum<S: Shelf>(
    shelf: &mut S,
    window: &mut Window,
    from: u64,
    to: u64,
) -> Result<Option<u32>, StoreFault>
    requires forward { from ≤ to }
    requires inside { to ≤ window.old.size }
    ensures segment { OnSame window.old window.new }
    ensures sum { (files : Files) → Tells (S.told shelf.old) files → IsWindowOf (segment_of files window.old) window.old
        → IfOk result (λ sum. (sum ≡ Some (sum_between (segment_of files window.old) from to)) × IsWindowOf (segment_of files window.old) window.new) }
    ensures same { KeepsTold store_failed (S.told shelf.old) (S.told shelf.new) result }
    ensures cause { HasCause store_failed (S.faults shelf.old) (S.faults shelf.new) result }
{
    let mut at = from;
    let mut sum = 0;
    while at < to {
        if !reach(shelf, window, at, 1)? {
            return Ok(None);
        }
        let part = part_of(window, at, to);
        sum = crc32_more(sum, part);
        at += part.len() as u64;
    }
    Ok(Some(sum))
}

/// The head of the entry that begins at byte `at` of the window's segment.
///
/// A blob is read window by window for its checksum, and not held.
pub(crate) fn entry_head<S: Shelf>(
    shelf: &mut S,
    window: &mut Window,
    at: u64,
) -> Result<Head, LogFault>
    requires { at < window.old.size }
    ensures segment { OnSame window.old window.new }
    ensures within { IfOk result (λ head. (9 ≤ head.size) × (at + head.size ≤ window.old.size)) }
    ensures put { IfOk result (λ head. head.tag ≡ 0 → 41 ≤ head.size) }
    ensures place { IfErr result (NamesPlace window.old.segment at) }
    ensures read { (files : Files) → Tells (S.told shelf.old) files → IsWindowOf (segment_of files window.old) window.old
        → MatchResult result (λ head. HasHead (segment_of files window.old) at head × IsWindowOf (segment_of files window.old) window.new)
        (IsBrokenAt (segment_of files window.old) at) }
    ensures same { KeepsTold log_failed (S.told shelf.old) (S.told shelf.new) result }
    ensures cause { HasCause log_failed (S.faults shelf.old) (S.faults shelf.new) result }
{
    let segment = window.segment;
    let left = window.size - at;
    let count = if left < PUT_HEAD as u64 {
        left
    } else {
        PUT_HEAD as u64
    };
    if !reach(shelf, window, at, count)? {
        return Err(LogFault::Damaged { segment, at });
    }
    let Ok(stated) = read_head(part_of(window, at, at + count), left) else {
        return Err(LogFault::Damaged { segment, at });
    };
    let end = at + u64::from(stated.head.size);
    let Some(sum) = checksum(shelf, window, at + 4, end)? else {
        return Err(LogFault::Damaged { segment, at });
    };
    match stated.check(sum) {
        Ok(head) => Ok(head),
        Err(_) => Err(LogFault::Damaged { segment, at }),
    }
}

/// Whether the window's segment begins with the magic.
pub(crate) fn has_magic<S: Shelf>(shelf: &mut S, window: &mut Window) -> Result<bool, StoreFault>
    ensures segment { OnSame window.old window.new }
    ensures sized { IfOk result (λ has. has ≡ true → 8 ≤ window.old.size) }
    ensures magic { (files : Files) → Tells (S.told shelf.old) files → IsWindowOf (segment_of files window.old) window.old
        → IfOk result (λ has. (IsTrue has ↔ HasMagic (segment_of files window.old)) × IsWindowOf (segment_of files window.old) window.new) }
    ensures same { KeepsTold store_failed (S.told shelf.old) (S.told shelf.new) result }
    ensures cause { HasCause store_failed (S.faults shelf.old) (S.faults shelf.new) result }
{
    let count = MAGIC.len() as u64;
    if window.size < count {
        return Ok(false);
    }
    if !reach(shelf, window, 0, count)? {
        return Ok(false);
    }
    Ok(part_of(window, 0, count).starts_with(&MAGIC))
}
