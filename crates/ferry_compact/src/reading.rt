//! Entries of a segment, as the passes over a log read them.
ghost use Rattle.std.specs.Prelude.{◌≡◌, ◌⊎◌, ◌+◌, ◌<◌, ◌≤◌, ◌^◌, List, ℕ, drop, length, min, take, IfOk, IfErr, IsOkAnd, MatchResult};
ghost use Rattle.ferry_compact.specs.Fault.{compact_failed};
ghost use Rattle.ferry_compact.specs.Reading.{IsOutside, IsPlace};
ghost use Rattle.ferry_compact.specs.declared.fault.CompactFault.TheVariants as Compact;
ghost use Rattle.ferry_disk.specs.Device.{HasCause, KeepsTold};
ghost use Rattle.ferry_disk.specs.Files.{Files, segment_bytes};
ghost use Rattle.ferry_log.specs.Window.{Tells};
ghost use Rattle.ferry_segment.specs.Entry.{LogEntry};
ghost use Rattle.ferry_segment.specs.Head.{BeginsAt, HasHead};

use crate::fault::CompactFault;
use ferry_base::PUT_HEAD;
use ferry_disk::{Depot, Name, read_part};
use ferry_log::Extent;
use ferry_segment::{EntryFault, Head, read_head};
use std::alloc::Global;

/// The tag of a PUT.
pub(crate) const PUT: u8 = 0;

/// The tag of a DELETE.
pub(crate) const DELETE: u8 = 1;

/// The head that the first bytes of an entry state: 41 of them, or as many as are left from its first byte on. Its checksum is taken as it is stated.
fn stated_head(front: &[u8], left: u64) -> Result<Head, EntryFault>
    ensures head { (bytes : List ℕ) (at : ℕ) (entry : LogEntry) → BeginsAt bytes at entry → length bytes ≡ at + left
        → front.now ≡ take (min 41 left) (drop at bytes) → IsOkAnd result (HasHead bytes at) }
{
    let count = front.len();
    if count < PUT_HEAD && (count as u64) < left {
        return Err(EntryFault::Short);
    }
    let stated = read_head(front, left)?;
    stated.check(stated.crc)
}

/// The head of the entry that begins at byte `at` of a segment, which is to be there.
///
/// The entry was read with its checksum when the log was opened, so its first bytes alone are read here.
pub(crate) fn head_there<D: Depot>(
    alloc: Global,
    depot: &mut D,
    extent: &Extent,
    at: u64,
) -> Result<Head, CompactFault>
    requires inside { at < extent.now.size }
    ensures head { (files : Files) → Tells (D.told depot.old) files → IsPlace files extent.now at
        → MatchResult result (HasHead (segment_bytes files extent.now.segment) at) IsOutside }
    ensures same { KeepsTold compact_failed (D.told depot.old) (D.told depot.new) result }
    ensures cause { HasCause compact_failed (D.faults depot.old) (D.faults depot.new) result }
{
    let segment = extent.segment;
    let left = extent.size - at;
    let count = left.min(PUT_HEAD as u64) as usize;
    let mut front = Vec::new(alloc);
    read_part(depot, Name::Segment(segment), at, count, &mut front)?;
    match stated_head(&front, left) {
        Ok(head) => Ok(head),
        Err(_) => Err(CompactFault::Damaged { segment, at }),
    }
}

/// The place behind an entry of this size, which is to be some.
pub(crate) fn place_behind(segment: u64, at: u64, size: u32) -> Result<u64, CompactFault>
    ensures place { IfOk result (λ place. (place ≡ at + size) × (at < place)) }
    ensures refused { IfErr result (λ fault. (fault ≡ Compact.Damaged segment at) × ((size ≡ 0) ⊎ (2 ^ 64 ≤ at + size))) }
{
    match at.checked_add(u64::from(size)) {
        Some(place) if place > at => Ok(place),
        _ => Err(CompactFault::Damaged { segment, at }),
    }
}
