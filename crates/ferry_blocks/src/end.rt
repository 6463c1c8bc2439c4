//! The end of the counter blocks of all segments.
ghost use Rattle.std.specs.Prelude.{◌≡◌, ◌≤◌, min, length, IfOk, IfSome};
ghost use Rattle.ferry_disk.specs.Files.{Files};
ghost use Rattle.ferry_disk.specs.Device.{KeepsTold, HasCause, store_failed, told_files};
ghost use Rattle.ferry_blocks.specs.Blocks.{IsCountedIn, IsEndOf, IsEndOfBlocks};
ghost use Rattle.ferry_blocks.specs.Passes.{IsCountedBelow};
ghost use Rattle.ferry_log.specs.Window.{Tells};

use crate::part::{greater, pass};
use ferry_disk::{Name, Shelf, StoreFault, length_of, read_part};
use ferry_segment::MAGIC;
use std::alloc::Global;

/// The bytes that one read takes where heads lie near each other.
const LARGE_PART: u64 = 65536;

/// The bytes that one read takes where they don't.
const SMALL_PART: u64 = 1024;

/// How far behind a part that was read the next head may lie, so that heads lie near each other.
const NEAR: u64 = 4096;

/// The least number above all counter blocks that the blobs of a repository's segments take, 0 where there is
/// none.
///
/// All segments count that the device lists, committed or not. No more memory is taken than one part of a
/// segment, at most 65536 bytes, and the list of the segments' numbers.
///
/// Source: BorgBackup 1.2, Internals, "Data structures and file formats", Segments and Encryption.
pub fn blocks_end<S: Shelf>(alloc: Global, shelf: &mut S) -> Result<u128, StoreFault>
    ensures end { IfOk result (λ end. IfSome (S.told shelf.old) (λ t. IsEndOfBlocks (told_files t) end)) }
    ensures same { KeepsTold store_failed (S.told shelf.old) (S.told shelf.new) result }
    ensures cause { HasCause store_failed (S.faults shelf.old) (S.faults shelf.new) result }
{
    let numbers = shelf.segments(alloc)?;
    let mut part = Vec::new(alloc);
    end_in_segments(shelf, &numbers, &mut part)
}

/// The end of the counter blocks of these segments. Parts are read into `part`.
fn end_in_segments<S: Shelf>(
    shelf: &mut S,
    numbers: &[u64],
    part: &mut Vec<u8>,
) -> Result<u128, StoreFault>
    ensures end { (files : Files) → Tells (S.told shelf.old) files
        → IfOk result (IsEndOf (IsCountedBelow files numbers.now (length numbers.now))) }
    ensures same { KeepsTold store_failed (S.told shelf.old) (S.told shelf.new) result }
    ensures cause { HasCause store_failed (S.faults shelf.old) (S.faults shelf.new) result }
{
    let mut end = 0;
    for number in numbers {
        let own = end_in_segment(shelf, *number, part)?;
        end = greater(end, own);
    }
    Ok(end)
}

/// The end of the counter blocks of a segment.
fn end_in_segment<S: Shelf>(
    shelf: &mut S,
    segment: u64,
    part: &mut Vec<u8>,
) -> Result<u128, StoreFault>
    ensures end { (files : Files) → Tells (S.told shelf.old) files
        → IfOk result (IsEndOf (IsCountedIn files segment)) }
    ensures same { KeepsTold store_failed (S.told shelf.old) (S.told shelf.new) result }
    ensures cause { HasCause store_failed (S.faults shelf.old) (S.faults shelf.new) result }
{
    let size = length_of(shelf, Name::Segment(segment))?;
    let mut at = MAGIC.len() as u64;
    let mut end = 0;
    let mut most = LARGE_PART;
    while at < size {
        let count = count_of(most, size - at);
        read_part(shelf, Name::Segment(segment), at, count, part)?;
        let passed = pass(part, size - at);
        if passed.size == 0 {
            return Ok(end);
        }
        end = greater(end, passed.end);
        at += passed.size;
        most = next_most(count, passed.size);
    }
    Ok(end)
}

/// How many bytes are read of those that are left.
fn count_of(most: u64, left: u64) -> usize
    requires { most ≤ 65536 }
    ensures { result ≡ min most left }
{
    if most < left {
        most as usize
    } else {
        left as usize
    }
}

/// The most bytes of the next part, behind one of `count` bytes whose entries take `size` bytes.
fn next_most(count: usize, size: u64) -> u64
    requires { count ≤ 65536 }
    ensures { (82 ≤ result) × (result ≤ 65536) }
{
    if size < count as u64 + NEAR {
        LARGE_PART
    } else {
        SMALL_PART
    }
}
