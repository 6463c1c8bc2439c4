//! The head of one entry of a segment.
ghost use Rattle.std.specs.Prelude.{IfOk, IfErr, IfSome};
ghost use Rattle.ferry_disk.specs.Files.{segment_bytes};
ghost use Rattle.ferry_disk.specs.Device.{KeepsTold, HasCause, told_files};
ghost use Rattle.ferry_log.specs.Fault.{log_failed};
ghost use Rattle.ferry_log.specs.Head.{IsHeadAt, NamesPlace, IsHeadless};

use crate::fault::LogFault;
use crate::window::{entry_head, no_window, open_window};
use ferry_disk::Shelf;
use ferry_segment::Head;
use std::alloc::Global;

/// The head of the entry that begins at byte `at` of a segment, `None` at the segment's end. An absent segment is empty.
///
/// The entry is read in windows of at most 65536 bytes, and no more memory is taken than one of them.
pub fn head_at<S: Shelf>(
    alloc: Global,
    shelf: &mut S,
    segment: u64,
    at: u64,
) -> Result<Option<Head>, LogFault>
    ensures head { IfOk result (λ head. IfSome (S.told shelf.old) (λ t. IsHeadAt (segment_bytes (told_files t) segment) at head)) }
    ensures place { IfErr result (NamesPlace segment at) }
    ensures damaged { IfErr result (λ fault. IfSome (S.told shelf.old) (λ t. IsHeadless (segment_bytes (told_files t) segment) at fault)) }
    ensures same { KeepsTold log_failed (S.told shelf.old) (S.told shelf.new) result }
    ensures cause { HasCause log_failed (S.faults shelf.old) (S.faults shelf.new) result }
{
    let mut window = no_window(alloc);
    open_window(shelf, segment, &mut window)?;
    if at == window.size {
        return Ok(None);
    }
    if at > window.size {
        return Err(LogFault::Damaged { segment, at });
    }
    Ok(Some(entry_head(shelf, &mut window, at)?))
}
