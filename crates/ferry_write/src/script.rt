//! The steps of a session's calls.
ghost use Rattle.std.specs.Prelude.{◌≡◌, ◌∷◌, ◌++◌, [], IfOk, IfSome, IsErrOf, Option, nat_lt};
ghost use Rattle.ferry_disk.specs.Act.{AppendTo, SyncOf, RemoveOf, SettleAll};
ghost use Rattle.ferry_disk.specs.Device.{told_files};
ghost use Rattle.ferry_disk.specs.Files.{segment_numbers};
ghost use Rattle.ferry_segment.specs.Entry.{CommitEntry, spelling};
ghost use Rattle.ferry_segment.specs.Segment.{magic};
ghost use Rattle.ferry_write.specs.Room.{behind, sync_steps};
ghost use Rattle.ferry_write.specs.Script.{Ran, Clears, removals};
ghost use Rattle.ferry_write.specs.declared.fault.WriteFault.TheVariants as Write;

use crate::fault::WriteFault;
use ferry_disk::Depot;
use ferry_segment::{COMMIT_SEGMENT, MAGIC};
use std::alloc::Global;

/// Makes all stable that a read gives.
pub(crate) fn settle_all<D: Depot>(depot: &mut D) -> Result<(), WriteFault>
    ensures ran { Ran (SettleAll ∷ []) (D.told depot.old) (D.told depot.new) (D.faults depot.old) (D.faults depot.new) result }
    ensures numbers { IsErrOf result Write.Numbers → ⊥ }
{
    depot.settle()?;
    Ok(())
}

/// Appends bytes to a segment.
pub(crate) fn append_to<D: Depot>(
    depot: &mut D,
    segment: u64,
    bytes: &[u8],
) -> Result<(), WriteFault>
    ensures ran { Ran (AppendTo segment bytes.now ∷ []) (D.told depot.old) (D.told depot.new) (D.faults depot.old) (D.faults depot.new) result }
    ensures numbers { IsErrOf result Write.Numbers → ⊥ }
{
    depot.append(segment, bytes)?;
    Ok(())
}

/// Makes a segment stable.
pub(crate) fn sync_segment<D: Depot>(depot: &mut D, segment: u64) -> Result<(), WriteFault>
    ensures ran { Ran (SyncOf segment ∷ []) (D.told depot.old) (D.told depot.new) (D.faults depot.old) (D.faults depot.new) result }
    ensures numbers { IsErrOf result Write.Numbers → ⊥ }
{
    depot.sync(segment)?;
    Ok(())
}

/// Removes a segment.
pub(crate) fn remove_segment<D: Depot>(depot: &mut D, segment: u64) -> Result<(), WriteFault>
    ensures ran { Ran (RemoveOf segment ∷ []) (D.told depot.old) (D.told depot.new) (D.faults depot.old) (D.faults depot.new) result }
    ensures numbers { IsErrOf result Write.Numbers → ⊥ }
{
    depot.remove(segment)?;
    Ok(())
}

/// The numbers of the segments that are there, increasing.
pub(crate) fn list_segments<D: Depot>(alloc: Global, depot: &mut D) -> Result<Vec<u64>, WriteFault>
    ensures ran { Ran [] (D.told depot.old) (D.told depot.new) (D.faults depot.old) (D.faults depot.new) result }
    ensures listed { IfOk result (λ numbers. IfSome (D.told depot.old) (λ t. numbers.items ≡ segment_numbers (told_files t))) }
    ensures numbers { IsErrOf result Write.Numbers → ⊥ }
{
    let numbers = depot.segments(alloc)?;
    Ok(numbers)
}

/// Makes the segment that is written stable, where there is one.
pub(crate) fn sync_current<D: Depot>(
    depot: &mut D,
    last: Option<u64>,
    size: Option<u64>,
) -> Result<(), WriteFault>
    ensures ran { Ran (sync_steps last size) (D.told depot.old) (D.told depot.new) (D.faults depot.old) (D.faults depot.new) result }
    ensures numbers { IsErrOf result Write.Numbers → ⊥ }
{
    match (last, size) {
        (Some(last), Some(_)) => sync_segment(depot, last),
        _ => Ok(()),
    }
}

/// Begins a segment, once the one that was written is stable.
pub(crate) fn begin_segment<D: Depot>(
    depot: &mut D,
    last: Option<u64>,
    size: Option<u64>,
    number: u64,
) -> Result<(), WriteFault>
    ensures ran { Ran (sync_steps last size ++ (AppendTo number magic ∷ [])) (D.told depot.old) (D.told depot.new) (D.faults depot.old)
        (D.faults depot.new) result }
    ensures numbers { IsErrOf result Write.Numbers → ⊥ }
{
    sync_current(depot, last, size)?;
    append_to(depot, number, &MAGIC)
}

/// Appends two parts of an entry.
pub(crate) fn append_parts<D: Depot>(
    depot: &mut D,
    segment: u64,
    head: &[u8],
    blob: &[u8],
) -> Result<(), WriteFault>
    ensures ran { Ran ((AppendTo segment head.now ∷ []) ++ (AppendTo segment blob.now ∷ [])) (D.told depot.old) (D.told depot.new)
        (D.faults depot.old) (D.faults depot.new) result }
    ensures numbers { IsErrOf result Write.Numbers → ⊥ }
{
    append_to(depot, segment, head)?;
    append_to(depot, segment, blob)
}

/// Writes a commit into a segment of its own and makes it stable.
///
/// What was put has to be stable before: a COMMIT counts as soon as it can be read.
pub(crate) fn append_commit<D: Depot>(depot: &mut D, number: u64) -> Result<(), WriteFault>
    ensures ran { Ran ((AppendTo number (magic ++ spelling CommitEntry) ∷ []) ++ (SyncOf number ∷ [])) (D.told depot.old) (D.told depot.new)
        (D.faults depot.old) (D.faults depot.new) result }
    ensures numbers { IsErrOf result Write.Numbers → ⊥ }
{
    append_to(depot, number, &COMMIT_SEGMENT)?;
    sync_segment(depot, number)
}

/// Removes those of these segments that are above another, or all, in their order.
pub(crate) fn remove_above<D: Depot>(
    depot: &mut D,
    numbers: &[u64],
    after: Option<u64>,
) -> Result<(), WriteFault>
    ensures ran { Ran (removals (behind after) numbers.now) (D.told depot.old) (D.told depot.new) (D.faults depot.old) (D.faults depot.new) result }
    ensures numbers { IsErrOf result Write.Numbers → ⊥ }
{
    for number in numbers {
        remove_if_above(depot, *number, after)?;
    }
    Ok(())
}

/// Removes a segment, where it is above another.
fn remove_if_above<D: Depot>(
    depot: &mut D,
    number: u64,
    after: Option<u64>,
) -> Result<(), WriteFault>
    ensures ran { Ran (removals (behind after) (number ∷ [])) (D.told depot.old) (D.told depot.new) (D.faults depot.old) (D.faults depot.new) result }
    ensures numbers { IsErrOf result Write.Numbers → ⊥ }
{
    if is_up_to(number, after) {
        return Ok(());
    }
    remove_segment(depot, number)
}

/// Whether a segment isn't above another.
fn is_up_to(number: u64, after: Option<u64>) -> bool
    ensures { result ≡ nat_lt number (behind after) }
{
    match after {
        None => false,
        Some(after) => number <= after,
    }
}

/// Makes all stable that a read gives, and removes every segment above another, or all, by increasing number.
pub(crate) fn clear<D: Depot>(
    alloc: Global,
    depot: &mut D,
    after: Option<u64>,
) -> Result<(), WriteFault>
    ensures clears { Clears (behind after) (D.told depot.old) (D.told depot.new) (D.faults depot.old) (D.faults depot.new) result }
    ensures numbers { IsErrOf result Write.Numbers → ⊥ }
{
    settle_all(depot)?;
    let numbers = list_segments(alloc, depot)?;
    remove_above(depot, &numbers, after)
}
