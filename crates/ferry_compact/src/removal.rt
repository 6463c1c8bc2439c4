//! The removal of segments, one after another.
ghost use Rattle.std.specs.Prelude.{◌≡◌, ◌∷◌, [], IsErrOf, map};
ghost use Rattle.ferry_disk.specs.Act.{RemoveOf};
ghost use Rattle.ferry_write.specs.Script.{Ran};
ghost use Rattle.ferry_write.specs.declared.fault.WriteFault.TheVariants as Write;

use ferry_disk::Depot;
use ferry_write::WriteFault;

/// Removes a segment.
fn remove_segment<D: Depot>(depot: &mut D, segment: u64) -> Result<(), WriteFault>
    ensures ran { Ran (RemoveOf segment ∷ []) (D.told depot.old) (D.told depot.new) (D.faults depot.old) (D.faults depot.new) result }
    ensures numbers { IsErrOf result Write.Numbers → ⊥ }
{
    depot.remove(segment)?;
    Ok(())
}

/// Removes these segments in their order, each once the one before it is removed.
pub(crate) fn remove_all<D: Depot>(depot: &mut D, numbers: &[u64]) -> Result<(), WriteFault>
    ensures ran { Ran (map RemoveOf numbers.now) (D.told depot.old) (D.told depot.new) (D.faults depot.old) (D.faults depot.new) result }
    ensures numbers { IsErrOf result Write.Numbers → ⊥ }
{
    for number in numbers {
        remove_segment(depot, *number)?;
    }
    Ok(())
}
