//! An archive that is deleted.
ghost use Rattle.std.specs.Prelude.{◌≡◌, ◌⊎◌, false, None, Err, IfOk, IfErr, IfSome, OnOk};
ghost use Rattle.std.specs.List.{AllByRecursion};
ghost use Rattle.std.specs.Option.{option_copied};
ghost use Rattle.ferry_piece.specs.Fault.{IsOfReading, IsOfWork, random_failed, shelf_failed};
ghost use Rattle.ferry_piece.specs.Work.{Works};
ghost use Rattle.ferry_piece.specs.declared.fault.CarryFault.TheVariants as Carry;
ghost use Rattle.ferry_check.specs.Verify.{IsChunk, IsNamed};
ghost use Rattle.ferry_disk.specs.Device.{HasCause, told_files};
ghost use Rattle.ferry_disk.specs.Moments.{Between};
ghost use Rattle.ferry_manifest.specs.Manifest.Writing.{IsPackable};
ghost use Rattle.ferry_repo.specs.Archives.{archive_named};
ghost use Rattle.ferry_repo.specs.Opening.{repo_view};
ghost use Rattle.ferry_refs.specs.DeleteSteps.{ReadsGoing, RefusesGoing};
ghost use Rattle.ferry_refs.specs.Deleting.{Deletes, DeletesSound, LeavesCommitted, RefusesDelete, time_of};
ghost use Rattle.ferry_stops.specs.Tells.{TellsNothing};
ghost use Rattle.ferry_store.specs.Commit.{accepted_in, IsSettled, ReadsStore};
ghost use Rattle.ferry_store.specs.Fault.{source_failed};
ghost use Rattle.ferry_store.specs.State.{Did};
ghost use Rattle.ferry_store.specs.Store.{IsUnspent, StoreFits};

use crate::dropping::delete_with;
use crate::going::going_ids;
use ferry_base::{Bytes, Id};
use ferry_disk::{Depot, Entropy};
use ferry_piece::CarryFault;
use ferry_store::{Store, StoreRefusal};
use std::alloc::{AllocError, Global};

/// Deletes the archive of a name and the chunks that no other archive uses, in one commit, and answers how many chunks these were. The manifest is written at
/// the time that is given, or else at the time that it has.
///
/// The records and item streams of all archives are read first, so that a fault of one of them is a refusal before anything is written. `NotFound` has the
/// name where no archive has it; nothing is read then.
#[tactic(auto, using(ferry_piece::proofs::FaultLemmas::conversions))]
pub fn delete<D: Depot, E: Entropy>(
    alloc: Global,
    store: &mut Store,
    depot: &mut D,
    entropy: &mut E,
    name: &[u8],
    timestamp: Option<&[u8]>,
) -> Result<u64, CarryFault>
    requires unspent { IsUnspent store.old }
    requires fits { IfSome (D.told depot.old) (λ t. StoreFits false store.old t.history) }
    requires packable { IsPackable (accepted_in store.old) }
    requires settled { IsSettled store.old }
    ensures works { Works (DeletesSound name.now (time_of (option_copied timestamp.entry) (repo_view store.old.repo).manifest) store.old)
        (λ count. Deletes name.now (time_of (option_copied timestamp.entry) (repo_view store.old.repo).manifest) store.old store.new count)
        (D.told depot.old) (D.told depot.new) (D.faults depot.old) (D.faults depot.new) result }
    ensures untold { Between (D.told depot.old) (D.told depot.new) TellsNothing }
    ensures refused { IfErr result (λ fault. IfSome (D.told depot.old) (λ t. RefusesDelete (told_files t) (repo_view store.old.repo) name.now
        (time_of (option_copied timestamp.entry) (repo_view store.old.repo).manifest) (D.told depot.new) fault)) }
    // Where the name isn't there, or the repository doesn't read, nothing is done.
    ensures unwritten { IfErr result (λ fault. IsOfReading fault → Between (D.told depot.old) (D.told depot.new) (λ h g. g ≡ h)) }
    // Where no archive has the name, that is answered, but for want of memory, and nothing is done.
    ensures nothing { archive_named name.now (repo_view store.old.repo).manifest.archives ≡ None → (depot.new ≡ depot.old)
        × ((result ≡ Err (Carry.NotFound name.now)) ⊎ (result ≡ Err Carry.Memory)) }
    // Where no device failed and memory wasn't refused, nothing is committed.
    ensures keeps { IfErr result (λ fault. IsOfWork fault → Between (D.told depot.old) (D.told depot.new) (LeavesCommitted store.old)) }
    ensures shelf { IfErr result (λ fault. shelf_failed fault ≡ false) }
    ensures entropy { HasCause random_failed (E.faults entropy.old) (E.faults entropy.new) result }
{
    if !store.has(name) {
        let missing = Bytes::new(Vec::from_slice(alloc, name)?);
        return Err(CarryFault::NotFound(missing));
    }
    let going = read_going(alloc, store, depot, name)?;
    let time = time_for(alloc, store, timestamp)?;
    delete_with(store, depot, entropy, name, &time, &going)?;
    Ok(going.len() as u64)
}

/// Reads from the repository of a store which chunks go with the archive of a name.
fn read_going<D: Depot>(
    alloc: Global,
    store: &mut Store,
    depot: &mut D,
    name: &[u8],
) -> Result<Vec<Id>, StoreRefusal>
    requires fits { IfSome (D.told depot.old) (λ t. StoreFits false store.old t.history) }
    requires packable { IsPackable (repo_view store.old.repo).manifest }
    requires named { IsNamed (repo_view store.old.repo) name.now }
    ensures did { Did (LeavesCommitted store.old) (λ ids. ReadsGoing name.now ids.items store.old store.new)
        (D.told depot.old) (D.told depot.new) (D.faults depot.old) (D.faults depot.new) result }
    ensures untold { Between (D.told depot.old) (D.told depot.new) TellsNothing }
    ensures read { ReadsStore store.old store.new }
    ensures same { Between (D.told depot.old) (D.told depot.new) (λ h g. g ≡ h) }
    ensures chunks { IfOk result (λ ids. AllByRecursion (IsChunk (repo_view store.old.repo).log) ids.items) }
    ensures fits { OnOk result (IfSome (D.told depot.new) (λ t. StoreFits false store.new t.history)) }
    ensures refused { IfErr result (RefusesGoing (D.told depot.old) (repo_view store.old.repo)) }
    ensures drawn { IfErr result (λ refusal. source_failed refusal ≡ false) }
{
    let going = going_ids(alloc, store.repo(), depot, name)?;
    Ok(going)
}

/// The time that is given, or else that of the manifest of a store, none at all where it has none.
pub(crate) fn time_for(
    alloc: Global,
    store: &Store,
    given: Option<&[u8]>,
) -> Result<Vec<u8>, AllocError>
    ensures time { IfOk result (λ time. time.items ≡ time_of (option_copied given.entry) (repo_view store.now.repo).manifest) }
{
    if let Some(time) = given {
        return Vec::from_slice(alloc, time);
    }
    match &store.manifest().timestamp {
        Some(time) => Vec::from_slice(alloc, time.as_slice()),
        None => Ok(Vec::new(alloc)),
    }
}
