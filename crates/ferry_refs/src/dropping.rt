//! Chunks that are dropped with the name of their archive.
ghost use Rattle.std.specs.Prelude.{◌≡◌, ◌≢◌, false, IfErr, IfSome, OnOk};
ghost use Rattle.std.specs.List.{AllByRecursion};
ghost use Rattle.ferry_check.specs.Verify.{IsChunk, IsNamed};
ghost use Rattle.ferry_disk.specs.Device.{HasCause, told_files};
ghost use Rattle.ferry_disk.specs.Moments.{Between};
ghost use Rattle.ferry_manifest.specs.Manifest.Writing.{IsPackable};
ghost use Rattle.ferry_repo.specs.Opening.{repo_view};
ghost use Rattle.ferry_refs.specs.DeleteSteps.{DeletesWith, DropsAll, RefusesDrops, RefusesWith, SoundWith};
ghost use Rattle.ferry_refs.specs.Deleting.{LeavesCommitted};
ghost use Rattle.ferry_stops.specs.Tells.{TellsNothing};
ghost use Rattle.ferry_store.specs.Causes.{StopsAt};
ghost use Rattle.ferry_store.specs.Commit.{accepted_in, IsSettled};
ghost use Rattle.ferry_store.specs.Fault.{depot_failed, source_failed};
ghost use Rattle.ferry_store.specs.State.{Did};
ghost use Rattle.ferry_store.specs.Store.{IsUnspent, StoreFits};
ghost use Rattle.ferry_store.specs.declared.fault.StoreRefusal.TheVariants as Refusal;

use ferry_base::Id;
use ferry_disk::{Depot, Entropy};
use ferry_store::{Store, StoreRefusal};

/// Deletes these chunks and the archive of a name, in one commit, whose manifest is written at this time.
pub(crate) fn delete_with<D: Depot, E: Entropy>(
    store: &mut Store,
    depot: &mut D,
    entropy: &mut E,
    name: &[u8],
    time: &[u8],
    ids: &[Id],
) -> Result<(), StoreRefusal>
    requires unspent { IsUnspent store.old }
    requires fits { IfSome (D.told depot.old) (λ t. StoreFits false store.old t.history) }
    requires packable { IsPackable (accepted_in store.old) }
    requires settled { IsSettled store.old }
    requires named { IsNamed (repo_view store.old.repo) name.now }
    requires chunks { AllByRecursion (IsChunk (repo_view store.old.repo).log) ids.now }
    ensures did { Did (SoundWith name.now time.now ids.now store.old) (λ _. DeletesWith name.now time.now ids.now store.old store.new)
        (D.told depot.old) (D.told depot.new) (D.faults depot.old) (D.faults depot.new) result }
    ensures untold { Between (D.told depot.old) (D.told depot.new) TellsNothing }
    ensures refused { IfErr result (RefusesWith (repo_view store.old.repo) name.now time.now (D.told depot.new)) }
    ensures stops { IfErr result (λ refusal. IfSome (D.told depot.new) (λ t. StopsAt t.history.start (told_files t) (repo_view store.old.repo).keys refusal)) }
    ensures keeps { IfErr result (λ refusal. depot_failed refusal ≡ false → refusal ≢ Refusal.Memory
        → Between (D.told depot.old) (D.told depot.new) (LeavesCommitted store.old)) }
    ensures entropy { HasCause source_failed (E.faults entropy.old) (E.faults entropy.new) result }
{
    drop_chunks(store, depot, ids)?;
    store.drop_name(name);
    store.commit(depot, entropy, time)
}

/// Drops chunks, one after another.
pub(crate) fn drop_chunks<D: Depot>(
    store: &mut Store,
    depot: &mut D,
    ids: &[Id],
) -> Result<(), StoreRefusal>
    requires unspent { IsUnspent store.old }
    requires fits { IfSome (D.told depot.old) (λ t. StoreFits false store.old t.history) }
    requires chunks { AllByRecursion (IsChunk (repo_view store.old.repo).log) ids.now }
    ensures did { Did (LeavesCommitted store.old) (λ _. DropsAll store.old ids.now store.new)
        (D.told depot.old) (D.told depot.new) (D.faults depot.old) (D.faults depot.new) result }
    ensures untold { Between (D.told depot.old) (D.told depot.new) TellsNothing }
    ensures rest { store.new ≡ record store.old { session = store.new.session; spent = store.new.spent } }
    ensures refused { IfErr result RefusesDrops }
    ensures stops { IfErr result (λ refusal. IfSome (D.told depot.new) (λ t. StopsAt t.history.start (told_files t) (repo_view store.old.repo).keys refusal)) }
    ensures unspent { OnOk result (IsUnspent store.new) }
{
    for place in 0..ids.len() {
        store.drop_chunk(depot, &ids[place])?;
    }
    Ok(())
}
