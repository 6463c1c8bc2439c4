//! Archives whose records get an authentication tag.
ghost use Rattle.std.specs.Prelude.{◌≡◌, ◌≢◌, ◌<◌, ◌++◌, ℕ, List, false, length, option_map, IfOk, IfErr, IfSome, OnOk, ◌⊎◌};
ghost use Rattle.std.specs.List.{AllByRecursion};
ghost use Rattle.std.specs.Option.{option_copied};
ghost use Rattle.ferry_check.specs.Verify.{IsChunk};
ghost use Rattle.ferry_disk.specs.Device.{HasCause, told_files};
ghost use Rattle.ferry_disk.specs.Moments.{Between};
ghost use Rattle.ferry_manifest.specs.Manifest.Writing.{IsPackable};
ghost use Rattle.ferry_manifest.specs.Record.Text.{archive_view};
ghost use Rattle.ferry_manifest.specs.Record.Writing.{IsPackableArchive};
ghost use Rattle.ferry_next.specs.Next.{written_at};
ghost use Rattle.ferry_piece.specs.Fault.{IsOfReading, IsOfWork, random_failed, shelf_failed};
ghost use Rattle.ferry_piece.specs.Work.{Works};
ghost use Rattle.ferry_refs.specs.DeleteSteps.{RefusesGoing};
ghost use Rattle.ferry_refs.specs.Deleting.{LeavesCommitted, time_of};
ghost use Rattle.ferry_refs.specs.TagSteps.{Frees, FreesSound, IsNamedIn, ReadsOld, RefusesFreeing, RefusesWriting, SoundTagged, TagsWith, olds_view};
ghost use Rattle.ferry_refs.specs.Tagging.{RefusesTagging, Tags, TagsSound, IsOfNewRecord};
ghost use Rattle.ferry_repo.specs.Opening.{repo_view};
ghost use Rattle.ferry_stops.specs.Tells.{TellsNothing};
ghost use Rattle.ferry_store.specs.Causes.{StopsAt};
ghost use Rattle.ferry_store.specs.Commit.{accepted_in, IsSettled, ReadsStore};
ghost use Rattle.ferry_store.specs.Fault.{depot_failed, source_failed};
ghost use Rattle.ferry_store.specs.Standing.{with_manifest};
ghost use Rattle.ferry_store.specs.State.{Did};
ghost use Rattle.ferry_store.specs.Store.{IsUnspent, StoreFits};
ghost use Rattle.ferry_store.specs.declared.fault.StoreRefusal.TheVariants as Refusal;

use crate::deleting::time_for;
use crate::dropping::drop_chunks;
use crate::renewing::{add_records, rename_archives};
use crate::untagged::{OldRecords, old_records};
use ferry_base::Id;
use ferry_disk::{Depot, Entropy};
use ferry_piece::CarryFault;
use ferry_store::{Store, StoreRefusal};
use std::alloc::Global;

/// Gives an authentication tag to the record of each archive that has none: the record with a tag is added, the archive's name stands for it from then on,
/// with the same time, and old records that nothing uses any more are dropped, all in one commit. It answers how many records got a tag; where this is none,
/// nothing is done. The manifest is written at the time that is given, or else at the time that it has.
///
/// The records and item streams of all archives are read first, so that a fault of one of them is a refusal before anything is written. `Record` is a record
/// that is too large with its tag.
///
/// Source: BorgBackup 1.2, Internals, "Data structures and file formats", Archives.
#[tactic(auto, using(ferry_piece::proofs::FaultLemmas::conversions))]
pub fn tag_archives<D: Depot, E: Entropy>(
    alloc: Global,
    store: &mut Store,
    depot: &mut D,
    entropy: &mut E,
    timestamp: Option<&[u8]>,
) -> Result<u64, CarryFault>
    requires unspent { IsUnspent store.old }
    requires fits { IfSome (D.told depot.old) (λ t. StoreFits false store.old t.history) }
    requires packable { IsPackable (accepted_in store.old) }
    requires settled { IsSettled store.old }
    ensures works { Works (TagsSound (time_of (option_copied timestamp.entry) (repo_view store.old.repo).manifest) store.old)
        (λ count. Tags (time_of (option_copied timestamp.entry) (repo_view store.old.repo).manifest) (E.drawn entropy.old) (E.drawn entropy.new)
        store.old store.new count)
        (D.told depot.old) (D.told depot.new) (D.faults depot.old) (D.faults depot.new) result }
    ensures untold { Between (D.told depot.old) (D.told depot.new) TellsNothing }
    ensures refused { IfErr result (λ fault. IfSome (D.told depot.old) (λ t. RefusesTagging (told_files t) (repo_view store.old.repo)
        (time_of (option_copied timestamp.entry) (repo_view store.old.repo).manifest) (E.drawn entropy.old) (E.drawn entropy.new) (D.told depot.new) fault)) }
    // Where the repository doesn't read, nothing is done, unless what doesn't is a chunk that is live under the id of a new record.
    ensures unwritten { IfErr result (λ fault. IsOfReading fault → Between (D.told depot.old) (D.told depot.new) (λ h g. g ≡ h)
        ⊎ IfSome (D.told depot.old) (λ t. IsOfNewRecord (told_files t) (repo_view store.old.repo) (E.drawn entropy.old) (E.drawn entropy.new)
        (D.told depot.new) fault)) }
    // Where no device failed and memory wasn't refused, nothing is committed.
    ensures keeps { IfErr result (λ fault. IsOfWork fault → Between (D.told depot.old) (D.told depot.new) (LeavesCommitted store.old)) }
    ensures shelf { IfErr result (λ fault. shelf_failed fault ≡ false) }
    ensures entropy { HasCause random_failed (E.faults entropy.old) (E.faults entropy.new) result }
{
    let old = read_old(alloc, store, depot)?;
    if old.untagged.is_empty() {
        return Ok(0);
    }
    let time = time_for(alloc, store, timestamp)?;
    write_tagged(alloc, store, depot, entropy, &time, &old)?;
    Ok(old.untagged.len() as u64)
}

/// Reads from the repository of a store which archives have a record without a tag.
fn read_old<D: Depot>(
    alloc: Global,
    store: &mut Store,
    depot: &mut D,
) -> Result<OldRecords, StoreRefusal>
    requires fits { IfSome (D.told depot.old) (λ t. StoreFits false store.old t.history) }
    requires packable { IsPackable (repo_view store.old.repo).manifest }
    ensures did { Did (LeavesCommitted store.old) (λ old. ReadsOld (olds_view old.untagged.items) old.freed.items store.old store.new)
        (D.told depot.old) (D.told depot.new) (D.faults depot.old) (D.faults depot.new) result }
    ensures untold { Between (D.told depot.old) (D.told depot.new) TellsNothing }
    ensures read { ReadsStore store.old store.new }
    ensures same { Between (D.told depot.old) (D.told depot.new) (λ h g. g ≡ h) }
    ensures chunks { IfOk result (λ old. AllByRecursion (IsChunk (repo_view store.old.repo).log) old.freed.items) }
    ensures named { IfOk result (λ old. AllByRecursion (λ u. IsNamedIn (repo_view store.old.repo).manifest u.named) old.untagged.items) }
    ensures packable { IfOk result (λ old. AllByRecursion (λ u. IsPackableArchive (archive_view u.archive)) old.untagged.items) }
    ensures fits { OnOk result (IfSome (D.told depot.new) (λ t. StoreFits false store.new t.history)) }
    ensures refused { IfErr result (RefusesGoing (D.told depot.old) (repo_view store.old.repo)) }
    ensures drawn { IfErr result (λ refusal. source_failed refusal ≡ false) }
{
    let old = old_records(alloc, store.repo(), depot)?;
    Ok(old)
}

/// Adds the records with their tags, lets the names stand for them, drops the old ones that nothing uses, and commits.
#[tactic(auto, using(ferry_piece::proofs::FaultLemmas::conversions))]
fn write_tagged<D: Depot, E: Entropy>(
    alloc: Global,
    store: &mut Store,
    depot: &mut D,
    entropy: &mut E,
    time: &[u8],
    old: &OldRecords,
) -> Result<(), CarryFault>
    requires unspent { IsUnspent store.old }
    requires fits { IfSome (D.told depot.old) (λ t. StoreFits false store.old t.history) }
    requires packable { IsPackable (accepted_in store.old) }
    requires settled { IsSettled store.old }
    requires some { 0 < length old.now.untagged.items }
    requires chunks { AllByRecursion (IsChunk (repo_view store.old.repo).log) old.now.freed.items }
    requires named { AllByRecursion (λ u. IsNamedIn (repo_view store.old.repo).manifest u.named) old.now.untagged.items }
    requires archives { AllByRecursion (λ u. IsPackableArchive (archive_view u.archive)) old.now.untagged.items }
    ensures works { Works (SoundTagged time.now (olds_view old.now.untagged.items) old.now.freed.items store.old)
        (λ _. TagsWith time.now (E.drawn entropy.old) (E.drawn entropy.new) (olds_view old.now.untagged.items) old.now.freed.items store.old store.new)
        (D.told depot.old) (D.told depot.new) (D.faults depot.old) (D.faults depot.new) result }
    ensures untold { Between (D.told depot.old) (D.told depot.new) TellsNothing }
    ensures refused { IfErr result (λ fault. IfSome (D.told depot.old) (λ _. RefusesWriting (repo_view store.old.repo) time.now
        (olds_view old.now.untagged.items) (E.drawn entropy.old) (E.drawn entropy.new) (D.told depot.new) fault)) }
    ensures keeps { IfErr result (λ fault. IsOfWork fault → Between (D.told depot.old) (D.told depot.new) (LeavesCommitted store.old)) }
    ensures shelf { IfErr result (λ fault. shelf_failed fault ≡ false) }
    ensures entropy { HasCause random_failed (E.faults entropy.old) (E.faults entropy.new) result }
{
    let ids = add_records(alloc, store, depot, entropy, &old.untagged)?;
    rename_archives(alloc, store, &old.untagged, &ids)?;
    free_and_commit(store, depot, entropy, time, &old.freed)?;
    Ok(())
}

/// Drops these chunks, and commits what was accepted, at this time.
fn free_and_commit<D: Depot, E: Entropy>(
    store: &mut Store,
    depot: &mut D,
    entropy: &mut E,
    time: &[u8],
    ids: &[Id],
) -> Result<(), StoreRefusal>
    requires unspent { IsUnspent store.old }
    requires fits { IfSome (D.told depot.old) (λ t. StoreFits false store.old t.history) }
    requires packable { IsPackable (accepted_in store.old) }
    requires chunks { AllByRecursion (IsChunk (repo_view store.old.repo).log) ids.now }
    ensures did { Did (FreesSound time.now ids.now store.old) (λ _. Frees ids.now store.old store.new)
        (D.told depot.old) (D.told depot.new) (D.faults depot.old) (D.faults depot.new) result }
    ensures untold { Between (D.told depot.old) (D.told depot.new) TellsNothing }
    ensures drawn { OnOk result ((salt : List ℕ) × ((length salt ≡ 64)
        × (E.drawn entropy.new ≡ option_map (λ d. d ++ salt) (E.drawn entropy.old)))) }
    ensures manifest { OnOk result (repo_view store.new.repo ≡ with_manifest (repo_view store.old.repo) (written_at (accepted_in store.old) time.now)) }
    ensures refused { IfErr result (RefusesFreeing (repo_view store.old.repo).keys (written_at (accepted_in store.old) time.now)) }
    ensures stops { IfErr result (λ refusal. IfSome (D.told depot.new) (λ t. StopsAt t.history.start (told_files t) (repo_view store.old.repo).keys refusal)) }
    ensures keeps { IfErr result (λ refusal. depot_failed refusal ≡ false → refusal ≢ Refusal.Memory
        → Between (D.told depot.old) (D.told depot.new) (LeavesCommitted store.old)) }
    ensures entropy { HasCause source_failed (E.faults entropy.old) (E.faults entropy.new) result }
{
    drop_chunks(store, depot, ids)?;
    store.commit(depot, entropy, time)
}
