//! Records that are added anew with an authentication tag, and that come under the names of their archives.
ghost use Rattle.std.specs.Prelude.{◌≡◌, ◌≢◌, ◌≤◌, ◌∷◌, [], ℕ, false, List, IfErr, IfOk, IfSome, OnOk, length, map};
ghost use Rattle.std.specs.List.{AllByRecursion};
ghost use Rattle.ferry_base.specs.Limits.{content_limit};
ghost use Rattle.ferry_blob.specs.Blob.{content_id};
ghost use Rattle.ferry_disk.specs.Device.{HasCause};
ghost use Rattle.ferry_disk.specs.Moments.{Between};
ghost use Rattle.ferry_manifest.specs.Manifest.Writing.{IsPackable};
ghost use Rattle.ferry_manifest.specs.Record.Text.{archive_view};
ghost use Rattle.ferry_manifest.specs.Record.Writing.{IsPackableArchive};
ghost use Rattle.ferry_piece.specs.Fault.{random_failed, shelf_failed};
ghost use Rattle.ferry_piece.specs.Work.{Works};
ghost use Rattle.ferry_refs.specs.Deleting.{LeavesCommitted};
ghost use Rattle.ferry_refs.specs.TagSteps.{AddsTexts, IsNamedIn, KeepsRepo, RefusesNewRecord, RefusesRenewal, RefusesSome, olds_view};
ghost use Rattle.ferry_refs.specs.Tagging.{DrawsRenewal, DrawsRenewals, IsRenewal, ids_under, renewed, renewed_entries, renewed_entry, with_renewed};
ghost use Rattle.ferry_repo.specs.Opening.{repo_view};
ghost use Rattle.ferry_stops.specs.Tells.{TellsNothing};
ghost use Rattle.ferry_store.specs.Commit.{accepted_in};
ghost use Rattle.ferry_store.specs.Store.{IsUnspent, StoreFits};
ghost use Rattle.ferry_store.specs.declared.fault.StoreRefusal.TheVariants as Refusal;

use crate::untagged::Untagged;
use ferry_base::{Bytes, Id};
use ferry_disk::{Depot, Entropy};
use ferry_mac::Keys;
use ferry_manifest::{Archive, ArchiveRef, MetaFault, write_archive};
use ferry_piece::CarryFault;
use ferry_store::{Store, StoreRefusal};
use std::alloc::{AllocError, Global};

/// Adds the records of these archives with their tags, and answers their ids.
pub(crate) fn add_records<D: Depot, E: Entropy>(
    alloc: Global,
    store: &mut Store,
    depot: &mut D,
    entropy: &mut E,
    untagged: &[Untagged],
) -> Result<Vec<Id>, CarryFault>
    requires packable { AllByRecursion (λ u. IsPackableArchive (archive_view u.archive)) untagged.now }
    requires unspent { IsUnspent store.old }
    requires fits { IfSome (D.told depot.old) (λ t. StoreFits false store.old t.history) }
    ensures added { (texts : List (List ℕ)) × (Works (LeavesCommitted store.old) (λ _. AddsTexts texts store.old store.new)
        (D.told depot.old) (D.told depot.new) (D.faults depot.old) (D.faults depot.new) result
        × IfOk result (λ ids. DrawsRenewals (repo_view store.old.repo).keys (olds_view untagged.now) texts (E.drawn entropy.old) (E.drawn entropy.new)
        × (ids.items ≡ ids_under (repo_view store.old.repo).keys texts))) }
    ensures untold { Between (D.told depot.old) (D.told depot.new) TellsNothing }
    ensures repo { OnOk result (KeepsRepo (repo_view store.old.repo) (repo_view store.new.repo)) }
    ensures accepted { OnOk result (store.new.accepted ≡ store.old.accepted) }
    ensures unspent { OnOk result (IsUnspent store.new) }
    ensures fits { OnOk result (IfSome (D.told depot.new) (λ t. StoreFits false store.new t.history)) }
    ensures refused { IfErr result (λ fault. IfSome (D.told depot.old) (λ _. RefusesSome (repo_view store.old.repo).keys (olds_view untagged.now)
        (E.drawn entropy.old) (E.drawn entropy.new) (D.told depot.new) fault)) }
    ensures shelf { IfErr result (λ fault. shelf_failed fault ≡ false) }
    ensures entropy { HasCause random_failed (E.faults entropy.old) (E.faults entropy.new) result }
{
    let mut ids = Vec::new(alloc);
    for place in 0..untagged.len() {
        let id = add_record(alloc, store, depot, entropy, &untagged[place].archive)?;
        ids.push(id)?;
    }
    Ok(ids)
}

/// Adds a record with its tag, and answers its id.
#[tactic(auto, using(ferry_piece::proofs::FaultLemmas::conversions))]
fn add_record<D: Depot, E: Entropy>(
    alloc: Global,
    store: &mut Store,
    depot: &mut D,
    entropy: &mut E,
    archive: &Archive,
) -> Result<Id, CarryFault>
    requires packable { IsPackableArchive (archive_view archive.now) }
    requires unspent { IsUnspent store.old }
    requires fits { IfSome (D.told depot.old) (λ t. StoreFits false store.old t.history) }
    ensures added { (text : List ℕ) × (Works (LeavesCommitted store.old) (λ _. AddsTexts (text ∷ []) store.old store.new)
        (D.told depot.old) (D.told depot.new) (D.faults depot.old) (D.faults depot.new) result
        × IfOk result (λ id. DrawsRenewal (repo_view store.old.repo).keys (archive_view archive.now) text (E.drawn entropy.old) (E.drawn entropy.new)
        × (id ≡ content_id (repo_view store.old.repo).keys text))) }
    ensures untold { Between (D.told depot.old) (D.told depot.new) TellsNothing }
    ensures repo { OnOk result (KeepsRepo (repo_view store.old.repo) (repo_view store.new.repo)) }
    ensures accepted { OnOk result (store.new.accepted ≡ store.old.accepted) }
    ensures unspent { OnOk result (IsUnspent store.new) }
    ensures fits { OnOk result (IfSome (D.told depot.new) (λ t. StoreFits false store.new t.history)) }
    ensures refused { IfErr result (λ fault. IfSome (D.told depot.old) (λ _. RefusesNewRecord (repo_view store.old.repo).keys (archive_view archive.now)
        (E.drawn entropy.old) (E.drawn entropy.new) (D.told depot.new) fault)) }
    ensures shelf { IfErr result (λ fault. shelf_failed fault ≡ false) }
    ensures entropy { HasCause random_failed (E.faults entropy.old) (E.faults entropy.new) result }
{
    let text = tagged_text(alloc, store.keys(), entropy, archive)?;
    let added = store.add(depot, &text)?;
    Ok(added.id)
}

/// The packed bytes of a record with its tag, whose salt is drawn.
#[tactic(auto, using(ferry_piece::proofs::FaultLemmas::conversions))]
fn tagged_text<E: Entropy>(
    alloc: Global,
    keys: &Keys,
    entropy: &mut E,
    archive: &Archive,
) -> Result<Vec<u8>, CarryFault>
    requires packable { IsPackableArchive (archive_view archive.now) }
    ensures renewal { IfOk result (λ text. DrawsRenewal keys.now (archive_view archive.now) text.items (E.drawn entropy.old) (E.drawn entropy.new)) }
    ensures small { IfOk result (λ text. length text.items ≤ content_limit) }
    ensures refused { IfErr result (RefusesRenewal keys.now (archive_view archive.now)) }
    ensures entropy { HasCause random_failed (E.faults entropy.old) (E.faults entropy.new) result }
{
    let mut salt = [0u8; 64];
    entropy.fill(&mut salt)?;
    salted_text(alloc, keys, archive, &salt)
}

/// The packed bytes of a record with its tag, under a salt.
fn salted_text(
    alloc: Global,
    keys: &Keys,
    archive: &Archive,
    salt: &[u8; 64],
) -> Result<Vec<u8>, CarryFault>
    requires packable { IsPackableArchive (archive_view archive.now) }
    ensures renewal { IfOk result (λ text. (renewal : IsRenewal keys.now (archive_view archive.now) text.items) × (renewal.salt ≡ salt.now)) }
    ensures small { IfOk result (λ text. length text.items ≤ content_limit) }
    ensures refused { IfErr result (RefusesRenewal keys.now (archive_view archive.now)) }
    ensures drawn { IfErr result (λ fault. random_failed fault ≡ false) }
{
    match write_archive(alloc, keys, archive, salt) {
        Ok(text) => Ok(text),
        Err(MetaFault::TooLarge) => Err(CarryFault::Record),
        Err(_) => Err(CarryFault::Memory),
    }
}

/// Lets the names of these archives stand for the records of these ids.
pub(crate) fn rename_archives(
    alloc: Global,
    store: &mut Store,
    untagged: &[Untagged],
    ids: &[Id],
) -> Result<(), StoreRefusal>
    requires one_each { length ids.now ≡ length untagged.now }
    requires packable { IsPackable (accepted_in store.old) }
    requires named { AllByRecursion (λ u. IsNamedIn (accepted_in store.old) u.named) untagged.now }
    ensures renamed { OnOk result (accepted_in store.new ≡ renewed (accepted_in store.old) (renewed_entries (map (λ u. u.named) untagged.now) ids.now)) }
    ensures rest { store.new ≡ record store.old { accepted = store.new.accepted } }
    ensures packable { IsPackable (accepted_in store.new) }
    ensures refused { IfErr result (λ refusal. refusal ≡ Refusal.Memory) }
{
    for place in 0..untagged.len() {
        rename_archive(alloc, store, &untagged[place].named, ids[place])?;
    }
    Ok(())
}

/// Lets the name of an archive stand for the record of an id.
fn rename_archive(
    alloc: Global,
    store: &mut Store,
    named: &ArchiveRef,
    id: Id,
) -> Result<(), StoreRefusal>
    requires packable { IsPackable (accepted_in store.old) }
    requires named { IsNamedIn (accepted_in store.old) named.now }
    ensures renamed { OnOk result (accepted_in store.new ≡ with_renewed (accepted_in store.old) (renewed_entry named.now id)) }
    ensures rest { store.new ≡ record store.old { accepted = store.new.accepted } }
    ensures packable { IsPackable (accepted_in store.new) }
    ensures refused { IfErr result (λ refusal. refusal ≡ Refusal.Memory) }
{
    let entry = entry_for(alloc, named, id)?;
    store.drop_name(named.name.as_slice());
    store.name_archive(entry, &[])
}

/// An archive with another record.
fn entry_for(alloc: Global, named: &ArchiveRef, id: Id) -> Result<ArchiveRef, AllocError>
    ensures entry { IfOk result (λ entry. entry ≡ renewed_entry named.now id) }
{
    let name = Bytes::new(Vec::from_slice(alloc, named.name.as_slice())?);
    let time = Bytes::new(Vec::from_slice(alloc, named.time.as_slice())?);
    Ok(ArchiveRef { name, id, time })
}
