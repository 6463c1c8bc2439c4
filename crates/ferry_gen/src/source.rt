//! The repository that is the source of the drill.
ghost use Rattle.std.specs.Prelude.{◌≡◌, ◌≤◌, ◌<◌, ◌+◌, None, false, map, IfErr, IfOk, IfSome, IsSome, OnOk};
ghost use Rattle.ferry_disk.specs.Device.{HasCause, told_files};
ghost use Rattle.ferry_manifest.specs.Manifest.Writing.{IsPackable};
ghost use Rattle.ferry_piece.specs.Fault.{target_failed};
ghost use Rattle.ferry_next.specs.Next.{next_manifest};
ghost use Rattle.ferry_repo.specs.Archives.{archive_named};
ghost use Rattle.ferry_store.specs.Commit.{IsSettled, accepted_in};
ghost use Rattle.ferry_store.specs.Fault.{depot_failed};
ghost use Rattle.ferry_store.specs.Store.{IsUnspent, StoreFits};
ghost use Rattle.ferry_gen.specs.Content.{archive_name, archive_time};
ghost use Rattle.ferry_gen.specs.Source.{HasPlain, IsOfDepot, IsSource, TellsEmpty, item_names, source_secret};
ghost use Rattle.ferry_gen.specs.Steps.{HasMade};

use crate::content::{archive_name, archive_time};
use crate::put::put_archive;
use ferry_base::{Bytes, Id};
use ferry_disk::{Depot, Entropy, MemoryEntropy};
use ferry_manifest::ArchiveRef;
use ferry_nonce::NonceFault;
use ferry_piece::CarryFault;
use ferry_repo::{RepoFault, Secret};
use ferry_store::{Store, StoreRefusal};
use ferry_write::WriteFault;
use std::alloc::{AllocError, Global};

/// The timestamp of a new repository, which each commit keeps.
const NO_TIME: &[u8] = b"1970-01-01T00:00:00.000000";

/// Makes the drill's source of so many archives, from 1 to 64, in a depot that has no file and tells so. Its passphrase is `source`.
///
/// The records are those of the drill's archives, tagged with 64 bytes drawn for each from a source in memory; the files are cut into
/// pieces of 1024 bytes. After a refusal, which is answered as want of memory or a failed depot, a part may be there.
///
/// Source: BorgBackup 1.2, Internals, "Data structures and file formats".
pub fn make_source<D: Depot>(alloc: Global, depot: &mut D, count: u32) -> Result<(), StoreRefusal>
    requires least { 1 ≤ count }
    requires most { count ≤ 64 }
    requires empty { TellsEmpty (D.told depot.old) }
    ensures made { OnOk result (IfSome (D.told depot.new) (λ t. IsSource count (told_files t))) }
    ensures plain { OnOk result (IfSome (D.told depot.new) (λ t. HasPlain (told_files t))) }
    ensures refused { IfErr result IsOfDepot }
    ensures cause { HasCause depot_failed (D.faults depot.old) (D.faults depot.new) result }
{
    match make(alloc, depot, count) {
        Ok(()) => Ok(()),
        Err(fault) => Err(refusal_of(fault)),
    }
}

/// The refusal that a fault is. What is neither the depot's nor want of memory isn't expected of so small a repository, and is answered as want of
/// memory too.
fn refusal_of(fault: CarryFault) -> StoreRefusal
    ensures refused { IsOfDepot result }
    ensures failed { depot_failed result ≡ target_failed fault }
{
    match fault {
        CarryFault::Target(StoreRefusal::Repo(RepoFault::Device)) => StoreRefusal::Repo(
            RepoFault::Device,
        ),
        CarryFault::Target(StoreRefusal::Write(WriteFault::Device)) => StoreRefusal::Write(
            WriteFault::Device,
        ),
        CarryFault::Target(StoreRefusal::Nonce(NonceFault::Device)) => StoreRefusal::Nonce(
            NonceFault::Device,
        ),
        _ => StoreRefusal::Memory,
    }
}

/// What opens the source.
pub fn source_secret(alloc: Global) -> Result<Secret, AllocError>
    ensures secret { IfOk result (λ secret. secret ≡ source_secret) }
{
    Ok(Secret {
        passphrase: Bytes::new(Vec::from_slice(alloc, b"source")?),
        key_file: Bytes::new(Vec::new(alloc)),
    })
}

/// Makes the source.
#[tactic(auto, using(ferry_piece::proofs::FaultLemmas::conversions))]
fn make<D: Depot>(alloc: Global, depot: &mut D, count: u32) -> Result<(), CarryFault>
    requires least { 1 ≤ count }
    requires most { count ≤ 64 }
    requires empty { TellsEmpty (D.told depot.old) }
    ensures made { OnOk result (IfSome (D.told depot.new) (λ t. IsSource count (told_files t))) }
    ensures plain { OnOk result (IfSome (D.told depot.new) (λ t. HasPlain (told_files t))) }
    ensures cause { HasCause target_failed (D.faults depot.old) (D.faults depot.new) result }
{
    let mut entropy = MemoryEntropy::new(alloc, Vec::new(alloc))?;
    let mut store = make_first(alloc, depot, &mut entropy)?;
    make_archives(alloc, depot, &mut store, &mut entropy, count)
}

/// Makes a repository without archives.
#[tactic(auto, using(ferry_piece::proofs::FaultLemmas::conversions))]
fn make_first<D: Depot, E: Entropy>(
    alloc: Global,
    depot: &mut D,
    entropy: &mut E,
) -> Result<Store, CarryFault>
    requires empty { TellsEmpty (D.told depot.old) }
    ensures told { OnOk result (IsSome (D.told depot.new)) }
    ensures made { IfOk result (λ store. IfSome (D.told depot.new) (λ t. HasMade 0 store t.history)) }
    ensures fits { IfOk result (λ store. IfSome (D.told depot.new) (λ t. StoreFits false store t.history)) }
    ensures settled { IfOk result IsSettled }
    ensures pending { IfOk result (λ store. store.pending ≡ 0) }
    ensures packable { IfOk result (λ store. IsPackable (accepted_in store)) }
    ensures unspent { IfOk result IsUnspent }
    ensures cause { HasCause target_failed (D.faults depot.old) (D.faults depot.new) result }
{
    let secret = source_secret(alloc)?;
    let store = Store::init(alloc, depot, entropy, &secret, 1, NO_TIME)?;
    Ok(store)
}

/// Makes so many archives, one after another.
fn make_archives<D: Depot, E: Entropy>(
    alloc: Global,
    depot: &mut D,
    store: &mut Store,
    entropy: &mut E,
    count: u32,
) -> Result<(), CarryFault>
    requires most { count ≤ 64 }
    requires told { IsSome (D.told depot.old) }
    requires made { IfSome (D.told depot.old) (λ t. HasMade 0 store.old t.history) }
    requires fits { IfSome (D.told depot.old) (λ t. StoreFits false store.old t.history) }
    requires settled { IsSettled store.old }
    requires pending { store.old.pending ≡ 0 }
    requires packable { IsPackable (accepted_in store.old) }
    requires unspent { IsUnspent store.old }
    ensures made { OnOk result (IfSome (D.told depot.new) (λ t. HasMade count store.new t.history)) }
    ensures fits { OnOk result (IfSome (D.told depot.new) (λ t. StoreFits false store.new t.history)) }
    ensures settled { OnOk result (IsSettled store.new) }
    ensures pending { OnOk result (store.new.pending ≡ 0) }
    ensures cause { HasCause target_failed (D.faults depot.old) (D.faults depot.new) result }
{
    for archive in 0..count {
        make_archive(alloc, depot, store, entropy, archive)?;
    }
    Ok(())
}

/// Makes an archive behind those before it: adds its contents, names it, and commits both.
#[tactic(auto, using(ferry_piece::proofs::FaultLemmas::conversions))]
fn make_archive<D: Depot, E: Entropy>(
    alloc: Global,
    depot: &mut D,
    store: &mut Store,
    entropy: &mut E,
    archive: u32,
) -> Result<(), CarryFault>
    requires archive { archive < 64 }
    requires told { IsSome (D.told depot.old) }
    requires made { IfSome (D.told depot.old) (λ t. HasMade archive store.old t.history) }
    requires fits { IfSome (D.told depot.old) (λ t. StoreFits false store.old t.history) }
    requires settled { IsSettled store.old }
    requires pending { store.old.pending ≡ 0 }
    requires packable { IsPackable (accepted_in store.old) }
    requires unspent { IsUnspent store.old }
    ensures told { OnOk result (IsSome (D.told depot.new)) }
    ensures made { OnOk result (IfSome (D.told depot.new) (λ t. HasMade (archive + 1) store.new t.history)) }
    ensures fits { OnOk result (IfSome (D.told depot.new) (λ t. StoreFits false store.new t.history)) }
    ensures settled { OnOk result (IsSettled store.new) }
    ensures pending { OnOk result (store.new.pending ≡ 0) }
    ensures packable { OnOk result (IsPackable (accepted_in store.new)) }
    ensures unspent { OnOk result (IsUnspent store.new) }
    ensures cause { HasCause target_failed (D.faults depot.old) (D.faults depot.new) result }
{
    let id = put_archive(alloc, store, depot, entropy, archive)?;
    let entry = entry_of(alloc, archive, id)?;
    name_archive(alloc, store, entry)?;
    store.commit(depot, entropy, NO_TIME)?;
    Ok(())
}

/// Accepts an archive, with the names of its items' fields.
fn name_archive(alloc: Global, store: &mut Store, entry: ArchiveRef) -> Result<(), StoreRefusal>
    requires packable { IsPackable (accepted_in store.old) }
    requires unnamed { archive_named entry.name (accepted_in store.old).archives ≡ None }
    ensures named { OnOk result (accepted_in store.new ≡ next_manifest (accepted_in store.old) entry item_names) }
    ensures packable { IsPackable (accepted_in store.new) }
    ensures rest { store.new ≡ record store.old { accepted = store.new.accepted } }
    ensures still { IfErr result (λ refusal. depot_failed refusal ≡ false) }
{
    match item_names(alloc) {
        Ok(names) => store.name_archive(entry, &names),
        Err(_) => {
            drop(entry);
            Err(StoreRefusal::Memory)
        }
    }
}

/// The names of the fields of the items.
fn item_names(alloc: Global) -> Result<Vec<Vec<u8>>, AllocError>
    ensures names { IfOk result (λ names. map (λ name. name.items) names.items ≡ item_names) }
{
    let mut names = Vec::with_capacity(alloc, 3)?;
    names.push(Vec::from_slice(alloc, b"chunks")?)?;
    names.push(Vec::from_slice(alloc, b"mode")?)?;
    names.push(Vec::from_slice(alloc, b"path")?)?;
    Ok(names)
}

/// The entry of an archive whose record has this id.
fn entry_of(alloc: Global, archive: u32, id: Id) -> Result<ArchiveRef, AllocError>
    ensures entry { IfOk result (λ entry. entry ≡ record { name = archive_name archive; id = id; time = archive_time }) }
{
    let name = Bytes::new(archive_name(alloc, archive)?);
    let time = Bytes::new(archive_time(alloc)?);
    Ok(ArchiveRef { name, id, time })
}
