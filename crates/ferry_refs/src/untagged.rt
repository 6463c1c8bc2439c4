//! Archives whose record has no authentication tag, and those of these records that nothing uses once each has one.
ghost use Rattle.std.specs.Prelude.{◌≡◌, ◌<◌, ℕ, false, List, Ok, length, IfOk, IfErr, IfSome, OnOk, get_or, if◌then◌else◌, ◌++◌, ◌∷◌, []};
ghost use Rattle.std.specs.List.{AllByRecursion};
ghost use Rattle.ferry_check.specs.Verify.{IsChunk, IsNamed};
ghost use Rattle.ferry_disk.specs.Device.{KeepsTold, HasCause, told_files};
ghost use Rattle.ferry_mac.specs.declared.keys.Keys.{Keys};
ghost use Rattle.ferry_manifest.specs.Manifest.Writing.{IsPackable};
ghost use Rattle.ferry_manifest.specs.Record.Text.{archive_of, archive_view};
ghost use Rattle.ferry_manifest.specs.Record.Writing.{IsPackableArchive};
ghost use Rattle.ferry_manifest.specs.declared.manifest.ArchiveRef.{ArchiveRef};
ghost use Rattle.ferry_repo.specs.Archives.{HoldsRecord, IsNoRecord, RefusesRecord};
ghost use Rattle.ferry_repo.specs.Fault.{repo_failed, IsOfFiles};
ghost use Rattle.ferry_repo.specs.Opening.{repo_view, cached_in, FitsRepo};
ghost use Rattle.ferry_refs.specs.Refs.{RefusesRead, RefusesRefs, count_in};
ghost use Rattle.ferry_refs.specs.Steps.{Adds, no_tally};
ghost use Rattle.ferry_refs.specs.TagSteps.{IsNamedIn, olds_view, record_ids};
ghost use Rattle.ferry_refs.specs.Tagging.{AreFreed, AreOld};

use crate::counts::{Counts, archive_count};
use crate::going::ids_alone;
use ferry_base::{Bytes, Id};
use ferry_disk::Shelf;
use ferry_mac::Keys;
use ferry_manifest::{Archive, ArchiveRef, MetaFault, read_archive};
use ferry_repo::{Repo, RepoFault};
use std::alloc::{AllocError, Global};
use std::collections::BTreeMap;

/// An archive of the manifest whose record has no tag, and the record.
#[derive(Drop)]
pub(crate) struct Untagged {
    pub(crate) named: ArchiveRef,
    pub(crate) archive: Archive,
}

/// The archives whose record has no tag, in the order of the manifest, and the ids of those of these records that nothing uses once each archive has a record
/// with a tag, in byte order.
#[derive(Drop)]
pub(crate) struct OldRecords {
    pub(crate) untagged: Vec<Untagged>,
    pub(crate) freed: Vec<Id>,
}

/// Finds them. The records and item streams of all archives are read, and the records once more.
pub(crate) fn old_records<S: Shelf>(
    alloc: Global,
    repo: &mut Repo,
    shelf: &mut S,
) -> Result<OldRecords, RepoFault>
    requires fits { IfSome (S.told shelf.old) (λ t. FitsRepo (told_files t) (repo_view repo.old) (cached_in repo.old)) }
    requires packable { IsPackable (repo_view repo.old).manifest }
    ensures old { IfOk result (λ old. IfSome (S.told shelf.old) (λ t.
        AreOld (told_files t) (repo_view repo.old) (repo_view repo.old).manifest.archives (olds_view old.untagged.items))) }
    ensures freed { IfOk result (λ old. IfSome (S.told shelf.old) (λ t. AreFreed (told_files t) (repo_view repo.old) old.freed.items)) }
    ensures chunks { IfOk result (λ old. AllByRecursion (IsChunk (repo_view repo.old).log) old.freed.items) }
    ensures named { IfOk result (λ old. AllByRecursion (λ u. IsNamedIn (repo_view repo.old).manifest u.named) old.untagged.items) }
    ensures packable { IfOk result (λ old. AllByRecursion (λ u. IsPackableArchive (archive_view u.archive)) old.untagged.items) }
    ensures refused { IfErr result (λ fault. IsOfFiles fault → IfSome (S.told shelf.old) (λ t.
        RefusesRefs (told_files t) (repo_view repo.old) fault)) }
    ensures fits { IfSome (S.told shelf.new) (λ t. FitsRepo (told_files t) (repo_view repo.new) (cached_in repo.new)) }
    ensures kept { repo_view repo.new ≡ repo_view repo.old }
    ensures same { KeepsTold repo_failed (S.told shelf.old) (S.told shelf.new) result }
    ensures cause { HasCause repo_failed (S.faults shelf.old) (S.faults shelf.new) result }
{
    let all = Counts::of(alloc, repo, shelf)?;
    let untagged = untagged_archives(alloc, repo, shelf)?;
    let own = count_records(alloc, &untagged)?;
    let freed = ids_alone(alloc, repo.log(), &all, &own)?;
    Ok(OldRecords { untagged, freed })
}

/// The archives whose record has no tag.
fn untagged_archives<S: Shelf>(
    alloc: Global,
    repo: &mut Repo,
    shelf: &mut S,
) -> Result<Vec<Untagged>, RepoFault>
    requires fits { IfSome (S.told shelf.old) (λ t. FitsRepo (told_files t) (repo_view repo.old) (cached_in repo.old)) }
    requires packable { IsPackable (repo_view repo.old).manifest }
    ensures old { IfOk result (λ untagged. IfSome (S.told shelf.old) (λ t.
        AreOld (told_files t) (repo_view repo.old) (repo_view repo.old).manifest.archives (olds_view untagged.items))) }
    ensures named { IfOk result (λ untagged. AllByRecursion (λ u. IsNamedIn (repo_view repo.old).manifest u.named) untagged.items) }
    ensures packable { IfOk result (λ untagged. AllByRecursion (λ u. IsPackableArchive (archive_view u.archive)) untagged.items) }
    ensures refused { IfErr result (λ fault. IsOfFiles fault → (name : List ℕ) × (IsNamed (repo_view repo.old) name
        × IfSome (S.told shelf.old) (λ t. RefusesRead (told_files t) (repo_view repo.old) name fault))) }
    ensures fits { IfSome (S.told shelf.new) (λ t. FitsRepo (told_files t) (repo_view repo.new) (cached_in repo.new)) }
    ensures kept { repo_view repo.new ≡ repo_view repo.old }
    ensures same { KeepsTold repo_failed (S.told shelf.old) (S.told shelf.new) result }
    ensures cause { HasCause repo_failed (S.faults shelf.old) (S.faults shelf.new) result }
{
    let mut untagged = Vec::new(alloc);
    for place in 0..archive_count(repo) {
        let id = id_at(repo, place);
        let archive = record_of(alloc, repo, shelf, &id)?;
        note_old(alloc, repo, place, archive, &mut untagged)?;
    }
    Ok(untagged)
}

/// The record of the archive whose record has this id.
#[tactic(auto, using(ferry_repo::proofs::FaultLemmas::conversions))]
fn record_of<S: Shelf>(
    alloc: Global,
    repo: &mut Repo,
    shelf: &mut S,
    id: &Id,
) -> Result<Archive, RepoFault>
    requires fits { IfSome (S.told shelf.old) (λ t. FitsRepo (told_files t) (repo_view repo.old) (cached_in repo.old)) }
    ensures archive { IfOk result (λ archive. IfSome (S.told shelf.old) (λ t.
        HoldsRecord (told_files t) (repo_view repo.old).log (repo_view repo.old).keys id.now (archive_view archive))) }
    ensures packable { IfOk result (λ archive. IsPackableArchive (archive_view archive)) }
    ensures refused { IfErr result (λ fault. IfSome (S.told shelf.old) (λ t.
        RefusesRecord (told_files t) (repo_view repo.old).log (repo_view repo.old).keys id.now fault)) }
    ensures fits { IfSome (S.told shelf.new) (λ t. FitsRepo (told_files t) (repo_view repo.new) (cached_in repo.new)) }
    ensures kept { repo_view repo.new ≡ repo_view repo.old }
    ensures same { KeepsTold repo_failed (S.told shelf.old) (S.told shelf.new) result }
    ensures cause { HasCause repo_failed (S.faults shelf.old) (S.faults shelf.new) result }
{
    let content = repo.chunk(shelf, id)?;
    record_in(alloc, repo.keys(), *id, &content)
}

/// The id of the record of the archive at a place of the manifest.
fn id_at(repo: &Repo, place: usize) -> Id
    requires in_range { place < length (repo_view repo.now).manifest.archives }
    ensures id { (d : ArchiveRef) → result ≡ (get_or (repo_view repo.now).manifest.archives place d).id }
{
    repo.manifest().archives.as_slice()[place].id
}

/// The record that the chunk of this id is.
fn record_in(alloc: Global, keys: &Keys, id: Id, content: &[u8]) -> Result<Archive, RepoFault>
    ensures archive { IfOk result (λ archive. archive_of keys.now content.now ≡ Ok (archive_view archive)) }
    ensures packable { IfOk result (λ archive. IsPackableArchive (archive_view archive)) }
    ensures refused { IfErr result (IsNoRecord keys.now id content.now) }
    ensures still { IfErr result (λ fault. repo_failed fault ≡ false) }
{
    match read_archive(alloc, keys, content) {
        Ok(archive) => Ok(archive),
        Err(MetaFault::Memory) => Err(RepoFault::Memory),
        Err(fault) => Err(RepoFault::Archive(id, fault)),
    }
}

/// Notes the archive at a place of the manifest, whose record this is, where that has no tag.
fn note_old(
    alloc: Global,
    repo: &Repo,
    place: usize,
    archive: Archive,
    untagged: &mut Vec<Untagged>,
) -> Result<(), AllocError>
    requires in_range { place < length (repo_view repo.now).manifest.archives }
    ensures noted { OnOk result ((d : ArchiveRef) → untagged.new.items ≡ (if archive.tagged then untagged.old.items else untagged.old.items
        ++ record { named = get_or (repo_view repo.now).manifest.archives place d; archive = archive } ∷ [])) }
{
    if archive.tagged {
        return Ok(());
    }
    let named = copy_named(alloc, &repo.manifest().archives.as_slice()[place])?;
    untagged.push(Untagged { named, archive })?;
    Ok(())
}

/// A copy of an archive of the manifest.
fn copy_named(alloc: Global, named: &ArchiveRef) -> Result<ArchiveRef, AllocError>
    ensures copy { IfOk result (λ copy. copy ≡ named.now) }
{
    let name = Bytes::new(Vec::from_slice(alloc, named.name.as_slice())?);
    let time = Bytes::new(Vec::from_slice(alloc, named.time.as_slice())?);
    Ok(ArchiveRef {
        name,
        id: named.id,
        time,
    })
}

/// How often each id is that of a record of these archives.
fn count_records(alloc: Global, untagged: &[Untagged]) -> Result<Counts, RepoFault>
    ensures counted { IfOk result (λ counts. Adds (record_ids untagged.now) no_tally (count_in counts)) }
    ensures memory { IfErr result (λ fault. fault ≡ RepoFault.Memory) }
{
    let mut counts = Counts {
        counts: BTreeMap::new(alloc),
    };
    for place in 0..untagged.len() {
        counts.add(&untagged[place].named.id)?;
    }
    Ok(counts)
}
