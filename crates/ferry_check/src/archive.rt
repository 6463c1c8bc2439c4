//! The archives of a repository.
ghost use Rattle.std.specs.Prelude.{◌≡◌, ◌<◌, ◌≤◌, length, IsSome, IfOk, IfErr, IfSome, get_or};
ghost use Rattle.std.specs.BTreeMap.{get};
ghost use Rattle.ferry_disk.specs.Device.{KeepsTold, HasCause, told_files};
ghost use Rattle.ferry_log.specs.Live.{key_cmp};
ghost use Rattle.ferry_manifest.specs.declared.manifest.ArchiveRef.{ArchiveRef};
ghost use Rattle.ferry_repo.specs.Archives.{archive_named};
ghost use Rattle.ferry_repo.specs.Fault.{repo_failed, IsOfFiles};
ghost use Rattle.ferry_repo.specs.Opening.{repo_view, cached_in, FitsRepo};
ghost use Rattle.ferry_repo.specs.Whole.{RefusesWhole};
ghost use Rattle.ferry_check.specs.Steps.{KnowsSizes, ChecksArchive, ChecksArchives, one_untagged};
ghost use Rattle.ferry_check.specs.Verify.{BadArchive, IsNamed};

use crate::chunks::Chunk;
use crate::items::check_items;
use crate::marks::{mark, mark_all};
use ferry_base::Id;
use ferry_disk::Shelf;
use ferry_repo::{Repo, RepoFault};
use std::alloc::Global;
use std::collections::BTreeMap;

/// Reads the archives, one after another, with all contents, and counts those whose record has no authentication tag.
pub(crate) fn check_archives<S: Shelf>(
    alloc: Global,
    repo: &mut Repo,
    shelf: &mut S,
    chunks: &mut BTreeMap<Id, Chunk>,
) -> Result<u64, RepoFault>
    requires fits { IfSome (S.told shelf.old) (λ t. FitsRepo (told_files t) (repo_view repo.old) (cached_in repo.old)) }
    requires sizes { IfSome (S.told shelf.old) (λ t. KnowsSizes (told_files t) (repo_view repo.old) (get key_cmp chunks.old)) }
    ensures archives { IfOk result (λ count. ChecksArchives (S.told shelf.old) (repo_view repo.old)
        (repo_view repo.old).manifest.archives (get key_cmp chunks.old) (get key_cmp chunks.new) count) }
    ensures refused { IfErr result (λ fault. IsOfFiles fault → IfSome (S.told shelf.old) (λ t.
        BadArchive (told_files t) (repo_view repo.old) fault)) }
    ensures fits { IfSome (S.told shelf.new) (λ t. FitsRepo (told_files t) (repo_view repo.new) (cached_in repo.new)) }
    ensures kept { repo_view repo.new ≡ repo_view repo.old }
    ensures same { KeepsTold repo_failed (S.told shelf.old) (S.told shelf.new) result }
    ensures cause { HasCause repo_failed (S.faults shelf.old) (S.faults shelf.new) result }
{
    let mut untagged = 0u64;
    for place in 0..archive_count(repo) {
        let name = name_at(alloc, repo, place)?;
        let tagged = check_archive(repo, shelf, &name, chunks);
        drop(name);
        untagged += one_untagged(tagged?);
    }
    Ok(untagged)
}

/// How many archives the manifest has.
pub(crate) fn archive_count(repo: &Repo) -> usize
    ensures count { result ≡ length (repo_view repo.now).manifest.archives }
{
    repo.manifest().archives.as_slice().len()
}

/// The name of an archive of the manifest.
fn name_at(alloc: Global, repo: &Repo, place: usize) -> Result<Vec<u8>, RepoFault>
    requires in_range { place < length (repo_view repo.now).manifest.archives }
    ensures name { IfOk result (λ name. (d : ArchiveRef) → name.items ≡ (get_or (repo_view repo.now).manifest.archives place d).name) }
    ensures memory { IfErr result (λ fault. fault ≡ RepoFault.Memory) }
{
    let archives = repo.manifest().archives.as_slice();
    Ok(Vec::from_slice(alloc, archives[place].name.as_slice())?)
}

/// How many records of one archive are untagged.
fn one_untagged(tagged: bool) -> u64
    ensures count { result ≡ one_untagged tagged }
    ensures small { result ≤ 1 }
{
    if tagged { 0 } else { 1 }
}

/// Reads the archive of a name with all contents, and answers whether its record has an authentication tag.
fn check_archive<S: Shelf>(
    repo: &mut Repo,
    shelf: &mut S,
    name: &[u8],
    chunks: &mut BTreeMap<Id, Chunk>,
) -> Result<bool, RepoFault>
    requires fits { IfSome (S.told shelf.old) (λ t. FitsRepo (told_files t) (repo_view repo.old) (cached_in repo.old)) }
    requires named { IsNamed (repo_view repo.old) name.now }
    requires sizes { IfSome (S.told shelf.old) (λ t. KnowsSizes (told_files t) (repo_view repo.old) (get key_cmp chunks.old)) }
    ensures archive { IfOk result (λ tagged. ChecksArchive (S.told shelf.old) (repo_view repo.old) name.now
        (get key_cmp chunks.old) (get key_cmp chunks.new) tagged) }
    ensures refused { IfErr result (λ fault. IsOfFiles fault → IfSome (S.told shelf.old) (λ t.
        RefusesWhole (told_files t) (repo_view repo.old).log (repo_view repo.old).keys (repo_view repo.old).manifest.archives name.now fault)) }
    ensures fits { IfSome (S.told shelf.new) (λ t. FitsRepo (told_files t) (repo_view repo.new) (cached_in repo.new)) }
    ensures kept { repo_view repo.new ≡ repo_view repo.old }
    ensures same { KeepsTold repo_failed (S.told shelf.old) (S.told shelf.new) result }
    ensures cause { HasCause repo_failed (S.faults shelf.old) (S.faults shelf.new) result }
{
    let Some(id) = repo.record_id(name) else {
        unreachable!()
    };
    let Some(archive) = repo.archive(shelf, name)? else {
        return Err(RepoFault::Missing(id));
    };
    mark(&id, chunks);
    mark_all(archive.items.as_slice(), chunks);
    let tagged = archive.tagged;
    let walk = repo.walk_stream(&id, &archive);
    drop(archive);
    let mut walk = walk?;
    let checked = check_items(repo, shelf, &mut walk, chunks);
    drop(walk);
    checked?;
    Ok(tagged)
}
