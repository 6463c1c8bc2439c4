//! Counted references.
ghost use Rattle.std.specs.Prelude.{◌≡◌, ◌+◌, ◌<◌, ◌∷◌, [], length, get_or, IfOk, IfErr, IfSome, OnOk, List, ℕ};
ghost use Rattle.ferry_disk.specs.Device.{KeepsTold, HasCause, told_files};
ghost use Rattle.ferry_manifest.specs.declared.manifest.ArchiveRef.{ArchiveRef};
ghost use Rattle.ferry_repo.specs.Fault.{repo_failed, IsOfFiles};
ghost use Rattle.ferry_repo.specs.Opening.{repo_view, cached_in, FitsRepo};
ghost use Rattle.ferry_refs.specs.Refs.{CountsRefs, RefusesRefs, count_in, occurrences};

use crate::archive::count_archive;
use ferry_base::Id;
use ferry_disk::Shelf;
use ferry_repo::{Repo, RepoFault};
use std::alloc::Global;
use std::collections::BTreeMap;

/// How often the archives of a repository use each chunk. It owns an entry for each id that is used.
#[derive(Drop)]
pub struct Counts {
    pub(crate) counts: BTreeMap<Id, u64>,
}

impl Counts {
    /// Reads the record and the item stream of each archive of the manifest, in its order, and counts the ids that they name: an archive's record
    /// once, each piece of its stream, and each chunk of each item. Contents aren't read.
    ///
    /// A fault is that of the first archive whose record or stream doesn't read; `Memory` may come at any point.
    pub fn of<S: Shelf>(alloc: Global, repo: &mut Repo, shelf: &mut S) -> Result<Counts, RepoFault>
        requires fits { IfSome (S.told shelf.old) (λ t. FitsRepo (told_files t) (repo_view repo.old) (cached_in repo.old)) }
        ensures counts { IfOk result (λ counts. IfSome (S.told shelf.old) (λ t. CountsRefs (told_files t) (repo_view repo.old) counts)) }
        ensures refused { IfErr result (λ fault. IsOfFiles fault → IfSome (S.told shelf.old) (λ t.
            RefusesRefs (told_files t) (repo_view repo.old) fault)) }
        ensures fits { IfSome (S.told shelf.new) (λ t. FitsRepo (told_files t) (repo_view repo.new) (cached_in repo.new)) }
        ensures kept { repo_view repo.new ≡ repo_view repo.old }
        ensures same { KeepsTold repo_failed (S.told shelf.old) (S.told shelf.new) result }
        ensures cause { HasCause repo_failed (S.faults shelf.old) (S.faults shelf.new) result }
    {
        let mut counts = Counts {
            counts: BTreeMap::new(alloc),
        };
        for place in 0..archive_count(repo) {
            let name = name_at(alloc, repo, place)?;
            count_archive(repo, shelf, &name, &mut counts)?;
        }
        Ok(counts)
    }

    /// How often an id is used.
    pub fn get(&self, id: &Id) -> u64
        ensures count { result ≡ count_in self.now id.now }
    {
        match self.counts.get(id) {
            Some(count) => *count,
            None => 0,
        }
    }
}

impl Counts {
    /// Counts an id once more.
    pub(crate) fn add(&mut self, id: &Id) -> Result<(), RepoFault>
        ensures added { OnOk result ((other : List ℕ) → count_in self.new other ≡ count_in self.old other + occurrences other (id.now ∷ [])) }
        ensures memory { IfErr result (λ fault. fault ≡ RepoFault.Memory) }
    {
        let Some(count) = self.get(id).checked_add(1) else {
            return Err(RepoFault::Memory);
        };
        match self.counts.insert(*id, count) {
            Ok(_) => Ok(()),
            Err(_) => Err(RepoFault::Memory),
        }
    }

    /// Counts each of these ids once more.
    pub(crate) fn add_all(&mut self, ids: &[Id]) -> Result<(), RepoFault>
        ensures added { OnOk result ((other : List ℕ) → count_in self.new other ≡ count_in self.old other + occurrences other ids.now) }
        ensures memory { IfErr result (λ fault. fault ≡ RepoFault.Memory) }
    {
        for place in 0..ids.len() {
            self.add(&ids[place])?;
        }
        Ok(())
    }
}

/// How many archives the manifest has.
pub(crate) fn archive_count(repo: &Repo) -> usize
    ensures count { result ≡ length (repo_view repo.now).manifest.archives }
{
    repo.manifest().archives.as_slice().len()
}

/// The name of an archive of the manifest.
fn name_at(alloc: Global, repo: &Repo, place: usize) -> Result<Vec<u8>, RepoFault>
    requires in_range { place < length (repo_view repo.now).manifest.archives }
    ensures name { IfOk result (λ name. (d : ArchiveRef) → name.items ≡ (get_or (repo_view repo.now).manifest.archives place d).name) }
    ensures memory { IfErr result (λ fault. fault ≡ RepoFault.Memory) }
{
    let archives = repo.manifest().archives.as_slice();
    Ok(Vec::from_slice(alloc, archives[place].name.as_slice())?)
}
