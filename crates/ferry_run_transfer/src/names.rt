//! The names that a transfer copies.
ghost use Rattle.std.specs.Prelude.{◌≡◌, ◌⊎◌, ℕ, List, false, map, slice_get, IfErr, IfOk, IsSome, OnOk, Some};
ghost use Rattle.ferry_carry.specs.Chosen.{IsMissingName};
ghost use Rattle.ferry_piece.specs.Fault.{random_failed, shelf_failed, target_failed as depot_failed};
ghost use Rattle.ferry_manifest.specs.declared.manifest.ArchiveRef.{ArchiveRef};
ghost use Rattle.ferry_repo.specs.Archives.{archive_named};
ghost use Rattle.ferry_repo.specs.Opening.{repo_view};
ghost use Rattle.ferry_run_transfer.specs.Transfer.{chosen_of};

use ferry_base::Bytes;
use ferry_carry::{CarryFault, missing_name};
use ferry_repo::Repo;
use std::alloc::{AllocError, Global};

/// Answers `NotFound` where the source lacks one of these names.
///
/// `repo` is the opened source, of which the manifest alone is looked at, and `names` are bytes of UTF-8. Of several that are missing the fault has a copy of
/// the first one, in the order of `names`; `Memory` where that copy isn't granted. No device is called.
pub fn find_names(alloc: Global, repo: &Repo, names: &[Bytes]) -> Result<(), CarryFault>
    ensures refused { IfErr result (λ fault. (fault ≡ CarryFault.Memory) ⊎ ((place : ℕ) × ((name : List ℕ)
        × (IsMissingName (repo_view repo.now).manifest names.now place × ((slice_get names.now place ≡ Some name) × (fault ≡ CarryFault.NotFound name)))))) }
    ensures found { OnOk result ((place : ℕ) (name : List ℕ) → slice_get names.now place ≡ Some name
        → IsSome (archive_named name (repo_view repo.now).manifest.archives)) }
    ensures shelf { IfErr result (λ fault. shelf_failed fault ≡ false) }
    ensures still { IfErr result (λ fault. depot_failed fault ≡ false) }
    ensures drawn { IfErr result (λ fault. random_failed fault ≡ false) }
{
    if let Some(place) = missing_name(repo, names) {
        let name = Vec::from_slice(alloc, names[place].as_slice())?;
        return Err(CarryFault::NotFound(Bytes::new(name)));
    }
    Ok(())
}

/// Copies of these names, or of those of all archives where there are none.
///
/// `repo` is the opened source, of which the manifest alone is looked at; the names of its archives come in byte order, those that are given in theirs. What is
/// answered belongs to the caller. No device is called.
pub fn chosen_names(alloc: Global, repo: &Repo, names: &[Bytes]) -> Result<Vec<Bytes>, AllocError>
    ensures chosen { IfOk result (λ chosen. chosen.items ≡ chosen_of names.now (repo_view repo.now).manifest) }
{
    if names.is_empty() {
        return archive_names(alloc, repo);
    }
    copies(alloc, names)
}

/// Copies of the names of all archives, in byte order.
fn archive_names(alloc: Global, repo: &Repo) -> Result<Vec<Bytes>, AllocError>
    ensures names { IfOk result (λ names. names.items ≡ map (λ (entry : ArchiveRef). entry.name) (repo_view repo.now).manifest.archives) }
{
    let archives = repo.manifest().archives.as_slice();
    let mut chosen = Vec::new(alloc);
    for place in 0..archives.len() {
        let name = Vec::from_slice(alloc, archives[place].name.as_slice())?;
        chosen.push(Bytes::new(name))?;
    }
    Ok(chosen)
}

/// Copies of names.
fn copies(alloc: Global, names: &[Bytes]) -> Result<Vec<Bytes>, AllocError>
    ensures copies { IfOk result (λ copies. copies.items ≡ names.now) }
{
    let mut chosen = Vec::new(alloc);
    for place in 0..names.len() {
        let name = Vec::from_slice(alloc, names[place].as_slice())?;
        chosen.push(Bytes::new(name))?;
    }
    Ok(chosen)
}
