//! The live chunks of a repository.
ghost use Rattle.std.specs.Prelude.{◌≡◌, ◌≢◌, ◌≤◌, ◌+◌, ◌∷◌, ◌++◌, [], take, drop, length, Option, IfOk, IfErr, IfSome, OnOk};
ghost use Rattle.std.specs.BTreeMap.{get};
ghost use Rattle.ferry_base.specs.Limits.{zero_id};
ghost use Rattle.ferry_disk.specs.Device.{KeepsTold, HasCause, Told, told_files};
ghost use Rattle.ferry_log.specs.Live.{key_cmp};
ghost use Rattle.ferry_repo.specs.Fault.{repo_failed, IsOfFiles};
ghost use Rattle.ferry_repo.specs.Lengths.{HaveLengths};
ghost use Rattle.ferry_repo.specs.Opening.{RepoState, repo_view, cached_in, FitsRepo};
ghost use Rattle.ferry_check.specs.Report.{AreChunks};
ghost use Rattle.ferry_check.specs.Steps.{KnowsOpened, Keeps, HasMarks, OpensSoFar, RefusesFirst};

use ferry_base::{Id, ZERO_ID};
use ferry_disk::Shelf;
use ferry_log::Log;
use ferry_repo::{Repo, RepoFault};
use std::alloc::Global;
use std::collections::BTreeMap;

/// A chunk that was opened.
#[derive(Clone, Copy)]
pub(crate) struct Chunk {
    /// How many bytes its content has.
    pub(crate) size: u64,
    /// Whether an archive uses it.
    pub(crate) used: bool,
}

/// The ids of all live chunks, in byte order. The manifest is none.
pub(crate) fn chunk_ids(alloc: Global, log: &Log) -> Result<Vec<Id>, RepoFault>
    ensures chunks { IfOk result (λ ids. AreChunks log.now ids.items) }
    ensures memory { IfErr result (λ fault. fault ≡ RepoFault.Memory) }
{
    let mut ids = Vec::new(alloc);
    let mut last: Option<Id> = None;
    for _ in 0..u64::MAX {
        match log.next_key(last.as_ref()) {
            Some(found) => {
                push_chunk(found.0, &mut ids)?;
                last = Some(found.0);
            }
            None => return Ok(ids),
        }
    }
    Err(RepoFault::Memory)
}

/// Appends an id, unless it is the manifest's.
fn push_chunk(id: Id, ids: &mut Vec<Id>) -> Result<(), RepoFault>
    ensures chunk { id ≢ zero_id → OnOk result (ids.new.items ≡ ids.old.items ++ (id ∷ [])) }
    ensures zero { id ≡ zero_id → OnOk result (ids.new.items ≡ ids.old.items) }
    ensures memory { IfErr result (λ fault. fault ≡ RepoFault.Memory) }
{
    if id == ZERO_ID {
        return Ok(());
    }
    match ids.push(id) {
        Ok(()) => Ok(()),
        Err(_) => Err(RepoFault::Memory),
    }
}

/// Opens chunks, as many side by side as the repository does at once, and keeps the length of each one's content.
pub(crate) fn open_chunks<S: Shelf>(
    alloc: Global,
    repo: &mut Repo,
    shelf: &mut S,
    ids: &[Id],
) -> Result<BTreeMap<Id, Chunk>, RepoFault>
    requires fits { IfSome (S.told shelf.old) (λ t. FitsRepo (told_files t) (repo_view repo.old) (cached_in repo.old)) }
    ensures opened { IfOk result (λ chunks. IfSome (S.told shelf.old) (λ t.
        KnowsOpened (told_files t) (repo_view repo.old) ids.now (get key_cmp chunks))) }
    ensures unused { IfOk result (λ chunks. HasMarks [] (get key_cmp chunks)) }
    ensures refused { IfErr result (λ fault. IsOfFiles fault → IfSome (S.told shelf.old) (λ t.
        RefusesFirst (told_files t) (repo_view repo.old) ids.now fault)) }
    ensures fits { IfSome (S.told shelf.new) (λ t. FitsRepo (told_files t) (repo_view repo.new) (cached_in repo.new)) }
    ensures kept { repo_view repo.new ≡ repo_view repo.old }
    ensures same { KeepsTold repo_failed (S.told shelf.old) (S.told shelf.new) result }
    ensures cause { HasCause repo_failed (S.faults shelf.old) (S.faults shelf.new) result }
{
    let mut chunks = BTreeMap::new(alloc);
    let mut place = 0usize;
    while place < ids.len() {
        let sizes = repo.lengths(shelf, &ids[place..])?;
        let count = sizes.len();
        keep_all(ids, place, sizes.as_slice(), &mut chunks)?;
        place += count;
    }
    Ok(chunks)
}

/// Keeps the lengths of the contents of chunks whose ids stand in `ids` from a place on.
fn keep_all(
    ids: &[Id],
    from: usize,
    sizes: &[u64],
    chunks: &mut BTreeMap<Id, Chunk>,
) -> Result<(), RepoFault>
    requires within { from + length sizes.now ≤ length ids.now }
    ensures opens { OnOk result ((told : Option Told) (repo : RepoState) → OpensSoFar told repo (take from ids.now) (get key_cmp chunks.old)
        → IfSome told (λ t. HaveLengths (told_files t) repo.log repo.keys (drop from ids.now) sizes.now)
        → OpensSoFar told repo (take (from + length sizes.now) ids.now) (get key_cmp chunks.new)) }
    ensures memory { IfErr result (λ fault. fault ≡ RepoFault.Memory) }
{
    for place in 0..sizes.len() {
        keep(ids[from + place], sizes[place], chunks)?;
    }
    Ok(())
}

/// Keeps the length of the content of a chunk, which no archive uses yet.
fn keep(id: Id, size: u64, chunks: &mut BTreeMap<Id, Chunk>) -> Result<(), RepoFault>
    ensures kept { OnOk result (Keeps id size (get key_cmp chunks.old) (get key_cmp chunks.new)) }
    ensures memory { IfErr result (λ fault. fault ≡ RepoFault.Memory) }
{
    match chunks.insert(id, Chunk { size, used: false }) {
        Ok(_) => Ok(()),
        Err(_) => Err(RepoFault::Memory),
    }
}
