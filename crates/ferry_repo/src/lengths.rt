//! The lengths of the contents of several chunks, opened side by side.
ghost use Rattle.std.specs.Prelude.{◌≡◌, ◌<◌, ◌≤◌, ◌++◌, ◌∷◌, [], false, take, length, IfOk, IfErr, IfSome, OnOk};
ghost use Rattle.ferry_blob.specs.Batch.{id_at};
ghost use Rattle.ferry_disk.specs.Device.{KeepsTold, HasCause, told_files};
ghost use Rattle.ferry_disk.specs.Files.{Files};
ghost use Rattle.ferry_log.specs.State.{FitsFiles, LogState};
ghost use Rattle.ferry_mac.specs.declared.keys.Keys.{Keys};
ghost use Rattle.ferry_repo.specs.Batch.{IsBatch, HasBlobs, HasChunkBlob};
ghost use Rattle.ferry_repo.specs.Fault.{repo_failed, IsOfFiles};
ghost use Rattle.ferry_repo.specs.Lengths.{HaveLengths, RefusesOne, BreaksPlace, AreLengths};
ghost use Rattle.ferry_repo.specs.Objects.{RefusesChunk};

use crate::batch::{Batch, open_each};
use crate::fault::RepoFault;
use crate::object::blob_at;
use ferry_base::{Id, ZERO_ID};
use ferry_blob::BlobFault;
use ferry_disk::Shelf;
use ferry_log::Log;
use ferry_mac::Keys;
use std::alloc::{AllocError, Global};

/// How many blobs are opened side by side at most.
const PLACES: usize = 64;

/// How many bytes of blobs are read to be opened side by side: once there are as many, no blob follows.
const ROOM: u64 = 16_777_216;

/// How many bytes of an opened blob stand in front of its content.
const HEAD: usize = 43;

impl Batch {
    /// Reads the blobs of the chunks at the front of `ids`, one at least. A chunk that is refused ends them, and is refused itself where it
    /// is the first.
    #[tactic(auto, using(crate::proofs::FaultLemmas::conversions))]
    pub(crate) fn read_front<S: Shelf>(
        alloc: Global,
        shelf: &mut S,
        log: &Log,
        ids: &[Id],
    ) -> Result<Batch, RepoFault>
        requires fits { IfSome (S.told shelf.old) (λ t. FitsFiles (told_files t) log.now) }
        requires some { 0 < length ids.now }
        ensures batch { IfOk result (λ batch. IsBatch batch.ids.items batch.blobs.items) }
        ensures some { IfOk result (λ batch. 0 < length batch.blobs.items) }
        ensures front { IfOk result (λ batch. batch.ids.items ≡ take (length batch.blobs.items) ids.now) }
        ensures blobs { IfOk result (λ batch. IfSome (S.told shelf.old) (λ t.
            HasBlobs (told_files t) log.now batch.ids.items batch.blobs.items)) }
        ensures refused { IfErr result (λ fault. IsOfFiles fault → IfSome (S.told shelf.old) (λ t.
            (keys : Keys) → RefusesChunk (told_files t) log.now keys (id_at ids.now 0) fault)) }
        ensures same { KeepsTold repo_failed (S.told shelf.old) (S.told shelf.new) result }
        ensures cause { HasCause repo_failed (S.faults shelf.old) (S.faults shelf.new) result }
    {
        let mut batch = Batch::new(alloc, ROOM);
        for place in 0..places(ids.len()) {
            match chunk_blob(alloc, shelf, log, &ids[place]) {
                Ok(blob) => batch.put(&ids[place], blob)?,
                Err(fault) => return batch.ended(fault),
            }
            if batch.room == 0 {
                return Ok(batch);
            }
        }
        Ok(batch)
    }

    /// The batch, where a fault of the files ends it behind its first blob.
    fn ended(self, fault: RepoFault) -> Result<Batch, RepoFault>
        ensures batch { IfOk result (λ batch. (batch ≡ self) × (0 < length self.blobs.items) × (repo_failed fault ≡ false)) }
        ensures fault { IfErr result (λ answer. (answer ≡ fault) × (IsOfFiles answer → length self.blobs.items ≡ 0)) }
    {
        match fault {
            RepoFault::Device => Err(RepoFault::Device),
            RepoFault::Memory => Err(RepoFault::Memory),
            _ => {
                if self.blobs.is_empty() {
                    return Err(fault);
                }
                Ok(self)
            }
        }
    }

    /// Opens the blobs, and answers the lengths of their contents.
    pub(crate) fn lengths(self, alloc: Global, keys: &Keys) -> Result<Vec<u64>, RepoFault>
        requires batch { IsBatch self.ids.items self.blobs.items }
        ensures count { IfOk result (λ sizes. length sizes.items ≡ length self.blobs.items) }
        ensures lengths { IfOk result (λ sizes. (files : Files) (log : LogState) → HasBlobs files log self.ids.items self.blobs.items
            → HaveLengths files log keys.now self.ids.items sizes.items) }
        ensures refused { IfErr result (λ fault. IsOfFiles fault → (files : Files) (log : LogState) → HasBlobs files log self.ids.items self.blobs.items
            → RefusesOne files log keys.now self.ids.items fault) }
        ensures still { IfErr result (λ fault. repo_failed fault ≡ false) }
    {
        let Batch {
            ids,
            mut blobs,
            room: _,
        } = self;
        let answers = open_each(keys, ids.as_slice(), blobs.as_mut_slice());
        lengths_of(alloc, ids.as_slice(), &answers, blobs.as_slice())
    }
}

/// How many of so many blobs are opened side by side.
fn places(count: usize) -> usize
    ensures few { result ≤ 64 }
    ensures within { result ≤ count }
    ensures some { 0 < count → 0 < result }
{
    if count < PLACES { count } else { PLACES }
}

/// The blob of a chunk.
#[tactic(auto, using(crate::proofs::FaultLemmas::conversions))]
fn chunk_blob<S: Shelf>(
    alloc: Global,
    shelf: &mut S,
    log: &Log,
    id: &Id,
) -> Result<Vec<u8>, RepoFault>
    requires fits { IfSome (S.told shelf.old) (λ t. FitsFiles (told_files t) log.now) }
    ensures blob { IfOk result (λ blob. IfSome (S.told shelf.old) (λ t. HasChunkBlob (told_files t) log.now id.now blob.items)) }
    ensures refused { IfErr result (λ fault. IfSome (S.told shelf.old) (λ t.
        (keys : Keys) → RefusesChunk (told_files t) log.now keys id.now fault)) }
    ensures same { KeepsTold repo_failed (S.told shelf.old) (S.told shelf.new) result }
    ensures cause { HasCause repo_failed (S.faults shelf.old) (S.faults shelf.new) result }
{
    if *id == ZERO_ID {
        return Err(RepoFault::Missing(*id));
    }
    let Some(place) = log.find(id) else {
        return Err(RepoFault::Missing(*id));
    };
    blob_at(alloc, shelf, place)
}

/// The lengths of the contents of blobs that were opened, or the first fault.
fn lengths_of(
    alloc: Global,
    ids: &[Id],
    answers: &[Result<(), BlobFault>; 64],
    blobs: &[Vec<u8>],
) -> Result<Vec<u64>, RepoFault>
    requires batch { IsBatch ids.now blobs.now }
    ensures count { IfOk result (λ sizes. length sizes.items ≡ length blobs.now) }
    ensures lengths { IfOk result (λ sizes. AreLengths answers.now blobs.now sizes.items) }
    ensures refused { IfErr result (λ fault. IsOfFiles fault → BreaksPlace ids.now answers.now (length blobs.now) fault) }
    ensures still { IfErr result (λ fault. repo_failed fault ≡ false) }
{
    let mut sizes = Vec::new(alloc);
    for place in 0..blobs.len() {
        match answers[place] {
            Ok(()) => put_size(blobs[place].len().saturating_sub(HEAD), &mut sizes)?,
            Err(fault) => return Err(RepoFault::Blob(ids[place], fault)),
        }
    }
    Ok(sizes)
}

/// Puts a length behind the others.
fn put_size(size: usize, sizes: &mut Vec<u64>) -> Result<(), AllocError>
    ensures sizes { OnOk result (sizes.new.items ≡ sizes.old.items ++ size ∷ []) }
{
    sizes.push(size as u64)?;
    Ok(())
}
