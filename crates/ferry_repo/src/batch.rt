//! The contents of several chunks, opened side by side.
ghost use Rattle.std.specs.Prelude.{◌≡◌, ◌≤◌, ◌<◌, ℕ, ◌++◌, ◌∷◌, [], drop, length, IfOk, IfErr, IfSome, IsOk, OnOk};
ghost use Rattle.std.specs.List.{AllByRecursion};
ghost use Rattle.ferry_blob.specs.Batch.{IsOpened, answer_at, bytes_at, id_at};
ghost use Rattle.ferry_disk.specs.Device.{KeepsTold, HasCause, told_files};
ghost use Rattle.ferry_disk.specs.Files.{Files};
ghost use Rattle.ferry_log.specs.State.{FitsFiles, LogState};
ghost use Rattle.ferry_mac.specs.declared.keys.Keys.{Keys};
ghost use Rattle.ferry_repo.specs.Batch.{IsBatch, HasBlobs};
ghost use Rattle.ferry_repo.specs.Fault.{repo_failed, IsOfFiles};
ghost use Rattle.ferry_repo.specs.Objects.{HoldsChunk};

use crate::cache::Cache;
use crate::fault::RepoFault;
use crate::object::{blob_at, without_head};
use ferry_base::{Id, ZERO_ID};
use ferry_blob::{BlobFault, open_many};
use ferry_disk::Shelf;
use ferry_log::Log;
use ferry_mac::Keys;
use std::alloc::{AllocError, Global};

/// How many contents are read ahead at most. Of the twenty-eight that are kept the others are left to what is used between, as the chunks
/// of a stream.
pub(crate) const AHEAD: usize = 24;

/// How many bytes of blobs are read ahead at most, with those of the contents that are kept, but for the first blob: twenty-four
/// contents of 2 MiB, and 128 KiB for what stands before each and for a chunk of the stream.
const ROOM: u64 = 50_462_720;

/// Some blobs, with the ids of their contents in the same order, and how many bytes more may be read.
#[derive(Drop)]
pub(crate) struct Batch {
    pub(crate) ids: Vec<Id>,
    pub(crate) blobs: Vec<Vec<u8>>,
    pub(crate) room: u64,
}

impl Batch {
    /// No blobs, and room for this many bytes.
    pub(crate) fn new(alloc: Global, room: u64) -> Batch
        ensures batch { IsBatch result.ids.items result.blobs.items }
        ensures none { length result.blobs.items ≡ 0 }
    {
        Batch {
            ids: Vec::new(alloc),
            blobs: Vec::new(alloc),
            room,
        }
    }

    /// Reads the blobs of chunks that the cache lacks, in their order, as many as there is room for. What isn't at its place is passed over.
    #[tactic(auto, using(crate::proofs::FaultLemmas::conversions))]
    pub(crate) fn read<S: Shelf>(
        alloc: Global,
        shelf: &mut S,
        log: &Log,
        cache: &Cache,
        ids: &[Id],
    ) -> Result<Batch, RepoFault>
        requires fits { IfSome (S.told shelf.old) (λ t. FitsFiles (told_files t) log.now) }
        ensures batch { IfOk result (λ batch. IsBatch batch.ids.items batch.blobs.items) }
        ensures blobs { IfOk result (λ batch. IfSome (S.told shelf.old) (λ t.
            HasBlobs (told_files t) log.now batch.ids.items batch.blobs.items)) }
        ensures refused { IfErr result (λ fault. IsOfFiles fault → ⊥) }
        ensures same { KeepsTold repo_failed (S.told shelf.old) (S.told shelf.new) result }
        ensures cause { HasCause repo_failed (S.faults shelf.old) (S.faults shelf.new) result }
    {
        let mut batch = Batch::new(alloc, ROOM.saturating_sub(cache.bytes()));
        for place in 0..ids.len() {
            batch.add(alloc, shelf, log, cache, &ids[place])?;
        }
        Ok(batch)
    }

    /// Reads the blob of a chunk, where there is room, and it is neither in the cache nor in the batch.
    #[tactic(auto, using(crate::proofs::FaultLemmas::conversions))]
    fn add<S: Shelf>(
        &mut self,
        alloc: Global,
        shelf: &mut S,
        log: &Log,
        cache: &Cache,
        id: &Id,
    ) -> Result<(), RepoFault>
        requires fits { IfSome (S.told shelf.old) (λ t. FitsFiles (told_files t) log.now) }
        requires batch { IsBatch self.old.ids.items self.old.blobs.items }
        requires blobs { IfSome (S.told shelf.old) (λ t. HasBlobs (told_files t) log.now self.old.ids.items self.old.blobs.items) }
        ensures batch { OnOk result (IsBatch self.new.ids.items self.new.blobs.items) }
        ensures blobs { OnOk result (IfSome (S.told shelf.old) (λ t.
            HasBlobs (told_files t) log.now self.new.ids.items self.new.blobs.items)) }
        ensures refused { IfErr result (λ fault. IsOfFiles fault → ⊥) }
        ensures same { KeepsTold repo_failed (S.told shelf.old) (S.told shelf.new) result }
        ensures cause { HasCause repo_failed (S.faults shelf.old) (S.faults shelf.new) result }
    {
        if self.ids.len() >= AHEAD || *id == ZERO_ID || cache.get(id).is_some() {
            return Ok(());
        }
        let Some(place) = log.find(id) else {
            return Ok(());
        };
        if !self.takes(id, place.size) {
            return Ok(());
        }
        match blob_at(alloc, shelf, place) {
            Ok(blob) => Ok(self.put(id, blob)?),
            Err(RepoFault::Device) => Err(RepoFault::Device),
            Err(RepoFault::Memory) => Err(RepoFault::Memory),
            Err(_) => Ok(()),
        }
    }

    /// Whether a blob of this size has room and its id isn't there. The first one has room whatever its size.
    fn takes(&self, id: &Id, size: u32) -> bool {
        let ids = self.ids.as_slice();
        ids.is_empty() || u64::from(size) <= self.room && !ids.contains(id)
    }

    /// Puts a blob behind the others.
    pub(crate) fn put(&mut self, id: &Id, blob: Vec<u8>) -> Result<(), AllocError>
        ensures ids { OnOk result (self.new.ids.items ≡ self.old.ids.items ++ id.now ∷ []) }
        ensures blobs { OnOk result (self.new.blobs.items ≡ self.old.blobs.items ++ blob ∷ []) }
    {
        self.room = self.room.saturating_sub(blob.len() as u64);
        self.ids.push(*id)?;
        self.blobs.push(blob)?;
        Ok(())
    }

    /// Opens the blobs, and keeps the content of each that opens.
    pub(crate) fn keep(self, keys: &Keys, cache: &mut Cache) -> Result<(), AllocError>
        requires batch { IsBatch self.ids.items self.blobs.items }
        ensures holds { (files : Files) (log : LogState) → HasBlobs files log self.ids.items self.blobs.items
            → AllByRecursion (λ c. HoldsChunk files log keys.now c.0 c.1) cache.old
            → AllByRecursion (λ c. HoldsChunk files log keys.now c.0 c.1) cache.new }
    {
        let Batch {
            ids,
            mut blobs,
            room: _,
        } = self;
        let answers = open_each(keys, ids.as_slice(), blobs.as_mut_slice());
        keep_opened(ids.as_slice(), &answers, blobs, cache)
    }
}

/// Opens the blobs in place, each under its id. A place behind the last blob is answered as an empty blob is.
pub(crate) fn open_each(
    keys: &Keys,
    ids: &[Id],
    blobs: &mut [Vec<u8>],
) -> [Result<(), BlobFault>; 64]
    requires ids { length ids.now ≡ length blobs.old }
    requires places { length blobs.old ≤ 64 }
    ensures opened { (k : ℕ) → k < length blobs.old
        → IsOpened keys.now (id_at ids.now k) (bytes_at blobs.old k) (answer_at result k) (bytes_at blobs.new k) }
{
    let mut answers = [Err(BlobFault::Short); 64];
    open_many(keys, ids, blobs, &mut answers[..ids.len()]);
    answers
}

/// Keeps the content of each blob that was opened.
fn keep_opened(
    ids: &[Id],
    answers: &[Result<(), BlobFault>; 64],
    blobs: Vec<Vec<u8>>,
    cache: &mut Cache,
) -> Result<(), AllocError>
    requires batch { IsBatch ids.now blobs.items }
    requires head { (k : ℕ) → k < length blobs.items → IsOk (answer_at answers.now k) → 43 ≤ length (bytes_at blobs.items k) }
    ensures holds { (files : Files) (log : LogState) (keys : Keys)
        → ((k : ℕ) → k < length blobs.items → IsOk (answer_at answers.now k)
        → HoldsChunk files log keys (id_at ids.now k) (drop 43 (bytes_at blobs.items k)))
        → AllByRecursion (λ c. HoldsChunk files log keys c.0 c.1) cache.old
        → AllByRecursion (λ c. HoldsChunk files log keys c.0 c.1) cache.new }
{
    let mut left = blobs;
    while let Some(blob) = left.pop() {
        let place = left.len();
        if answers[place].is_ok() && cache.get(&ids[place]).is_none() {
            cache.keep_new(&ids[place], without_head(blob))?;
        }
    }
    Ok(())
}
