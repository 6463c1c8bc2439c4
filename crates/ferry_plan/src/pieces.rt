//! Bytes that are cut into pieces, each of which is counted where it would be put.
ghost use Rattle.std.specs.Prelude.{◌≡◌, ◌↔◌, ◌≤◌, ◌<◌, ◌+◌, ◌-◌, ◌^◌, ◌++◌, ◌∷◌, [], ℕ, List, if◌then◌else◌, length, min, IfOk, IsTrue, OnOk};
ghost use Rattle.ferry_base.specs.Limits.{content_limit};
ghost use Rattle.ferry_blob.specs.Blob.{content_id};
ghost use Rattle.ferry_piece.specs.Gather.{chunk_of, chunks_of};
ghost use Rattle.ferry_piece.specs.Piece.{WritesOn};
ghost use Rattle.ferry_piece.specs.Puts.{Addition, Kind, addition, contents_in};
ghost use Rattle.ferry_plan.specs.Tally.{Counts, Knows, Lacks, Takes};
ghost use Rattle.ferry_rechunk.specs.Cut.{cut};
ghost use Rattle.ferry_repo.specs.Opening.{repo_view};

use ferry_base::{Id, ZERO_ID};
use ferry_blob::id_of;
use ferry_item::ChunkRef;
use ferry_rechunk::Cutter;
use ferry_repo::Repo;
use std::alloc::{AllocError, Global};
use std::collections::BTreeSet;
use std::mem;

/// How many bytes of a blob stand before its content.
const HEAD: u64 = 43;

/// Bytes of one kind on their way into pieces: the piece in hand, the chunks of those that were whole, and how many would be put, with
/// how many bytes.
#[derive(Drop)]
pub(crate) struct Pieces {
    pub(crate) alloc: Global,
    pub(crate) cutter: Cutter,
    pub(crate) chunks: Vec<ChunkRef>,
    pub(crate) put: u64,
    pub(crate) bytes: u128,
}

/// The id of a piece, and whether it would be put.
#[derive(Clone, Copy)]
pub(crate) struct Noted {
    pub(crate) id: Id,
    pub(crate) new: bool,
}

/// Notes the id of a piece, which would be put where the target lacks it and it wasn't known.
fn note(known: &mut BTreeSet<Id>, target: &Repo, piece: &[u8]) -> Result<Noted, AllocError>
    ensures id { IfOk result (λ noted. noted.id ≡ content_id (repo_view target.now).keys piece.now) }
    ensures knows { IfOk result (λ noted. (kind : Kind) (added : List Addition) → Knows (repo_view target.now).keys (repo_view target.now).log known.old added
        → Knows (repo_view target.now).keys (repo_view target.now).log known.new (added ++ addition kind piece.now noted.new ∷ [])) }
{
    let id = id_of(target.keys(), piece);
    if !is_lacking(target, &id) {
        return Ok(Noted { id, new: false });
    }
    let new = known.insert(id)?;
    Ok(Noted { id, new })
}

/// Whether the target lacks a chunk of this id.
pub(crate) fn is_lacking(target: &Repo, id: &Id) -> bool
    ensures lacks { IsTrue result ↔ Lacks (repo_view target.now).log id.now }
{
    *id != ZERO_ID && target.log().find(id).is_none()
}

impl Pieces {
    /// Nothing, to be cut into pieces of `block` bytes.
    pub(crate) fn new(alloc: Global, block: usize) -> Result<Pieces, AllocError>
        requires least { 64 ≤ block }
        requires most { block ≤ 8388608 }
        ensures block { IfOk result (λ pieces. pieces.cutter.block ≡ block) }
        ensures piece { IfOk result (λ pieces. pieces.cutter.piece ≡ []) }
        ensures chunks { IfOk result (λ pieces. pieces.chunks.items ≡ []) }
        ensures counted { IfOk result (λ pieces. (pieces.put ≡ 0) × (pieces.bytes ≡ 0)) }
    {
        Ok(Pieces {
            alloc,
            cutter: Cutter::new(alloc, block)?,
            chunks: Vec::new(alloc),
            put: 0,
            bytes: 0,
        })
    }

    /// Takes the chunks of pieces that are held. They stand behind those that were whole, and nothing is counted.
    pub(crate) fn pass(&mut self, pieces: &[ChunkRef]) -> Result<(), AllocError>
        ensures chunks { OnOk result (self.new.chunks.items ≡ self.old.chunks.items ++ pieces.now) }
        ensures others { (self.new.cutter ≡ self.old.cutter) × ((self.new.put ≡ self.old.put) × (self.new.bytes ≡ self.old.bytes)) }
    {
        self.chunks.extend_from_slice(pieces)
    }

    /// Takes bytes, and counts each piece that becomes whole.
    pub(crate) fn write(
        &mut self,
        known: &mut BTreeSet<Id>,
        target: &Repo,
        bytes: &[u8],
    ) -> Result<(), AllocError>
        requires most { self.old.cutter.block ≤ 8388608 }
        requires room { length self.old.cutter.piece < self.old.cutter.block }
        ensures written { OnOk result ((kind : Kind) → (more : List Addition)
            × (Takes kind (repo_view target.now).keys (repo_view target.now).log known.old self.old more known.new self.new
            × WritesOn (repo_view target.now).keys self.old.cutter self.old.chunks.items bytes.now (contents_in more) self.new.cutter
            self.new.chunks.items)) }
    {
        let mut rest = bytes;
        loop {
            let taken = self.cutter.feed(rest);
            rest = &rest[taken..];
            if self.cutter.full().is_none() {
                return Ok(());
            }
            self.add(known, target)?;
        }
    }

    /// Counts the last piece, where it isn't empty, and answers the chunks of all pieces. The next bytes begin a new list.
    pub(crate) fn finish(
        &mut self,
        known: &mut BTreeSet<Id>,
        target: &Repo,
    ) -> Result<Vec<ChunkRef>, AllocError>
        requires least { 1 ≤ self.old.cutter.block }
        requires most { self.old.cutter.block ≤ 8388608 }
        requires within { length self.old.cutter.piece ≤ self.old.cutter.block }
        ensures taken { OnOk result ((kind : Kind) → (more : List Addition)
            × (Takes kind (repo_view target.now).keys (repo_view target.now).log known.old self.old more known.new self.new
            × (contents_in more ≡ cut self.old.cutter.block self.old.cutter.piece))) }
        ensures chunks { IfOk result (λ chunks. chunks.items
            ≡ self.old.chunks.items ++ chunks_of (repo_view target.now).keys (cut self.old.cutter.block self.old.cutter.piece)) }
        ensures begun { OnOk result ((self.new.cutter.piece ≡ []) × (self.new.chunks.items ≡ [])) }
        ensures block { OnOk result (self.new.cutter.block ≡ self.old.cutter.block) }
    {
        self.add_last(known, target)?;
        Ok(mem::replace(&mut self.chunks, Vec::new(self.alloc)))
    }

    /// Counts the piece in hand, where it isn't empty.
    fn add_last(&mut self, known: &mut BTreeSet<Id>, target: &Repo) -> Result<(), AllocError>
        requires least { 1 ≤ self.old.cutter.block }
        requires most { self.old.cutter.block ≤ 8388608 }
        requires within { length self.old.cutter.piece ≤ self.old.cutter.block }
        ensures taken { OnOk result ((kind : Kind) → (more : List Addition)
            × (Takes kind (repo_view target.now).keys (repo_view target.now).log known.old self.old more known.new self.new
            × (contents_in more ≡ cut self.old.cutter.block self.old.cutter.piece))) }
        ensures chunks { OnOk result (self.new.chunks.items
            ≡ self.old.chunks.items ++ chunks_of (repo_view target.now).keys (cut self.old.cutter.block self.old.cutter.piece)) }
        ensures cleared { OnOk result (self.new.cutter.piece ≡ []) }
        ensures block { OnOk result (self.new.cutter.block ≡ self.old.cutter.block) }
    {
        if self.cutter.last().is_none() {
            return Ok(());
        }
        self.add(known, target)
    }

    /// Counts the piece in hand, and begins the next one.
    fn add(&mut self, known: &mut BTreeSet<Id>, target: &Repo) -> Result<(), AllocError>
        requires most { self.old.cutter.block ≤ 8388608 }
        requires within { length self.old.cutter.piece ≤ self.old.cutter.block }
        requires piece { 1 ≤ length self.old.cutter.piece }
        ensures taken { OnOk result ((kind : Kind) → (more : List Addition)
            × (Takes kind (repo_view target.now).keys (repo_view target.now).log known.old self.old more known.new self.new
            × (contents_in more ≡ self.old.cutter.piece ∷ []))) }
        ensures chunks { OnOk result (self.new.chunks.items
            ≡ self.old.chunks.items ++ chunk_of (repo_view target.now).keys self.old.cutter.piece ∷ []) }
        ensures cleared { OnOk result (self.new.cutter.piece ≡ []) }
        ensures block { OnOk result (self.new.cutter.block ≡ self.old.cutter.block) }
    {
        let Some(piece) = self.cutter.last() else {
            return Ok(());
        };
        let size = piece.len() as u64;
        let noted = note(known, target, piece)?;
        self.push(noted, size)?;
        self.cutter.clear();
        Ok(())
    }

    /// Keeps the chunk of a piece that was noted, and counts it.
    fn push(&mut self, noted: Noted, size: u64) -> Result<(), AllocError>
        requires small { size ≤ content_limit }
        ensures chunks { OnOk result (self.new.chunks.items ≡ self.old.chunks.items
            ++ record { id = noted.id; size = size; csize = 43 + size } ∷ []) }
        ensures cutter { self.new.cutter ≡ self.old.cutter }
        ensures counted { (kind : Kind) (content : List ℕ) (added : List Addition) → length content ≡ size
            → Counts kind added self.old.put self.old.bytes
            → OnOk result (Counts kind (added ++ addition kind content noted.new ∷ []) self.new.put self.new.bytes) }
    {
        let id = noted.id;
        self.chunks.push(ChunkRef {
            id,
            size,
            csize: HEAD + size,
        })?;
        self.count(noted.new, size);
        Ok(())
    }

    /// Counts a piece, where it would be put.
    fn count(&mut self, new: bool, size: u64)
        ensures chunks { self.new.chunks ≡ self.old.chunks }
        ensures cutter { self.new.cutter ≡ self.old.cutter }
        ensures put { self.new.put ≡ min (self.old.put + (if new then 1 else 0)) (2 ^ 64 - 1) }
        ensures bytes { self.new.bytes ≡ min (self.old.bytes + (if new then size else 0)) (2 ^ 128 - 1) }
    {
        let (put, bytes) = (self.put, self.bytes);
        if new {
            self.put = put.saturating_add(1);
            self.bytes = bytes.saturating_add(u128::from(size));
        }
    }
}
