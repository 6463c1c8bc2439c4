//! Bytes that are cut into pieces, each of which is added to a store.
ghost use Rattle.std.specs.Prelude.{◌≡◌, ◌≤◌, ◌<◌, ◌↔◌, ◌+◌, ◌-◌, ◌^◌, ◌++◌, ◌∷◌, [], ℕ, Bool, List, false, true, if◌then◌else◌, length, min};
ghost use Rattle.std.specs.Prelude.{IfErr, IfOk, IfSome, IsTrue, OnOk};
ghost use Rattle.ferry_base.specs.Limits.{content_limit};
ghost use Rattle.ferry_blob.specs.Blob.{content_id};
ghost use Rattle.ferry_piece.specs.Adding.{AddsOn, SparesStore, BeginsSegments};
ghost use Rattle.ferry_piece.specs.Fault.{random_failed, shelf_failed};
ghost use Rattle.ferry_piece.specs.Front.{CommitsPieces};
ghost use Rattle.ferry_piece.specs.Gather.{KeepsRest, KeepsStanding, MakesRoom, chunk_of, chunks_of};
ghost use Rattle.ferry_piece.specs.Piece.{BeginsOn, CountsOn, HasRoom, IsPutBy, WritesOn};
ghost use Rattle.ferry_piece.specs.Puts.{Addition, AreOf, ArePieces, IsCheckpoint, Kind, addition, contents_in, is_piece};
ghost use Rattle.ferry_piece.specs.Stops.{StopsPieces, is_target};
ghost use Rattle.ferry_piece.specs.Work.{Works};
ghost use Rattle.ferry_rechunk.specs.Cut.{cut};
ghost use Rattle.ferry_repo.specs.Opening.{repo_view};
ghost use Rattle.ferry_store.specs.Adding.{Checkpoints, id_under, pending_after};
ghost use Rattle.ferry_store.specs.Content.{IsNew};
ghost use Rattle.ferry_store.specs.Store.{IsUnspent, StoreFits};

use crate::fault::CarryFault;
use crate::forecast::foresee;
use crate::foreseen::{Ahead, add_foreseen};
use ferry_disk::Depot;
use ferry_item::{ChunkRef, ChunkRefs};
use ferry_rechunk::Cutter;
use ferry_repo::Repo;
use ferry_store::{Added, Store};
use std::alloc::{AllocError, Global};
use std::mem;

/// How many bytes of a blob stand before its content.
const HEAD: u64 = 43;

/// The size in bytes of a chunk from which it is worth its time to prepare what follows.
const LARGE: u64 = 16_384;

/// Adds a piece, behind a checkpoint where so many are pending that none more may be put before.
pub(crate) fn add_piece<D: Depot>(
    store: &mut Store,
    depot: &mut D,
    checkpoint: u64,
    piece: &[u8],
) -> Result<Added, CarryFault>
    requires size { length piece.now ≤ content_limit }
    requires checkpoint { IsCheckpoint checkpoint }
    requires pending { store.old.pending ≤ checkpoint }
    requires unspent { IsUnspent store.old }
    requires fits { IfSome (D.told depot.old) (λ t. StoreFits false store.old t.history) }
    ensures works { (kind : Kind) (put : Bool) → is_piece kind ≡ true → IsPutBy put result
        → AddsOn checkpoint store.old (addition kind piece.now put ∷ []) store.new
        (D.told depot.old) (D.told depot.new) (D.faults depot.old) (D.faults depot.new) result }
    ensures id { IfOk result (λ added. added.id ≡ content_id (repo_view store.old.repo).keys piece.now) }
    ensures pending { OnOk result (store.new.pending ≤ checkpoint) }
    ensures rest { OnOk result (KeepsRest store.old store.new) }
    ensures fits { OnOk result (IfSome (D.told depot.new) (λ t. StoreFits false store.new t.history)) }
    ensures stops { IfErr result (StopsPieces (D.told depot.new) (repo_view store.old.repo).keys) }
    ensures unspent { OnOk result (IsUnspent store.new) }
    ensures shelf { IfErr result (λ fault. shelf_failed fault ≡ false) }
    ensures target { IfErr result (λ fault. is_target fault ≡ true) }
    ensures drawn { IfErr result (λ fault. random_failed fault ≡ false) }
{
    make_room(store, depot, checkpoint, piece)?;
    add(store, depot, piece)
}

/// Commits what is pending, where the piece would be put and none more may be put before.
fn make_room<D: Depot>(
    store: &mut Store,
    depot: &mut D,
    checkpoint: u64,
    piece: &[u8],
) -> Result<(), CarryFault>
    requires checkpoint { IsCheckpoint checkpoint }
    requires pending { store.old.pending ≤ checkpoint }
    requires unspent { IsUnspent store.old }
    requires fits { IfSome (D.told depot.old) (λ t. StoreFits false store.old t.history) }
    ensures works { (one : Addition) → one.content ≡ piece.now → is_piece one.kind ≡ true
        → Works (KeepsStanding checkpoint store.old (one ∷ [])) (λ _. MakesRoom checkpoint store.old one store.new)
        (D.told depot.old) (D.told depot.new) (D.faults depot.old) (D.faults depot.new) result }
    ensures spent { IfErr result (λ fault. SparesStore fault → ⊥) }
    ensures few { BeginsSegments 1 store.old store.new result }
    ensures pending { OnOk result (store.new.pending ≤ checkpoint) }
    ensures room { OnOk result (IsNew (repo_view store.new.repo) (id_under store.new piece.now) → store.new.pending < checkpoint) }
    ensures rest { OnOk result (KeepsRest store.old store.new) }
    ensures fits { OnOk result (IfSome (D.told depot.new) (λ t. StoreFits false store.new t.history)) }
    ensures stops { IfErr result (StopsPieces (D.told depot.new) (repo_view store.old.repo).keys) }
    ensures unspent { OnOk result (IsUnspent store.new) }
    ensures shelf { IfErr result (λ fault. shelf_failed fault ≡ false) }
    ensures target { IfErr result (λ fault. is_target fault ≡ true) }
    ensures drawn { IfErr result (λ fault. random_failed fault ≡ false) }
{
    if store.pending() < checkpoint || !store.would_put(piece) {
        return Ok(());
    }
    commit_pieces(store, depot)
}

/// Commits the pieces that were put.
#[tactic(auto, using(crate::proofs::FaultLemmas::conversions))]
pub fn commit_pieces<D: Depot>(store: &mut Store, depot: &mut D) -> Result<(), CarryFault>
    requires unspent { IsUnspent store.old }
    requires fits { IfSome (D.told depot.old) (λ t. StoreFits false store.old t.history) }
    ensures works { Works (CommitsPieces store.old) (λ _. Checkpoints store.old store.new)
        (D.told depot.old) (D.told depot.new) (D.faults depot.old) (D.faults depot.new) result }
    ensures spent { IfErr result (λ fault. SparesStore fault → ⊥) }
    ensures few { BeginsSegments 1 store.old store.new result }
    ensures repo { OnOk result (store.new.repo ≡ store.old.repo) }
    ensures rest { OnOk result (KeepsRest store.old store.new) }
    ensures pending { OnOk result (store.new.pending ≡ 0) }
    ensures fits { OnOk result (IfSome (D.told depot.new) (λ t. StoreFits false store.new t.history)) }
    ensures stops { IfErr result (StopsPieces (D.told depot.new) (repo_view store.old.repo).keys) }
    ensures unspent { OnOk result (IsUnspent store.new) }
    ensures shelf { IfErr result (λ fault. shelf_failed fault ≡ false) }
    ensures target { IfErr result (λ fault. is_target fault ≡ true) }
    ensures drawn { IfErr result (λ fault. random_failed fault ≡ false) }
{
    store.checkpoint(depot)?;
    Ok(())
}

/// Adds a content.
#[tactic(auto, using(crate::proofs::FaultLemmas::conversions))]
pub fn add<D: Depot>(store: &mut Store, depot: &mut D, content: &[u8]) -> Result<Added, CarryFault>
    requires size { length content.now ≤ content_limit }
    requires unspent { IsUnspent store.old }
    requires fits { IfSome (D.told depot.old) (λ t. StoreFits false store.old t.history) }
    ensures works { (most : ℕ) (kind : Kind) (put : Bool) → IsPutBy put result → HasRoom most kind content.now store.old
        → AddsOn most store.old (addition kind content.now put ∷ []) store.new
        (D.told depot.old) (D.told depot.new) (D.faults depot.old) (D.faults depot.new) result }
    ensures pending { IfOk result (λ added. store.new.pending ≡ pending_after store.old.pending added.new) }
    ensures new { IfOk result (λ added. IsTrue added.new ↔ IsNew (repo_view store.old.repo) (id_under store.old content.now)) }
    ensures few { BeginsSegments 1 store.old store.new result }
    ensures id { IfOk result (λ added. added.id ≡ content_id (repo_view store.old.repo).keys content.now) }
    ensures rest { OnOk result (KeepsRest store.old store.new) }
    ensures fits { OnOk result (IfSome (D.told depot.new) (λ t. StoreFits false store.new t.history)) }
    ensures stops { IfErr result (StopsPieces (D.told depot.new) (repo_view store.old.repo).keys) }
    ensures unspent { OnOk result (IsUnspent store.new) }
    ensures shelf { IfErr result (λ fault. shelf_failed fault ≡ false) }
    ensures target { IfErr result (λ fault. is_target fault ≡ true) }
    ensures drawn { IfErr result (λ fault. random_failed fault ≡ false) }
{
    let added = store.add(depot, content)?;
    Ok(added)
}

/// A writer of bytes into a store: it cuts them into pieces and adds each, and keeps the chunks that the pieces are.
#[derive(Drop)]
pub struct PieceWriter {
    alloc: Global,
    checkpoint: u64,
    cutter: Cutter,
    chunks: Vec<ChunkRef>,
    put: u64,
    bytes: u128,
    ahead: Ahead,
}

impl PieceWriter {
    /// A writer of pieces of `block` bytes.
    pub fn new(alloc: Global, block: usize, checkpoint: u64) -> Result<PieceWriter, AllocError>
        requires least { 64 ≤ block }
        requires most { block ≤ 8388608 }
        ensures checkpoint { IfOk result (λ writer. writer.checkpoint ≡ checkpoint) }
        ensures block { IfOk result (λ writer. writer.cutter.block ≡ block) }
        ensures piece { IfOk result (λ writer. writer.cutter.piece ≡ []) }
        ensures chunks { IfOk result (λ writer. writer.chunks.items ≡ []) }
        ensures counted { IfOk result (λ writer. (writer.put ≡ 0) × (writer.bytes ≡ 0)) }
    {
        Ok(PieceWriter {
            alloc,
            checkpoint,
            cutter: Cutter::new(alloc, block)?,
            chunks: Vec::new(alloc),
            put: 0,
            bytes: 0,
            ahead: Ahead::none(),
        })
    }

    /// How many pieces were put, and how many bytes they have.
    pub fn put(&self) -> (u64, u128)
        ensures { (result.0 ≡ self.now.put) × (result.1 ≡ self.now.bytes) × (result.0 < 2 ^ 64) × (result.1 < 2 ^ 128) }
    {
        let (put, bytes) = (self.put, self.bytes);
        (put, bytes)
    }

    /// Whether `foresee` would look at what comes next, where this chunk comes: nothing is prepared yet, and the chunk is large enough.
    pub fn looks_ahead(&self, chunk: &ChunkRef) -> bool {
        self.ahead.is_none() && chunk.size >= LARGE
    }

    /// Prepares the pieces that come next side by side: of the bytes in hand and the contents of `chunks`, and then of each of `lists`, the
    /// chunks of a content each, as far as `source` keeps the contents, up to thirty-two pieces and about 48 MiB. Only time depends on it: each
    /// piece that comes is compared with the one that was foreseen, and where memory is refused nothing is prepared.
    pub fn foresee(
        &mut self,
        source: &Repo,
        store: &Store,
        chunks: &[ChunkRef],
        lists: &[ChunkRefs],
    )
        ensures same { self.new ≡ self.old }
    {
        self.ahead = foresee(self.alloc, &self.cutter, source, store, chunks, lists);
    }

    /// Whether no piece is in hand.
    pub fn is_between(&self) -> bool
        ensures between { IsTrue result → self.now.cutter.piece ≡ [] }
    {
        self.cutter.last().is_none()
    }

    /// Takes the chunks of pieces that were added before. They stand behind the piece in hand, where there is one, and nothing is added.
    pub fn pass(&mut self, pieces: &[ChunkRef]) -> Result<(), AllocError>
        ensures chunks { OnOk result (self.new.chunks.items ≡ self.old.chunks.items ++ pieces.now) }
        ensures others { (self.new.cutter ≡ self.old.cutter) × (self.new.checkpoint ≡ self.old.checkpoint) }
        ensures counted { (self.new.put ≡ self.old.put) × (self.new.bytes ≡ self.old.bytes) }
    {
        self.chunks.extend_from_slice(pieces)
    }

    /// Takes bytes, and adds each piece that becomes whole.
    pub fn write<D: Depot>(
        &mut self,
        store: &mut Store,
        depot: &mut D,
        bytes: &[u8],
    ) -> Result<(), CarryFault>
        requires most { self.old.cutter.block ≤ 8388608 }
        requires room { length self.old.cutter.piece < self.old.cutter.block }
        requires checkpoint { IsCheckpoint self.old.checkpoint }
        requires pending { store.old.pending ≤ self.old.checkpoint }
        requires unspent { IsUnspent store.old }
        requires fits { IfSome (D.told depot.old) (λ t. StoreFits false store.old t.history) }
        ensures written { (kind : Kind) → is_piece kind ≡ true → (more : List Addition) × (AddsOn self.old.checkpoint store.old more store.new
            (D.told depot.old) (D.told depot.new) (D.faults depot.old) (D.faults depot.new) result
            × (AreOf kind more × (BeginsOn self.old.cutter bytes.now (contents_in more)
            × OnOk result (WritesOn (repo_view store.old.repo).keys self.old.cutter self.old.chunks.items bytes.now (contents_in more)
            self.new.cutter self.new.chunks.items × CountsOn kind self.old more self.new)))) }
        ensures checkpoint { OnOk result (self.new.checkpoint ≡ self.old.checkpoint) }
        ensures pending { OnOk result (store.new.pending ≤ self.old.checkpoint) }
        ensures rest { OnOk result (KeepsRest store.old store.new) }
        ensures fits { OnOk result (IfSome (D.told depot.new) (λ t. StoreFits false store.new t.history)) }
        ensures stops { IfErr result (StopsPieces (D.told depot.new) (repo_view store.old.repo).keys) }
        ensures unspent { OnOk result (IsUnspent store.new) }
        ensures shelf { IfErr result (λ fault. shelf_failed fault ≡ false) }
        ensures target { IfErr result (λ fault. is_target fault ≡ true) }
        ensures drawn { IfErr result (λ fault. random_failed fault ≡ false) }
    {
        let mut rest = bytes;
        loop {
            let taken = self.cutter.feed(rest);
            rest = &rest[taken..];
            if self.cutter.full().is_none() {
                return Ok(());
            }
            self.add(store, depot)?;
        }
    }

    /// Adds the last piece, where it isn't empty, and answers the chunks of all pieces. The next bytes begin a new list.
    pub fn finish<D: Depot>(
        &mut self,
        store: &mut Store,
        depot: &mut D,
    ) -> Result<Vec<ChunkRef>, CarryFault>
        requires least { 1 ≤ self.old.cutter.block }
        requires most { self.old.cutter.block ≤ 8388608 }
        requires within { length self.old.cutter.piece ≤ self.old.cutter.block }
        requires checkpoint { IsCheckpoint self.old.checkpoint }
        requires pending { store.old.pending ≤ self.old.checkpoint }
        requires unspent { IsUnspent store.old }
        requires fits { IfSome (D.told depot.old) (λ t. StoreFits false store.old t.history) }
        ensures works { (kind : Kind) → is_piece kind ≡ true → (more : List Addition) × (AddsOn self.old.checkpoint store.old more store.new
            (D.told depot.old) (D.told depot.new) (D.faults depot.old) (D.faults depot.new) result
            × (ArePieces kind (cut self.old.cutter.block self.old.cutter.piece) more × OnOk result (CountsOn kind self.old more self.new))) }
        ensures chunks { IfOk result (λ chunks. chunks.items
            ≡ self.old.chunks.items ++ chunks_of (repo_view store.old.repo).keys (cut self.old.cutter.block self.old.cutter.piece)) }
        ensures begun { OnOk result ((self.new.cutter.piece ≡ []) × (self.new.chunks.items ≡ [])) }
        ensures block { self.new.cutter.block ≡ self.old.cutter.block }
        ensures checkpoint { OnOk result (self.new.checkpoint ≡ self.old.checkpoint) }
        ensures pending { OnOk result (store.new.pending ≤ self.old.checkpoint) }
        ensures rest { OnOk result (KeepsRest store.old store.new) }
        ensures fits { OnOk result (IfSome (D.told depot.new) (λ t. StoreFits false store.new t.history)) }
        ensures stops { IfErr result (StopsPieces (D.told depot.new) (repo_view store.old.repo).keys) }
        ensures unspent { OnOk result (IsUnspent store.new) }
        ensures shelf { IfErr result (λ fault. shelf_failed fault ≡ false) }
        ensures target { IfErr result (λ fault. is_target fault ≡ true) }
        ensures drawn { IfErr result (λ fault. random_failed fault ≡ false) }
    {
        self.add_last(store, depot)?;
        Ok(mem::replace(&mut self.chunks, Vec::new(self.alloc)))
    }

    /// Adds the piece in hand, where it isn't empty.
    fn add_last<D: Depot>(&mut self, store: &mut Store, depot: &mut D) -> Result<(), CarryFault>
        requires least { 1 ≤ self.old.cutter.block }
        requires most { self.old.cutter.block ≤ 8388608 }
        requires within { length self.old.cutter.piece ≤ self.old.cutter.block }
        requires checkpoint { IsCheckpoint self.old.checkpoint }
        requires pending { store.old.pending ≤ self.old.checkpoint }
        requires unspent { IsUnspent store.old }
        requires fits { IfSome (D.told depot.old) (λ t. StoreFits false store.old t.history) }
        ensures works { (kind : Kind) → is_piece kind ≡ true → (more : List Addition) × (AddsOn self.old.checkpoint store.old more store.new
            (D.told depot.old) (D.told depot.new) (D.faults depot.old) (D.faults depot.new) result
            × (ArePieces kind (cut self.old.cutter.block self.old.cutter.piece) more × OnOk result (CountsOn kind self.old more self.new))) }
        ensures chunks { OnOk result (self.new.chunks.items
            ≡ self.old.chunks.items ++ chunks_of (repo_view store.old.repo).keys (cut self.old.cutter.block self.old.cutter.piece)) }
        ensures cleared { OnOk result (self.new.cutter.piece ≡ []) }
        ensures block { self.new.cutter.block ≡ self.old.cutter.block }
        ensures checkpoint { OnOk result (self.new.checkpoint ≡ self.old.checkpoint) }
        ensures pending { OnOk result (store.new.pending ≤ self.old.checkpoint) }
        ensures rest { OnOk result (KeepsRest store.old store.new) }
        ensures fits { OnOk result (IfSome (D.told depot.new) (λ t. StoreFits false store.new t.history)) }
        ensures stops { IfErr result (StopsPieces (D.told depot.new) (repo_view store.old.repo).keys) }
        ensures unspent { OnOk result (IsUnspent store.new) }
        ensures shelf { IfErr result (λ fault. shelf_failed fault ≡ false) }
        ensures target { IfErr result (λ fault. is_target fault ≡ true) }
        ensures drawn { IfErr result (λ fault. random_failed fault ≡ false) }
    {
        if self.cutter.last().is_none() {
            return Ok(());
        }
        self.add(store, depot)
    }

    /// Adds the piece in hand, and begins the next one.
    fn add<D: Depot>(&mut self, store: &mut Store, depot: &mut D) -> Result<(), CarryFault>
        requires most { self.old.cutter.block ≤ 8388608 }
        requires within { length self.old.cutter.piece ≤ self.old.cutter.block }
        requires piece { 1 ≤ length self.old.cutter.piece }
        requires checkpoint { IsCheckpoint self.old.checkpoint }
        requires pending { store.old.pending ≤ self.old.checkpoint }
        requires unspent { IsUnspent store.old }
        requires fits { IfSome (D.told depot.old) (λ t. StoreFits false store.old t.history) }
        ensures works { (put : Bool) × ((kind : Kind) → is_piece kind ≡ true
            → AddsOn self.old.checkpoint store.old (addition kind self.old.cutter.piece put ∷ []) store.new
            (D.told depot.old) (D.told depot.new) (D.faults depot.old) (D.faults depot.new) result
            × OnOk result (CountsOn kind self.old (addition kind self.old.cutter.piece put ∷ []) self.new)) }
        ensures chunks { OnOk result (self.new.chunks.items ≡ self.old.chunks.items
            ++ chunk_of (repo_view store.old.repo).keys self.old.cutter.piece ∷ []) }
        ensures cleared { OnOk result (self.new.cutter.piece ≡ []) }
        ensures block { self.new.cutter.block ≡ self.old.cutter.block }
        ensures checkpoint { OnOk result (self.new.checkpoint ≡ self.old.checkpoint) }
        ensures pending { OnOk result (store.new.pending ≤ self.old.checkpoint) }
        ensures rest { OnOk result (KeepsRest store.old store.new) }
        ensures fits { OnOk result (IfSome (D.told depot.new) (λ t. StoreFits false store.new t.history)) }
        ensures stops { IfErr result (StopsPieces (D.told depot.new) (repo_view store.old.repo).keys) }
        ensures unspent { OnOk result (IsUnspent store.new) }
        ensures shelf { IfErr result (λ fault. shelf_failed fault ≡ false) }
        ensures target { IfErr result (λ fault. is_target fault ≡ true) }
        ensures drawn { IfErr result (λ fault. random_failed fault ≡ false) }
    {
        let Some(piece) = self.cutter.last() else {
            return Ok(());
        };
        let size = piece.len() as u64;
        let added = add_foreseen(&mut self.ahead, store, depot, self.checkpoint, piece)?;
        self.note(added, size)?;
        self.cutter.clear();
        Ok(())
    }

    /// Notes the chunk of a piece that was added.
    fn note(&mut self, added: Added, size: u64) -> Result<(), AllocError>
        requires small { size ≤ content_limit }
        ensures chunks { OnOk result (self.new.chunks.items ≡ self.old.chunks.items
            ++ record { id = added.id; size = size; csize = 43 + size } ∷ []) }
        ensures checkpoint { OnOk result (self.new.checkpoint ≡ self.old.checkpoint) }
        ensures cutter { self.new.cutter ≡ self.old.cutter }
        ensures counted { (kind : Kind) (content : List ℕ) → length content ≡ size
            → OnOk result (CountsOn kind self.old (addition kind content added.new ∷ []) self.new) }
    {
        let id = added.id;
        self.chunks.push(ChunkRef {
            id,
            size,
            csize: HEAD + size,
        })?;
        self.count(added.new, size);
        Ok(())
    }

    /// Counts a piece, where it was put.
    fn count(&mut self, new: bool, size: u64)
        ensures chunks { self.new.chunks ≡ self.old.chunks }
        ensures checkpoint { self.new.checkpoint ≡ self.old.checkpoint }
        ensures cutter { self.new.cutter ≡ self.old.cutter }
        ensures put { self.new.put ≡ min (self.old.put + (if new then 1 else 0)) (2 ^ 64 - 1) }
        ensures bytes { self.new.bytes ≡ min (self.old.bytes + (if new then size else 0)) (2 ^ 128 - 1) }
    {
        let (put, bytes) = (self.put, self.bytes);
        if new {
            self.put = put.saturating_add(1);
            self.bytes = bytes.saturating_add(u128::from(size));
        }
    }
}
