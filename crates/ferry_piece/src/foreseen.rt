//! Pieces that are prepared before they come.
ghost use Rattle.std.specs.Prelude.{◌≡◌, ◌≤◌, ◌<◌, ◌↔◌, ◌∷◌, [], ℕ, Bool, false, true, length, map, nat_lt};
ghost use Rattle.std.specs.Prelude.{IfErr, IfOk, IfSome, IsTrue, OnOk};
ghost use Rattle.ferry_blob.specs.Batch.{bytes_at, id_at};
ghost use Rattle.ferry_blob.specs.Blob.{content_id};
ghost use Rattle.ferry_base.specs.Limits.{content_limit};
ghost use Rattle.ferry_piece.specs.Adding.{AddsOn, SparesStore, BeginsSegments};
ghost use Rattle.ferry_piece.specs.Fault.{random_failed, shelf_failed};
ghost use Rattle.ferry_piece.specs.Foreseen.{IsForeseen, piece_of, pieces_in};
ghost use Rattle.ferry_piece.specs.Gather.{KeepsRest, KeepsStanding, MakesRoom};
ghost use Rattle.ferry_piece.specs.Piece.{HasRoom, IsPutBy};
ghost use Rattle.ferry_piece.specs.Puts.{Addition, IsCheckpoint, Kind, addition, is_piece};
ghost use Rattle.ferry_piece.specs.Stops.{StopsPieces, is_target};
ghost use Rattle.ferry_piece.specs.Work.{Works};
ghost use Rattle.ferry_repo.specs.Opening.{mode_of, repo_view};
ghost use Rattle.ferry_store.specs.Adding.{id_under, pending_after};
ghost use Rattle.ferry_store.specs.Content.{IsNew};
ghost use Rattle.ferry_store.specs.Piece.{HasSize, IsPrepared, Prepares, content_in};
ghost use Rattle.ferry_store.specs.Store.{IsUnspent, StoreFits};

use crate::fault::CarryFault;
use crate::piece::{add_piece, commit_pieces};
use ferry_base::{Id, ZERO_ID};
use ferry_blob::Mode;
use ferry_disk::Depot;
use ferry_mac::Keys;
use ferry_store::{Added, Store};
use std::alloc::{AllocError, Global};
use std::cmp::min;
use std::marker::Model;
use std::mem;

/// How many bytes of a blob stand before its content.
const HEAD: usize = 43;

/// Pieces that come next, prepared side by side for the keys and the mode of a store: the id of each, and a buffer that is a blob of it, or has it behind byte
/// 43. The first `blobs` are blobs, and have a copy among `pieces`. Those in front of `next` have come.
#[derive(Drop)]
pub(crate) struct Foreseen {
    alloc: Global,
    keys: Keys,
    mode: Mode,
    pieces: Vec<Vec<u8>>,
    ids: [Id; 64],
    blobs: usize,
    buffers: Vec<Vec<u8>>,
    next: usize,
}

impl Model for Foreseen {
    ghost use Rattle.std.specs.Prelude.{◌≤◌, ◌<◌, ℕ, length, nat_lt};
    ghost use Rattle.ferry_blob.specs.Batch.{bytes_at, id_at};
    ghost use Rattle.ferry_piece.specs.Foreseen.{IsForeseen, piece_of};

    ghost Value = { Unit {0} };

    ghost view = { λ a. tt };

    ghost invariant = { λ a. (k : ℕ) → a.next ≤ k → k < length a.buffers.items
        → IsForeseen a.keys a.mode (piece_of (nat_lt k a.blobs) (bytes_at a.pieces.items k) (bytes_at a.buffers.items k)) (id_at a.ids k) (nat_lt k a.blobs)
        (bytes_at a.buffers.items k) };
}

/// A piece with its id, and with a buffer that is a blob of it, or has it behind byte 43.
#[derive(Drop)]
pub(crate) struct Ready {
    id: Id,
    is_blob: bool,
    buffer: Vec<u8>,
}

impl Foreseen {
    /// Prepares the pieces of buffers for a store.
    pub(crate) fn new(
        alloc: Global,
        store: &Store,
        mut buffers: Vec<Vec<u8>>,
    ) -> Result<Foreseen, AllocError>
        requires few { length buffers.items ≤ 64 }
        requires sizes { (k : ℕ) → k < length buffers.items → HasSize (bytes_at buffers.items k) }
    {
        let mut pieces = copies(alloc, &buffers)?;
        let (ids, blobs) = prepare_all(store, &mut buffers);
        pieces.truncate(blobs);
        Ok(Foreseen {
            alloc,
            keys: *store.keys(),
            mode: store.mode(),
            pieces,
            ids,
            blobs,
            buffers,
            next: 0,
        })
    }

    /// Whether all have come.
    fn is_over(&self) -> bool {
        self.next >= self.buffers.len()
    }

    /// The ids of the pieces that come then.
    fn later(&self) -> &[Id] {
        let end = min(self.buffers.len(), self.ids.len());
        &self.ids[min(self.next, end)..end]
    }

    /// The piece that comes next, where it is this one and was prepared for this store.
    fn take(&mut self, store: &Store, piece: &[u8]) -> Option<Ready>
        ensures ready { IfSome result (λ ready. IsForeseen (repo_view store.now.repo).keys (mode_of (repo_view store.now.repo).config) piece.now
            ready.id ready.is_blob ready.buffer.items) }
    {
        let place = self.next;
        if place >= self.buffers.len() || place >= self.ids.len() {
            return None;
        }
        let is_blob = place < self.blobs;
        if self.keys != *store.keys()
            || self.mode != store.mode()
            || !is_piece(is_blob, &self.pieces, &self.buffers, place, piece)
        {
            return None;
        }
        self.next = place + 1;
        let buffer = mem::replace(&mut self.buffers[place], Vec::new(self.alloc));
        Some(Ready {
            id: self.ids[place],
            is_blob,
            buffer,
        })
    }
}

/// Whether what was prepared at a place is of this piece: of its copy where the buffer is a blob, and else of what stands behind byte 43.
fn is_piece(
    is_blob: bool,
    pieces: &[Vec<u8>],
    buffers: &[Vec<u8>],
    place: usize,
    piece: &[u8],
) -> bool
    requires there { place < length buffers.now }
    requires head { 43 ≤ length (bytes_at buffers.now place) }
    ensures piece { IsTrue result → piece_of is_blob (bytes_at pieces.now place) (bytes_at buffers.now place) ≡ piece.now }
{
    if is_blob {
        return place < pieces.len() && pieces[place].as_slice() == piece;
    }
    let content = &buffers[place].as_slice()[HEAD..];
    content == piece
}

/// The pieces that are foreseen, where there are some. Contracts see nothing of them.
#[derive(Drop)]
pub(crate) struct Ahead {
    foreseen: Option<Foreseen>,
}

impl Model for Ahead {
    ghost use Rattle.std.specs.Prelude.{ℕ};

    ghost Value = { Unit {0} };

    ghost view = { λ a. tt };
}

impl Ahead {
    /// No piece is foreseen.
    pub(crate) fn none() -> Ahead {
        Ahead { foreseen: None }
    }

    /// These are foreseen.
    pub(crate) fn of(foreseen: Foreseen) -> Ahead {
        Ahead {
            foreseen: Some(foreseen),
        }
    }

    /// Whether no piece is foreseen.
    pub(crate) fn is_none(&self) -> bool {
        self.foreseen.is_none()
    }

    /// The ids of the pieces that are foreseen.
    fn later(&self) -> &[Id] {
        match &self.foreseen {
            Some(foreseen) => foreseen.later(),
            None => &[],
        }
    }

    /// The piece that comes next, where it is this one and was prepared for this store. Where it isn't, or was the last, none is foreseen then.
    fn take(&mut self, store: &Store, piece: &[u8]) -> Option<Ready>
        ensures ready { IfSome result (λ ready. IsForeseen (repo_view store.now.repo).keys (mode_of (repo_view store.now.repo).config) piece.now
            ready.id ready.is_blob ready.buffer.items) }
    {
        let mut foreseen = self.foreseen.take()?;
        let ready = foreseen.take(store, piece)?;
        if !foreseen.is_over() {
            self.foreseen = Some(foreseen);
        }
        Some(ready)
    }
}

/// Copies of the pieces that stand behind byte 43 of buffers.
fn copies(alloc: Global, buffers: &[Vec<u8>]) -> Result<Vec<Vec<u8>>, AllocError>
    requires sizes { (k : ℕ) → k < length buffers.now → HasSize (bytes_at buffers.now k) }
    ensures pieces { IfOk result (λ pieces. map (λ piece. piece.items) pieces.items ≡ pieces_in buffers.now) }
{
    let mut pieces = Vec::with_capacity(alloc, buffers.len())?;
    for place in 0..buffers.len() {
        pieces.push(Vec::from_slice(alloc, &buffers[place].as_slice()[HEAD..])?)?;
    }
    Ok(pieces)
}

/// Adds a piece as `add_piece` does. Where it was foreseen, what was prepared of it is added.
pub(crate) fn add_foreseen<D: Depot>(
    ahead: &mut Ahead,
    store: &mut Store,
    depot: &mut D,
    checkpoint: u64,
    piece: &[u8],
) -> Result<Added, CarryFault>
    requires size { length piece.now ≤ content_limit }
    requires checkpoint { IsCheckpoint checkpoint }
    requires pending { store.old.pending ≤ checkpoint }
    requires unspent { IsUnspent store.old }
    requires fits { IfSome (D.told depot.old) (λ t. StoreFits false store.old t.history) }
    ensures works { (kind : Kind) (put : Bool) → is_piece kind ≡ true → IsPutBy put result
        → AddsOn checkpoint store.old (addition kind piece.now put ∷ []) store.new
        (D.told depot.old) (D.told depot.new) (D.faults depot.old) (D.faults depot.new) result }
    ensures id { IfOk result (λ added. added.id ≡ content_id (repo_view store.old.repo).keys piece.now) }
    ensures pending { OnOk result (store.new.pending ≤ checkpoint) }
    ensures rest { OnOk result (KeepsRest store.old store.new) }
    ensures fits { OnOk result (IfSome (D.told depot.new) (λ t. StoreFits false store.new t.history)) }
    ensures stops { IfErr result (StopsPieces (D.told depot.new) (repo_view store.old.repo).keys) }
    ensures unspent { OnOk result (IsUnspent store.new) }
    ensures shelf { IfErr result (λ fault. shelf_failed fault ≡ false) }
    ensures target { IfErr result (λ fault. is_target fault ≡ true) }
    ensures drawn { IfErr result (λ fault. random_failed fault ≡ false) }
{
    match ahead.take(store, piece) {
        Some(ready) => {
            let Ready {
                id,
                is_blob,
                mut buffer,
            } = ready;
            let later = ahead.later();
            add_buffer(store, depot, checkpoint, &id, is_blob, &mut buffer, later)
        }
        None => add_piece(store, depot, checkpoint, piece),
    }
}

/// Prepares the pieces of buffers: their ids, and how many of the first ones are blobs then.
fn prepare_all(store: &Store, buffers: &mut [Vec<u8>]) -> ([Id; 64], usize)
    requires few { length buffers.old ≤ 64 }
    requires sizes { (k : ℕ) → k < length buffers.old → HasSize (bytes_at buffers.old k) }
    ensures prepared { (k : ℕ) → k < length buffers.old
        → Prepares (repo_view store.now.repo) (bytes_at buffers.old k) (id_at result.0 k) (nat_lt k result.1) (bytes_at buffers.new k) }
{
    let mut ids = [ZERO_ID; 64];
    let count = buffers.len();
    let blobs = store.prepare(buffers, &mut ids[..count]);
    (ids, blobs)
}

/// Adds the piece of a buffer that was prepared, behind a checkpoint where so many are pending that none more may be put before. Where it is opened, those of
/// `later` that will be are opened beside it.
fn add_buffer<D: Depot>(
    store: &mut Store,
    depot: &mut D,
    checkpoint: u64,
    id: &Id,
    is_blob: bool,
    buffer: &mut [u8],
    later: &[Id],
) -> Result<Added, CarryFault>
    requires prepared { IsPrepared (repo_view store.old.repo) id.now is_blob buffer.old }
    requires checkpoint { IsCheckpoint checkpoint }
    requires pending { store.old.pending ≤ checkpoint }
    requires unspent { IsUnspent store.old }
    requires fits { IfSome (D.told depot.old) (λ t. StoreFits false store.old t.history) }
    ensures works { (kind : Kind) (put : Bool) → is_piece kind ≡ true → IsPutBy put result
        → AddsOn checkpoint store.old (addition kind (content_in (repo_view store.old.repo).keys is_blob buffer.old) put ∷ []) store.new
        (D.told depot.old) (D.told depot.new) (D.faults depot.old) (D.faults depot.new) result }
    ensures id { IfOk result (λ added. added.id ≡ content_id (repo_view store.old.repo).keys (content_in (repo_view store.old.repo).keys is_blob buffer.old)) }
    ensures pending { OnOk result (store.new.pending ≤ checkpoint) }
    ensures rest { OnOk result (KeepsRest store.old store.new) }
    ensures fits { OnOk result (IfSome (D.told depot.new) (λ t. StoreFits false store.new t.history)) }
    ensures stops { IfErr result (StopsPieces (D.told depot.new) (repo_view store.old.repo).keys) }
    ensures unspent { OnOk result (IsUnspent store.new) }
    ensures shelf { IfErr result (λ fault. shelf_failed fault ≡ false) }
    ensures target { IfErr result (λ fault. is_target fault ≡ true) }
    ensures drawn { IfErr result (λ fault. random_failed fault ≡ false) }
{
    make_room_for(store, depot, checkpoint, id)?;
    add_prepared(store, depot, id, is_blob, buffer, later)
}

/// The same where the id of the piece is known.
fn make_room_for<D: Depot>(
    store: &mut Store,
    depot: &mut D,
    checkpoint: u64,
    id: &Id,
) -> Result<(), CarryFault>
    requires checkpoint { IsCheckpoint checkpoint }
    requires pending { store.old.pending ≤ checkpoint }
    requires unspent { IsUnspent store.old }
    requires fits { IfSome (D.told depot.old) (λ t. StoreFits false store.old t.history) }
    ensures works { (one : Addition) → id.now ≡ id_under store.old one.content → is_piece one.kind ≡ true
        → Works (KeepsStanding checkpoint store.old (one ∷ [])) (λ _. MakesRoom checkpoint store.old one store.new)
        (D.told depot.old) (D.told depot.new) (D.faults depot.old) (D.faults depot.new) result }
    ensures spent { IfErr result (λ fault. SparesStore fault → ⊥) }
    ensures few { BeginsSegments 1 store.old store.new result }
    ensures pending { OnOk result (store.new.pending ≤ checkpoint) }
    ensures room { OnOk result (IsNew (repo_view store.new.repo) id.now → store.new.pending < checkpoint) }
    ensures rest { OnOk result (KeepsRest store.old store.new) }
    ensures fits { OnOk result (IfSome (D.told depot.new) (λ t. StoreFits false store.new t.history)) }
    ensures stops { IfErr result (StopsPieces (D.told depot.new) (repo_view store.old.repo).keys) }
    ensures unspent { OnOk result (IsUnspent store.new) }
    ensures shelf { IfErr result (λ fault. shelf_failed fault ≡ false) }
    ensures target { IfErr result (λ fault. is_target fault ≡ true) }
    ensures drawn { IfErr result (λ fault. random_failed fault ≡ false) }
{
    if store.pending() < checkpoint || !store.would_put_id(id) {
        return Ok(());
    }
    commit_pieces(store, depot)
}

/// Adds the content of a buffer that was prepared.
#[tactic(auto, using(crate::proofs::FaultLemmas::conversions))]
fn add_prepared<D: Depot>(
    store: &mut Store,
    depot: &mut D,
    id: &Id,
    is_blob: bool,
    buffer: &mut [u8],
    later: &[Id],
) -> Result<Added, CarryFault>
    requires prepared { IsPrepared (repo_view store.old.repo) id.now is_blob buffer.old }
    requires unspent { IsUnspent store.old }
    requires fits { IfSome (D.told depot.old) (λ t. StoreFits false store.old t.history) }
    ensures works { (most : ℕ) (kind : Kind) (put : Bool) → IsPutBy put result
        → HasRoom most kind (content_in (repo_view store.old.repo).keys is_blob buffer.old) store.old
        → AddsOn most store.old (addition kind (content_in (repo_view store.old.repo).keys is_blob buffer.old) put ∷ []) store.new
        (D.told depot.old) (D.told depot.new) (D.faults depot.old) (D.faults depot.new) result }
    ensures pending { IfOk result (λ added. store.new.pending ≡ pending_after store.old.pending added.new) }
    ensures new { IfOk result (λ added. IsTrue added.new ↔ IsNew (repo_view store.old.repo)
        (id_under store.old (content_in (repo_view store.old.repo).keys is_blob buffer.old))) }
    ensures few { BeginsSegments 1 store.old store.new result }
    ensures id { IfOk result (λ added. added.id ≡ content_id (repo_view store.old.repo).keys (content_in (repo_view store.old.repo).keys is_blob buffer.old)) }
    ensures rest { OnOk result (KeepsRest store.old store.new) }
    ensures fits { OnOk result (IfSome (D.told depot.new) (λ t. StoreFits false store.new t.history)) }
    ensures stops { IfErr result (StopsPieces (D.told depot.new) (repo_view store.old.repo).keys) }
    ensures unspent { OnOk result (IsUnspent store.new) }
    ensures shelf { IfErr result (λ fault. shelf_failed fault ≡ false) }
    ensures target { IfErr result (λ fault. is_target fault ≡ true) }
    ensures drawn { IfErr result (λ fault. random_failed fault ≡ false) }
{
    let added = store.add_piece(depot, *id, is_blob, buffer, later)?;
    Ok(added)
}
