//! The content of an item, in parts: chunks that are read, and pieces that the target has, of chunks that aren't.
ghost use Rattle.std.specs.Prelude.{◌≡◌, ◌≤◌, ◌<◌, ◌+◌, ◌-◌, ◌++◌, [], ℕ, List, IfErr, IfOk, IfSome, IsTrue, OnOk, drop, length};
ghost use Rattle.std.specs.List.{All, AllByRecursion, concat};
ghost use Rattle.ferry_disk.specs.Device.{told_files};
ghost use Rattle.ferry_carry.specs.Calls.{CanAdd, CanCopy, Copies, FitsShelf, IsOfTarget, ReadsSource, TakesBytes, AddsPieces};
ghost use Rattle.ferry_carry.specs.Parts.{HasShared, StandsBehind, WritesBytes, WritesChunks};
ghost use Rattle.ferry_carry.specs.Refusals.{RefusesContents};
ghost use Rattle.ferry_carry.specs.States.{source_state, target_state};
ghost use Rattle.ferry_piece.specs.Fault.{shelf_failed};
ghost use Rattle.ferry_piece.specs.Gather.{chunks_of};
ghost use Rattle.ferry_repo.specs.Archives.{RefusesContent};
ghost use Rattle.ferry_repo.specs.Fault.{IsOfFiles, repo_failed};
ghost use Rattle.ferry_repo.specs.Opening.{repo_view};
ghost use Rattle.ferry_store.specs.Adding.{IsAnswered, id_under};

use crate::copy::{Copy, are_known, content_of};
use ferry_disk::{Depot, Shelf};
use ferry_item::ChunkRef;
use ferry_piece::{CarryFault, PieceWriter};
use ferry_repo::{Repo, RepoFault, SharedPieces, Walk};
use ferry_store::Store;
use std::alloc::Global;

impl Copy {
    /// Writes the contents of these chunks, one after another. Chunks all of whose pieces the store knows aren't read.
    pub(crate) fn write_parts<S: Shelf, D: Depot>(
        &mut self,
        source: &mut Repo,
        shelf: &mut S,
        store: &mut Store,
        depot: &mut D,
        chunks: &[ChunkRef],
    ) -> Result<(), CarryFault>
        requires both { CanCopy self.old.contents.checkpoint (source_state (S.told shelf.old) (S.faults shelf.old) source.old)
            (target_state (D.told depot.old) (D.faults depot.old) store.old) }
        requires writer { TakesBytes self.old.contents }
        requires block { self.old.contents.cutter.block ≡ self.old.block }
        ensures written { WritesChunks self.old.contents.checkpoint (S.told shelf.old) (repo_view source.old)
            (target_state (D.told depot.old) (D.faults depot.old) store.old) (target_state (D.told depot.new) (D.faults depot.new) store.new) chunks.now
            self.old.contents self.new.contents result }
        ensures refused { IfErr result (RefusesContents (S.told shelf.old) (repo_view source.old) chunks.now) }
        ensures checkpoint { OnOk result (self.new.contents.checkpoint ≡ self.old.contents.checkpoint) }
        ensures others { OnOk result (self.new ≡ record self.old { contents = self.new.contents }) }
        ensures both { Copies self.old.contents.checkpoint (source_state (S.told shelf.old) (S.faults shelf.old) source.old)
            (source_state (S.told shelf.new) (S.faults shelf.new) source.new) (target_state (D.told depot.old) (D.faults depot.old) store.old)
            (target_state (D.told depot.new) (D.faults depot.new) store.new) result }
    {
        let parts = source.shared(store.keys(), self.block, chunks);
        let mut done = 0;
        for number in 0..parts.len() {
            let shared = &parts[number];
            if !is_behind(shared, done, chunks.len()) {
                continue;
            }
            let part = &chunks[done..shared.end];
            self.write_part(source, shelf, store, depot, part, shared)?;
            done = shared.end;
        }
        self.write_contents(source, shelf, store, depot, &chunks[done..])
    }

    /// Writes the contents of these chunks, in the last of which pieces stand.
    fn write_part<S: Shelf, D: Depot>(
        &mut self,
        source: &mut Repo,
        shelf: &mut S,
        store: &mut Store,
        depot: &mut D,
        chunks: &[ChunkRef],
        shared: &SharedPieces,
    ) -> Result<(), CarryFault>
        requires both { CanCopy self.old.contents.checkpoint (source_state (S.told shelf.old) (S.faults shelf.old) source.old)
            (target_state (D.told depot.old) (D.faults depot.old) store.old) }
        requires writer { TakesBytes self.old.contents }
        requires some { 1 + shared.now.place ≤ shared.now.end }
        requires within { shared.now.end - shared.now.place ≤ length chunks.now }
        requires shares { HasShared (S.told shelf.old) (repo_view source.old) (repo_view store.old.repo).keys.id_key self.old.contents.cutter.block
            (drop (length chunks.now - (shared.now.end - shared.now.place)) chunks.now) shared.now }
        ensures written { WritesChunks self.old.contents.checkpoint (S.told shelf.old) (repo_view source.old)
            (target_state (D.told depot.old) (D.faults depot.old) store.old) (target_state (D.told depot.new) (D.faults depot.new) store.new) chunks.now
            self.old.contents self.new.contents result }
        ensures refused { IfErr result (RefusesContents (S.told shelf.old) (repo_view source.old) chunks.now) }
        ensures checkpoint { OnOk result (self.new.contents.checkpoint ≡ self.old.contents.checkpoint) }
        ensures others { OnOk result (self.new ≡ record self.old { contents = self.new.contents }) }
        ensures both { Copies self.old.contents.checkpoint (source_state (S.told shelf.old) (S.faults shelf.old) source.old)
            (source_state (S.told shelf.new) (S.faults shelf.new) source.new) (target_state (D.told depot.old) (D.faults depot.old) store.old)
            (target_state (D.told depot.new) (D.faults depot.new) store.new) result }
    {
        let at = chunks.len() - (shared.end - shared.place);
        self.write_contents(source, shelf, store, depot, &chunks[..at])?;
        self.write_shared(source, shelf, store, depot, &chunks[at..], shared)
    }

    /// Writes the contents of these chunks, in which pieces stand: where the store knows them, the first chunk and the last alone are read.
    #[tactic(auto, using(ferry_piece::proofs::FaultLemmas::conversions))]
    fn write_shared<S: Shelf, D: Depot>(
        &mut self,
        source: &mut Repo,
        shelf: &mut S,
        store: &mut Store,
        depot: &mut D,
        chunks: &[ChunkRef],
        shared: &SharedPieces,
    ) -> Result<(), CarryFault>
        requires both { CanCopy self.old.contents.checkpoint (source_state (S.told shelf.old) (S.faults shelf.old) source.old)
            (target_state (D.told depot.old) (D.faults depot.old) store.old) }
        requires writer { TakesBytes self.old.contents }
        requires shares { HasShared (S.told shelf.old) (repo_view source.old) (repo_view store.old.repo).keys.id_key self.old.contents.cutter.block
            chunks.now shared.now }
        requires some { 1 ≤ length chunks.now }
        ensures written { WritesChunks self.old.contents.checkpoint (S.told shelf.old) (repo_view source.old)
            (target_state (D.told depot.old) (D.faults depot.old) store.old) (target_state (D.told depot.new) (D.faults depot.new) store.new) chunks.now
            self.old.contents self.new.contents result }
        ensures refused { IfErr result (RefusesContents (S.told shelf.old) (repo_view source.old) chunks.now) }
        ensures checkpoint { OnOk result (self.new.contents.checkpoint ≡ self.old.contents.checkpoint) }
        ensures others { OnOk result (self.new ≡ record self.old { contents = self.new.contents }) }
        ensures both { Copies self.old.contents.checkpoint (source_state (S.told shelf.old) (S.faults shelf.old) source.old)
            (source_state (S.told shelf.new) (S.faults shelf.new) source.new) (target_state (D.told depot.old) (D.faults depot.old) store.old)
            (target_state (D.told depot.new) (D.faults depot.new) store.new) result }
    {
        let content = content_of(&self.walk, source, shelf, &chunks[0], &chunks[..1])?;
        let last = &chunks[chunks.len() - 1];
        let behind = bytes_behind(self.alloc, &self.walk, source, shelf, last, shared.left)?;
        let skip = shared.skip.min(content.len());
        self.contents.write(store, depot, &content[..skip])?;
        if self.contents.is_between() && are_known(store, shared.pieces.as_slice()) {
            return write_known(
                &mut self.contents,
                store,
                depot,
                shared.pieces.as_slice(),
                &behind,
            );
        }
        self.contents.write(store, depot, &content[skip..])?;
        self.write_contents(source, shelf, store, depot, &chunks[1..])
    }
}

/// Whether pieces stand in chunks behind so many, of so many in all.
fn is_behind(shared: &SharedPieces, done: usize, count: usize) -> bool
    ensures { IsTrue result → (done ≤ shared.now.place) × ((1 + shared.now.place ≤ shared.now.end) × (shared.now.end ≤ count)) }
{
    done <= shared.place && shared.place < shared.end && shared.end <= count
}

/// So many last bytes of the content of a chunk, which isn't read for none.
fn bytes_behind<S: Shelf>(
    alloc: Global,
    walk: &Walk,
    source: &mut Repo,
    shelf: &mut S,
    chunk: &ChunkRef,
    left: usize,
) -> Result<Vec<u8>, RepoFault>
    requires source { FitsShelf (S.told shelf.old) source.old }
    ensures behind { IfOk result (λ bytes. StandsBehind (S.told shelf.old) (repo_view source.old) chunk.now left bytes.items) }
    ensures refused { IfErr result (λ fault. IsOfFiles fault → IfSome (S.told shelf.old) (λ t.
        RefusesContent (told_files t) (repo_view source.old).log (repo_view source.old).keys chunk.now fault)) }
    ensures source { ReadsSource repo_failed (source_state (S.told shelf.old) (S.faults shelf.old) source.old)
        (source_state (S.told shelf.new) (S.faults shelf.new) source.new) result }
{
    if left == 0 {
        return Ok(Vec::new(alloc));
    }
    let content = content_of(walk, source, shelf, chunk, &[*chunk])?;
    let at = content.len().saturating_sub(left);
    Ok(Vec::from_slice(alloc, &content[at..])?)
}

/// Passes over pieces that the store knows, where none is in hand, and writes the bytes behind them.
#[tactic(auto, using(ferry_piece::proofs::FaultLemmas::conversions))]
fn write_known<D: Depot>(
    writer: &mut PieceWriter,
    store: &mut Store,
    depot: &mut D,
    pieces: &[ChunkRef],
    behind: &[u8],
) -> Result<(), CarryFault>
    requires writer { TakesBytes writer.old }
    requires between { writer.old.cutter.piece ≡ [] }
    requires target { CanAdd writer.old.checkpoint (D.told depot.old) store.old }
    ensures written { (wholes : List (List ℕ)) → pieces.now ≡ chunks_of (repo_view store.old.repo).keys wholes
        → All (λ one. length one ≡ writer.old.cutter.block) wholes → AllByRecursion (λ one. IsAnswered store.old (id_under store.old one)) wholes
        → WritesBytes writer.old.checkpoint (target_state (D.told depot.old) (D.faults depot.old) store.old)
        (target_state (D.told depot.new) (D.faults depot.new) store.new) (concat wholes ++ behind.now) writer.old writer.new result }
    ensures checkpoint { OnOk result (writer.new.checkpoint ≡ writer.old.checkpoint) }
    ensures target { AddsPieces writer.old.checkpoint store.old (D.told depot.new) store.new result }
    ensures refusal { IsOfTarget result }
{
    writer.pass(pieces)?;
    writer.write(store, depot, behind)
}
