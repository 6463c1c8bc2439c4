//! An archive that the target lacks.
ghost use Rattle.std.specs.Prelude.{◌≡◌, ◌≤◌, ◌^◌, ◌-◌, ◌++◌, [], List, Some, None, Ok};
ghost use Rattle.std.specs.Prelude.{true, false, min, IfErr, IfOk, IfSome, IsTrue, MatchResult, OnOk, Option, ℕ};
ghost use Rattle.std.specs.List.{AllByRecursion};
ghost use Rattle.ferry_disk.specs.Device.{Told, told_files};
ghost use Rattle.ferry_disk.specs.Files.{Files};
ghost use Rattle.ferry_piece.specs.Adding.{AddsOn};
ghost use Rattle.ferry_carry.specs.Carrying.{origin};
ghost use Rattle.ferry_carry.specs.Copied.{IsRead, stream_block};
ghost use Rattle.ferry_carry.specs.Copying.{BeginsChunk, BeginsContent, BeginsContents, CopiesContent, IsReady, IsUnused, TakesItem, writer_state};
ghost use Rattle.ferry_carry.specs.Copying.{KnowsContent, WritesContent, WritesContents, WritesItem, BeginsCopy, KeepsCopy, KeepsContents, FitsCopy};
ghost use Rattle.ferry_piece.specs.Fault.{IsOfSource, shelf_failed};
ghost use Rattle.ferry_carry.specs.Filling.{FillsChunks, FillsContent, FillsOne, FillsStep, WhereHeard, WhereSource};
ghost use Rattle.ferry_carry.specs.Listing.{BeginsOne};
ghost use Rattle.ferry_carry.specs.Naming.{records_in};
ghost use Rattle.ferry_carry.specs.Progress.{CopiesOn, IsCopiedSoFar};
ghost use Rattle.ferry_piece.specs.Piece.{BeginsOn, CountsOn};
ghost use Rattle.ferry_piece.specs.Puts.{Addition, AreOf, Content, Stream, contents_in};
ghost use Rattle.ferry_carry.specs.Parts.{WritesChunks};
ghost use Rattle.ferry_carry.specs.Refusals.{RefusesBegin, RefusesContents, RefusesCopying, RefusesNext, RefusesStep, RefusesText, RefusesWriting};
ghost use Rattle.ferry_carry.specs.Refusals.{total_size};
ghost use Rattle.ferry_carry.specs.Step.{BeginsMore, StepsOn};
ghost use Rattle.ferry_item.specs.Item.{is_healed, item_view};
ghost use Rattle.ferry_item.specs.Writing.{IsPackable as IsPackableItem, field_pairs, item_text};
ghost use Rattle.ferry_manifest.specs.Record.Text.{archive_of, archive_view};
ghost use Rattle.ferry_manifest.specs.Record.Writing.{IsPackableArchive};
ghost use Rattle.ferry_manifest.specs.declared.manifest.ArchiveRef.{ArchiveRef};
ghost use Rattle.ferry_repo.specs.Archives.{HoldsContent, HoldsRecord, RefusesContent, archive_named};
ghost use Rattle.ferry_repo.specs.Fault.{IsOfFiles, repo_failed};
ghost use Rattle.ferry_repo.specs.Opening.{repo_view};
ghost use Rattle.ferry_repo.specs.Walk.{FitsWalk, IsToCome, begin_walk, walk_view};
ghost use Rattle.ferry_carry.specs.Calls.{ReadsSource, FitsShelf, TakesBytes, AddsPieces, SparesTarget, CanAdd, IsOfTarget};
ghost use Rattle.ferry_carry.specs.Flight.{AreRight};
ghost use Rattle.ferry_store.specs.Adding.{IsAnswered};
ghost use Rattle.ferry_carry.specs.States.{source_state, target_state};
ghost use Rattle.ferry_carry.specs.Calls.{CanCopy, Copies};

use crate::options::Options;
use ferry_base::Id;
use ferry_disk::{Depot, Shelf};
use ferry_item::{ChunkRef, ChunkRefs, Item, write_item};
use ferry_mac::Keys;
use ferry_manifest::{Archive, MetaFault, read_archive};
use ferry_piece::{CarryFault, PieceWriter};
use ferry_repo::{Repo, RepoFault, Walk};
use ferry_store::Store;
use std::alloc::Global;

/// The length of the pieces of an item stream.
const STREAM_BLOCK: usize = 131_072;

/// The most pieces that an item's content may have.
const MOST_PIECES: u128 = 4_294_967_295;

/// An archive on its way: the items of the source that are to come, the record that it has there, and what is written of it.
#[derive(Drop)]
pub(crate) struct Copy {
    pub(crate) alloc: Global,
    pub(crate) block: usize,
    pub(crate) walk: Walk,
    pub(crate) archive: Archive,
    pub(crate) contents: PieceWriter,
    pub(crate) stream: PieceWriter,
}

impl Copy {
    /// The archive whose record has this id, in front of its items.
    #[tactic(auto, using(ferry_piece::proofs::FaultLemmas::conversions))]
    pub(crate) fn begin<S: Shelf>(
        alloc: Global,
        source: &mut Repo,
        shelf: &mut S,
        id: &Id,
        options: &Options,
    ) -> Result<Copy, CarryFault>
        requires options { AreRight options.now }
        requires source { FitsShelf (S.told shelf.old) source.old }
        ensures walk_fits { IfOk result (λ copy. IfSome (S.told shelf.new) (λ t.
            FitsWalk (told_files t) (repo_view source.new).log (repo_view source.new).keys (walk_view copy.walk))) }
        ensures refused { IfErr result (RefusesBegin (S.told shelf.old) (repo_view source.old) id.now) }
        ensures copy { IfOk result (BeginsCopy (S.told shelf.old) (repo_view source.old) id.now options.now) }
        ensures spares { SparesTarget result }
        ensures source { ReadsSource shelf_failed (source_state (S.told shelf.old) (S.faults shelf.old) source.old)
            (source_state (S.told shelf.new) (S.faults shelf.new) source.new) result }
    {
        let archive = read_record(alloc, source, shelf, id)?;
        match begin_parts(alloc, source, id, &archive, options) {
            Ok((walk, contents, stream)) => Ok(Copy {
                alloc,
                block: options.block,
                walk,
                archive,
                contents,
                stream,
            }),
            Err(fault) => {
                drop(archive);
                Err(fault)
            }
        }
    }

    /// Copies one further item, and answers whether there was one.
    pub(crate) fn step<S: Shelf, D: Depot>(
        &mut self,
        source: &mut Repo,
        shelf: &mut S,
        store: &mut Store,
        depot: &mut D,
    ) -> Result<bool, CarryFault>
        requires both { CanCopy self.old.contents.checkpoint (source_state (S.told shelf.old) (S.faults shelf.old) source.old)
            (target_state (D.told depot.old) (D.faults depot.old) store.old) }
        requires copy { FitsCopy (S.told shelf.old) (repo_view source.old) self.old }
        ensures steps { (more : List Addition) × (AddsOn self.old.contents.checkpoint store.old more store.new
            (D.told depot.old) (D.told depot.new) (D.faults depot.old) (D.faults depot.new) result
            × (IfErr result (λ fault. BeginsMore (S.told shelf.old) (repo_view source.old) (repo_view store.old.repo).keys self.old more
            × FillsStep (S.told shelf.old) (repo_view source.old) self.old fault more)
            × IfOk result (StepsOn (S.told shelf.old) (repo_view source.old) (repo_view store.old.repo).keys self.old more self.new))) }
        ensures copied { (time : Option (List ℕ)) (named : ArchiveRef) (added : List Addition)
            → IsCopiedSoFar (origin (S.told shelf.old) (repo_view source.old) self.old.block self.old.contents.checkpoint time) named
            (D.told depot.old) store.old self.old added
            → (more : List Addition) × (AddsOn self.old.contents.checkpoint store.old more store.new
            (D.told depot.old) (D.told depot.new) (D.faults depot.old) (D.faults depot.new) result
            × ((archive_named named.name (repo_view source.old).manifest.archives ≡ Some named → IfSome (D.told depot.old) (λ _.
            BeginsOne (origin (S.told shelf.old) (repo_view source.old) self.old.block self.old.contents.checkpoint time) (repo_view store.old.repo).keys
            named.name (added ++ more)))
            × (IfErr result (λ fault. archive_named named.name (repo_view source.old).manifest.archives ≡ Some named → WhereHeard (D.told depot.old) fault
            (λ refusal. FillsOne (origin (S.told shelf.old) (repo_view source.old) self.old.block self.old.contents.checkpoint time)
            (repo_view store.old.repo).keys named.name refusal (added ++ more)))
            × MatchResult result (CopiesOn (origin (S.told shelf.old) (repo_view source.old) self.old.block self.old.contents.checkpoint time) named
            (D.told depot.new) store.new self.new added more) (λ _. records_in more ≡ [])))) }
        ensures refused { (time : Option (List ℕ)) (named : ArchiveRef) (added : List Addition) → archive_named named.name (repo_view
            source.old).manifest.archives ≡ Some named
            → IsCopiedSoFar (origin (S.told shelf.old) (repo_view source.old) self.old.block self.old.contents.checkpoint time) named
            (D.told depot.old) store.old self.old added
            → IfErr result (RefusesStep (origin (S.told shelf.old) (repo_view source.old) self.old.block self.old.contents.checkpoint time)
            (D.told depot.old) named.name) }
        ensures copy { OnOk result (KeepsCopy (S.told shelf.new) (repo_view source.new) self.old self.new) }
        ensures both { Copies self.old.contents.checkpoint (source_state (S.told shelf.old) (S.faults shelf.old) source.old)
            (source_state (S.told shelf.new) (S.faults shelf.new) source.new) (target_state (D.told depot.old) (D.faults depot.old) store.old)
            (target_state (D.told depot.new) (D.faults depot.new) store.new) result }
    {
        let Some(item) = self.next(source, shelf)? else {
            return Ok(false);
        };
        let Item { fields, chunks } = item;
        let chunks = self.copy_chunks(source, shelf, store, depot, &chunks)?;
        self.write_item(store, depot, &Item { fields, chunks })?;
        Ok(true)
    }

    /// The next item of the source.
    #[tactic(auto, using(ferry_piece::proofs::FaultLemmas::conversions))]
    fn next<S: Shelf>(
        &mut self,
        source: &mut Repo,
        shelf: &mut S,
    ) -> Result<Option<Item>, CarryFault>
        requires source { FitsShelf (S.told shelf.old) source.old }
        requires walk_fits { IfSome (S.told shelf.old) (λ t.
            FitsWalk (told_files t) (repo_view source.old).log (repo_view source.old).keys (walk_view self.old.walk)) }
        ensures item { IfOk result (λ found. IfSome found (λ item. IfSome (S.told shelf.old) (λ t.
            TakesItem (told_files t) (repo_view source.old) (walk_view self.old.walk) (item_view item) (walk_view self.new.walk)))) }
        ensures none { result ≡ Ok None → IfSome (S.told shelf.old) (λ t.
            IsToCome (told_files t) (repo_view source.old).log (repo_view source.old).keys (walk_view self.old.walk) [] None) }
        ensures refused { IfErr result (RefusesNext (S.told shelf.old) (repo_view source.old) (walk_view self.old.walk)) }
        ensures packable { IfOk result (λ found. IfSome found (λ item. IsPackableItem (item_view item))) }
        ensures walk_fits { IfSome (S.told shelf.new) (λ t.
            FitsWalk (told_files t) (repo_view source.new).log (repo_view source.new).keys (walk_view self.new.walk)) }
        ensures others { self.new ≡ record self.old { walk = self.new.walk } }
        ensures spares { SparesTarget result }
        ensures source { ReadsSource shelf_failed (source_state (S.told shelf.old) (S.faults shelf.old) source.old)
            (source_state (S.told shelf.new) (S.faults shelf.new) source.new) result }
    {
        let found = self.walk.step(source, shelf)?;
        Ok(found)
    }

    /// Writes an item into the stream.
    fn write_item<D: Depot>(
        &mut self,
        store: &mut Store,
        depot: &mut D,
        item: &Item,
    ) -> Result<(), CarryFault>
        requires stream { TakesBytes self.old.stream }
        requires target { CanAdd self.old.stream.checkpoint (D.told depot.old) store.old }
        requires packable { IsPackableItem (item_view item.now) }
        ensures written { (more : List Addition) × (AddsOn self.old.stream.checkpoint store.old more store.new
            (D.told depot.old) (D.told depot.new) (D.faults depot.old) (D.faults depot.new) result
            × (AreOf Stream more × (BeginsOn self.old.stream.cutter (item_text (item_view item.now)) (contents_in more)
            × OnOk result (WritesItem (repo_view store.old.repo).keys self.old.stream.cutter self.old.stream.chunks.items (item_view item.now)
            (contents_in more) self.new.stream.cutter self.new.stream.chunks.items × CountsOn Stream self.old.stream more self.new.stream)))) }
        ensures again { OnOk result (is_healed (field_pairs (item_view item.now)) ≡ false → IsRead (item_view item.now)) }
        ensures others { OnOk result (self.new ≡ record self.old { stream = self.new.stream }) }
        ensures checkpoint { OnOk result (self.new.stream.checkpoint ≡ self.old.stream.checkpoint) }
        ensures target { AddsPieces self.old.stream.checkpoint store.old (D.told depot.new) store.new result }
        ensures refusal { IsOfTarget result }
    {
        let mut spelling = Vec::new(self.alloc);
        write_item(item, &mut spelling)?;
        self.stream.write(store, depot, &spelling)
    }

    /// Copies the content of an item, where it has chunks, and answers the target's chunks.
    fn copy_chunks<S: Shelf, D: Depot>(
        &mut self,
        source: &mut Repo,
        shelf: &mut S,
        store: &mut Store,
        depot: &mut D,
        chunks: &Option<ChunkRefs>,
    ) -> Result<Option<ChunkRefs>, CarryFault>
        requires both { CanCopy self.old.contents.checkpoint (source_state (S.told shelf.old) (S.faults shelf.old) source.old)
            (target_state (D.told depot.old) (D.faults depot.old) store.old) }
        requires ready { IsReady self.old }
        ensures copied { (more : List Addition) × (AddsOn self.old.contents.checkpoint store.old more store.new
            (D.told depot.old) (D.told depot.new) (D.faults depot.old) (D.faults depot.new) result
            × (AreOf Content more × (BeginsContent (S.told shelf.old) (repo_view source.old) self.old.block chunks.now (contents_in more)
            × ((IfErr result (λ fault. WhereSource (S.told shelf.old) fault (λ there refusal.
            FillsContent there (repo_view source.old) self.old.block chunks.now refusal (contents_in more))))
            × (IfOk result (CopiesContent (S.told shelf.old) (repo_view source.old) self.old.block (repo_view store.old.repo).keys chunks.now
            (contents_in more)) × OnOk result (CountsOn Content self.old.contents more self.new.contents)))))) }
        ensures refused { IfErr result (RefusesCopying (S.told shelf.old) (repo_view source.old) self.old.block chunks.now) }
        ensures contents { OnOk result (KeepsContents self.old self.new) }
        ensures both { Copies self.old.contents.checkpoint (source_state (S.told shelf.old) (S.faults shelf.old) source.old)
            (source_state (S.told shelf.new) (S.faults shelf.new) source.new) (target_state (D.told depot.old) (D.faults depot.old) store.old)
            (target_state (D.told depot.new) (D.faults depot.new) store.new) result }
    {
        match chunks {
            Some(chunks) => {
                let copied = self.copy_content(source, shelf, store, depot, chunks.as_slice())?;
                Ok(Some(copied))
            }
            None => Ok(None),
        }
    }

    /// Copies the content that these chunks are. One that was copied before in this run isn't read again.
    fn copy_content<S: Shelf, D: Depot>(
        &mut self,
        source: &mut Repo,
        shelf: &mut S,
        store: &mut Store,
        depot: &mut D,
        chunks: &[ChunkRef],
    ) -> Result<ChunkRefs, CarryFault>
        requires both { CanCopy self.old.contents.checkpoint (source_state (S.told shelf.old) (S.faults shelf.old) source.old)
            (target_state (D.told depot.old) (D.faults depot.old) store.old) }
        requires ready { IsReady self.old }
        ensures copied { (more : List Addition) × (AddsOn self.old.contents.checkpoint store.old more store.new
            (D.told depot.old) (D.told depot.new) (D.faults depot.old) (D.faults depot.new) result
            × (AreOf Content more × (BeginsContent (S.told shelf.old) (repo_view source.old) self.old.block (Some chunks.now) (contents_in more)
            × ((IfErr result (λ fault. WhereSource (S.told shelf.old) fault (λ there refusal.
            FillsContent there (repo_view source.old) self.old.block (Some chunks.now) refusal (contents_in more))))
            × (IfOk result (λ copied. CopiesContent (S.told shelf.old) (repo_view source.old) self.old.block (repo_view store.old.repo).keys
            (Some chunks.now) (contents_in more) (Some copied)) × OnOk result (CountsOn Content self.old.contents more self.new.contents)))))) }
        ensures refused { IfErr result (RefusesCopying (S.told shelf.old) (repo_view source.old) self.old.block (Some chunks.now)) }
        ensures contents { OnOk result (KeepsContents self.old self.new) }
        ensures both { Copies self.old.contents.checkpoint (source_state (S.told shelf.old) (S.faults shelf.old) source.old)
            (source_state (S.told shelf.new) (S.faults shelf.new) source.new) (target_state (D.told depot.old) (D.faults depot.old) store.old)
            (target_state (D.told depot.new) (D.faults depot.new) store.new) result }
    {
        if let Some(copied) = known_content(self.alloc, source, store, self.block, chunks) {
            return Ok(copied);
        }
        match self.cut_content(source, shelf, store, depot, chunks) {
            Ok(copied) => {
                source.note(store.keys(), self.block, chunks, copied.as_slice());
                Ok(copied)
            }
            Err(fault) => Err(fault),
        }
    }

    /// Reads the content that these chunks are, cuts it, and adds the pieces.
    fn cut_content<S: Shelf, D: Depot>(
        &mut self,
        source: &mut Repo,
        shelf: &mut S,
        store: &mut Store,
        depot: &mut D,
        chunks: &[ChunkRef],
    ) -> Result<ChunkRefs, CarryFault>
        requires both { CanCopy self.old.contents.checkpoint (source_state (S.told shelf.old) (S.faults shelf.old) source.old)
            (target_state (D.told depot.old) (D.faults depot.old) store.old) }
        requires ready { IsReady self.old }
        ensures copied { (more : List Addition) × (AddsOn self.old.contents.checkpoint store.old more store.new
            (D.told depot.old) (D.told depot.new) (D.faults depot.old) (D.faults depot.new) result
            × (AreOf Content more × (BeginsContent (S.told shelf.old) (repo_view source.old) self.old.block (Some chunks.now) (contents_in more)
            × ((IfErr result (λ fault. WhereSource (S.told shelf.old) fault (λ there refusal.
            FillsContent there (repo_view source.old) self.old.block (Some chunks.now) refusal (contents_in more))))
            × (IfOk result (λ copied. CopiesContent (S.told shelf.old) (repo_view source.old) self.old.block (repo_view store.old.repo).keys
            (Some chunks.now) (contents_in more) (Some copied)) × OnOk result (CountsOn Content self.old.contents more self.new.contents)))))) }
        ensures refused { IfErr result (RefusesCopying (S.told shelf.old) (repo_view source.old) self.old.block (Some chunks.now)) }
        ensures contents { OnOk result (KeepsContents self.old self.new) }
        ensures both { Copies self.old.contents.checkpoint (source_state (S.told shelf.old) (S.faults shelf.old) source.old)
            (source_state (S.told shelf.new) (S.faults shelf.new) source.new) (target_state (D.told depot.old) (D.faults depot.old) store.old)
            (target_state (D.told depot.new) (D.faults depot.new) store.new) result }
    {
        if total_size(chunks) > MOST_PIECES * self.block as u128 {
            return Err(CarryFault::Pieces);
        }
        self.write_parts(source, shelf, store, depot, chunks)?;
        let copied = self.contents.finish(store, depot)?;
        if copied.len() > MOST_PIECES as usize {
            return Err(CarryFault::Memory);
        }
        Ok(ChunkRefs::new(copied))
    }

    /// Reads the contents of these chunks, and writes them one after another.
    pub(crate) fn write_contents<S: Shelf, D: Depot>(
        &mut self,
        source: &mut Repo,
        shelf: &mut S,
        store: &mut Store,
        depot: &mut D,
        chunks: &[ChunkRef],
    ) -> Result<(), CarryFault>
        requires both { CanCopy self.old.contents.checkpoint (source_state (S.told shelf.old) (S.faults shelf.old) source.old)
            (target_state (D.told depot.old) (D.faults depot.old) store.old) }
        requires writer { TakesBytes self.old.contents }
        ensures written { WritesChunks self.old.contents.checkpoint (S.told shelf.old) (repo_view source.old)
            (target_state (D.told depot.old) (D.faults depot.old) store.old) (target_state (D.told depot.new) (D.faults depot.new) store.new) chunks.now
            self.old.contents self.new.contents result }
        ensures refused { IfErr result (RefusesContents (S.told shelf.old) (repo_view source.old) chunks.now) }
        ensures checkpoint { OnOk result (self.new.contents.checkpoint ≡ self.old.contents.checkpoint) }
        ensures others { OnOk result (self.new ≡ record self.old { contents = self.new.contents }) }
        ensures both { Copies self.old.contents.checkpoint (source_state (S.told shelf.old) (S.faults shelf.old) source.old)
            (source_state (S.told shelf.new) (S.faults shelf.new) source.new) (target_state (D.told depot.old) (D.faults depot.old) store.old)
            (target_state (D.told depot.new) (D.faults depot.new) store.new) result }
    {
        for place in 0..chunks.len() {
            let later = &chunks[place..];
            self.write_content(source, shelf, store, depot, &chunks[place], later)?;
        }
        Ok(())
    }

    /// Writes the content of one chunk.
    #[tactic(auto, using(ferry_piece::proofs::FaultLemmas::conversions))]
    fn write_content<S: Shelf, D: Depot>(
        &mut self,
        source: &mut Repo,
        shelf: &mut S,
        store: &mut Store,
        depot: &mut D,
        chunk: &ChunkRef,
        later: &[ChunkRef],
    ) -> Result<(), CarryFault>
        requires both { CanCopy self.old.contents.checkpoint (source_state (S.told shelf.old) (S.faults shelf.old) source.old)
            (target_state (D.told depot.old) (D.faults depot.old) store.old) }
        requires writer { TakesBytes self.old.contents }
        ensures written { (more : List Addition) × (AddsOn self.old.contents.checkpoint store.old more store.new
            (D.told depot.old) (D.told depot.new) (D.faults depot.old) (D.faults depot.new) result
            × (AreOf Content more × (BeginsChunk (S.told shelf.old) (repo_view source.old) chunk.now self.old.contents.cutter (contents_in more)
            × ((IfErr result (λ fault. IsOfSource fault → more ≡ []))
            × OnOk result (WritesContent (S.told shelf.old) (repo_view source.old) (repo_view store.old.repo).keys chunk.now
            (writer_state self.old.contents.cutter self.old.contents.chunks.items) (contents_in more)
            (writer_state self.new.contents.cutter self.new.contents.chunks.items) × CountsOn Content self.old.contents more self.new.contents))))) }
        ensures refused { IfErr result (RefusesWriting (S.told shelf.old) (repo_view source.old) chunk.now) }
        ensures checkpoint { OnOk result (self.new.contents.checkpoint ≡ self.old.contents.checkpoint) }
        ensures others { OnOk result (self.new ≡ record self.old { contents = self.new.contents }) }
        ensures both { Copies self.old.contents.checkpoint (source_state (S.told shelf.old) (S.faults shelf.old) source.old)
            (source_state (S.told shelf.new) (S.faults shelf.new) source.new) (target_state (D.told depot.old) (D.faults depot.old) store.old)
            (target_state (D.told depot.new) (D.faults depot.new) store.new) result }
    {
        let content = content_of(&self.walk, source, shelf, chunk, later)?;
        foresee(&mut self.contents, &self.walk, source, store, later);
        self.contents.write(store, depot, &content)
    }
}

/// The walk over the items of an archive that is copied, and the writers of its contents and of its stream.
#[tactic(auto, using(ferry_piece::proofs::FaultLemmas::conversions))]
fn begin_parts(
    alloc: Global,
    source: &Repo,
    id: &Id,
    archive: &Archive,
    options: &Options,
) -> Result<(Walk, PieceWriter, PieceWriter), CarryFault>
    requires least { 64 ≤ options.now.block }
    requires most { options.now.block ≤ 8388608 }
    ensures walk { IfOk result (λ (walk, contents, stream). walk_view walk ≡ begin_walk id.now (archive_view archive.now).items) }
    ensures fits { IfOk result (λ (walk, contents, stream). (files : Files)
        → FitsWalk files (repo_view source.now).log (repo_view source.now).keys (walk_view walk)) }
    ensures contents { IfOk result (λ (walk, contents, stream). IsUnused contents options.now.block options.now.checkpoint) }
    ensures stream { IfOk result (λ (walk, contents, stream). IsUnused stream stream_block options.now.checkpoint) }
    ensures memory { IfErr result (λ fault. fault ≡ CarryFault.Memory) }
{
    let contents = PieceWriter::new(alloc, options.block, options.checkpoint)?;
    let stream = PieceWriter::new(alloc, STREAM_BLOCK, options.checkpoint)?;
    let walk = source.walk(id, archive)?;
    Ok((walk, contents, stream))
}

/// The target's chunks of the content of an item with these chunks, where it was cut before and the store knows each of its pieces.
fn known_content(
    alloc: Global,
    source: &Repo,
    store: &Store,
    block: usize,
    chunks: &[ChunkRef],
) -> Option<ChunkRefs>
    ensures known { IfSome result (λ copied. (told : Option Told) → FitsShelf told source.now
        → KnowsContent told (repo_view source.now) store.now block chunks.now copied) }
{
    let pieces = source.noted(store.keys(), block, chunks)?;
    if pieces.len() > MOST_PIECES as usize || !are_known(store, pieces) {
        return None;
    }
    match Vec::from_slice(alloc, pieces) {
        Ok(copied) => Some(ChunkRefs::new(copied)),
        Err(_) => None,
    }
}

/// Whether a store knows the contents of all these chunks.
pub(crate) fn are_known(store: &Store, pieces: &[ChunkRef]) -> bool
    ensures known { IsTrue result → AllByRecursion (λ piece. IsAnswered store.now piece.id) pieces.now }
{
    let mut rest = pieces;
    while let [piece, behind @ ..] = rest {
        if !store.knows(&piece.id) {
            return false;
        }
        rest = behind;
    }
    true
}

/// Prepares the pieces that come next, where none is prepared: of these chunks, and of the items that follow. Only time depends on it.
fn foresee(writer: &mut PieceWriter, walk: &Walk, source: &Repo, store: &Store, chunks: &[ChunkRef])
    ensures same { writer.new ≡ writer.old }
{
    let Some(chunk) = chunks.first() else {
        return;
    };
    if !writer.looks_ahead(chunk) {
        return;
    }
    if let Ok(lists) = walk.lists_ahead(source) {
        writer.foresee(source, store, chunks, lists.as_slice());
    }
}

/// The content of a chunk of the source, which is the first of `later`. Where it isn't kept, those that follow are read with it.
pub(crate) fn content_of<S: Shelf>(
    walk: &Walk,
    source: &mut Repo,
    shelf: &mut S,
    chunk: &ChunkRef,
    later: &[ChunkRef],
) -> Result<Vec<u8>, RepoFault>
    requires source { FitsShelf (S.told shelf.old) source.old }
    ensures content { IfOk result (λ content. IfSome (S.told shelf.old) (λ t.
        HoldsContent (told_files t) (repo_view source.old).log (repo_view source.old).keys chunk.now content.items)) }
    ensures refused { IfErr result (λ fault. IsOfFiles fault → IfSome (S.told shelf.old) (λ t.
        RefusesContent (told_files t) (repo_view source.old).log (repo_view source.old).keys chunk.now fault)) }
    ensures source { ReadsSource repo_failed (source_state (S.told shelf.old) (S.faults shelf.old) source.old)
        (source_state (S.told shelf.new) (S.faults shelf.new) source.new) result }
{
    walk.read_ahead(source, shelf, later)?;
    source.content(shelf, chunk)
}

/// The sum of the stated sizes of chunks.
fn total_size(chunks: &[ChunkRef]) -> u128
    ensures total { result ≡ min (total_size chunks.now) (2 ^ 128 - 1) }
{
    let mut total = 0u128;
    for place in 0..chunks.len() {
        total = total.saturating_add(u128::from(chunks[place].size));
    }
    total
}

/// The record of the archive whose record has this id.
#[tactic(auto, using(ferry_piece::proofs::FaultLemmas::conversions))]
fn read_record<S: Shelf>(
    alloc: Global,
    source: &mut Repo,
    shelf: &mut S,
    id: &Id,
) -> Result<Archive, CarryFault>
    requires source { FitsShelf (S.told shelf.old) source.old }
    ensures archive { IfOk result (λ archive. IfSome (S.told shelf.old) (λ t.
        HoldsRecord (told_files t) (repo_view source.old).log (repo_view source.old).keys id.now (archive_view archive))) }
    ensures refused { IfErr result (RefusesBegin (S.told shelf.old) (repo_view source.old) id.now) }
    ensures packable { IfOk result (λ archive. IsPackableArchive (archive_view archive)) }
    ensures spares { SparesTarget result }
    ensures source { ReadsSource shelf_failed (source_state (S.told shelf.old) (S.faults shelf.old) source.old)
        (source_state (S.told shelf.new) (S.faults shelf.new) source.new) result }
{
    let content = source.chunk(shelf, id)?;
    record_in(alloc, source.keys(), *id, &content)
}

/// The record that the chunk of this id is.
fn record_in(alloc: Global, keys: &Keys, id: Id, content: &[u8]) -> Result<Archive, CarryFault>
    ensures archive { IfOk result (λ archive. archive_of keys.now content.now ≡ Ok (archive_view archive)) }
    ensures refused { IfErr result (RefusesText keys.now id content.now) }
    ensures packable { IfOk result (λ archive. IsPackableArchive (archive_view archive)) }
    ensures shelf { IfErr result (λ fault. shelf_failed fault ≡ false) }
    ensures spares { SparesTarget result }
{
    match read_archive(alloc, keys, content) {
        Ok(archive) => Ok(archive),
        Err(MetaFault::Memory) => Err(CarryFault::Memory),
        Err(fault) => Err(CarryFault::Source(RepoFault::Archive(id, fault))),
    }
}
