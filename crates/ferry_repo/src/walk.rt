//! The items of an archive, one after another.
ghost use Rattle.std.specs.Prelude.{◌≡◌, ◌<◌, ◌+◌, ◌∷◌, [], None, Some, Ok, length, slice_index_or, IfOk, IfErr, IfSome, OnOk, OnErr};
ghost use Rattle.ferry_disk.specs.Device.{KeepsTold, HasCause, told_files};
ghost use Rattle.ferry_item.specs.Item.{item_view};
ghost use Rattle.ferry_item.specs.Stream.{front_item, nothing_yet};
ghost use Rattle.ferry_item.specs.Writing.{IsPackable};
ghost use Rattle.ferry_repo.specs.Fault.{repo_failed, IsOfFiles};
ghost use Rattle.ferry_repo.specs.Archives.{HoldsContent, RefusesContent};
ghost use Rattle.ferry_repo.specs.Objects.{HoldsChunk, RefusesChunk};
ghost use Rattle.ferry_repo.specs.Opening.{repo_view, cached_in, FitsRepo};
ghost use Rattle.ferry_repo.specs.Walk.{walk_view, begin_walk, IsToCome, LeadsOn, FitsWalk, ReadsOn, Ends};

use crate::batch::AHEAD;
use crate::fault::{RepoFault, of_item};
use crate::repo::Repo;
use ferry_base::Id;
use ferry_disk::Shelf;
use ferry_item::{ChunkRef, ChunkRefs, Item, ItemFault, ItemReader};
use ferry_manifest::Ids;
use std::alloc::{AllocError, Global};
use std::cmp::min;
use std::mem;

/// The size in bytes from which a content takes longer to be opened than some items to be read.
const LARGE: u64 = 2_048;

/// How many items a look ahead reads at most.
const ITEMS_AHEAD: usize = 256;

/// Of how many items with content a look ahead answers the chunks at most.
const LISTS_AHEAD: usize = 23;

/// A walk over the items of an archive. It owns the ids of the chunks of the archive's stream and what it read ahead of them. It is
/// used with the repository that made it and its shelf.
#[derive(Drop)]
pub struct Walk {
    alloc: Global,
    id: Id,
    ids: Ids,
    read: usize,
    reader: ItemReader,
    ending: Ending,
    ahead: bool,
}

/// Whether the end of the stream was met, and how. The reader is spent there, so the walk keeps what it said.
#[derive(Clone, Copy, PartialEq, Eq)]
pub(crate) enum Ending {
    /// It wasn't met.
    Open,
    /// The stream ended behind an item.
    Whole,
    /// The stream ended inside an item.
    Cut,
}

impl Walk {
    /// A walk from the front of the stream of these chunks, for the record of this id. Where `ahead` holds, the chunks are read ahead.
    pub(crate) fn new(alloc: Global, id: Id, ids: Ids, ahead: bool) -> Walk
        ensures walk { walk_view result ≡ begin_walk id ids }
    {
        Walk {
            alloc,
            id,
            ids,
            read: 0,
            reader: ItemReader::new(alloc),
            ending: Ending::Open,
            ahead,
        }
    }

    /// Answers the next item of the archive, and none at the end of the whole stream.
    ///
    /// A chunk of the stream is opened only where no item stands in front of what was read. A refused step may have read
    /// ahead; the items that are still to come, and the fault that ends them, are as they were.
    ///
    /// Source: BorgBackup 1.2, Internals, "Data structures and file formats", Archives.
    #[tactic(auto, using(crate::proofs::FaultLemmas::conversions))]
    pub fn step<S: Shelf>(
        &mut self,
        repo: &mut Repo,
        shelf: &mut S,
    ) -> Result<Option<Item>, RepoFault>
        requires fits { IfSome (S.told shelf.old) (λ t. FitsRepo (told_files t) (repo_view repo.old) (cached_in repo.old)) }
        requires walk_fits { IfSome (S.told shelf.old) (λ t.
            FitsWalk (told_files t) (repo_view repo.old).log (repo_view repo.old).keys (walk_view self.old)) }
        ensures item { IfOk result (λ found. IfSome found (λ item. IfSome (S.told shelf.old) (λ t.
            LeadsOn (told_files t) (repo_view repo.old).log (repo_view repo.old).keys
            (walk_view self.old) (item_view item ∷ []) (walk_view self.new)))) }
        ensures none { result ≡ Ok None → IfSome (S.told shelf.old) (λ t.
            IsToCome (told_files t) (repo_view repo.old).log (repo_view repo.old).keys (walk_view self.old) [] None) }
        ensures refused { IfErr result (λ fault. IsOfFiles fault → IfSome (S.told shelf.old) (λ t.
            IsToCome (told_files t) (repo_view repo.old).log (repo_view repo.old).keys (walk_view self.old) [] (Some fault))) }
        ensures still { OnErr result (IfSome (S.told shelf.old) (λ t.
            LeadsOn (told_files t) (repo_view repo.old).log (repo_view repo.old).keys (walk_view self.old) [] (walk_view self.new))) }
        ensures ended { result ≡ Ok None → IfSome (S.told shelf.old) (λ t.
            LeadsOn (told_files t) (repo_view repo.old).log (repo_view repo.old).keys (walk_view self.old) [] (walk_view self.new)) }
        ensures archive { ((walk_view self.new).id ≡ (walk_view self.old).id) × ((walk_view self.new).ids ≡ (walk_view self.old).ids) }
        // What is answered can be written again.
        ensures packable { IfOk result (λ found. IfSome found (λ item. IsPackable (item_view item))) }
        ensures walk_fits { IfSome (S.told shelf.old) (λ t.
            FitsWalk (told_files t) (repo_view repo.old).log (repo_view repo.old).keys (walk_view self.new)) }
        ensures fits { IfSome (S.told shelf.new) (λ t. FitsRepo (told_files t) (repo_view repo.new) (cached_in repo.new)) }
        ensures kept { repo_view repo.new ≡ repo_view repo.old }
        ensures same { KeepsTold repo_failed (S.told shelf.old) (S.told shelf.new) result }
        ensures cause { HasCause repo_failed (S.faults shelf.old) (S.faults shelf.new) result }
    {
        loop {
            match self.ending {
                Ending::Open => {}
                Ending::Whole => return Ok(None),
                Ending::Cut => return Err(RepoFault::Item(self.id, ItemFault::Rest)),
            }
            match self.reader.next() {
                Ok(Some(item)) => return Ok(Some(item)),
                Ok(None) => {}
                Err(fault) => return Err(of_item(self.id, fault)),
            }
            if self.read < self.ids.as_slice().len() {
                match self.read_on(repo, shelf) {
                    Ok(()) => {}
                    Err(fault) => return Err(fault),
                }
            } else {
                self.end();
            }
        }
    }

    /// Brings the contents of chunks that are wanted next among those that the repository keeps, where the first of `chunks` isn't
    /// there: of `chunks`, the rest of an item, and then of the items that stand whole in what was read, but for contents that the repository
    /// passes over. As many are read as twenty-four contents and 48 MiB hold, and opened side by side. Only time depends on it: the call that asks
    /// for a content says what is wrong with it.
    #[tactic(auto, using(crate::proofs::FaultLemmas::conversions))]
    pub fn read_ahead<S: Shelf>(
        &self,
        repo: &mut Repo,
        shelf: &mut S,
        chunks: &[ChunkRef],
    ) -> Result<(), RepoFault>
        requires fits { IfSome (S.told shelf.old) (λ t. FitsRepo (told_files t) (repo_view repo.old) (cached_in repo.old)) }
        ensures refused { IfErr result (λ fault. IsOfFiles fault → ⊥) }
        ensures fits { IfSome (S.told shelf.new) (λ t. FitsRepo (told_files t) (repo_view repo.new) (cached_in repo.new)) }
        ensures kept { repo_view repo.new ≡ repo_view repo.old }
        ensures same { KeepsTold repo_failed (S.told shelf.old) (S.told shelf.new) result }
        ensures cause { HasCause repo_failed (S.faults shelf.old) (S.faults shelf.new) result }
    {
        if chunks.is_empty() || repo.keeps(&chunks[0].id) {
            return Ok(());
        }
        let wanted = self.chunks_ahead(repo, chunks)?;
        repo.read_contents(shelf, wanted.as_slice())
    }

    /// The chunks of the items with content that come next and isn't passed over, nor likely to share pieces with one that is noted, so far as
    /// they stand whole in what was read: a list for each item, of the next twenty-three at most. Of the items that come 256 are looked at at most,
    /// and a malformed one ends the look. The walk stays where it is.
    pub fn lists_ahead(&self, repo: &Repo) -> Result<Vec<ChunkRefs>, AllocError> {
        let mut lists = Vec::new(self.alloc);
        let mut behind = 0;
        for _ in 0..ITEMS_AHEAD {
            let Some((chunks, end)) = self.reader.item_ahead(behind) else {
                break;
            };
            behind = end;
            add_list(repo, &mut lists, chunks)?;
            if lists.len() >= LISTS_AHEAD {
                break;
            }
        }
        Ok(lists)
    }

    /// The content of an item's chunk, which is the first of `later`, as the repository answers it. Where it isn't kept, those that follow
    /// are read with it by `read_ahead`.
    #[tactic(auto, using(crate::proofs::FaultLemmas::conversions))]
    pub fn content<S: Shelf>(
        &self,
        repo: &mut Repo,
        shelf: &mut S,
        chunk: &ChunkRef,
        later: &[ChunkRef],
    ) -> Result<Vec<u8>, RepoFault>
        requires fits { IfSome (S.told shelf.old) (λ t. FitsRepo (told_files t) (repo_view repo.old) (cached_in repo.old)) }
        ensures content { IfOk result (λ content. IfSome (S.told shelf.old) (λ t.
            HoldsContent (told_files t) (repo_view repo.old).log (repo_view repo.old).keys chunk.now content.items)) }
        ensures refused { IfErr result (λ fault. IfSome (S.told shelf.old) (λ t.
            RefusesContent (told_files t) (repo_view repo.old).log (repo_view repo.old).keys chunk.now fault)) }
        ensures fits { IfSome (S.told shelf.new) (λ t. FitsRepo (told_files t) (repo_view repo.new) (cached_in repo.new)) }
        ensures kept { repo_view repo.new ≡ repo_view repo.old }
        ensures same { KeepsTold repo_failed (S.told shelf.old) (S.told shelf.new) result }
        ensures cause { HasCause repo_failed (S.faults shelf.old) (S.faults shelf.new) result }
    {
        self.read_ahead(repo, shelf, later)?;
        repo.content(shelf, chunk)
    }
}

impl Walk {
    /// Chunks that are wanted next, of `chunks` and then of the items that follow. Where the first is small, the items aren't read for it.
    fn chunks_ahead(&self, repo: &Repo, chunks: &[ChunkRef]) -> Result<Vec<ChunkRef>, AllocError> {
        let mut wanted = Vec::new(self.alloc);
        let Some(first) = chunks.first() else {
            return Ok(wanted);
        };
        add_chunks(chunks, &mut wanted)?;
        if first.size < LARGE || wanted.len() >= AHEAD {
            return Ok(wanted);
        }
        let lists = self.lists_ahead(repo)?;
        for place in 0..lists.len() {
            add_chunks(lists[place].as_slice(), &mut wanted)?;
        }
        Ok(wanted)
    }

    /// The content of the next chunk of the stream, which has this id. Where the stream is read ahead, those of the chunks that follow are
    /// read with it.
    #[tactic(auto, using(crate::proofs::FaultLemmas::conversions))]
    fn next_content<S: Shelf>(
        &self,
        repo: &mut Repo,
        shelf: &mut S,
        id: &Id,
    ) -> Result<Vec<u8>, RepoFault>
        requires fits { IfSome (S.told shelf.old) (λ t. FitsRepo (told_files t) (repo_view repo.old) (cached_in repo.old)) }
        ensures content { IfOk result (λ content. IfSome (S.told shelf.old) (λ t.
            HoldsChunk (told_files t) (repo_view repo.old).log (repo_view repo.old).keys id.now content.items)) }
        ensures refused { IfErr result (λ fault. IfSome (S.told shelf.old) (λ t.
            RefusesChunk (told_files t) (repo_view repo.old).log (repo_view repo.old).keys id.now fault)) }
        ensures fits { IfSome (S.told shelf.new) (λ t. FitsRepo (told_files t) (repo_view repo.new) (cached_in repo.new)) }
        ensures kept { repo_view repo.new ≡ repo_view repo.old }
        ensures same { KeepsTold repo_failed (S.told shelf.old) (S.told shelf.new) result }
        ensures cause { HasCause repo_failed (S.faults shelf.old) (S.faults shelf.new) result }
    {
        let later = self.ids_ahead(repo, id);
        repo.read_ahead(shelf, later, 0)?;
        repo.chunk(shelf, id)
    }

    /// The ids of the next chunks of the stream, where it is read ahead and the first isn't kept.
    fn ids_ahead(&self, repo: &Repo, id: &Id) -> &[Id] {
        let ids = self.ids.as_slice();
        if !self.ahead || self.read >= ids.len() || repo.keeps(id) {
            return &[];
        }
        let end = min(ids.len(), self.read.saturating_add(AHEAD));
        &ids[self.read..end]
    }

    /// Opens the next chunk of the stream, and feeds the reader with its content.
    #[tactic(auto, using(crate::proofs::FaultLemmas::conversions))]
    fn read_on<S: Shelf>(&mut self, repo: &mut Repo, shelf: &mut S) -> Result<(), RepoFault>
        requires more { self.old.read < length self.old.ids }
        requires fits { IfSome (S.told shelf.old) (λ t. FitsRepo (told_files t) (repo_view repo.old) (cached_in repo.old)) }
        ensures read { OnOk result (IfSome (S.told shelf.old) (λ t.
            ReadsOn (told_files t) (repo_view repo.old).log (repo_view repo.old).keys (walk_view self.old) (walk_view self.new))) }
        ensures next { OnOk result (self.new.read ≡ self.old.read + 1) }
        ensures rest { OnOk result ((self.new.id ≡ self.old.id) × (self.new.ids ≡ self.old.ids) × (self.new.ending ≡ self.old.ending)) }
        ensures refused { IfErr result (λ fault. IfSome (S.told shelf.old) (λ t.
            RefusesChunk (told_files t) (repo_view repo.old).log (repo_view repo.old).keys
            (slice_index_or self.old.ids self.old.read []) fault)) }
        ensures err { OnErr result (self.new ≡ self.old) }
        ensures fits { IfSome (S.told shelf.new) (λ t. FitsRepo (told_files t) (repo_view repo.new) (cached_in repo.new)) }
        ensures kept { repo_view repo.new ≡ repo_view repo.old }
        ensures same { KeepsTold repo_failed (S.told shelf.old) (S.told shelf.new) result }
        ensures cause { HasCause repo_failed (S.faults shelf.old) (S.faults shelf.new) result }
    {
        let id = self.ids.as_slice()[self.read];
        let content = self.next_content(repo, shelf, &id)?;
        match self.reader.feed(&content) {
            Ok(()) => {}
            Err(_) => return Err(RepoFault::Memory),
        }
        self.read += 1;
        Ok(())
    }

    /// Ends the reading, once no chunk follows: the stream is whole, or ends inside an item.
    fn end(&mut self)
        requires nothing { front_item self.old.reader ≡ nothing_yet }
        ensures ends { Ends self.old.reader self.new.ending }
        ensures rest { (self.new.id ≡ self.old.id) × (self.new.ids ≡ self.old.ids) × (self.new.read ≡ self.old.read) }
    {
        let reader = mem::replace(&mut self.reader, ItemReader::new(self.alloc));
        self.ending = match reader.finish() {
            Ok(()) => Ending::Whole,
            Err(_) => Ending::Cut,
        };
    }
}

/// Adds an item's chunks, where it has content that isn't passed over and isn't likely to share pieces with one that is noted.
fn add_list(
    repo: &Repo,
    lists: &mut Vec<ChunkRefs>,
    chunks: Option<ChunkRefs>,
) -> Result<(), AllocError> {
    let Some(chunks) = chunks else {
        return Ok(());
    };
    if repo.passes_over(chunks.as_slice()) || repo.is_like(chunks.as_slice()) {
        drop(chunks);
        return Ok(());
    }
    Ok(lists.push(chunks)?)
}

/// Adds the first of these chunks, until as many are wanted as are read ahead at most.
fn add_chunks(chunks: &[ChunkRef], wanted: &mut Vec<ChunkRef>) -> Result<(), AllocError> {
    let room = AHEAD.saturating_sub(wanted.len());
    wanted.extend_from_slice(&chunks[..min(chunks.len(), room)])
}
