//! Contents that were found to be the same in the source and in the target, so that none of them has to be compared again.
ghost use Rattle.std.specs.Prelude.{◌≡◌, [], IfOk, IsTrue, Option};
ghost use Rattle.ferry_disk.specs.Device.{Told};
ghost use Rattle.ferry_repo.specs.Opening.{RepoState};
ghost use Rattle.ferry_compare.specs.Matched.{AreMatched, IsMatched};

use ferry_base::Id;
use ferry_item::{ChunkRef, ChunkRefs};
use std::alloc::{AllocError, Global};
use std::collections::BTreeMap;
use std::marker::Model;

/// How many bytes all pairs take at most, about.
const ROOM: usize = 67_108_864;

/// How many bytes a pair takes beside its chunks, about: itself, its place in the map, and what the allocator adds.
const PAIR: usize = 256;

/// How many bytes a chunk takes.
const CHUNK: usize = 48;

/// The chunks that a content has in the source, and those that it has in the target.
#[derive(Drop)]
pub(crate) struct Pair {
    pub(crate) chunks: ChunkRefs,
    pub(crate) others: ChunkRefs,
}

/// Contents that were found to be the same in the source and in the target, one for each id of a first chunk of the source, and how many
/// bytes more they may take. Contracts see them as the map's entries. They are of the two repositories on which they were found, and take 64 MiB at
/// most; past that, nothing more is taken in.
#[derive(Drop)]
pub struct Matches {
    alloc: Global,
    room: usize,
    pairs: BTreeMap<Id, Pair>,
}

impl Model for Matches {
    ghost use Rattle.ferry_compare.specs.Matched.{Matched};

    ghost Value = { Matched };

    ghost view = { λ a. a.pairs.entries };
}

impl Matches {
    /// No content.
    pub fn new(alloc: Global) -> Matches
        ensures none { result ≡ [] }
    {
        Matches {
            alloc,
            room: ROOM,
            pairs: BTreeMap::new(alloc),
        }
    }

    /// Whether a content that has these chunks in the source is known to be the one that has these others in the target.
    pub(crate) fn has(&self, chunks: &[ChunkRef], others: &[ChunkRef]) -> bool
        ensures matched { IsTrue result → (told : Option Told) (source : RepoState) (heard : Option Told) (target : RepoState)
            → AreMatched told source heard target self.now
            → IsMatched told source heard target (record { chunks = chunks.now; others = others.now }) }
    {
        let Some(first) = chunks.first() else {
            return false;
        };
        match self.pairs.get(&first.id) {
            Some(pair) => pair.is_of(chunks, others),
            None => false,
        }
    }

    /// Takes a content in that has these chunks in the source and these others in the target, in the place of one with the same first chunk. Where
    /// there is no room, or memory is refused, nothing is taken in.
    pub(crate) fn add(&mut self, chunks: &[ChunkRef], others: &[ChunkRef])
        ensures kept { (told : Option Told) (source : RepoState) (heard : Option Told) (target : RepoState)
            → AreMatched told source heard target self.old
            → IsMatched told source heard target (record { chunks = chunks.now; others = others.now })
            → AreMatched told source heard target self.new }
    {
        if size_of(chunks, others) > self.room {
            return;
        }
        if let Ok(pair) = pair_of(self.alloc, chunks, others) {
            self.put(pair);
        }
    }

    /// Takes a pair in.
    fn put(&mut self, pair: Pair)
        ensures kept { (told : Option Told) (source : RepoState) (heard : Option Told) (target : RepoState)
            → AreMatched told source heard target self.old → IsMatched told source heard target pair
            → AreMatched told source heard target self.new }
    {
        let size = size_of(pair.chunks.as_slice(), pair.others.as_slice());
        let Some(first) = first_of(&pair) else {
            return;
        };
        let Ok(before) = self.pairs.insert(first, pair) else {
            return;
        };
        self.room = self
            .room
            .saturating_sub(size)
            .saturating_add(freed(&before));
    }
}

impl Pair {
    /// Whether these are its chunks.
    fn is_of(&self, chunks: &[ChunkRef], others: &[ChunkRef]) -> bool
        ensures { IsTrue result → self.now ≡ record { chunks = chunks.now; others = others.now } }
    {
        are_same(self.chunks.as_slice(), chunks) && are_same(self.others.as_slice(), others)
    }
}

/// Whether chunks are the same.
fn are_same(chunks: &[ChunkRef], others: &[ChunkRef]) -> bool
    ensures { IsTrue result → chunks.now ≡ others.now }
{
    chunks == others
}

/// A pair of copies.
fn pair_of(alloc: Global, chunks: &[ChunkRef], others: &[ChunkRef]) -> Result<Pair, AllocError>
    ensures pair { IfOk result (λ pair. pair ≡ record { chunks = chunks.now; others = others.now }) }
{
    let chunks = ChunkRefs::new(Vec::from_slice(alloc, chunks)?);
    let others = ChunkRefs::new(Vec::from_slice(alloc, others)?);
    Ok(Pair { chunks, others })
}

/// The id of a pair's first chunk in the source.
fn first_of(pair: &Pair) -> Option<Id> {
    let first = pair.chunks.as_slice().first()?;
    Some(first.id)
}

/// How many bytes a pair of these chunks takes, about.
fn size_of(chunks: &[ChunkRef], others: &[ChunkRef]) -> usize {
    let count = chunks.len().saturating_add(others.len());
    PAIR.saturating_add(count.saturating_mul(CHUNK))
}

/// How many bytes a pair took that another has replaced.
fn freed(before: &Option<Pair>) -> usize {
    match before {
        Some(pair) => size_of(pair.chunks.as_slice(), pair.others.as_slice()),
        None => 0,
    }
}
