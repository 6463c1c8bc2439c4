//! Contents that were cut into pieces for a target, so that none of them has to be read again.
ghost use Rattle.std.specs.Prelude.{◌≡◌, [], IfSome, IsTrue};
ghost use Rattle.std.specs.List.{AllByRecursion};
ghost use Rattle.ferry_disk.specs.Files.{Files};
ghost use Rattle.ferry_log.specs.State.{LogState};
ghost use Rattle.ferry_mac.specs.declared.keys.Keys.{Keys};
ghost use Rattle.ferry_repo.specs.Noted.{IsCut, IsNoted};

use ferry_base::Id;
use ferry_item::{ChunkRef, ChunkRefs};
use std::alloc::Global;
use std::collections::BTreeMap;
use std::marker::Model;

/// How many bytes all notes take at most, about.
const ROOM: usize = 67_108_864;

/// How many bytes a note takes beside its chunks, about: itself, its place in the map, and what the allocator adds.
const NOTE: usize = 256;

/// How many bytes a chunk takes.
const CHUNK: usize = 48;

/// How many bytes a content takes that is passed over, and a chunk by which a note is found, about.
const PASSED: usize = 96;

/// A content that was cut: the key that makes the ids of its pieces, the length of those in bytes, the chunks that the content has here,
/// and those of its pieces.
#[derive(Drop)]
pub(crate) struct Note {
    pub(crate) key: [u8; 32],
    pub(crate) block: usize,
    pub(crate) chunks: ChunkRefs,
    pub(crate) pieces: ChunkRefs,
}

impl Note {
    /// Whether this is the note of a content that has these chunks, cut so.
    fn is_of(&self, key: &[u8; 32], block: usize, chunks: &[ChunkRef]) -> bool
        ensures { IsTrue result → (self.now.key ≡ key.now) × ((self.now.block ≡ block) × (self.now.chunks ≡ chunks.now)) }
    {
        if self.key != *key || self.block != block {
            return false;
        }
        same_chunks(self.chunks.as_slice(), chunks)
    }
}

/// Whether chunks are the same.
pub(crate) fn same_chunks(chunks: &[ChunkRef], others: &[ChunkRef]) -> bool
    ensures { IsTrue result → chunks.now ≡ others.now }
{
    chunks == others
}

/// Notes of contents, one for each id of a first chunk; of those with more than one piece the first chunk by each of theirs; the contents beside them that
/// reading ahead passes over, by how many chunks they have; and how many bytes more all may take. Contracts see the notes, as the map's entries.
#[derive(Drop)]
pub(crate) struct Notes {
    room: usize,
    notes: BTreeMap<Id, Note>,
    places: BTreeMap<Id, Id>,
    passed: BTreeMap<Id, usize>,
}

impl Model for Notes {
    ghost use Rattle.std.specs.List.{AllByRecursion};
    ghost use Rattle.ferry_repo.specs.Cached.{Noted};
    ghost use Rattle.ferry_repo.specs.Noted.{IsCut};

    ghost Value = { Noted };

    ghost view = { λ a. a.notes.entries };

    ghost invariant = { λ a. AllByRecursion (λ n. IsCut n.1) a.notes.entries };
}

impl Notes {
    /// No notes.
    pub(crate) fn new(alloc: Global) -> Notes
        ensures none { result ≡ [] }
    {
        Notes {
            room: ROOM,
            notes: BTreeMap::new(alloc),
            places: BTreeMap::new(alloc),
            passed: BTreeMap::new(alloc),
        }
    }

    /// The chunks of the pieces of a content that has these chunks, cut so, where that is noted.
    pub(crate) fn get(
        &self,
        key: &[u8; 32],
        block: usize,
        chunks: &[ChunkRef],
    ) -> Option<&[ChunkRef]>
        ensures noted { IfSome result (λ pieces. (files : Files) (log : LogState) (keys : Keys)
            → AllByRecursion (λ n. IsNoted files log keys n.1) self.now
            → IsNoted files log keys (record { key = key.now; block = block; chunks = chunks.now; pieces = pieces.now })) }
        ensures cut { IfSome result (λ pieces. IsCut (record { key = key.now; block = block; chunks = chunks.now; pieces = pieces.now })) }
    {
        let note = self.notes.get(&chunks.first()?.id)?;
        if !note.is_of(key, block, chunks) {
            return None;
        }
        Some(note.pieces.as_slice())
    }

    /// The note of a content, cut so, that has the first of these chunks that one with more than one piece has.
    pub(crate) fn like(&self, key: &[u8; 32], block: usize, chunks: &[ChunkRef]) -> Option<&Note>
        ensures like { IfSome result (λ note. (note.now.key ≡ key.now) × (note.now.block ≡ block)) }
        ensures noted { IfSome result (λ note. (files : Files) (log : LogState) (keys : Keys)
            → AllByRecursion (λ n. IsNoted files log keys n.1) self.now → IsNoted files log keys note.now) }
        ensures cut { IfSome result (λ note. IsCut note.now) }
    {
        let note = self.notes.get(self.place_of(chunks)?)?;
        if note.key != *key || note.block != block {
            return None;
        }
        Some(note)
    }

    /// The first chunk of a content with more than one piece, which has the first of these chunks that any has.
    fn place_of(&self, chunks: &[ChunkRef]) -> Option<&Id> {
        for place in 0..chunks.len() {
            let first = self.places.get(&chunks[place].id);
            if first.is_some() {
                return first;
            }
        }
        None
    }

    /// Whether a content with these chunks is likely to share pieces with one that is noted: that has its first or its last chunk.
    pub(crate) fn is_like(&self, chunks: &[ChunkRef]) -> bool {
        let (Some(first), Some(last)) = (chunks.first(), chunks.last()) else {
            return false;
        };
        self.places.get(&first.id).is_some() || self.places.get(&last.id).is_some()
    }

    /// Has the note of a content with these chunks be found by each of them, where it has more than one piece, and as far as there is room.
    pub(crate) fn place(&mut self, chunks: &[ChunkRef], pieces: usize)
        ensures same { self.new ≡ self.old }
    {
        let Some(first) = chunks.first() else {
            return;
        };
        if pieces < 2 {
            return;
        }
        for place in 0..chunks.len() {
            self.place_one(first.id, chunks[place].id);
        }
    }

    /// Has a note be found by a chunk, where there is room.
    fn place_one(&mut self, first: Id, id: Id)
        ensures same { self.new ≡ self.old }
    {
        if PASSED > self.room {
            return;
        }
        let Ok(before) = self.places.insert(id, first) else {
            return;
        };
        if before.is_none() {
            self.room = self.room.saturating_sub(PASSED);
        }
    }

    /// Whether reading ahead passes over a content that has these chunks: it is noted, however it was cut, or `pass_over` took it.
    pub(crate) fn has(&self, chunks: &[ChunkRef]) -> bool {
        let Some(first) = chunks.first() else {
            return false;
        };
        if let Some(count) = self.passed.get(&first.id) {
            if *count == chunks.len() {
                return true;
            }
        }
        match self.notes.get(&first.id) {
            Some(note) => note.chunks.as_slice() == chunks,
            None => false,
        }
    }

    /// Has reading ahead pass over a content that has these chunks, where there is room.
    pub(crate) fn pass_over(&mut self, chunks: &[ChunkRef])
        ensures same { self.new ≡ self.old }
    {
        let Some(first) = chunks.first() else {
            return;
        };
        if PASSED > self.room {
            return;
        }
        let Ok(before) = self.passed.insert(first.id, chunks.len()) else {
            return;
        };
        if before.is_none() {
            self.room = self.room.saturating_sub(PASSED);
        }
    }

    /// Keeps a note in the place of one with the same first chunk, where there is room; and else nothing is noted.
    pub(crate) fn put(&mut self, note: Note)
        requires cut { IsCut note }
        ensures kept { (files : Files) (log : LogState) (keys : Keys) → AllByRecursion (λ n. IsNoted files log keys n.1) self.old
            → IsNoted files log keys note → AllByRecursion (λ n. IsNoted files log keys n.1) self.new }
    {
        let size = size_of(&note);
        let Some(first) = first_of(&note) else {
            return;
        };
        if size > self.room {
            return;
        }
        let Ok(before) = self.notes.insert(first, note) else {
            return;
        };
        self.room = self
            .room
            .saturating_sub(size)
            .saturating_add(freed(&before));
    }
}

/// The id of a note's first chunk.
fn first_of(note: &Note) -> Option<Id> {
    let first = note.chunks.as_slice().first()?;
    Some(first.id)
}

/// How many bytes a note takes, about.
fn size_of(note: &Note) -> usize {
    let chunks = note.chunks.as_slice().len();
    let pieces = note.pieces.as_slice().len();
    NOTE.saturating_add(chunks.saturating_add(pieces).saturating_mul(CHUNK))
}

/// How many bytes a note took that another has replaced.
fn freed(before: &Option<Note>) -> usize {
    match before {
        Some(note) => size_of(note),
        None => 0,
    }
}
