//! The pieces that come next, as they would be cut.
use crate::foreseen::{Ahead, Foreseen};
use ferry_base::CONTENT_LIMIT;
use ferry_item::{ChunkRef, ChunkRefs};
use ferry_rechunk::Cutter;
use ferry_repo::Repo;
use ferry_store::Store;
use std::alloc::{AllocError, Global};
use std::marker::Model;

/// How many bytes of a blob stand before its content.
const HEAD: usize = 43;

/// How many pieces are foreseen at most.
const MOST_PIECES: usize = 32;

/// With how many bytes no more are foreseen.
const MOST_BYTES: usize = 50_331_648;

/// Pieces, each with 43 bytes before it, so that it becomes a blob where it stands.
#[derive(Drop)]
struct Pieces {
    alloc: Global,
    buffers: Vec<Vec<u8>>,
    bytes: usize,
}

impl Model for Pieces {
    ghost use Rattle.std.specs.Prelude.{◌≤◌, ◌<◌, ℕ, length};
    ghost use Rattle.ferry_blob.specs.Batch.{bytes_at};
    ghost use Rattle.ferry_store.specs.Piece.{HasSize};

    ghost Value = { Unit {0} };

    ghost view = { λ a. tt };

    ghost invariant = { λ a. (length a.buffers.items ≤ 64) × ((k : ℕ) → k < length a.buffers.items → HasSize (bytes_at a.buffers.items k)) };
}

impl Pieces {
    /// No pieces.
    fn new(alloc: Global) -> Pieces {
        Pieces {
            alloc,
            buffers: Vec::new(alloc),
            bytes: 0,
        }
    }

    /// Takes a copy of a piece in, behind the others, where there is room, and answers whether there was.
    fn push(&mut self, piece: &[u8]) -> Result<bool, AllocError> {
        if self.buffers.len() >= MOST_PIECES
            || self.bytes >= MOST_BYTES
            || piece.len() > CONTENT_LIMIT
        {
            return Ok(false);
        }
        let mut buffer = Vec::with_capacity(self.alloc, HEAD + piece.len())?;
        buffer.extend_from_slice(&[0; HEAD])?;
        buffer.extend_from_slice(piece)?;
        self.buffers.push(buffer)?;
        self.bytes = self.bytes.saturating_add(piece.len());
        Ok(true)
    }

    /// Prepares the pieces for a store, where there are several.
    fn prepare(self, store: &Store) -> Result<Ahead, AllocError> {
        if self.buffers.len() < 2 {
            return Ok(Ahead::none());
        }
        let Pieces {
            alloc,
            buffers,
            bytes: _,
        } = self;
        Ok(Ahead::of(Foreseen::new(alloc, store, buffers)?))
    }
}

/// The pieces that come next of contents that a repository keeps.
#[derive(Drop)]
struct Forecast {
    cutter: Cutter,
    pieces: Pieces,
}

impl Forecast {
    /// Nothing yet but what another cutter has in hand.
    fn new(alloc: Global, hand: &Cutter) -> Result<Forecast, AllocError> {
        let mut cutter = Cutter::new(alloc, hand.block())?;
        if let Some(bytes) = hand.last() {
            cutter.feed(bytes);
        }
        Ok(Forecast {
            cutter,
            pieces: Pieces::new(alloc),
        })
    }

    /// Takes the contents of these chunks in, and then those of each list, as far as they are kept and there is room.
    fn add_lists(
        &mut self,
        source: &Repo,
        chunks: &[ChunkRef],
        lists: &[ChunkRefs],
    ) -> Result<(), AllocError> {
        let mut goes_on = self.add_list(source, chunks)?;
        for place in 0..lists.len() {
            if !goes_on {
                return Ok(());
            }
            goes_on = self.add_list(source, lists[place].as_slice())?;
        }
        Ok(())
    }

    /// Takes the contents of chunks in, and answers whether all were kept and had room. The last piece ends with them.
    fn add_list(&mut self, source: &Repo, chunks: &[ChunkRef]) -> Result<bool, AllocError> {
        for place in 0..chunks.len() {
            let Some(content) = source.kept_content(&chunks[place].id) else {
                return Ok(false);
            };
            if !self.add_content(content)? {
                return Ok(false);
            }
        }
        self.push()
    }

    /// Takes a content in, and answers whether all of it had room.
    fn add_content(&mut self, content: &[u8]) -> Result<bool, AllocError> {
        let mut rest = content;
        for _ in 0..=MOST_PIECES {
            let taken = self.cutter.feed(rest);
            rest = &rest[taken..];
            if self.cutter.full().is_none() {
                return Ok(true);
            }
            if !self.push()? {
                return Ok(false);
            }
        }
        Ok(false)
    }

    /// Takes the piece in hand in, where it isn't empty, and answers whether there was room.
    fn push(&mut self) -> Result<bool, AllocError> {
        let Some(piece) = self.cutter.last() else {
            return Ok(true);
        };
        let taken = self.pieces.push(piece)?;
        self.cutter.clear();
        Ok(taken)
    }
}

/// Prepares the pieces that come next: of what a cutter has in hand and the contents of these chunks behind it, and then of each list alone, as far as `source`
/// keeps the contents, up to thirty-two pieces and about 48 MiB. Of one piece alone nothing is prepared, and nothing where memory is refused.
pub(crate) fn foresee(
    alloc: Global,
    hand: &Cutter,
    source: &Repo,
    store: &Store,
    chunks: &[ChunkRef],
    lists: &[ChunkRefs],
) -> Ahead {
    match prepared(alloc, hand, source, store, chunks, lists) {
        Ok(ahead) => ahead,
        Err(_) => Ahead::none(),
    }
}

/// The same, unless memory is refused.
fn prepared(
    alloc: Global,
    hand: &Cutter,
    source: &Repo,
    store: &Store,
    chunks: &[ChunkRef],
    lists: &[ChunkRefs],
) -> Result<Ahead, AllocError> {
    let mut forecast = Forecast::new(alloc, hand)?;
    forecast.add_lists(source, chunks, lists)?;
    let Forecast { cutter: _, pieces } = forecast;
    pieces.prepare(store)
}
