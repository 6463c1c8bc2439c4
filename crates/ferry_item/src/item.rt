//! What an item says.

ghost use Rattle.std.specs.Prelude.{◌≡◌};

use ferry_base::Id;
use ferry_msgpack::Value;
use std::marker::Model;

/// The metadata of one file, folder or link of an archive, and the chunks of its content.
///
/// Source: BorgBackup 1.2, Internals, "Data structures and file formats", Archives.
#[derive(Drop)]
pub struct Item {
    /// The table of all names but `chunks`.
    pub fields: Value,
    /// The chunks of the content in order, where the item has content.
    pub chunks: Option<ChunkRefs>,
}

/// A chunk of an item's content.
#[derive(Clone, Copy, Debug, PartialEq, Eq)]
pub struct ChunkRef {
    /// The id of the content's piece.
    pub id: Id,
    /// The length of the piece in bytes.
    pub size: u64,
    /// The length of its blob in bytes, as the writer of the archive stated it. It is compared with nothing.
    pub csize: u64,
}

/// Some chunks, which contracts see as a list.
#[derive(Drop)]
pub struct ChunkRefs {
    chunks: Vec<ChunkRef>,
}

impl Model for ChunkRefs {
    ghost use Rattle.std.specs.Prelude.{List};
    ghost use Rattle.ferry_item.specs.declared.item.ChunkRef.{ChunkRef};

    ghost Value = { List ChunkRef };

    ghost view = { λ a. a.chunks.items };
}

impl ChunkRefs {
    /// These chunks.
    pub fn new(chunks: Vec<ChunkRef>) -> ChunkRefs
        ensures chunks { result ≡ chunks.items }
    {
        ChunkRefs { chunks }
    }

    /// The chunks.
    pub fn as_slice(&self) -> &[ChunkRef]
        ensures chunks { result.now ≡ self.now }
    {
        self.chunks.as_slice()
    }

    /// The chunks, to be changed.
    pub fn into_vec(self) -> Vec<ChunkRef>
        ensures chunks { result.items ≡ self }
    {
        let ChunkRefs { chunks } = self;
        chunks
    }
}
