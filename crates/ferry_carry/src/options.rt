//! How archives are copied, and what was.

ghost use Rattle.std.specs.Prelude.{◌≡◌, ◌+◌, ◌-◌, ◌^◌, if◌then◌else◌, min};
ghost use Rattle.ferry_carry.specs.Counting.{nothing_carried};

use ferry_base::Bytes;

/// How archives are copied.
#[derive(Drop)]
pub struct Options {
    /// The length in bytes of each piece of a content but the last, from 64 to 8388608.
    pub block: usize,
    /// How many pieces are put between two commits at most, from 1 to 1000000.
    pub checkpoint: u64,
    /// The time that the manifest of each commit has; where there is none, the later of the two manifests' times.
    pub timestamp: Option<Bytes>,
}

/// What was copied: the archives, and the pieces that were put for them.
#[derive(Clone, Copy, Debug, PartialEq, Eq)]
pub struct Carried {
    /// Archives that were copied.
    pub transferred: u64,
    /// Archives that were there.
    pub present: u64,
    /// Pieces of contents.
    pub chunks: u64,
    /// The bytes of these pieces.
    pub bytes: u128,
    /// Pieces of item streams.
    pub meta: u64,
}

impl Carried {
    /// Nothing.
    pub(crate) fn nothing() -> Carried
        ensures { result ≡ nothing_carried }
    {
        Carried {
            transferred: 0,
            present: 0,
            chunks: 0,
            bytes: 0,
            meta: 0,
        }
    }

    /// The pieces of one archive: how many of its contents and how many bytes they have, and how many of its stream.
    pub(crate) fn of_pieces(contents: (u64, u128), meta: u64) -> Carried
        ensures { result ≡ record nothing_carried { chunks = contents.0; bytes = contents.1; meta = meta } }
    {
        let (chunks, bytes) = contents;
        Carried {
            transferred: 0,
            present: 0,
            chunks,
            bytes,
            meta,
        }
    }

    /// Counts an archive, which was copied or was there, and its pieces.
    pub(crate) fn count(&mut self, copied: bool, put: &Carried)
        ensures transferred { self.new.transferred ≡ min (self.old.transferred + (if copied then 1 else 0)) (2 ^ 64 - 1) }
        ensures present { self.new.present ≡ min (self.old.present + (if copied then 0 else 1)) (2 ^ 64 - 1) }
        ensures chunks { self.new.chunks ≡ min (self.old.chunks + put.now.chunks) (2 ^ 64 - 1) }
        ensures bytes { self.new.bytes ≡ min (self.old.bytes + put.now.bytes) (2 ^ 128 - 1) }
        ensures meta { self.new.meta ≡ min (self.old.meta + put.now.meta) (2 ^ 64 - 1) }
    {
        self.transferred = self.transferred.saturating_add(u64::from(copied));
        self.present = self.present.saturating_add(u64::from(!copied));
        self.chunks = self.chunks.saturating_add(put.chunks);
        self.bytes = self.bytes.saturating_add(put.bytes);
        self.meta = self.meta.saturating_add(put.meta);
    }
}
