//! A content that comes in parts is cut into pieces of one size.

ghost use Rattle.std.specs.Prelude.{◌≡◌, ◌≤◌, ◌++◌, ◌+◌, ◌-◌, ◌↔◌, [], IfOk, IfSome, IsSome, drop, length, min, take, vec_capacity};
ghost use Rattle.std.specs.Borrow.{Array, Lends, sem, u8};
ghost use Rattle.ferry_base.specs.Limits.{blob_limit};
ghost use Rattle.ferry_rechunk.specs.Cutting.{after_loan};
ghost use Rattle.ferry_rechunk.specs.contracts.cutter.Cutter.{the_row};

use ferry_base::CONTENT_LIMIT;
use std::alloc::{AllocError, Global};
use std::marker::Model;

/// The least block size, in bytes.
pub const LEAST_BLOCK: usize = 64;

/// The largest block size, 8 MiB, so that each piece is a content.
pub const MOST_BLOCK: usize = 8_388_608;

const _: () = prove!(MOST_BLOCK <= CONTENT_LIMIT);

/// The bytes of a blob before its content.
const HEAD: usize = 43;

/// A cutter of contents into pieces of one size, the last of them shorter.
///
/// It owns the memory of one piece, with 43 bytes before it, so that the piece becomes a blob where it stands. Contracts see
/// the block size and the piece in hand.
///
/// Source: BorgBackup 1.2, Internals, "Data structures and file formats", Chunks.
#[derive(Drop)]
pub struct Cutter {
    block: usize,
    /// The head, and the piece in hand behind it.
    bytes: Vec<u8>,
}

impl Model for Cutter {
    ghost use Rattle.std.specs.Prelude.{◌≤◌, ◌+◌, drop, length, vec_capacity};
    ghost use Rattle.ferry_rechunk.specs.Cutting.{Cutting};

    ghost Value = { Cutting };

    ghost view = { λ a. record { block = a.block; piece = drop 43 a.bytes.items } };

    ghost invariant = { λ a. (64 ≤ a.block) × (a.block ≤ 8388608) × (43 ≤ length a.bytes.items)
        × (length a.bytes.items ≤ 43 + a.block) × (43 + a.block ≤ vec_capacity a.bytes) };
}

impl Cutter {
    /// A cutter for pieces of `block` bytes, with nothing in hand. It takes all its memory here.
    pub fn new(alloc: Global, block: usize) -> Result<Cutter, AllocError>
        requires least { 64 ≤ block }
        requires most { block ≤ 8388608 }
        ensures block { IfOk result (λ cutter. cutter.block ≡ block) }
        ensures piece { IfOk result (λ cutter. cutter.piece ≡ []) }
    {
        let mut bytes = Vec::with_capacity(alloc, HEAD + block)?;
        bytes.extend_from_slice(&[0; HEAD])?;
        Ok(Cutter { block, bytes })
    }

    /// Takes of these bytes the front that still fits in the piece, and answers its length.
    pub fn feed(&mut self, bytes: &[u8]) -> usize
        ensures taken { result ≡ min (length bytes.now) (self.old.block - length self.old.piece) }
        ensures piece { self.new.piece ≡ self.old.piece ++ take result bytes.now }
        ensures block { self.new.block ≡ self.old.block }
        ensures fits { length self.new.piece ≤ self.new.block }
    {
        let room = self.block - self.piece().len();
        let taken = bytes.len().min(room);
        append(&mut self.bytes, &bytes[..taken]);
        taken
    }

    /// The block size.
    pub fn block(&self) -> usize
        ensures block { result ≡ self.now.block }
        ensures range { (64 ≤ result) × (result ≤ 8388608) }
    {
        self.block
    }

    /// The piece in hand, where it is whole.
    pub fn full(&self) -> Option<&[u8]>
        ensures full { IsSome result ↔ (length self.now.piece ≡ self.now.block) }
        ensures piece { IfSome result (λ piece. piece.now ≡ self.now.piece) }
    {
        let piece = self.piece();
        if piece.len() < self.block {
            return None;
        }
        Some(piece)
    }

    /// The piece in hand, where it isn't empty.
    pub fn last(&self) -> Option<&[u8]>
        ensures last { IsSome result ↔ (1 ≤ length self.now.piece) }
        ensures piece { IfSome result (λ piece. piece.now ≡ self.now.piece) }
    {
        let piece = self.piece();
        if piece.is_empty() {
            return None;
        }
        Some(piece)
    }

    /// Lends the piece in hand with 43 bytes before it, of which nothing is said, as sealing in place takes them. What stands
    /// behind these 43 bytes when the loan ends is the piece in hand from then on.
    pub fn buffer(&mut self) -> &mut [u8]
        ensures* written { sem 𝓛 (Lends the_row (Array u8 0) self.entry result (λ w. after_loan self.old result.now w)) }
        ensures piece { drop 43 result.now ≡ self.old.piece }
        ensures length { length result.now ≡ 43 + length self.old.piece }
        ensures fits { length self.old.piece ≤ self.old.block }
        ensures limit { length result.now ≤ blob_limit }
    {
        self.bytes.as_mut_slice()
    }

    /// Begins the next piece.
    pub fn clear(&mut self)
        ensures piece { self.new.piece ≡ [] }
        ensures block { self.new.block ≡ self.old.block }
    {
        self.bytes.truncate(HEAD);
    }

    /// The piece in hand, whole or not.
    fn piece(&self) -> &[u8]
        ensures piece { result.now ≡ self.now.piece }
        ensures fits { length self.now.piece ≤ self.now.block }
    {
        &self.bytes[HEAD..]
    }
}

/// Puts bytes behind those in the memory, which has room for them.
fn append(memory: &mut Vec<u8>, bytes: &[u8])
    requires { length memory.old.items + length bytes.now ≤ vec_capacity memory.old }
    ensures items { memory.new.items ≡ memory.old.items ++ bytes.now }
    ensures capacity { vec_capacity memory.old ≤ vec_capacity memory.new }
{
    let Ok(()) = memory.extend_from_slice(bytes) else {
        unreachable!()
    };
}
