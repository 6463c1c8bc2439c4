//! An entry's head, for a reader that has its first bytes and its checksum, and not its blob.
ghost use Rattle.std.specs.Prelude.{◌≡◌, ◌+◌, ◌-◌, ◌≤◌, min, List, ℕ, length, take, drop, IfOk, MatchResult, Some};
ghost use Rattle.std.specs.Int.{w32, from_le_bytes};
ghost use Rattle.ferry_segment.specs.Entry.{first_fault, stated_size};
ghost use Rattle.ferry_segment.specs.Crc.{crc};
ghost use Rattle.ferry_segment.specs.Head.{States, HasHead};

use crate::entry::EntryFault;
use ferry_base::{ENTRY_LIMIT, Id, PUT_HEAD, ZERO_ID};

pub(crate) const PUT: u8 = 0;

pub(crate) const DELETE: u8 = 1;

const COMMIT_TAG: u8 = 2;

const COMMIT_SIZE: usize = 9;

/// The head of an entry: its tag (0 PUT, 1 DELETE, 2 COMMIT), its key, all zero bytes for a COMMIT, and its size in bytes.
#[derive(Clone, Copy, Debug, PartialEq, Eq)]
pub struct Head {
    pub tag: u8,
    pub key: Id,
    pub size: u32,
}

/// What the first bytes of an entry state: its checksum, and a head whose size is in range. Neither the checksum nor the tag is
/// looked at yet.
#[derive(Clone, Copy, Debug)]
pub struct StatedHead {
    pub crc: u32,
    pub head: Head,
}

/// What the entry states at whose first byte `left` bytes are left. `front` has the first of them: 41, or all, or more.
///
/// A refusal is the first rule that the entry breaks. Nothing is allocated.
pub fn read_head(front: &[u8], left: u64) -> Result<StatedHead, EntryFault>
    requires { min 41 left ≤ length front.now }
    ensures within { IfOk result (λ stated. (9 ≤ stated.head.size) × (stated.head.size ≤ left)) }
    ensures stated { (bytes : List ℕ) → length bytes ≡ left → front.now ≡ take (length front.now) bytes
        → MatchResult result (States bytes) (λ fault. first_fault bytes ≡ Some fault) }
{
    if left < COMMIT_SIZE as u64 {
        return Err(EntryFault::Short);
    }
    let size = word_at(front, 4);
    if size < COMMIT_SIZE as u32 || size > ENTRY_LIMIT as u32 {
        return Err(EntryFault::Size);
    }
    if left < u64::from(size) {
        return Err(EntryFault::Short);
    }
    let key = if size < PUT_HEAD as u32 {
        ZERO_ID
    } else {
        key_of(front)
    };
    Ok(StatedHead {
        crc: word_at(front, 0),
        head: Head {
            tag: front[8],
            key,
            size,
        },
    })
}

impl StatedHead {
    /// The head where `checksum` is that of the entry's bytes behind its own first four, and its size fits its tag.
    ///
    /// A refusal is the first rule that the entry breaks.
    pub fn check(&self, checksum: u32) -> Result<Head, EntryFault>
        ensures same { IfOk result (λ head. head ≡ self.now.head) }
        ensures put { IfOk result (λ head. head.tag ≡ 0 → 41 ≤ head.size) }
        ensures decided { (bytes : List ℕ) (at : ℕ) → at ≤ length bytes → States (drop at bytes) self.now
            → checksum ≡ crc (take (self.now.head.size - 4) (drop 4 (drop at bytes)))
            → MatchResult result (HasHead bytes at) (λ fault. first_fault (drop at bytes) ≡ Some fault) }
    {
        if checksum != self.crc {
            return Err(EntryFault::Crc);
        }
        let size = self.head.size as usize;
        match self.head.tag {
            PUT if size >= PUT_HEAD => Ok(self.head),
            DELETE if size == PUT_HEAD => Ok(self.head),
            COMMIT_TAG if size == COMMIT_SIZE => Ok(self.head),
            PUT | DELETE | COMMIT_TAG => Err(EntryFault::Size),
            _ => Err(EntryFault::Tag),
        }
    }
}

/// The little-endian number of four bytes at `at`.
fn word_at(bytes: &[u8], at: usize) -> u32
    requires { at + 4 ≤ length bytes.now }
    ensures { result ≡ from_le_bytes w32 (take 4 (drop at bytes.now)) }
{
    u32::from_le_bytes([bytes[at], bytes[at + 1], bytes[at + 2], bytes[at + 3]])
}

/// The key behind the entry tag.
fn key_of(entry: &[u8]) -> Id
    requires { 41 ≤ length entry.now }
    ensures { result ≡ take 32 (drop 9 entry.now) }
{
    let mut key = [0; 32];
    key.copy_from_slice(&entry[9..PUT_HEAD]);
    key
}
