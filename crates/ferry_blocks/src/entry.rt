//! What the front of an entry states: the entry's size, and the end of the counter blocks of its blob.
ghost use Rattle.std.specs.Prelude.{◌≡◌, ◌≤◌, ◌↔◌, min, IsTrue, IfSome, MatchOption, List, ℕ};
ghost use Rattle.std.specs.Prelude.{length, take, drop};
ghost use Rattle.std.specs.Int.{w32, w64, from_be_bytes, from_le_bytes};
ghost use Rattle.ferry_base.specs.Limits.{entry_limit};
ghost use Rattle.ferry_blocks.specs.Blocks.{StatesSize, StatesNoSize, IsCounterType, IsCountedPut, IsEndOf};

use ferry_base::{ENTRY_LIMIT, PUT_HEAD};

/// The entry tag of a PUT.
const PUT: u8 = 0;

/// The least bytes of an entry.
const LEAST_ENTRY: u32 = 9;

/// Where the nonce lies in a PUT: behind the head, the blob's type and its authentication code.
const NONCE: usize = PUT_HEAD + 33;

/// The bytes of a PUT up to the end of the nonce, which are all that is read of it.
const FRONT: usize = NONCE + 8;

/// The least bytes of a PUT whose blob has room for each field.
const LEAST_PUT: u32 = 84;

/// The size of the entry at whose first byte `left` bytes of the segment are left, `None` where it states none
/// that is in range and within them.
///
/// `front` has the first of these bytes: up to the end of a PUT's nonce, or all, or more. Where it has fewer,
/// the answer is `None` as well.
pub(crate) fn entry_size(front: &[u8], left: u64) -> Option<u32>
    ensures within { IfSome result (λ size. (9 ≤ size) × (size ≤ left)) }
    ensures front { IfSome result (λ size. min 82 size ≤ length front.now) }
    ensures stated { (bytes : List ℕ) → length bytes ≡ left → front.now ≡ take (length front.now) bytes
        → MatchOption result (min 82 left ≤ length front.now → StatesNoSize bytes) (StatesSize bytes) }
{
    if left < u64::from(LEAST_ENTRY) {
        return None;
    }
    if !has_front(front, left) {
        return None;
    }
    let size = size_word(front);
    if !is_in_range(size, left) {
        return None;
    }
    Some(size)
}

/// Whether a size is one of an entry, and within the bytes that are left.
fn is_in_range(size: u32, left: u64) -> bool
    ensures { IsTrue result ↔ ((9 ≤ size) × (size ≤ entry_limit) × (size ≤ left)) }
{
    size >= LEAST_ENTRY && size <= ENTRY_LIMIT as u32 && u64::from(size) <= left
}

/// Whether all that is read of an entry is there, of which `left` bytes are left.
fn has_front(front: &[u8], left: u64) -> bool
    ensures { IsTrue result ↔ (min 82 left ≤ length front.now) }
{
    front.len() >= FRONT || front.len() as u64 >= left
}

/// The size that an entry states, little-endian.
fn size_word(front: &[u8]) -> u32
    requires { 8 ≤ length front.now }
    ensures { result ≡ from_le_bytes w32 (take 4 (drop 4 front.now)) }
{
    u32::from_le_bytes([front[4], front[5], front[6], front[7]])
}

/// The end of the counter blocks of an entry's blob, 0 where it takes none. `size` is what the entry states.
pub(crate) fn put_end(front: &[u8], size: u32) -> u128
    requires least { 9 ≤ size }
    requires front { min 82 size ≤ length front.now }
    ensures { (bytes : List ℕ) → StatesSize bytes size → front.now ≡ take (length front.now) bytes
        → IsEndOf (IsCountedPut bytes) result }
{
    if front[8] != PUT {
        return 0;
    }
    if size < LEAST_PUT {
        return 0;
    }
    if !is_counter_type(front[PUT_HEAD]) {
        return 0;
    }
    let ciphertext = size as usize - FRONT;
    let blocks = (ciphertext + 15) / 16;
    u128::from(nonce_of(front)) + blocks as u128
}

/// Whether blobs of this type take counter blocks of a repository's key.
fn is_counter_type(kind: u8) -> bool
    ensures { IsTrue result ↔ IsCounterType kind }
{
    kind == 0 || kind == 1 || kind == 3
}

/// The nonce of a PUT's blob, the highest byte first.
fn nonce_of(front: &[u8]) -> u64
    requires { 82 ≤ length front.now }
    ensures { result ≡ from_be_bytes w64 (take 8 (drop 74 front.now)) }
{
    let mut nonce = [0; 8];
    nonce.copy_from_slice(&front[NONCE..FRONT]);
    u64::from_be_bytes(nonce)
}
