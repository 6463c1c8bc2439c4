//! HMAC over SHA-256 of four texts, side by side, and the parts of it that any number of lanes have.
ghost use Rattle.std.specs.Prelude.{ℕ, List, [], ◌∷◌, ◌++◌, ◌≡◌, ◌<◌, ◌≤◌, ◌+◌, ◌-◌, ◌*◌};
ghost use Rattle.std.specs.Prelude.{◌/◌, if◌then◌else◌, ◌==◌, nat_lt, length, map, replicate, take, drop, slice_index, slice_index_or};
ghost use Rattle.sha2.specs.Sha256.{compress, digest_bytes, hash_after, initial_hash_256};
ghost use Rattle.ferry_mac.specs.Hmac.{hmac256};
ghost use Rattle.std.specs.Int.{w64, to_be_bytes};
ghost use Rattle.ferry_mac.specs.Lanes.{lane, behind_key, nth_text, IsEnding};

use crate::compression::{State, compressed, put_words};
use crate::mac256::{BLOCK_LEN, INNER_PAD, OUTER_PAD, block_of, padded};
use crate::many::hashed;
use std::simd::prelude::*;

/// The initial hash value of SHA-256 (FIPS 180-4, 5.3.3), once for each message.
fn initial() -> State<4>
    ensures { (l : ℕ) → l < 4 → lane result l ≡ initial_hash_256 }
{
    [
        u32x4::splat(0x6a09e667),
        u32x4::splat(0xbb67ae85),
        u32x4::splat(0x3c6ef372),
        u32x4::splat(0xa54ff53a),
        u32x4::splat(0x510e527f),
        u32x4::splat(0x9b05688c),
        u32x4::splat(0x1f83d9ab),
        u32x4::splat(0x5be0cd19),
    ]
}

/// The hash value after the block of a key, once for each message.
pub(crate) fn keyed(block: &[u8; 64]) -> State<4>
    ensures { (l : ℕ) → l < 4 → lane result l ≡ compress initial_hash_256 block.now }
{
    let mut w = [[0u32; 4]; 64];
    for l in 0..4usize {
        put_words(&mut w, l, block);
    }
    compressed(&initial(), &mut w)
}

/// The hash value of the first of four messages, once for each of eight.
pub(crate) fn widened(state: &State<4>) -> State<8>
    ensures { (l : ℕ) → l < 8 → lane result l ≡ lane state.now 0 }
{
    [
        u32x8::splat(state[0].to_array()[0]),
        u32x8::splat(state[1].to_array()[0]),
        u32x8::splat(state[2].to_array()[0]),
        u32x8::splat(state[3].to_array()[0]),
        u32x8::splat(state[4].to_array()[0]),
        u32x8::splat(state[5].to_array()[0]),
        u32x8::splat(state[6].to_array()[0]),
        u32x8::splat(state[7].to_array()[0]),
    ]
}

/// How many blocks a text and its padding have. The padding has 9 bytes at least (5.1.1).
pub(crate) fn block_count(text: &[u8]) -> usize
    ensures { result ≡ length (behind_key text.now) / 64 }
{
    (text.len() + 72) / BLOCK_LEN
}

/// Bytes with zeros behind them.
fn begun(rest: &[u8]) -> [u8; 128]
    requires { length rest.now < 64 }
    ensures { result ≡ rest.now ++ replicate (128 - length rest.now) 0 }
{
    let mut end = [0u8; 128];
    end[..rest.len()].copy_from_slice(rest);
    end
}

/// Bytes and the one that begins the padding (5.1.1), with zeros behind them.
fn marked(rest: &[u8]) -> [u8; 128]
    requires { length rest.now < 64 }
    ensures { result ≡ rest.now ++ 0x80 ∷ replicate (127 - length rest.now) 0 }
{
    let mut end = begun(rest);
    end[rest.len()] = 0x80;
    end
}

/// `end` with a length in bits as the last 8 of its first `len` bytes.
fn with_length(mut end: [u8; 128], len: usize, bits: u64) -> [u8; 128]
    requires low { 8 ≤ len }
    requires high { len ≤ 128 }
    ensures { take len result ≡ take (len - 8) end ++ to_be_bytes w64 bits }
{
    end[len - 8..len].copy_from_slice(&bits.to_be_bytes());
    end
}

/// The bytes of a text behind its last whole block, with the padding of a message that has one block
/// before the text (5.1.1). They are one block or two.
pub(crate) fn ending(text: &[u8]) -> [u8; 128]
    ensures { IsEnding result text.now }
{
    let rest = &text[text.len() / BLOCK_LEN * BLOCK_LEN..];
    let bits = (text.len() as u64).wrapping_add(64).wrapping_mul(8);
    let len = if rest.len() < 56 { 64usize } else { 128 };
    with_length(marked(rest), len, bits)
}

/// Block `n` of a text and its padding, of which `end` has what is behind the last whole block of
/// the text. Behind the last block it is any block.
pub(crate) fn block_at<'a>(text: &'a [u8], end: &'a [u8; 128], n: usize) -> &'a [u8]
    requires { IsEnding end.now text.now }
    ensures length { length result.now ≡ 64 }
    ensures block { n < length (behind_key text.now) / 64 → result.now ≡ take 64 (drop (n * 64) (behind_key text.now)) }
{
    let whole = text.len() / BLOCK_LEN;
    if n < whole {
        &text[BLOCK_LEN * n..BLOCK_LEN * n + BLOCK_LEN]
    } else if n == whole {
        &end[..BLOCK_LEN]
    } else {
        &end[BLOCK_LEN..]
    }
}

/// For each message the word of `next` where `going` is 1, and else that of `state`.
#[inline(always)]
fn word_kept<const N: usize>(
    going: Simd<u32, N>,
    next: Simd<u32, N>,
    state: Simd<u32, N>,
) -> Simd<u32, N>
    ensures { (l : ℕ) → l < N → slice_index result l
        ≡ (if slice_index going.entry l == 1 then slice_index next.entry l else slice_index state.entry l) }
{
    going.simd_eq(Simd::splat(1)).select(next, state)
}

/// For each message the hash value of `next` where `going` is 1, and else that of `state`.
#[inline(always)]
pub(crate) fn kept<const N: usize>(
    going: Simd<u32, N>,
    next: &State<N>,
    state: &State<N>,
) -> State<N>
    ensures { (l : ℕ) → l < N
        → lane result l ≡ (if slice_index going.entry l == 1 then lane next.now l else lane state.now l) }
{
    let mut kept = *state;
    kept[0] = word_kept(going, next[0], state[0]);
    kept[1] = word_kept(going, next[1], state[1]);
    kept[2] = word_kept(going, next[2], state[2]);
    kept[3] = word_kept(going, next[3], state[3]);
    kept[4] = word_kept(going, next[4], state[4]);
    kept[5] = word_kept(going, next[5], state[5]);
    kept[6] = word_kept(going, next[6], state[6]);
    kept[7] = word_kept(going, next[7], state[7]);
    kept
}

/// 1 for each of N messages that has more blocks than `n`, and 0 for the others.
#[inline(always)]
pub(crate) fn going<const N: usize>(counts: &[usize; N], n: usize) -> Simd<u32, N>
    ensures { (l : ℕ) → l < N → slice_index result l ≡ (if nat_lt n (slice_index counts.now l) then 1 else 0) }
{
    let mut marks = [0u32; N];
    for l in 0..N {
        marks[l] = u32::from(n < counts[l]);
    }
    Simd::from_array(marks)
}

/// The most blocks of N messages.
pub(crate) fn most<const N: usize>(counts: &[usize; N]) -> usize
    ensures each { (l : ℕ) → l < N → slice_index counts.now l ≤ result }
    ensures least { (bound : ℕ) → ((l : ℕ) → l < N → slice_index counts.now l ≤ bound) → result ≤ bound }
{
    let mut most = 0usize;
    for l in 0..N {
        most = most.max(counts[l]);
    }
    most
}

/// The digest of message `place` (FIPS 180-4, 6.2.2).
pub(crate) fn digest<const N: usize>(state: &State<N>, place: usize) -> [u8; 32]
    requires { place < N }
    ensures { result ≡ digest_bytes (lane state.now place) 8 }
{
    let mut out = [0u8; 32];
    for i in 0..8usize {
        let word = state[i].to_array()[place];
        out[4 * i..4 * i + 4].copy_from_slice(&word.to_be_bytes());
    }
    out
}

/// The digests of four messages.
fn digests(state: &State<4>) -> [[u8; 32]; 4]
    ensures { result ≡ digest_bytes (lane state.now 0) 8 ∷ digest_bytes (lane state.now 1) 8
        ∷ digest_bytes (lane state.now 2) 8 ∷ digest_bytes (lane state.now 3) 8 ∷ [] }
{
    [
        digest(state, 0),
        digest(state, 1),
        digest(state, 2),
        digest(state, 3),
    ]
}

/// Computes HMAC-SHA-256 of four texts under `key`, side by side. The key and each text may have
/// any length.
///
/// It takes the time of the longest text, whatever the lengths of the others, so that texts of about
/// one length gain most.
///
/// Source: RFC 2104, section 2; FIPS 180-4, section 6.2.
pub fn hmac256_four(key: &[u8], texts: [&[u8]; 4]) -> [[u8; 32]; 4]
    ensures macs { result ≡ map (λ text. hmac256 key.now text.now) texts.entry }
{
    let block = block_of(key);
    let inner_block = padded(&block, INNER_PAD);
    let outer_block = padded(&block, OUTER_PAD);
    let inner = hashed(&keyed(&inner_block), &texts);
    let [a, b, c, d] = digests(&inner);
    let outer = hashed(&keyed(&outer_block), &[&a, &b, &c, &d]);
    digests(&outer)
}
