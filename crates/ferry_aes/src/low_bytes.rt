//! The lowest bytes of 256 counters that follow each other, in bit planes: all that the counter blocks of such counters differ
//! in, but where a byte is carried over.
ghost use Rattle.std.specs.Prelude.{ℕ, ◌≡◌, ◌<◌, ◌+◌, ◌*◌, ◌%◌, bit_xor, slice_index, slice_index_or, []};
ghost use Rattle.ferry_aes.specs.SBox.{sbox};
ghost use Rattle.ferry_aes.specs.Planes.{byte_at};

use crate::circuit::substituted_planes;
use crate::gates::Planes;
use crate::planes::added;
use crate::transposition::transposed;
use std::simd::prelude::*;

/// Every eighth number from `first` on, modulo 256.
#[inline(always)]
fn eighths(first: u8) -> u8x16
    ensures { (j : ℕ) → j < 16 → slice_index result j ≡ (first + 8 * j) % 256 }
{
    let steps = u8x16::from_array([
        0, 8, 16, 24, 32, 40, 48, 56, 64, 72, 80, 88, 96, 104, 112, 120,
    ]);
    u8x16::splat(first) + steps
}

/// The numbers from `first` on, modulo 256, eight in byte j of the eight vectors.
#[inline(always)]
fn numbers(first: u8) -> Planes
    ensures { (j i : ℕ) → j < 16 → i < 8 → slice_index (slice_index_or result i []) j ≡ (first + 8 * j + i) % 256 }
{
    [
        eighths(first),
        eighths(first.wrapping_add(1)),
        eighths(first.wrapping_add(2)),
        eighths(first.wrapping_add(3)),
        eighths(first.wrapping_add(4)),
        eighths(first.wrapping_add(5)),
        eighths(first.wrapping_add(6)),
        eighths(first.wrapping_add(7)),
    ]
}

/// Sets the last byte in the place of each.
#[inline(always)]
fn last_of(plane: u8x16) -> u8x16
    ensures { (j : ℕ) → j < 16 → slice_index result j ≡ slice_index plane 15 }
{
    plane.swizzle([
        15, 15, 15, 15, 15, 15, 15, 15, 15, 15, 15, 15, 15, 15, 15, 15,
    ])
}

/// The last byte of each block in the place of each of its bytes.
#[inline(always)]
fn lasts_of(p: &Planes) -> Planes
    ensures { (j i : ℕ) → j < 16 → byte_at result j i ≡ byte_at p.now 15 i }
{
    [
        last_of(p[0]),
        last_of(p[1]),
        last_of(p[2]),
        last_of(p[3]),
        last_of(p[4]),
        last_of(p[5]),
        last_of(p[6]),
        last_of(p[7]),
    ]
}

/// What the first AddRoundKey and SubBytes of round 1 make of the lowest bytes of 128 counters, of which the first has `first`.
/// `key` has the planes of the first round key.
fn low_bytes(key: &Planes, first: u8) -> Planes
    ensures { (j i : ℕ) → j < 16 → i < 8 → byte_at result j i ≡ sbox (bit_xor ((first + 8 * j + i) % 256) (byte_at key.now 15 i)) }
{
    let into = transposed(&numbers(first));
    let key_bytes = lasts_of(key);
    let state = added(&into, &key_bytes);
    substituted_planes(&state)
}

/// The same of 256 counters: those of 128, and of the 128 behind these.
pub(crate) fn all_low_bytes(key: &Planes, first: u8) -> [Planes; 2]
    ensures { (h j i : ℕ) → h < 2 → j < 16 → i < 8
        → byte_at (slice_index_or result h []) j i ≡ sbox (bit_xor ((first + 128 * h + 8 * j + i) % 256) (byte_at key.now 15 i)) }
{
    [
        low_bytes(key, first),
        low_bytes(key, first.wrapping_add(128)),
    ]
}

/// A plane with another last byte, byte `place` of `lows`.
#[inline(always)]
fn with_last(plane: u8x16, lows: u8x16, place: usize) -> u8x16
    requires { place < 16 }
    ensures others { (j : ℕ) → j < 15 → slice_index result j ≡ slice_index plane j }
    ensures last { slice_index result 15 ≡ slice_index lows place }
{
    let bytes = lows.to_array();
    let mut lanes = plane.to_array();
    lanes[15] = bytes[place];
    u8x16::from_array(lanes)
}

/// Blocks with another last byte each, byte `place` of those of `lows`.
#[inline(always)]
pub(crate) fn with_lasts(p: &Planes, lows: &Planes, place: usize) -> Planes
    requires { place < 16 }
    ensures others { (j i : ℕ) → j < 15 → byte_at result j i ≡ byte_at p.now j i }
    ensures last { (i : ℕ) → byte_at result 15 i ≡ byte_at lows.now place i }
{
    [
        with_last(p[0], lows[0], place),
        with_last(p[1], lows[1], place),
        with_last(p[2], lows[2], place),
        with_last(p[3], lows[3], place),
        with_last(p[4], lows[4], place),
        with_last(p[5], lows[5], place),
        with_last(p[6], lows[6], place),
        with_last(p[7], lows[7], place),
    ]
}
