//! The transformations of a round of AES, FIPS 197, sections 5.1.2 to 5.1.4, on sixteen blocks in wide bit planes: in
//! each half as on eight blocks in `planes.rt`.
ghost use Rattle.std.specs.Prelude.{ℕ, ◌≡◌, ◌<◌, ◌+◌, ◌*◌, ◌/◌, ◌%◌, bit_xor, slice_index};
ghost use Rattle.ferry_aes.specs.Field.{multiply};
ghost use Rattle.ferry_aes.specs.Planes.{byte_at, half, mixed_byte};

use crate::wide_gates::{WidePlanes, sum};
use std::simd::prelude::*;

/// Turns row r of each half left by r places, 5.1.2.
#[inline(always)]
fn turned_plane(plane: u8x32) -> u8x32
    ensures { (j : ℕ) → j < 32 → slice_index result j ≡ slice_index plane (j / 4 * 4 + (j + j / 4) % 4) }
{
    plane.swizzle([
        0, 1, 2, 3, 5, 6, 7, 4, 10, 11, 8, 9, 15, 12, 13, 14, 16, 17, 18, 19, 21, 22, 23, 20, 26,
        27, 24, 25, 31, 28, 29, 30,
    ])
}

/// Sets the row below in the place of each row, and the first row of a half in the place of its last.
#[inline(always)]
fn lower_plane(plane: u8x32) -> u8x32
    ensures { (j : ℕ) → j < 32 → slice_index result j ≡ slice_index plane (j / 16 * 16 + (j + 4) % 16) }
{
    plane.swizzle([
        4, 5, 6, 7, 8, 9, 10, 11, 12, 13, 14, 15, 0, 1, 2, 3, 20, 21, 22, 23, 24, 25, 26, 27, 28,
        29, 30, 31, 16, 17, 18, 19,
    ])
}

/// Sets the row that is two below in the place of each row, within each half.
#[inline(always)]
fn opposite_plane(plane: u8x32) -> u8x32
    ensures { (j : ℕ) → j < 32 → slice_index result j ≡ slice_index plane (j / 16 * 16 + (j + 8) % 16) }
{
    plane.swizzle([
        8, 9, 10, 11, 12, 13, 14, 15, 0, 1, 2, 3, 4, 5, 6, 7, 24, 25, 26, 27, 28, 29, 30, 31, 16,
        17, 18, 19, 20, 21, 22, 23,
    ])
}

/// SHIFTROWS, 5.1.2.
#[inline(always)]
pub(crate) fn turned(p: &WidePlanes) -> WidePlanes
    ensures { (h j i : ℕ) → h < 2 → j < 16 → byte_at (half h result) j i ≡ byte_at (half h p.now) (j / 4 * 4 + (j + j / 4) % 4) i }
{
    [
        turned_plane(p[0]),
        turned_plane(p[1]),
        turned_plane(p[2]),
        turned_plane(p[3]),
        turned_plane(p[4]),
        turned_plane(p[5]),
        turned_plane(p[6]),
        turned_plane(p[7]),
    ]
}

/// The row below each row.
#[inline(always)]
fn lower(p: &WidePlanes) -> WidePlanes
    ensures { (h j i : ℕ) → h < 2 → j < 16 → byte_at (half h result) j i ≡ byte_at (half h p.now) ((j + 4) % 16) i }
{
    [
        lower_plane(p[0]),
        lower_plane(p[1]),
        lower_plane(p[2]),
        lower_plane(p[3]),
        lower_plane(p[4]),
        lower_plane(p[5]),
        lower_plane(p[6]),
        lower_plane(p[7]),
    ]
}

/// The row that is two below each row.
#[inline(always)]
fn opposite(p: &WidePlanes) -> WidePlanes
    ensures { (h j i : ℕ) → h < 2 → j < 16 → byte_at (half h result) j i ≡ byte_at (half h p.now) ((j + 8) % 16) i }
{
    [
        opposite_plane(p[0]),
        opposite_plane(p[1]),
        opposite_plane(p[2]),
        opposite_plane(p[3]),
        opposite_plane(p[4]),
        opposite_plane(p[5]),
        opposite_plane(p[6]),
        opposite_plane(p[7]),
    ]
}

/// Adds the bytes of blocks by xor, 4.1.
#[inline(always)]
pub(crate) fn added(a: &WidePlanes, b: &WidePlanes) -> WidePlanes
    ensures { (h j i : ℕ) → h < 2 → j < 16
        → byte_at (half h result) j i ≡ bit_xor (byte_at (half h a.now) j i) (byte_at (half h b.now) j i) }
{
    [
        sum(a[0], b[0]),
        sum(a[1], b[1]),
        sum(a[2], b[2]),
        sum(a[3], b[3]),
        sum(a[4], b[4]),
        sum(a[5], b[5]),
        sum(a[6], b[6]),
        sum(a[7], b[7]),
    ]
}

/// The product of each byte and x in GF(2^8), XTIMES of 4.2.
#[inline(always)]
fn doubled(p: &WidePlanes) -> WidePlanes
    ensures { (h j i : ℕ) → h < 2 → j < 16 → byte_at (half h result) j i ≡ multiply 2 (byte_at (half h p.now) j i) }
{
    let one = sum(p[0], p[7]);
    let three = sum(p[2], p[7]);
    let four = sum(p[3], p[7]);
    [p[7], one, p[1], three, four, p[4], p[5], p[6]]
}

/// MIXCOLUMNS, 5.1.3: with the rows b, c and d below a row a, 2(a + b) + b + (c + d).
#[inline(always)]
pub(crate) fn mixed(a: &WidePlanes) -> WidePlanes
    ensures { (h j i : ℕ) → h < 2 → j < 16 → byte_at (half h result) j i ≡ mixed_byte (λ k. byte_at (half h a.now) (k % 16) i) j }
{
    let below = lower(a);
    let pairs = added(a, &below);
    let others = opposite(&pairs);
    let twice = doubled(&pairs);
    let near = added(&twice, &below);
    added(&near, &others)
}
