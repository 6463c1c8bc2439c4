//! Sixteen blocks in wide planes as two times eight blocks in planes.
ghost use Rattle.std.specs.Prelude.{ℕ, ◌≡◌, ◌<◌, ◌+◌, take, drop, slice_index};
ghost use Rattle.ferry_aes.specs.Planes.{byte_at, half};

use crate::gates::Planes;
use crate::wide_gates::WidePlanes;
use std::simd::prelude::*;

/// A plane of eight blocks, and behind it that of eight further ones.
#[inline(always)]
fn paired_plane(low: u8x16, high: u8x16) -> u8x32
    ensures first { (j : ℕ) → j < 16 → slice_index result j ≡ slice_index low j }
    ensures second { (j : ℕ) → j < 16 → slice_index result (16 + j) ≡ slice_index high j }
{
    low.shuffle(
        high,
        [
            0, 1, 2, 3, 4, 5, 6, 7, 8, 9, 10, 11, 12, 13, 14, 15, 16, 17, 18, 19, 20, 21, 22, 23,
            24, 25, 26, 27, 28, 29, 30, 31,
        ],
    )
}

/// The wide planes of eight blocks and of eight further ones.
#[inline(always)]
pub(crate) fn paired(low: &Planes, high: &Planes) -> WidePlanes
    ensures first { (j i : ℕ) → j < 16 → byte_at (half 0 result) j i ≡ byte_at low.now j i }
    ensures second { (j i : ℕ) → j < 16 → byte_at (half 1 result) j i ≡ byte_at high.now j i }
{
    [
        paired_plane(low[0], high[0]),
        paired_plane(low[1], high[1]),
        paired_plane(low[2], high[2]),
        paired_plane(low[3], high[3]),
        paired_plane(low[4], high[4]),
        paired_plane(low[5], high[5]),
        paired_plane(low[6], high[6]),
        paired_plane(low[7], high[7]),
    ]
}

/// The first 16 bytes of a wide plane.
#[inline(always)]
fn low_plane(plane: u8x32) -> u8x16
    ensures { result ≡ take 16 (drop 0 plane) }
{
    plane.extract::<0, 16>()
}

/// The last 16 bytes of a wide plane.
#[inline(always)]
fn high_plane(plane: u8x32) -> u8x16
    ensures { result ≡ take 16 (drop 16 plane) }
{
    plane.extract::<16, 16>()
}

/// The planes of the first eight blocks.
#[inline(always)]
pub(crate) fn low_half(planes: &WidePlanes) -> Planes
    ensures { result ≡ half 0 planes.now }
{
    [
        low_plane(planes[0]),
        low_plane(planes[1]),
        low_plane(planes[2]),
        low_plane(planes[3]),
        low_plane(planes[4]),
        low_plane(planes[5]),
        low_plane(planes[6]),
        low_plane(planes[7]),
    ]
}

/// The planes of the eight blocks behind the first eight.
#[inline(always)]
pub(crate) fn high_half(planes: &WidePlanes) -> Planes
    ensures { result ≡ half 1 planes.now }
{
    [
        high_plane(planes[0]),
        high_plane(planes[1]),
        high_plane(planes[2]),
        high_plane(planes[3]),
        high_plane(planes[4]),
        high_plane(planes[5]),
        high_plane(planes[6]),
        high_plane(planes[7]),
    ]
}
