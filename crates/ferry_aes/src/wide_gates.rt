//! Wide planes of bits, and the gates on them.
ghost use Rattle.std.specs.Prelude.{ℕ, ◌≡◌, ◌<◌};
ghost use Rattle.ferry_aes.specs.Planes.{wire};
ghost use Rattle.ferry_aes.specs.Circuit.{add_bits, multiply_bits};

use std::simd::prelude::*;

/// Sixteen blocks of 16 bytes: the lower 16 bytes of the planes are the planes of the first eight, the higher ones those of the
/// eight behind these.
pub(crate) type WidePlanes = [u8x32; 8];

/// The sum of two planes, modulo 2.
#[inline(always)]
pub(crate) fn sum(a: u8x32, b: u8x32) -> u8x32
    ensures { (j i : ℕ) → j < 32 → wire result j i ≡ add_bits (wire a j i) (wire b j i) }
{
    a ^ b
}

/// The product of two planes.
#[inline(always)]
pub(crate) fn product(a: u8x32, b: u8x32) -> u8x32
    ensures { (j i : ℕ) → j < 32 → wire result j i ≡ multiply_bits (wire a j i) (wire b j i) }
{
    a & b
}

/// The negation of a plane.
#[inline(always)]
pub(crate) fn negated(a: u8x32) -> u8x32
    ensures { (j i : ℕ) → j < 32 → i < 8 → wire result j i ≡ add_bits (wire a j i) 1 }
{
    a ^ u8x32::splat(255)
}
