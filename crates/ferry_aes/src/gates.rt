//! Planes of bits, and the gates on them.
ghost use Rattle.std.specs.Prelude.{ℕ, ◌≡◌, ◌<◌};
ghost use Rattle.ferry_aes.specs.Planes.{wire};
ghost use Rattle.ferry_aes.specs.Circuit.{add_bits, multiply_bits};

use std::simd::prelude::*;

/// Eight blocks of 16 bytes: bit i of byte j of plane k is bit k of byte j of block i.
pub(crate) type Planes = [u8x16; 8];

/// The sum of two planes, modulo 2.
#[inline(always)]
pub(crate) fn sum(a: u8x16, b: u8x16) -> u8x16
    ensures { (j i : ℕ) → j < 16 → wire result j i ≡ add_bits (wire a j i) (wire b j i) }
{
    a ^ b
}

/// The product of two planes.
#[inline(always)]
pub(crate) fn product(a: u8x16, b: u8x16) -> u8x16
    ensures { (j i : ℕ) → j < 16 → wire result j i ≡ multiply_bits (wire a j i) (wire b j i) }
{
    a & b
}

/// The negation of a plane.
#[inline(always)]
pub(crate) fn negated(a: u8x16) -> u8x16
    ensures { (j i : ℕ) → j < 16 → i < 8 → wire result j i ≡ add_bits (wire a j i) 1 }
{
    a ^ u8x16::splat(255)
}
