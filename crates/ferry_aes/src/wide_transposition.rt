//! The way of sixteen blocks into wide bit planes and out of them: bits and blocks change places in each half.
ghost use Rattle.std.specs.Prelude.{ℕ, ◌≡◌, ◌<◌, ◌+◌, ◌==◌, if◌then◌else◌, slice_index_or, []};
ghost use Rattle.std.specs.Int.{bit_at};
ghost use Rattle.ferry_aes.specs.Planes.{wire, raised_wire, low_wire, high_wire};

use crate::wide_gates::{WidePlanes, product, sum};
use std::simd::prelude::*;

/// The bits of `a` where `mask` has 1, and those of `b` elsewhere.
#[inline(always)]
fn chosen(a: u8x32, b: u8x32, mask: u8) -> u8x32
    ensures { (j i : ℕ) → j < 32 → i < 8 → wire result j i ≡ (if bit_at mask i == 1 then wire a j i else wire b j i) }
{
    let kept = product(a, u8x32::splat(mask));
    let others = product(b, u8x32::splat(!mask));
    sum(kept, others)
}

/// Each bit so many places higher.
#[inline(always)]
fn raised(a: u8x32, places: u8) -> u8x32
    requires { places < 8 }
    ensures { (j i : ℕ) → j < 32 → i < 8 → wire result j i ≡ raised_wire places a j i }
{
    a << u8x32::splat(places)
}

/// Each bit so many places lower.
#[inline(always)]
fn lowered(a: u8x32, places: u8) -> u8x32
    requires { places < 8 }
    ensures { (j i : ℕ) → j < 32 → wire result j i ≡ wire a j (places + i) }
{
    a >> u8x32::splat(places)
}

/// The lower of two planes that exchange bits: it keeps those in `mask`, and has those of `b` so many places higher.
#[inline(always)]
fn low(a: u8x32, b: u8x32, places: u8, mask: u8) -> u8x32
    requires { places < 8 }
    ensures { (j i : ℕ) → j < 32 → i < 8 → wire result j i ≡ low_wire places mask a b j i }
{
    let others = raised(b, places);
    chosen(a, others, mask)
}

/// The higher of two planes that exchange bits: in `mask` it has those of `a` so many places lower, and keeps the others.
#[inline(always)]
fn high(a: u8x32, b: u8x32, places: u8, mask: u8) -> u8x32
    requires { places < 8 }
    ensures { (j i : ℕ) → j < 32 → i < 8 → wire result j i ≡ high_wire places mask a b j i }
{
    let others = lowered(a, places);
    chosen(others, b, mask)
}

/// Bit k of block i becomes bit i of plane k, in each byte. It is its own inverse.
#[inline(always)]
pub(crate) fn transposed(x: &WidePlanes) -> WidePlanes
    ensures { (k i j : ℕ) → k < 8 → i < 8 → j < 32
        → wire (slice_index_or result k []) j i ≡ wire (slice_index_or x.now i []) j k }
{
    let p0 = low(x[0], x[4], 4, 0x0f);
    let p1 = low(x[1], x[5], 4, 0x0f);
    let p2 = low(x[2], x[6], 4, 0x0f);
    let p3 = low(x[3], x[7], 4, 0x0f);
    let p4 = high(x[0], x[4], 4, 0x0f);
    let p5 = high(x[1], x[5], 4, 0x0f);
    let p6 = high(x[2], x[6], 4, 0x0f);
    let p7 = high(x[3], x[7], 4, 0x0f);
    let q0 = low(p0, p2, 2, 0x33);
    let q1 = low(p1, p3, 2, 0x33);
    let q2 = high(p0, p2, 2, 0x33);
    let q3 = high(p1, p3, 2, 0x33);
    let q4 = low(p4, p6, 2, 0x33);
    let q5 = low(p5, p7, 2, 0x33);
    let q6 = high(p4, p6, 2, 0x33);
    let q7 = high(p5, p7, 2, 0x33);
    let r0 = low(q0, q1, 1, 0x55);
    let r1 = high(q0, q1, 1, 0x55);
    let r2 = low(q2, q3, 1, 0x55);
    let r3 = high(q2, q3, 1, 0x55);
    let r4 = low(q4, q5, 1, 0x55);
    let r5 = high(q4, q5, 1, 0x55);
    let r6 = low(q6, q7, 1, 0x55);
    let r7 = high(q6, q7, 1, 0x55);
    [r0, r1, r2, r3, r4, r5, r6, r7]
}
