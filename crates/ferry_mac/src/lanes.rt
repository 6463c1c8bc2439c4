//! The functions of SHA-256 on words of 32 bits (FIPS 180-4, 3.2 and 4.1.2), N words side by side.
ghost use Rattle.std.specs.Prelude.{ℕ, ◌≡◌, ◌<◌, ◌/◌, ◌^◌, bit_xor, slice_index};
ghost use Rattle.std.specs.Int.{w32, rotate_right};
ghost use Rattle.sha2.specs.Sha256.{add32, big_sigma0, big_sigma1, ch, maj, small_sigma0, small_sigma1};

use std::simd::prelude::*;

/// The sum of two words, modulo 2^32.
#[inline(always)]
pub(crate) fn sum<const N: usize>(x: Simd<u32, N>, y: Simd<u32, N>) -> Simd<u32, N>
    ensures { (lane : ℕ) → lane < N → slice_index result lane ≡ add32 (slice_index x.entry lane) (slice_index y.entry lane) }
{
    x + y
}

/// ROTR by `count` bits.
#[inline(always)]
fn rotated<const N: usize>(x: Simd<u32, N>, count: u32) -> Simd<u32, N>
    requires low { 0 < count }
    requires high { count < 32 }
    ensures { (lane : ℕ) → lane < N → slice_index result lane ≡ rotate_right w32 (slice_index x.entry lane) count }
{
    (x >> Simd::splat(count)) | (x << Simd::splat(32 - count))
}

/// SHR by `count` bits.
#[inline(always)]
fn shifted<const N: usize>(x: Simd<u32, N>, count: u32) -> Simd<u32, N>
    requires { count < 32 }
    ensures { (lane : ℕ) → lane < N → slice_index result lane ≡ slice_index x.entry lane / 2 ^ count }
{
    x >> Simd::splat(count)
}

/// Three words under xor.
#[inline(always)]
fn xor_of_three<const N: usize>(x: Simd<u32, N>, y: Simd<u32, N>, z: Simd<u32, N>) -> Simd<u32, N>
    ensures { (lane : ℕ) → lane < N
        → slice_index result lane ≡ bit_xor (bit_xor (slice_index x.entry lane) (slice_index y.entry lane)) (slice_index z.entry lane) }
{
    x ^ y ^ z
}

/// The upper case sigma 0.
#[inline(always)]
pub(crate) fn big_sigma0<const N: usize>(x: Simd<u32, N>) -> Simd<u32, N>
    ensures { (lane : ℕ) → lane < N → slice_index result lane ≡ big_sigma0 (slice_index x.entry lane) }
{
    xor_of_three(rotated(x, 2), rotated(x, 13), rotated(x, 22))
}

/// The upper case sigma 1.
#[inline(always)]
pub(crate) fn big_sigma1<const N: usize>(x: Simd<u32, N>) -> Simd<u32, N>
    ensures { (lane : ℕ) → lane < N → slice_index result lane ≡ big_sigma1 (slice_index x.entry lane) }
{
    xor_of_three(rotated(x, 6), rotated(x, 11), rotated(x, 25))
}

/// The lower case sigma 0.
#[inline(always)]
pub(crate) fn small_sigma0<const N: usize>(x: Simd<u32, N>) -> Simd<u32, N>
    ensures { (lane : ℕ) → lane < N → slice_index result lane ≡ small_sigma0 (slice_index x.entry lane) }
{
    xor_of_three(rotated(x, 7), rotated(x, 18), shifted(x, 3))
}

/// The lower case sigma 1.
#[inline(always)]
pub(crate) fn small_sigma1<const N: usize>(x: Simd<u32, N>) -> Simd<u32, N>
    ensures { (lane : ℕ) → lane < N → slice_index result lane ≡ small_sigma1 (slice_index x.entry lane) }
{
    xor_of_three(rotated(x, 17), rotated(x, 19), shifted(x, 10))
}

/// Ch.
#[inline(always)]
pub(crate) fn ch<const N: usize>(x: Simd<u32, N>, y: Simd<u32, N>, z: Simd<u32, N>) -> Simd<u32, N>
    ensures { (lane : ℕ) → lane < N → slice_index result lane ≡ ch (slice_index x.entry lane) (slice_index y.entry lane) (slice_index z.entry lane) }
{
    (x & y) ^ (!x & z)
}

/// Maj.
#[inline(always)]
pub(crate) fn maj<const N: usize>(x: Simd<u32, N>, y: Simd<u32, N>, z: Simd<u32, N>) -> Simd<u32, N>
    ensures { (lane : ℕ) → lane < N → slice_index result lane ≡ maj (slice_index x.entry lane) (slice_index y.entry lane) (slice_index z.entry lane) }
{
    (x & y) ^ (x & z) ^ (y & z)
}
