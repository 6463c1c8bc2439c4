//! Plain loops over bytes, and a loop over vectors of 32 bytes where it is faster.
ghost use Rattle.std.specs.Prelude.{ℕ, ◌≡◌, ◌≢◌, ◌<◌, ◌≤◌, ◌+◌, ◌↔◌, IsTrue, All, length, take, slice_index};
ghost use Rattle.ferry_lanes.specs.Bytes.{xor_lists, leading_zeros};

use std::simd::prelude::*;

/// The number of bytes in a vector.
const LANES: usize = 32;

/// Adds `with` to `into` by xor, byte by byte.
pub fn xor_into(into: &mut [u8], with: &[u8])
    requires same_length { length into.old ≡ length with.now }
    ensures sum { into.new ≡ xor_lists into.old with.now }
{
    for i in 0..into.len() {
        into[i] ^= with[i];
    }
}

/// Whether the vector from byte `at` on has only zero bytes.
#[inline(always)]
fn is_zero_vector(bytes: &[u8], at: usize) -> bool
    requires { at + 32 ≤ length bytes.now }
    ensures { IsTrue result → (k : ℕ) → at ≤ k → k < at + 32 → slice_index bytes.now k ≡ 0 }
{
    let vector = u8x32::from_slice(&bytes[at..]);
    vector.simd_ne(u8x32::splat(0)).to_bitmask() == 0
}

/// The number of bytes in the whole vectors of zero bytes that `bytes` begins with.
fn zero_vectors(bytes: &[u8]) -> usize
    ensures zeros { (k : ℕ) → k < result → slice_index bytes.now k ≡ 0 }
    ensures within { result ≤ length bytes.now }
{
    for number in 0..bytes.len() / LANES {
        if !is_zero_vector(bytes, LANES * number) {
            return LANES * number;
        }
    }
    bytes.len() / LANES * LANES
}

/// The number of zero bytes that `bytes` begins with.
pub fn zero_prefix(bytes: &[u8]) -> usize
    ensures count { result ≡ leading_zeros bytes.now }
    ensures zeros { All (λ byte. byte ≡ 0) (take result bytes.now) }
    ensures end { result < length bytes.now → slice_index bytes.now result ≢ 0 }
    ensures within { result ≤ length bytes.now }
{
    for i in zero_vectors(bytes)..bytes.len() {
        if bytes[i] != 0 {
            return i;
        }
    }
    bytes.len()
}

/// Whether two lists of bytes are equal. All bytes are looked at, also behind a difference.
pub fn same(left: &[u8], right: &[u8]) -> bool
    ensures equal { IsTrue result ↔ (left.now ≡ right.now) }
{
    if left.len() != right.len() {
        return false;
    }
    let mut difference = 0u8;
    for (a, b) in left.iter().zip(right) {
        difference |= *a ^ *b;
    }
    difference == 0
}
