//! The hash computation of SHA-256 (FIPS 180-4, 6.2.2) on a block of each of N messages, side by side.
ghost use Rattle.std.specs.Prelude.{ℕ, List, [], ◌∷◌, ◌≡◌, ◌≢◌, ◌<◌, ◌≤◌, ◌+◌, ◌*◌, length, slice_index, slice_index_or};
ghost use Rattle.sha2.specs.Sha256.{add32, add_state, big_sigma1, ch, compress, round, rounds, schedule, small_sigma0, small_sigma1, word_at};
ghost use Rattle.ferry_mac.specs.Lanes.{lane, lane_at, IsScheduled, HasRows, HasWords};

use crate::lanes::{big_sigma0, big_sigma1, ch, maj, small_sigma0, small_sigma1, sum};
use std::simd::prelude::*;

/// The hash values of N messages: vector i has word i of each.
pub(crate) type State<const N: usize> = [Simd<u32, N>; 8];

/// W of a block of each of N messages (6.2.2, step 1): row t has word t of each.
pub(crate) type Schedule<const N: usize> = [[u32; N]; 64];

/// K (4.2.2).
static ROUND_CONSTANTS: [u32; 64] = [
    0x428a2f98, 0x71374491, 0xb5c0fbcf, 0xe9b5dba5, 0x3956c25b, 0x59f111f1, 0x923f82a4, 0xab1c5ed5,
    0xd807aa98, 0x12835b01, 0x243185be, 0x550c7dc3, 0x72be5d74, 0x80deb1fe, 0x9bdc06a7, 0xc19bf174,
    0xe49b69c1, 0xefbe4786, 0x0fc19dc6, 0x240ca1cc, 0x2de92c6f, 0x4a7484aa, 0x5cb0a9dc, 0x76f988da,
    0x983e5152, 0xa831c66d, 0xb00327c8, 0xbf597fc7, 0xc6e00bf3, 0xd5a79147, 0x06ca6351, 0x14292967,
    0x27b70a85, 0x2e1b2138, 0x4d2c6dfc, 0x53380d13, 0x650a7354, 0x766a0abb, 0x81c2c92e, 0x92722c85,
    0xa2bfe8a1, 0xa81a664b, 0xc24b8b70, 0xc76c51a3, 0xd192e819, 0xd6990624, 0xf40e3585, 0x106aa070,
    0x19a4c116, 0x1e376c08, 0x2748774c, 0x34b0bcb5, 0x391c0cb3, 0x4ed8aa4a, 0x5b9cca4f, 0x682e6ff3,
    0x748f82ee, 0x78a5636f, 0x84c87814, 0x8cc70208, 0x90befffa, 0xa4506ceb, 0xbef9a3f7, 0xc67178f2,
];

/// Word `place` of a block, the highest byte first (5.2.1).
#[inline(always)]
fn word(block: &[u8], place: usize) -> u32
    requires length { length block.now ≡ 64 }
    requires place { place < 16 }
    ensures { result ≡ word_at block.now (4 * place) }
{
    u32::from_be_bytes([
        block[4 * place],
        block[4 * place + 1],
        block[4 * place + 2],
        block[4 * place + 3],
    ])
}

/// Puts the words of a block at the head of W of message `l`.
#[inline(always)]
pub(crate) fn put_words<const N: usize>(w: &mut Schedule<N>, l: usize, block: &[u8])
    requires lane { l < N }
    requires length { length block.now ≡ 64 }
    requires rows { HasRows w.old N }
    ensures rows { HasRows w.new N }
    ensures words { HasWords w.new l block.now }
    ensures others { (j : ℕ) (other : List ℕ) → j ≢ l → HasWords w.old j other → HasWords w.new j other }
{
    for place in 0..16usize {
        w[place][l] = word(block, place);
    }
}

/// A word of W from the words 2, 7, 15 and 16 places before it (6.2.2, step 1).
#[inline(always)]
fn next_word<const N: usize>(
    two: Simd<u32, N>,
    seven: Simd<u32, N>,
    fifteen: Simd<u32, N>,
    sixteen: Simd<u32, N>,
) -> Simd<u32, N>
    ensures { (l : ℕ) → l < N → slice_index result l ≡
        add32 (add32 (add32 (small_sigma1 (slice_index two.entry l)) (slice_index seven.entry l)) (small_sigma0 (slice_index fifteen.entry l)))
        (slice_index sixteen.entry l) }
{
    let near = sum(small_sigma1(two), seven);
    let far = sum(near, small_sigma0(fifteen));
    sum(far, sixteen)
}

/// The lanes of a vector.
#[inline(always)]
fn row<const N: usize>(vector: Simd<u32, N>) -> [u32; N]
    ensures length { length result ≡ N }
    ensures lanes { result ≡ vector.entry }
{
    vector.to_array()
}

/// Works out the words of W behind the first 16 (6.2.2, step 1).
#[inline(always)]
fn extend_schedule<const N: usize>(w: &mut Schedule<N>)
    requires rows { HasRows w.old N }
    ensures rows { HasRows w.new N }
    ensures words { (l : ℕ) (block : List ℕ) → l < N → HasWords w.old l block → IsScheduled w.new 64 l block }
{
    for t in 16..64usize {
        let next = next_word(
            Simd::from_array(w[t - 2]),
            Simd::from_array(w[t - 7]),
            Simd::from_array(w[t - 15]),
            Simd::from_array(w[t - 16]),
        );
        w[t] = row(next);
    }
}

/// T1 of a round (6.2.2, step 3).
#[inline(always)]
fn first_sum<const N: usize>(
    e: Simd<u32, N>,
    f: Simd<u32, N>,
    g: Simd<u32, N>,
    h: Simd<u32, N>,
    constant: u32,
    word: Simd<u32, N>,
) -> Simd<u32, N>
    ensures { (l : ℕ) → l < N → slice_index result l ≡
        add32 (add32 (add32 (add32 (slice_index h.entry l) (big_sigma1 (slice_index e.entry l)))
        (ch (slice_index e.entry l) (slice_index f.entry l) (slice_index g.entry l)))
        constant) (slice_index word.entry l) }
{
    let sigma = sum(h, big_sigma1(e));
    let chosen = sum(sigma, ch(e, f, g));
    let constant = sum(chosen, Simd::splat(constant));
    sum(constant, word)
}

/// A round on the working variables (6.2.2, step 3).
#[inline(always)]
fn round<const N: usize>(v: State<N>, constant: u32, word: Simd<u32, N>) -> State<N>
    ensures { (l : ℕ) → l < N → lane result l ≡ round (lane v.entry l) constant (slice_index word.entry l) }
{
    let [a, b, c, d, e, f, g, h] = v;
    let first = first_sum(e, f, g, h, constant, word);
    let second = sum(big_sigma0(a), maj(a, b, c));
    let mut next = v;
    next[0] = sum(first, second);
    next[1] = a;
    next[2] = b;
    next[3] = c;
    next[4] = sum(d, first);
    next[5] = e;
    next[6] = f;
    next[7] = g;
    next
}

/// Four rounds from round `t` on.
#[inline(always)]
fn four_rounds<const N: usize>(v: State<N>, w: &Schedule<N>, t: usize) -> State<N>
    requires { t + 4 ≤ 64 }
    ensures { (l : ℕ) (h block : List ℕ) → l < N → IsScheduled w.now 64 l block → lane v.entry l ≡ rounds h (schedule block 48) t
        → lane result l ≡ rounds h (schedule block 48) (t + 4) }
{
    let first = round(v, ROUND_CONSTANTS[t], Simd::from_array(w[t]));
    let second = round(first, ROUND_CONSTANTS[t + 1], Simd::from_array(w[t + 1]));
    let third = round(second, ROUND_CONSTANTS[t + 2], Simd::from_array(w[t + 2]));
    round(third, ROUND_CONSTANTS[t + 3], Simd::from_array(w[t + 3]))
}

/// The hash values `state` with the working variables added (6.2.2, step 4).
#[inline(always)]
fn added<const N: usize>(state: &State<N>, v: &State<N>) -> State<N>
    ensures { (l : ℕ) → l < N → lane result l ≡ add_state (lane state.now l) (lane v.now l) }
{
    let mut added = *state;
    added[0] = sum(state[0], v[0]);
    added[1] = sum(state[1], v[1]);
    added[2] = sum(state[2], v[2]);
    added[3] = sum(state[3], v[3]);
    added[4] = sum(state[4], v[4]);
    added[5] = sum(state[5], v[5]);
    added[6] = sum(state[6], v[6]);
    added[7] = sum(state[7], v[7]);
    added
}

/// The hash values of N messages after one more block of each, whose words `w` has at its head.
pub(crate) fn compressed<const N: usize>(state: &State<N>, w: &mut Schedule<N>) -> State<N>
    requires rows { HasRows w.old N }
    ensures rows { HasRows w.new N }
    ensures hash { (l : ℕ) (block : List ℕ) → l < N → HasWords w.old l block
        → lane result l ≡ compress (lane state.now l) block }
{
    extend_schedule(w);
    let mut v = *state;
    for turn in 0..16usize {
        let next = four_rounds(v, w, 4 * turn);
        v = next;
    }
    added(state, &v)
}
