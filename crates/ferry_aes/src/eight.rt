//! The cipher of AES-256, FIPS 197, section 5.1, on eight blocks at a time, in bit planes.
ghost use Rattle.std.specs.Prelude.{ℕ, List, ◌≡◌, ◌<◌, ◌≤◌, ◌+◌, ◌*◌, slice_index, slice_index_or, []};
ghost use Rattle.ferry_aes.specs.State.{word, state_of};
ghost use Rattle.ferry_aes.specs.Rounds.{sub_bytes, shift_rows, mix_columns, add_round_key};
ghost use Rattle.ferry_aes.specs.Cipher.{round, last_round, cipher};
ghost use Rattle.ferry_aes.specs.Planes.{byte_at, state_at, block_at, AreRoundKeys, IsRoundKey};

use crate::circuit::substituted_planes;
use crate::gates::Planes;
use crate::planes::{added, mixed, turned};
use crate::transposition::transposed;
use std::simd::prelude::*;

/// The number of rounds of AES-256, table 3.
const ROUNDS: usize = 14;

/// The planes of the same block eight times.
fn repeated(block: u8x16) -> Planes
    ensures { (j i : ℕ) → j < 16 → i < 8 → byte_at result j i ≡ slice_index block j }
{
    transposed(&[block, block, block, block, block, block, block, block])
}

/// The planes of the round key of a round, words 4 * number to 4 * number + 3 of the expanded key, 5.1.4.
fn round_key(words: &[[u8; 4]; 60], number: usize) -> Planes
    requires { number ≤ 14 }
    ensures { IsRoundKey words.now number result }
{
    let a = words[4 * number];
    let b = words[4 * number + 1];
    let c = words[4 * number + 2];
    let d = words[4 * number + 3];
    let rows = u8x16::from_array([
        a[0], b[0], c[0], d[0], // row 0
        a[1], b[1], c[1], d[1], // row 1
        a[2], b[2], c[2], d[2], // row 2
        a[3], b[3], c[3], d[3], // row 3
    ]);
    repeated(rows)
}

/// The planes of the 15 round keys.
pub(crate) fn round_keys(words: &[[u8; 4]; 60]) -> [Planes; 15]
    ensures { AreRoundKeys words.now result }
{
    let mut keys = [[u8x16::splat(0); 8]; 15];
    for number in 0..15usize {
        keys[number] = round_key(words, number);
    }
    keys
}

/// What follows SubBytes in a round before the last one.
#[inline(always)]
fn behind_sub_bytes(subbed: &Planes, key: &Planes) -> Planes
    ensures { (w : List (List ℕ)) (n i : ℕ) → IsRoundKey w n key.now → i < 8
        → state_at result i ≡ add_round_key w n (mix_columns (shift_rows (state_at subbed.now i))) }
{
    let shifted = turned(subbed);
    let mixed_state = mixed(&shifted);
    added(&mixed_state, key)
}

/// A round before the last one.
#[inline(always)]
fn full_round(state: &Planes, key: &Planes) -> Planes
    ensures { (w : List (List ℕ)) (n i : ℕ) → IsRoundKey w n key.now → i < 8 → state_at result i ≡ round w n (state_at state.now i) }
{
    let subbed = substituted_planes(state);
    behind_sub_bytes(&subbed, key)
}

/// The last round, which has no MixColumns.
#[inline(always)]
fn final_round(state: &Planes, key: &Planes) -> Planes
    ensures { (w : List (List ℕ)) (i : ℕ) → IsRoundKey w 14 key.now → i < 8 → state_at result i ≡ last_round w (state_at state.now i) }
{
    let subbed = substituted_planes(state);
    let shifted = turned(&subbed);
    added(&shifted, key)
}

/// The states of eight blocks after SubBytes of round 1. Each vector of `rows` has one block, its bytes by rows.
pub(crate) fn first_substituted(keys: &[Planes; 15], rows: &Planes) -> Planes
    ensures { (w : List (List ℕ)) (i : ℕ) → AreRoundKeys w keys.now → i < 8
        → state_at result i ≡ sub_bytes (add_round_key w 0 (state_of (block_at rows.now i))) }
{
    let into = transposed(rows);
    let state = added(&into, &keys[0]);
    substituted_planes(&state)
}

/// The eight blocks that blocks become whose states after SubBytes of round 1 are `subbed`.
pub(crate) fn finished(keys: &[Planes; 15], subbed: &Planes) -> Planes
    ensures { (w : List (List ℕ)) (input : List ℕ) (i : ℕ) → AreRoundKeys w keys.now → i < 8
        → state_at subbed.now i ≡ sub_bytes (add_round_key w 0 (state_of input)) → block_at result i ≡ cipher w input }
{
    let mut state = behind_sub_bytes(subbed, &keys[1]);
    for number in 2..ROUNDS {
        let next = full_round(&state, &keys[number]);
        state = next;
    }
    let last = final_round(&state, &keys[ROUNDS]);
    transposed(&last)
}

/// The eight blocks that `rows` become. Each vector has one block, its bytes by rows.
pub(crate) fn eight_blocks(keys: &[Planes; 15], rows: &Planes) -> Planes
    ensures { (w : List (List ℕ)) (i : ℕ) → AreRoundKeys w keys.now → i < 8 → block_at result i ≡ cipher w (block_at rows.now i) }
{
    let subbed = first_substituted(keys, rows);
    finished(keys, &subbed)
}
