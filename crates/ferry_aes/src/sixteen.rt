//! The cipher of AES-256, FIPS 197, section 5.1, on sixteen blocks at a time, in wide bit planes.
ghost use Rattle.std.specs.Prelude.{ℕ, List, ◌≡◌, ◌<◌};
ghost use Rattle.ferry_aes.specs.State.{state_of};
ghost use Rattle.ferry_aes.specs.Rounds.{sub_bytes, shift_rows, mix_columns, add_round_key};
ghost use Rattle.ferry_aes.specs.Cipher.{round, last_round, cipher};
ghost use Rattle.ferry_aes.specs.Planes.{state_at, block_at, half, IsRoundKey, AreRoundKeys, AreWideRoundKeys};

use crate::gates::Planes;
use crate::halves::paired;
use crate::wide_circuit::substituted_planes;
use crate::wide_gates::WidePlanes;
use crate::wide_planes::{added, mixed, turned};
use crate::wide_transposition::transposed;
use std::simd::prelude::*;

/// The number of rounds of AES-256, table 3.
const ROUNDS: usize = 14;

/// The wide planes of the 15 round keys, each key for each of sixteen blocks.
pub(crate) fn wide_round_keys(keys: &[Planes; 15]) -> [WidePlanes; 15]
    ensures { (w : List (List ℕ)) → AreRoundKeys w keys.now → AreWideRoundKeys w result }
{
    let mut wide = [[u8x32::splat(0); 8]; 15];
    for number in 0..15usize {
        wide[number] = paired(&keys[number], &keys[number]);
    }
    wide
}

/// What follows SubBytes in a round before the last one.
#[inline(always)]
fn behind_sub_bytes(subbed: &WidePlanes, key: &WidePlanes) -> WidePlanes
    ensures { (w : List (List ℕ)) (n h i : ℕ) → h < 2 → IsRoundKey w n (half h key.now) → i < 8
        → state_at (half h result) i ≡ add_round_key w n (mix_columns (shift_rows (state_at (half h subbed.now) i))) }
{
    let shifted = turned(subbed);
    let mixed_state = mixed(&shifted);
    added(&mixed_state, key)
}

/// A round before the last one.
#[inline(always)]
fn full_round(state: &WidePlanes, key: &WidePlanes) -> WidePlanes
    ensures { (w : List (List ℕ)) (n h i : ℕ) → h < 2 → IsRoundKey w n (half h key.now) → i < 8
        → state_at (half h result) i ≡ round w n (state_at (half h state.now) i) }
{
    let subbed = substituted_planes(state);
    behind_sub_bytes(&subbed, key)
}

/// The last round, which has no MixColumns.
#[inline(always)]
fn final_round(state: &WidePlanes, key: &WidePlanes) -> WidePlanes
    ensures { (w : List (List ℕ)) (h i : ℕ) → h < 2 → IsRoundKey w 14 (half h key.now) → i < 8
        → state_at (half h result) i ≡ last_round w (state_at (half h state.now) i) }
{
    let subbed = substituted_planes(state);
    let shifted = turned(&subbed);
    added(&shifted, key)
}

/// The sixteen blocks that blocks become whose states after SubBytes of round 1 are `subbed`.
pub(crate) fn finished(keys: &[WidePlanes; 15], subbed: &WidePlanes) -> WidePlanes
    ensures { (w : List (List ℕ)) (input : List ℕ) (h i : ℕ) → AreWideRoundKeys w keys.now → h < 2 → i < 8
        → state_at (half h subbed.now) i ≡ sub_bytes (add_round_key w 0 (state_of input)) → block_at (half h result) i ≡ cipher w input }
{
    let mut state = behind_sub_bytes(subbed, &keys[1]);
    for number in 2..ROUNDS {
        let next = full_round(&state, &keys[number]);
        state = next;
    }
    let last = final_round(&state, &keys[ROUNDS]);
    transposed(&last)
}
