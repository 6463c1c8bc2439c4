//! The cipher of AES-256, FIPS 197, section 5.1.
ghost use Rattle.std.specs.Prelude.{◌≡◌, ◌≤◌, ◌<◌};
ghost use Rattle.ferry_aes.specs.State.{state_of, block_of};
ghost use Rattle.ferry_aes.specs.Cipher.{round, last_round, cipher};

use crate::rounds::{add_round_key, mix_columns, shift_rows, sub_bytes};

/// The number of rounds of AES-256, table 3.
const ROUNDS: usize = 14;

/// A round before the last one.
fn full_round(state: &mut [u8; 16], words: &[[u8; 4]; 60], number: usize)
    requires { number ≤ 14 }
    ensures { state.new ≡ block_of (round words.now number (state_of state.old)) }
{
    sub_bytes(state);
    *state = mix_columns(&shift_rows(state));
    add_round_key(state, words, number);
}

/// The last round, which has no MixColumns.
fn final_round(state: &mut [u8; 16], words: &[[u8; 4]; 60])
    ensures { state.new ≡ block_of (last_round words.now (state_of state.old)) }
{
    sub_bytes(state);
    *state = shift_rows(state);
    add_round_key(state, words, ROUNDS);
}

/// The block that `input` becomes under an expanded key.
pub(crate) fn encrypted(words: &[[u8; 4]; 60], input: &[u8; 16]) -> [u8; 16]
    ensures { result ≡ cipher words.now input.now }
{
    let mut state = *input;
    add_round_key(&mut state, words, 0);
    for number in 1..ROUNDS {
        full_round(&mut state, words, number);
    }
    final_round(&mut state, words);
    state
}
