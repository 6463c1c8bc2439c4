//! The transformations of a round of AES, FIPS 197, sections 5.1.1 to 5.1.4, on a block of 16 bytes
//! in the order of its columns: byte r + 4c of the block is s[r,c] of the state.
ghost use Rattle.std.specs.Prelude.{◌≡◌, ◌+◌, ◌*◌, ◌≤◌, length};
ghost use Rattle.ferry_aes.specs.Field.{multiply};
ghost use Rattle.ferry_aes.specs.State.{state_of, block_of};
ghost use Rattle.ferry_aes.specs.Rounds.{sub_bytes, shift_rows, mix_column, mix_columns, add_round_key};

use crate::substitution::substituted;

/// Replaces each byte by its S-box value, 5.1.1.
pub(crate) fn sub_bytes(state: &mut [u8; 16])
    ensures { state.new ≡ block_of (sub_bytes (state_of state.old)) }
{
    for byte in state.iter_mut() {
        *byte = substituted(*byte);
    }
}

/// Turns row r left by r places, 5.1.2.
#[tactic(auto, unfolding(crate::specs::State::state_of, crate::specs::State::block_of, crate::specs::Rounds::shift_rows))]
pub(crate) fn shift_rows(s: &[u8; 16]) -> [u8; 16]
    ensures { result ≡ block_of (shift_rows (state_of s.now)) }
{
    [
        s[0], s[5], s[10], s[15], // column 0
        s[4], s[9], s[14], s[3], // column 1
        s[8], s[13], s[2], s[7], // column 2
        s[12], s[1], s[6], s[11], // column 3
    ]
}

/// The product of a byte and x in GF(2^8), XTIMES of 4.2.
fn doubled(byte: u8) -> u8
    ensures { result ≡ multiply 2 byte }
{
    let shifted = byte << 1;
    if byte < 0x80 { shifted } else { shifted ^ 0x1b }
}

/// The product of a byte and x + 1 in GF(2^8).
fn tripled(byte: u8) -> u8
    ensures { result ≡ multiply 3 byte }
{
    doubled(byte) ^ byte
}

/// Mixes the four bytes of a column, 5.1.3.
#[tactic(auto, unfolding(crate::specs::Rounds::mix_column))]
fn mix_column(s0: u8, s1: u8, s2: u8, s3: u8) -> [u8; 4]
    ensures { result ≡ mix_column s0 s1 s2 s3 }
{
    [
        doubled(s0) ^ tripled(s1) ^ s2 ^ s3,
        s0 ^ doubled(s1) ^ tripled(s2) ^ s3,
        s0 ^ s1 ^ doubled(s2) ^ tripled(s3),
        tripled(s0) ^ s1 ^ s2 ^ doubled(s3),
    ]
}

/// Mixes each column, 5.1.3.
#[tactic(auto, unfolding(crate::specs::State::state_of, crate::specs::State::block_of, crate::specs::Rounds::mix_columns))]
pub(crate) fn mix_columns(s: &[u8; 16]) -> [u8; 16]
    ensures { result ≡ block_of (mix_columns (state_of s.now)) }
{
    let [a0, a1, a2, a3] = mix_column(s[0], s[1], s[2], s[3]);
    let [b0, b1, b2, b3] = mix_column(s[4], s[5], s[6], s[7]);
    let [c0, c1, c2, c3] = mix_column(s[8], s[9], s[10], s[11]);
    let [d0, d1, d2, d3] = mix_column(s[12], s[13], s[14], s[15]);
    [
        a0, a1, a2, a3, b0, b1, b2, b3, c0, c1, c2, c3, d0, d1, d2, d3,
    ]
}

/// Adds the round key of a round, words 4 * round to 4 * round + 3 of the expanded key, 5.1.4.
pub(crate) fn add_round_key(state: &mut [u8; 16], words: &[[u8; 4]; 60], round: usize)
    requires { round ≤ 14 }
    ensures { state.new ≡ block_of (add_round_key words.now round (state_of state.old)) }
{
    for i in 0..16usize {
        state[i] ^= words[4 * round + i / 4][i % 4];
    }
}
