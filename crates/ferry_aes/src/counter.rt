//! Counter mode over AES-256, NIST SP 800-38A, section 6.5, sixteen or eight blocks at a time.
ghost use Rattle.std.specs.Prelude.{ℕ, List, ◌≡◌, ◌+◌, ◌*◌, ◌/◌, ◌%◌, ◌<◌, ◌≤◌, ◌++◌, take, drop, length, slice_index};
ghost use Rattle.ferry_aes.specs.CounterMode.{counter_block, output_blocks, key_stream};
ghost use Rattle.ferry_aes.specs.Planes.{AreRoundKeys, AreWideRoundKeys, block_at, crossed_place, half, HasHigherBytes, HaveLowBytes, HasAllBytes};

use crate::eight::{eight_blocks, first_substituted, round_keys};
use crate::gates::Planes;
use crate::halves::{high_half, low_half, paired};
use crate::joining::{joined, put_blocks};
use crate::low_bytes::{all_low_bytes, with_lasts};
use crate::schedule::Schedule;
use crate::sixteen::{finished, wide_round_keys};
use crate::wide_gates::WidePlanes;
use std::simd::prelude::*;

/// The number of bytes in eight blocks.
const GROUP: usize = 128;

/// The number of bytes in two groups, which go through wide planes at once.
const TWO_GROUPS: usize = 256;

/// The most bytes for which what the first round makes of the counters isn't kept, and no wide planes are used.
const SHORT: usize = 1024;

/// The counter block of a number by rows: byte 4r + c is byte r + 4c of the number, the highest first.
#[inline(always)]
fn counter_rows(counter: u128) -> u8x16
    ensures { (j : ℕ) → j < 16 → slice_index result j ≡ slice_index (counter_block counter) (crossed_place j) }
{
    let low = (counter % 0x1_0000_0000_0000_0000) as u64;
    let high = (counter >> 64) as u64;
    let bytes = u64x2::from_array([low, high]).to_le_bytes();
    bytes.swizzle([15, 11, 7, 3, 14, 10, 6, 2, 13, 9, 5, 1, 12, 8, 4, 0])
}

/// The counter blocks of eight numbers that follow each other, each by rows.
#[inline(always)]
fn counters(first: u128) -> Planes
    ensures { (i : ℕ) → i < 8 → block_at result i ≡ counter_block (first + i) }
{
    [
        counter_rows(first),
        counter_rows(first.wrapping_add(1)),
        counter_rows(first.wrapping_add(2)),
        counter_rows(first.wrapping_add(3)),
        counter_rows(first.wrapping_add(4)),
        counter_rows(first.wrapping_add(5)),
        counter_rows(first.wrapping_add(6)),
        counter_rows(first.wrapping_add(7)),
    ]
}

/// The output blocks of eight numbers that follow each other.
fn group_from(keys: &[Planes; 15], first: u128) -> [u8; 128]
    ensures { (w : List (List ℕ)) → AreRoundKeys w keys.now → result ≡ output_blocks w first 8 }
{
    let blocks = counters(first);
    let rows = eight_blocks(keys, &blocks);
    joined(&rows)
}

/// Writes eight blocks over the bytes of `into` from `at` on. Where `into` ends earlier, they are cut.
fn put_group(into: &mut [u8], at: usize, group: &[u8; 128])
    requires { at < length into.old }
    ensures { take (at + 128) into.new ≡ take (length into.old) (take at into.old ++ group.now) }
{
    let count = (into.len() - at).min(GROUP);
    into[at..at + count].copy_from_slice(&group[..count]);
}

/// The key stream of a buffer from group `from` on, where the groups before it are there. Each group is made whole.
fn groups_from(keys: &[Planes; 15], counter: u128, into: &mut [u8], from: usize)
    requires { from ≤ (length into.old + 127) / 128 }
    ensures { (w : List (List ℕ)) → AreRoundKeys w keys.now
        → take (128 * from) into.old ≡ take (length into.old) (output_blocks w counter (8 * from))
        → into.new ≡ key_stream w counter (length into.old) }
{
    for number in from..into.len().div_ceil(GROUP) {
        let first = counter.wrapping_add(8 * number as u128);
        let group = group_from(keys, first);
        put_group(into, GROUP * number, &group);
    }
}

/// The states of the counter blocks from `first` on after SubBytes of round 1, but for the lowest bytes of the counters: those
/// that are `known`, where the eight counters before these had the same higher bytes.
fn higher_bytes(keys: &[Planes; 15], first: u128, known: &Planes) -> Planes
    ensures { (w : List (List ℕ)) → AreRoundKeys w keys.now → (8 ≤ first % 256 → first % 256 ≤ 248 → HasHigherBytes w first known.now)
        → HasHigherBytes w first result }
{
    let low = (first % 256) as u8;
    if low < 8 || low > 248 {
        first_substituted(keys, &counters(first))
    } else {
        *known
    }
}

/// The states of the counter blocks of a group after SubBytes of round 1, from their higher bytes and the lowest ones of 256 counters.
#[inline(always)]
fn group_states(higher: &Planes, lows: &[Planes; 2], group: usize) -> Planes
    ensures { (w : List (List ℕ)) (n first : ℕ) → HaveLowBytes w n lows.now → HasHigherBytes w first higher.now
        → first % 256 ≡ (n + 8 * group) % 256 → HasAllBytes w first result }
{
    with_lasts(higher, &lows[group / 16 % 2], group % 16)
}

/// Writes the output blocks of two groups over the bytes of `into` from `at` on, from the states of their counter blocks after
/// SubBytes of round 1.
fn put_two_groups(keys: &[WidePlanes; 15], states: &WidePlanes, into: &mut [u8], at: usize)
    requires { at + 256 ≤ length into.old }
    ensures { (w : List (List ℕ)) (n m : ℕ) → AreWideRoundKeys w keys.now → HasAllBytes w n (half 0 states.now)
        → HasAllBytes w m (half 1 states.now)
        → take (at + 256) into.new ≡ take at into.old ++ output_blocks w n 8 ++ output_blocks w m 8 }
{
    let rows = finished(keys, states);
    put_blocks(into, at, &low_half(&rows));
    put_blocks(into, at + GROUP, &high_half(&rows));
}

/// The key stream of the first bytes of a buffer, as many as whole pairs of groups fill; what stands behind them isn't told. Up
/// to SubBytes of round 1 a block's bytes don't depend on each other: what becomes of the lowest bytes of 256 counters is
/// worked out once, and what becomes of the higher ones as often as they change.
fn pairs_of_groups(keys: &[Planes; 15], counter: u128, into: &mut [u8])
    ensures { (w : List (List ℕ)) → AreRoundKeys w keys.now
        → take (256 * (length into.old / 256)) into.new ≡ output_blocks w counter (16 * (length into.old / 256)) }
{
    let lows = all_low_bytes(&keys[0], (counter % 256) as u8);
    let wide_keys = wide_round_keys(keys);
    let mut higher = first_substituted(keys, &counters(counter));
    for number in 0..into.len() / TWO_GROUPS {
        let first = counter.wrapping_add(16 * number as u128);
        let low = higher_bytes(keys, first, &higher);
        let next = higher_bytes(keys, first.wrapping_add(8), &low);
        higher = next;
        let low_states = group_states(&low, &lows, 2 * number);
        let high_states = group_states(&higher, &lows, 2 * number + 1);
        let states = paired(&low_states, &high_states);
        put_two_groups(&wide_keys, &states, into, TWO_GROUPS * number);
    }
}

/// The key stream of a long buffer: two groups at a time, and what is left behind them one at a time.
fn long_stream(keys: &[Planes; 15], counter: u128, into: &mut [u8])
    ensures { (w : List (List ℕ)) → AreRoundKeys w keys.now → into.new ≡ key_stream w counter (length into.old) }
{
    pairs_of_groups(keys, counter, into);
    let from = into.len() / TWO_GROUPS * 2;
    groups_from(keys, counter, into, from);
}

/// The key stream of a buffer.
#[inline(always)]
fn stream_of(keys: &[Planes; 15], counter: u128, into: &mut [u8])
    ensures { (w : List (List ℕ)) → AreRoundKeys w keys.now → into.new ≡ key_stream w counter (length into.old) }
{
    if into.len() <= SHORT {
        groups_from(keys, counter, into, 0);
    } else {
        long_stream(keys, counter, into);
    }
}

/// Fills `into` with the key stream of counter mode from `counter` on.
///
/// Block j of the stream is the encrypted counter block of `counter + j`, which is taken modulo
/// 2^128 and stored with its highest byte first. The last block is cut where `into` ends. Nothing
/// of what `into` held is read: the caller adds the stream to a text by xor. Each counter block may
/// serve once under one key. A call makes the planes of the round keys anew, which takes about as
/// long as 128 bytes of stream: ask for some thousand bytes at a time.
///
/// Source: NIST SP 800-38A, section 6.5 and appendix B.1.
pub fn keystream(schedule: &Schedule, counter: u128, into: &mut [u8])
    ensures stream { into.new ≡ key_stream schedule.now counter (length into.old) }
{
    let keys = round_keys(&schedule.words);
    stream_of(&keys, counter, into);
}
