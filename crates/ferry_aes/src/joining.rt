//! Blocks in vectors by rows, and blocks in memory by columns.
ghost use Rattle.std.specs.Prelude.{ℕ, ◌≡◌, ◌+◌, ◌*◌, ◌<◌, ◌≤◌, ◌++◌, take, length, slice_index};
ghost use Rattle.std.specs.Simd.Lanes.{put_chunk};
ghost use Rattle.ferry_aes.specs.Cipher.{piece};
ghost use Rattle.ferry_aes.specs.Planes.{block_at, crossed_place, joined_blocks};

use crate::gates::Planes;
use crate::transposition::crossed;
use std::simd::prelude::*;

/// Writes a block over the bytes of `into` from `at` on.
#[inline(always)]
fn put_block(into: &mut [u8], at: usize, block: u8x16)
    requires { at + 16 ≤ length into.old }
    ensures { into.new ≡ put_chunk at into.old block }
{
    block.copy_to_slice(&mut into[at..]);
}

/// Writes eight blocks over the bytes of `into` from `at` on.
#[inline(always)]
pub(crate) fn put_blocks(into: &mut [u8], at: usize, rows: &Planes)
    requires { at + 128 ≤ length into.old }
    ensures { take (at + 128) into.new ≡ take at into.old ++ joined_blocks rows.now }
{
    for i in 0..8usize {
        let block = crossed(rows[i]);
        put_block(into, at + 16 * i, block);
    }
}

/// Eight blocks as 128 bytes.
#[inline(always)]
pub(crate) fn joined(rows: &Planes) -> [u8; 128]
    ensures { result ≡ joined_blocks rows.now }
{
    let mut bytes = [0u8; 128];
    put_blocks(&mut bytes, 0, rows);
    bytes
}

/// Block `i` of the bytes, by rows.
#[inline(always)]
fn block_rows(bytes: &[u8; 256], i: usize) -> u8x16
    requires { i < 16 }
    ensures { (m : ℕ) → m < 16 → slice_index result m ≡ slice_index (piece bytes.now i) (crossed_place m) }
{
    let block = u8x16::from_slice(&bytes[16 * i..]);
    crossed(block)
}

/// Eight blocks of the bytes, from block `first` on, each by rows.
#[inline(always)]
pub(crate) fn eight_rows(bytes: &[u8; 256], first: usize) -> Planes
    requires { first + 8 ≤ 16 }
    ensures { (i : ℕ) → i < 8 → block_at result i ≡ piece bytes.now (first + i) }
{
    [
        block_rows(bytes, first),
        block_rows(bytes, first + 1),
        block_rows(bytes, first + 2),
        block_rows(bytes, first + 3),
        block_rows(bytes, first + 4),
        block_rows(bytes, first + 5),
        block_rows(bytes, first + 6),
        block_rows(bytes, first + 7),
    ]
}
