//! The CRC-32 of many bytes by folding: bytes at the front are added further behind, where they leave the same remainder, until few are left.
//!
//! Modulo the polynomial x^9600 is x^4960 + x^3744 + x^2848 + 1, so bytes that are taken away 1200 bytes in front of a place are added 620, 468, 356 and
//! 0 bytes in front of it. All of these are whole bytes, and an addition is an xor of vectors.
ghost use Rattle.std.specs.Prelude.{◌≡◌, ◌≤◌, ◌+◌, ◌-◌, ◌*◌, ◌++◌, ℕ, length, drop, bit_xor};
ghost use Rattle.ferry_segment.specs.Crc.{register_after, reduced_by};

use crate::crc::by_tables;
use ferry_lanes::xor_into;

/// The number of bytes that are taken away at a time: as many as fit in front of the first place that they are added at, and whole vectors.
const FRONT: usize = 576;

/// The number of bytes behind them that they are added to.
const BEHIND: usize = 1200;

/// The most bytes that are copied to be folded: with the bytes themselves they stay in the processor's first cache.
const PIECE: usize = 16384;

/// The fewest bytes that are folded. For fewer, the tables are faster.
pub(crate) const LEAST: usize = 4096;

/// Adds `with` to the bytes from `at` on.
#[inline(always)]
fn add_at(bytes: &mut [u8], at: usize, with: &[u8])
    requires within { at + length with.now ≤ length bytes.old }
    ensures length { length bytes.new ≡ length bytes.old }
    ensures sum { (register : ℕ) → register_after register bytes.new ≡ bit_xor (register_after register bytes.old)
        (reduced_by (8 * (length bytes.old - (at + length with.now))) (register_after 0 with.now)) }
{
    xor_into(&mut bytes[at..at + with.len()], with);
}

/// Adds bytes to those behind them where they leave the same remainder.
#[inline(always)]
fn add_behind(behind: &mut [u8], front: &[u8])
    requires front { length front.now ≡ 576 }
    requires behind { length behind.old ≡ 1200 }
    ensures length { length behind.new ≡ length behind.old }
    ensures sum { register_after 0 behind.new ≡ register_after 0 (front.now ++ behind.old) }
{
    add_at(behind, 4, front);
    add_at(behind, 156, front);
    add_at(behind, 268, front);
    add_at(behind, 624, front);
}

/// The same where more bytes are behind.
#[inline(always)]
fn add_to_first(behind: &mut [u8], front: &[u8])
    requires front { length front.now ≡ 576 }
    requires behind { 1200 ≤ length behind.old }
    ensures length { length behind.new ≡ length behind.old }
    ensures sum { register_after 0 behind.new ≡ register_after 0 (front.now ++ behind.old) }
{
    add_behind(&mut behind[..BEHIND], front);
}

/// Adds the first bytes to those behind them.
fn fold_front(bytes: &mut [u8])
    requires { 1776 ≤ length bytes.old }
    ensures length { length bytes.new ≡ length bytes.old }
    ensures left { register_after 0 (drop 576 bytes.new) ≡ register_after 0 bytes.old }
{
    let (front, behind) = bytes.split_at_mut(FRONT);
    add_to_first(behind, front);
}

/// Folds bytes while there are enough, and answers the offset of those that are left.
fn fold(bytes: &mut [u8]) -> usize
    ensures within { result ≤ length bytes.new }
    ensures left { register_after 0 (drop result bytes.new) ≡ register_after 0 bytes.old }
{
    let mut at = 0;
    while bytes.len() - at >= FRONT + BEHIND {
        fold_front(&mut bytes[at..]);
        at += FRONT;
    }
    at
}

/// The register after these bytes, which are copied and folded. The register is first added to their first four.
fn after_piece(register: u32, bytes: &[u8], copy: &mut [u8]) -> u32
    requires some { 4 ≤ length bytes.now }
    requires same_length { length copy.old ≡ length bytes.now }
    ensures { result ≡ register_after register bytes.now }
{
    copy.copy_from_slice(bytes);
    add_at(copy, 0, &register.to_le_bytes());
    let at = fold(copy);
    by_tables(0, &copy[at..])
}

/// The register after these bytes, piece by piece.
pub(crate) fn by_folding(register: u32, bytes: &[u8]) -> u32
    ensures { result ≡ register_after register bytes.now }
{
    let mut copy = [0; PIECE];
    let mut after = register;
    let mut at = 0;
    while bytes.len() - at >= LEAST {
        let count = (bytes.len() - at).min(PIECE);
        after = after_piece(after, &bytes[at..at + count], &mut copy[..count]);
        at += count;
    }
    by_tables(after, &bytes[at..])
}
