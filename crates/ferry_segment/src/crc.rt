//! The CRC-32 of IEEE 802.3. Few bytes are divided by sixteen tables, and many are folded before.
ghost use Rattle.std.specs.Prelude.{◌≡◌, ◌∷◌, ◌++◌, [], ℕ, List, length, bit_xor};
ghost use Rattle.ferry_segment.specs.Crc.{crc, crc_more, register_after, reduced_by};

use crate::folding::{LEAST, by_folding};
use crate::remainders::{
    AFTER_8, AFTER_16, AFTER_24, AFTER_32, AFTER_40, AFTER_48, AFTER_56, AFTER_64, AFTER_72,
    AFTER_80, AFTER_88, AFTER_96, AFTER_104, AFTER_112, AFTER_120, AFTER_128,
};

/// The register that a division begins with, and what is added to the remainder at its end.
pub(crate) const ALL_ONES: u32 = 0xffff_ffff;

/// The CRC-32 of these bytes. Nothing is allocated.
///
/// Source: IEEE 802.3, 3.2.9.
pub fn crc32(bytes: &[u8]) -> u32
    ensures { result ≡ crc bytes.now }
{
    crc32_more(0, bytes)
}

/// The CRC-32 of some bytes and these behind them, from that of the bytes before, which is 0 of none. Nothing is allocated.
pub fn crc32_more(before: u32, bytes: &[u8]) -> u32
    ensures more { result ≡ crc_more before bytes.now }
    ensures joined { (front : List ℕ) → before ≡ crc front → result ≡ crc (front ++ bytes.now) }
{
    after_bytes(before ^ ALL_ONES, bytes) ^ ALL_ONES
}

/// The register after these bytes.
pub(crate) fn after_bytes(register: u32, bytes: &[u8]) -> u32
    ensures { result ≡ register_after register bytes.now }
{
    if bytes.len() < LEAST {
        by_tables(register, bytes)
    } else {
        by_folding(register, bytes)
    }
}

/// The register after these bytes, sixteen at a time, and one by one what is left.
pub(crate) fn by_tables(register: u32, bytes: &[u8]) -> u32
    ensures { result ≡ register_after register bytes.now }
{
    let mut after = register;
    let mut at = 0;
    while bytes.len() - at >= 16 {
        after = after_sixteen(after, &bytes[at..at + 16]);
        at += 16;
    }
    after_each(after, &bytes[at..])
}

/// The register after these bytes, one by one.
fn after_each(register: u32, bytes: &[u8]) -> u32
    ensures { result ≡ register_after register bytes.now }
{
    let mut after = register;
    for byte in bytes {
        after = after_byte(after, *byte);
    }
    after
}

/// The register after one more byte.
fn after_byte(register: u32, byte: u8) -> u32
    ensures { result ≡ register_after register (byte ∷ []) }
{
    let lowest = (register ^ u32::from(byte)) & 0xff;
    (register >> 8) ^ AFTER_8[lowest as usize]
}

/// The register after sixteen bytes. The first four meet the register as one word.
#[inline(always)]
fn after_sixteen(register: u32, bytes: &[u8]) -> u32
    requires { length bytes.now ≡ 16 }
    ensures { result ≡ register_after register bytes.now }
{
    let word = register ^ u32::from_le_bytes([bytes[0], bytes[1], bytes[2], bytes[3]]);
    word_by_128(word)
        ^ AFTER_96[bytes[4] as usize]
        ^ AFTER_88[bytes[5] as usize]
        ^ AFTER_80[bytes[6] as usize]
        ^ AFTER_72[bytes[7] as usize]
        ^ AFTER_64[bytes[8] as usize]
        ^ AFTER_56[bytes[9] as usize]
        ^ AFTER_48[bytes[10] as usize]
        ^ AFTER_40[bytes[11] as usize]
        ^ AFTER_32[bytes[12] as usize]
        ^ AFTER_24[bytes[13] as usize]
        ^ AFTER_16[bytes[14] as usize]
        ^ AFTER_8[bytes[15] as usize]
}

/// A word, 128 powers on.
#[inline(always)]
fn word_by_128(word: u32) -> u32
    ensures { result ≡ reduced_by 128 word }
{
    AFTER_128[(word & 0xff) as usize]
        ^ AFTER_120[((word >> 8) & 0xff) as usize]
        ^ AFTER_112[((word >> 16) & 0xff) as usize]
        ^ AFTER_104[(word >> 24) as usize]
}
