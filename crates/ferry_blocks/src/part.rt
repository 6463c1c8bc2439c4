//! A part of a segment, whose entries are gone over by their stated sizes.
ghost use Rattle.std.specs.Prelude.{◌≡◌, ◌≤◌, ◌+◌, min, max, List, ℕ, length, take, drop};
ghost use Rattle.ferry_blocks.specs.Blocks.{StatesNoSize};
ghost use Rattle.ferry_blocks.specs.Passes.{Passes};

use crate::entry::{entry_size, put_end};

/// How many bytes entries take together by their stated sizes, and the end of the counter blocks of their
/// blobs.
#[derive(Clone, Copy)]
pub(crate) struct Passed {
    pub size: u64,
    pub end: u128,
}

/// Goes over the entries whose fronts lie in a part, from its first byte on, at which `left` bytes of the
/// segment are left.
pub(crate) fn pass(part: &[u8], left: u64) -> Passed
    ensures within { result.size ≤ left }
    ensures passed { (bytes : List ℕ) (from : ℕ) → length (drop from bytes) ≡ left
        → part.now ≡ take (length part.now) (drop from bytes)
        → Passes bytes from (from + result.size) result.end }
    ensures stops { (bytes : List ℕ) (from : ℕ) → length (drop from bytes) ≡ left
        → part.now ≡ take (length part.now) (drop from bytes) → min 82 left ≤ length part.now
        → result.size ≡ 0 → StatesNoSize (drop from bytes) }
{
    let mut size = 0;
    let mut end = 0;
    while size < part.len() as u64 {
        let front = &part[size as usize..];
        let Some(stated) = entry_size(front, left - size) else {
            return Passed { size, end };
        };
        end = greater(end, put_end(front, stated));
        size += u64::from(stated);
    }
    Passed { size, end }
}

/// The greater one of two numbers.
pub(crate) fn greater(a: u128, b: u128) -> u128
    ensures { result ≡ max a b }
{
    if a < b { b } else { a }
}
