//! Numbers, counts and raw bytes: what stands behind a first byte.

ghost use Rattle.std.specs.Prelude.{◌≡◌};
ghost use Rattle.std.specs.Int.{w8, w16, w32, w64};
ghost use Rattle.ferry_msgpack.specs.FirstView.{width_view, count_view};
ghost use Rattle.ferry_msgpack.specs.Reading.{Gives, number_at, signed_at, count_at, content_at, raw_at, key_at};

use crate::fault::PackFault;
use crate::first::{Count, First, Width, first_of};

#[tactic(auto, unfolding(crate::specs::Reading::number_at))]
fn u8_at(bytes: &[u8]) -> Result<(u8, &[u8]), PackFault>
    ensures { Gives (λ x. (x.0, x.1.now)) result (number_at w8 bytes.now) }
{
    match bytes {
        [a, rest @ ..] => Ok((*a, rest)),
        [] => Err(PackFault::Short),
    }
}

#[tactic(auto, unfolding(crate::specs::Reading::number_at))]
fn u16_at(bytes: &[u8]) -> Result<(u16, &[u8]), PackFault>
    ensures { Gives (λ x. (x.0, x.1.now)) result (number_at w16 bytes.now) }
{
    if bytes.len() < 2 {
        return Err(PackFault::Short);
    }
    let (front, rest) = bytes.split_at(2);
    Ok((u16::from_be_bytes([front[0], front[1]]), rest))
}

#[tactic(auto, unfolding(crate::specs::Reading::number_at))]
fn u32_at(bytes: &[u8]) -> Result<(u32, &[u8]), PackFault>
    ensures { Gives (λ x. (x.0, x.1.now)) result (number_at w32 bytes.now) }
{
    if bytes.len() < 4 {
        return Err(PackFault::Short);
    }
    let (front, rest) = bytes.split_at(4);
    let number = u32::from_be_bytes([front[0], front[1], front[2], front[3]]);
    Ok((number, rest))
}

#[tactic(auto, unfolding(crate::specs::Reading::number_at))]
fn u64_at(bytes: &[u8]) -> Result<(u64, &[u8]), PackFault>
    ensures { Gives (λ x. (x.0, x.1.now)) result (number_at w64 bytes.now) }
{
    if bytes.len() < 8 {
        return Err(PackFault::Short);
    }
    let (front, rest) = bytes.split_at(8);
    let number = u64::from_be_bytes([
        front[0], front[1], front[2], front[3], front[4], front[5], front[6], front[7],
    ]);
    Ok((number, rest))
}

/// The unsigned number of the width at the front, and what follows it.
pub(crate) fn unsigned_number(width: Width, bytes: &[u8]) -> Result<(u64, &[u8]), PackFault>
    ensures { Gives (λ x. (x.0, x.1.now)) result (number_at (width_view width) bytes.now) }
{
    match width {
        Width::One => {
            let (number, rest) = u8_at(bytes)?;
            Ok((u64::from(number), rest))
        }
        Width::Two => {
            let (number, rest) = u16_at(bytes)?;
            Ok((u64::from(number), rest))
        }
        Width::Four => {
            let (number, rest) = u32_at(bytes)?;
            Ok((u64::from(number), rest))
        }
        Width::Eight => u64_at(bytes),
    }
}

/// The signed number of the width at the front, in two's complement, and what follows it.
#[tactic(auto, unfolding(crate::specs::Reading::signed_at))]
pub(crate) fn signed_number(width: Width, bytes: &[u8]) -> Result<(i64, &[u8]), PackFault>
    ensures { Gives (λ x. (x.0, x.1.now)) result (signed_at (width_view width) bytes.now) }
{
    match width {
        Width::One => {
            let (number, rest) = u8_at(bytes)?;
            Ok((i64::from(number.cast_signed()), rest))
        }
        Width::Two => {
            let (number, rest) = u16_at(bytes)?;
            Ok((i64::from(number.cast_signed()), rest))
        }
        Width::Four => {
            let (number, rest) = u32_at(bytes)?;
            Ok((i64::from(number.cast_signed()), rest))
        }
        Width::Eight => {
            let (number, rest) = u64_at(bytes)?;
            Ok((number.cast_signed(), rest))
        }
    }
}

/// The count that a first byte begins, and what follows it.
#[tactic(auto, unfolding(crate::specs::Reading::count_at))]
pub(crate) fn count_of(count: Count, bytes: &[u8]) -> Result<(u64, &[u8]), PackFault>
    ensures { Gives (λ x. (x.0, x.1.now)) result (count_at (count_view count) bytes.now) }
{
    match count {
        Count::Given(number) => Ok((u64::from(number), bytes)),
        Count::Behind(width) => unsigned_number(width, bytes),
    }
}

/// The bytes of a raw behind its first byte, and what follows them. Nothing is copied.
#[tactic(auto, unfolding(crate::specs::Reading::raw_at, crate::specs::Reading::content_at))]
pub(crate) fn raw_of(count: Count, bytes: &[u8]) -> Result<(&[u8], &[u8]), PackFault>
    ensures { Gives (λ x. (x.0.now, x.1.now)) result (raw_at (count_view count) bytes.now) }
{
    let (length, rest) = count_of(count, bytes)?;
    if (rest.len() as u64) < length {
        return Err(PackFault::Short);
    }
    Ok(rest.split_at(length as usize))
}

/// The key at the front, and what follows it. Nothing is copied.
#[tactic(auto, unfolding(crate::specs::Reading::key_at))]
pub(crate) fn key_of(bytes: &[u8]) -> Result<(&[u8], &[u8]), PackFault>
    ensures { Gives (λ x. (x.0.now, x.1.now)) result (key_at bytes.now) }
{
    match bytes {
        [] => Err(PackFault::Short),
        [first, rest @ ..] => match first_of(*first) {
            First::Raw(count) => raw_of(count, rest),
            First::Refused => Err(PackFault::Kind),
            _ => Err(PackFault::Key),
        },
    }
}
