//! The place of the authentication tag in the packed bytes.

ghost use Rattle.std.specs.Prelude.{◌≡◌, ◌-◌, ◌≤◌, ◌++◌, IfOk, IfErr, IfSome, length, option_map, replicate, take};
ghost use Rattle.std.specs.Int.{w16, w32};
ghost use Rattle.ferry_msgpack.specs.View.{value_view};
ghost use Rattle.ferry_manifest.specs.Walk.{behind_name, behind_name_in_map, behind_raw64, behind_tag, count_front, is_raw, is_raw64, map_front, value_front};
ghost use Rattle.ferry_manifest.specs.Walk.{zeroed};

use crate::fault::MetaFault;
use ferry_msgpack::{PackFault, Value, read};
use std::alloc::{AllocError, Global};

/// The value in front, and what follows it.
#[tactic(auto, unfolding(crate::specs::Walk::value_front))]
fn value_front(alloc: Global, bytes: &[u8]) -> Result<Option<(Value, &[u8])>, MetaFault>
    ensures value { IfOk result (λ found. option_map (λ x. (value_view x.0, x.1.now)) found ≡ value_front bytes.now) }
    ensures fault { IfErr result (λ fault. fault ≡ MetaFault.Memory) }
{
    match read(alloc, bytes, 0) {
        Ok((value, stop)) => Ok(Some((value, &bytes[stop..]))),
        Err(fault) => match fault {
            PackFault::Memory => Err(MetaFault::Memory),
            _ => Ok(None),
        },
    }
}

/// A number of 2 bytes, and what follows it.
#[tactic(auto, unfolding(crate::specs::Walk::count_front))]
fn count16_front(bytes: &[u8]) -> Option<(u64, &[u8])>
    ensures { option_map (λ x. (x.0, x.1.now)) result ≡ count_front w16 bytes.now }
{
    if bytes.len() < 2 {
        return None;
    }
    let (front, rest) = bytes.split_at(2);
    Some((u64::from(u16::from_be_bytes([front[0], front[1]])), rest))
}

/// A number of 4 bytes, and what follows it.
#[tactic(auto, unfolding(crate::specs::Walk::count_front))]
fn count32_front(bytes: &[u8]) -> Option<(u64, &[u8])>
    ensures { option_map (λ x. (x.0, x.1.now)) result ≡ count_front w32 bytes.now }
{
    if bytes.len() < 4 {
        return None;
    }
    let (front, rest) = bytes.split_at(4);
    let count = u32::from_be_bytes([front[0], front[1], front[2], front[3]]);
    Some((u64::from(count), rest))
}

/// How many pairs the map in front has, and what follows its head.
#[tactic(auto, unfolding(crate::specs::Walk::map_front))]
fn map_front(bytes: &[u8]) -> Option<(u64, &[u8])>
    ensures { option_map (λ x. (x.0, x.1.now)) result ≡ map_front bytes.now }
{
    let [first, rest @ ..] = bytes else {
        return None;
    };
    if 0x80 <= *first && *first < 0x90 {
        return Some((u64::from(*first - 0x80), rest));
    }
    if *first == 0xde {
        return count16_front(rest);
    }
    if *first == 0xdf {
        return count32_front(rest);
    }
    None
}

/// Whether a value is this raw.
fn is_raw(value: &Value, name: &[u8]) -> bool
    ensures { result ≡ is_raw name.now (value_view value.now) }
{
    match value {
        Value::Raw(content) => content.as_slice() == name,
        _ => false,
    }
}

/// Whether a value is a raw of 64 bytes.
fn is_raw64(value: &Value) -> bool
    ensures { result ≡ is_raw64 (value_view value.now) }
{
    match value {
        Value::Raw(content) => content.len() == 64,
        _ => false,
    }
}

/// What stands behind this name, among so many pairs.
fn behind_name<'a>(
    alloc: Global,
    bytes: &'a [u8],
    count: u64,
    name: &[u8],
) -> Result<Option<&'a [u8]>, MetaFault>
    ensures place { IfOk result (λ found.
        option_map (λ x. x.now) found ≡ behind_name name.now count bytes.now) }
    ensures fault { IfErr result (λ fault. fault ≡ MetaFault.Memory) }
{
    let mut rest = bytes;
    'pairs: for place in 0..count {
        let Some((key, after_key)) = value_front(alloc, rest)? else {
            return Ok(None);
        };
        if is_raw(&key, name) {
            return Ok(Some(after_key));
        }
        let Some((_value, after)) = value_front(alloc, after_key)? else {
            return Ok(None);
        };
        rest = after;
    }
    Ok(None)
}

/// What stands behind this name in the map in front.
#[tactic(auto, unfolding(crate::specs::Walk::behind_name_in_map))]
fn behind_name_in_map<'a>(
    alloc: Global,
    bytes: &'a [u8],
    name: &[u8],
) -> Result<Option<&'a [u8]>, MetaFault>
    ensures place { IfOk result (λ found.
        option_map (λ x. x.now) found ≡ behind_name_in_map name.now bytes.now) }
    ensures fault { IfErr result (λ fault. fault ≡ MetaFault.Memory) }
{
    match map_front(bytes) {
        Some((count, pairs)) => behind_name(alloc, pairs, count, name),
        None => Ok(None),
    }
}

/// What follows the raw of 64 bytes in front.
#[tactic(auto, unfolding(crate::specs::Walk::behind_raw64))]
fn behind_raw64(alloc: Global, bytes: &[u8]) -> Result<Option<&[u8]>, MetaFault>
    ensures place { IfOk result (λ found. option_map (λ x. x.now) found ≡ behind_raw64 bytes.now) }
    ensures fault { IfErr result (λ fault. fault ≡ MetaFault.Memory) }
{
    let Some((value, after)) = value_front(alloc, bytes)? else {
        return Ok(None);
    };
    if is_raw64(&value) {
        Ok(Some(after))
    } else {
        Ok(None)
    }
}

/// What follows the authentication tag.
#[tactic(auto, unfolding(crate::specs::Walk::behind_tag))]
fn behind_tag(alloc: Global, bytes: &[u8]) -> Result<Option<&[u8]>, MetaFault>
    ensures place { IfOk result (λ found. option_map (λ x. x.now) found ≡ behind_tag bytes.now) }
    ensures fault { IfErr result (λ fault. fault ≡ MetaFault.Memory) }
{
    let Some(tam) = behind_name_in_map(alloc, bytes, b"tam")? else {
        return Ok(None);
    };
    let Some(hmac) = behind_name_in_map(alloc, tam, b"hmac")? else {
        return Ok(None);
    };
    behind_raw64(alloc, hmac)
}

/// The bytes with the authentication tag replaced by 64 zero bytes in its place.
///
/// The tag is never searched for by its bytes, which may stand earlier too.
#[tactic(auto, unfolding(crate::specs::Walk::zeroed))]
pub(crate) fn zeroed(alloc: Global, bytes: &[u8]) -> Result<Vec<u8>, MetaFault>
    ensures zeroed { IfOk result (λ copy. copy.items ≡ zeroed bytes.now) }
    ensures fault { IfErr result (λ fault. fault ≡ MetaFault.Memory) }
{
    match behind_tag(alloc, bytes)? {
        Some(back) => Ok(with_zeros(alloc, bytes, back)?),
        None => Ok(Vec::from_slice(alloc, bytes)?),
    }
}

/// `bytes` with 64 zero bytes before those that follow the tag.
fn with_zeros(alloc: Global, bytes: &[u8], back: &[u8]) -> Result<Vec<u8>, AllocError>
    ensures { IfOk result (λ copy. copy.items
        ≡ take (length bytes.now - length back.now - 64) bytes.now ++ (replicate 64 0 ++ back.now)) }
{
    // The tag stands before `back` in `bytes`, so that neither difference is cut off at 0.
    let place = bytes.len().saturating_sub(back.len()).saturating_sub(64);
    let mut copy = Vec::from_slice(alloc, &bytes[..place])?;
    copy.extend_from_slice(&[0u8; 64])?;
    copy.extend_from_slice(back)?;
    Ok(copy)
}
