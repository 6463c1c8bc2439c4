//! From bytes to a map, with the value of one name apart.

ghost use Rattle.std.specs.Prelude.{◌≡◌, IfOk, option_map};
ghost use Rattle.ferry_msgpack.specs.FirstView.{count_view};
ghost use Rattle.ferry_msgpack.specs.Tree.{no_pairs};
ghost use Rattle.ferry_msgpack.specs.View.{value_view};
ghost use Rattle.ferry_msgpack.specs.Reading.{Gives, value_at, items_at, pairs_at};
ghost use Rattle.ferry_msgpack.specs.Apart.{apart_view, array_apart, array_front, items_apart, map_front, pair_apart, pairs_apart};
ghost use Rattle.ferry_msgpack.specs.Apart.{parts_at, raw32_of, table_apart, value_apart, with_content};

use crate::fault::PackFault;
use crate::first::{Count, First, first_of};
use crate::numbers::{count_of, key_of};
use crate::reading::{pairs_in_order, value_of};
use crate::value::{DEPTH, Value};
use std::alloc::{AllocError, Global};
use std::collections::BTreeMap;

/// A map that was read with the value of one name apart.
#[derive(Drop)]
pub struct Apart {
    /// The pairs of the map, in strictly increasing byte order of their keys. That of the name, where it is there, has nil.
    pub pairs: Vec<(Vec<u8>, Value)>,
    /// The contents of the raws in the array that is the name's value, where it is one and each raw in it has 32 bytes.
    pub contents: Option<Vec<[u8; 32]>>,
}

/// Reads the value in front, and where it is a map, that with the value of `name` apart.
///
/// `Ok` has the map, or `None` for any other value, and what follows it, which isn't looked at. A fault is that of `read`.
/// Of an array under the name no value is kept, only the contents of raws of 32 bytes: so its memory is theirs.
///
/// Source: msgpack specification, "Formats".
#[tactic(auto, unfolding(crate::specs::Apart::parts_at))]
pub fn read_map_apart<'a>(
    alloc: Global,
    bytes: &'a [u8],
    name: &[u8],
) -> Result<(Option<Apart>, &'a [u8]), PackFault>
    ensures parts { Gives (λ x. (option_map apart_view x.0, x.1.now)) result (parts_at name.now bytes.now) }
{
    match map_front(bytes) {
        Some((count, after)) => {
            let (apart, rest) = table_apart(alloc, name, count, after)?;
            Ok((Some(apart), rest))
        }
        None => {
            let (_value, rest) = value_of(alloc, DEPTH, bytes)?;
            Ok((None, rest))
        }
    }
}

/// The count of the map that begins in front, and what follows its first byte.
fn map_front(bytes: &[u8]) -> Option<(Count, &[u8])>
    ensures { option_map (λ x. (count_view x.0, x.1.now)) result ≡ map_front bytes.now }
{
    let [first, after @ ..] = bytes else {
        return None;
    };
    match first_of(*first) {
        First::Table(count) => Some((count, after)),
        _ => None,
    }
}

/// The count of the array that begins in front, and what follows its first byte.
fn array_front(bytes: &[u8]) -> Option<(Count, &[u8])>
    ensures { option_map (λ x. (count_view x.0, x.1.now)) result ≡ array_front bytes.now }
{
    let [first, after @ ..] = bytes else {
        return None;
    };
    match first_of(*first) {
        First::Array(count) => Some((count, after)),
        _ => None,
    }
}

/// The map behind its first byte, the outermost value, and what follows it.
fn table_apart<'a>(
    alloc: Global,
    name: &[u8],
    count: Count,
    bytes: &'a [u8],
) -> Result<(Apart, &'a [u8]), PackFault>
    ensures { Gives (λ x. (apart_view x.0, x.1.now)) result (table_apart name.now (count_view count) bytes.now) }
{
    let (count, rest) = count_of(count, bytes)?;
    pairs_apart(alloc, name, count, rest)
}

/// The next `count` pairs of the outermost map, and what follows them. A key that stands twice is told before its value is read.
fn pairs_apart<'a>(
    alloc: Global,
    name: &[u8],
    count: u64,
    bytes: &'a [u8],
) -> Result<(Apart, &'a [u8]), PackFault>
    ensures { Gives (λ x. (apart_view x.0, x.1.now)) result
        (pairs_apart name.now (pairs_at (value_at 63) count no_pairs bytes.now)) }
{
    let mut found = BTreeMap::new(alloc);
    let mut contents = None;
    let mut rest = bytes;
    'pairs: for _ in 0..count {
        let (key, after) = key_of(rest)?;
        if found.contains_key(key) {
            return Err(PackFault::Repeat);
        }
        let (value, said, after) = value_apart(alloc, key == name, contents, after)?;
        drop(found.insert(Vec::from_slice(alloc, key)?, value)?);
        contents = said;
        rest = after;
    }
    let pairs = pairs_in_order(alloc, found)?;
    Ok((Apart { pairs, contents }, rest))
}

/// The value of a pair, the contents that are known with it, and what follows it. Of the one that is apart only its contents
/// are kept.
fn value_apart(
    alloc: Global,
    is_apart: bool,
    contents: Option<Vec<[u8; 32]>>,
    bytes: &[u8],
) -> Result<(Value, Option<Vec<[u8; 32]>>, &[u8]), PackFault>
    ensures { Gives (λ x. (value_view x.0, option_map (λ all. all.items) x.1, x.2.now)) result
        (pair_apart is_apart (option_map (λ all. all.items) contents) (value_at 63 bytes.now)) }
{
    if is_apart {
        let (said, rest) = contents_of(alloc, bytes)?;
        Ok((Value::Nil, said, rest))
    } else {
        let (value, rest) = value_of(alloc, DEPTH - 1, bytes)?;
        Ok((value, contents, rest))
    }
}

/// The contents of the value in front, which stands in the outermost map, and what follows it.
fn contents_of(alloc: Global, bytes: &[u8]) -> Result<(Option<Vec<[u8; 32]>>, &[u8]), PackFault>
    ensures { Gives (λ x. (option_map (λ all. all.items) x.0, x.1.now)) result
        (value_apart (value_at 63 bytes.now)) }
{
    match array_front(bytes) {
        Some((count, after)) => array_apart(alloc, count, after),
        None => {
            let (_value, rest) = value_of(alloc, DEPTH - 1, bytes)?;
            Ok((None, rest))
        }
    }
}

/// The contents of the array behind its first byte, and what follows it.
fn array_apart(
    alloc: Global,
    count: Count,
    bytes: &[u8],
) -> Result<(Option<Vec<[u8; 32]>>, &[u8]), PackFault>
    ensures { Gives (λ x. (option_map (λ all. all.items) x.0, x.1.now)) result (array_apart (count_view count) bytes.now) }
{
    let (count, rest) = count_of(count, bytes)?;
    contents_in(alloc, count, rest)
}

/// The contents of the next `count` values, where each is a raw of 32 bytes, and what follows them. A value is let go once its
/// content is known.
fn contents_in(
    alloc: Global,
    count: u64,
    bytes: &[u8],
) -> Result<(Option<Vec<[u8; 32]>>, &[u8]), PackFault>
    ensures { Gives (λ x. (option_map (λ all. all.items) x.0, x.1.now)) result
        (items_apart (items_at (value_at 62) count bytes.now)) }
{
    let mut contents = Some(Vec::new(alloc));
    let mut rest = bytes;
    'items: for _ in 0..count {
        let (item, after) = value_of(alloc, DEPTH - 2, rest)?;
        contents = with_content(contents, raw32_of(&item))?;
        rest = after;
    }
    Ok((contents, rest))
}

/// Contents, and one more, where both are there.
fn with_content(
    contents: Option<Vec<[u8; 32]>>,
    content: Option<[u8; 32]>,
) -> Result<Option<Vec<[u8; 32]>>, AllocError>
    ensures { IfOk result (λ x. option_map (λ all. all.items) x ≡ with_content (option_map (λ all. all.items) contents) content) }
{
    let Some(mut all) = contents else {
        return Ok(None);
    };
    let Some(one) = content else {
        return Ok(None);
    };
    all.push(one)?;
    Ok(Some(all))
}

/// The 32 bytes that a value is.
fn raw32_of(value: &Value) -> Option<[u8; 32]>
    ensures { result ≡ raw32_of (value_view value.now) }
{
    let Value::Raw(content) = value else {
        return None;
    };
    if content.len() != 32 {
        return None;
    }
    let mut bytes = [0u8; 32];
    bytes.copy_from_slice(content.as_slice());
    Some(bytes)
}
