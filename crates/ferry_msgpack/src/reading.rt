//! From bytes to a value.

ghost use Rattle.std.specs.Prelude.{◌≡◌, ◌≢◌, ℕ, ◌+◌, ◌≤◌, List, ◌++◌, length, drop, IfOk, IfErr};
ghost use Rattle.ferry_msgpack.specs.FirstView.{count_view, first_view};
ghost use Rattle.ferry_msgpack.specs.declared.fault.PackFault.{PackFault};
ghost use Rattle.ferry_msgpack.specs.Tree.{Tree, no_pairs};
ghost use Rattle.ferry_msgpack.specs.Spelling.{Spells};
ghost use Rattle.ferry_msgpack.specs.Faults.{Breaks};
ghost use Rattle.ferry_msgpack.specs.Writable.{IsWritable};
ghost use Rattle.ferry_msgpack.specs.Calls.Read.{StandsAt, IsValueUnlessMemory, IsFaultUnlessMemory};
ghost use Rattle.ferry_msgpack.specs.View.{value_view, items_view, pairs_view};
ghost use Rattle.ferry_msgpack.specs.Reading.{Gives, value_at, flat_by, array_at, table_at, items_at, pairs_at};

use crate::fault::PackFault;
use crate::first::{Count, First, first_of};
use crate::numbers::{count_of, key_of, raw_of, signed_number, unsigned_number};
use crate::value::{DEPTH, Value};
use std::alloc::{AllocError, Global};
use std::collections::BTreeMap;

/// Reads the value that begins at byte `at`.
///
/// `Ok` has the value and the offset of the byte behind it; what follows there isn't looked at. A fault is the first
/// broken rule from the left. Memory is taken for values that were read, never for a count that a head claims.
///
/// Source: msgpack specification, "Formats".
pub fn read(alloc: Global, bytes: &[u8], at: usize) -> Result<(Value, usize), PackFault>
    requires { at ≤ length bytes.now }
    // What is read is spelled by these bytes.
    ensures found { IfOk result (λ x. StandsAt bytes.now at (value_view x.0) x.1) }
    // It can be written.
    ensures writable { IfOk result (λ x. IsWritable (value_view x.0)) }
    // What is spelled is read, whatever follows it.
    ensures only { (t : Tree) (front rest : List ℕ) → Spells t front → drop at bytes.now ≡ front ++ rest
        → IsValueUnlessMemory result t (at + length front) }
    // Each fault comes exactly where it is the first broken rule.
    ensures broken { IfErr result (λ fault. fault ≢ PackFault.Memory → Breaks (drop at bytes.now) fault) }
    ensures fault { (fault : PackFault) → Breaks (drop at bytes.now) fault → IsFaultUnlessMemory result fault }
{
    let (value, rest) = value_of(alloc, DEPTH, &bytes[at..])?;
    Ok((value, bytes.len() - rest.len()))
}

/// The value at the front, in which at most `depth` arrays and maps stand inside each other, and what follows it.
#[cycle(value)]
#[tactic(auto, unfolding(crate::specs::Reading::value_at))]
pub(crate) fn value_of(
    alloc: Global,
    depth: usize,
    bytes: &[u8],
) -> Result<(Value, &[u8]), PackFault>
    ensures { Gives (λ x. (value_view x.0, x.1.now)) result (value_at depth bytes.now) }
{
    let [first, rest @ ..] = bytes else {
        return Err(PackFault::Short);
    };
    let first = first_of(*first);
    if depth == 0 {
        return flat_of(alloc, first, rest);
    }
    match first {
        First::Array(count) => array_of(alloc, depth - 1, count, rest),
        First::Table(count) => table_of(alloc, depth - 1, count, rest),
        _ => flat_of(alloc, first, rest),
    }
}

/// The array behind its first byte, and what follows it.
#[cycle(value)]
#[tactic(auto, using(crate::proofs::ViewLemmas::view_array), unfolding(crate::specs::Reading::array_at))]
fn array_of(
    alloc: Global,
    depth: usize,
    count: Count,
    bytes: &[u8],
) -> Result<(Value, &[u8]), PackFault>
    ensures { Gives (λ x. (value_view x.0, x.1.now)) result (array_at (value_at depth) (count_view count) bytes.now) }
{
    let (count, rest) = count_of(count, bytes)?;
    let (items, rest) = items_of(alloc, depth, count, rest)?;
    Ok((Value::Array(items), rest))
}

/// The map behind its first byte, and what follows it.
#[cycle(value)]
#[tactic(auto, using(crate::proofs::ViewLemmas::view_table), unfolding(crate::specs::Reading::table_at))]
fn table_of(
    alloc: Global,
    depth: usize,
    count: Count,
    bytes: &[u8],
) -> Result<(Value, &[u8]), PackFault>
    ensures { Gives (λ x. (value_view x.0, x.1.now)) result (table_at (value_at depth) (count_view count) bytes.now) }
{
    let (count, rest) = count_of(count, bytes)?;
    let (pairs, rest) = pairs_of(alloc, depth, count, rest)?;
    Ok((Value::Table(pairs), rest))
}

/// The value behind its first byte where no array or map may begin, and what follows it.
fn flat_of(alloc: Global, first: First, bytes: &[u8]) -> Result<(Value, &[u8]), PackFault>
    ensures { Gives (λ x. (value_view x.0, x.1.now)) result (flat_by (first_view first) bytes.now) }
{
    match first {
        First::Refused => Err(PackFault::Kind),
        First::Nil => Ok((Value::Nil, bytes)),
        First::Flag(flag) => Ok((Value::Flag(flag), bytes)),
        First::Small(number) => Ok((Value::Number(i128::from(number)), bytes)),
        First::Unsigned(width) => {
            let (number, rest) = unsigned_number(width, bytes)?;
            Ok((Value::Number(i128::from(number)), rest))
        }
        First::Signed(width) => {
            let (number, rest) = signed_number(width, bytes)?;
            Ok((Value::Number(i128::from(number)), rest))
        }
        First::Raw(count) => {
            let (content, rest) = raw_of(count, bytes)?;
            Ok((Value::Raw(Vec::from_slice(alloc, content)?), rest))
        }
        First::Array(_) | First::Table(_) => Err(PackFault::Deep),
    }
}

/// The next `count` values, and what follows them. Memory is taken for a value once it is read.
#[cycle(value)]
fn items_of(
    alloc: Global,
    depth: usize,
    count: u64,
    bytes: &[u8],
) -> Result<(Vec<Value>, &[u8]), PackFault>
    ensures { Gives (λ x. (items_view x.0.items, x.1.now)) result (items_at (value_at depth) count bytes.now) }
{
    let mut items = Vec::new(alloc);
    let mut rest = bytes;
    'items: for _ in 0..count {
        let (item, after) = value_of(alloc, depth, rest)?;
        items.push(item)?;
        rest = after;
    }
    Ok((items, rest))
}

/// The next `count` pairs in byte order of their keys, and what follows them. A key that stands twice is told before
/// its value is read.
#[cycle(value)]
fn pairs_of(
    alloc: Global,
    depth: usize,
    count: u64,
    bytes: &[u8],
) -> Result<(Vec<(Vec<u8>, Value)>, &[u8]), PackFault>
    ensures { Gives (λ x. (pairs_view x.0.items, x.1.now)) result (pairs_at (value_at depth) count no_pairs bytes.now) }
{
    let mut found = BTreeMap::new(alloc);
    let mut rest = bytes;
    'pairs: for _ in 0..count {
        let (key, after) = key_of(rest)?;
        if found.contains_key(key) {
            return Err(PackFault::Repeat);
        }
        let (value, after) = value_of(alloc, depth, after)?;
        drop(found.insert(Vec::from_slice(alloc, key)?, value)?);
        rest = after;
    }
    Ok((pairs_in_order(alloc, found)?, rest))
}

/// The pairs of a map as a vector, the least key first.
pub(crate) fn pairs_in_order(
    alloc: Global,
    found: BTreeMap<Vec<u8>, Value>,
) -> Result<Vec<(Vec<u8>, Value)>, AllocError>
    ensures { IfOk result (λ pairs. pairs.items ≡ found.entries) }
{
    found.into_iter().collect(alloc)
}
