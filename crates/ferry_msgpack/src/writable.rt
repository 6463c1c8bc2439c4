//! Which values can be written.

ghost use Rattle.std.specs.Prelude.{◌≡◌, ◌↔◌, IsTrue};
ghost use Rattle.ferry_msgpack.specs.Tree.{array, table};
ghost use Rattle.ferry_msgpack.specs.View.{value_view, items_view, pairs_view};
ghost use Rattle.ferry_msgpack.specs.Writable.{IsWritable};
ghost use Rattle.ferry_msgpack.specs.WritableTest.{fits_within, keys_increase};

use crate::value::{DEPTH, Value};

/// The least number that can be written: -2^63.
const LEAST_NUMBER: i128 = -0x8000_0000_0000_0000;

/// What is above every number that can be written: 2^64.
const NUMBERS_END: i128 = 0x1_0000_0000_0000_0000;

/// What is above every length of a raw, an array or a map that can be written: 2^32.
const LENGTHS_END: usize = 0x1_0000_0000;

/// Tells whether a value can be written: its numbers lie from -2^63 to 2^64-1, at most 64 arrays and maps stand inside
/// each other, lengths are below 2^32, and the keys of each table increase. It takes no memory.
pub fn is_writable(value: &Value) -> bool
    ensures { IsTrue result ↔ IsWritable (value_view value.now) }
{
    value_fits(value, DEPTH)
}

/// The value fits, and at most `depth` arrays and maps stand inside each other.
#[cycle(fits)]
fn value_fits(value: &Value, depth: usize) -> bool
    ensures { result ≡ fits_within depth (value_view value.now) }
{
    match value {
        Value::Nil | Value::Flag(_) => true,
        Value::Number(number) => LEAST_NUMBER <= *number && *number < NUMBERS_END,
        Value::Raw(content) => content.len() < LENGTHS_END,
        Value::Array(items) => array_fits(items, depth),
        Value::Table(pairs) => table_fits(pairs, depth),
    }
}

#[cycle(fits)]
fn array_fits(items: &Vec<Value>, depth: usize) -> bool
    ensures { result ≡ fits_within depth (array (items_view items.now.items)) }
{
    if depth == 0 {
        return false;
    }
    if items.len() >= LENGTHS_END {
        return false;
    }
    for item in items {
        if !value_fits(item, depth - 1) {
            return false;
        }
    }
    true
}

#[cycle(fits)]
fn table_fits(pairs: &Vec<(Vec<u8>, Value)>, depth: usize) -> bool
    ensures { result ≡ fits_within depth (table (pairs_view pairs.now.items)) }
{
    if depth == 0 {
        return false;
    }
    if pairs.len() >= LENGTHS_END {
        return false;
    }
    if !keys_increase(pairs) {
        return false;
    }
    for (key, value) in pairs {
        if key.len() >= LENGTHS_END {
            return false;
        }
        if !value_fits(value, depth - 1) {
            return false;
        }
    }
    true
}

/// Each key is below the next one.
fn keys_increase(pairs: &[(Vec<u8>, Value)]) -> bool
    ensures { result ≡ keys_increase (pairs_view pairs.now) }
{
    for i in 1..pairs.len() {
        if !pairs[i - 1].0.cmp(&pairs[i].0).is_lt() {
            return false;
        }
    }
    true
}
