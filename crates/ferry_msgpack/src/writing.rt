//! From a value to its one spelling.

ghost use Rattle.std.specs.Prelude.{◌≡◌, ◌++◌, OnOk, OnErr};
ghost use Rattle.ferry_msgpack.specs.Tree.{array, table};
ghost use Rattle.ferry_msgpack.specs.View.{value_view, items_view, pairs_view};
ghost use Rattle.ferry_msgpack.specs.Shortest.{shortest};
ghost use Rattle.ferry_msgpack.specs.Writable.{IsWritable, Fits};
ghost use Rattle.ferry_msgpack.specs.Calls.Write.{Begins};

use crate::heads::{put_array_head, put_map_head, put_number, put_raw};
use crate::value::Value;
use std::alloc::AllocError;

/// Appends the value's one spelling, the shortest, with the allocator of `into`.
///
/// After a refusal, which is want of memory, `into` is as it was. `is_writable` tells whether a value can be written.
///
/// Source: msgpack specification, "Formats".
pub fn write(value: &Value, into: &mut Vec<u8>) -> Result<(), AllocError>
    requires { IsWritable (value_view value.now) }
    ensures ok { OnOk result (into.new.items ≡ into.old.items ++ shortest (value_view value.now)) }
    ensures err { OnErr result (into.new.items ≡ into.old.items) }
{
    let length = into.len();
    let written = put_value(value, into);
    if written.is_err() {
        into.truncate(length);
    }
    written
}

/// Appends a value. After a refusal `into` begins as before.
#[cycle(put)]
fn put_value(value: &Value, into: &mut Vec<u8>) -> Result<(), AllocError>
    requires { Fits (value_view value.now) }
    ensures ok { OnOk result (into.new.items ≡ into.old.items ++ shortest (value_view value.now)) }
    ensures err { OnErr result (Begins into.old.items into.new.items) }
{
    match value {
        Value::Nil => Ok(into.push(0xc0)?),
        Value::Flag(flag) => Ok(into.push(if *flag { 0xc3 } else { 0xc2 })?),
        Value::Number(number) => put_number(into, *number),
        Value::Raw(content) => put_raw(into, content),
        Value::Array(items) => put_items(items, into),
        Value::Table(pairs) => put_pairs(pairs, into),
    }
}

/// Appends an array, its head and its values.
#[cycle(put)]
fn put_items(items: &Vec<Value>, into: &mut Vec<u8>) -> Result<(), AllocError>
    requires { Fits (array (items_view items.now.items)) }
    ensures ok { OnOk result (into.new.items ≡ into.old.items ++ shortest (array (items_view items.now.items))) }
    ensures err { OnErr result (Begins into.old.items into.new.items) }
{
    put_array_head(into, items.len())?;
    for item in items {
        put_value(item, into)?;
    }
    Ok(())
}

/// Appends a map, its head and its pairs.
#[cycle(put)]
fn put_pairs(pairs: &Vec<(Vec<u8>, Value)>, into: &mut Vec<u8>) -> Result<(), AllocError>
    requires { Fits (table (pairs_view pairs.now.items)) }
    ensures ok { OnOk result (into.new.items ≡ into.old.items ++ shortest (table (pairs_view pairs.now.items))) }
    ensures err { OnErr result (Begins into.old.items into.new.items) }
{
    put_map_head(into, pairs.len())?;
    for (key, value) in pairs {
        put_raw(into, key)?;
        put_value(value, into)?;
    }
    Ok(())
}
