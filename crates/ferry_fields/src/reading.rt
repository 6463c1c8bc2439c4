//! From bytes to the pairs of a map.

ghost use Rattle.std.specs.Prelude.{◌≡◌, ◌≢◌, IfOk, IfErr, Some, None, option_map};
ghost use Rattle.ferry_msgpack.specs.Apart.{apart_view, parted};
ghost use Rattle.ferry_msgpack.specs.Tree.{table};
ghost use Rattle.ferry_msgpack.specs.View.{value_view, pairs_view};
ghost use Rattle.ferry_msgpack.specs.Writable.{IsWritable};
ghost use Rattle.ferry_fields.specs.Fields.{map_of, pairs_in};

use crate::fault::MapFault;
use ferry_msgpack::{Apart, Value, read, read_map_apart};
use std::alloc::Global;

/// The pairs of the map that the bytes spell, with nothing behind it, in byte order of their names.
///
/// `Memory` may come from any bytes, at any point.
///
/// Source: msgpack specification, "Formats".
pub fn map_of(alloc: Global, bytes: &[u8]) -> Result<Vec<(Vec<u8>, Value)>, MapFault>
    ensures map { IfOk result (λ pairs. map_of bytes.now ≡ Some (pairs_view pairs.items)) }
    ensures fault { IfErr result (λ fault. fault ≢ MapFault.Memory → map_of bytes.now ≡ None) }
    // The pairs can be written.
    ensures writable { IfOk result (λ pairs. IsWritable (table (pairs_view pairs.items))) }
{
    let value = only_value(alloc, bytes)?;
    pairs_of(value)
}

/// The map that the bytes spell, with nothing behind it, and with the value of `name` apart.
///
/// Of an array under the name no values are made, only a list of the contents of its raws, where each has 32 bytes. `Memory`
/// may come from any bytes, at any point.
///
/// Source: msgpack specification, "Formats".
pub fn map_apart_of(alloc: Global, bytes: &[u8], name: &[u8]) -> Result<Apart, MapFault>
    ensures map { IfOk result (λ apart. option_map (parted name.now) (map_of bytes.now) ≡ Some (apart_view apart)) }
    ensures fault { IfErr result (λ fault. fault ≢ MapFault.Memory → map_of bytes.now ≡ None) }
{
    let (apart, rest) = read_map_apart(alloc, bytes, name)?;
    if !rest.is_empty() {
        return Err(MapFault::Pack);
    }
    match apart {
        Some(apart) => Ok(apart),
        None => Err(MapFault::Pack),
    }
}

/// The value that the bytes spell, with nothing behind it.
fn only_value(alloc: Global, bytes: &[u8]) -> Result<Value, MapFault>
    ensures value { IfOk result (λ value. map_of bytes.now ≡ pairs_in (value_view value)) }
    ensures fault { IfErr result (λ fault. fault ≢ MapFault.Memory → map_of bytes.now ≡ None) }
    ensures writable { IfOk result (λ value. IsWritable (value_view value)) }
{
    let (value, stop) = read(alloc, bytes, 0)?;
    if stop != bytes.len() {
        return Err(MapFault::Pack);
    }
    Ok(value)
}

/// The pairs of a map.
#[tactic(auto, using(ferry_msgpack::proofs::ViewLemmas::view_table))]
fn pairs_of(value: Value) -> Result<Vec<(Vec<u8>, Value)>, MapFault>
    requires { IsWritable (value_view value) }
    ensures pairs { IfOk result (λ pairs. pairs_in (value_view value) ≡ Some (pairs_view pairs.items)) }
    ensures fault { IfErr result (λ fault. (fault ≡ MapFault.Pack) × (pairs_in (value_view value) ≡ None)) }
    ensures writable { IfOk result (λ pairs. IsWritable (table (pairs_view pairs.items))) }
{
    match value {
        Value::Table(pairs) => Ok(pairs),
        _ => Err(MapFault::Pack),
    }
}
