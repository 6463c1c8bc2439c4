//! Pairs put in their places, and written.

ghost use Rattle.std.specs.Prelude.{◌≡◌, IfOk, OnOk};
ghost use Rattle.ferry_msgpack.specs.Tree.{table, raw, put};
ghost use Rattle.ferry_msgpack.specs.View.{value_view, pairs_view};
ghost use Rattle.ferry_msgpack.specs.Shortest.{shortest};
ghost use Rattle.ferry_msgpack.specs.Writable.{IsWritable, IsIncreasing};

use ferry_msgpack::{Value, write};
use std::alloc::{AllocError, Global};
use std::collections::BTreeMap;

/// Puts a pair in its place by the byte order of the names. The value that its name had is gone.
pub fn put(
    alloc: Global,
    pairs: &mut BTreeMap<Vec<u8>, Value>,
    name: &[u8],
    value: Value,
) -> Result<(), AllocError>
    ensures pairs { OnOk result (
        pairs_view pairs.new.entries ≡ put name.now (value_view value) (pairs_view pairs.old.entries)) }
{
    drop(pairs.insert(Vec::from_slice(alloc, name)?, value)?);
    Ok(())
}

/// Puts a pair of a name and bytes in its place. The value that its name had is gone.
pub fn put_raw(
    alloc: Global,
    pairs: &mut BTreeMap<Vec<u8>, Value>,
    name: &[u8],
    content: &[u8],
) -> Result<(), AllocError>
    ensures pairs { OnOk result (
        pairs_view pairs.new.entries ≡ put name.now (raw content.now) (pairs_view pairs.old.entries)) }
{
    put(
        alloc,
        pairs,
        name,
        Value::Raw(Vec::from_slice(alloc, content)?),
    )
}

/// A copy of pairs whose names increase, to which others can be put.
pub fn copied(
    alloc: Global,
    pairs: &[(Vec<u8>, Value)],
) -> Result<BTreeMap<Vec<u8>, Value>, AllocError>
    requires { IsIncreasing (pairs_view pairs.now) }
    ensures pairs { IfOk result (λ copy. pairs_view copy.entries ≡ pairs_view pairs.now) }
{
    let mut copy = BTreeMap::new(alloc);
    for place in 0..pairs.len() {
        let value = pairs[place].1.clone()?;
        put(alloc, &mut copy, pairs[place].0.as_slice(), value)?;
    }
    Ok(copy)
}

/// The map of these pairs as a value, the least name first.
#[tactic(auto, using(ferry_msgpack::proofs::ViewLemmas::view_table))]
pub fn table_of(alloc: Global, pairs: BTreeMap<Vec<u8>, Value>) -> Result<Value, AllocError>
    ensures table { IfOk result (λ value. value_view value ≡ table (pairs_view pairs.entries)) }
{
    Ok(Value::Table(in_order(alloc, pairs)?))
}

/// The bytes of the map of these pairs: its one shortest spelling.
///
/// Source: msgpack specification, "Formats".
pub fn text_of(alloc: Global, pairs: BTreeMap<Vec<u8>, Value>) -> Result<Vec<u8>, AllocError>
    requires { IsWritable (table (pairs_view pairs.entries)) }
    ensures text { IfOk result (λ text. text.items ≡ shortest (table (pairs_view pairs.entries))) }
{
    let value = table_of(alloc, pairs)?;
    let mut text = Vec::new(alloc);
    write(&value, &mut text)?;
    Ok(text)
}

/// The pairs of a map as a vector, the least name first.
fn in_order(
    alloc: Global,
    pairs: BTreeMap<Vec<u8>, Value>,
) -> Result<Vec<(Vec<u8>, Value)>, AllocError>
    ensures { IfOk result (λ all. all.items ≡ pairs.entries) }
{
    pairs.into_iter().collect(alloc)
}
