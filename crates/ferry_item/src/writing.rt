//! From an item to its bytes.

ghost use Rattle.std.specs.Prelude.{◌≡◌, ◌<◌, ◌^◌, ◌++◌, List, ℕ, length, IfOk, OnOk, OnErr, false, unwrap_or};
ghost use Rattle.ferry_msgpack.specs.Tree.{table, no_pairs};
ghost use Rattle.ferry_msgpack.specs.View.{value_view, items_view, pairs_view};
ghost use Rattle.ferry_msgpack.specs.Writable.{IsWritable};
ghost use Rattle.ferry_fields.specs.Fields.{pairs_in};
ghost use Rattle.ferry_item.specs.Item.{is_healed, item_view};
ghost use Rattle.ferry_item.specs.Stream.{an_item, front_item};
ghost use Rattle.ferry_item.specs.Writing.{AreInRange, IsPackable, RangeOf, chunk_tree, chunk_trees, field_pairs, item_pairs, item_text, with_chunks};

use crate::item::{ChunkRef, ChunkRefs, Item};
use ferry_fields::{copied, put, table_of};
use ferry_msgpack::{Value, write};
use std::alloc::{AllocError, Global};
use std::collections::BTreeMap;

/// Appends an item to a stream, with the allocator of `into`: the one shortest spelling of its map.
///
/// After a refusal, which is want of memory, `into` is as it was. An item with the field
/// `chunks_healthy` is written too, and is refused when it is read.
///
/// Source: BorgBackup 1.2, Internals, "Data structures and file formats", Archives.
#[tactic(auto, unfolding(crate::specs::Writing::item_text))]
pub fn write_item(item: &Item, into: &mut Vec<u8>) -> Result<(), AllocError>
    requires packable { IsPackable (item_view item.now) }
    ensures ok { OnOk result (into.new.items ≡ into.old.items ++ item_text (item_view item.now)) }
    ensures err { OnErr result (into.new.items ≡ into.old.items) }
    // What is written is read as the same item, whatever follows it.
    ensures again { OnOk result (is_healed (field_pairs (item_view item.now)) ≡ false → (rest : List ℕ)
        → front_item (item_text (item_view item.now) ++ rest) ≡ an_item (item_view item.now) rest) }
{
    let alloc = *into.allocator();
    let value = item_value(alloc, item)?;
    write(&value, into)
}

/// The map of an item.
fn item_value(alloc: Global, item: &Item) -> Result<Value, AllocError>
    requires { IsPackable (item_view item.now) }
    ensures value { IfOk result (λ value. value_view value ≡ table (item_pairs (item_view item.now))) }
    ensures range { IfOk result (λ _. RangeOf item.now.chunks) }
{
    let mut pairs = pairs_of_table(alloc, &item.fields)?;
    put_chunks(alloc, &mut pairs, &item.chunks)?;
    table_of(alloc, pairs)
}

/// A copy of the pairs of a table.
fn pairs_of_table(alloc: Global, value: &Value) -> Result<BTreeMap<Vec<u8>, Value>, AllocError>
    requires { IsWritable (value_view value.now) }
    ensures pairs { IfOk result (λ pairs.
        pairs_view pairs.entries ≡ unwrap_or (pairs_in (value_view value.now)) no_pairs) }
{
    match value {
        Value::Table(pairs) => Ok(copied(alloc, pairs.as_slice())?),
        _ => Ok(BTreeMap::new(alloc)),
    }
}

/// Puts the chunks in their place, where there are some.
fn put_chunks(
    alloc: Global,
    pairs: &mut BTreeMap<Vec<u8>, Value>,
    chunks: &Option<ChunkRefs>,
) -> Result<(), AllocError>
    ensures pairs { OnOk result (
        pairs_view pairs.new.entries ≡ with_chunks chunks.now (pairs_view pairs.old.entries)) }
    ensures range { OnOk result (RangeOf chunks.now) }
{
    match chunks {
        Some(chunks) => {
            let arrays = Value::Array(chunk_values(alloc, chunks.as_slice())?);
            put(alloc, pairs, b"chunks", arrays)
        }
        None => Ok(()),
    }
}

/// The arrays of chunks.
fn chunk_values(alloc: Global, chunks: &[ChunkRef]) -> Result<Vec<Value>, AllocError>
    ensures values { IfOk result (λ values. items_view values.items ≡ chunk_trees chunks.now) }
    ensures range { IfOk result (λ _. AreInRange chunks.now) }
{
    let mut values = Vec::new(alloc);
    for place in 0..chunks.len() {
        let value = chunk_value(alloc, &chunks[place])?;
        values.push(value)?;
    }
    Ok(values)
}

/// The array of a chunk: its id, its size and its csize.
fn chunk_value(alloc: Global, chunk: &ChunkRef) -> Result<Value, AllocError>
    ensures value { IfOk result (λ value. value_view value ≡ chunk_tree chunk.now) }
    ensures id { IfOk result (λ _. length chunk.now.id ≡ 32) }
    ensures csize { IfOk result (λ _. chunk.now.csize < 2 ^ 64) }
{
    let mut parts = Vec::with_capacity(alloc, 3)?;
    parts.push(Value::Raw(Vec::from_slice(alloc, &chunk.id)?))?;
    parts.push(Value::Number(i128::from(chunk.size)))?;
    parts.push(Value::Number(i128::from(chunk.csize)))?;
    Ok(Value::Array(parts))
}
