//! From the value of `chunks` to the chunks of an item.

ghost use Rattle.std.specs.Prelude.{◌≡◌, ◌≢◌, IfOk, IfErr, Some, None, option_map, option_and_then};
ghost use Rattle.ferry_msgpack.specs.View.{value_view, items_view, pairs_view};
ghost use Rattle.ferry_msgpack.specs.Writable.{Fits, ItemsFit};
ghost use Rattle.ferry_fields.specs.Fields.{of_32};
ghost use Rattle.ferry_item.specs.Item.{chunk_from, chunk_of, chunks_of, chunks_said, csize_of, id_of, size_of, three_of};
ghost use Rattle.ferry_item.specs.declared.fault.ItemFault.{ItemFault};

use crate::fault::ItemFault;
use crate::item::{ChunkRef, ChunkRefs};
use ferry_base::{CONTENT_LIMIT, Id};
use ferry_msgpack::Value;
use std::alloc::Global;

/// What the value of `chunks` says: nil is no chunks, and an array of chunks is these.
pub(crate) fn chunks_said(alloc: Global, value: &Value) -> Result<Option<ChunkRefs>, ItemFault>
    requires { Fits (value_view value.now) }
    ensures chunks { IfOk result (λ chunks. chunks_said (value_view value.now) ≡ Some chunks) }
    ensures fault { IfErr result (λ fault. fault ≢ ItemFault.Memory
        → (fault ≡ ItemFault.Chunks) × (chunks_said (value_view value.now) ≡ None)) }
{
    match value {
        Value::Nil => Ok(None),
        Value::Array(items) => Ok(Some(chunks_of(alloc, items.as_slice())?)),
        _ => Err(ItemFault::Chunks),
    }
}

/// The chunks that these values are, where each is one.
fn chunks_of(alloc: Global, items: &[Value]) -> Result<ChunkRefs, ItemFault>
    requires { ItemsFit (items_view items.now) }
    ensures chunks { IfOk result (λ chunks. chunks_of (items_view items.now) ≡ Some chunks) }
    ensures fault { IfErr result (λ fault. fault ≢ ItemFault.Memory
        → (fault ≡ ItemFault.Chunks) × (chunks_of (items_view items.now) ≡ None)) }
{
    let mut chunks = Vec::new(alloc);
    for place in 0..items.len() {
        let Some(chunk) = chunk_of(&items[place]) else {
            return Err(ItemFault::Chunks);
        };
        chunks.push(chunk)?;
    }
    Ok(ChunkRefs::new(chunks))
}

/// The chunk that a value is: an array of exactly an id, a size and a csize.
#[tactic(auto, unfolding(crate::specs::Item::chunk_of))]
fn chunk_of(value: &Value) -> Option<ChunkRef>
    requires { Fits (value_view value.now) }
    ensures { result ≡ chunk_of (value_view value.now) }
{
    match value {
        Value::Array(items) => chunk_of_items(items.as_slice()),
        _ => None,
    }
}

/// The chunk of the values of an array, where they are exactly an id, a size and a csize.
#[tactic(auto, using(crate::proofs::ReadLemmas::too_few, crate::proofs::ReadLemmas::too_many))]
fn chunk_of_items(items: &[Value]) -> Option<ChunkRef>
    requires { ItemsFit (items_view items.now) }
    ensures { result ≡ option_and_then chunk_from (three_of (items_view items.now)) }
{
    let [id, size, csize] = items else {
        return None;
    };
    let id = id_of(id)?;
    let size = size_of(size)?;
    let csize = csize_of(csize)?;
    Some(ChunkRef { id, size, csize })
}

/// The 32 bytes that a value is.
fn id_of(value: &Value) -> Option<Id>
    ensures { result ≡ id_of (value_view value.now) }
{
    match value {
        Value::Raw(content) => id_of_bytes(content.as_slice()),
        _ => None,
    }
}

/// These bytes, where they are 32.
fn id_of_bytes(content: &[u8]) -> Option<Id>
    ensures { result ≡ of_32 content.now }
{
    if content.len() != 32 {
        return None;
    }
    let mut id = [0u8; 32];
    id.copy_from_slice(content);
    Some(id)
}

/// The size that a value is: a number from 0 to the most bytes of a content.
fn size_of(value: &Value) -> Option<u64>
    ensures { result ≡ size_of (value_view value.now) }
{
    match value {
        Value::Number(number) if 0 <= *number && *number <= CONTENT_LIMIT as i128 => {
            Some(*number as u64)
        }
        _ => None,
    }
}

/// The csize that a value is: a number of 0 or above.
fn csize_of(value: &Value) -> Option<u64>
    requires { Fits (value_view value.now) }
    ensures { result ≡ csize_of (value_view value.now) }
{
    match value {
        Value::Number(number) if 0 <= *number => Some(*number as u64),
        _ => None,
    }
}
