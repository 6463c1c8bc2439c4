//! The item at the front of bytes.

ghost use Rattle.std.specs.Prelude.{◌≡◌, ◌≢◌, ◌≤◌, IfOk, IfErr, IfSome, Ok, Err, Some, None, drop, length, false};
ghost use Rattle.ferry_msgpack.specs.Tree.{table};
ghost use Rattle.ferry_msgpack.specs.View.{value_view, pairs_view};
ghost use Rattle.ferry_msgpack.specs.Writable.{IsWritable, PairsFit};
ghost use Rattle.ferry_fields.specs.Others.{without};
ghost use Rattle.ferry_item.specs.Item.{chunks_in, chunks_names, is_healed, item_of, item_of_value, lacks_path, item_view};
ghost use Rattle.ferry_item.specs.Stream.{an_item, nothing_yet, a_fault, fault_of_rule, front_item};
ghost use Rattle.ferry_item.specs.Writing.{IsPackable, field_pairs};
ghost use Rattle.ferry_item.specs.declared.fault.ItemFault.{ItemFault};

use crate::chunks::chunks_said;
use crate::fault::ItemFault;
use crate::item::{ChunkRefs, Item};
use ferry_fields::{raw_in, value_of, without};
use ferry_msgpack::{PackFault, Value, read};
use std::alloc::{AllocError, Global};

/// The item that begins at byte `at`, and the offset of the byte behind it; none where no more than the bytes are
/// missing.
#[tactic(auto, unfolding(crate::specs::Stream::front_item))]
pub(crate) fn item_at(
    alloc: Global,
    bytes: &[u8],
    at: usize,
) -> Result<Option<(Item, usize)>, ItemFault>
    requires { at ≤ length bytes.now }
    ensures item { IfOk result (λ found. IfSome found (λ x.
        front_item (drop at bytes.now) ≡ an_item (item_view x.0) (drop x.1 bytes.now))) }
    ensures place { IfOk result (λ found. IfSome found (λ x. x.1 ≤ length bytes.now)) }
    ensures packable { IfOk result (λ found. IfSome found (λ x. IsPackable (item_view x.0))) }
    ensures whole { IfOk result (λ found. IfSome found (λ x. is_healed (field_pairs (item_view x.0)) ≡ false)) }
    ensures none { result ≡ Ok None → front_item (drop at bytes.now) ≡ nothing_yet }
    ensures fault { IfErr result (λ fault. fault ≢ ItemFault.Memory
        → front_item (drop at bytes.now) ≡ a_fault fault) }
    ensures rest { result ≢ Err ItemFault.Rest }
{
    match read(alloc, bytes, at) {
        Ok((value, stop)) => Ok(Some((item_of_value(alloc, value)?, stop))),
        Err(rule) => match fault_of_rule(rule) {
            Some(fault) => Err(fault),
            None => Ok(None),
        },
    }
}

/// The fault where a rule of the value is broken; none where the bytes end before it does.
fn fault_of_rule(rule: PackFault) -> Option<ItemFault>
    ensures { result ≡ fault_of_rule rule }
{
    match rule {
        PackFault::Short => None,
        PackFault::Memory => Some(ItemFault::Memory),
        _ => Some(ItemFault::Pack),
    }
}

/// The item that a value means.
#[tactic(auto, using(ferry_msgpack::proofs::ViewLemmas::view_table))]
fn item_of_value(alloc: Global, value: Value) -> Result<Item, ItemFault>
    requires { IsWritable (value_view value) }
    ensures item { IfOk result (λ item. item_of_value (value_view value) ≡ Ok (item_view item)) }
    ensures fault { IfErr result (λ fault. fault ≢ ItemFault.Memory → item_of_value (value_view value) ≡ Err fault) }
    ensures packable { IfOk result (λ item. IsPackable (item_view item)) }
    ensures whole { IfOk result (λ item. is_healed (field_pairs (item_view item)) ≡ false) }
    ensures rest { result ≢ Err ItemFault.Rest }
{
    match value {
        Value::Table(pairs) => item_of(alloc, pairs),
        _ => Err(ItemFault::Pack),
    }
}

/// The item of the pairs of a map.
#[tactic(auto, unfolding(crate::specs::Item::item_of))]
fn item_of(alloc: Global, pairs: Vec<(Vec<u8>, Value)>) -> Result<Item, ItemFault>
    requires { IsWritable (table (pairs_view pairs.items)) }
    ensures item { IfOk result (λ item. item_of (pairs_view pairs.items) ≡ Ok (item_view item)) }
    ensures fault { IfErr result (λ fault. fault ≢ ItemFault.Memory → item_of (pairs_view pairs.items) ≡ Err fault) }
    ensures packable { IfOk result (λ item. IsPackable (item_view item)) }
    ensures whole { IfOk result (λ item. is_healed (field_pairs (item_view item)) ≡ false) }
    ensures rest { result ≢ Err ItemFault.Rest }
{
    if lacks_path(pairs.as_slice()) {
        return Err(ItemFault::Path);
    }
    let chunks = chunks_in(alloc, pairs.as_slice())?;
    if is_healed(pairs.as_slice()) {
        return Err(ItemFault::Healed);
    }
    let fields = Value::Table(others(alloc, pairs)?);
    Ok(Item { fields, chunks })
}

/// Whether `path` is missing or isn't raw.
fn lacks_path(pairs: &[(Vec<u8>, Value)]) -> bool
    ensures { result ≡ lacks_path (pairs_view pairs.now) }
{
    raw_in(pairs, b"path").is_none()
}

/// Whether `chunks_healthy` is there, the chunks before a repair.
fn is_healed(pairs: &[(Vec<u8>, Value)]) -> bool
    ensures { result ≡ is_healed (pairs_view pairs.now) }
{
    value_of(pairs, b"chunks_healthy").is_some()
}

/// The chunks of an item, where `chunks` is absent, nil or an array of chunks.
#[tactic(auto, using(crate::proofs::ReadLemmas::value_fits))]
fn chunks_in(alloc: Global, pairs: &[(Vec<u8>, Value)]) -> Result<Option<ChunkRefs>, ItemFault>
    requires { PairsFit (pairs_view pairs.now) }
    ensures chunks { IfOk result (λ chunks. chunks_in (pairs_view pairs.now) ≡ Some chunks) }
    ensures fault { IfErr result (λ fault. fault ≢ ItemFault.Memory
        → (fault ≡ ItemFault.Chunks) × (chunks_in (pairs_view pairs.now) ≡ None)) }
{
    match value_of(pairs, b"chunks") {
        None => Ok(None),
        Some(value) => chunks_said(alloc, value),
    }
}

/// The pairs whose name isn't `chunks`.
fn others(alloc: Global, pairs: Vec<(Vec<u8>, Value)>) -> Result<Vec<(Vec<u8>, Value)>, AllocError>
    ensures others { IfOk result (λ kept.
        pairs_view kept.items ≡ without chunks_names (pairs_view pairs.items)) }
{
    let names: [&[u8]; 1] = [b"chunks"];
    without(alloc, pairs, &names)
}
