//! What an item says of its place.
ghost use Rattle.std.specs.Prelude.{◌≡◌, IfOk, option_and_then, option_map, codes, unwrap_or};
ghost use Rattle.ferry_fields.specs.Fields.{number_in, pairs_in, value_of};
ghost use Rattle.ferry_item.specs.Item.{item_view};
ghost use Rattle.ferry_msgpack.specs.Tree.{no_pairs};
ghost use Rattle.ferry_msgpack.specs.View.{value_view, pairs_view};
ghost use Rattle.ferry_tree.specs.Shapes.{mode_in, origin_by, path_in, shape_of};

use crate::planning::{Origin, Shape};
use ferry_base::Bytes;
use ferry_fields::{number_in, raw_in, value_of};
use ferry_item::Item;
use ferry_msgpack::Value;
use std::alloc::{AllocError, Global};

/// The shape of an item.
pub(crate) fn shape_of(alloc: Global, item: &Item) -> Result<Shape, AllocError>
    ensures shape { IfOk result (λ shape. shape ≡ shape_of (item_view item.now)) }
{
    let pairs = pairs_of(&item.fields);
    let path = Bytes::new(Vec::from_slice(alloc, path_in(pairs))?);
    let origin = origin_in(alloc, pairs)?;
    Ok(Shape {
        path,
        mode: mode_in(pairs),
        origin,
        has_content: item.chunks.is_some(),
    })
}

/// The path among the fields of an item.
fn path_in(pairs: &[(Vec<u8>, Value)]) -> &[u8]
    ensures { result.now ≡ path_in (pairs_view pairs.now) }
{
    match raw_in(pairs, b"path") {
        Some(path) => path,
        None => b"",
    }
}

/// The mode among the fields of an item, where it is a number of 16 bits.
fn mode_in(pairs: &[(Vec<u8>, Value)]) -> Option<u16>
    ensures { result ≡ mode_in (pairs_view pairs.now) }
{
    match number_in(pairs, b"mode") {
        Some(number) if 0 <= number && number <= 65535 => Some(number as u16),
        _ => None,
    }
}

/// The field `source` of an item.
fn origin_in(alloc: Global, pairs: &[(Vec<u8>, Value)]) -> Result<Origin, AllocError>
    ensures origin { IfOk result (λ origin. origin ≡ origin_by (value_of (codes "source") (pairs_view pairs.now))) }
{
    match value_of(pairs, b"source") {
        None => Ok(Origin::Absent),
        Some(Value::Raw(content)) => Ok(Origin::Raw(Bytes::new(Vec::from_slice(alloc, content)?))),
        Some(_) => Ok(Origin::Other),
    }
}

/// The pairs of an item's fields.
fn pairs_of(fields: &Value) -> &[(Vec<u8>, Value)]
    ensures { pairs_view result.now ≡ unwrap_or (pairs_in (value_view fields.now)) no_pairs }
{
    match fields {
        Value::Table(pairs) => pairs.as_slice(),
        _ => &[],
    }
}
