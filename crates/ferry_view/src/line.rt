//! The line of an item.
ghost use Rattle.std.specs.Prelude.{◌≡◌, ◌++◌, OnOk, unwrap_or, codes, decimal};
ghost use Rattle.ferry_fields.specs.Fields.{pairs_in};
ghost use Rattle.ferry_item.specs.Item.{item_view};
ghost use Rattle.ferry_msgpack.specs.Tree.{no_pairs};
ghost use Rattle.ferry_msgpack.specs.View.{value_view, pairs_view};
ghost use Rattle.ferry_view.specs.Lines.{path_of, has_source, sizes, item_front, item_line};

use ferry_fields::{raw_in, value_of};
use ferry_item::{ChunkRef, Item};
use ferry_msgpack::Value;
use ferry_text::{write_number, write_text};
use std::alloc::AllocError;

/// Appends the line of an item.
#[tactic(auto, unfolding(crate::specs::Lines::item_line))]
pub(crate) fn push_item(item: &Item, text: &mut Vec<u8>) -> Result<(), AllocError>
    ensures ok { OnOk result (text.new.items ≡ text.old.items ++ item_line (item_view item.now)) }
{
    push_front(item, text)?;
    text.push(b' ')?;
    write_text(path_of(item), text)?;
    text.push(b'\n')?;
    Ok(())
}

/// Appends the kind of an item and its size.
fn push_front(item: &Item, text: &mut Vec<u8>) -> Result<(), AllocError>
    ensures ok { OnOk result (text.new.items
        ≡ text.old.items ++ item_front (item_view item.now).chunks (has_source (item_view item.now))) }
{
    match &item.chunks {
        Some(chunks) => push_size(chunks.as_slice(), text),
        None if has_source(item) => text.extend_from_slice(b"l 0"),
        None => text.extend_from_slice(b"- 0"),
    }
}

/// Appends the kind of an item that has content, and the size of these chunks.
fn push_size(chunks: &[ChunkRef], text: &mut Vec<u8>) -> Result<(), AllocError>
    ensures ok { OnOk result (text.new.items ≡ text.old.items ++ (codes "f " ++ decimal (sizes chunks.now))) }
{
    text.extend_from_slice(b"f ")?;
    write_number(sizes(chunks), text)
}

/// The stated sizes of chunks, added up. Each has 64 bits, so the sum has 128.
fn sizes(chunks: &[ChunkRef]) -> u128
    ensures { result ≡ sizes chunks.now }
{
    let mut sum = 0u128;
    for place in 0..chunks.len() {
        sum += u128::from(chunks[place].size);
    }
    sum
}

/// Whether an item has the field `source`, as links have.
fn has_source(item: &Item) -> bool
    ensures { result ≡ has_source (item_view item.now) }
{
    value_of(pairs_of(&item.fields), b"source").is_some()
}

/// The path of an item.
pub(crate) fn path_of(item: &Item) -> &[u8]
    ensures { result.now ≡ path_of (item_view item.now) }
{
    match raw_in(pairs_of(&item.fields), b"path") {
        Some(path) => path,
        None => b"",
    }
}

/// The pairs of an item's fields.
fn pairs_of(fields: &Value) -> &[(Vec<u8>, Value)]
    ensures { pairs_view result.now ≡ unwrap_or (pairs_in (value_view fields.now)) no_pairs }
{
    match fields {
        Value::Table(pairs) => pairs.as_slice(),
        _ => &[],
    }
}
