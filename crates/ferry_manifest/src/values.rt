//! Values of packed maps, read and written.

ghost use Rattle.std.specs.Prelude.{◌≡◌, ◌≢◌, ◌≤◌, ◌<◌, IfOk, IfErr, length, option_map, unwrap_or};
ghost use Rattle.ferry_base.specs.Limits.{content_limit};
ghost use Rattle.ferry_msgpack.specs.Tree.{no_pairs};
ghost use Rattle.ferry_msgpack.specs.Shortest.{shortest};
ghost use Rattle.ferry_msgpack.specs.View.{value_view, pairs_view};
ghost use Rattle.ferry_msgpack.specs.Writable.{IsWritable};
ghost use Rattle.ferry_fields.specs.Fields.{pairs_in, raw_of};
ghost use Rattle.ferry_fields.specs.Sizes.{IsOrdered};

use crate::fault::MetaFault;
use ferry_base::CONTENT_LIMIT;
use ferry_fields::copied;
use ferry_msgpack::{Value, write};
use std::alloc::{AllocError, Global};
use std::collections::BTreeMap;

/// The bytes that a value is.
pub(crate) fn raw_of(value: &Value) -> Option<&[u8]>
    ensures { option_map (λ x. x.now) result ≡ raw_of (value_view value.now) }
{
    match value {
        Value::Raw(content) => Some(content.as_slice()),
        _ => None,
    }
}

/// The pairs of a value that is a map.
#[tactic(auto, using(ferry_msgpack::proofs::ViewLemmas::view_table))]
pub(crate) fn pairs_in(value: &Value) -> Option<&[(Vec<u8>, Value)]>
    ensures { option_map (λ x. pairs_view x.now) result ≡ pairs_in (value_view value.now) }
{
    match value {
        Value::Table(pairs) => Some(pairs.as_slice()),
        _ => None,
    }
}

/// A copy of the pairs of a table.
pub(crate) fn pairs_of_table(
    alloc: Global,
    value: &Value,
) -> Result<BTreeMap<Vec<u8>, Value>, AllocError>
    requires { IsOrdered (value_view value.now) }
    ensures pairs { IfOk result (λ pairs.
        pairs_view pairs.entries ≡ unwrap_or (pairs_in (value_view value.now)) no_pairs) }
{
    match value {
        Value::Table(pairs) => Ok(copied(alloc, pairs.as_slice())?),
        _ => Ok(BTreeMap::new(alloc)),
    }
}

/// The bytes of a value, where they aren't too many.
pub(crate) fn short_text(alloc: Global, value: &Value) -> Result<Vec<u8>, MetaFault>
    requires { IsWritable (value_view value.now) }
    ensures text { IfOk result (λ text. text.items ≡ shortest (value_view value.now)) }
    ensures small { IfOk result (λ text. length text.items ≤ content_limit) }
    ensures large { IfErr result (λ fault. fault ≢ MetaFault.Memory → (fault ≡ MetaFault.TooLarge)
        × (content_limit < length (shortest (value_view value.now)))) }
{
    let mut text = Vec::new(alloc);
    write(value, &mut text)?;
    if text.len() > CONTENT_LIMIT {
        return Err(MetaFault::TooLarge);
    }
    Ok(text)
}
