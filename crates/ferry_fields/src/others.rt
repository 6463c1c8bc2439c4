//! The names that no field has.

ghost use Rattle.std.specs.Prelude.{◌≡◌, IfOk, map};
ghost use Rattle.ferry_msgpack.specs.View.{pairs_view};
ghost use Rattle.ferry_fields.specs.Others.{is_among, without};

use ferry_msgpack::Value;
use std::alloc::{AllocError, Global};

/// The pairs whose names aren't among `names`, in the order in which they stood.
pub fn without(
    alloc: Global,
    pairs: Vec<(Vec<u8>, Value)>,
    names: &[&[u8]],
) -> Result<Vec<(Vec<u8>, Value)>, AllocError>
    ensures others { IfOk result (λ kept.
        pairs_view kept.items ≡ without (map (λ n. n.now) names.now) (pairs_view pairs.items)) }
{
    let mut kept = Vec::new(alloc);
    for (name, value) in pairs {
        if !is_among(name.as_slice(), names) {
            kept.push((name, value))?;
        }
    }
    Ok(kept)
}

/// Whether a name is among `names`.
fn is_among(name: &[u8], names: &[&[u8]]) -> bool
    ensures among { result ≡ is_among (map (λ n. n.now) names.now) name.now }
{
    for one in names {
        if name == *one {
            return true;
        }
    }
    false
}
