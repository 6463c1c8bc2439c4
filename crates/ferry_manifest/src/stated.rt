//! The authentication tag that a map states, read and compared.

ghost use Rattle.std.specs.Prelude.{◌≡◌, IfOk, IfErr, Some, None, option_and_then};
ghost use Rattle.ferry_msgpack.specs.View.{value_view, pairs_view};
ghost use Rattle.ferry_fields.specs.Fields.{pairs_in};
ghost use Rattle.ferry_manifest.specs.Stated.{is_right, tag_from, tag_in};

use crate::fault::MetaFault;
use crate::tag::tag_of;
use crate::values::pairs_in;
use ferry_fields::{raw_in, raw64_in, value_of};
use ferry_mac::Keys;
use ferry_msgpack::Value;
use std::alloc::Global;

/// An authentication tag as it is stated, and its salt.
#[derive(Clone, Copy)]
pub(crate) struct StatedTag {
    pub(crate) hmac: [u8; 64],
    pub(crate) salt: [u8; 64],
}

/// The tag, where the name is absent or has a map with a tag of the known type.
pub(crate) fn tag_in(pairs: &[(Vec<u8>, Value)]) -> Result<Option<StatedTag>, MetaFault>
    ensures tag { IfOk result (λ tag. tag_in (pairs_view pairs.now) ≡ Some tag) }
    ensures fault { IfErr result (λ fault.
        (fault ≡ MetaFault.Field) × (tag_in (pairs_view pairs.now) ≡ None)) }
{
    let Some(value) = value_of(pairs, b"tam") else {
        return Ok(None);
    };
    match tag_of_value(value) {
        Some(tag) => Ok(Some(tag)),
        None => Err(MetaFault::Field),
    }
}

/// The tag, where the value is a map with a tag of the known type.
fn tag_of_value(value: &Value) -> Option<StatedTag>
    ensures { result ≡ option_and_then tag_from (pairs_in (value_view value.now)) }
{
    let fields = pairs_in(value)?;
    let known = raw_in(fields, b"type")?;
    if known != b"HKDF_HMAC_SHA512".as_slice() {
        return None;
    }
    let hmac = raw64_in(fields, b"hmac")?;
    let salt = raw64_in(fields, b"salt")?;
    Some(StatedTag { hmac, salt })
}

/// Whether a tag is the one that packed bytes have to have.
pub(crate) fn is_right(
    alloc: Global,
    info: &[u8],
    keys: &Keys,
    bytes: &[u8],
    stated: &StatedTag,
) -> Result<bool, MetaFault>
    ensures right { IfOk result (λ right. right ≡ is_right info.now keys.now bytes.now stated.now) }
    ensures fault { IfErr result (λ fault. fault ≡ MetaFault.Memory) }
{
    let tag = tag_of(alloc, info, keys, &stated.salt, bytes)?;
    Ok(tag.as_slice() == stated.hmac.as_slice())
}
