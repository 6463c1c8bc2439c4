//! From a map to its packed bytes with an authentication tag.

ghost use Rattle.std.specs.Prelude.{◌≡◌, ◌≢◌, ◌≤◌, ◌<◌, IfOk, IfErr, length};
ghost use Rattle.ferry_base.specs.Limits.{content_limit};
ghost use Rattle.ferry_msgpack.specs.Tree.{table};
ghost use Rattle.ferry_msgpack.specs.View.{value_view, pairs_view};
ghost use Rattle.ferry_msgpack.specs.Writable.{IsWritable};
ghost use Rattle.ferry_manifest.specs.Tagged.{IsTaggable, packed, packed_tag, tag_pairs, tagged_pairs, tagged_text};
ghost use Rattle.ferry_manifest.specs.Values.{pairs_of_table};

use crate::fault::MetaFault;
use crate::tag::tag_of_blank;
use crate::values::{pairs_of_table, short_text};
use ferry_fields::{put, put_raw, table_of};
use ferry_mac::Keys;
use ferry_msgpack::{Value, is_writable};
use std::alloc::{AllocError, Global};
use std::collections::BTreeMap;

/// The map of an authentication tag and its salt.
#[tactic(auto, unfolding(crate::specs::Tagged::tag_pairs))]
fn tag_pairs(
    alloc: Global,
    hmac: &[u8; 64],
    salt: &[u8; 64],
) -> Result<BTreeMap<Vec<u8>, Value>, AllocError>
    ensures pairs { IfOk result (λ pairs. pairs_view pairs.entries ≡ tag_pairs hmac.now salt.now) }
{
    let mut pairs = BTreeMap::new(alloc);
    put_raw(alloc, &mut pairs, b"type", b"HKDF_HMAC_SHA512")?;
    put_raw(alloc, &mut pairs, b"salt", salt)?;
    put_raw(alloc, &mut pairs, b"hmac", hmac)?;
    Ok(pairs)
}

/// A map with this tag and salt.
#[tactic(auto, unfolding(crate::specs::Tagged::tagged_pairs))]
fn tagged(alloc: Global, map: &Value, hmac: &[u8; 64], salt: &[u8; 64]) -> Result<Value, AllocError>
    requires { IsTaggable (value_view map.now) }
    ensures table { IfOk result (λ all. value_view all
        ≡ table (tagged_pairs (pairs_of_table (value_view map.now)) hmac.now salt.now)) }
{
    let mut pairs = pairs_of_table(alloc, map)?;
    let tag = table_of(alloc, tag_pairs(alloc, hmac, salt)?)?;
    put(alloc, &mut pairs, b"tam", tag)?;
    table_of(alloc, pairs)
}

/// The packed bytes of a map with this tag and salt, where they aren't too many.
#[tactic(auto, unfolding(crate::specs::Tagged::packed))]
fn packed(
    alloc: Global,
    map: &Value,
    hmac: &[u8; 64],
    salt: &[u8; 64],
) -> Result<Vec<u8>, MetaFault>
    requires { IsTaggable (value_view map.now) }
    ensures text { IfOk result (λ text.
        text.items ≡ packed (pairs_of_table (value_view map.now)) hmac.now salt.now) }
    ensures small { IfOk result (λ text. length text.items ≤ content_limit) }
    ensures writable { IfOk result (λ _.
        IsWritable (table (tagged_pairs (pairs_of_table (value_view map.now)) hmac.now salt.now))) }
    ensures large { IfErr result (λ fault. fault ≢ MetaFault.Memory → (fault ≡ MetaFault.TooLarge)
        × (content_limit < length (packed (pairs_of_table (value_view map.now)) hmac.now salt.now))) }
{
    let all = tagged(alloc, map, hmac, salt)?;
    // Its order and depth are right: where it can't be written, a length in it is 2^32 or more.
    if !is_writable(&all) {
        return Err(MetaFault::TooLarge);
    }
    short_text(alloc, &all)
}

/// The packed bytes of a map with the tag that they have to have, where they aren't too many.
///
/// The map is packed with 64 zero bytes as `hmac`, the tag is made of these bytes, and the map is
/// packed again.
#[tactic(auto, unfolding(crate::specs::Tagged::tagged_text, crate::specs::Tagged::packed_tag))]
pub(crate) fn tagged_text(
    alloc: Global,
    info: &[u8],
    keys: &Keys,
    map: &Value,
    salt: &[u8; 64],
) -> Result<Vec<u8>, MetaFault>
    requires { IsTaggable (value_view map.now) }
    ensures text { IfOk result (λ text.
        text.items ≡ tagged_text info.now keys.now salt.now (pairs_of_table (value_view map.now))) }
    ensures small { IfOk result (λ text. length text.items ≤ content_limit) }
    ensures writable { IfOk result (λ _. let pairs = pairs_of_table (value_view map.now) in
        IsWritable (table (tagged_pairs pairs (packed_tag info.now keys.now salt.now pairs) salt.now))) }
    ensures salt { length salt.now ≡ 64 }
    ensures large { IfErr result (λ fault. fault ≢ MetaFault.Memory → (fault ≡ MetaFault.TooLarge)
        × (content_limit < length (tagged_text info.now keys.now salt.now (pairs_of_table (value_view map.now))))) }
{
    let blank = packed(alloc, map, &[0u8; 64], salt)?;
    let hmac = tag_of_blank(alloc, info, keys, salt, blank.as_slice())?;
    packed(alloc, map, &hmac, salt)
}
