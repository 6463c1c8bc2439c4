//! The fields of a map by their names.

ghost use Rattle.std.specs.Prelude.{◌≡◌, option_map};
ghost use Rattle.ferry_msgpack.specs.View.{value_view, pairs_view};
ghost use Rattle.ferry_fields.specs.Fields.{value_of, number_in, raw_in, raw32_in, raw64_in, map_in, has_version_1};

use ferry_msgpack::Value;

/// The value of a name: that of the first pair with it. A map that was read has a name once.
pub fn value_of<'a>(pairs: &'a [(Vec<u8>, Value)], name: &[u8]) -> Option<&'a Value>
    ensures value { option_map (λ v. value_view v.now) result ≡ value_of name.now (pairs_view pairs.now) }
{
    for place in 0..pairs.len() {
        if pairs[place].0.as_slice() == name {
            return Some(&pairs[place].1);
        }
    }
    None
}

/// The number of a name, where its value is one.
pub fn number_in(pairs: &[(Vec<u8>, Value)], name: &[u8]) -> Option<i128>
    ensures number { result ≡ number_in name.now (pairs_view pairs.now) }
{
    match value_of(pairs, name) {
        Some(Value::Number(number)) => Some(*number),
        _ => None,
    }
}

/// The bytes of a name, where its value is raw.
pub fn raw_in<'a>(pairs: &'a [(Vec<u8>, Value)], name: &[u8]) -> Option<&'a [u8]>
    ensures raw { option_map (λ x. x.now) result ≡ raw_in name.now (pairs_view pairs.now) }
{
    match value_of(pairs, name) {
        Some(Value::Raw(content)) => Some(content.as_slice()),
        _ => None,
    }
}

/// The bytes of a name, where its value is raw and they are 32.
pub fn raw32_in(pairs: &[(Vec<u8>, Value)], name: &[u8]) -> Option<[u8; 32]>
    ensures raw { result ≡ raw32_in name.now (pairs_view pairs.now) }
{
    let content = raw_in(pairs, name)?;
    if content.len() != 32 {
        return None;
    }
    let mut bytes = [0u8; 32];
    bytes.copy_from_slice(content);
    Some(bytes)
}

/// The bytes of a name, where its value is raw and they are 64.
pub fn raw64_in(pairs: &[(Vec<u8>, Value)], name: &[u8]) -> Option<[u8; 64]>
    ensures raw { result ≡ raw64_in name.now (pairs_view pairs.now) }
{
    let content = raw_in(pairs, name)?;
    if content.len() != 64 {
        return None;
    }
    let mut bytes = [0u8; 64];
    bytes.copy_from_slice(content);
    Some(bytes)
}

/// The pairs of a name, where its value is a map.
pub fn map_in<'a>(pairs: &'a [(Vec<u8>, Value)], name: &[u8]) -> Option<&'a [(Vec<u8>, Value)]>
    ensures map { option_map (λ x. pairs_view x.now) result ≡ map_in name.now (pairs_view pairs.now) }
{
    match value_of(pairs, name) {
        Some(Value::Table(inner)) => Some(inner.as_slice()),
        _ => None,
    }
}

/// Whether `version` is there and is the number 1.
pub fn has_version_1(pairs: &[(Vec<u8>, Value)]) -> bool
    ensures version { result ≡ has_version_1 (pairs_view pairs.now) }
{
    match number_in(pairs, b"version") {
        Some(number) => number == 1,
        None => false,
    }
}
