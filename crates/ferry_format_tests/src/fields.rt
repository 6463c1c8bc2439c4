//! Maps are spelled by hand from the msgpack specification, "Formats".

use ferry_fields::{
    MapFault, copied, fields_laws, has_version_1, map_in, map_of, number_in, put, put_raw, raw_in,
    raw32_in, raw64_in, table_of, text_of, value_of, without,
};
use ferry_msgpack::{Value, is_writable, write};
use std::alloc::{AllocError, Global};
use std::collections::BTreeMap;

/// Bytes, and how many pairs their map has, or none where they are no map.
static COUNTS: [(&[u8], Option<usize>); 9] = [
    (b"\x80", Some(0)),
    (b"\x81\xa1a\x05", Some(1)),
    (b"\xde\x00\x01\xd9\x01a\x05", Some(1)),
    (b"\x82\xa1b\x01\xa1a\x02", Some(2)),
    (b"\x80\x00", None),
    (b"\x90", None),
    (b"\xa1a", None),
    (b"\x81\xa1a", None),
    (b"", None),
];

/// How many pairs the map of the bytes has.
fn count_of(alloc: Global, bytes: &[u8]) -> Option<usize> {
    match map_of(alloc, bytes) {
        Ok(pairs) => Some(pairs.len()),
        Err(_) => None,
    }
}

/// The names `id` with 32 bytes, `inner` with a map, `key` with 64 bytes, `seed` with -7 and `version` with 1.
static FIELDS: &[u8] =
    b"\x85\xa2id\xda\x00 iiiiiiiiiiiiiiiiiiiiiiiiiiiiiiii\xa5inner\x81\xa1a\x05\xa3key\xda\x00@kkkkkkkkkkkkkkkkkkkkkkkkkkkkkkkkkkkkkkkkkkkkkkkkkkkkkkkkkkkkkkkk\xa4seed\xf9\xa7version\x01";

/// Names, and whether each is there, and as a number, raw, raw of 32 bytes, raw of 64 bytes, or a map.
static KINDS: [(&[u8], [bool; 6]); 6] = [
    (b"id", [true, false, true, true, false, false]),
    (b"inner", [true, false, false, false, false, true]),
    (b"key", [true, false, true, false, true, false]),
    (b"seed", [true, true, false, false, false, false]),
    (b"version", [true, true, false, false, false, false]),
    (b"i", [false, false, false, false, false, false]),
];

/// As what a name is there.
fn kinds_of(pairs: &[(Vec<u8>, Value)], name: &[u8]) -> [bool; 6] {
    [
        value_of(pairs, name).is_some(),
        number_in(pairs, name).is_some(),
        raw_in(pairs, name).is_some(),
        raw32_in(pairs, name).is_some(),
        raw64_in(pairs, name).is_some(),
        map_in(pairs, name).is_some(),
    ]
}

/// Whether the fields of that map are read as they are spelled.
fn are_fields(pairs: &[(Vec<u8>, Value)]) -> bool {
    for (name, kinds) in &KINDS {
        if kinds_of(pairs, name) != *kinds {
            return false;
        }
    }
    has_version_1(pairs) && number_in(pairs, b"seed") == Some(-7)
}

/// Whether that map is read so.
fn has_fields(alloc: Global) -> bool {
    match map_of(alloc, FIELDS) {
        Ok(pairs) => are_fields(pairs.as_slice()),
        Err(_) => false,
    }
}

/// Whether the maps have so many pairs.
fn counts_are(alloc: Global) -> bool {
    for (bytes, count) in &COUNTS {
        if count_of(alloc, bytes) != *count {
            return false;
        }
    }
    true
}

#[test]
fn a_map_and_its_fields_are_read_where_they_are_spelled_so(rt: HostRuntime) {
    assert!(rt; counts_are(rt.alloc()) && has_fields(rt.alloc()));
}

/// The pairs of a map but those of some names.
fn kept_of(
    alloc: Global,
    bytes: &[u8],
    names: &[&[u8]],
) -> Result<BTreeMap<Vec<u8>, Value>, MapFault> {
    let pairs = map_of(alloc, bytes)?;
    let kept = without(alloc, pairs, names)?;
    Ok(copied(alloc, kept.as_slice())?)
}

/// Whether a value can be written, and is written as these bytes.
fn is_written(alloc: Global, value: &Value, text: &[u8]) -> bool {
    if !is_writable(value) {
        return false;
    }
    let mut written = Vec::new(alloc);
    write(value, &mut written).is_ok() && written.as_slice() == text
}

/// A map of pairs to which two are put, one of them in another's place.
fn table_with(alloc: Global, mut pairs: BTreeMap<Vec<u8>, Value>) -> Result<Value, AllocError> {
    put(alloc, &mut pairs, b"c", Value::Number(7))?;
    put_raw(alloc, &mut pairs, b"a", b"x")?;
    table_of(alloc, pairs)
}

/// Whether pairs to which those are put are written as these bytes.
fn are_written(alloc: Global, pairs: BTreeMap<Vec<u8>, Value>, text: &[u8]) -> bool {
    match table_with(alloc, pairs) {
        Ok(value) => is_written(alloc, &value, text),
        Err(_) => false,
    }
}

/// Whether the names that are kept are written with the two that are put.
fn kept_are_written(alloc: Global) -> bool {
    let bytes = b"\x84\xa1d\x04\xa1c\x03\xa2bb\x02\xa1b\x01";
    match kept_of(alloc, bytes, &[b"b", b"d", b"e"]) {
        Ok(kept) => are_written(alloc, kept, b"\x83\xa1a\xa1x\xa2bb\x02\xa1c\x07"),
        Err(_) => false,
    }
}

/// The bytes of a map of two pairs.
fn text_of_two(alloc: Global) -> Result<Vec<u8>, AllocError> {
    let mut pairs = BTreeMap::new(alloc);
    put(alloc, &mut pairs, b"version", Value::Number(1))?;
    put_raw(alloc, &mut pairs, b"id", b"xyz")?;
    text_of(alloc, pairs)
}

/// Whether those are the bytes of such a map.
fn two_are_written(alloc: Global) -> bool {
    match text_of_two(alloc) {
        Ok(text) => text.as_slice() == b"\x82\xa2id\xa3xyz\xa7version\x01".as_slice(),
        Err(_) => false,
    }
}

#[test]
fn names_are_left_out_and_others_are_put_and_written(rt: HostRuntime) {
    assert!(rt; kept_are_written(rt.alloc()) && two_are_written(rt.alloc()));
    fields_laws();
}
