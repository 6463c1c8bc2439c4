//! Expected bytes and values are those of the msgpack specification, "Formats", worked out by hand.

use crate::bytes::joined;
use ferry_msgpack::{Value, is_writable, read, spelling_laws, write};
use std::alloc::{AllocError, Global};
use std::process::Abort;

/// Appends the shortest spelling of a copy of the value that all of the bytes spell. Tells whether they spell one.
fn respell(alloc: Global, bytes: &[u8], into: &mut Vec<u8>) -> Result<bool, AllocError> {
    let Ok((value, end)) = read(alloc, bytes, 0) else {
        return Ok(false);
    };
    write(&value.clone()?, into)?;
    Ok(end == bytes.len())
}

/// Whether the value of the first bytes is written as the second ones, behind one byte that was there.
fn is_spelled(alloc: Global, bytes: &[u8], shortest: &[u8]) -> bool {
    match Vec::from_slice(alloc, &[7u8]) {
        Ok(mut into) => {
            respell(alloc, bytes, &mut into) == Ok(true) && into.as_slice() == shortest
        }
        Err(_) => false,
    }
}

/// Bytes, and the shortest spelling of their value behind a byte 7.
static SPELLINGS: &[(&[u8], &[u8])] = &[
    (b"\xc0", b"\x07\xc0"),
    (b"\xc2", b"\x07\xc2"),
    (b"\xc3", b"\x07\xc3"),
    (b"\xcc\x00", b"\x07\x00"),
    (b"\xcf\x00\x00\x00\x00\x00\x00\x00\x7f", b"\x07\x7f"),
    (b"\xcd\x00\x80", b"\x07\xcc\x80"),
    (b"\xce\x00\x00\x00\xff", b"\x07\xcc\xff"),
    (b"\xd3\x00\x00\x00\x00\x00\x00\x01\x00", b"\x07\xcd\x01\x00"),
    (b"\xcd\x81\xa4", b"\x07\xcd\x81\xa4"),
    (b"\xd2\x00\x00\xff\xff", b"\x07\xcd\xff\xff"),
    (b"\xd2\x00\x01\x00\x00", b"\x07\xce\x00\x01\x00\x00"),
    (b"\xce\xff\xff\xff\xff", b"\x07\xce\xff\xff\xff\xff"),
    (
        b"\xd3\x00\x00\x00\x01\x00\x00\x00\x00",
        b"\x07\xcf\x00\x00\x00\x01\x00\x00\x00\x00",
    ),
    (
        b"\xcf\xff\xff\xff\xff\xff\xff\xff\xff",
        b"\x07\xcf\xff\xff\xff\xff\xff\xff\xff\xff",
    ),
    (b"\xff", b"\x07\xff"),
    (b"\xd0\xff", b"\x07\xff"),
    (b"\xd1\xff\xe0", b"\x07\xe0"),
    (b"\xd3\xff\xff\xff\xff\xff\xff\xff\xdf", b"\x07\xd0\xdf"),
    (b"\xd2\xff\xff\xff\x80", b"\x07\xd0\x80"),
    (b"\xd2\xff\xff\xff\x7f", b"\x07\xd1\xff\x7f"),
    (b"\xd3\xff\xff\xff\xff\xff\xff\x80\x00", b"\x07\xd1\x80\x00"),
    (b"\xd2\xff\xff\x7f\xff", b"\x07\xd2\xff\xff\x7f\xff"),
    (
        b"\xd3\xff\xff\xff\xff\x80\x00\x00\x00",
        b"\x07\xd2\x80\x00\x00\x00",
    ),
    (
        b"\xd3\xff\xff\xff\xff\x7f\xff\xff\xff",
        b"\x07\xd3\xff\xff\xff\xff\x7f\xff\xff\xff",
    ),
    (
        b"\xd3\x80\x00\x00\x00\x00\x00\x00\x00",
        b"\x07\xd3\x80\x00\x00\x00\x00\x00\x00\x00",
    ),
    (b"\xa0", b"\x07\xa0"),
    (b"\xa1a", b"\x07\xa1a"),
    (b"\xd9\x01a", b"\x07\xa1a"),
    (b"\xda\x00\x01a", b"\x07\xa1a"),
    (b"\xdb\x00\x00\x00\x01a", b"\x07\xa1a"),
    (b"\xc4\x01a", b"\x07\xa1a"),
    (b"\xc5\x00\x01a", b"\x07\xa1a"),
    (b"\xc6\x00\x00\x00\x01a", b"\x07\xa1a"),
    (b"\x92\x05\xc0", b"\x07\x92\x05\xc0"),
    (b"\xdc\x00\x01\x05", b"\x07\x91\x05"),
    (b"\xdd\x00\x00\x00\x00", b"\x07\x90"),
    (b"\xde\x00\x01\xa1a\x05", b"\x07\x81\xa1a\x05"),
    (b"\xdf\x00\x00\x00\x01\xd9\x01a\x05", b"\x07\x81\xa1a\x05"),
    (
        b"\xdc\x00\x10\x01\x02\x03\x04\x05\x06\x07\x08\x09\x0a\x0b\x0c\x0d\x0e\x0f\x10",
        b"\x07\xdc\x00\x10\x01\x02\x03\x04\x05\x06\x07\x08\x09\x0a\x0b\x0c\x0d\x0e\x0f\x10",
    ),
    (b"\x80", b"\x07\x80"),
    (b"\x82\xa1b\x01\xa1a\x02", b"\x07\x82\xa1a\x02\xa1b\x01"),
    (b"\x82\xa1a\x02\xa0\x01", b"\x07\x82\xa0\x01\xa1a\x02"),
    (
        b"\x83\xa2aa\x01\xa1b\x02\xa1a\x03",
        b"\x07\x83\xa1a\x03\xa2aa\x01\xa1b\x02",
    ),
    (b"\x91\x81\xa1a\x91\xc2", b"\x07\x91\x81\xa1a\x91\xc2"),
    (
        b"\x82\xa4path\xa1a\xa4mode\xcd\x81\xa4",
        b"\x07\x82\xa4mode\xcd\x81\xa4\xa4path\xa1a",
    ),
];

#[test]
fn each_spelling_is_read_and_the_shortest_is_written(rt: HostRuntime) {
    for (bytes, shortest) in SPELLINGS {
        assert!(rt; is_spelled(rt.alloc(), bytes, shortest), "at {bytes:?}");
    }
}

/// The number of the fault, or 0 where a value was read.
fn fault_of(alloc: Global, bytes: &[u8]) -> u8 {
    match read(alloc, bytes, 0) {
        Ok(_) => 0,
        Err(fault) => fault as u8,
    }
}

/// The number of the fault of the second bytes behind the first.
fn fault_behind(alloc: Global, before: &[u8], end: &[u8]) -> Option<u8> {
    match joined(alloc, &[before, end]) {
        Ok(bytes) => Some(fault_of(alloc, &bytes)),
        Err(_) => None,
    }
}

/// Asserts that the bytes, each behind these, have the faults of the table.
fn faults_are(rt: &impl Abort, alloc: Global, before: &[u8], table: &[(u8, &[u8])]) {
    for (fault, end) in table {
        assert!(rt;
            fault_behind(alloc, before, end) == Some(*fault),
            "at {end:?}"
        );
    }
}

/// The numbers of faults: Short 1, Kind 2, Key 3, Repeat 4, Deep 5.
static FAULTS: &[(u8, &[u8])] = &[
    (1, b""),
    (1, b"\xdb\xff\xff\xff\xff"),
    (1, b"\xdd\xff\xff\xff\xff"),
    (1, b"\xdf\xff\xff\xff\xff"),
    (2, b"\xc1"),
    (2, b"\xc7\x00\x00"),
    (2, b"\xc9\x00\x00\x00\x00\x00"),
    (2, b"\xca\x00\x00\x00\x00"),
    (2, b"\xcb\x00\x00\x00\x00\x00\x00\x00\x00"),
    (2, b"\xd4\x00\x00"),
    (2, b"\xd8"),
    (2, b"\x91\xc1"),
    (2, b"\x81\xc1\x01"),
    (2, b"\x81\xcb"),
    (3, b"\x81\x01\x02"),
    (3, b"\x81\xc0\x02"),
    (3, b"\x81\xcd"),
    (3, b"\x81\xe0"),
    (3, b"\x81\xdd"),
    (3, b"\x81\x80\x01"),
    (4, b"\x82\xa1a\x01\xa1a\x02"),
    (4, b"\x82\xa1a\x01\xd9\x01a\xc1"),
];

/// Faults behind 63 heads of arrays.
static DEEP_FAULTS: &[(u8, &[u8])] = &[
    (0, b"\x91\x01"),
    (0, b"\x81\xa0\x01"),
    (5, b"\x91\x91\x01"),
    (5, b"\x91\x90"),
    (5, b"\x91\xdc"),
    (5, b"\x91\xdf"),
    (3, b"\x81\x91\x01"),
    (5, b"\x81\xa0\x80"),
];

/// A value with many heads.
static WHOLE: &[u8] =
    b"\x83\xa1a\x92\xcd\x81\xa4\xd0\x80\xa1b\x81\xd9\x02cd\xc3\xc4\x01e\xce\x00\x01\x00\x00";

/// Whether the bytes are a value, and each front of them is short.
fn fronts_are_short(alloc: Global, whole: &[u8]) -> bool {
    for end in 0..whole.len() {
        if fault_of(alloc, &whole[..end]) != 1 {
            return false;
        }
    }
    fault_of(alloc, whole) == 0
}

#[test]
fn the_first_broken_rule_is_told(rt: HostRuntime) {
    faults_are(&rt, rt.alloc(), b"", FAULTS);
    faults_are(&rt, rt.alloc(), &[0x91; 63], DEEP_FAULTS);
    assert!(rt; fronts_are_short(rt.alloc(), WHOLE));
}

/// Counts, and the head of a raw of so many bytes.
static RAWS: &[(usize, &[u8])] = &[
    (31, b"\xbf"),
    (32, b"\xda\x00\x20"),
    (65535, b"\xda\xff\xff"),
    (65536, b"\xdb\x00\x01\x00\x00"),
];

/// A byte 7, this head, and so many bytes behind it.
fn raw_of(alloc: Global, count: usize, head: &[u8]) -> Result<Vec<u8>, AllocError> {
    let mut shortest = joined(alloc, &[&[7u8], head])?;
    for _ in 0..count {
        shortest.push(0x61)?;
    }
    Ok(shortest)
}

/// Whether a raw of so many bytes is written with this head.
fn raw_begins(alloc: Global, count: usize, head: &[u8]) -> bool {
    match raw_of(alloc, count, head) {
        Ok(shortest) => is_spelled(alloc, behind_one(&shortest), &shortest),
        Err(_) => false,
    }
}

/// The bytes behind the first.
fn behind_one(bytes: &[u8]) -> &[u8] {
    match bytes {
        [_, rest @ ..] => rest,
        _ => &[],
    }
}

/// Whether each raw begins so.
fn raws_begin(alloc: Global) -> bool {
    for (count, head) in RAWS {
        if !raw_begins(alloc, *count, head) {
            return false;
        }
    }
    true
}

/// Numbers, and whether they can be written.
static NUMBERS: [(i128, bool); 4] = [
    (18446744073709551615, true),
    (18446744073709551616, false),
    (-9223372036854775808, true),
    (-9223372036854775809, false),
];

/// Whether just those can be written.
fn numbers_fit() -> bool {
    for (number, fits) in &NUMBERS {
        if is_writable(&Value::Number(*number)) != *fits {
            return false;
        }
    }
    true
}

/// An array of one value.
fn array_of(alloc: Global, value: Value) -> Result<Value, AllocError> {
    let mut items = Vec::new(alloc);
    items.push(value)?;
    Ok(Value::Array(items))
}

/// Whether 64 arrays inside each other can be written, and 65 cannot.
fn depths_fit(alloc: Global) -> Result<bool, AllocError> {
    let mut deep = Value::Nil;
    for level in 1..66usize {
        deep = array_of(alloc, deep)?;
        if is_writable(&deep) != (level <= 64) {
            return Ok(false);
        }
    }
    Ok(true)
}

/// Tells whether a map with keys of these bytes in this order can be written.
fn keys_fit(alloc: Global, keys: &[u8]) -> Result<bool, AllocError> {
    let mut pairs = Vec::new(alloc);
    for key in keys {
        pairs.push((Vec::from_slice(alloc, &[*key])?, Value::Nil))?;
    }
    Ok(is_writable(&Value::Table(pairs)))
}

/// Whether keys that increase can be written, and no others.
fn order_fits(alloc: Global) -> bool {
    keys_fit(alloc, b"ab") == Ok(true)
        && keys_fit(alloc, b"ba") == Ok(false)
        && keys_fit(alloc, b"aa") == Ok(false)
}

#[test]
fn longer_counts_are_written_and_what_is_out_of_range_is_not(rt: HostRuntime) {
    assert!(rt; raws_begin(rt.alloc()) && numbers_fit());
    assert!(rt; depths_fit(rt.alloc()) == Ok(true) && order_fits(rt.alloc()));
    spelling_laws();
}
