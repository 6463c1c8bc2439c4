//! Packed manifests and archive records. `BORG_MANIFEST` and `BORG_RECORD` were written by BorgBackup 1.2.4 for a repository
//! with one archive, `a`, and decrypted by Python and OpenSSL; the others are printed by bench/metadata_cases.py, which makes
//! tags by Python's hashlib and hmac.

use ferry_mac::Keys;
use ferry_manifest::{
    Archive, Manifest, archive_laws, manifest_laws, read_archive, read_manifest, write_archive,
    write_manifest,
};
use ferry_msgpack::Value;
use std::alloc::{AllocError, Global};

static BORG_MANIFEST: &[u8] =
    b"\x86\xa8archives\x81\xa1a\x82\xa2id\xda\x00 b^&\x8f\xa0Ip\xf798}w\x7f)\xa1/\xaa\xf1v\xa3\x08\x7f\xe9\xfb\xd4jq\x9b\x1d\x0e\xe6'\xa4time\xba2020-01-01T00:00:00.000000\xa6config\x81\xactam_required\xc3\xa9item_keys\xdc\x00\x17\xaaacl_access\xabacl_default\xacacl_extended\xa8acl_nfs4\xa5atime\xa9birthtime\xa8bsdflags\xa6chunks\xaechunks_healthy\xa5ctime\xa3gid\xa5group\xafhardlink_master\xa4mode\xa5mtime\xa4part\xa4path\xa4rdev\xa4size\xa6source\xa3uid\xa4user\xa6xattrs\xa3tam\x83\xa4hmac\xda\x00@\x1c\xe9q\xc3\xf6}\xde\xb2H\x84a:\xfb.\xaba\xc6\x02O.\x96\xfb\x9bE-\x9e\x0c\xab\xa3\x16\x03u+[^\xc7>\xc1\x0a7!\xb3\xb1^fp\xc3\x13\x03\x95\xe7U\x5ct\x8e\x9cJ\xef\xfcx\xc7\x12i1\xa4salt\xda\x00@\xa8\x04\x85\xa7\xab\xdfp\xb1~K\xcb\xeb%\xf2\xc0ch\x12L^1H\x080!d\xac5_K\xe2t&\xf6\xdd\xc4T\x0eL\xf8\x80\xb7\xd5 \x04V\x17\x85\x0c?\x9c\xc8\x0b\x0dD\xc7\xbc\xf0\xbc \xd1\xfd\x04\x92\xa4type\xb0HKDF_HMAC_SHA512\xa9timestamp\xba2026-11-26T21:52:19.019005\xa7version\x01";

static MANIFEST_SALT: &[u8; 64] =
    b"\xa8\x04\x85\xa7\xab\xdfp\xb1~K\xcb\xeb%\xf2\xc0ch\x12L^1H\x080!d\xac5_K\xe2t&\xf6\xdd\xc4T\x0eL\xf8\x80\xb7\xd5 \x04V\x17\x85\x0c?\x9c\xc8\x0b\x0dD\xc7\xbc\xf0\xbc \xd1\xfd\x04\x92";

static BORG_RECORD: &[u8] =
    b"\xde\x00\x11\xaechunker_params\x95\xa7buzhash\x13\x17\x15\xcd\x0f\xff\xa7cmdline\x99\xad/usr/bin/borg\xa6create\xa9--noflags\xab--timestamp\xb32020-01-01T00:00:00\xad--compression\xa4none\xb7/tmp/oracle/src/tiny::a\xa1.\xa7comment\xa0\xa5csize\xcc\xd7\xabcsize_parts\x00\xa8hostname\xa2vm\xa5items\x91\xda\x00 \xe1\xd6\x5c\xd48\x0fy|\xa1Il?\x80}\x83\x8b\xb0\xd4\xe7\xc2\x0b\x08f\xa6Q)\x93\xf11\xb8\xd4u\xa4name\xa1a\xa6nfiles\x03\xacnfiles_parts\x00\xa4size\xcc\x81\xaasize_parts\x00\xa3tam\x83\xa4hmac\xda\x00@t~A\x1a\x1c\xea\xea\x95\xdc\x06\xa7\xeft\xea\xa6\xd9\xde\x14.{|\xf46\xfbJ\xbc\xd3\xad\xc5^\xa2\x16S\xea\x86td\x22\xc6\xf9\x9a\x83\xef\xe3\xd9<\xc1p\xb2\x8f\x912\xc62\xc0\xf7\x5c\xd7\xd3rD\xa2\x1b\xef\xa4salt\xda\x00@R\x1e\xe8\xbb\x18\xdc\xf1\xb2K\x19Q\x9c]#\xef!\x94\xeb\xba\xf8\xb8\xd4I\xeeC\xea\xc9\xc2c\x7f\x1f\x92\xe2vMq\x0e\x0aVw\xc6\xf3\xce\xe9\x1e\xd8pJ\x12b\xa1^\xb2\xdc\xdd\x1b\xddM\x1cY3\xf4\xc9\xaf\xa4type\xb0HKDF_HMAC_SHA512\xa4time\xba2020-01-01T00:00:00.000000\xa8time_end\xba2020-01-01T00:00:00.008124\xa8username\xa4root\xa7version\x01";

static RECORD_SALT: &[u8; 64] =
    b"R\x1e\xe8\xbb\x18\xdc\xf1\xb2K\x19Q\x9c]#\xef!\x94\xeb\xba\xf8\xb8\xd4I\xeeC\xea\xc9\xc2c\x7f\x1f\x92\xe2vMq\x0e\x0aVw\xc6\xf3\xce\xe9\x1e\xd8pJ\x12b\xa1^\xb2\xdc\xdd\x1b\xddM\x1cY3\xf4\xc9\xaf";

/// The keys of that repository.
fn borg_keys() -> Keys {
    Keys {
        enc_key: *b"\x96\xcf\xe9_\xddq\x87\x94\x13\xdb84rX\xd6s\x96\x82\xc8\xbd\x0dA\xd2YM\xaf\xd9\xaf\xa1F%\x81",
        enc_hmac_key: *b"YA\xc7\xc5f\x88\xaa\xe7\xb9:\x08\xbexN\x82\xb0m\x9fF\x17\x7f&\x5c\x84\xbe\x90\xba\xef#?u\xba",
        id_key: *b"9\xb8\x9bhF\xb9<\xd1\xff\xa0\xa7\xc2\x81\x0e\x16LZl\xb0\x91g\x0bp\x0dpa\xd8\xf4\x1b;c^",
    }
}

/// The keys of the others.
fn keys() -> Keys {
    Keys {
        enc_key: [b'e'; 32],
        enc_hmac_key: [b'm'; 32],
        id_key: [b'i'; 32],
    }
}

/// A text in packed bytes, what is written over it where it first stands, and the number of the fault of the bytes then, 0
/// where they are read.
struct Case {
    old: &'static [u8],
    new: &'static [u8],
    fault: u8,
}

static MANIFESTS: [Case; 14] = [
    Case {
        old: b"version\x01",
        new: b"version\x01\x00",
        fault: 1,
    },
    Case {
        old: b"version\x01",
        new: b"version",
        fault: 1,
    },
    Case {
        old: b"version\x01",
        new: b"version\x02",
        fault: 2,
    },
    Case {
        old: b"timestamp\xba",
        new: b"timestamp\x00\xba",
        fault: 1,
    },
    Case {
        old: b"\xa6config\x81\xactam_required\xc3",
        new: b"\xa6config\xc0",
        fault: 2,
    },
    Case {
        old: b"\xaaacl_access",
        new: b"\x01",
        fault: 2,
    },
    Case {
        old: b"\xa8archives",
        new: b"\xa8another1",
        fault: 2,
    },
    Case {
        old: b"\xa2id",
        new: b"\xa2it",
        fault: 2,
    },
    Case {
        old: b"\xa4time",
        new: b"\xa4date",
        fault: 2,
    },
    Case {
        old: b"SHA512",
        new: b"SHA256",
        fault: 2,
    },
    Case {
        old: b"\xa4hmac",
        new: b"\xa4tmac",
        fault: 2,
    },
    Case {
        old: b"\xa3tam",
        new: b"\xa3mat",
        fault: 3,
    },
    Case {
        old: b"2020",
        new: b"2021",
        fault: 4,
    },
    Case {
        old: b"",
        new: b"",
        fault: 0,
    },
];

static RECORDS: [Case; 12] = [
    Case {
        old: b"version\x01",
        new: b"version\x01\x00",
        fault: 1,
    },
    Case {
        old: b"version\x01",
        new: b"version",
        fault: 1,
    },
    Case {
        old: b"version\x01",
        new: b"version\x02",
        fault: 2,
    },
    Case {
        old: b"\xa4name",
        new: b"\xa4mane",
        fault: 2,
    },
    Case {
        old: b"\xa5items\x91\xda\x00 ",
        new: b"\xa5items\x91\xda\x00\x1f",
        fault: 1,
    },
    Case {
        old: b"\xa5items",
        new: b"\xa5other",
        fault: 2,
    },
    Case {
        old: b"SHA512",
        new: b"SHA256",
        fault: 2,
    },
    Case {
        old: b"\xa4salt",
        new: b"\xa4slat",
        fault: 2,
    },
    Case {
        old: b"\xa3tam\x83",
        new: b"\xa3tam\xc0",
        fault: 1,
    },
    Case {
        old: b"2020",
        new: b"2021",
        fault: 4,
    },
    Case {
        old: b"\xa3tam",
        new: b"\xa3mat",
        fault: 0,
    },
    Case {
        old: b"",
        new: b"",
        fault: 0,
    },
];

/// The bytes with a text written over another one.
fn edited(alloc: Global, bytes: &[u8], case: &Case) -> Result<Vec<u8>, AllocError> {
    for place in 0..bytes.len() {
        if let Some(rest) = bytes[place..].strip_prefix(case.old) {
            let mut text = Vec::from_slice(alloc, &bytes[..place])?;
            text.extend_from_slice(case.new)?;
            text.extend_from_slice(rest)?;
            return Ok(text);
        }
    }
    Vec::from_slice(alloc, bytes)
}

/// The number of the fault of a manifest, 0 where it is read.
fn manifest_fault(alloc: Global, keys: &Keys, bytes: &[u8]) -> u8 {
    match read_manifest(alloc, keys, bytes) {
        Ok(_) => 0,
        Err(fault) => fault.number(),
    }
}

/// The number of the fault of a record, 0 where it is read.
fn record_fault(alloc: Global, keys: &Keys, bytes: &[u8]) -> u8 {
    match read_archive(alloc, keys, bytes) {
        Ok(_) => 0,
        Err(fault) => fault.number(),
    }
}

/// The number of the fault of Borg's manifest with the edit of a case.
fn manifest_fault_of(alloc: Global, keys: &Keys, case: &Case) -> Option<u8> {
    match edited(alloc, BORG_MANIFEST, case) {
        Ok(bytes) => Some(manifest_fault(alloc, keys, &bytes)),
        Err(_) => None,
    }
}

/// The number of the fault of Borg's record with the edit of a case.
fn record_fault_of(alloc: Global, keys: &Keys, case: &Case) -> Option<u8> {
    match edited(alloc, BORG_RECORD, case) {
        Ok(bytes) => Some(record_fault(alloc, keys, &bytes)),
        Err(_) => None,
    }
}

/// Whether a manifest of Borg's has the fault of each case, with its edit.
fn manifest_faults_are(alloc: Global, keys: &Keys) -> bool {
    for case in &MANIFESTS {
        if manifest_fault_of(alloc, keys, case) != Some(case.fault) {
            return false;
        }
    }
    true
}

/// Whether a record of Borg's has.
fn record_faults_are(alloc: Global, keys: &Keys) -> bool {
    for case in &RECORDS {
        if record_fault_of(alloc, keys, case) != Some(case.fault) {
            return false;
        }
    }
    true
}

/// A record whose tag is nil.
static NO_TAG: &[u8] = b"\x84\xa5items\x90\xa4name\xa1a\xa3tam\xc0\xa7version\x01";

#[test]
fn the_first_fault_of_a_manifest_and_of_a_record_is_told(rt: HostRuntime) {
    let (alloc, keys) = (rt.alloc(), borg_keys());
    assert!(rt; manifest_faults_are(alloc, &keys) && record_faults_are(alloc, &keys));
    assert!(rt; record_fault(alloc, &keys, NO_TAG) == 2);
    manifest_laws();
    archive_laws();
}

/// Records without a tag, by their `items`, and the number of the fault: two ids, a name that stands twice, no array, no raw, a raw of
/// 31 bytes and then one that is cut off, an id behind a value of another kind, bytes behind the map.
static ITEMS: [(&[u8], u8); 9] = [
    (
        b"\x83\xa4name\xa1a\xa7version\x01\xa5items\x92\xc4 11111111111111111111111111111111\xda\x00 22222222222222222222222222222222",
        0,
    ),
    (
        b"\x84\xa5items\x90\xa4name\xa1a\xa5items\x90\xa7version\x01",
        1,
    ),
    (
        b"\x84\xa5items\xc0\xa4name\xa1a\xa7version\x01\xa5items\x90",
        1,
    ),
    (b"\x83\xa4name\xa1a\xa7version\x01\xa5items\x81\xa1a\x90", 2),
    (
        b"\x83\xa4name\xa1a\xa7version\x01\xa5items\xc4 11111111111111111111111111111111",
        2,
    ),
    (
        b"\x83\xa4name\xa1a\xa7version\x01\xa5items\x91\xc4\x1f1111111111111111111111111111111",
        2,
    ),
    (
        b"\x83\xa4name\xa1a\xa7version\x01\xa5items\x92\xc4\x1f1111111111111111111111111111111\xc4 2",
        1,
    ),
    (
        b"\x83\xa4name\xa1a\xa7version\x01\xa5items\x92\x01\xc4 11111111111111111111111111111111",
        2,
    ),
    (b"\x83\xa4name\xa1a\xa7version\x01\xa5items\x90\x00", 1),
];

/// Whether each of these records has its fault.
fn items_faults_are(alloc: Global) -> bool {
    for (bytes, fault) in &ITEMS {
        if record_fault(alloc, &keys(), bytes) != *fault {
            return false;
        }
    }
    true
}

#[test]
fn items_that_are_no_ids_are_a_fault(rt: HostRuntime) {
    assert!(rt; items_faults_are(rt.alloc()));
}

/// How many archives, item keys and other names a manifest has, and whether it has a timestamp.
fn manifest_counts(manifest: &Manifest) -> (usize, usize, usize, bool) {
    (
        manifest.archives.as_slice().len(),
        manifest.item_keys.as_slice().len(),
        pairs_count(&manifest.more),
        manifest.timestamp.is_some(),
    )
}

/// How many streams of items a record has, and whether it has a tag and parameters of a chunker.
fn record_counts(archive: &Archive) -> (usize, bool, bool) {
    (
        archive.items.as_slice().len(),
        archive.tagged,
        archive.params.is_some(),
    )
}

/// How many pairs a table has.
fn pairs_count(value: &Value) -> usize {
    match value {
        Value::Table(pairs) => pairs.len(),
        _ => 0,
    }
}

/// What a manifest of these counts is read as, written again.
fn manifest_again(
    alloc: Global,
    keys: &Keys,
    bytes: &[u8],
    counts: (usize, usize, usize, bool),
    salt: &[u8; 64],
) -> Option<Vec<u8>> {
    match read_manifest(alloc, keys, bytes) {
        Ok(manifest) => {
            if manifest_counts(&manifest) == counts {
                write_manifest(alloc, keys, &manifest, salt).ok()
            } else {
                None
            }
        }
        Err(_) => None,
    }
}

/// What a record of these counts is read as, written again.
fn record_again(
    alloc: Global,
    keys: &Keys,
    bytes: &[u8],
    counts: (usize, bool, bool),
    salt: &[u8; 64],
) -> Option<Vec<u8>> {
    match read_archive(alloc, keys, bytes) {
        Ok(archive) => {
            if record_counts(&archive) == counts {
                write_archive(alloc, keys, &archive, salt).ok()
            } else {
                None
            }
        }
        Err(_) => None,
    }
}

/// Whether these are the bytes.
fn are_bytes(text: Option<Vec<u8>>, bytes: &[u8]) -> bool {
    match text {
        Some(text) => text.as_slice() == bytes,
        None => false,
    }
}

#[test]
fn what_borg_wrote_is_read_and_written_as_it_was(rt: HostRuntime) {
    let (alloc, keys) = (rt.alloc(), borg_keys());
    let manifest = manifest_again(alloc, &keys, BORG_MANIFEST, (1, 23, 0, true), MANIFEST_SALT);
    assert!(rt; are_bytes(manifest, BORG_MANIFEST));
    let record = record_again(alloc, &keys, BORG_RECORD, (1, true, true), RECORD_SALT);
    assert!(rt; are_bytes(record, BORG_RECORD));
}

/// Heads of other lengths, fields out of order, a repeated item key, no timestamp, and two other names, one of them `hmac`.
static UNORDERED: &[u8] =
    b"\xde\x00\x07\xa7version\x01\xa4hmac\xda\x00@\x00\x00\x00\x00\x00\x00\x00\x00\x00\x00\x00\x00\x00\x00\x00\x00\x00\x00\x00\x00\x00\x00\x00\x00\x00\x00\x00\x00\x00\x00\x00\x00\x00\x00\x00\x00\x00\x00\x00\x00\x00\x00\x00\x00\x00\x00\x00\x00\x00\x00\x00\x00\x00\x00\x00\x00\x00\x00\x00\x00\x00\x00\x00\x00\xa9item_keys\x94\xa4size\xa4path\xa4size\xa4mode\xa6config\x81\xa1c\x01\xa8archives\x82\xa3two\x82\xa2id\xda\x00 yyyyyyyyyyyyyyyyyyyyyyyyyyyyyyyy\xa4time\xa4noon\xa3one\x82\xa2id\xda\x00 xxxxxxxxxxxxxxxxxxxxxxxxxxxxxxxx\xa4time\xa4noon\xa5after\xc3\xa3tam\xdf\x00\x00\x00\x03\xa4hmac\xda\x00@\xe1\xab=\xeb\x97\xf3tN\x81\x95\x90\xa9\xf5\x18\x95\xc9c\xb6F\xfa\xd5H0\xbe}\xc5\xb8\xc6\xdb\x05\x934\xb4\x08#\x06X\xbb\xeeO\xa44:V\xa13\xbd\xd7\x8d]\x95\x1cih\x8f\xc4\x9f\xc2\xa2h/\xc8`\xb6\xa4salt\xda\x00@ssssssssssssssssssssssssssssssssssssssssssssssssssssssssssssssss\xa4type\xb0HKDF_HMAC_SHA512";

/// A record without a tag and without `chunker_params`, and the same as it is written.
static UNTAGGED: &[u8] =
    b"\x86\xa7version\x01\xa4name\xa5first\xa5items\x92\xda\x00 11111111111111111111111111111111\xda\x00 22222222222222222222222222222222\xa7cmdline\x92\xa4borg\xa6create\xa4time\xba2020-01-01T00:00:00.000000\xa7comment\xa0";

static UNTAGGED_WRITTEN: &[u8] =
    b"\x87\xa7cmdline\x92\xa4borg\xa6create\xa7comment\xa0\xa5items\x92\xda\x00 11111111111111111111111111111111\xda\x00 22222222222222222222222222222222\xa4name\xa5first\xa3tam\x83\xa4hmac\xda\x00@5\xc5K\x02\x92\x09<\x96\xda\x02\xd7\x7f\xc6\xc9\x04\xfe*\xed\xdc1\x0f\x1b\xc0%\xd4\x5c\xd1\xc3[I\x1d\xcc*#\xff;\x02p(\x8a\xad\x9e\xb2}\xbf \xde\xa5\xf5\x1c7\x04\xd1$\x82\xcf\xc7\x18\xa6\x1bS\xb4\x1e?\xa4salt\xda\x00@ssssssssssssssssssssssssssssssssssssssssssssssssssssssssssssssss\xa4type\xb0HKDF_HMAC_SHA512\xa4time\xba2020-01-01T00:00:00.000000\xa7version\x01";

/// Whether that manifest has its counts, and has them again as it is written, with its fields in order.
fn unordered_is_put_in_order(alloc: Global) -> bool {
    let (counts, salt) = ((2, 3, 2, false), [b's'; 64]);
    match manifest_again(alloc, &keys(), UNORDERED, counts, &salt) {
        Some(text) => is_written_as_it_is(alloc, &text, counts, &salt),
        None => false,
    }
}

/// Whether a manifest has these counts, and is written again as it is.
fn is_written_as_it_is(
    alloc: Global,
    bytes: &[u8],
    counts: (usize, usize, usize, bool),
    salt: &[u8; 64],
) -> bool {
    are_bytes(manifest_again(alloc, &keys(), bytes, counts, salt), bytes)
}

/// Whether that record gets a tag.
fn untagged_gets_a_tag(alloc: Global) -> bool {
    let counts = (2, false, false);
    let record = record_again(alloc, &keys(), UNTAGGED, counts, &[b's'; 64]);
    are_bytes(record, UNTAGGED_WRITTEN)
}

#[test]
fn fields_are_put_in_order_and_a_record_gets_a_tag(rt: HostRuntime) {
    assert!(rt; unordered_is_put_in_order(rt.alloc()) && untagged_gets_a_tag(rt.alloc()));
}
