//! Values that are published, and entries by hand.

use crate::bytes::joined;
use ferry_segment::{
    COMMIT, COMMIT_SEGMENT, Entry, EntryFault, crc32, crc32_more, delete_entry, is_committed,
    put_head, read_entry, read_head,
};
use std::alloc::Global;

/// Whether the values are right that are published for the CRC-32 of IEEE 802.3: its check value, and that of a text of 43
/// bytes, at once and in two parts.
fn are_checksums() -> bool {
    let text = b"The quick brown fox jumps over the lazy dog";
    crc32(b"123456789") == 0xcbf4_3926
        && crc32(text) == 0x414f_a339
        && crc32_more(crc32(&text[..5]), &text[5..]) == 0x414f_a339
}

/// Whether the bytes begin with the PUT of `abcdef`, which ends at byte 47.
fn is_put(bytes: &[u8]) -> bool {
    match read_entry(bytes, 0) {
        Ok((Entry::Put { key, blob }, end)) => {
            end == 47 && key == [0x11; 32] && blob == b"abcdef".as_slice()
        }
        _ => false,
    }
}

/// Whether the PUT of that blob is read.
fn put_is_read(alloc: Global) -> bool {
    let head = put_head(&[0x11; 32], b"abcdef");
    match joined(alloc, &[&head, b"abcdef"]) {
        Ok(entry) => is_put(&entry),
        Err(_) => false,
    }
}

/// Whether the head of the PUT of no bytes is read.
fn has_head() -> Result<bool, EntryFault> {
    let front = put_head(&[0x11; 32], b"");
    let head = read_head(&front, 41)?.check(crc32(&front[4..]))?;
    Ok(head.tag == 0 && head.key == [0x11; 32] && head.size == 41)
}

/// Whether the bytes begin with the DELETE of a key, which ends at byte 41.
fn is_delete(bytes: &[u8]) -> bool {
    match read_entry(bytes, 0) {
        Ok((Entry::Delete { key }, end)) => end == 41 && key == [7; 32],
        _ => false,
    }
}

/// Whether the segment of a commit alone has a COMMIT behind its magic, which ends at byte 17.
fn is_commit() -> bool {
    read_entry(&COMMIT_SEGMENT, 8) == Ok((Entry::Commit, 17))
}

/// Bytes that break a rule, with the size, the CRC and the entry tag of the bytes that have it.
static FAULTS: [(&[u8], EntryFault); 6] = [
    (&[0x40, 0xf4, 0x3c, 0x25, 9, 0, 0, 0], EntryFault::Short),
    (&[0, 0, 0, 0, 8, 0, 0, 0, 2], EntryFault::Size),
    (&[0, 0, 0, 0, 1, 0, 64, 1, 2], EntryFault::Size),
    (&[0, 0, 0, 0, 0, 0, 64, 1, 2], EntryFault::Short),
    (&[0, 0, 0, 0, 9, 0, 0, 0, 2], EntryFault::Crc),
    (&[0xd6, 0xc4, 0x3b, 0x52, 9, 0, 0, 0, 3], EntryFault::Tag),
];

/// Whether each has its fault.
fn faults_are_told() -> bool {
    for (bytes, fault) in &FAULTS {
        if read_entry(bytes, 0) != Err(*fault) {
            return false;
        }
    }
    true
}

/// Entries that are read, and a fault for each rule.
#[test]
fn entries_and_faults(rt: HostRuntime) {
    assert!(rt; put_is_read(rt.alloc()) && is_delete(&delete_entry(&[7; 32])) && is_commit());
    assert!(rt; are_checksums() && has_head() == Ok(true) && faults_are_told());
}

/// Whether these parts, one behind the other, are a committed segment.
fn are_committed(alloc: Global, parts: &[&[u8]]) -> Option<bool> {
    match joined(alloc, parts) {
        Ok(segment) => Some(is_committed(&segment)),
        Err(_) => None,
    }
}

/// Whether two COMMITs at the end commit, and neither a magic alone does nor those where a PUT and a COMMIT follow.
fn the_end_commits(alloc: Global) -> bool {
    let head = put_head(&[0x11; 32], b"COMMIT");
    !is_committed(b"BORG_SEG")
        && are_committed(alloc, &[&COMMIT_SEGMENT, &COMMIT]) == Some(true)
        && are_committed(
            alloc,
            &[&COMMIT_SEGMENT, &COMMIT, &head, b"COMMIT", &COMMIT],
        ) == Some(false)
}

#[test]
fn a_commit_at_the_end_alone_commits(rt: HostRuntime) {
    assert!(rt; the_end_commits(rt.alloc()));
}
