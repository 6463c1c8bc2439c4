//! The end of the counter blocks of a few segments, and the file `nonce` beside it.

use crate::devices::depot_of;
use ferry_base::BLOB_LIMIT;
use ferry_blocks::blocks_end;
use ferry_disk::{MemoryDepot, Name, StoreFault};
use ferry_nonce::Counter;
use ferry_segment::{COMMIT, MAGIC, put_head};
use std::alloc::{AllocError, Global};

/// What a segment of a case holds: its magic, other bytes, a PUT of a blob of this type, nonce and size, or its bytes
/// so far without the last one, or with that one changed.
enum Part {
    Magic,
    Bytes(&'static [u8]),
    Blob(u8, u64, usize),
    Cut,
    Changed,
}

use Part::{Blob, Bytes, Changed, Cut, Magic};

/// The bytes of a blob that come before its ciphertext.
const FRONT: usize = 41;

/// Adds a part.
fn add(alloc: Global, bytes: &mut Vec<u8>, part: &Part) -> Result<(), AllocError> {
    match part {
        Magic => bytes.extend_from_slice(&MAGIC),
        Bytes(other) => bytes.extend_from_slice(other),
        Blob(kind, nonce, size) => add_blob(alloc, bytes, *kind, *nonce, *size),
        Cut => {
            let _ = bytes.pop();
            Ok(())
        }
        Changed => {
            change_last(bytes);
            Ok(())
        }
    }
}

/// Changes the last byte.
fn change_last(bytes: &mut Vec<u8>) {
    if let Some(last) = bytes.last_mut() {
        *last ^= 1;
    }
}

/// Adds a PUT of a blob.
fn add_blob(
    alloc: Global,
    bytes: &mut Vec<u8>,
    kind: u8,
    nonce: u64,
    size: usize,
) -> Result<(), AllocError> {
    let mut blob = vec![in alloc; 0; size.min(BLOB_LIMIT)]?;
    set_front(blob.as_mut_slice(), kind, nonce);
    add_put(bytes, &blob)
}

/// Sets the type and the nonce of a blob that has room for them.
fn set_front(blob: &mut [u8], kind: u8, nonce: u64) {
    if blob.len() >= FRONT {
        blob[0] = kind;
        blob[FRONT - 8..FRONT].copy_from_slice(&nonce.to_be_bytes());
    }
}

/// Adds a PUT of a blob, where it isn't too long for one.
fn add_put(bytes: &mut Vec<u8>, blob: &[u8]) -> Result<(), AllocError> {
    if blob.len() > BLOB_LIMIT {
        return Ok(());
    }
    bytes.extend_from_slice(&put_head(&[7; 32], blob))?;
    bytes.extend_from_slice(blob)
}

/// The bytes of a segment.
fn segment(alloc: Global, parts: &[Part]) -> Result<Vec<u8>, AllocError> {
    let mut bytes = Vec::new(alloc);
    for part in parts {
        add(alloc, &mut bytes, part)?;
    }
    Ok(bytes)
}

/// A file `nonce` of this text, and segments of these parts, from number 3 on.
fn files_of(
    alloc: Global,
    text: &[u8],
    segments: &[&[Part]],
) -> Result<Vec<(Name, Vec<u8>)>, AllocError> {
    let nonce = Vec::from_slice(alloc, text)?;
    let mut files = vec![in alloc; (Name::Nonce, nonce)]?;
    let mut number = 3u64;
    for parts in segments {
        files.push((Name::Segment(number), segment(alloc, parts)?))?;
        number = number.wrapping_add(1);
    }
    Ok(files)
}

/// A depot of such files, of which this call fails.
fn depot(
    alloc: Global,
    text: &[u8],
    segments: &[&[Part]],
    failing: u64,
) -> Result<MemoryDepot, AllocError> {
    let files = files_of(alloc, text, segments)?;
    depot_of(alloc, files, failing)
}

/// Whether this is the end of the blocks of such segments, with this call failing.
fn ends_at(
    alloc: Global,
    segments: &[&[Part]],
    failing: u64,
    want: &Result<u128, StoreFault>,
) -> bool {
    match depot(alloc, b"", segments, failing) {
        Ok(mut depot) => blocks_end(alloc, &mut depot) == *want,
        Err(_) => false,
    }
}

#[test]
fn each_blob_of_a_counter_type_counts_that_heads_lead_to(rt: HostRuntime) {
    let cases: [(&[&[Part]], u64, Result<u128, StoreFault>); 14] = [
        (&[], 0, Ok(0)),
        (&[&[Magic], &[Bytes(b"BORG")]], 0, Ok(0)),
        // 43 bytes take one block, 58 two.
        (&[&[Magic, Blob(3, 5, 43)]], 0, Ok(6)),
        (&[&[Magic, Blob(0, 9, 58), Bytes(&COMMIT)]], 0, Ok(11)),
        (&[&[Magic, Blob(1, u64::MAX, 44)]], 0, Ok(1 << 64)),
        // Types of other modes, and blobs with no room for each field.
        (
            &[&[Magic, Blob(2, 5, 43), Blob(4, 6, 43), Blob(7, 8, 43)]],
            0,
            Ok(0),
        ),
        (&[&[Magic, Blob(3, 5, 42), Blob(3, 5, 0)]], 0, Ok(0)),
        // No magic; a wrong checksum.
        (&[&[Bytes(b"????????"), Blob(3, 5, 43)]], 0, Ok(6)),
        (
            &[&[Magic, Blob(3, 5, 43), Changed, Blob(3, 7, 43)]],
            0,
            Ok(8),
        ),
        // What is cut short ends its segment, and no other.
        (
            &[
                &[Magic, Blob(3, 5, 43), Blob(3, 7, 43), Cut],
                &[Magic, Blob(3, 6, 43)],
            ],
            0,
            Ok(7),
        ),
        (
            &[&[
                Magic,
                Bytes(b"....\x08\0\0\0......................................."),
            ]],
            0,
            Ok(0),
        ),
        // Blobs longer than one read, and the greater end in front.
        (
            &[&[
                Magic,
                Blob(3, 9, 200_000),
                Blob(3, 12_508, 90_000),
                Blob(3, 3, 43),
            ]],
            0,
            Ok(18_131),
        ),
        (
            &[&[Magic, Blob(3, 9, 43)], &[Magic, Blob(3, 5, 43)]],
            0,
            Ok(10),
        ),
        (&[&[Magic, Blob(3, 9, 43)]], 3, Err(StoreFault::Failed)),
    ];
    for (segments, failing, want) in &cases {
        let is_right = ends_at(rt.alloc(), segments, *failing, want);
        assert!(rt; is_right, "{want:?}");
    }
}

/// Whether the number of a file `nonce` of this text is below the end of the blocks.
fn is_below(alloc: Global, text: &[u8]) -> bool {
    let segments: [&[Part]; 1] = [&[Magic, Blob(3, 5, 43)]];
    match depot(alloc, text, &segments, 0) {
        Ok(mut depot) => match Counter::open(&mut depot, true) {
            Ok(counter) => blocks_end(alloc, &mut depot).is_ok_and(|end| u128::from(counter.free())
                < end),
            Err(_) => false,
        },
        Err(_) => false,
    }
}

#[test]
fn a_file_nonce_that_is_put_back_is_below_the_blocks(rt: HostRuntime) {
    let cases: [(&[u8], bool); 4] = [
        (b"0000000000000000", true),
        (b"0000000000000005", true),
        (b"0000000000000006", false),
        (b"0000000010000005", false),
    ];
    for (text, want) in &cases {
        let is_right = is_below(rt.alloc(), text) == *want;
        assert!(rt; is_right, "{want}");
    }
}
