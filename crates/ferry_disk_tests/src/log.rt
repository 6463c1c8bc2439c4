//! The committed log of a few segments.

use ferry_base::{BLOB_LIMIT, Id};
use ferry_disk::{MemoryShelf, Name};
use ferry_log::{Extent, Head, Log, LogFault, Place, head_at, open_log};
use ferry_segment::{COMMIT, MAGIC, delete_entry, put_head};
use std::alloc::{AllocError, Global};

const KEY: Id = [0x11; 32];

/// A key below that one, which is learnt.
const OTHER: Id = [0x10; 32];

/// What a segment of a case holds behind its magic: a PUT of the key with a blob of so many bytes 7, the same with its last byte
/// changed, a DELETE of the key, or a COMMIT.
enum Part {
    Put(usize),
    Changed(usize),
    Delete,
    Commit,
}

/// Adds the entry of a part.
fn add(alloc: Global, bytes: &mut Vec<u8>, part: &Part) -> Result<(), AllocError> {
    match part {
        Part::Put(size) => add_put(alloc, bytes, *size),
        Part::Changed(size) => add_changed(alloc, bytes, *size),
        Part::Delete => bytes.extend_from_slice(&delete_entry(&KEY)),
        Part::Commit => bytes.extend_from_slice(&COMMIT),
    }
}

/// Adds a PUT of the key with a blob of so many bytes 7.
fn add_put(alloc: Global, bytes: &mut Vec<u8>, size: usize) -> Result<(), AllocError> {
    let blob = vec![in alloc; 7; size.min(BLOB_LIMIT)]?;
    bytes.extend_from_slice(&put_head(&KEY, &blob))?;
    bytes.extend_from_slice(&blob)
}

/// Adds such a PUT, and changes its last byte.
fn add_changed(alloc: Global, bytes: &mut Vec<u8>, size: usize) -> Result<(), AllocError> {
    add_put(alloc, bytes, size)?;
    if let Some(last) = bytes.last_mut() {
        *last ^= 1;
    }
    Ok(())
}

/// The bytes of a segment of one part.
fn segment(alloc: Global, part: &Part) -> Result<Vec<u8>, AllocError> {
    let mut bytes = Vec::from_slice(alloc, &MAGIC)?;
    add(alloc, &mut bytes, part)?;
    Ok(bytes)
}

/// The files of segments, from number 0 on, that hold one part each.
fn files_of(alloc: Global, parts: &[Part]) -> Result<Vec<(Name, Vec<u8>)>, AllocError> {
    let mut files = Vec::new(alloc);
    let mut number = 0u64;
    for part in parts {
        files.push((Name::Segment(number), segment(alloc, part)?))?;
        number = number.wrapping_add(1);
    }
    Ok(files)
}

/// A shelf of such segments.
fn shelf_of(alloc: Global, parts: &[Part]) -> Result<MemoryShelf, AllocError> {
    let files = files_of(alloc, parts)?;
    MemoryShelf::new(alloc, files, Vec::new(alloc))
}

/// The size of the key's blob in the log of a shelf, where it is live.
fn size_on(alloc: Global, shelf: &mut MemoryShelf) -> Result<Option<u32>, LogFault> {
    let log = open_log(alloc, shelf)?;
    Ok(match log.find(&KEY) {
        Some(place) => Some(place.size),
        None => None,
    })
}

/// The size of the key's blob in the log of these segments, where it is live.
fn size_in(alloc: Global, parts: &[Part]) -> Result<Option<u32>, LogFault> {
    let mut shelf = shelf_of(alloc, parts)?;
    size_on(alloc, &mut shelf)
}

/// Logs of these parts: the size of the key's blob in them, where it is live, or why they are refused.
const CASES: [(&[Part], Result<Option<u32>, LogFault>); 6] = [
    (&[Part::Commit], Ok(None)),
    (
        &[Part::Put(3), Part::Delete, Part::Put(140_000), Part::Commit],
        Ok(Some(140_000)),
    ),
    (&[Part::Put(140_000), Part::Delete, Part::Commit], Ok(None)),
    (&[Part::Put(3), Part::Delete], Err(LogFault::NoCommit)),
    (
        &[Part::Put(3), Part::Commit, Part::Changed(140_000)],
        Ok(Some(3)),
    ),
    (
        &[Part::Changed(140_000), Part::Commit],
        Err(LogFault::Damaged { segment: 0, at: 8 }),
    ),
];

#[test]
fn the_last_entry_of_a_key_counts_up_to_the_last_commit(rt: HostRuntime) {
    for (parts, want) in &CASES {
        assert!(rt; size_in(rt.alloc(), parts) == *want);
    }
}

/// Where the key's empty blob lies.
const PLACE: Place = Place {
    segment: 0,
    at: 49,
    size: 0,
};

/// Where the blob of the other key is said to lie.
const FAR: Place = Place {
    segment: 2,
    at: 49,
    size: 0,
};

const EXTENT: Extent = Extent {
    segment: 0,
    size: 49,
    live: 41,
};

/// Whether each call of the log answers of the key alone.
fn has_the_key(log: &Log) -> bool {
    log.transaction() == 1
        && log.find(&KEY) == Some(PLACE)
        && log.next_key(None) == Some((KEY, PLACE))
        && log.next_key(Some(&KEY)).is_none()
        && log.extent(0) == Some(EXTENT)
        && log.extent(2).is_none()
}

/// Whether each call of the log answers of both keys.
fn has_both_keys(log: &Log) -> bool {
    log.has_learnt(&OTHER)
        && !log.has_learnt(&KEY)
        && log.find(&OTHER) == Some(FAR)
        && log.find(&KEY) == Some(PLACE)
        && log.next_key(None) == Some((OTHER, FAR))
        && log.extent(0) == Some(EXTENT)
}

/// Whether the log has the key, learns the other, and then has both.
fn learns(log: &mut Log) -> bool {
    has_the_key(log)
        && log.find(&OTHER).is_none()
        && log.learn(&OTHER, FAR).is_ok()
        && has_both_keys(log)
}

/// The head of the key's PUT.
const HEAD: Head = Head {
    tag: 0,
    key: KEY,
    size: 41,
};

/// Places of segments, and what head is there.
const HEADS: [(u64, u64, Result<Option<Head>, LogFault>); 5] = [
    (0, 8, Ok(Some(HEAD))),
    (0, 49, Ok(None)),
    (0, 9, Err(LogFault::Damaged { segment: 0, at: 9 })),
    (0, 50, Err(LogFault::Damaged { segment: 0, at: 50 })),
    (7, 0, Ok(None)),
];

/// Whether the heads at these places are so.
fn heads_are(alloc: Global, shelf: &mut MemoryShelf) -> bool {
    for (segment, at, want) in &HEADS {
        if head_at(alloc, shelf, *segment, *at) != *want {
            return false;
        }
    }
    true
}

/// Whether the log of a shelf has the key, learns the other, and then has both.
fn learns_over(alloc: Global, shelf: &mut MemoryShelf) -> Result<bool, LogFault> {
    let mut log = open_log(alloc, shelf)?;
    Ok(learns(&mut log))
}

/// Whether each call answers so over a segment of the key's PUT with an empty blob, and one of a COMMIT.
fn answers_for_an_empty_blob(alloc: Global) -> Result<bool, LogFault> {
    let mut shelf = shelf_of(alloc, &[Part::Put(0), Part::Commit])?;
    Ok(learns_over(alloc, &mut shelf) == Ok(true) && heads_are(alloc, &mut shelf))
}

#[test]
fn an_empty_blob_by_each_call(rt: HostRuntime) {
    assert!(rt; answers_for_an_empty_blob(rt.alloc()) == Ok(true));
}
