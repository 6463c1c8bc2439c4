//! Compaction of a few segments, over a depot in memory.

use crate::devices::depot_of;
use ferry_base::BLOB_LIMIT;
use ferry_compact::{CompactFault, compact};
use ferry_disk::{MemoryDepot, Name, Shelf};
use ferry_log::{Log, Place, open_log};
use ferry_segment::{COMMIT, MAGIC, delete_entry, put_head};
use std::alloc::{AllocError, Global};

/// An entry: a PUT of the key of 32 such bytes with a blob, a DELETE of that key, or a COMMIT.
enum Part {
    Put(u8, &'static [u8]),
    Delete(u8),
    Commit,
}

/// Segments from number 0 on, how they are compacted, how many of them are removed, the sizes of the segments that are there then,
/// from number 0 on, 0 where one is absent, and the blobs of keys then, as they were before, `None` where one isn't live.
struct Case {
    log: &'static [&'static [Part]],
    limit: u64,
    threshold: u8,
    removed: u64,
    sizes: &'static [u64],
    blobs: &'static [(u8, Option<&'static [u8]>)],
}

/// A segment of a COMMIT alone.
const CLOSED: &[Part] = &[Part::Commit];

/// Two PUTs, of which one is deleted in segment 2.
const HALF: &[&[Part]] = &[
    &[Part::Put(1, b"a"), Part::Put(2, b"bc")],
    CLOSED,
    &[Part::Delete(1)],
    CLOSED,
];

const HALF_BLOBS: &[(u8, Option<&[u8]>)] = &[(1, None), (2, Some(b"bc"))];

/// Five PUTs of which three stay live, and behind them DELETEs of keys that stay, of one that goes with its PUT, and of one that was never put.
const WIDE: &[&[Part]] = &[
    &[
        Part::Put(1, b"one"),
        Part::Put(2, b"two"),
        Part::Put(3, b"three"),
        Part::Put(4, b"four"),
        Part::Put(5, b"five"),
    ],
    CLOSED,
    &[Part::Delete(1), Part::Delete(9), Part::Put(6, b"six")],
    CLOSED,
    &[
        Part::Delete(2),
        Part::Delete(1),
        Part::Put(7, b""),
        Part::Delete(6),
    ],
    CLOSED,
];

const WIDE_BLOBS: &[(u8, Option<&[u8]>)] = &[
    (1, None),
    (2, None),
    (3, Some(b"three")),
    (4, Some(b"four")),
    (5, Some(b"five")),
    (6, None),
    (7, Some(b"")),
    (9, None),
];

const CASES: [Case; 6] = [
    // What is dead goes.
    Case {
        log: &[&[Part::Put(1, b"a")], CLOSED, &[Part::Delete(1)], CLOSED],
        limit: 1000,
        threshold: 0,
        removed: 4,
        sizes: &[0, 0, 0, 0, 17, 0],
        blobs: &[(1, None)],
    },
    // A DELETE is kept while its PUT stays.
    Case {
        log: HALF,
        limit: 1000,
        threshold: 100,
        removed: 3,
        sizes: &[93, 0, 0, 0, 49, 17, 0],
        blobs: HALF_BLOBS,
    },
    // A live PUT is moved, and its blob is as it was.
    Case {
        log: HALF,
        limit: 1000,
        threshold: 50,
        removed: 4,
        sizes: &[0, 0, 0, 0, 51, 17, 0],
        blobs: HALF_BLOBS,
    },
    // Both, in two segments.
    Case {
        log: WIDE,
        limit: 150,
        threshold: 50,
        removed: 5,
        sizes: &[232, 0, 0, 0, 0, 0, 131, 49, 17, 0],
        blobs: WIDE_BLOBS,
    },
    // A commit alone isn't written again, and where no segment is chosen nothing is.
    Case {
        log: &[&[Part::Put(1, b"a")], CLOSED],
        limit: 1000,
        threshold: 100,
        removed: 0,
        sizes: &[50, 17, 0],
        blobs: &[(1, Some(b"a"))],
    },
    Case {
        log: &[&[Part::Put(1, b"a"), Part::Commit]],
        limit: 1000,
        threshold: 100,
        removed: 0,
        sizes: &[59, 0],
        blobs: &[(1, Some(b"a"))],
    },
];

/// Adds an entry to a segment.
fn add(bytes: &mut Vec<u8>, part: &Part) -> Result<(), AllocError> {
    match part {
        Part::Put(key, blob) => add_put(bytes, *key, blob),
        Part::Delete(key) => bytes.extend_from_slice(&delete_entry(&[*key; 32])),
        Part::Commit => bytes.extend_from_slice(&COMMIT),
    }
}

/// Adds a PUT to a segment.
fn add_put(bytes: &mut Vec<u8>, key: u8, blob: &[u8]) -> Result<(), AllocError> {
    let blob = &blob[..blob.len().min(BLOB_LIMIT)];
    bytes.extend_from_slice(&put_head(&[key; 32], blob))?;
    bytes.extend_from_slice(blob)
}

/// The bytes of a segment.
fn segment(alloc: Global, parts: &[Part]) -> Result<Vec<u8>, AllocError> {
    let mut bytes = Vec::from_slice(alloc, &MAGIC)?;
    for part in parts {
        add(&mut bytes, part)?;
    }
    Ok(bytes)
}

/// The files of these segments, from number 0 on.
fn files_of(alloc: Global, log: &[&[Part]]) -> Result<Vec<(Name, Vec<u8>)>, AllocError> {
    let mut files = Vec::new(alloc);
    let mut number = 0u64;
    for parts in log {
        files.push((Name::Segment(number), segment(alloc, parts)?))?;
        number = number.wrapping_add(1);
    }
    Ok(files)
}

/// A depot of the segments of a case, of which this call fails.
fn depot_for(alloc: Global, case: &Case, failing: u64) -> Result<MemoryDepot, AllocError> {
    let files = files_of(alloc, case.log)?;
    depot_of(alloc, files, failing)
}

/// Compacts a depot as a case says.
fn compacted(alloc: Global, depot: &mut MemoryDepot, case: &Case) -> Result<u64, CompactFault> {
    let log = open_log(alloc, depot)?;
    compact(alloc, depot, log, case.limit, case.threshold)
}

/// Whether the segments have these sizes, from number 0 on, 0 where one is absent.
fn sizes_are(depot: &mut MemoryDepot, sizes: &[u64]) -> bool {
    let mut number = 0u64;
    for size in sizes {
        let want = if *size == 0 { None } else { Some(*size) };
        if depot.size(Name::Segment(number)) != Ok(want) {
            return false;
        }
        number = number.wrapping_add(1);
    }
    true
}

/// Whether a blob lies there.
fn lies_at(depot: &mut MemoryDepot, place: Place, blob: &[u8]) -> bool {
    let mut eight = [0u8; 8];
    let read = depot.read_at(Name::Segment(place.segment), place.at, &mut eight);
    read.is_ok() && place.size as usize == blob.len() && eight.starts_with(blob)
}

/// Whether a key that lies there, `None` where it isn't live, has this blob.
fn has_blob(depot: &mut MemoryDepot, place: Option<Place>, blob: Option<&[u8]>) -> bool {
    match (place, blob) {
        (Some(place), Some(blob)) => lies_at(depot, place, blob),
        (None, None) => true,
        _ => false,
    }
}

/// Whether the keys have these blobs in the log of a depot.
fn blobs_are(alloc: Global, depot: &mut MemoryDepot, blobs: &[(u8, Option<&[u8]>)]) -> bool {
    match open_log(alloc, depot) {
        Ok(log) => blobs_lie(&log, depot, blobs),
        Err(_) => false,
    }
}

/// Whether the keys have these blobs where a log says that they lie.
fn blobs_lie(log: &Log, depot: &mut MemoryDepot, blobs: &[(u8, Option<&[u8]>)]) -> bool {
    for (key, blob) in blobs {
        if !has_blob(depot, log.find(&[*key; 32]), *blob) {
            return false;
        }
    }
    true
}

/// Whether a depot is compacted as a case says.
fn is_compacted(alloc: Global, depot: &mut MemoryDepot, case: &Case) -> bool {
    compacted(alloc, depot, case) == Ok(case.removed)
        && sizes_are(depot, case.sizes)
        && blobs_are(alloc, depot, case.blobs)
}

/// Whether a case comes out as it says.
fn is_right(alloc: Global, case: &Case) -> Result<bool, AllocError> {
    let mut depot = depot_for(alloc, case, 0)?;
    Ok(is_compacted(alloc, &mut depot, case))
}

#[test]
fn what_is_in_use_is_moved_and_what_isnt_goes(rt: HostRuntime) {
    for case in &CASES {
        assert!(rt;
            is_right(rt.alloc(), case) == Ok(true),
            "{} {}",
            case.limit,
            case.threshold
        );
    }
}

/// What compacting answers where this call fails, and `None` where the depot of the next run hasn't what was live.
fn failed_at(
    alloc: Global,
    case: &Case,
    call: u64,
) -> Result<Option<Result<u64, CompactFault>>, AllocError> {
    let mut depot = depot_for(alloc, case, call)?;
    let answer = compacted(alloc, &mut depot, case);
    let mut next = depot.again()?;
    Ok(if blobs_are(alloc, &mut next, case.blobs) {
        Some(answer)
    } else {
        None
    })
}

/// Whether each call that fails ends the run and leaves what was live, and how many calls do.
fn failures(alloc: Global, case: &Case) -> Result<Option<u64>, AllocError> {
    let mut failed = 0u64;
    for call in 1..200u64 {
        let answer = failed_at(alloc, case, call)?;
        if answer == Some(Ok(case.removed)) {
            return Ok(Some(failed));
        }
        if answer != Some(Err(CompactFault::Device)) {
            return Ok(None);
        }
        failed = failed.wrapping_add(1);
    }
    Ok(None)
}

/// Whether more than forty calls do.
fn many_fail(alloc: Global) -> Result<bool, AllocError> {
    Ok(match failures(alloc, &CASES[3])? {
        Some(count) => count > 40,
        None => false,
    })
}

#[test]
fn each_call_that_fails_leaves_what_is_live(rt: HostRuntime) {
    assert!(rt; many_fail(rt.alloc()) == Ok(true));
}
