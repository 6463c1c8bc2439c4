//! Devices in memory that several files of these tests take.

use ferry_disk::{MemoryDepot, Name, Shelf, StoreFault};
use std::alloc::{AllocError, Global};

/// What a call that fails answers.
pub const FAILED: StoreFault = StoreFault::Failed;

/// A configuration, and two segments out of order.
const FILES: [(Name, &[u8]); 3] = [
    (Name::Config, b"[repository]"),
    (Name::Segment(3), b"abcdef"),
    (Name::Segment(1), b""),
];

/// The files whose sizes are asked for.
pub const SIZED: [Name; 5] = [
    Name::Nonce,
    Name::Segment(1),
    Name::Segment(3),
    Name::Segment(4),
    Name::Segment(5),
];

/// Those files, as a device in memory takes them.
pub fn files(alloc: Global) -> Result<Vec<(Name, Vec<u8>)>, AllocError> {
    let mut files = Vec::new(alloc);
    for (name, bytes) in FILES {
        files.push((name, Vec::from_slice(alloc, bytes)?))?;
    }
    Ok(files)
}

/// A depot of those files, of which this call fails.
pub fn depot(alloc: Global, failing: u64) -> Result<MemoryDepot, AllocError> {
    let files = files(alloc)?;
    depot_of(alloc, files, failing)
}

/// A depot of files, of which this call fails.
pub fn depot_of(
    alloc: Global,
    files: Vec<(Name, Vec<u8>)>,
    failing: u64,
) -> Result<MemoryDepot, AllocError> {
    let failing = Vec::from_slice(alloc, &[failing])?;
    MemoryDepot::new(alloc, files, failing)
}

/// How many of four bytes of a segment from a place on are read, and those.
pub fn read<S: Shelf>(
    shelf: &mut S,
    segment: u64,
    at: u64,
) -> Result<(usize, [u8; 4]), StoreFault> {
    let mut four = [b'.'; 4];
    match shelf.read_at(Name::Segment(segment), at, &mut four) {
        Ok(count) => Ok((count, four)),
        Err(fault) => Err(fault),
    }
}
