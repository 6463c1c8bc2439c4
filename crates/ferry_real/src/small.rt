//! Files that are read as a whole where they aren't too large.

use crate::failure::Word;
use std::alloc::Global;
use std::fs;
use std::fs::File;
use std::io::{Error, ErrorKind, Read};
use std::rt::Runtime;

/// Why a small file wasn't read.
#[derive(Clone, Copy, Debug, PartialEq, Eq)]
pub enum SmallFault {
    /// Nothing is at its path.
    Absent,
    /// What is at its path isn't a regular file: a pipe, say, would be waited for.
    NotFile,
    /// It has more bytes than it may have.
    TooLarge,
    /// The system refused to look at it, to open it or to read it.
    Unreadable(Word),
    /// Memory was refused.
    Memory,
}

/// Reads the regular file at a path, which may have `limit` bytes at most; links are followed. No more than
/// one byte beyond that is read.
pub fn read_small<R: Runtime>(
    rt: &R,
    alloc: Global,
    path: &str,
    limit: u64,
) -> Result<Vec<u8>, SmallFault> {
    match fs::metadata(rt, path) {
        Ok(metadata) if !metadata.is_file() => Err(SmallFault::NotFile),
        Ok(metadata) if metadata.len() > limit => Err(SmallFault::TooLarge),
        Ok(_) => read_at_most(rt, alloc, path, limit),
        Err(error) => Err(fault_of(&error)),
    }
}

/// The same of what can be opened at a path, which is waited for where it is a pipe.
pub fn read_at_most<R: Runtime>(
    rt: &R,
    alloc: Global,
    path: &str,
    limit: u64,
) -> Result<Vec<u8>, SmallFault> {
    match File::open(rt, path) {
        Ok(file) => read_open(alloc, file, limit),
        Err(error) => Err(fault_of(&error)),
    }
}

/// Reads an open file to its end, where it has `limit` bytes at most.
fn read_open<F: Read + Drop>(alloc: Global, file: F, limit: u64) -> Result<Vec<u8>, SmallFault> {
    let mut bytes = Vec::new(alloc);
    match file.take(limit.saturating_add(1)).read_to_end(&mut bytes) {
        Ok(count) if count as u64 > limit => Err(SmallFault::TooLarge),
        Ok(_) => Ok(bytes),
        Err(error) => Err(fault_of(&error)),
    }
}

/// What an error of the system is to one who reads a small file.
fn fault_of(error: &Error) -> SmallFault {
    match error.kind() {
        ErrorKind::NotFound => SmallFault::Absent,
        ErrorKind::OutOfMemory => SmallFault::Memory,
        _ => SmallFault::Unreadable(Word::of(error)),
    }
}
