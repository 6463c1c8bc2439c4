//! A segment that is appended to, and one whose bytes are made stable.

use crate::failure::Word;
use crate::stable::{not_file, stays_at, sync_file, synced};
use crate::system::{System, length_of};
use ferry_disk::StoreFault;
use ferry_layout::write_all;
use std::rt::Runtime;

/// A segment's file that is open.
#[derive(Drop)]
pub struct Appending<R: Runtime> {
    pub segment: u64,
    pub path: String,
    pub file: R::File,
}

/// Appends bytes to an open segment, which has to be at its path still.
pub fn append_to<R: Runtime>(
    system: &System<R>,
    open: &mut Appending<R>,
    bytes: &[u8],
) -> Result<(), StoreFault> {
    stays_at(system, &open.file, open.path.as_str())?;
    match write_all(&mut open.file, bytes) {
        Ok(()) => Ok(()),
        Err(error) => Err(system.failed(open.path.as_str(), &error)),
    }
}

/// Makes the bytes of an open segment stable, which has to be at its path still.
pub fn sync_at<R: Runtime>(system: &System<R>, open: &Appending<R>) -> Result<(), StoreFault> {
    synced(system, open.path.as_str(), &open.file)?;
    stays_at(system, &open.file, open.path.as_str())
}

/// Makes the bytes of the regular file at a path stable. That there is none is a failure.
pub fn sync_regular<R: Runtime>(system: &System<R>, path: &str) -> Result<(), StoreFault> {
    match length_of(system, path)? {
        Some(_) => sync_file(system, path),
        None => Err(not_file(system, path)),
    }
}

/// The failure of what isn't at its path.
pub fn is_absent<R: Runtime>(system: &System<R>, path: &str) -> StoreFault {
    system.refused(path, Word::Text("isn't there"))
}
