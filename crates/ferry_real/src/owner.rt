//! Whose a folder is, and who else may write it.

use std::fs;
use std::fs::Metadata;
use std::io::ErrorKind;
use std::os::unix::fs::MetadataExt;
use std::rt::Runtime;

/// The folder of the running process, which belongs to the user as whom it opens files.
const OWN_PROCESS: &str = "/proc/self";

/// The bits of a mode by which a group or all others may write.
const WRITTEN_BY_OTHERS: u32 = 0o022;

/// Whose a folder is.
#[derive(Clone, Copy, Debug, PartialEq, Eq)]
pub enum Ownership {
    /// Nothing is there.
    Absent,
    /// It is the caller's, and nobody else may write it.
    Own,
    /// It isn't a folder.
    NotFolder,
    /// It is another user's.
    Foreign,
    /// It is the caller's, and its group or all others may write it too.
    Shared,
    /// The system refuses to tell.
    Unknown,
}

/// Whose the folder at a path is, links followed: the caller is the user as whom this process opens files.
pub fn ownership_of<R: Runtime>(rt: &R, path: &str) -> Ownership {
    match fs::metadata(rt, path) {
        Ok(metadata) if !metadata.is_dir() => Ownership::NotFolder,
        Ok(metadata) => ownership_as(rt, &metadata),
        Err(error) if error.kind() == ErrorKind::NotFound => Ownership::Absent,
        Err(_) => Ownership::Unknown,
    }
}

/// The same of a folder that was looked at.
fn ownership_as<R: Runtime>(rt: &R, folder: &Metadata) -> Ownership {
    match fs::metadata(rt, OWN_PROCESS) {
        Ok(process) if process.uid() != folder.uid() => Ownership::Foreign,
        Ok(_) if folder.mode() & WRITTEN_BY_OTHERS != 0 => Ownership::Shared,
        Ok(_) => Ownership::Own,
        Err(_) => Ownership::Unknown,
    }
}
