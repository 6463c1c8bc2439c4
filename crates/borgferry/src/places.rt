//! What is looked at of the two places by the program itself, beside what the command does.

use crate::fault::{StartFault, large_lock};
use crate::side::Side;
use ferry_real::{Presence, SmallFault, read_small};
use std::alloc::{AllocError, AllocGlobal, Global};
use std::fs;
use std::io::ErrorKind;
use std::os::unix::fs::MetadataExt;
use std::rt::Runtime;

/// The most bytes of a file of Borg's lock.
const LOCK_LIMIT: u64 = 65_536;

/// Whether a word is read by Borg as a place on another machine, or with an archive behind: a colon stands before its first slash.
pub fn is_remote(place: &str) -> bool {
    for byte in place.as_bytes() {
        match *byte {
            b':' => return true,
            b'/' => return false,
            _ => {}
        }
    }
    false
}

/// Whether two places are one folder that is there, however they are spelled: the same device and inode.
pub fn are_one<R: Runtime>(rt: &R, source: &str, target: &str) -> bool {
    match (identity(rt, source), identity(rt, target)) {
        (Some(left), Some(right)) => left == right,
        _ => false,
    }
}

/// The device and the inode of what is at a place, `None` where nothing is or it can't be told.
fn identity<R: Runtime>(rt: &R, place: &str) -> Option<(u64, u64)> {
    if is_unnamed(place) {
        return None;
    }
    match fs::metadata(rt, place) {
        Ok(metadata) => Some((metadata.dev(), metadata.ino())),
        Err(_) => None,
    }
}

/// Whether a word stands for no folder.
pub fn is_unnamed(place: &str) -> bool {
    place.is_empty() || place == "-"
}

/// Whether there is anything at a place now.
pub fn presence<R: Runtime>(rt: &R, place: &str) -> Presence {
    if is_unnamed(place) {
        return Presence::Unnamed;
    }
    match fs::metadata(rt, place) {
        Err(error) if error.kind() == ErrorKind::NotFound => Presence::Absent,
        _ => Presence::There,
    }
}

/// Whether a lock of Borg lies in a repository's folder: the file or folder `lock.exclusive`, or a file `lock.roster` that names
/// somebody.
pub fn is_locked<R: Runtime + AllocGlobal>(
    rt: &R,
    place: &str,
    side: Side,
) -> Result<bool, StartFault> {
    if is_unnamed(place) {
        return Ok(false);
    }
    if is_exclusive(rt, rt.alloc(), place)? {
        return Ok(true);
    }
    let roster = format!(in rt.alloc(); "{place}/lock.roster")?;
    names_somebody_at(rt, rt.alloc(), roster, side)
}

/// Whether anything is at `lock.exclusive` in a folder.
fn is_exclusive<R: Runtime>(rt: &R, alloc: Global, place: &str) -> Result<bool, AllocError> {
    let path = format!(in alloc; "{place}/lock.exclusive")?;
    Ok(fs::symlink_metadata(rt, path.as_str()).is_ok())
}

/// Whether the file at this path, `lock.roster` of a repository, names somebody. Where it can't be read it names nobody.
fn names_somebody_at<R: Runtime>(
    rt: &R,
    alloc: Global,
    roster: String,
    side: Side,
) -> Result<bool, StartFault> {
    match read_small(rt, alloc, roster.as_str(), LOCK_LIMIT) {
        Ok(text) => Ok(names_somebody(text.as_slice())),
        Err(SmallFault::TooLarge) => Err(large_lock(alloc, side, roster.as_str())?),
        Err(SmallFault::Memory) => Err(StartFault::Memory),
        Err(_) => Ok(false),
    }
}

/// Whether a repository's folder has a file `index.N`, `hints.N` or `integrity.N`, in which Borg keeps where objects lie. Where the folder
/// can't be read it has none.
pub fn has_index<R: Runtime>(rt: &R, place: &str) -> bool {
    let Ok(entries) = fs::read_dir(rt, place) else {
        return false;
    };
    for entry in entries {
        if let Ok(entry) = entry
            && is_index(entry.file_name())
        {
            return true;
        }
    }
    false
}

/// Whether a name is that of such a file.
fn is_index(name: &str) -> bool {
    let name = name.as_bytes();
    name.starts_with(b"index.") || name.starts_with(b"hints.") || name.starts_with(b"integrity.")
}

/// Whether the text of `lock.roster` names somebody: a list of its lists isn't empty, so that two brackets open one behind the
/// other, blanks apart.
fn names_somebody(text: &[u8]) -> bool {
    let mut is_behind_bracket = false;
    for byte in text {
        match *byte {
            b'[' if is_behind_bracket => return true,
            b'[' => is_behind_bracket = true,
            b' ' | b'\t' | b'\r' | b'\n' => {}
            _ => is_behind_bracket = false,
        }
    }
    false
}
