//! Whether a folder has anything but what a stopped `init`, or Borg, leaves in a repository's: `init` writes over files there and removes segments that
//! aren't committed, and does so to none but these.
//! Source: BorgBackup 1.2, Internals, Repository.

use crate::fault::StartFault;
use crate::settings::has_key;
use crate::side::{Cause, Side};
use ferry_layout::{fill, number_of};
use ferry_real::Word;
use ferry_segment::MAGIC;
use std::alloc::{AllocError, Global};
use std::fs::{DirEntry, File, ReadDir};
use std::io::ErrorKind;
use std::rt::Runtime;
use std::{fs, io};

/// The names of files that a stopped `init` leaves beside `data`, and beside README and `config`, whose texts are looked at.
const NAMES: [&str; 4] = [
    "nonce",
    "config.borgferry-new",
    "nonce.borgferry-new",
    "README.borgferry-new",
];

/// What the names of Borg's own files in a repository's folder begin with.
const BEGINNINGS: [&str; 4] = ["lock.", "index.", "hints.", "integrity."];

/// The text of README that this program writes.
const OWN_README: &[u8] = b"This is a Borg Backup repository.\n";

/// The texts of README that Borg writes.
const READMES: [&[u8]; 2] = [
    b"This is a Borg Backup repository.\nSee https://borgbackup.readthedocs.io/\n",
    b"This is a Borg repository\n",
];

/// What a repository's `config` begins with.
const SECTION: &[u8] = b"[repository]";

/// How many bytes of a file are looked at.
const FRONT: usize = 128;

/// What stands for a name that isn't UTF-8.
const FOREIGN: &str = "a file whose name isn't UTF-8";

/// What is at a name.
#[derive(Clone, Copy, PartialEq, Eq)]
enum Kind {
    /// A regular file.
    File,
    /// A folder.
    Folder,
    /// Another thing, a link too, or what can't be looked at.
    Other,
}

/// The path in a folder of the first thing there that isn't of a repository which `init` began. `None` where there is none, and where the folder isn't
/// there.
pub fn other_file<R: Runtime>(
    rt: &R,
    alloc: Global,
    place: &str,
) -> Result<Option<String>, StartFault> {
    let Some(entries) = entries_of(rt, alloc, place)? else {
        return Ok(None);
    };
    for entry in entries {
        let other = other_entry(rt, alloc, entry)?;
        if other.is_some() {
            return Ok(other);
        }
    }
    Ok(None)
}

/// Whether a folder has a `config` with a key, and nothing in `data`, where it isn't this program that began the repository: what the key opens lies
/// elsewhere then, as where `data` isn't mounted. `init` writes its own README before its `config`.
pub fn has_lone_key<R: Runtime>(rt: &R, alloc: Global, place: &str) -> Result<bool, StartFault> {
    if !has_key(rt, alloc, place)? || has_own_readme(rt, alloc, place)? {
        return Ok(false);
    }
    has_no_data(rt, alloc, place)
}

/// Whether README in a folder is this program's.
fn has_own_readme<R: Runtime>(rt: &R, alloc: Global, place: &str) -> Result<bool, AllocError> {
    let path = format!(in alloc; "{place}/README")?;
    Ok(front(rt, alloc, path.as_str())?.as_slice() == OWN_README)
}

/// Whether `data` in a folder isn't there, or has nothing in it.
fn has_no_data<R: Runtime>(rt: &R, alloc: Global, place: &str) -> Result<bool, StartFault> {
    let path = format!(in alloc; "{place}/data")?;
    match entries_of(rt, alloc, path.as_str())? {
        Some(mut entries) => Ok(entries.next().is_none()),
        None => Ok(true),
    }
}

/// The path of an entry of the folder, or of the first thing in `data`, that isn't a repository's.
fn other_entry<R: Runtime>(
    rt: &R,
    alloc: Global,
    entry: io::Result<DirEntry<R, R::A>>,
) -> Result<Option<String>, StartFault> {
    match entry {
        Ok(entry) => other_named(rt, alloc, entry.file_name(), entry.path().to_string_lossy()),
        Err(error) => of_unlisted(alloc, &error),
    }
}

/// The same of an entry of this name, at this path.
fn other_named<R: Runtime>(
    rt: &R,
    alloc: Global,
    name: &str,
    path: &str,
) -> Result<Option<String>, StartFault> {
    if name == "data" {
        return other_in_data(rt, alloc, path);
    }
    if is_known(rt, alloc, name, path)? {
        return Ok(None);
    }
    Ok(Some(String::from_str(alloc, name)?))
}

/// Whether a thing of this name in the folder, at this path, is a repository's.
fn is_known<R: Runtime>(rt: &R, alloc: Global, name: &str, path: &str) -> Result<bool, AllocError> {
    if NAMES.contains(&name) || is_of_borg(name) {
        return Ok(true);
    }
    match name {
        "README" => Ok(is_readme(front(rt, alloc, path)?.as_slice())),
        "config" => Ok(front(rt, alloc, path)?.as_slice().starts_with(SECTION)),
        _ => Ok(false),
    }
}

/// Whether a name is that of a file of Borg's own.
fn is_of_borg(name: &str) -> bool {
    for beginning in BEGINNINGS {
        if name.starts_with(beginning) {
            return true;
        }
    }
    false
}

/// Whether a text is that of a repository's README.
fn is_readme(text: &[u8]) -> bool {
    if text == OWN_README {
        return true;
    }
    for readme in READMES {
        if text == readme {
            return true;
        }
    }
    false
}

/// The path of the first thing in `data` that isn't a repository's, `data` itself where it is no folder.
fn other_in_data<R: Runtime>(
    rt: &R,
    alloc: Global,
    path: &str,
) -> Result<Option<String>, StartFault> {
    if kind_of(rt, path) != Kind::Folder {
        return Ok(Some(String::from_str(alloc, "data")?));
    }
    let Some(entries) = entries_of(rt, alloc, path)? else {
        return Ok(None);
    };
    for entry in entries {
        let other = other_folder(rt, alloc, entry)?;
        if other.is_some() {
            return Ok(other);
        }
    }
    Ok(None)
}

/// The path of an entry of `data` that is no numbered folder, or of the first thing in it that is no segment.
fn other_folder<R: Runtime>(
    rt: &R,
    alloc: Global,
    entry: io::Result<DirEntry<R, R::A>>,
) -> Result<Option<String>, StartFault> {
    match entry {
        Ok(entry) => other_folder_named(
            rt,
            alloc,
            entry.file_name(),
            entry.path().to_string_lossy(),
        ),
        Err(error) => of_unlisted(alloc, &error),
    }
}

/// The same of an entry of this name, at this path.
fn other_folder_named<R: Runtime>(
    rt: &R,
    alloc: Global,
    name: &str,
    path: &str,
) -> Result<Option<String>, StartFault> {
    if is_folder(rt, name, path) {
        return other_in_folder(rt, alloc, name, path);
    }
    Ok(Some(format!(in alloc; "data/{name}")?))
}

/// Whether a thing of this name, at this path, is a numbered folder.
fn is_folder<R: Runtime>(rt: &R, name: &str, path: &str) -> bool {
    number_of(name).is_some() && kind_of(rt, path) == Kind::Folder
}

/// The path of the first thing in the numbered folder of this name, at this path, that is no segment.
fn other_in_folder<R: Runtime>(
    rt: &R,
    alloc: Global,
    folder: &str,
    path: &str,
) -> Result<Option<String>, StartFault> {
    let Some(entries) = entries_of(rt, alloc, path)? else {
        return Ok(None);
    };
    for entry in entries {
        let other = other_segment(rt, alloc, folder, entry)?;
        if other.is_some() {
            return Ok(other);
        }
    }
    Ok(None)
}

/// The path of an entry of the numbered folder of this name that is no segment.
fn other_segment<R: Runtime>(
    rt: &R,
    alloc: Global,
    folder: &str,
    entry: io::Result<DirEntry<R, R::A>>,
) -> Result<Option<String>, StartFault> {
    match entry {
        Ok(entry) => other_segment_named(
            rt,
            alloc,
            folder,
            entry.file_name(),
            entry.path().to_string_lossy(),
        ),
        Err(error) => of_unlisted(alloc, &error),
    }
}

/// The same of an entry of this name, at this path.
fn other_segment_named<R: Runtime>(
    rt: &R,
    alloc: Global,
    folder: &str,
    name: &str,
    path: &str,
) -> Result<Option<String>, StartFault> {
    if is_segment(rt, alloc, name, path)? {
        return Ok(None);
    }
    Ok(Some(format!(in alloc; "data/{folder}/{name}")?))
}

/// Whether a thing of this name, at this path, is a segment, which a stop may have cut: shorter than its magic it has a front of that, or zeros.
fn is_segment<R: Runtime>(
    rt: &R,
    alloc: Global,
    name: &str,
    path: &str,
) -> Result<bool, AllocError> {
    if number_of(name).is_none() || kind_of(rt, path) != Kind::File {
        return Ok(false);
    }
    Ok(begins_segment(front(rt, alloc, path)?.as_slice()))
}

/// Whether the first bytes of a file may be a segment's.
fn begins_segment(front: &[u8]) -> bool {
    front.starts_with(&MAGIC)
        || MAGIC.starts_with(front)
        || front.len() < MAGIC.len() && is_zero(front)
}

/// Whether all bytes are zero.
fn is_zero(bytes: &[u8]) -> bool {
    for byte in bytes {
        if *byte != 0 {
            return false;
        }
    }
    true
}

/// What is at a path. No link is followed.
fn kind_of<R: Runtime>(rt: &R, path: &str) -> Kind {
    match fs::symlink_metadata(rt, path) {
        Ok(metadata) if metadata.is_file() => Kind::File,
        Ok(metadata) if metadata.is_dir() => Kind::Folder,
        _ => Kind::Other,
    }
}

/// The first bytes of the regular file at a path, none where there is none or it can't be read.
fn front<R: Runtime>(rt: &R, alloc: Global, path: &str) -> Result<Vec<u8>, AllocError> {
    let mut bytes = vec![in alloc; 0; FRONT]?;
    let count = count_in_front(rt, path, &mut bytes);
    bytes.truncate(count);
    Ok(bytes)
}

/// Fills a front with the first bytes of the regular file at a path, and answers how many it has of them.
fn count_in_front<R: Runtime>(rt: &R, path: &str, bytes: &mut [u8]) -> usize {
    if kind_of(rt, path) != Kind::File {
        return 0;
    }
    match File::open(rt, path) {
        Ok(mut file) => fill(&mut file, bytes).unwrap_or(0),
        Err(_) => 0,
    }
}

/// The entries of the folder at a path, `None` where it isn't there.
fn entries_of<R: Runtime>(
    rt: &R,
    alloc: Global,
    path: &str,
) -> Result<Option<ReadDir<R, R::A>>, StartFault> {
    match fs::read_dir(rt, path) {
        Ok(entries) => Ok(Some(entries)),
        Err(error) if error.kind() == ErrorKind::NotFound => Ok(None),
        Err(error) => Err(of_error(alloc, path, &error)),
    }
}

/// The path of an entry that can't be listed: one whose name isn't UTF-8.
fn of_unlisted(alloc: Global, error: &io::Error) -> Result<Option<String>, StartFault> {
    if error.kind() == ErrorKind::InvalidFilename {
        return Ok(Some(String::from_str(alloc, FOREIGN)?));
    }
    Err(of_error(alloc, "a folder of TARGET", error))
}

/// The fault of a target whose folder, at a path, can't be listed.
fn of_error(alloc: Global, path: &str, error: &io::Error) -> StartFault {
    StartFault::of_look(alloc, Side::Target, Cause::at(path, Word::of(error)))
}
