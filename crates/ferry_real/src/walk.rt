//! The pass over a repository's `data` that finds its segments.

use crate::system::{System, look};
use ferry_disk::StoreFault;
use ferry_layout::{Listing, Place, number_of};
use std::fs::{DirEntry, FileType, ReadDir};
use std::io::ErrorKind;
use std::rt::Runtime;
use std::{fs, io};

/// Finds the segments of a repository in its folder `data` and the numbered folders in it. There are none where `data`
/// isn't there.
pub fn walk<R: Runtime>(
    system: &System<R>,
    place: &Place,
    found: &mut Listing,
) -> Result<(), StoreFault> {
    let path = place.data()?;
    walk_data(system, place, path.as_str(), found)
}

/// The same of `data`, which lies at this path.
fn walk_data<R: Runtime>(
    system: &System<R>,
    place: &Place,
    path: &str,
    found: &mut Listing,
) -> Result<(), StoreFault> {
    look(system, path)?;
    match entries_of(system, path) {
        Ok(Some(mut entries)) => walk_entries(system, place, path, &mut entries, found),
        Ok(None) => Ok(()),
        Err(fault) => Err(fault),
    }
}

/// Adds the segments and the numbered folders among the entries of `data`.
fn walk_entries<R: Runtime>(
    system: &System<R>,
    place: &Place,
    path: &str,
    entries: &mut ReadDir<R, R::A>,
    found: &mut Listing,
) -> Result<(), StoreFault> {
    for entry in entries {
        add_entry(system, place, path, entry, found)?;
    }
    Ok(())
}

/// Adds an entry of `data`, where it is a segment or a numbered folder.
fn add_entry<R: Runtime>(
    system: &System<R>,
    place: &Place,
    path: &str,
    entry: io::Result<DirEntry<R, R::A>>,
    found: &mut Listing,
) -> Result<(), StoreFault> {
    match numbered(system, path, entry) {
        Ok(Some((folder, kind))) if kind.is_dir() => walk_folder(system, place, folder, found),
        Ok(Some((number, kind))) if kind.is_file() => add(found, number, None),
        Ok(_) => Ok(()),
        Err(fault) => Err(fault),
    }
}

/// Adds a numbered folder and its segments.
fn walk_folder<R: Runtime>(
    system: &System<R>,
    place: &Place,
    folder: u64,
    found: &mut Listing,
) -> Result<(), StoreFault> {
    if found.folders.push(folder).is_err() {
        return Err(StoreFault::Memory);
    }
    let path = place.folder(folder)?;
    walk_folder_at(system, path.as_str(), folder, found)
}

/// Adds the segments of a numbered folder, which lies at this path.
fn walk_folder_at<R: Runtime>(
    system: &System<R>,
    path: &str,
    folder: u64,
    found: &mut Listing,
) -> Result<(), StoreFault> {
    match entries_of(system, path) {
        Ok(Some(mut entries)) => walk_segments(system, path, folder, &mut entries, found),
        Ok(None) => Ok(()),
        Err(fault) => Err(fault),
    }
}

/// Adds the segments among the entries of a numbered folder.
fn walk_segments<R: Runtime>(
    system: &System<R>,
    path: &str,
    folder: u64,
    entries: &mut ReadDir<R, R::A>,
    found: &mut Listing,
) -> Result<(), StoreFault> {
    for entry in entries {
        add_segment(system, path, folder, entry, found)?;
    }
    Ok(())
}

/// Adds an entry of a numbered folder, where it is a segment.
fn add_segment<R: Runtime>(
    system: &System<R>,
    path: &str,
    folder: u64,
    entry: io::Result<DirEntry<R, R::A>>,
    found: &mut Listing,
) -> Result<(), StoreFault> {
    match numbered(system, path, entry) {
        Ok(Some((number, kind))) if kind.is_file() => add(found, number, Some(folder)),
        Ok(_) => Ok(()),
        Err(fault) => Err(fault),
    }
}

/// Adds a segment that was found in this folder, `None` being `data` itself.
fn add(found: &mut Listing, number: u64, folder: Option<u64>) -> Result<(), StoreFault> {
    match found.add(number, folder) {
        Ok(()) => Ok(()),
        Err(_) => Err(StoreFault::Memory),
    }
}

/// The entries of a folder, `None` where it isn't there.
fn entries_of<R: Runtime>(
    system: &System<R>,
    path: &str,
) -> Result<Option<ReadDir<R, R::A>>, StoreFault> {
    match fs::read_dir(&system.rt, path) {
        Ok(entries) => Ok(Some(entries)),
        Err(error) if error.kind() == ErrorKind::NotFound => Ok(None),
        Err(error) => Err(system.unread(path, &error)),
    }
}

/// The number that names an entry of the folder at this path, and what the entry is. `None` where the name is
/// no number or not text, or the entry has gone meanwhile.
fn numbered<R: Runtime>(
    system: &System<R>,
    path: &str,
    entry: io::Result<DirEntry<R, R::A>>,
) -> Result<Option<(u64, FileType)>, StoreFault> {
    match entry {
        Ok(entry) => kind_of(system, &entry),
        // std's answer to a name that isn't UTF-8; the entries go on behind it.
        Err(error) if error.kind() == ErrorKind::InvalidFilename => Ok(None),
        Err(error) => Err(system.unread(path, &error)),
    }
}

/// The same of an entry that was listed.
fn kind_of<R: Runtime>(
    system: &System<R>,
    entry: &DirEntry<R, R::A>,
) -> Result<Option<(u64, FileType)>, StoreFault> {
    let Some(number) = number_of(entry.file_name()) else {
        return Ok(None);
    };
    match look(system, entry.path().as_str()) {
        Ok(Some(metadata)) => Ok(Some((number, metadata.file_type()))),
        Ok(None) => Ok(None),
        Err(fault) => Err(fault),
    }
}
