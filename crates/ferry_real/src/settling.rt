//! What a `settle` makes stable: the bytes of files, and the names in folders.

use crate::stable::{sync_file, sync_folder, sync_folder_unless};
use crate::system::{System, length_of};
use ferry_disk::StoreFault;
use ferry_layout::{Listing, Location, Place};
use std::io::ErrorKind;
use std::rt::Runtime;

/// The files that a `settle` makes stable beside the segments.
const PLAIN_FILES: [&str; 3] = ["config", "nonce", "README"];

/// Makes the bytes of all files stable that a read gives.
pub fn sync_files<R: Runtime>(
    system: &System<R>,
    place: &Place,
    found: &Listing,
) -> Result<(), StoreFault> {
    sync_plain_files(system, place)?;
    sync_segments(system, place, found)
}

/// Makes the bytes of the files stable that are no segments.
fn sync_plain_files<R: Runtime>(system: &System<R>, place: &Place) -> Result<(), StoreFault> {
    for name in &PLAIN_FILES {
        sync_plain(system, place, name)?;
    }
    Ok(())
}

/// Makes the bytes of the segments stable that were found there.
fn sync_segments<R: Runtime>(
    system: &System<R>,
    place: &Place,
    found: &Listing,
) -> Result<(), StoreFault> {
    for (number, location) in &found.places {
        sync_segment(system, place, found, *number, *location)?;
    }
    Ok(())
}

/// Makes the bytes of a file that is no segment stable, where there is one.
fn sync_plain<R: Runtime>(system: &System<R>, place: &Place, name: &str) -> Result<(), StoreFault> {
    let path = place.path_to(name)?;
    sync_if_regular(system, path.as_str())
}

/// Makes the bytes of the regular file at a path stable, where there is one.
fn sync_if_regular<R: Runtime>(system: &System<R>, path: &str) -> Result<(), StoreFault> {
    match length_of(system, path)? {
        Some(_) => sync_file(system, path),
        None => Ok(()),
    }
}

/// Makes the bytes of a segment stable that was found there.
fn sync_segment<R: Runtime>(
    system: &System<R>,
    place: &Place,
    found: &Listing,
    number: u64,
    location: Location,
) -> Result<(), StoreFault> {
    let path = place.segment(number, found.folder(number, location))?;
    sync_file(system, path.as_str())
}

/// Makes the names of all files in the folder stable that a read gives, and those of their folders.
pub fn sync_folders<R: Runtime>(
    system: &System<R>,
    place: &Place,
    found: &Listing,
) -> Result<(), StoreFault> {
    for folder in &found.folders {
        sync_numbered(system, place, *folder)?;
    }
    sync_data(system, place)?;
    sync_folder(system, place.path())
}

/// Makes the names in a numbered folder stable.
fn sync_numbered<R: Runtime>(
    system: &System<R>,
    place: &Place,
    folder: u64,
) -> Result<(), StoreFault> {
    let path = place.folder(folder)?;
    sync_folder(system, path.as_str())
}

/// Makes the names in `data` stable, where it is there.
fn sync_data<R: Runtime>(system: &System<R>, place: &Place) -> Result<(), StoreFault> {
    let data = place.data()?;
    sync_folder_unless(system, data.as_str(), ErrorKind::NotFound)
}
