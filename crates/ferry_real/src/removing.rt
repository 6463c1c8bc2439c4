//! The paths of a segment's files, and their removal.

use crate::stable::sync_folder;
use crate::system::System;
use ferry_disk::StoreFault;
use ferry_layout::{Listing, Place, folder_of_path};
use std::fs;
use std::rt::Runtime;

/// Adds the paths of the files of a segment that don't count.
pub fn add_spare(
    place: &Place,
    found: &Listing,
    segment: u64,
    paths: &mut Vec<String>,
) -> Result<(), StoreFault> {
    for (number, location) in &found.spare {
        if *number == segment {
            add_path(place, segment, found.folder(segment, *location), paths)?;
        }
    }
    Ok(())
}

/// Adds the path of a segment that lies in this folder of `data`, `None` being `data` itself.
pub fn add_path(
    place: &Place,
    segment: u64,
    folder: Option<u64>,
    paths: &mut Vec<String>,
) -> Result<(), StoreFault> {
    let path = place.segment(segment, folder)?;
    match paths.push(path) {
        Ok(()) => Ok(()),
        Err(_) => Err(StoreFault::Memory),
    }
}

/// Removes files in this order, each for good.
pub fn remove_files<R: Runtime>(system: &System<R>, paths: &[String]) -> Result<(), StoreFault> {
    for path in paths {
        remove_file(system, path.as_str())?;
    }
    Ok(())
}

/// Removes a file from the folder that it lies in, for good.
fn remove_file<R: Runtime>(system: &System<R>, path: &str) -> Result<(), StoreFault> {
    match fs::remove_file(&system.rt, path) {
        Ok(()) => sync_folder(system, folder_of_path(path)),
        Err(error) => Err(system.failed(path, &error)),
    }
}
