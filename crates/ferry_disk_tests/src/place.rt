//! A folder that a test has for itself, and what lies in it.

use std::fs::OpenOptions;
use std::os::unix::fs::symlink;
use std::{env, fs, io, process};

/// The path of a folder that a test has for itself. Nothing is there.
pub fn new_place(rt: &HostRuntime, test: &str) -> io::Result<String> {
    let temporary = env::temp_dir(rt)?;
    let number = process::id(rt.process());
    let place = format!(in rt.alloc(); "{}/ferry_real-{number}-{test}", temporary.as_str())?;
    Ok(place)
}

/// The path of a file or a folder below the place.
pub fn path_in(rt: &HostRuntime, place: &str, path: &str) -> io::Result<String> {
    let path = format!(in rt.alloc(); "{place}/{path}")?;
    Ok(path)
}

/// Makes a folder at a path below the place, and those that it lies in.
pub fn add_folder(rt: &HostRuntime, place: &str, path: &str) -> io::Result<()> {
    let path = path_in(rt, place, path)?;
    fs::create_dir_all(rt, path.as_str())
}

/// Writes a file at a path below the place.
fn add_file(rt: &HostRuntime, place: &str, path: &str, content: &str) -> io::Result<()> {
    let path = path_in(rt, place, path)?;
    fs::write(rt, path.as_str(), content)
}

/// Removes a file at a path below the place.
pub fn take_file(rt: &HostRuntime, place: &str, path: &str) -> io::Result<()> {
    let path = path_in(rt, place, path)?;
    fs::remove_file(rt, path.as_str())
}

/// The bytes of the file at a path below the place.
fn bytes_in(rt: &HostRuntime, place: &str, path: &str) -> io::Result<Vec<u8>> {
    let path = path_in(rt, place, path)?;
    fs::read(rt, path.as_str())
}

/// Whether the file at a path below the place has this content.
fn has_file(rt: &HostRuntime, place: &str, path: &str, content: &str) -> io::Result<bool> {
    let bytes = bytes_in(rt, place, path)?;
    Ok(bytes.as_slice() == content.as_bytes())
}

/// Makes the folders and the files below a place.
pub fn add_all(
    rt: &HostRuntime,
    place: &str,
    folders: &[&str],
    files: &[(&str, &str)],
) -> io::Result<()> {
    for folder in folders {
        add_folder(rt, place, folder)?;
    }
    for (path, content) in files {
        add_file(rt, place, path, content)?;
    }
    Ok(())
}

/// Whether these files have these contents.
pub fn have_files(rt: &HostRuntime, place: &str, files: &[(&str, &str)]) -> io::Result<bool> {
    for (path, content) in files {
        if !has_file(rt, place, path, content)? {
            return Ok(false);
        }
    }
    Ok(true)
}

/// Makes a file of this length, of which the system keeps no bytes.
pub fn add_sparse(rt: &HostRuntime, place: &str, path: &str, length: u64) -> io::Result<()> {
    let path = path_in(rt, place, path)?;
    let mut options = OpenOptions::new();
    options.write(true).create_new(true);
    let file = options.open(rt, path.as_str())?;
    file.set_len(length)
}

/// Makes a link at a path below the place to another below it.
pub fn add_link(rt: &HostRuntime, place: &str, to: &str, path: &str) -> io::Result<()> {
    let to = path_in(rt, place, to)?;
    let path = path_in(rt, place, path)?;
    symlink(rt, to.as_str(), path.as_str())
}

/// Whether links lie at all these paths below the place.
pub fn are_links(rt: &HostRuntime, place: &str, links: &[(&str, &str)]) -> io::Result<bool> {
    for (_, path) in links {
        if !is_link(rt, place, path)? {
            return Ok(false);
        }
    }
    Ok(true)
}

/// Whether a link lies at a path below the place.
fn is_link(rt: &HostRuntime, place: &str, path: &str) -> io::Result<bool> {
    let path = path_in(rt, place, path)?;
    Ok(fs::symlink_metadata(rt, path.as_str())?.is_symlink())
}
