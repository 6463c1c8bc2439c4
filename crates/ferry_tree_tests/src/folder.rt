//! An archive is restored in a folder.

use crate::restoring::{Said, restored};
use ferry_real::{FolderTree, Progress, Terminals};
use std::alloc::AllocError;
use std::fs::Metadata;
use std::os::unix::fs::MetadataExt;
use std::{env, fs, io, process};

/// The path of a folder where nothing is.
fn new_place(rt: &HostRuntime) -> io::Result<String> {
    let temporary = env::temp_dir(rt)?;
    let number = process::id(rt.process());
    let place = format!(in rt.alloc(); "{}/ferry_tree-{number}", temporary.as_str())?;
    Ok(place)
}

/// What is at a path below the place.
fn metadata(rt: &HostRuntime, place: &str, path: &str) -> io::Result<Metadata> {
    let path = format!(in rt.alloc(); "{place}/{path}")?;
    fs::symlink_metadata(rt, path.as_str())
}

/// Whether the file at a path below the place has these bytes.
fn has_bytes(rt: &HostRuntime, place: &str, path: &str, want: &[u8]) -> io::Result<bool> {
    let path = format!(in rt.alloc(); "{place}/{path}")?;
    let bytes = fs::read(rt, path.as_str())?;
    Ok(bytes.as_slice() == want)
}

/// Whether the link at a path below the place leads to this path.
fn leads_to(rt: &HostRuntime, place: &str, path: &str, want: &str) -> io::Result<bool> {
    let path = format!(in rt.alloc(); "{place}/{path}")?;
    let target = fs::read_link(rt, path.as_str())?;
    Ok(target.as_str() == want)
}

/// Whether two paths below the place are one file.
fn are_one(rt: &HostRuntime, place: &str, path: &str, other: &str) -> io::Result<bool> {
    let first = metadata(rt, place, path)?;
    let second = metadata(rt, place, other)?;
    Ok(first.is_file() && first.ino() == second.ino())
}

/// Whether the tree of `whole` is in the folder.
fn is_whole(rt: &HostRuntime, place: &str) -> io::Result<bool> {
    Ok(
        has_bytes(rt, place, "d/f", b"hello\0\0\0")?
            && has_bytes(rt, place, "x/y/e", b"")?
            && leads_to(rt, place, "d/s", "/etc")?
            && are_one(rt, place, "d/f", "h")?,
    )
}

/// What `restore` says of `whole` in the folder, and once more.
fn restored_twice(rt: &HostRuntime, place: &str) -> Result<(Said, Said), AllocError> {
    let terminals = Terminals {
        output: false,
        error: false,
    };
    let progress = Progress::new(rt.clone()?, rt.alloc(), terminals)?;
    let mut tree = FolderTree::new(rt.clone()?, rt.alloc(), place, progress)?;
    let first = restored(rt.alloc(), &mut tree, b"whole", b"");
    let second = restored(rt.alloc(), &mut tree, b"whole", b"");
    drop(tree);
    Ok((first, second))
}

/// Whether `whole` is restored once in a folder that wasn't there, which is removed then.
fn is_restored_in(rt: &HostRuntime, place: &str) -> io::Result<bool> {
    let said = restored_twice(rt, place)?;
    let done = is_whole(rt, place)?;
    fs::remove_dir_all(rt, place)?;
    Ok(done && said == ([0, 2, 2, 2, 2], [14, 0, 0, 0, 0]))
}

/// The same in a folder of its own.
fn is_restored(rt: &HostRuntime) -> io::Result<bool> {
    let place = new_place(rt)?;
    is_restored_in(rt, place.as_str())
}

#[test]
fn an_archive_is_restored_in_a_folder(rt: HostRuntime) {
    assert!(rt; is_restored(&rt).is_ok_and(|done| done));
}
