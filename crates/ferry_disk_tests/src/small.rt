//! Small files that are read as a whole, and whose a folder is.

use crate::place::{add_all, new_place, path_in};
use ferry_real::{Ownership, SmallFault, Word, ownership_of, read_at_most, read_small};
use std::fs::Permissions;
use std::os::unix::fs::PermissionsExt;
use std::{fs, io};

/// A path below the place, how many bytes may be there, and how many are read there.
const READ: [(&str, u64, Result<usize, SmallFault>); 6] = [
    ("four", 4, Ok(4)),
    ("four", u64::MAX, Ok(4)),
    ("four", 3, Err(SmallFault::TooLarge)),
    ("absent", 4, Err(SmallFault::Absent)),
    ("own", 4, Err(SmallFault::NotFile)),
    (
        "four/x",
        4,
        Err(SmallFault::Unreadable(Word::Text("ENOTDIR"))),
    ),
];

/// A path below the place, its mode where it is to get one, and whose it is.
const OWNED: [(&str, u32, Ownership); 7] = [
    ("own", 0o755, Ownership::Own),
    ("private", 0o700, Ownership::Own),
    ("group", 0o770, Ownership::Shared),
    ("others", 0o702, Ownership::Shared),
    ("four", 0o644, Ownership::NotFolder),
    ("absent", 0, Ownership::Absent),
    ("four/x", 0, Ownership::Unknown),
];

/// How many bytes are read at a path below the place.
fn length_read(
    rt: &HostRuntime,
    place: &str,
    path: &str,
    limit: u64,
) -> io::Result<Result<usize, SmallFault>> {
    let path = path_in(rt, place, path)?;
    Ok(read_small(rt, rt.alloc(), path.as_str(), limit).map(|bytes| bytes.len()))
}

/// Whether all of them are read so.
fn are_read(rt: &HostRuntime, place: &str) -> io::Result<bool> {
    for (path, limit, want) in READ {
        if length_read(rt, place, path, limit)? != want {
            return Ok(false);
        }
    }
    Ok(true)
}

/// Whose what lies at a path below the place is, with this mode where it isn't 0.
fn owner_of(rt: &HostRuntime, place: &str, path: &str, mode: u32) -> io::Result<Ownership> {
    let path = path_in(rt, place, path)?;
    if mode != 0 {
        fs::set_permissions(rt, path.as_str(), Permissions::from_mode(mode))?;
    }
    Ok(ownership_of(rt, path.as_str()))
}

/// Whether all of them belong so.
fn are_owned(rt: &HostRuntime, place: &str) -> io::Result<bool> {
    for (path, mode, want) in OWNED {
        if owner_of(rt, place, path, mode)? != want {
            return Ok(false);
        }
    }
    Ok(true)
}

/// Whether both are so of the files and folders that are made in a place.
fn is_right_in(rt: &HostRuntime, place: &str) -> io::Result<bool> {
    let folders = ["own", "private", "group", "others"];
    add_all(rt, place, &folders, &[("four", "four")])?;
    Ok(are_read(rt, place)? && are_owned(rt, place)?)
}

/// The same in a folder that is removed then.
fn is_right(rt: &HostRuntime) -> io::Result<bool> {
    let place = new_place(rt, "small")?;
    let is_right = is_right_in(rt, place.as_str())?;
    fs::remove_dir_all(rt, place.as_str())?;
    Ok(is_right)
}

#[test]
fn small_files_are_read_and_folders_are_somebodys(rt: HostRuntime) {
    assert!(rt; matches!(is_right(&rt), Ok(true)));
}

#[test]
fn what_has_no_end_is_read_up_to_its_bound(rt: HostRuntime) {
    let read = read_at_most(&rt, rt.alloc(), "/dev/zero", 1000);
    assert!(rt; matches!(read, Err(SmallFault::TooLarge)));
}
