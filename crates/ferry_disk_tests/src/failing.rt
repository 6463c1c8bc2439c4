//! What a depot tells of its first failure, and that it follows no link in its folder.

use crate::place::{add_all, add_link, add_sparse, are_links, have_files, new_place, path_in};
use crate::real::depot_at;
use ferry_disk::{Depot, Name, Shelf, StoreFault};
use ferry_real::{FolderDepot, Word};
use std::{fs, io};

/// A call of a depot.
#[derive(Clone, Copy)]
enum Call {
    List,
    Size(Name),
    Read(Name),
    Append(u64),
    Sync(u64),
    Remove(u64),
    Replace(Name),
    Settle,
}

/// Makes a call.
fn make(
    rt: &HostRuntime,
    depot: &mut FolderDepot<HostRuntime>,
    call: Call,
) -> Result<(), StoreFault> {
    match call {
        Call::List => depot.segments(rt.alloc()).map(|_| ()),
        Call::Size(name) => depot.size(name).map(|_| ()),
        Call::Read(name) => depot.read_at(name, 0, &mut [0u8; 4]).map(|_| ()),
        Call::Append(segment) => depot.append(segment, b"x"),
        Call::Sync(segment) => depot.sync(segment),
        Call::Remove(segment) => depot.remove(segment),
        Call::Replace(Name::Config) => depot.replace(Name::Config, b"x"),
        Call::Replace(Name::Nonce) => depot.replace(Name::Nonce, b"x"),
        Call::Replace(Name::Readme) => depot.replace(Name::Readme, b"x"),
        Call::Replace(Name::Segment(_)) => Ok(()),
        Call::Settle => depot.settle(),
    }
}

/// What lies in the place beside the links.
const FOLDERS: [&str; 16] = [
    "other/data/0",
    "all",
    "numbered/data",
    "segment/data/0",
    "config",
    "nonce",
    "readme",
    "new-config",
    "new-nonce",
    "new-readme",
    "empty/data/0",
    "taken/data/0/3",
    "large",
    "right/data/0",
    "no-data",
    "data-is-a-file",
];

const FILES: [(&str, &str); 8] = [
    ("other/data/0/3", "segment"),
    ("other/config", "config"),
    ("other/nonce", "nonce"),
    ("other/README", "readme"),
    ("other/new", "new"),
    ("file", "file"),
    ("data-is-a-file/data", "file"),
    ("right/data/0/3", "right"),
];

/// Where links lead, and where they lie.
const LINKS: [(&str, &str); 11] = [
    ("other/data", "all/data"),
    ("other/data/0", "numbered/data/0"),
    ("other/data/0/3", "segment/data/0/3"),
    ("other/config", "config/config"),
    ("other/nonce", "nonce/nonce"),
    ("other/README", "readme/README"),
    ("other/new", "new-config/config.borgferry-new"),
    ("other/new", "new-nonce/nonce.borgferry-new"),
    ("other/new", "new-readme/README.borgferry-new"),
    ("right", "link"),
    ("absent", "nowhere"),
];

const LINK: Word = Word::Text("is a link");

const ABSENT: Word = Word::Text("isn't there");

const LARGE: Word = Word::Text("is larger than 1 MiB");

/// A depot's folder, a call that fails there, and what is told of that: the path and the word.
const FAILURES: [(&str, Call, &str, Word); 43] = [
    ("all", Call::List, "all/data", LINK),
    ("all", Call::Read(Name::Segment(3)), "all/data", LINK),
    ("all", Call::Append(3), "all/data", LINK),
    ("all", Call::Append(7), "all/data", LINK),
    ("all", Call::Sync(3), "all/data", LINK),
    ("all", Call::Remove(3), "all/data", LINK),
    ("all", Call::Settle, "all/data", LINK),
    ("numbered", Call::List, "numbered/data/0", LINK),
    ("numbered", Call::Append(7), "numbered/data/0", LINK),
    ("numbered", Call::Remove(3), "numbered/data/0", LINK),
    ("numbered", Call::Settle, "numbered/data/0", LINK),
    ("segment", Call::List, "segment/data/0/3", LINK),
    (
        "segment",
        Call::Size(Name::Segment(3)),
        "segment/data/0/3",
        LINK,
    ),
    ("segment", Call::Append(3), "segment/data/0/3", LINK),
    ("segment", Call::Append(7), "segment/data/0/3", LINK),
    ("segment", Call::Remove(3), "segment/data/0/3", LINK),
    ("segment", Call::Settle, "segment/data/0/3", LINK),
    ("config", Call::List, "config/config", LINK),
    ("config", Call::Size(Name::Config), "config/config", LINK),
    ("config", Call::Read(Name::Config), "config/config", LINK),
    ("config", Call::Replace(Name::Config), "config/config", LINK),
    ("config", Call::Append(7), "config/config", LINK),
    ("nonce", Call::Size(Name::Nonce), "nonce/nonce", LINK),
    ("nonce", Call::Read(Name::Nonce), "nonce/nonce", LINK),
    ("nonce", Call::Replace(Name::Nonce), "nonce/nonce", LINK),
    ("nonce", Call::Settle, "nonce/nonce", LINK),
    ("readme", Call::Replace(Name::Readme), "readme/README", LINK),
    ("readme", Call::Settle, "readme/README", LINK),
    (
        "new-config",
        Call::Replace(Name::Config),
        "new-config/config.borgferry-new",
        LINK,
    ),
    (
        "new-nonce",
        Call::Replace(Name::Nonce),
        "new-nonce/nonce.borgferry-new",
        LINK,
    ),
    (
        "new-readme",
        Call::Replace(Name::Readme),
        "new-readme/README.borgferry-new",
        LINK,
    ),
    (
        "nowhere",
        Call::Replace(Name::Nonce),
        "nowhere",
        Word::Text("is a link that leads nowhere"),
    ),
    (
        "a/b/target",
        Call::Replace(Name::Nonce),
        "a/b",
        Word::Text("ENOENT"),
    ),
    (
        "file",
        Call::Replace(Name::Nonce),
        "file",
        Word::Text("isn't a folder"),
    ),
    ("file", Call::Settle, "file/config", Word::Text("ENOTDIR")),
    (
        "data-is-a-file",
        Call::List,
        "data-is-a-file/data",
        Word::Text("ENOTDIR"),
    ),
    (
        "taken",
        Call::Append(3),
        "taken/data/0/3",
        Word::Text("EEXIST"),
    ),
    ("empty", Call::Sync(9), "empty/data/0/9", ABSENT),
    ("empty", Call::Remove(9), "empty/data/0/9", ABSENT),
    ("large", Call::Size(Name::Config), "large/config", LARGE),
    ("large", Call::Read(Name::Config), "large/config", LARGE),
    ("large", Call::List, "large/config", LARGE),
    ("large", Call::Settle, "large/config", LARGE),
];

/// Calls that a link in front of the folder itself doesn't hinder.
const FOLLOWED: [Call; 5] = [
    Call::List,
    Call::Append(3),
    Call::Append(7),
    Call::Replace(Name::Config),
    Call::Settle,
];

/// Whether the first failure that a depot tells is this one.
fn tells(depot: &FolderDepot<HostRuntime>, path: &str, word: Word) -> bool {
    match depot.failure() {
        Some(failure) => failure.path() == path && failure.word() == word,
        None => false,
    }
}

/// Whether a call fails, and what is told of it stays behind another call.
fn fails_so(
    rt: &HostRuntime,
    depot: &mut FolderDepot<HostRuntime>,
    call: Call,
    path: &str,
    word: Word,
) -> bool {
    let is_new = depot.failure().is_none();
    let failed = make(rt, depot, call) == Err(StoreFault::Failed);
    let _ = depot.sync(99);
    is_new && failed && tells(depot, path, word)
}

/// Whether a new depot over a folder below the place fails so.
fn fails_at(rt: &HostRuntime, place: &str, failure: (&str, Call, &str, Word)) -> io::Result<bool> {
    let (folder, call, path, word) = failure;
    let folder = path_in(rt, place, folder)?;
    let path = path_in(rt, place, path)?;
    let mut depot = depot_at(rt, folder.as_str())?;
    Ok(fails_so(rt, &mut depot, call, path.as_str(), word))
}

/// Whether each failure is told.
fn all_are_told(rt: &HostRuntime, place: &str) -> io::Result<bool> {
    for failure in FAILURES {
        if !fails_at(rt, place, failure)? {
            return Ok(false);
        }
    }
    Ok(true)
}

/// Whether a depot makes those calls, and none of them fails.
fn follows(rt: &HostRuntime, depot: &mut FolderDepot<HostRuntime>) -> bool {
    for call in FOLLOWED {
        if make(rt, depot, call) != Ok(()) {
            return false;
        }
    }
    depot.failure().is_none()
}

/// Whether a depot over a link to a folder does.
fn is_followed(rt: &HostRuntime, place: &str) -> io::Result<bool> {
    let link = path_in(rt, place, "link")?;
    let mut depot = depot_at(rt, link.as_str())?;
    Ok(follows(rt, &mut depot))
}

/// Makes all that lies in the place.
fn add(rt: &HostRuntime, place: &str) -> io::Result<()> {
    add_all(rt, place, &FOLDERS, &FILES)?;
    add_sparse(rt, place, "large/config", (1 << 20) + 1)?;
    for (to, path) in LINKS {
        add_link(rt, place, to, path)?;
    }
    Ok(())
}

/// Whether all of that is so, and what lies behind the links is as it was.
fn is_right_in(rt: &HostRuntime, place: &str) -> io::Result<bool> {
    add(rt, place)?;
    let told = all_are_told(rt, place)?;
    let followed = is_followed(rt, place)?;
    Ok(told && followed && are_links(rt, place, &LINKS)? && have_files(rt, place, &FILES[..7])?)
}

/// The same in a folder that is removed then.
fn is_right(rt: &HostRuntime) -> io::Result<bool> {
    let place = new_place(rt, "failing")?;
    let is_right = is_right_in(rt, place.as_str())?;
    fs::remove_dir_all(rt, place.as_str())?;
    Ok(is_right)
}

#[test]
fn a_depot_tells_its_first_failure_and_follows_no_link(rt: HostRuntime) {
    assert!(rt; matches!(is_right(&rt), Ok(true)));
}
