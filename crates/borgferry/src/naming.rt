//! Which archive an object is of that doesn't read, for the line in plain words.

use crate::advice::side_of;
use crate::command::{Ended, Task, name_of};
use crate::numbers::UNSEEN;
use crate::side::Side;
use ferry_base::{Bytes, Id, ZERO_ID};
use ferry_item::Item;
use ferry_manifest::Archive;
use ferry_real::{FolderShelf, Progress};
use ferry_repo::{Repo, RepoFault, Secret, Walk};
use ferry_top::{Refusal, Status};
use ferry_words::{Command, read_words};
use std::alloc::{AllocGlobal, Global};
use std::rt::Runtime;

/// The commands that read more archives than their words name.
const READS_ARCHIVES: [&str; 5] = ["check", "plan", "transfer", "delete", "tag-archives"];

/// How many digits an id has in a line.
const DIGITS: usize = 64;

/// The name of the archive that doesn't read, where a command has met one: the first by name that the object is of which the status names. The
/// repository is opened again for that.
pub fn archive_of_status<R: Runtime + AllocGlobal>(
    rt: &R,
    task: &Task,
    ended: &Ended,
) -> Option<Vec<u8>> {
    if !READS_ARCHIVES.contains(&name_of(task.words)) {
        return None;
    }
    let id = object_of_status(ended)?;
    let side = side_of(&ended.status);
    match read_words(rt.alloc(), task.words) {
        Ok(command) => archive_of_side(rt, task, side, chosen_by(&command), &id),
        Err(_) => None,
    }
}

/// The same of the repository of a side.
fn archive_of_side<R: Runtime + AllocGlobal>(
    rt: &R,
    task: &Task,
    side: Side,
    chosen: &[Bytes],
    id: &Id,
) -> Option<Vec<u8>> {
    let progress = Progress::new(rt.clone().ok()?, rt.alloc(), UNSEEN).ok()?;
    let own = rt.clone().ok()?;
    let mut shelf = FolderShelf::new(own, rt.alloc(), task.places.of(side), progress).ok()?;
    let secret = side.secret(task.secrets);
    archive_of(rt.alloc(), &mut shelf, secret, chosen, id)
}

/// The archives that a command's words choose, none for all.
fn chosen_by(command: &Command) -> &[Bytes] {
    match command {
        Command::Transfer { names, .. } | Command::Plan { names, .. } => names.as_slice(),
        _ => &[],
    }
}

/// The object that a status names, or the line of a check.
fn object_of_status(ended: &Ended) -> Option<Id> {
    match &ended.status {
        Status::No => object_in(ended.last.as_slice()),
        Status::SourceRefused(Refusal::Repo(fault)) | Status::TargetRefused(Refusal::Repo(fault)) =>
            { object_of(fault) }
        _ => None,
    }
}

/// The object that the fault of a repository names, other than a manifest.
fn object_of(fault: &RepoFault) -> Option<Id> {
    match fault {
        RepoFault::Missing(id)
        | RepoFault::Blob(id, _)
        | RepoFault::Archive(id, _)
        | RepoFault::Item(id, _)
        | RepoFault::Size(id)
            if *id != ZERO_ID => { Some(*id) }
        _ => None,
    }
}

/// The object that the line of a check names, the last 64 digits of it, other than a manifest.
fn object_in(line: &[u8]) -> Option<Id> {
    let line = line.strip_suffix(b"\n")?;
    let digits = line.get(line.len().checked_sub(DIGITS)?..)?;
    let mut id = ZERO_ID;
    hex::decode_to_slice(digits, &mut id).ok()?;
    if id == ZERO_ID { None } else { Some(id) }
}

/// The name of the first of these archives of a repository, in the order of names, that uses an object or doesn't read; of all archives where none is chosen.
/// `None` where there is no such archive, or the repository doesn't open any more.
fn archive_of<R: Runtime>(
    alloc: Global,
    shelf: &mut FolderShelf<R>,
    secret: &Secret,
    chosen: &[Bytes],
    id: &Id,
) -> Option<Vec<u8>> {
    match Repo::open(alloc, shelf, secret) {
        Ok(mut repo) => first_of(alloc, &mut repo, shelf, chosen, id),
        Err(_) => None,
    }
}

/// The same of a repository that is open.
fn first_of<R: Runtime>(
    alloc: Global,
    repo: &mut Repo,
    shelf: &mut FolderShelf<R>,
    chosen: &[Bytes],
    id: &Id,
) -> Option<Vec<u8>> {
    let count = repo.manifest().archives.as_slice().len();
    for place in 0..count {
        let name = name_at(alloc, repo, place)?;
        if is_chosen(chosen, name.as_slice()) && is_of(repo, shelf, name.as_slice(), id) {
            return Some(name);
        }
    }
    None
}

/// The name of the archive at this place of a manifest.
fn name_at(alloc: Global, repo: &Repo, place: usize) -> Option<Vec<u8>> {
    let archive = repo.manifest().archives.as_slice().get(place)?;
    Vec::from_slice(alloc, archive.name.as_slice()).ok()
}

/// Whether a name is among the chosen ones, or none is chosen.
fn is_chosen(chosen: &[Bytes], name: &[u8]) -> bool {
    if chosen.is_empty() {
        return true;
    }
    for one in chosen {
        if one.as_slice() == name {
            return true;
        }
    }
    false
}

/// Whether the archive of this name uses an object, or doesn't read.
fn is_of<R: Runtime>(repo: &mut Repo, shelf: &mut FolderShelf<R>, name: &[u8], id: &Id) -> bool {
    let Some(record) = repo.record_id(name) else {
        return false;
    };
    if record == *id {
        return true;
    }
    match repo.archive(shelf, name) {
        Ok(Some(archive)) => uses(repo, shelf, &record, &archive, id),
        Ok(None) => false,
        Err(_) => true,
    }
}

/// Whether an archive, whose record has an id, uses an object in its stream or as a content, or doesn't read.
fn uses<R: Runtime>(
    repo: &mut Repo,
    shelf: &mut FolderShelf<R>,
    record: &Id,
    archive: &Archive,
    id: &Id,
) -> bool {
    if archive.items.as_slice().contains(id) {
        return true;
    }
    match repo.walk_stream(record, archive) {
        Ok(mut walk) => has_item(repo, shelf, &mut walk, id),
        Err(_) => false,
    }
}

/// Whether an item that is still to come has an object as a content, or the stream doesn't read.
fn has_item<R: Runtime>(
    repo: &mut Repo,
    shelf: &mut FolderShelf<R>,
    walk: &mut Walk,
    id: &Id,
) -> bool {
    for _ in 0..u64::MAX {
        match walk.step(repo, shelf) {
            Ok(Some(item)) if has_content(&item, id) => return true,
            Ok(Some(_)) => {}
            Ok(None) => return false,
            Err(_) => return true,
        }
    }
    false
}

/// Whether an item has an object as a content.
fn has_content(item: &Item, id: &Id) -> bool {
    let Some(chunks) = &item.chunks else {
        return false;
    };
    for chunk in chunks.as_slice() {
        if chunk.id == *id {
            return true;
        }
    }
    false
}
