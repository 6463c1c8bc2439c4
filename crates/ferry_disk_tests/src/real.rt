//! The devices over the system: which files of a folder are read, what is written and where, and what the system's answers come to.

use crate::place::{add_all, add_folder, add_sparse, have_files, new_place, take_file};
use ferry_disk::{Depot, Entropy, Name, Shelf, Sink, StoreFault};
use ferry_real::{FolderDepot, FolderShelf, Progress, StdSink, SystemEntropy, Terminals};
use std::alloc::AllocError;
use std::rc::Rc;
use std::{fs, io};

/// What a call that fails answers.
const FAILED: Result<(), StoreFault> = Err(StoreFault::Failed);

/// The progress of a run that shows none.
fn silent(rt: &HostRuntime) -> Result<Rc<Progress<HostRuntime>>, AllocError> {
    let terminals = Terminals {
        output: false,
        error: false,
    };
    Progress::new(rt.clone()?, rt.alloc(), terminals)
}

/// A shelf over the folder at this path.
fn shelf_at(rt: &HostRuntime, place: &str) -> Result<FolderShelf<HostRuntime>, AllocError> {
    let progress = silent(rt)?;
    FolderShelf::new(rt.clone()?, rt.alloc(), place, progress)
}

/// A depot over the folder at this path.
pub fn depot_at(rt: &HostRuntime, place: &str) -> Result<FolderDepot<HostRuntime>, AllocError> {
    let progress = silent(rt)?;
    FolderDepot::new(rt.clone()?, rt.alloc(), place, progress)
}

/// Whether the segments have these numbers.
fn are_listed<S: Shelf>(rt: &HostRuntime, shelf: &mut S, want: &[u64]) -> bool {
    match shelf.segments(rt.alloc()) {
        Ok(numbers) => numbers.as_slice() == want,
        Err(_) => false,
    }
}

/// Whether the device has this file with this content, and nothing behind its end.
fn is_read<S: Shelf>(shelf: &mut S, name: Name, content: &str) -> bool {
    let mut bytes = [0u8; 128];
    let length = content.len();
    let end = length as u64;
    shelf.size(name) == Ok(Some(end))
        && shelf.read_at(name, 0, &mut bytes) == Ok(length)
        && bytes.starts_with(content.as_bytes())
        && shelf.read_at(name, end, &mut bytes) == Ok(0)
        && shelf.read_at(name, u64::MAX, &mut bytes) == Ok(0)
}

/// Whether the device has these files with these contents.
fn are_read<S: Shelf>(shelf: &mut S, files: &[(Name, &str)]) -> bool {
    for (name, content) in files {
        if !is_read(shelf, *name, content) {
            return false;
        }
    }
    true
}

const FOLDERS: [&str; 5] = ["data/0", "data/3/9", "data/5", "data/12", "data/x"];

/// The files of a folder, each with its content, and below them the names and contents that the device has to see.
const FILES: [(&str, &str); 9] = [
    ("config", "settings"),
    ("README", "readme"),
    ("data/0/7", "at its place"),
    ("data/5/7", "in another folder"),
    ("data/3/1001", "in folder 3"),
    ("data/12/1001", "in folder 12"),
    ("data/1001", "below data"),
    ("data/2", "below data"),
    ("data/0/08", "no decimal name"),
];

const SEEN: [(Name, &str); 5] = [
    (Name::Config, "settings"),
    (Name::Readme, "readme"),
    (Name::Segment(2), "below data"),
    (Name::Segment(7), "at its place"),
    (Name::Segment(1001), "in folder 3"),
];

/// Whether a file is read before any was listed, those that count are listed and read, and an absent one has no bytes.
fn sees_files(rt: &HostRuntime, shelf: &mut FolderShelf<HostRuntime>) -> bool {
    let mut three = [0u8; 3];
    let is_early = shelf.read_at(Name::Segment(7), 3, &mut three) == Ok(3) && &three == b"its";
    is_early
        && are_listed(rt, shelf, &[2, 7, 1001])
        && are_read(shelf, &SEEN)
        && shelf.size(Name::Nonce) == Ok(None)
        && shelf.read_at(Name::Segment(9), 0, &mut three) == Ok(0)
}

/// Whether a shelf sees the files that are made below a place.
fn sees_all(rt: &HostRuntime, place: &str) -> io::Result<bool> {
    add_all(rt, place, &FOLDERS, &FILES)?;
    let mut shelf = shelf_at(rt, place)?;
    Ok(sees_files(rt, &mut shelf))
}

/// A config after which a folder holds ten segments.
const TEN_A_FOLDER: &str =
    "[repository]\nversion = 1\nid = 0000000000000000000000000000000000000000000000000000000000000000\nsegments_per_dir = 10\n";

/// What is there in the end, with where the segments lie.
const WRITTEN: [(Name, &str); 4] = [
    (Name::Config, TEN_A_FOLDER),
    (Name::Readme, "second"),
    (Name::Segment(3), "other"),
    (Name::Segment(25), "onetwo"),
];

/// A call that writes, those of Replace by the file that is replaced.
enum Step {
    Append(u64, &'static str),
    Sync(u64),
    Remove(u64),
    Config(&'static str),
    Nonce(&'static str),
    Readme(&'static str),
    Settle,
    Tell,
}

/// Makes one call.
fn make(depot: &mut FolderDepot<HostRuntime>, step: &Step) -> Result<(), StoreFault> {
    match step {
        Step::Append(segment, text) => depot.append(*segment, text.as_bytes()),
        Step::Sync(segment) => depot.sync(*segment),
        Step::Remove(segment) => depot.remove(*segment),
        Step::Config(text) => depot.replace(Name::Config, text.as_bytes()),
        Step::Nonce(text) => depot.replace(Name::Nonce, text.as_bytes()),
        Step::Readme(text) => depot.replace(Name::Readme, text.as_bytes()),
        Step::Settle => depot.settle(),
        Step::Tell => depot.tell(b""),
    }
}

/// Whether each of these calls answers so.
fn answers(
    depot: &mut FolderDepot<HostRuntime>,
    steps: &[Step],
    want: Result<(), StoreFault>,
) -> bool {
    for step in steps {
        if make(depot, step) != want {
            return false;
        }
    }
    true
}

/// Writes these files, and two that are removed again.
const STEPS: [Step; 13] = [
    Step::Settle,
    Step::Readme("first"),
    Step::Append(3, "other"),
    Step::Config(TEN_A_FOLDER),
    Step::Readme("second"),
    Step::Append(25, "one"),
    Step::Append(26, "gone"),
    Step::Append(25, "two"),
    Step::Sync(25),
    Step::Sync(26),
    Step::Remove(26),
    Step::Settle,
    Step::Tell,
];

/// Where two of the segments lie, with their bytes.
const PATHS: [(&str, &str); 2] = [("data/0/3", "other"), ("data/2/25", "onetwo")];

/// Whether a depot makes those calls, and a new shelf then reads what they leave.
fn writes(rt: &HostRuntime, place: &str, depot: &mut FolderDepot<HostRuntime>) -> io::Result<bool> {
    if !answers(depot, &STEPS, Ok(())) {
        return Ok(false);
    }
    let mut shelf = shelf_at(rt, place)?;
    Ok(are_listed(rt, &mut shelf, &[3, 25]) && are_read(&mut shelf, &WRITTEN))
}

/// Whether a new depot does so.
fn is_written(rt: &HostRuntime, place: &str) -> io::Result<bool> {
    let mut depot = depot_at(rt, place)?;
    writes(rt, place, &mut depot)
}

/// Whether that is so, and the segments lie where they should.
fn is_written_there(rt: &HostRuntime, place: &str) -> io::Result<bool> {
    Ok(is_written(rt, place)? && have_files(rt, place, &PATHS)?)
}

/// Calls of one depot, each with a file and what the depot reads of it behind that call. The file that was read last is still open.
const CHANGES: [(Step, Name, &str); 4] = [
    (Step::Readme("first"), Name::Readme, "first"),
    (Step::Readme("another"), Name::Readme, "another"),
    (Step::Append(0, "one"), Name::Segment(0), "one"),
    (Step::Append(0, "two"), Name::Segment(0), "onetwo"),
];

/// Whether each of these calls is made, and the depot reads what it left.
fn reads_changes(depot: &mut FolderDepot<HostRuntime>) -> bool {
    for (step, name, content) in &CHANGES {
        if make(depot, step) != Ok(()) || !is_read(depot, *name, content) {
            return false;
        }
    }
    true
}

/// Whether a new depot reads what it changes.
fn is_read_anew(rt: &HostRuntime, place: &str) -> io::Result<bool> {
    let mut depot = depot_at(rt, place)?;
    Ok(reads_changes(&mut depot))
}

/// The first place of a file that a signed number of 32 bits doesn't have.
const FAR: u64 = 2_147_483_648;

/// Whether bytes are appended and read at places from 2^31 on.
fn goes_far(depot: &mut FolderDepot<HostRuntime>) -> bool {
    let mut bytes = [9u8; 8];
    answers(depot, &[Step::Append(0, "far"), Step::Sync(0)], Ok(()))
        && depot.size(Name::Segment(0)) == Ok(Some(FAR + 3))
        && depot.read_at(Name::Segment(0), FAR - 2, &mut bytes) == Ok(5)
        && bytes == *b"\0\0far\x09\x09\x09"
        && depot.read_at(Name::Segment(0), FAR + 1, &mut bytes) == Ok(2)
        && bytes.starts_with(b"ar")
}

/// Whether a depot goes on in a file that ends there.
fn goes_on(rt: &HostRuntime, place: &str) -> io::Result<bool> {
    add_folder(rt, place, "data/0")?;
    add_sparse(rt, place, "data/0/0", FAR)?;
    let mut depot = depot_at(rt, place)?;
    Ok(goes_far(&mut depot))
}

const TWO_FOLDERS: [&str; 2] = ["data/0", "data/5"];

/// Files of which two have one number.
const FOUR_FILES: [(&str, &str); 4] = [
    ("data/0/1", "data/0/1"),
    ("data/0/2", "data/0/2"),
    ("data/5/2", "data/5/2"),
    ("data/0/3", "data/0/3"),
];

/// Whether a depot fails at a file that was taken away and where there is no file at all, both files of one
/// number go, and the last file stays.
fn keeps_the_rest(rt: &HostRuntime, depot: &mut FolderDepot<HostRuntime>) -> bool {
    answers(depot, &[Step::Append(1, "+"), Step::Sync(1)], FAILED)
        && answers(depot, &[Step::Remove(2)], Ok(()))
        && are_listed(rt, depot, &[3])
        && is_read(depot, Name::Segment(3), "data/0/3")
}

/// Whether a depot appends to a file that is there, and does so where that is taken away then.
fn fails(rt: &HostRuntime, place: &str, depot: &mut FolderDepot<HostRuntime>) -> io::Result<bool> {
    let is_there = answers(depot, &[Step::Append(1, "+")], Ok(()));
    take_file(rt, place, "data/0/1")?;
    Ok(is_there && keeps_the_rest(rt, depot))
}

/// Whether a new depot does so over those files.
fn is_refused(rt: &HostRuntime, place: &str) -> io::Result<bool> {
    add_all(rt, place, &TWO_FOLDERS, &FOUR_FILES)?;
    let mut depot = depot_at(rt, place)?;
    fails(rt, place, &mut depot)
}

/// What is tried in a folder.
enum Trial {
    Reads,
    Writes,
    Changes,
    Far,
    Fails,
}

/// Whether a trial comes out right in the folder of this path.
fn is_right_in(rt: &HostRuntime, place: &str, trial: &Trial) -> io::Result<bool> {
    match trial {
        Trial::Reads => sees_all(rt, place),
        Trial::Writes => is_written_there(rt, place),
        Trial::Changes => is_read_anew(rt, place),
        Trial::Far => goes_on(rt, place),
        Trial::Fails => is_refused(rt, place),
    }
}

/// Whether a trial comes out right in a folder of its own, which is removed then.
fn is_right(rt: &HostRuntime, test: &str, trial: &Trial) -> io::Result<bool> {
    let place = new_place(rt, test)?;
    let is_right = is_right_in(rt, place.as_str(), trial)?;
    fs::remove_dir_all(rt, place.as_str())?;
    Ok(is_right)
}

#[test]
fn a_folders_files_are_read_where_they_lie(rt: HostRuntime) {
    assert!(rt; matches!(is_right(&rt, "reads", &Trial::Reads), Ok(true)));
}

#[test]
fn what_a_depot_writes_a_new_shelf_reads(rt: HostRuntime) {
    assert!(rt; matches!(is_right(&rt, "writes", &Trial::Writes), Ok(true)));
}

#[test]
fn what_a_depot_changes_it_reads_anew(rt: HostRuntime) {
    assert!(rt; matches!(is_right(&rt, "changes", &Trial::Changes), Ok(true)));
}

#[test]
fn places_from_2_31_on_are_written_and_read(rt: HostRuntime) {
    assert!(rt; matches!(is_right(&rt, "far", &Trial::Far), Ok(true)));
}

#[test]
fn what_cant_be_written_fails_and_is_kept(rt: HostRuntime) {
    assert!(rt; matches!(is_right(&rt, "fails", &Trial::Fails), Ok(true)));
}

/// Each call that writes a file.
const REFUSED: [Step; 5] = [
    Step::Settle,
    Step::Append(0, "x"),
    Step::Sync(0),
    Step::Remove(0),
    Step::Nonce("x"),
];

/// Whether a depot refuses those and takes a line, and has no file.
fn refuses(rt: &HostRuntime, depot: &mut FolderDepot<HostRuntime>) -> bool {
    answers(depot, &REFUSED, FAILED)
        && answers(depot, &[Step::Tell], Ok(()))
        && are_listed(rt, depot, &[])
        && depot.size(Name::Nonce) == Ok(None)
}

/// Whether a depot does where the word stands for no folder.
fn no_folder_refuses(rt: &HostRuntime) -> Result<bool, AllocError> {
    let mut depot = depot_at(rt, "-")?;
    Ok(refuses(rt, &mut depot))
}

#[test]
fn where_there_is_no_folder_each_write_but_a_line_fails(rt: HostRuntime) {
    assert!(rt; no_folder_refuses(&rt) == Ok(true));
}

/// Whether two draws of random bytes come, and differ.
fn draws(entropy: &mut SystemEntropy<HostRuntime>) -> bool {
    let (mut first, mut second) = ([0u8; 16], [0u8; 16]);
    entropy.fill(&mut first) == Ok(()) && entropy.fill(&mut second) == Ok(()) && first != second
}

/// Whether those of the system do.
fn the_system_draws(rt: &HostRuntime) -> Result<bool, AllocError> {
    let mut entropy = SystemEntropy::new(rt.clone()?);
    Ok(draws(&mut entropy))
}

#[test]
fn random_bytes_come(rt: HostRuntime) {
    assert!(rt; the_system_draws(&rt) == Ok(true));
}

/// Whether standard output takes no bytes.
fn takes_output(rt: &HostRuntime) -> Result<bool, AllocError> {
    let progress = silent(rt)?;
    let mut sink = StdSink::new(rt.clone()?, progress);
    Ok(sink.write(b"") == Ok(()))
}

#[test]
fn output_is_taken(rt: HostRuntime) {
    assert!(rt; takes_output(&rt) == Ok(true));
}
