//! A folder in which files, folders and links are made.
ghost use Rattle.std.specs.Prelude.{◌≡◌, None};
ghost use Rattle.ferry_disk.specs.Device.{HasCause};
ghost use Rattle.ferry_tree.specs.Nodes.{tree_failed};

use crate::failure::Failure;
use crate::progress::Progress;
use crate::stable::{FOLDER_MODE, make_file, make_place};
use crate::system::System;
use ferry_disk::StoreFault;
use ferry_layout::write_all;
use ferry_tree::{Tree, TreeFault};
use std::alloc::{AllocError, Global};
use std::fs::{DirBuilder, OpenFile};
use std::io::{Error, ErrorKind};
use std::os::unix::fs::{DirBuilderExt, symlink};
use std::rc::Rc;
use std::rt::Runtime;
use std::{fs, io};

/// A folder in which files, folders and links are made, which their owner alone may read. It tells nothing of them, and counts its faults.
///
/// What is made is new: where anything has its name, a link too, the call fails. A path, or the target of a symbolic link, that isn't UTF-8 is a fault, since
/// the calls of the system are asked by texts.
#[derive(Drop)]
pub struct FolderTree<R: Runtime> {
    maker: Maker<R>,
    progress: Rc<Progress<R>>,
    faults: u64,
}

impl<R: Runtime> FolderTree<R> {
    /// The folder at this path; nothing is looked at yet. The word `-` and an empty path name no folder, and each call fails then. The bytes of contents, those
    /// of holes too, count into `progress` as written.
    pub fn new(
        rt: R,
        alloc: Global,
        place: &str,
        progress: Rc<Progress<R>>,
    ) -> Result<FolderTree<R>, AllocError> {
        let place = place_of(alloc, place)?;
        let maker = Maker {
            system: System::new(rt, alloc, true),
            place,
            current: None,
            foreign: None,
        };
        Ok(FolderTree {
            maker,
            progress,
            faults: 0,
        })
    }

    /// What failed first, and why. `None` where nothing has, the word stands for no folder, a path isn't
    /// UTF-8, or memory was refused for it.
    pub fn failure(&self) -> Option<&Failure> {
        self.maker.system.failure()
    }

    /// The path that couldn't be made since it, or the target of the symbolic link there, isn't UTF-8: the last one, `None` where there was none, or memory was
    /// refused for it.
    pub fn foreign(&self) -> Option<&[u8]> {
        let path = self.maker.foreign.as_ref()?;
        Some(path.as_slice())
    }
}

/// What makes files, folders and links in a folder. No fault is counted here.
#[derive(Drop)]
struct Maker<R: Runtime> {
    system: System<R>,
    /// The path of the folder with a slash behind, empty where the word stands for no folder.
    place: String,
    /// The file that was made last, which stays open until the next call that makes something.
    current: Option<Current<R>>,
    /// The last path that the system can't be asked for, itself or the target of its link.
    foreign: Option<Vec<u8>>,
}

/// An open file, and how many bytes it has.
#[derive(Drop)]
struct Current<R: Runtime> {
    path: String,
    file: R::File,
    length: u64,
}

impl<R: Runtime> Maker<R> {
    /// Whether nothing is in the folder, which is made where it isn't there.
    fn look(&self) -> Result<bool, TreeFault> {
        if self.place.is_empty() {
            return Err(TreeFault::Failed);
        }
        match make_place(&self.system, self.place.as_str()) {
            Ok(true) => Ok(true),
            Ok(false) => self.has_nothing(),
            Err(fault) => Err(of_store(fault)),
        }
    }

    /// Whether nothing is in the folder. A name that isn't UTF-8 is something.
    fn has_nothing(&self) -> Result<bool, TreeFault> {
        match has_entry(&self.system.rt, self.place.as_str()) {
            Ok(is_there) => Ok(!is_there),
            Err(error) if error.kind() == ErrorKind::InvalidFilename => Ok(false),
            Err(error) => Err(self.failed(self.place.as_str(), &error)),
        }
    }

    /// Where a path of the tree lies.
    fn path_of(&mut self, path: &[u8]) -> Result<String, TreeFault> {
        if self.place.is_empty() {
            return Err(TreeFault::Failed);
        }
        let Ok(text) = str::from_utf8(path) else {
            return Err(self.not_text(path));
        };
        let mut whole = String::from_str(self.system.alloc, self.place.as_str())?;
        whole.push_str(text)?;
        Ok(whole)
    }

    /// The fault of a path that isn't UTF-8, or that of a link whose target isn't, which is kept.
    fn not_text(&mut self, path: &[u8]) -> TreeFault {
        self.foreign = Vec::from_slice(self.system.alloc, path).ok();
        TreeFault::Failed
    }

    /// Makes a folder.
    fn make_folder(&mut self, path: &[u8]) -> Result<(), TreeFault> {
        self.current = None;
        let path = self.path_of(path)?;
        let made = DirBuilder::new()
            .mode(FOLDER_MODE)
            .create(&self.system.rt, path.as_str());
        self.made(path.as_str(), made)
    }

    /// Makes a file of no bytes, which stays open.
    fn make_file(&mut self, path: &[u8]) -> Result<(), TreeFault> {
        self.current = None;
        let path = self.path_of(path)?;
        match make_file(&self.system, path.as_str()) {
            Ok(file) => {
                self.current = Some(Current {
                    path,
                    file,
                    length: 0,
                });
                Ok(())
            }
            Err(fault) => Err(of_store(fault)),
        }
    }

    /// Makes a symbolic link.
    fn make_symlink(&mut self, path: &[u8], target: &[u8]) -> Result<(), TreeFault> {
        self.current = None;
        let whole = self.path_of(path)?;
        match str::from_utf8(target) {
            Ok(target) => self.make_link(target, whole.as_str()),
            Err(_) => Err(self.not_text(path)),
        }
    }

    /// Makes a hard link of a file.
    fn make_same(&mut self, path: &[u8], first: &[u8]) -> Result<(), TreeFault> {
        self.current = None;
        let path = self.path_of(path)?;
        let first = self.path_of(first)?;
        let made = fs::hard_link(&self.system.rt, first.as_str(), path.as_str());
        self.made(path.as_str(), made)
    }

    /// Makes a symbolic link to this target at a path.
    fn make_link(&self, target: &str, path: &str) -> Result<(), TreeFault> {
        let made = symlink(&self.system.rt, target, path);
        self.made(path, made)
    }

    /// What the answer of the system to a call that makes something at a path is to a tree.
    fn made(&self, path: &str, made: io::Result<()>) -> Result<(), TreeFault> {
        match made {
            Ok(()) => Ok(()),
            Err(error) => Err(self.failed(path, &error)),
        }
    }

    /// What an error of the system is to a tree: each is a fault, want of memory too, as to a call that
    /// writes a repository.
    fn failed(&self, path: &str, error: &Error) -> TreeFault {
        of_store(self.system.failed(path, error))
    }

    /// Appends bytes to the open file.
    fn append(&mut self, bytes: &[u8]) -> Result<(), TreeFault> {
        let Some(current) = &mut self.current else {
            return Err(TreeFault::Failed);
        };
        current.length = longer(current.length, bytes.len() as u64)?;
        append_to(&self.system, current, bytes)
    }

    /// Moves the end of the open file, so that the zero bytes behind its old end take no space.
    fn extend(&mut self, zeros: u64) -> Result<(), TreeFault> {
        let Some(current) = &mut self.current else {
            return Err(TreeFault::Failed);
        };
        current.length = longer(current.length, zeros)?;
        extend_to(&self.system, current)
    }
}

/// Whether the folder at a path has an entry.
fn has_entry<R: Runtime>(rt: &R, path: &str) -> io::Result<bool> {
    let mut entries = fs::read_dir(rt, path)?;
    match entries.next() {
        Some(Ok(_)) => Ok(true),
        Some(Err(error)) => Err(error),
        None => Ok(false),
    }
}

/// Writes bytes at the end of the open file.
fn append_to<R: Runtime>(
    system: &System<R>,
    current: &mut Current<R>,
    bytes: &[u8],
) -> Result<(), TreeFault> {
    match write_all(&mut current.file, bytes) {
        Ok(()) => Ok(()),
        Err(error) => Err(of_store(system.failed(current.path.as_str(), &error))),
    }
}

/// Moves the end of the open file to its length.
fn extend_to<R: Runtime>(system: &System<R>, current: &Current<R>) -> Result<(), TreeFault> {
    match current.file.set_len(current.length) {
        Ok(()) => Ok(()),
        Err(error) => Err(of_store(system.failed(current.path.as_str(), &error))),
    }
}

/// The path of the folder with a slash behind, empty for the word `-` and an empty path.
fn place_of(alloc: Global, place: &str) -> Result<String, AllocError> {
    if place.is_empty() || place == "-" {
        return Ok(String::new(alloc));
    }
    let mut path = String::from_str(alloc, place)?;
    path.push_str("/")?;
    Ok(path)
}

/// A length with so many bytes more.
fn longer(length: u64, more: u64) -> Result<u64, TreeFault> {
    match length.checked_add(more) {
        Some(length) => Ok(length),
        None => Err(TreeFault::Failed),
    }
}

/// What a fault of a repository's folder is to a tree.
fn of_store(fault: StoreFault) -> TreeFault {
    match fault {
        StoreFault::Failed => TreeFault::Failed,
        StoreFault::Memory => TreeFault::Memory,
    }
}

/// Counts an answer that is `Failed`, and no other.
fn count_tree<T>(faults: &mut u64, outcome: Result<T, TreeFault>) -> Result<T, TreeFault>
    ensures outcome { result ≡ outcome }
    ensures cause { HasCause tree_failed faults.old faults.new result }
{
    if let Err(TreeFault::Failed) = &outcome {
        *faults = faults.saturating_add(1);
    }
    outcome
}

impl<R: Runtime> Tree for FolderTree<R> {
    ghost told = { λ _. None };

    ghost faults = { λ t. t.faults };

    fn is_empty(&mut self) -> Result<bool, TreeFault> {
        let outcome = self.maker.look();
        count_tree(&mut self.faults, outcome)
    }

    fn folder(&mut self, path: &[u8]) -> Result<(), TreeFault> {
        let outcome = self.maker.make_folder(path);
        count_tree(&mut self.faults, outcome)
    }

    fn file(&mut self, path: &[u8]) -> Result<(), TreeFault> {
        let outcome = self.maker.make_file(path);
        count_tree(&mut self.faults, outcome)
    }

    fn symlink(&mut self, path: &[u8], target: &[u8]) -> Result<(), TreeFault> {
        let outcome = self.maker.make_symlink(path, target);
        count_tree(&mut self.faults, outcome)
    }

    fn same(&mut self, path: &[u8], first: &[u8]) -> Result<(), TreeFault> {
        let outcome = self.maker.make_same(path, first);
        count_tree(&mut self.faults, outcome)
    }

    fn write(&mut self, bytes: &[u8]) -> Result<(), TreeFault> {
        let outcome = self.maker.append(bytes);
        if outcome.is_ok() {
            self.progress.add_written(bytes.len());
        }
        count_tree(&mut self.faults, outcome)
    }

    fn hole(&mut self, zeros: u64) -> Result<(), TreeFault> {
        let outcome = self.maker.extend(zeros);
        if outcome.is_ok() {
            self.progress.add_written(zeros as usize);
        }
        count_tree(&mut self.faults, outcome)
    }
}
