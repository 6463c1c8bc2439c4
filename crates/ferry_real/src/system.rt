//! The system as one device asks it, and what is at a path.

use crate::failure::{Failure, OUTPUT, Word};
use ferry_disk::StoreFault;
use ferry_layout::store_fault;
use std::alloc::Global;
use std::cell::OnceCell;
use std::fs;
use std::fs::Metadata;
use std::io::{Error, ErrorKind};
use std::rt::Runtime;

/// What is in the way where a link isn't followed.
pub const IS_LINK: &str = "is a link";

/// The system, with what failed there first.
#[derive(Drop)]
pub struct System<R: Runtime> {
    pub rt: R,
    pub alloc: Global,
    /// Whether links are followed that lie in the device's folder.
    follows_links: bool,
    /// No contract knows what is in it.
    first: OnceCell<Failure>,
}

impl<R: Runtime> System<R> {
    /// The system as a device asks it that has met no failure.
    pub fn new(rt: R, alloc: Global, follows_links: bool) -> System<R> {
        System {
            rt,
            alloc,
            follows_links,
            first: OnceCell::new(),
        }
    }

    /// What failed first.
    pub fn failure(&self) -> Option<&Failure> {
        self.first.get()
    }

    /// Notes a failure at a path, and answers it.
    pub fn refused(&self, path: &str, word: Word) -> StoreFault {
        if self.first.get().is_none()
            && let Some(failure) = Failure::at(self.alloc, path, word)
        {
            let _ = self.first.set(failure);
        }
        StoreFault::Failed
    }

    /// What an error of the system is to a call that writes. What it has left isn't known, so each is a
    /// failure, want of memory too.
    pub fn failed(&self, path: &str, error: &Error) -> StoreFault {
        self.refused(path, Word::of(error))
    }

    /// The same at standard output.
    pub fn failed_output(&self, error: &Error) -> StoreFault {
        let _ = self.first.set(Failure::named(OUTPUT, Word::of(error)));
        StoreFault::Failed
    }

    /// What an error of the system is to a call that reads: each but want of memory is a failure.
    pub fn unread(&self, path: &str, error: &Error) -> StoreFault {
        let _ = self.failed(path, error);
        store_fault(error)
    }
}

/// What is at a path in a device's folder, `None` where nothing is. A link there is a failure, where the
/// device follows none.
pub fn look<R: Runtime>(system: &System<R>, path: &str) -> Result<Option<Metadata>, StoreFault> {
    if system.follows_links {
        return look_through(system, path);
    }
    match fs::symlink_metadata(&system.rt, path) {
        Ok(metadata) if metadata.is_symlink() => Err(system.refused(path, Word::Text(IS_LINK))),
        Ok(metadata) => Ok(Some(metadata)),
        Err(error) if error.kind() == ErrorKind::NotFound => Ok(None),
        Err(error) => Err(system.unread(path, &error)),
    }
}

/// What is at a path, links followed, `None` where nothing is.
pub fn look_through<R: Runtime>(
    system: &System<R>,
    path: &str,
) -> Result<Option<Metadata>, StoreFault> {
    match fs::metadata(&system.rt, path) {
        Ok(metadata) => Ok(Some(metadata)),
        Err(error) if error.kind() == ErrorKind::NotFound => Ok(None),
        Err(error) => Err(system.unread(path, &error)),
    }
}

/// What a fault of a look is to a call that writes.
pub fn of_look(_fault: StoreFault) -> StoreFault {
    StoreFault::Failed
}

/// The length of the file at a path. Only a regular file is one: a pipe, say, would be waited for.
pub fn length_of<R: Runtime>(system: &System<R>, path: &str) -> Result<Option<u64>, StoreFault> {
    match look(system, path) {
        Ok(Some(metadata)) if metadata.is_file() => Ok(Some(metadata.len())),
        Ok(_) => Ok(None),
        Err(fault) => Err(fault),
    }
}
