//! The device over a repository's folder that is written as well.
ghost use Rattle.std.specs.Prelude.{◌≡◌, None};
ghost use Rattle.ferry_disk.specs.Device.{HasCause, store_failed};
ghost use Rattle.ferry_layout.specs.Count.{count_after};

use crate::copied::Copied;
use crate::failure::Failure;
use crate::progress::Progress;
use crate::scan::Scan;
use crate::writer::Writer;
use ferry_disk::{Depot, Name, Shelf, StoreFault};
use ferry_layout::count_store;
use std::alloc::{AllocError, Global};
use std::rc::Rc;
use std::rt::Runtime;

/// A repository's files in a folder, and standard output for its lines. It tells nothing of them, and counts its faults.
#[derive(Drop)]
pub struct FolderDepot<R: Runtime> {
    writer: Writer<R>,
    progress: Rc<Progress<R>>,
    scan: Scan,
    copied: Copied,
    /// Whether a file was written or removed.
    has_changed: bool,
    faults: u64,
}

impl<R: Runtime> FolderDepot<R> {
    /// The files of the repository at this path. A folder that isn't there has none, and is made by the first call that writes a file. For
    /// the word `-` and the empty one every file is absent, and each call that writes but `tell` fails. The bytes that are read and
    /// written count into `progress`.
    pub fn new(
        rt: R,
        alloc: Global,
        place: &str,
        progress: Rc<Progress<R>>,
    ) -> Result<FolderDepot<R>, AllocError> {
        let writer = Writer::new(rt, alloc, place)?;
        Ok(FolderDepot {
            writer,
            progress,
            scan: Scan::new(),
            copied: Copied::new(alloc),
            has_changed: false,
            faults: 0,
        })
    }

    /// What failed first, and why. `None` where nothing has, the word stands for no folder, or memory was
    /// refused for it.
    pub fn failure(&self) -> Option<&Failure> {
        self.writer.folder.system.failure()
    }

    /// Which archives the lines have told of as copied.
    pub fn copied(&self) -> &Copied {
        &self.copied
    }

    /// Whether a call was made that writes to a file or removes one, also one that failed.
    pub fn has_changed(&self) -> bool {
        self.has_changed
    }

    /// Counts what a call that writes has answered. After one that failed the files are looked at anew.
    fn count(&mut self, outcome: Result<(), StoreFault>) -> Result<(), StoreFault>
        ensures outcome { result ≡ outcome }
        ensures count { self.new.faults ≡ count_after store_failed self.old.faults result }
        ensures cause { HasCause store_failed self.old.faults self.new.faults result }
    {
        if let Err(StoreFault::Failed) = &outcome {
            self.writer.forget();
        }
        count_store(&mut self.faults, outcome)
    }
}

impl<R: Runtime> Shelf for FolderDepot<R> {
    ghost told = { λ _. None };

    ghost faults = { λ d. d.faults };

    fn segments(&mut self, alloc: Global) -> Result<Vec<u64>, StoreFault> {
        let outcome = self.writer.folder.segments(alloc);
        count_store(&mut self.faults, outcome)
    }

    fn size(&mut self, name: Name) -> Result<Option<u64>, StoreFault> {
        self.scan.begin(name);
        let outcome = self.writer.folder.size(name);
        count_store(&mut self.faults, outcome)
    }

    fn read_at(&mut self, name: Name, at: u64, into: &mut [u8]) -> Result<usize, StoreFault> {
        let outcome = self.writer.folder.read_at(name, at, into);
        if let Ok(count) = &outcome {
            let is_log = self.scan.takes(name, at, *count);
            self.progress.add_read(*count, is_log);
        }
        count_store(&mut self.faults, outcome)
    }
}

impl<R: Runtime> Depot for FolderDepot<R> {
    fn append(&mut self, segment: u64, bytes: &[u8]) -> Result<(), StoreFault> {
        self.has_changed = true;
        let outcome = self.writer.append(segment, bytes);
        if outcome.is_ok() {
            self.progress.add_written(bytes.len());
        }
        self.count(outcome)
    }

    fn sync(&mut self, segment: u64) -> Result<(), StoreFault> {
        let outcome = self.writer.sync(segment);
        self.count(outcome)
    }

    fn remove(&mut self, segment: u64) -> Result<(), StoreFault> {
        self.has_changed = true;
        let outcome = self.writer.remove(segment);
        self.count(outcome)
    }

    fn replace(&mut self, name: Name, bytes: &[u8]) -> Result<(), StoreFault> {
        self.has_changed = true;
        let outcome = self.writer.replace(name, bytes);
        if outcome.is_ok() {
            self.progress.add_written(bytes.len());
        }
        self.count(outcome)
    }

    fn settle(&mut self) -> Result<(), StoreFault> {
        let outcome = self.writer.settle();
        self.count(outcome)
    }

    fn tell(&mut self, line: &[u8]) -> Result<(), StoreFault> {
        self.progress.before_line();
        self.progress.count_archive(line);
        let outcome = self.writer.tell(line);
        if outcome.is_ok() {
            self.copied.take(line);
        }
        self.count(outcome)
    }
}
