//! The device over a repository's folder that is read.
ghost use Rattle.std.specs.Prelude.{None};

use crate::failure::Failure;
use crate::folder::{Folder, Presence};
use crate::progress::Progress;
use crate::scan::Scan;
use ferry_disk::{Name, Shelf, StoreFault};
use ferry_layout::count_store;
use std::alloc::{AllocError, Global};
use std::rc::Rc;
use std::rt::Runtime;

/// A repository's files in a folder. It tells nothing of them, and counts its faults.
#[derive(Drop)]
pub struct FolderShelf<R: Runtime> {
    folder: Folder<R>,
    progress: Rc<Progress<R>>,
    scan: Scan,
    faults: u64,
}

impl<R: Runtime> FolderShelf<R> {
    /// The files of the repository at this path. For the word `-` and the empty one every file is absent. The bytes that are read count
    /// into `progress`.
    pub fn new(
        rt: R,
        alloc: Global,
        place: &str,
        progress: Rc<Progress<R>>,
    ) -> Result<FolderShelf<R>, AllocError> {
        let folder = Folder::new(rt, alloc, place, true)?;
        Ok(FolderShelf {
            folder,
            progress,
            scan: Scan::new(),
            faults: 0,
        })
    }

    /// What failed first, and why. `None` where nothing has, or memory was refused for it.
    pub fn failure(&self) -> Option<&Failure> {
        self.folder.system.failure()
    }

    /// Whether the repository's folder is there now. This is no call of the device, and counts no fault.
    pub fn presence(&self) -> Presence {
        self.folder.presence()
    }
}

impl<R: Runtime> Shelf for FolderShelf<R> {
    ghost told = { λ _. None };

    ghost faults = { λ s. s.faults };

    fn segments(&mut self, alloc: Global) -> Result<Vec<u64>, StoreFault> {
        let outcome = self.folder.segments(alloc);
        count_store(&mut self.faults, outcome)
    }

    fn size(&mut self, name: Name) -> Result<Option<u64>, StoreFault> {
        self.scan.begin(name);
        let outcome = self.folder.size(name);
        count_store(&mut self.faults, outcome)
    }

    fn read_at(&mut self, name: Name, at: u64, into: &mut [u8]) -> Result<usize, StoreFault> {
        let outcome = self.folder.read_at(name, at, into);
        if let Ok(count) = &outcome {
            let is_log = self.scan.takes(name, at, *count);
            self.progress.add_read(*count, is_log);
        }
        count_store(&mut self.faults, outcome)
    }
}
