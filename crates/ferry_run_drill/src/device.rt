//! The depot of the drill's source.
ghost use Rattle.std.specs.Prelude.{Some, IfOk};
ghost use Rattle.ferry_disk.specs.Disk.{disk_told};
ghost use Rattle.ferry_gen.specs.Source.{IsEmpty};

use ferry_disk::{Depot, MemoryDepot, Name, Shelf, StoreFault};
use std::alloc::{AllocError, Global};
use std::marker::Model;

/// A depot in memory none of whose calls is told to fail, so that it counts no fault.
#[derive(Drop)]
pub(crate) struct OwnDepot {
    depot: MemoryDepot,
}

impl Model for OwnDepot {
    ghost use Rattle.std.specs.Prelude.{◌≡◌, []};
    ghost use Rattle.ferry_disk.specs.Disk.{Disk, coded_disk};

    ghost Value = { Disk };

    ghost coded = { coded_disk };

    ghost view = { λ d. d.depot };

    ghost invariant = { λ d. d.depot.failing ≡ [] };
}

impl OwnDepot {
    /// A depot that has no file.
    pub(crate) fn new(alloc: Global) -> Result<OwnDepot, AllocError>
        ensures empty { IfOk result (λ depot. IsEmpty depot.history) }
    {
        let depot = MemoryDepot::new(alloc, Vec::new(alloc), Vec::new(alloc))?;
        Ok(OwnDepot { depot })
    }
}

impl Shelf for OwnDepot {
    ghost told = { λ d. Some (disk_told d) };

    ghost faults = { λ d. 0 };

    fn segments(&mut self, alloc: Global) -> Result<Vec<u64>, StoreFault> {
        self.depot.segments(alloc)
    }

    fn size(&mut self, name: Name) -> Result<Option<u64>, StoreFault> {
        self.depot.size(name)
    }

    fn read_at(&mut self, name: Name, at: u64, into: &mut [u8]) -> Result<usize, StoreFault> {
        self.depot.read_at(name, at, into)
    }
}

impl Depot for OwnDepot {
    fn append(&mut self, segment: u64, bytes: &[u8]) -> Result<(), StoreFault> {
        self.depot.append(segment, bytes)
    }

    fn sync(&mut self, segment: u64) -> Result<(), StoreFault> {
        self.depot.sync(segment)
    }

    fn remove(&mut self, segment: u64) -> Result<(), StoreFault> {
        self.depot.remove(segment)
    }

    fn replace(&mut self, name: Name, bytes: &[u8]) -> Result<(), StoreFault> {
        self.depot.replace(name, bytes)
    }

    fn settle(&mut self) -> Result<(), StoreFault> {
        self.depot.settle()
    }

    fn tell(&mut self, line: &[u8]) -> Result<(), StoreFault> {
        self.depot.tell(line)
    }
}
