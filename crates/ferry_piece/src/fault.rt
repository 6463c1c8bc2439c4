//! Why archives aren't copied.
ghost use Rattle.std.specs.Prelude.{◌≡◌};
ghost use Rattle.ferry_piece.specs.Fault.{compare_fault, number_of_fault, source_fault, target_fault};
ghost use Rattle.ferry_piece.specs.declared.fault.CarryFault.TheVariants.{Target, Memory};
ghost use Rattle.ferry_store.specs.Fault.{store_refusal};
ghost use Rattle.ferry_store.specs.declared.fault.StoreRefusal.TheVariants as StoreRefusal;

use ferry_base::Bytes;
use ferry_compare::CompareFault;
use ferry_disk::{EntropyFault, StoreFault};
use ferry_repo::RepoFault;
use ferry_store::StoreRefusal;
use ferry_write::WriteFault;
use std::alloc::{AllocError, AllocFailed};

/// Why archives aren't copied, in the order of their numbers. The faults of parts are never those of memory, which is `Memory` alone.
#[derive(Drop)]
pub enum CarryFault {
    /// The source is refused.
    Source(RepoFault),
    /// The target is refused.
    Target(StoreRefusal),
    /// The target has another archive of this name.
    Taken(Bytes),
    /// The source has no archive of this name.
    NotFound(Bytes),
    /// The content of an item has too many pieces.
    Pieces,
    /// Memory was refused.
    Memory,
    /// The record of an archive is larger than the content of an object may be.
    Record,
}

impl CarryFault {
    /// Its number, from 1.
    pub fn number(&self) -> u8
        ensures { result ≡ number_of_fault self.now }
    {
        match self {
            CarryFault::Source(_) => 1,
            CarryFault::Target(_) => 2,
            CarryFault::Taken(_) => 3,
            CarryFault::NotFound(_) => 4,
            CarryFault::Pieces => 5,
            CarryFault::Memory => 6,
            CarryFault::Record => 7,
        }
    }
}

impl From<RepoFault> for CarryFault {
    ghost from_gives = { λ fault gives. gives ≡ source_fault fault };

    fn from(fault: RepoFault) -> CarryFault {
        match fault {
            RepoFault::Memory => CarryFault::Memory,
            fault => CarryFault::Source(fault),
        }
    }
}

impl From<StoreRefusal> for CarryFault {
    ghost from_gives = { λ refusal gives. gives ≡ target_fault refusal };

    fn from(refusal: StoreRefusal) -> CarryFault {
        match refusal {
            StoreRefusal::Memory => CarryFault::Memory,
            refusal => CarryFault::Target(refusal),
        }
    }
}

impl From<CompareFault> for CarryFault {
    ghost from_gives = { λ fault gives. gives ≡ compare_fault fault };

    fn from(fault: CompareFault) -> CarryFault {
        match fault {
            CompareFault::Source(fault) => CarryFault::Source(fault),
            CompareFault::Target(fault) => CarryFault::Target(StoreRefusal::Repo(fault)),
            CompareFault::Memory => CarryFault::Memory,
        }
    }
}

impl From<EntropyFault> for CarryFault {
    ghost from_gives = { λ _ fault. fault ≡ Target StoreRefusal.Entropy };

    fn from(_fault: EntropyFault) -> CarryFault {
        CarryFault::Target(StoreRefusal::Entropy)
    }
}

impl From<StoreFault> for CarryFault {
    ghost from_gives = { λ fault gives. gives ≡ target_fault (store_refusal fault) };

    fn from(fault: StoreFault) -> CarryFault {
        match fault {
            StoreFault::Failed => CarryFault::Target(StoreRefusal::Write(WriteFault::Device)),
            StoreFault::Memory => CarryFault::Memory,
        }
    }
}

impl From<AllocError> for CarryFault {
    ghost from_gives = { λ _ fault. fault ≡ Memory };

    fn from(_error: AllocError) -> CarryFault {
        CarryFault::Memory
    }
}

impl<T: Drop> From<AllocFailed<T>> for CarryFault {
    ghost from_gives = { λ _ fault. fault ≡ Memory };

    fn from(_error: AllocFailed<T>) -> CarryFault {
        CarryFault::Memory
    }
}
