//! Why no plan is made.
ghost use Rattle.std.specs.Prelude.{◌≡◌};
ghost use Rattle.ferry_plan.specs.Fault.{compare_fault, number_of_fault, source_fault};
ghost use Rattle.ferry_plan.specs.declared.fault.PlanFault.TheVariants.{Memory};

use ferry_base::Bytes;
use ferry_compare::CompareFault;
use ferry_repo::RepoFault;
use std::alloc::{AllocError, AllocFailed};

/// Why no plan is made, in the order of their numbers. The faults of parts are never those of memory, which is `Memory` alone.
#[derive(Drop)]
pub enum PlanFault {
    /// The source is refused.
    Source(RepoFault),
    /// The target's device failed.
    Target(RepoFault),
    /// The target has another archive of this name.
    Taken(Bytes),
    /// The source has no archive of this name.
    NotFound(Bytes),
    /// The content of an item has too many pieces.
    Pieces,
    /// Memory was refused.
    Memory,
}

impl PlanFault {
    /// Its number, from 1.
    pub fn number(&self) -> u8
        ensures { result ≡ number_of_fault self.now }
    {
        match self {
            PlanFault::Source(_) => 1,
            PlanFault::Target(_) => 2,
            PlanFault::Taken(_) => 3,
            PlanFault::NotFound(_) => 4,
            PlanFault::Pieces => 5,
            PlanFault::Memory => 6,
        }
    }
}

impl From<RepoFault> for PlanFault {
    ghost from_gives = { λ fault gives. gives ≡ source_fault fault };

    fn from(fault: RepoFault) -> PlanFault {
        match fault {
            RepoFault::Memory => PlanFault::Memory,
            fault => PlanFault::Source(fault),
        }
    }
}

impl From<CompareFault> for PlanFault {
    ghost from_gives = { λ fault gives. gives ≡ compare_fault fault };

    fn from(fault: CompareFault) -> PlanFault {
        match fault {
            CompareFault::Source(fault) => PlanFault::from(fault),
            CompareFault::Target(fault) => PlanFault::Target(fault),
            CompareFault::Memory => PlanFault::Memory,
        }
    }
}

impl From<AllocError> for PlanFault {
    ghost from_gives = { λ _ fault. fault ≡ Memory };

    fn from(_error: AllocError) -> PlanFault {
        PlanFault::Memory
    }
}

impl<T: Drop> From<AllocFailed<T>> for PlanFault {
    ghost from_gives = { λ _ fault. fault ≡ Memory };

    fn from(_error: AllocFailed<T>) -> PlanFault {
        PlanFault::Memory
    }
}
