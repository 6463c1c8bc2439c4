//! Why two archives aren't compared to their end.
ghost use Rattle.std.specs.Prelude.{◌≡◌};
ghost use Rattle.ferry_compare.specs.Fault.{target_fault};
ghost use Rattle.ferry_compare.specs.declared.fault.CompareFault.TheVariants.{Memory};

use ferry_repo::RepoFault;
use std::alloc::AllocError;
use thiserror::Error;

/// Why two archives aren't compared to their end. Want of memory is `Memory` alone, whichever repository it was for.
#[derive(Clone, Copy, Debug, PartialEq, Eq, Error)]
pub enum CompareFault {
    /// A part of the source doesn't read, or its device failed.
    #[error("the source doesn't read: {0}")]
    Source(RepoFault),
    /// The device of the target failed. A part of the target that doesn't read is a difference.
    #[error("the target doesn't read: {0}")]
    Target(RepoFault),
    /// Memory was refused.
    #[error("out of memory")]
    Memory,
}

impl From<AllocError> for CompareFault {
    ghost from_gives = { λ _ fault. fault ≡ Memory };

    fn from(_error: AllocError) -> CompareFault {
        CompareFault::Memory
    }
}

/// A fault of the source's repository. That of the target's is made by `of_target`.
impl From<RepoFault> for CompareFault {
    ghost use Rattle.ferry_compare.specs.Fault.{source_fault};

    ghost from_gives = { λ fault gives. gives ≡ source_fault fault };

    fn from(fault: RepoFault) -> CompareFault {
        match fault {
            RepoFault::Memory => CompareFault::Memory,
            fault => CompareFault::Source(fault),
        }
    }
}

/// The fault where a part of the target doesn't read, and none where its files refuse that part.
pub(crate) fn of_target(fault: RepoFault) -> Option<CompareFault>
    ensures fault { result ≡ target_fault fault }
{
    match fault {
        RepoFault::Device => Some(CompareFault::Target(RepoFault::Device)),
        RepoFault::Memory => Some(CompareFault::Memory),
        _ => None,
    }
}
