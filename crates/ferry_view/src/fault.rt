//! Why not all is shown.
ghost use Rattle.std.specs.Prelude.{◌≡◌};
ghost use Rattle.ferry_view.specs.declared.fault.ViewFault.TheVariants.{Memory};

use ferry_disk::SinkFault;
use ferry_repo::RepoFault;
use std::alloc::AllocError;
use thiserror::Error;

/// Why not all is shown. Want of memory is `Memory` alone, and never a fault of the repository.
#[derive(Clone, Copy, Debug, PartialEq, Eq, Error)]
pub enum ViewFault {
    /// A part of the repository doesn't read, or its device failed.
    #[error("the repository doesn't read: {0}")]
    Repo(RepoFault),
    /// No archive has the name, or no item with content has the path.
    #[error("there is nothing of the name")]
    NotFound,
    /// The output failed.
    #[error("the output failed")]
    Output,
    /// Memory was refused.
    #[error("out of memory")]
    Memory,
}

impl From<AllocError> for ViewFault {
    ghost from_gives = { λ _ fault. fault ≡ Memory };

    fn from(_error: AllocError) -> ViewFault {
        ViewFault::Memory
    }
}

impl From<SinkFault> for ViewFault {
    ghost use Rattle.ferry_view.specs.Output.{sink_fault};

    ghost from_gives = { λ fault gives. gives ≡ sink_fault fault };

    fn from(fault: SinkFault) -> ViewFault {
        match fault {
            SinkFault::Failed => ViewFault::Output,
            SinkFault::Memory => ViewFault::Memory,
        }
    }
}

impl From<RepoFault> for ViewFault {
    ghost use Rattle.ferry_view.specs.Output.{repo_fault};

    ghost from_gives = { λ fault gives. gives ≡ repo_fault fault };

    fn from(fault: RepoFault) -> ViewFault {
        match fault {
            RepoFault::Memory => ViewFault::Memory,
            fault => ViewFault::Repo(fault),
        }
    }
}
