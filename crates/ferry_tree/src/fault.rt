//! Why an archive wasn't restored.
ghost use Rattle.std.specs.Prelude.{◌≡◌};

use crate::device::TreeFault;
use crate::planning::PlaceFault;
use ferry_base::Bytes;
use ferry_repo::RepoFault;
use std::alloc::AllocError;

/// Why the items of an archive weren't all restored.
#[derive(Drop)]
pub enum RestoreFault {
    /// The source doesn't read, or its device failed, or memory was refused.
    Source(RepoFault),
    /// The item of this path has no place.
    Place(Bytes, PlaceFault),
    /// No archive has the name.
    NotFound,
    /// The tree has a node already.
    NotEmpty,
    /// The tree failed.
    Tree,
    /// Memory was refused.
    Memory,
}

impl From<RepoFault> for RestoreFault {
    ghost use Rattle.ferry_tree.specs.declared.fault.RestoreFault.TheVariants.{Source};

    ghost from_gives = { λ fault gives. gives ≡ Source fault };

    fn from(fault: RepoFault) -> RestoreFault {
        RestoreFault::Source(fault)
    }
}

impl From<AllocError> for RestoreFault {
    ghost use Rattle.ferry_tree.specs.declared.fault.RestoreFault.TheVariants.{Memory};

    ghost from_gives = { λ _ fault. fault ≡ Memory };

    fn from(_error: AllocError) -> RestoreFault {
        RestoreFault::Memory
    }
}

impl From<TreeFault> for RestoreFault {
    ghost use Rattle.ferry_tree.specs.Faults.{tree_fault};

    ghost from_gives = { λ fault gives. gives ≡ tree_fault fault };

    fn from(fault: TreeFault) -> RestoreFault {
        match fault {
            TreeFault::Failed => RestoreFault::Tree,
            TreeFault::Memory => RestoreFault::Memory,
        }
    }
}
