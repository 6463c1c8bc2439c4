//! Why a repository could not be compacted.
ghost use Rattle.std.specs.Prelude.{◌≡◌};
ghost use Rattle.ferry_compact.specs.Fault.{fault_number, log_fault, store_fault, write_fault};
ghost use Rattle.ferry_compact.specs.declared.fault.CompactFault.TheVariants as Compact;

use ferry_disk::StoreFault;
use ferry_log::LogFault;
use ferry_write::WriteFault;
use std::alloc::{AllocError, AllocFailed};
use thiserror::Error;

/// Why a repository could not be compacted, in the order of their numbers.
#[derive(Clone, Copy, Debug, PartialEq, Eq, Error)]
pub enum CompactFault {
    /// An entry that was read when the log was opened doesn't read any more: its segment, and the offset of its first byte in it.
    #[error("segment {segment} is damaged at {at}")]
    Damaged { segment: u64, at: u64 },
    /// The device failed.
    #[error("the device failed")]
    Device,
    /// Memory was refused.
    #[error("out of memory")]
    Memory,
    /// The segment that would have to begin has a number above 4294967295.
    #[error("the numbers of segments are used up")]
    Numbers,
}

impl CompactFault {
    /// Its number, from 1.
    pub fn number(&self) -> u8
        ensures { result ≡ fault_number self.now }
    {
        match self {
            CompactFault::Damaged { .. } => 1,
            CompactFault::Device => 2,
            CompactFault::Memory => 3,
            CompactFault::Numbers => 4,
        }
    }
}

impl From<StoreFault> for CompactFault {
    ghost from_gives = { λ fault gives. gives ≡ store_fault fault };

    fn from(fault: StoreFault) -> CompactFault {
        match fault {
            StoreFault::Failed => CompactFault::Device,
            StoreFault::Memory => CompactFault::Memory,
        }
    }
}

impl From<WriteFault> for CompactFault {
    ghost from_gives = { λ fault gives. gives ≡ write_fault fault };

    fn from(fault: WriteFault) -> CompactFault {
        match fault {
            WriteFault::Device => CompactFault::Device,
            WriteFault::Memory => CompactFault::Memory,
            WriteFault::Numbers => CompactFault::Numbers,
        }
    }
}

impl From<LogFault> for CompactFault {
    ghost from_gives = { λ fault gives. gives ≡ log_fault fault };

    fn from(fault: LogFault) -> CompactFault {
        match fault {
            LogFault::Damaged { segment, at } => CompactFault::Damaged { segment, at },
            LogFault::Device => CompactFault::Device,
            LogFault::NoCommit | LogFault::Memory => CompactFault::Memory,
        }
    }
}

impl From<AllocError> for CompactFault {
    ghost from_gives = { λ _ fault. fault ≡ Compact.Memory };

    fn from(_error: AllocError) -> CompactFault {
        CompactFault::Memory
    }
}

impl<T: Drop> From<AllocFailed<T>> for CompactFault {
    ghost from_gives = { λ _ fault. fault ≡ Compact.Memory };

    fn from(_error: AllocFailed<T>) -> CompactFault {
        CompactFault::Memory
    }
}
