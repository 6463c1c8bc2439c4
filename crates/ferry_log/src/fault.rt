//! Why a log can't be read.
ghost use Rattle.std.specs.Prelude.{◌≡◌};
ghost use Rattle.ferry_log.specs.Fault.{store_fault};
ghost use Rattle.ferry_log.specs.declared.fault.LogFault.TheVariants as Log;

use ferry_disk::StoreFault;
use std::alloc::{AllocError, AllocFailed};
use thiserror::Error;

/// Why a log can't be read, in the order of their numbers.
#[derive(Clone, Copy, Debug, PartialEq, Eq, Error)]
pub enum LogFault {
    /// No segment is committed.
    #[error("no segment is committed")]
    NoCommit,
    /// The first segment that doesn't read, and the place of its first entry that doesn't, 0 for a wrong magic.
    #[error("segment {segment} is damaged at {at}")]
    Damaged { segment: u64, at: u64 },
    /// The device failed.
    #[error("the device failed")]
    Device,
    /// Memory was refused.
    #[error("out of memory")]
    Memory,
}

impl From<StoreFault> for LogFault {
    ghost from_gives = { λ fault gives. gives ≡ store_fault fault };

    fn from(fault: StoreFault) -> LogFault {
        match fault {
            StoreFault::Failed => LogFault::Device,
            StoreFault::Memory => LogFault::Memory,
        }
    }
}

impl From<AllocError> for LogFault {
    ghost from_gives = { λ _ fault. fault ≡ Log.Memory };

    fn from(_error: AllocError) -> LogFault {
        LogFault::Memory
    }
}

impl<T: Drop> From<AllocFailed<T>> for LogFault {
    ghost from_gives = { λ _ fault. fault ≡ Log.Memory };

    fn from(_error: AllocFailed<T>) -> LogFault {
        LogFault::Memory
    }
}
