//! Why a session could not write.
ghost use Rattle.std.specs.Prelude.{◌≡◌};
ghost use Rattle.ferry_write.specs.Fault.{store_fault, fault_number};

use ferry_disk::StoreFault;
use thiserror::Error;

/// Why a session could not write, in the order of their numbers.
#[derive(Clone, Copy, Debug, PartialEq, Eq, Error)]
pub enum WriteFault {
    /// The device failed.
    #[error("the device failed")]
    Device,
    /// Memory was refused.
    #[error("out of memory")]
    Memory,
    /// The segment that would have to begin has a number above 4294967295.
    #[error("the numbers of segments are used up")]
    Numbers,
}

impl WriteFault {
    /// Its number, from 1.
    pub fn number(&self) -> u8
        ensures { result ≡ fault_number self.now }
    {
        match self {
            WriteFault::Device => 1,
            WriteFault::Memory => 2,
            WriteFault::Numbers => 3,
        }
    }
}

impl From<StoreFault> for WriteFault {
    ghost from_gives = { λ fault gives. gives ≡ store_fault fault };

    fn from(fault: StoreFault) -> WriteFault {
        match fault {
            StoreFault::Failed => WriteFault::Device,
            StoreFault::Memory => WriteFault::Memory,
        }
    }
}
