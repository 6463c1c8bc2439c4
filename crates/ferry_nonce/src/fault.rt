//! Why a counter doesn't open, or draws no blocks.
ghost use Rattle.std.specs.Prelude.{◌≡◌};

use ferry_disk::StoreFault;
use thiserror::Error;

/// Why a counter doesn't open, or draws no blocks, in the order of their numbers.
#[derive(Clone, Copy, Debug, PartialEq, Eq, Error)]
pub enum NonceFault {
    /// The file `nonce` is absent from a repository that has a commit.
    #[error("the file nonce is missing")]
    Missing = 1,
    /// The file `nonce` isn't a number of 16 hex digits.
    #[error("the file nonce has no number of 16 hex digits")]
    Text = 2,
    /// No number of 64 bits is above the blocks and their reservation.
    #[error("the counter has no more blocks")]
    Exhausted = 3,
    /// The device failed.
    #[error("the device failed")]
    Device = 4,
    /// Memory was refused.
    #[error("out of memory")]
    Memory = 5,
}

impl NonceFault {
    ghost use Rattle.ferry_nonce.specs.Fault.{number_of_fault};

    /// The number of the fault in printed lines, from 1 to 5.
    pub fn number(&self) -> u8
        ensures number { result ≡ number_of_fault self.now }
    {
        *self as u8
    }
}

impl From<StoreFault> for NonceFault {
    ghost use Rattle.ferry_nonce.specs.Fault.{store_fault};

    ghost from_gives = { λ fault gives. gives ≡ store_fault fault };

    fn from(fault: StoreFault) -> NonceFault {
        match fault {
            StoreFault::Failed => NonceFault::Device,
            StoreFault::Memory => NonceFault::Memory,
        }
    }
}
