//! Why no item could be read.

ghost use Rattle.std.specs.Prelude.{◌≡◌};
ghost use Rattle.ferry_item.specs.declared.fault.ItemFault.TheVariants.{Memory};

use std::alloc::{AllocError, AllocFailed};
use thiserror::Error;

/// Why an item isn't read, in the order in which faults are looked for.
#[derive(Clone, Copy, Debug, PartialEq, Eq, Error)]
pub enum ItemFault {
    /// A value that isn't read, however the stream goes on, or that isn't a map.
    #[error("a value that isn't read or isn't a map")]
    Pack = 1,
    /// `path` is missing or isn't raw.
    #[error("`path` is missing or isn't raw")]
    Path = 2,
    /// `chunks` is neither nil nor an array of chunks.
    #[error("`chunks` is neither nil nor an array of chunks")]
    Chunks = 3,
    /// `chunks_healthy` is there: the item was repaired and lacks content.
    #[error("`chunks_healthy` is there")]
    Healed = 4,
    /// The stream ends inside an item.
    #[error("the stream ends inside an item")]
    Rest = 5,
    /// Memory ran out.
    #[error("out of memory")]
    Memory = 6,
}

impl ItemFault {
    ghost use Rattle.ferry_item.specs.Fault.{number_of_fault};

    /// The number of the fault in printed lines, from 1 to 6.
    pub fn number(&self) -> u8
        ensures number { result ≡ number_of_fault self.now }
    {
        *self as u8
    }
}

impl From<AllocError> for ItemFault {
    ghost from_gives = { λ _ fault. fault ≡ Memory };

    fn from(_error: AllocError) -> ItemFault {
        ItemFault::Memory
    }
}

impl<T: Drop> From<AllocFailed<T>> for ItemFault {
    ghost from_gives = { λ _ fault. fault ≡ Memory };

    fn from(_error: AllocFailed<T>) -> ItemFault {
        ItemFault::Memory
    }
}
