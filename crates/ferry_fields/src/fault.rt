//! Why bytes aren't read as a map.

ghost use Rattle.std.specs.Prelude.{◌≡◌, ◌≢◌};
ghost use Rattle.ferry_msgpack.specs.declared.fault.PackFault.{PackFault};
ghost use Rattle.ferry_fields.specs.declared.fault.MapFault.TheVariants.{Pack, Memory};

use ferry_msgpack::PackFault;
use std::alloc::{AllocError, AllocFailed};
use thiserror::Error;

/// Why bytes aren't read as a map.
#[derive(Clone, Copy, Debug, PartialEq, Eq, Error)]
pub enum MapFault {
    /// No msgpack map, or bytes behind it.
    #[error("no msgpack map, or bytes behind it")]
    Pack,
    /// Memory ran out.
    #[error("out of memory")]
    Memory,
}

impl From<AllocError> for MapFault {
    ghost from_gives = { λ _ fault. fault ≡ Memory };

    fn from(_error: AllocError) -> MapFault {
        MapFault::Memory
    }
}

impl<T: Drop> From<AllocFailed<T>> for MapFault {
    ghost from_gives = { λ _ fault. fault ≡ Memory };

    fn from(_error: AllocFailed<T>) -> MapFault {
        MapFault::Memory
    }
}

impl From<PackFault> for MapFault {
    ghost from_gives = { λ found fault. (found ≡ PackFault.Memory → fault ≡ Memory) × (found ≢ PackFault.Memory → fault ≡ Pack) };

    fn from(found: PackFault) -> MapFault {
        match found {
            PackFault::Memory => MapFault::Memory,
            _ => MapFault::Pack,
        }
    }
}
