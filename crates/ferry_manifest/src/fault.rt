//! Why a manifest or a record isn't read or written.

ghost use Rattle.std.specs.Prelude.{◌≡◌};
ghost use Rattle.ferry_fields.specs.declared.fault.MapFault.{MapFault};
ghost use Rattle.ferry_manifest.specs.declared.fault.MetaFault.TheVariants.{Pack, Memory};

use ferry_fields::MapFault;
use std::alloc::{AllocError, AllocFailed};
use thiserror::Error;

/// Why a manifest isn't read or written, in the order in which faults are looked for. No message
/// shows a key.
#[derive(Clone, Copy, Debug, PartialEq, Eq, Error)]
pub enum MetaFault {
    /// No msgpack map, or bytes behind it.
    #[error("no msgpack map, or bytes behind it")]
    Pack = 1,
    /// A field is missing, has another kind or length, or the version isn't 1.
    #[error("a field is missing, has another kind or length, or the version isn't 1")]
    Field = 2,
    /// There is no authentication tag.
    #[error("there is no authentication tag")]
    TagMissing = 3,
    /// The authentication tag is another one.
    #[error("the authentication tag is another one")]
    Tag = 4,
    /// The packed bytes are more than 20971436.
    #[error("the packed bytes are more than 20971436")]
    TooLarge = 5,
    /// Memory ran out.
    #[error("out of memory")]
    Memory = 6,
}

impl MetaFault {
    ghost use Rattle.ferry_manifest.specs.Fault.{number_of_fault};

    /// The number of the fault in printed lines, from 1 to 6.
    pub fn number(&self) -> u8
        ensures number { result ≡ number_of_fault self.now }
    {
        *self as u8
    }
}

impl From<AllocError> for MetaFault {
    ghost from_gives = { λ _ fault. fault ≡ Memory };

    fn from(_error: AllocError) -> MetaFault {
        MetaFault::Memory
    }
}

impl<T: Drop> From<AllocFailed<T>> for MetaFault {
    ghost from_gives = { λ _ fault. fault ≡ Memory };

    fn from(_error: AllocFailed<T>) -> MetaFault {
        MetaFault::Memory
    }
}

impl From<MapFault> for MetaFault {
    ghost from_gives = { λ found fault. (found ≡ MapFault.Pack → fault ≡ Pack) × (found ≡ MapFault.Memory → fault ≡ Memory) };

    fn from(found: MapFault) -> MetaFault {
        match found {
            MapFault::Pack => MetaFault::Pack,
            MapFault::Memory => MetaFault::Memory,
        }
    }
}
