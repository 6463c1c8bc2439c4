ghost use Rattle.std.specs.Prelude.{◌≡◌, ◌≢◌};
ghost use Rattle.ferry_fields.specs.declared.fault.MapFault.{MapFault};
ghost use Rattle.ferry_keyblob.specs.declared.fault.KeyFault.TheVariants.{Memory, Pack};

use ferry_fields::MapFault;
use std::alloc::{AllocError, AllocFailed};
use thiserror::Error;

/// Why a key text isn't read or doesn't open, in the order in which faults are looked for: the
/// envelope first, and then `Pack` and `Field` of the key inside. No message shows a passphrase or a
/// key.
#[derive(Clone, Copy, Debug, PartialEq, Eq, Error)]
pub enum KeyFault {
    /// No msgpack map, or bytes behind it.
    #[error("no msgpack map, or bytes behind it")]
    Pack = 1,
    /// A name is missing, has another kind or length, or the version isn't 1.
    #[error("a field is missing, has another kind or length, or the version isn't 1")]
    Field = 2,
    /// The algorithm isn't `sha256`.
    #[error("the algorithm isn't sha256")]
    Algorithm = 3,
    /// The iterations aren't from 1 to 10000000.
    #[error("the iterations aren't from 1 to 10000000")]
    Iterations = 4,
    /// The hash of what the passphrase decrypts is another one.
    #[error("the passphrase doesn't open the key")]
    Passphrase = 5,
    /// Memory ran out.
    #[error("out of memory")]
    Memory = 6,
}

impl KeyFault {
    ghost use Rattle.ferry_keyblob.specs.Fault.{number_of_fault};

    /// The number of the fault in printed lines, from 1 to 6.
    pub fn number(&self) -> u8
        ensures number { result ≡ number_of_fault self.now }
    {
        *self as u8
    }
}

impl From<AllocError> for KeyFault {
    ghost from_gives = { λ _ fault. fault ≡ Memory };

    fn from(_error: AllocError) -> KeyFault {
        KeyFault::Memory
    }
}

impl<T: Drop> From<AllocFailed<T>> for KeyFault {
    ghost from_gives = { λ _ fault. fault ≡ Memory };

    fn from(_error: AllocFailed<T>) -> KeyFault {
        KeyFault::Memory
    }
}

impl From<MapFault> for KeyFault {
    ghost from_gives = { λ found fault. (found ≡ MapFault.Memory → fault ≡ Memory) × (found ≢ MapFault.Memory → fault ≡ Pack) };

    fn from(found: MapFault) -> KeyFault {
        match found {
            MapFault::Pack => KeyFault::Pack,
            MapFault::Memory => KeyFault::Memory,
        }
    }
}
