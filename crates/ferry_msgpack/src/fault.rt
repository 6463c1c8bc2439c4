//! Why no value could be read.

ghost use Rattle.std.specs.Prelude.{◌≡◌};
ghost use Rattle.ferry_msgpack.specs.declared.fault.PackFault.TheVariants.{Memory};

use std::alloc::{AllocError, AllocFailed};
use thiserror::Error;

/// The first broken rule, from the left. The numbers are those of printed lines.
#[derive(Clone, Copy, Debug, PartialEq, Eq, Error)]
pub enum PackFault {
    /// The bytes end before the value does.
    #[error("the bytes end inside a value")]
    Short = 1,
    /// A head that msgpack doesn't use, or one of a float or an extension.
    #[error("a head byte that isn't read")]
    Kind = 2,
    /// What stands in a map key's place has a head that isn't raw.
    #[error("a map key that isn't raw")]
    Key = 3,
    /// A key was read whole that stood in this map before.
    #[error("a map key that stands twice")]
    Repeat = 4,
    /// The head of an array or map at depth 65, the outermost one having depth 1.
    #[error("arrays and maps inside each other beyond depth 64")]
    Deep = 5,
    /// Memory ran out.
    #[error("out of memory")]
    Memory = 6,
}

impl From<AllocError> for PackFault {
    ghost from_gives = { λ _ e. e ≡ Memory };

    fn from(_e: AllocError) -> PackFault {
        PackFault::Memory
    }
}

impl<T: Drop> From<AllocFailed<T>> for PackFault {
    ghost from_gives = { λ _ e. e ≡ Memory };

    fn from(_e: AllocFailed<T>) -> PackFault {
        PackFault::Memory
    }
}
