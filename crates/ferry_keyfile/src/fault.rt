ghost use Rattle.std.specs.Prelude.{◌≡◌};
ghost use Rattle.ferry_keyfile.specs.declared.fault.KeyFileFault.TheVariants.{Memory};

use std::alloc::AllocFailed;
use thiserror::Error;

/// Why a text is no key file, in the order in which faults are looked for.
#[derive(Clone, Copy, Debug, PartialEq, Eq, Error)]
pub enum KeyFileFault {
    /// The first line isn't `BORG_KEY `, 64 hex digits and its end, LF or CR LF.
    #[error("the first line isn't that of a key file")]
    Header = 1,
    /// What stands behind the first line is no base64 text of a byte or more.
    #[error("no base64 text behind the first line")]
    Body = 2,
    /// Memory ran out.
    #[error("out of memory")]
    Memory = 3,
}

impl KeyFileFault {
    ghost use Rattle.ferry_keyfile.specs.Fault.{number_of_fault};

    /// The number of the fault in printed lines, from 1 to 3.
    pub fn number(&self) -> u8
        ensures number { result ≡ number_of_fault self.now }
    {
        *self as u8
    }
}

impl<T: Drop> From<AllocFailed<T>> for KeyFileFault {
    ghost from_gives = { λ _ fault. fault ≡ Memory };

    fn from(_error: AllocFailed<T>) -> KeyFileFault {
        KeyFileFault::Memory
    }
}
