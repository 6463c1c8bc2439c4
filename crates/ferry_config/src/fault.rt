ghost use Rattle.std.specs.Prelude.{◌≡◌};
ghost use Rattle.ferry_config.specs.declared.fault.ConfigFault.TheVariants.{Memory};

use std::alloc::{AllocError, AllocFailed};
use thiserror::Error;

/// Why a text is no config, in the order of the numbers. They are looked for in the order Section,
/// Repeat, Version, Id, Key, Number.
#[derive(Clone, Copy, Debug, PartialEq, Eq, Error)]
pub enum ConfigFault {
    /// There is no section `repository`, or more than one, or one of its lines has no form.
    #[error("no section `repository`, more than one, or a line of it that has no form")]
    Section = 1,
    /// `version` is absent or isn't 1.
    #[error("`version` isn't 1")]
    Version = 2,
    /// `id` is absent or isn't 64 hex digits.
    #[error("`id` isn't 64 hex digits")]
    Id = 3,
    /// `key` is there and is no base64 text.
    #[error("`key` is no base64 text")]
    Key = 4,
    /// A number isn't decimal, or isn't from 1 to 4294967295.
    #[error("a number isn't from 1 to 4294967295")]
    Number = 5,
    /// A known name stands twice.
    #[error("a known name stands twice")]
    Repeat = 6,
    /// Memory ran out.
    #[error("out of memory")]
    Memory = 7,
}

impl ConfigFault {
    ghost use Rattle.ferry_config.specs.Fault.{number_of_fault};

    /// The number of the fault in printed lines, from 1 to 7.
    pub fn number(&self) -> u8
        ensures number { result ≡ number_of_fault self.now }
    {
        *self as u8
    }
}

impl From<AllocError> for ConfigFault {
    ghost from_gives = { λ _ fault. fault ≡ Memory };

    fn from(_error: AllocError) -> ConfigFault {
        ConfigFault::Memory
    }
}

impl<T: Drop> From<AllocFailed<T>> for ConfigFault {
    ghost from_gives = { λ _ fault. fault ≡ Memory };

    fn from(_error: AllocFailed<T>) -> ConfigFault {
        ConfigFault::Memory
    }
}
