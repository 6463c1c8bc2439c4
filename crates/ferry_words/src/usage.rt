ghost use Rattle.std.specs.Prelude.{◌≡◌};
ghost use Rattle.ferry_words.specs.declared.usage.Usage.TheVariants.{Memory};

use std::alloc::{AllocError, AllocFailed};
use thiserror::Error;

/// Why words are read as no command.
#[derive(Clone, Copy, Debug, PartialEq, Eq, Error)]
pub enum Usage {
    /// The number, from 1, of the first word at which the words can't go on to a command; one more than there are where words
    /// are missing.
    #[error("word {0} is wrong or missing")]
    Word(u64),
    /// Memory ran out.
    #[error("out of memory")]
    Memory,
}

impl Usage {
    ghost use Rattle.ferry_words.specs.Usage.{number_of_usage};

    /// The number of the variant in printed lines, 1 or 2.
    pub fn number(&self) -> u8
        ensures number { result ≡ number_of_usage self.now }
    {
        match self {
            Usage::Word(_) => 1,
            Usage::Memory => 2,
        }
    }
}

impl From<AllocError> for Usage {
    ghost from_gives = { λ _ usage. usage ≡ Memory };

    fn from(_error: AllocError) -> Usage {
        Usage::Memory
    }
}

impl<T: Drop> From<AllocFailed<T>> for Usage {
    ghost from_gives = { λ _ usage. usage ≡ Memory };

    fn from(_error: AllocFailed<T>) -> Usage {
        Usage::Memory
    }
}
