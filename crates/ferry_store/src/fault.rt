//! Why a store can't be made, opened or written.
ghost use Rattle.std.specs.Prelude.{◌≡◌};
ghost use Rattle.ferry_store.specs.Fault.{entropy_refusal, key_file_refusal, key_refusal, nonce_refusal, number_of_refusal};
ghost use Rattle.ferry_store.specs.Fault.{repo_refusal, spends, store_refusal, write_refusal};

use ferry_disk::{EntropyFault, StoreFault};
use ferry_keyblob::KeyFault;
use ferry_keyfile::KeyFileFault;
use ferry_nonce::NonceFault;
use ferry_repo::RepoFault;
use ferry_write::WriteFault;
use std::alloc::AllocError;
use thiserror::Error;

/// Why a store can't be made, opened or written, in the order of their numbers. The faults of parts are never those of memory, which is
/// `Memory` alone.
#[derive(Clone, Copy, Debug, PartialEq, Eq, Error)]
pub enum StoreRefusal {
    /// The repository doesn't open, or the key that was handed in.
    #[error("the repository doesn't open: {0}")]
    Repo(RepoFault),
    /// Entries can't be written.
    #[error("entries can't be written: {0}")]
    Write(WriteFault),
    /// Counter blocks can't be drawn.
    #[error("counter blocks can't be drawn: {0}")]
    Nonce(NonceFault),
    /// A segment is committed where a repository was to be made.
    #[error("there is a repository already")]
    Committed,
    /// The manifest is larger than the content of an object may be.
    #[error("the manifest is too large")]
    TooLarge,
    /// The source of random bytes failed.
    #[error("the source of random bytes failed")]
    Entropy,
    /// Memory was refused.
    #[error("out of memory")]
    Memory,
}

impl StoreRefusal {
    /// Its number, from 1.
    pub fn number(&self) -> u8
        ensures { result ≡ number_of_refusal self.now }
    {
        match self {
            StoreRefusal::Repo(_) => 1,
            StoreRefusal::Write(_) => 2,
            StoreRefusal::Nonce(_) => 3,
            StoreRefusal::Committed => 4,
            StoreRefusal::TooLarge => 5,
            StoreRefusal::Entropy => 6,
            StoreRefusal::Memory => 7,
        }
    }

    /// Whether a store that answers it is spent.
    pub(crate) fn spends(&self) -> bool
        ensures { result ≡ spends self.now }
    {
        match self {
            StoreRefusal::Memory | StoreRefusal::Write(_) => true,
            StoreRefusal::Nonce(fault) => *fault == NonceFault::Device,
            _ => false,
        }
    }
}

impl From<RepoFault> for StoreRefusal {
    ghost from_gives = { λ fault gives. gives ≡ repo_refusal fault };

    fn from(fault: RepoFault) -> StoreRefusal {
        match fault {
            RepoFault::Memory => StoreRefusal::Memory,
            fault => StoreRefusal::Repo(fault),
        }
    }
}

impl From<WriteFault> for StoreRefusal {
    ghost from_gives = { λ fault gives. gives ≡ write_refusal fault };

    fn from(fault: WriteFault) -> StoreRefusal {
        match fault {
            WriteFault::Memory => StoreRefusal::Memory,
            fault => StoreRefusal::Write(fault),
        }
    }
}

impl From<NonceFault> for StoreRefusal {
    ghost from_gives = { λ fault gives. gives ≡ nonce_refusal fault };

    fn from(fault: NonceFault) -> StoreRefusal {
        match fault {
            NonceFault::Memory => StoreRefusal::Memory,
            fault => StoreRefusal::Nonce(fault),
        }
    }
}

impl From<StoreFault> for StoreRefusal {
    ghost from_gives = { λ fault gives. gives ≡ store_refusal fault };

    fn from(fault: StoreFault) -> StoreRefusal {
        match fault {
            StoreFault::Failed => StoreRefusal::Write(WriteFault::Device),
            StoreFault::Memory => StoreRefusal::Memory,
        }
    }
}

impl From<KeyFault> for StoreRefusal {
    ghost from_gives = { λ fault gives. gives ≡ key_refusal fault };

    fn from(fault: KeyFault) -> StoreRefusal {
        match fault {
            KeyFault::Memory => StoreRefusal::Memory,
            fault => StoreRefusal::Repo(RepoFault::Key(fault)),
        }
    }
}

impl From<KeyFileFault> for StoreRefusal {
    ghost from_gives = { λ fault gives. gives ≡ key_file_refusal fault };

    fn from(fault: KeyFileFault) -> StoreRefusal {
        match fault {
            KeyFileFault::Memory => StoreRefusal::Memory,
            fault => StoreRefusal::Repo(RepoFault::KeyFile(fault)),
        }
    }
}

impl From<EntropyFault> for StoreRefusal {
    ghost from_gives = { λ fault gives. gives ≡ entropy_refusal fault };

    fn from(_fault: EntropyFault) -> StoreRefusal {
        StoreRefusal::Entropy
    }
}

impl From<AllocError> for StoreRefusal {
    ghost use Rattle.ferry_store.specs.declared.fault.StoreRefusal.TheVariants.{Memory};

    ghost from_gives = { λ _ refusal. refusal ≡ Memory };

    fn from(_error: AllocError) -> StoreRefusal {
        StoreRefusal::Memory
    }
}
