//! Why a repository or a part of it can't be read.
ghost use Rattle.std.specs.Prelude.{◌≡◌};
ghost use Rattle.ferry_repo.specs.Fault.{archive_fault, item_fault};

use ferry_base::Id;
use ferry_blob::BlobFault;
use ferry_config::ConfigFault;
use ferry_disk::StoreFault;
use ferry_item::ItemFault;
use ferry_keyblob::KeyFault;
use ferry_keyfile::KeyFileFault;
use ferry_log::LogFault;
use ferry_manifest::MetaFault;
use std::alloc::AllocError;
use thiserror::Error;

/// Why a repository doesn't open, or a chunk of it can't be read. The faults of parts are never those of memory, which is
/// `Memory` alone. No message shows a key.
#[derive(Clone, Copy, Debug, PartialEq, Eq, Error)]
pub enum RepoFault {
    /// No segment is committed.
    #[error("no segment is committed")]
    NoCommit,
    /// The first segment that doesn't read, and the offset in bytes of its first entry that doesn't, 0 for a wrong magic. After
    /// opening: a blob isn't at its place any more.
    #[error("segment {segment} is damaged at {at}")]
    Damaged { segment: u64, at: u64 },
    /// The file `config` doesn't read.
    #[error("the file config doesn't read: {0}")]
    Config(ConfigFault),
    /// The key text, of `config` or of the key file, doesn't read, or doesn't open.
    #[error("the repository key doesn't open: {0}")]
    Key(KeyFault),
    /// The id isn't live.
    #[error("an object isn't there")]
    Missing(Id),
    /// The blob of the id doesn't open.
    #[error("an object doesn't open: {1}")]
    Blob(Id, BlobFault),
    /// The object under the zero id is no manifest.
    #[error("the manifest doesn't read: {0}")]
    Manifest(MetaFault),
    /// The chunk of this id is no archive's record.
    #[error("an archive's record doesn't read: {1}")]
    Archive(Id, MetaFault),
    /// The items of the archive with the record of this id don't read.
    #[error("an item doesn't read: {1}")]
    Item(Id, ItemFault),
    /// The content of the id has another length than an item states.
    #[error("a content has another length than is stated")]
    Size(Id),
    /// The key file doesn't read.
    #[error("the key file doesn't read: {0}")]
    KeyFile(KeyFileFault),
    /// The key file is that of another repository: the id that it names, and that of `config`.
    #[error("the key file is that of another repository")]
    Other { file: Id, config: Id },
    /// `config` has no key, and there is no key file.
    #[error("there is no key")]
    NoKey,
    /// The device failed.
    #[error("the device failed")]
    Device,
    /// Memory was refused.
    #[error("out of memory")]
    Memory,
}

impl From<LogFault> for RepoFault {
    ghost use Rattle.ferry_repo.specs.Fault.{log_fault};

    ghost from_gives = { λ fault gives. gives ≡ log_fault fault };

    fn from(fault: LogFault) -> RepoFault {
        match fault {
            LogFault::NoCommit => RepoFault::NoCommit,
            LogFault::Damaged { segment, at } => RepoFault::Damaged { segment, at },
            LogFault::Device => RepoFault::Device,
            LogFault::Memory => RepoFault::Memory,
        }
    }
}

impl From<AllocError> for RepoFault {
    ghost use Rattle.ferry_repo.specs.declared.fault.RepoFault.TheVariants.{Memory};

    ghost from_gives = { λ _ fault. fault ≡ Memory };

    fn from(_error: AllocError) -> RepoFault {
        RepoFault::Memory
    }
}

impl From<StoreFault> for RepoFault {
    ghost use Rattle.ferry_repo.specs.Fault.{store_fault};

    ghost from_gives = { λ fault gives. gives ≡ store_fault fault };

    fn from(fault: StoreFault) -> RepoFault {
        match fault {
            StoreFault::Failed => RepoFault::Device,
            StoreFault::Memory => RepoFault::Memory,
        }
    }
}

impl From<ConfigFault> for RepoFault {
    ghost use Rattle.ferry_repo.specs.Fault.{config_fault};

    ghost from_gives = { λ fault gives. gives ≡ config_fault fault };

    fn from(fault: ConfigFault) -> RepoFault {
        match fault {
            ConfigFault::Memory => RepoFault::Memory,
            fault => RepoFault::Config(fault),
        }
    }
}

impl From<KeyFault> for RepoFault {
    ghost use Rattle.ferry_repo.specs.Fault.{key_fault};

    ghost from_gives = { λ fault gives. gives ≡ key_fault fault };

    fn from(fault: KeyFault) -> RepoFault {
        match fault {
            KeyFault::Memory => RepoFault::Memory,
            fault => RepoFault::Key(fault),
        }
    }
}

impl From<KeyFileFault> for RepoFault {
    ghost use Rattle.ferry_repo.specs.Fault.{key_file_fault};

    ghost from_gives = { λ fault gives. gives ≡ key_file_fault fault };

    fn from(fault: KeyFileFault) -> RepoFault {
        match fault {
            KeyFileFault::Memory => RepoFault::Memory,
            fault => RepoFault::KeyFile(fault),
        }
    }
}

impl From<MetaFault> for RepoFault {
    ghost use Rattle.ferry_repo.specs.Fault.{manifest_fault};

    ghost from_gives = { λ fault gives. gives ≡ manifest_fault fault };

    fn from(fault: MetaFault) -> RepoFault {
        match fault {
            MetaFault::Memory => RepoFault::Memory,
            fault => RepoFault::Manifest(fault),
        }
    }
}

/// The fault where the record of this id doesn't read.
pub(crate) fn of_archive(id: Id, fault: MetaFault) -> RepoFault
    ensures { result ≡ archive_fault id fault }
{
    match fault {
        MetaFault::Memory => RepoFault::Memory,
        fault => RepoFault::Archive(id, fault),
    }
}

/// The fault where the items of the archive with the record of this id don't read.
pub(crate) fn of_item(id: Id, fault: ItemFault) -> RepoFault
    ensures { result ≡ item_fault id fault }
{
    match fault {
        ItemFault::Memory => RepoFault::Memory,
        fault => RepoFault::Item(id, fault),
    }
}
