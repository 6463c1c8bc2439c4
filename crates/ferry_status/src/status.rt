//! How a run ends.
ghost use Rattle.std.specs.Prelude.{◌≡◌};
ghost use Rattle.ferry_status.specs.Status.{status_number, log_status, repo_status, output_status, view_status, store_status, target_status, write_status};
ghost use Rattle.ferry_status.specs.Status.{carry_status, nonce_status};

use ferry_base::Bytes;
use ferry_log::LogFault;
use ferry_nonce::NonceFault;
use ferry_piece::CarryFault;
use ferry_repo::{RepoFault, Secret};
use ferry_store::StoreRefusal;
use ferry_view::ViewFault;
use ferry_write::WriteFault;

/// What opens the keys of the source and of the target. The caller owns it.
#[derive(Drop)]
pub struct Secrets {
    pub source: Secret,
    pub target: Secret,
}

/// How a run ended. A status other than `Done`, `No` and `OutputDevice` has a fault line, which goes to the output.
#[derive(Drop)]
pub enum Status {
    /// The command is done, and all its lines are out.
    Done,
    /// The repository opens and doesn't verify. The line of its first fault is out.
    No,
    /// The words are no command. The number, from 1, is that of the first wrong word, or one more than there are words.
    Usage(u64),
    /// Memory was refused.
    Memory,
    /// The source's device failed.
    SourceDevice,
    /// The target's device failed.
    TargetDevice,
    /// The source of random bytes failed.
    EntropyDevice,
    /// The output failed.
    OutputDevice,
    /// The source's files are refused.
    SourceRefused(Refusal),
    /// The target's files are refused.
    TargetRefused(Refusal),
    /// The target has another archive of this name.
    Taken(Bytes),
    /// No archive has this name, or no item of the archive that has content has this path.
    NotFound(Bytes),
    /// A limit of the target is met.
    Limit(Limit),
}

/// Why a repository's files are refused.
#[derive(Clone, Copy, Debug, PartialEq, Eq)]
pub enum Refusal {
    /// The repository doesn't open, or the key that was handed in.
    Repo(RepoFault),
    /// The file `nonce` is missing, or has no number.
    Nonce(NonceFault),
    /// A segment is committed where a repository was to be made.
    Committed,
}

/// What is used up, or too large to be written.
#[derive(Clone, Copy, Debug, PartialEq, Eq)]
pub enum Limit {
    /// No counter blocks are left.
    Nonce = 1,
    /// The manifest is larger than the content of an object may be.
    Manifest = 2,
    /// The record of an archive is larger than the content of an object may be.
    Archive = 3,
    /// The numbers of segments are used up.
    Segment = 4,
    /// The content of an item has too many pieces.
    Item = 5,
}

impl Status {
    /// The number that the program ends with.
    pub fn number(&self) -> u8
        ensures { result ≡ status_number self.now }
    {
        match self {
            Status::Done => 0,
            Status::No => 1,
            Status::Usage(_) => 2,
            Status::Memory => 3,
            Status::SourceDevice => 4,
            Status::TargetDevice => 5,
            Status::EntropyDevice => 6,
            Status::OutputDevice => 7,
            Status::SourceRefused(_) => 8,
            Status::TargetRefused(_) => 9,
            Status::Taken(_) => 10,
            Status::NotFound(_) => 11,
            Status::Limit(_) => 12,
        }
    }
}

/// The status of a source whose log doesn't open.
pub fn of_log(fault: LogFault) -> Status
    ensures { result ≡ log_status fault }
{
    match fault {
        LogFault::NoCommit => Status::SourceRefused(Refusal::Repo(RepoFault::NoCommit)),
        LogFault::Damaged { segment, at } => {
            Status::SourceRefused(Refusal::Repo(RepoFault::Damaged { segment, at }))
        }
        LogFault::Device => Status::SourceDevice,
        LogFault::Memory => Status::Memory,
    }
}

/// The status of a source that doesn't open.
pub fn of_repo(fault: RepoFault) -> Status
    ensures { result ≡ repo_status fault }
{
    match fault {
        RepoFault::Device => Status::SourceDevice,
        RepoFault::Memory => Status::Memory,
        fault => Status::SourceRefused(Refusal::Repo(fault)),
    }
}

/// The status where the output didn't take all that was read.
pub fn of_output(fault: ViewFault) -> Status
    ensures { result ≡ output_status fault }
{
    match fault {
        ViewFault::Output => Status::OutputDevice,
        _ => Status::Memory,
    }
}

/// The status where an archive isn't shown to its end. `missing` is what isn't there, where that is why.
pub fn of_view(fault: ViewFault, missing: Bytes) -> Status
    ensures { result ≡ view_status fault missing }
{
    match fault {
        ViewFault::Repo(fault) => of_repo(fault),
        ViewFault::NotFound => Status::NotFound(missing),
        ViewFault::Output => Status::OutputDevice,
        ViewFault::Memory => Status::Memory,
    }
}

/// The status where a store can't be made, opened or written.
pub fn of_store(refusal: StoreRefusal) -> Status
    ensures { result ≡ store_status refusal }
{
    match refusal {
        StoreRefusal::Repo(fault) => of_target(fault),
        StoreRefusal::Write(fault) => of_write(fault),
        StoreRefusal::Nonce(fault) => of_nonce(fault),
        StoreRefusal::Committed => Status::TargetRefused(Refusal::Committed),
        StoreRefusal::TooLarge => Status::Limit(Limit::Manifest),
        StoreRefusal::Entropy => Status::EntropyDevice,
        StoreRefusal::Memory => Status::Memory,
    }
}

/// The status of a transfer that was refused.
pub fn of_carry(fault: CarryFault) -> Status
    ensures { result ≡ carry_status fault }
{
    match fault {
        CarryFault::Source(fault) => of_repo(fault),
        CarryFault::Target(refusal) => of_store(refusal),
        CarryFault::Taken(name) => Status::Taken(name),
        CarryFault::NotFound(name) => Status::NotFound(name),
        CarryFault::Pieces => Status::Limit(Limit::Item),
        CarryFault::Memory => Status::Memory,
        CarryFault::Record => Status::Limit(Limit::Archive),
    }
}

/// The status of a target that doesn't open.
fn of_target(fault: RepoFault) -> Status
    ensures { result ≡ target_status fault }
{
    match fault {
        RepoFault::Device => Status::TargetDevice,
        RepoFault::Memory => Status::Memory,
        fault => Status::TargetRefused(Refusal::Repo(fault)),
    }
}

/// The status where no entries can be written.
fn of_write(fault: WriteFault) -> Status
    ensures { result ≡ write_status fault }
{
    match fault {
        WriteFault::Device => Status::TargetDevice,
        WriteFault::Memory => Status::Memory,
        WriteFault::Numbers => Status::Limit(Limit::Segment),
    }
}

/// The status where no counter blocks can be drawn.
fn of_nonce(fault: NonceFault) -> Status
    ensures { result ≡ nonce_status fault }
{
    match fault {
        NonceFault::Missing | NonceFault::Text => Status::TargetRefused(Refusal::Nonce(fault)),
        NonceFault::Exhausted => Status::Limit(Limit::Nonce),
        NonceFault::Device => Status::TargetDevice,
        NonceFault::Memory => Status::Memory,
    }
}
