//! How a restoring ended.
ghost use Rattle.std.specs.Prelude.{◌≡◌, false};
ghost use Rattle.ferry_run_restore.specs.Restored.{output_failed, place_number, restored_number, source_status};

use ferry_base::Bytes;
use ferry_repo::RepoFault;
use ferry_tree::PlaceFault;

/// How a restoring ended. Each but `Done` and `OutputDevice` has a fault line, which goes to the output.
#[derive(Drop)]
pub enum Restored {
    /// The tree of the archive is made, and the line of its counts is out.
    Done,
    /// The words are none of a restoring. The number, from 1, is that of the first wrong word, or one more than there are words.
    Usage(u64),
    /// Memory was refused.
    Memory,
    /// The source's device failed.
    SourceDevice,
    /// The output failed; the tree of the archive is made.
    OutputDevice,
    /// The source's files are refused. Neither a device's fault nor want of memory.
    Source(RepoFault),
    /// The item of this path has no place.
    Place(Bytes, PlaceFault),
    /// No archive has this name.
    NotFound(Bytes),
    /// The tree failed.
    TreeDevice,
    /// The tree has a node already.
    NotEmpty,
}

impl Restored {
    /// The number that the program ends with.
    pub fn number(&self) -> u8
        ensures { result ≡ restored_number self.now }
    {
        match self {
            Restored::Done => 0,
            Restored::Usage(_) => 2,
            Restored::Memory => 3,
            Restored::SourceDevice => 4,
            Restored::OutputDevice => 7,
            Restored::Source(_) => 8,
            Restored::Place(_, _) => 8,
            Restored::NotFound(_) => 11,
            Restored::TreeDevice => 13,
            Restored::NotEmpty => 14,
        }
    }
}

/// The status of a source that doesn't read.
pub(crate) fn of_source(fault: RepoFault) -> Restored
    ensures status { result ≡ source_status fault }
    ensures quiet { output_failed result ≡ false }
{
    match fault {
        RepoFault::Device => Restored::SourceDevice,
        RepoFault::Memory => Restored::Memory,
        fault => Restored::Source(fault),
    }
}

/// The number of a place fault in its fault line.
pub(crate) fn place_number(fault: PlaceFault) -> u8
    ensures { result ≡ place_number fault }
{
    match fault {
        PlaceFault::Path => 1,
        PlaceFault::Mode => 2,
        PlaceFault::Source => 3,
        PlaceFault::Parent => 4,
    }
}
