//! The devices over the system: a repository's folder, which is read or also written, a folder in which a tree is made, standard output, and random bytes.
//!
//! Each counts its failures and tells nothing, since no contract knows a disk. A caller may rely on the traits of `ferry_disk`: numbers of
//! segments increase, a read gives at most what there is room for, and a failure is counted. What the calls do to a folder is tested. What
//! asks no system stands in `ferry_layout`.
//! Source: BorgBackup 1.2, Internals, "Data structures and file formats", Repository.
#![tactic(auto)]

mod appending;
mod archives;
mod copied;
mod depot;
mod entropy;
mod failure;
mod folder;
mod opened;
mod owner;
mod progress;
mod removing;
mod replacing;
mod scan;
mod settling;
mod shelf;
mod sink;
mod small;
mod stable;
mod system;
mod tree;
mod walk;
mod writer;

pub use copied::Copied;
pub use depot::FolderDepot;
pub use entropy::SystemEntropy;
pub use failure::{Failure, Word};
pub use folder::Presence;
pub use owner::{Ownership, ownership_of};
pub use progress::{Progress, Terminals};
pub use shelf::FolderShelf;
pub use sink::{LastLine, StdSink};
pub use small::{SmallFault, read_at_most, read_small};
pub use tree::FolderTree;
