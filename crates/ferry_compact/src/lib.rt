//! Compaction of a repository: what segments hold that is in use is written again behind the last commit, and the segments are removed.
//!
//! The layers above may rely on this: wherever a stop comes, what was live is live with the same blob, and nothing else is; and the segments are removed
//! only behind a commit, one after another. The formats are those of BorgBackup 1.2 (Internals, Repository, "Compaction").
#![tactic(auto)]

mod choice;
mod compaction;
mod fault;
mod moving;
mod reading;
mod removal;
mod stays;

pub use compaction::compact;
pub use fault::CompactFault;
