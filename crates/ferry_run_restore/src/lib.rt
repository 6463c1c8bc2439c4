//! The command `restore`, from its words and the devices to a status.
//!
//! The layer above may rely on this: at `Done` the tree is that of all items of the archive, and the line of the counts was written; else the status says what
//! is in the way, and the tree is as it was, or that of the items in front with a part of the next one at most.
#![tactic(auto)]

mod command;
mod laws;
mod lines;
mod restored;

pub use command::restore;
pub use laws::restoring_laws;
pub use restored::Restored;
