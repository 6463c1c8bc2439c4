//! The command that deletes an archive of a repository, from the devices of a run to its status.
//!
//! ferry_top may rely on this: however the command ends, each other archive is as it was; whatever a stop leaves at any moment opens with all archives or
//! without this one; and where it isn't done, the status says why.
#![tactic(auto)]

mod command;

pub use command::delete;
