//! The command that tags the archives of a repository, from the devices of a run to its status.
//!
//! ferry_top may rely on this: however the command ends, each archive is as it was; whatever a stop leaves at any moment opens with all archives, with the
//! tags that they had or with all; and where it isn't done, the status says why.
#![tactic(auto)]

mod command;

pub use command::tag_archives;
