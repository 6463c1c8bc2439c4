//! The command `plan`, from the devices to a status.
//!
//! The layer above may rely on this: where a line was written, both repositories open, and the line has the numbers of a plan of the chosen names; else
//! nothing was written, and the status says what of the files of both repositories is in the way. The target is only read.
#![tactic(auto)]

mod command;
mod laws;

pub use command::plan;
pub use laws::plan_laws;
