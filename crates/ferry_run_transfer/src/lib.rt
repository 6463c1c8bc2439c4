//! The command `transfer`, from the devices to a status.
//!
//! The layer above may rely on this, at whatever status the command ends: what each stop of the machine leaves of the target opens, with each archive that was
//! there and those of a front of the chosen names; where it is done, with all of them; and a refusal says what of the files of both repositories is in its
//! way. The laws say that a transfer finds again what it asks in what an earlier one left.
#![tactic(auto)]

mod command;
mod laws;
mod names;

pub use command::transfer;
pub use laws::transfer_laws;
pub use names::{chosen_names, find_names};
