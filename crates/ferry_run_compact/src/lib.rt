//! The command `compact`, from the device to a status.
//!
//! The layer above may rely on this, at whatever status the command ends: what each stop of the machine leaves of the target has the objects that were live
//! and no others, and segments are removed only behind all that was written; a refusal says what of the target's files is in its way.
#![tactic(auto)]

mod command;
mod laws;

pub use command::compact;
pub use laws::compact_laws;
