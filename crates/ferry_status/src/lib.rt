//! How a run of borgferry ends: its statuses, their fault lines, and which fault has which status.
//!
//! What all commands share stands here: the four devices of a run as contracts see them, the table of causes, and what a command that reads
//! may have written with each status.
#![tactic(auto)]

mod fault_lines;
mod status;

pub use fault_lines::{append_reason, report};
pub use status::{
    Limit, Refusal, Secrets, Status, of_carry, of_log, of_output, of_repo, of_store, of_view,
};
