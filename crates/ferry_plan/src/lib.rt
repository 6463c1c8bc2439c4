//! What a transfer would put, and nothing written: how many pieces of contents and of item streams, and how many bytes the former have.
//!
//! The layers above may rely on this: where a plan is made, each chosen archive that the target has is whole in both, and says the same; each
//! other one is whole in the source; and the numbers are those of the pieces that the target lacks, each counted once. The formats are those of
//! BorgBackup 1.2 (Internals, "Data structures and file formats").
#![tactic(auto)]

mod archive;
mod contents;
mod fault;
mod laws;
mod parts;
mod pieces;
mod planning;
mod present;
mod tally;

pub use fault::PlanFault;
pub use laws::{answer_laws, plan_laws};
pub use planning::{Planned, plan};
