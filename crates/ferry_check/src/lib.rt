//! The check of a whole repository.
//!
//! The layers above may rely on this: `check` reports the first fault exactly where there is one, and otherwise every live chunk opens
//! and every archive is whole. Chunks are looked at in byte order of their ids, and then archives in that of their names. The formats are
//! those of BorgBackup 1.2 (Internals, "Data structures and file formats").
#![tactic(auto)]

mod archive;
mod chunks;
mod items;
mod laws;
mod marks;
mod report;

pub use laws::check_laws;
pub use report::{Report, check};
