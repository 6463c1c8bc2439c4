//! The number behind the last counter block that the blobs of a repository's segments take, by heads alone.
//!
//! A layer above may rely on each counter block of each blob that reads in a segment, committed or not, to be
//! below that number, and on the number to be the least one above all blocks that heads show. Source:
//! BorgBackup 1.2, Internals, "Data structures and file formats", Segments and Encryption.
#![tactic(auto)]

mod end;
mod entry;
mod laws;
mod part;

pub use end::blocks_end;
pub use laws::{end_laws, read_laws};
