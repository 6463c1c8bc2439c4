//! Cutting contents into pieces of one size.
//!
//! The layer above may rely on the pieces being those of the whole content, whichever parts it is fed in, and on each piece
//! standing where it can be sealed in place. Source: BorgBackup 1.2, Internals, "Data structures and file formats", Chunks.
#![tactic(auto)]

mod cutter;
mod laws;

pub use cutter::{Cutter, LEAST_BLOCK, MOST_BLOCK};
pub use laws::cut_laws;
