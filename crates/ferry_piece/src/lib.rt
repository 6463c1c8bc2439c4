//! Pieces that are added to a store: what is put of them, where they are committed, and why that fails.
//!
//! A `PieceWriter` cuts the bytes that it is given and adds each piece, with a checkpoint wherever as many are pending as may be. A layer
//! above may rely on it that at each stop the target has what it had, and the first of what was added. The format of chunks is that of
//! BorgBackup 1.2 (Internals, "Data structures and file formats").
#![tactic(auto)]

mod fault;
mod forecast;
mod foreseen;
mod piece;

pub use fault::CarryFault;
pub use piece::{PieceWriter, add, commit_pieces};
