//! What ties a disk and the entries on it: what files show, what a stop leaves of them by no chance, the blobs that were ever put, and the
//! counter blocks that they took.
//!
//! There is nothing to run here. The layers above may rely on the laws, each the contract of a function with nothing to do: what a stop leaves
//! of a writer's ground, and that what is kept at a moment is kept by the world that follows a stop at it.
#![tactic(auto)]

mod laws;

pub use laws::{blob_laws, counter_laws, entry_laws, ground_laws, kept_laws};
