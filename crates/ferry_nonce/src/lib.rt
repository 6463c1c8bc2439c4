//! The counter of a repository: reservations of counter blocks in the file `nonce`.
//!
//! A layer above may rely on a drawn number to be answered once, and on the file to be above each number that was answered, before the blocks of
//! that number are used: a stop of the machine between the two loses numbers and repeats none. Source: BorgBackup 1.2, Internals, "Data
//! structures and file formats", Encryption.
#![tactic(auto)]

mod counter;
mod fault;
mod laws;
mod text;

pub use counter::Counter;
pub use fault::NonceFault;
pub use laws::{rest_laws, text_laws};
