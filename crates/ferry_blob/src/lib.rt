//! The blobs of a repository: contents opened, sealed, and named by their ids.
//!
//! The layers above may rely on this: `open_blob` answers `Ok` exactly where the blob opens by
//! `OpensTo`, and leaves the content behind byte 43; each refusal is the first broken rule by
//! `blob_fault`. What `seal` makes opens, whatever the mode, and has its type and the nonce that was
//! given. `open_blobs`, `seal_blobs` and `ids_of` do the same for up to four at once, in less time, and `open_many`, `seal_many` and
//! `ids_many` for more of unequal lengths. The format is that of BorgBackup 1.2
//! (Internals, "Data structures and file formats", Encryption). No call takes memory.
#![tactic(auto)]

mod batch_opening;
mod batch_sealing;
mod fault;
mod id;
mod laws;
mod macs;
mod many_macs;
mod many_opening;
mod many_sealing;
mod mode;
mod opening;
mod places;
mod sealing;
mod stream;

pub use batch_opening::open_blobs;
pub use batch_sealing::seal_blobs;
pub use fault::BlobFault;
pub use id::{id_of, ids_many, ids_of};
pub use laws::{blob_laws, block_laws};
pub use many_opening::open_many;
pub use many_sealing::seal_many;
pub use mode::Mode;
pub use opening::open_blob;
pub use sealing::{blocks_of, seal};
