//! A repository opened for reading: its log, its settings, its keys, its manifest, and its chunks.
//!
//! The layers above may rely on this: `Repo::open` succeeds exactly where the files open under the secret, and otherwise
//! names the first thing that is wrong, in the order log, `config`, key file, key, manifest. `Repo::chunk` answers the content that
//! opens under an id, or why there is none. The formats are those of BorgBackup 1.2 (Internals, "Data structures and file
//! formats").
#![tactic(auto)]

mod batch;
mod cache;
mod fault;
mod laws;
mod lengths;
mod notes;
mod object;
mod opening;
mod reason;
mod repo;
mod secret;
mod shared;
mod walk;

pub use fault::RepoFault;
pub use laws::{chunk_laws, kept_laws, learn_laws, repo_laws, walk_laws, whole_laws};
pub use opening::{Unlocked, unlock};
pub use reason::write_reason;
pub use repo::Repo;
pub use secret::Secret;
pub use shared::SharedPieces;
pub use walk::Walk;
