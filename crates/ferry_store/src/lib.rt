//! A repository that is written: made anew, or opened to be written.
//!
//! A layer above may rely on this: `Store::init` makes a repository in a place where no segment is committed, and `Store::open` opens
//! one. Whatever a stop of the machine leaves of `init` has no commit, or is the new repository; and no counter block serves two blobs.
//! The formats are those of BorgBackup 1.2 (Internals, "Data structures and file formats").
#![tactic(auto)]

mod commit;
mod content;
mod fault;
mod init;
mod key;
mod laws;
mod piece;
mod put;
mod state;
mod store;

pub use content::Added;
pub use fault::StoreRefusal;
pub use key::make_key;
pub use laws::{drop_laws, keeps_laws, live_laws, store_laws};
pub use store::Store;
