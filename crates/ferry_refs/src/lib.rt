//! References to the chunks of a repository, and the deletion of an archive with the chunks that no other uses.
//!
//! The layers above may rely on this: `Counts` says of each id how often the archives of the manifest use it, and `delete` takes away one archive and exactly
//! the chunks whose count falls to none, in one commit. The formats are those of
//! BorgBackup 1.2 (Internals, "Data structures and file formats", Archives).
#![tactic(auto)]

mod archive;
mod counts;
mod deleting;
mod dropping;
mod going;
mod laws;
mod renewing;
mod tagging;
mod untagged;

pub use counts::Counts;
pub use deleting::delete;
pub use laws::{delete_laws, refs_laws, tag_laws};
pub use tagging::tag_archives;
