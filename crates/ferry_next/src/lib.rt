//! The next manifest of a repository: a copy of its manifest, one more archive in its place or one less, more names of items.
//!
//! The layers above may rely on this: what a call gives is the definition of specs/Next.antt, a manifest that can be packed stays
//! one, and a call that is refused for want of memory leaves the manifest as it was. The format is that of BorgBackup 1.2 (Internals,
//! "Data structures and file formats", The manifest).
#![tactic(auto)]

mod archives;
mod copy;
mod item_keys;
mod laws;
mod next;

pub use archives::{add_archive, drop_archive, has_archive};
pub use copy::copy_manifest;
pub use item_keys::add_item_keys;
pub use laws::next_laws;
pub use next::{name_archive, next_manifest, set_timestamp};
