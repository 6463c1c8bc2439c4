//! The manifest of a repository and the records of its archives, read with their authentication tags
//! and written with them.
//!
//! The layers above may rely on this: under the keys of the repository `read_manifest` answers what
//! `manifest_of` says of the bytes, and `read_archive` what `archive_of` says; what `write_manifest` and
//! `write_archive` give is read as what was written, a record as a tagged one. The format is that of
//! BorgBackup 1.2 (Internals, "Data structures and file formats", The manifest, and Archives).
#![tactic(auto)]

mod fault;
mod manifest;
mod packing;
mod place;
mod record;
mod stated;
mod tag;
mod values;

pub use fault::MetaFault;
pub use manifest::laws::manifest_laws;
pub use manifest::reading::read_manifest;
pub use manifest::writing::write_manifest;
pub use manifest::{ArchiveRef, ArchiveRefs, Manifest, Names};
pub use record::laws::archive_laws;
pub use record::reading::read_archive;
pub use record::writing::write_archive;
pub use record::{Archive, Ids};
