//! What every layer speaks of: the ids of objects, the limits of a repository, and bytes that contracts see as a list.
//!
//! The layers above may rely on the numbers and on `Bytes` being its list. Source: BorgBackup 1.2, Internals, "Data structures
//! and file formats".
#![tactic(auto)]

mod bytes;
mod limits;

pub use bytes::Bytes;
pub use limits::{BLOB_LIMIT, CONTENT_LIMIT, ENTRY_LIMIT, Id, PUT_HEAD, ZERO_ID};
