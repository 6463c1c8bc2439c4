//! Reads and writes the entries of a segment, the numbered file of a repository's log.
//!
//! A layer above may rely on the entry grammar both ways: an entry is read exactly where its bytes are an entry's one
//! spelling, and what is written is read again, whatever follows it. Source: BorgBackup 1.2, Internals, "Data structures
//! and file formats", Segments; the CRC-32 is that of IEEE 802.3.
#![tactic(auto)]

mod crc;
mod entry;
mod folding;
mod head;
mod laws;
mod remainders;
mod segment;

pub use crc::{crc32, crc32_more};
pub use entry::{Entry, EntryFault, delete_entry, put_head, read_entry};
pub use head::{Head, StatedHead, read_head};
pub use laws::{constants_spelled, crc_laws, entry_laws, segment_laws};
pub use segment::{COMMIT, COMMIT_SEGMENT, MAGIC, is_committed};
