//! The items of an archive: read from any pieces of its stream, and written.
//!
//! The layers above may rely on this: `ItemReader` answers what `front_item` says of the bytes that
//! it was fed and hasn't answered, so the items come in order however the stream is cut; what
//! `write_item` appends is read as the same item. The format is that of BorgBackup 1.2 (Internals,
//! "Data structures and file formats", Archives).
#![tactic(auto)]

mod chunks;
mod fault;
mod front;
mod item;
mod laws;
mod opening;
mod progress;
mod reader;
mod writing;

pub use fault::ItemFault;
pub use item::{ChunkRef, ChunkRefs, Item};
pub use laws::item_laws;
pub use reader::ItemReader;
pub use writing::write_item;
