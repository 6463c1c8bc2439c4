//! What a repository shows: its archives and the items of one, a line for each, and the content of a file.
//!
//! The layers above may rely on this: `list` writes exactly the lines of the manifest's archives in byte order of their names, `list_items`
//! those of an archive's items in the order of its stream, and `extract` the content of a file; each of the last two is done exactly
//! where the archive reads to its end, and what was written before a refusal is all that reads before it, or a front of that where a device
//! failed or memory was refused.
#![tactic(auto)]

mod archives;
mod beginning;
mod extraction;
mod fault;
mod items;
mod laws;
mod line;
mod output;

pub use archives::list;
pub use extraction::extract;
pub use fault::ViewFault;
pub use items::list_items;
pub use laws::{file_laws, item_laws};
pub use output::{send, send_full};
