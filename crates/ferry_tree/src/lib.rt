//! The files, folders and links of an archive, made in an empty tree.
//!
//! The layers above may rely on this: `restore` makes the tree of all items of an archive, each in its place and with its content, or says why it ended
//! before, and the tree is then that of the items in front, with a part of the next one at most. A `Tree` is a device that makes one node at a time, each at
//! a new path whose parent is a folder, so that nothing is made behind a link; a call that failed is counted. The items are those of BorgBackup 1.2
//! (Internals, "Data structures and file formats", Archives).
#![tactic(auto)]

mod archive;
mod device;
mod fault;
mod filling;
mod known;
mod laws;
mod making;
mod memory;
mod nodes;
mod placing;
mod planning;
mod restoring;
mod shape;

pub use archive::restore;
pub use device::{Tree, TreeFault};
pub use fault::RestoreFault;
pub use laws::restore_laws;
pub use memory::MemoryTree;
pub use nodes::Node;
pub use placing::Counts;
pub use planning::{Origin, PlaceFault, Shape};
