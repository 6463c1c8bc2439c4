//! Where the files of a repository lie in its folder, and what a device over a folder counts: all of it that asks no system.
//!
//! The devices of `ferry_real` stand on it. A caller may rely on names, on which of two files of one number counts, on reads and writes
//! that go on where the system moves a part, and on counts of faults.
//! Source: BorgBackup 1.2, Internals, "Data structures and file formats", Repository.
#![tactic(auto)]

mod count;
mod listing;
mod names;
mod place;
mod read;
mod write;

pub use count::{count_entropy, count_sink, count_store, sink_fault, store_fault};
pub use listing::{Listing, Places, note, numbers};
pub use names::{Location, number_of, own_folder};
pub use place::{Place, file_name, folder_of_path, parent_of_path};
pub use read::{fill, read_file_at};
pub use write::write_all;
