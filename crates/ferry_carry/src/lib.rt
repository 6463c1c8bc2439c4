//! Archives that are copied from one repository into another, with its own key and its own block size.
//!
//! A `Flight` copies one archive, an item a turn, or compares it where the target has its name; `carry` does so for each chosen name in
//! order, and tells what it did. What a stop of the machine leaves at any moment opens, with each archive that was told. The formats are
//! those of BorgBackup 1.2 (Internals, "Data structures and file formats").
#![tactic(auto)]

mod chosen;
mod copy;
mod flight;
mod laws;
mod lines;
mod naming;
mod options;
mod parts;
mod time;

pub use chosen::{carry, missing_name};
pub use ferry_piece::CarryFault;
pub use flight::{Flight, Turn};
pub use laws::flight_laws;
pub use naming::{copied_archive, put_record};
pub use options::{Carried, Options};
