//! The committed log of a repository, and where the live objects lie in it.
//!
//! A layer above may rely on an opened log to have exactly the live keys of the committed log, each with the place of its
//! blob, and on a refusal to name the first thing that doesn't read. Source: BorgBackup 1.2, Internals, Repository.
#![tactic(auto)]

mod extents;
mod fault;
mod head;
mod laws;
mod least;
mod live;
mod log;
mod opening;
mod place;
mod window;

pub use fault::LogFault;
pub use ferry_segment::Head;
pub use head::head_at;
pub use laws::{fits_laws, head_laws, learn_laws, log_laws};
pub use log::{Log, open_log};
pub use place::{Extent, Place};
