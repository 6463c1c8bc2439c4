//! Sessions that put entries into the segments of a repository and commit them.
//!
//! A layer above may rely on this: a stop of the machine leaves the entries that were committed before, at each moment until the commit, and
//! from then on those with what was put. Source: BorgBackup 1.2, Internals, Repository, and "Data structures and file formats", Segments.
#![tactic(auto)]

mod fault;
mod laws;
mod room;
mod script;
mod session;

pub use fault::WriteFault;
pub use laws::session_laws;
pub use session::Session;
