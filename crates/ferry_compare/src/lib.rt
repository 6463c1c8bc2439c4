//! The comparison of two archives of one name, in two repositories.
//!
//! The layers above may rely on this: a comparison answers that both archives are equal exactly where both are whole and say the same: the
//! same time in the manifests, the same fields in the records, and the same items with the same contents, whatever chunks these are cut
//! into. A fault of the source is told before a difference. The formats are those of BorgBackup 1.2 (Internals, "Data structures and file
//! formats").
#![tactic(auto)]

mod ahead;
mod beginning;
mod comparison;
mod contents;
mod cursor;
mod fault;
mod items;
mod laws;
mod matches;
mod same;

pub use comparison::{Compared, Comparison};
pub use fault::CompareFault;
pub use laws::kept_laws;
pub use matches::Matches;
