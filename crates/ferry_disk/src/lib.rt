//! The outside of the program: traits for a repository's files, for output and for random bytes, and devices in memory that meet them.
//!
//! A layer above may rely on a device's answers alone: the acts that it tells, from which its files are computed, a count of faults that
//! never falls, and that `Failed` comes only where the count rose. A device over memory tells its acts; one over a folder tells nothing.
//! What a stop of the machine may leave of the files is said of the acts, by the definitions that the laws here speak of.
#![tactic(auto)]

mod act;
mod calls;
mod choice;
mod depot;
mod entropy;
mod files;
mod laws;
mod name;
mod shelf;
mod sink;
mod sizes;
mod stop;
mod whole;

pub use act::{Act, Kind};
pub use choice::Choice;
pub use depot::{Depot, MemoryDepot};
pub use entropy::{Entropy, EntropyFault, MemoryEntropy};
pub use laws::{choice_laws, fault_laws, image_laws, moment_laws, step_laws};
pub use name::Name;
pub use shelf::{MemoryShelf, Shelf, StoreFault};
pub use sink::{MemorySink, Sink, SinkFault};
pub use whole::{fill, length_of, read_part, read_whole};
