//! msgpack values: every spelling is read, one is written.
//!
//! The layer above may rely on this: what `read` answers is spelled by exactly the bytes that it names, what is spelled
//! is read whatever follows it, a refusal is the first broken rule from the left, and `write` appends the one shortest
//! spelling. The format is that of the msgpack specification, "Formats", without floats and extensions, with raw map
//! keys of which none repeats, and with at most 64 arrays and maps inside each other.
#![tactic(auto)]

mod apart;
mod copy;
mod fault;
mod first;
mod heads;
mod laws;
mod numbers;
mod reading;
mod value;
mod writable;
mod writing;

pub use apart::{Apart, read_map_apart};
pub use fault::PackFault;
pub use laws::spelling_laws;
pub use reading::read;
pub use value::Value;
pub use writable::is_writable;
pub use writing::write;
