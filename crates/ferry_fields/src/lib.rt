//! The fields of a msgpack map: read by their names, the other names kept, and put for writing.
//!
//! The layers above may rely on this: `map_of` answers the pairs exactly where the bytes spell a map
//! with nothing behind it, a field that is answered stands under its name with its kind and length,
//! `without` keeps every other name, and `text_of` writes the one shortest spelling. The format is
//! that of the msgpack specification, "Formats"; BorgBackup 1.2 packs its keys, manifests, archive
//! records and items as such maps (Internals, "Data structures and file formats").
#![tactic(auto)]

mod building;
mod fault;
mod fields;
mod laws;
mod others;
mod reading;

pub use building::{copied, put, put_raw, table_of, text_of};
pub use fault::MapFault;
pub use fields::{has_version_1, map_in, number_in, raw_in, raw32_in, raw64_in, value_of};
pub use laws::fields_laws;
pub use others::without;
pub use reading::{map_apart_of, map_of};
