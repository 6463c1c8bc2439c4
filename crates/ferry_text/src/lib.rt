//! Printed texts, ids and numbers.
//!
//! The layer above may rely on this: each call appends exactly what it prints, or is refused memory and leaves the vector as
//! it was; no printed text has a byte below 32 or the byte 127, so it stays on its line; and different bytes have different
//! texts. The escape of texts is this project's own; ids are hex digits in lower case, numbers are decimal digits.
#![tactic(auto)]

mod escape;
mod fields;
mod laws;

pub use escape::write_text;
pub use fields::{write_id, write_number};
pub use laws::text_laws;
