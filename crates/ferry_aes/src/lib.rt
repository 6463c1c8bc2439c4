//! AES-256 and its counter mode.
//!
//! `Schedule` stores the expanded key of FIPS 197, section 5.2. `Schedule::block` is the cipher of
//! its section 5.1, byte by byte, and `Schedule::sixteen` the same of sixteen blocks at once.
//! `keystream` fills a buffer with the key stream of NIST SP 800-38A, section 6.5. The last two
//! work on eight blocks at a time in planes of bits, and `keystream` on sixteen where more than
//! 1,024 bytes are asked for. Each equals the standard's function for every key, block, counter and
//! length (`specs/`). Nothing here takes memory or refuses.
#![tactic(auto)]

mod cipher;
mod circuit;
mod counter;
mod eight;
mod expansion;
mod gates;
mod halves;
mod joining;
mod low_bytes;
mod planes;
mod rounds;
mod schedule;
mod sixteen;
mod substitution;
mod transposition;
mod wide_circuit;
mod wide_gates;
mod wide_planes;
mod wide_transposition;

pub use counter::keystream;
pub use schedule::Schedule;
