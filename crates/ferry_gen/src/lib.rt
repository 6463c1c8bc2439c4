//! The archives of the drill: a repository that is made of a number, and what each of its archives says.
//!
//! ferry_run_drill may rely on this: where `make_source` is done, the files open under the passphrase `source`, have the archives of the definition and no
//! others,
//! and each is whole and says just what the definition gives, where no contents collide.
#![tactic(auto)]

mod content;
mod fields;
mod put;
mod source;

pub use source::{make_source, source_secret};
