//! The file `config` of a repository: read, and printed.
//!
//! The layers above may rely on this: `read_config` answers what `config_of` says of the bytes, which
//! is the first fault of the text or what the values of its names say. `print_config` gives the one
//! text of a config, which is read as the same config. The grammar is a part of what BorgBackup 1.2
//! takes (Internals, "Data structures and file formats", Config file).
#![tactic(auto)]

mod config;
mod fault;
mod line;
mod lines;
mod meaning;
mod printing;
mod reading;
mod section;
mod values;

pub use config::Config;
pub use fault::ConfigFault;
pub use meaning::one_meaning;
pub use printing::{append_wrapped, print_config};
pub use reading::read_config;
