//! Key files: read, and printed.
//!
//! A repository in keyfile mode has no key in its `config`; its key lies in a file outside of it. The layers above may rely on this:
//! `read_key_file` answers what `key_file_of` says of the bytes, and `print_key_file` gives the one text of a key file, which is read
//! as the same. Source: BorgBackup 1.2, Internals, "Security", Key files.
#![tactic(auto)]

mod fault;
mod file;
mod laws;
mod printing;
mod reading;

pub use fault::KeyFileFault;
pub use file::KeyFile;
pub use laws::key_file_laws;
pub use printing::print_key_file;
pub use reading::read_key_file;
