//! The key text of a repository: its envelope read, opened with a passphrase, and sealed.
//!
//! The layers above may rely on this: `read_envelope` answers what `envelope_of` says of the bytes,
//! and `open_key` what `key_of` says of them and the passphrase. What `seal_key` gives opens under
//! the same passphrase and says the same. The format is that of BorgBackup 1.2 (Internals, "Data
//! structures and file formats", Key files).
#![tactic(auto)]

mod envelope;
mod fault;
mod fields;
mod key_text;
mod laws;
mod opening;
mod reading;
mod sealing;

pub use envelope::Envelope;
pub use fault::KeyFault;
pub use key_text::KeyText;
pub use laws::key_laws;
pub use opening::{open_envelope, open_key};
pub use reading::read_envelope;
pub use sealing::seal_key;
