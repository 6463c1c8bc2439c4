//! The words of a command: which command they are, or which word is the first wrong one.
//!
//! The layers above may rely on this: `read_words` answers what `command_of` says of the words as bytes of UTF-8. `command_of`
//! reads them by a table of the commands, and `words_laws` says of it that it answers a command exactly where the words are spelled
//! as the table has it, and else the first word at which they can't go on to a command. The commands are this project's own.
#![tactic(auto)]

mod command;
mod laws;
mod names;
mod number;
mod options;
mod reading;
mod restore;
mod usage;

pub use command::Command;
pub use laws::words_laws;
pub use names::Names;
pub use reading::read_words;
pub use restore::{read_restore, restore_words_laws};
pub use usage::Usage;
