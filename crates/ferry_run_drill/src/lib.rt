//! The command that copies a source of its own: it makes one in memory, a repository in the target, copies the one into the other, and checks it.
//!
//! ferry_top may rely on this: where it is done, the target opens under the passphrase `target` to the archives of the drill and no others, each whole and
//! cut anew, where no contents collide, and it verifies; the lines of the transfer were told, and the drill's own went to the output. Else the status
//! says which device failed, or that the target is refused, to which nothing was done where a segment is committed there.
#![tactic(auto)]

mod command;
mod device;
mod fill;
mod lines;

pub use command::drill;
