//! Why the program ends before its command.

use crate::advice::{FORM, MEMORY, NOT_TEXT, ONE_FOLDER, REMOTE, WORD_NOT_TEXT};
use crate::refusal::DEVICE;
use crate::side::{Cause, Filling, Side, filled, push_escaped};
use crate::start::advise;
use crate::target::TARGET;
use crate::withheld::Withheld;
use ferry_real::Word;
use std::alloc::{AllocError, AllocGlobal, Global};
use std::rt::Runtime;

/// The status of wrong words.
const USAGE_STATUS: u8 = 2;

/// The status where memory was refused.
const MEMORY_STATUS: u8 = 3;

/// The status where a key file can't be read.
const UNREADABLE_STATUS: u8 = 16;

/// The status where the program doesn't do what the words ask.
const WITHHELD_STATUS: u8 = 17;

/// Why the program ends before its command.
#[derive(Drop)]
pub enum StartFault {
    /// The words name no source, target and command.
    Usage,
    /// A word isn't UTF-8.
    WordNotText,
    /// A place is on another machine.
    Remote,
    /// The two places are one folder.
    OneFolder,
    /// The variable of this name isn't UTF-8.
    NotText(&'static str),
    /// The variable of this name names a key file that can't be read.
    Unreadable {
        name: &'static str,
        path: String,
        why: Word,
    },
    /// A look failed: the fault line, its status, and the line in plain words.
    Failed {
        said: &'static str,
        status: u8,
        line: String,
    },
    /// Something of the user's would be lost.
    Withheld(Withheld),
    /// Memory was refused.
    Memory,
}

impl StartFault {
    /// The fault of a repository whose device failed, with its line in plain words.
    pub fn of_device(side: Side, line: String) -> StartFault {
        StartFault::Failed {
            said: side.device_line(),
            status: side.device_status(),
            line,
        }
    }

    /// The fault of a repository in which something couldn't be looked at.
    pub fn of_look(alloc: Global, side: Side, cause: Cause) -> StartFault {
        let text = match side {
            Side::Source => DEVICE,
            Side::Target => TARGET,
        };
        match filled(alloc, text, Filling { side, cause }) {
            Ok(line) => StartFault::of_device(side, line),
            Err(_) => StartFault::Memory,
        }
    }
}

impl From<AllocError> for StartFault {
    fn from(_error: AllocError) -> StartFault {
        StartFault::Memory
    }
}

/// Prints why the program ends before its command, and answers the status to end with, also where a line isn't taken.
pub fn refuse<R: Runtime + AllocGlobal>(rt: &R, fault: &StartFault) -> u8 {
    let (said, status) = match fault {
        StartFault::NotText(name) => (println!(rt; "{name} isn't UTF-8"), USAGE_STATUS),
        StartFault::Unreadable { .. } => (rt.println("key file unreadable"), UNREADABLE_STATUS),
        StartFault::Failed { said, status, .. } => (rt.println(said), *status),
        StartFault::Withheld(withheld) => (
            println!(rt; "withheld: {}", withheld.cause()),
            WITHHELD_STATUS,
        ),
        StartFault::Memory => (rt.println("memory"), MEMORY_STATUS),
        _ => (rt.println("usage"), USAGE_STATUS),
    };
    let _ = said;
    explain(rt, fault);
    status
}

/// Says in plain words why the program ends before its command. Where memory is refused for it, the status and the fault line tell alone.
fn explain<R: Runtime + AllocGlobal>(rt: &R, fault: &StartFault) {
    if let Ok(line) = line_of(rt.alloc(), fault) {
        advise(rt, line.as_str());
    }
}

/// The line in plain words.
fn line_of(alloc: Global, fault: &StartFault) -> Result<String, AllocError> {
    match fault {
        StartFault::Usage => String::from_str(alloc, FORM),
        StartFault::WordNotText => String::from_str(alloc, WORD_NOT_TEXT),
        StartFault::Remote => String::from_str(alloc, REMOTE),
        StartFault::OneFolder => String::from_str(alloc, ONE_FOLDER),
        StartFault::NotText(_) => String::from_str(alloc, NOT_TEXT),
        StartFault::Unreadable { name, path, why } => unreadable(alloc, name, path.as_str(), *why),
        StartFault::Failed { line, .. } => String::from_str(alloc, line.as_str()),
        StartFault::Withheld(withheld) => withheld.line(alloc),
        StartFault::Memory => String::from_str(alloc, MEMORY),
    }
}

/// The line where a key file can't be read.
fn unreadable(alloc: Global, name: &str, path: &str, why: Word) -> Result<String, AllocError> {
    let mut line = String::from_str(alloc, name)?;
    line.push_str(" names ")?;
    push_escaped(alloc, path.as_bytes(), &mut line)?;
    let end = format!(in alloc;
        ", which can't be read ({why}): see that it is there, or leave the variable out"
    )?;
    line.push_str(end.as_str())?;
    Ok(line)
}

/// The fault of a repository in which a file of Borg's lock is larger than one is.
pub fn large_lock(alloc: Global, side: Side, path: &str) -> Result<StartFault, AllocError> {
    let line = large_lock_line(alloc, path)?;
    Ok(StartFault::of_device(side, line))
}

/// The line where a file of a lock is larger than one is.
fn large_lock_line(alloc: Global, path: &str) -> Result<String, AllocError> {
    let mut line = String::new(alloc);
    push_escaped(alloc, path.as_bytes(), &mut line)?;
    line.push_str(
        " has more than 65536 bytes, which no lock of Borg has: see what it is, and remove it where no Borg command runs there",
    )?;
    Ok(line)
}
