//! The secrets of the two repositories: variables, and the files and streams that some of them name.

use crate::fault::StartFault;
use crate::withheld::Withheld;
use ferry_base::Bytes;
use ferry_real::{SmallFault, Word, read_at_most};
use ferry_top::{Secret, Secrets};
use ferry_words::Command;
use std::alloc::AllocGlobal;
use std::env;
use std::env::VarError;
use std::rt::Runtime;

/// The most bytes of a key file, and of a stream that has a passphrase.
const LIMIT: u64 = 65_536;

/// The variables of a repository, by which its secret comes.
#[derive(Clone, Copy)]
struct Variables {
    /// The one with the passphrase.
    passphrase: &'static str,
    /// The one with a program that prints it, which is Borg's to run.
    command: &'static str,
    /// The one with the number of a stream that has it.
    stream: &'static str,
    /// The one with the path of the key file.
    key_file: &'static str,
}

/// Those of the source.
const SOURCE: Variables = Variables {
    passphrase: "BORG_OTHER_PASSPHRASE",
    command: "BORG_OTHER_PASSCOMMAND",
    stream: "BORG_OTHER_PASSPHRASE_FD",
    key_file: "BORG_OTHER_KEY_FILE",
};

/// Those of the target.
const TARGET: Variables = Variables {
    passphrase: "BORG_PASSPHRASE",
    command: "BORG_PASSCOMMAND",
    stream: "BORG_PASSPHRASE_FD",
    key_file: "BORG_KEY_FILE",
};

/// Of which repositories the passphrase is asked for.
#[derive(Clone, Copy)]
pub struct Asked {
    pub source: bool,
    pub target: bool,
}

impl Asked {
    /// Those of which a command asks for it.
    pub fn by(command: &Command) -> Asked {
        match command {
            Command::Transfer { .. } | Command::Plan { .. } => Asked {
                source: true,
                target: true,
            },
            Command::Key
            | Command::List
            | Command::ListItems { .. }
            | Command::Extract { .. }
            | Command::Check => Asked {
                source: true,
                target: false,
            },
            Command::Init { .. }
            | Command::MakeKey { .. }
            | Command::Delete { .. }
            | Command::TagArchives { .. } => Asked {
                source: false,
                target: true,
            },
            Command::Keys | Command::Compact { .. } | Command::Drill { .. } => Asked::NONE,
        }
    }

    /// None.
    pub const NONE: Asked = Asked {
        source: false,
        target: false,
    };
}

/// The secrets of the source and of the target. All variables are looked at before the files and streams that they name.
pub fn secrets<R: Runtime + AllocGlobal>(rt: &R, asked: Asked) -> Result<Secrets, StartFault> {
    look_at(rt, SOURCE.passphrase)?;
    look_at(rt, TARGET.passphrase)?;
    look_at(rt, SOURCE.key_file)?;
    look_at(rt, TARGET.key_file)?;
    let source = secret(rt, SOURCE, asked.source)?;
    let target = secret(rt, TARGET, asked.target)?;
    Ok(Secrets { source, target })
}

/// The secret of the source alone. Its variables are looked at before the files and streams that they name.
pub fn source_secret<R: Runtime + AllocGlobal>(
    rt: &R,
    is_asked: bool,
) -> Result<Secret, StartFault> {
    look_at(rt, SOURCE.passphrase)?;
    secret(rt, SOURCE, is_asked)
}

/// The path that the variable of the target's key file has, where it names one.
pub fn target_key_file<R: Runtime + AllocGlobal>(rt: &R) -> Option<String> {
    match env::var(rt, TARGET.key_file) {
        Ok(path) if !path.is_empty() => Some(path),
        _ => None,
    }
}

/// Refuses a variable that isn't UTF-8.
fn look_at<R: Runtime + AllocGlobal>(rt: &R, name: &'static str) -> Result<(), StartFault> {
    variable(rt, name)?;
    Ok(())
}

/// The secret that comes by these variables. Where the passphrase isn't asked for, its own variable is read alone.
fn secret<R: Runtime + AllocGlobal>(
    rt: &R,
    variables: Variables,
    is_asked: bool,
) -> Result<Secret, StartFault> {
    let key_file = key_file(rt, variables.key_file)?;
    let passphrase = passphrase(rt, variables, is_asked)?;
    Ok(Secret {
        passphrase: Bytes::new(passphrase.into_bytes()),
        key_file,
    })
}

/// The bytes of the key file whose path a variable has, none where it names no file.
fn key_file<R: Runtime + AllocGlobal>(rt: &R, name: &'static str) -> Result<Bytes, StartFault> {
    let path = variable(rt, name)?;
    if path.is_empty() {
        return Ok(Bytes::new(Vec::new(rt.alloc())));
    }
    match read_at_most(rt, rt.alloc(), path.as_str(), LIMIT) {
        Ok(bytes) => Ok(Bytes::new(bytes)),
        Err(SmallFault::Memory) => Err(StartFault::Memory),
        Err(fault) => Err(StartFault::Unreadable {
            name,
            path,
            why: word_of(fault),
        }),
    }
}

/// Why a key file can't be read.
fn word_of(fault: SmallFault) -> Word {
    match fault {
        SmallFault::Unreadable(word) => word,
        SmallFault::TooLarge => Word::Text("has more than 65536 bytes"),
        SmallFault::NotFile => Word::Text("isn't a file"),
        SmallFault::Absent | SmallFault::Memory => Word::Text("isn't there"),
    }
}

/// The passphrase: what its own variable has, or else, where it is asked for, what comes by the other two. Where none of them is there it is empty.
fn passphrase<R: Runtime + AllocGlobal>(
    rt: &R,
    variables: Variables,
    is_asked: bool,
) -> Result<String, StartFault> {
    if !is_asked || is_set(rt, variables.passphrase)? {
        return variable(rt, variables.passphrase);
    }
    if is_set(rt, variables.command)? {
        return Err(StartFault::Withheld(Withheld::Command(variables.command)));
    }
    match number(rt, variables.stream)? {
        Some(number) => from_stream(rt, number, variables.stream),
        None => Ok(String::new(rt.alloc())),
    }
}

/// The number that a variable has; none where it is absent or has another text, which Borg passes over as well.
fn number<R: Runtime + AllocGlobal>(rt: &R, name: &str) -> Result<Option<u32>, StartFault> {
    match env::var(rt, name) {
        Ok(text) => Ok(text.as_str().trim().parse().ok()),
        Err(VarError::NotPresent | VarError::NotUnicode) => Ok(None),
        Err(VarError::OutOfMemory) => Err(StartFault::Memory),
    }
}

/// The passphrase that the stream of this number has, as Borg reads it: each end of a line is a line feed, and those at the end of all are no part of it.
fn from_stream<R: Runtime + AllocGlobal>(
    rt: &R,
    number: u32,
    name: &'static str,
) -> Result<String, StartFault> {
    let path = format!(in rt.alloc(); "/dev/fd/{number}")?;
    match read_at_most(rt, rt.alloc(), path.as_str(), LIMIT) {
        Ok(bytes) => match str::from_utf8(bytes.as_slice()) {
            Ok(text) => Ok(without_line_ends(rt, text)?),
            Err(_) => Err(StartFault::Withheld(Withheld::Stream(name))),
        },
        Err(SmallFault::Memory) => Err(StartFault::Memory),
        Err(_) => Err(StartFault::Withheld(Withheld::Stream(name))),
    }
}

/// A text with line feeds for its ends of lines, and none at its end.
fn without_line_ends<R: Runtime + AllocGlobal>(rt: &R, text: &str) -> Result<String, StartFault> {
    let text = text.trim_end_matches(['\r', '\n']);
    let lines = text.replace(rt.alloc(), "\r\n", "\n")?;
    Ok(lines.as_str().replace(rt.alloc(), "\r", "\n")?)
}

/// Whether a variable is there.
fn is_set<R: Runtime>(rt: &R, name: &str) -> Result<bool, StartFault> {
    match env::var(rt, name) {
        Ok(_) | Err(VarError::NotUnicode) => Ok(true),
        Err(VarError::NotPresent) => Ok(false),
        Err(VarError::OutOfMemory) => Err(StartFault::Memory),
    }
}

/// What a variable has, nothing where it is absent.
fn variable<R: Runtime + AllocGlobal>(rt: &R, name: &'static str) -> Result<String, StartFault> {
    match env::var(rt, name) {
        Ok(text) => Ok(text),
        Err(VarError::NotPresent) => Ok(String::new(rt.alloc())),
        Err(VarError::NotUnicode) => Err(StartFault::NotText(name)),
        Err(VarError::OutOfMemory) => Err(StartFault::Memory),
    }
}
