//! What the words ask and the program doesn't do, since something of the user's would be lost by it: told before anything is written.

use std::alloc::{AllocError, Global};

/// Why the program doesn't do what its words ask.
#[derive(Drop)]
pub enum Withheld {
    /// The target's folder has something that no repository of Borg has: its path in the folder.
    OtherFiles(String),
    /// The target's folder has the key of a repository whose segments aren't there.
    LoneKey,
    /// The target has, or would get, the key of the source.
    OneKey,
    /// The passphrase is to come from a program, which the variable of this name has.
    Command(&'static str),
    /// The passphrase is to come from a stream, whose number the variable of this name has, and doesn't come.
    Stream(&'static str),
    /// The file `nonce` of the target has a number below that behind the last block of a blob that is there.
    Nonce {
        /// The number of the file.
        has: u64,
        /// The number behind the last block.
        least: u128,
    },
    /// The folder that an archive is to be restored in is another user's, or others may write in it.
    Folder,
}

impl Withheld {
    /// The word for the cause.
    pub fn cause(&self) -> &'static str {
        match self {
            Withheld::OtherFiles(_) | Withheld::LoneKey => "other files",
            Withheld::OneKey => "one key",
            Withheld::Command(_) | Withheld::Stream(_) => "passphrase",
            Withheld::Nonce { .. } => "nonce",
            Withheld::Folder => "folder",
        }
    }

    /// The line in plain words.
    pub fn line(&self, alloc: Global) -> Result<String, AllocError> {
        match self {
            Withheld::OtherFiles(path) => of_file(alloc, path.as_str()),
            Withheld::LoneKey => String::from_str(alloc, LONE_KEY),
            Withheld::OneKey => String::from_str(alloc, ONE_KEY),
            Withheld::Command(name) => of_command(alloc, name),
            Withheld::Stream(name) => of_stream(alloc, name),
            Withheld::Nonce { has, least } => of_nonce(alloc, *has, *least),
            Withheld::Folder => String::from_str(alloc, FOLDER),
        }
    }
}

const LONE_KEY: &str =
    "TARGET/config has the key of a repository whose segments aren't in TARGET/data, and init would write another key over it: see that data is mounted there, or name another folder";

const ONE_KEY: &str =
    "TARGET has the id of SOURCE, or would get its key by BORG_KEY_FILE, so both would give the same numbers of the cipher out: make TARGET elsewhere with a key of its own, without BORG_KEY_FILE or with what make-key prints";

const FOLDER: &str =
    "FOLDER is another user's, or others may write in it and lead what is made there elsewhere meanwhile: name a folder that isn't there, or take their rights away by chmod go-w FOLDER where it is yours";

const USED_UP: &str =
    "the objects in TARGET have the last numbers of its cipher: make a repository with a new key elsewhere";

/// How many numbers are left out behind those that are seen: the blocks of 16 TiB.
const MARGIN: u128 = 1 << 40;

/// The line where a target's folder has something else.
fn of_file(alloc: Global, path: &str) -> Result<String, AllocError> {
    format!(in alloc;
        "TARGET has {path}, which is no file of a repository, and init would write over such files or remove them: name a folder that is empty or isn't there"
    )
}

/// The line where a variable names a program.
fn of_command(alloc: Global, name: &str) -> Result<String, AllocError> {
    format!(in alloc;
        "{name} is set, and this program starts no other: run borgferry-passcommand with the same words, which runs it and hands on what it prints, or set the passphrase's own variable"
    )
}

/// The line where a variable names a stream.
fn of_stream(alloc: Global, name: &str) -> Result<String, AllocError> {
    format!(in alloc;
        "{name} names a stream that can't be read, has more than 65536 bytes or isn't UTF-8: see that it is open, as number 3 is behind 3< FILE, and has the passphrase in it"
    )
}

/// The line where the file `nonce` was put back. The number that mends it lies so far above that objects which are gone from here, or are in a later copy, have
/// theirs below it.
fn of_nonce(alloc: Global, has: u64, least: u128) -> Result<String, AllocError> {
    let Ok(mended) = u64::try_from(least.saturating_add(MARGIN)) else {
        return String::from_str(alloc, USED_UP);
    };
    format!(in alloc;
        "TARGET/nonce has the number {has:016x}, and an object in TARGET has a higher one, so nonce or all of TARGET was put back from a copy, and what is written now would be encrypted by the numbers of what was written before: if no newer copy of nonce is there, printf {mended:016x} > TARGET/nonce mends it, which leaves out the numbers of 16 TiB that may have been written since"
    )
}
