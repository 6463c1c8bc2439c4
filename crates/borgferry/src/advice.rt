//! What a status means and what to do about it, in plain words: one line for standard error beside the fault line of standard
//! output. docs/FORMATS.md has the lines as a table. A name in braces stands for a word of the repository that the line speaks of.

ghost use Rattle.std.specs.Prelude.{◌≡◌, ◌↔◌, IsNone};
ghost use Rattle.ferry_status.specs.declared.status.Status.TheVariants as TheStatus;

use crate::refusal::{DEVICE, UNNAMED, of_repo};
use crate::side::{Cause, Side};
use crate::target::{
    COMMITTED, ENTROPY, PARENT, TARGET, of_deletion, of_limit, of_nonce, of_tagging,
};
use ferry_real::Presence;
use ferry_top::{Refusal, Status};

/// Where the words name no source, target and command.
pub const FORM: &str =
    "the form is borgferry SOURCE TARGET COMMAND; the two places are folders that differ, or - for none; borgferry --help says more";

/// Where a word isn't UTF-8.
pub const WORD_NOT_TEXT: &str =
    "a word isn't UTF-8: an archive or a path of other bytes is listed, and can't be named; transfer without names copies all archives";

/// Where a place is on another machine, or names an archive.
pub const REMOTE: &str =
    "a place is a folder of this machine: no user@host:path, ssh:// or REPOSITORY::ARCHIVE; a folder with : in its name is written with ./ in front";

/// Where the two places are one folder.
pub const ONE_FOLDER: &str =
    "SOURCE and TARGET are one folder, spelled in two ways: name two folders, or - for the one that the command doesn't use";

/// Where Borg's lock lies in a repository. The command goes on.
pub const LOCKED: &str =
    "{place} has a lock of Borg, lock.exclusive or lock.roster, which isn't heeded: see that no Borg command writes {place}, and that borg with-lock isn't around this one";

/// Where something is to be taken out of a target that Borg takes nothing out of. The command goes on.
pub const APPEND_ONLY: &str =
    "TARGET/config says append_only, which isn't heeded: Borg would keep all segments there, and this command removes those that it needs no more";

/// Where files of Borg lie in a target that something was taken out of. The command is done.
pub const OUTDATED: &str =
    "TARGET has files index.*, hints.* or integrity.* of Borg that are out of date now: remove them before a Borg command uses TARGET";

/// Where the passphrase of a new key is empty. The command goes on.
pub const EMPTY_PASSPHRASE: &str =
    "the new key gets an empty passphrase, since BORG_PASSPHRASE isn't set or is empty, and BORG_PASSCOMMAND and BORG_PASSPHRASE_FD name none: who has the key reads the repository; borg key change-passphrase sets another";

/// Where a repository was made with a key of its own. The command is done.
pub const NEW_KEY: &str =
    "TARGET's key is new and lies in TARGET/config: borg key export TARGET FILE writes a copy of it, to be kept elsewhere";

/// Where a key file was printed. The command is done.
pub const NEW_KEY_FILE: &str =
    "the key that was printed is new: keep the file elsewhere too, since it is in no repository, and use it for one repository alone";

/// Where a timestamp isn't of Borg's form. The command goes on.
pub const TIME_FORM: &str =
    "this timestamp isn't of the form 2026-12-31T23:59:59.000000, which is UTC and the one that Borg reads: Borg fails at a repository whose manifest has another text";

/// Where a timestamp is before that of the target's manifest. The command goes on.
pub const EARLIER: &str =
    "this timestamp is before that of TARGET's manifest, so a Borg that has seen TARGET refuses it: give a later one, or none";

/// Where a variable isn't UTF-8.
pub const NOT_TEXT: &str =
    "set the variable as UTF-8, or leave it out where the command doesn't need it";

/// Where memory was refused.
pub const MEMORY: &str =
    "the system refused memory, which says nothing of the repository: free some or allow the program more, and run it again";

/// Where standard output can't be written. It has no fault line, which would go there too.
pub const OUTPUT: &str =
    "standard output can't be written{why}, so lines are missing: see whether its disk is full or the program behind the pipe has ended";

/// Where no archive of the source has a name.
pub const MISSING: &str = "no archive of SOURCE has this name: list prints the names";

const MISSING_IN_TARGET: &str =
    "no archive of TARGET has this name: list prints the names, with TARGET in the place of SOURCE";

const MISSING_PATH: &str =
    "no archive of SOURCE has this name, or no file in it this path: list prints the names, list NAME the paths; a link (l) has no content of its own, so extract the path that borg list shows it to lead to";

const TAKEN: &str =
    "TARGET has an archive of this name that differs, or that doesn't read, as check of TARGET tells: choose other names, or another target; nothing of this archive was committed";

const BAD: &str =
    "the repository opens, and what the line names is the first thing in it that doesn't read: what Borg compressed is blob 4, and borgferry-plain SOURCE cures it; of any other see what borg check --verify-data finds, and look at another copy";

/// The repository that the line of a status speaks of.
pub fn side_of(status: &Status) -> Side {
    match status {
        Status::TargetDevice | Status::TargetRefused(_) => Side::Target,
        _ => Side::Source,
    }
}

/// What a line depends on beside the status: the first word of the command, whether the folder of the repository that the status speaks of is there, and what
/// failed there.
#[derive(Clone, Copy)]
pub struct Ending<'a> {
    pub command: &'a str,
    pub presence: Presence,
    pub cause: Cause<'a>,
}

/// The text for a status, without its end, where a command ended with one. `None` where the command is done.
pub fn advice(status: &Status, ending: Ending) -> Option<&'static str>
    ensures said { IsNone result ↔ (status.now ≡ TheStatus.Done) }
{
    match status {
        Status::Done => None,
        Status::No => Some(BAD),
        Status::Usage(_) => Some(form_of(ending.command)),
        Status::Memory => Some(MEMORY),
        Status::SourceDevice => Some(DEVICE),
        Status::TargetDevice => Some(of_target_device(ending)),
        Status::EntropyDevice => Some(ENTROPY),
        Status::OutputDevice => Some(OUTPUT),
        Status::SourceRefused(refusal) | Status::TargetRefused(refusal) => {
            Some(of_refusal(refusal, ending))
        }
        Status::Taken(_) => Some(TAKEN),
        Status::NotFound(_) => Some(of_missing_name(ending.command)),
        Status::Limit(limit) => Some(of_limit(*limit)),
    }
}

/// A target whose device failed. It writes the command's lines as well; one that is no folder can't be written.
fn of_target_device(ending: Ending) -> &'static str {
    match ending.presence {
        _ if ending.cause.is_output() => OUTPUT,
        Presence::Unnamed => UNNAMED,
        Presence::Absent if ending.cause.is_absence() => PARENT,
        Presence::Absent | Presence::There => TARGET,
    }
}

/// A repository that is refused.
fn of_refusal(refusal: &Refusal, ending: Ending) -> &'static str {
    match refusal {
        Refusal::Repo(fault) if ending.command == "delete" => of_deletion(fault, ending.presence),
        Refusal::Repo(fault) if ending.command == "tag-archives" => {
            of_tagging(fault, ending.presence)
        }
        Refusal::Repo(fault) => of_repo(fault, ending.presence),
        Refusal::Nonce(fault) => of_nonce(*fault),
        Refusal::Committed => COMMITTED,
    }
}

/// A name or a path that isn't there. Paths are named by `extract` alone, archives of the target by `delete` alone.
fn of_missing_name(command: &str) -> &'static str {
    match command {
        "extract" => MISSING_PATH,
        "delete" => MISSING_IN_TARGET,
        _ => MISSING,
    }
}

/// The form of a command's words.
fn form_of(command: &str) -> &'static str {
    match command {
        "keys" => "the form is borgferry SOURCE TARGET keys, with nothing behind it",
        "key" => "the form is borgferry SOURCE TARGET key, with nothing behind it",
        "list" => {
            "the form is borgferry SOURCE TARGET list, or list NAME for the items of an archive; a NAME that begins with -- stands behind --"
        }
        "check" => "the form is borgferry SOURCE TARGET check, with nothing behind it",
        "extract" => {
            "the form is borgferry SOURCE TARGET extract NAME PATH, the path as list NAME has it; a NAME that begins with -- stands behind --"
        }
        "init" => {
            "the form is borgferry SOURCE TARGET init, with --iterations N, from 1 to 10000000, and --timestamp T behind it, or without"
        }
        "transfer" => {
            "the form is borgferry SOURCE TARGET transfer, with --block B, --checkpoint N and --timestamp T behind it, or without, and then the names, none for all; names that begin with -- stand behind --"
        }
        "plan" => {
            "the form is borgferry SOURCE TARGET plan, with --block B behind it, or without, and then the names, none for all; names that begin with -- stand behind --"
        }
        "delete" => {
            "the form is borgferry SOURCE TARGET delete NAME, with --timestamp T in front of the name, or without; a NAME that begins with -- stands behind --"
        }
        "tag-archives" => {
            "the form is borgferry SOURCE TARGET tag-archives, with --timestamp T behind it, or without; it takes no name, since it tags the records of all archives"
        }
        "compact" => {
            "the form is borgferry SOURCE TARGET compact, with --threshold P, from 0 to 100, behind it, or without"
        }
        "make-key" => {
            "the form is borgferry SOURCE TARGET make-key, with --iterations N, from 1 to 10000000, behind it, or without"
        }
        "drill" => {
            "the form is borgferry SOURCE TARGET drill N, from 1 to 64, and - in the place of both will do, since neither is used"
        }
        _ => {
            "the form is borgferry SOURCE TARGET COMMAND, and the commands are keys, key, list, extract, check, restore, init, plan, transfer, delete, tag-archives, compact, make-key and drill; borgferry --help says what they do"
        }
    }
}
