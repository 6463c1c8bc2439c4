//! What is looked at before a command begins: what is only told, and what the program doesn't do since something of the user's would be lost.
//!
//! Words that are no command are left to the command itself, which says which of them is wrong.

use crate::advice::{APPEND_ONLY, EARLIER, EMPTY_PASSPHRASE, LOCKED, TIME_FORM};
use crate::after::advise_of;
use crate::command::{Places, Task};
use crate::fault::StartFault;
use crate::numbers::{UNSEEN, withhold_old_nonce};
use crate::other_files::{has_lone_key, other_file};
use crate::places::{is_locked, is_unnamed};
use crate::settings::{id_at, is_append_only};
use crate::side::{Cause, Side};
use crate::start::advise;
use crate::timestamp::is_of_form;
use crate::withheld::Withheld;
use ferry_base::{Bytes, Id};
use ferry_keyfile::read_key_file;
use ferry_manifest::Manifest;
use ferry_real::{FolderShelf, Progress};
use ferry_repo::{Repo, Secret};
use ferry_words::{Command, Usage, read_words};
use std::alloc::{AllocGlobal, Global};
use std::rt::Runtime;

/// Looks before a command begins, and answers the words that name the archives which it copies in this order.
pub fn look_before<'a, R: Runtime + AllocGlobal>(
    rt: &R,
    task: &Task<'a>,
) -> Result<&'a [String], StartFault> {
    match read_words(rt.alloc(), task.words) {
        Ok(command) => names_behind_look(rt, task, &command),
        Err(Usage::Memory) => Err(StartFault::Memory),
        Err(Usage::Word(_)) => Ok(&[]),
    }
}

/// The same, of a command that was read.
fn names_behind_look<'a, R: Runtime + AllocGlobal>(
    rt: &R,
    task: &Task<'a>,
    command: &Command,
) -> Result<&'a [String], StartFault> {
    look(rt, task, command)?;
    Ok(last_of(task.words, copied_count(command)))
}

/// How many words at the end of a command name archives that it copies.
fn copied_count(command: &Command) -> usize {
    match command {
        Command::Transfer { names, .. } => names.as_slice().len(),
        _ => 0,
    }
}

/// The last words, so many.
fn last_of(words: &[String], count: usize) -> &[String] {
    words
        .get(words.len().saturating_sub(count)..)
        .unwrap_or(&[])
}

/// The same, of a command that was read.
fn look<R: Runtime + AllocGlobal>(
    rt: &R,
    task: &Task,
    command: &Command,
) -> Result<(), StartFault> {
    tell_of_locks(rt, task, command)?;
    match command {
        Command::Init { timestamp, .. } => before_init(rt, task, timestamp),
        Command::MakeKey { .. } => tell_of_empty_passphrase(rt, task),
        Command::Transfer { timestamp, .. } => {
            withhold_one_key(rt, task)?;
            before_change(rt, task, timestamp)
        }
        Command::Delete { timestamp, .. } | Command::TagArchives { timestamp } => {
            tell_of_append_only(rt, task)?;
            before_change(rt, task, timestamp)
        }
        Command::Compact { .. } => tell_of_append_only(rt, task),
        _ => Ok(()),
    }
}

/// Looks before a repository is made.
fn before_init<R: Runtime + AllocGlobal>(
    rt: &R,
    task: &Task,
    timestamp: &Option<Bytes>,
) -> Result<(), StartFault> {
    withhold_other_files(rt, task)?;
    withhold_key_of_source(rt, task)?;
    withhold_old_nonce(rt, task.places.target, false)?;
    tell_of_form(rt, timestamp);
    tell_of_empty_passphrase(rt, task)
}

/// Looks before objects are put into a repository.
fn before_change<R: Runtime + AllocGlobal>(
    rt: &R,
    task: &Task,
    timestamp: &Option<Bytes>,
) -> Result<(), StartFault> {
    withhold_old_nonce(rt, task.places.target, true)?;
    tell_of_form(rt, timestamp);
    tell_of_earlier(rt, task, timestamp)
}

/// Tells where Borg's lock lies in a repository that the command uses.
fn tell_of_locks<R: Runtime + AllocGlobal>(
    rt: &R,
    task: &Task,
    command: &Command,
) -> Result<(), StartFault> {
    if reads_source(command) && is_locked(rt, task.places.source, Side::Source)? {
        advise_of(rt, rt.alloc(), LOCKED, Side::Source, Cause::unknown());
    }
    if writes_target(command) && is_locked(rt, task.places.target, Side::Target)? {
        advise_of(rt, rt.alloc(), LOCKED, Side::Target, Cause::unknown());
    }
    Ok(())
}

/// Whether a command reads the source.
fn reads_source(command: &Command) -> bool {
    matches!(
        command,
        Command::Keys
            | Command::Key
            | Command::List
            | Command::ListItems { .. }
            | Command::Extract { .. }
            | Command::Check
            | Command::Transfer { .. }
            | Command::Plan { .. }
    )
}

/// Whether a command writes the target.
fn writes_target(command: &Command) -> bool {
    matches!(
        command,
        Command::Init { .. }
            | Command::Transfer { .. }
            | Command::Delete { .. }
            | Command::TagArchives { .. }
            | Command::Compact { .. }
    )
}

/// Withholds `init` where the target's folder has other files than a stop of it leaves.
fn withhold_other_files<R: Runtime + AllocGlobal>(rt: &R, task: &Task) -> Result<(), StartFault> {
    if is_unnamed(task.places.target) {
        return Ok(());
    }
    match other_file(rt, rt.alloc(), task.places.target)? {
        Some(path) => Err(StartFault::Withheld(Withheld::OtherFiles(path))),
        None => withhold_lone_key(rt, task.places.target),
    }
}

/// Withholds `init` where the target's folder has the key of a repository whose segments aren't there.
fn withhold_lone_key<R: Runtime + AllocGlobal>(rt: &R, place: &str) -> Result<(), StartFault> {
    if has_lone_key(rt, rt.alloc(), place)? {
        return Err(StartFault::Withheld(Withheld::LoneKey));
    }
    Ok(())
}

/// Withholds `transfer` where both repositories have one id, and so one key.
fn withhold_one_key<R: Runtime + AllocGlobal>(rt: &R, task: &Task) -> Result<(), StartFault> {
    let target = id_of(rt, task.places, Side::Target)?;
    withhold_id(rt, task, target)
}

/// Withholds `init` where the target's key file is that of the source.
fn withhold_key_of_source<R: Runtime + AllocGlobal>(rt: &R, task: &Task) -> Result<(), StartFault> {
    let target = match read_key_file(rt.alloc(), task.secrets.target.key_file.as_slice()) {
        Ok(file) => Some(file.id),
        Err(_) => None,
    };
    withhold_id(rt, task, target)
}

/// Withholds a command where the target's id, if it is known, is that of the source.
fn withhold_id<R: Runtime + AllocGlobal>(
    rt: &R,
    task: &Task,
    target: Option<Id>,
) -> Result<(), StartFault> {
    if target.is_some() && target == id_of(rt, task.places, Side::Source)? {
        return Err(StartFault::Withheld(Withheld::OneKey));
    }
    Ok(())
}

/// The id of the repository of a side, `None` where its word names none, or none is there.
fn id_of<R: Runtime + AllocGlobal>(
    rt: &R,
    places: Places,
    side: Side,
) -> Result<Option<Id>, StartFault> {
    let place = places.of(side);
    if is_unnamed(place) {
        return Ok(None);
    }
    id_at(rt, rt.alloc(), place, side)
}

/// Tells where Borg takes nothing out of the target.
fn tell_of_append_only<R: Runtime + AllocGlobal>(rt: &R, task: &Task) -> Result<(), StartFault> {
    if !is_unnamed(task.places.target) && is_append_only(rt, rt.alloc(), task.places.target)? {
        advise(rt, APPEND_ONLY);
    }
    Ok(())
}

/// Tells where a new key gets an empty passphrase.
fn tell_of_empty_passphrase<R: Runtime>(rt: &R, task: &Task) -> Result<(), StartFault> {
    if task.secrets.target.passphrase.as_slice().is_empty() {
        advise(rt, EMPTY_PASSPHRASE);
    }
    Ok(())
}

/// Tells where a timestamp is given that Borg can't read.
fn tell_of_form<R: Runtime>(rt: &R, timestamp: &Option<Bytes>) {
    if let Some(text) = timestamp
        && !is_of_form(text.as_slice())
    {
        advise(rt, TIME_FORM);
    }
}

/// Tells where a timestamp is given that is before that of the target's manifest, where this opens.
fn tell_of_earlier<R: Runtime + AllocGlobal>(
    rt: &R,
    task: &Task,
    timestamp: &Option<Bytes>,
) -> Result<(), StartFault> {
    let Some(text) = timestamp else {
        return Ok(());
    };
    let own = rt.clone()?;
    let progress = Progress::new(rt.clone()?, rt.alloc(), UNSEEN)?;
    let mut shelf = FolderShelf::new(own, rt.alloc(), task.places.target, progress)?;
    if is_earlier(rt.alloc(), &mut shelf, &task.secrets.target, text) {
        advise(rt, EARLIER);
    }
    Ok(())
}

/// Whether a timestamp is before that of a repository's manifest, where this opens and has one.
fn is_earlier<R: Runtime>(
    alloc: Global,
    shelf: &mut FolderShelf<R>,
    secret: &Secret,
    text: &Bytes,
) -> bool {
    match Repo::open(alloc, shelf, secret) {
        Ok(repo) => is_before(text, repo.manifest()),
        Err(_) => false,
    }
}

/// Whether a timestamp is before that of a manifest, as texts are compared.
fn is_before(text: &Bytes, manifest: &Manifest) -> bool {
    match &manifest.timestamp {
        Some(last) => text.as_slice() < last.as_slice(),
        None => false,
    }
}
