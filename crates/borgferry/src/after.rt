//! What is said on standard error when a command has ended.

use crate::advice::{Ending, NEW_KEY, NEW_KEY_FILE, OUTDATED, advice, side_of};
use crate::command::{Ended, Task, name_of};
use crate::naming::archive_of_status;
use crate::places::{has_index, presence};
use crate::secrets::target_key_file;
use crate::side::{Cause, Filling, Side, filled, push_escaped};
use crate::start::advise;
use ferry_real::{Copied, FolderDepot, FolderShelf};
use ferry_top::Status;
use std::alloc::{AllocError, AllocGlobal, Global};
use std::rt::Runtime;

/// Says in plain words how a command over folders ended, where there is something to say. Where memory is refused for it, the status and the fault line tell
/// alone.
pub fn say<R: Runtime + AllocGlobal>(
    rt: &R,
    task: &Task,
    ended: &Ended,
    source: &FolderShelf<R>,
    target: &FolderDepot<R>,
) {
    match ended.status {
        Status::SourceDevice => say_why(rt, task, ended, target, Cause::of(source.failure())),
        Status::TargetDevice => say_why(rt, task, ended, target, Cause::of(target.failure())),
        _ => say_why(rt, task, ended, target, ended.cause()),
    }
}

/// The same, where this has failed, if anything has.
fn say_why<R: Runtime + AllocGlobal>(
    rt: &R,
    task: &Task,
    ended: &Ended,
    target: &FolderDepot<R>,
    cause: Cause,
) {
    match text_of(rt, task, ended, cause) {
        Some(text) => explain(rt, task, ended, text, cause, target.copied()),
        None => note(rt, task, target.has_changed()),
    }
}

/// Says in plain words how a drill ended, whose target lies in memory.
pub fn say_of_drill<R: Runtime + AllocGlobal>(rt: &R, task: &Task, ended: &Ended) {
    let cause = ended.cause();
    if let Some(text) = text_of(rt, task, ended, cause) {
        advise_of(rt, rt.alloc(), text, Side::Source, cause);
    }
}

/// The text for the end of a command, `None` where it is done.
fn text_of<R: Runtime>(rt: &R, task: &Task, ended: &Ended, cause: Cause) -> Option<&'static str> {
    let presence = presence(rt, task.places.of(side_of(&ended.status)));
    let ending = Ending {
        command: name_of(task.words),
        presence,
        cause,
    };
    advice(&ended.status, ending)
}

/// Prints the line for the end of a command that isn't done, with the archive that doesn't read, and what was copied before.
fn explain<R: Runtime + AllocGlobal>(
    rt: &R,
    task: &Task,
    ended: &Ended,
    text: &str,
    cause: Cause,
    copied: &Copied,
) {
    let side = side_of(&ended.status);
    let Ok(mut line) = filled(rt.alloc(), text, Filling { side, cause }) else {
        return;
    };
    let whole = push_archive(rt, task, ended, &mut line);
    if whole.is_ok() && push_copied(rt.alloc(), copied, &mut line).is_ok() {
        advise(rt, line.as_str());
    }
}

/// Appends which archive it is that doesn't read, where that is known.
fn push_archive<R: Runtime + AllocGlobal>(
    rt: &R,
    task: &Task,
    ended: &Ended,
    line: &mut String,
) -> Result<(), AllocError> {
    let Some(name) = archive_of_status(rt, task, ended) else {
        return Ok(());
    };
    line.push_str("; what doesn't read is of the archive ")?;
    push_escaped(rt.alloc(), name.as_slice(), line)
}

/// Appends how many archives were copied, and the last of them, where one was.
fn push_copied(alloc: Global, copied: &Copied, line: &mut String) -> Result<(), AllocError> {
    match copied.count() {
        0 => return Ok(()),
        1 => line.push_str("; one archive was copied before that and stays, ")?,
        count => {
            let words = format!(in alloc;
                "; {count} archives were copied before that and stay, the last of them "
            )?;
            line.push_str(words.as_str())?;
        }
    }
    push_escaped(alloc, copied.last(), line)?;
    line.push_str(", and the same words go on behind it")
}

/// Says what is to be known behind a command that is done, which has written to the target or not.
fn note<R: Runtime + AllocGlobal>(rt: &R, task: &Task, has_changed: bool) {
    match name_of(task.words) {
        "delete" | "tag-archives" | "compact" if has_changed && has_index(rt, task.places.target) =>
            {
                advise(rt, OUTDATED);
            }
        "init" => note_key(rt),
        "make-key" => advise(rt, NEW_KEY_FILE),
        _ => {}
    }
}

/// Says which key a new repository has.
fn note_key<R: Runtime + AllocGlobal>(rt: &R) {
    match target_key_file(rt) {
        Some(path) => note_key_file(rt, rt.alloc(), path.as_str()),
        None => advise(rt, NEW_KEY),
    }
}

/// Says which key file a new repository has its key of. Where memory is refused for it, nothing is said.
fn note_key_file<R: Runtime>(rt: &R, alloc: Global, path: &str) {
    let mut line = String::new(alloc);
    if push_key_file(alloc, path, &mut line).is_ok() {
        advise(rt, line.as_str());
    }
}

/// Appends the line on the key file at this path.
fn push_key_file(alloc: Global, path: &str, line: &mut String) -> Result<(), AllocError> {
    line.push_str("TARGET's key is that of the key file ")?;
    push_escaped(alloc, path.as_bytes(), line)?;
    line.push_str(
        ", which BORG_KEY_FILE names: keep a copy of it elsewhere, and use it for no other repository",
    )
}

/// Prints a line in plain words of one of the repositories. Where memory is refused for it, the status and the fault line tell alone.
pub fn advise_of<R: Runtime>(rt: &R, alloc: Global, text: &str, side: Side, cause: Cause) {
    if let Ok(line) = filled(alloc, text, Filling { side, cause }) {
        advise(rt, line.as_str());
    }
}
