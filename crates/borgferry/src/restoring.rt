//! The command that restores an archive: its secret, its devices, and what is said when it has ended.
//!
//! Each function makes one value that is given up at the end, and lends it to the next: where the next can't make its own, there is
//! one value alone to be given up.

use crate::advice::LOCKED;
use crate::after::advise_of;
use crate::command::Places;
use crate::fault::StartFault;
use crate::places::{is_locked, is_unnamed, presence};
use crate::secrets::source_secret;
use crate::side::{Cause, Side};
use crate::start::advise;
use crate::tree::{advice_of, foreign_line};
use crate::withheld::Withheld;
use ferry_real::{FolderShelf, FolderTree, Ownership, Progress, StdSink, Terminals, ownership_of};
use ferry_run_restore::{Restored, restore};
use ferry_top::Secret;
use ferry_words::read_restore;
use std::alloc::{AllocGlobal, Global};
use std::rc::Rc;
use std::rt::Runtime;

/// What a restoring is told: the two folders, its own words, and the secret of the source.
#[derive(Clone, Copy)]
struct Task<'a> {
    places: Places<'a>,
    words: &'a [String],
    secret: &'a Secret,
}

/// Restores an archive of the repository at the first place in the folder at the second, which is no repository and has no secret. The secret is read before
/// anything else is looked at.
pub fn run_restore<R: Runtime + AllocGlobal>(
    rt: &R,
    terminals: Terminals,
    places: Places,
    words: &[String],
) -> Result<u8, StartFault> {
    let is_asked = read_restore(rt.alloc(), words).is_ok();
    let secret = source_secret(rt, is_asked)?;
    let task = Task {
        places,
        words,
        secret: &secret,
    };
    if is_asked {
        look(rt, places)?;
    }
    with_progress(rt, terminals, &task)
}

/// Restores an archive, with the line that says how far it is.
fn with_progress<R: Runtime + AllocGlobal>(
    rt: &R,
    terminals: Terminals,
    task: &Task,
) -> Result<u8, StartFault> {
    let progress = Progress::new(rt.clone()?, rt.alloc(), terminals)?;
    with_source(rt, task, &progress)
}

/// Looks before an archive is restored: a lock of the source is told, and a folder that others may write is left alone.
fn look<R: Runtime + AllocGlobal>(rt: &R, places: Places) -> Result<(), StartFault> {
    if is_locked(rt, places.source, Side::Source)? {
        advise_of(rt, rt.alloc(), LOCKED, Side::Source, Cause::unknown());
    }
    if is_unnamed(places.target) {
        return Ok(());
    }
    match ownership_of(rt, places.target) {
        Ownership::Foreign | Ownership::Shared => Err(StartFault::Withheld(Withheld::Folder)),
        _ => Ok(()),
    }
}

/// Restores an archive, with the files of the source.
fn with_source<R: Runtime + AllocGlobal>(
    rt: &R,
    task: &Task,
    progress: &Rc<Progress<R>>,
) -> Result<u8, StartFault> {
    let own = rt.clone()?;
    let mut source = FolderShelf::new(own, rt.alloc(), task.places.source, progress.clone()?)?;
    with_tree(rt, task, progress, &mut source)
}

/// Restores an archive, with the folder in which it is.
fn with_tree<R: Runtime + AllocGlobal>(
    rt: &R,
    task: &Task,
    progress: &Rc<Progress<R>>,
    source: &mut FolderShelf<R>,
) -> Result<u8, StartFault> {
    let own = rt.clone()?;
    let mut tree = FolderTree::new(own, rt.alloc(), task.places.target, progress.clone()?)?;
    with_output(rt, task, progress, source, &mut tree)
}

/// Restores an archive, with standard output, and says how that ended.
fn with_output<R: Runtime + AllocGlobal>(
    rt: &R,
    task: &Task,
    progress: &Rc<Progress<R>>,
    source: &mut FolderShelf<R>,
    tree: &mut FolderTree<R>,
) -> Result<u8, StartFault> {
    let own = rt.clone()?;
    let mut out = StdSink::new(own, progress.clone()?);
    let ended = restore(rt.alloc(), task.words, task.secret, source, tree, &mut out);
    progress.end();
    say(rt, task, &ended, source, tree, &out);
    Ok(ended.number())
}

/// What failed in the folder that an archive is restored in.
fn of_tree<R: Runtime>(tree: &FolderTree<R>) -> Cause<'_> {
    match tree.failure() {
        Some(failure) => Cause::of(Some(failure)),
        None => Cause::of_kind("a file, folder or link"),
    }
}

/// Says in plain words why an archive wasn't restored to its end.
fn say<R: Runtime + AllocGlobal>(
    rt: &R,
    task: &Task,
    ended: &Restored,
    source: &FolderShelf<R>,
    tree: &FolderTree<R>,
    out: &StdSink<R>,
) {
    match ended {
        Restored::SourceDevice => explain(rt, task, ended, Cause::of(source.failure())),
        Restored::OutputDevice => explain(rt, task, ended, Cause::of(out.failure())),
        Restored::TreeDevice => say_of_tree(rt, task, ended, tree),
        _ => explain(rt, task, ended, Cause::unknown()),
    }
}

/// Says why something couldn't be made: where a path isn't UTF-8, itself or the target of its link, that is said.
fn say_of_tree<R: Runtime + AllocGlobal>(
    rt: &R,
    task: &Task,
    ended: &Restored,
    tree: &FolderTree<R>,
) {
    match tree.foreign() {
        Some(path) => advise_foreign(rt, rt.alloc(), path),
        None => explain(rt, task, ended, of_tree(tree)),
    }
}

/// Prints the line on a path that isn't UTF-8. Where memory is refused for it, the status and the fault line tell alone.
fn advise_foreign<R: Runtime>(rt: &R, alloc: Global, path: &[u8]) {
    if let Ok(line) = foreign_line(alloc, path) {
        advise(rt, line.as_str());
    }
}

/// Prints the line for the end of a restoring that isn't done.
fn explain<R: Runtime + AllocGlobal>(rt: &R, task: &Task, ended: &Restored, cause: Cause) {
    let source = presence(rt, task.places.source);
    let folder = presence(rt, task.places.target);
    if let Some(text) = advice_of(ended, source, folder, cause) {
        advise_of(rt, rt.alloc(), text, Side::Source, cause);
    }
}
