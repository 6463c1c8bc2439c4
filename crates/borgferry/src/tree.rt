//! What a restoring that ended before its end means and what to do about it, in plain words. A name in braces stands for a word of the source.

ghost use Rattle.std.specs.Prelude.{◌≡◌, ◌↔◌, IsNone};
ghost use Rattle.ferry_run_restore.specs.declared.restored.Restored.TheVariants as TheRestored;

use crate::advice::{MEMORY, MISSING, OUTPUT};
use crate::refusal::{DEVICE, of_repo};
use crate::side::{Cause, push_escaped};
use ferry_real::Presence;
use ferry_run_restore::Restored;
use ferry_tree::PlaceFault;
use std::alloc::{AllocError, Global};

const FORM: &str =
    "the form is borgferry SOURCE FOLDER restore NAME; a NAME that begins with -- stands behind --";

const UNNAMED: &str =
    "FOLDER is - or empty, which stands for no folder: name the folder that the archive is to be restored in";

const TREE: &str =
    "{file} can't be made{why}: see that you may write FOLDER, that its disk has room and that it takes names of this length; what lies in front of it is in FOLDER";

const NO_PARENT: &str =
    "the folder {file} isn't there, in which FOLDER is to be made: make it first, or see how FOLDER is spelled, where a ~ in quotes stays as it is";

const FOREIGN: &str =
    ", or the target of the link there, isn't UTF-8, and so can't be made here: borg extract makes it; what lies in front of it is in FOLDER";

const NOT_EMPTY: &str =
    "FOLDER has something in it, and nothing is written over or beside it: name a folder that is empty or isn't there";

const PATH: &str =
    "the path of this item has a part that is empty, . or .., or a zero byte, so that it leads nowhere or out of FOLDER: don't trust the archive, look at it with list NAME; what lies in front of it is in FOLDER";

const MODE: &str =
    "this item has no mode from 0 to 65535, so whether it is a file, a folder or a link isn't known: see what borg list --json-lines says of it; what lies in front of it is in FOLDER";

const LINK: &str =
    "this link has no target, or the file that it is a hard link of doesn't lie in front of it: see what borg list --json-lines says of it; what lies in front of it is in FOLDER";

const PARENT: &str =
    "this path leads through a file or a link of the archive, and nothing is made behind a link, which may lead out of FOLDER: borg extract SOURCE::NAME PATH shows what is in it; what lies in front of it is in FOLDER";

/// The text for a status, without its end, where a restoring ended with one.
///
/// `source` says whether the folder of the source is there, `folder` whether that of the tree is. `None` where the archive is restored.
pub fn advice_of(
    ended: &Restored,
    source: Presence,
    folder: Presence,
    cause: Cause,
) -> Option<&'static str>
    ensures said { IsNone result ↔ (ended.now ≡ TheRestored.Done) }
{
    match ended {
        Restored::Done => None,
        Restored::Usage(_) => Some(FORM),
        Restored::Memory => Some(MEMORY),
        Restored::SourceDevice => Some(DEVICE),
        Restored::OutputDevice => Some(OUTPUT),
        Restored::Source(fault) => Some(of_repo(fault, source)),
        Restored::Place(_, fault) => Some(of_place(*fault)),
        Restored::NotFound(_) => Some(MISSING),
        Restored::TreeDevice => Some(of_tree(folder, cause)),
        Restored::NotEmpty => Some(NOT_EMPTY),
    }
}

/// An item without a place.
fn of_place(fault: PlaceFault) -> &'static str {
    match fault {
        PlaceFault::Path => PATH,
        PlaceFault::Mode => MODE,
        PlaceFault::Source => LINK,
        PlaceFault::Parent => PARENT,
    }
}

/// A tree that failed.
fn of_tree(folder: Presence, cause: Cause) -> &'static str {
    match folder {
        Presence::Unnamed => UNNAMED,
        Presence::Absent if cause.is_absence() => NO_PARENT,
        Presence::Absent | Presence::There => TREE,
    }
}

/// The text, without its end, where a path, or the target of the symbolic link there, isn't UTF-8.
pub fn foreign_line(alloc: Global, path: &[u8]) -> Result<String, AllocError> {
    let mut line = String::from_str(alloc, "the path ")?;
    push_escaped(alloc, path, &mut line)?;
    line.push_str(FOREIGN)?;
    Ok(line)
}
