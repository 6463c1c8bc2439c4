//! A command between two repositories: its secrets, its devices, and what is said when it has ended.
//!
//! Each function makes one value that is given up at the end, and lends it to the next: where the next can't make its own, there is
//! one value alone to be given up.

ghost use Rattle.std.specs.Prelude.{◌≡◌, [], IfSome};

use crate::after::{say, say_of_drill};
use crate::before::look_before;
use crate::fault::StartFault;
use crate::secrets::{Asked, secrets};
use crate::side::{Cause, Side};
use ferry_disk::{Depot, MemoryDepot, Shelf, Sink};
use ferry_real::{
    FolderDepot, FolderShelf, LastLine, Progress, StdSink, SystemEntropy, Terminals, Word,
};
use ferry_top::{Secrets, Status, run};
use ferry_words::{Usage, read_words};
use std::alloc::{AllocError, AllocGlobal, Global};
use std::rc::Rc;
use std::rt::Runtime;

/// The command that has a target of its own.
const DRILL: &str = "drill";

/// The words that name the two repositories.
#[derive(Clone, Copy)]
pub struct Places<'a> {
    pub source: &'a str,
    pub target: &'a str,
}

impl<'a> Places<'a> {
    /// The word for the repository of a side.
    pub fn of(self, side: Side) -> &'a str {
        match side {
            Side::Source => self.source,
            Side::Target => self.target,
        }
    }
}

/// What a command is told: the places, its own words, and the secrets.
#[derive(Clone, Copy)]
pub struct Task<'a> {
    pub places: Places<'a>,
    pub words: &'a [String],
    pub secrets: &'a Secrets,
}

/// How a command ended: its status, in words why standard output or the random bytes failed, and what it printed last.
#[derive(Drop)]
pub struct Ended {
    pub status: Status,
    why: Option<String>,
    pub last: LastLine,
}

/// The status of a command, and in words why the random bytes failed.
#[derive(Drop)]
struct Outcome {
    status: Status,
    why: Option<String>,
}

impl Ended {
    /// Why standard output or the random bytes failed.
    pub fn cause(&self) -> Cause<'_> {
        match &self.why {
            Some(why) => Cause::of_text(why.as_str()),
            None => Cause::unknown(),
        }
    }
}

/// Runs a command between the repositories at two places. The secrets are read before anything else is looked at.
pub fn run_command<R: Runtime + AllocGlobal>(
    rt: &R,
    terminals: Terminals,
    places: Places,
    words: &[String],
) -> Result<u8, StartFault> {
    let secrets = secrets(rt, asked_by(rt.alloc(), words)?)?;
    let task = Task {
        places,
        words,
        secrets: &secrets,
    };
    run_task(rt, terminals, &task)
}

/// Of which repositories a command asks for the passphrase: of none where the words are those of no command.
fn asked_by(alloc: Global, words: &[String]) -> Result<Asked, StartFault> {
    match read_words(alloc, words) {
        Ok(command) => Ok(Asked::by(&command)),
        Err(Usage::Memory) => Err(StartFault::Memory),
        Err(Usage::Word(_)) => Ok(Asked::NONE),
    }
}

/// Runs a command, with the line that says how far it is, behind what is looked at before.
fn run_task<R: Runtime + AllocGlobal>(
    rt: &R,
    terminals: Terminals,
    task: &Task,
) -> Result<u8, StartFault> {
    let names = look_before(rt, task)?;
    let progress = Progress::new(rt.clone()?, rt.alloc(), terminals)?;
    progress.expect(names);
    with_source(rt, task, &progress)
}

/// Runs a command, with the files of the source.
fn with_source<R: Runtime + AllocGlobal>(
    rt: &R,
    task: &Task,
    progress: &Rc<Progress<R>>,
) -> Result<u8, StartFault> {
    let own = rt.clone()?;
    let mut source = FolderShelf::new(own, rt.alloc(), task.places.source, progress.clone()?)?;
    if name_of(task.words) == DRILL {
        drill(rt, task, progress, &mut source)
    } else {
        with_target(rt, task, progress, &mut source)
    }
}

/// Runs a drill, whose target is in memory and prints no line.
fn drill<R: Runtime + AllocGlobal>(
    rt: &R,
    task: &Task,
    progress: &Rc<Progress<R>>,
    source: &mut FolderShelf<R>,
) -> Result<u8, StartFault> {
    let alloc = rt.alloc();
    let mut target = MemoryDepot::new(alloc, Vec::new(alloc), Vec::new(alloc))?;
    over_memory(rt, task, progress, source, &mut target)
}

/// Runs a drill over its target, and says how that ended.
fn over_memory<R: Runtime + AllocGlobal, D: Depot>(
    rt: &R,
    task: &Task,
    progress: &Rc<Progress<R>>,
    source: &mut FolderShelf<R>,
    target: &mut D,
) -> Result<u8, StartFault>
    requires begun { IfSome (D.told target.old) (λ t. t.history.acts ≡ []) }
{
    let ended = with_output(rt, task, progress, source, target)?;
    progress.end();
    say_of_drill(rt, task, &ended);
    Ok(ended.status.number())
}

/// Runs a command, with the files of both.
fn with_target<R: Runtime + AllocGlobal>(
    rt: &R,
    task: &Task,
    progress: &Rc<Progress<R>>,
    source: &mut FolderShelf<R>,
) -> Result<u8, StartFault> {
    let own = rt.clone()?;
    let mut target = FolderDepot::new(own, rt.alloc(), task.places.target, progress.clone()?)?;
    over_folders(rt, task, progress, source, &mut target)
}

/// Runs a command over both folders, and says how that ended.
fn over_folders<R: Runtime + AllocGlobal>(
    rt: &R,
    task: &Task,
    progress: &Rc<Progress<R>>,
    source: &mut FolderShelf<R>,
    target: &mut FolderDepot<R>,
) -> Result<u8, StartFault> {
    let ended = with_output(rt, task, progress, source, target)?;
    progress.end();
    say(rt, task, &ended, source, target);
    Ok(ended.status.number())
}

/// Runs a command, with standard output.
fn with_output<R: Runtime + AllocGlobal, S: Shelf, D: Depot>(
    rt: &R,
    task: &Task,
    progress: &Rc<Progress<R>>,
    source: &mut S,
    target: &mut D,
) -> Result<Ended, AllocError>
    requires begun { IfSome (D.told target.old) (λ t. t.history.acts ≡ []) }
{
    let own = rt.clone()?;
    let mut out = StdSink::new(own, progress.clone()?);
    let Outcome { status, why } = with_entropy(rt, task, source, target, &mut out)?;
    let why = match out.failure() {
        Some(failure) => words_of(rt.alloc(), failure.word()),
        None => why,
    };
    Ok(Ended {
        status,
        why,
        last: out.last(),
    })
}

/// Runs a command, with the system's random bytes.
fn with_entropy<R: Runtime + AllocGlobal, S: Shelf, D: Depot, O: Sink>(
    rt: &R,
    task: &Task,
    source: &mut S,
    target: &mut D,
    out: &mut O,
) -> Result<Outcome, AllocError>
    requires begun { IfSome (D.told target.old) (λ t. t.history.acts ≡ []) }
{
    let mut entropy = SystemEntropy::new(rt.clone()?);
    let status = run(
        rt.alloc(),
        task.words,
        task.secrets,
        source,
        target,
        &mut entropy,
        out,
    );
    let why = match entropy.failure() {
        Some(failure) => words_of(rt.alloc(), failure.word()),
        None => None,
    };
    Ok(Outcome { status, why })
}

/// Why something failed, in words; none where memory is refused for them.
fn words_of(alloc: Global, word: Word) -> Option<String> {
    format!(in alloc; "{word}").ok()
}

/// The name of a command, its first word.
pub fn name_of(words: &[String]) -> &str {
    match words {
        [name, ..] => name.as_str(),
        [] => "",
    }
}
