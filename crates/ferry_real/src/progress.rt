//! The line on a terminal that says how far a run is.

use crate::archives::Archives;
use std::alloc::{AllocError, Global};
use std::cell::{Cell, OnceCell};
use std::rc::Rc;
use std::rt::Runtime;
use std::time::{Duration, Instant};

/// How long a run lasts before the line is shown, in milliseconds.
const FIRST: u64 = 500;

/// How long the line stands before it is written again, in milliseconds.
const INTERVAL: u64 = 200;

/// The bytes of a megabyte.
const MEGABYTE: u64 = 1_000_000;

/// Which of the program's streams lead to a terminal.
#[derive(Clone, Copy, Debug, PartialEq, Eq)]
pub struct Terminals {
    /// Whether standard output does.
    pub output: bool,
    /// Whether standard error does.
    pub error: bool,
}

/// The columns that the line has at most.
const COLUMNS: usize = 79;

/// How much the devices of one run have read and written, and which archive is on its way. Where standard
/// error is a terminal, a run of half a second or more shows it there in one line, which is written again
/// about five times a second; elsewhere no clock is looked at and no byte is written.
///
/// The devices of a run share it and count into it. No contract knows of it, and a line that isn't taken is no failure.
#[derive(Drop)]
pub struct Progress<R: Runtime> {
    rt: R,
    alloc: Global,
    /// When the run began; `None` where no line is shown, or none any more.
    began: Cell<Option<Instant>>,
    /// Whether standard output leads to a terminal too, where the line would stand among what it says.
    is_shared: bool,
    /// The bytes read from both repositories.
    read: Cell<u64>,
    /// Those of them that were read to open a repository, whose log is read to its end.
    log: Cell<u64>,
    /// Whether such bytes were read last.
    is_opening: Cell<bool>,
    /// The archives that the command takes, where they are known; no contract knows what is in it.
    expected: OnceCell<Archives>,
    /// How many archives were told.
    ended: Cell<usize>,
    /// The bytes written to the target and to standard output.
    written: Cell<u64>,
    /// How long after the beginning the line is written next.
    due: Cell<Duration>,
    /// Whether the line stands on the terminal.
    is_shown: Cell<bool>,
}

impl<R: Runtime> Progress<R> {
    /// The progress of a run that begins now. Where the clock can't be read no line is shown.
    pub fn new(rt: R, alloc: Global, terminals: Terminals) -> Result<Rc<Progress<R>>, AllocError> {
        let began = if terminals.error {
            Instant::now(&rt).ok()
        } else {
            None
        };
        let progress = Progress {
            rt,
            alloc,
            began: Cell::new(began),
            is_shared: terminals.output,
            read: Cell::new(0),
            log: Cell::new(0),
            is_opening: Cell::new(false),
            expected: OnceCell::new(),
            ended: Cell::new(0),
            written: Cell::new(0),
            due: Cell::new(Duration::from_millis(FIRST)),
            is_shown: Cell::new(false),
        };
        Ok(Rc::new(alloc, progress)?)
    }

    /// Takes the names of the archives that the command takes, in their order. Where memory is refused for
    /// them, the line has none.
    pub fn expect(&self, names: &[String]) {
        if self.began.get().is_some()
            && let Ok(archives) = Archives::new(self.alloc, names)
        {
            let _ = self.expected.set(archives);
        }
    }

    /// Counts bytes that were read, and writes the line where it is due. `is_log` says whether they were read
    /// to open a repository.
    pub fn add_read(&self, count: usize, is_log: bool) {
        add(&self.read, count);
        if is_log {
            add(&self.log, count);
        }
        self.is_opening.set(is_log);
        self.look();
    }

    /// Counts an archive whose end a line tells.
    pub fn count_archive(&self, line: &[u8]) {
        if line.starts_with(b"transferred ") || line.starts_with(b"present ") {
            self.ended.set(self.ended.get().saturating_add(1));
        }
    }

    /// Counts bytes that were written, and writes the line where it is due.
    pub fn add_written(&self, count: usize) {
        add(&self.written, count);
        self.look();
    }

    /// Makes room for a whole line of standard output, where it goes to a terminal.
    pub fn before_line(&self) {
        if self.is_shared {
            self.erase();
        }
    }

    /// Makes room for a piece of standard output, where it goes to a terminal. A piece may end within a line, so the progress isn't shown
    /// any more.
    pub fn before_piece(&self) {
        if self.is_shared {
            self.end();
        }
    }

    /// Takes the line away for good.
    pub fn end(&self) {
        self.erase();
        self.began.set(None);
    }

    /// Takes the line away, where it stands.
    fn erase(&self) {
        if self.is_shown.replace(false) {
            let _ = self.rt.eprint("\r\x1b[K");
        }
    }

    /// Writes the line where it is due.
    fn look(&self) {
        if let Some(began) = self.began.get()
            && let Ok(elapsed) = began.elapsed(&self.rt)
            && elapsed >= self.due.get()
        {
            let next = elapsed.saturating_add(Duration::from_millis(INTERVAL));
            self.due.set(next);
            self.is_shown.set(true);
            self.show(elapsed.as_secs());
        }
    }

    /// Writes the line, in one call of the system, over the one that stands there. Where memory is refused
    /// for it, it isn't written.
    fn show(&self, seconds: u64) {
        if let Ok(line) = self.line(seconds) {
            let _ = eprint!(self.rt; "\r{line}\x1b[K");
        }
    }

    /// The line, which has no control character.
    fn line(&self, seconds: u64) -> Result<String, AllocError> {
        if self.is_opening.get() {
            let log = self.log.get() / MEGABYTE;
            return Ok(format!(in self.alloc; "reading the log: {log} MB, {seconds} s")?);
        }
        let read = self.read.get() / MEGABYTE;
        let written = self.written.get() / MEGABYTE;
        let counts = format!(in self.alloc; "read {read} MB, written {written} MB, {seconds} s")?;
        self.behind_archive(counts)
    }

    /// A line, with the archive in front that is on its way, where it is known.
    fn behind_archive(&self, counts: String) -> Result<String, AllocError> {
        let ended = self.ended.get();
        if let Some(archives) = self.expected.get()
            && archives.has(ended)
        {
            return archives.in_front(self.alloc, ended, counts.as_str(), COLUMNS);
        }
        match ended {
            0 => Ok(counts),
            1 => Ok(format!(in self.alloc; "1 archive done: {counts}")?),
            _ => Ok(format!(in self.alloc; "{ended} archives done: {counts}")?),
        }
    }
}

/// Adds to a count, which stays at the greatest number.
fn add(sum: &Cell<u64>, count: usize) {
    sum.set(sum.get().saturating_add(count as u64));
}
