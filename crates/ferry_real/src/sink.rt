//! The device over standard output.
ghost use Rattle.std.specs.Prelude.{None};

use crate::failure::{Failure, OUTPUT, Word};
use crate::progress::Progress;
use ferry_disk::{Sink, SinkFault};
use ferry_layout::{count_sink, sink_fault, write_all};
use std::cell::OnceCell;
use std::io;
use std::rc::Rc;
use std::rt::Runtime;

/// Standard output. It tells nothing of what was written, keeps nothing back, and counts its faults.
#[derive(Drop)]
pub struct StdSink<R: Runtime> {
    rt: R,
    progress: Rc<Progress<R>>,
    faults: u64,
    /// No contract knows what is in it.
    first: OnceCell<Failure>,
    last: LastLine,
}

/// The longest line that is kept, in bytes.
const LONGEST: usize = 128;

/// The last piece that was written to an output, where it isn't longer than 128 bytes.
#[derive(Clone, Copy)]
pub struct LastLine {
    bytes: [u8; LONGEST],
    count: usize,
}

impl LastLine {
    /// None yet.
    fn new() -> LastLine {
        LastLine {
            bytes: [0; LONGEST],
            count: 0,
        }
    }

    /// This piece, or none where it is longer.
    fn of(piece: &[u8]) -> LastLine {
        let mut line = LastLine::new();
        if let Some(room) = line.bytes.get_mut(..piece.len()) {
            room.copy_from_slice(piece);
            line.count = piece.len();
        }
        line
    }

    /// Its bytes, none where there is none.
    pub fn as_slice(&self) -> &[u8] {
        self.bytes.get(..self.count).unwrap_or(&[])
    }
}

impl<R: Runtime> StdSink<R> {
    /// Standard output. The bytes that are written count into `progress`.
    pub fn new(rt: R, progress: Rc<Progress<R>>) -> StdSink<R> {
        StdSink {
            rt,
            progress,
            faults: 0,
            first: OnceCell::new(),
            last: LastLine::new(),
        }
    }

    /// What was written last.
    pub fn last(&self) -> LastLine {
        self.last
    }

    /// What failed first, and why.
    pub fn failure(&self) -> Option<&Failure> {
        self.first.get()
    }
}

/// What an answer of the system to a piece is to a sink. Why it failed is noted, where it did.
fn noted(first: &OnceCell<Failure>, written: io::Result<()>) -> Result<(), SinkFault> {
    match written {
        Ok(()) => Ok(()),
        Err(error) => {
            let _ = first.set(Failure::named(OUTPUT, Word::of(&error)));
            Err(sink_fault(&error))
        }
    }
}

impl<R: Runtime> Sink for StdSink<R> {
    ghost written = { λ _. None };

    ghost faults = { λ s. s.faults };

    fn write(&mut self, bytes: &[u8]) -> Result<(), SinkFault> {
        self.progress.before_piece();
        let written = write_all(&mut io::writer(&self.rt), bytes);
        let outcome = noted(&self.first, written);
        if outcome.is_ok() {
            self.last = LastLine::of(bytes);
            self.progress.add_written(bytes.len());
        }
        count_sink(&mut self.faults, outcome)
    }
}
