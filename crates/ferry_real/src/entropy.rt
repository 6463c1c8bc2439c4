//! The device over the system's random bytes.
ghost use Rattle.std.specs.Prelude.{None};

use crate::failure::{Failure, Word};
use ferry_disk::{Entropy, EntropyFault};
use ferry_layout::{count_entropy, fill};
use std::cell::OnceCell;
use std::fs::File;
use std::io;
use std::rt::Runtime;

/// The file with the system's random bytes.
const RANDOM_BYTES: &str = "/dev/urandom";

/// The system's random bytes. It tells nothing of what it handed out, and counts its faults.
#[derive(Drop)]
pub struct SystemEntropy<R: Runtime> {
    rt: R,
    /// The file that they are read from, which stays open.
    opened: Option<R::File>,
    faults: u64,
    /// No contract knows what is in it.
    first: OnceCell<Failure>,
}

impl<R: Runtime> SystemEntropy<R> {
    /// The system's random bytes; nothing is opened yet.
    pub fn new(rt: R) -> SystemEntropy<R> {
        SystemEntropy {
            rt,
            opened: None,
            faults: 0,
            first: OnceCell::new(),
        }
    }

    /// What failed first, and why.
    pub fn failure(&self) -> Option<&Failure> {
        self.first.get()
    }
}

/// Fills `into` from the file, which is opened where it isn't open. Where fewer bytes come, and where none do, that is a failure.
fn draw<R: Runtime>(rt: &R, opened: &mut Option<R::File>, into: &mut [u8]) -> Result<(), Word> {
    let mut file = match opened.take() {
        Some(file) => file,
        None => match File::open(rt, RANDOM_BYTES) {
            Ok(file) => file,
            Err(error) => return Err(Word::of(&error)),
        },
    };
    match fill(&mut file, into) {
        Ok(count) if count == into.len() => {
            *opened = Some(file);
            Ok(())
        }
        outcome => Err(word_of(&outcome)),
    }
}

/// Why too few bytes were drawn.
fn word_of(outcome: &io::Result<usize>) -> Word {
    match outcome {
        Ok(_) => Word::Text("has ended"),
        Err(error) => Word::of(error),
    }
}

/// Notes why a draw failed, where it did.
fn noted(first: &OnceCell<Failure>, drawn: Result<(), Word>) -> Result<(), EntropyFault> {
    match drawn {
        Ok(()) => Ok(()),
        Err(word) => {
            let _ = first.set(Failure::named(RANDOM_BYTES, word));
            Err(EntropyFault::Failed)
        }
    }
}

impl<R: Runtime> Entropy for SystemEntropy<R> {
    ghost drawn = { λ _. None };

    ghost faults = { λ e. e.faults };

    fn fill(&mut self, into: &mut [u8]) -> Result<(), EntropyFault> {
        let drawn = draw(&self.rt, &mut self.opened, into);
        let outcome = noted(&self.first, drawn);
        count_entropy(&mut self.faults, outcome)
    }
}
