//! The same words once for each call that fails, and for each stop.

ghost use Rattle.std.specs.Prelude.{◌≡◌, []};

use crate::case::{Case, numbers, run_over};
use crate::devices::{Device, acts_of, target_of};
use crate::ran::run_told;
use crate::stop::{Stop, left_of};
use anyhow::Result;
use ferry_disk::{MemoryDepot, Name, read_whole};
use std::alloc::{AllocError, Global};

/// What followed from each of the numbers so far, a line for those of one text in a row.
#[derive(Drop)]
pub struct Rows {
    first: u64,
    last: u64,
    text: String,
}

impl Rows {
    pub fn new(alloc: Global) -> Rows {
        Rows {
            first: 0,
            last: 0,
            text: String::new(alloc),
        }
    }

    /// One more number.
    fn add(&mut self, number: u64, text: String, page: &mut String) -> Result<(), AllocError> {
        if self.text.as_str() != text.as_str() {
            self.end(page)?;
            self.first = number;
            self.text = text;
        }
        self.last = number;
        Ok(())
    }

    /// Puts the numbers of the last text behind the page.
    fn end(&self, page: &mut String) -> Result<(), AllocError> {
        if self.text.is_empty() {
            return Ok(());
        }
        writeln!(page, "  {} to {}: {}", self.first, self.last, self.text)
    }
}

/// Runs the words once for each call of a device, which fails, and behind it once more over what is left, where no call fails.
pub fn each_call(
    alloc: Global,
    case: &Case,
    words: &[String],
    device: Device,
    page: &mut String,
) -> Result<()> {
    let mut rows = Rows::new(alloc);
    for call in 1..1000u64 {
        let mut text = String::new(alloc);
        if !failed_at(alloc, case, words, (device, call), &mut text)? {
            break;
        }
        rows.add(call, text, page)?;
    }
    rows.end(page)?;
    Ok(())
}

/// Puts what a run did of whose device a call fails, and what the next one did, behind the text; answers whether there was such a call.
fn failed_at(
    alloc: Global,
    case: &Case,
    words: &[String],
    failing: (Device, u64),
    text: &mut String,
) -> Result<bool> {
    let numbers = numbers(alloc, &[failing], Device::Target)?;
    let mut target = target_of(alloc, &case.target, numbers)?;
    if !fails_at(alloc, case, words, failing, &mut target, text)? {
        return Ok(false);
    }
    then(alloc, case, words, target, text)?;
    Ok(true)
}

/// Puts what a run did of whose device a call fails behind the text, and whether that was its last; answers whether there was such a call.
fn fails_at(
    alloc: Global,
    case: &Case,
    words: &[String],
    failing: (Device, u64),
    target: &mut MemoryDepot,
    text: &mut String,
) -> Result<bool, AllocError>
    requires begun { target.old.history.acts ≡ [] }
{
    let (device, call) = failing;
    let ran = run_told(alloc, case, words, &[failing], target, "; ", text)?;
    let calls = ran.calls[device as usize];
    text.push_str(if calls == call {
        "; its last call; "
    } else {
        "; not its last call; "
    })?;
    Ok(call <= calls)
}

/// Puts what the words do over what a run left behind the text.
fn then(
    alloc: Global,
    case: &Case,
    words: &[String],
    left: MemoryDepot,
    text: &mut String,
) -> Result<()> {
    let mut next = left.again()?;
    text.push_str("then ")?;
    run_told(alloc, case, words, &[], &mut next, "; ", text)?;
    push_nonce(alloc, next, text)
}

/// Puts the text of a target's file `nonce` behind the text, where it is there.
fn push_nonce(alloc: Global, target: MemoryDepot, text: &mut String) -> Result<()> {
    let mut target = target.again()?;
    let mut nonce = Vec::new(alloc);
    read_whole(&mut target, Name::Nonce, &mut nonce)?;
    if !nonce.is_empty() {
        text.push_str("; nonce ")?;
        for byte in &nonce {
            text.push(char::from(*byte))?;
        }
    }
    Ok(())
}

/// Stops the words at each act, and runs them again over what the stop leaves.
pub fn each_stop(
    alloc: Global,
    case: &Case,
    words: &[String],
    stop: Stop,
    page: &mut String,
) -> Result<()> {
    let mut rows = Rows::new(alloc);
    for acts in 0..1000usize {
        let mut text = String::new(alloc);
        if !stopped_at(alloc, case, words, Stop { acts, ..stop }, &mut text)? {
            break;
        }
        rows.add(acts as u64, text, page)?;
    }
    rows.end(page)?;
    Ok(())
}

/// Puts what the words do over what a stop left of them behind the text; answers whether they make so many acts.
fn stopped_at(
    alloc: Global,
    case: &Case,
    words: &[String],
    stop: Stop,
    text: &mut String,
) -> Result<bool> {
    let target = run_of(alloc, case, words)?;
    let (acts, _) = acts_of(&target);
    if acts < stop.acts as u64 {
        return Ok(false);
    }
    match left_of(alloc, target, stop)? {
        Some(left) => then(alloc, case, words, left, text)?,
        None => text.push_str("there is no such stop")?,
    }
    Ok(true)
}

/// The target of a case behind a run of which no call fails.
pub fn run_of(alloc: Global, case: &Case, words: &[String]) -> Result<MemoryDepot, AllocError> {
    let mut target = target_of(alloc, &case.target, Vec::new(alloc))?;
    run_over(alloc, case, words, &[], &mut target)?;
    Ok(target)
}
