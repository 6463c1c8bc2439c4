//! The fault lines.
ghost use Rattle.std.specs.Prelude.{◌≡◌, ◌++◌, ℕ, List, IfOk, OnOk, OnErr, codes, decimal, option_map};
ghost use Rattle.ferry_disk.specs.Device.{WritesSome, HasCause, sink_failed};
ghost use Rattle.ferry_status.specs.Status.{usage_line, source_line, taken_line, target_line, missing_line, limit_line, refusal_reason};
ghost use Rattle.ferry_nonce.specs.Fault.{number_of_fault as nonce_number};
ghost use Rattle.ferry_repo.specs.Reason.{reason};
ghost use Rattle.ferry_status.specs.Devices.{written};
ghost use Rattle.ferry_status.specs.Output.{Reports};

use crate::status::{Limit, Refusal, Status};
use ferry_disk::{Sink, SinkFault};
use ferry_nonce::NonceFault;
use ferry_repo::{RepoFault, write_reason};
use ferry_text::{write_number, write_text};
use std::alloc::{AllocError, Global};

/// Writes the fault line of a status that has one. Where the output doesn't take it, the status tells alone.
pub fn report<K: Sink>(alloc: Global, status: &Status, out: &mut K)
    ensures { Reports status.now (written (K.written out.old) (K.faults out.old)) (written (K.written out.new) (K.faults out.new)) }
{
    let _ = match status {
        Status::Done | Status::No | Status::OutputDevice => return,
        Status::Usage(word) => write_usage(alloc, *word, out),
        Status::Memory => out.write(b"memory\n"),
        Status::SourceDevice => out.write(b"source device failed\n"),
        Status::TargetDevice => out.write(b"target device failed\n"),
        Status::EntropyDevice => out.write(b"entropy failed\n"),
        Status::SourceRefused(refusal) => write_line(source_line(alloc, refusal), out),
        Status::TargetRefused(refusal) => write_line(target_line(alloc, refusal), out),
        Status::Taken(name) => write_line(taken_line(alloc, name.as_slice()), out),
        Status::NotFound(what) => write_line(missing_line(alloc, what.as_slice()), out),
        Status::Limit(limit) => out.write(limit_line(*limit)),
    };
}

/// Writes a line, where there was memory for it.
fn write_line<K: Sink>(line: Result<Vec<u8>, AllocError>, out: &mut K) -> Result<(), SinkFault>
    ensures ok { (text : List ℕ) → IfOk line (λ l. l.items ≡ text) → OnOk result (K.written out.new ≡ option_map (λ w. w ++ text) (K.written out.old)) }
    ensures err { (text : List ℕ) → IfOk line (λ l. l.items ≡ text) → OnErr result (WritesSome (K.written out.old) text (K.written out.new)) }
    ensures cause { HasCause sink_failed (K.faults out.old) (K.faults out.new) result }
{
    match line {
        Ok(line) => out.write(&line),
        Err(_) => Err(SinkFault::Memory),
    }
}

/// The line of a name that is taken.
fn taken_line(alloc: Global, name: &[u8]) -> Result<Vec<u8>, AllocError>
    ensures line { IfOk result (λ line. line.items ≡ taken_line name.now) }
{
    let mut line = Vec::from_slice(alloc, b"name taken: ")?;
    write_text(name, &mut line)?;
    line.push(b'\n')?;
    Ok(line)
}

/// The line of a source that is refused.
fn source_line(alloc: Global, refusal: &Refusal) -> Result<Vec<u8>, AllocError>
    ensures line { IfOk result (λ line. line.items ≡ source_line refusal.now) }
{
    let mut line = Vec::from_slice(alloc, b"source refused: ")?;
    append_refusal(refusal, &mut line)?;
    line.push(b'\n')?;
    Ok(line)
}

/// The line of a target that is refused.
fn target_line(alloc: Global, refusal: &Refusal) -> Result<Vec<u8>, AllocError>
    ensures line { IfOk result (λ line. line.items ≡ target_line refusal.now) }
{
    let mut line = Vec::from_slice(alloc, b"target refused: ")?;
    append_refusal(refusal, &mut line)?;
    line.push(b'\n')?;
    Ok(line)
}

/// Appends why files are refused.
fn append_refusal(refusal: &Refusal, line: &mut Vec<u8>) -> Result<(), AllocError>
    ensures reason { OnOk result (line.new.items ≡ line.old.items ++ refusal_reason refusal.now) }
{
    match refusal {
        Refusal::Repo(fault) => append_reason(fault, line),
        Refusal::Nonce(fault) => append_nonce(*fault, line),
        Refusal::Committed => line.extend_from_slice(b"committed"),
    }
}

/// Appends why a file `nonce` is refused.
fn append_nonce(fault: NonceFault, line: &mut Vec<u8>) -> Result<(), AllocError>
    ensures reason { OnOk result (line.new.items ≡ line.old.items ++ (codes "nonce " ++ decimal (nonce_number fault))) }
{
    line.extend_from_slice(b"nonce ")?;
    write_number(u128::from(fault.number()), line)
}

/// The line of a limit that is met.
fn limit_line(limit: Limit) -> &'static [u8]
    ensures { result.now ≡ limit_line limit }
{
    match limit {
        Limit::Nonce => b"limit: nonce\n",
        Limit::Manifest => b"limit: manifest\n",
        Limit::Archive => b"limit: record\n",
        Limit::Segment => b"limit: segment\n",
        Limit::Item => b"limit: item\n",
    }
}

/// Appends the reason of a refusal. A fault of the device, or want of memory, has none.
#[tactic(auto, unfolding(ferry_repo::specs::Reason::reason))]
pub fn append_reason(fault: &RepoFault, line: &mut Vec<u8>) -> Result<(), AllocError>
    ensures reason { OnOk result (line.new.items ≡ line.old.items ++ reason fault.now) }
{
    match fault {
        RepoFault::Device | RepoFault::Memory => Ok(()),
        fault => write_reason(fault, line),
    }
}

/// Writes the line of the first wrong word.
fn write_usage<K: Sink>(alloc: Global, word: u64, out: &mut K) -> Result<(), SinkFault>
    ensures ok { OnOk result (K.written out.new ≡ option_map (λ w. w ++ usage_line word) (K.written out.old)) }
    ensures err { OnErr result (WritesSome (K.written out.old) (usage_line word) (K.written out.new)) }
    ensures cause { HasCause sink_failed (K.faults out.old) (K.faults out.new) result }
{
    match format!(in alloc; "usage: word {word}\n") {
        Ok(line) => out.write(line.as_bytes()),
        Err(_) => Err(SinkFault::Memory),
    }
}

/// The line of what isn't there.
fn missing_line(alloc: Global, what: &[u8]) -> Result<Vec<u8>, AllocError>
    ensures line { IfOk result (λ line. line.items ≡ missing_line what.now) }
{
    let mut line = Vec::from_slice(alloc, b"not found: ")?;
    write_text(what, &mut line)?;
    line.push(b'\n')?;
    Ok(line)
}
