//! The lines of a restoring.
ghost use Rattle.std.specs.Prelude.{◌≡◌, IfOk};
ghost use Rattle.ferry_run_restore.specs.Restored.{counts_line, place_line};
ghost use Rattle.ferry_run_restore.specs.Restoring.{Reports};
ghost use Rattle.ferry_status.specs.Devices.{written};
ghost use Rattle.ferry_status.specs.Output.{IsSent};
ghost use Rattle.ferry_status.specs.Status.{missing_line};

use crate::restored::{Restored, place_number};
use ferry_base::Bytes;
use ferry_disk::Sink;
use ferry_status::{Refusal, Status, report as report_status};
use ferry_text::{write_number, write_text};
use ferry_tree::{Counts, PlaceFault};
use std::alloc::{AllocError, Global};

/// Writes the fault line of a status that has one. Where the output doesn't take it, the status tells alone.
pub(crate) fn report<K: Sink>(alloc: Global, ended: &Restored, out: &mut K)
    ensures { Reports ended.now (written (K.written out.old) (K.faults out.old)) (written (K.written out.new) (K.faults out.new)) }
{
    match ended {
        Restored::Done | Restored::OutputDevice => {}
        Restored::Usage(word) => report_status(alloc, &Status::Usage(*word), out),
        Restored::Memory => report_status(alloc, &Status::Memory, out),
        Restored::SourceDevice => report_status(alloc, &Status::SourceDevice, out),
        Restored::Source(fault) => {
            report_status(alloc, &Status::SourceRefused(Refusal::Repo(*fault)), out)
        }
        Restored::Place(path, fault) => report_place(alloc, path.as_slice(), *fault, out),
        Restored::NotFound(name) => report_missing(alloc, name.as_slice(), out),
        Restored::TreeDevice => send_line(b"tree failed\n", out),
        Restored::NotEmpty => send_line(b"not empty\n", out),
    }
}

/// Writes a line. Where the output doesn't take it, nothing says so.
fn send_line<K: Sink>(line: &[u8], out: &mut K)
    ensures { IsSent line.now (written (K.written out.old) (K.faults out.old)) (written (K.written out.new) (K.faults out.new)) }
{
    let _ = out.write(line);
}

/// Writes the line of a name that no archive has, where there is memory for it.
fn report_missing<K: Sink>(alloc: Global, name: &[u8], out: &mut K)
    ensures { IsSent (missing_line name.now) (written (K.written out.old) (K.faults out.old)) (written (K.written out.new) (K.faults out.new)) }
{
    match Vec::from_slice(alloc, name) {
        Ok(name) => report_status(alloc, &Status::NotFound(Bytes::new(name)), out),
        Err(_) => {}
    }
}

/// Writes the line of an item without a place, where there is memory for it.
fn report_place<K: Sink>(alloc: Global, path: &[u8], fault: PlaceFault, out: &mut K)
    ensures { IsSent (place_line path.now fault) (written (K.written out.old) (K.faults out.old)) (written (K.written out.new) (K.faults out.new)) }
{
    match place_line(alloc, path, fault) {
        Ok(line) => send_line(&line, out),
        Err(_) => {}
    }
}

/// The line of an item without a place.
fn place_line(alloc: Global, path: &[u8], fault: PlaceFault) -> Result<Vec<u8>, AllocError>
    ensures line { IfOk result (λ line. line.items ≡ place_line path.now fault) }
{
    let mut line = Vec::from_slice(alloc, b"source refused: place ")?;
    write_number(u128::from(place_number(fault)), &mut line)?;
    line.push(b' ')?;
    write_text(path, &mut line)?;
    line.push(b'\n')?;
    Ok(line)
}

/// The line of what was restored.
pub(crate) fn counts_line(alloc: Global, counts: &Counts) -> Result<Vec<u8>, AllocError>
    ensures line { IfOk result (λ line. line.items ≡ counts_line counts.now) }
{
    let mut line = Vec::from_slice(alloc, b"restored ")?;
    write_number(u128::from(counts.files), &mut line)?;
    line.extend_from_slice(b" files ")?;
    write_number(u128::from(counts.folders), &mut line)?;
    line.extend_from_slice(b" folders ")?;
    write_number(u128::from(counts.links), &mut line)?;
    line.extend_from_slice(b" links ")?;
    write_number(u128::from(counts.skipped), &mut line)?;
    line.extend_from_slice(b" skipped\n")?;
    Ok(line)
}
