//! The command that verifies the source.
ghost use Rattle.std.specs.Prelude.{◌≡◌, IfOk, string_bytes};
ghost use Rattle.ferry_disk.specs.Device.{KeptWhere, RoseWhere, heard};
ghost use Rattle.ferry_top.specs.Check.{good_line, report_line};
ghost use Rattle.ferry_status.specs.Status.{bad_line};
ghost use Rattle.ferry_status.specs.Devices.{written};
ghost use Rattle.ferry_top.specs.Run.{Shows};
ghost use Rattle.ferry_status.specs.Status.{source_failed};
ghost use Rattle.ferry_words.specs.declared.command.Command.TheVariants as TheCommand;

use ferry_check::Report;
use ferry_disk::{Shelf, Sink};
use ferry_repo::{Repo, RepoFault, Secret};
use ferry_status::{Status, append_reason, of_output, of_repo};
use ferry_view::send;
use std::alloc::{AllocError, Global};

/// Opens the source with a secret, opens every live chunk and reads every archive, and prints what was found.
#[tactic(auto, using(ferry_status::proofs::StatusLemmas::causes))]
pub(crate) fn check<S: Shelf, K: Sink>(
    alloc: Global,
    secret: &Secret,
    source: &mut S,
    out: &mut K,
) -> Status
    ensures out { Shows TheCommand.Check secret.now (S.told source.old)
        (written (K.written out.old) (K.faults out.old)) result (written (K.written out.new) (K.faults out.new)) }
    ensures same { KeptWhere (source_failed result) (heard (S.told source.old)) (S.told source.new) }
    ensures cause { RoseWhere (source_failed result) (S.faults source.old) (S.faults source.new) }
{
    let mut repo = match Repo::open(alloc, source, secret) {
        Ok(repo) => repo,
        Err(fault) => return of_repo(fault),
    };
    let report = match ferry_check::check(alloc, &mut repo, source) {
        Ok(report) => report,
        Err(fault) => return of_repo(fault),
    };
    let line = match report_line(alloc, &report) {
        Ok(line) => line,
        Err(_) => return Status::Memory,
    };
    match send(&line, out) {
        Ok(()) if report.bad.is_none() => Status::Done,
        Ok(()) => Status::No,
        Err(fault) => of_output(fault),
    }
}

/// The line of a report.
fn report_line(alloc: Global, report: &Report) -> Result<Vec<u8>, AllocError>
    ensures line { IfOk result (λ line. line.items ≡ report_line report.now) }
{
    match &report.bad {
        None => {
            let text = good_text(alloc, report)?;
            Vec::from_slice(alloc, text.as_bytes())
        }
        Some(fault) => bad_line(alloc, fault),
    }
}

/// The line of a repository that verifies.
fn good_text(alloc: Global, report: &Report) -> Result<String, AllocError>
    ensures text { IfOk result (λ text. string_bytes text ≡ good_line report.now) }
{
    let Report {
        archives,
        chunks,
        orphans,
        untagged,
        ..
    } = *report;
    format!(in alloc;
        "ok archives {archives} chunks {chunks} orphans {orphans} untagged {untagged}\n"
    )
}

/// The line of one that doesn't.
fn bad_line(alloc: Global, fault: &RepoFault) -> Result<Vec<u8>, AllocError>
    ensures line { IfOk result (λ line. line.items ≡ bad_line fault.now) }
{
    let mut line = Vec::from_slice(alloc, b"bad ")?;
    append_reason(fault, &mut line)?;
    line.push(b'\n')?;
    Ok(line)
}
