//! The command that lists the archives.
ghost use Rattle.ferry_disk.specs.Device.{KeptWhere, RoseWhere, heard};
ghost use Rattle.ferry_status.specs.Devices.{written};
ghost use Rattle.ferry_top.specs.Run.{Shows};
ghost use Rattle.ferry_status.specs.Status.{source_failed};
ghost use Rattle.ferry_words.specs.declared.command.Command.TheVariants as TheCommand;

use ferry_disk::{Shelf, Sink};
use ferry_repo::{Repo, Secret};
use ferry_status::{Status, of_output, of_repo};
use std::alloc::Global;

/// Opens the source with a secret and lists its archives.
#[tactic(auto, using(ferry_status::proofs::StatusLemmas::causes))]
pub(crate) fn list<S: Shelf, K: Sink>(
    alloc: Global,
    secret: &Secret,
    source: &mut S,
    out: &mut K,
) -> Status
    ensures out { Shows TheCommand.List secret.now (S.told source.old)
        (written (K.written out.old) (K.faults out.old)) result (written (K.written out.new) (K.faults out.new)) }
    ensures same { KeptWhere (source_failed result) (heard (S.told source.old)) (S.told source.new) }
    ensures cause { RoseWhere (source_failed result) (S.faults source.old) (S.faults source.new) }
{
    let mut repo = match Repo::open(alloc, source, secret) {
        Ok(repo) => repo,
        Err(fault) => return of_repo(fault),
    };
    match ferry_view::list(alloc, &mut repo, out) {
        Ok(()) => Status::Done,
        Err(fault) => of_output(fault),
    }
}
