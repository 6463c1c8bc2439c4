//! The commands that show an archive: its items, or the content of a file.
ghost use Rattle.ferry_disk.specs.Device.{KeptWhere, RoseWhere, heard};
ghost use Rattle.ferry_status.specs.Devices.{written};
ghost use Rattle.ferry_top.specs.Run.{Shows};
ghost use Rattle.ferry_status.specs.Status.{source_failed};
ghost use Rattle.ferry_words.specs.declared.command.Command.TheVariants as TheCommand;

use ferry_base::Bytes;
use ferry_disk::{Shelf, Sink};
use ferry_repo::{Repo, Secret};
use ferry_status::{Status, of_repo, of_view};
use std::alloc::Global;

/// Opens the source with a secret and lists the items of the archive of a name.
#[tactic(auto, using(ferry_status::proofs::StatusLemmas::causes))]
pub(crate) fn list_items<S: Shelf, K: Sink>(
    alloc: Global,
    secret: &Secret,
    source: &mut S,
    out: &mut K,
    name: Bytes,
) -> Status
    ensures out { Shows (TheCommand.ListItems name) secret.now (S.told source.old)
        (written (K.written out.old) (K.faults out.old)) result (written (K.written out.new) (K.faults out.new)) }
    ensures same { KeptWhere (source_failed result) (heard (S.told source.old)) (S.told source.new) }
    ensures cause { RoseWhere (source_failed result) (S.faults source.old) (S.faults source.new) }
{
    let mut repo = match Repo::open(alloc, source, secret) {
        Ok(repo) => repo,
        Err(fault) => return of_repo(fault),
    };
    match ferry_view::list_items(alloc, &mut repo, source, out, name.as_slice()) {
        Ok(()) => Status::Done,
        Err(fault) => of_view(fault, name),
    }
}

/// Opens the source with a secret and writes the content of a path of the archive of a name.
#[tactic(auto, using(ferry_status::proofs::StatusLemmas::causes))]
pub(crate) fn extract<S: Shelf, K: Sink>(
    alloc: Global,
    secret: &Secret,
    source: &mut S,
    out: &mut K,
    name: Bytes,
    path: Bytes,
) -> Status
    ensures out { Shows (TheCommand.Extract name path) secret.now (S.told source.old)
        (written (K.written out.old) (K.faults out.old)) result (written (K.written out.new) (K.faults out.new)) }
    ensures same { KeptWhere (source_failed result) (heard (S.told source.old)) (S.told source.new) }
    ensures cause { RoseWhere (source_failed result) (S.faults source.old) (S.faults source.new) }
{
    let mut repo = match Repo::open(alloc, source, secret) {
        Ok(repo) => repo,
        Err(fault) => return of_repo(fault),
    };
    let known = repo.record_id(name.as_slice()).is_some();
    match ferry_view::extract(&mut repo, source, out, name.as_slice(), path.as_slice()) {
        Ok(()) => Status::Done,
        Err(fault) if known => of_view(fault, path),
        Err(fault) => of_view(fault, name),
    }
}
