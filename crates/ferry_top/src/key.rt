//! The command that opens the repository key.
ghost use Rattle.std.specs.Prelude.{◌≡◌, IfOk};
ghost use Rattle.ferry_disk.specs.Device.{KeptWhere, RoseWhere, heard};
ghost use Rattle.ferry_disk.specs.declared.name.Name.TheVariants as FileName;
ghost use Rattle.ferry_keyblob.specs.Opening.{key_view};
ghost use Rattle.ferry_status.specs.Devices.{written};
ghost use Rattle.ferry_top.specs.Keys.{key_line};
ghost use Rattle.ferry_top.specs.Run.{Shows};
ghost use Rattle.ferry_status.specs.Status.{source_failed};
ghost use Rattle.ferry_words.specs.declared.command.Command.TheVariants as TheCommand;

use crate::lines::push_line;
use ferry_disk::{Shelf, Sink};
use ferry_repo::{Secret, Unlocked, unlock};
use ferry_status::{Status, of_output, of_repo};
use ferry_view::send;
use std::alloc::{AllocError, Global};

/// Opens the source's key, in `config` or in the key file, with a secret, and prints its repository id and iterations.
#[tactic(auto, using(ferry_status::proofs::StatusLemmas::causes))]
pub(crate) fn key<S: Shelf, K: Sink>(
    alloc: Global,
    secret: &Secret,
    source: &mut S,
    out: &mut K,
) -> Status
    ensures out { Shows TheCommand.Key secret.now (S.told source.old)
        (written (K.written out.old) (K.faults out.old)) result (written (K.written out.new) (K.faults out.new)) }
    ensures same { KeptWhere (source_failed result) (heard (S.told source.old)) (S.told source.new) }
    ensures cause { RoseWhere (source_failed result) (S.faults source.old) (S.faults source.new) }
{
    let unlocked = match unlock(alloc, source, secret) {
        Ok(unlocked) => unlocked,
        Err(fault) => return of_repo(fault),
    };
    let line = match id_line(alloc, &unlocked) {
        Ok(line) => line,
        Err(_) => return Status::Memory,
    };
    match send(&line, out) {
        Ok(()) => Status::Done,
        Err(fault) => of_output(fault),
    }
}

/// The line of a key: its repository id and its iterations.
fn id_line(alloc: Global, unlocked: &Unlocked) -> Result<Vec<u8>, AllocError>
    ensures line { IfOk result (λ line. line.items ≡ key_line (key_view unlocked.now.key).repository_id unlocked.now.iterations) }
{
    let mut line = Vec::new(alloc);
    push_line(&mut line, &unlocked.key.repository_id, unlocked.iterations)?;
    Ok(line)
}
