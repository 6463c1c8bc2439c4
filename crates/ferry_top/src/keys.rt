//! The command that lists the live keys.
ghost use Rattle.std.specs.Prelude.{◌≡◌, ◌++◌, OnOk, OnErr, option_map};
ghost use Rattle.std.specs.FinMap.{entries, empty};
ghost use Rattle.ferry_disk.specs.Device.{WritesSome, HasCause, KeptWhere, RoseWhere, heard};
ghost use Rattle.ferry_status.specs.Devices.{written};
ghost use Rattle.ferry_top.specs.Keys.{key_lines};
ghost use Rattle.ferry_top.specs.Run.{Shows};
ghost use Rattle.ferry_status.specs.Status.{source_failed};
ghost use Rattle.ferry_words.specs.declared.command.Command.TheVariants as TheCommand;
ghost use Rattle.ferry_view.specs.Output.{view_failed};

use crate::lines::push_line;
use ferry_base::Id;
use ferry_disk::{Shelf, Sink};
use ferry_log::{Log, open_log};
use ferry_repo::Secret;
use ferry_status::{Status, of_log, of_output};
use ferry_view::{ViewFault, send, send_full};
use std::alloc::Global;

/// Lists the source's live keys, each with the size of its blob.
#[tactic(auto, using(ferry_status::proofs::StatusLemmas::causes))]
pub(crate) fn keys<S: Shelf, K: Sink>(
    alloc: Global,
    secret: &Secret,
    source: &mut S,
    out: &mut K,
) -> Status
    ensures out { Shows TheCommand.Keys secret.now (S.told source.old)
        (written (K.written out.old) (K.faults out.old)) result (written (K.written out.new) (K.faults out.new)) }
    ensures same { KeptWhere (source_failed result) (heard (S.told source.old)) (S.told source.new) }
    ensures cause { RoseWhere (source_failed result) (S.faults source.old) (S.faults source.new) }
{
    let _ = secret;
    let log = match open_log(alloc, source) {
        Ok(log) => log,
        Err(fault) => return of_log(fault),
    };
    match write_keys(alloc, &log, out) {
        Ok(()) => Status::Done,
        Err(fault) => of_output(fault),
    }
}

/// Writes the lines of the live keys of a log that has learnt none, many at a time.
fn write_keys<K: Sink>(alloc: Global, log: &Log, out: &mut K) -> Result<(), ViewFault>
    requires { log.now.learnt ≡ empty }
    ensures ok { OnOk result (K.written out.new ≡ option_map (λ w. w ++ key_lines (entries log.now.opened)) (K.written out.old)) }
    ensures err { OnErr result (WritesSome (K.written out.old) (key_lines (entries log.now.opened)) (K.written out.new)) }
    ensures cause { HasCause view_failed (K.faults out.old) (K.faults out.new) result }
{
    let mut lines = Vec::new(alloc);
    let mut last: Option<Id> = None;
    while let Some(found) = log.next_key(last.as_ref()) {
        let key = found.0;
        push_line(&mut lines, &key, found.1.size)?;
        send_full(&mut lines, out)?;
        last = Some(key);
    }
    send(&lines, out)
}
