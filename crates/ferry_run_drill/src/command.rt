//! The command that copies a source of its own, and checks the copy.
ghost use Rattle.std.specs.Prelude.{◌≡◌, ◌≤◌, ℕ, [], false, IfErr, IfOk, IfSome, MatchOption, ◌⊎◌};
ghost use Rattle.ferry_carry.specs.declared.options.Carried.{Carried};
ghost use Rattle.ferry_check.specs.Verify.{FilesVerify};
ghost use Rattle.ferry_disk.specs.Device.{HasCause, KeepsTold, RoseWhere, told_files};
ghost use Rattle.ferry_disk.specs.Faults.{FailedWhere};
ghost use Rattle.ferry_disk.specs.Files.{Files};
ghost use Rattle.ferry_disk.specs.Moments.{Between};
ghost use Rattle.ferry_run_drill.specs.Complete.{EndsChecked, EndsDone, IsFinished};
ghost use Rattle.ferry_run_drill.specs.Drill.{DropsWhere, HasBad, HasCopied, IsFree, OpensAll, PrintsDrill, TellsStart, target_secret};
ghost use Rattle.ferry_run_drill.specs.Steps.{IsUnread, PrintsLine, SendsLine};
ghost use Rattle.ferry_status.specs.Devices.{written};
ghost use Rattle.ferry_status.specs.Status.{entropy_failed, source_failed, store_status, target_failed};
ghost use Rattle.ferry_status.specs.declared.status.Status.TheVariants as Statuses;
ghost use Rattle.ferry_store.specs.Fault.{depot_failed};
ghost use Rattle.ferry_store.specs.Store.{InitLeaves};
ghost use Rattle.ferry_write.specs.Session.{SettlesFirst};

use crate::fill::{copy_source, own_source, target_secret};
use crate::lines::{bad_line, done_line};
use ferry_carry::Carried;
use ferry_check::check;
use ferry_disk::{Depot, Entropy, Sink};
use ferry_repo::{Repo, RepoFault};
use ferry_status::{Status, of_carry, of_output, of_store};
use ferry_store::StoreRefusal;
use ferry_view::send;
use std::alloc::Global;

/// Makes a source of so many archives in memory, a repository in the target, copies all of them into it, and checks it.
///
/// `count` is from 1 to 64. The target has made no act yet, and tells the lines of the transfer; `out` gets the one line of the drill. `Done` says that
/// the target has just these archives and verifies, `No` that it doesn't verify, and then its first fault is in the line. The source lies in memory of
/// the drill's own, so that `SourceDevice` doesn't come.
#[tactic(auto, using(ferry_status::proofs::StatusLemmas::causes, ferry_status::proofs::StatusLemmas::carried))]
pub fn drill<D: Depot, E: Entropy, K: Sink>(
    alloc: Global,
    count: u32,
    target: &mut D,
    entropy: &mut E,
    out: &mut K,
) -> Status
    requires least { 1 ≤ count }
    requires most { count ≤ 64 }
    requires begun { IfSome (D.told target.old) (λ t. t.history.acts ≡ []) }
    ensures prints { PrintsDrill count (D.told target.new) (written (K.written out.old) (K.faults out.old)) result
        (written (K.written out.new) (K.faults out.new)) }
    ensures start { IfSome (D.told target.old) (λ t. TellsStart (told_files t) result) }
    ensures completes { (result ≡ Statuses.Memory) ⊎ EndsDone count (D.told target.old) (D.told target.new) result }
    ensures first { Between (D.told target.old) (D.told target.new) SettlesFirst }
    ensures kept { Between (D.told target.old) (D.told target.new) InitLeaves }
    ensures own { source_failed result ≡ false }
    ensures used { (n : ℕ) → result ≡ Statuses.Usage n → ⊥ }
    ensures ends { FailedWhere (target_failed result) (D.told target.old) (D.told target.new) }
    ensures target_cause { RoseWhere (target_failed result) (D.faults target.old) (D.faults target.new) }
    ensures drops { DropsWhere (D.told target.old) (D.told target.new) (E.drawn entropy.old) (E.drawn entropy.new) result }
    ensures entropy { RoseWhere (entropy_failed result) (E.faults entropy.old) (E.faults entropy.new) }
{
    let Some(mut source) = own_source(alloc, count) else {
        return Status::Memory;
    };
    match copy_source(alloc, &mut source, target, entropy) {
        Ok(carried) => finish(alloc, count, &carried, target, out),
        Err(fault) => of_carry(fault),
    }
}

/// Checks the target, and prints the line of the drill.
#[tactic(auto, using(ferry_status::proofs::StatusLemmas::causes))]
fn finish<D: Depot, K: Sink>(
    alloc: Global,
    count: u32,
    carried: &Carried,
    target: &mut D,
    out: &mut K,
) -> Status
    requires copied { IfSome (D.told target.old) (λ t. HasCopied count carried.now t.history) }
    ensures prints { PrintsDrill count (D.told target.new) (written (K.written out.old) (K.faults out.old)) result
        (written (K.written out.new) (K.faults out.new)) }
    ensures start { (start : Files) → IsFree start → TellsStart start result }
    ensures completes { EndsChecked count carried.now (D.told target.new) result }
    ensures read { Between (D.told target.old) (D.told target.new) (λ before now. now ≡ before) }
    ensures own { source_failed result ≡ false }
    ensures used { (n : ℕ) → result ≡ Statuses.Usage n → ⊥ }
    ensures random { entropy_failed result ≡ false }
    ensures ends { FailedWhere (target_failed result) (D.told target.old) (D.told target.new) }
    ensures target_cause { RoseWhere (target_failed result) (D.faults target.old) (D.faults target.new) }
{
    match verify(alloc, target) {
        Ok(bad) => print(alloc, count, carried, &bad, out),
        Err(refusal) => of_store(refusal),
    }
}

/// Opens the target again, and answers its first fault.
fn verify<D: Depot>(alloc: Global, target: &mut D) -> Result<Option<RepoFault>, StoreRefusal>
    ensures checked { IfOk result (λ bad. IfSome (D.told target.old) (λ t.
        MatchOption bad (FilesVerify (told_files t) target_secret) (HasBad (told_files t)))) }
    ensures refused { IfErr result IsUnread }
    ensures finished { IfErr result (λ refusal. IfSome (D.told target.old) (λ t. OpensAll (told_files t) → IsFinished (store_status refusal))) }
    ensures same { KeepsTold depot_failed (D.told target.old) (D.told target.new) result }
    ensures cause { HasCause depot_failed (D.faults target.old) (D.faults target.new) result }
{
    let secret = target_secret(alloc)?;
    let mut repo = Repo::open(alloc, target, &secret)?;
    let report = check(alloc, &mut repo, target)?;
    Ok(report.bad)
}

/// Prints the line of the drill, or that of a target that doesn't verify.
fn print<K: Sink>(
    alloc: Global,
    count: u32,
    carried: &Carried,
    bad: &Option<RepoFault>,
    out: &mut K,
) -> Status
    ensures sent { PrintsLine count carried.now bad.now (written (K.written out.old) (K.faults out.old)) result
        (written (K.written out.new) (K.faults out.new)) }
{
    match bad {
        None => match done_line(alloc, count, carried) {
            Ok(line) => sent(line.as_bytes(), Status::Done, out),
            Err(_) => Status::Memory,
        },
        Some(fault) => match bad_line(alloc, fault) {
            Ok(line) => sent(&line, Status::No, out),
            Err(_) => Status::Memory,
        },
    }
}

/// The status of a line that is sent, where the output takes it.
fn sent<K: Sink>(line: &[u8], status: Status, out: &mut K) -> Status
    ensures sent { SendsLine line.now status (written (K.written out.old) (K.faults out.old)) result
        (written (K.written out.new) (K.faults out.new)) }
{
    match send(line, out) {
        Ok(()) => status,
        Err(fault) => of_output(fault),
    }
}
