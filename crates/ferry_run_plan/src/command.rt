//! The command that plans a transfer.
ghost use Rattle.std.specs.Prelude.{◌≡◌, ◌≤◌, ℕ, List, IfErr, IfOk, IfSome};
ghost use Rattle.ferry_disk.specs.Device.{HasCause, KeepsTold, KeptWhere, RoseWhere, heard, told_files};
ghost use Rattle.ferry_plan.specs.Plan.{WhereBoth};
ghost use Rattle.ferry_repo.specs.Opening.{FitsRepo, OpensFilesTo, cached_in, repo_view};
ghost use Rattle.ferry_status.specs.Devices.{written};
ghost use Rattle.ferry_status.specs.Status.{source_failed, target_failed};
ghost use Rattle.ferry_status.specs.Output.{PrintsText};
ghost use Rattle.ferry_run_plan.specs.Planning.{IsNoPlan, IsPlan, PrintsPlan, RefusesPlanning, plan_line, plan_status, planned_for};
ghost use Rattle.ferry_run_transfer.specs.Transfer.{chosen_of};

use ferry_base::Bytes;
use ferry_disk::{Shelf, Sink};
use ferry_plan::{PlanFault, Planned, plan as plan_archives};
use ferry_repo::Repo;
use ferry_run_transfer::{chosen_names, find_names};
use ferry_status::{Limit, Secrets, Status, of_carry, of_output, of_repo, of_store};
use ferry_store::StoreRefusal;
use ferry_text::write_number;
use ferry_view::send;
use std::alloc::{AllocError, Global};

/// Counts what a transfer of the chosen archives would put, and prints the numbers.
///
/// `block` is the length in bytes of the pieces that contents would be cut into, and `names` are the names of archives as bytes of UTF-8, all archives of the
/// source where there are none. Both repositories are only read, each with its own secret. The line in `out` has the number of pieces of contents, of their
/// bytes, and of pieces of item streams.
///
/// `Done` says that the line was written whole, `OutputDevice` that the output failed over it. `SourceRefused`, `TargetRefused`, `Taken`, `NotFound` and
/// `Limit` say why no plan is made, and `SourceDevice` and `TargetDevice` which device failed; nothing is written then. At `Memory` a front of the line may
/// be.
#[tactic(auto, using(ferry_status::proofs::StatusLemmas::causes))]
pub fn plan<S: Shelf, T: Shelf, K: Sink>(
    alloc: Global,
    secrets: &Secrets,
    block: usize,
    names: &[Bytes],
    source: &mut S,
    target: &mut T,
    out: &mut K,
) -> Status
    requires block { (64 ≤ block) × (block ≤ 8388608) }
    ensures prints { PrintsPlan (planned_for secrets.now block names.now (S.told source.old)) (S.told source.old) (T.told target.old)
        (written (K.written out.old) (K.faults out.old)) result (written (K.written out.new) (K.faults out.new)) }
    ensures same { KeptWhere (source_failed result) (heard (S.told source.old)) (S.told source.new) }
    ensures cause { RoseWhere (source_failed result) (S.faults source.old) (S.faults source.new) }
    ensures target_same { KeptWhere (target_failed result) (heard (T.told target.old)) (T.told target.new) }
    ensures target_cause { RoseWhere (target_failed result) (T.faults target.old) (T.faults target.new) }
{
    match count(alloc, secrets, block, names, source, target) {
        Ok(planned) => print(alloc, &planned, out),
        Err(status) => status,
    }
}

/// Opens the source, and counts.
fn count<S: Shelf, T: Shelf>(
    alloc: Global,
    secrets: &Secrets,
    block: usize,
    names: &[Bytes],
    source: &mut S,
    target: &mut T,
) -> Result<Planned, Status>
    requires block { (64 ≤ block) × (block ≤ 8388608) }
    ensures planned { IfOk result (λ planned. WhereBoth (S.told source.old) (T.told target.old) (λ s t.
        IsPlan (planned_for secrets.now block names.now (S.told source.old)) s t (plan_line planned))) }
    ensures refused { IfErr result (λ status. IfSome (S.told source.old) (λ s. IfSome (T.told target.old) (λ t.
        RefusesPlanning (planned_for secrets.now block names.now (S.told source.old)) s t status))) }
    ensures none { IfErr result IsNoPlan }
    ensures same { KeepsTold source_failed (S.told source.old) (S.told source.new) result }
    ensures cause { HasCause source_failed (S.faults source.old) (S.faults source.new) result }
    ensures target_same { KeepsTold target_failed (T.told target.old) (T.told target.new) result }
    ensures target_cause { HasCause target_failed (T.faults target.old) (T.faults target.new) result }
{
    let mut repo = match Repo::open(alloc, source, &secrets.source) {
        Ok(repo) => repo,
        Err(fault) => return Err(of_repo(fault)),
    };
    count_from(alloc, &mut repo, source, secrets, block, names, target)
}

/// Counts for the names that are chosen of the opened source.
fn count_from<S: Shelf, T: Shelf>(
    alloc: Global,
    repo: &mut Repo,
    source: &mut S,
    secrets: &Secrets,
    block: usize,
    names: &[Bytes],
    target: &mut T,
) -> Result<Planned, Status>
    requires block { (64 ≤ block) × (block ≤ 8388608) }
    requires source_opens { IfSome (S.told source.old) (λ t. OpensFilesTo (told_files t) secrets.now.source (repo_view repo.old)) }
    requires source_fits { IfSome (S.told source.old) (λ t. FitsRepo (told_files t) (repo_view repo.old) (cached_in repo.old)) }
    ensures planned { IfOk result (λ planned. WhereBoth (S.told source.old) (T.told target.old) (λ s t.
        IsPlan (planned_for secrets.now block names.now (S.told source.old)) s t (plan_line planned))) }
    ensures refused { IfErr result (λ status. IfSome (S.told source.old) (λ s. IfSome (T.told target.old) (λ t.
        RefusesPlanning (planned_for secrets.now block names.now (S.told source.old)) s t status))) }
    ensures none { IfErr result IsNoPlan }
    ensures same { KeepsTold source_failed (S.told source.old) (S.told source.new) result }
    ensures cause { HasCause source_failed (S.faults source.old) (S.faults source.new) result }
    ensures target_same { KeepsTold target_failed (T.told target.old) (T.told target.new) result }
    ensures target_cause { HasCause target_failed (T.faults target.old) (T.faults target.new) result }
{
    let chosen = match chosen_names(alloc, repo, names) {
        Ok(chosen) => chosen,
        Err(_) => return Err(Status::Memory),
    };
    count_chosen(alloc, repo, source, secrets, block, &chosen, target)
}

/// Looks these names up in the opened source, opens the target, and counts.
fn count_chosen<S: Shelf, T: Shelf>(
    alloc: Global,
    repo: &mut Repo,
    source: &mut S,
    secrets: &Secrets,
    block: usize,
    chosen: &[Bytes],
    target: &mut T,
) -> Result<Planned, Status>
    requires block { (64 ≤ block) × (block ≤ 8388608) }
    requires source_opens { IfSome (S.told source.old) (λ t. OpensFilesTo (told_files t) secrets.now.source (repo_view repo.old)) }
    requires source_fits { IfSome (S.told source.old) (λ t. FitsRepo (told_files t) (repo_view repo.old) (cached_in repo.old)) }
    ensures planned { (names : List (List ℕ)) → chosen.now ≡ chosen_of names (repo_view repo.old).manifest → IfOk result (λ planned.
        WhereBoth (S.told source.old) (T.told target.old) (λ s t.
        IsPlan (planned_for secrets.now block names (S.told source.old)) s t (plan_line planned))) }
    ensures refused { (names : List (List ℕ)) → chosen.now ≡ chosen_of names (repo_view repo.old).manifest → IfErr result (λ status.
        IfSome (S.told source.old) (λ s. IfSome (T.told target.old) (λ t.
        RefusesPlanning (planned_for secrets.now block names (S.told source.old)) s t status))) }
    ensures none { IfErr result IsNoPlan }
    ensures same { KeepsTold source_failed (S.told source.old) (S.told source.new) result }
    ensures cause { HasCause source_failed (S.faults source.old) (S.faults source.new) result }
    ensures target_same { KeepsTold target_failed (T.told target.old) (T.told target.new) result }
    ensures target_cause { HasCause target_failed (T.faults target.old) (T.faults target.new) result }
{
    if let Err(fault) = find_names(alloc, repo, chosen) {
        return Err(of_carry(fault));
    }
    let mut other = match Repo::open(alloc, target, &secrets.target) {
        Ok(other) => other,
        Err(fault) => return Err(of_store(StoreRefusal::Repo(fault))),
    };
    match plan_archives(alloc, repo, source, &mut other, target, chosen, block) {
        Ok(planned) => Ok(planned),
        Err(fault) => Err(of_plan(fault)),
    }
}

/// The status where no plan is made.
fn of_plan(fault: PlanFault) -> Status
    ensures { result ≡ plan_status fault }
{
    match fault {
        PlanFault::Source(fault) => of_repo(fault),
        PlanFault::Target(fault) => of_store(StoreRefusal::Repo(fault)),
        PlanFault::Taken(name) => Status::Taken(name),
        PlanFault::NotFound(name) => Status::NotFound(name),
        PlanFault::Pieces => Status::Limit(Limit::Item),
        PlanFault::Memory => Status::Memory,
    }
}

/// Prints the line of a plan.
fn print<K: Sink>(alloc: Global, planned: &Planned, out: &mut K) -> Status
    ensures sent { PrintsText (λ sent. sent ≡ plan_line planned.now) (written (K.written out.old) (K.faults out.old)) result
        (written (K.written out.new) (K.faults out.new)) }
{
    let line = match plan_line(alloc, planned) {
        Ok(line) => line,
        Err(_) => return Status::Memory,
    };
    match send(&line, out) {
        Ok(()) => Status::Done,
        Err(fault) => of_output(fault),
    }
}

/// The line of a plan.
fn plan_line(alloc: Global, planned: &Planned) -> Result<Vec<u8>, AllocError>
    ensures line { IfOk result (λ line. line.items ≡ plan_line planned.now) }
{
    let mut line = Vec::new(alloc);
    write_number(u128::from(planned.chunks), &mut line)?;
    line.extend_from_slice(b" chunks ")?;
    write_number(planned.bytes, &mut line)?;
    line.extend_from_slice(b" bytes ")?;
    write_number(u128::from(planned.meta), &mut line)?;
    line.extend_from_slice(b" meta\n")?;
    Ok(line)
}
