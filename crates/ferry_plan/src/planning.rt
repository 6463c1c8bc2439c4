//! The plan of a transfer.
ghost use Rattle.std.specs.Prelude.{◌≡◌, ◌≤◌, ◌⊎◌, ◌↔◌, [], ℕ, List, Some, None, Err, slice_get, IfErr, IfOk, IfSome, IsSome, IsTrue, OnOk};
ghost use Rattle.ferry_carry.specs.Chosen.{IsMissingName};
ghost use Rattle.ferry_piece.specs.Gather.{IsAmong};
ghost use Rattle.ferry_piece.specs.Puts.{Addition};
ghost use Rattle.ferry_compare.specs.Matched.{AreMatched};
ghost use Rattle.ferry_disk.specs.Device.{HasCause, KeepsTold, told_files};
ghost use Rattle.ferry_plan.specs.Fault.{shelf_failed, target_failed};
ghost use Rattle.ferry_plan.specs.Plan.{Plans, PlansAll, RefusesBehind, RefusesName, RefusesPlan, WhereBoth};
ghost use Rattle.ferry_plan.specs.Steps.{PlansOne};
ghost use Rattle.ferry_plan.specs.Tally.{IsReady, TalliesOn};
ghost use Rattle.ferry_plan.specs.declared.fault.PlanFault.TheVariants as Fault;
ghost use Rattle.ferry_repo.specs.Archives.{archive_named};
ghost use Rattle.ferry_repo.specs.Opening.{FitsRepo, cached_in, repo_view};

use crate::archive::take_archive;
use crate::fault::PlanFault;
use crate::present::{compare_archive, copy_name, is_among};
use crate::tally::Tally;
use ferry_base::Bytes;
use ferry_carry::missing_name;
use ferry_compare::Matches;
use ferry_disk::Shelf;
use ferry_repo::Repo;
use std::alloc::Global;

/// What a transfer would put, up to the greatest numbers of these types.
#[derive(Clone, Copy, Debug, PartialEq, Eq)]
pub struct Planned {
    /// Pieces of contents.
    pub chunks: u64,
    /// The bytes of these pieces.
    pub bytes: u128,
    /// Pieces of item streams.
    pub meta: u64,
}

/// What a transfer of these names would put, in pieces of `block` bytes: it compares the archives that the target has, and reads the others and cuts them, and
/// counts the pieces that the target lacks, each once. Records aren't counted.
///
/// `NotFound` has the first name that the source lacks; nothing is read then. `Taken` has a name that the target has with another archive.
pub fn plan<S: Shelf, T: Shelf>(
    alloc: Global,
    source: &mut Repo,
    shelf: &mut S,
    target: &mut Repo,
    other: &mut T,
    names: &[Bytes],
    block: usize,
) -> Result<Planned, PlanFault>
    requires least { 64 ≤ block }
    requires most { block ≤ 8388608 }
    requires source_fits { IfSome (S.told shelf.old) (λ t. FitsRepo (told_files t) (repo_view source.old) (cached_in source.old)) }
    requires target_fits { IfSome (T.told other.old) (λ t. FitsRepo (told_files t) (repo_view target.old) (cached_in target.old)) }
    ensures planned { IfOk result (λ planned. WhereBoth (S.told shelf.old) (T.told other.old) (λ there files.
        Plans there (repo_view source.old) block files (repo_view target.old) names.now planned)) }
    ensures refused { IfErr result (RefusesPlan (S.told shelf.old) (repo_view source.old) block (T.told other.old) (repo_view target.old) names.now) }
    // Wherever a name is missing that is answered, but for want of memory, and nothing is read.
    ensures missing { (place : ℕ) → IsMissingName (repo_view source.old).manifest names.now place → (shelf.new ≡ shelf.old) × ((other.new ≡ other.old)
        × (((name : List ℕ) × (result ≡ Err (Fault.NotFound name))) ⊎ (result ≡ Err Fault.Memory))) }
    // Nothing of the target is read but to compare archives that it has.
    ensures unread { ((name : List ℕ) → IsAmong names.now name → archive_named name (repo_view target.old).manifest.archives ≡ None)
        → other.new ≡ other.old }
    ensures source_fits { IfSome (S.told shelf.new) (λ t. FitsRepo (told_files t) (repo_view source.new) (cached_in source.new)) }
    ensures target_fits { IfSome (T.told other.new) (λ t. FitsRepo (told_files t) (repo_view target.new) (cached_in target.new)) }
    ensures kept { repo_view source.new ≡ repo_view source.old }
    ensures target_kept { repo_view target.new ≡ repo_view target.old }
    ensures same { KeepsTold shelf_failed (S.told shelf.old) (S.told shelf.new) result }
    ensures target_same { KeepsTold target_failed (T.told other.old) (T.told other.new) result }
    ensures cause { HasCause shelf_failed (S.faults shelf.old) (S.faults shelf.new) result }
    ensures target_cause { HasCause target_failed (T.faults other.old) (T.faults other.new) result }
{
    find_names(alloc, source, names)?;
    let mut tally = Tally::new(alloc, block)?;
    let mut matches = Matches::new(alloc);
    plan_names(
        alloc,
        source,
        shelf,
        target,
        other,
        names,
        &mut tally,
        &mut matches,
    )?;
    Ok(tally.planned())
}

/// That the source has an archive of each of these names; `NotFound` has the first that it lacks.
fn find_names(alloc: Global, source: &Repo, names: &[Bytes]) -> Result<(), PlanFault>
    ensures found { OnOk result ((name : List ℕ) → IsAmong names.now name → IsSome (archive_named name (repo_view source.now).manifest.archives)) }
    ensures missing { IfErr result (λ fault. (fault ≡ Fault.Memory)
        ⊎ ((missing : List ℕ) × ((fault ≡ Fault.NotFound missing) × ((place : ℕ)
        × (IsMissingName (repo_view source.now).manifest names.now place × (slice_get names.now place ≡ Some missing)))))) }
{
    let Some(place) = missing_name(source, names) else {
        return Ok(());
    };
    let name = copy_name(alloc, names[place].as_slice())?;
    Err(PlanFault::NotFound(name))
}

/// Counts what would be put of the archives of these names, one after another.
fn plan_names<S: Shelf, T: Shelf>(
    alloc: Global,
    source: &mut Repo,
    shelf: &mut S,
    target: &mut Repo,
    other: &mut T,
    names: &[Bytes],
    tally: &mut Tally,
    matches: &mut Matches,
) -> Result<(), PlanFault>
    requires ready { IsReady tally.old }
    requires begun { tally.old.stream.cutter.piece ≡ [] }
    requires named { (name : List ℕ) → IsAmong names.now name → IsSome (archive_named name (repo_view source.old).manifest.archives) }
    requires source_fits { IfSome (S.told shelf.old) (λ t. FitsRepo (told_files t) (repo_view source.old) (cached_in source.old)) }
    requires target_fits { IfSome (T.told other.old) (λ t. FitsRepo (told_files t) (repo_view target.old) (cached_in target.old)) }
    requires matched { AreMatched (S.told shelf.old) (repo_view source.old) (T.told other.old) (repo_view target.old) matches.old }
    ensures planned { OnOk result ((added : List Addition)
        × (TalliesOn (repo_view target.old).keys (repo_view target.old).log tally.old added tally.new
        × WhereBoth (S.told shelf.old) (T.told other.old) (λ there files.
        PlansAll there (repo_view source.old) tally.old.block files (repo_view target.old) names.now added))) }
    ensures refused { IfErr result (RefusesBehind (S.told shelf.old) (repo_view source.old) tally.old.block (T.told other.old) (repo_view target.old)
        names.now) }
    ensures unread { ((name : List ℕ) → IsAmong names.now name → archive_named name (repo_view target.old).manifest.archives ≡ None)
        → other.new ≡ other.old }
    ensures source_fits { IfSome (S.told shelf.new) (λ t. FitsRepo (told_files t) (repo_view source.new) (cached_in source.new)) }
    ensures target_fits { IfSome (T.told other.new) (λ t. FitsRepo (told_files t) (repo_view target.new) (cached_in target.new)) }
    ensures kept { repo_view source.new ≡ repo_view source.old }
    ensures target_kept { repo_view target.new ≡ repo_view target.old }
    ensures same { KeepsTold shelf_failed (S.told shelf.old) (S.told shelf.new) result }
    ensures target_same { KeepsTold target_failed (T.told other.old) (T.told other.new) result }
    ensures cause { HasCause shelf_failed (S.faults shelf.old) (S.faults shelf.new) result }
    ensures target_cause { HasCause target_failed (T.faults other.old) (T.faults other.new) result }
{
    for place in 0..names.len() {
        let before = &names[..place];
        let name = names[place].as_slice();
        plan_name(
            alloc, source, shelf, target, other, before, name, tally, matches,
        )?;
    }
    Ok(())
}

/// Counts what would be put of the archive of a name behind others: nothing where the target has it, and it is equal, or where an earlier name is the same.
fn plan_name<S: Shelf, T: Shelf>(
    alloc: Global,
    source: &mut Repo,
    shelf: &mut S,
    target: &mut Repo,
    other: &mut T,
    before: &[Bytes],
    name: &[u8],
    tally: &mut Tally,
    matches: &mut Matches,
) -> Result<(), PlanFault>
    requires ready { IsReady tally.old }
    requires begun { tally.old.stream.cutter.piece ≡ [] }
    requires named { IsSome (archive_named name.now (repo_view source.old).manifest.archives) }
    requires source_fits { IfSome (S.told shelf.old) (λ t. FitsRepo (told_files t) (repo_view source.old) (cached_in source.old)) }
    requires target_fits { IfSome (T.told other.old) (λ t. FitsRepo (told_files t) (repo_view target.old) (cached_in target.old)) }
    requires matched { AreMatched (S.told shelf.old) (repo_view source.old) (T.told other.old) (repo_view target.old) matches.old }
    ensures planned { OnOk result ((one : List Addition)
        × (TalliesOn (repo_view target.old).keys (repo_view target.old).log tally.old one tally.new
        × WhereBoth (S.told shelf.old) (T.told other.old) (λ there files.
        PlansOne there (repo_view source.old) tally.old.block files (repo_view target.old) before.now name.now one))) }
    ensures refused { IfErr result (RefusesName (S.told shelf.old) (repo_view source.old) tally.old.block (T.told other.old) (repo_view target.old)
        name.now) }
    ensures unread { archive_named name.now (repo_view target.old).manifest.archives ≡ None → other.new ≡ other.old }
    ensures matched { OnOk result (AreMatched (S.told shelf.new) (repo_view source.new) (T.told other.new) (repo_view target.new) matches.new) }
    ensures ready { OnOk result (IsReady tally.new) }
    ensures begun { OnOk result (tally.new.stream.cutter.piece ≡ []) }
    ensures block { OnOk result (tally.new.block ≡ tally.old.block) }
    ensures source_fits { IfSome (S.told shelf.new) (λ t. FitsRepo (told_files t) (repo_view source.new) (cached_in source.new)) }
    ensures target_fits { IfSome (T.told other.new) (λ t. FitsRepo (told_files t) (repo_view target.new) (cached_in target.new)) }
    ensures kept { repo_view source.new ≡ repo_view source.old }
    ensures target_kept { repo_view target.new ≡ repo_view target.old }
    ensures same { KeepsTold shelf_failed (S.told shelf.old) (S.told shelf.new) result }
    ensures target_same { KeepsTold target_failed (T.told other.old) (T.told other.new) result }
    ensures cause { HasCause shelf_failed (S.faults shelf.old) (S.faults shelf.new) result }
    ensures target_cause { HasCause target_failed (T.faults other.old) (T.faults other.new) result }
{
    if has_archive(target, name) {
        return compare_archive(alloc, source, shelf, target, other, name, matches);
    }
    if is_among(before, name) {
        return Ok(());
    }
    take_archive(source, shelf, target, name, tally)
}

/// Whether a repository has an archive of a name.
fn has_archive(repo: &Repo, name: &[u8]) -> bool
    ensures has { IsTrue result ↔ IsSome (archive_named name.now (repo_view repo.now).manifest.archives) }
{
    repo.record_id(name).is_some()
}
