//! An archive that the target has.
ghost use Rattle.std.specs.Prelude.{◌≡◌, ◌⊎◌, ◌↔◌, ℕ, Ok, true, false, IfErr, IfOk, IfSome, IsSome, IsTrue, OnOk};
ghost use Rattle.ferry_piece.specs.Gather.{IsAmong};
ghost use Rattle.ferry_compare.specs.Compare.{AreEqual, Differ, FitsTold, comparison_view, seen};
ghost use Rattle.ferry_compare.specs.Fault.{RefusesTarget, source_failed, target_failed as other_failed};
ghost use Rattle.ferry_compare.specs.Matched.{AreMatched};
ghost use Rattle.ferry_compare.specs.Steps.{RefusesSource};
ghost use Rattle.ferry_disk.specs.Device.{HasCause, KeepsTold, told_files};
ghost use Rattle.ferry_plan.specs.Fault.{shelf_failed, target_failed};
ghost use Rattle.ferry_plan.specs.Plan.{IsEqual, RefusesName, WhereBoth};
ghost use Rattle.ferry_plan.specs.declared.fault.PlanFault.TheVariants as Fault;
ghost use Rattle.ferry_repo.specs.Archives.{archive_named};
ghost use Rattle.ferry_repo.specs.Opening.{FitsRepo, cached_in, repo_view};

use crate::fault::PlanFault;
use ferry_base::Bytes;
use ferry_compare::{CompareFault, Compared, Comparison, Matches};
use ferry_disk::Shelf;
use ferry_repo::Repo;
use std::alloc::{AllocError, Global};
use std::mem;

/// Whether a name is one of these.
pub(crate) fn is_among(names: &[Bytes], name: &[u8]) -> bool
    ensures among { IsTrue result ↔ IsAmong names.now name.now }
{
    for place in 0..names.len() {
        if names[place].as_slice() == name {
            return true;
        }
    }
    false
}

/// Compares the archives that the source and the target have under a name; another one is `Taken`. Contents that were found to be the same aren't read
/// again.
#[tactic(auto, using(crate::proofs::FaultLemmas::conversions))]
pub(crate) fn compare_archive<S: Shelf, T: Shelf>(
    alloc: Global,
    source: &mut Repo,
    shelf: &mut S,
    target: &mut Repo,
    other: &mut T,
    name: &[u8],
    matches: &mut Matches,
) -> Result<(), PlanFault>
    requires source_fits { IfSome (S.told shelf.old) (λ t. FitsRepo (told_files t) (repo_view source.old) (cached_in source.old)) }
    requires target_fits { IfSome (T.told other.old) (λ t. FitsRepo (told_files t) (repo_view target.old) (cached_in target.old)) }
    requires named { IsSome (archive_named name.now (repo_view source.old).manifest.archives) }
    requires target_named { IsSome (archive_named name.now (repo_view target.old).manifest.archives) }
    requires matched { AreMatched (S.told shelf.old) (repo_view source.old) (T.told other.old) (repo_view target.old) matches.old }
    ensures matched { OnOk result (AreMatched (S.told shelf.new) (repo_view source.new) (T.told other.new) (repo_view target.new) matches.new) }
    ensures equal { OnOk result (WhereBoth (S.told shelf.old) (T.told other.old) (λ there files.
        IsEqual there (repo_view source.old) files (repo_view target.old) name.now)) }
    ensures refused { IfErr result (λ fault. (block : ℕ)
        → RefusesName (S.told shelf.old) (repo_view source.old) block (T.told other.old) (repo_view target.old) name.now fault) }
    ensures source_fits { IfSome (S.told shelf.new) (λ t. FitsRepo (told_files t) (repo_view source.new) (cached_in source.new)) }
    ensures target_fits { IfSome (T.told other.new) (λ t. FitsRepo (told_files t) (repo_view target.new) (cached_in target.new)) }
    ensures kept { repo_view source.new ≡ repo_view source.old }
    ensures target_kept { repo_view target.new ≡ repo_view target.old }
    ensures same { KeepsTold shelf_failed (S.told shelf.old) (S.told shelf.new) result }
    ensures target_same { KeepsTold target_failed (T.told other.old) (T.told other.new) result }
    ensures cause { HasCause shelf_failed (S.faults shelf.old) (S.faults shelf.new) result }
    ensures target_cause { HasCause target_failed (T.faults other.old) (T.faults other.new) result }
{
    let mut comparison = Comparison::begin(alloc, source, shelf, target, other, name)?;
    comparison.resume(mem::replace(matches, Matches::new(alloc)));
    let equal = is_equal(source, shelf, target, other, &mut comparison)?;
    drop(mem::replace(matches, comparison.into_matches()));
    if equal {
        return Ok(());
    }
    Err(taken(alloc, name))
}

/// Takes a comparison to its end, and answers whether both archives say the same.
fn is_equal<S: Shelf, T: Shelf>(
    source: &mut Repo,
    shelf: &mut S,
    target: &mut Repo,
    other: &mut T,
    comparison: &mut Comparison,
) -> Result<bool, CompareFault>
    requires source_fits { IfSome (S.told shelf.old) (λ t. FitsRepo (told_files t) (repo_view source.old) (cached_in source.old)) }
    requires target_fits { IfSome (T.told other.old) (λ t. FitsRepo (told_files t) (repo_view target.old) (cached_in target.old)) }
    requires fits { FitsTold (S.told shelf.old) (repo_view source.old) (T.told other.old) (repo_view target.old)
        (seen (T.told other.old) (repo_view target.old)) (comparison_view comparison.old) }
    ensures equal { result ≡ Ok true → AreEqual (S.told shelf.old) (repo_view source.old) (T.told other.old) (repo_view target.old)
        (comparison_view comparison.old).name }
    ensures differs { result ≡ Ok false → Differ (S.told shelf.old) (repo_view source.old) (T.told other.old) (repo_view target.old)
        (comparison_view comparison.old).name }
    ensures matched { OnOk result (AreMatched (S.told shelf.new) (repo_view source.new) (T.told other.new) (repo_view target.new)
        (comparison_view comparison.new).matched) }
    ensures refused_source { IfErr result (RefusesSource (S.told shelf.old) (repo_view source.old) (comparison_view comparison.old).name) }
    ensures refused_target { IfErr result RefusesTarget }
    ensures source_fits { IfSome (S.told shelf.new) (λ t. FitsRepo (told_files t) (repo_view source.new) (cached_in source.new)) }
    ensures target_fits { IfSome (T.told other.new) (λ t. FitsRepo (told_files t) (repo_view target.new) (cached_in target.new)) }
    ensures kept { repo_view source.new ≡ repo_view source.old }
    ensures target_kept { repo_view target.new ≡ repo_view target.old }
    ensures same { KeepsTold source_failed (S.told shelf.old) (S.told shelf.new) result }
    ensures target_same { KeepsTold other_failed (T.told other.old) (T.told other.new) result }
    ensures cause { HasCause source_failed (S.faults shelf.old) (S.faults shelf.new) result }
    ensures target_cause { HasCause other_failed (T.faults other.old) (T.faults other.new) result }
{
    for _ in 0..u64::MAX {
        let compared = comparison.step(source, shelf, target, other)?;
        match compared {
            Compared::More => {}
            Compared::Equal => return Ok(true),
            Compared::Differs => return Ok(false),
        }
    }
    Err(CompareFault::Memory)
}

/// That a name is taken.
fn taken(alloc: Global, name: &[u8]) -> PlanFault
    ensures taken { (result ≡ Fault.Taken name.now) ⊎ (result ≡ Fault.Memory) }
{
    match copy_name(alloc, name) {
        Ok(name) => PlanFault::Taken(name),
        Err(_) => PlanFault::Memory,
    }
}

/// A copy of a name.
pub(crate) fn copy_name(alloc: Global, name: &[u8]) -> Result<Bytes, AllocError>
    ensures name { IfOk result (λ copy. copy ≡ name.now) }
{
    Ok(Bytes::new(Vec::from_slice(alloc, name)?))
}
