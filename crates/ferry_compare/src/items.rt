//! The next item of the target.
ghost use Rattle.std.specs.Prelude.{◌≡◌, false, Ok, Some, None, option_map, IfOk, IfErr, IfSome};
ghost use Rattle.ferry_disk.specs.Device.{KeepsTold, HasCause, told_files};
ghost use Rattle.ferry_item.specs.Item.{item_view};
ghost use Rattle.ferry_repo.specs.Opening.{repo_view, cached_in, FitsRepo};
ghost use Rattle.ferry_repo.specs.Walk.{walk_view};
ghost use Rattle.ferry_compare.specs.Fault.{source_failed, target_failed, IsTargetFault};
ghost use Rattle.ferry_compare.specs.Steps.{EndsBeside, FindsAt, FindsBeside, HoldsWhere, WalksBeside};

use crate::ahead::step_ahead;
use crate::fault::{CompareFault, of_target};
use ferry_disk::Shelf;
use ferry_item::Item;
use ferry_repo::{Repo, Walk};

/// The next item of the target, and none where it has none that comes, or no walk any more.
pub(crate) fn next_beside<T: Shelf>(
    walk: &mut Option<Walk>,
    target: &mut Repo,
    other: &mut T,
) -> Result<Option<Item>, CompareFault>
    requires fits { IfSome (T.told other.old) (λ t. FitsRepo (told_files t) (repo_view target.old) (cached_in target.old)) }
    requires walk_fits { IfSome (T.told other.old) (λ t. WalksBeside (told_files t) (repo_view target.old) (option_map walk_view walk.old)) }
    ensures finds { IfOk result (λ found. IfSome (T.told other.old) (λ t. FindsBeside (told_files t) (repo_view target.old)
        (option_map walk_view walk.old) (option_map item_view found) (option_map walk_view walk.new))) }
    ensures unread { option_map walk_view walk.old ≡ None → (result ≡ Ok None) × (other.new ≡ other.old) × (option_map walk_view walk.new ≡ None) }
    ensures refused { IfErr result IsTargetFault }
    ensures still { IfErr result (λ fault. source_failed fault ≡ false) }
    ensures fits { IfSome (T.told other.new) (λ t. FitsRepo (told_files t) (repo_view target.new) (cached_in target.new)) }
    ensures kept { repo_view target.new ≡ repo_view target.old }
    ensures same { KeepsTold target_failed (T.told other.old) (T.told other.new) result }
    ensures cause { HasCause target_failed (T.faults other.old) (T.faults other.new) result }
{
    match walk {
        Some(at) => next_item(at, target, other),
        None => Ok(None),
    }
}

/// The next item of a walk over the target, and none at the end, or where the target's files refuse it.
fn next_item<T: Shelf>(
    walk: &mut Walk,
    target: &mut Repo,
    other: &mut T,
) -> Result<Option<Item>, CompareFault>
    requires fits { IfSome (T.told other.old) (λ t. FitsRepo (told_files t) (repo_view target.old) (cached_in target.old)) }
    requires walk_fits { IfSome (T.told other.old) (λ t. WalksBeside (told_files t) (repo_view target.old) (Some (walk_view walk.old))) }
    ensures finds { IfOk result (λ found. IfSome (T.told other.old) (λ t. FindsAt (told_files t) (repo_view target.old)
        (walk_view walk.old) (option_map item_view found) (walk_view walk.new))) }
    ensures refused { IfErr result IsTargetFault }
    ensures still { IfErr result (λ fault. source_failed fault ≡ false) }
    ensures fits { IfSome (T.told other.new) (λ t. FitsRepo (told_files t) (repo_view target.new) (cached_in target.new)) }
    ensures kept { repo_view target.new ≡ repo_view target.old }
    ensures same { KeepsTold target_failed (T.told other.old) (T.told other.new) result }
    ensures cause { HasCause target_failed (T.faults other.old) (T.faults other.new) result }
{
    match step_ahead(walk, target, other) {
        Ok(found) => Ok(found),
        Err(fault) => match of_target(fault) {
            Some(fault) => Err(fault),
            None => Ok(None),
        },
    }
}

/// Whether the stream of the target ends whole, where its walk stands.
pub(crate) fn ends_beside<T: Shelf>(
    walk: &mut Option<Walk>,
    target: &mut Repo,
    other: &mut T,
) -> Result<bool, CompareFault>
    requires fits { IfSome (T.told other.old) (λ t. FitsRepo (told_files t) (repo_view target.old) (cached_in target.old)) }
    requires walk_fits { IfSome (T.told other.old) (λ t. WalksBeside (told_files t) (repo_view target.old) (option_map walk_view walk.old)) }
    ensures ends { IfOk result (λ ended. IfSome (T.told other.old) (λ t. HoldsWhere ended (
        EndsBeside (told_files t) (repo_view target.old) (option_map walk_view walk.old)))) }
    ensures unread { option_map walk_view walk.old ≡ None → (other.new ≡ other.old) × (option_map walk_view walk.new ≡ None) }
    ensures refused { IfErr result IsTargetFault }
    ensures still { IfErr result (λ fault. source_failed fault ≡ false) }
    ensures fits { IfSome (T.told other.new) (λ t. FitsRepo (told_files t) (repo_view target.new) (cached_in target.new)) }
    ensures kept { repo_view target.new ≡ repo_view target.old }
    ensures same { KeepsTold target_failed (T.told other.old) (T.told other.new) result }
    ensures cause { HasCause target_failed (T.faults other.old) (T.faults other.new) result }
{
    match walk {
        Some(at) => ends_at(at, target, other),
        None => Ok(false),
    }
}

/// Whether the stream of a walk over the target ends whole, where the walk stands.
fn ends_at<T: Shelf>(
    walk: &mut Walk,
    target: &mut Repo,
    other: &mut T,
) -> Result<bool, CompareFault>
    requires fits { IfSome (T.told other.old) (λ t. FitsRepo (told_files t) (repo_view target.old) (cached_in target.old)) }
    requires walk_fits { IfSome (T.told other.old) (λ t. WalksBeside (told_files t) (repo_view target.old) (Some (walk_view walk.old))) }
    ensures ends { IfOk result (λ ended. IfSome (T.told other.old) (λ t. HoldsWhere ended (
        EndsBeside (told_files t) (repo_view target.old) (Some (walk_view walk.old))))) }
    ensures refused { IfErr result IsTargetFault }
    ensures still { IfErr result (λ fault. source_failed fault ≡ false) }
    ensures fits { IfSome (T.told other.new) (λ t. FitsRepo (told_files t) (repo_view target.new) (cached_in target.new)) }
    ensures kept { repo_view target.new ≡ repo_view target.old }
    ensures same { KeepsTold target_failed (T.told other.old) (T.told other.new) result }
    ensures cause { HasCause target_failed (T.faults other.old) (T.faults other.new) result }
{
    match walk.step(target, other) {
        Ok(Some(_item)) => Ok(false),
        Ok(None) => Ok(true),
        Err(fault) => match of_target(fault) {
            Some(fault) => Err(fault),
            None => Ok(false),
        },
    }
}
