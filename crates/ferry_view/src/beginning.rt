//! The walk over the archive of a name.
ghost use Rattle.std.specs.Prelude.{◌≡◌, false, IfOk, IfErr, IfSome};
ghost use Rattle.ferry_disk.specs.Device.{KeepsTold, HasCause, told_files};
ghost use Rattle.ferry_repo.specs.Opening.{repo_view, cached_in, FitsRepo};
ghost use Rattle.ferry_repo.specs.Walk.{walk_view};
ghost use Rattle.ferry_view.specs.Output.{shelf_failed, view_failed};
ghost use Rattle.ferry_view.specs.Steps.{Begins, RefusesBegin};

use crate::fault::ViewFault;
use ferry_disk::Shelf;
use ferry_repo::{Repo, Walk};

/// A walk in front of the items of the archive of a name.
#[tactic(auto, using(crate::proofs::OutputLemmas::conversions))]
pub(crate) fn begin<S: Shelf>(
    repo: &mut Repo,
    shelf: &mut S,
    name: &[u8],
) -> Result<Walk, ViewFault>
    requires fits { IfSome (S.told shelf.old) (λ t. FitsRepo (told_files t) (repo_view repo.old) (cached_in repo.old)) }
    ensures begins { IfOk result (λ walk. IfSome (S.told shelf.old) (λ t.
        Begins (told_files t) (repo_view repo.old) name.now (walk_view walk))) }
    ensures refused { IfErr result (λ fault. IfSome (S.told shelf.old) (λ t.
        RefusesBegin (told_files t) (repo_view repo.old) name.now fault)) }
    ensures fits { IfSome (S.told shelf.new) (λ t. FitsRepo (told_files t) (repo_view repo.new) (cached_in repo.new)) }
    ensures kept { repo_view repo.new ≡ repo_view repo.old }
    ensures same { KeepsTold shelf_failed (S.told shelf.old) (S.told shelf.new) result }
    ensures source { HasCause shelf_failed (S.faults shelf.old) (S.faults shelf.new) result }
    ensures still { IfErr result (λ fault. view_failed fault ≡ false) }
{
    let Some(id) = repo.record_id(name) else {
        return Err(ViewFault::NotFound);
    };
    let Some(archive) = repo.archive(shelf, name)? else {
        return Err(ViewFault::NotFound);
    };
    let walk = repo.walk_stream(&id, &archive);
    drop(archive);
    Ok(walk?)
}
