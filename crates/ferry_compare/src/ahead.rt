//! The next item of a walk, and the contents that are wanted with it, read ahead.
ghost use Rattle.std.specs.Prelude.{◌≡◌, ◌∷◌, [], Ok, None, Some, IfOk, IfErr, IfSome};
ghost use Rattle.ferry_disk.specs.Device.{KeepsTold, HasCause, told_files};
ghost use Rattle.ferry_item.specs.Item.{item_view};
ghost use Rattle.ferry_repo.specs.Fault.{repo_failed, IsOfFiles};
ghost use Rattle.ferry_repo.specs.Opening.{repo_view, cached_in, FitsRepo};
ghost use Rattle.ferry_repo.specs.Walk.{walk_view, IsToCome, LeadsOn, FitsWalk};

use ferry_disk::Shelf;
use ferry_item::{ChunkRef, Item};
use ferry_repo::{Repo, RepoFault, Walk};

/// Answers the next item as `Walk::step` does. Its contents, and those of the items that follow, are read ahead, which changes the time alone.
pub(crate) fn step_ahead<S: Shelf>(
    walk: &mut Walk,
    repo: &mut Repo,
    shelf: &mut S,
) -> Result<Option<Item>, RepoFault>
    requires fits { IfSome (S.told shelf.old) (λ t. FitsRepo (told_files t) (repo_view repo.old) (cached_in repo.old)) }
    requires walk_fits { IfSome (S.told shelf.old) (λ t.
        FitsWalk (told_files t) (repo_view repo.old).log (repo_view repo.old).keys (walk_view walk.old)) }
    ensures item { IfOk result (λ found. IfSome found (λ item. IfSome (S.told shelf.old) (λ t.
        LeadsOn (told_files t) (repo_view repo.old).log (repo_view repo.old).keys
        (walk_view walk.old) (item_view item ∷ []) (walk_view walk.new)))) }
    ensures none { result ≡ Ok None → IfSome (S.told shelf.old) (λ t.
        IsToCome (told_files t) (repo_view repo.old).log (repo_view repo.old).keys (walk_view walk.old) [] None) }
    ensures refused { IfErr result (λ fault. IsOfFiles fault → IfSome (S.told shelf.old) (λ t.
        IsToCome (told_files t) (repo_view repo.old).log (repo_view repo.old).keys (walk_view walk.old) [] (Some fault))) }
    ensures archive { ((walk_view walk.new).id ≡ (walk_view walk.old).id) × ((walk_view walk.new).ids ≡ (walk_view walk.old).ids) }
    ensures walk_fits { IfSome (S.told shelf.old) (λ t.
        FitsWalk (told_files t) (repo_view repo.old).log (repo_view repo.old).keys (walk_view walk.new)) }
    ensures fits { IfSome (S.told shelf.new) (λ t. FitsRepo (told_files t) (repo_view repo.new) (cached_in repo.new)) }
    ensures kept { repo_view repo.new ≡ repo_view repo.old }
    ensures same { KeepsTold repo_failed (S.told shelf.old) (S.told shelf.new) result }
    ensures cause { HasCause repo_failed (S.faults shelf.old) (S.faults shelf.new) result }
{
    let found = walk.step(repo, shelf)?;
    read_contents(walk, repo, shelf, &found)?;
    Ok(found)
}

/// Reads the contents of an item that a walk has answered, and of the items that follow, so many as are read ahead.
fn read_contents<S: Shelf>(
    walk: &Walk,
    repo: &mut Repo,
    shelf: &mut S,
    found: &Option<Item>,
) -> Result<(), RepoFault>
    requires fits { IfSome (S.told shelf.old) (λ t. FitsRepo (told_files t) (repo_view repo.old) (cached_in repo.old)) }
    ensures refused { IfErr result (λ fault. IsOfFiles fault → ⊥) }
    ensures fits { IfSome (S.told shelf.new) (λ t. FitsRepo (told_files t) (repo_view repo.new) (cached_in repo.new)) }
    ensures kept { repo_view repo.new ≡ repo_view repo.old }
    ensures same { KeepsTold repo_failed (S.told shelf.old) (S.told shelf.new) result }
    ensures cause { HasCause repo_failed (S.faults shelf.old) (S.faults shelf.new) result }
{
    match found {
        Some(item) => match &item.chunks {
            Some(chunks) => read_chunks(walk, repo, shelf, chunks.as_slice()),
            None => Ok(()),
        },
        None => Ok(()),
    }
}

/// Reads these, where they aren't passed over, and those of the items that follow.
fn read_chunks<S: Shelf>(
    walk: &Walk,
    repo: &mut Repo,
    shelf: &mut S,
    chunks: &[ChunkRef],
) -> Result<(), RepoFault>
    requires fits { IfSome (S.told shelf.old) (λ t. FitsRepo (told_files t) (repo_view repo.old) (cached_in repo.old)) }
    ensures refused { IfErr result (λ fault. IsOfFiles fault → ⊥) }
    ensures fits { IfSome (S.told shelf.new) (λ t. FitsRepo (told_files t) (repo_view repo.new) (cached_in repo.new)) }
    ensures kept { repo_view repo.new ≡ repo_view repo.old }
    ensures same { KeepsTold repo_failed (S.told shelf.old) (S.told shelf.new) result }
    ensures cause { HasCause repo_failed (S.faults shelf.old) (S.faults shelf.new) result }
{
    if repo.passes_over(chunks) {
        return Ok(());
    }
    walk.read_ahead(repo, shelf, chunks)
}
