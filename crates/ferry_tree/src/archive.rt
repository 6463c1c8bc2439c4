//! An archive is restored.
ghost use Rattle.std.specs.Prelude.{◌≡◌, ◌⊎◌, true, false, IfOk, IfErr, IfSome, OnErr};
ghost use Rattle.ferry_disk.specs.Device.{KeepsTold, HasCause, told_files};
ghost use Rattle.ferry_repo.specs.Opening.{repo_view, cached_in, FitsRepo};
ghost use Rattle.ferry_repo.specs.Walk.{walk_view, FitsWalk};
ghost use Rattle.ferry_tree.specs.Faults.{source_failed, tree_lost};
ghost use Rattle.ferry_tree.specs.Nodes.{is_bare};
ghost use Rattle.ferry_tree.specs.Restoring.{PartOfArchive, PartOfItems, RefusesArchive, RefusesBegin, RefusesItems, RestoresArchive, RestoresItems};
ghost use Rattle.ferry_view.specs.Steps.{Begins};

use crate::device::Tree;
use crate::fault::RestoreFault;
use crate::known::Index;
use crate::placing::Counts;
use crate::restoring::restore_items;
use ferry_disk::Shelf;
use ferry_repo::{Repo, Walk};
use std::alloc::Global;

/// Restores the archive of a name in an empty tree, and answers how many items it was made of.
///
/// Its folders, its files with their contents, and its symbolic and hard links are made, in the order of its items; what else an item says of a file isn't.
/// `NotFound` comes where no archive has the name, and `NotEmpty` where the tree has a node; nothing is made then. At any other refusal the tree is that of
/// the items in front, and may have a part of the next one: some of the folders above it, or its file with a front of its content.
///
/// Source: BorgBackup 1.2, Internals, "Data structures and file formats", Archives.
#[tactic(auto, using(crate::proofs::FaultLemmas::conversions))]
pub fn restore<S: Shelf, T: Tree>(
    alloc: Global,
    repo: &mut Repo,
    shelf: &mut S,
    tree: &mut T,
    name: &[u8],
) -> Result<Counts, RestoreFault>
    requires fits { IfSome (S.told shelf.old) (λ t. FitsRepo (told_files t) (repo_view repo.old) (cached_in repo.old)) }
    ensures restored { IfOk result (λ counts.
        RestoresArchive (S.told shelf.old) (repo_view repo.old) name.now (T.told tree.old) (T.told tree.new) counts) }
    ensures err { OnErr result ((T.told tree.new ≡ T.told tree.old)
        ⊎ PartOfArchive (S.told shelf.old) (repo_view repo.old) name.now (T.told tree.old) (T.told tree.new)) }
    ensures refused { IfErr result (λ fault. IfSome (S.told shelf.old) (λ t.
        RefusesArchive (told_files t) (repo_view repo.old) name.now (T.told tree.old) fault)) }
    ensures fits { IfSome (S.told shelf.new) (λ t. FitsRepo (told_files t) (repo_view repo.new) (cached_in repo.new)) }
    ensures kept { repo_view repo.new ≡ repo_view repo.old }
    ensures same { KeepsTold source_failed (S.told shelf.old) (S.told shelf.new) result }
    ensures source { HasCause source_failed (S.faults shelf.old) (S.faults shelf.new) result }
    ensures cause { HasCause tree_lost (T.faults tree.old) (T.faults tree.new) result }
{
    if repo.record_id(name).is_none() {
        return Err(RestoreFault::NotFound);
    }
    if !tree.is_empty()? {
        return Err(RestoreFault::NotEmpty);
    }
    match begin(repo, shelf, name) {
        Ok(mut walk) => restore_walk(alloc, repo, shelf, tree, &mut walk),
        Err(fault) => Err(fault),
    }
}

/// A walk in front of the items of the archive of a name.
#[tactic(auto, using(crate::proofs::FaultLemmas::conversions))]
fn begin<S: Shelf>(repo: &mut Repo, shelf: &mut S, name: &[u8]) -> Result<Walk, RestoreFault>
    requires fits { IfSome (S.told shelf.old) (λ t. FitsRepo (told_files t) (repo_view repo.old) (cached_in repo.old)) }
    ensures begins { IfOk result (λ walk. IfSome (S.told shelf.old) (λ t.
        Begins (told_files t) (repo_view repo.old) name.now (walk_view walk))) }
    ensures walk_fits { IfOk result (λ walk. IfSome (S.told shelf.new) (λ t.
        FitsWalk (told_files t) (repo_view repo.new).log (repo_view repo.new).keys (walk_view walk))) }
    ensures refused { IfErr result (λ fault. IfSome (S.told shelf.old) (λ t.
        RefusesBegin (told_files t) (repo_view repo.old) name.now fault)) }
    ensures fits { IfSome (S.told shelf.new) (λ t. FitsRepo (told_files t) (repo_view repo.new) (cached_in repo.new)) }
    ensures kept { repo_view repo.new ≡ repo_view repo.old }
    ensures same { KeepsTold source_failed (S.told shelf.old) (S.told shelf.new) result }
    ensures source { HasCause source_failed (S.faults shelf.old) (S.faults shelf.new) result }
    ensures still { IfErr result (λ fault. tree_lost fault ≡ false) }
{
    let Some(id) = repo.record_id(name) else {
        return Err(RestoreFault::NotFound);
    };
    let Some(archive) = repo.archive(shelf, name)? else {
        return Err(RestoreFault::NotFound);
    };
    Ok(repo.walk(&id, &archive)?)
}

/// Restores the items that are to come in an empty tree.
fn restore_walk<S: Shelf, T: Tree>(
    alloc: Global,
    repo: &mut Repo,
    shelf: &mut S,
    tree: &mut T,
    walk: &mut Walk,
) -> Result<Counts, RestoreFault>
    requires fits { IfSome (S.told shelf.old) (λ t. FitsRepo (told_files t) (repo_view repo.old) (cached_in repo.old)) }
    requires walk_fits { IfSome (S.told shelf.old) (λ t.
        FitsWalk (told_files t) (repo_view repo.old).log (repo_view repo.old).keys (walk_view walk.old)) }
    requires empty { IfSome (T.told tree.old) (λ t. is_bare t ≡ true) }
    ensures restored { IfOk result (λ counts.
        RestoresItems (S.told shelf.old) (repo_view repo.old) (walk_view walk.old) (T.told tree.new) counts) }
    ensures err { OnErr result (PartOfItems (S.told shelf.old) (repo_view repo.old) (walk_view walk.old) (T.told tree.new)) }
    ensures refused { IfErr result (λ fault. IfSome (S.told shelf.old) (λ t.
        RefusesItems (told_files t) (repo_view repo.old) (walk_view walk.old) fault)) }
    ensures fits { IfSome (S.told shelf.new) (λ t. FitsRepo (told_files t) (repo_view repo.new) (cached_in repo.new)) }
    ensures kept { repo_view repo.new ≡ repo_view repo.old }
    ensures same { KeepsTold source_failed (S.told shelf.old) (S.told shelf.new) result }
    ensures source { HasCause source_failed (S.faults shelf.old) (S.faults shelf.new) result }
    ensures cause { HasCause tree_lost (T.faults tree.old) (T.faults tree.new) result }
{
    let mut known = Index::new(alloc);
    let mut counts = Counts {
        files: 0,
        folders: 0,
        links: 0,
        skipped: 0,
    };
    match restore_items(alloc, repo, shelf, tree, walk, &mut known, &mut counts) {
        Ok(()) => Ok(counts),
        Err(fault) => Err(fault),
    }
}
