//! The items of an archive are restored, one after another.
ghost use Rattle.std.specs.Prelude.{◌≡◌, true, IfErr, IfSome, OnOk, OnErr};
ghost use Rattle.ferry_disk.specs.Device.{KeepsTold, HasCause, told_files};
ghost use Rattle.ferry_item.specs.Item.{item_view};
ghost use Rattle.ferry_repo.specs.Opening.{repo_view, cached_in, FitsRepo};
ghost use Rattle.ferry_repo.specs.Walk.{walk_view, FitsWalk};
ghost use Rattle.ferry_tree.specs.Faults.{source_failed, stop_fault, tree_lost};
ghost use Rattle.ferry_tree.specs.Filling.{FillsAll, FillsPart, RefusesFilling};
ghost use Rattle.ferry_tree.specs.Growth.{Grown, bare};
ghost use Rattle.ferry_tree.specs.Nodes.{HasCurrent};
ghost use Rattle.ferry_tree.specs.Restoring.{Stands, RestoresItem, PartOfItem, RefusesItem, RestoresItems, PartOfItems, RefusesItems};
ghost use Rattle.ferry_tree.specs.Shapes.{chunks_of};

use crate::device::Tree;
use crate::fault::RestoreFault;
use crate::filling::fill;
use crate::known::Index;
use crate::placing::{Counts, Stop, place_item};
use crate::planning::Shape;
use crate::shape::shape_of;
use ferry_base::Bytes;
use ferry_disk::Shelf;
use ferry_item::Item;
use ferry_repo::{Repo, Walk};
use std::alloc::Global;

/// Restores the items that are to come, to the end of the stream, in a tree of which nothing is known.
pub(crate) fn restore_items<S: Shelf, T: Tree>(
    alloc: Global,
    repo: &mut Repo,
    shelf: &mut S,
    tree: &mut T,
    walk: &mut Walk,
    known: &mut Index,
    counts: &mut Counts,
) -> Result<(), RestoreFault>
    requires fits { IfSome (S.told shelf.old) (λ t. FitsRepo (told_files t) (repo_view repo.old) (cached_in repo.old)) }
    requires walk_fits { IfSome (S.told shelf.old) (λ t.
        FitsWalk (told_files t) (repo_view repo.old).log (repo_view repo.old).keys (walk_view walk.old)) }
    requires bare { Stands (T.told tree.old) known.old counts.old bare }
    ensures restored { OnOk result (RestoresItems (S.told shelf.old) (repo_view repo.old) (walk_view walk.old) (T.told tree.new) counts.new) }
    ensures err { OnErr result (PartOfItems (S.told shelf.old) (repo_view repo.old) (walk_view walk.old) (T.told tree.new)) }
    ensures refused { IfErr result (λ fault. IfSome (S.told shelf.old) (λ t.
        RefusesItems (told_files t) (repo_view repo.old) (walk_view walk.old) fault)) }
    ensures fits { IfSome (S.told shelf.new) (λ t. FitsRepo (told_files t) (repo_view repo.new) (cached_in repo.new)) }
    ensures kept { repo_view repo.new ≡ repo_view repo.old }
    ensures same { KeepsTold source_failed (S.told shelf.old) (S.told shelf.new) result }
    ensures source { HasCause source_failed (S.faults shelf.old) (S.faults shelf.new) result }
    ensures cause { HasCause tree_lost (T.faults tree.old) (T.faults tree.new) result }
{
    for _ in 0..u64::MAX {
        match walk.step(repo, shelf)? {
            Some(item) => restore_item(alloc, walk, repo, shelf, tree, known, counts, &item)?,
            None => return Ok(()),
        }
    }
    Err(RestoreFault::Memory)
}

/// Restores an item, behind which the walk stands: makes its node, and reads its content, which goes to the file that was made for it.
fn restore_item<S: Shelf, T: Tree>(
    alloc: Global,
    walk: &Walk,
    repo: &mut Repo,
    shelf: &mut S,
    tree: &mut T,
    known: &mut Index,
    counts: &mut Counts,
    item: &Item,
) -> Result<(), RestoreFault>
    requires fits { IfSome (S.told shelf.old) (λ t. FitsRepo (told_files t) (repo_view repo.old) (cached_in repo.old)) }
    requires stands { (before : Grown) × Stands (T.told tree.old) known.old counts.old before }
    ensures restored { (before : Grown) → Stands (T.told tree.old) known.old counts.old before → OnOk result (
        RestoresItem (S.told shelf.old) (repo_view repo.old) (item_view item.now) before (T.told tree.new) known.new counts.new) }
    ensures err { (before : Grown) → Stands (T.told tree.old) known.old counts.old before → OnErr result (
        PartOfItem (S.told shelf.old) (repo_view repo.old) (item_view item.now) before (T.told tree.new)) }
    ensures refused { (before : Grown) → Stands (T.told tree.old) known.old counts.old before → IfErr result (λ fault. IfSome (S.told shelf.old) (λ t.
        RefusesItem (told_files t) (repo_view repo.old) (item_view item.now) before fault)) }
    ensures fits { IfSome (S.told shelf.new) (λ t. FitsRepo (told_files t) (repo_view repo.new) (cached_in repo.new)) }
    ensures kept { repo_view repo.new ≡ repo_view repo.old }
    ensures same { KeepsTold source_failed (S.told shelf.old) (S.told shelf.new) result }
    ensures source { HasCause source_failed (S.faults shelf.old) (S.faults shelf.new) result }
    ensures cause { HasCause tree_lost (T.faults tree.old) (T.faults tree.new) result }
{
    let shape = shape_of(alloc, item)?;
    match place_item(alloc, tree, known, counts, &shape) {
        Ok(takes) => fill_item(walk, repo, shelf, tree, item, takes),
        Err(stop) => Err(of_stop(shape, stop)),
    }
}

/// Reads the content of an item, which goes to the current file where it belongs there.
fn fill_item<S: Shelf, T: Tree>(
    walk: &Walk,
    repo: &mut Repo,
    shelf: &mut S,
    tree: &mut T,
    item: &Item,
    takes: bool,
) -> Result<(), RestoreFault>
    requires fits { IfSome (S.told shelf.old) (λ t. FitsRepo (told_files t) (repo_view repo.old) (cached_in repo.old)) }
    requires current { takes ≡ true → IfSome (T.told tree.old) (λ t. HasCurrent t.nodes) }
    ensures ok { OnOk result (FillsAll (S.told shelf.old) (repo_view repo.old) (chunks_of (item_view item.now)) takes (T.told tree.old) (T.told tree.new)) }
    ensures err { OnErr result (FillsPart (S.told shelf.old) (repo_view repo.old) (chunks_of (item_view item.now)) takes (T.told tree.old) (T.told tree.new)) }
    ensures refused { IfErr result (λ fault. IfSome (S.told shelf.old) (λ t.
        RefusesFilling (told_files t) (repo_view repo.old) (chunks_of (item_view item.now)) fault)) }
    ensures fits { IfSome (S.told shelf.new) (λ t. FitsRepo (told_files t) (repo_view repo.new) (cached_in repo.new)) }
    ensures kept { repo_view repo.new ≡ repo_view repo.old }
    ensures same { KeepsTold source_failed (S.told shelf.old) (S.told shelf.new) result }
    ensures source { HasCause source_failed (S.faults shelf.old) (S.faults shelf.new) result }
    ensures cause { HasCause tree_lost (T.faults tree.old) (T.faults tree.new) result }
{
    match &item.chunks {
        Some(chunks) => fill(walk, repo, shelf, tree, chunks.as_slice(), takes),
        None => fill(walk, repo, shelf, tree, &[], takes),
    }
}

/// Why the item of this shape wasn't restored.
fn of_stop(shape: Shape, stop: Stop) -> RestoreFault
    ensures { result ≡ stop_fault shape.path stop }
{
    match stop {
        Stop::Place(fault) => RestoreFault::Place(path_of(shape), fault),
        Stop::Tree => RestoreFault::Tree,
        Stop::Memory => RestoreFault::Memory,
    }
}

/// The path of a shape.
fn path_of(shape: Shape) -> Bytes
    ensures { result ≡ shape.path }
{
    shape.path
}
