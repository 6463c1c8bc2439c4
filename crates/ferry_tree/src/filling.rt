//! The contents of an item are read, and written where they belong to a file.
ghost use Rattle.std.specs.Prelude.{◌≡◌, true, false, [], ◌∷◌, IfErr, IfSome, OnOk, OnErr, option_map};
ghost use Rattle.ferry_disk.specs.Device.{KeepsTold, HasCause, told_files};
ghost use Rattle.ferry_disk.specs.Files.{Files};
ghost use Rattle.ferry_repo.specs.Archives.{HoldsContent};
ghost use Rattle.ferry_repo.specs.Opening.{repo_view, cached_in, FitsRepo};
ghost use Rattle.ferry_tree.specs.Faults.{source_failed, tree_lost};
ghost use Rattle.ferry_tree.specs.Filling.{FillsAll, FillsPart, RefusesFilling, WritesPart};
ghost use Rattle.ferry_tree.specs.Growth.{filled};
ghost use Rattle.ferry_tree.specs.Nodes.{HasCurrent, tree_failed};

use crate::device::{Tree, TreeFault};
use crate::fault::RestoreFault;
use crate::making::write_content;
use ferry_disk::Shelf;
use ferry_item::ChunkRef;
use ferry_repo::{Repo, Walk};

/// Reads the contents of chunks, one after another, and appends each to the current file where they belong to it. The walk stands behind their item.
#[tactic(auto, using(crate::proofs::FaultLemmas::conversions))]
pub(crate) fn fill<S: Shelf, T: Tree>(
    walk: &Walk,
    repo: &mut Repo,
    shelf: &mut S,
    tree: &mut T,
    chunks: &[ChunkRef],
    takes: bool,
) -> Result<(), RestoreFault>
    requires fits { IfSome (S.told shelf.old) (λ t. FitsRepo (told_files t) (repo_view repo.old) (cached_in repo.old)) }
    requires current { takes ≡ true → IfSome (T.told tree.old) (λ t. HasCurrent t.nodes) }
    ensures ok { OnOk result (FillsAll (S.told shelf.old) (repo_view repo.old) chunks.now takes (T.told tree.old) (T.told tree.new)) }
    ensures err { OnErr result (FillsPart (S.told shelf.old) (repo_view repo.old) chunks.now takes (T.told tree.old) (T.told tree.new)) }
    ensures refused { IfErr result (λ fault. IfSome (S.told shelf.old) (λ t.
        RefusesFilling (told_files t) (repo_view repo.old) chunks.now fault)) }
    ensures fits { IfSome (S.told shelf.new) (λ t. FitsRepo (told_files t) (repo_view repo.new) (cached_in repo.new)) }
    ensures kept { repo_view repo.new ≡ repo_view repo.old }
    ensures same { KeepsTold source_failed (S.told shelf.old) (S.told shelf.new) result }
    ensures source { HasCause source_failed (S.faults shelf.old) (S.faults shelf.new) result }
    ensures cause { HasCause tree_lost (T.faults tree.old) (T.faults tree.new) result }
{
    for place in 0..chunks.len() {
        walk.read_ahead(repo, shelf, &chunks[place..])?;
        match kept_of(repo, &chunks[place]) {
            Some(content) => put_content(tree, content, takes)?,
            None => {
                let content = repo.content(shelf, &chunks[place])?;
                put_content(tree, &content, takes)?;
            }
        }
    }
    Ok(())
}

/// The content of a chunk where the repository keeps it, without a copy, and it has the size that the chunk states.
fn kept_of<'a>(repo: &'a Repo, chunk: &ChunkRef) -> Option<&'a [u8]>
    ensures content { IfSome result (λ content. (files : Files) → FitsRepo files (repo_view repo.now) (cached_in repo.now)
        → HoldsContent files (repo_view repo.now).log (repo_view repo.now).keys chunk.now content.now) }
{
    let content = repo.kept_content(&chunk.id)?;
    if content.len() as u64 == chunk.size {
        Some(content)
    } else {
        None
    }
}

/// Appends a content to the current file, where it belongs to it.
fn put_content<T: Tree>(tree: &mut T, content: &[u8], takes: bool) -> Result<(), TreeFault>
    requires current { takes ≡ true → IfSome (T.told tree.old) (λ t. HasCurrent t.nodes) }
    ensures ok { OnOk result (T.told tree.new ≡ option_map (λ t. filled takes (content.now ∷ []) t) (T.told tree.old)) }
    ensures err { OnErr result (WritesPart takes content.now (T.told tree.old) (T.told tree.new)) }
    ensures cause { HasCause tree_failed (T.faults tree.old) (T.faults tree.new) result }
{
    if takes {
        return write_content(tree, content);
    }
    Ok(())
}
