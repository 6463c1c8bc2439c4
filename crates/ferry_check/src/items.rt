//! The items of an archive.
ghost use Rattle.std.specs.Prelude.{◌≡◌, ◌⊎◌, IfErr, IfSome, OnOk};
ghost use Rattle.std.specs.BTreeMap.{get};
ghost use Rattle.ferry_disk.specs.Device.{KeepsTold, HasCause, told_files};
ghost use Rattle.ferry_log.specs.Live.{key_cmp};
ghost use Rattle.ferry_repo.specs.Fault.{repo_failed, IsOfFiles};
ghost use Rattle.ferry_repo.specs.Opening.{repo_view, cached_in, FitsRepo};
ghost use Rattle.ferry_repo.specs.Walk.{walk_view, FitsWalk};
ghost use Rattle.ferry_check.specs.Steps.{ChecksItems, StreamEnds, ItemEnds};

use crate::chunks::Chunk;
use crate::marks::use_item;
use ferry_base::Id;
use ferry_disk::Shelf;
use ferry_repo::{Repo, RepoFault, Walk};
use std::collections::BTreeMap;

/// Uses the chunks of the items that are to come, to the end of the stream.
pub(crate) fn check_items<S: Shelf>(
    repo: &mut Repo,
    shelf: &mut S,
    walk: &mut Walk,
    chunks: &mut BTreeMap<Id, Chunk>,
) -> Result<(), RepoFault>
    requires fits { IfSome (S.told shelf.old) (λ t. FitsRepo (told_files t) (repo_view repo.old) (cached_in repo.old)) }
    requires walk_fits { IfSome (S.told shelf.old) (λ t.
        FitsWalk (told_files t) (repo_view repo.old).log (repo_view repo.old).keys (walk_view walk.old)) }
    ensures items { OnOk result (ChecksItems (S.told shelf.old) (repo_view repo.old) (walk_view walk.old)
        (get key_cmp chunks.old) (get key_cmp chunks.new)) }
    ensures refused { IfErr result (λ fault. IsOfFiles fault → IfSome (S.told shelf.old) (λ t.
        StreamEnds (told_files t) (repo_view repo.old) (walk_view walk.old) (get key_cmp chunks.old) fault
        ⊎ ItemEnds (told_files t) (repo_view repo.old) (walk_view walk.old) (get key_cmp chunks.old) fault)) }
    ensures fits { IfSome (S.told shelf.new) (λ t. FitsRepo (told_files t) (repo_view repo.new) (cached_in repo.new)) }
    ensures kept { repo_view repo.new ≡ repo_view repo.old }
    ensures same { KeepsTold repo_failed (S.told shelf.old) (S.told shelf.new) result }
    ensures cause { HasCause repo_failed (S.faults shelf.old) (S.faults shelf.new) result }
{
    for _ in 0..u64::MAX {
        match walk.step(repo, shelf)? {
            Some(item) => use_item(&item, chunks)?,
            None => return Ok(()),
        }
    }
    Err(RepoFault::Memory)
}
