//! The references of an archive.
ghost use Rattle.std.specs.Prelude.{◌≡◌, ◌∷◌, IfErr, IfSome, OnOk};
ghost use Rattle.ferry_check.specs.Report.{ids_in, ids_of};
ghost use Rattle.ferry_check.specs.Verify.{IsNamed};
ghost use Rattle.ferry_disk.specs.Device.{KeepsTold, HasCause, told_files};
ghost use Rattle.ferry_item.specs.Item.{item_view};
ghost use Rattle.ferry_manifest.specs.Record.Text.{archive_view};
ghost use Rattle.ferry_repo.specs.Fault.{repo_failed, IsOfFiles};
ghost use Rattle.ferry_repo.specs.Opening.{repo_view, cached_in, FitsRepo};
ghost use Rattle.ferry_repo.specs.Walk.{walk_view, FitsWalk};
ghost use Rattle.ferry_refs.specs.Refs.{RefusesRead, count_in};
ghost use Rattle.ferry_refs.specs.Steps.{Adds, CountsItems, CountsArchive, StreamEnds};

use crate::counts::Counts;
use ferry_base::Id;
use ferry_disk::Shelf;
use ferry_item::{ChunkRef, Item};
use ferry_manifest::Archive;
use ferry_repo::{Repo, RepoFault, Walk};

/// Counts what the archive of a name uses.
pub(crate) fn count_archive<S: Shelf>(
    repo: &mut Repo,
    shelf: &mut S,
    name: &[u8],
    counts: &mut Counts,
) -> Result<(), RepoFault>
    requires fits { IfSome (S.told shelf.old) (λ t. FitsRepo (told_files t) (repo_view repo.old) (cached_in repo.old)) }
    requires named { IsNamed (repo_view repo.old) name.now }
    ensures archive { OnOk result (CountsArchive (S.told shelf.old) (repo_view repo.old) name.now (count_in counts.old) (count_in counts.new)) }
    ensures refused { IfErr result (λ fault. IsOfFiles fault → IfSome (S.told shelf.old) (λ t.
        RefusesRead (told_files t) (repo_view repo.old) name.now fault)) }
    ensures fits { IfSome (S.told shelf.new) (λ t. FitsRepo (told_files t) (repo_view repo.new) (cached_in repo.new)) }
    ensures kept { repo_view repo.new ≡ repo_view repo.old }
    ensures same { KeepsTold repo_failed (S.told shelf.old) (S.told shelf.new) result }
    ensures cause { HasCause repo_failed (S.faults shelf.old) (S.faults shelf.new) result }
{
    let Some(id) = repo.record_id(name) else {
        unreachable!()
    };
    let Some(archive) = repo.archive(shelf, name)? else {
        return Err(RepoFault::Missing(id));
    };
    count_record(&id, &archive, counts)?;
    let mut walk = repo.walk(&id, &archive)?;
    count_items(repo, shelf, &mut walk, counts)
}

/// Counts the record of an archive and the pieces of its stream.
fn count_record(id: &Id, archive: &Archive, counts: &mut Counts) -> Result<(), RepoFault>
    ensures added { OnOk result (Adds (id.now ∷ (archive_view archive.now).items) (count_in counts.old) (count_in counts.new)) }
    ensures memory { IfErr result (λ fault. fault ≡ RepoFault.Memory) }
{
    counts.add(id)?;
    counts.add_all(archive.items.as_slice())
}

/// Counts the chunks of the items that are to come, to the end of the stream.
fn count_items<S: Shelf>(
    repo: &mut Repo,
    shelf: &mut S,
    walk: &mut Walk,
    counts: &mut Counts,
) -> Result<(), RepoFault>
    requires fits { IfSome (S.told shelf.old) (λ t. FitsRepo (told_files t) (repo_view repo.old) (cached_in repo.old)) }
    requires walk_fits { IfSome (S.told shelf.old) (λ t.
        FitsWalk (told_files t) (repo_view repo.old).log (repo_view repo.old).keys (walk_view walk.old)) }
    ensures items { OnOk result (CountsItems (S.told shelf.old) (repo_view repo.old) (walk_view walk.old) (count_in counts.old) (count_in counts.new)) }
    ensures refused { IfErr result (λ fault. IsOfFiles fault → IfSome (S.told shelf.old) (λ t.
        StreamEnds (told_files t) (repo_view repo.old) (walk_view walk.old) fault)) }
    ensures fits { IfSome (S.told shelf.new) (λ t. FitsRepo (told_files t) (repo_view repo.new) (cached_in repo.new)) }
    ensures kept { repo_view repo.new ≡ repo_view repo.old }
    ensures same { KeepsTold repo_failed (S.told shelf.old) (S.told shelf.new) result }
    ensures cause { HasCause repo_failed (S.faults shelf.old) (S.faults shelf.new) result }
{
    for _ in 0..u64::MAX {
        match walk.step(repo, shelf)? {
            Some(item) => count_item(&item, counts)?,
            None => return Ok(()),
        }
    }
    Err(RepoFault::Memory)
}

/// Counts the chunks of an item, where it has content.
fn count_item(item: &Item, counts: &mut Counts) -> Result<(), RepoFault>
    ensures added { OnOk result (Adds (ids_of (item_view item.now)) (count_in counts.old) (count_in counts.new)) }
    ensures memory { IfErr result (λ fault. fault ≡ RepoFault.Memory) }
{
    match &item.chunks {
        Some(chunks) => count_chunks(chunks.as_slice(), counts),
        None => Ok(()),
    }
}

/// Counts the chunks of an item, one after another.
fn count_chunks(chunks: &[ChunkRef], counts: &mut Counts) -> Result<(), RepoFault>
    ensures added { OnOk result (Adds (ids_in chunks.now) (count_in counts.old) (count_in counts.new)) }
    ensures memory { IfErr result (λ fault. fault ≡ RepoFault.Memory) }
{
    for place in 0..chunks.len() {
        counts.add(&chunks[place].id)?;
    }
    Ok(())
}
