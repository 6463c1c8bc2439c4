//! Where a comparison begins: both records, and the head of both archives.
ghost use Rattle.std.specs.Prelude.{◌≡◌, ◌<◌, ◌↔◌, IsTrue, None, Some, false, length, get_or, option_map, IfOk, IfErr, IfSome, IsSome};
ghost use Rattle.ferry_disk.specs.Device.{KeepsTold, HasCause, told_files};
ghost use Rattle.ferry_manifest.specs.declared.manifest.ArchiveRef.{ArchiveRef};
ghost use Rattle.ferry_msgpack.specs.View.{value_view};
ghost use Rattle.ferry_repo.specs.Archives.{archive_named};
ghost use Rattle.ferry_repo.specs.Fault.{repo_failed};
ghost use Rattle.ferry_repo.specs.Opening.{repo_view, cached_in, FitsRepo};
ghost use Rattle.ferry_repo.specs.Walk.{walk_view};
ghost use Rattle.ferry_compare.specs.Fault.{source_failed, target_failed, IsTargetFault};
ghost use Rattle.ferry_compare.specs.Steps.{side_view, Opens, RefusesSide, OpensBeside, time_named, KeepsSide};

use crate::fault::{CompareFault, of_target};
use crate::same::same_value;
use ferry_disk::Shelf;
use ferry_manifest::{Archive, ArchiveRef};
use ferry_repo::{Repo, RepoFault, Walk};

/// An archive whose record was read, and a walk in front of its items.
#[derive(Drop)]
pub(crate) struct Side {
    pub(crate) archive: Archive,
    pub(crate) walk: Walk,
}

/// The walk of a side, whose record isn't kept.
pub(crate) fn walk_of(side: Side) -> Walk
    ensures walk { walk_view result ≡ (side_view side).walk }
{
    side.walk
}

/// Reads the record of the archive of a name.
pub(crate) fn open_side<S: Shelf>(
    repo: &mut Repo,
    shelf: &mut S,
    name: &[u8],
) -> Result<Side, RepoFault>
    requires fits { IfSome (S.told shelf.old) (λ t. FitsRepo (told_files t) (repo_view repo.old) (cached_in repo.old)) }
    requires named { IsSome (archive_named name.now (repo_view repo.old).manifest.archives) }
    ensures opens { IfOk result (λ side. IfSome (S.told shelf.old) (λ t.
        Opens (told_files t) (repo_view repo.old) name.now (side_view side))) }
    ensures refused { IfErr result (λ fault. IfSome (S.told shelf.old) (λ t.
        RefusesSide (told_files t) (repo_view repo.old) name.now fault)) }
    ensures fits { IfSome (S.told shelf.new) (λ t. FitsRepo (told_files t) (repo_view repo.new) (cached_in repo.new)) }
    ensures kept { repo_view repo.new ≡ repo_view repo.old }
    ensures same { KeepsTold repo_failed (S.told shelf.old) (S.told shelf.new) result }
    ensures cause { HasCause repo_failed (S.faults shelf.old) (S.faults shelf.new) result }
{
    let Some(id) = repo.record_id(name) else {
        unreachable!()
    };
    let Some(archive) = repo.archive(shelf, name)? else {
        return Err(RepoFault::Missing(id));
    };
    let walk = repo.walk(&id, &archive)?;
    Ok(Side { archive, walk })
}

/// Reads the target's record of a name. Where its files refuse it, there is none.
pub(crate) fn open_target<T: Shelf>(
    target: &mut Repo,
    other: &mut T,
    name: &[u8],
) -> Result<Option<Side>, CompareFault>
    requires fits { IfSome (T.told other.old) (λ t. FitsRepo (told_files t) (repo_view target.old) (cached_in target.old)) }
    requires named { IsSome (archive_named name.now (repo_view target.old).manifest.archives) }
    ensures opens { IfOk result (λ found. IfSome (T.told other.old) (λ t.
        OpensBeside (told_files t) (repo_view target.old) name.now (option_map side_view found))) }
    ensures refused { IfErr result IsTargetFault }
    ensures still { IfErr result (λ fault. source_failed fault ≡ false) }
    ensures fits { IfSome (T.told other.new) (λ t. FitsRepo (told_files t) (repo_view target.new) (cached_in target.new)) }
    ensures kept { repo_view target.new ≡ repo_view target.old }
    ensures same { KeepsTold target_failed (T.told other.old) (T.told other.new) result }
    ensures cause { HasCause target_failed (T.faults other.old) (T.faults other.new) result }
{
    match open_side(target, other, name) {
        Ok(side) => Ok(Some(side)),
        Err(fault) => match of_target(fault) {
            Some(fault) => Err(fault),
            None => Ok(None),
        },
    }
}

/// The target's walk, where its record reads, and both archives have the same time and the same fields.
pub(crate) fn keep_side(
    source: &Repo,
    target: &Repo,
    name: &[u8],
    first: &Side,
    second: Option<Side>,
) -> Option<Walk>
    requires named { IsSome (archive_named name.now (repo_view source.now).manifest.archives) }
    requires other_named { IsSome (archive_named name.now (repo_view target.now).manifest.archives) }
    ensures walk { KeepsSide (repo_view source.now) (repo_view target.now) name.now (side_view first.now).archive.fields
        (option_map side_view second) (option_map walk_view result) }
{
    let archives = source.manifest().archives.as_slice();
    let others = target.manifest().archives.as_slice();
    match second {
        Some(side) => {
            if !same_time(archives, others, name) {
                return None;
            }
            if !same_value(&first.archive.fields, &side.archive.fields) {
                return None;
            }
            Some(side.walk)
        }
        None => None,
    }
}

/// Whether two manifests have the same time for a name.
fn same_time(archives: &[ArchiveRef], others: &[ArchiveRef], name: &[u8]) -> bool
    requires named { IsSome (archive_named name.now archives.now) }
    requires other_named { IsSome (archive_named name.now others.now) }
    ensures same { IsTrue result ↔ (time_named name.now archives.now ≡ time_named name.now others.now) }
{
    let Some(place) = place_named(archives, name) else {
        unreachable!()
    };
    let Some(beside) = place_named(others, name) else {
        unreachable!()
    };
    archives[place].time.as_slice() == others[beside].time.as_slice()
}

/// The place of the archive of a name among these.
pub(crate) fn place_named(archives: &[ArchiveRef], name: &[u8]) -> Option<usize>
    ensures place { IfSome result (λ place. place < length archives.now) }
    ensures named { IfSome result (λ place. (d : ArchiveRef) → archive_named name.now archives.now ≡ Some (get_or archives.now place d)) }
    ensures none { result ≡ None → archive_named name.now archives.now ≡ None }
{
    for place in 0..archives.len() {
        if archives[place].name.as_slice() == name {
            return Some(place);
        }
    }
    None
}
