//! The chunks that go with an archive.
ghost use Rattle.std.specs.Prelude.{◌≡◌, ◌∷◌, ◌++◌, [], IfOk, IfErr, IfSome, OnOk, filter};
ghost use Rattle.std.specs.BTreeMap.{IsOrdered, keys};
ghost use Rattle.std.specs.List.{AllByRecursion};
ghost use Rattle.ferry_check.specs.Verify.{IsChunk, IsNamed};
ghost use Rattle.ferry_disk.specs.Device.{KeepsTold, HasCause, told_files};
ghost use Rattle.ferry_log.specs.Live.{key_cmp};
ghost use Rattle.ferry_manifest.specs.Manifest.Writing.{IsPackable};
ghost use Rattle.ferry_repo.specs.Fault.{repo_failed, IsOfFiles};
ghost use Rattle.ferry_repo.specs.Opening.{repo_view, cached_in, FitsRepo};
ghost use Rattle.ferry_refs.specs.Deleting.{AreGoing};
ghost use Rattle.ferry_refs.specs.Refs.{RefusesRead, RefusesRefs, count_in};
ghost use Rattle.ferry_refs.specs.Steps.{CountsArchive, goes_by, no_tally};

use crate::archive::count_archive;
use crate::counts::Counts;
use ferry_base::{Id, ZERO_ID};
use ferry_disk::Shelf;
use ferry_log::Log;
use ferry_repo::{Repo, RepoFault};
use std::alloc::Global;
use std::collections::BTreeMap;

/// The ids of the chunks that go with the archive of a name, in byte order.
///
/// The records and item streams of all archives are read, and then those of this one again.
pub(crate) fn going_ids<S: Shelf>(
    alloc: Global,
    repo: &mut Repo,
    shelf: &mut S,
    name: &[u8],
) -> Result<Vec<Id>, RepoFault>
    requires fits { IfSome (S.told shelf.old) (λ t. FitsRepo (told_files t) (repo_view repo.old) (cached_in repo.old)) }
    requires named { IsNamed (repo_view repo.old) name.now }
    requires packable { IsPackable (repo_view repo.old).manifest }
    ensures going { IfOk result (λ ids. IfSome (S.told shelf.old) (λ t. AreGoing (told_files t) (repo_view repo.old) name.now ids.items)) }
    ensures chunks { IfOk result (λ ids. AllByRecursion (IsChunk (repo_view repo.old).log) ids.items) }
    ensures refused { IfErr result (λ fault. IsOfFiles fault → IfSome (S.told shelf.old) (λ t.
        RefusesRefs (told_files t) (repo_view repo.old) fault)) }
    ensures fits { IfSome (S.told shelf.new) (λ t. FitsRepo (told_files t) (repo_view repo.new) (cached_in repo.new)) }
    ensures kept { repo_view repo.new ≡ repo_view repo.old }
    ensures same { KeepsTold repo_failed (S.told shelf.old) (S.told shelf.new) result }
    ensures cause { HasCause repo_failed (S.faults shelf.old) (S.faults shelf.new) result }
{
    let all = Counts::of(alloc, repo, shelf)?;
    let own = count_one(alloc, repo, shelf, name)?;
    ids_alone(alloc, repo.log(), &all, &own)
}

/// How often the archive of a name uses each chunk.
fn count_one<S: Shelf>(
    alloc: Global,
    repo: &mut Repo,
    shelf: &mut S,
    name: &[u8],
) -> Result<Counts, RepoFault>
    requires fits { IfSome (S.told shelf.old) (λ t. FitsRepo (told_files t) (repo_view repo.old) (cached_in repo.old)) }
    requires named { IsNamed (repo_view repo.old) name.now }
    ensures archive { IfOk result (λ counts. CountsArchive (S.told shelf.old) (repo_view repo.old) name.now no_tally (count_in counts)) }
    ensures refused { IfErr result (λ fault. IsOfFiles fault → IfSome (S.told shelf.old) (λ t.
        RefusesRead (told_files t) (repo_view repo.old) name.now fault)) }
    ensures fits { IfSome (S.told shelf.new) (λ t. FitsRepo (told_files t) (repo_view repo.new) (cached_in repo.new)) }
    ensures kept { repo_view repo.new ≡ repo_view repo.old }
    ensures same { KeepsTold repo_failed (S.told shelf.old) (S.told shelf.new) result }
    ensures cause { HasCause repo_failed (S.faults shelf.old) (S.faults shelf.new) result }
{
    let mut counts = Counts {
        counts: BTreeMap::new(alloc),
    };
    count_archive(repo, shelf, name, &mut counts)?;
    Ok(counts)
}

/// The ids of live chunks that one archive uses as often as all archives do, in byte order.
pub(crate) fn ids_alone(
    alloc: Global,
    log: &Log,
    all: &Counts,
    own: &Counts,
) -> Result<Vec<Id>, RepoFault>
    ensures ids { IfOk result (λ ids. ids.items ≡ filter (goes_by log.now (count_in all.now) (count_in own.now)) (keys own.now.counts)) }
    ensures ordered { IsOrdered key_cmp own.now.counts }
    ensures memory { IfErr result (λ fault. fault ≡ RepoFault.Memory) }
{
    let mut ids = Vec::new(alloc);
    for id in own.counts.keys() {
        if goes_alone(log, all, own, id) {
            push_id(*id, &mut ids)?;
        }
    }
    Ok(ids)
}

/// Appends an id.
fn push_id(id: Id, ids: &mut Vec<Id>) -> Result<(), RepoFault>
    ensures pushed { OnOk result (ids.new.items ≡ ids.old.items ++ (id ∷ [])) }
    ensures memory { IfErr result (λ fault. fault ≡ RepoFault.Memory) }
{
    match ids.push(id) {
        Ok(()) => Ok(()),
        Err(_) => Err(RepoFault::Memory),
    }
}

/// Whether an id is that of a live chunk, which one archive uses, and as often as all archives do.
fn goes_alone(log: &Log, all: &Counts, own: &Counts, id: &Id) -> bool
    ensures { result ≡ goes_by log.now (count_in all.now) (count_in own.now) id.now }
{
    let uses = own.get(id);
    uses > 0 && uses == all.get(id) && *id != ZERO_ID && log.find(id).is_some()
}
