//! The source of the drill, and its copy in the target.
ghost use Rattle.std.specs.Prelude.{◌≡◌, ◌≤◌, [], false, IfErr, IfOk, IfSome, OnOk};
ghost use Rattle.ferry_disk.specs.Act.{files_now};
ghost use Rattle.ferry_disk.specs.Device.{HasCause, told_files};
ghost use Rattle.ferry_disk.specs.Moments.{Between};
ghost use Rattle.ferry_gen.specs.Source.{HasPlain, IsSource, source_secret};
ghost use Rattle.ferry_piece.specs.Fault.{random_failed, shelf_failed};
ghost use Rattle.ferry_piece.specs.Work.{Works};
ghost use Rattle.ferry_repo.specs.Opening.{FitsRepo, OpensFilesTo, RepoState, cached_in, repo_view};
ghost use Rattle.ferry_run_drill.specs.Complete.{EndsCopy, EndsFrom};
ghost use Rattle.ferry_run_drill.specs.Drill.{DropsFirst, TellsStart, target_secret};
ghost use Rattle.ferry_run_drill.specs.Steps.{CopiesNames, IsMadeNew};
ghost use Rattle.ferry_run_transfer.specs.Transfer.{chosen_of};
ghost use Rattle.ferry_manifest.specs.Manifest.Writing.{IsPackable};
ghost use Rattle.ferry_status.specs.Status.{carry_status};
ghost use Rattle.ferry_store.specs.Commit.{IsSettled, accepted_in};
ghost use Rattle.ferry_store.specs.Store.{InitLeaves, IsUnspent};
ghost use Rattle.ferry_write.specs.Session.{SettlesFirst};

use crate::device::OwnDepot;
use ferry_base::Bytes;
use ferry_carry::{Carried, CarryFault, Options, carry};
use ferry_disk::{Depot, Entropy};
use ferry_gen::{make_source, source_secret};
use ferry_repo::{Repo, Secret};
use ferry_run_transfer::chosen_names;
use ferry_store::Store;
use std::alloc::{AllocError, Global};

/// The timestamp of a new repository.
const NO_TIME: &[u8] = b"1970-01-01T00:00:00.000000";

/// The length of the pieces into which the target's contents are cut.
const BLOCK: usize = 512;

/// How many pieces are put before what is done is committed.
const CHECKPOINT: u64 = 1024;

/// How many random bytes are dropped before the target's keys are drawn.
const DROPPED: usize = 100;

/// A source of so many archives, in a depot of its own.
pub(crate) fn own_source(alloc: Global, count: u32) -> Option<OwnDepot>
    requires least { 1 ≤ count }
    requires most { count ≤ 64 }
    ensures source { IfSome result (λ source. IsSource count (files_now source.history)) }
    ensures plain { IfSome result (λ source. HasPlain (files_now source.history)) }
{
    let Ok(mut source) = OwnDepot::new(alloc) else {
        return None;
    };
    match make_source(alloc, &mut source, count) {
        Ok(()) => Some(source),
        Err(_) => None,
    }
}

/// What opens the target.
pub(crate) fn target_secret(alloc: Global) -> Result<Secret, AllocError>
    ensures secret { IfOk result (λ secret. secret ≡ target_secret) }
{
    Ok(Secret {
        passphrase: Bytes::new(Vec::from_slice(alloc, b"target")?),
        key_file: Bytes::new(Vec::new(alloc)),
    })
}

/// Makes a repository in the target, and copies all archives of a source into it.
#[tactic(auto, using(ferry_piece::proofs::FaultLemmas::conversions))]
pub(crate) fn copy_source<D: Depot, E: Entropy>(
    alloc: Global,
    source: &mut OwnDepot,
    target: &mut D,
    entropy: &mut E,
) -> Result<Carried, CarryFault>
    requires opens { (repo : RepoState) × OpensFilesTo (files_now source.old.history) source_secret repo }
    requires begun { IfSome (D.told target.old) (λ t. t.history.acts ≡ []) }
    ensures works { (repo : RepoState) × (OnOk result (OpensFilesTo (files_now source.old.history) source_secret repo)
        × Works SettlesFirst (λ carried. CopiesNames (files_now source.old.history) repo (chosen_of [] repo.manifest) carried)
        (D.told target.old) (D.told target.new) (D.faults target.old) (D.faults target.new) result) }
    ensures start { IfErr result (λ fault. IfSome (D.told target.old) (λ t. TellsStart (told_files t) (carry_status fault))) }
    ensures kept { Between (D.told target.old) (D.told target.new) InitLeaves }
    ensures own { IfErr result (λ fault. shelf_failed fault ≡ false) }
    ensures completes { IfErr result (EndsFrom (files_now source.old.history) (D.told target.old) (D.told target.new)) }
    ensures drops { OnOk result (DropsFirst (D.told target.old) (D.told target.new) (E.drawn entropy.old) (E.drawn entropy.new)) }
    ensures entropy { HasCause random_failed (E.faults entropy.old) (E.faults entropy.new) result }
{
    let secret = source_secret(alloc)?;
    let mut repo = Repo::open(alloc, source, &secret)?;
    copy_all(alloc, &mut repo, source, target, entropy)
}

/// Copies all archives of the opened source.
#[tactic(auto, using(ferry_piece::proofs::FaultLemmas::conversions))]
fn copy_all<D: Depot, E: Entropy>(
    alloc: Global,
    repo: &mut Repo,
    source: &mut OwnDepot,
    target: &mut D,
    entropy: &mut E,
) -> Result<Carried, CarryFault>
    requires fits { FitsRepo (files_now source.old.history) (repo_view repo.old) (cached_in repo.old) }
    requires begun { IfSome (D.told target.old) (λ t. t.history.acts ≡ []) }
    ensures works { Works SettlesFirst (λ carried. CopiesNames (files_now source.old.history) (repo_view repo.old)
        (chosen_of [] (repo_view repo.old).manifest) carried)
        (D.told target.old) (D.told target.new) (D.faults target.old) (D.faults target.new) result }
    ensures start { IfErr result (λ fault. IfSome (D.told target.old) (λ t. TellsStart (told_files t) (carry_status fault))) }
    ensures kept { Between (D.told target.old) (D.told target.new) InitLeaves }
    ensures own { IfErr result (λ fault. shelf_failed fault ≡ false) }
    ensures completes { IfErr result (λ fault. OpensFilesTo (files_now source.old.history) source_secret (repo_view repo.old)
        → EndsFrom (files_now source.old.history) (D.told target.old) (D.told target.new) fault) }
    ensures drops { OnOk result (DropsFirst (D.told target.old) (D.told target.new) (E.drawn entropy.old) (E.drawn entropy.new)) }
    ensures entropy { HasCause random_failed (E.faults entropy.old) (E.faults entropy.new) result }
{
    let names = chosen_names(alloc, repo, &[])?;
    copy_names(alloc, repo, source, &names, target, entropy)
}

/// Makes a repository in the target, and copies the archives of these names into it.
#[tactic(auto, using(ferry_piece::proofs::FaultLemmas::conversions))]
fn copy_names<D: Depot, E: Entropy>(
    alloc: Global,
    repo: &mut Repo,
    source: &mut OwnDepot,
    names: &[Bytes],
    target: &mut D,
    entropy: &mut E,
) -> Result<Carried, CarryFault>
    requires fits { FitsRepo (files_now source.old.history) (repo_view repo.old) (cached_in repo.old) }
    requires begun { IfSome (D.told target.old) (λ t. t.history.acts ≡ []) }
    ensures works { Works SettlesFirst (λ carried. CopiesNames (files_now source.old.history) (repo_view repo.old) names.now carried)
        (D.told target.old) (D.told target.new) (D.faults target.old) (D.faults target.new) result }
    ensures start { IfErr result (λ fault. IfSome (D.told target.old) (λ t. TellsStart (told_files t) (carry_status fault))) }
    ensures kept { Between (D.told target.old) (D.told target.new) InitLeaves }
    ensures own { IfErr result (λ fault. shelf_failed fault ≡ false) }
    ensures completes { IfErr result (λ fault. OpensFilesTo (files_now source.old.history) source_secret (repo_view repo.old)
        → names.now ≡ chosen_of [] (repo_view repo.old).manifest
        → EndsFrom (files_now source.old.history) (D.told target.old) (D.told target.new) fault) }
    ensures drops { OnOk result (DropsFirst (D.told target.old) (D.told target.new) (E.drawn entropy.old) (E.drawn entropy.new)) }
    ensures entropy { HasCause random_failed (E.faults entropy.old) (E.faults entropy.new) result }
{
    let mut store = make_target(alloc, target, entropy)?;
    let options = Options {
        block: BLOCK,
        checkpoint: CHECKPOINT,
        timestamp: None,
    };
    carry(
        alloc, repo, source, &mut store, target, entropy, names, &options,
    )
}

/// Makes a repository in the target, with random bytes behind the first.
#[tactic(auto, using(ferry_piece::proofs::FaultLemmas::conversions))]
fn make_target<D: Depot, E: Entropy>(
    alloc: Global,
    target: &mut D,
    entropy: &mut E,
) -> Result<Store, CarryFault>
    requires begun { IfSome (D.told target.old) (λ t. t.history.acts ≡ []) }
    ensures works { Works SettlesFirst IsMadeNew
        (D.told target.old) (D.told target.new) (D.faults target.old) (D.faults target.new) result }
    ensures pending { IfOk result (λ store. store.pending ≡ 0) }
    ensures packable { IfOk result (λ store. IsPackable (accepted_in store)) }
    ensures unspent { IfOk result IsUnspent }
    ensures settled { IfOk result IsSettled }
    ensures start { IfErr result (λ fault. IfSome (D.told target.old) (λ t. TellsStart (told_files t) (carry_status fault))) }
    ensures kept { Between (D.told target.old) (D.told target.new) InitLeaves }
    ensures own { IfErr result (λ fault. shelf_failed fault ≡ false) }
    ensures completes { IfErr result (EndsCopy (D.told target.old) (D.told target.new)) }
    ensures drops { OnOk result (DropsFirst (D.told target.old) (D.told target.new) (E.drawn entropy.old) (E.drawn entropy.new)) }
    ensures entropy { HasCause random_failed (E.faults entropy.old) (E.faults entropy.new) result }
{
    let mut dropped = [0u8; DROPPED];
    entropy.fill(&mut dropped)?;
    let secret = target_secret(alloc)?;
    let store = Store::init(alloc, target, entropy, &secret, 1, NO_TIME)?;
    Ok(store)
}
