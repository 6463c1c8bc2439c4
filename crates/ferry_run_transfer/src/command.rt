//! The command that copies archives.
ghost use Rattle.ferry_status.specs.Opened.{EndsNumbered, NeedsNumber};
ghost use Rattle.std.specs.Prelude.{◌≡◌, ◌⊎◌, ℕ, [], false, true, IfErr, IfSome};
ghost use Rattle.ferry_piece.specs.Fault.{IsOfWork, random_failed, shelf_failed};
ghost use Rattle.ferry_carry.specs.Flight.{AreRight};
ghost use Rattle.ferry_piece.specs.Work.{Works};
ghost use Rattle.ferry_disk.specs.Device.{HasCause, KeepsTold, KeptWhere, RoseWhere, heard, told_files};
ghost use Rattle.ferry_disk.specs.Faults.{FailedWhere};
ghost use Rattle.ferry_disk.specs.Moments.{Between};
ghost use Rattle.ferry_repo.specs.Opening.{FitsRepo, OpensFilesTo, cached_in, repo_view};
ghost use Rattle.ferry_status.specs.Devices.{drawn, store};
ghost use Rattle.ferry_run_transfer.specs.Putting.{LeavesFirst, TransferPuts, is_spared};
ghost use Rattle.ferry_status.specs.Status.{carry_status, entropy_failed, is_of_work, output_failed, source_failed, target_failed};
ghost use Rattle.ferry_carry.specs.States.{drawn_from};
ghost use Rattle.ferry_run_transfer.specs.Transfer.{LeavesTold, TransferEach, TransferEnds, TransferLeaves, asked};
ghost use Rattle.ferry_store.specs.Store.{OpenLeaves};
ghost use Rattle.ferry_run_transfer.specs.TransferCauses.{EndsDone, IsFound, IsRefusedSo, RefusesAsked, IsBeforeTarget};

use crate::names::{chosen_names, find_names};
use ferry_base::Bytes;
use ferry_carry::{CarryFault, Options, carry};
use ferry_disk::{Depot, Entropy, Shelf};
use ferry_repo::Repo;
use ferry_status::{Secrets, Status, of_carry};
use ferry_store::Store;
use std::alloc::Global;

/// Copies the chosen archives of the source into the target, all of them where no name is chosen.
///
/// `names` are the names of archives as bytes of UTF-8, copied in this order; `options` has the length in bytes of the pieces that contents are cut into, how
/// many of them may be put before a commit, and the time of the manifest. `source` is only read, with its own secret. `target` has made no act yet, is opened
/// with the other secret and written, and tells a line for each archive that came or was there, and at the end one with the numbers of all.
///
/// `Done` says that each chosen archive is in the target and was told. `SourceRefused`, `TargetRefused`, `Taken`, `NotFound` and `Limit` say why it isn't so,
/// and then each archive that came was told. Behind `Memory` and a failed device (`SourceDevice`, `TargetDevice`, `EntropyDevice`) the last one that came may
/// not have been told. Whatever the status, a target that opened opens, with each archive that it had, and the same call may be made again over what was left.
#[tactic(auto, using(ferry_status::proofs::StatusLemmas::carried))]
pub fn transfer<S: Shelf, D: Depot, E: Entropy>(
    alloc: Global,
    secrets: &Secrets,
    options: &Options,
    names: &[Bytes],
    source: &mut S,
    target: &mut D,
    entropy: &mut E,
) -> Status
    requires options { AreRight options.now }
    requires begun { IfSome (D.told target.old) (λ t. t.history.acts ≡ []) }
    ensures each { Between (D.told target.old) (D.told target.new)
        (TransferEach (asked secrets.now options.now names.now (S.told source.old))) }
    ensures ended { result ≡ Status.Done → Between (D.told target.old) (D.told target.new)
        (TransferEnds (asked secrets.now options.now names.now (S.told source.old)) (E.drawn entropy.old) (E.drawn entropy.new)) }
    // Where the source doesn't open, or lacks a chosen name, neither is used.
    ensures untouched { IfSome (asked secrets.now options.now names.now (S.told source.old)).source (λ files.
        (IsFound (asked secrets.now options.now names.now (S.told source.old)) files → ⊥)
        → (store (D.told target.new) (D.faults target.new) ≡ store (D.told target.old) (D.faults target.old))
        × (drawn (E.drawn entropy.new) (E.faults entropy.new) ≡ drawn (E.drawn entropy.old) (E.faults entropy.old))) }
    ensures refused { (result ≡ Status.Done) ⊎ IsRefusedSo (asked secrets.now options.now names.now (S.told source.old))
        (drawn_from (E.drawn entropy.old) (E.drawn entropy.new)) (D.told target.old) (D.told target.new) result }
    ensures completes { EndsDone (asked secrets.now options.now names.now (S.told source.old))
        (drawn_from (E.drawn entropy.old) (E.drawn entropy.new)) (D.told target.old) (D.told target.new) result }
    ensures left { Between (D.told target.old) (D.told target.new)
        (TransferLeaves (asked secrets.now options.now names.now (S.told source.old))) }
    // Where the target doesn't open, or has no number in its file `nonce`, it is refused for that, and nothing is done.
    ensures shut { Between (D.told target.old) (D.told target.new) (OpenLeaves secrets.now.target) }
    ensures number { EndsNumbered (IsBeforeTarget (asked secrets.now options.now names.now (S.told source.old))) secrets.now.target (D.told target.old) result }
    ensures only_told { is_of_work result ≡ true → Between (D.told target.old) (D.told target.new)
        (LeavesTold (asked secrets.now options.now names.now (S.told source.old))) }
    // At each moment all that the segments have is what they had, and behind it the first of what is added for the chosen names.
    ensures puts { Between (D.told target.old) (D.told target.new)
        (TransferPuts (asked secrets.now options.now names.now (S.told source.old))) }
    // Where it is refused, all that it put is there whole, also behind the last commit.
    ensures put { is_spared result ≡ true → Between (D.told target.old) (D.told target.new)
        (LeavesFirst (asked secrets.now options.now names.now (S.told source.old))) }
    ensures same { KeptWhere (source_failed result) (heard (S.told source.old)) (S.told source.new) }
    ensures cause { RoseWhere (source_failed result) (S.faults source.old) (S.faults source.new) }
    ensures ends { FailedWhere (target_failed result) (D.told target.old) (D.told target.new) }
    ensures target_cause { RoseWhere (target_failed result) (D.faults target.old) (D.faults target.new) }
    ensures entropy { RoseWhere (entropy_failed result) (E.faults entropy.old) (E.faults entropy.new) }
    ensures quiet { output_failed result ≡ false }
    ensures used { (n : ℕ) → result ≡ Status.Usage n → ⊥ }
{
    match copy(alloc, secrets, options, names, source, target, entropy) {
        Ok(()) => Status::Done,
        Err(fault) => of_carry(fault),
    }
}

/// Opens the source, and copies.
#[tactic(auto, using(ferry_piece::proofs::FaultLemmas::conversions))]
fn copy<S: Shelf, D: Depot, E: Entropy>(
    alloc: Global,
    secrets: &Secrets,
    options: &Options,
    names: &[Bytes],
    source: &mut S,
    target: &mut D,
    entropy: &mut E,
) -> Result<(), CarryFault>
    requires options { AreRight options.now }
    requires begun { IfSome (D.told target.old) (λ t. t.history.acts ≡ []) }
    ensures works { Works (TransferEach (asked secrets.now options.now names.now (S.told source.old)))
        (λ _. TransferEnds (asked secrets.now options.now names.now (S.told source.old)) (E.drawn entropy.old) (E.drawn entropy.new))
        (D.told target.old) (D.told target.new) (D.faults target.old) (D.faults target.new) result }
    ensures untouched { IfSome (asked secrets.now options.now names.now (S.told source.old)).source (λ files.
        (IsFound (asked secrets.now options.now names.now (S.told source.old)) files → ⊥)
        → (store (D.told target.new) (D.faults target.new) ≡ store (D.told target.old) (D.faults target.old))
        × (drawn (E.drawn entropy.new) (E.faults entropy.new) ≡ drawn (E.drawn entropy.old) (E.faults entropy.old))) }
    ensures refused { IfErr result (RefusesAsked (asked secrets.now options.now names.now (S.told source.old))
        (drawn_from (E.drawn entropy.old) (E.drawn entropy.new)) (D.told target.old) (D.told target.new)) }
    ensures shut { Between (D.told target.old) (D.told target.new) (OpenLeaves secrets.now.target) }
    ensures number { NeedsNumber (IsBeforeTarget (asked secrets.now options.now names.now (S.told source.old))) secrets.now.target (D.told target.old) result }
    ensures only_told { IfErr result (λ fault. IsOfWork fault → Between (D.told target.old) (D.told target.new)
        (LeavesTold (asked secrets.now options.now names.now (S.told source.old)))) }
    ensures puts { Between (D.told target.old) (D.told target.new) (TransferPuts (asked secrets.now options.now names.now (S.told source.old))) }
    ensures put { IfErr result (λ fault. is_spared (carry_status fault) ≡ true → Between (D.told target.old) (D.told target.new)
        (LeavesFirst (asked secrets.now options.now names.now (S.told source.old)))) }
    ensures same { KeepsTold shelf_failed (S.told source.old) (S.told source.new) result }
    ensures cause { HasCause shelf_failed (S.faults source.old) (S.faults source.new) result }
    ensures entropy { HasCause random_failed (E.faults entropy.old) (E.faults entropy.new) result }
{
    let mut repo = Repo::open(alloc, source, &secrets.source)?;
    copy_into(
        alloc, &mut repo, source, secrets, target, entropy, names, options,
    )
}

/// Looks the names up in the opened source, opens the target, and copies the archives of these names, all of them where there is none.
#[tactic(auto, using(ferry_piece::proofs::FaultLemmas::conversions))]
fn copy_into<S: Shelf, D: Depot, E: Entropy>(
    alloc: Global,
    repo: &mut Repo,
    source: &mut S,
    secrets: &Secrets,
    target: &mut D,
    entropy: &mut E,
    names: &[Bytes],
    options: &Options,
) -> Result<(), CarryFault>
    requires options { AreRight options.now }
    requires begun { IfSome (D.told target.old) (λ t. t.history.acts ≡ []) }
    requires source_opens { IfSome (S.told source.old) (λ t. OpensFilesTo (told_files t) secrets.now.source (repo_view repo.old)) }
    requires source_fits { IfSome (S.told source.old) (λ t. FitsRepo (told_files t) (repo_view repo.old) (cached_in repo.old)) }
    ensures works { Works (TransferEach (asked secrets.now options.now names.now (S.told source.old)))
        (λ _. TransferEnds (asked secrets.now options.now names.now (S.told source.old)) (E.drawn entropy.old) (E.drawn entropy.new))
        (D.told target.old) (D.told target.new) (D.faults target.old) (D.faults target.new) result }
    ensures untouched { IfSome (asked secrets.now options.now names.now (S.told source.old)).source (λ files.
        (IsFound (asked secrets.now options.now names.now (S.told source.old)) files → ⊥)
        → (store (D.told target.new) (D.faults target.new) ≡ store (D.told target.old) (D.faults target.old))
        × (drawn (E.drawn entropy.new) (E.faults entropy.new) ≡ drawn (E.drawn entropy.old) (E.faults entropy.old))) }
    ensures refused { IfErr result (RefusesAsked (asked secrets.now options.now names.now (S.told source.old))
        (drawn_from (E.drawn entropy.old) (E.drawn entropy.new)) (D.told target.old) (D.told target.new)) }
    ensures shut { Between (D.told target.old) (D.told target.new) (OpenLeaves secrets.now.target) }
    ensures number { NeedsNumber (IsBeforeTarget (asked secrets.now options.now names.now (S.told source.old))) secrets.now.target (D.told target.old) result }
    ensures only_told { IfErr result (λ fault. IsOfWork fault → Between (D.told target.old) (D.told target.new)
        (LeavesTold (asked secrets.now options.now names.now (S.told source.old)))) }
    ensures puts { Between (D.told target.old) (D.told target.new) (TransferPuts (asked secrets.now options.now names.now (S.told source.old))) }
    ensures put { IfErr result (λ fault. is_spared (carry_status fault) ≡ true → Between (D.told target.old) (D.told target.new)
        (LeavesFirst (asked secrets.now options.now names.now (S.told source.old)))) }
    ensures same { KeepsTold shelf_failed (S.told source.old) (S.told source.new) result }
    ensures cause { HasCause shelf_failed (S.faults source.old) (S.faults source.new) result }
    ensures entropy { HasCause random_failed (E.faults entropy.old) (E.faults entropy.new) result }
{
    let chosen = chosen_names(alloc, repo, names)?;
    find_names(alloc, repo, &chosen)?;
    let mut store = Store::open(alloc, target, &secrets.target)?;
    carry(
        alloc, repo, source, &mut store, target, entropy, &chosen, options,
    )?;
    Ok(())
}
