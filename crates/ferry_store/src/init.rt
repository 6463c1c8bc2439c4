//! The steps by which a repository is made.
ghost use Rattle.std.specs.Prelude.{◌≡◌, ◌≤◌, ◌++◌, ℕ, List, true, false, Some, None, IfOk, IfErr, IfSome, OnOk, length, option_map};
ghost use Rattle.ferry_disk.specs.Device.{HasCause, told_files};
ghost use Rattle.ferry_disk.specs.Image.{settled};
ghost use Rattle.ferry_disk.specs.Moments.{Between};
ghost use Rattle.ferry_stops.specs.Tells.{TellsNothing};
ghost use Rattle.ferry_store.specs.Fault.{source_failed};
ghost use Rattle.ferry_store.specs.Init.{MakesFirst, MakesOf, RefusesMaking};
ghost use Rattle.ferry_nonce.specs.declared.counter.Counter.{Counter};
ghost use Rattle.ferry_store.specs.Key.{BasisOpens, GivenOpens, HasNewLimits, IsFree, IsGiven};
ghost use Rattle.ferry_store.specs.New.{IsBasis, MakesSound};
ghost use Rattle.ferry_store.specs.State.{CommitsSound, Did, IsFirst, IsTarget, TakesCommit};
ghost use Rattle.ferry_write.specs.Room.{behind};

use crate::fault::StoreRefusal;
use crate::key::{Basis, LIMIT, new_basis};
use crate::put::put_manifest;
use crate::state::{begin_at, commit, replace_settings};
use ferry_disk::{Depot, Entropy};
use ferry_nonce::Counter;
use ferry_repo::Secret;
use ferry_write::Session;
use std::alloc::Global;

/// Commits what was put, in one of the first segments.
fn commit_first<D: Depot>(depot: &mut D, session: &mut Session) -> Result<(), StoreRefusal>
    requires session { session.old.spent ≡ false }
    requires few { behind session.old.last ≤ 1 }
    ensures did { (counter : Counter) → Did (CommitsSound session.old counter) (λ _. TakesCommit session.old counter session.new)
        (D.told depot.old) (D.told depot.new) (D.faults depot.old) (D.faults depot.new) result }
    ensures untold { Between (D.told depot.old) (D.told depot.new) TellsNothing }
    ensures unspent { OnOk result (session.new.spent ≡ false) }
    ensures few { OnOk result (behind session.new.last ≤ 2) }
    ensures limit { session.new.limit ≡ session.old.limit }
    ensures refused { IfErr result IsTarget }
{
    commit(depot, session)
}

/// Writes the settings and the manifest of a new repository, and commits them.
fn write_first<D: Depot, E: Entropy>(
    alloc: Global,
    depot: &mut D,
    entropy: &mut E,
    basis: &Basis,
    timestamp: &[u8],
    counter: &mut Counter,
    session: &mut Session,
) -> Result<(), StoreRefusal>
    requires first { IsFirst None 524288000 counter.old session.old }
    requires limits { HasNewLimits basis.now.config }
    requires settled { IfSome (D.told depot.old) (λ t. settled t.history.acts ≡ true) }
    ensures made { (salt : List ℕ) × ((length salt ≡ 64) × OnOk result (E.drawn entropy.new ≡ option_map (λ d. d ++ salt) (E.drawn entropy.old))
        × MakesFirst basis.now timestamp.now salt session.old counter.old session.new counter.new (D.told depot.old) (D.told depot.new)
        (D.faults depot.old) (D.faults depot.new) result) }
    ensures untold { Between (D.told depot.old) (D.told depot.new) TellsNothing }
    ensures unspent { OnOk result ((session.new.spent ≡ false) × (counter.new.spent ≡ false)) }
    ensures few { OnOk result (behind session.new.last ≤ 2) }
    ensures limit { session.new.limit ≡ session.old.limit }
    ensures cause { HasCause source_failed (E.faults entropy.old) (E.faults entropy.new) result }
{
    replace_settings(alloc, depot, &basis.config)?;
    put_manifest(alloc, depot, entropy, basis, timestamp, counter, session)?;
    commit_first(depot, session)
}

/// The settings and the key of a new repository: those of a key file where there is one, and else new ones.
fn basis_of<E: Entropy>(
    alloc: Global,
    entropy: &mut E,
    secret: &Secret,
    iterations: u32,
    given: Option<Basis>,
) -> Result<Basis, StoreRefusal>
    requires iterations { (1 ≤ iterations) × (iterations ≤ 10000000) }
    requires given { IsGiven secret.now given }
    requires opens { GivenOpens secret.now given }
    ensures opens { IfOk result (BasisOpens secret.now) }
    ensures limits { IfOk result (λ basis. HasNewLimits basis.config) }
    ensures made { IfOk result (λ basis. (bytes : List ℕ) × IsBasis secret.now iterations bytes basis
        × (E.drawn entropy.new ≡ option_map (λ d. d ++ bytes) (E.drawn entropy.old))) }
    ensures refused { IfErr result IsFree }
    ensures cause { HasCause source_failed (E.faults entropy.old) (E.faults entropy.new) result }
{
    match given {
        Some(basis) => Ok(basis),
        None => new_basis(alloc, entropy, secret, iterations),
    }
}

/// Makes a repository where nothing is committed.
pub(crate) fn make_repository<D: Depot, E: Entropy>(
    alloc: Global,
    depot: &mut D,
    entropy: &mut E,
    secret: &Secret,
    iterations: u32,
    timestamp: &[u8],
    given: Option<Basis>,
) -> Result<(Counter, Session), StoreRefusal>
    requires iterations { (1 ≤ iterations) × (iterations ≤ 10000000) }
    requires given { IsGiven secret.now given }
    requires opens { GivenOpens secret.now given }
    ensures made { (bytes : List ℕ) × (OnOk result (E.drawn entropy.new ≡ option_map (λ d. d ++ bytes) (E.drawn entropy.old))
        × Did (MakesSound secret.now) (λ b. MakesOf secret.now iterations timestamp.now bytes b.0 b.1)
        (D.told depot.old) (D.told depot.new) (D.faults depot.old) (D.faults depot.new) result) }
    ensures untold { Between (D.told depot.old) (D.told depot.new) TellsNothing }
    ensures unspent { IfOk result (λ b. (b.1.spent ≡ false) × (b.0.spent ≡ false)) }
    ensures few { IfOk result (λ b. behind b.1.last ≤ 2) }
    ensures refused { IfErr result (λ refusal. IfSome (D.told depot.old) (λ t. RefusesMaking timestamp.now (told_files t) refusal)) }
    ensures cause { HasCause source_failed (E.faults entropy.old) (E.faults entropy.new) result }
{
    let (mut counter, mut session) = begin_at(alloc, depot, false, None, LIMIT)?;
    let basis = basis_of(alloc, entropy, secret, iterations, given)?;
    write_first(
        alloc,
        depot,
        entropy,
        &basis,
        timestamp,
        &mut counter,
        &mut session,
    )?;
    Ok((counter, session))
}
