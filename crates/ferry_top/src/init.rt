//! The command that makes a repository.
ghost use Rattle.std.specs.Prelude.{◌≡◌, ◌≤◌, ◌⊎◌, ◌++◌, ℕ, List, IfOk, IfErr, IfSome, OnOk, option_map, true, []};
ghost use Rattle.ferry_disk.specs.Act.{TellOf, with_act};
ghost use Rattle.ferry_disk.specs.Device.{HasCause, RoseWhere};
ghost use Rattle.ferry_disk.specs.Faults.{FailedWhere};
ghost use Rattle.ferry_disk.specs.Moments.{Between};
ghost use Rattle.ferry_store.specs.Fault.{source_failed};
ghost use Rattle.ferry_store.specs.State.{Did, IsStep};
ghost use Rattle.ferry_store.specs.Store.{RefusesInit};
ghost use Rattle.ferry_top.specs.Init.{CommandEach, MakesAndTells, initialized_line, time_or};
ghost use Rattle.ferry_status.specs.Telling.{RefusesTelling};
ghost use Rattle.ferry_status.specs.Status.{entropy_failed, store_status, target_failed};
ghost use Rattle.ferry_status.specs.declared.status.Status.TheVariants as TheStatus;
ghost use Rattle.ferry_status.specs.Devices.{IsRefusedBy};

use ferry_base::{Bytes, Id};
use ferry_disk::{Depot, Entropy};
use ferry_repo::{Secret, unlock};
use ferry_status::{Status, of_store};
use ferry_store::{Store, StoreRefusal};
use ferry_text::write_id;
use std::alloc::{AllocError, Global};

/// The timestamp of a new repository where the words give none.
const NO_TIME: &[u8] = b"1970-01-01T00:00:00.000000";

/// Makes a repository in the target, and tells its id.
#[tactic(auto, using(ferry_status::proofs::StatusLemmas::causes))]
pub(crate) fn init<D: Depot, E: Entropy>(
    alloc: Global,
    secret: &Secret,
    iterations: u32,
    timestamp: Option<Bytes>,
    target: &mut D,
    entropy: &mut E,
) -> Status
    requires iterations { (1 ≤ iterations) × (iterations ≤ 10000000) }
    ensures made { result ≡ TheStatus.Done → (bytes : List ℕ) × (E.drawn entropy.new ≡ option_map (λ d. d ++ bytes) (E.drawn entropy.old))
        × Between (D.told target.old) (D.told target.new) (λ h g. h.acts ≡ [] → MakesAndTells secret.now iterations (time_or timestamp) bytes h g) }
    ensures each { Between (D.told target.old) (D.told target.new) (CommandEach secret.now) }
    ensures refused { (result ≡ TheStatus.Done) ⊎ IsRefusedBy store_status (λ refusal. IfSome (D.told target.old) (λ t.
        RefusesInit secret.now (time_or timestamp) t.history refusal)) result }
    ensures ends { FailedWhere (target_failed result) (D.told target.old) (D.told target.new) }
    ensures cause { RoseWhere (target_failed result) (D.faults target.old) (D.faults target.new) }
    ensures entropy { RoseWhere (entropy_failed result) (E.faults entropy.old) (E.faults entropy.new) }
{
    let time = time_of(&timestamp);
    match make(alloc, secret, iterations, time, target, entropy) {
        Ok(()) => Status::Done,
        Err(refusal) => of_store(refusal),
    }
}

/// The timestamp that the words give, or that of the begin of 1970.
fn time_of(timestamp: &Option<Bytes>) -> &[u8]
    ensures { result.now ≡ time_or timestamp.now }
{
    match timestamp {
        Some(time) => time.as_slice(),
        None => NO_TIME,
    }
}

/// Makes a repository, and tells the id that its `config` has.
fn make<D: Depot, E: Entropy>(
    alloc: Global,
    secret: &Secret,
    iterations: u32,
    timestamp: &[u8],
    target: &mut D,
    entropy: &mut E,
) -> Result<(), StoreRefusal>
    requires iterations { (1 ≤ iterations) × (iterations ≤ 10000000) }
    ensures made { (bytes : List ℕ) × (OnOk result (E.drawn entropy.new ≡ option_map (λ d. d ++ bytes) (E.drawn entropy.old))
        × Did (CommandEach secret.now) (λ _ h g. h.acts ≡ [] → MakesAndTells secret.now iterations timestamp.now bytes h g)
        (D.told target.old) (D.told target.new) (D.faults target.old) (D.faults target.new) result) }
    ensures refused { IfErr result (λ refusal. IfSome (D.told target.old) (λ t. RefusesInit secret.now timestamp.now t.history refusal)) }
    ensures entropy { HasCause source_failed (E.faults entropy.old) (E.faults entropy.new) result }
{
    Store::init(alloc, target, entropy, secret, iterations, timestamp)?;
    let unlocked = unlock(alloc, target, secret)?;
    tell_id(alloc, target, &unlocked.config.id)
}

/// Tells the id of a new repository.
fn tell_id<D: Depot>(alloc: Global, target: &mut D, id: &Id) -> Result<(), StoreRefusal>
    ensures did { Did (IsStep (TellOf (initialized_line id.now))) (λ _ h g. g ≡ with_act (TellOf (initialized_line id.now)) true h)
        (D.told target.old) (D.told target.new) (D.faults target.old) (D.faults target.new) result }
    ensures refused { IfErr result RefusesTelling }
{
    let line = id_line(alloc, id)?;
    target.tell(&line)?;
    Ok(())
}

/// The line of a new repository.
fn id_line(alloc: Global, id: &Id) -> Result<Vec<u8>, AllocError>
    ensures line { IfOk result (λ line. line.items ≡ initialized_line id.now) }
{
    let mut line = Vec::from_slice(alloc, b"initialized ")?;
    write_id(id, &mut line)?;
    line.push(b'\n')?;
    Ok(line)
}
