//! The first steps of a repository that is made: what is there already, and the files beside the segments.
ghost use Rattle.std.specs.Prelude.{◌≡◌, ◌≢◌, ◌↔◌, ℕ, true, false, Ok, IfOk, IfErr, IfSome, IsErrOf, OnOk};
ghost use Rattle.ferry_config.specs.Config.{config_of};
ghost use Rattle.ferry_config.specs.Text.{config_text};
ghost use Rattle.ferry_disk.specs.Act.{IsPlain, ReplaceBy, with_act};
ghost use Rattle.ferry_disk.specs.Device.{HasCause, KeepsTold, told_files};
ghost use Rattle.ferry_disk.specs.Files.{file_at};
ghost use Rattle.ferry_disk.specs.Image.{settled};
ghost use Rattle.ferry_disk.specs.Moments.{Between};
ghost use Rattle.ferry_disk.specs.declared.name.Name.TheVariants as FileName;
ghost use Rattle.ferry_log.specs.Log.{IsUncommitted};
ghost use Rattle.ferry_repo.specs.Opening.{mode_of};
ghost use Rattle.ferry_stops.specs.Counters.{IsNonce};
ghost use Rattle.ferry_stops.specs.Tells.{TellsNothing};
ghost use Rattle.ferry_store.specs.Causes.{Stops};
ghost use Rattle.ferry_store.specs.Fault.{depot_failed, source_failed};
ghost use Rattle.ferry_store.specs.Limits.{BeginsFew};
ghost use Rattle.ferry_store.specs.State.{BeginLeaves, Begins, BeginsSound, CommitsSound, Did, HasNumber, IsFirst, IsStep, IsTarget};
ghost use Rattle.ferry_store.specs.State.{RefusesBegin, RefusesCommit, RefusesLog, SettingsSound, TakesCommit, TakesSettings};
ghost use Rattle.ferry_store.specs.Types.{FitsMode};
ghost use Rattle.ferry_store.specs.Writing.{WritesCommit};
ghost use Rattle.ferry_nonce.specs.declared.counter.Counter.{Counter};
ghost use Rattle.ferry_store.specs.declared.fault.StoreRefusal.TheVariants as Refusal;
ghost use Rattle.ferry_write.specs.Front.{OnlyRemoves};
ghost use Rattle.ferry_write.specs.Room.{AreUsedUp, after_commit};
ghost use Rattle.ferry_write.specs.Session.{ClearsAll, OnlyAppends, SettlesFirst};
ghost use Rattle.ferry_write.specs.declared.fault.WriteFault.TheVariants as Writes;

use crate::fault::StoreRefusal;
use ferry_config::{Config, print_config};
use ferry_disk::{Depot, Name};
use ferry_log::{LogFault, open_log};
use ferry_nonce::Counter;
use ferry_repo::RepoFault;
use ferry_write::Session;
use std::alloc::Global;

/// The text of the file `README` of a new repository.
const README: &[u8] = b"This is a Borg Backup repository.\n";

/// Refuses a place where a segment is committed.
pub(crate) fn expect_no_commit<D: Depot>(alloc: Global, depot: &mut D) -> Result<(), StoreRefusal>
    ensures none { OnOk result (IfSome (D.told depot.old) (λ t. IsUncommitted (told_files t))) }
    ensures refused { IfErr result (λ refusal. IfSome (D.told depot.old) (λ t. RefusesLog (told_files t) refusal)) }
    ensures still { IfErr result (λ refusal. source_failed refusal ≡ false) }
    ensures same { KeepsTold depot_failed (D.told depot.old) (D.told depot.new) result }
    ensures cause { HasCause depot_failed (D.faults depot.old) (D.faults depot.new) result }
{
    match open_log(alloc, depot) {
        Ok(_) => Err(StoreRefusal::Committed),
        Err(LogFault::Damaged { .. }) => Err(StoreRefusal::Committed),
        Err(LogFault::NoCommit) => Ok(()),
        Err(LogFault::Device) => Err(StoreRefusal::Repo(RepoFault::Device)),
        Err(LogFault::Memory) => Err(StoreRefusal::Memory),
    }
}

/// Opens the counter of a place, where something is committed or not, and begins a session behind the commit in segment `after`, or behind none.
pub(crate) fn begin_at<D: Depot>(
    alloc: Global,
    depot: &mut D,
    committed: bool,
    after: Option<u64>,
    limit: u64,
) -> Result<(Counter, Session), StoreRefusal>
    ensures did { Did (BeginsSound after) (λ b. Begins after b.0 b.1) (D.told depot.old) (D.told depot.new) (D.faults depot.old) (D.faults depot.new)
        result }
    ensures number { IfOk result (λ b. IfSome (D.told depot.old) (λ t. IsNonce (file_at (told_files t) FileName.Nonce) b.0.free)) }
    // Where something is committed, the file `nonce` is there and has a number.
    ensures there { OnOk result (IfSome (D.told depot.old) (λ t. committed ≡ true → HasNumber (told_files t))) }
    // Where it isn't, or has none, nothing is done.
    ensures leaves { Between (D.told depot.old) (D.told depot.new) (BeginLeaves committed) }
    ensures fresh { IfOk result (λ b. IsFirst after limit b.0 b.1) }
    ensures settled { OnOk result (IfSome (D.told depot.new) (λ t. settled t.history.acts ≡ true)) }
    ensures first { Between (D.told depot.old) (D.told depot.new) SettlesFirst }
    ensures untold { Between (D.told depot.old) (D.told depot.new) TellsNothing }
    ensures removes { Between (D.told depot.old) (D.told depot.new) OnlyRemoves }
    ensures clears { OnOk result (Between (D.told depot.old) (D.told depot.new) (ClearsAll after)) }
    ensures refused { IfErr result (λ refusal. IfSome (D.told depot.old) (λ t. RefusesBegin committed (told_files t) refusal)) }
    ensures still { IfErr result (λ refusal. source_failed refusal ≡ false) }
{
    let counter = Counter::open(depot, committed)?;
    let session = Session::begin(alloc, depot, after, limit)?;
    Ok((counter, session))
}

/// Replaces a file that is no segment.
fn replace<D: Depot>(depot: &mut D, name: Name, bytes: &[u8]) -> Result<(), StoreRefusal>
    requires { IsPlain name }
    ensures did { Did (IsStep (ReplaceBy name bytes.now)) (λ _ h g. g ≡ with_act (ReplaceBy name bytes.now) true h)
        (D.told depot.old) (D.told depot.new) (D.faults depot.old) (D.faults depot.new) result }
    ensures untold { Between (D.told depot.old) (D.told depot.new) TellsNothing }
    ensures refused { IfErr result IsTarget }
{
    depot.replace(name, bytes)?;
    Ok(())
}

/// Replaces `README` and `config` by those of a new repository.
pub(crate) fn replace_settings<D: Depot>(
    alloc: Global,
    depot: &mut D,
    config: &Config,
) -> Result<(), StoreRefusal>
    requires per_dir { config.now.per_dir ≡ 1000 }
    requires limit { config.now.limit ≡ 524288000 }
    ensures did { Did SettingsSound (λ _. TakesSettings config.now) (D.told depot.old) (D.told depot.new) (D.faults depot.old) (D.faults depot.new)
        result }
    ensures untold { Between (D.told depot.old) (D.told depot.new) TellsNothing }
    ensures read_again { OnOk result (config_of (config_text config.now) ≡ Ok config.now) }
    // The settings of the run are these, if any are.
    ensures mode { OnOk result (IfSome (D.told depot.new) (λ t. FitsMode t.history (mode_of config.now))) }
    ensures refused { IfErr result IsTarget }
{
    let text = print_config(alloc, config)?;
    replace(depot, Name::Readme, README)?;
    replace(depot, Name::Config, &text)
}

/// Commits what was put.
pub(crate) fn commit<D: Depot>(depot: &mut D, session: &mut Session) -> Result<(), StoreRefusal>
    requires session { session.old.spent ≡ false }
    ensures did { (counter : Counter) → Did (CommitsSound session.old counter)
        (λ _ h g. TakesCommit session.old counter session.new h g × OnlyAppends session.old h g)
        (D.told depot.old) (D.told depot.new) (D.faults depot.old) (D.faults depot.new) result }
    ensures untold { Between (D.told depot.old) (D.told depot.new) TellsNothing }
    ensures writes { (counter : Counter) → Between (D.told depot.old) (D.told depot.new) (WritesCommit session.old counter) }
    ensures session { OnOk result (session.new ≡ after_commit session.old) }
    ensures few { BeginsFew 1 session.old.last session.new.last (IsErrOf result (Refusal.Write Writes.Numbers)) }
    ensures limit { session.new.limit ≡ session.old.limit }
    ensures refused { IfErr result (RefusesCommit session.old) }
    ensures stops { (counter : Counter) → IfErr result (λ refusal. Between (D.told depot.old) (D.told depot.new) (Stops session.old counter refusal)) }
    ensures numbers { IsErrOf result (Refusal.Write Writes.Numbers) ↔ AreUsedUp session.old.last }
    ensures nothing { IfErr result (λ refusal. depot_failed refusal ≡ false → refusal ≢ Refusal.Memory → D.told depot.new ≡ D.told depot.old) }
{
    session.commit(depot)?;
    Ok(())
}
