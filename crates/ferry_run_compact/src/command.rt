//! The command that compacts a repository.
ghost use Rattle.std.specs.Prelude.{◌≡◌, ◌⊎◌, ℕ, false, true, Ok, IfOk, IfErr, IfSome, []};
ghost use Rattle.std.specs.FinMap.{empty};
ghost use Rattle.ferry_config.specs.Config.{config_of};
ghost use Rattle.ferry_config.specs.declared.config.Config.{Config};
ghost use Rattle.ferry_disk.specs.Act.{TellOf, files_now, with_act};
ghost use Rattle.ferry_disk.specs.Device.{HasCause, KeepsTold, RoseWhere, told_files};
ghost use Rattle.ferry_disk.specs.Faults.{FailedWhere};
ghost use Rattle.ferry_disk.specs.Files.{contents_at};
ghost use Rattle.ferry_disk.specs.Moments.{Between};
ghost use Rattle.ferry_disk.specs.declared.name.Name.TheVariants as FileName;
ghost use Rattle.ferry_log.specs.State.{IsStateOf};
ghost use Rattle.ferry_repo.specs.Fault.{repo_failed};
ghost use Rattle.ferry_store.specs.Fault.{source_failed};
ghost use Rattle.ferry_store.specs.State.{Did, IsStep};
ghost use Rattle.ferry_run_compact.specs.Compact.{CompactEach, CompactLeaves, CompactRemoves, HasCompacted, ReadsTarget, RefusesCompacting};
ghost use Rattle.ferry_run_compact.specs.Compact.{RefusesSettings, compact_refusal, compacted_line};
ghost use Rattle.ferry_status.specs.Telling.{RefusesTelling};
ghost use Rattle.ferry_status.specs.Status.{entropy_failed, output_failed, source_failed as of_source, store_status, target_failed};
ghost use Rattle.ferry_status.specs.declared.status.Status.TheVariants as TheStatus;

use ferry_compact::{CompactFault, compact as compact_segments};
use ferry_config::read_config;
use ferry_disk::{Depot, Name, read_whole};
use ferry_log::{Log, open_log};
use ferry_repo::RepoFault;
use ferry_status::{Status, of_store};
use ferry_store::StoreRefusal;
use ferry_text::write_number;
use ferry_write::WriteFault;
use std::alloc::{AllocError, Global};

/// Compacts the segments of the target of which so many hundredths or more are unused, and tells how many were removed.
///
/// `threshold` is in hundredths of a segment's bytes. No secret is asked for: objects are moved as they lie. The greatest size of a new segment is that of the
/// file `config`.
///
/// `Done` says that the chosen segments were removed and that the line with their number was told. `TargetRefused` says that the log or the settings don't
/// read, `Limit` that the numbers of segments are used up, `TargetDevice` and `Memory` why it was cut short. Whatever the status, each live object is there,
/// and no other.
pub fn compact<D: Depot>(alloc: Global, threshold: u8, target: &mut D) -> Status
    ensures each { Between (D.told target.old) (D.told target.new) CompactEach }
    ensures ended { result ≡ TheStatus.Done → Between (D.told target.old) (D.told target.new) (λ h g. h.acts ≡ [] → HasCompacted threshold h g) }
    ensures left { Between (D.told target.old) (D.told target.new) CompactLeaves }
    ensures removed { Between (D.told target.old) (D.told target.new) (CompactRemoves threshold) }
    ensures shut { Between (D.told target.old) (D.told target.new) (λ h g. (ReadsTarget (files_now h) → ⊥) → g ≡ h) }
    ensures refused { (result ≡ TheStatus.Done)
        ⊎ IfSome (D.told target.old) (λ b. IfSome (D.told target.new) (λ t. RefusesCompacting (told_files b) (told_files t) result)) }
    ensures ends { FailedWhere (target_failed result) (D.told target.old) (D.told target.new) }
    ensures cause { RoseWhere (target_failed result) (D.faults target.old) (D.faults target.new) }
    ensures source { of_source result ≡ false }
    ensures entropy { entropy_failed result ≡ false }
    ensures quiet { output_failed result ≡ false }
    ensures used { (n : ℕ) → result ≡ TheStatus.Usage n → ⊥ }
{
    match compact_target(alloc, threshold, target) {
        Ok(()) => Status::Done,
        Err(refusal) => of_store(refusal),
    }
}

/// Reads the log and the settings of the target, and compacts.
fn compact_target<D: Depot>(
    alloc: Global,
    threshold: u8,
    target: &mut D,
) -> Result<(), StoreRefusal>
    ensures did { Did CompactEach (λ _ h g. h.acts ≡ [] → HasCompacted threshold h g) (D.told target.old) (D.told target.new)
        (D.faults target.old) (D.faults target.new) result }
    ensures removed { Between (D.told target.old) (D.told target.new) (CompactRemoves threshold) }
    ensures shut { Between (D.told target.old) (D.told target.new) (λ h g. (ReadsTarget (files_now h) → ⊥) → g ≡ h) }
    ensures refused { IfErr result (λ refusal. IfSome (D.told target.old) (λ b. IfSome (D.told target.new) (λ t.
        RefusesCompacting (told_files b) (told_files t) (store_status refusal)))) }
    ensures drawn { IfErr result (λ refusal. source_failed refusal ≡ false) }
{
    let (log, limit) = read_target(alloc, target)?;
    let count = match compact_segments(alloc, target, log, limit, threshold) {
        Ok(count) => count,
        Err(fault) => return Err(of_compacting(fault)),
    };
    tell_compacted(alloc, target, count)
}

/// The log of the target, and the greatest size of its segments, which its settings have.
fn read_target<D: Depot>(alloc: Global, target: &mut D) -> Result<(Log, u64), RepoFault>
    ensures log { IfOk result (λ both. IfSome (D.told target.old) (λ t. IsStateOf (told_files t) both.0)) }
    ensures learnt { IfOk result (λ both. both.0.learnt ≡ empty) }
    ensures settings { IfOk result (λ both. IfSome (D.told target.old) (λ t. (config : Config)
        × (config_of (contents_at (told_files t) FileName.Config) ≡ Ok config) × (both.1 ≡ config.limit))) }
    ensures refused { IfErr result (λ fault. IfSome (D.told target.old) (λ t. RefusesSettings (told_files t) fault)) }
    ensures same { KeepsTold repo_failed (D.told target.old) (D.told target.new) result }
    ensures cause { HasCause repo_failed (D.faults target.old) (D.faults target.new) result }
{
    let log = open_log(alloc, target)?;
    let mut bytes = Vec::new(alloc);
    read_whole(target, Name::Config, &mut bytes)?;
    let config = read_config(alloc, &bytes)?;
    Ok((log, config.limit))
}

/// The refusal of a repository that isn't compacted.
fn of_compacting(fault: CompactFault) -> StoreRefusal
    ensures { result ≡ compact_refusal fault }
{
    match fault {
        CompactFault::Damaged { segment, at } => {
            StoreRefusal::Repo(RepoFault::Damaged { segment, at })
        }
        CompactFault::Device => StoreRefusal::Write(WriteFault::Device),
        CompactFault::Memory => StoreRefusal::Memory,
        CompactFault::Numbers => StoreRefusal::Write(WriteFault::Numbers),
    }
}

/// Tells how many segments were removed.
fn tell_compacted<D: Depot>(alloc: Global, target: &mut D, count: u64) -> Result<(), StoreRefusal>
    ensures did { Did (IsStep (TellOf (compacted_line count))) (λ _ h g. g ≡ with_act (TellOf (compacted_line count)) true h)
        (D.told target.old) (D.told target.new) (D.faults target.old) (D.faults target.new) result }
    ensures refused { IfErr result RefusesTelling }
{
    let line = compacted_line(alloc, count)?;
    target.tell(&line)?;
    Ok(())
}

/// The line of a compaction.
fn compacted_line(alloc: Global, count: u64) -> Result<Vec<u8>, AllocError>
    ensures line { IfOk result (λ line. line.items ≡ compacted_line count) }
{
    let mut line = Vec::from_slice(alloc, b"compacted ")?;
    write_number(u128::from(count), &mut line)?;
    line.push(b'\n')?;
    Ok(line)
}
