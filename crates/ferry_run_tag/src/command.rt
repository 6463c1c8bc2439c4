//! The command that tags archives.
ghost use Rattle.std.specs.Option.{option_copied};
ghost use Rattle.std.specs.Prelude.{◌≡◌, ◌⊎◌, ℕ, [], false, true, IfErr, IfOk, IfSome};
ghost use Rattle.ferry_piece.specs.Fault.{IsOfReading, IsOfWork, random_failed, shelf_failed};
ghost use Rattle.ferry_piece.specs.Work.{Works};
ghost use Rattle.ferry_disk.specs.Act.{TellOf, with_act};
ghost use Rattle.ferry_disk.specs.Device.{HasCause, RoseWhere};
ghost use Rattle.ferry_disk.specs.Faults.{FailedWhere};
ghost use Rattle.ferry_disk.specs.Moments.{Between};
ghost use Rattle.ferry_store.specs.Fault.{source_failed};
ghost use Rattle.ferry_store.specs.State.{Did, IsStep};
ghost use Rattle.ferry_store.specs.Store.{OpenLeaves};
ghost use Rattle.ferry_run_tag.specs.Tag.{BreaksRecord, HasTagged, LeavesArchives, RefusesTags, TagsDone};
ghost use Rattle.ferry_run_tag.specs.Tag.{tagged_line};
ghost use Rattle.ferry_run_tag.specs.Steps.{GetsTags};
ghost use Rattle.ferry_status.specs.Status.{carry_status, entropy_failed, is_of_work, is_unread, output_failed, source_failed as of_source, target_failed};
ghost use Rattle.ferry_status.specs.Telling.{RefusesTelling};
ghost use Rattle.ferry_status.specs.declared.status.Status.TheVariants as TheStatus;
ghost use Rattle.ferry_status.specs.Opened.{ChangesEach, ChangesLeave, EndsNumbered, LeavesAll, NeedsNumber, RefusesChange};
ghost use Rattle.ferry_status.specs.Devices.{IsRefusedBy};
ghost use Rattle.ferry_write.specs.Front.{OnlyRemoves};

use ferry_base::Bytes;
use ferry_disk::{Depot, Entropy};
use ferry_piece::CarryFault;
use ferry_repo::Secret;
use ferry_status::{Status, of_carry};
use ferry_store::{Store, StoreRefusal};
use ferry_text::write_number;
use std::alloc::{AllocError, Global};

/// Gives an authentication tag to the record of each archive of the target that has none, which opens under `secret`, and tells how many these were.
/// The manifest is written at `timestamp`, and where that isn't given at the time that it had. Where no record is without a tag nothing is written.
///
/// `TargetRefused` has why the target doesn't open or an archive of it doesn't read, and `Limit` what is used up or too large; nothing is tagged then.
///
/// Source: BorgBackup 1.2, Internals, "Data structures and file formats", Archives.
#[tactic(auto, using(ferry_status::proofs::StatusLemmas::carried))]
pub fn tag_archives<D: Depot, E: Entropy>(
    alloc: Global,
    secret: &Secret,
    timestamp: Option<Bytes>,
    target: &mut D,
    entropy: &mut E,
) -> Status
    requires begun { IfSome (D.told target.old) (λ t. t.history.acts ≡ []) }
    ensures each { Between (D.told target.old) (D.told target.new) (ChangesEach secret.now (LeavesArchives secret.now timestamp)) }
    ensures ended { result ≡ TheStatus.Done → Between (D.told target.old) (D.told target.new) (λ h g.
        h.acts ≡ [] → HasTagged secret.now timestamp (E.drawn entropy.old) (E.drawn entropy.new) h g) }
    ensures left { Between (D.told target.old) (D.told target.new) (ChangesLeave secret.now (LeavesArchives secret.now timestamp)) }
    // Where the target doesn't open, or has no number in its file `nonce`, it is refused for that, and nothing is done.
    ensures shut { Between (D.told target.old) (D.told target.new) (OpenLeaves secret.now) }
    ensures number { EndsNumbered (λ fault. ⊥) secret.now (D.told target.old) result }
    // Where the target is refused, but for a chunk that is live under the id of a new record, each segment is as it was, or is gone.
    ensures unwritten { is_unread result ≡ true → Between (D.told target.old) (D.told target.new) OnlyRemoves
        ⊎ IsRefusedBy carry_status (BreaksRecord secret.now (E.drawn entropy.old) (E.drawn entropy.new) (D.told target.old) (D.told target.new)) result }
    ensures kept { is_of_work result ≡ true → Between (D.told target.old) (D.told target.new) (LeavesAll secret.now (LeavesArchives secret.now timestamp)) }
    ensures refused { (result ≡ TheStatus.Done) ⊎ IsRefusedBy carry_status
        (RefusesChange secret.now (RefusesTags timestamp (E.drawn entropy.old) (E.drawn entropy.new) (D.told target.new)) (D.told target.old)) result }
    ensures completes { TagsDone secret.now timestamp (E.drawn entropy.old) (E.drawn entropy.new) (D.told target.old) (D.told target.new) result }
    ensures ends { FailedWhere (target_failed result) (D.told target.old) (D.told target.new) }
    ensures cause { RoseWhere (target_failed result) (D.faults target.old) (D.faults target.new) }
    ensures entropy { RoseWhere (entropy_failed result) (E.faults entropy.old) (E.faults entropy.new) }
    ensures source { of_source result ≡ false }
    ensures quiet { output_failed result ≡ false }
    ensures used { (n : ℕ) → result ≡ TheStatus.Usage n → ⊥ }
{
    match tag_and_tell(alloc, secret, &timestamp, target, entropy) {
        Ok(()) => Status::Done,
        Err(fault) => of_carry(fault),
    }
}

/// Tags, and tells how many records got a tag.
#[tactic(auto, using(ferry_piece::proofs::FaultLemmas::conversions))]
fn tag_and_tell<D: Depot, E: Entropy>(
    alloc: Global,
    secret: &Secret,
    timestamp: &Option<Bytes>,
    target: &mut D,
    entropy: &mut E,
) -> Result<(), CarryFault>
    requires begun { IfSome (D.told target.old) (λ t. t.history.acts ≡ []) }
    ensures works { Works (ChangesEach secret.now (LeavesArchives secret.now timestamp.now))
        (λ _ h g. h.acts ≡ [] → HasTagged secret.now timestamp.now (E.drawn entropy.old) (E.drawn entropy.new) h g)
        (D.told target.old) (D.told target.new) (D.faults target.old) (D.faults target.new) result }
    ensures refused { IfErr result (RefusesChange secret.now (RefusesTags timestamp.now (E.drawn entropy.old) (E.drawn entropy.new) (D.told target.new))
        (D.told target.old)) }
    ensures kept { IfErr result (λ fault. IsOfWork fault
        → Between (D.told target.old) (D.told target.new) (LeavesAll secret.now (LeavesArchives secret.now timestamp.now))) }
    ensures shut { Between (D.told target.old) (D.told target.new) (OpenLeaves secret.now) }
    ensures number { NeedsNumber (λ fault. ⊥) secret.now (D.told target.old) result }
    ensures unwritten { IfErr result (λ fault. IsOfReading fault → Between (D.told target.old) (D.told target.new) OnlyRemoves
        ⊎ BreaksRecord secret.now (E.drawn entropy.old) (E.drawn entropy.new) (D.told target.old) (D.told target.new) fault) }
    ensures shelf { IfErr result (λ fault. shelf_failed fault ≡ false) }
    ensures entropy { HasCause random_failed (E.faults entropy.old) (E.faults entropy.new) result }
{
    let count = tag_target(alloc, secret, timestamp, target, entropy)?;
    tell_tagged(alloc, target, count)?;
    Ok(())
}

/// Opens the target, tags, and answers how many records got a tag.
#[tactic(auto, using(ferry_piece::proofs::FaultLemmas::conversions))]
fn tag_target<D: Depot, E: Entropy>(
    alloc: Global,
    secret: &Secret,
    timestamp: &Option<Bytes>,
    target: &mut D,
    entropy: &mut E,
) -> Result<u64, CarryFault>
    requires begun { IfSome (D.told target.old) (λ t. t.history.acts ≡ []) }
    ensures works { Works (ChangesEach secret.now (LeavesArchives secret.now timestamp.now))
        (GetsTags secret.now timestamp.now (E.drawn entropy.old) (E.drawn entropy.new))
        (D.told target.old) (D.told target.new) (D.faults target.old) (D.faults target.new) result }
    ensures refused { IfErr result (RefusesChange secret.now (RefusesTags timestamp.now (E.drawn entropy.old) (E.drawn entropy.new) (D.told target.new))
        (D.told target.old)) }
    ensures kept { IfErr result (λ fault. IsOfWork fault
        → Between (D.told target.old) (D.told target.new) (LeavesAll secret.now (LeavesArchives secret.now timestamp.now))) }
    ensures shut { Between (D.told target.old) (D.told target.new) (OpenLeaves secret.now) }
    ensures number { NeedsNumber (λ fault. ⊥) secret.now (D.told target.old) result }
    ensures unwritten { IfErr result (λ fault. IsOfReading fault → Between (D.told target.old) (D.told target.new) OnlyRemoves
        ⊎ BreaksRecord secret.now (E.drawn entropy.old) (E.drawn entropy.new) (D.told target.old) (D.told target.new) fault) }
    ensures shelf { IfErr result (λ fault. shelf_failed fault ≡ false) }
    ensures entropy { HasCause random_failed (E.faults entropy.old) (E.faults entropy.new) result }
{
    let mut store = Store::open(alloc, target, secret)?;
    let time = time_of(timestamp);
    ferry_refs::tag_archives(alloc, &mut store, target, entropy, time)
}

/// The time that the words give, where they do.
fn time_of(timestamp: &Option<Bytes>) -> Option<&[u8]>
    ensures { option_copied result ≡ timestamp.now }
{
    match timestamp {
        Some(time) => Some(time.as_slice()),
        None => None,
    }
}

/// Tells how many records got a tag.
fn tell_tagged<D: Depot>(alloc: Global, target: &mut D, count: u64) -> Result<(), StoreRefusal>
    ensures did { Did (IsStep (TellOf (tagged_line count))) (λ _ h g. g ≡ with_act (TellOf (tagged_line count)) true h)
        (D.told target.old) (D.told target.new) (D.faults target.old) (D.faults target.new) result }
    ensures refused { IfErr result RefusesTelling }
    ensures drawn { IfErr result (λ refusal. source_failed refusal ≡ false) }
{
    let line = tagged_line(alloc, count)?;
    target.tell(&line)?;
    Ok(())
}

/// The line of so many records that got a tag.
fn tagged_line(alloc: Global, count: u64) -> Result<Vec<u8>, AllocError>
    ensures line { IfOk result (λ line. line.items ≡ tagged_line count) }
{
    let mut line = Vec::from_slice(alloc, b"tagged ")?;
    write_number(u128::from(count), &mut line)?;
    line.push(b'\n')?;
    Ok(line)
}
