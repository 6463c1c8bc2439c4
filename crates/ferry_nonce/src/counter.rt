//! A counter of blocks.
ghost use Rattle.std.specs.Prelude.{◌≡◌, ◌↔◌, ◌+◌, ◌-◌, ◌^◌, ◌<◌, ◌≤◌, true, false, Some, None, Ok, length, option_map, IfOk, IfSome, OnOk, OnErr, IsErrOf};
ghost use Rattle.ferry_disk.specs.Device.{HasCause, KeepsTold, told_files};
ghost use Rattle.ferry_disk.specs.Faults.{EndsAtFault};
ghost use Rattle.ferry_disk.specs.Files.{contents_at, file_at};
ghost use Rattle.ferry_disk.specs.Image.{plain_in, settled};
ghost use Rattle.ferry_disk.specs.Moments.{Between};
ghost use Rattle.ferry_disk.specs.declared.name.Name.TheVariants.{Nonce};
ghost use Rattle.ferry_nonce.specs.Counter.{CounterFits, FitIn, HasNoNumber, IsExactly, IsExhausted, IsReserved, KeepsAbove, Reads, ReadsFile};
ghost use Rattle.ferry_nonce.specs.Counter.{Reserves, drawn, file_size, reservation, reserved_for, spends};
ghost use Rattle.ferry_nonce.specs.Fault.{nonce_failed};
ghost use Rattle.ferry_stops.specs.Counters.{IsNonce};
ghost use Rattle.ferry_stops.specs.Tells.{TellsNothing};

use crate::fault::NonceFault;
use crate::text::{DIGITS, read_number, spell_number};
use ferry_disk::{Depot, Name, fill};

/// How many blocks are reserved beyond those that a draw needs: each replacement of the file serves 4 GiB of blobs, and a stop loses no
/// more numbers than that.
const RESERVATION: u64 = 268_435_456;

/// A counter of blocks of 16 bytes: the next free number, the number up to which the file `nonce` reserves, and whether it can't be used
/// any more.
///
/// It is that of one run over one depot, whose file `nonce` nobody else replaces.
#[derive(Clone, Copy, Debug, PartialEq, Eq)]
pub struct Counter {
    free: u64,
    reserved: u64,
    spent: bool,
}

impl Counter {
    /// The counter of a depot's file `nonce`, which it reads.
    ///
    /// `committed` says whether the repository has a commit; where it has none, an absent file counts as 0. `Missing` and `Text` are told of
    /// the file. No memory is taken.
    pub fn open<D: Depot>(depot: &mut D, committed: bool) -> Result<Counter, NonceFault>
        ensures opened { IfOk result (λ counter. IfSome (D.told depot.old) (λ t. IsNonce (file_at (told_files t) Nonce) counter.free)) }
        ensures counts { IfOk result (λ counter. IfSome (D.told depot.old)
            (λ t. (plain_in t.history Nonce).perhaps ≡ None → CounterFits counter t.history)) }
        ensures missing { IfSome (D.told depot.old)
            (λ t. IsExactly result NonceFault.Missing ((file_at (told_files t) Nonce ≡ None) × (committed ≡ true))) }
        ensures text { IfSome (D.told depot.old) (λ t. IsExactly result NonceFault.Text (HasNoNumber (file_at (told_files t) Nonce))) }
        ensures never_exhausted { IsErrOf result NonceFault.Exhausted → ⊥ }
        ensures fresh { IfOk result (λ counter. (counter.reserved ≡ counter.free) × (counter.spent ≡ false)) }
        ensures same { KeepsTold nonce_failed (D.told depot.old) (D.told depot.new) result }
        ensures untold { Between (D.told depot.old) (D.told depot.new) TellsNothing }
        ensures cause { HasCause nonce_failed (D.faults depot.old) (D.faults depot.new) result }
    {
        match number_in_file(depot, committed) {
            Ok(free) => Ok(Counter {
                free,
                reserved: free,
                spent: false,
            }),
            Err(fault) => Err(fault),
        }
    }

    /// Draws counter blocks: answers the first of so many numbers, which come one after another and were never answered before.
    ///
    /// The file is replaced first, where they don't fit in what it reserves: a stop of the machine between the two loses numbers and repeats
    /// none. After `Device` or `Memory` the counter can't be used any more; after `Exhausted` it is as it was. No memory is taken.
    pub fn draw<D: Depot>(&mut self, depot: &mut D, blocks: u64) -> Result<u64, NonceFault>
        requires not_spent { self.old.spent ≡ false }
        requires some { 1 ≤ blocks }
        requires most { blocks ≤ 2097152 }
        requires settled { IfSome (D.told depot.old) (λ t. settled t.history.acts ≡ true) }
        ensures drawn { IfOk result (λ first. (first ≡ self.old.free) × (self.new ≡ drawn self.old blocks)) }
        ensures within { IfOk result (λ first. first + blocks ≤ 2 ^ 64 - 1) }
        ensures refused { OnErr result (self.new ≡ record self.old { spent = spends result }) }
        ensures kept { FitIn self.old blocks → (result ≡ Ok self.old.free) × (depot.new ≡ depot.old) }
        ensures replaced { (FitIn self.old blocks → ⊥)
            → Reserves (reserved_for self.old blocks) (D.told depot.old) (D.told depot.new) result }
        ensures fits { OnOk result (Between (D.told depot.old) (D.told depot.new)
            (λ before now. CounterFits self.old before → CounterFits self.new now)) }
        ensures moments { Between (D.told depot.old) (D.told depot.new) (KeepsAbove self.old.free) }
        ensures stays_settled { IfSome (D.told depot.new) (λ t. settled t.history.acts ≡ true) }
        ensures untold { Between (D.told depot.old) (D.told depot.new) TellsNothing }
        ensures exhausted { IsErrOf result NonceFault.Exhausted ↔ IsExhausted self.old blocks }
        ensures no_call { IsErrOf result NonceFault.Exhausted → depot.new ≡ depot.old }
        ensures spent { self.new.spent ≡ spends result }
        ensures cause { HasCause nonce_failed (D.faults depot.old) (D.faults depot.new) result }
        ensures ends { EndsAtFault nonce_failed (D.told depot.old) (D.told depot.new) result }
    {
        let first = self.free;
        let reserved = self.reserved;
        let Some(behind) = first.checked_add(blocks) else {
            return Err(NonceFault::Exhausted);
        };
        if behind <= reserved {
            self.free = behind;
            return Ok(first);
        }
        self.reserve(depot, behind)?;
        self.free = behind;
        Ok(first)
    }

    /// The number that the next draw answers, where it isn't refused.
    pub fn free(&self) -> u64
        ensures { result ≡ self.now.free }
    {
        self.free
    }

    /// Whether a draw has answered `Device` or `Memory`, after which the counter can't be used.
    pub fn is_spent(&self) -> bool
        ensures { result ≡ self.now.spent }
    {
        self.spent
    }

    /// Reserves all numbers below `behind`, and more.
    fn reserve<D: Depot>(&mut self, depot: &mut D, behind: u64) -> Result<(), NonceFault>
        requires not_spent { self.old.spent ≡ false }
        requires above { self.old.free ≤ behind }
        requires settled { IfSome (D.told depot.old) (λ t. settled t.history.acts ≡ true) }
        ensures reserved { OnOk result (self.new ≡ record self.old { reserved = behind + reservation }) }
        ensures refused { OnErr result (self.new ≡ record self.old { spent = spends result }) }
        ensures replaced { Reserves (behind + reservation) (D.told depot.old) (D.told depot.new) result }
        ensures fits { OnOk result (Between (D.told depot.old) (D.told depot.new) (λ before now. IsReserved (behind + reservation) now)) }
        ensures moments { Between (D.told depot.old) (D.told depot.new) (KeepsAbove self.old.free) }
        ensures stays_settled { IfSome (D.told depot.new) (λ t. settled t.history.acts ≡ true) }
        ensures untold { Between (D.told depot.old) (D.told depot.new) TellsNothing }
        ensures exhausted { IsErrOf result NonceFault.Exhausted ↔ (2 ^ 64 - 1 < behind + reservation) }
        ensures no_call { IsErrOf result NonceFault.Exhausted → depot.new ≡ depot.old }
        ensures cause { HasCause nonce_failed (D.faults depot.old) (D.faults depot.new) result }
        ensures ends { EndsAtFault nonce_failed (D.told depot.old) (D.told depot.new) result }
    {
        let Some(reserved) = behind.checked_add(RESERVATION) else {
            return Err(NonceFault::Exhausted);
        };
        match depot.replace(Name::Nonce, &spell_number(reserved)) {
            Ok(()) => {
                self.reserved = reserved;
                Ok(())
            }
            Err(fault) => {
                self.spent = true;
                Err(NonceFault::from(fault))
            }
        }
    }
}

/// The number of the file `nonce`.
fn number_in_file<D: Depot>(depot: &mut D, committed: bool) -> Result<u64, NonceFault>
    ensures number { IfSome (D.told depot.old) (λ t. ReadsFile committed (file_at (told_files t) Nonce) result) }
    ensures never_exhausted { IsErrOf result NonceFault.Exhausted → ⊥ }
    ensures same { KeepsTold nonce_failed (D.told depot.old) (D.told depot.new) result }
    ensures cause { HasCause nonce_failed (D.faults depot.old) (D.faults depot.new) result }
{
    match depot.size(Name::Nonce)? {
        Some(size) => number_in_text(depot, size),
        None if committed => Err(NonceFault::Missing),
        None => Ok(0),
    }
}

/// The number of the file `nonce`, which is there and has this size.
fn number_in_text<D: Depot>(depot: &mut D, size: u64) -> Result<u64, NonceFault>
    ensures number { IfSome (D.told depot.old) (λ t. file_size (told_files t) ≡ Some size
        → Reads (contents_at (told_files t) Nonce) result) }
    ensures never_exhausted { IsErrOf result NonceFault.Exhausted → ⊥ }
    ensures same { KeepsTold nonce_failed (D.told depot.old) (D.told depot.new) result }
    ensures cause { HasCause nonce_failed (D.faults depot.old) (D.faults depot.new) result }
{
    if size != 16 && size != 17 {
        return Err(NonceFault::Text);
    }
    let mut text = [0u8; DIGITS + 1];
    let size = size as usize;
    let filled = fill(depot, Name::Nonce, 0, &mut text[..size])?;
    match read_number(&text[..filled]) {
        Some(number) => Ok(number),
        None => Err(NonceFault::Text),
    }
}
