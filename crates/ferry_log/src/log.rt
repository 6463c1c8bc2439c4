//! An opened log.
ghost use Rattle.std.specs.Prelude.{◌≡◌, None, IfOk, IfErr, IfSome, OnOk, OnErr, MatchResult, is_some, slice_get};
ghost use Rattle.std.specs.List.Sorted.{IsStrictlyIncreasing};
ghost use Rattle.std.specs.Option.{option_copied};
ghost use Rattle.std.specs.FinMap.{empty, get};
ghost use Rattle.ferry_disk.specs.Files.{Files, segment_numbers};
ghost use Rattle.ferry_disk.specs.Device.{KeepsTold, HasCause, told_files};
ghost use Rattle.ferry_log.specs.Fault.{IsRefused, log_failed};
ghost use Rattle.ferry_log.specs.Window.{Tells};
ghost use Rattle.ferry_log.specs.State.{IsStateOf, IsLeastAbove, place_in, with_learnt};

use crate::extents::with_live;
use crate::fault::LogFault;
use crate::least::{add_place, least_in, lesser, place_at};
use crate::opening::{log_length, take_segments};
use crate::place::{Extent, Place};
use crate::window::no_window;
use ferry_base::Id;
use ferry_disk::Shelf;
use std::alloc::{AllocError, Global};
use std::collections::BTreeMap;
use std::marker::Model;

/// The committed log of a repository: its transaction, the places of its live keys, and its segments.
///
/// Source: BorgBackup 1.2, Internals, Repository.
#[derive(Drop)]
pub struct Log {
    pub(crate) transaction: u64,
    pub(crate) opened: BTreeMap<Id, Place>,
    pub(crate) extents: Vec<Extent>,
    pub(crate) learnt: BTreeMap<Id, Place>,
}

impl Model for Log {
    ghost use Rattle.ferry_log.specs.State.{LogState, coded_state};

    ghost Value = { LogState };

    ghost coded = { coded_state };

    ghost use Rattle.std.specs.FinMap.{from_entries};
    ghost use Rattle.ferry_log.specs.Live.{key_cmp};

    ghost view = { λ l. record {
      transaction = l.transaction;
      opened = from_entries {R = key_cmp} l.opened.entries;
      extents = l.extents.items;
      learnt = from_entries {R = key_cmp} l.learnt.entries;
    } };
}

/// Reads the log of a repository up to its transaction, the last committed segment.
///
/// Segments above the transaction don't count, damaged or not. A segment is read in windows of at most 65536 bytes, once, and the
/// transaction's own twice, so the memory taken is that of the places of the live keys and of one window.
pub fn open_log<S: Shelf>(alloc: Global, shelf: &mut S) -> Result<Log, LogFault>
    ensures log { IfOk result (λ log. IfSome (S.told shelf.old) (λ t. IsStateOf (told_files t) log)) }
    ensures refused { IfErr result (λ fault. IfSome (S.told shelf.old) (λ t. IsRefused (told_files t) fault)) }
    ensures learnt { IfOk result (λ log. log.learnt ≡ empty) }
    ensures same { KeepsTold log_failed (S.told shelf.old) (S.told shelf.new) result }
    ensures cause { HasCause log_failed (S.faults shelf.old) (S.faults shelf.new) result }
{
    let numbers = shelf.segments(alloc)?;
    open_segments(alloc, shelf, &numbers)
}

/// Reads the log of these segments, which are all that are there.
fn open_segments<S: Shelf>(alloc: Global, shelf: &mut S, numbers: &[u64]) -> Result<Log, LogFault>
    requires { IsStrictlyIncreasing numbers.now }
    ensures opened { (files : Files) → Tells (S.told shelf.old) files → numbers.now ≡ segment_numbers files → MatchResult result (IsStateOf files)
        (IsRefused files) }
    ensures learnt { IfOk result (λ log. log.learnt ≡ empty) }
    ensures same { KeepsTold log_failed (S.told shelf.old) (S.told shelf.new) result }
    ensures cause { HasCause log_failed (S.faults shelf.old) (S.faults shelf.new) result }
{
    let mut window = no_window(alloc);
    let count = log_length(shelf, numbers, &mut window)?;
    let transaction = numbers[count - 1];
    let numbers = &numbers[..count];
    let mut opened = BTreeMap::new(alloc);
    let mut extents = Vec::new(alloc);
    take_segments(shelf, numbers, &mut window, &mut opened, &mut extents)?;
    let extents = with_live(extents, numbers, &opened);
    Ok(Log {
        transaction,
        opened,
        extents,
        learnt: BTreeMap::new(alloc),
    })
}

impl Log {
    /// The number of the last committed segment.
    pub fn transaction(&self) -> u64
        ensures { result ≡ self.now.transaction }
    {
        self.transaction
    }

    /// The place of a key's blob, `None` where the key isn't live.
    pub fn find(&self, key: &Id) -> Option<Place>
        ensures { result ≡ place_in self.now key.now }
    {
        match place_at(&self.learnt, key) {
            Some(place) => Some(place),
            None => place_at(&self.opened, key),
        }
    }

    /// Whether a key was learnt since the log was opened.
    pub fn has_learnt(&self, key: &Id) -> bool
        ensures { result ≡ is_some (get self.now.learnt key.now) }
    {
        place_at(&self.learnt, key).is_some()
    }

    /// The least live key above `after` in byte order, or the least one, with the place of its blob.
    pub fn next_key(&self, after: Option<&Id>) -> Option<(Id, Place)>
        ensures { IsLeastAbove self.now (option_copied after.entry) result }
    {
        let learnt = least_in(&self.learnt, after);
        let opened = least_in(&self.opened, after);
        lesser(learnt, opened)
    }

    /// Segment number `i` of the log, counted from 0 in increasing order of numbers.
    pub fn extent(&self, i: usize) -> Option<Extent>
        ensures { result ≡ slice_get self.now.extents i }
    {
        self.extents.get(i).copied()
    }

    /// Learns the place of a key that isn't live: from then on the key is live, and its blob lies there. A refused call leaves the log
    /// as it was.
    pub fn learn(&mut self, key: &Id, place: Place) -> Result<(), AllocError>
        requires new { place_in self.old key.now ≡ None }
        ensures learnt { OnOk result (self.new ≡ with_learnt self.old key.now place) }
        ensures err { OnErr result (self.new ≡ self.old) }
    {
        add_place(&mut self.learnt, key, place)
    }
}
