//! A session: entries that are put behind the last commit, and committed together.
ghost use Rattle.std.specs.Prelude.{◌≡◌, ◌≤◌, ◌<◌, ◌+◌, ◌↔◌, ◌∷◌, ◌++◌, ◌^◌, [], IsTrue, IfOk, OnOk, OnErr, IsErrOf, Some, None, true, false, length, is_err};
ghost use Rattle.ferry_disk.specs.Act.{AppendTo, SyncOf};
ghost use Rattle.ferry_disk.specs.Device.{HasCause};
ghost use Rattle.ferry_disk.specs.Faults.{EndsAtFault};
ghost use Rattle.ferry_disk.specs.Moments.{Between};
ghost use Rattle.ferry_segment.specs.Entry.{PutEntry, DeleteEntry, CommitEntry, spelling};
ghost use Rattle.ferry_segment.specs.Segment.{magic};
ghost use Rattle.ferry_stops.specs.Tells.{TellsNothing};
ghost use Rattle.ferry_write.specs.Fault.{write_failed};
ghost use Rattle.ferry_write.specs.Front.{OnlyRemoves, Writes};
ghost use Rattle.ferry_write.specs.Room.{behind, must_begin, room_of, room_steps, put_steps, delete_steps, commit_steps, AreUsedUp};
ghost use Rattle.ferry_write.specs.Room.{after_entry, after_commit};
ghost use Rattle.ferry_write.specs.Rows.{BeginBrings, BeginsRows, Brings, BringsNone, KeepsRows};
ghost use Rattle.ferry_write.specs.Script.{AllDone, Ran};
ghost use Rattle.ferry_write.specs.Session.{BeginKeeps, Begins, ClearsAbove, SettlesFirst, Keeps, Puts, Lies, KeepsOrCommits, Commits};
ghost use Rattle.ferry_write.specs.Session.{KeepsPlain, OnlyAppends};
ghost use Rattle.ferry_write.specs.declared.fault.WriteFault.TheVariants as Write;

use crate::fault::WriteFault;
use crate::room::{Room, is_full, next_number};
use crate::script::{append_commit, append_parts, append_to, begin_segment, clear, sync_current};
use ferry_base::{Id, PUT_HEAD};
use ferry_disk::Depot;
use ferry_log::Place;
use ferry_segment::{MAGIC, delete_entry, put_head};
use std::alloc::Global;

/// Entries that are put behind the last commit, and committed together.
///
/// `after` is the number of the last commit's segment, `last` that of the last segment, and `size` the size in bytes of the segment that is
/// written. After a fault a session is spent.
#[derive(Drop)]
pub struct Session {
    limit: u64,
    after: Option<u64>,
    last: Option<u64>,
    size: Option<u64>,
    spent: bool,
}

impl Session {
    /// Begins a session behind the commit in segment `after`, or behind none: what a read gives is made stable, and every segment above
    /// `after` is removed. A segment gets no further entry once its size in bytes would be above `limit`.
    pub fn begin<D: Depot>(
        alloc: Global,
        depot: &mut D,
        after: Option<u64>,
        limit: u64,
    ) -> Result<Session, WriteFault>
        ensures moments { Between (D.told depot.old) (D.told depot.new) (BeginKeeps after) }
        ensures begun { IfOk result (λ session. Between (D.told depot.old) (D.told depot.new) (Begins after session)) }
        ensures fresh { IfOk result (λ session. session ≡ record { limit = limit; after = after; last = after; size = None; spent = false }) }
        ensures acts { ClearsAbove after (D.told depot.old) (D.told depot.new) result }
        ensures first { Between (D.told depot.old) (D.told depot.new) SettlesFirst }
        ensures removes { Between (D.told depot.old) (D.told depot.new) OnlyRemoves }
        ensures gains { Between (D.told depot.old) (D.told depot.new) BeginBrings }
        ensures rows { IfOk result (λ session. Between (D.told depot.old) (D.told depot.new) (BeginsRows session)) }
        ensures beside { Between (D.told depot.old) (D.told depot.new) KeepsPlain }
        ensures untold { Between (D.told depot.old) (D.told depot.new) TellsNothing }
        ensures numbers { IsErrOf result Write.Numbers → ⊥ }
        ensures cause { HasCause write_failed (D.faults depot.old) (D.faults depot.new) result }
        ensures ends { EndsAtFault write_failed (D.told depot.old) (D.told depot.new) result }
    {
        clear(alloc, depot, after)?;
        Ok(Session {
            limit,
            after,
            last: after,
            size: None,
            spent: false,
        })
    }

    /// Whether a call on it answered a fault. No further one may be made then.
    pub fn is_spent(&self) -> bool
        ensures { result ≡ self.now.spent }
    {
        self.spent
    }

    /// Puts a blob of at most 20971479 bytes under a key, and answers where the blob lies. Nothing is allocated, and the blob isn't copied.
    pub fn put<D: Depot>(
        &mut self,
        depot: &mut D,
        key: &Id,
        blob: &[u8],
    ) -> Result<Place, WriteFault>
        requires not_spent { self.old.spent ≡ false }
        requires small { length blob.now ≤ 20971479 }
        ensures moments { Between (D.told depot.old) (D.told depot.new) (Keeps self.old) }
        ensures put { OnOk result (Between (D.told depot.old) (D.told depot.new) (Puts self.old self.new (PutEntry key.now blob.now))) }
        ensures writes { Between (D.told depot.old) (D.told depot.new) (Writes self.old (PutEntry key.now blob.now ∷ [])) }
        ensures place { IfOk result (λ place. Between (D.told depot.old) (D.told depot.new) (Lies self.old place blob.now)) }
        ensures gains { Between (D.told depot.old) (D.told depot.new) (Brings self.old (PutEntry key.now blob.now)) }
        ensures rows { OnOk result (Between (D.told depot.old) (D.told depot.new) (KeepsRows self.old self.new)) }
        ensures stays { Between (D.told depot.old) (D.told depot.new) (OnlyAppends self.old) }
        ensures beside { Between (D.told depot.old) (D.told depot.new) KeepsPlain }
        ensures untold { Between (D.told depot.old) (D.told depot.new) TellsNothing }
        ensures ok { OnOk result (self.new ≡ after_entry self.old (41 + length blob.now)) }
        ensures done { OnOk result (Between (D.told depot.old) (D.told depot.new) AllDone) }
        ensures err { OnErr result (self.new ≡ record self.old { spent = true }) }
        ensures spent { self.new.spent ≡ is_err result }
        ensures numbers { IsErrOf result Write.Numbers
            ↔ (IsTrue (must_begin self.old.last self.old.size self.old.limit (41 + length blob.now)) × AreUsedUp self.old.last) }
        ensures cause { HasCause write_failed (D.faults depot.old) (D.faults depot.new) result }
        ensures ends { EndsAtFault write_failed (D.told depot.old) (D.told depot.new) result }
    {
        let head = put_head(key, blob);
        match self.write_put(depot, &head, blob) {
            Ok(room) => {
                self.take_entry(room, PUT_HEAD + blob.len());
                Ok(Place {
                    segment: room.segment,
                    at: room.at + PUT_HEAD as u64,
                    size: blob.len() as u32,
                })
            }
            Err(fault) => Err(self.spend(fault)),
        }
    }

    /// Deletes a key. Nothing is allocated.
    pub fn delete<D: Depot>(&mut self, depot: &mut D, key: &Id) -> Result<(), WriteFault>
        requires not_spent { self.old.spent ≡ false }
        ensures moments { Between (D.told depot.old) (D.told depot.new) (Keeps self.old) }
        ensures put { OnOk result (Between (D.told depot.old) (D.told depot.new) (Puts self.old self.new (DeleteEntry key.now))) }
        ensures gains { Between (D.told depot.old) (D.told depot.new) (Brings self.old (DeleteEntry key.now)) }
        ensures rows { OnOk result (Between (D.told depot.old) (D.told depot.new) (KeepsRows self.old self.new)) }
        ensures stays { Between (D.told depot.old) (D.told depot.new) (OnlyAppends self.old) }
        ensures beside { Between (D.told depot.old) (D.told depot.new) KeepsPlain }
        ensures untold { Between (D.told depot.old) (D.told depot.new) TellsNothing }
        ensures ok { OnOk result (self.new ≡ after_entry self.old 41) }
        ensures done { OnOk result (Between (D.told depot.old) (D.told depot.new) AllDone) }
        ensures err { OnErr result (self.new ≡ record self.old { spent = true }) }
        ensures spent { self.new.spent ≡ is_err result }
        ensures numbers { IsErrOf result Write.Numbers
            ↔ (IsTrue (must_begin self.old.last self.old.size self.old.limit 41) × AreUsedUp self.old.last) }
        ensures cause { HasCause write_failed (D.faults depot.old) (D.faults depot.new) result }
        ensures ends { EndsAtFault write_failed (D.told depot.old) (D.told depot.new) result }
    {
        let entry = delete_entry(key);
        match self.write_delete(depot, &entry) {
            Ok(room) => {
                self.take_entry(room, PUT_HEAD);
                Ok(())
            }
            Err(fault) => Err(self.spend(fault)),
        }
    }

    /// Commits what was put, and answers the number of the commit's segment. The next entry begins a segment.
    pub fn commit<D: Depot>(&mut self, depot: &mut D) -> Result<u64, WriteFault>
        requires not_spent { self.old.spent ≡ false }
        ensures moments { Between (D.told depot.old) (D.told depot.new) (KeepsOrCommits self.old) }
        ensures committed { OnOk result (Between (D.told depot.old) (D.told depot.new) (Commits self.old self.new)) }
        ensures writes { Between (D.told depot.old) (D.told depot.new) (Writes self.old (CommitEntry ∷ [])) }
        ensures gains { Between (D.told depot.old) (D.told depot.new) (BringsNone self.old) }
        ensures rows { OnOk result (Between (D.told depot.old) (D.told depot.new) (KeepsRows self.old self.new)) }
        ensures stays { Between (D.told depot.old) (D.told depot.new) (OnlyAppends self.old) }
        ensures beside { Between (D.told depot.old) (D.told depot.new) KeepsPlain }
        ensures untold { Between (D.told depot.old) (D.told depot.new) TellsNothing }
        ensures number { IfOk result (λ number. number ≡ behind self.old.last) }
        ensures ok { OnOk result (self.new ≡ after_commit self.old) }
        ensures done { OnOk result (Between (D.told depot.old) (D.told depot.new) AllDone) }
        ensures err { OnErr result (self.new ≡ record self.old { spent = true }) }
        ensures spent { self.new.spent ≡ is_err result }
        ensures numbers { IsErrOf result Write.Numbers ↔ AreUsedUp self.old.last }
        ensures nothing { IsErrOf result Write.Numbers → D.told depot.new ≡ D.told depot.old }
        ensures cause { HasCause write_failed (D.faults depot.old) (D.faults depot.new) result }
        ensures ends { EndsAtFault write_failed (D.told depot.old) (D.told depot.new) result }
    {
        match self.write_commit(depot) {
            Ok(number) => {
                self.after = Some(number);
                self.last = Some(number);
                self.size = None;
                Ok(number)
            }
            Err(fault) => Err(self.spend(fault)),
        }
    }
}

impl Session {
    /// Sees to a segment that has room for an entry of this size: the one that is written, or a new one.
    fn make_room<D: Depot>(&self, depot: &mut D, more: u64) -> Result<Room, WriteFault>
        requires small { more ≤ 20971520 }
        ensures room { IfOk result (λ room. room ≡ room_of self.now more) }
        ensures fits { IfOk result (λ room. room.at + more < 2 ^ 64) }
        ensures ran { Ran (room_steps self.now.last self.now.size (must_begin self.now.last self.now.size self.now.limit more)) (D.told depot.old)
            (D.told depot.new) (D.faults depot.old) (D.faults depot.new) result }
        ensures numbers { IsErrOf result Write.Numbers
            ↔ (IsTrue (must_begin self.now.last self.now.size self.now.limit more) × AreUsedUp self.now.last) }
    {
        if let (Some(segment), Some(at)) = (self.last, self.size) {
            if !is_full(at, self.limit, more) {
                return Ok(Room { segment, at });
            }
        }
        let segment = next_number(self.last)?;
        begin_segment(depot, self.last, self.size, segment)?;
        Ok(Room {
            segment,
            at: MAGIC.len() as u64,
        })
    }

    /// Writes a PUT, whose bytes are these two parts.
    fn write_put<D: Depot>(
        &self,
        depot: &mut D,
        head: &[u8],
        blob: &[u8],
    ) -> Result<Room, WriteFault>
        requires small { length head.now + length blob.now ≤ 20971520 }
        ensures room { IfOk result (λ room. room ≡ room_of self.now (length head.now + length blob.now)) }
        ensures fits { IfOk result (λ room. room.at + (length head.now + length blob.now) < 2 ^ 64) }
        ensures ran { Ran (put_steps self.now head.now blob.now) (D.told depot.old) (D.told depot.new) (D.faults depot.old) (D.faults depot.new) result }
        ensures numbers { IsErrOf result Write.Numbers ↔ (IsTrue (must_begin self.now.last self.now.size self.now.limit
            (length head.now + length blob.now)) × AreUsedUp self.now.last) }
    {
        let room = self.make_room(depot, (head.len() + blob.len()) as u64)?;
        append_parts(depot, room.segment, head, blob)?;
        Ok(room)
    }

    /// Writes a DELETE, whose bytes these are.
    fn write_delete<D: Depot>(&self, depot: &mut D, entry: &[u8]) -> Result<Room, WriteFault>
        requires small { length entry.now ≤ 20971520 }
        ensures room { IfOk result (λ room. room ≡ room_of self.now (length entry.now)) }
        ensures fits { IfOk result (λ room. room.at + length entry.now < 2 ^ 64) }
        ensures ran { Ran (delete_steps self.now entry.now) (D.told depot.old) (D.told depot.new) (D.faults depot.old) (D.faults depot.new) result }
        ensures numbers { IsErrOf result Write.Numbers
            ↔ (IsTrue (must_begin self.now.last self.now.size self.now.limit (length entry.now)) × AreUsedUp self.now.last) }
    {
        let room = self.make_room(depot, entry.len() as u64)?;
        append_to(depot, room.segment, entry)?;
        Ok(room)
    }

    /// Writes a commit, and answers the number of its segment.
    fn write_commit<D: Depot>(&self, depot: &mut D) -> Result<u64, WriteFault>
        ensures number { IfOk result (λ number. number ≡ behind self.now.last) }
        ensures ran { Ran (commit_steps self.now.last self.now.size) (D.told depot.old) (D.told depot.new) (D.faults depot.old) (D.faults depot.new)
            result }
        ensures numbers { IsErrOf result Write.Numbers ↔ AreUsedUp self.now.last }
        ensures nothing { IsErrOf result Write.Numbers → D.told depot.new ≡ D.told depot.old }
    {
        let number = next_number(self.last)?;
        sync_current(depot, self.last, self.size)?;
        append_commit(depot, number)?;
        Ok(number)
    }

    /// Takes a fault into account: no further call may be made.
    fn spend(&mut self, fault: WriteFault) -> WriteFault
        ensures fault { result ≡ fault }
        ensures spent { self.new ≡ record self.old { spent = true } }
    {
        self.spent = true;
        fault
    }

    /// Takes an entry of this size into account, which was written there.
    fn take_entry(&mut self, room: Room, more: usize)
        requires { room.at + more < 2 ^ 64 }
        ensures { self.new ≡ record self.old { last = Some room.segment; size = Some (room.at + more) } }
    {
        self.last = Some(room.segment);
        self.size = Some(room.at + more as u64);
    }
}
