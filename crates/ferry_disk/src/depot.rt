//! A repository's files as they are written.
ghost use Rattle.std.specs.Prelude.{◌≡◌, ◌++◌, ◌↔◌, List, [], Option, Some, None, map, length, IsTrue, IfOk, IsErrOf, option_map, slice_get};
ghost use Rattle.std.specs.List.Sorted.{IsStrictlyIncreasing};
ghost use Rattle.ferry_disk.specs.Act.{IsPlain, IsPlainStep, files_now, untouched, after_run, after_stop};
ghost use Rattle.ferry_disk.specs.Act.{AppendTo, SyncOf, RemoveOf, ReplaceBy, SettleAll, TellOf};
ghost use Rattle.ferry_disk.specs.Acts.{step_of, act_of, acts_of};
ghost use Rattle.ferry_disk.specs.Choice.{moment_of, Describes};
ghost use Rattle.ferry_disk.specs.Files.{Files, file_at, segment_numbers};
ghost use Rattle.ferry_disk.specs.Device.{Acts, HasCause, store_failed, ReadsAt};
ghost use Rattle.ferry_disk.specs.Disk.{disk_told, disk_fails, disk_read, begun, Recorded, Notes};
ghost use Rattle.ferry_disk.specs.Memory.{files_given};

use crate::act::{Act, Kind};
use crate::choice::Choice;
use crate::files::MemoryFiles;
use crate::name::Name;
use crate::shelf::{MemoryShelf, Shelf, StoreFault};
use crate::sizes::is_described;
use crate::stop::{files_left, moment_acts};
use std::alloc::{AllocError, Global};
use std::marker::Model;

/// A repository's files, which can be read and written, and a line to the user. Each of its six calls makes one act.
///
/// `Ok` says that the act was done, `Failed` that it wasn't. A call that answers `Memory` makes no act.
pub trait Depot: Shelf {
    /// Appends bytes to a segment, which is created where it is absent.
    fn append(&mut self, segment: u64, bytes: &[u8]) -> Result<(), StoreFault>
        ensures act { Acts (AppendTo segment bytes.now) (Self.told self.old) (Self.told self.new) result }
        ensures cause { HasCause store_failed (Self.faults self.old) (Self.faults self.new) result };

    /// Makes a segment stable as a read gives it.
    fn sync(&mut self, segment: u64) -> Result<(), StoreFault>
        ensures act { Acts (SyncOf segment) (Self.told self.old) (Self.told self.new) result }
        ensures cause { HasCause store_failed (Self.faults self.old) (Self.faults self.new) result };

    /// Removes a segment for good.
    fn remove(&mut self, segment: u64) -> Result<(), StoreFault>
        ensures act { Acts (RemoveOf segment) (Self.told self.old) (Self.told self.new) result }
        ensures cause { HasCause store_failed (Self.faults self.old) (Self.faults self.new) result };

    /// Replaces a file as a whole, which is created where it is absent.
    fn replace(&mut self, name: Name, bytes: &[u8]) -> Result<(), StoreFault>
        requires { IsPlain name }
        ensures act { Acts (ReplaceBy name bytes.now) (Self.told self.old) (Self.told self.new) result }
        ensures cause { HasCause store_failed (Self.faults self.old) (Self.faults self.new) result };

    /// Makes all stable that a read gives.
    fn settle(&mut self) -> Result<(), StoreFault>
        ensures act { Acts SettleAll (Self.told self.old) (Self.told self.new) result }
        ensures cause { HasCause store_failed (Self.faults self.old) (Self.faults self.new) result };

    /// Reports a line to the user.
    fn tell(&mut self, line: &[u8]) -> Result<(), StoreFault>
        ensures act { Acts (TellOf line.now) (Self.told self.old) (Self.told self.new) result }
        ensures cause { HasCause store_failed (Self.faults self.old) (Self.faults self.new) result };
}

/// A depot in memory. Its calls are numbered from 1; those whose numbers are listed fail, no other, and change nothing that a read
/// gives. It keeps the files of its start, the acts of earlier runs and those of this run.
#[derive(Drop)]
pub struct MemoryDepot {
    alloc: Global,
    start: MemoryFiles,
    past: Vec<Act>,
    acts: Vec<Act>,
    shelf: MemoryShelf,
}

impl Model for MemoryDepot {
    ghost use Rattle.std.specs.Prelude.{◌≡◌};
    ghost use Rattle.ferry_disk.specs.Act.{applied};
    ghost use Rattle.ferry_disk.specs.Disk.{Disk, coded_disk, disk_of};

    ghost Value = { Disk };

    ghost coded = { coded_disk };

    ghost use Rattle.ferry_disk.specs.Acts.{acts_of};
    ghost use Rattle.ferry_disk.specs.Memory.{files_of};

    ghost view = { λ d. disk_of (files_of d.start) (acts_of d.past.items) (acts_of d.acts.items) d.shelf };

    ghost invariant = { λ d. d.shelf.files ≡ applied (files_of d.start) (acts_of d.acts.items) };
}

impl MemoryDepot {
    /// A depot of these files, to which nothing was done; of two with one name the later counts. `failing` has the numbers of the
    /// calls that fail.
    pub fn new(
        alloc: Global,
        files: Vec<(Name, Vec<u8>)>,
        failing: Vec<u64>,
    ) -> Result<MemoryDepot, AllocError>
        ensures begun { IfOk result (λ depot. depot ≡ begun (untouched (files_given (map (λ e. (e.0, e.1.items)) files.items))) failing.items) }
    {
        let start = MemoryFiles::of(alloc, files)?;
        let shelf = MemoryShelf::over(start.copy(alloc)?, failing);
        Ok(MemoryDepot {
            alloc,
            start,
            past: Vec::new(alloc),
            acts: Vec::new(alloc),
            shelf,
        })
    }

    /// How many calls it has had.
    pub fn count(&self) -> u64
        ensures { result ≡ self.now.calls }
    {
        self.shelf.count()
    }

    /// Act number `index`, from 0, of this run: none where there are no more.
    pub fn act(&self, index: usize) -> Option<&Act>
        ensures { option_map (λ act. act_of act.now) result ≡ slice_get self.now.history.acts index }
    {
        self.acts.get(index)
    }

    /// Whether a choice describes an image of a moment of this run. Nothing is copied.
    pub fn allows(&self, choice: &Choice) -> bool
        ensures { IsTrue result ↔ ((image : Files) × Describes choice.now self.now.history image) }
    {
        is_described(&self.start, &self.acts, choice)
    }

    /// The depot of the next run, where the machine stopped and left the image that a choice describes, of the acts of its moment: none
    /// of its calls fails.
    pub fn crash(self, choice: Choice) -> Result<MemoryDepot, AllocError>
        requires { (image : Files) × Describes choice self.history image }
        ensures crashed { IfOk result (λ depot. (image : Files) × Describes choice self.history image
            × (depot ≡ begun (after_stop image (moment_of choice self.history.acts) self.history) [])) }
    {
        let MemoryDepot {
            alloc,
            start,
            mut past,
            acts,
            shelf: _,
        } = self;
        let mut moment = moment_acts(acts, &choice);
        let image = files_left(alloc, &start, &moment, &choice)?;
        past.append(&mut moment)?;
        let files = image.copy(alloc)?;
        Ok(MemoryDepot {
            alloc,
            start: image,
            past,
            acts: Vec::new(alloc),
            shelf: MemoryShelf::over(files, Vec::new(alloc)),
        })
    }

    /// The depot of the next run, where no stop of the machine came between: none of its calls fails.
    pub fn again(self) -> Result<MemoryDepot, AllocError>
        ensures begun { IfOk result (λ depot. depot ≡ begun (after_run self.history) []) }
    {
        let MemoryDepot {
            alloc,
            start: _,
            mut past,
            mut acts,
            shelf,
        } = self;
        let start = shelf.copy_files(alloc)?;
        past.append(&mut acts)?;
        let files = shelf.copy_files(alloc)?;
        Ok(MemoryDepot {
            alloc,
            start,
            past,
            acts,
            shelf: MemoryShelf::over(files, Vec::new(alloc)),
        })
    }
}

/// One call of a depot of these acts: all or nothing, also for want of memory.
fn note_act(
    alloc: Global,
    shelf: &mut MemoryShelf,
    acts: &mut Vec<Act>,
    kind: Kind,
) -> Result<(), StoreFault>
    requires { IsPlainStep (step_of kind) }
    ensures noted { Notes (step_of kind) shelf.old (acts_of acts.old.items) shelf.new (acts_of acts.new.items) result }
{
    if acts.reserve(1).is_err() {
        shelf.count_one();
        return Err(StoreFault::Memory);
    }
    if shelf.next_fails() {
        return match acts.push(Act { kind, done: false }) {
            Ok(()) => Err(StoreFault::Failed),
            Err(_) => Err(StoreFault::Memory),
        };
    }
    if shelf.carry_out(alloc, &kind).is_err() {
        return Err(StoreFault::Memory);
    }
    match acts.push(Act { kind, done: true }) {
        Ok(()) => Ok(()),
        Err(_) => Err(StoreFault::Memory),
    }
}

impl Shelf for MemoryDepot {
    ghost told = { λ d. Some (disk_told d) };

    ghost faults = { λ d. d.faults };

    fn segments(&mut self, alloc: Global) -> Result<Vec<u64>, StoreFault>
        ensures increasing { IfOk result (λ numbers. IsStrictlyIncreasing numbers.items) }
        ensures numbers { IfOk result (λ numbers. numbers.items ≡ segment_numbers (files_now self.old.history)) }
        ensures after { self.new ≡ disk_read self.old }
        ensures cause { HasCause store_failed self.old.faults self.new.faults result }
        ensures failed { IsErrOf result StoreFault.Failed ↔ IsTrue (disk_fails self.old) }
    {
        self.shelf.segments(alloc)
    }

    fn size(&mut self, name: Name) -> Result<Option<u64>, StoreFault>
        ensures size { IfOk result (λ size. size ≡ option_map length (file_at (files_now self.old.history) name)) }
        ensures after { self.new ≡ disk_read self.old }
        ensures cause { HasCause store_failed self.old.faults self.new.faults result }
        ensures failed { IsErrOf result StoreFault.Failed ↔ IsTrue (disk_fails self.old) }
    {
        self.shelf.size(name)
    }

    fn read_at(&mut self, name: Name, at: u64, into: &mut [u8]) -> Result<usize, StoreFault>
        ensures bytes { IfOk result (λ count. ReadsAt (files_now self.old.history) name at into.old into.new count) }
        ensures after { self.new ≡ disk_read self.old }
        ensures cause { HasCause store_failed self.old.faults self.new.faults result }
        ensures failed { IsErrOf result StoreFault.Failed ↔ IsTrue (disk_fails self.old) }
    {
        self.shelf.read_at(name, at, into)
    }
}

impl Depot for MemoryDepot {
    fn append(&mut self, segment: u64, bytes: &[u8]) -> Result<(), StoreFault>
        ensures done { Recorded (AppendTo segment bytes.now) self.old self.new result }
        ensures act { Acts (AppendTo segment bytes.now) (Some (disk_told self.old)) (Some (disk_told self.new)) result }
        ensures cause { HasCause store_failed self.old.faults self.new.faults result }
    {
        let Ok(copy) = Vec::from_slice(self.alloc, bytes) else {
            self.shelf.count_one();
            return Err(StoreFault::Memory);
        };
        let kind = Kind::Append(segment, copy);
        note_act(self.alloc, &mut self.shelf, &mut self.acts, kind)
    }

    fn sync(&mut self, segment: u64) -> Result<(), StoreFault>
        ensures done { Recorded (SyncOf segment) self.old self.new result }
        ensures act { Acts (SyncOf segment) (Some (disk_told self.old)) (Some (disk_told self.new)) result }
        ensures cause { HasCause store_failed self.old.faults self.new.faults result }
    {
        let kind = Kind::Sync(segment);
        note_act(self.alloc, &mut self.shelf, &mut self.acts, kind)
    }

    fn remove(&mut self, segment: u64) -> Result<(), StoreFault>
        ensures done { Recorded (RemoveOf segment) self.old self.new result }
        ensures act { Acts (RemoveOf segment) (Some (disk_told self.old)) (Some (disk_told self.new)) result }
        ensures cause { HasCause store_failed self.old.faults self.new.faults result }
    {
        let kind = Kind::Remove(segment);
        note_act(self.alloc, &mut self.shelf, &mut self.acts, kind)
    }

    fn replace(&mut self, name: Name, bytes: &[u8]) -> Result<(), StoreFault>
        requires { IsPlain name }
        ensures done { Recorded (ReplaceBy name bytes.now) self.old self.new result }
        ensures act { Acts (ReplaceBy name bytes.now) (Some (disk_told self.old)) (Some (disk_told self.new)) result }
        ensures cause { HasCause store_failed self.old.faults self.new.faults result }
    {
        let Ok(copy) = Vec::from_slice(self.alloc, bytes) else {
            self.shelf.count_one();
            return Err(StoreFault::Memory);
        };
        let kind = Kind::Replace(name, copy);
        note_act(self.alloc, &mut self.shelf, &mut self.acts, kind)
    }

    fn settle(&mut self) -> Result<(), StoreFault>
        ensures done { Recorded SettleAll self.old self.new result }
        ensures act { Acts SettleAll (Some (disk_told self.old)) (Some (disk_told self.new)) result }
        ensures cause { HasCause store_failed self.old.faults self.new.faults result }
    {
        note_act(self.alloc, &mut self.shelf, &mut self.acts, Kind::Settle)
    }

    fn tell(&mut self, line: &[u8]) -> Result<(), StoreFault>
        ensures done { Recorded (TellOf line.now) self.old self.new result }
        ensures act { Acts (TellOf line.now) (Some (disk_told self.old)) (Some (disk_told self.new)) result }
        ensures cause { HasCause store_failed self.old.faults self.new.faults result }
    {
        let Ok(copy) = Vec::from_slice(self.alloc, line) else {
            self.shelf.count_one();
            return Err(StoreFault::Memory);
        };
        let kind = Kind::Tell(copy);
        note_act(self.alloc, &mut self.shelf, &mut self.acts, kind)
    }
}
