//! A repository's files as they are read.
ghost use Rattle.std.specs.Prelude.{◌≡◌, ◌≤◌, ◌↔◌, ℕ, Option, Some, None, map, length, IsTrue, IfOk, IfSome, OnOk, OnErr, IsErrOf, option_map};
ghost use Rattle.std.specs.List.Sorted.{IsStrictlyIncreasing};
ghost use Rattle.ferry_disk.specs.Files.{Files, file_at, segment_numbers};
ghost use Rattle.ferry_disk.specs.Device.{Told, told_files, calls_told, counted, KeepsTold, HasCause, store_failed, ReadsAt};
ghost use Rattle.ferry_disk.specs.Calls.{Device, told_by, after_call, will_fail};

use crate::act::Kind;
use crate::calls::Calls;
use crate::files::{MemoryFiles, copy_from};
use crate::name::Name;
use std::alloc::{AllocError, Global};
use std::marker::Model;
use thiserror::Error;

/// Why a device gave no answer.
#[derive(Clone, Copy, Debug, PartialEq, Eq, Error)]
pub enum StoreFault {
    /// The device failed.
    #[error("the device failed")]
    Failed,
    /// Memory was refused.
    #[error("out of memory")]
    Memory,
}

/// A repository's files, which may fail to be read.
///
/// `told` is what a device over memory tells; a device over a folder tells nothing. `faults` counts the calls that failed. A call
/// that answers `Memory` changes neither but for the count of calls.
pub trait Shelf {
    ghost told: { Self → Option Told };

    ghost faults: { Self → ℕ };

    /// The numbers of the segments that are there, increasing.
    fn segments(&mut self, alloc: Global) -> Result<Vec<u64>, StoreFault>
        ensures increasing { IfOk result (λ numbers. IsStrictlyIncreasing numbers.items) }
        ensures numbers { IfOk result (λ numbers. IfSome (told self.old) (λ t. numbers.items ≡ segment_numbers (told_files t))) }
        ensures same { KeepsTold store_failed (told self.old) (told self.new) result }
        ensures calls { calls_told (told self.new) ≡ option_map counted (calls_told (told self.old)) }
        ensures cause { HasCause store_failed (faults self.old) (faults self.new) result };

    /// A file's length in bytes, `None` where it is absent.
    fn size(&mut self, name: Name) -> Result<Option<u64>, StoreFault>
        ensures size { IfOk result (λ size. IfSome (told self.old) (λ t. size ≡ option_map length (file_at (told_files t) name))) }
        ensures same { KeepsTold store_failed (told self.old) (told self.new) result }
        ensures calls { calls_told (told self.new) ≡ option_map counted (calls_told (told self.old)) }
        ensures cause { HasCause store_failed (faults self.old) (faults self.new) result };

    /// Fills the front of `into` with the file's bytes from byte `at` on, and answers how many: none at the file's end, or
    /// where it is absent. Takes no memory of the caller's.
    fn read_at(&mut self, name: Name, at: u64, into: &mut [u8]) -> Result<usize, StoreFault>
        ensures within { IfOk result (λ count. count ≤ length into.old) }
        ensures bytes { IfOk result (λ count. IfSome (told self.old) (λ t. ReadsAt (told_files t) name at into.old into.new count)) }
        ensures same { KeepsTold store_failed (told self.old) (told self.new) result }
        ensures calls { calls_told (told self.new) ≡ option_map counted (calls_told (told self.old)) }
        ensures cause { HasCause store_failed (faults self.old) (faults self.new) result };
}

/// A shelf in memory. Its calls are numbered from 1; those whose numbers are listed fail, no other.
#[derive(Drop)]
pub struct MemoryShelf {
    files: MemoryFiles,
    calls: Calls,
}

impl Model for MemoryShelf {
    ghost use Rattle.ferry_disk.specs.Calls.{Device, coded_device};

    ghost Value = { Device };

    ghost coded = { coded_device };

    ghost use Rattle.ferry_disk.specs.Memory.{files_of};

    ghost view = { λ s. record {
      files = files_of s.files;
      failing = s.calls.failing.items;
      calls = s.calls.calls;
      faults = s.calls.faults;
      failed = s.calls.failed;
    } };
}

impl MemoryShelf {
    ghost use Rattle.ferry_disk.specs.Memory.{files_given};

    /// A shelf of these files; of two with one name the later counts. `failing` has the numbers of the calls that fail.
    pub fn new(
        alloc: Global,
        files: Vec<(Name, Vec<u8>)>,
        failing: Vec<u64>,
    ) -> Result<MemoryShelf, AllocError>
        ensures files { IfOk result (λ shelf. shelf.files ≡ files_given (map (λ e. (e.0, e.1.items)) files.items)) }
        ensures failing { IfOk result (λ shelf. shelf.failing ≡ failing.items) }
        ensures unused { IfOk result (λ shelf. (shelf.calls ≡ 0) × (shelf.faults ≡ 0) × (shelf.failed ≡ None)) }
    {
        let files = MemoryFiles::of(alloc, files)?;
        let calls = Calls::new(failing);
        Ok(MemoryShelf { files, calls })
    }

    /// How many calls it has had.
    pub fn count(&self) -> u64
        ensures { result ≡ self.now.calls }
    {
        self.calls.calls
    }
}

impl MemoryShelf {
    ghost use Rattle.ferry_disk.specs.Act.{stepped, IsPlainStep};
    ghost use Rattle.ferry_disk.specs.Acts.{step_of};
    ghost use Rattle.ferry_disk.specs.Memory.{files_of};

    /// A shelf of these files that has had no call.
    pub(crate) fn over(files: MemoryFiles, failing: Vec<u64>) -> MemoryShelf
        ensures files { result.files ≡ files_of files }
        ensures failing { result.failing ≡ failing.items }
        ensures unused { (result.calls ≡ 0) × (result.faults ≡ 0) × (result.failed ≡ None) }
    {
        let calls = Calls::new(failing);
        MemoryShelf { files, calls }
    }

    /// Its files, in memory of their own.
    pub(crate) fn copy_files(&self, alloc: Global) -> Result<MemoryFiles, AllocError>
        ensures { IfOk result (λ files. files_of files ≡ self.now.files) }
    {
        self.files.copy(alloc)
    }

    /// Counts one more call, which does nothing and doesn't fail.
    pub(crate) fn count_one(&mut self)
        ensures { self.new ≡ record self.old { calls = counted self.old.calls } }
    {
        self.calls.count_one();
    }

    /// Counts one more call, and answers whether it fails.
    pub(crate) fn next_fails(&mut self) -> bool
        ensures fails { result ≡ will_fail self.old }
        ensures after { self.new ≡ after_call self.old }
    {
        self.calls.next_fails()
    }

    /// Does to the files what an act does where it is done. At an error nothing has changed.
    pub(crate) fn carry_out(&mut self, alloc: Global, kind: &Kind) -> Result<(), AllocError>
        requires { IsPlainStep (step_of kind.now) }
        ensures ok { OnOk result (self.new ≡ record self.old { files = stepped self.old.files (step_of kind.now) }) }
        ensures err { OnErr result (self.new ≡ self.old) }
    {
        self.files.carry_out(alloc, kind)
    }
}

impl Shelf for MemoryShelf {
    ghost told = { λ s. Some (told_by s) };

    ghost faults = { λ s. s.faults };

    fn segments(&mut self, alloc: Global) -> Result<Vec<u64>, StoreFault>
        ensures increasing { IfOk result (λ numbers. IsStrictlyIncreasing numbers.items) }
        ensures numbers { IfOk result (λ numbers. numbers.items ≡ segment_numbers self.old.files) }
        ensures after { self.new ≡ after_call self.old }
        ensures cause { HasCause store_failed self.old.faults self.new.faults result }
        ensures failed { IsErrOf result StoreFault.Failed ↔ IsTrue (will_fail self.old) }
    {
        if self.calls.next_fails() {
            return Err(StoreFault::Failed);
        }
        match self.files.numbers(alloc) {
            Ok(numbers) => Ok(numbers),
            Err(_) => Err(StoreFault::Memory),
        }
    }

    fn size(&mut self, name: Name) -> Result<Option<u64>, StoreFault>
        ensures size { IfOk result (λ size. size ≡ option_map length (file_at self.old.files name)) }
        ensures after { self.new ≡ after_call self.old }
        ensures cause { HasCause store_failed self.old.faults self.new.faults result }
        ensures failed { IsErrOf result StoreFault.Failed ↔ IsTrue (will_fail self.old) }
    {
        if self.calls.next_fails() {
            return Err(StoreFault::Failed);
        }
        match self.files.get(name) {
            Some(bytes) => Ok(Some(bytes.len() as u64)),
            None => Ok(None),
        }
    }

    fn read_at(&mut self, name: Name, at: u64, into: &mut [u8]) -> Result<usize, StoreFault>
        ensures bytes { IfOk result (λ count. ReadsAt self.old.files name at into.old into.new count) }
        ensures after { self.new ≡ after_call self.old }
        ensures cause { HasCause store_failed self.old.faults self.new.faults result }
        ensures failed { IsErrOf result StoreFault.Failed ↔ IsTrue (will_fail self.old) }
    {
        if self.calls.next_fails() {
            return Err(StoreFault::Failed);
        }
        match self.files.get(name) {
            Some(bytes) => Ok(copy_from(bytes, at, into)),
            None => Ok(0),
        }
    }
}
