//! Where output goes.
ghost use Rattle.std.specs.Prelude.{◌≡◌, ◌++◌, ◌↔◌, ℕ, List, Option, Some, [], if◌then◌else◌, IsTrue, IfOk, OnOk, OnErr, IsErrOf, option_map};
ghost use Rattle.ferry_disk.specs.Device.{HasCause, sink_failed, WritesSome, counted};
ghost use Rattle.ferry_disk.specs.Calls.{fails};

use crate::calls::Calls;
use std::alloc::{AllocError, Global};
use std::marker::Model;
use thiserror::Error;

/// Why a sink took not all bytes.
#[derive(Clone, Copy, Debug, PartialEq, Eq, Error)]
pub enum SinkFault {
    /// The sink failed.
    #[error("the output failed")]
    Failed,
    /// Memory was refused.
    #[error("out of memory")]
    Memory,
}

/// A place for output, which may fail.
///
/// `written` is what a sink in memory tells; standard output tells nothing. `faults` counts the calls that failed.
pub trait Sink {
    ghost written: { Self → Option (List ℕ) };

    ghost faults: { Self → ℕ };

    /// Appends bytes. After an error a front of them may have been taken.
    fn write(&mut self, bytes: &[u8]) -> Result<(), SinkFault>
        ensures ok { OnOk result (written self.new ≡ option_map (λ w. w ++ bytes.now) (written self.old)) }
        ensures err { OnErr result (WritesSome (written self.old) bytes.now (written self.new)) }
        ensures cause { HasCause sink_failed (faults self.old) (faults self.new) result };
}

/// A sink in memory. Its calls are numbered from 1; those whose numbers are listed fail, no other.
#[derive(Drop)]
pub struct MemorySink {
    bytes: Vec<u8>,
    calls: Calls,
}

impl Model for MemorySink {
    ghost use Rattle.ferry_disk.specs.Calls.{Written, coded_written};

    ghost Value = { Written };

    ghost coded = { coded_written };

    ghost view = { λ s. record {
      bytes = s.bytes.items;
      failing = s.calls.failing.items;
      calls = s.calls.calls;
      faults = s.calls.faults;
    } };
}

impl MemorySink {
    /// An empty sink. `failing` has the numbers of the calls that fail.
    pub fn new(alloc: Global, failing: Vec<u64>) -> Result<MemorySink, AllocError>
        ensures empty { IfOk result (λ sink. sink.bytes ≡ []) }
        ensures failing { IfOk result (λ sink. sink.failing ≡ failing.items) }
        ensures unused { IfOk result (λ sink. (sink.calls ≡ 0) × (sink.faults ≡ 0)) }
    {
        Ok(MemorySink {
            bytes: Vec::new(alloc),
            calls: Calls::new(failing),
        })
    }

    /// How many calls it has had.
    pub fn count(&self) -> u64
        ensures { result ≡ self.now.calls }
    {
        self.calls.calls
    }

    /// All that was written.
    pub fn bytes(&self) -> &[u8]
        ensures { result.now ≡ self.now.bytes }
    {
        &self.bytes
    }
}

impl Sink for MemorySink {
    ghost written = { λ s. Some s.bytes };

    ghost faults = { λ s. s.faults };

    fn write(&mut self, bytes: &[u8]) -> Result<(), SinkFault>
        ensures ok { OnOk result (self.new.bytes ≡ self.old.bytes ++ bytes.now) }
        ensures err { OnErr result (self.new.bytes ≡ self.old.bytes) }
        ensures failing { self.new.failing ≡ self.old.failing }
        ensures calls { self.new.calls ≡ counted self.old.calls }
        ensures faults { self.new.faults ≡ (if fails self.old.failing self.old.calls then counted self.old.faults else self.old.faults) }
        ensures cause { HasCause sink_failed self.old.faults self.new.faults result }
        ensures failed { IsErrOf result SinkFault.Failed ↔ IsTrue (fails self.old.failing self.old.calls) }
    {
        if self.calls.next_fails() {
            return Err(SinkFault::Failed);
        }
        match self.bytes.extend_from_slice(bytes) {
            Ok(()) => Ok(()),
            Err(_) => Err(SinkFault::Memory),
        }
    }
}
