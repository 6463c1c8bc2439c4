//! Counts of faults, and which errors of the system are want of memory.
ghost use Rattle.std.specs.Prelude.{◌≡◌, ◌↔◌};
ghost use Rattle.std.specs.IoError.{error_kind};
ghost use Rattle.ferry_disk.specs.Device.{HasCause, sink_failed, store_failed};
ghost use Rattle.ferry_disk.specs.Stream.{entropy_failed};
ghost use Rattle.ferry_layout.specs.Count.{count_after};

use ferry_disk::{EntropyFault, SinkFault, StoreFault};
use std::io::{Error, ErrorKind};

/// Counts an answer of a shelf that is `Failed`, and no other.
pub fn count_store<T>(faults: &mut u64, outcome: Result<T, StoreFault>) -> Result<T, StoreFault>
    ensures outcome { result ≡ outcome }
    ensures count { faults.new ≡ count_after store_failed faults.old result }
    ensures cause { HasCause store_failed faults.old faults.new result }
{
    if let Err(StoreFault::Failed) = &outcome {
        *faults = faults.saturating_add(1);
    }
    outcome
}

/// Counts an answer of a sink that is `Failed`, and no other.
pub fn count_sink(faults: &mut u64, outcome: Result<(), SinkFault>) -> Result<(), SinkFault>
    ensures outcome { result ≡ outcome }
    ensures count { faults.new ≡ count_after sink_failed faults.old result }
    ensures cause { HasCause sink_failed faults.old faults.new result }
{
    if let Err(SinkFault::Failed) = &outcome {
        *faults = faults.saturating_add(1);
    }
    outcome
}

/// Counts an answer of a source of random bytes that is `Failed`, its one fault.
pub fn count_entropy(
    faults: &mut u64,
    outcome: Result<(), EntropyFault>,
) -> Result<(), EntropyFault>
    ensures outcome { result ≡ outcome }
    ensures count { faults.new ≡ count_after entropy_failed faults.old result }
    ensures cause { HasCause entropy_failed faults.old faults.new result }
{
    if outcome.is_err() {
        *faults = faults.saturating_add(1);
    }
    outcome
}

/// What an error of the system is to a shelf that reads: each but want of memory is a fault.
pub fn store_fault(error: &Error) -> StoreFault
    ensures { (result ≡ StoreFault.Memory) ↔ (error_kind error.now ≡ ErrorKind.OutOfMemory) }
{
    if error.kind() == ErrorKind::OutOfMemory {
        StoreFault::Memory
    } else {
        StoreFault::Failed
    }
}

/// The same to a sink.
pub fn sink_fault(error: &Error) -> SinkFault
    ensures { (result ≡ SinkFault.Memory) ↔ (error_kind error.now ≡ ErrorKind.OutOfMemory) }
{
    if error.kind() == ErrorKind::OutOfMemory {
        SinkFault::Memory
    } else {
        SinkFault::Failed
    }
}
