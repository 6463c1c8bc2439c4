//! A source of random bytes.
ghost use Rattle.std.specs.Prelude.{◌≡◌, ◌+◌, ◌≤◌, ◌<◌, ◌^◌, ◌++◌, ◌↔◌, ◌⊎◌, ℕ, List, Option, Some, length, IsTrue, IfOk, OnOk, OnErr, IsErrOf, option_map};
ghost use Rattle.ferry_disk.specs.Calls.{fails};
ghost use Rattle.ferry_disk.specs.Device.{counted, HasCause};
ghost use Rattle.ferry_disk.specs.Stream.{stream, entropy_failed};

use crate::calls::Calls;
use std::alloc::{AllocError, Global};
use thiserror::Error;

/// Why a source of random bytes gave none.
#[derive(Clone, Copy, Debug, PartialEq, Eq, Error)]
pub enum EntropyFault {
    /// The source failed.
    #[error("the source of random bytes failed")]
    Failed,
}

/// A source of random bytes, which may fail.
///
/// `drawn` is what a source in memory tells of the bytes that it handed out; that of the system tells nothing. `faults` counts the
/// calls that failed.
pub trait Entropy {
    ghost drawn: { Self → Option (List ℕ) };

    ghost faults: { Self → ℕ };

    /// Fills `into` with random bytes. After an error `into` has anything.
    fn fill(&mut self, into: &mut [u8]) -> Result<(), EntropyFault>
        ensures drawn { OnOk result (drawn self.new ≡ option_map (λ d. d ++ into.new) (drawn self.old)) }
        ensures err { OnErr result (drawn self.new ≡ drawn self.old) }
        ensures cause { HasCause entropy_failed (faults self.old) (faults self.new) result };
}

/// A source in memory, whose bytes count up: the byte of place n, from 0, is n mod 256. Its calls are numbered from 1; those whose
/// numbers are listed fail, and those that would go beyond place 2^64, no other.
#[derive(Drop)]
pub struct MemoryEntropy {
    calls: Calls,
    place: u64,
}

impl MemoryEntropy {
    ghost use Rattle.ferry_disk.specs.Entropy.{failing_of, calls_of, faults_of, place_of};

    /// A source that has handed out nothing.
    pub fn new(alloc: Global, failing: Vec<u64>) -> Result<MemoryEntropy, AllocError>
        ensures failing { IfOk result (λ entropy. failing_of entropy ≡ failing.items) }
        ensures unused { IfOk result (λ entropy. (calls_of entropy ≡ 0) × (faults_of entropy ≡ 0) × (place_of entropy ≡ 0)) }
    {
        let _ = alloc;
        Ok(MemoryEntropy {
            calls: Calls::new(failing),
            place: 0,
        })
    }

    /// How many calls it has had.
    pub fn count(&self) -> u64
        ensures { result ≡ calls_of self.now }
    {
        self.calls.calls
    }
}

/// Fills a slice with the bytes of the places from `at` on.
fn fill_from(at: u64, into: &mut [u8])
    requires { at + length into.old < 2 ^ 64 }
    ensures { into.new ≡ stream at (length into.old) }
{
    for (k, byte) in into.iter_mut().enumerate() {
        *byte = ((at + k as u64) % 256) as u8;
    }
}

impl Entropy for MemoryEntropy {
    ghost use Rattle.ferry_disk.specs.Entropy.{failing_of, calls_of, faults_of, place_of};

    ghost drawn = { λ e. Some (stream 0 e.place) };

    ghost faults = { λ e. e.calls.faults };

    fn fill(&mut self, into: &mut [u8]) -> Result<(), EntropyFault>
        ensures bytes { OnOk result (into.new ≡ stream (place_of self.old) (length into.old)) }
        ensures place { OnOk result (place_of self.new ≡ place_of self.old + length into.old) }
        ensures drawn { OnOk result (stream 0 (place_of self.new) ≡ stream 0 (place_of self.old) ++ into.new) }
        ensures err { OnErr result (place_of self.new ≡ place_of self.old) }
        ensures failing { failing_of self.new ≡ failing_of self.old }
        ensures calls { calls_of self.new ≡ counted (calls_of self.old) }
        ensures cause { HasCause entropy_failed (faults_of self.old) (faults_of self.new) result }
        ensures failed { IsErrOf result EntropyFault.Failed
            ↔ (IsTrue (fails (failing_of self.old) (calls_of self.old)) ⊎ (2 ^ 64 ≤ place_of self.old + length into.old)) }
    {
        let Some(end) = self.place.checked_add(into.len() as u64) else {
            self.calls.fail_one();
            return Err(EntropyFault::Failed);
        };
        if self.calls.next_fails() {
            return Err(EntropyFault::Failed);
        }
        fill_from(self.place, into);
        self.place = end;
        Ok(())
    }
}
