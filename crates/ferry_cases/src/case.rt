//! What a run is given, and the run.
ghost use Rattle.std.specs.Prelude.{◌≡◌, []};

use crate::devices::{Device, copy_files};
use ferry_disk::{MemoryDepot, MemoryEntropy, MemoryShelf, MemorySink, Name};
use ferry_top::{Secrets, run};
use std::alloc::{AllocError, Global};

/// What the runs of a case are given.
#[derive(Drop)]
pub struct Case {
    pub secrets: Secrets,
    pub source: Vec<(Name, Vec<u8>)>,
    pub target: Vec<(Name, Vec<u8>)>,
}

/// The number of a run's status, what it printed, and the calls of its devices.
#[derive(Drop)]
pub struct Ran {
    pub status: u8,
    pub printed: Vec<u8>,
    pub calls: [u64; 4],
}

/// The numbers of the calls of a device that fail.
pub fn numbers(
    alloc: Global,
    failing: &[(Device, u64)],
    device: Device,
) -> Result<Vec<u64>, AllocError> {
    let mut numbers = Vec::new(alloc);
    for (other, number) in failing {
        if *other == device {
            numbers.push(*number)?;
        }
    }
    Ok(numbers)
}

/// Runs the words over the source of a case and a target, whose own list says which of its calls fail.
pub fn run_over(
    alloc: Global,
    case: &Case,
    words: &[String],
    failing: &[(Device, u64)],
    target: &mut MemoryDepot,
) -> Result<Ran, AllocError>
    requires begun { target.old.history.acts ≡ [] }
{
    let numbers = numbers(alloc, failing, Device::Source)?;
    let mut source = MemoryShelf::new(alloc, copy_files(alloc, &case.source)?, numbers)?;
    let mut ran = run_from(alloc, &case.secrets, words, failing, &mut source, target)?;
    ran.calls[0] = source.count();
    Ok(ran)
}

/// The same over a source.
fn run_from(
    alloc: Global,
    secrets: &Secrets,
    words: &[String],
    failing: &[(Device, u64)],
    source: &mut MemoryShelf,
    target: &mut MemoryDepot,
) -> Result<Ran, AllocError>
    requires begun { target.old.history.acts ≡ [] }
{
    let numbers = numbers(alloc, failing, Device::Entropy)?;
    let mut entropy = MemoryEntropy::new(alloc, numbers)?;
    let mut ran = run_with(alloc, secrets, words, failing, source, target, &mut entropy)?;
    ran.calls[2] = entropy.count();
    Ok(ran)
}

/// The same with a source of random bytes.
fn run_with(
    alloc: Global,
    secrets: &Secrets,
    words: &[String],
    failing: &[(Device, u64)],
    source: &mut MemoryShelf,
    target: &mut MemoryDepot,
    entropy: &mut MemoryEntropy,
) -> Result<Ran, AllocError>
    requires begun { target.old.history.acts ≡ [] }
{
    let mut out = MemorySink::new(alloc, numbers(alloc, failing, Device::Output)?)?;
    let status = run(alloc, words, secrets, source, target, entropy, &mut out).number();
    let printed = Vec::from_slice(alloc, out.bytes())?;
    let calls = [0, target.count(), 0, out.count()];
    Ok(Ran {
        status,
        printed,
        calls,
    })
}
