//! Whether the file `nonce` of a repository lies below the numbers that its blobs take.
//! Source: BorgBackup 1.2, Internals, "Data structures and file formats", Encryption.

use crate::fault::StartFault;
use crate::places::is_unnamed;
use crate::side::{Cause, Side};
use crate::withheld::Withheld;
use ferry_blocks::blocks_end;
use ferry_disk::StoreFault;
use ferry_nonce::{Counter, NonceFault};
use ferry_real::{FolderDepot, Progress, Terminals};
use std::alloc::{AllocGlobal, Global};
use std::rt::Runtime;

/// The streams of a look, which shows no line of progress.
pub const UNSEEN: Terminals = Terminals {
    output: false,
    error: false,
};

/// Withholds a command that writes objects, where the target's file `nonce` lies below the number behind the last block of an object that is there.
///
/// A file without a number is left to the command, and so is one that isn't there where `is_committed` holds: else it counts as 0. Where something
/// can't be read the target's device has failed.
pub fn withhold_old_nonce<R: Runtime + AllocGlobal>(
    rt: &R,
    place: &str,
    is_committed: bool,
) -> Result<(), StartFault> {
    if is_unnamed(place) {
        return Ok(());
    }
    let own = rt.clone()?;
    let progress = Progress::new(rt.clone()?, rt.alloc(), UNSEEN)?;
    let mut target = FolderDepot::new(own, rt.alloc(), place, progress)?;
    compare(rt.alloc(), &mut target, is_committed)
}

/// Compares the number of the file with that behind the last block.
fn compare<R: Runtime>(
    alloc: Global,
    target: &mut FolderDepot<R>,
    is_committed: bool,
) -> Result<(), StartFault> {
    let Some(has) = number_of(alloc, target, is_committed)? else {
        return Ok(());
    };
    match blocks_end(alloc, target) {
        Ok(least) if least > u128::from(has) => {
            Err(StartFault::Withheld(Withheld::Nonce { has, least }))
        }
        Ok(_) => Ok(()),
        Err(StoreFault::Memory) => Err(StartFault::Memory),
        Err(StoreFault::Failed) => Err(failed(alloc, target)),
    }
}

/// The number of the file, `None` where it has none.
fn number_of<R: Runtime>(
    alloc: Global,
    target: &mut FolderDepot<R>,
    is_committed: bool,
) -> Result<Option<u64>, StartFault> {
    match Counter::open(target, is_committed) {
        Ok(counter) => Ok(Some(counter.free())),
        Err(NonceFault::Memory) => Err(StartFault::Memory),
        Err(NonceFault::Device) => Err(failed(alloc, target)),
        Err(_) => Ok(None),
    }
}

/// The fault of a target that couldn't be looked at.
fn failed<R: Runtime>(alloc: Global, target: &FolderDepot<R>) -> StartFault {
    StartFault::of_look(alloc, Side::Target, Cause::of(target.failure()))
}
