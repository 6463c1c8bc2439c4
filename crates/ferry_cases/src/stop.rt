//! What a stop of the machine leaves of a target.

use ferry_disk::{Choice, Kind, MemoryDepot};
use std::alloc::{AllocError, Global};

/// How much is left of what a segment has that isn't stable.
#[derive(Clone, Copy)]
pub enum Share {
    Nothing,
    Half,
    All,
}

/// A stop behind the first acts of a run, the last of which isn't done where it is cut; it took effect then all the same.
#[derive(Clone, Copy)]
pub struct Stop {
    pub acts: usize,
    pub cut: bool,
    pub share: Share,
}

/// What a stop leaves of a target, none where there is no such stop.
pub fn left_of(
    alloc: Global,
    target: MemoryDepot,
    stop: Stop,
) -> Result<Option<MemoryDepot>, AllocError> {
    let choice = choice_of(alloc, &target, stop)?;
    left_by(target, choice)
}

/// What a choice leaves of a target, where it is allowed.
fn left_by(target: MemoryDepot, choice: Choice) -> Result<Option<MemoryDepot>, AllocError> {
    if target.allows(&choice) {
        let left = target.crash(choice)?;
        Ok(Some(left))
    } else {
        Ok(None)
    }
}

/// The choice of a stop. Of each segment below 64 its share is left.
fn choice_of(alloc: Global, target: &MemoryDepot, stop: Stop) -> Result<Choice, AllocError> {
    let mut tails = Vec::new(alloc);
    for segment in 0..64u64 {
        let mut bytes = unstable(alloc, target, stop.acts, segment)?;
        let len = bytes.len();
        bytes.truncate(match stop.share {
            Share::Nothing => 0,
            Share::Half => len / 2,
            Share::All => len,
        });
        if !bytes.is_empty() {
            tails.push((segment, Some(bytes)))?;
        }
    }
    Ok(Choice {
        acts: stop.acts as u64,
        cut: stop.cut,
        took: stop.cut,
        tails,
    })
}

/// The bytes that the first acts of a run appended to a segment and that aren't stable.
fn unstable(
    alloc: Global,
    target: &MemoryDepot,
    acts: usize,
    segment: u64,
) -> Result<Vec<u8>, AllocError> {
    let mut bytes = Vec::new(alloc);
    for index in 0..acts {
        if let Some(act) = target.act(index) {
            match &act.kind {
                Kind::Append(number, more) if *number == segment => bytes.extend_from_slice(more)?,
                Kind::Sync(number) if *number == segment => bytes.clear(),
                _ => {}
            }
        }
    }
    Ok(bytes)
}
