//! The files of a target in memory, and the words of a run.
ghost use Rattle.std.specs.Prelude.{◌≡◌, [], IfOk};

use anyhow::Result;
use ferry_disk::{Kind, MemoryDepot, Name, Shelf, read_whole};
use std::alloc::{AllocError, Global};

/// The devices of a run, in the order in which their calls are printed.
#[derive(Clone, Copy, PartialEq, Eq)]
pub enum Device {
    Source,
    Target,
    Entropy,
    Output,
}

/// The same files in memory of their own.
pub fn copy_files(
    alloc: Global,
    files: &[(Name, Vec<u8>)],
) -> Result<Vec<(Name, Vec<u8>)>, AllocError> {
    let mut copies = Vec::new(alloc);
    for (name, bytes) in files {
        copies.push((*name, Vec::from_slice(alloc, bytes)?))?;
    }
    Ok(copies)
}

/// A target of these files, of whose calls those of these numbers fail.
pub fn target_of(
    alloc: Global,
    files: &[(Name, Vec<u8>)],
    failing: Vec<u64>,
) -> Result<MemoryDepot, AllocError>
    ensures begun { IfOk result (λ target. target.history.acts ≡ []) }
{
    MemoryDepot::new(alloc, copy_files(alloc, files)?, failing)
}

/// The files of a target.
pub fn files_of(alloc: Global, target: &mut MemoryDepot) -> Result<Vec<(Name, Vec<u8>)>> {
    let mut files = Vec::new(alloc);
    for name in [Name::Config, Name::Readme, Name::Nonce] {
        push_file(alloc, target, name, &mut files)?;
    }
    for number in target.segments(alloc)? {
        push_file(alloc, target, Name::Segment(number), &mut files)?;
    }
    Ok(files)
}

/// Puts a file of a target behind the files, where it is there.
fn push_file(
    alloc: Global,
    target: &mut MemoryDepot,
    name: Name,
    files: &mut Vec<(Name, Vec<u8>)>,
) -> Result<()> {
    if target.size(name)?.is_some() {
        let mut bytes = Vec::new(alloc);
        read_whole(target, name, &mut bytes)?;
        files.push((name, bytes))?;
    }
    Ok(())
}

/// How many acts a run made of its target, and how many of them appended to a segment.
pub fn acts_of(target: &MemoryDepot) -> (u64, u64) {
    let (mut acts, mut appends) = (0u64, 0u64);
    for index in 0..4096usize {
        if let Some(act) = target.act(index) {
            acts = acts.wrapping_add(1);
            if matches!(act.kind, Kind::Append(_, _)) {
                appends = appends.wrapping_add(1);
            }
        }
    }
    (acts, appends)
}

/// The lines that a run told, but for one whose call failed.
pub fn told(alloc: Global, target: &MemoryDepot) -> Result<Vec<u8>, AllocError> {
    let mut lines = Vec::new(alloc);
    for index in 0..4096usize {
        if let Some(act) = target.act(index) {
            match &act.kind {
                Kind::Tell(line) if act.done => lines.extend_from_slice(line)?,
                _ => {}
            }
        }
    }
    Ok(lines)
}
