//! What a stop of the machine leaves of the files, by a choice: each file in memory of its own.
ghost use Rattle.std.specs.Prelude.{◌≡◌, ◌≤◌, ◌++◌, ℕ, List, Option, length, map, IfOk, OnOk, option_map};
ghost use Rattle.std.specs.FinMap.{get};
ghost use Rattle.ferry_disk.specs.Act.{applied};
ghost use Rattle.ferry_disk.specs.Acts.{step_of, acts_of};
ghost use Rattle.ferry_disk.specs.Choice.{moment_of, tail_of, plain_left, segment_left, Chooses};
ghost use Rattle.ferry_disk.specs.Files.{segment_numbers};
ghost use Rattle.ferry_disk.specs.Image.{same_name, plain_of, plain_stepped, fate_of};
ghost use Rattle.ferry_disk.specs.Memory.{files_of};
ghost use Rattle.ferry_disk.specs.Moments.{last_undone};
ghost use Rattle.ferry_disk.specs.Stop.{front_of, fate_by, with_left};

use crate::act::{Act, Kind};
use crate::choice::Choice;
use crate::files::{MemoryFiles, copy_of};
use crate::name::Name;
use crate::sizes::{after_acts, any_settle, size_of, tail_listed};
use std::alloc::{AllocError, Global};

/// The acts of a choice's moment, of those of a run.
pub(crate) fn moment_acts(mut acts: Vec<Act>, choice: &Choice) -> Vec<Act>
    ensures { acts_of result.items ≡ moment_of choice.now (acts_of acts.items) }
{
    acts.truncate(choice.acts as usize);
    if choice.cut {
        leave_last_undone(&mut acts);
    }
    acts
}

/// The last of these acts counts as not done.
fn leave_last_undone(acts: &mut Vec<Act>)
    ensures { acts_of acts.new.items ≡ last_undone (acts_of acts.old.items) }
{
    if let Some(last) = acts.last_mut() {
        last.done = false;
    }
}

/// The files that a choice describes, of the acts of its moment.
pub(crate) fn files_left(
    alloc: Global,
    start: &MemoryFiles,
    moment: &[Act],
    choice: &Choice,
) -> Result<MemoryFiles, AllocError>
    ensures { IfOk result (λ image. Chooses choice.now (files_of start.now) (acts_of moment.now) (files_of image)) }
{
    if !any_settle(moment) {
        return start.copy(alloc);
    }
    let read = after_moment(alloc, start, moment)?;
    let config = plain_file_left(alloc, &read.config, moment, Name::Config, choice.took)?;
    let nonce = plain_file_left(alloc, &read.nonce, moment, Name::Nonce, choice.took)?;
    let readme = plain_file_left(alloc, &read.readme, moment, Name::Readme, choice.took)?;
    let MemoryFiles {
        config: _,
        nonce: _,
        readme: _,
        segments,
    } = segments_left(alloc, start, &read, moment, choice)?;
    Ok(MemoryFiles {
        config,
        nonce,
        readme,
        segments,
    })
}

/// The files as a read gives them after these acts.
fn after_moment(
    alloc: Global,
    start: &MemoryFiles,
    moment: &[Act],
) -> Result<MemoryFiles, AllocError>
    ensures { IfOk result (λ files. files_of files ≡ applied (files_of start.now) (acts_of moment.now)) }
{
    let mut files = start.copy(alloc)?;
    for i in 0..moment.len() {
        let act = &moment[i];
        if act.done {
            files.carry_out(alloc, &act.kind)?;
        }
    }
    Ok(files)
}

/// What is left of `config`, `nonce` or `README`, of what a read gives of it.
fn plain_file_left(
    alloc: Global,
    read: &Option<Vec<u8>>,
    moment: &[Act],
    name: Name,
    took: bool,
) -> Result<Option<Vec<u8>>, AllocError>
    ensures { (file : Option (List ℕ)) → option_map (λ v. v.items) read.now ≡ (plain_of file (acts_of moment.now) name).read
        → IfOk result (λ left. option_map (λ v. v.items) left ≡ plain_left took (plain_of file (acts_of moment.now) name)) }
{
    if took {
        if let Some(bytes) = perhaps_put(moment, name) {
            let copy = Vec::from_slice(alloc, bytes)?;
            return Ok(Some(copy));
        }
    }
    copy_of(alloc, read)
}

/// What a Replace that isn't done would have put.
fn perhaps_put(moment: &[Act], name: Name) -> Option<&Vec<u8>>
    ensures { (file : Option (List ℕ)) → option_map (λ v. v.now.items) result ≡ (plain_of file (acts_of moment.now) name).perhaps }
{
    let mut perhaps: Option<&Vec<u8>> = None;
    for i in 0..moment.len() {
        let act = &moment[i];
        perhaps = perhaps_after(perhaps, act, name);
    }
    perhaps
}

/// What a Replace that isn't done would have put, after one more act.
fn perhaps_after<'a>(perhaps: Option<&'a Vec<u8>>, act: &'a Act, name: Name) -> Option<&'a Vec<u8>>
    ensures { (file : Option (List ℕ)) → option_map (λ v. v.now.items) result
        ≡ (plain_stepped name (step_of act.now.kind) act.now.done (record { read = file; perhaps = option_map (λ v. v.now.items) perhaps.entry })).perhaps }
{
    match &act.kind {
        Kind::Replace(other, bytes) => {
            if !is_same_name(name, *other) {
                perhaps
            } else if act.done {
                None
            } else {
                Some(bytes)
            }
        }
        Kind::Settle => { if act.done { None } else { perhaps } }
        Kind::Append(_, _) | Kind::Sync(_) | Kind::Remove(_) | Kind::Tell(_) => perhaps,
    }
}

/// Whether two names are of one file that is no segment.
fn is_same_name(name: Name, other: Name) -> bool
    ensures { result ≡ same_name name other }
{
    matches!(
        (name, other),
        (Name::Config, Name::Config) | (Name::Nonce, Name::Nonce) | (Name::Readme, Name::Readme)
    )
}

/// What is left of each segment, of what a read gives of them.
fn segments_left(
    alloc: Global,
    start: &MemoryFiles,
    read: &MemoryFiles,
    moment: &[Act],
    choice: &Choice,
) -> Result<MemoryFiles, AllocError>
    requires { files_of read.now ≡ applied (files_of start.now) (acts_of moment.now) }
    ensures { IfOk result (λ left. (segment : ℕ) → get (files_of left).segments segment
        ≡ segment_left choice.now.took (fate_of (files_of start.now) (acts_of moment.now) segment) (tail_of choice.now segment)) }
{
    let numbers = numbers_left(alloc, read, &choice.tails)?;
    let mut left = MemoryFiles::new(alloc);
    for i in 0..numbers.len() {
        let number = numbers[i];
        let one = one_left(alloc, start, read, moment, choice, number)?;
        put_left(&mut left, number, one)?;
    }
    Ok(left)
}

/// Puts what is left of a segment, where something is.
fn put_left(files: &mut MemoryFiles, segment: u64, left: Option<Vec<u8>>) -> Result<(), AllocError>
    ensures { OnOk result (files_of files.new ≡ with_left (files_of files.old) segment (option_map (λ v. v.items) left)) }
{
    match left {
        Some(bytes) => files.put(Name::Segment(segment), bytes),
        None => Ok(()),
    }
}

/// The numbers of the segments of which something may be left.
fn numbers_left(
    alloc: Global,
    read: &MemoryFiles,
    tails: &[(u64, Option<Vec<u8>>)],
) -> Result<Vec<u64>, AllocError>
    ensures { IfOk result (λ numbers. numbers.items ≡ segment_numbers (files_of read.now) ++ map (λ t. t.0) tails.now) }
{
    let mut numbers = read.numbers(alloc)?;
    for i in 0..tails.len() {
        numbers.push(tails[i].0)?;
    }
    Ok(numbers)
}

/// What is left of one segment.
fn one_left(
    alloc: Global,
    start: &MemoryFiles,
    read: &MemoryFiles,
    moment: &[Act],
    choice: &Choice,
    segment: u64,
) -> Result<Option<Vec<u8>>, AllocError>
    requires { files_of read.now ≡ applied (files_of start.now) (acts_of moment.now) }
    ensures { IfOk result (λ left. option_map (λ v. v.items) left
        ≡ segment_left choice.now.took (fate_of (files_of start.now) (acts_of moment.now) segment) (tail_of choice.now segment)) }
{
    let sizes = after_acts(size_of(start, segment), moment, segment);
    let stable = front_bytes(alloc, read.get(Name::Segment(segment)), sizes.stable)?;
    let listed = tail_listed(&choice.tails, segment);
    with_tail(alloc, stable, choice.took, sizes.lost, listed)
}

/// So many bytes of a file, from its front.
fn front_bytes(
    alloc: Global,
    file: Option<&Vec<u8>>,
    size: Option<u128>,
) -> Result<Option<Vec<u8>>, AllocError>
    ensures { IfOk result (λ front. option_map (λ v. v.items) front ≡ front_of (option_map (λ v. v.now.items) file.entry) size) }
{
    let Some(size) = size else {
        return Ok(None);
    };
    let Some(bytes) = file else {
        return Ok(Some(Vec::new(alloc)));
    };
    let count = size.min(bytes.len() as u128) as usize;
    let front = Vec::from_slice(alloc, &bytes[..count])?;
    Ok(Some(front))
}

/// What is left of a segment, of its stable bytes, whether a Remove may have happened, and what is listed of it.
fn with_tail(
    alloc: Global,
    stable: Option<Vec<u8>>,
    took: bool,
    lost: bool,
    listed: Option<&Option<Vec<u8>>>,
) -> Result<Option<Vec<u8>>, AllocError>
    ensures { IfOk result (λ left. option_map (λ v. v.items) left
        ≡ segment_left took (fate_by (option_map (λ v. v.items) stable) lost) (option_map (λ t. option_map (λ v. v.items) t.now) listed.entry)) }
{
    let Some(listed) = listed else {
        if took && lost {
            return Ok(None);
        }
        return Ok(stable);
    };
    let Some(tail) = listed else {
        return Ok(None);
    };
    let mut bytes = stable.unwrap_or(Vec::new(alloc));
    bytes.extend_from_slice(tail)?;
    Ok(Some(bytes))
}
