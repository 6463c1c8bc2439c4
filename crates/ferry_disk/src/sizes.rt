//! Whether a choice describes an image, by the sizes of what a stop may leave of each listed segment, so that nothing is copied.
ghost use Rattle.std.specs.Prelude.{List, ◌≡◌, ◌+◌, ◌-◌, ◌^◌, ◌≤◌, ◌<◌, ◌↔◌, Some, length, unwrap_or, option_map, nat_eq, ◌&&◌, not, IsTrue};
ghost use Rattle.std.specs.FinMap.{get};
ghost use Rattle.std.specs.Map.{lookup};
ghost use Rattle.ferry_disk.specs.Act.{Act as SpecAct};
ghost use Rattle.ferry_disk.specs.Acts.{step_of, acts_of};
ghost use Rattle.ferry_disk.specs.Choice.{Describes};
ghost use Rattle.ferry_disk.specs.Files.{Files};
ghost use Rattle.ferry_disk.specs.Image.{fate_of, settled, is_settle};
ghost use Rattle.ferry_disk.specs.Memory.{files_of};
ghost use Rattle.ferry_disk.specs.Sizes.{sizes_of, size_rest, size_appended, size_synced, size_removed, size_settled, size_stepped};
ghost use Rattle.ferry_disk.specs.Sizes.{sizes_after, cut_acts, IsShort, SizesAllow, AllowsTails, IsWithin};

use crate::act::{Act, Kind};
use crate::choice::Choice;
use crate::files::MemoryFiles;
use crate::name::Name;

/// The sizes of what a read gives of a segment, of what is stable and of all that was appended, where there is such; and whether a Remove
/// that isn't done may have happened.
#[derive(Clone, Copy)]
pub(crate) struct Sizes {
    pub read: Option<u128>,
    pub stable: Option<u128>,
    pub all: Option<u128>,
    pub lost: bool,
}

/// Whether a choice describes an image of a moment of these acts.
pub(crate) fn is_described(start: &MemoryFiles, acts: &[Act], choice: &Choice) -> bool
    ensures { (past : List SpecAct) → IsTrue result ↔ ((image : Files)
        × Describes choice.now (record { start = files_of start.now; past = past; acts = acts_of acts.now }) image) }
{
    if choice.acts > acts.len() as u64 {
        return false;
    }
    let count = choice.acts as usize;
    if !is_settled(&acts[..count], choice.cut) {
        return true;
    }
    allows_tails(start, &acts[..count], choice.cut, &choice.tails)
}

/// The sizes of a segment of which nothing is in doubt.
fn at_rest(size: Option<u128>) -> Sizes
    ensures { result ≡ size_rest size }
{
    Sizes {
        read: size,
        stable: size,
        all: size,
        lost: false,
    }
}

/// After an Append of so many bytes.
fn appended(sizes: Sizes, count: usize, done: bool) -> Sizes
    requires { IsWithin (2 ^ 128 - 2 ^ 64) sizes }
    ensures { result ≡ size_appended count done sizes }
{
    let read = if done {
        Some(sizes.read.unwrap_or(0) + count as u128)
    } else {
        sizes.read
    };
    Sizes {
        read,
        stable: sizes.stable,
        all: Some(sizes.all.unwrap_or(0) + count as u128),
        lost: sizes.lost,
    }
}

/// After a Sync.
fn synced(sizes: Sizes, done: bool) -> Sizes
    ensures { result ≡ size_synced done sizes }
{
    let stable = if done { sizes.read } else { sizes.stable };
    Sizes {
        read: sizes.read,
        stable,
        all: sizes.all,
        lost: sizes.lost,
    }
}

/// After a Remove.
fn removed(sizes: Sizes, done: bool) -> Sizes
    ensures { result ≡ size_removed done sizes }
{
    if done {
        return at_rest(None);
    }
    Sizes {
        read: sizes.read,
        stable: sizes.stable,
        all: sizes.all,
        lost: true,
    }
}

/// After a Settle.
fn settled(sizes: Sizes, done: bool) -> Sizes
    ensures { result ≡ size_settled done sizes }
{
    if done { at_rest(sizes.read) } else { sizes }
}

/// After one more act, done or not.
fn stepped(sizes: Sizes, kind: &Kind, done: bool, segment: u64) -> Sizes
    requires { IsWithin (2 ^ 128 - 2 ^ 64) sizes }
    ensures sizes { result ≡ size_stepped segment (step_of kind.now) done sizes }
    ensures short { IsShort (step_of kind.now) }
{
    match kind {
        Kind::Append(number, bytes) => {
            let count = bytes.len();
            if segment == *number {
                appended(sizes, count, done)
            } else {
                sizes
            }
        }
        Kind::Sync(number) => {
            if segment == *number {
                synced(sizes, done)
            } else {
                sizes
            }
        }
        Kind::Remove(number) => {
            if segment == *number {
                removed(sizes, done)
            } else {
                sizes
            }
        }
        Kind::Settle => settled(sizes, done),
        Kind::Replace(_, _) | Kind::Tell(_) => sizes,
    }
}

/// After acts, of the size at their start.
pub(crate) fn after_acts(size: Option<u128>, acts: &[Act], segment: u64) -> Sizes
    requires { unwrap_or size 0 < 2 ^ 64 }
    ensures sizes { result ≡ sizes_after size (acts_of acts.now) segment }
    ensures within { IsWithin (2 ^ 128 - 2 ^ 64) result }
{
    let mut sizes = at_rest(size);
    for i in 0..acts.len() {
        let act = &acts[i];
        sizes = stepped(sizes, &act.kind, act.done, segment);
    }
    sizes
}

/// A segment's size.
pub(crate) fn size_of(files: &MemoryFiles, segment: u64) -> Option<u128>
    ensures size { result ≡ option_map length (get (files_of files.now).segments segment) }
    ensures fits { unwrap_or result 0 < 2 ^ 64 }
{
    match files.get(Name::Segment(segment)) {
        Some(bytes) => Some(bytes.len() as u128),
        None => None,
    }
}

/// At the moment after these acts, the last of which counts as not done with `cut`.
fn at_moment(start: &MemoryFiles, acts: &[Act], cut: bool, segment: u64) -> Sizes
    ensures { result ≡ sizes_of (fate_of (files_of start.now) (cut_acts cut (acts_of acts.now)) segment) }
{
    let size = size_of(start, segment);
    if acts.is_empty() {
        return at_rest(size);
    }
    let n = acts.len() - 1;
    let last = &acts[n];
    let before = after_acts(size, &acts[..n], segment);
    let done = is_done_still(last.done, cut);
    stepped(before, &last.kind, done, segment)
}

/// Whether an act counts as done.
fn is_done_still(done: bool, cut: bool) -> bool
    ensures { result ≡ (done && not cut) }
{
    done && !cut
}

/// Whether what is listed of a segment may be left.
fn allows_tail(sizes: Sizes, tail: &Option<Vec<u8>>) -> bool
    ensures { IsTrue result ↔ SizesAllow sizes (option_map (λ v. v.items) tail.now) }
{
    match tail {
        None => sizes.stable.is_none() || sizes.lost,
        Some(tail) => {
            let Some(all) = sizes.all else {
                return false;
            };
            let stable = sizes.stable.unwrap_or(0);
            stable <= all && tail.len() as u128 <= all - stable
        }
    }
}

/// What is listed first of a segment.
pub(crate) fn tail_listed(
    tails: &[(u64, Option<Vec<u8>>)],
    segment: u64,
) -> Option<&Option<Vec<u8>>>
    ensures { option_map (λ t. t.now) result ≡ lookup (nat_eq segment) tails.now }
{
    for i in 0..tails.len() {
        let entry = &tails[i];
        if segment == entry.0 {
            return Some(&entry.1);
        }
    }
    None
}

/// Whether all that is listed may be left.
fn allows_tails(
    start: &MemoryFiles,
    acts: &[Act],
    cut: bool,
    tails: &[(u64, Option<Vec<u8>>)],
) -> bool
    ensures { IsTrue result ↔ AllowsTails (files_of start.now) (cut_acts cut (acts_of acts.now)) tails.now }
{
    for i in 0..tails.len() {
        let segment = tails[i].0;
        if let Some(tail) = tail_listed(tails, segment) {
            let sizes = at_moment(start, acts, cut, segment);
            if !allows_tail(sizes, tail) {
                return false;
            }
        }
    }
    true
}

/// Whether a Settle of these acts is done, the last of which counts as not done with `cut`.
fn is_settled(acts: &[Act], cut: bool) -> bool
    ensures { result ≡ settled (cut_acts cut (acts_of acts.now)) }
{
    if !cut || acts.is_empty() {
        return any_settle(acts);
    }
    let n = acts.len() - 1;
    any_settle(&acts[..n])
}

/// Whether a Settle of these acts is done.
pub(crate) fn any_settle(acts: &[Act]) -> bool
    ensures { result ≡ settled (acts_of acts.now) }
{
    for i in 0..acts.len() {
        let act = &acts[i];
        if is_done_settle(act) {
            return true;
        }
    }
    false
}

/// Whether an act is a Settle that is done.
fn is_done_settle(act: &Act) -> bool
    ensures { result ≡ (act.now.done && is_settle (step_of act.now.kind)) }
{
    act.done && matches!(act.kind, Kind::Settle)
}
