//! A depot in memory: each act of a run, the next run, and what a stop leaves.

use crate::devices::{FAILED, SIZED, depot, read};
use ferry_disk::{Act, Choice, Depot, Kind, MemoryDepot, Name, Shelf, StoreFault};
use std::alloc::{AllocError, Global};

/// A call that writes. A Replace is that of the file `nonce`.
enum Step {
    Append(u64, &'static [u8]),
    Sync(u64),
    Remove(u64),
    Replace(&'static [u8]),
    Settle,
    Tell(&'static [u8]),
}

/// Makes one call.
fn make(depot: &mut MemoryDepot, step: &Step) -> Result<(), StoreFault> {
    match step {
        Step::Append(segment, bytes) => depot.append(*segment, bytes),
        Step::Sync(segment) => depot.sync(*segment),
        Step::Remove(segment) => depot.remove(*segment),
        Step::Replace(bytes) => depot.replace(Name::Nonce, bytes),
        Step::Settle => depot.settle(),
        Step::Tell(line) => depot.tell(line),
    }
}

/// Makes these calls, and answers how many failed.
fn run(depot: &mut MemoryDepot, steps: &[Step]) -> u64 {
    let mut failed = 0u64;
    for step in steps {
        if make(depot, step) == Err(FAILED) {
            failed = failed.saturating_add(1);
        }
    }
    failed
}

/// A run of each kind of act, of which the fifth call fails.
const STEPS: [Step; 8] = [
    Step::Settle,
    Step::Append(3, b"gh"),
    Step::Append(4, b"i"),
    Step::Sync(3),
    Step::Remove(3),
    Step::Remove(1),
    Step::Replace(b"0"),
    Step::Tell(b"told"),
];

/// Whether an act was done, `None` where there is none.
fn was_done(act: Option<&Act>) -> Option<bool> {
    match act {
        Some(act) => Some(act.done),
        None => None,
    }
}

/// Whether an act is the removal of segment 3.
fn is_removal(act: Option<&Act>) -> bool {
    match act {
        Some(act) => matches!(act.kind, Kind::Remove(3)),
        None => false,
    }
}

/// Whether the fifth act alone of eight isn't done, and is the removal of segment 3.
fn are_made(depot: &MemoryDepot) -> bool {
    for number in 0..8usize {
        if was_done(depot.act(number)) != Some(number != 4) {
            return false;
        }
    }
    is_removal(depot.act(4)) && depot.act(8).is_none()
}

/// Whether a depot makes the acts of those calls, of which the fifth fails.
fn a_depot_makes(alloc: Global) -> Result<bool, AllocError> {
    let mut depot = depot(alloc, 5)?;
    Ok(run(&mut depot, &STEPS) == 1 && are_made(&depot))
}

#[test]
fn each_call_that_writes_makes_its_act(rt: HostRuntime) {
    assert!(rt; a_depot_makes(rt.alloc()) == Ok(true));
}

/// The depot of the next run of the same, with no stop between.
fn next_run(alloc: Global) -> Result<MemoryDepot, AllocError> {
    let mut depot = depot(alloc, 5)?;
    run(&mut depot, &STEPS);
    depot.again()
}

/// Whether a device has these sizes, of which 9 stands for an absent file.
fn sizes_are(next: &mut MemoryDepot, sizes: &[u64; 5]) -> bool {
    for (name, size) in SIZED.iter().zip(sizes) {
        let size = if *size == 9 { None } else { Some(*size) };
        if next.size(*name) != Ok(size) {
            return false;
        }
    }
    true
}

/// Whether the depot of the next run has what those calls left, and no act yet.
fn has_begun(next: &mut MemoryDepot) -> bool {
    sizes_are(next, &[1, 9, 8, 1, 9])
        && read(next, 3, 6) == Ok((2, *b"gh.."))
        && next.act(0).is_none()
}

/// Whether that depot has.
fn the_next_has_begun(alloc: Global) -> Result<bool, AllocError> {
    let mut next = next_run(alloc)?;
    Ok(has_begun(&mut next))
}

#[test]
fn the_next_run_begins_with_what_a_read_gives(rt: HostRuntime) {
    assert!(rt; the_next_has_begun(rt.alloc()) == Ok(true));
}

/// A run of which a stop leaves more than one image.
const DOUBTFUL: [Step; 8] = [
    Step::Settle,
    Step::Append(4, b"xyz"),
    Step::Sync(4),
    Step::Append(4, b"uv"),
    Step::Append(5, b"w"),
    Step::Replace(b"01"),
    Step::Remove(3),
    Step::Remove(1),
];

/// Whether the last act kept counts as not done, and whether such an act took effect.
enum Last {
    Done,
    Undone,
    Taken,
}

/// A stop of that run: how many acts are kept, what is listed of one segment, and what is left, `None` where no image is described: the
/// five sizes, of which 9 stands for an absent file, and the front of segment 4.
struct Case {
    acts: u64,
    last: Last,
    listed: (u64, Option<&'static [u8]>),
    left: Option<([u64; 5], &'static [u8])>,
}

/// What is listed of one segment, as a choice has it.
fn tails_of(
    alloc: Global,
    segment: u64,
    tail: Option<&[u8]>,
) -> Result<Vec<(u64, Option<Vec<u8>>)>, AllocError> {
    let tail = match tail {
        Some(bytes) => Some(Vec::from_slice(alloc, bytes)?),
        None => None,
    };
    Ok(vec![in alloc; (segment, tail)]?)
}

/// The choice of a case.
fn choice_of(alloc: Global, case: &Case) -> Result<Choice, AllocError> {
    let tails = tails_of(alloc, case.listed.0, case.listed.1)?;
    Ok(Choice {
        acts: case.acts,
        cut: !matches!(case.last, Last::Done),
        took: matches!(case.last, Last::Taken),
        tails,
    })
}

/// The depot that a stop leaves, where the choice describes one.
pub fn stopped(depot: MemoryDepot, choice: Choice) -> Result<Option<MemoryDepot>, AllocError> {
    if depot.allows(&choice) {
        let next = depot.crash(choice)?;
        Ok(Some(next))
    } else {
        Ok(None)
    }
}

/// The depot of the run that follows a stop of that run, where the case describes an image.
fn next_of(alloc: Global, case: &Case) -> Result<Option<MemoryDepot>, AllocError> {
    let mut depot = depot(alloc, 9)?;
    run(&mut depot, &DOUBTFUL);
    let choice = choice_of(alloc, case)?;
    stopped(depot, choice)
}

/// Whether a device has these sizes, of which 9 stands for an absent file, and this front of segment 4.
fn has(next: &mut MemoryDepot, sizes: &[u64; 5], front: &[u8]) -> bool {
    if !sizes_are(next, sizes) {
        return false;
    }
    match read(next, 4, 0) {
        Ok(got) => {
            let four = got.1;
            got.0 == front.len() && four.starts_with(front)
        }
        Err(_) => false,
    }
}

/// Whether a device has what the case says that it has.
fn has_left(next: &mut MemoryDepot, case: &Case) -> bool {
    match &case.left {
        Some(left) => has(next, &left.0, left.1),
        None => false,
    }
}

/// Whether a stop leaves what the case says.
fn is_left(alloc: Global, case: &Case) -> Result<bool, AllocError> {
    match next_of(alloc, case)? {
        Some(mut next) => Ok(has_left(&mut next, case)),
        None => Ok(case.left.is_none()),
    }
}

const CASES: [Case; 11] = [
    // Until a Settle is done the start is left, whatever is listed.
    Case {
        acts: 1,
        last: Last::Undone,
        listed: (4, Some(b"ab")),
        left: Some(([9, 0, 6, 9, 9], b"")),
    },
    // A tail behind what is stable; what isn't listed has its stable bytes; a Remove that is done is final.
    Case {
        acts: 7,
        last: Last::Done,
        listed: (4, Some(b"UV")),
        left: Some(([2, 0, 9, 5, 9], b"xyzU")),
    },
    // The last act kept not done: a Remove that took effect, and one that didn't.
    Case {
        acts: 7,
        last: Last::Undone,
        listed: (5, Some(b"")),
        left: Some(([2, 0, 6, 3, 0], b"xyz")),
    },
    Case {
        acts: 7,
        last: Last::Taken,
        listed: (5, None),
        left: Some(([2, 0, 9, 3, 9], b"xyz")),
    },
    // A Replace that isn't done takes effect or not.
    Case {
        acts: 6,
        last: Last::Undone,
        listed: (5, None),
        left: Some(([9, 0, 6, 3, 9], b"xyz")),
    },
    Case {
        acts: 6,
        last: Last::Taken,
        listed: (5, None),
        left: Some(([2, 0, 6, 3, 9], b"xyz")),
    },
    // A new segment may be absent until it is synced.
    Case {
        acts: 2,
        last: Last::Done,
        listed: (4, None),
        left: Some(([9, 0, 6, 9, 9], b"")),
    },
    Case {
        acts: 3,
        last: Last::Undone,
        listed: (4, None),
        left: Some(([9, 0, 6, 9, 9], b"")),
    },
    Case {
        acts: 3,
        last: Last::Done,
        listed: (4, None),
        left: None,
    },
    // More acts than were made, and more bytes than were appended.
    Case {
        acts: 9,
        last: Last::Undone,
        listed: (4, None),
        left: None,
    },
    Case {
        acts: 4,
        last: Last::Done,
        listed: (4, Some(b"UVW")),
        left: None,
    },
];

#[test]
fn a_stop_leaves_what_a_choice_describes(rt: HostRuntime) {
    for case in &CASES {
        assert!(rt; is_left(rt.alloc(), case) == Ok(true), "{} acts", case.acts);
    }
}
