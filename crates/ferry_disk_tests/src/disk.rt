//! Devices in memory: each call that reads, a call that fails, an output, and a source of random bytes.

use crate::devices::{FAILED, SIZED, depot, files, read};
use ferry_disk::{
    Entropy, EntropyFault, MemoryEntropy, MemoryShelf, MemorySink, Name, Shelf, Sink, SinkFault,
    StoreFault, read_whole,
};
use std::alloc::{AllocError, Global};

/// A file's size, as a call answers it.
type Size = Result<Option<u64>, StoreFault>;

/// How many bytes a call read, and four bytes of which these are the front.
type Part = Result<(usize, [u8; 4]), StoreFault>;

/// The segments and places that are read: segment 3 from three places on, and segment 2, which is absent.
const READ: [(u64, u64); 4] = [(3, 0), (3, 4), (3, 6), (2, 0)];

/// A shelf of the files, of which one call fails.
fn shelf(alloc: Global, failing: u64) -> Result<MemoryShelf, AllocError> {
    let files = files(alloc)?;
    let failing = Vec::from_slice(alloc, &[failing])?;
    MemoryShelf::new(alloc, files, failing)
}

/// Whether the four reads answer so.
fn reads_are<S: Shelf>(shelf: &mut S, parts: &[Part; 4]) -> bool {
    for ((segment, at), part) in READ.iter().zip(parts) {
        if read(shelf, *segment, *at) != *part {
            return false;
        }
    }
    true
}

/// Whether the five files have these sizes.
fn sizes_are<S: Shelf>(shelf: &mut S, sizes: &[Size; 5]) -> bool {
    for (name, size) in SIZED.iter().zip(sizes) {
        if shelf.size(*name) != *size {
            return false;
        }
    }
    true
}

/// Whether the segments are 1 and 3.
fn are_listed<S: Shelf>(shelf: &mut S, alloc: Global) -> bool {
    match shelf.segments(alloc) {
        Ok(numbers) => numbers.as_slice() == [1, 3].as_slice(),
        Err(_) => false,
    }
}

/// Whether a device answers each call that reads, in this order.
fn answers<S: Shelf>(shelf: &mut S, alloc: Global, parts: &[Part; 4], sizes: &[Size; 5]) -> bool {
    are_listed(shelf, alloc) && reads_are(shelf, parts) && sizes_are(shelf, sizes)
}

/// Whether a shelf answers each call, of which the sixth fails.
fn shelf_answers(shelf: &mut MemoryShelf, alloc: Global) -> bool {
    let parts = [
        Ok((4, *b"abcd")),
        Ok((2, *b"ef..")),
        Ok((0, *b"....")),
        Ok((0, *b"....")),
    ];
    let sizes = [Err(FAILED), Ok(Some(0)), Ok(Some(6)), Ok(None), Ok(None)];
    answers(shelf, alloc, &parts, &sizes) && shelf.count() == 10
}

/// Whether such a shelf does.
fn a_shelf_answers(alloc: Global) -> Result<bool, AllocError> {
    let mut shelf = shelf(alloc, 6)?;
    Ok(shelf_answers(&mut shelf, alloc))
}

#[test]
fn a_shelf_answers_each_call(rt: HostRuntime) {
    assert!(rt; a_shelf_answers(rt.alloc()) == Ok(true));
}

/// Whether a depot answers as a shelf does, of which the second call fails.
fn depot_answers<S: Shelf>(depot: &mut S, alloc: Global) -> bool {
    let parts = [
        Err(FAILED),
        Ok((2, *b"ef..")),
        Ok((0, *b"....")),
        Ok((0, *b"....")),
    ];
    let sizes = [Ok(None), Ok(Some(0)), Ok(Some(6)), Ok(None), Ok(None)];
    answers(depot, alloc, &parts, &sizes)
}

/// Whether such a depot does.
fn a_depot_answers(alloc: Global) -> Result<bool, AllocError> {
    let mut depot = depot(alloc, 2)?;
    Ok(depot_answers(&mut depot, alloc))
}

#[test]
fn a_depot_reads_as_a_shelf_does(rt: HostRuntime) {
    assert!(rt; a_depot_answers(rt.alloc()) == Ok(true));
}

/// Whether the configuration is read whole.
fn is_read_whole(shelf: &mut MemoryShelf, alloc: Global) -> bool {
    let mut bytes = Vec::new(alloc);
    let outcome = read_whole(shelf, Name::Config, &mut bytes);
    outcome.is_ok() && bytes.as_slice() == b"[repository]".as_slice()
}

/// Whether a shelf reads it so.
fn a_shelf_reads_whole(alloc: Global) -> Result<bool, AllocError> {
    let mut shelf = shelf(alloc, 9)?;
    Ok(is_read_whole(&mut shelf, alloc))
}

#[test]
fn a_file_is_read_whole(rt: HostRuntime) {
    assert!(rt; a_shelf_reads_whole(rt.alloc()) == Ok(true));
}

/// Whether three writes are taken, of which the second fails, and the sink has what the others wrote.
fn takes(sink: &mut MemorySink) -> bool {
    let answers: [(&[u8], Result<(), SinkFault>); 3] = [
        (b"ab", Ok(())),
        (b"cd", Err(SinkFault::Failed)),
        (b"ef", Ok(())),
    ];
    for (bytes, answer) in &answers {
        if sink.write(bytes) != *answer {
            return false;
        }
    }
    sink.bytes() == b"abef".as_slice() && sink.count() == 3
}

/// Whether a sink does, of which the second call fails.
fn a_sink_takes(alloc: Global) -> Result<bool, AllocError> {
    let failing = Vec::from_slice(alloc, &[2])?;
    let mut sink = MemorySink::new(alloc, failing)?;
    Ok(takes(&mut sink))
}

#[test]
fn a_sink_has_what_was_written(rt: HostRuntime) {
    assert!(rt; a_sink_takes(rt.alloc()) == Ok(true));
}

/// Whether two of three draws of three bytes come, and count up.
fn counts_up(entropy: &mut MemoryEntropy) -> bool {
    let wants: [(Result<(), EntropyFault>, [u8; 3]); 3] = [
        (Ok(()), [0, 1, 2]),
        (Err(EntropyFault::Failed), [0, 1, 2]),
        (Ok(()), [3, 4, 5]),
    ];
    let mut three = [9u8; 3];
    for (answer, bytes) in wants {
        let got = entropy.fill(&mut three);
        if got != answer || (got.is_ok() && three != bytes) {
            return false;
        }
    }
    entropy.count() == 3
}

/// Whether those of a source do, of which the second call fails.
fn a_source_counts_up(alloc: Global) -> Result<bool, AllocError> {
    let failing = Vec::from_slice(alloc, &[2])?;
    let mut entropy = MemoryEntropy::new(alloc, failing)?;
    Ok(counts_up(&mut entropy))
}

#[test]
fn the_bytes_of_a_source_in_memory_count_up(rt: HostRuntime) {
    assert!(rt; a_source_counts_up(rt.alloc()) == Ok(true));
}
