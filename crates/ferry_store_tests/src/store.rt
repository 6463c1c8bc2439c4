//! Repositories that are made and opened, and an `init` that fails at each call.
ghost use Rattle.std.specs.Prelude.{◌≡◌, [], IfOk};

use crate::fixture::secret_of;
use ferry_blob::Mode;
use ferry_disk::{MemoryDepot, MemoryEntropy, Name, Shelf};
use ferry_nonce::NonceFault;
use ferry_repo::Secret;
use ferry_store::{Store, StoreRefusal, make_key};
use std::alloc::{AllocError, Global};

/// The file `nonce` of this text, none where there is no text.
fn files_of(alloc: Global, nonce: &[u8]) -> Result<Vec<(Name, Vec<u8>)>, AllocError> {
    if nonce.is_empty() {
        return Ok(Vec::new(alloc));
    }
    let text = Vec::from_slice(alloc, nonce)?;
    Ok(vec![in alloc; (Name::Nonce, text)]?)
}

/// A depot whose file `nonce` has this text, absent where there is none, and of which this call fails.
pub(crate) fn depot_of(alloc: Global, nonce: &[u8], failing: u64) -> Result<MemoryDepot, AllocError>
    ensures begun { IfOk result (λ depot. depot.history.acts ≡ []) }
{
    let failing = vec![in alloc; failing]?;
    MemoryDepot::new(alloc, files_of(alloc, nonce)?, failing)
}

/// A source of random bytes of which this call fails.
pub(crate) fn source_of(alloc: Global, failing: u64) -> Result<MemoryEntropy, AllocError> {
    MemoryEntropy::new(alloc, vec![in alloc; failing]?)
}

/// What a store says: how many entries were put, and whether there is an archive `a` and a key file.
fn said_by(store: &mut Store) -> (u64, bool, bool) {
    let has_key_file = store.repo().mode() == Mode::Keyfile;
    (store.pending(), store.has(b"a"), has_key_file)
}

/// What a store says that `open` answers.
pub(crate) fn open_on(
    alloc: Global,
    depot: &mut MemoryDepot,
    secret: &Secret,
) -> Result<(u64, bool, bool), StoreRefusal> {
    let mut store = Store::open(alloc, depot, secret)?;
    let said = said_by(&mut store);
    drop(store);
    Ok(said)
}

/// What `init` answers, where this call of the source of random bytes fails.
fn init_on(
    alloc: Global,
    depot: &mut MemoryDepot,
    secret: &Secret,
    failing: u64,
) -> Result<(), StoreRefusal> {
    let mut entropy = source_of(alloc, failing)?;
    let time = b"2026-11-27T00:00:00.000000";
    let made = Store::init(alloc, depot, &mut entropy, secret, 1, time);
    drop(entropy);
    drop(made?);
    Ok(())
}

/// The number of a refusal, 0 where there is none.
fn number_of(answer: Result<(), StoreRefusal>) -> u8 {
    match answer {
        Ok(()) => 0,
        Err(refusal) => refusal.number(),
    }
}

/// The sizes of `config`, `README`, `nonce` and of the segments 0, 1 and 2, 0 for those that are absent.
pub(crate) fn sizes(depot: &mut MemoryDepot) -> [u64; 6] {
    [
        size_of(depot, Name::Config),
        size_of(depot, Name::Readme),
        size_of(depot, Name::Nonce),
        size_of(depot, Name::Segment(0)),
        size_of(depot, Name::Segment(1)),
        size_of(depot, Name::Segment(2)),
    ]
}

/// The size of a file, 0 where it is absent.
fn size_of(depot: &mut MemoryDepot, name: Name) -> u64 {
    match depot.size(name) {
        Ok(Some(size)) => size,
        _ => 0,
    }
}

/// The number of what `init` answers in the next run.
fn begun_again(alloc: Global, depot: MemoryDepot, secret: &Secret) -> u8 {
    match depot.again() {
        Ok(mut next) => {
            let number = number_of(init_on(alloc, &mut next, secret, 0));
            drop(next);
            number
        }
        Err(_) => 9,
    }
}

/// The number of what `init` answers where this call of the depot fails, and that of an `init` in the next run.
fn stopped_at(alloc: Global, secret: &Secret, failing: u64) -> (u8, u8) {
    match depot_of(alloc, b"", failing) {
        Ok(mut depot) => {
            let first = number_of(init_on(alloc, &mut depot, secret, 0));
            (first, begun_again(alloc, depot, secret))
        }
        Err(_) => (9, 9),
    }
}

/// The answers where each of the calls from 1 on fails in turn.
fn stops(alloc: Global, secret: &Secret) -> ([u8; 24], [u8; 24]) {
    let mut first = [9; 24];
    let mut next = [9; 24];
    for call in 0..24usize {
        let (number, again) = stopped_at(alloc, secret, call as u64 + 1);
        first[call] = number;
        next[call] = again;
    }
    (first, next)
}

/// The text of a new key's file.
fn key_file(alloc: Global) -> Result<Vec<u8>, StoreRefusal> {
    let mut entropy = MemoryEntropy::new(alloc, Vec::new(alloc))?;
    make_key(alloc, &mut entropy, b"pass", 1)
}

/// The first byte of the manifest's blob.
fn type_of(depot: &mut MemoryDepot) -> [u8; 1] {
    let mut first = [9];
    let _ = depot.read_at(Name::Segment(0), 49, &mut first);
    first
}

/// Whether `init` makes a repository of a manifest's blob of this type and files of these sizes.
fn is_made(
    alloc: Global,
    depot: &mut MemoryDepot,
    secret: &Secret,
    first: u8,
    wanted: &[u64; 6],
) -> bool {
    init_on(alloc, depot, secret, 0) == Ok(())
        && type_of(depot) == [first]
        && sizes(depot) == *wanted
}

/// Whether `init` in the next run is refused without an act, and `open` isn't.
fn is_there(alloc: Global, depot: MemoryDepot, secret: &Secret) -> bool {
    match depot.again() {
        Ok(mut next) => {
            let done = init_on(alloc, &mut next, secret, 0) == Err(StoreRefusal::Committed)
                && next.act(0).is_none()
                && open_on(alloc, &mut next, secret) == Ok((0, false, false));
            drop(next);
            done
        }
        Err(_) => false,
    }
}

/// Whether a repository is made with a secret, and isn't made once more.
fn is_made_once(alloc: Global, secret: &Secret) -> bool {
    match depot_of(alloc, b"", 0) {
        Ok(mut depot) => {
            let wanted = [695, 34, 16, 339, 17, 0];
            let is_first = is_made(alloc, &mut depot, secret, 3, &wanted);
            is_there(alloc, depot, secret) && is_first
        }
        Err(_) => false,
    }
}

/// What is tested with a secret.
#[derive(Clone, Copy)]
enum Asked {
    MadeOnce,
    CounterBlocks,
    Stops,
    KeyFile,
}

/// Whether a test holds with this key file.
fn holds(alloc: Global, key_file: &[u8], asked: Asked) -> bool {
    match secret_of(alloc, b"pass", key_file) {
        Ok(secret) => {
            let done = match asked {
                Asked::MadeOnce => is_made_once(alloc, &secret),
                Asked::CounterBlocks => counts_blocks(alloc, &secret),
                Asked::Stops => is_done_again(alloc, &secret),
                Asked::KeyFile => is_made_with_key(alloc, &secret),
            };
            drop(secret);
            done
        }
        Err(_) => false,
    }
}

#[test]
fn a_repository_is_made_once(rt: HostRuntime) {
    assert!(rt; holds(rt.alloc(), b"", Asked::MadeOnce));
}

/// What `init` answers where the file `nonce` has this text, the sizes of the files then, and whether an act was done.
fn refused_with(
    alloc: Global,
    secret: &Secret,
    nonce: &[u8],
) -> Option<(Result<(), StoreRefusal>, [u64; 6], bool)> {
    match depot_of(alloc, nonce, 0) {
        Ok(mut depot) => {
            let answer = init_on(alloc, &mut depot, secret, 0);
            let has_acted = depot.act(0).is_some();
            let sizes = sizes(&mut depot);
            drop(depot);
            Some((answer, sizes, has_acted))
        }
        Err(_) => None,
    }
}

/// Whether no repository is made where no counter blocks are left, and nothing is done where the file `nonce` doesn't read.
fn counts_blocks(alloc: Global, secret: &Secret) -> bool {
    let spent = Err(StoreRefusal::Nonce(NonceFault::Exhausted));
    let wrong = Err(StoreRefusal::Nonce(NonceFault::Text));
    refused_with(alloc, secret, b"ffffffffffffffff") == Some((spent, [695, 34, 16, 0, 0, 0], true))
        && refused_with(alloc, secret, b"12") == Some((wrong, [0, 0, 2, 0, 0, 0], false))
}

#[test]
fn a_repository_is_not_made_without_counter_blocks(rt: HostRuntime) {
    assert!(rt; holds(rt.alloc(), b"", Asked::CounterBlocks));
}

/// The numbers of `init` where each of the calls of the depot fails in turn, and of that in the next run.
static NUMBERS: ([u8; 24], [u8; 24]) = (
    [
        1, 3, 2, 2, 2, 2, 3, 2, 2, 2, 2, 2, 2, 1, 1, 1, 1, 1, 1, 1, 1, 1, 1, 0,
    ],
    [
        0, 0, 0, 0, 0, 0, 0, 0, 0, 0, 0, 0, 4, 4, 4, 4, 4, 4, 4, 4, 4, 4, 4, 4,
    ],
);

/// Whether `init` is refused where a call of the source of random bytes fails, of which it has more than six.
fn is_refused_by_source(alloc: Global, secret: &Secret) -> bool {
    match depot_of(alloc, b"", 0) {
        Ok(mut depot) => {
            let done = init_on(alloc, &mut depot, secret, 1) == Err(StoreRefusal::Entropy)
                && init_on(alloc, &mut depot, secret, 7) == Err(StoreRefusal::Entropy);
            drop(depot);
            done
        }
        Err(_) => false,
    }
}

/// Whether `init` can be done again where it was stopped.
fn is_done_again(alloc: Global, secret: &Secret) -> bool {
    stops(alloc, secret) == NUMBERS && is_refused_by_source(alloc, secret)
}

#[test]
fn an_init_that_was_stopped_can_be_done_again(rt: HostRuntime) {
    assert!(rt; holds(rt.alloc(), b"", Asked::Stops));
}

/// Whether a repository is made with the key of a key file.
fn is_made_with_key(alloc: Global, secret: &Secret) -> bool {
    match depot_of(alloc, b"", 0) {
        Ok(mut depot) => {
            let wanted = [208, 34, 16, 339, 17, 0];
            let done = is_made(alloc, &mut depot, secret, 0, &wanted);
            drop(depot);
            done
        }
        Err(_) => false,
    }
}

/// Whether a new key has a key file, with which a repository is made.
fn is_of_key_file(alloc: Global) -> bool {
    let first = b"BORG_KEY 000102030405060708090a0b0c0d0e0f101112131415161718191a1b1c1d1e1f\n";
    match key_file(alloc) {
        Ok(text) => text.starts_with(first) && holds(alloc, &text, Asked::KeyFile),
        Err(_) => false,
    }
}

#[test]
fn a_repository_is_made_with_the_key_of_a_key_file(rt: HostRuntime) {
    assert!(rt; is_of_key_file(rt.alloc()));
}
