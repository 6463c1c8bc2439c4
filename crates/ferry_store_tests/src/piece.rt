//! Contents that are prepared together, and then added one after another.
ghost use Rattle.std.specs.Prelude.{◌≡◌, ◌<◌, ◌≤◌, [], ℕ, false, IfSome, IsTrue, OnOk, length, nat_lt};
ghost use Rattle.ferry_blob.specs.Batch.{bytes_at, id_at};
ghost use Rattle.ferry_repo.specs.Opening.{repo_view};
ghost use Rattle.ferry_store.specs.Piece.{HasSize, IsPrepared};
ghost use Rattle.ferry_store.specs.Store.{IsUnspent, StoreFits};

use crate::fixture::secret_of;
use crate::store::{depot_of, source_of};
use ferry_base::{Id, ZERO_ID};
use ferry_disk::{Depot, MemoryDepot};
use ferry_repo::Secret;
use ferry_store::{Store, StoreRefusal};
use std::alloc::{AllocError, Global};

/// How many contents a batch has at most.
const MOST: usize = 5;

/// Contents that are prepared together, and one that is added between that and them.
struct Batch {
    between: &'static [u8],
    contents: &'static [&'static [u8]],
}

/// What is answered of a batch: how many of its contents were sealed ahead, which of them were put, and how many entries were pending behind them.
type Answer = (usize, [bool; MOST], u64);

/// Batches, each of a run of its own. In the first one a content that was sealed ahead is put before its turn, so that the one in front of it gets other
/// counter blocks than were foreseen; in the second they are as foreseen; and the third one opens what the others put.
static BATCHES: [Batch; 3] = [
    Batch {
        between: b"two",
        contents: &[
            b"one",
            b"two",
            b"three of more than one block of sixteen",
            b"one",
            b"four",
        ],
    },
    Batch {
        between: b"one",
        contents: &[
            b"five of more than one block of sixteen, too",
            b"six",
            b"two",
            b"six",
            b"seven",
        ],
    },
    Batch {
        between: b"",
        contents: &[
            b"four",
            b"five of more than one block of sixteen, too",
            b"three of more than one block of sixteen",
            b"six",
            b"seven",
        ],
    },
];

/// What is answered of them.
static ANSWERS: [Answer; 3] = [
    (3, [true, false, true, false, true], 4),
    (2, [true, true, false, false, true], 3),
    (0, [false, false, false, false, false], 1),
];

/// Puts contents, each behind the 43 bytes of a blob's head.
fn put_buffers(
    alloc: Global,
    buffers: &mut Vec<Vec<u8>>,
    contents: &[&'static [u8]],
) -> Result<(), AllocError> {
    for content in contents {
        let mut buffer = Vec::from_slice(alloc, &[0; 43])?;
        buffer.extend_from_slice(*content)?;
        buffers.push(buffer)?;
    }
    Ok(())
}

/// Whether these are a batch at most, and each has the size of a blob.
fn is_batch(buffers: &[Vec<u8>]) -> bool
    ensures few { IsTrue result → length buffers.now ≤ 5 }
    ensures sizes { IsTrue result → (k : ℕ) → k < length buffers.now → HasSize (bytes_at buffers.now k) }
{
    for place in 0..buffers.len() {
        let size = buffers[place].len();
        if size < 43 || size > 20_971_479 {
            return false;
        }
    }
    buffers.len() <= MOST
}

/// Adds what was prepared, and answers which were put.
fn add_each<D: Depot>(
    store: &mut Store,
    depot: &mut D,
    ids: &[Id; MOST],
    blobs: usize,
    buffers: &mut [Vec<u8>],
) -> Result<[bool; MOST], StoreRefusal>
    requires few { length buffers.old ≤ 5 }
    requires prepared { (k : ℕ) → k < length buffers.old
        → IsPrepared (repo_view store.old.repo) (id_at ids.now k) (nat_lt k blobs) (bytes_at buffers.old k) }
    requires unspent { IsUnspent store.old }
    requires fits { IfSome (D.told depot.old) (λ t. StoreFits false store.old t.history) }
    ensures unspent { OnOk result (IsUnspent store.new) }
{
    let mut put = [false; MOST];
    for place in 0..buffers.len() {
        let buffer = buffers[place].as_mut_slice();
        let added = store.add_piece(depot, ids[place], place < blobs, buffer, &ids[place + 1..])?;
        put[place] = added.new;
    }
    Ok(put)
}

/// Prepares the contents of buffers, adds another content, then them, and commits.
fn add_buffers<D: Depot>(
    store: &mut Store,
    depot: &mut D,
    between: &[u8],
    buffers: &mut [Vec<u8>],
) -> Result<Answer, StoreRefusal>
    requires few { length buffers.old ≤ 5 }
    requires sizes { (k : ℕ) → k < length buffers.old → HasSize (bytes_at buffers.old k) }
    requires between { length between.now ≤ 100 }
    requires unspent { IsUnspent store.old }
    requires fits { IfSome (D.told depot.old) (λ t. StoreFits false store.old t.history) }
{
    let mut ids = [ZERO_ID; MOST];
    let count = buffers.len();
    let blobs = store.prepare(buffers, &mut ids[..count]);
    store.add(depot, between)?;
    let put = add_each(store, depot, &ids, blobs, buffers)?;
    let pending = store.pending();
    store.checkpoint(depot)?;
    Ok((blobs, put, pending))
}

/// The same of a batch, whose contents are put into buffers.
fn add_contents<D: Depot>(
    alloc: Global,
    store: &mut Store,
    depot: &mut D,
    batch: &Batch,
    buffers: &mut Vec<Vec<u8>>,
) -> Result<Answer, StoreRefusal>
    requires unspent { IsUnspent store.old }
    requires fits { IfSome (D.told depot.old) (λ t. StoreFits false store.old t.history) }
{
    put_buffers(alloc, buffers, batch.contents)?;
    if !is_batch(buffers) || batch.between.len() > 100 {
        return Ok((9, [true; MOST], 9));
    }
    add_buffers(store, depot, batch.between, buffers)
}

/// The same with buffers of its own.
fn add_batch<D: Depot>(
    alloc: Global,
    store: &mut Store,
    depot: &mut D,
    batch: &Batch,
) -> Result<Answer, StoreRefusal>
    requires unspent { IsUnspent store.old }
    requires fits { IfSome (D.told depot.old) (λ t. StoreFits false store.old t.history) }
{
    let mut buffers = Vec::new(alloc);
    let answer = add_contents(alloc, store, depot, batch, &mut buffers);
    drop(buffers);
    answer
}

/// The same of a store that is made on a depot without files.
fn add_made<D: Depot>(
    alloc: Global,
    depot: &mut D,
    secret: &Secret,
    batch: &Batch,
) -> Result<Answer, StoreRefusal>
    requires begun { IfSome (D.told depot.old) (λ t. t.history.acts ≡ []) }
{
    let mut entropy = source_of(alloc, 0)?;
    let mut store = Store::init(alloc, depot, &mut entropy, secret, 1, b"now")?;
    let answer = add_batch(alloc, &mut store, depot, batch);
    drop(store);
    answer
}

/// The same of a store that is opened.
fn add_opened<D: Depot>(
    alloc: Global,
    depot: &mut D,
    secret: &Secret,
    batch: &Batch,
) -> Result<Answer, StoreRefusal>
    requires begun { IfSome (D.told depot.old) (λ t. t.history.acts ≡ []) }
{
    let mut store = Store::open(alloc, depot, secret)?;
    let answer = add_batch(alloc, &mut store, depot, batch);
    drop(store);
    answer
}

/// Whether a batch is answered so in the next run; the depot of that run.
fn added_next(
    alloc: Global,
    depot: MemoryDepot,
    secret: &Secret,
    batch: &Batch,
    wanted: &Answer,
) -> Option<MemoryDepot> {
    match depot.again() {
        Ok(mut next) => {
            if add_opened(alloc, &mut next, secret, batch) == Ok(*wanted) {
                return Some(next);
            }
            drop(next);
            None
        }
        Err(_) => None,
    }
}

/// Whether the second and the third batch are answered so in the next runs.
fn are_added_next(alloc: Global, depot: MemoryDepot, secret: &Secret) -> bool {
    match added_next(alloc, depot, secret, &BATCHES[1], &ANSWERS[1]) {
        Some(next) => match added_next(alloc, next, secret, &BATCHES[2], &ANSWERS[2]) {
            Some(last) => {
                drop(last);
                true
            }
            None => false,
        },
        None => false,
    }
}

/// Whether the batches are answered so.
fn are_added_with(alloc: Global, secret: &Secret) -> bool {
    match depot_of(alloc, b"", 0) {
        Ok(mut depot) => {
            let is_first = add_made(alloc, &mut depot, secret, &BATCHES[0]) == Ok(ANSWERS[0]);
            are_added_next(alloc, depot, secret) && is_first
        }
        Err(_) => false,
    }
}

/// The same with a passphrase.
fn are_added(alloc: Global) -> bool {
    match secret_of(alloc, b"pass", b"") {
        Ok(secret) => {
            let done = are_added_with(alloc, &secret);
            drop(secret);
            done
        }
        Err(_) => false,
    }
}

#[test]
fn contents_that_are_prepared_together_are_added(rt: HostRuntime) {
    assert!(rt; are_added(rt.alloc()));
}
