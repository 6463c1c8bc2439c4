//! Contents and archives that are added to repositories in memory and dropped.
ghost use Rattle.std.specs.Prelude.{◌≡◌, [], false, IfSome};
ghost use Rattle.ferry_manifest.specs.Manifest.Writing.{IsPackable};
ghost use Rattle.ferry_store.specs.Commit.{accepted_in};
ghost use Rattle.ferry_store.specs.Dropping.{IsWriting};
ghost use Rattle.ferry_store.specs.Store.{IsUnspent, StoreFits};

use crate::fixture::{entry, names, secret_of};
use crate::store::{depot_of, open_on, sizes, source_of};
use ferry_base::ZERO_ID;
use ferry_blob::id_of;
use ferry_disk::{Depot, MemoryDepot};
use ferry_log::open_log;
use ferry_repo::{RepoFault, Secret};
use ferry_store::{Store, StoreRefusal};
use ferry_write::{Session, WriteFault};
use std::alloc::{AllocError, Global};

/// The secret of a repository, and the names of the items of an archive in it.
#[derive(Drop)]
struct Given {
    secret: Secret,
    names: Vec<Vec<u8>>,
}

/// A passphrase alone, and the name of a field.
fn given_of(alloc: Global) -> Result<Given, AllocError> {
    let secret = secret_of(alloc, b"pass", b"")?;
    match names(alloc, &[b"path"]) {
        Ok(names) => Ok(Given { secret, names }),
        Err(fault) => {
            drop(secret);
            Err(fault)
        }
    }
}

/// Whether two contents, of which the second is the first again, are new, the first of them before it is added too, how many entries were
/// put then, and how many after a checkpoint.
fn add_twice<D: Depot>(
    store: &mut Store,
    depot: &mut D,
) -> Result<([bool; 3], [u64; 2]), StoreRefusal>
    requires unspent { IsUnspent store.old }
    requires fits { IfSome (D.told depot.old) (λ t. StoreFits false store.old t.history) }
{
    let would = store.would_put(b"abc");
    let first = store.add(depot, b"abc")?;
    let second = store.add(depot, b"abc")?;
    let put = store.pending();
    store.checkpoint(depot)?;
    Ok(([would, first.new, second.new], [put, store.pending()]))
}

/// The same of a store that is made on a depot without files.
fn add_made<D: Depot>(
    alloc: Global,
    depot: &mut D,
    secret: &Secret,
) -> Result<([bool; 3], [u64; 2]), StoreRefusal>
    requires begun { IfSome (D.told depot.old) (λ t. t.history.acts ≡ []) }
{
    let mut entropy = source_of(alloc, 0)?;
    let mut store = Store::init(alloc, depot, &mut entropy, secret, 1, b"now")?;
    let added = add_twice(&mut store, depot);
    drop(store);
    added
}

/// The same of a store that is opened.
fn add_opened<D: Depot>(
    alloc: Global,
    depot: &mut D,
    secret: &Secret,
) -> Result<([bool; 3], [u64; 2]), StoreRefusal>
    requires begun { IfSome (D.told depot.old) (λ t. t.history.acts ≡ []) }
{
    let mut store = Store::open(alloc, depot, secret)?;
    let added = add_twice(&mut store, depot);
    drop(store);
    added
}

/// Adds a content and accepts an archive `a`, whose items have these fields, and commits both; answers whether the archive was there before and is
/// there now.
fn name_one<D: Depot>(
    alloc: Global,
    store: &mut Store,
    depot: &mut D,
    names: &[Vec<u8>],
) -> Result<[bool; 2], StoreRefusal>
    requires unspent { IsUnspent store.old }
    requires packable { IsPackable (accepted_in store.old) }
    requires fits { IfSome (D.told depot.old) (λ t. StoreFits false store.old t.history) }
{
    store.add(depot, b"abc")?;
    if store.has(b"a") {
        return Ok([true, true]);
    }
    store.name_archive(entry(alloc, b"a")?, names)?;
    let mut entropy = source_of(alloc, 0)?;
    store.commit(depot, &mut entropy, b"later")?;
    Ok([false, store.has(b"a")])
}

/// The same of a store that is made on a depot without files.
fn name_made<D: Depot>(
    alloc: Global,
    depot: &mut D,
    given: &Given,
) -> Result<[bool; 2], StoreRefusal>
    requires begun { IfSome (D.told depot.old) (λ t. t.history.acts ≡ []) }
{
    let mut entropy = source_of(alloc, 0)?;
    let mut store = Store::init(alloc, depot, &mut entropy, &given.secret, 1, b"now")?;
    let named = name_one(alloc, &mut store, depot, &given.names);
    drop(store);
    named
}

/// Whether an archive is there in the next run, and nothing is pending.
fn is_committed(alloc: Global, depot: MemoryDepot, secret: &Secret) -> bool {
    match depot.again() {
        Ok(mut next) => {
            let done = open_on(alloc, &mut next, secret) == Ok((0, true, false));
            drop(next);
            done
        }
        Err(_) => false,
    }
}

/// Whether an archive is accepted and committed.
fn is_accepted(alloc: Global, given: &Given) -> bool {
    match depot_of(alloc, b"", 0) {
        Ok(mut depot) => {
            let is_named = name_made(alloc, &mut depot, given) == Ok([false, true]);
            is_committed(alloc, depot, &given.secret) && is_named
        }
        Err(_) => false,
    }
}

/// What is tested with a secret and names.
#[derive(Clone, Copy)]
enum Asked {
    Accepted,
    Dropped,
    PutOnce,
    Renewed,
}

/// Whether a test holds.
fn holds(alloc: Global, asked: Asked) -> bool {
    match given_of(alloc) {
        Ok(given) => {
            let done = match asked {
                Asked::Accepted => is_accepted(alloc, &given),
                Asked::Dropped => are_dropped(alloc, &given),
                Asked::PutOnce => is_put_once(alloc, &given.secret),
                Asked::Renewed => is_renewed(alloc, &given),
            };
            drop(given);
            done
        }
        Err(_) => false,
    }
}

#[test]
fn an_archive_that_was_accepted_is_committed(rt: HostRuntime) {
    assert!(rt; holds(rt.alloc(), Asked::Accepted));
}

/// Drops an archive `a` and the chunk of a content where both are there, and commits that; answers which of them were there.
fn drop_both<D: Depot>(
    alloc: Global,
    store: &mut Store,
    depot: &mut D,
) -> Result<[bool; 2], StoreRefusal>
    requires unspent { IsUnspent store.old }
    requires packable { IsPackable (accepted_in store.old) }
    requires fits { IfSome (D.told depot.old) (λ t. StoreFits false store.old t.history) }
{
    let id = id_of(store.keys(), b"abc");
    if !store.has(b"a") || store.would_put(b"abc") || id == ZERO_ID {
        return Ok([store.has(b"a"), !store.would_put(b"abc")]);
    }
    store.drop_name(b"a");
    store.drop_chunk(depot, &id)?;
    let mut entropy = source_of(alloc, 0)?;
    store.commit(depot, &mut entropy, b"last")?;
    Ok([true, true])
}

/// The same of a store that is opened.
fn drop_opened<D: Depot>(
    alloc: Global,
    depot: &mut D,
    secret: &Secret,
) -> Result<[bool; 2], StoreRefusal>
    requires begun { IfSome (D.told depot.old) (λ t. t.history.acts ≡ []) }
{
    let mut store = Store::open(alloc, depot, secret)?;
    let dropped = drop_both(alloc, &mut store, depot);
    drop(store);
    dropped
}

/// Whether this is what is dropped in the next run; the depot of that run.
fn dropped_next(
    alloc: Global,
    depot: MemoryDepot,
    secret: &Secret,
    wanted: &[bool; 2],
) -> Option<MemoryDepot> {
    match depot.again() {
        Ok(mut next) => {
            if drop_opened(alloc, &mut next, secret) == Ok(*wanted) {
                return Some(next);
            }
            drop(next);
            None
        }
        Err(_) => None,
    }
}

/// Whether both are dropped in the next run, and aren't there in the one behind it.
fn are_gone(alloc: Global, depot: MemoryDepot, secret: &Secret) -> bool {
    match dropped_next(alloc, depot, secret, &[true, true]) {
        Some(next) => match dropped_next(alloc, next, secret, &[false, false]) {
            Some(last) => {
                drop(last);
                true
            }
            None => false,
        },
        None => false,
    }
}

/// Whether an archive and a content are dropped once they were added.
fn are_dropped(alloc: Global, given: &Given) -> bool {
    match depot_of(alloc, b"", 0) {
        Ok(mut depot) => {
            let is_named = name_made(alloc, &mut depot, given) == Ok([false, true]);
            are_gone(alloc, depot, &given.secret) && is_named
        }
        Err(_) => false,
    }
}

#[test]
fn a_name_and_a_chunk_that_were_dropped_are_gone(rt: HostRuntime) {
    assert!(rt; holds(rt.alloc(), Asked::Dropped));
}

/// Whether a content that is there isn't put in the next run.
fn is_put_no_more(alloc: Global, depot: MemoryDepot, secret: &Secret) -> bool {
    match depot.again() {
        Ok(mut next) => {
            let added = add_opened(alloc, &mut next, secret);
            drop(next);
            added == Ok(([false, false, false], [0, 0]))
        }
        Err(_) => false,
    }
}

/// Whether a content is put once.
fn is_put_once(alloc: Global, secret: &Secret) -> bool {
    match depot_of(alloc, b"", 0) {
        Ok(mut depot) => {
            let is_put = add_made(alloc, &mut depot, secret) == Ok(([true, true, false], [1, 0]))
                && sizes(&mut depot) == [695, 34, 16, 316, 17, 95];
            is_put_no_more(alloc, depot, secret) && is_put
        }
        Err(_) => false,
    }
}

#[test]
fn a_content_is_put_once(rt: HostRuntime) {
    assert!(rt; holds(rt.alloc(), Asked::PutOnce));
}

/// Deletes the manifest of a repository.
fn lose_manifest<D: Depot>(alloc: Global, depot: &mut D) -> Result<(), WriteFault> {
    let transaction = match open_log(alloc, depot) {
        Ok(log) => log.transaction(),
        Err(_) => return Err(WriteFault::Device),
    };
    let mut session = Session::begin(alloc, depot, Some(transaction), 524288000)?;
    session.delete(depot, &ZERO_ID)?;
    session.commit(depot)?;
    Ok(())
}

/// Commits what was accepted.
fn commit_on<D: Depot>(alloc: Global, store: &mut Store, depot: &mut D) -> Result<(), StoreRefusal>
    requires unspent { IsUnspent store.old }
    requires packable { IsPackable (accepted_in store.old) }
    requires fits { IfSome (D.told depot.old) (λ t. IsWriting store.old t.history) }
{
    let mut entropy = source_of(alloc, 0)?;
    store.commit(depot, &mut entropy, b"again")
}

/// Opens a repository without its manifest and commits one; answers whether there was none.
fn renew<D: Depot>(alloc: Global, depot: &mut D, secret: &Secret) -> Result<bool, StoreRefusal>
    requires begun { IfSome (D.told depot.old) (λ t. t.history.acts ≡ []) }
{
    let (mut store, fault) = Store::open_bare(alloc, depot, secret)?;
    let committed = commit_on(alloc, &mut store, depot);
    drop(store);
    committed?;
    Ok(fault == Some(RepoFault::Missing(ZERO_ID)))
}

/// Whether a repository whose manifest is gone gets a new one in the next run, and opens in the one behind it, without archives.
fn opens_renewed(alloc: Global, depot: MemoryDepot, secret: &Secret) -> bool {
    match depot.again() {
        Ok(mut next) => {
            let is_new = renew(alloc, &mut next, secret) == Ok(true);
            match next.again() {
                Ok(mut last) => {
                    let opened = open_on(alloc, &mut last, secret);
                    drop(last);
                    is_new && opened == Ok((0, false, false))
                }
                Err(_) => false,
            }
        }
        Err(_) => false,
    }
}

/// Whether a repository with an archive loses its manifest, doesn't open then, and gets a new one.
fn is_renewed(alloc: Global, given: &Given) -> bool {
    match depot_of(alloc, b"", 0) {
        Ok(mut depot) => {
            let is_named = name_made(alloc, &mut depot, given) == Ok([false, true]);
            let is_lost = lose_manifest(alloc, &mut depot) == Ok(());
            let is_open = open_on(alloc, &mut depot, &given.secret).is_ok();
            opens_renewed(alloc, depot, &given.secret) && is_named && is_lost && !is_open
        }
        Err(_) => false,
    }
}

#[test]
fn a_lost_manifest_is_renewed(rt: HostRuntime) {
    assert!(rt; holds(rt.alloc(), Asked::Renewed));
}
