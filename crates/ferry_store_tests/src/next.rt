//! Each public call once, and the order of archives and of names of items.

ghost use Rattle.std.specs.Prelude.{◌≡◌, ℕ, List, None, IfOk};
ghost use Rattle.ferry_manifest.specs.Manifest.Writing.{AreIncreasing, archive_names};
ghost use Rattle.ferry_repo.specs.Archives.{archive_named};

use crate::fixture::{entry, names};
use ferry_base::Bytes;
use ferry_manifest::{ArchiveRef, ArchiveRefs, Manifest, Names};
use ferry_msgpack::Value;
use ferry_next::{
    add_archive, add_item_keys, copy_manifest, drop_archive, has_archive, name_archive, next_laws,
    next_manifest, set_timestamp,
};
use std::alloc::{AllocError, Global};
use std::mem;

/// A table of one name.
fn table(alloc: Global, name: &[u8], is_flag: bool) -> Result<Value, AllocError> {
    let name = Vec::from_slice(alloc, name)?;
    let value = if is_flag {
        Value::Flag(true)
    } else {
        Value::Nil
    };
    Ok(Value::Table(vec![in alloc; (name, value)]?))
}

/// Puts two names of items, one setting and one other name.
fn fill(alloc: Global, manifest: &mut Manifest) -> Result<(), AllocError>
    ensures archives { manifest.new.archives ≡ manifest.old.archives }
{
    let config = table(alloc, b"c", true)?;
    drop(mem::replace(&mut manifest.config, config));
    let more = table(alloc, b"m", false)?;
    drop(mem::replace(&mut manifest.more, more));
    let keys = Names::new(names(alloc, &[b"mode", b"path"])?);
    drop(mem::replace(&mut manifest.item_keys, keys));
    Ok(())
}

/// A manifest with two names of items, one setting and one other name.
#[tactic(auto, unfolding(ferry_repo::specs::Archives::archive_named))]
fn first(alloc: Global) -> Result<Manifest, AllocError>
    ensures increasing { IfOk result (λ manifest. AreIncreasing (archive_names manifest.archives)) }
    ensures unnamed { IfOk result (λ manifest. (name : List ℕ) → archive_named name manifest.archives ≡ None) }
{
    let mut manifest = Manifest {
        timestamp: None,
        config: Value::Nil,
        item_keys: Names::new(Vec::new(alloc)),
        archives: ArchiveRefs::new(Vec::new(alloc)),
        more: Value::Nil,
    };
    match fill(alloc, &mut manifest) {
        Ok(()) => Ok(manifest),
        Err(fault) => {
            drop(manifest);
            Err(fault)
        }
    }
}

/// Adds an archive of this name where there is none.
fn put(alloc: Global, manifest: &mut Manifest, name: &[u8]) -> Result<(), AllocError>
    requires increasing { AreIncreasing (archive_names manifest.old.archives) }
    ensures increasing { AreIncreasing (archive_names manifest.new.archives) }
{
    if has_archive(manifest, name) {
        return Ok(());
    }
    add_archive(alloc, manifest, entry(alloc, name)?)
}

/// A manifest with an archive `b` more, and with these names of items more.
fn next_with(alloc: Global, first: &Manifest, keys: &[Vec<u8>]) -> Result<Manifest, AllocError>
    requires increasing { AreIncreasing (archive_names first.now.archives) }
    requires unnamed { (name : List ℕ) → archive_named name first.now.archives ≡ None }
    ensures increasing { IfOk result (λ manifest. AreIncreasing (archive_names manifest.archives)) }
{
    next_manifest(alloc, first, entry(alloc, b"b")?, keys)
}

/// A manifest with an archive `b` alone, and with more names of items.
fn second(alloc: Global, keys: &[Vec<u8>]) -> Result<Manifest, AllocError>
    ensures increasing { IfOk result (λ manifest. AreIncreasing (archive_names manifest.archives)) }
{
    let first = first(alloc)?;
    let next = next_with(alloc, &first, keys);
    drop(first);
    next
}

/// Adds four archives, one of them twice.
fn put_all(alloc: Global, manifest: &mut Manifest) -> Result<(), AllocError>
    requires increasing { AreIncreasing (archive_names manifest.old.archives) }
{
    put(alloc, manifest, b"ab")?;
    put(alloc, manifest, b"\xff")?;
    put(alloc, manifest, b"a")?;
    put(alloc, manifest, b"ba")?;
    put(alloc, manifest, b"ab")
}

/// The names of the archives of `b` and of these four.
static NAMES: [&[u8]; 5] = [b"a", b"ab", b"b", b"ba", b"\xff"];

/// Whether these are the names of a manifest's archives, in this order.
fn are_named(archives: &[ArchiveRef]) -> bool {
    let mut all = archives.len() == NAMES.len();
    for (archive, name) in archives.iter().zip(NAMES.iter()) {
        all &= archive.name.as_slice() == *name;
    }
    all
}

/// The names of items of both lists.
static KEYS: [&[u8]; 4] = [b"atime", b"mode", b"path", b"uid"];

/// Whether these are a manifest's names of items, in this order.
fn are_keys(keys: &[Vec<u8>]) -> bool {
    let mut all = keys.len() == KEYS.len();
    for (key, name) in keys.iter().zip(KEYS.iter()) {
        all &= key.as_slice() == *name;
    }
    all
}

/// Whether a copy of a manifest has the archives in order.
fn copy_has_archives(alloc: Global, manifest: &Manifest) -> bool {
    match copy_manifest(alloc, manifest) {
        Ok(copy) => {
            let done = are_named(copy.archives.as_slice()) && !has_archive(&copy, b"aa");
            drop(copy);
            done
        }
        Err(_) => false,
    }
}

/// Whether an archive is there no more once it is dropped, and the others are.
fn one_is_dropped(alloc: Global, manifest: &mut Manifest) -> bool {
    drop_archive(alloc, manifest, b"b");
    drop_archive(alloc, manifest, b"aa");
    manifest.archives.as_slice().len() == 4
        && !has_archive(manifest, b"b")
        && has_archive(manifest, b"ab")
        && has_archive(manifest, b"ba")
}

/// Whether archives stand in order where four are put beside one, and where one is dropped then.
fn are_in_order(alloc: Global, keys: &[Vec<u8>]) -> bool {
    match second(alloc, keys) {
        Ok(mut manifest) => {
            let done = put_all(alloc, &mut manifest).is_ok()
                && copy_has_archives(alloc, &manifest)
                && one_is_dropped(alloc, &mut manifest);
            drop(manifest);
            done
        }
        Err(_) => false,
    }
}

/// The same with more names of items.
fn archives_are_in_order(alloc: Global) -> bool {
    match names(alloc, &[b"atime", b"mode"]) {
        Ok(keys) => {
            let done = are_in_order(alloc, &keys);
            drop(keys);
            done
        }
        Err(_) => false,
    }
}

#[test]
fn archives_stand_in_byte_order_of_their_names(rt: HostRuntime) {
    assert!(rt; archives_are_in_order(rt.alloc()));
    next_laws();
}

/// Names an archive `a`, whose items have these names beside those of a manifest without archives.
fn name_with(alloc: Global, manifest: &mut Manifest, keys: &[Vec<u8>]) -> Result<(), AllocError>
    requires increasing { AreIncreasing (archive_names manifest.old.archives) }
    requires unnamed { (name : List ℕ) → archive_named name manifest.old.archives ≡ None }
{
    name_archive(alloc, manifest, entry(alloc, b"a")?, keys)
}

/// The same of these two names.
fn name_one(alloc: Global, manifest: &mut Manifest) -> Result<(), AllocError>
    requires increasing { AreIncreasing (archive_names manifest.old.archives) }
    requires unnamed { (name : List ℕ) → archive_named name manifest.old.archives ≡ None }
{
    let keys = names(alloc, &[b"atime", b"mode"])?;
    let named = name_with(alloc, manifest, &keys);
    drop(keys);
    named
}

/// Adds names of items.
fn add_more(alloc: Global, manifest: &mut Manifest) -> Result<(), AllocError> {
    let keys = names(alloc, &[b"uid", b"path"])?;
    let added = add_item_keys(alloc, manifest, &keys);
    drop(keys);
    added
}

/// Adds names of items, and sets the time.
fn set_more(alloc: Global, manifest: &mut Manifest) -> Result<(), AllocError> {
    add_more(alloc, manifest)?;
    let time = Vec::from_slice(alloc, b"noon")?;
    set_timestamp(manifest, Bytes::new(time));
    Ok(())
}

/// Whether a copy of a manifest has the names of items in order, a time, and one archive.
fn copy_has_keys(alloc: Global, manifest: &Manifest) -> bool {
    match copy_manifest(alloc, manifest) {
        Ok(copy) => {
            let done = are_keys(copy.item_keys.as_slice())
                && copy.timestamp.is_some()
                && copy.archives.as_slice().len() == 1;
            drop(copy);
            done
        }
        Err(_) => false,
    }
}

/// Whether names of items stand in order where an archive and then others are added.
fn names_are_in_order(alloc: Global) -> bool {
    match first(alloc) {
        Ok(mut manifest) => {
            let done = name_one(alloc, &mut manifest).is_ok()
                && set_more(alloc, &mut manifest).is_ok()
                && copy_has_keys(alloc, &manifest);
            drop(manifest);
            done
        }
        Err(_) => false,
    }
}

#[test]
fn names_of_items_stand_in_byte_order_once(rt: HostRuntime) {
    assert!(rt; names_are_in_order(rt.alloc()));
}
