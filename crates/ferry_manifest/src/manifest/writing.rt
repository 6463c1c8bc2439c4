//! From a manifest to its packed bytes.

ghost use Rattle.std.specs.Prelude.{◌≡◌, ◌≢◌, ◌≤◌, ◌<◌, IfOk, IfErr, OnOk, Ok, Err, length, map, unwrap_or};
ghost use Rattle.ferry_base.specs.Limits.{content_limit};
ghost use Rattle.ferry_msgpack.specs.Tree.{table, no_pairs};
ghost use Rattle.ferry_msgpack.specs.View.{value_view, items_view, pairs_view};
ghost use Rattle.ferry_fields.specs.Fields.{pairs_in};
ghost use Rattle.ferry_manifest.specs.Manifest.Text.{manifest_of, manifest_view};
ghost use Rattle.ferry_manifest.specs.Manifest.Writing.{HaveIds, IsPackable, archive_fields, archive_pairs, manifest_text, untagged_pairs};
ghost use Rattle.ferry_manifest.specs.Manifest.Writing.{with_timestamp};
ghost use Rattle.ferry_manifest.specs.Values.{raws};

use crate::fault::MetaFault;
use crate::manifest::{ArchiveRef, Manifest};
use crate::packing::tagged_text;
use crate::tag::MANIFEST_INFO;
use crate::values::pairs_of_table;
use ferry_base::Bytes;
use ferry_fields::{put, put_raw, table_of};
use ferry_mac::Keys;
use ferry_msgpack::Value;
use std::alloc::{AllocError, Global};
use std::collections::BTreeMap;

/// The pairs of a manifest but for its tag.
#[tactic(auto, unfolding(crate::specs::Manifest::Writing::untagged_pairs))]
fn untagged_pairs(
    alloc: Global,
    manifest: &Manifest,
) -> Result<BTreeMap<Vec<u8>, Value>, AllocError>
    requires { IsPackable (manifest_view manifest.now) }
    ensures pairs { IfOk result (λ pairs.
        pairs_view pairs.entries ≡ untagged_pairs (manifest_view manifest.now)) }
    ensures ids { IfOk result (λ _. HaveIds manifest.now.archives) }
{
    let mut pairs = pairs_of_table(alloc, &manifest.more)?;
    put_timestamp(alloc, &mut pairs, &manifest.timestamp)?;
    let config = manifest.config.clone()?;
    put(alloc, &mut pairs, b"config", config)?;
    let item_keys = Value::Array(raws(alloc, manifest.item_keys.as_slice())?);
    put(alloc, &mut pairs, b"item_keys", item_keys)?;
    let archives = Value::Table(archive_pairs(alloc, manifest.archives.as_slice())?);
    put(alloc, &mut pairs, b"archives", archives)?;
    put(alloc, &mut pairs, b"version", Value::Number(1))?;
    Ok(pairs)
}

/// Puts the timestamp in its place, where there is one.
fn put_timestamp(
    alloc: Global,
    pairs: &mut BTreeMap<Vec<u8>, Value>,
    timestamp: &Option<Bytes>,
) -> Result<(), AllocError>
    ensures pairs { OnOk result (
        pairs_view pairs.new.entries ≡ with_timestamp timestamp.now (pairs_view pairs.old.entries)) }
{
    match timestamp {
        Some(timestamp) => put_raw(alloc, pairs, b"timestamp", timestamp.as_slice()),
        None => Ok(()),
    }
}

/// These bytes as the values of an array.
fn raws(alloc: Global, contents: &[Vec<u8>]) -> Result<Vec<Value>, AllocError>
    ensures { IfOk result (λ values.
        items_view values.items ≡ raws (map (λ content. content.items) contents.now)) }
{
    let mut values = Vec::new(alloc);
    for place in 0..contents.len() {
        let content = Vec::from_slice(alloc, contents[place].as_slice())?;
        values.push(Value::Raw(content))?;
    }
    Ok(values)
}

/// The archives by their names.
fn archive_pairs(
    alloc: Global,
    archives: &[ArchiveRef],
) -> Result<Vec<(Vec<u8>, Value)>, AllocError>
    ensures pairs { IfOk result (λ pairs. pairs_view pairs.items ≡ archive_pairs archives.now) }
    ensures ids { IfOk result (λ _. HaveIds archives.now) }
{
    let mut pairs = Vec::new(alloc);
    for place in 0..archives.len() {
        let archive = &archives[place];
        let name = Vec::from_slice(alloc, archive.name.as_slice())?;
        let fields = archive_fields(alloc, archive)?;
        pairs.push((name, fields))?;
    }
    Ok(pairs)
}

/// The map of an archive.
#[tactic(auto, unfolding(crate::specs::Manifest::Writing::archive_fields))]
fn archive_fields(alloc: Global, archive: &ArchiveRef) -> Result<Value, AllocError>
    ensures fields { IfOk result (λ fields. value_view fields ≡ table (archive_fields archive.now)) }
    ensures id { IfOk result (λ _. length archive.now.id ≡ 32) }
{
    let mut fields = BTreeMap::new(alloc);
    put_raw(alloc, &mut fields, b"time", archive.time.as_slice())?;
    put_raw(alloc, &mut fields, b"id", &archive.id)?;
    table_of(alloc, fields)
}

/// Packs a manifest and makes its authentication tag, under the keys of its repository. A salt may
/// serve once.
///
/// `TooLarge` comes where the bytes would be more than `CONTENT_LIMIT`, the most that the
/// content of an object has.
///
/// Source: BorgBackup 1.2, Internals, "Data structures and file formats", The manifest.
#[tactic(auto, unfolding(crate::specs::Manifest::Writing::manifest_text))]
pub fn write_manifest(
    alloc: Global,
    keys: &Keys,
    manifest: &Manifest,
    salt: &[u8; 64],
) -> Result<Vec<u8>, MetaFault>
    requires packable { IsPackable (manifest_view manifest.now) }
    ensures text { IfOk result (λ text.
        text.items ≡ manifest_text keys.now salt.now (manifest_view manifest.now)) }
    // What is written is read again under the same keys and says the same.
    ensures again { IfOk result (λ text. manifest_of keys.now text.items ≡ Ok (manifest_view manifest.now)) }
    ensures small { IfOk result (λ text. length text.items ≤ content_limit) }
    ensures large { IfErr result (λ fault. fault ≢ MetaFault.Memory → (fault ≡ MetaFault.TooLarge)
        × (content_limit < length (manifest_text keys.now salt.now (manifest_view manifest.now)))) }
{
    let map = table_of(alloc, untagged_pairs(alloc, manifest)?)?;
    tagged_text(alloc, MANIFEST_INFO, keys, &map, salt)
}
