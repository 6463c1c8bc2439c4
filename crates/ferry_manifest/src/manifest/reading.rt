//! The reader of packed manifests.

ghost use Rattle.std.specs.Prelude.{◌≡◌, ◌≢◌, true, false, IfOk, IfErr, IfSome, IfNone, Ok, Err, Some, None, unwrap_or, option_map, option_and_then};
ghost use Rattle.ferry_msgpack.specs.Tree.{table};
ghost use Rattle.ferry_msgpack.specs.Writable.{IsWritable};
ghost use Rattle.ferry_msgpack.specs.View.{value_view, items_view, pairs_view};
ghost use Rattle.ferry_fields.specs.Fields.{pairs_in, raw_of};
ghost use Rattle.ferry_fields.specs.Others.{without};
ghost use Rattle.ferry_manifest.specs.Manifest.Text.{ManifestText, field_names, archive_from, archives_in, archives_of, config_in, in_order, item_keys_in};
ghost use Rattle.ferry_manifest.specs.Manifest.Text.{lacks_field, manifest_from, manifest_of, raws_in, manifest_view, text_in, timestamp_in};
ghost use Rattle.ferry_manifest.specs.Manifest.Text.{with_tag};
ghost use Rattle.ferry_manifest.specs.Manifest.Writing.{IsPackable};
ghost use Rattle.ferry_manifest.specs.Stated.{tag_in};

use crate::fault::MetaFault;
use crate::manifest::{ArchiveRef, ArchiveRefs, Manifest, Names};
use crate::stated::{StatedTag, is_right, tag_in};
use crate::tag::MANIFEST_INFO;
use crate::values::{pairs_in, raw_of};
use ferry_base::Bytes;
use ferry_fields::{has_version_1, map_in, map_of, raw_in, raw32_in, value_of, without};
use ferry_mac::Keys;
use ferry_msgpack::Value;
use std::alloc::{AllocError, Global};
use std::collections::BTreeSet;

/// The timestamp, where the name is absent or has bytes.
fn timestamp_in(alloc: Global, pairs: &[(Vec<u8>, Value)]) -> Result<Option<Bytes>, MetaFault>
    ensures timestamp { IfOk result (λ timestamp.
        timestamp_in (pairs_view pairs.now) ≡ Some timestamp) }
    ensures fault { IfErr result (λ fault. fault ≢ MetaFault.Memory
        → (fault ≡ MetaFault.Field) × (timestamp_in (pairs_view pairs.now) ≡ None)) }
{
    match value_of(pairs, b"timestamp") {
        None => Ok(None),
        Some(Value::Raw(content)) => Ok(Some(Bytes::new(Vec::from_slice(alloc, content)?))),
        Some(_) => Err(MetaFault::Field),
    }
}

/// The table `config`, where the name is absent or has a map.
fn config_in(alloc: Global, pairs: &[(Vec<u8>, Value)]) -> Result<Value, MetaFault>
    ensures config { IfOk result (λ config.
        config_in (pairs_view pairs.now) ≡ Some (value_view config)) }
    ensures fault { IfErr result (λ fault. fault ≢ MetaFault.Memory
        → (fault ≡ MetaFault.Field) × (config_in (pairs_view pairs.now) ≡ None)) }
{
    match value_of(pairs, b"config") {
        None => Ok(Value::Table(Vec::new(alloc))),
        Some(config) => match config {
            Value::Table(_) => Ok(config.clone()?),
            _ => Err(MetaFault::Field),
        },
    }
}

/// The names that items may have, where the name is absent or has an array of bytes.
fn item_keys_in(alloc: Global, pairs: &[(Vec<u8>, Value)]) -> Result<Names, MetaFault>
    ensures names { IfOk result (λ names.
        item_keys_in (pairs_view pairs.now) ≡ Some names) }
    ensures fault { IfErr result (λ fault. fault ≢ MetaFault.Memory
        → (fault ≡ MetaFault.Field) × (item_keys_in (pairs_view pairs.now) ≡ None)) }
{
    match value_of(pairs, b"item_keys") {
        None => Ok(Names::new(Vec::new(alloc))),
        Some(Value::Array(items)) => names_in_order(alloc, items.as_slice()),
        Some(_) => Err(MetaFault::Field),
    }
}

/// The bytes that these values are, in byte order, each once.
fn names_in_order(alloc: Global, items: &[Value]) -> Result<Names, MetaFault>
    ensures names { IfOk result (λ names.
        option_map in_order (raws_in (items_view items.now)) ≡ Some names) }
    ensures fault { IfErr result (λ fault. fault ≢ MetaFault.Memory
        → (fault ≡ MetaFault.Field) × (raws_in (items_view items.now) ≡ None)) }
{
    let mut names = BTreeSet::new(alloc);
    for place in 0..items.len() {
        let Some(content) = raw_of(&items[place]) else {
            return Err(MetaFault::Field);
        };
        let name = Vec::from_slice(alloc, content)?;
        drop(names.insert(name)?);
    }
    Ok(Names::new(all_names(alloc, names)?))
}

/// The names of a set as a vector, the least one first.
fn all_names(alloc: Global, names: BTreeSet<Vec<u8>>) -> Result<Vec<Vec<u8>>, AllocError>
    ensures { IfOk result (λ all. all.items ≡ names.keys) }
{
    names.into_iter().collect(alloc)
}

/// The archives, where the name is there and has a map of maps with an id and a time.
fn archives_in(alloc: Global, pairs: &[(Vec<u8>, Value)]) -> Result<ArchiveRefs, MetaFault>
    ensures archives { IfOk result (λ archives.
        archives_in (pairs_view pairs.now) ≡ Some archives) }
    ensures fault { IfErr result (λ fault. fault ≢ MetaFault.Memory
        → (fault ≡ MetaFault.Field) × (archives_in (pairs_view pairs.now) ≡ None)) }
{
    let Some(listed) = map_in(pairs, b"archives") else {
        return Err(MetaFault::Field);
    };
    archives_of(alloc, listed)
}

/// The archives of these names.
fn archives_of(alloc: Global, pairs: &[(Vec<u8>, Value)]) -> Result<ArchiveRefs, MetaFault>
    ensures archives { IfOk result (λ archives.
        archives_of (pairs_view pairs.now) ≡ Some archives) }
    ensures fault { IfErr result (λ fault. fault ≢ MetaFault.Memory
        → (fault ≡ MetaFault.Field) × (archives_of (pairs_view pairs.now) ≡ None)) }
{
    let mut archives = Vec::new(alloc);
    for place in 0..pairs.len() {
        let (name, value) = &pairs[place];
        let archive = archive_of(alloc, name.as_slice(), value)?;
        archives.push(archive)?;
    }
    Ok(ArchiveRefs::new(archives))
}

/// The archive of a name, where its value is a map with an id and a time.
fn archive_of(alloc: Global, name: &[u8], value: &Value) -> Result<ArchiveRef, MetaFault>
    ensures archive { IfOk result (λ archive.
        option_and_then (archive_from name.now) (pairs_in (value_view value.now)) ≡ Some archive) }
    ensures fault { IfErr result (λ fault. fault ≢ MetaFault.Memory → (fault ≡ MetaFault.Field)
        × (option_and_then (archive_from name.now) (pairs_in (value_view value.now)) ≡ None)) }
{
    let Some(fields) = pairs_in(value) else {
        return Err(MetaFault::Field);
    };
    let Some(id) = raw32_in(fields, b"id") else {
        return Err(MetaFault::Field);
    };
    let Some(time) = raw_in(fields, b"time") else {
        return Err(MetaFault::Field);
    };
    let name = Bytes::new(Vec::from_slice(alloc, name)?);
    let time = Bytes::new(Vec::from_slice(alloc, time)?);
    Ok(ArchiveRef { name, id, time })
}

/// Checks the tag that a packed manifest states.
fn check_tag(
    alloc: Global,
    keys: &Keys,
    bytes: &[u8],
    stated: Option<StatedTag>,
) -> Result<(), MetaFault>
    ensures ok { IfOk result (λ _. (text : ManifestText)
        → with_tag keys.now bytes.now text stated ≡ Ok text) }
    ensures fault { IfErr result (λ fault. fault ≢ MetaFault.Memory → (text : ManifestText)
        → with_tag keys.now bytes.now text stated ≡ Err fault) }
    ensures large { result ≢ Err MetaFault.TooLarge }
{
    let Some(stated) = stated else {
        return Err(MetaFault::TagMissing);
    };
    if is_right(alloc, MANIFEST_INFO, keys, bytes, &stated)? {
        Ok(())
    } else {
        Err(MetaFault::Tag)
    }
}

/// What the fields of a manifest say, and the tag that it states.
#[derive(Drop)]
struct Fields {
    timestamp: Option<Bytes>,
    config: Value,
    item_keys: Names,
    archives: ArchiveRefs,
    tag: Option<StatedTag>,
}

/// What the fields say, where each has its kind and length.
fn fields_in(alloc: Global, pairs: &[(Vec<u8>, Value)]) -> Result<Fields, MetaFault>
    ensures whole { IfOk result (λ _. lacks_field (pairs_view pairs.now) ≡ false) }
    ensures timestamp { IfOk result (λ fields. timestamp_in (pairs_view pairs.now) ≡ Some fields.timestamp) }
    ensures config { IfOk result (λ fields. config_in (pairs_view pairs.now) ≡ Some (value_view fields.config)) }
    ensures item_keys { IfOk result (λ fields. item_keys_in (pairs_view pairs.now) ≡ Some fields.item_keys) }
    ensures archives { IfOk result (λ fields. archives_in (pairs_view pairs.now) ≡ Some fields.archives) }
    ensures tag { IfOk result (λ fields. tag_in (pairs_view pairs.now) ≡ Some fields.tag) }
    ensures fault { IfErr result (λ fault. fault ≢ MetaFault.Memory
        → (fault ≡ MetaFault.Field) × (lacks_field (pairs_view pairs.now) ≡ true)) }
{
    if !has_version_1(pairs) {
        return Err(MetaFault::Field);
    }
    let timestamp = timestamp_in(alloc, pairs)?;
    let config = config_in(alloc, pairs)?;
    let item_keys = item_keys_in(alloc, pairs)?;
    let archives = archives_in(alloc, pairs)?;
    let tag = tag_in(pairs)?;
    Ok(Fields {
        timestamp,
        config,
        item_keys,
        archives,
        tag,
    })
}

/// The manifest of a map: its fields, its tag checked, and its other names.
fn manifest_from(
    alloc: Global,
    keys: &Keys,
    bytes: &[u8],
    pairs: Vec<(Vec<u8>, Value)>,
) -> Result<Manifest, MetaFault>
    requires { IsWritable (table (pairs_view pairs.items)) }
    ensures manifest { IfOk result (λ manifest.
        manifest_from keys.now bytes.now (Some (pairs_view pairs.items)) ≡ Ok (manifest_view manifest)) }
    ensures fault { IfErr result (λ fault. fault ≢ MetaFault.Memory
        → manifest_from keys.now bytes.now (Some (pairs_view pairs.items)) ≡ Err fault) }
    ensures packable { IfOk result (λ manifest. IsPackable (manifest_view manifest)) }
    ensures large { result ≢ Err MetaFault.TooLarge }
{
    let fields = fields_in(alloc, pairs.as_slice())?;
    check_tag(alloc, keys, bytes, fields.tag)?;
    let more = Value::Table(others(alloc, pairs)?);
    Ok(Manifest {
        timestamp: fields.timestamp,
        config: fields.config,
        item_keys: fields.item_keys,
        archives: fields.archives,
        more,
    })
}

/// The pairs whose names are no field's.
fn others(alloc: Global, pairs: Vec<(Vec<u8>, Value)>) -> Result<Vec<(Vec<u8>, Value)>, AllocError>
    ensures others { IfOk result (λ kept.
        pairs_view kept.items ≡ without field_names (pairs_view pairs.items)) }
{
    let names: [&[u8]; 6] = [
        b"version",
        b"timestamp",
        b"config",
        b"item_keys",
        b"archives",
        b"tam",
    ];
    without(alloc, pairs, &names)
}

/// Reads the packed bytes of a manifest, the content of the object with the zero id, under the keys
/// of its repository.
///
/// A fault is the first in the order Pack, Field, TagMissing, Tag; `Memory` may come from any bytes,
/// at any point. `TooLarge` never comes.
///
/// Source: BorgBackup 1.2, Internals, "Data structures and file formats", The manifest.
#[tactic(auto, unfolding(crate::specs::Manifest::Text::manifest_of))]
pub fn read_manifest(alloc: Global, keys: &Keys, bytes: &[u8]) -> Result<Manifest, MetaFault>
    ensures manifest { IfOk result (λ manifest.
        manifest_of keys.now bytes.now ≡ Ok (manifest_view manifest)) }
    ensures fault { IfErr result (λ fault.
        fault ≢ MetaFault.Memory → manifest_of keys.now bytes.now ≡ Err fault) }
    // What is read can be written.
    ensures packable { IfOk result (λ manifest. IsPackable (manifest_view manifest)) }
    ensures large { result ≢ Err MetaFault.TooLarge }
{
    let pairs = map_of(alloc, bytes)?;
    manifest_from(alloc, keys, bytes, pairs)
}
