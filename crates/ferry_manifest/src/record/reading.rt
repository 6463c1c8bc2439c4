//! The reader of packed archive records.

ghost use Rattle.std.specs.Prelude.{◌≡◌, ◌≢◌, true, false, IfOk, IfErr, Ok, Err, Some, is_some, option_map, codes};
ghost use Rattle.ferry_msgpack.specs.Apart.{apart_view};
ghost use Rattle.ferry_msgpack.specs.View.{value_view, pairs_view};
ghost use Rattle.ferry_fields.specs.Fields.{raw_in, value_of};
ghost use Rattle.ferry_fields.specs.Others.{without};
ghost use Rattle.ferry_manifest.specs.Record.Apart.{lacks_apart, record_apart};
ghost use Rattle.ferry_manifest.specs.Record.Writing.{IsPackableArchive};
ghost use Rattle.ferry_manifest.specs.Record.Text.{ArchiveText, IsRecordFault, apart_names, archive_of, archive_view, unless_tag_differs};
ghost use Rattle.ferry_manifest.specs.Stated.{tag_in};

use crate::fault::MetaFault;
use crate::record::{Archive, Ids};
use crate::stated::{StatedTag, is_right, tag_in};
use crate::tag::ARCHIVE_INFO;
use ferry_base::{Bytes, Id};
use ferry_fields::{has_version_1, map_apart_of, raw_in, value_of, without};
use ferry_mac::Keys;
use ferry_msgpack::{Apart, Value};
use std::alloc::{AllocError, Global};

/// A copy of the value of `chunker_params`, where the name is there.
fn params_in(pairs: &[(Vec<u8>, Value)]) -> Result<Option<Value>, AllocError>
    ensures params { IfOk result (λ params.
        option_map value_view params ≡ value_of (codes "chunker_params") (pairs_view pairs.now)) }
{
    match value_of(pairs, b"chunker_params") {
        Some(params) => Ok(Some(params.clone()?)),
        None => Ok(None),
    }
}

/// The pairs of the other names.
fn other_fields(
    alloc: Global,
    pairs: Vec<(Vec<u8>, Value)>,
) -> Result<Vec<(Vec<u8>, Value)>, AllocError>
    ensures fields { IfOk result (λ kept.
        pairs_view kept.items ≡ without apart_names (pairs_view pairs.items)) }
{
    let names: [&[u8]; 3] = [b"items", b"chunker_params", b"tam"];
    without(alloc, pairs, &names)
}

/// Whether a record has an authentication tag.
fn is_tagged(pairs: &[(Vec<u8>, Value)]) -> bool
    ensures { result ≡ is_some (value_of (codes "tam") (pairs_view pairs.now)) }
{
    value_of(pairs, b"tam").is_some()
}

/// Checks the tag that a packed record states, where it states one.
fn check_tag(
    alloc: Global,
    keys: &Keys,
    bytes: &[u8],
    stated: Option<StatedTag>,
) -> Result<(), MetaFault>
    ensures ok { IfOk result (λ _. (archive : ArchiveText)
        → unless_tag_differs keys.now bytes.now archive stated ≡ Ok archive) }
    ensures fault { IfErr result (λ fault. fault ≢ MetaFault.Memory → (archive : ArchiveText)
        → unless_tag_differs keys.now bytes.now archive stated ≡ Err fault) }
    ensures only { IfErr result IsRecordFault }
{
    let Some(stated) = stated else {
        return Ok(());
    };
    if is_right(alloc, ARCHIVE_INFO, keys, bytes, &stated)? {
        Ok(())
    } else {
        Err(MetaFault::Tag)
    }
}

/// The fields of a record whose kind and length are prescribed, and the tag that it states.
#[derive(Drop)]
struct Fields {
    name: Bytes,
    items: Ids,
    tag: Option<StatedTag>,
}

/// These fields, where each has its kind and length, from the pairs and the ids that are the value of `items`.
fn fields_in(
    alloc: Global,
    pairs: &[(Vec<u8>, Value)],
    ids: Option<Vec<Id>>,
) -> Result<Fields, MetaFault>
    ensures whole { IfOk result (λ _.
        lacks_apart (pairs_view pairs.now, option_map (λ all. all.items) ids) ≡ false) }
    ensures name { IfOk result (λ fields. raw_in (codes "name") (pairs_view pairs.now) ≡ Some fields.name) }
    ensures items { IfOk result (λ fields. option_map (λ all. all.items) ids ≡ Some fields.items) }
    ensures tag { IfOk result (λ fields. tag_in (pairs_view pairs.now) ≡ Some fields.tag) }
    ensures fault { IfErr result (λ fault. fault ≢ MetaFault.Memory → (fault ≡ MetaFault.Field)
        × (lacks_apart (pairs_view pairs.now, option_map (λ all. all.items) ids) ≡ true)) }
    ensures only { IfErr result IsRecordFault }
{
    if !has_version_1(pairs) {
        return Err(MetaFault::Field);
    }
    let Some(name) = raw_in(pairs, b"name") else {
        return Err(MetaFault::Field);
    };
    let name = Bytes::new(Vec::from_slice(alloc, name)?);
    let Some(ids) = ids else {
        return Err(MetaFault::Field);
    };
    let items = Ids::new(ids);
    let tag = tag_in(pairs)?;
    Ok(Fields { name, items, tag })
}

/// The record of a map that was read with the value of `items` apart, its tag checked.
fn record_from(alloc: Global, keys: &Keys, bytes: &[u8], apart: Apart) -> Result<Archive, MetaFault>
    ensures archive { IfOk result (λ archive.
        record_apart keys.now bytes.now (apart_view apart) ≡ Ok (archive_view archive)) }
    ensures fault { IfErr result (λ fault. fault ≢ MetaFault.Memory
        → record_apart keys.now bytes.now (apart_view apart) ≡ Err fault) }
    ensures only { IfErr result IsRecordFault }
{
    let Apart { pairs, contents } = apart;
    let said = fields_in(alloc, pairs.as_slice(), contents)?;
    check_tag(alloc, keys, bytes, said.tag)?;
    let params = params_in(pairs.as_slice())?;
    let tagged = is_tagged(pairs.as_slice());
    let fields = Value::Table(other_fields(alloc, pairs)?);
    Ok(Archive {
        name: said.name,
        items: said.items,
        params,
        fields,
        tagged,
    })
}

/// Reads the packed bytes of an archive's record, the content of the object that the manifest names
/// for the archive, under the keys of its repository.
///
/// The ids of `items` are read one after the other, and no values are made of them.
///
/// A fault is the first in the order Pack, Field, Tag; `Memory` may come from any bytes, at any point. A
/// record without an authentication tag is read, and isn't `tagged`.
///
/// Source: BorgBackup 1.2, Internals, "Data structures and file formats", Archives; `crypto/key.py`,
/// `unpack_and_verify_archive`.
#[tactic(auto, unfolding(crate::specs::Record::Text::archive_of))]
pub fn read_archive(alloc: Global, keys: &Keys, bytes: &[u8]) -> Result<Archive, MetaFault>
    ensures archive { IfOk result (λ archive. archive_of keys.now bytes.now ≡ Ok (archive_view archive)) }
    ensures fault { IfErr result (λ fault.
        fault ≢ MetaFault.Memory → archive_of keys.now bytes.now ≡ Err fault) }
    // What is read can be written.
    ensures packable { IfOk result (λ archive. IsPackableArchive (archive_view archive)) }
    // A fault is Pack, Field, Tag or Memory.
    ensures only { IfErr result IsRecordFault }
{
    let apart = map_apart_of(alloc, bytes, b"items")?;
    record_from(alloc, keys, bytes, apart)
}
