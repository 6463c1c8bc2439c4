//! From an archive's record to its packed bytes.

ghost use Rattle.std.specs.Prelude.{◌≡◌, ◌≢◌, ◌≤◌, ◌<◌, IfOk, IfErr, OnOk, Ok, length, option_map};
ghost use Rattle.ferry_base.specs.Limits.{content_limit};
ghost use Rattle.ferry_msgpack.specs.View.{value_view, items_view, pairs_view};
ghost use Rattle.ferry_manifest.specs.Record.Writing.{AreIds, IsPackableArchive, archive_text, record_pairs, with_params};
ghost use Rattle.ferry_manifest.specs.Record.Text.{archive_of, archive_view, as_tagged};
ghost use Rattle.ferry_manifest.specs.Values.{raws};

use crate::fault::MetaFault;
use crate::packing::tagged_text;
use crate::record::Archive;
use crate::tag::ARCHIVE_INFO;
use crate::values::pairs_of_table;
use ferry_base::Id;
use ferry_fields::{put, table_of};
use ferry_mac::Keys;
use ferry_msgpack::Value;
use std::alloc::{AllocError, Global};
use std::collections::BTreeMap;

/// These ids as the values of an array.
fn id_values(alloc: Global, ids: &[Id]) -> Result<Vec<Value>, AllocError>
    ensures values { IfOk result (λ values. items_view values.items ≡ raws ids.now) }
    ensures ids { IfOk result (λ _. AreIds ids.now) }
{
    let mut values = Vec::new(alloc);
    for place in 0..ids.len() {
        let id = Vec::from_slice(alloc, &ids[place])?;
        values.push(Value::Raw(id))?;
    }
    Ok(values)
}

/// Puts the value of `chunker_params` in its place, where there is one.
fn put_params(
    alloc: Global,
    pairs: &mut BTreeMap<Vec<u8>, Value>,
    params: &Option<Value>,
) -> Result<(), AllocError>
    ensures pairs { OnOk result (pairs_view pairs.new.entries
        ≡ with_params (option_map value_view params.now) (pairs_view pairs.old.entries)) }
{
    match params {
        Some(params) => {
            let copy = params.clone()?;
            put(alloc, pairs, b"chunker_params", copy)
        }
        None => Ok(()),
    }
}

/// The pairs of a record but for its tag.
#[tactic(auto, unfolding(crate::specs::Record::Writing::record_pairs))]
fn record_pairs(alloc: Global, archive: &Archive) -> Result<BTreeMap<Vec<u8>, Value>, AllocError>
    requires { IsPackableArchive (archive_view archive.now) }
    ensures pairs { IfOk result (λ pairs.
        pairs_view pairs.entries ≡ record_pairs (archive_view archive.now)) }
    ensures ids { IfOk result (λ _. AreIds archive.now.items) }
{
    let mut pairs = pairs_of_table(alloc, &archive.fields)?;
    put_params(alloc, &mut pairs, &archive.params)?;
    let items = Value::Array(id_values(alloc, archive.items.as_slice())?);
    put(alloc, &mut pairs, b"items", items)?;
    Ok(pairs)
}

/// Packs the record of an archive and makes its authentication tag, under the keys of its repository,
/// whether the record had one or not. A salt may serve once.
///
/// `TooLarge` comes where the bytes would be more than `CONTENT_LIMIT`, the most that the content of an
/// object has.
///
/// Source: BorgBackup 1.2, Internals, "Data structures and file formats", Archives; `crypto/key.py`,
/// `pack_and_authenticate_metadata`.
#[tactic(auto, unfolding(crate::specs::Record::Writing::archive_text))]
pub fn write_archive(
    alloc: Global,
    keys: &Keys,
    archive: &Archive,
    salt: &[u8; 64],
) -> Result<Vec<u8>, MetaFault>
    requires packable { IsPackableArchive (archive_view archive.now) }
    ensures text { IfOk result (λ text.
        text.items ≡ archive_text keys.now salt.now (archive_view archive.now)) }
    // What is written is read again under the same keys, is tagged and says the same.
    ensures again { IfOk result (λ text.
        archive_of keys.now text.items ≡ Ok (as_tagged (archive_view archive.now))) }
    ensures small { IfOk result (λ text. length text.items ≤ content_limit) }
    ensures large { IfErr result (λ fault. fault ≢ MetaFault.Memory → (fault ≡ MetaFault.TooLarge)
        × (content_limit < length (archive_text keys.now salt.now (archive_view archive.now)))) }
{
    let map = table_of(alloc, record_pairs(alloc, archive)?)?;
    tagged_text(alloc, ARCHIVE_INFO, keys, &map, salt)
}
