//! The records and the items of the drill's archives.
ghost use Rattle.std.specs.Prelude.{◌≡◌, IfOk};
ghost use Rattle.ferry_manifest.specs.Record.Text.{archive_view};
ghost use Rattle.ferry_manifest.specs.Record.Writing.{IsPackableArchive};
ghost use Rattle.ferry_msgpack.specs.View.{value_view};
ghost use Rattle.ferry_gen.specs.Fields.{IsNewRecord, archive_fields, item_fields};

use crate::content::{archive_name, archive_time, file_path};
use ferry_base::Bytes;
use ferry_manifest::{Archive, Ids};
use ferry_msgpack::Value;
use std::alloc::{AllocError, Global};

/// The fields of an archive's record.
fn archive_fields(alloc: Global, archive: u32) -> Result<Value, AllocError>
    ensures fields { IfOk result (λ fields. value_view fields ≡ archive_fields archive) }
{
    let mut pairs = Vec::with_capacity(alloc, 3)?;
    pairs.push((
        Vec::from_slice(alloc, b"name")?,
        Value::Raw(archive_name(alloc, archive)?),
    ))?;
    pairs.push((
        Vec::from_slice(alloc, b"time")?,
        Value::Raw(archive_time(alloc)?),
    ))?;
    pairs.push((Vec::from_slice(alloc, b"version")?, Value::Number(1)))?;
    Ok(Value::Table(pairs))
}

/// The record of an archive, without items.
pub(crate) fn new_record(alloc: Global, archive: u32) -> Result<Archive, AllocError>
    ensures made { IfOk result (λ made. IsNewRecord archive (archive_view made)) }
    ensures packable { IfOk result (λ made. IsPackableArchive (archive_view made)) }
{
    let fields = archive_fields(alloc, archive)?;
    let name = Bytes::new(archive_name(alloc, archive)?);
    Ok(Archive {
        name,
        items: Ids::new(Vec::new(alloc)),
        params: None,
        fields,
        tagged: true,
    })
}

/// The fields of an item.
pub(crate) fn item_fields(alloc: Global, file: u32) -> Result<Value, AllocError>
    ensures fields { IfOk result (λ fields. value_view fields ≡ item_fields file) }
{
    let mut pairs = Vec::with_capacity(alloc, 2)?;
    pairs.push((Vec::from_slice(alloc, b"mode")?, Value::Number(33188)))?;
    pairs.push((
        Vec::from_slice(alloc, b"path")?,
        Value::Raw(file_path(alloc, file)?),
    ))?;
    Ok(Value::Table(pairs))
}
