//! A copy of a manifest.

ghost use Rattle.std.specs.Prelude.{◌≡◌, IfOk};
ghost use Rattle.ferry_manifest.specs.Manifest.Text.{manifest_view};

use ferry_base::Bytes;
use ferry_manifest::{ArchiveRef, ArchiveRefs, Manifest, Names};
use std::alloc::{AllocError, Global};

/// A copy of some bytes.
fn copy_bytes(alloc: Global, bytes: &Bytes) -> Result<Bytes, AllocError>
    ensures bytes { IfOk result (λ copy. copy ≡ bytes.now) }
{
    Ok(Bytes::new(Vec::from_slice(alloc, bytes.as_slice())?))
}

/// A copy of a timestamp, where there is one.
fn copy_timestamp(alloc: Global, timestamp: &Option<Bytes>) -> Result<Option<Bytes>, AllocError>
    ensures timestamp { IfOk result (λ copy. copy ≡ timestamp.now) }
{
    match timestamp {
        None => Ok(None),
        Some(timestamp) => Ok(Some(copy_bytes(alloc, timestamp)?)),
    }
}

/// A copy of the names of items.
fn copy_names(alloc: Global, names: &Names) -> Result<Names, AllocError>
    ensures names { IfOk result (λ copy. copy ≡ names.now) }
{
    let listed = names.as_slice();
    let mut copies = Vec::with_capacity(alloc, listed.len())?;
    for name in listed {
        copies.push(Vec::from_slice(alloc, name)?)?;
    }
    Ok(Names::new(copies))
}

/// A copy of an archive's entry.
fn copy_archive(alloc: Global, archive: &ArchiveRef) -> Result<ArchiveRef, AllocError>
    ensures archive { IfOk result (λ copy. copy ≡ archive.now) }
{
    let name = copy_bytes(alloc, &archive.name)?;
    let time = copy_bytes(alloc, &archive.time)?;
    Ok(ArchiveRef {
        name,
        id: archive.id,
        time,
    })
}

/// A copy of the entries of archives.
fn copy_archives(alloc: Global, archives: &ArchiveRefs) -> Result<ArchiveRefs, AllocError>
    ensures archives { IfOk result (λ copy. copy ≡ archives.now) }
{
    let listed = archives.as_slice();
    let mut copies = Vec::with_capacity(alloc, listed.len())?;
    for archive in listed {
        copies.push(copy_archive(alloc, archive)?)?;
    }
    Ok(ArchiveRefs::new(copies))
}

/// A copy of a manifest, which has its own memory.
pub fn copy_manifest(alloc: Global, manifest: &Manifest) -> Result<Manifest, AllocError>
    ensures manifest { IfOk result (λ copy. manifest_view copy ≡ manifest_view manifest.now) }
{
    Ok(Manifest {
        timestamp: copy_timestamp(alloc, &manifest.timestamp)?,
        config: manifest.config.clone()?,
        item_keys: copy_names(alloc, &manifest.item_keys)?,
        archives: copy_archives(alloc, &manifest.archives)?,
        more: manifest.more.clone()?,
    })
}
