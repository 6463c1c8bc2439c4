//! The next manifest.

ghost use Rattle.std.specs.Prelude.{◌≡◌, None, map, IfOk, OnOk, OnErr};
ghost use Rattle.ferry_manifest.specs.Manifest.Text.{manifest_view};
ghost use Rattle.ferry_manifest.specs.Manifest.Writing.{AreIncreasing, IsPackable, archive_names};
ghost use Rattle.ferry_next.specs.Next.{next_manifest, written_at};
ghost use Rattle.ferry_repo.specs.Archives.{archive_named};

use crate::archives::add_archive;
use crate::copy::copy_manifest;
use crate::item_keys::union_of;
use ferry_base::Bytes;
use ferry_manifest::{ArchiveRef, Manifest};
use std::alloc::{AllocError, Global};

/// Adds an archive to a manifest, with copies of the names that its items have.
///
/// The manifest owns the entry then; a refused call lets it go.
pub fn name_archive(
    alloc: Global,
    manifest: &mut Manifest,
    entry: ArchiveRef,
    item_keys: &[Vec<u8>],
) -> Result<(), AllocError>
    requires increasing { AreIncreasing (archive_names manifest.old.archives) }
    requires unnamed { archive_named entry.name manifest.old.archives ≡ None }
    ensures named { OnOk result (manifest_view manifest.new
        ≡ next_manifest (manifest_view manifest.old) entry (map (λ name. name.items) item_keys.now)) }
    ensures err { OnErr result (manifest_view manifest.new ≡ manifest_view manifest.old) }
    ensures increasing { AreIncreasing (archive_names manifest.new.archives) }
    ensures packable { IsPackable (manifest_view manifest.old) → IsPackable (manifest_view manifest.new) }
{
    let names = union_of(alloc, &manifest.item_keys, item_keys)?;
    add_archive(alloc, manifest, entry)?;
    manifest.item_keys = names;
    Ok(())
}

/// A copy of a manifest with one more archive and copies of the names that its items have.
pub fn next_manifest(
    alloc: Global,
    manifest: &Manifest,
    entry: ArchiveRef,
    item_keys: &[Vec<u8>],
) -> Result<Manifest, AllocError>
    requires increasing { AreIncreasing (archive_names manifest.now.archives) }
    requires unnamed { archive_named entry.name manifest.now.archives ≡ None }
    ensures named { IfOk result (λ next. manifest_view next
        ≡ next_manifest (manifest_view manifest.now) entry (map (λ name. name.items) item_keys.now)) }
    ensures increasing { IfOk result (λ next. AreIncreasing (archive_names next.archives)) }
    ensures packable { IfOk result (λ next. IsPackable (manifest_view manifest.now) → IsPackable (manifest_view next)) }
{
    let mut next = copy_manifest(alloc, manifest)?;
    name_archive(alloc, &mut next, entry, item_keys)?;
    Ok(next)
}

/// Says when a manifest is written.
pub fn set_timestamp(manifest: &mut Manifest, timestamp: Bytes)
    ensures timestamp { manifest_view manifest.new ≡ written_at (manifest_view manifest.old) timestamp }
    ensures packable { IsPackable (manifest_view manifest.old) → IsPackable (manifest_view manifest.new) }
{
    manifest.timestamp = Some(timestamp);
}
