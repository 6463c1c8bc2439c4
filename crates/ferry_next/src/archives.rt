//! One more archive of a manifest.

ghost use Rattle.std.specs.Prelude.{◌≡◌, ◌≤◌, length, take, drop, not, None, is_some, OnOk, OnErr};
ghost use Rattle.std.specs.List.{filter};
ghost use Rattle.ferry_manifest.specs.Manifest.Text.{manifest_view};
ghost use Rattle.ferry_manifest.specs.Manifest.Writing.{AreIncreasing, IsPackable, archive_names};
ghost use Rattle.ferry_next.specs.Next.{is_below, with_entry, without_entry};
ghost use Rattle.ferry_repo.specs.Archives.{archive_named};

use ferry_manifest::{ArchiveRef, ArchiveRefs, Manifest};
use std::alloc::{AllocError, Global};
use std::mem;

/// How many of these archives have lesser names, which stand in front of the others.
fn place_of(archives: &[ArchiveRef], name: &[u8]) -> usize
    requires increasing { AreIncreasing (archive_names archives.now) }
    ensures within { result ≤ length archives.now }
    ensures lesser { take result archives.now ≡ filter (λ archive. is_below archive.name name.now) archives.now }
    ensures others { drop result archives.now ≡ filter (λ archive. not (is_below archive.name name.now)) archives.now }
{
    archives.partition_point(|archive| archive.name.as_slice().cmp(name).is_lt())
}

/// Whether a manifest has an archive of this name.
pub fn has_archive(manifest: &Manifest, name: &[u8]) -> bool
    ensures has { result ≡ is_some (archive_named name.now manifest.now.archives) }
{
    manifest
        .archives
        .as_slice()
        .iter()
        .any(|archive| archive.name.as_slice() == name)
}

/// Puts one more archive in its place among those of a manifest.
///
/// The manifest owns the entry then; a refused call lets it go.
pub fn add_archive(
    alloc: Global,
    manifest: &mut Manifest,
    entry: ArchiveRef,
) -> Result<(), AllocError>
    requires increasing { AreIncreasing (archive_names manifest.old.archives) }
    requires unnamed { archive_named entry.name manifest.old.archives ≡ None }
    ensures added { OnOk result (manifest_view manifest.new ≡ with_entry (manifest_view manifest.old) entry) }
    ensures err { OnErr result (manifest_view manifest.new ≡ manifest_view manifest.old) }
    ensures increasing { AreIncreasing (archive_names manifest.new.archives) }
    ensures packable { IsPackable (manifest_view manifest.old) → IsPackable (manifest_view manifest.new) }
{
    // The list is taken out of the manifest, and goes back whether it has grown or not.
    let listed = mem::replace(&mut manifest.archives, ArchiveRefs::new(Vec::new(alloc)));
    let mut archives = listed.into_vec();
    let place = place_of(archives.as_slice(), entry.name.as_slice());
    let inserted = archives.insert(place, entry);
    manifest.archives = ArchiveRefs::new(archives);
    inserted?;
    Ok(())
}

/// Takes the archive of a name out of a manifest, where there is one. Nothing is allocated.
pub fn drop_archive(alloc: Global, manifest: &mut Manifest, name: &[u8])
    ensures dropped { manifest_view manifest.new ≡ without_entry (manifest_view manifest.old) name.now }
    ensures packable { IsPackable (manifest_view manifest.old) → IsPackable (manifest_view manifest.new) }
{
    let listed = mem::replace(&mut manifest.archives, ArchiveRefs::new(Vec::new(alloc)));
    let mut archives = listed.into_vec();
    archives.retain(|archive| archive.name.as_slice() != name);
    manifest.archives = ArchiveRefs::new(archives);
}
