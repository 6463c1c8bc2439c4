//! More names of items of a manifest.

ghost use Rattle.std.specs.Prelude.{◌≡◌, List, map, fold, IfOk, OnOk, OnErr};
ghost use Rattle.std.specs.BTreeSet.{insert_key};
ghost use Rattle.std.specs.Cmp.Lexicographic.{slice_cmp};
ghost use Rattle.std.specs.Ordering.{nat_cmp};
ghost use Rattle.ferry_manifest.specs.Manifest.Text.{manifest_view};
ghost use Rattle.ferry_manifest.specs.Manifest.Writing.{IsPackable};
ghost use Rattle.ferry_next.specs.Next.{union, with_item_keys};

use ferry_manifest::{Manifest, Names};
use std::alloc::{AllocError, Global};
use std::collections::BTreeSet;

/// Adds copies of these names to a set.
fn insert_names(
    alloc: Global,
    set: &mut BTreeSet<Vec<u8>>,
    names: &[Vec<u8>],
) -> Result<(), AllocError>
    ensures names { OnOk result (map (λ name. name.items) set.new.keys
        ≡ fold (insert_key (slice_cmp nat_cmp)) (map (λ name. name.items) set.old.keys) (map (λ name. name.items) names.now)) }
{
    for name in names {
        let copy = Vec::from_slice(alloc, name.as_slice())?;
        drop(set.insert(copy)?);
    }
    Ok(())
}

/// The names of both, each once, in byte order. They have their own memory.
pub(crate) fn union_of(alloc: Global, names: &Names, more: &[Vec<u8>]) -> Result<Names, AllocError>
    ensures names { IfOk result (λ all. all ≡ union names.now (map (λ name. name.items) more.now)) }
{
    let mut set = BTreeSet::new(alloc);
    insert_names(alloc, &mut set, names.as_slice())?;
    insert_names(alloc, &mut set, more)?;
    Ok(Names::new(set.into_iter().collect(alloc)?))
}

/// Adds copies of these names of items to those of a manifest.
pub fn add_item_keys(
    alloc: Global,
    manifest: &mut Manifest,
    item_keys: &[Vec<u8>],
) -> Result<(), AllocError>
    ensures added { OnOk result (manifest_view manifest.new
        ≡ with_item_keys (manifest_view manifest.old) (map (λ name. name.items) item_keys.now)) }
    ensures err { OnErr result (manifest_view manifest.new ≡ manifest_view manifest.old) }
    ensures packable { IsPackable (manifest_view manifest.old) → IsPackable (manifest_view manifest.new) }
{
    manifest.item_keys = union_of(alloc, &manifest.item_keys, item_keys)?;
    Ok(())
}
