//! The contents of two items.
ghost use Rattle.std.specs.Prelude.{◌≡◌, ◌++◌, ℕ, List, Some, false, OnOk, IfOk, IfErr, IfSome};
ghost use Rattle.ferry_disk.specs.Device.{KeepsTold, HasCause, told_files};
ghost use Rattle.ferry_item.specs.Item.{item_view};
ghost use Rattle.ferry_repo.specs.Opening.{repo_view, cached_in, FitsRepo};
ghost use Rattle.ferry_repo.specs.Archives.{HoldsJoined};
ghost use Rattle.ferry_compare.specs.Fault.{source_failed, target_failed, IsTargetFault, RefusesTarget};
ghost use Rattle.ferry_compare.specs.Matched.{AreMatched};
ghost use Rattle.ferry_compare.specs.Steps.{ComparesItems, ComparesContents, HoldsBytes, HoldsSome, HoldsWhere, IsWithin, Passes, RefusesItem, cursor_view};

use crate::cursor::Cursor;
use crate::fault::CompareFault;
use crate::matches::Matches;
use crate::same::same_value;
use ferry_disk::Shelf;
use ferry_item::{ChunkRef, ChunkRefs, Item};
use ferry_repo::Repo;
use std::alloc::Global;

/// Whether an item of the source and one of the target are the same. The content of the source's is read to its end.
#[tactic(auto, using(crate::proofs::FaultLemmas::conversions))]
pub(crate) fn same_item<S: Shelf, T: Shelf>(
    alloc: Global,
    source: &mut Repo,
    shelf: &mut S,
    target: &mut Repo,
    other: &mut T,
    item: &Item,
    beside: &Item,
    matches: &mut Matches,
) -> Result<bool, CompareFault>
    requires source_fits { IfSome (S.told shelf.old) (λ t. FitsRepo (told_files t) (repo_view source.old) (cached_in source.old)) }
    requires target_fits { IfSome (T.told other.old) (λ t. FitsRepo (told_files t) (repo_view target.old) (cached_in target.old)) }
    requires matched { AreMatched (S.told shelf.old) (repo_view source.old) (T.told other.old) (repo_view target.old) matches.old }
    ensures compares { IfOk result (λ same. ComparesItems (S.told shelf.old) (repo_view source.old) (T.told other.old) (repo_view target.old)
        (item_view item.now) (item_view beside.now) same) }
    ensures matched { OnOk result (AreMatched (S.told shelf.new) (repo_view source.new) (T.told other.new) (repo_view target.new) matches.new) }
    ensures refused { IfErr result (RefusesItem (S.told shelf.old) (repo_view source.old) (item_view item.now).chunks) }
    ensures refused_target { IfErr result RefusesTarget }
    ensures source_fits { IfSome (S.told shelf.new) (λ t. FitsRepo (told_files t) (repo_view source.new) (cached_in source.new)) }
    ensures target_fits { IfSome (T.told other.new) (λ t. FitsRepo (told_files t) (repo_view target.new) (cached_in target.new)) }
    ensures kept { repo_view source.new ≡ repo_view source.old }
    ensures target_kept { repo_view target.new ≡ repo_view target.old }
    ensures same { KeepsTold source_failed (S.told shelf.old) (S.told shelf.new) result }
    ensures target_same { KeepsTold target_failed (T.told other.old) (T.told other.new) result }
    ensures cause { HasCause source_failed (S.faults shelf.old) (S.faults shelf.new) result }
    ensures target_cause { HasCause target_failed (T.faults other.old) (T.faults other.new) result }
{
    if same_value(&item.fields, &beside.fields) {
        return same_content(
            alloc,
            source,
            shelf,
            target,
            other,
            &item.chunks,
            &beside.chunks,
            matches,
        );
    }
    read_content(source, shelf, &item.chunks)?;
    Ok(false)
}

/// Whether the contents of two items are the same. That of the source's is read to its end.
#[tactic(auto, using(crate::proofs::FaultLemmas::conversions))]
fn same_content<S: Shelf, T: Shelf>(
    alloc: Global,
    source: &mut Repo,
    shelf: &mut S,
    target: &mut Repo,
    other: &mut T,
    chunks: &Option<ChunkRefs>,
    others: &Option<ChunkRefs>,
    matches: &mut Matches,
) -> Result<bool, CompareFault>
    requires source_fits { IfSome (S.told shelf.old) (λ t. FitsRepo (told_files t) (repo_view source.old) (cached_in source.old)) }
    requires target_fits { IfSome (T.told other.old) (λ t. FitsRepo (told_files t) (repo_view target.old) (cached_in target.old)) }
    requires matched { AreMatched (S.told shelf.old) (repo_view source.old) (T.told other.old) (repo_view target.old) matches.old }
    ensures compares { IfOk result (λ same. ComparesContents (S.told shelf.old) (repo_view source.old) (T.told other.old) (repo_view target.old)
        chunks.now others.now same) }
    ensures matched { OnOk result (AreMatched (S.told shelf.new) (repo_view source.new) (T.told other.new) (repo_view target.new) matches.new) }
    ensures refused { IfErr result (RefusesItem (S.told shelf.old) (repo_view source.old) chunks.now) }
    ensures refused_target { IfErr result RefusesTarget }
    ensures source_fits { IfSome (S.told shelf.new) (λ t. FitsRepo (told_files t) (repo_view source.new) (cached_in source.new)) }
    ensures target_fits { IfSome (T.told other.new) (λ t. FitsRepo (told_files t) (repo_view target.new) (cached_in target.new)) }
    ensures kept { repo_view source.new ≡ repo_view source.old }
    ensures target_kept { repo_view target.new ≡ repo_view target.old }
    ensures same { KeepsTold source_failed (S.told shelf.old) (S.told shelf.new) result }
    ensures target_same { KeepsTold target_failed (T.told other.old) (T.told other.new) result }
    ensures cause { HasCause source_failed (S.faults shelf.old) (S.faults shelf.new) result }
    ensures target_cause { HasCause target_failed (T.faults other.old) (T.faults other.new) result }
{
    match chunks {
        Some(refs) => match others {
            Some(beside) => match_chunks(
                alloc,
                source,
                shelf,
                target,
                other,
                refs.as_slice(),
                beside.as_slice(),
                matches,
            ),
            None => {
                read_chunks(source, shelf, refs.as_slice())?;
                Ok(false)
            }
        },
        None => Ok(others.is_none()),
    }
}

/// Whether the contents of the chunks of two items, joined, are the same. Those that were found to be aren't read again, and are passed over where
/// contents are read ahead.
#[tactic(auto, using(crate::proofs::FaultLemmas::conversions))]
fn match_chunks<S: Shelf, T: Shelf>(
    alloc: Global,
    source: &mut Repo,
    shelf: &mut S,
    target: &mut Repo,
    other: &mut T,
    chunks: &[ChunkRef],
    others: &[ChunkRef],
    matches: &mut Matches,
) -> Result<bool, CompareFault>
    requires source_fits { IfSome (S.told shelf.old) (λ t. FitsRepo (told_files t) (repo_view source.old) (cached_in source.old)) }
    requires target_fits { IfSome (T.told other.old) (λ t. FitsRepo (told_files t) (repo_view target.old) (cached_in target.old)) }
    requires matched { AreMatched (S.told shelf.old) (repo_view source.old) (T.told other.old) (repo_view target.old) matches.old }
    ensures compares { IfOk result (λ same. ComparesContents (S.told shelf.old) (repo_view source.old) (T.told other.old) (repo_view target.old)
        (Some chunks.now) (Some others.now) same) }
    ensures matched { OnOk result (AreMatched (S.told shelf.new) (repo_view source.new) (T.told other.new) (repo_view target.new) matches.new) }
    ensures refused { IfErr result (RefusesItem (S.told shelf.old) (repo_view source.old) (Some chunks.now)) }
    ensures refused_target { IfErr result RefusesTarget }
    ensures source_fits { IfSome (S.told shelf.new) (λ t. FitsRepo (told_files t) (repo_view source.new) (cached_in source.new)) }
    ensures target_fits { IfSome (T.told other.new) (λ t. FitsRepo (told_files t) (repo_view target.new) (cached_in target.new)) }
    ensures kept { repo_view source.new ≡ repo_view source.old }
    ensures target_kept { repo_view target.new ≡ repo_view target.old }
    ensures same { KeepsTold source_failed (S.told shelf.old) (S.told shelf.new) result }
    ensures target_same { KeepsTold target_failed (T.told other.old) (T.told other.new) result }
    ensures cause { HasCause source_failed (S.faults shelf.old) (S.faults shelf.new) result }
    ensures target_cause { HasCause target_failed (T.faults other.old) (T.faults other.new) result }
{
    if matches.has(chunks, others) {
        return Ok(true);
    }
    let same = same_chunks(alloc, source, shelf, target, other, chunks, others)?;
    if same {
        source.pass_over(chunks);
        target.pass_over(others);
        matches.add(chunks, others);
    }
    Ok(same)
}

/// Whether the contents of the chunks of two items, joined, are the same. Those of the source are read to their end; of either at most one
/// is in memory besides those that the repositories keep.
#[tactic(auto, using(crate::proofs::FaultLemmas::conversions))]
fn same_chunks<S: Shelf, T: Shelf>(
    alloc: Global,
    source: &mut Repo,
    shelf: &mut S,
    target: &mut Repo,
    other: &mut T,
    chunks: &[ChunkRef],
    others: &[ChunkRef],
) -> Result<bool, CompareFault>
    requires source_fits { IfSome (S.told shelf.old) (λ t. FitsRepo (told_files t) (repo_view source.old) (cached_in source.old)) }
    requires target_fits { IfSome (T.told other.old) (λ t. FitsRepo (told_files t) (repo_view target.old) (cached_in target.old)) }
    ensures compares { IfOk result (λ same. ComparesContents (S.told shelf.old) (repo_view source.old) (T.told other.old) (repo_view target.old)
        (Some chunks.now) (Some others.now) same) }
    ensures refused { IfErr result (RefusesItem (S.told shelf.old) (repo_view source.old) (Some chunks.now)) }
    ensures refused_target { IfErr result RefusesTarget }
    ensures source_fits { IfSome (S.told shelf.new) (λ t. FitsRepo (told_files t) (repo_view source.new) (cached_in source.new)) }
    ensures target_fits { IfSome (T.told other.new) (λ t. FitsRepo (told_files t) (repo_view target.new) (cached_in target.new)) }
    ensures kept { repo_view source.new ≡ repo_view source.old }
    ensures target_kept { repo_view target.new ≡ repo_view target.old }
    ensures same { KeepsTold source_failed (S.told shelf.old) (S.told shelf.new) result }
    ensures target_same { KeepsTold target_failed (T.told other.old) (T.told other.new) result }
    ensures cause { HasCause source_failed (S.faults shelf.old) (S.faults shelf.new) result }
    ensures target_cause { HasCause target_failed (T.faults other.old) (T.faults other.new) result }
{
    let mut cursor = Cursor::new(alloc);
    let mut same = true;
    for place in 0..chunks.len() {
        let content = source.content_ahead(shelf, &chunks[place], &chunks[place..])?;
        same = passes(same, &mut cursor, target, other, others, &content)?;
    }
    ends(same, &cursor, target, other, others)
}

/// Passes the bytes of a content, where all was the same so far.
fn passes<T: Shelf>(
    same: bool,
    cursor: &mut Cursor,
    target: &mut Repo,
    other: &mut T,
    others: &[ChunkRef],
    bytes: &[u8],
) -> Result<bool, CompareFault>
    requires fits { IfSome (T.told other.old) (λ t. FitsRepo (told_files t) (repo_view target.old) (cached_in target.old)) }
    requires within { IsWithin others.now (cursor_view cursor.old) }
    ensures passes { IfOk result (λ goes. (done : List ℕ)
        → IfSome (T.told other.old) (λ t. Passes same (told_files t) (repo_view target.old) others.now (cursor_view cursor.old) done)
        → IfSome (T.told other.old) (λ t. Passes goes (told_files t) (repo_view target.old) others.now (cursor_view cursor.new) (done ++ bytes.now))) }
    ensures within { IsWithin others.now (cursor_view cursor.new) }
    ensures refused { IfErr result IsTargetFault }
    ensures still { IfErr result (λ fault. source_failed fault ≡ false) }
    ensures fits { IfSome (T.told other.new) (λ t. FitsRepo (told_files t) (repo_view target.new) (cached_in target.new)) }
    ensures kept { repo_view target.new ≡ repo_view target.old }
    ensures same { KeepsTold target_failed (T.told other.old) (T.told other.new) result }
    ensures cause { HasCause target_failed (T.faults other.old) (T.faults other.new) result }
{
    if same {
        cursor.pass(target, other, others, bytes)
    } else {
        Ok(false)
    }
}

/// Whether the content of the target's chunks ends, where all was the same so far.
fn ends<T: Shelf>(
    same: bool,
    cursor: &Cursor,
    target: &mut Repo,
    other: &mut T,
    others: &[ChunkRef],
) -> Result<bool, CompareFault>
    requires fits { IfSome (T.told other.old) (λ t. FitsRepo (told_files t) (repo_view target.old) (cached_in target.old)) }
    requires within { IsWithin others.now (cursor_view cursor.now) }
    ensures ends { IfOk result (λ ended. (done : List ℕ)
        → IfSome (T.told other.old) (λ t. Passes same (told_files t) (repo_view target.old) others.now (cursor_view cursor.now) done)
        → IfSome (T.told other.old) (λ t. HoldsWhere ended (
        HoldsJoined (told_files t) (repo_view target.old).log (repo_view target.old).keys (Some others.now) (Some done)))) }
    ensures refused { IfErr result IsTargetFault }
    ensures still { IfErr result (λ fault. source_failed fault ≡ false) }
    ensures fits { IfSome (T.told other.new) (λ t. FitsRepo (told_files t) (repo_view target.new) (cached_in target.new)) }
    ensures kept { repo_view target.new ≡ repo_view target.old }
    ensures same { KeepsTold target_failed (T.told other.old) (T.told other.new) result }
    ensures cause { HasCause target_failed (T.faults other.old) (T.faults other.new) result }
{
    if same {
        cursor.ends(target, other, others)
    } else {
        Ok(false)
    }
}

/// Reads the content of an item of the source to its end.
pub(crate) fn read_content<S: Shelf>(
    source: &mut Repo,
    shelf: &mut S,
    chunks: &Option<ChunkRefs>,
) -> Result<(), CompareFault>
    requires fits { IfSome (S.told shelf.old) (λ t. FitsRepo (told_files t) (repo_view source.old) (cached_in source.old)) }
    ensures holds { OnOk result (HoldsSome (S.told shelf.old) (repo_view source.old) chunks.now) }
    ensures refused { IfErr result (RefusesItem (S.told shelf.old) (repo_view source.old) chunks.now) }
    ensures refused_target { IfErr result RefusesTarget }
    ensures still { IfErr result (λ fault. target_failed fault ≡ false) }
    ensures fits { IfSome (S.told shelf.new) (λ t. FitsRepo (told_files t) (repo_view source.new) (cached_in source.new)) }
    ensures kept { repo_view source.new ≡ repo_view source.old }
    ensures same { KeepsTold source_failed (S.told shelf.old) (S.told shelf.new) result }
    ensures cause { HasCause source_failed (S.faults shelf.old) (S.faults shelf.new) result }
{
    match chunks {
        Some(refs) => read_chunks(source, shelf, refs.as_slice()),
        None => Ok(()),
    }
}

/// Reads the contents of chunks of the source, one after another.
#[tactic(auto, using(crate::proofs::FaultLemmas::conversions))]
fn read_chunks<S: Shelf>(
    source: &mut Repo,
    shelf: &mut S,
    chunks: &[ChunkRef],
) -> Result<(), CompareFault>
    requires fits { IfSome (S.told shelf.old) (λ t. FitsRepo (told_files t) (repo_view source.old) (cached_in source.old)) }
    ensures holds { OnOk result (HoldsBytes (S.told shelf.old) (repo_view source.old) chunks.now) }
    ensures refused { IfErr result (RefusesItem (S.told shelf.old) (repo_view source.old) (Some chunks.now)) }
    ensures refused_target { IfErr result RefusesTarget }
    ensures still { IfErr result (λ fault. target_failed fault ≡ false) }
    ensures fits { IfSome (S.told shelf.new) (λ t. FitsRepo (told_files t) (repo_view source.new) (cached_in source.new)) }
    ensures kept { repo_view source.new ≡ repo_view source.old }
    ensures same { KeepsTold source_failed (S.told shelf.old) (S.told shelf.new) result }
    ensures cause { HasCause source_failed (S.faults shelf.old) (S.faults shelf.new) result }
{
    for place in 0..chunks.len() {
        let _content = source.content_ahead(shelf, &chunks[place], &chunks[place..])?;
    }
    Ok(())
}
