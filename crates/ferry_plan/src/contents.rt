//! The content of an item, cut into pieces that are counted.
ghost use Rattle.std.specs.Prelude.{◌≡◌, ◌≤◌, ◌<◌, ◌^◌, ◌-◌, List, Option, Some, None, false, length, min, IfErr, IfOk, IfSome, IsTrue, OnOk};
ghost use Rattle.std.specs.List.{AllByRecursion};
ghost use Rattle.ferry_carry.specs.Copying.{CopiesContent, WritesContent, WritesContents, writer_state};
ghost use Rattle.ferry_piece.specs.Puts.{Addition, AreOf, Content, contents_in};
ghost use Rattle.ferry_carry.specs.Refusals.{IsTooLong, total_size};
ghost use Rattle.ferry_disk.specs.Device.{HasCause, KeepsTold, Told, told_files};
ghost use Rattle.ferry_plan.specs.Fault.{shelf_failed, target_failed};
ghost use Rattle.ferry_plan.specs.Parts.{TakesChunks};
ghost use Rattle.ferry_plan.specs.Steps.{RefusesBy};
ghost use Rattle.ferry_plan.specs.Tally.{HeldContent, IsHeld, IsReady, Takes, TalliesOn};
ghost use Rattle.ferry_repo.specs.Archives.{HoldsContent, RefusesContent, RefusesJoined};
ghost use Rattle.ferry_repo.specs.Fault.{IsOfFiles, repo_failed};
ghost use Rattle.ferry_repo.specs.Opening.{FitsRepo, cached_in, repo_view};

use crate::fault::PlanFault;
use crate::parts::write_parts;
use crate::pieces::{Pieces, is_lacking};
use crate::tally::Tally;
use ferry_base::Id;
use ferry_disk::Shelf;
use ferry_item::{ChunkRef, ChunkRefs};
use ferry_repo::{Repo, RepoFault, Walk};
use std::collections::BTreeSet;

/// The most pieces that an item's content may have.
const MOST_PIECES: u128 = 4_294_967_295;

/// Counts the pieces of the content that an item with these chunks has, and answers the chunks that it would have.
pub(crate) fn take_chunks<S: Shelf>(
    walk: &Walk,
    source: &mut Repo,
    shelf: &mut S,
    target: &Repo,
    chunks: &Option<ChunkRefs>,
    tally: &mut Tally,
) -> Result<Option<ChunkRefs>, PlanFault>
    requires ready { IsReady tally.old }
    requires source_fits { IfSome (S.told shelf.old) (λ t. FitsRepo (told_files t) (repo_view source.old) (cached_in source.old)) }
    ensures taken { IfOk result (λ copied. (more : List Addition)
        × (TalliesOn (repo_view target.now).keys (repo_view target.now).log tally.old more tally.new
        × (AreOf Content more × CopiesContent (S.told shelf.old) (repo_view source.old) tally.old.block (repo_view target.now).keys chunks.now
        (contents_in more) copied))) }
    ensures short { OnOk result (IsTooLong tally.old.block chunks.now → ⊥) }
    ensures refused { IfErr result (RefusesBy (S.told shelf.old)
        (λ there fault. RefusesJoined there (repo_view source.old).log (repo_view source.old).keys chunks.now fault
        × (IsTooLong tally.old.block chunks.now → ⊥))
        (λ there. IsTooLong tally.old.block chunks.now)) }
    ensures ready { OnOk result (IsReady tally.new) }
    ensures stream { OnOk result (tally.new.stream ≡ tally.old.stream) }
    ensures block { OnOk result (tally.new.block ≡ tally.old.block) }
    ensures source_fits { IfSome (S.told shelf.new) (λ t. FitsRepo (told_files t) (repo_view source.new) (cached_in source.new)) }
    ensures kept { repo_view source.new ≡ repo_view source.old }
    ensures same { KeepsTold shelf_failed (S.told shelf.old) (S.told shelf.new) result }
    ensures cause { HasCause shelf_failed (S.faults shelf.old) (S.faults shelf.new) result }
    ensures still { IfErr result (λ fault. target_failed fault ≡ false) }
{
    match chunks {
        Some(chunks) => {
            let copied = take_content(walk, source, shelf, target, chunks.as_slice(), tally)?;
            Ok(Some(copied))
        }
        None => Ok(None),
    }
}

/// Counts the pieces of the content that these chunks are. One that was counted before, whose pieces the target has or would have by what
/// was counted, isn't read again, and adds nothing.
fn take_content<S: Shelf>(
    walk: &Walk,
    source: &mut Repo,
    shelf: &mut S,
    target: &Repo,
    chunks: &[ChunkRef],
    tally: &mut Tally,
) -> Result<ChunkRefs, PlanFault>
    requires ready { IsReady tally.old }
    requires source_fits { IfSome (S.told shelf.old) (λ t. FitsRepo (told_files t) (repo_view source.old) (cached_in source.old)) }
    ensures taken { IfOk result (λ copied. (more : List Addition)
        × (TalliesOn (repo_view target.now).keys (repo_view target.now).log tally.old more tally.new
        × (AreOf Content more × CopiesContent (S.told shelf.old) (repo_view source.old) tally.old.block (repo_view target.now).keys (Some chunks.now)
        (contents_in more) (Some copied)))) }
    ensures short { OnOk result (IsTooLong tally.old.block (Some chunks.now) → ⊥) }
    ensures refused { IfErr result (RefusesBy (S.told shelf.old)
        (λ there fault. RefusesJoined there (repo_view source.old).log (repo_view source.old).keys (Some chunks.now) fault
        × (IsTooLong tally.old.block (Some chunks.now) → ⊥))
        (λ there. IsTooLong tally.old.block (Some chunks.now))) }
    ensures ready { OnOk result (IsReady tally.new) }
    ensures stream { OnOk result (tally.new.stream ≡ tally.old.stream) }
    ensures block { OnOk result (tally.new.block ≡ tally.old.block) }
    ensures source_fits { IfSome (S.told shelf.new) (λ t. FitsRepo (told_files t) (repo_view source.new) (cached_in source.new)) }
    ensures kept { repo_view source.new ≡ repo_view source.old }
    ensures same { KeepsTold shelf_failed (S.told shelf.old) (S.told shelf.new) result }
    ensures cause { HasCause shelf_failed (S.faults shelf.old) (S.faults shelf.new) result }
    ensures still { IfErr result (λ fault. target_failed fault ≡ false) }
{
    if total_size(chunks) > MOST_PIECES * tally.block as u128 {
        return Err(PlanFault::Pieces);
    }
    if let Some(copied) = held_content(source, target, chunks, tally) {
        return Ok(copied);
    }
    match cut_content(walk, source, shelf, target, chunks, tally) {
        Ok(copied) => {
            source.note(target.keys(), tally.block, chunks, copied.as_slice());
            Ok(copied)
        }
        Err(fault) => Err(fault),
    }
}

/// The chunks that the target would have of a content of these chunks, where it was cut before and each of its pieces is held.
fn held_content(
    source: &Repo,
    target: &Repo,
    chunks: &[ChunkRef],
    tally: &Tally,
) -> Option<ChunkRefs>
    ensures held { IfSome result (λ copied. (told : Option Told)
        → IfSome told (λ t. FitsRepo (told_files t) (repo_view source.now) (cached_in source.now))
        → HeldContent told (repo_view source.now) (repo_view target.now) tally.now chunks.now copied) }
{
    let pieces = source.noted(target.keys(), tally.block, chunks)?;
    if pieces.len() > MOST_PIECES as usize || !are_held(&tally.known, target, pieces) {
        return None;
    }
    match Vec::from_slice(tally.alloc, pieces) {
        Ok(copied) => Some(ChunkRefs::new(copied)),
        Err(_) => None,
    }
}

/// Whether the target has each of these pieces, or would have it by what was counted.
pub(crate) fn are_held(known: &BTreeSet<Id>, target: &Repo, pieces: &[ChunkRef]) -> bool
    ensures held { IsTrue result → AllByRecursion (λ piece. IsHeld (repo_view target.now).log known.now piece.id) pieces.now }
{
    let mut rest = pieces;
    while let [piece, behind @ ..] = rest {
        if !is_held(known, target, &piece.id) {
            return false;
        }
        rest = behind;
    }
    true
}

/// Whether the target has a chunk of this id, or would have it by what was counted.
fn is_held(known: &BTreeSet<Id>, target: &Repo, id: &Id) -> bool
    ensures held { IsTrue result → IsHeld (repo_view target.now).log known.now id.now }
{
    if is_lacking(target, id) {
        return known.contains(id);
    }
    true
}

/// Reads the content that these chunks are, cuts it, and counts its pieces.
#[tactic(auto, using(crate::proofs::FaultLemmas::conversions))]
fn cut_content<S: Shelf>(
    walk: &Walk,
    source: &mut Repo,
    shelf: &mut S,
    target: &Repo,
    chunks: &[ChunkRef],
    tally: &mut Tally,
) -> Result<ChunkRefs, PlanFault>
    requires short { IsTooLong tally.old.block (Some chunks.now) → ⊥ }
    requires ready { IsReady tally.old }
    requires source_fits { IfSome (S.told shelf.old) (λ t. FitsRepo (told_files t) (repo_view source.old) (cached_in source.old)) }
    ensures taken { IfOk result (λ copied. (more : List Addition)
        × (TalliesOn (repo_view target.now).keys (repo_view target.now).log tally.old more tally.new
        × (AreOf Content more × CopiesContent (S.told shelf.old) (repo_view source.old) tally.old.block (repo_view target.now).keys (Some chunks.now)
        (contents_in more) (Some copied)))) }
    ensures short { OnOk result (IsTooLong tally.old.block (Some chunks.now) → ⊥) }
    ensures refused { IfErr result (RefusesBy (S.told shelf.old)
        (λ there fault. RefusesJoined there (repo_view source.old).log (repo_view source.old).keys (Some chunks.now) fault
        × (IsTooLong tally.old.block (Some chunks.now) → ⊥))
        (λ there. IsTooLong tally.old.block (Some chunks.now))) }
    ensures ready { OnOk result (IsReady tally.new) }
    ensures stream { OnOk result (tally.new.stream ≡ tally.old.stream) }
    ensures block { OnOk result (tally.new.block ≡ tally.old.block) }
    ensures source_fits { IfSome (S.told shelf.new) (λ t. FitsRepo (told_files t) (repo_view source.new) (cached_in source.new)) }
    ensures kept { repo_view source.new ≡ repo_view source.old }
    ensures same { KeepsTold shelf_failed (S.told shelf.old) (S.told shelf.new) result }
    ensures cause { HasCause shelf_failed (S.faults shelf.old) (S.faults shelf.new) result }
    ensures still { IfErr result (λ fault. target_failed fault ≡ false) }
{
    write_parts(
        &mut tally.contents,
        &mut tally.known,
        walk,
        source,
        shelf,
        target,
        chunks,
    )?;
    let copied = tally.contents.finish(&mut tally.known, target)?;
    if copied.len() > MOST_PIECES as usize {
        return Err(PlanFault::Memory);
    }
    Ok(ChunkRefs::new(copied))
}

/// Reads the contents of these chunks, and writes them into pieces, one after another.
pub(crate) fn write_contents<S: Shelf>(
    pieces: &mut Pieces,
    known: &mut BTreeSet<Id>,
    walk: &Walk,
    source: &mut Repo,
    shelf: &mut S,
    target: &Repo,
    chunks: &[ChunkRef],
) -> Result<(), RepoFault>
    requires most { pieces.old.cutter.block ≤ 8388608 }
    requires room { length pieces.old.cutter.piece < pieces.old.cutter.block }
    requires source_fits { IfSome (S.told shelf.old) (λ t. FitsRepo (told_files t) (repo_view source.old) (cached_in source.old)) }
    ensures written { OnOk result (TakesChunks (repo_view target.now) (S.told shelf.old) (repo_view source.old) chunks.now known.old pieces.old known.new
        pieces.new) }
    ensures refused { IfErr result (λ fault. IsOfFiles fault → IfSome (S.told shelf.old) (λ t.
        RefusesJoined (told_files t) (repo_view source.old).log (repo_view source.old).keys (Some chunks.now) fault)) }
    ensures source_fits { IfSome (S.told shelf.new) (λ t. FitsRepo (told_files t) (repo_view source.new) (cached_in source.new)) }
    ensures kept { repo_view source.new ≡ repo_view source.old }
    ensures same { KeepsTold repo_failed (S.told shelf.old) (S.told shelf.new) result }
    ensures cause { HasCause repo_failed (S.faults shelf.old) (S.faults shelf.new) result }
{
    for place in 0..chunks.len() {
        let later = &chunks[place..];
        write_content(
            pieces,
            known,
            walk,
            source,
            shelf,
            target,
            &chunks[place],
            later,
        )?;
    }
    Ok(())
}

/// Writes the content of one chunk, which is the first of `later`, into pieces. Where it isn't kept, those that follow are read with it.
fn write_content<S: Shelf>(
    pieces: &mut Pieces,
    known: &mut BTreeSet<Id>,
    walk: &Walk,
    source: &mut Repo,
    shelf: &mut S,
    target: &Repo,
    chunk: &ChunkRef,
    later: &[ChunkRef],
) -> Result<(), RepoFault>
    requires most { pieces.old.cutter.block ≤ 8388608 }
    requires room { length pieces.old.cutter.piece < pieces.old.cutter.block }
    requires source_fits { IfSome (S.told shelf.old) (λ t. FitsRepo (told_files t) (repo_view source.old) (cached_in source.old)) }
    ensures written { OnOk result ((more : List Addition)
        × (Takes Content (repo_view target.now).keys (repo_view target.now).log known.old pieces.old more known.new pieces.new
        × WritesContent (S.told shelf.old) (repo_view source.old) (repo_view target.now).keys chunk.now
        (writer_state pieces.old.cutter pieces.old.chunks.items) (contents_in more) (writer_state pieces.new.cutter pieces.new.chunks.items))) }
    ensures refused { IfErr result (λ fault. IsOfFiles fault → IfSome (S.told shelf.old) (λ t.
        RefusesContent (told_files t) (repo_view source.old).log (repo_view source.old).keys chunk.now fault)) }
    ensures source_fits { IfSome (S.told shelf.new) (λ t. FitsRepo (told_files t) (repo_view source.new) (cached_in source.new)) }
    ensures kept { repo_view source.new ≡ repo_view source.old }
    ensures same { KeepsTold repo_failed (S.told shelf.old) (S.told shelf.new) result }
    ensures cause { HasCause repo_failed (S.faults shelf.old) (S.faults shelf.new) result }
{
    let content = content_of(walk, source, shelf, chunk, later)?;
    pieces.write(known, target, &content)?;
    Ok(())
}

/// The content of a chunk of the source, which is the first of `later`.
pub(crate) fn content_of<S: Shelf>(
    walk: &Walk,
    source: &mut Repo,
    shelf: &mut S,
    chunk: &ChunkRef,
    later: &[ChunkRef],
) -> Result<Vec<u8>, RepoFault>
    requires fits { IfSome (S.told shelf.old) (λ t. FitsRepo (told_files t) (repo_view source.old) (cached_in source.old)) }
    ensures content { IfOk result (λ content. IfSome (S.told shelf.old) (λ t.
        HoldsContent (told_files t) (repo_view source.old).log (repo_view source.old).keys chunk.now content.items)) }
    ensures refused { IfErr result (λ fault. IsOfFiles fault → IfSome (S.told shelf.old) (λ t.
        RefusesContent (told_files t) (repo_view source.old).log (repo_view source.old).keys chunk.now fault)) }
    ensures fits { IfSome (S.told shelf.new) (λ t. FitsRepo (told_files t) (repo_view source.new) (cached_in source.new)) }
    ensures kept { repo_view source.new ≡ repo_view source.old }
    ensures same { KeepsTold repo_failed (S.told shelf.old) (S.told shelf.new) result }
    ensures cause { HasCause repo_failed (S.faults shelf.old) (S.faults shelf.new) result }
{
    walk.read_ahead(source, shelf, later)?;
    source.content(shelf, chunk)
}

/// The sum of the stated sizes of chunks.
fn total_size(chunks: &[ChunkRef]) -> u128
    ensures total { result ≡ min (total_size chunks.now) (2 ^ 128 - 1) }
{
    let mut total = 0u128;
    for place in 0..chunks.len() {
        total = total.saturating_add(u128::from(chunks[place].size));
    }
    total
}
