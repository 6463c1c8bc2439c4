//! An archive that the target lacks.
ghost use Rattle.std.specs.Prelude.{◌≡◌, [], List, false, IfErr, IfSome, IsSome, OnOk};
ghost use Rattle.ferry_carry.specs.Copied.{stream_block};
ghost use Rattle.ferry_carry.specs.Listing.{FillsOn};
ghost use Rattle.ferry_piece.specs.Puts.{Addition, ArePieces, Stream};
ghost use Rattle.ferry_carry.specs.Refusals.{IsTooLong};
ghost use Rattle.ferry_disk.specs.Device.{HasCause, KeepsTold, told_files};
ghost use Rattle.ferry_item.specs.Item.{item_view};
ghost use Rattle.ferry_item.specs.Writing.{IsPackable, item_text};
ghost use Rattle.ferry_plan.specs.Fault.{shelf_failed, target_failed};
ghost use Rattle.ferry_plan.specs.Plan.{PlansArchive};
ghost use Rattle.ferry_plan.specs.Steps.{ReachesLong, RefusesBy, RefusesFirst, RefusesShort, StopsLong, StopsStream, TakesAll, TakesItem};
ghost use Rattle.ferry_plan.specs.Tally.{IsReady, TalliesOn};
ghost use Rattle.ferry_rechunk.specs.Cut.{cut};
ghost use Rattle.ferry_repo.specs.Archives.{archive_named};
ghost use Rattle.ferry_repo.specs.Opening.{FitsRepo, cached_in, repo_view};
ghost use Rattle.ferry_repo.specs.Walk.{FitsWalk, walk_view};

use crate::contents::take_chunks;
use crate::fault::PlanFault;
use crate::tally::Tally;
use ferry_disk::Shelf;
use ferry_item::{Item, write_item};
use ferry_repo::{Repo, RepoFault, Walk};
use std::alloc::AllocError;

/// Counts the pieces of the contents and of the stream that the archive of a name would have.
#[tactic(auto, using(crate::proofs::FaultLemmas::conversions))]
pub(crate) fn take_archive<S: Shelf>(
    source: &mut Repo,
    shelf: &mut S,
    target: &Repo,
    name: &[u8],
    tally: &mut Tally,
) -> Result<(), PlanFault>
    requires ready { IsReady tally.old }
    requires begun { tally.old.stream.cutter.piece ≡ [] }
    requires source_fits { IfSome (S.told shelf.old) (λ t. FitsRepo (told_files t) (repo_view source.old) (cached_in source.old)) }
    requires named { IsSome (archive_named name.now (repo_view source.old).manifest.archives) }
    ensures taken { OnOk result ((more : List Addition)
        × (TalliesOn (repo_view target.now).keys (repo_view target.now).log tally.old more tally.new × IfSome (S.told shelf.old) (λ t.
        PlansArchive (told_files t) (repo_view source.old) tally.old.block (repo_view target.now).keys name.now more))) }
    ensures refused { IfErr result (RefusesBy (S.told shelf.old) (RefusesFirst (repo_view source.old) tally.old.block name.now)
        (ReachesLong (repo_view source.old) tally.old.block name.now)) }
    ensures ready { OnOk result (IsReady tally.new) }
    ensures begun { OnOk result (tally.new.stream.cutter.piece ≡ []) }
    ensures block { OnOk result (tally.new.block ≡ tally.old.block) }
    ensures source_fits { IfSome (S.told shelf.new) (λ t. FitsRepo (told_files t) (repo_view source.new) (cached_in source.new)) }
    ensures kept { repo_view source.new ≡ repo_view source.old }
    ensures same { KeepsTold shelf_failed (S.told shelf.old) (S.told shelf.new) result }
    ensures cause { HasCause shelf_failed (S.faults shelf.old) (S.faults shelf.new) result }
    ensures still { IfErr result (λ fault. target_failed fault ≡ false) }
{
    let Some(id) = source.record_id(name) else {
        unreachable!()
    };
    let Some(archive) = source.archive(shelf, name)? else {
        return Err(PlanFault::Source(RepoFault::Missing(id)));
    };
    let mut walk = source.walk(&id, &archive)?;
    take_items(source, shelf, target, &mut walk, tally)?;
    end_stream(target, tally)?;
    Ok(())
}

/// Counts the last piece of a stream.
fn end_stream(target: &Repo, tally: &mut Tally) -> Result<(), AllocError>
    requires ready { IsReady tally.old }
    ensures taken { OnOk result ((more : List Addition)
        × (TalliesOn (repo_view target.now).keys (repo_view target.now).log tally.old more tally.new
        × ArePieces Stream (cut stream_block tally.old.stream.cutter.piece) more)) }
    ensures ready { OnOk result (IsReady tally.new) }
    ensures begun { OnOk result (tally.new.stream.cutter.piece ≡ []) }
    ensures block { OnOk result (tally.new.block ≡ tally.old.block) }
{
    tally.stream.finish(&mut tally.known, target)?;
    Ok(())
}

/// Counts the pieces of the items that are to come, to the end of their stream.
#[tactic(auto, using(crate::proofs::FaultLemmas::conversions))]
fn take_items<S: Shelf>(
    source: &mut Repo,
    shelf: &mut S,
    target: &Repo,
    walk: &mut Walk,
    tally: &mut Tally,
) -> Result<(), PlanFault>
    requires ready { IsReady tally.old }
    requires source_fits { IfSome (S.told shelf.old) (λ t. FitsRepo (told_files t) (repo_view source.old) (cached_in source.old)) }
    requires walk_fits { IfSome (S.told shelf.old) (λ t.
        FitsWalk (told_files t) (repo_view source.old).log (repo_view source.old).keys (walk_view walk.old)) }
    ensures taken { OnOk result ((more : List Addition)
        × (TalliesOn (repo_view target.now).keys (repo_view target.now).log tally.old more tally.new × IfSome (S.told shelf.old) (λ t.
        TakesAll (told_files t) (repo_view source.old) (repo_view target.now).keys tally.old.block (walk_view walk.old) tally.old.stream.cutter.piece more
        tally.new.stream.cutter.piece))) }
    ensures refused { IfErr result (RefusesBy (S.told shelf.old)
        (λ there fault. StopsStream there (repo_view source.old) tally.old.block (walk_view walk.old) fault)
        (λ there. StopsLong there (repo_view source.old) tally.old.block (walk_view walk.old))) }
    ensures ready { OnOk result (IsReady tally.new) }
    ensures block { OnOk result (tally.new.block ≡ tally.old.block) }
    ensures source_fits { IfSome (S.told shelf.new) (λ t. FitsRepo (told_files t) (repo_view source.new) (cached_in source.new)) }
    ensures kept { repo_view source.new ≡ repo_view source.old }
    ensures same { KeepsTold shelf_failed (S.told shelf.old) (S.told shelf.new) result }
    ensures cause { HasCause shelf_failed (S.faults shelf.old) (S.faults shelf.new) result }
    ensures still { IfErr result (λ fault. target_failed fault ≡ false) }
{
    for _ in 0..u64::MAX {
        match walk.step(source, shelf)? {
            Some(item) => take_item(walk, source, shelf, target, item, tally)?,
            None => return Ok(()),
        }
    }
    Err(PlanFault::Memory)
}

/// Counts the pieces of the content of an item, and those of the stream that its spelling completes.
#[tactic(auto, using(crate::proofs::FaultLemmas::conversions))]
fn take_item<S: Shelf>(
    walk: &Walk,
    source: &mut Repo,
    shelf: &mut S,
    target: &Repo,
    item: Item,
    tally: &mut Tally,
) -> Result<(), PlanFault>
    requires ready { IsReady tally.old }
    requires packable { IsPackable (item_view item) }
    requires source_fits { IfSome (S.told shelf.old) (λ t. FitsRepo (told_files t) (repo_view source.old) (cached_in source.old)) }
    ensures taken { OnOk result ((more : List Addition)
        × (TalliesOn (repo_view target.now).keys (repo_view target.now).log tally.old more tally.new × IfSome (S.told shelf.old) (λ t.
        TakesItem (told_files t) (repo_view source.old) (repo_view target.now).keys tally.old.block (item_view item) tally.old.stream.cutter.piece more
        tally.new.stream.cutter.piece))) }
    ensures refused { IfErr result (RefusesBy (S.told shelf.old)
        (λ there fault. RefusesShort there (repo_view source.old) tally.old.block (item_view item) fault)
        (λ there. IsTooLong tally.old.block (item_view item).chunks)) }
    ensures ready { OnOk result (IsReady tally.new) }
    ensures block { OnOk result (tally.new.block ≡ tally.old.block) }
    ensures source_fits { IfSome (S.told shelf.new) (λ t. FitsRepo (told_files t) (repo_view source.new) (cached_in source.new)) }
    ensures kept { repo_view source.new ≡ repo_view source.old }
    ensures same { KeepsTold shelf_failed (S.told shelf.old) (S.told shelf.new) result }
    ensures cause { HasCause shelf_failed (S.faults shelf.old) (S.faults shelf.new) result }
    ensures still { IfErr result (λ fault. target_failed fault ≡ false) }
{
    let Item { fields, chunks } = item;
    let copied = take_chunks(walk, source, shelf, target, &chunks, tally)?;
    let item = Item {
        fields,
        chunks: copied,
    };
    take_spelling(target, &item, tally)?;
    Ok(())
}

/// Counts the pieces of a stream that the spelling of an item completes.
fn take_spelling(target: &Repo, item: &Item, tally: &mut Tally) -> Result<(), AllocError>
    requires ready { IsReady tally.old }
    requires packable { IsPackable (item_view item.now) }
    ensures taken { OnOk result ((more : List Addition)
        × (TalliesOn (repo_view target.now).keys (repo_view target.now).log tally.old more tally.new
        × FillsOn tally.old.stream.cutter.piece (item_text (item_view item.now)) more tally.new.stream.cutter.piece)) }
    ensures ready { OnOk result (IsReady tally.new) }
    ensures block { OnOk result (tally.new.block ≡ tally.old.block) }
{
    let mut spelling = Vec::new(tally.alloc);
    write_item(item, &mut spelling)?;
    tally.stream.write(&mut tally.known, target, &spelling)
}
