//! The content of an item, in parts: chunks that are read, and pieces that are held, of chunks that aren't.
ghost use Rattle.std.specs.Prelude.{◌≡◌, ◌≤◌, ◌<◌, ◌+◌, ◌-◌, Some, drop, length, IfErr, IfSome, IsTrue, OnOk};
ghost use Rattle.ferry_carry.specs.Parts.{HasShared};
ghost use Rattle.ferry_disk.specs.Device.{HasCause, KeepsTold, told_files};
ghost use Rattle.ferry_plan.specs.Parts.{TakesChunks};
ghost use Rattle.ferry_repo.specs.Archives.{RefusesJoined};
ghost use Rattle.ferry_repo.specs.Fault.{IsOfFiles, repo_failed};
ghost use Rattle.ferry_repo.specs.Opening.{FitsRepo, cached_in, repo_view};

use crate::contents::{are_held, content_of, write_contents};
use crate::pieces::Pieces;
use ferry_base::Id;
use ferry_disk::Shelf;
use ferry_item::ChunkRef;
use ferry_repo::{Repo, RepoFault, SharedPieces, Walk};
use std::collections::BTreeSet;

/// Writes the contents of these chunks, one after another, into pieces. Chunks all of whose pieces are held aren't read.
pub(crate) fn write_parts<S: Shelf>(
    pieces: &mut Pieces,
    known: &mut BTreeSet<Id>,
    walk: &Walk,
    source: &mut Repo,
    shelf: &mut S,
    target: &Repo,
    chunks: &[ChunkRef],
) -> Result<(), RepoFault>
    requires most { pieces.old.cutter.block ≤ 8388608 }
    requires room { length pieces.old.cutter.piece < pieces.old.cutter.block }
    requires source_fits { IfSome (S.told shelf.old) (λ t. FitsRepo (told_files t) (repo_view source.old) (cached_in source.old)) }
    ensures written { OnOk result (TakesChunks (repo_view target.now) (S.told shelf.old) (repo_view source.old) chunks.now known.old pieces.old known.new
        pieces.new) }
    ensures refused { IfErr result (λ fault. IsOfFiles fault → IfSome (S.told shelf.old) (λ t.
        RefusesJoined (told_files t) (repo_view source.old).log (repo_view source.old).keys (Some chunks.now) fault)) }
    ensures source_fits { IfSome (S.told shelf.new) (λ t. FitsRepo (told_files t) (repo_view source.new) (cached_in source.new)) }
    ensures kept { repo_view source.new ≡ repo_view source.old }
    ensures same { KeepsTold repo_failed (S.told shelf.old) (S.told shelf.new) result }
    ensures cause { HasCause repo_failed (S.faults shelf.old) (S.faults shelf.new) result }
{
    let parts = source.shared(target.keys(), pieces.cutter.block(), chunks);
    let mut done = 0;
    for number in 0..parts.len() {
        let shared = &parts[number];
        if !is_behind(shared, done, chunks.len()) {
            continue;
        }
        let part = &chunks[done..shared.end];
        write_part(pieces, known, walk, source, shelf, target, part, shared)?;
        done = shared.end;
    }
    write_contents(pieces, known, walk, source, shelf, target, &chunks[done..])
}

/// Writes the contents of these chunks, in the last of which pieces stand, into pieces.
fn write_part<S: Shelf>(
    pieces: &mut Pieces,
    known: &mut BTreeSet<Id>,
    walk: &Walk,
    source: &mut Repo,
    shelf: &mut S,
    target: &Repo,
    chunks: &[ChunkRef],
    shared: &SharedPieces,
) -> Result<(), RepoFault>
    requires most { pieces.old.cutter.block ≤ 8388608 }
    requires room { length pieces.old.cutter.piece < pieces.old.cutter.block }
    requires source_fits { IfSome (S.told shelf.old) (λ t. FitsRepo (told_files t) (repo_view source.old) (cached_in source.old)) }
    requires some { 1 + shared.now.place ≤ shared.now.end }
    requires within { shared.now.end - shared.now.place ≤ length chunks.now }
    requires shares { HasShared (S.told shelf.old) (repo_view source.old) (repo_view target.now).keys.id_key pieces.old.cutter.block
        (drop (length chunks.now - (shared.now.end - shared.now.place)) chunks.now) shared.now }
    ensures written { OnOk result (TakesChunks (repo_view target.now) (S.told shelf.old) (repo_view source.old) chunks.now known.old pieces.old known.new
        pieces.new) }
    ensures refused { IfErr result (λ fault. IsOfFiles fault → IfSome (S.told shelf.old) (λ t.
        RefusesJoined (told_files t) (repo_view source.old).log (repo_view source.old).keys (Some chunks.now) fault)) }
    ensures source_fits { IfSome (S.told shelf.new) (λ t. FitsRepo (told_files t) (repo_view source.new) (cached_in source.new)) }
    ensures kept { repo_view source.new ≡ repo_view source.old }
    ensures same { KeepsTold repo_failed (S.told shelf.old) (S.told shelf.new) result }
    ensures cause { HasCause repo_failed (S.faults shelf.old) (S.faults shelf.new) result }
{
    let at = chunks.len() - (shared.end - shared.place);
    write_contents(pieces, known, walk, source, shelf, target, &chunks[..at])?;
    write_shared(
        pieces,
        known,
        walk,
        source,
        shelf,
        target,
        &chunks[at..],
        shared,
    )
}

/// Writes the contents of these chunks, in which pieces stand, into pieces: where they are held, the first chunk and the last alone are read.
fn write_shared<S: Shelf>(
    pieces: &mut Pieces,
    known: &mut BTreeSet<Id>,
    walk: &Walk,
    source: &mut Repo,
    shelf: &mut S,
    target: &Repo,
    chunks: &[ChunkRef],
    shared: &SharedPieces,
) -> Result<(), RepoFault>
    requires most { pieces.old.cutter.block ≤ 8388608 }
    requires room { length pieces.old.cutter.piece < pieces.old.cutter.block }
    requires source_fits { IfSome (S.told shelf.old) (λ t. FitsRepo (told_files t) (repo_view source.old) (cached_in source.old)) }
    requires shares { HasShared (S.told shelf.old) (repo_view source.old) (repo_view target.now).keys.id_key pieces.old.cutter.block chunks.now shared.now }
    requires some { 1 ≤ length chunks.now }
    ensures written { OnOk result (TakesChunks (repo_view target.now) (S.told shelf.old) (repo_view source.old) chunks.now known.old pieces.old known.new
        pieces.new) }
    ensures refused { IfErr result (λ fault. IsOfFiles fault → IfSome (S.told shelf.old) (λ t.
        RefusesJoined (told_files t) (repo_view source.old).log (repo_view source.old).keys (Some chunks.now) fault)) }
    ensures source_fits { IfSome (S.told shelf.new) (λ t. FitsRepo (told_files t) (repo_view source.new) (cached_in source.new)) }
    ensures kept { repo_view source.new ≡ repo_view source.old }
    ensures same { KeepsTold repo_failed (S.told shelf.old) (S.told shelf.new) result }
    ensures cause { HasCause repo_failed (S.faults shelf.old) (S.faults shelf.new) result }
{
    let content = content_of(walk, source, shelf, &chunks[0], &chunks[..1])?;
    let end = chunks.len() - 1;
    let last = content_of(walk, source, shelf, &chunks[end], &chunks[end..])?;
    let behind = last.len().saturating_sub(shared.left);
    let skip = shared.skip.min(content.len());
    pieces.write(known, target, &content[..skip])?;
    if pieces.cutter.last().is_none() && are_held(known, target, shared.pieces.as_slice()) {
        pieces.pass(shared.pieces.as_slice())?;
        pieces.write(known, target, &last[behind..])?;
        return Ok(());
    }
    pieces.write(known, target, &content[skip..])?;
    write_contents(pieces, known, walk, source, shelf, target, &chunks[1..])
}

/// Whether pieces stand in chunks behind so many, of so many in all.
fn is_behind(shared: &SharedPieces, done: usize, count: usize) -> bool
    ensures { IsTrue result → (done ≤ shared.now.place) × ((1 + shared.now.place ≤ shared.now.end) × (shared.now.end ≤ count)) }
{
    done <= shared.place && shared.place < shared.end && shared.end <= count
}
