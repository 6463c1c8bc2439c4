//! The contents of an archive of the source, which are added to a store.
ghost use Rattle.std.specs.Prelude.{◌≡◌, ◌≤◌, ◌<◌, ◌++◌, [], Some, false, length, IfErr, IfOk, IfSome, OnOk};
ghost use Rattle.std.specs.List.{AllByRecursion};
ghost use Rattle.ferry_base.specs.Limits.{content_limit};
ghost use Rattle.ferry_carry.specs.Copied.{IsRead, contents_of, copied_item, copied_stream, stream_block};
ghost use Rattle.ferry_disk.specs.Device.{HasCause};
ghost use Rattle.ferry_item.specs.Writing.{item_text};
ghost use Rattle.ferry_piece.specs.Fault.{target_failed};
ghost use Rattle.ferry_piece.specs.Gather.{KeepsRest, chunks_of};
ghost use Rattle.ferry_rechunk.specs.Cut.{cut};
ghost use Rattle.ferry_repo.specs.Opening.{repo_view};
ghost use Rattle.ferry_store.specs.Store.{IsUnspent, StoreFits};
ghost use Rattle.ferry_gen.specs.Archives.{drill_item, drill_items};
ghost use Rattle.ferry_gen.specs.Content.{file_content};
ghost use Rattle.ferry_gen.specs.Fields.{item_fields};
ghost use Rattle.ferry_gen.specs.Source.{source_block};
ghost use Rattle.ferry_gen.specs.Steps.{IsWritten, Puts, PutsArchive, PutsRecord, most_pending};
ghost use Rattle.ferry_msgpack.specs.View.{value_view};

use crate::content::file_content;
use crate::fields::{item_fields, new_record};
use ferry_base::Id;
use ferry_carry::copied_archive;
use ferry_disk::{Depot, Entropy};
use ferry_item::{ChunkRef, ChunkRefs, Item, write_item};
use ferry_msgpack::Value;
use ferry_piece::{CarryFault, PieceWriter};
use ferry_store::Store;
use std::alloc::Global;

/// The length of the pieces into which the files of the source are cut.
const BLOCK: usize = 1024;

/// The length of the pieces of an item stream.
const STREAM_BLOCK: usize = 131_072;

/// How many pieces may be put before a commit.
const MOST_PENDING: u64 = 1_000_000;

/// The most pieces that an item's content may have.
const MOST_PIECES: usize = 4_294_967_295;

/// The number of files of an archive.
const FILES: u32 = 8;

/// Takes all bytes into a writer that has none, and adds each piece that becomes whole.
fn write_pieces<D: Depot>(
    writer: &mut PieceWriter,
    store: &mut Store,
    depot: &mut D,
    bytes: &[u8],
) -> Result<(), CarryFault>
    requires least { 1 ≤ writer.old.cutter.block }
    requires most { writer.old.cutter.block ≤ 8388608 }
    requires empty { writer.old.cutter.piece ≡ [] }
    requires none { writer.old.chunks.items ≡ [] }
    requires checkpoint { writer.old.checkpoint ≡ most_pending }
    requires pending { store.old.pending ≤ most_pending }
    requires unspent { IsUnspent store.old }
    requires fits { IfSome (D.told depot.old) (λ t. StoreFits false store.old t.history) }
    ensures written { OnOk result (IsWritten (repo_view store.old.repo).keys writer.old.cutter.block bytes.now store.old store.new
        (D.told depot.old) (D.told depot.new) writer.new) }
    ensures checkpoint { OnOk result (writer.new.checkpoint ≡ most_pending) }
    ensures pending { OnOk result (store.new.pending ≤ most_pending) }
    ensures rest { OnOk result (KeepsRest store.old store.new) }
    ensures fits { OnOk result (IfSome (D.told depot.new) (λ t. StoreFits false store.new t.history)) }
    ensures unspent { OnOk result (IsUnspent store.new) }
    ensures cause { HasCause target_failed (D.faults depot.old) (D.faults depot.new) result }
{
    writer.write(store, depot, bytes)
}

/// Adds what a writer has in hand, and answers the chunks of all pieces.
fn finish_pieces<D: Depot>(
    writer: &mut PieceWriter,
    store: &mut Store,
    depot: &mut D,
) -> Result<Vec<ChunkRef>, CarryFault>
    requires least { 1 ≤ writer.old.cutter.block }
    requires most { writer.old.cutter.block ≤ 8388608 }
    requires within { length writer.old.cutter.piece ≤ writer.old.cutter.block }
    requires checkpoint { writer.old.checkpoint ≡ most_pending }
    requires pending { store.old.pending ≤ most_pending }
    requires unspent { IsUnspent store.old }
    requires fits { IfSome (D.told depot.old) (λ t. StoreFits false store.old t.history) }
    ensures puts { OnOk result (Puts (cut writer.old.cutter.block writer.old.cutter.piece) store.old store.new (D.told depot.old) (D.told depot.new)) }
    ensures chunks { IfOk result (λ chunks. chunks.items ≡ writer.old.chunks.items
        ++ chunks_of (repo_view store.old.repo).keys (cut writer.old.cutter.block writer.old.cutter.piece)) }
    ensures pending { OnOk result (store.new.pending ≤ most_pending) }
    ensures rest { OnOk result (KeepsRest store.old store.new) }
    ensures fits { OnOk result (IfSome (D.told depot.new) (λ t. StoreFits false store.new t.history)) }
    ensures unspent { OnOk result (IsUnspent store.new) }
    ensures cause { HasCause target_failed (D.faults depot.old) (D.faults depot.new) result }
{
    writer.finish(store, depot)
}

/// Adds a content in pieces, and answers its chunks.
#[tactic(auto, using(ferry_piece::proofs::FaultLemmas::conversions))]
fn put_content<D: Depot>(
    alloc: Global,
    store: &mut Store,
    depot: &mut D,
    content: &[u8],
) -> Result<ChunkRefs, CarryFault>
    requires pending { store.old.pending ≤ most_pending }
    requires unspent { IsUnspent store.old }
    requires fits { IfSome (D.told depot.old) (λ t. StoreFits false store.old t.history) }
    ensures puts { OnOk result (Puts (cut source_block content.now) store.old store.new (D.told depot.old) (D.told depot.new)) }
    ensures chunks { IfOk result (λ chunks. chunks ≡ chunks_of (repo_view store.old.repo).keys (cut source_block content.now)) }
    ensures few { IfOk result (λ chunks. length chunks ≤ 4294967295) }
    ensures pending { OnOk result (store.new.pending ≤ most_pending) }
    ensures rest { OnOk result (KeepsRest store.old store.new) }
    ensures fits { OnOk result (IfSome (D.told depot.new) (λ t. StoreFits false store.new t.history)) }
    ensures unspent { OnOk result (IsUnspent store.new) }
    ensures cause { HasCause target_failed (D.faults depot.old) (D.faults depot.new) result }
{
    let mut writer = PieceWriter::new(alloc, BLOCK, MOST_PENDING)?;
    write_pieces(&mut writer, store, depot, content)?;
    let chunks = finish_pieces(&mut writer, store, depot)?;
    if chunks.len() > MOST_PIECES {
        return Err(CarryFault::Memory);
    }
    Ok(ChunkRefs::new(chunks))
}

/// Adds the content of a file, and answers its chunks.
#[tactic(auto, using(ferry_piece::proofs::FaultLemmas::conversions))]
fn put_file<D: Depot>(
    alloc: Global,
    store: &mut Store,
    depot: &mut D,
    archive: u32,
    file: u32,
) -> Result<ChunkRefs, CarryFault>
    requires archive { archive < 64 }
    requires file { file < 8 }
    requires pending { store.old.pending ≤ most_pending }
    requires unspent { IsUnspent store.old }
    requires fits { IfSome (D.told depot.old) (λ t. StoreFits false store.old t.history) }
    ensures puts { OnOk result (Puts (cut source_block (file_content archive file)) store.old store.new (D.told depot.old) (D.told depot.new)) }
    ensures chunks { IfOk result (λ chunks. chunks ≡ chunks_of (repo_view store.old.repo).keys (cut source_block (file_content archive file))) }
    ensures few { IfOk result (λ chunks. length chunks ≤ 4294967295) }
    ensures pending { OnOk result (store.new.pending ≤ most_pending) }
    ensures rest { OnOk result (KeepsRest store.old store.new) }
    ensures fits { OnOk result (IfSome (D.told depot.new) (λ t. StoreFits false store.new t.history)) }
    ensures unspent { OnOk result (IsUnspent store.new) }
    ensures cause { HasCause target_failed (D.faults depot.old) (D.faults depot.new) result }
{
    let content = file_content(alloc, archive, file)?;
    put_content(alloc, store, depot, &content)
}

/// Writes an item of these fields and chunks behind a stream.
#[tactic(auto, using(ferry_piece::proofs::FaultLemmas::conversions))]
fn spell_item(
    fields: Value,
    chunks: ChunkRefs,
    file: u32,
    stream: &mut Vec<u8>,
) -> Result<(), CarryFault>
    requires file { file < 8 }
    requires fields { value_view fields ≡ item_fields file }
    requires sizes { AllByRecursion (λ chunk. chunk.size ≤ content_limit) chunks }
    requires few { length chunks ≤ 4294967295 }
    ensures spelled { OnOk result (stream.new.items ≡ stream.old.items ++ item_text (record { fields = item_fields file; chunks = Some chunks })) }
    ensures read { OnOk result (IsRead (record { fields = item_fields file; chunks = Some chunks })) }
    ensures still { IfErr result (λ fault. target_failed fault ≡ false) }
{
    let item = Item {
        fields,
        chunks: Some(chunks),
    };
    write_item(&item, stream)?;
    Ok(())
}

/// Adds the content of a file, and writes its item behind a stream.
#[tactic(auto, using(ferry_piece::proofs::FaultLemmas::conversions))]
fn put_item<D: Depot>(
    alloc: Global,
    store: &mut Store,
    depot: &mut D,
    archive: u32,
    file: u32,
    stream: &mut Vec<u8>,
) -> Result<(), CarryFault>
    requires archive { archive < 64 }
    requires file { file < 8 }
    requires pending { store.old.pending ≤ most_pending }
    requires unspent { IsUnspent store.old }
    requires fits { IfSome (D.told depot.old) (λ t. StoreFits false store.old t.history) }
    ensures puts { OnOk result (Puts (cut source_block (file_content archive file)) store.old store.new (D.told depot.old) (D.told depot.new)) }
    ensures spelled { OnOk result (stream.new.items ≡ stream.old.items
        ++ item_text (copied_item (repo_view store.old.repo).keys source_block (drill_item archive file))) }
    ensures read { OnOk result (IsRead (copied_item (repo_view store.old.repo).keys source_block (drill_item archive file))) }
    ensures pending { OnOk result (store.new.pending ≤ most_pending) }
    ensures rest { OnOk result (KeepsRest store.old store.new) }
    ensures fits { OnOk result (IfSome (D.told depot.new) (λ t. StoreFits false store.new t.history)) }
    ensures unspent { OnOk result (IsUnspent store.new) }
    ensures cause { HasCause target_failed (D.faults depot.old) (D.faults depot.new) result }
{
    let fields = item_fields(alloc, file)?;
    match put_file(alloc, store, depot, archive, file) {
        Ok(chunks) => spell_item(fields, chunks, file, stream),
        Err(fault) => {
            drop(fields);
            Err(fault)
        }
    }
}

/// Adds the contents of the files of an archive, and answers the stream of its items.
#[tactic(auto, using(ferry_piece::proofs::FaultLemmas::conversions))]
fn put_items<D: Depot>(
    alloc: Global,
    store: &mut Store,
    depot: &mut D,
    archive: u32,
) -> Result<Vec<u8>, CarryFault>
    requires archive { archive < 64 }
    requires pending { store.old.pending ≤ most_pending }
    requires unspent { IsUnspent store.old }
    requires fits { IfSome (D.told depot.old) (λ t. StoreFits false store.old t.history) }
    ensures puts { OnOk result (Puts (contents_of source_block (drill_items archive)) store.old store.new (D.told depot.old) (D.told depot.new)) }
    ensures spelled { IfOk result (λ stream. stream.items ≡ copied_stream (repo_view store.old.repo).keys source_block (drill_items archive)) }
    ensures read { OnOk result (AllByRecursion (λ whole. IsRead (copied_item (repo_view store.old.repo).keys source_block whole)) (drill_items archive)) }
    ensures pending { OnOk result (store.new.pending ≤ most_pending) }
    ensures rest { OnOk result (KeepsRest store.old store.new) }
    ensures fits { OnOk result (IfSome (D.told depot.new) (λ t. StoreFits false store.new t.history)) }
    ensures unspent { OnOk result (IsUnspent store.new) }
    ensures cause { HasCause target_failed (D.faults depot.old) (D.faults depot.new) result }
{
    let mut stream = Vec::new(alloc);
    for file in 0..FILES {
        put_item(alloc, store, depot, archive, file, &mut stream)?;
    }
    Ok(stream)
}

/// Adds the rest of an archive's stream and its record, and answers the record's id.
#[tactic(auto, using(ferry_piece::proofs::FaultLemmas::conversions))]
fn put_record<D: Depot, E: Entropy>(
    alloc: Global,
    store: &mut Store,
    depot: &mut D,
    entropy: &mut E,
    archive: u32,
    stream: &mut PieceWriter,
) -> Result<Id, CarryFault>
    requires least { 1 ≤ stream.old.cutter.block }
    requires most { stream.old.cutter.block ≤ 8388608 }
    requires within { length stream.old.cutter.piece ≤ stream.old.cutter.block }
    requires checkpoint { stream.old.checkpoint ≡ most_pending }
    requires pending { store.old.pending ≤ most_pending }
    requires unspent { IsUnspent store.old }
    requires fits { IfSome (D.told depot.old) (λ t. StoreFits false store.old t.history) }
    ensures puts { IfOk result (PutsRecord archive (repo_view store.old.repo).keys (stream.old.chunks.items
        ++ chunks_of (repo_view store.old.repo).keys (cut stream.old.cutter.block stream.old.cutter.piece))
        (cut stream.old.cutter.block stream.old.cutter.piece) store.old store.new (D.told depot.old) (D.told depot.new)) }
    ensures rest { OnOk result (KeepsRest store.old store.new) }
    ensures fits { OnOk result (IfSome (D.told depot.new) (λ t. StoreFits false store.new t.history)) }
    ensures unspent { OnOk result (IsUnspent store.new) }
    ensures cause { HasCause target_failed (D.faults depot.old) (D.faults depot.new) result }
{
    let mut made = new_record(alloc, archive)?;
    let pieces = finish_pieces(stream, store, depot)?;
    copied_archive(alloc, &mut made, BLOCK, &pieces)?;
    ferry_carry::put_record(alloc, store, depot, entropy, &made)
}

/// Adds the stream of an archive and its record, and answers the record's id.
#[tactic(auto, using(ferry_piece::proofs::FaultLemmas::conversions))]
fn put_stream<D: Depot, E: Entropy>(
    alloc: Global,
    store: &mut Store,
    depot: &mut D,
    entropy: &mut E,
    archive: u32,
    stream: &[u8],
) -> Result<Id, CarryFault>
    requires pending { store.old.pending ≤ most_pending }
    requires unspent { IsUnspent store.old }
    requires fits { IfSome (D.told depot.old) (λ t. StoreFits false store.old t.history) }
    ensures puts { IfOk result (PutsRecord archive (repo_view store.old.repo).keys (chunks_of (repo_view store.old.repo).keys (cut stream_block stream.now))
        (cut stream_block stream.now) store.old store.new (D.told depot.old) (D.told depot.new)) }
    ensures rest { OnOk result (KeepsRest store.old store.new) }
    ensures fits { OnOk result (IfSome (D.told depot.new) (λ t. StoreFits false store.new t.history)) }
    ensures unspent { OnOk result (IsUnspent store.new) }
    ensures cause { HasCause target_failed (D.faults depot.old) (D.faults depot.new) result }
{
    let mut writer = PieceWriter::new(alloc, STREAM_BLOCK, MOST_PENDING)?;
    write_pieces(&mut writer, store, depot, stream)?;
    put_record(alloc, store, depot, entropy, archive, &mut writer)
}

/// Adds all contents of an archive, and answers the id of its record.
#[tactic(auto, using(ferry_piece::proofs::FaultLemmas::conversions))]
pub(crate) fn put_archive<D: Depot, E: Entropy>(
    alloc: Global,
    store: &mut Store,
    depot: &mut D,
    entropy: &mut E,
    archive: u32,
) -> Result<Id, CarryFault>
    requires archive { archive < 64 }
    requires pending { store.old.pending ≤ most_pending }
    requires unspent { IsUnspent store.old }
    requires fits { IfSome (D.told depot.old) (λ t. StoreFits false store.old t.history) }
    ensures puts { IfOk result (PutsArchive archive (repo_view store.old.repo).keys store.old store.new (D.told depot.old) (D.told depot.new)) }
    ensures rest { OnOk result (KeepsRest store.old store.new) }
    ensures fits { OnOk result (IfSome (D.told depot.new) (λ t. StoreFits false store.new t.history)) }
    ensures unspent { OnOk result (IsUnspent store.new) }
    ensures cause { HasCause target_failed (D.faults depot.old) (D.faults depot.new) result }
{
    let stream = put_items(alloc, store, depot, archive)?;
    put_stream(alloc, store, depot, entropy, archive, &stream)
}
