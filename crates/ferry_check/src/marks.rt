//! The chunks that archives use.
ghost use Rattle.std.specs.Prelude.{◌≡◌, ◌∷◌, [], length, IfErr, OnOk};
ghost use Rattle.std.specs.BTreeMap.{get};
ghost use Rattle.ferry_item.specs.Item.{item_view};
ghost use Rattle.ferry_log.specs.Live.{key_cmp};
ghost use Rattle.ferry_check.specs.Report.{ids_in, ids_of};
ghost use Rattle.ferry_check.specs.Steps.{Marks, IsRight, AreRight, RefusesUse, RefusesUses, chunks_of, is_used, unused};

use crate::chunks::Chunk;
use ferry_base::Id;
use ferry_item::{ChunkRef, Item};
use ferry_repo::RepoFault;
use std::collections::BTreeMap;

/// Marks the chunk of an id, where it is known.
pub(crate) fn mark(id: &Id, chunks: &mut BTreeMap<Id, Chunk>)
    ensures marks { Marks (id.now ∷ []) (get key_cmp chunks.old) (get key_cmp chunks.new) }
{
    match chunks.get_mut(id) {
        Some(chunk) => chunk.used = true,
        None => {}
    }
}

/// Marks the chunks of some ids, where they are known.
pub(crate) fn mark_all(ids: &[Id], chunks: &mut BTreeMap<Id, Chunk>)
    ensures marks { Marks ids.now (get key_cmp chunks.old) (get key_cmp chunks.new) }
{
    for place in 0..ids.len() {
        mark(&ids[place], chunks);
    }
}

/// Uses the chunks of an item, where it has content.
pub(crate) fn use_item(item: &Item, chunks: &mut BTreeMap<Id, Chunk>) -> Result<(), RepoFault>
    ensures right { OnOk result (AreRight (get key_cmp chunks.old) (chunks_of (item_view item.now))) }
    ensures marks { OnOk result (Marks (ids_of (item_view item.now)) (get key_cmp chunks.old) (get key_cmp chunks.new)) }
    ensures refused { IfErr result (λ fault. RefusesUses (get key_cmp chunks.old) (chunks_of (item_view item.now)) fault) }
{
    match &item.chunks {
        Some(refs) => use_chunks(refs.as_slice(), chunks),
        None => Ok(()),
    }
}

/// Uses the chunks of an item, one after another.
fn use_chunks(refs: &[ChunkRef], chunks: &mut BTreeMap<Id, Chunk>) -> Result<(), RepoFault>
    ensures right { OnOk result (AreRight (get key_cmp chunks.old) refs.now) }
    ensures marks { OnOk result (Marks (ids_in refs.now) (get key_cmp chunks.old) (get key_cmp chunks.new)) }
    ensures refused { IfErr result (λ fault. RefusesUses (get key_cmp chunks.old) refs.now fault) }
{
    for place in 0..refs.len() {
        match use_chunk(&refs[place], chunks) {
            Ok(()) => {}
            Err(fault) => return Err(fault),
        }
    }
    Ok(())
}

/// Marks a chunk of an item. It has to be known, with the length that the item states.
fn use_chunk(chunk: &ChunkRef, chunks: &mut BTreeMap<Id, Chunk>) -> Result<(), RepoFault>
    ensures right { OnOk result (IsRight (get key_cmp chunks.old) chunk.now) }
    ensures marks { OnOk result (Marks (chunk.now.id ∷ []) (get key_cmp chunks.old) (get key_cmp chunks.new)) }
    ensures refused { IfErr result (λ fault. RefusesUse (get key_cmp chunks.old) chunk.now fault) }
{
    let Some(found) = known(&chunk.id, chunks) else {
        return Err(RepoFault::Missing(chunk.id));
    };
    if found.size != chunk.size {
        return Err(RepoFault::Size(chunk.id));
    }
    mark(&chunk.id, chunks);
    Ok(())
}

/// What is known of an id.
fn known(id: &Id, chunks: &BTreeMap<Id, Chunk>) -> Option<Chunk>
    ensures { result ≡ get key_cmp chunks.now id.now }
{
    chunks.get(id).copied()
}

/// How many of these chunks aren't marked.
pub(crate) fn count_unused(ids: &[Id], chunks: &BTreeMap<Id, Chunk>) -> u64
    ensures count { result ≡ length (unused (get key_cmp chunks.now) ids.now) }
{
    let mut count = 0u64;
    for place in 0..ids.len() {
        if !is_used(&ids[place], chunks) {
            count += 1;
        }
    }
    count
}

/// Whether a chunk is known and marked.
fn is_used(id: &Id, chunks: &BTreeMap<Id, Chunk>) -> bool
    ensures { result ≡ is_used (get key_cmp chunks.now id.now) }
{
    match known(id, chunks) {
        Some(chunk) => chunk.used,
        None => false,
    }
}
