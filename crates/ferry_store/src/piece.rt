//! Contents that are prepared in buffers: named, and sealed, before each is added.
ghost use Rattle.std.specs.Prelude.{◌≡◌, ◌⊎◌, ◌<◌, ◌≤◌, ◌+◌, ◌-◌, ◌^◌, ℕ, List, drop, length, IfSome};
ghost use Rattle.ferry_base.specs.Limits.{blob_limit, zero_id};
ghost use Rattle.ferry_blob.specs.Batch.{bytes_at, id_at};
ghost use Rattle.ferry_blob.specs.Blob.{OpensTo, blocks, content_id, nonce_of, sealed};
ghost use Rattle.ferry_store.specs.Piece.{HasSize, IsReady, content_in};

use crate::put::HEAD;
use ferry_base::{Id, ZERO_ID};
use ferry_blob::{Mode, blocks_of, ids_many, open_blob, seal};
use ferry_mac::Keys;

/// The bytes of the buffer in a place, of which there are none behind the last buffer.
pub(crate) fn bytes_at(buffers: &[Vec<u8>], place: usize) -> &[u8]
    ensures bytes { result.now ≡ bytes_at buffers.now place }
{
    match buffers.get(place) {
        Some(buffer) => buffer.as_slice(),
        None => &[],
    }
}

/// The content in a place, behind byte 43 of its buffer.
fn content_at(buffers: &[Vec<u8>], place: usize) -> &[u8]
    requires size { HasSize (bytes_at buffers.now place) }
    ensures content { result.now ≡ drop 43 (bytes_at buffers.now place) }
{
    &bytes_at(buffers, place)[HEAD..]
}

/// The ids of up to 64 contents.
pub(crate) fn name_each(keys: &Keys, buffers: &[Vec<u8>], ids: &mut [Id])
    requires places { length buffers.now ≤ 64 }
    requires ids { length ids.old ≡ length buffers.now }
    requires sizes { (k : ℕ) → k < length buffers.now → HasSize (bytes_at buffers.now k) }
    ensures ids { (k : ℕ) → k < length buffers.now → id_at ids.new k ≡ content_id keys.now (drop 43 (bytes_at buffers.now k)) }
{
    let mut contents: [&[u8]; 64] = [&[]; 64];
    for place in 0..buffers.len() {
        contents[place] = content_at(buffers, place);
    }
    ids_many(keys, &contents[..buffers.len()], ids);
}

/// The number behind the counter blocks that the content of a buffer takes from this one on, where there are so many.
pub(crate) fn behind_blocks(first: u64, buffer: &[u8]) -> Option<u64>
    requires size { HasSize buffer.now }
    ensures blocks { IfSome result (λ behind. behind ≡ first + blocks (length buffer.now - 43)) }
{
    first.checked_add(blocks_of((buffer.len() - HEAD) as u64))
}

/// Whether an id is one of these.
pub(crate) fn is_among(ids: &[Id], id: &Id) -> bool {
    for place in 0..ids.len() {
        if ids[place] == *id {
            return true;
        }
    }
    false
}

/// The nonce of a blob.
#[tactic(auto, unfolding(ferry_blob::specs::Blob::nonce_of))]
fn nonce_in(blob: &[u8]) -> u64
    requires { 43 ≤ length blob.now }
    ensures nonce { result ≡ nonce_of blob.now }
{
    let mut bytes = [0u8; 8];
    bytes.copy_from_slice(&blob[33..41]);
    u64::from_be_bytes(bytes)
}

/// Seals the content of a buffer with the counter blocks from `first` on. Where the buffer is a blob of others, it is decrypted before.
pub(crate) fn seal_again(keys: &Keys, mode: Mode, first: u64, is_blob: bool, buffer: &mut [u8])
    requires head { 43 ≤ length buffer.old }
    requires limit { length buffer.old ≤ blob_limit }
    requires blocks { first + blocks (length buffer.old - 43) ≤ 2 ^ 64 - 1 }
    requires ready { IsReady keys.now mode is_blob buffer.old }
    ensures blob { buffer.new ≡ sealed keys.now mode first (content_in keys.now is_blob buffer.old) }
    ensures opens { (id : List ℕ) → (id ≡ zero_id) ⊎ (id ≡ content_id keys.now (content_in keys.now is_blob buffer.old))
        → OpensTo keys.now id buffer.new (content_in keys.now is_blob buffer.old) }
{
    if is_blob {
        if nonce_in(buffer) == first {
            return;
        }
        let Ok(()) = open_blob(keys, &ZERO_ID, buffer) else {
            unreachable!()
        };
    }
    seal(keys, mode, first, buffer);
}
