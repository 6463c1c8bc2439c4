//! From up to 64 contents to their blobs.

ghost use Rattle.std.specs.Prelude.{◌≡◌, ℕ, ◌<◌, ◌≤◌, [], drop, length, slice_index, slice_index_or};
ghost use Rattle.ferry_mac.specs.Hmac.{hmac256};
ghost use Rattle.ferry_blob.specs.Batch.{IsSealable, IsSealed, bytes_at};

use crate::batch_sealing::{encrypt_each, part_at, put_heads};
use crate::many_macs::macs_of_first;
use crate::mode::Mode;
use ferry_mac::Keys;

/// Seals up to 64 contents in place, each as `seal` does, with the MACs worked out side by side.
///
/// Each content stands behind byte 43 of its buffer. `nonces` has the nonce of each buffer, in the same order; the caller sees to it that
/// the counter blocks of one don't meet those of another. The contents may have any lengths.
///
/// Source: BorgBackup 1.2, Internals, "Data structures and file formats", Encryption.
pub fn seal_many(keys: &Keys, mode: Mode, nonces: &[u64], buffers: &mut [Vec<u8>])
    requires nonces { length nonces.now ≡ length buffers.old }
    requires places { length buffers.old ≤ 64 }
    requires sealable { (k : ℕ) → k < length buffers.old → IsSealable (slice_index nonces.now k) (bytes_at buffers.old k) }
    ensures sealed { (k : ℕ) → k < length buffers.old
        → IsSealed keys.now mode (slice_index nonces.now k) (bytes_at buffers.old k) (bytes_at buffers.new k) }
{
    encrypt_each(&keys.enc_key, nonces, buffers);
    let macs = macs_of_parts(&keys.enc_hmac_key, buffers);
    put_heads(mode, &macs, buffers);
}

/// The MAC of what stands behind the first 33 bytes of each buffer.
fn macs_of_parts(key: &[u8; 32], buffers: &[Vec<u8>]) -> [[u8; 32]; 64]
    requires places { length buffers.now ≤ 64 }
    ensures macs { (k : ℕ) → k < length buffers.now → slice_index_or result k [] ≡ hmac256 key.now (drop 33 (bytes_at buffers.now k)) }
{
    let mut parts: [&[u8]; 64] = [&[]; 64];
    for place in 0..buffers.len() {
        parts[place] = part_at(buffers, place);
    }
    macs_of_first(key, &parts, buffers.len())
}
