//! From up to four contents to their blobs.

ghost use Rattle.std.specs.Prelude.{◌≡◌, ℕ, ◌<◌, ◌≤◌, [], ◌∷◌, ◌++◌, drop, length, slice_index, slice_index_or};
ghost use Rattle.ferry_mac.specs.Hmac.{hmac256};
ghost use Rattle.ferry_blob.specs.Batch.{IsSealable, IsSealed, bytes_at};
ghost use Rattle.ferry_blob.specs.Blob.{authenticated, type_of};

use crate::macs::macs_of;
use crate::mode::Mode;
use crate::places::bytes_at;
use crate::sealing::{encrypt, put_head};
use ferry_mac::Keys;

/// Seals up to four contents in place, each as `seal` does, with the MACs worked out side by side.
///
/// Each content stands behind byte 43 of its buffer. `nonces` has the nonce of each buffer, in the same order; the caller sees to it that
/// the counter blocks of one don't meet those of another.
///
/// Source: BorgBackup 1.2, Internals, "Data structures and file formats", Encryption.
pub fn seal_blobs(keys: &Keys, mode: Mode, nonces: &[u64], buffers: &mut [Vec<u8>])
    requires nonces { length nonces.now ≡ length buffers.old }
    requires places { length buffers.old ≤ 4 }
    requires sealable { (k : ℕ) → k < length buffers.old → IsSealable (slice_index nonces.now k) (bytes_at buffers.old k) }
    ensures sealed { (k : ℕ) → k < length buffers.old
        → IsSealed keys.now mode (slice_index nonces.now k) (bytes_at buffers.old k) (bytes_at buffers.new k) }
{
    encrypt_each(&keys.enc_key, nonces, buffers);
    let macs = macs_of_parts(&keys.enc_hmac_key, buffers);
    put_heads(mode, &macs, buffers);
}

/// Puts the nonce and the ciphertext behind the first 33 bytes of each buffer.
pub(crate) fn encrypt_each(key: &[u8; 32], nonces: &[u64], buffers: &mut [Vec<u8>])
    requires nonces { length nonces.now ≡ length buffers.old }
    requires room { (k : ℕ) → k < length buffers.old → 43 ≤ length (bytes_at buffers.old k) }
    ensures parts { (k : ℕ) → k < length buffers.old
        → drop 33 (bytes_at buffers.new k) ≡ authenticated key.now (slice_index nonces.now k) (drop 43 (bytes_at buffers.old k)) }
{
    for place in 0..buffers.len() {
        let buffer = buffers[place].as_mut_slice();
        encrypt(key, nonces[place], buffer);
    }
}

/// What stands behind the first 33 bytes in a place.
pub(crate) fn part_at(buffers: &[Vec<u8>], place: usize) -> &[u8]
    ensures part { result.now ≡ drop 33 (bytes_at buffers.now place) }
{
    let buffer = bytes_at(buffers, place);
    if buffer.len() < 33 {
        return &[];
    }
    &buffer[33..]
}

/// The MAC of what stands behind the first 33 bytes of each buffer.
fn macs_of_parts(key: &[u8; 32], buffers: &[Vec<u8>]) -> [[u8; 32]; 4]
    ensures macs { (k : ℕ) → k < 4 → slice_index_or result k [] ≡ hmac256 key.now (drop 33 (bytes_at buffers.now k)) }
{
    let parts = [
        part_at(buffers, 0),
        part_at(buffers, 1),
        part_at(buffers, 2),
        part_at(buffers, 3),
    ];
    macs_of(key, parts)
}

/// Puts the type and the MAC in front of each buffer.
pub(crate) fn put_heads(mode: Mode, macs: &[[u8; 32]], buffers: &mut [Vec<u8>])
    requires places { length buffers.old ≤ length macs.now }
    requires room { (k : ℕ) → k < length buffers.old → 43 ≤ length (bytes_at buffers.old k) }
    ensures blobs { (k : ℕ) → k < length buffers.old
        → bytes_at buffers.new k ≡ type_of mode ∷ (slice_index_or macs.now k [] ++ drop 33 (bytes_at buffers.old k)) }
{
    for place in 0..buffers.len() {
        let buffer = buffers[place].as_mut_slice();
        put_head(mode, &macs[place], buffer);
    }
}
