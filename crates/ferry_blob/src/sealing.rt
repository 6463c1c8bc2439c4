//! From a content to its blob.

ghost use Rattle.std.specs.Prelude.{◌≡◌, ◌⊎◌, ℕ, ◌+◌, ◌-◌, ◌^◌, ◌≤◌, ◌++◌, ◌∷◌, List, drop, length, slice_index};
ghost use Rattle.ferry_base.specs.Limits.{blob_limit, content_limit, zero_id};
ghost use Rattle.ferry_blob.specs.Blob.{OpensTo, authenticated, blocks, content_id, nonce_of, sealed, type_of};

use crate::mode::{Mode, type_of};
use crate::stream::add_key_stream;
use ferry_mac::{Keys, hmac256};

/// The number of counter blocks that a content of so many bytes takes in its blob: those of the
/// compression header and the content.
///
/// Source: BorgBackup 1.2, Internals, "Data structures and file formats", Encryption.
#[tactic(auto, unfolding(crate::specs::Blob::blocks))]
pub fn blocks_of(content: u64) -> u64
    requires { content ≤ content_limit }
    ensures blocks { result ≡ blocks content }
{
    (2 + content).div_ceil(16)
}

/// Seals a content in place: the content stands at `buffer[43..]`, and the buffer becomes its blob, which has the mode's type.
///
/// What stands in the first 43 bytes is not read. The blob takes the counter blocks from the nonce on,
/// as many as `blocks_of` tells, each of which may serve once under one key.
///
/// Source: BorgBackup 1.2, Internals, "Data structures and file formats", Encryption.
pub fn seal(keys: &Keys, mode: Mode, nonce: u64, buffer: &mut [u8])
    requires head { 43 ≤ length buffer.old }
    requires limit { length buffer.old ≤ blob_limit }
    requires blocks { nonce + blocks (length buffer.old - 43) ≤ 2 ^ 64 - 1 }
    ensures blob { buffer.new ≡ sealed keys.now mode nonce (drop 43 buffer.old) }
    ensures opens { (id : List ℕ) → (id ≡ zero_id) ⊎ (id ≡ content_id keys.now (drop 43 buffer.old))
        → OpensTo keys.now id buffer.new (drop 43 buffer.old) }
    ensures kind { slice_index buffer.new 0 ≡ type_of mode }
    ensures nonce { nonce_of buffer.new ≡ nonce }
{
    encrypt(&keys.enc_key, nonce, buffer);
    let mac = hmac256(&keys.enc_hmac_key, &buffer[33..]);
    put_head(mode, &mac, buffer);
}

/// Puts the nonce and the ciphertext behind the first 33 bytes, in the place of 10 bytes and a content.
pub(crate) fn encrypt(key: &[u8; 32], nonce: u64, buffer: &mut [u8])
    requires { 43 ≤ length buffer.old }
    ensures part { drop 33 buffer.new ≡ authenticated key.now nonce (drop 43 buffer.old) }
{
    encrypt_part(key, nonce, &mut buffer[33..]);
}

/// Puts the nonce and the ciphertext in the place of 10 bytes and a content.
#[tactic(auto, unfolding(crate::specs::Blob::authenticated))]
fn encrypt_part(key: &[u8; 32], nonce: u64, part: &mut [u8])
    requires { 10 ≤ length part.old }
    ensures part { part.new ≡ authenticated key.now nonce (drop 10 part.old) }
{
    part[..8].copy_from_slice(&nonce.to_be_bytes());
    part[8..10].copy_from_slice(&[0, 0]);
    add_key_stream(key, nonce, &mut part[8..]);
}

/// Puts the type and the MAC in front.
pub(crate) fn put_head(mode: Mode, mac: &[u8; 32], buffer: &mut [u8])
    requires { 43 ≤ length buffer.old }
    ensures blob { buffer.new ≡ type_of mode ∷ (mac.now ++ drop 33 buffer.old) }
{
    buffer[0] = type_of(mode);
    buffer[1..33].copy_from_slice(mac);
}
