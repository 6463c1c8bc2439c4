//! From a blob to its content.

ghost use Rattle.std.specs.Prelude.{◌≡◌, ◌≤◌, OnOk, IfErr, None, Some, true, false, drop, length, slice_index};
ghost use Rattle.ferry_base.specs.Limits.{zero_id};
ghost use Rattle.ferry_mac.specs.Hmac.{hmac256};
ghost use Rattle.ferry_blob.specs.Batch.{IsOpened};
ghost use Rattle.ferry_blob.specs.Blob.{OpensTo, blob_fault, decrypted, has_type, is_decrypted, nonce_of};

use crate::fault::BlobFault;
use crate::id::is_named;
use crate::mode::has_type;
use crate::stream::add_key_stream;
use ferry_base::Id;
use ferry_lanes::same;
use ferry_mac::{Keys, hmac256};

/// The number of bytes before the content: type, MAC, nonce and compression header.
const BLOB_HEAD: usize = 43;

/// The compression header of a content that isn't compressed.
const NO_COMPRESSION: [u8; 2] = [0, 0];

/// Opens a blob in place: checks it, and decrypts it from byte 41 on. The content is `blob[43..]`.
///
/// The types of both modes open. With the zero id the id isn't looked at. A MAC is compared in full, and nothing is decrypted before
/// it is found right, so that what isn't authentic is never read as a plaintext.
///
/// Source: BorgBackup 1.2, Internals, "Data structures and file formats", Encryption.
pub fn open_blob(keys: &Keys, id: &Id, blob: &mut [u8]) -> Result<(), BlobFault>
    ensures opened { OnOk result (OpensTo keys.now id.now blob.old (drop 43 blob.new)) }
    ensures fault { IfErr result (λ fault. blob_fault keys.now id.now blob.old ≡ Some fault) }
    ensures ok { OnOk result (blob_fault keys.now id.now blob.old ≡ None) }

    // After Short, Kind and Mac the blob is as it was.
    ensures kept { IfErr result (λ fault. is_decrypted fault ≡ false → blob.new ≡ blob.old) }

    // At Ok, and after Compressed and Id, it is decrypted from byte 41 on.
    ensures decrypted { OnOk result (blob.new ≡ decrypted keys.now blob.old) }
    ensures refused { IfErr result (λ fault.
        is_decrypted fault ≡ true → blob.new ≡ decrypted keys.now blob.old) }
{
    let mac = hmac256(&keys.enc_hmac_key, authenticated_part(blob));
    open_by_mac(keys, &mac, blob)?;
    if !is_named(keys, id, &blob[BLOB_HEAD..]) {
        return Err(BlobFault::Id);
    }
    Ok(())
}

/// What the MAC of a blob is of: the nonce and the ciphertext. It is empty where a blob is too short or of no known type, whose MAC isn't looked at.
pub(crate) fn authenticated_part(blob: &[u8]) -> &[u8]
    ensures part { 43 ≤ length blob.now → has_type (slice_index blob.now 0) ≡ true → result.now ≡ drop 33 blob.now }
{
    if blob.len() < BLOB_HEAD || !has_type(blob[0]) {
        return &[];
    }
    &blob[33..]
}

/// Opens a blob under the zero id. `mac` is the MAC of its authenticated part.
pub(crate) fn open_by_mac(keys: &Keys, mac: &[u8; 32], blob: &mut [u8]) -> Result<(), BlobFault>
    requires { 43 ≤ length blob.old → has_type (slice_index blob.old 0) ≡ true
        → mac.now ≡ hmac256 keys.now.enc_hmac_key (drop 33 blob.old) }
    ensures opened { IsOpened keys.now zero_id blob.old result blob.new }
{
    if blob.len() < BLOB_HEAD {
        return Err(BlobFault::Short);
    }
    if !has_type(blob[0]) {
        return Err(BlobFault::Kind);
    }
    if !same(&blob[1..33], mac) {
        return Err(BlobFault::Mac);
    }
    decrypt(keys, blob);
    if !same(&blob[41..BLOB_HEAD], &NO_COMPRESSION) {
        return Err(BlobFault::Compressed);
    }
    Ok(())
}

/// The nonce of a blob.
#[tactic(auto, unfolding(crate::specs::Blob::nonce_of))]
fn nonce_in(blob: &[u8]) -> u64
    requires { 43 ≤ length blob.now }
    ensures nonce { result ≡ nonce_of blob.now }
{
    let mut bytes = [0u8; 8];
    bytes.copy_from_slice(&blob[33..41]);
    u64::from_be_bytes(bytes)
}

/// Puts the plaintext in the place of the ciphertext.
#[tactic(auto, unfolding(crate::specs::Blob::decrypted, crate::specs::Blob::plaintext))]
fn decrypt(keys: &Keys, blob: &mut [u8])
    requires { 43 ≤ length blob.old }
    ensures decrypted { blob.new ≡ decrypted keys.now blob.old }
{
    let nonce = nonce_in(blob);
    add_key_stream(&keys.enc_key, nonce, &mut blob[41..]);
}
