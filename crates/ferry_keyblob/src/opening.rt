//! From a key text and a passphrase to the key.

ghost use Rattle.std.specs.Prelude.{◌≡◌, ◌≢◌, ◌≤◌, IfOk, IfErr, IfSome, IfNone, Ok, Err, Some, None};
ghost use Rattle.ferry_msgpack.specs.View.{value_view, pairs_view};
ghost use Rattle.ferry_msgpack.specs.Tree.{table};
ghost use Rattle.ferry_aes.specs.CounterMode.{ctr};
ghost use Rattle.ferry_keyblob.specs.Envelope.{fault_or};
ghost use Rattle.ferry_keyblob.specs.Opening.{key_fault, key_in, key_of, keys_in, repository_id_in, chunk_seed_in, opened, others, packed_key_of, key_view};

use crate::envelope::Envelope;
use crate::fault::KeyFault;
use crate::fields::pairs_of;
use crate::key_text::KeyText;
use crate::reading::read_envelope;
use ferry_aes::{Schedule, keystream};
use ferry_base::Id;
use ferry_fields::{has_version_1, number_in, raw32_in, without};
use ferry_lanes::{same, xor_into};
use ferry_mac::{Keys, hmac256, pbkdf2};
use ferry_msgpack::Value;
use std::alloc::{AllocError, Global};

/// Opens a key text, the decoded `key` of the file `config`, with a passphrase.
///
/// A fault is the first in the order Pack, Field, Algorithm, Iterations of the envelope, Passphrase,
/// and then Pack and Field of the key inside; `Memory` may come at any point.
///
/// Source: BorgBackup 1.2, Internals, "Data structures and file formats", Key files.
#[tactic(auto, unfolding(crate::specs::Opening::key_of))]
pub fn open_key(alloc: Global, blob: &[u8], passphrase: &[u8]) -> Result<KeyText, KeyFault>
    ensures key { IfOk result (λ key. key_of passphrase.now blob.now ≡ Ok (key_view key)) }
    ensures fault { IfErr result (λ fault.
        fault ≢ KeyFault.Memory → key_of passphrase.now blob.now ≡ Err fault) }
{
    let envelope = read_envelope(alloc, blob)?;
    open_envelope(alloc, &envelope, passphrase)
}

/// Opens an envelope that was read, for a caller that needs its iterations too.
///
/// A fault is `Passphrase`, or else `Pack` or `Field` of the key inside; `Memory` may come at any point.
///
/// Source: BorgBackup 1.2, Internals, "Data structures and file formats", Key files.
#[tactic(auto, unfolding(crate::specs::Opening::opened, crate::specs::Opening::has_hash, crate::specs::Opening::unsealed))]
pub fn open_envelope(
    alloc: Global,
    envelope: &Envelope,
    passphrase: &[u8],
) -> Result<KeyText, KeyFault>
    requires iterations { 1 ≤ envelope.now.iterations }
    ensures key { IfOk result (λ key. opened passphrase.now envelope.now ≡ Ok (key_view key)) }
    ensures fault { IfErr result (λ fault.
        fault ≢ KeyFault.Memory → opened passphrase.now envelope.now ≡ Err fault) }
{
    let kek = pbkdf2(passphrase, &envelope.salt, envelope.iterations);
    let packed = decrypted(alloc, &kek, envelope.sealed.as_slice())?;
    let hash = hmac256(&kek, packed.as_slice());
    if !same(&hash, &envelope.hash) {
        return Err(KeyFault::Passphrase);
    }
    packed_key_of(alloc, packed.as_slice())
}

/// `text` encrypted or decrypted by AES-256 in counter mode from the counter 0.
#[tactic(auto, unfolding(ferry_aes::specs::CounterMode::ctr))]
pub(crate) fn decrypted(alloc: Global, key: &[u8; 32], text: &[u8]) -> Result<Vec<u8>, AllocError>
    ensures text { IfOk result (λ out. out.items ≡ ctr key.now 0 text.now) }
{
    let mut out = Vec::from_slice(alloc, text)?;
    let mut stream = vec![in alloc; 0u8; text.len()]?;
    keystream(&Schedule::new(key), 0, stream.as_mut_slice());
    xor_into(out.as_mut_slice(), stream.as_slice());
    Ok(out)
}

/// What the bytes of a packed key mean.
#[tactic(auto, unfolding(crate::specs::Opening::packed_key_of))]
fn packed_key_of(alloc: Global, bytes: &[u8]) -> Result<KeyText, KeyFault>
    ensures key { IfOk result (λ key. packed_key_of bytes.now ≡ Ok (key_view key)) }
    ensures fault { IfErr result (λ fault.
        fault ≢ KeyFault.Memory → packed_key_of bytes.now ≡ Err fault) }
{
    let pairs = pairs_of(alloc, bytes)?;
    key_in(alloc, pairs)
}

/// What the fields of a key say, and the other names.
fn key_in(alloc: Global, pairs: Vec<(Vec<u8>, Value)>) -> Result<KeyText, KeyFault>
    ensures key { IfOk result (λ key. let all = pairs_view pairs.items in
        fault_or (key_fault all) (key_in all) ≡ Ok (key_view key)) }
    ensures fault { IfErr result (λ fault. let all = pairs_view pairs.items in
        fault ≢ KeyFault.Memory → fault_or (key_fault all) (key_in all) ≡ Err fault) }
{
    let Some(fields) = fields_in(pairs.as_slice()) else {
        return Err(KeyFault::Field);
    };
    let more = Value::Table(others(alloc, pairs)?);
    Ok(KeyText {
        keys: fields.keys,
        repository_id: fields.repository_id,
        chunk_seed: fields.chunk_seed,
        more,
    })
}

/// What the fields of a key say.
#[derive(Clone, Copy)]
struct Fields {
    keys: Keys,
    repository_id: Id,
    chunk_seed: i128,
}

/// What the fields of a key say, where each is there and has its kind and length.
fn fields_in(pairs: &[(Vec<u8>, Value)]) -> Option<Fields>
    ensures whole { IfSome result (λ fields. key_fault (pairs_view pairs.now) ≡ None) }
    ensures keys { IfSome result (λ fields. keys_in (pairs_view pairs.now) ≡ fields.keys) }
    ensures repository { IfSome result (λ fields.
        repository_id_in (pairs_view pairs.now) ≡ fields.repository_id) }
    ensures seed { IfSome result (λ fields.
        chunk_seed_in (pairs_view pairs.now) ≡ fields.chunk_seed) }
    ensures none { IfNone result (key_fault (pairs_view pairs.now) ≡ Some KeyFault.Field) }
{
    if !has_version_1(pairs) {
        return None;
    }
    let repository_id = raw32_in(pairs, b"repository_id")?;
    let enc_key = raw32_in(pairs, b"enc_key")?;
    let enc_hmac_key = raw32_in(pairs, b"enc_hmac_key")?;
    let id_key = raw32_in(pairs, b"id_key")?;
    let chunk_seed = number_in(pairs, b"chunk_seed")?;
    let keys = Keys {
        enc_key,
        enc_hmac_key,
        id_key,
    };
    Some(Fields {
        keys,
        repository_id,
        chunk_seed,
    })
}

/// The pairs whose names are no field's.
fn others(alloc: Global, pairs: Vec<(Vec<u8>, Value)>) -> Result<Vec<(Vec<u8>, Value)>, AllocError>
    ensures others { IfOk result (λ kept. pairs_view kept.items ≡ others (pairs_view pairs.items)) }
{
    let names: [&[u8]; 6] = [
        b"version",
        b"repository_id",
        b"enc_key",
        b"enc_hmac_key",
        b"id_key",
        b"chunk_seed",
    ];
    without(alloc, pairs, &names)
}
