//! From a key to its key text.

ghost use Rattle.std.specs.Prelude.{◌≡◌, ◌≤◌, IfOk, Ok, length, unwrap_or};
ghost use Rattle.ferry_base.specs.Limits.{content_limit};
ghost use Rattle.ferry_mac.specs.Hmac.{hmac256};
ghost use Rattle.ferry_msgpack.specs.Tree.{no_pairs};
ghost use Rattle.ferry_msgpack.specs.View.{value_view, pairs_view};
ghost use Rattle.ferry_msgpack.specs.Writable.{IsWritable};
ghost use Rattle.ferry_fields.specs.Fields.{pairs_in};
ghost use Rattle.ferry_keyblob.specs.Opening.{key_of, key_view};
ghost use Rattle.ferry_keyblob.specs.Sealing.{HasLengths, IsSealable, envelope_pairs, envelope_text, key_text, more_of, packed, packed_pairs};

use crate::key_text::KeyText;
use crate::opening::decrypted;
use ferry_fields::{copied, put, put_raw, text_of};
use ferry_mac::{hmac256, pbkdf2};
use ferry_msgpack::Value;
use std::alloc::{AllocError, Global};
use std::collections::BTreeMap;

/// Seals a key with a passphrase: gives the key text, which `open_key` opens under the same
/// passphrase. A salt may serve once.
///
/// Source: BorgBackup 1.2, Internals, "Data structures and file formats", Key files.
pub fn seal_key(
    alloc: Global,
    key: &KeyText,
    passphrase: &[u8],
    salt: &[u8; 32],
    iterations: u32,
) -> Result<Vec<u8>, AllocError>
    requires iterations { (1 ≤ iterations) × (iterations ≤ 10000000) }
    requires key { IsSealable (key_view key.now) }
    ensures text { IfOk result (λ text.
        text.items ≡ key_text (key_view key.now) passphrase.now salt.now iterations) }
    // What is sealed opens under the same passphrase and says the same.
    ensures opens { IfOk result (λ text. key_of passphrase.now text.items ≡ Ok (key_view key.now)) }
{
    let kek = pbkdf2(passphrase, salt, iterations);
    let packed = packed(alloc, key)?;
    Ok(envelope_text(alloc, &kek, salt, iterations, packed.as_slice())?)
}

/// The bytes of a packed key.
#[tactic(auto, unfolding(crate::specs::Sealing::packed))]
fn packed(alloc: Global, key: &KeyText) -> Result<Vec<u8>, AllocError>
    requires { IsSealable (key_view key.now) }
    ensures packed { IfOk result (λ text. text.items ≡ packed (key_view key.now)) }
    ensures lengths { IfOk result (λ _. HasLengths (key_view key.now)) }
{
    let pairs = packed_pairs(alloc, key)?;
    text_of(alloc, pairs)
}

/// The pairs of a packed key.
#[tactic(auto, unfolding(crate::specs::Sealing::packed_pairs))]
fn packed_pairs(alloc: Global, key: &KeyText) -> Result<BTreeMap<Vec<u8>, Value>, AllocError>
    requires { IsSealable (key_view key.now) }
    ensures pairs { IfOk result (λ pairs. pairs_view pairs.entries ≡ packed_pairs (key_view key.now)) }
    ensures lengths { IfOk result (λ _. HasLengths (key_view key.now)) }
{
    let mut pairs = more_of(alloc, &key.more)?;
    put(
        alloc,
        &mut pairs,
        b"chunk_seed",
        Value::Number(key.chunk_seed),
    )?;
    put_raw(alloc, &mut pairs, b"id_key", &key.keys.id_key)?;
    put_raw(alloc, &mut pairs, b"enc_hmac_key", &key.keys.enc_hmac_key)?;
    put_raw(alloc, &mut pairs, b"enc_key", &key.keys.enc_key)?;
    put_raw(alloc, &mut pairs, b"repository_id", &key.repository_id)?;
    put(alloc, &mut pairs, b"version", Value::Number(1))?;
    Ok(pairs)
}

/// The bytes of the envelope around a packed key, under this key-encryption key.
#[tactic(auto, unfolding(crate::specs::Sealing::envelope_text, crate::specs::Sealing::envelope_pairs))]
fn envelope_text(
    alloc: Global,
    kek: &[u8; 32],
    salt: &[u8; 32],
    iterations: u32,
    packed: &[u8],
) -> Result<Vec<u8>, AllocError>
    requires { (iterations ≤ 10000000) × (length packed.now ≤ content_limit) }
    ensures text { IfOk result (λ text.
        text.items ≡ envelope_text kek.now salt.now iterations packed.now) }
    ensures hash { IfOk result (λ _. length (hmac256 kek.now packed.now) ≡ 32) }
{
    let pairs = envelope_pairs(alloc, kek, salt, iterations, packed)?;
    text_of(alloc, pairs)
}

/// The pairs of the envelope around a packed key.
#[tactic(auto, unfolding(crate::specs::Sealing::envelope_pairs))]
fn envelope_pairs(
    alloc: Global,
    kek: &[u8; 32],
    salt: &[u8; 32],
    iterations: u32,
    packed: &[u8],
) -> Result<BTreeMap<Vec<u8>, Value>, AllocError>
    ensures pairs { IfOk result (λ pairs. pairs_view pairs.entries
        ≡ envelope_pairs kek.now salt.now iterations packed.now) }
    ensures hash { IfOk result (λ _. length (hmac256 kek.now packed.now) ≡ 32) }
{
    let sealed = decrypted(alloc, kek, packed)?;
    let hash = hmac256(kek, packed);
    let mut pairs = BTreeMap::new(alloc);
    put(alloc, &mut pairs, b"data", Value::Raw(sealed))?;
    put_raw(alloc, &mut pairs, b"hash", &hash)?;
    put_raw(alloc, &mut pairs, b"salt", salt)?;
    put(
        alloc,
        &mut pairs,
        b"iterations",
        Value::Number(i128::from(iterations)),
    )?;
    put_raw(alloc, &mut pairs, b"algorithm", b"sha256")?;
    put(alloc, &mut pairs, b"version", Value::Number(1))?;
    Ok(pairs)
}

/// A copy of the pairs of the other names.
#[tactic(auto, unfolding(crate::specs::Sealing::more_of))]
fn more_of(alloc: Global, more: &Value) -> Result<BTreeMap<Vec<u8>, Value>, AllocError>
    requires { IsWritable (value_view more.now) }
    ensures pairs { IfOk result (λ pairs.
        pairs_view pairs.entries ≡ unwrap_or (pairs_in (value_view more.now)) no_pairs) }
{
    match more {
        Value::Table(pairs) => Ok(copied(alloc, pairs.as_slice())?),
        _ => Ok(BTreeMap::new(alloc)),
    }
}
