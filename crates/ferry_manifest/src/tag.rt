//! The authentication tag of a packed map, made for one kind of map by its info text.

ghost use Rattle.std.specs.Prelude.{◌≡◌, ◌++◌, IfOk, IfErr};
ghost use Rattle.ferry_mac.specs.Hmac.{hmac512};
ghost use Rattle.ferry_manifest.specs.Tag.{tag_key, tag_of};

use crate::fault::MetaFault;
use crate::place::zeroed;
use ferry_mac::{Keys, hkdf512, hmac512};
use std::alloc::{AllocError, Global};

/// The info text for the key of a manifest's tag (BorgBackup 1.2, `crypto/key.py`, `_tam_key` with the context `manifest`).
pub(crate) const MANIFEST_INFO: &[u8] = b"borg-metadata-authentication-manifest";

/// The info text for the key of an archive record's tag (the same with the context `archive`).
pub(crate) const ARCHIVE_INFO: &[u8] = b"borg-metadata-authentication-archive";

/// The tag that packed bytes have to have: that of the bytes with 64 zero bytes in the tag's place.
#[tactic(auto, unfolding(crate::specs::Tag::tag_of))]
pub(crate) fn tag_of(
    alloc: Global,
    info: &[u8],
    keys: &Keys,
    salt: &[u8; 64],
    bytes: &[u8],
) -> Result<[u8; 64], MetaFault>
    ensures tag { IfOk result (λ tag. tag ≡ tag_of info.now keys.now salt.now bytes.now) }
    ensures fault { IfErr result (λ fault. fault ≡ MetaFault.Memory) }
{
    let blank = zeroed(alloc, bytes)?;
    Ok(tag_of_blank(alloc, info, keys, salt, blank.as_slice())?)
}

/// The tag of packed bytes that have 64 zero bytes in the tag's place.
pub(crate) fn tag_of_blank(
    alloc: Global,
    info: &[u8],
    keys: &Keys,
    salt: &[u8; 64],
    blank: &[u8],
) -> Result<[u8; 64], AllocError>
    ensures tag { IfOk result (λ tag. tag ≡ hmac512 (tag_key info.now keys.now salt.now) blank.now) }
{
    let key = tag_key(alloc, info, keys, salt)?;
    Ok(hmac512(&key, blank))
}

/// The key of the tag.
#[tactic(auto, unfolding(crate::specs::Tag::tag_key))]
fn tag_key(alloc: Global, info: &[u8], keys: &Keys, salt: &[u8; 64]) -> Result<[u8; 64], AllocError>
    ensures key { IfOk result (λ key. key ≡ tag_key info.now keys.now salt.now) }
{
    let secrets = secrets(alloc, keys)?;
    Ok(hkdf512(secrets.as_slice(), salt, info))
}

/// The secrets one behind the other.
fn secrets(alloc: Global, keys: &Keys) -> Result<Vec<u8>, AllocError>
    ensures { IfOk result (λ secrets. secrets.items
        ≡ keys.now.id_key ++ (keys.now.enc_key ++ keys.now.enc_hmac_key)) }
{
    let mut secrets = Vec::from_slice(alloc, &keys.id_key)?;
    secrets.extend_from_slice(&keys.enc_key)?;
    secrets.extend_from_slice(&keys.enc_hmac_key)?;
    Ok(secrets)
}
