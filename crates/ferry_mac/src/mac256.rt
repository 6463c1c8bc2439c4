//! HMAC over SHA-256 (RFC 2104).

ghost use Rattle.std.specs.Prelude.{◌≡◌, ℕ, ◌≤◌, ◌++◌, List, length, map, bit_xor};
ghost use Rattle.sha2.specs.Sha256.{sha256};
ghost use Rattle.ferry_mac.specs.Hmac.{block_key, filled, hmac256, xored_with};

use sha2::{Digest, Sha256};

/// SHA-256 takes its message in blocks of 64 bytes (FIPS 180-4, 5.2.1).
pub(crate) const BLOCK_LEN: usize = 64;

/// The byte of ipad (RFC 2104, section 2).
pub(crate) const INNER_PAD: u8 = 0x36;

/// The byte of opad (RFC 2104, section 2).
pub(crate) const OUTER_PAD: u8 = 0x5c;

/// Computes HMAC-SHA-256 of `bytes` under `key`, which may have any length.
///
/// Source: RFC 2104, section 2; RFC 4231.
pub fn hmac256(key: &[u8], bytes: &[u8]) -> [u8; 32]
    ensures mac { result ≡ hmac256 key.now bytes.now }
{
    Keyed256::new(key).mac(bytes)
}

/// The running digests of a key, the inner and the outer one. Each has taken the block that the key
/// makes, so that a copy of them starts a MAC without a compression for the key.
#[derive(Drop)]
pub(crate) struct Keyed256 {
    inner: Sha256,
    outer: Sha256,
}

impl Keyed256 {
    ghost use Rattle.ferry_mac.specs.Keyed.{IsKeyed256};

    /// The running digests of `key`.
    pub(crate) fn new(key: &[u8]) -> Keyed256
        ensures keyed { IsKeyed256 result key.now }
    {
        let block = block_of(key);
        let inner_block = padded(&block, INNER_PAD);
        let outer_block = padded(&block, OUTER_PAD);
        Keyed256 {
            inner: Sha256::new_with_prefix(&inner_block),
            outer: Sha256::new_with_prefix(&outer_block),
        }
    }

    /// The same running digests once more.
    pub(crate) fn copy(&self) -> Keyed256
        ensures copy { result ≡ self.now }
    {
        Keyed256 {
            inner: self.inner.clone().unwrap(),
            outer: self.outer.clone().unwrap(),
        }
    }

    /// The MAC of `bytes` under the key.
    pub(crate) fn mac(self, bytes: &[u8]) -> [u8; 32]
        ensures mac { (key : List ℕ) → IsKeyed256 self key → result ≡ hmac256 key bytes.now }
    {
        let Keyed256 { inner, outer } = self;
        let digest = inner.chain_update(bytes).finalize();
        outer.chain_update(&digest).finalize()
    }

    /// The MAC of `first` and `second` as one text, under the key.
    pub(crate) fn mac_of_parts(self, first: &[u8], second: &[u8]) -> [u8; 32]
        ensures mac { (key : List ℕ) → IsKeyed256 self key
            → result ≡ hmac256 key (first.now ++ second.now) }
    {
        let Keyed256 { inner, outer } = self;
        let begun = inner.chain_update(first);
        let digest = begun.chain_update(second).finalize();
        outer.chain_update(&digest).finalize()
    }
}

/// The key as one block: hashed first where it is longer than a block, and filled with zeros.
pub(crate) fn block_of(key: &[u8]) -> [u8; 64]
    ensures block { result ≡ block_key sha256 64 key.now }
{
    if key.len() <= BLOCK_LEN {
        filled(key)
    } else {
        let digest = Sha256::digest(key);
        filled(&digest)
    }
}

/// `key` with zeros at its end, up to a block.
fn filled(key: &[u8]) -> [u8; 64]
    requires { length key.now ≤ 64 }
    ensures filled { result ≡ filled 64 key.now }
{
    let mut block = [0u8; 64];
    block[..key.len()].copy_from_slice(key);
    block
}

/// Each byte of `block` xored with `pad`.
pub(crate) fn padded(block: &[u8; 64], pad: u8) -> [u8; 64]
    ensures padded { result ≡ xored_with pad block.now }
{
    let mut out = *block;
    for place in 0..64usize {
        out[place] ^= pad;
    }
    out
}
