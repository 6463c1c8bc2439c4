//! HMAC over SHA-512 (RFC 2104).

ghost use Rattle.std.specs.Prelude.{◌≡◌, ℕ, ◌≤◌, ◌++◌, List, length, map, bit_xor};
ghost use Rattle.sha2.specs.Sha512.{sha512};
ghost use Rattle.ferry_mac.specs.Hmac.{block_key, filled, hmac512, xored_with};

use sha2::{Digest, Sha512};

/// SHA-512 takes its message in blocks of 128 bytes (FIPS 180-4, 5.2.2).
const BLOCK_LEN: usize = 128;

/// The byte of ipad (RFC 2104, section 2).
const INNER_PAD: u8 = 0x36;

/// The byte of opad (RFC 2104, section 2).
const OUTER_PAD: u8 = 0x5c;

/// Computes HMAC-SHA-512 of `bytes` under `key`, which may have any length.
///
/// Source: RFC 2104, section 2; RFC 4231.
pub fn hmac512(key: &[u8], bytes: &[u8]) -> [u8; 64]
    ensures mac { result ≡ hmac512 key.now bytes.now }
{
    Keyed512::new(key).mac(bytes)
}

/// The running digests of a key, the inner and the outer one. Each has taken the block that the key
/// makes, so that a copy of them starts a MAC without a compression for the key.
#[derive(Drop)]
pub(crate) struct Keyed512 {
    inner: Sha512,
    outer: Sha512,
}

impl Keyed512 {
    ghost use Rattle.ferry_mac.specs.Keyed.{IsKeyed512};

    /// The running digests of `key`.
    pub(crate) fn new(key: &[u8]) -> Keyed512
        ensures keyed { IsKeyed512 result key.now }
    {
        let block = block_of(key);
        let inner_block = padded(&block, INNER_PAD);
        let outer_block = padded(&block, OUTER_PAD);
        Keyed512 {
            inner: Sha512::new_with_prefix(&inner_block),
            outer: Sha512::new_with_prefix(&outer_block),
        }
    }

    /// The same running digests once more.
    pub(crate) fn copy(&self) -> Keyed512
        ensures copy { result ≡ self.now }
    {
        Keyed512 {
            inner: self.inner.clone().unwrap(),
            outer: self.outer.clone().unwrap(),
        }
    }

    /// The MAC of `bytes` under the key.
    pub(crate) fn mac(self, bytes: &[u8]) -> [u8; 64]
        ensures mac { (key : List ℕ) → IsKeyed512 self key → result ≡ hmac512 key bytes.now }
    {
        let Keyed512 { inner, outer } = self;
        let digest = inner.chain_update(bytes).finalize();
        outer.chain_update(&digest).finalize()
    }

    /// The MAC of `first` and `second` as one text, under the key.
    pub(crate) fn mac_of_parts(self, first: &[u8], second: &[u8]) -> [u8; 64]
        ensures mac { (key : List ℕ) → IsKeyed512 self key
            → result ≡ hmac512 key (first.now ++ second.now) }
    {
        let Keyed512 { inner, outer } = self;
        let begun = inner.chain_update(first);
        let digest = begun.chain_update(second).finalize();
        outer.chain_update(&digest).finalize()
    }
}

/// The key as one block: hashed first where it is longer than a block, and filled with zeros.
fn block_of(key: &[u8]) -> [u8; 128]
    ensures block { result ≡ block_key sha512 128 key.now }
{
    if key.len() <= BLOCK_LEN {
        filled(key)
    } else {
        let digest = Sha512::digest(key);
        filled(&digest)
    }
}

/// `key` with zeros at its end, up to a block.
fn filled(key: &[u8]) -> [u8; 128]
    requires { length key.now ≤ 128 }
    ensures filled { result ≡ filled 128 key.now }
{
    let mut block = [0u8; 128];
    block[..key.len()].copy_from_slice(key);
    block
}

/// Each byte of `block` xored with `pad`.
fn padded(block: &[u8; 128], pad: u8) -> [u8; 128]
    ensures padded { result ≡ xored_with pad block.now }
{
    let mut out = *block;
    for place in 0..128usize {
        out[place] ^= pad;
    }
    out
}
