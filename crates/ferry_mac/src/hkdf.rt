//! HKDF over HMAC-SHA-512 (RFC 5869).

ghost use Rattle.std.specs.Prelude.{◌≡◌};
ghost use Rattle.ferry_mac.specs.Hkdf.{hkdf512};

use crate::mac512::{Keyed512, hmac512};

/// The number of the first and only block of output, which stands behind `info`.
const FIRST_BLOCK: [u8; 1] = [1];

/// Derives 64 bytes from `ikm`, the input keying material, under `salt`, for the use that `info`
/// names. All three may have any length.
///
/// Source: RFC 5869, section 2, with SHA-512 and an output of one block.
pub fn hkdf512(ikm: &[u8], salt: &[u8], info: &[u8]) -> [u8; 64]
    ensures derived { result ≡ hkdf512 ikm.now salt.now info.now }
{
    let pseudorandom_key = hmac512(salt, ikm);
    Keyed512::new(&pseudorandom_key).mac_of_parts(info, &FIRST_BLOCK)
}
