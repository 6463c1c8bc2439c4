//! PBKDF2 over HMAC-SHA-256 (RFC 8018).

ghost use Rattle.std.specs.Prelude.{◌≡◌, ◌≤◌};
ghost use Rattle.ferry_mac.specs.Pbkdf2.{pbkdf2, xor_of};

use crate::mac256::Keyed256;

/// The number of the first and only block of output, which stands behind the salt: four bytes, the
/// most significant first.
const FIRST_BLOCK: [u8; 4] = [0, 0, 0, 1];

/// Derives 32 bytes from `passphrase` and `salt` by as many iterations of HMAC-SHA-256.
///
/// The running digests of the passphrase are worked out once, and each iteration works on copies
/// of them: two compressions of SHA-256 an iteration in place of four.
///
/// Source: RFC 8018, section 5.2, with an output of one block.
pub fn pbkdf2(passphrase: &[u8], salt: &[u8], iterations: u32) -> [u8; 32]
    requires at_least_one { 1 ≤ iterations }
    ensures derived { result ≡ pbkdf2 passphrase.now salt.now iterations }
{
    let keyed = Keyed256::new(passphrase);
    let mut last = keyed.copy().mac_of_parts(salt, &FIRST_BLOCK);
    let mut sum = last;
    for done in 1..iterations {
        last = keyed.copy().mac(&last);
        xor_into(&mut sum, &last);
    }
    sum
}

/// Xors each byte of `sum` with the byte of `other` at its place.
fn xor_into(sum: &mut [u8; 32], other: &[u8; 32])
    ensures xored { sum.new ≡ xor_of sum.old other.now }
{
    for place in 0..32usize {
        sum[place] ^= other[place];
    }
}
