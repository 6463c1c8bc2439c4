//! What stands around a sealed key.

use ferry_base::Bytes;

/// What stands around a sealed repository key.
///
/// There is no `Debug`, so that no message can show it.
#[derive(Drop)]
pub struct Envelope {
    /// How many iterations of PBKDF2 make the key-encryption key, from 1 to 10000000.
    pub iterations: u32,
    /// The salt of PBKDF2.
    pub salt: [u8; 32],
    /// HMAC-SHA-256 of the packed key under the key-encryption key.
    pub hash: [u8; 32],
    /// The packed key, encrypted.
    pub sealed: Bytes,
}
