//! HMAC, HKDF and PBKDF2 over SHA-2, and the three keys of a repository.
//!
//! The layers above may rely on these equations: `hmac256` and `hmac512` are HMAC of RFC 2104,
//! section 2, over SHA-256 and SHA-512, and `hmac256_four` and `hmac256_many` are the former of several
//! texts; `hkdf512` is HKDF of RFC 5869, section 2, over SHA-512 with 64 bytes out; `pbkdf2` is PBKDF2
//! of RFC 8018, section 5.2, over HMAC-SHA-256 with 32 bytes out.
//! SHA-2 is the specification of the crate `sha2`. No call takes memory, and none refuses.
#![tactic(auto)]

mod compression;
mod four;
mod hkdf;
mod keys;
mod lanes;
mod mac256;
mod mac512;
mod mac_many;
mod many;
mod order;
mod pbkdf;

pub use four::hmac256_four;
pub use hkdf::hkdf512;
pub use keys::Keys;
pub use mac_many::hmac256_many;
pub use mac256::hmac256;
pub use mac512::hmac512;
pub use pbkdf::pbkdf2;
