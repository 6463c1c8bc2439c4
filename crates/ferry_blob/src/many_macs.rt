//! MACs of up to 64 texts.

ghost use Rattle.std.specs.Prelude.{◌≡◌, ℕ, ◌<◌, ◌≤◌, [], slice_index_or};
ghost use Rattle.ferry_mac.specs.Hmac.{hmac256};
ghost use Rattle.ferry_mac.specs.Lanes.{nth_text};

use ferry_mac::hmac256_many;

/// The MACs of the first `count` texts under one key.
pub(crate) fn macs_of_first(key: &[u8; 32], texts: &[&[u8]; 64], count: usize) -> [[u8; 32]; 64]
    requires few { count ≤ 64 }
    ensures macs { (k : ℕ) → k < count → slice_index_or result k [] ≡ hmac256 key.now (nth_text texts.now k) }
{
    let mut macs = [[0u8; 32]; 64];
    hmac256_many(key, &texts[..count], &mut macs[..count]);
    macs
}
