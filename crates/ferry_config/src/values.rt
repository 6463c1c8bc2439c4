//! What the values of the known names say.

ghost use Rattle.std.specs.Prelude.{◌≡◌, ◌&&◌, nat_le, if◌then◌else◌, IfOk};
ghost use Rattle.std.specs.Str.{all_ascii_digits};
ghost use Rattle.ferry_config.specs.Value.{greatest, id_of, key_of, number_from, number_of};

use base64::DecodeAllocError;
use base64::engine::general_purpose::STANDARD;
use ferry_base::{Bytes, Id};
use std::alloc::{AllocError, Global};

/// The greatest number that is taken.
const GREATEST: u64 = 4_294_967_295;

/// The 32 bytes of 64 hex digits.
#[tactic(auto, unfolding(crate::specs::Value::id_of))]
pub(crate) fn read_id(text: &[u8]) -> Option<Id>
    ensures id { result ≡ id_of text.now }
{
    let mut id = [0u8; 32];
    match hex::decode_to_slice(text, &mut id) {
        Ok(()) => Some(id),
        Err(_) => None,
    }
}

/// The bytes of a base64 text.
#[tactic(auto, unfolding(crate::specs::Value::key_of))]
pub(crate) fn read_key(alloc: Global, text: &[u8]) -> Result<Option<Bytes>, AllocError>
    ensures key { IfOk result (λ key. key ≡ key_of text.now) }
{
    match STANDARD.decode(alloc, text) {
        Ok(bytes) => Ok(Some(Bytes::new(bytes))),
        Err(DecodeAllocError::DecodeError(_)) => Ok(None),
        Err(DecodeAllocError::OutOfMemory) => Err(AllocError),
    }
}

/// A number in decimal digits, without a zero in front, from 1 to the greatest.
#[tactic(auto, unfolding(crate::specs::Value::number_of))]
pub(crate) fn read_number(text: &[u8]) -> Option<u64>
    ensures number { result ≡ number_of text.now }
{
    if text.is_empty() {
        return None;
    }
    if text[0] == b'0' {
        return None;
    }
    spelled(text)
}

/// The number that decimal digits spell, where it is at most the greatest.
fn spelled(text: &[u8]) -> Option<u64>
    ensures number { result ≡ (
        if all_ascii_digits text.now && nat_le (number_from 0 text.now) greatest
        then Some (number_from 0 text.now) else None) }
{
    let mut number = 0u64;
    for digit in text {
        if !digit.is_ascii_digit() {
            return None;
        }
        number = 10 * number + u64::from(*digit - b'0');
        if number > GREATEST {
            return None;
        }
    }
    Some(number)
}
