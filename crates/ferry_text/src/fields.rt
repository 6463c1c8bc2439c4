//! Ids and numbers as printed.
ghost use Rattle.std.specs.Prelude.{◌≡◌, ◌++◌, OnOk, OnErr, decimal};
ghost use Rattle.hex.specs.Hex.{encode_lower};

use ferry_base::Id;
use itoa::Buffer;
use std::alloc::AllocError;

/// Appends an id: 64 hex digits in lower case, the high four bits of each byte first.
///
/// Memory is taken by `into` alone; after a refusal `into` is as it was.
pub fn write_id(id: &Id, into: &mut Vec<u8>) -> Result<(), AllocError>
    ensures ok { OnOk result (into.new.items ≡ into.old.items ++ encode_lower id.now) }
    ensures err { OnErr result (into.new.items ≡ into.old.items) }
{
    let mut digits = [0; 64];
    let _ = hex::encode_to_slice(id, &mut digits);
    into.extend_from_slice(&digits)
}

/// Appends a number in decimal digits, without leading zeros.
///
/// Memory is taken by `into` alone; after a refusal `into` is as it was.
pub fn write_number(number: u128, into: &mut Vec<u8>) -> Result<(), AllocError>
    ensures ok { OnOk result (into.new.items ≡ into.old.items ++ decimal number) }
    ensures err { OnErr result (into.new.items ≡ into.old.items) }
{
    let mut buffer = Buffer::new();
    into.extend_from_slice(buffer.format(number).as_bytes())
}
