//! Bytes as printed text.
ghost use Rattle.std.specs.Prelude.{◌≡◌, ◌≤◌, ◌<◌, ◌∷◌, [], ◌++◌, length, take, slice_index, false, OnOk, OnErr};
ghost use Rattle.std.specs.List.{AllPass};
ghost use Rattle.ferry_text.specs.Text.{is_plain, escape, escaped};

use std::alloc::AllocError;

/// Appends bytes as printed text.
///
/// A byte below 32, the byte 127 and the backslash become `\x` and two hex digits in lower case, all other bytes are printed
/// as they are. Memory is taken by `into` alone; after a refusal `into` is as it was.
pub fn write_text(bytes: &[u8], into: &mut Vec<u8>) -> Result<(), AllocError>
    ensures ok { OnOk result (into.new.items ≡ into.old.items ++ escaped bytes.now) }
    ensures err { OnErr result (into.new.items ≡ into.old.items) }
{
    let before = into.len();
    match append_text(bytes, into) {
        Ok(()) => Ok(()),
        Err(refused) => {
            into.truncate(before);
            Err(refused)
        }
    }
}

/// Appends the text of the bytes. After a refusal a part of it may stand behind what was there.
fn append_text(bytes: &[u8], into: &mut Vec<u8>) -> Result<(), AllocError>
    ensures ok { OnOk result (into.new.items ≡ into.old.items ++ escaped bytes.now) }
    ensures err { OnErr result (take (length into.old.items) into.new.items ≡ into.old.items) }
{
    let mut rest = bytes;
    loop {
        let (plain, behind) = rest.split_at(plain_front(rest));
        into.extend_from_slice(plain)?;
        match behind {
            [byte, left @ ..] => {
                push_escape(*byte, into)?;
                rest = left;
            }
            [] => return Ok(()),
        }
    }
}

/// The length of the longest front of bytes that are printed as they are.
fn plain_front(bytes: &[u8]) -> usize
    ensures within { result ≤ length bytes.now }
    ensures plain { AllPass is_plain (take result bytes.now) }
    ensures end { result < length bytes.now → is_plain (slice_index bytes.now result) ≡ false }
{
    for (i, byte) in bytes.iter().enumerate() {
        if !is_plain(*byte) {
            return i;
        }
    }
    bytes.len()
}

/// Whether a byte is printed as it is.
fn is_plain(byte: u8) -> bool
    ensures { result ≡ is_plain byte }
{
    byte >= b' ' && byte != 0x7f && byte != b'\\'
}

/// Appends the escape of one byte.
fn push_escape(byte: u8, into: &mut Vec<u8>) -> Result<(), AllocError>
    ensures ok { OnOk result (into.new.items ≡ into.old.items ++ escape byte) }
    ensures err { OnErr result (into.new.items ≡ into.old.items) }
{
    let mut digits = [0; 2];
    let _ = hex::encode_to_slice([byte], &mut digits);
    into.extend_from_slice(&[b'\\', b'x', digits[0], digits[1]])
}
