//! The printer.

ghost use Rattle.std.specs.Prelude.{◌≡◌, ◌≢◌, [], IfOk, Ok, length};
ghost use Rattle.std.specs.String.{string_bytes};
ghost use Rattle.hex.specs.Hex.{decode_sized, encode_lower};
ghost use Rattle.ferry_keyfile.specs.KeyFile.{key_file_of};
ghost use Rattle.ferry_keyfile.specs.Text.{key_file_text};

use crate::file::KeyFile;
use base64::engine::general_purpose::STANDARD;
use ferry_config::append_wrapped;
use std::alloc::{AllocError, Global};

/// The one text of a key file.
///
/// Source: BorgBackup 1.2, Internals, "Security", Key files.
pub fn print_key_file(alloc: Global, file: &KeyFile) -> Result<Vec<u8>, AllocError>
    requires { file.now.key ≢ [] }
    ensures text { IfOk result (λ text. text.items ≡ key_file_text file.now) }
    // The reader takes what is printed for the same file. This has no premise on base64.
    ensures read_again { IfOk result (λ text. key_file_of text.items ≡ Ok file.now) }
{
    let id = id_text(alloc, &file.id)?;
    let key = STANDARD.encode(alloc, file.key.as_slice())?;
    let mut text = Vec::from_slice(alloc, b"BORG_KEY ")?;
    text.extend_from_slice(id.as_bytes())?;
    text.push(b'\n')?;
    append_wrapped(&mut text, b"", b"", key.as_bytes())?;
    Ok(text)
}

/// The 64 digits of an id.
fn id_text(alloc: Global, id: &[u8]) -> Result<String, AllocError>
    requires { length id.now ≡ 32 }
    ensures text { IfOk result (λ text. string_bytes text ≡ encode_lower id.now) }
    ensures read_again { decode_sized (encode_lower id.now) 32 ≡ Ok id.now }
{
    hex::encode(alloc, id)
}
