//! The printer.

ghost use Rattle.std.specs.Prelude.{◌≡◌, ◌+◌, ◌*◌, ◌/◌, ◌-◌, ◌<◌, ◌≤◌, ◌++◌, [], IfOk, OnOk, length};
ghost use Rattle.std.specs.List.{flat_map};
ghost use Rattle.std.specs.String.{string_bytes};
ghost use Rattle.hex.specs.Hex.{encode_lower};
ghost use Rattle.ferry_config.specs.Config.{config_of};
ghost use Rattle.ferry_config.specs.Text.{config_text, ended, head_lines, key_lines, piece, wrapped_lines};
ghost use Rattle.ferry_config.specs.Value.{id_of};

use crate::config::Config;
use base64::engine::general_purpose::STANDARD;
use std::alloc::{AllocError, Global};

/// How many characters of a key text stand on one line.
const WIDTH: usize = 70;

/// The lines between the numbers and the id. They say what Borg says by default.
const REST_OF_HEAD: &[u8] = b"append_only = 0\nstorage_quota = 0\nadditional_free_space = 0\nid = ";

/// The one text of a config.
///
/// Source: BorgBackup 1.2, Internals, "Data structures and file formats", Config file.
pub fn print_config(alloc: Global, config: &Config) -> Result<Vec<u8>, AllocError>
    requires per_dir { (1 ≤ config.now.per_dir) × (config.now.per_dir ≤ 4294967295) }
    requires limit { (1 ≤ config.now.limit) × (config.now.limit ≤ 4294967295) }
    ensures text { IfOk result (λ text. text.items ≡ config_text config.now) }
    // The reader takes what is printed for the same config. This has no premise on base64.
    ensures read_again { IfOk result (λ text. config_of text.items ≡ Ok config.now) }
{
    let id = id_text(alloc, &config.id)?;
    let key = STANDARD.encode(alloc, config.key.as_slice())?;
    let mut text = Vec::new(alloc);
    append_head(alloc, &mut text, config, id.as_bytes())?;
    append_key(&mut text, key.as_bytes())?;
    Ok(text)
}

/// The 64 digits of an id.
fn id_text(alloc: Global, id: &[u8]) -> Result<String, AllocError>
    requires { length id.now ≡ 32 }
    ensures text { IfOk result (λ text. string_bytes text ≡ encode_lower id.now) }
    ensures read_again { id_of (encode_lower id.now) ≡ Some id.now }
{
    hex::encode(alloc, id)
}

/// Appends the lines before those of the key.
fn append_head(
    alloc: Global,
    text: &mut Vec<u8>,
    config: &Config,
    id: &[u8],
) -> Result<(), AllocError>
    requires { id.now ≡ encode_lower config.now.id }
    ensures ok { OnOk result (
        text.new.items ≡ text.old.items ++ flat_map ended (head_lines config.now)) }
{
    let per_dir = config.per_dir.to_string(alloc)?;
    let limit = config.limit.to_string(alloc)?;
    append_line(
        text,
        b"[repository]\nversion = 1\nsegments_per_dir = ",
        per_dir.as_bytes(),
    )?;
    append_line(text, b"max_segment_size = ", limit.as_bytes())?;
    append_line(text, REST_OF_HEAD, id)?;
    Ok(())
}

/// Appends the lines of the key text, none where it is empty.
fn append_key(text: &mut Vec<u8>, key: &[u8]) -> Result<(), AllocError>
    ensures ok { OnOk result (
        text.new.items ≡ text.old.items ++ flat_map ended (key_lines key.now)) }
{
    if key.is_empty() {
        return Ok(());
    }
    append_wrapped(text, b"key = ", b"\t", key)
}

/// Appends a line that isn't empty in lines of at most 70 bytes, each with its LF: the first behind `front`, and each further one
/// behind `before`.
pub fn append_wrapped(
    text: &mut Vec<u8>,
    front: &[u8],
    before: &[u8],
    line: &[u8],
) -> Result<(), AllocError>
    requires { 0 < length line.now }
    ensures lines { OnOk result (
        text.new.items ≡ text.old.items ++ flat_map ended (wrapped_lines front.now before.now line.now)) }
{
    append_line(text, front, piece(line, 0))?;
    for number in 0..(line.len() - 1) / WIDTH {
        append_line(text, before, piece(line, number + 1))?;
    }
    Ok(())
}

/// Appends a line of two parts.
fn append_line(text: &mut Vec<u8>, front: &[u8], behind: &[u8]) -> Result<(), AllocError>
    ensures ok { OnOk result (text.new.items ≡ text.old.items ++ ended (front.now ++ behind.now)) }
{
    text.extend_from_slice(front)?;
    text.extend_from_slice(behind)?;
    text.push(b'\n')?;
    Ok(())
}

/// The piece of a number of a text that is longer.
fn piece(text: &[u8], number: usize) -> &[u8]
    requires { 70 * number < length text.now }
    ensures piece { result.now ≡ piece text.now number }
{
    let start = WIDTH * number;
    if text.len() - start > WIDTH {
        &text[start..start + WIDTH]
    } else {
        &text[start..]
    }
}
