//! The lines that a transfer tells.

ghost use Rattle.std.specs.Prelude.{◌≡◌, ◌++◌, IfOk, OnOk};
ghost use Rattle.ferry_carry.specs.Lines.{count_text, name_line, total_line};

use crate::options::Carried;
use ferry_text::{write_number, write_text};
use std::alloc::{AllocError, Global};

/// The line of a name: what was done with it, and the name as text.
pub(crate) fn name_line(alloc: Global, what: &[u8], name: &[u8]) -> Result<Vec<u8>, AllocError>
    ensures line { IfOk result (λ line. line.items ≡ name_line what.now name.now) }
{
    let mut line = Vec::from_slice(alloc, what)?;
    write_text(name, &mut line)?;
    line.push(b'\n')?;
    Ok(line)
}

/// Appends a number with a space before it, and a word behind it with a space between.
fn write_count(number: u128, word: &[u8], line: &mut Vec<u8>) -> Result<(), AllocError>
    ensures text { OnOk result (line.new.items ≡ line.old.items ++ count_text number word.now) }
{
    line.push(b' ')?;
    write_number(number, line)?;
    line.push(b' ')?;
    line.extend_from_slice(word)
}

/// The line of the whole.
pub(crate) fn total_line(alloc: Global, carried: &Carried) -> Result<Vec<u8>, AllocError>
    ensures line { IfOk result (λ line. line.items ≡ total_line carried.now) }
{
    let mut line = Vec::from_slice(alloc, b"total")?;
    write_count(u128::from(carried.transferred), b"transferred", &mut line)?;
    write_count(u128::from(carried.present), b"present", &mut line)?;
    write_count(u128::from(carried.chunks), b"chunks", &mut line)?;
    write_count(carried.bytes, b"bytes", &mut line)?;
    write_count(u128::from(carried.meta), b"meta", &mut line)?;
    line.push(b'\n')?;
    Ok(line)
}
