//! The names and the contents of the drill's archives.
ghost use Rattle.std.specs.Prelude.{◌≡◌, ◌<◌, IfOk};
ghost use Rattle.ferry_gen.specs.Content.{archive_name, archive_time, block_number, digit, file_byte, file_content, file_front, file_path};
ghost use Rattle.ferry_gen.specs.Content.{number_byte};

use std::alloc::{AllocError, Global};

/// The time of each archive.
const TIME: &[u8] = b"2020-01-01T00:00:00.000000";

/// The last decimal digit of a number, as it is printed.
fn digit(number: u32) -> u8
    ensures { result ≡ digit number }
{
    b'0' + (number % 10) as u8
}

/// The name of an archive.
pub(crate) fn archive_name(alloc: Global, archive: u32) -> Result<Vec<u8>, AllocError>
    ensures name { IfOk result (λ name. name.items ≡ archive_name archive) }
{
    let digits = [
        digit(archive / 1000),
        digit(archive / 100),
        digit(archive / 10),
        digit(archive),
    ];
    Vec::from_slice(alloc, &[b'a', digits[0], digits[1], digits[2], digits[3]])
}

/// The time of each archive.
pub(crate) fn archive_time(alloc: Global) -> Result<Vec<u8>, AllocError>
    ensures time { IfOk result (λ time. time.items ≡ archive_time) }
{
    Vec::from_slice(alloc, TIME)
}

/// The path of a file.
pub(crate) fn file_path(alloc: Global, file: u32) -> Result<Vec<u8>, AllocError>
    ensures path { IfOk result (λ path. path.items ≡ file_path file) }
{
    Vec::from_slice(alloc, &[b'f', digit(file)])
}

/// The content of a file of an archive.
#[tactic(auto, unfolding(crate::specs::Content::file_front))]
pub(crate) fn file_content(alloc: Global, archive: u32, file: u32) -> Result<Vec<u8>, AllocError>
    requires archive { archive < 64 }
    requires file { file < 8 }
    ensures content { IfOk result (λ content. content.items ≡ file_content archive file) }
{
    let size = 4096 * (file + 1);
    let mut content = Vec::with_capacity(alloc, size as usize)?;
    for place in 0..size {
        content.push(file_byte(archive, file, place))?;
    }
    Ok(content)
}

/// The byte of a file at a place.
fn file_byte(archive: u32, file: u32, place: u32) -> u8
    requires archive { archive < 64 }
    requires file { file < 8 }
    ensures { result ≡ file_byte archive file place }
{
    let within = place % 512;
    if within < 8 {
        number_byte(block_number(archive, file, place / 512), within)
    } else {
        (place % 251) as u8
    }
}

/// The number that a block of 512 bytes begins with.
fn block_number(archive: u32, file: u32, block: u32) -> u64
    requires archive { archive < 64 }
    requires file { file < 8 }
    ensures { result ≡ block_number archive file block }
{
    if file == 0 {
        u64::from(block)
    } else {
        u64::from(archive) * 0x100_0000_0000 + (u64::from(file) * 0x1_0000_0000 + u64::from(block))
    }
}

/// A byte of a number, the highest first.
fn number_byte(number: u64, place: u32) -> u8
    requires place { place < 8 }
    ensures { result ≡ number_byte number place }
{
    (number >> (8 * (7 - place)) & 0xff) as u8
}
