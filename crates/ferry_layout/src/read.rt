//! Reading an open file at a place.
ghost use Rattle.std.specs.Prelude.{◌≤◌, ◌<◌, length, take, IfOk};
ghost use Rattle.std.specs.Io.KnownBytes.{Consumes, IsAtEnd};

use std::io;
use std::io::{Error, ErrorKind, Read, Seek, SeekFrom};

/// The greatest place in a file of the system.
const LAST_PLACE: u64 = i64::MAX as u64;

/// Fills the front of `into` with an open file's bytes from byte `at` on, and answers how many.
pub fn read_file_at<F: Read + Seek>(file: &mut F, at: u64, into: &mut [u8]) -> io::Result<usize>
    ensures within { IfOk result (λ count. count ≤ length into.old) }
{
    if at > LAST_PLACE {
        return Ok(0);
    }
    match file.seek(SeekFrom::Start(at)) {
        Ok(_) => fill(file, into),
        Err(error) => Err(error),
    }
}

/// Fills the front of `into` with the bytes that a file has next, and answers how many: less than there is room for only at the
/// file's end. A read that a signal interrupts is done again.
pub fn fill<F: Read>(file: &mut F, into: &mut [u8]) -> io::Result<usize>
    ensures within { IfOk result (λ count. count ≤ length into.old) }
    ensures bytes { IfOk result (λ count. Consumes (F.remaining file.old) (F.remaining file.new) (take count into.new)) }
    ensures full { IfOk result (λ count. count < length into.old → IsAtEnd (F.remaining file.new)) }
{
    let mut count = 0;
    for _ in 0..u64::MAX {
        if count == into.len() {
            return Ok(count);
        }
        match file.read(&mut into[count..]) {
            Ok(0) => return Ok(count),
            Ok(more) => count += more,
            Err(error) if error.kind() == ErrorKind::Interrupted => {}
            Err(error) => return Err(error),
        }
    }
    Err(Error::from(ErrorKind::Other))
}
