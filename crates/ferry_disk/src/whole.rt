//! Whole files and parts of them in one buffer.
ghost use Rattle.std.specs.Prelude.{◌≡◌, ◌≤◌, ◌<◌, ◌+◌, ◌^◌, OnOk, IfOk, IfSome, length, take, drop};
ghost use Rattle.ferry_disk.specs.Files.{contents_at};
ghost use Rattle.ferry_disk.specs.Device.{HasCause, KeepsTold, store_failed, told_files};
ghost use Rattle.ferry_disk.specs.Whole.{Fills};

use crate::name::Name;
use crate::shelf::{Shelf, StoreFault};

/// Reads a whole file of a shelf into `bytes`, whose memory is used again. An absent file is empty. After an error `bytes` has
/// anything.
pub fn read_whole<S: Shelf>(
    shelf: &mut S,
    name: Name,
    bytes: &mut Vec<u8>,
) -> Result<(), StoreFault>
    ensures bytes { OnOk result (IfSome (S.told shelf.old) (λ t. bytes.new.items ≡ contents_at (told_files t) name)) }
    ensures same { KeepsTold store_failed (S.told shelf.old) (S.told shelf.new) result }
    ensures cause { HasCause store_failed (S.faults shelf.old) (S.faults shelf.new) result }
{
    let size = length_of(shelf, name)?;
    let Ok(size) = usize::try_from(size) else {
        return Err(StoreFault::Memory);
    };
    read_part(shelf, name, 0, size, bytes)
}

/// A file's length in bytes, 0 where it is absent.
pub fn length_of<S: Shelf>(shelf: &mut S, name: Name) -> Result<u64, StoreFault>
    ensures length { IfOk result (λ size. IfSome (S.told shelf.old) (λ t. size ≡ length (contents_at (told_files t) name))) }
    ensures same { KeepsTold store_failed (S.told shelf.old) (S.told shelf.new) result }
    ensures cause { HasCause store_failed (S.faults shelf.old) (S.faults shelf.new) result }
{
    Ok(shelf.size(name)?.unwrap_or(0))
}

/// Reads `count` bytes of a file from `at` on into `bytes`, whose memory is used again: fewer only at the file's end. After an
/// error `bytes` has anything.
pub fn read_part<S: Shelf>(
    shelf: &mut S,
    name: Name,
    at: u64,
    count: usize,
    bytes: &mut Vec<u8>,
) -> Result<(), StoreFault>
    requires { at + count < 2 ^ 64 }
    ensures bytes { OnOk result (IfSome (S.told shelf.old) (λ t. bytes.new.items ≡ take count (drop at (contents_at (told_files t) name)))) }
    ensures same { KeepsTold store_failed (S.told shelf.old) (S.told shelf.new) result }
    ensures cause { HasCause store_failed (S.faults shelf.old) (S.faults shelf.new) result }
{
    if bytes.resize(count, 0).is_err() {
        return Err(StoreFault::Memory);
    }
    let filled = fill(shelf, name, at, bytes)?;
    bytes.truncate(filled);
    Ok(())
}

/// Fills the front of `into` with a file's bytes from `at` on, in as many reads as it takes, and answers how many bytes it
/// filled: fewer than `into` has only at the file's end. After an error `into` has anything.
pub fn fill<S: Shelf>(
    shelf: &mut S,
    name: Name,
    at: u64,
    into: &mut [u8],
) -> Result<usize, StoreFault>
    requires { at + length into.old < 2 ^ 64 }
    ensures within { IfOk result (λ filled. filled ≤ length into.old) }
    ensures bytes { IfOk result (λ filled. IfSome (S.told shelf.old) (λ t. Fills (contents_at (told_files t) name) at into.new filled)) }
    ensures same { KeepsTold store_failed (S.told shelf.old) (S.told shelf.new) result }
    ensures cause { HasCause store_failed (S.faults shelf.old) (S.faults shelf.new) result }
{
    let mut filled = 0;
    while filled < into.len() {
        let count = shelf.read_at(name, at + filled as u64, &mut into[filled..])?;
        if count == 0 {
            break;
        }
        filled += count;
    }
    Ok(filled)
}
