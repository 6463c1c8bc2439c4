//! The time that a commit's manifest has.
ghost use Rattle.std.specs.Prelude.{◌≡◌, IfOk};
ghost use Rattle.ferry_carry.specs.Time.{later, text_of, time_for};

use ferry_base::Bytes;
use std::alloc::{AllocError, Global};

/// The time that is given, or the later in byte order of the two manifests' times, where an absent one counts as empty.
pub(crate) fn time_for(
    alloc: Global,
    given: &Option<Bytes>,
    source: &Option<Bytes>,
    target: &Option<Bytes>,
) -> Result<Vec<u8>, AllocError>
    ensures time { IfOk result (λ time. time.items ≡ time_for given.now source.now target.now) }
{
    match given {
        Some(time) => Vec::from_slice(alloc, time.as_slice()),
        None => Vec::from_slice(alloc, later(text_of(source), text_of(target))),
    }
}

/// The bytes of a time, none where it is absent.
fn text_of(time: &Option<Bytes>) -> &[u8]
    ensures text { result.now ≡ text_of time.now }
{
    match time {
        Some(time) => time.as_slice(),
        None => &[],
    }
}

/// The later in byte order of two times.
fn later<'a>(one: &'a [u8], other: &'a [u8]) -> &'a [u8]
    ensures later { result.now ≡ later one.now other.now }
{
    if one.cmp(other).is_lt() { other } else { one }
}
