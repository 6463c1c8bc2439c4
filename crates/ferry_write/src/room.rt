//! Where a session's next entry begins.
ghost use Rattle.std.specs.Prelude.{◌≡◌, ◌<◌, ◌≤◌, ◌+◌, ◌^◌, ◌↔◌, false, IfOk, IsErrOf, IsTrue};
ghost use Rattle.ferry_write.specs.Room.{behind, is_full, AreUsedUp};
ghost use Rattle.ferry_write.specs.declared.fault.WriteFault.TheVariants as Write;

use crate::fault::WriteFault;

/// The greatest number of a segment.
const LAST_NUMBER: u64 = 4_294_967_295;

/// Where an entry begins: the segment, and the offset of its first byte.
#[derive(Clone, Copy, Debug)]
pub(crate) struct Room {
    pub segment: u64,
    pub at: u64,
}

/// The number of the segment behind the last one.
pub(crate) fn next_number(last: Option<u64>) -> Result<u64, WriteFault>
    ensures number { IfOk result (λ number. number ≡ behind last) }
    ensures numbers { IsErrOf result Write.Numbers ↔ AreUsedUp last }
    ensures memory { IsErrOf result Write.Memory → ⊥ }
    ensures device { IsErrOf result Write.Device → ⊥ }
{
    match last {
        None => Ok(0),
        Some(last) => {
            if last < LAST_NUMBER {
                Ok(last + 1)
            } else {
                Err(WriteFault::Numbers)
            }
        }
    }
}

/// Whether an entry of this size is to begin a segment, where the one that is written has `size` bytes.
pub(crate) fn is_full(size: u64, limit: u64, more: u64) -> bool
    requires { more ≤ 20971520 }
    ensures full { result ≡ is_full size limit more }
    ensures fits { result ≡ false → size + more < 2 ^ 64 }
{
    size > MAGIC_SIZE && (size > limit || limit - size < more)
}

const MAGIC_SIZE: u64 = 8;
