//! The map that a key text or a packed key is.

ghost use Rattle.std.specs.Prelude.{◌≡◌, ◌≢◌, IfOk, IfErr, Some, None};
ghost use Rattle.ferry_msgpack.specs.View.{pairs_view};
ghost use Rattle.ferry_fields.specs.Fields.{map_of};

use crate::fault::KeyFault;
use ferry_fields::map_of;
use ferry_msgpack::Value;
use std::alloc::Global;

/// The pairs of the map that the bytes spell, with nothing behind it.
pub(crate) fn pairs_of(alloc: Global, bytes: &[u8]) -> Result<Vec<(Vec<u8>, Value)>, KeyFault>
    ensures map { IfOk result (λ pairs. map_of bytes.now ≡ Some (pairs_view pairs.items)) }
    ensures fault { IfErr result (λ fault.
        fault ≢ KeyFault.Memory → (fault ≡ KeyFault.Pack) × (map_of bytes.now ≡ None)) }
{
    Ok(map_of(alloc, bytes)?)
}
