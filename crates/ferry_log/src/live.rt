//! The places of the live keys, as the log goes on.
ghost use Rattle.std.specs.Prelude.{◌≡◌, ◌∷◌, [], ◌+◌, ◌≤◌, ◌<◌, ◌^◌, OnOk};
ghost use Rattle.ferry_segment.specs.Entry.{LogEntry, Fits};
ghost use Rattle.ferry_segment.specs.Head.{head_of};
ghost use Rattle.ferry_log.specs.Opening.{TakesEntries, entry_at};

use crate::place::Place;
use ferry_base::{Id, PUT_HEAD};
use ferry_segment::Head;
use std::alloc::AllocError;
use std::collections::BTreeMap;

/// The tag of a PUT.
const PUT: u8 = 0;

/// The tag of a DELETE.
const DELETE: u8 = 1;

/// Takes the entry with this head, which begins at `at` of a segment, into the places.
pub(crate) fn take_entry(
    live: &mut BTreeMap<Id, Place>,
    segment: u64,
    at: u64,
    head: &Head,
) -> Result<(), AllocError>
    requires place { at + head.now.size < 2 ^ 64 }
    requires put { head.now.tag ≡ 0 → 41 ≤ head.now.size }
    ensures taken { (entry : LogEntry) → Fits entry → head.now ≡ head_of entry → OnOk result
        (TakesEntries (entry_at segment at entry ∷ []) live.old.entries live.new.entries) }
{
    match head.tag {
        PUT => {
            let place = Place {
                segment,
                at: at + PUT_HEAD as u64,
                size: head.size - PUT_HEAD as u32,
            };
            let key = head.key;
            live.insert(key, place)?;
        }
        DELETE => {
            live.remove(&head.key);
        }
        _ => {}
    }
    Ok(())
}
