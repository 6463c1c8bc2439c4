//! How much of each segment is live.
ghost use Rattle.std.specs.Prelude.{◌≡◌, map};
ghost use Rattle.std.specs.BTreeMap.{IsOrdered};
ghost use Rattle.std.specs.List.Sorted.{IsStrictlyIncreasing};
ghost use Rattle.ferry_log.specs.Live.{key_cmp};
ghost use Rattle.ferry_log.specs.Opening.{counted_one, counted_live};

use crate::place::{Extent, Place};
use ferry_base::{Id, PUT_HEAD};
use std::collections::BTreeMap;

/// The extents, which are those of segments of these numbers, with the sizes of the live entries added.
pub(crate) fn with_live(
    extents: Vec<Extent>,
    numbers: &[u64],
    live: &BTreeMap<Id, Place>,
) -> Vec<Extent>
    requires same { map (λ e. e.segment) extents.items ≡ numbers.now }
    requires increasing { IsStrictlyIncreasing numbers.now }
    ensures counted { result.items ≡ map (counted_live live.now.entries) extents.items }
    ensures ordered { IsOrdered key_cmp live.now }
{
    let mut extents = extents;
    count_live(&mut extents, numbers, live);
    extents
}

/// Adds the sizes of the live entries to the extents of their segments.
fn count_live(extents: &mut [Extent], numbers: &[u64], live: &BTreeMap<Id, Place>)
    requires same { map (λ e. e.segment) extents.old ≡ numbers.now }
    requires increasing { IsStrictlyIncreasing numbers.now }
    ensures counted { extents.new ≡ map (counted_live live.now.entries) extents.old }
    ensures ordered { IsOrdered key_cmp live.now }
{
    for (_, place) in live {
        count_one(extents, numbers, place);
    }
}

/// Adds the size of the entry whose blob lies here to the extent of its segment.
fn count_one(extents: &mut [Extent], numbers: &[u64], place: &Place)
    requires same { map (λ e. e.segment) extents.old ≡ numbers.now }
    requires increasing { IsStrictlyIncreasing numbers.now }
    ensures { extents.new ≡ map (counted_one place.now) extents.old }
{
    if let Ok(i) = numbers.binary_search(&place.segment) {
        let size = u64::from(place.size) + PUT_HEAD as u64;
        extents[i].live = extents[i].live.saturating_add(size);
    }
}
