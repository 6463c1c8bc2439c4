//! Places of keys in maps: the place of a key, one more key, and the least key above another.
ghost use Rattle.std.specs.Prelude.{◌≡◌, None, Some, OnOk, OnErr};
ghost use Rattle.std.specs.BTreeMap.{get};
ghost use Rattle.std.specs.FinMap.{from_entries, insert};
ghost use Rattle.std.specs.Option.{option_copied};
ghost use Rattle.ferry_log.specs.Live.{key_cmp};
ghost use Rattle.ferry_log.specs.Least.{lesser_pair};
ghost use Rattle.ferry_log.specs.State.{IsLeastWhere};

use crate::place::Place;
use ferry_base::Id;
use std::alloc::AllocError;
use std::collections::BTreeMap;
use std::ops::Bound;

/// The place of a key.
pub(crate) fn place_at(places: &BTreeMap<Id, Place>, key: &Id) -> Option<Place>
    ensures { result ≡ get key_cmp places.now key.now }
{
    places.get(key).copied()
}

/// Adds a key with its place.
pub(crate) fn add_place(
    places: &mut BTreeMap<Id, Place>,
    key: &Id,
    place: Place,
) -> Result<(), AllocError>
    ensures added { OnOk result (from_entries {R = key_cmp} places.new.entries ≡ insert (from_entries {R = key_cmp} places.old.entries) key.now place) }
    ensures err { OnErr result (places.new.entries ≡ places.old.entries) }
{
    places.insert(*key, place)?;
    Ok(())
}

/// The least key of a map above `after`, or the least one, with its place.
pub(crate) fn least_in(places: &BTreeMap<Id, Place>, after: Option<&Id>) -> Option<(Id, Place)>
    ensures { IsLeastWhere (get key_cmp places.now) (option_copied after.entry) result }
{
    match after {
        Some(after) => least_above(places, after),
        None => least_of(places),
    }
}

/// The least key of a map above another.
fn least_above(places: &BTreeMap<Id, Place>, after: &Id) -> Option<(Id, Place)>
    ensures { IsLeastWhere (get key_cmp places.now) (Some after.now) result }
{
    let above = places
        .range((Bound::Excluded(*after), Bound::Unbounded))
        .next();
    match above {
        Some(pair) => Some((*pair.0, *pair.1)),
        None => None,
    }
}

/// The least key of a map.
fn least_of(places: &BTreeMap<Id, Place>) -> Option<(Id, Place)>
    ensures { IsLeastWhere (get key_cmp places.now) None result }
{
    match places.first_key_value() {
        Some(pair) => Some((*pair.0, *pair.1)),
        None => None,
    }
}

/// The pair with the lesser key, the first where they are the same.
pub(crate) fn lesser(a: Option<(Id, Place)>, b: Option<(Id, Place)>) -> Option<(Id, Place)>
    ensures { result ≡ lesser_pair a b }
{
    match (a, b) {
        (Some(a), Some(b)) => {
            if b.0.cmp(&a.0).is_lt() {
                Some(b)
            } else {
                Some(a)
            }
        }
        (Some(a), None) => Some(a),
        (None, b) => b,
    }
}
