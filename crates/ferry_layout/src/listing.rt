//! The segments that were found below `data`, each with the place that counts.
ghost use Rattle.std.specs.Prelude.{◌≡◌, ◌≢◌, ℕ, IfOk};
ghost use Rattle.std.specs.Ordering.{nat_cmp};
ghost use Rattle.std.specs.List.Sorted.{IsStrictlyIncreasing};
ghost use Rattle.std.specs.BTreeMap.{get, keys, IsOrdered};
ghost use Rattle.ferry_layout.specs.Location.{Counts};

use crate::names::{Location, own_folder};
use std::alloc::{AllocError, Global};
use std::collections::BTreeMap;
use std::num::NonZeroU64;

/// The places of segments, by number.
pub type Places = BTreeMap<u64, Location>;

/// What was found below `data`.
#[derive(Drop)]
pub struct Listing {
    /// How many segments a folder holds.
    per_folder: NonZeroU64,
    /// Each segment's file that counts.
    pub places: Places,
    /// The files whose number has a file at a better place.
    pub spare: Vec<(u64, Location)>,
    /// The numbered folders.
    pub folders: Vec<u64>,
}

impl Listing {
    /// Nothing yet.
    pub fn new(alloc: Global, per_folder: NonZeroU64) -> Listing {
        Listing {
            per_folder,
            places: Places::new(alloc),
            spare: Vec::new(alloc),
            folders: Vec::new(alloc),
        }
    }

    /// Adds a file of segment `number` that lies in this folder, `None` being `data` itself.
    pub fn add(&mut self, number: u64, folder: Option<u64>) -> Result<(), AllocError> {
        let location = Location::of(number, folder, self.per_folder);
        if let Some(spare) = note(&mut self.places, number, location)? {
            self.spare.push((number, spare))?;
        }
        Ok(())
    }

    /// The folder where a segment belongs.
    pub fn own_folder(&self, number: u64) -> u64 {
        own_folder(number, self.per_folder)
    }

    /// The folder that a segment's file there lies in, `None` being `data` itself.
    pub fn folder(&self, number: u64, location: Location) -> Option<u64> {
        location.folder(number, self.per_folder)
    }

    /// The folder that the file of a segment lies in that counts, where there is one; `Some(None)` is `data` itself.
    pub fn folder_of(&self, number: u64) -> Option<Option<u64>> {
        let location: Option<Location> = self.places.get(&number).copied();
        location.map(|location| self.folder(number, location))
    }

    /// Takes out a segment.
    pub fn take_out(&mut self, number: u64) {
        self.places.remove(&number);
        self.spare.retain(|spare| spare.0 != number);
    }
}

/// Notes that a file of segment `number` lies there. Of two the one at the better place counts, and the other's place is the answer.
pub fn note(
    found: &mut Places,
    number: u64,
    location: Location,
) -> Result<Option<Location>, AllocError>
    ensures place { IfOk result (λ spare. Counts (get nat_cmp found.old number) location (get nat_cmp found.new number) spare) }
    ensures others { (q : ℕ) → q ≢ number → get nat_cmp found.new q ≡ get nat_cmp found.old q }
{
    match found.get(&number) {
        Some(known) if !location.comes_before(*known) => Ok(Some(location)),
        _ => Ok(found.insert(number, location)?),
    }
}

/// The numbers that were found, increasing.
pub fn numbers(alloc: Global, found: &Places) -> Result<Vec<u64>, AllocError>
    ensures keys { IfOk result (λ numbers. numbers.items ≡ keys found.now) }
    ensures increasing { IfOk result (λ numbers. IsStrictlyIncreasing numbers.items) }
{
    keys_of(alloc, found)
}

/// The keys of a map, in order.
fn keys_of(alloc: Global, map: &Places) -> Result<Vec<u64>, AllocError>
    ensures keys { IfOk result (λ numbers. numbers.items ≡ keys map.now) }
    ensures ordered { IsOrdered nat_cmp map.now }
{
    map.keys().copied().collect(alloc)
}
