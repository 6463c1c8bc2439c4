//! The numbered files of a repository's folder: their names, and where below `data` they lie.
ghost use Rattle.std.specs.Prelude.{◌≡◌, ◌/◌, ◌↔◌, Some, IsTrue};
ghost use Rattle.std.specs.Int.NonZero.{non_zero_u64_get};
ghost use Rattle.std.specs.Option.{SomeIff};
ghost use Rattle.std.specs.Str.Parse.{digits_value};
ghost use Rattle.ferry_layout.specs.Names.{IsDecimal};
ghost use Rattle.ferry_layout.specs.Location.{folder_of, ComesBefore};

use std::num::NonZeroU64;

/// Where a segment's file lies. Of two files of one number the one at the earlier of these places counts.
#[derive(Clone, Copy, Debug, PartialEq, Eq)]
pub enum Location {
    /// In the folder of its own number.
    Own,
    /// In another folder, of this number; the lower number comes first.
    Folder(u64),
    /// Right below `data`.
    Data,
}

impl Location {
    /// Where segment `number` lies that was found in this folder, `None` being `data` itself. `per_folder` is how many segments a
    /// folder holds.
    pub fn of(number: u64, folder: Option<u64>, per_folder: NonZeroU64) -> Location
        ensures lies { folder_of result number (non_zero_u64_get per_folder) ≡ folder }
        ensures own { (result ≡ Location.Own) ↔ (folder ≡ Some (number / non_zero_u64_get per_folder)) }
    {
        match folder {
            None => Location::Data,
            Some(folder) if folder == own_folder(number, per_folder) => Location::Own,
            Some(folder) => Location::Folder(folder),
        }
    }

    /// The folder of `data` that a segment lies in, `None` being `data` itself.
    pub fn folder(self, number: u64, per_folder: NonZeroU64) -> Option<u64>
        ensures { result ≡ folder_of self number (non_zero_u64_get per_folder) }
    {
        match self {
            Location::Own => Some(own_folder(number, per_folder)),
            Location::Folder(folder) => Some(folder),
            Location::Data => None,
        }
    }

    /// Whether a file here counts before one there.
    pub fn comes_before(self, other: Location) -> bool
        ensures { IsTrue result ↔ ComesBefore self other }
    {
        match (self, other) {
            (_, Location::Own) | (Location::Data, _) => false,
            (Location::Folder(folder), Location::Folder(other)) => folder < other,
            _ => true,
        }
    }
}

/// The folder of `data` where a segment belongs, where a folder holds `per_folder` of them.
pub fn own_folder(number: u64, per_folder: NonZeroU64) -> u64
    ensures { result ≡ number / non_zero_u64_get per_folder }
{
    number / per_folder.get()
}

/// The number that a file's name writes: digits alone, no leading zero but `0` itself, below 2^64.
pub fn number_of(name: &str) -> Option<u64>
    ensures { SomeIff result (IsDecimal name.now) (digits_value 10 name.now) }
{
    match name.as_bytes() {
        [b'0'] => Some(0),
        [b'1'..=b'9', ..] => name.parse().ok(),
        _ => None,
    }
}
