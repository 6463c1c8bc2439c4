//! What a manifest says.

ghost use Rattle.std.specs.Prelude.{◌≡◌};

pub(crate) mod laws;
pub(crate) mod reading;
pub(crate) mod writing;

use ferry_base::{Bytes, Id};
use ferry_msgpack::Value;
use std::marker::Model;

/// The root object of a repository.
///
/// Source: BorgBackup 1.2, Internals, "Data structures and file formats", The manifest.
#[derive(Drop)]
pub struct Manifest {
    /// When it was written, as text.
    pub timestamp: Option<Bytes>,
    /// The table `config`, which is kept as it is.
    pub config: Value,
    /// The names that items may have, in increasing byte order.
    pub item_keys: Names,
    /// The archives, in increasing byte order of their names.
    pub archives: ArchiveRefs,
    /// The table of all other names, which is kept as it is.
    pub more: Value,
}

/// An archive of a manifest.
#[derive(Drop)]
pub struct ArchiveRef {
    /// Its name.
    pub name: Bytes,
    /// The id of its record.
    pub id: Id,
    /// When it was made, as text.
    pub time: Bytes,
}

/// Some names, which contracts see as a list of lists.
#[derive(Drop)]
pub struct Names {
    names: Vec<Vec<u8>>,
}

impl Model for Names {
    ghost use Rattle.std.specs.Prelude.{ℕ, List, map};

    ghost Value = { List (List ℕ) };

    ghost view = { λ a. map (λ name. name.items) a.names.items };
}

impl Names {
    ghost use Rattle.std.specs.Prelude.{map};

    /// These names.
    pub fn new(names: Vec<Vec<u8>>) -> Names
        ensures names { result ≡ map (λ name. name.items) names.items }
    {
        Names { names }
    }

    /// The names.
    pub fn as_slice(&self) -> &[Vec<u8>]
        ensures names { map (λ name. name.items) result.now ≡ self.now }
    {
        self.names.as_slice()
    }
}

/// Some archives, which contracts see as a list.
#[derive(Drop)]
pub struct ArchiveRefs {
    archives: Vec<ArchiveRef>,
}

impl Model for ArchiveRefs {
    ghost use Rattle.std.specs.Prelude.{List};
    ghost use Rattle.ferry_manifest.specs.declared.manifest.ArchiveRef.{ArchiveRef};

    ghost Value = { List ArchiveRef };

    ghost view = { λ a. a.archives.items };
}

impl ArchiveRefs {
    /// These archives.
    pub fn new(archives: Vec<ArchiveRef>) -> ArchiveRefs
        ensures archives { result ≡ archives.items }
    {
        ArchiveRefs { archives }
    }

    /// The archives.
    pub fn as_slice(&self) -> &[ArchiveRef]
        ensures archives { result.now ≡ self.now }
    {
        self.archives.as_slice()
    }

    /// The archives, to be changed.
    pub fn into_vec(self) -> Vec<ArchiveRef>
        ensures archives { result.items ≡ self }
    {
        let ArchiveRefs { archives } = self;
        archives
    }
}
