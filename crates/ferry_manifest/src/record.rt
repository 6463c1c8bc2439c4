//! What an archive's record says.

ghost use Rattle.std.specs.Prelude.{◌≡◌};

pub(crate) mod laws;
pub(crate) mod reading;
pub(crate) mod writing;

use ferry_base::{Bytes, Id};
use ferry_msgpack::Value;
use std::marker::Model;

/// The record of an archive, the object that the manifest names for it.
///
/// Source: BorgBackup 1.2, Internals, "Data structures and file formats", Archives.
#[derive(Drop)]
pub struct Archive {
    /// Its name, which also stands among the fields.
    pub name: Bytes,
    /// The ids of the objects whose contents, joined, are the archive's items.
    pub items: Ids,
    /// The value of `chunker_params`, which is kept as it is.
    pub params: Option<Value>,
    /// The table of all names but `items`, `chunker_params` and `tam`, which is kept as it is.
    pub fields: Value,
    /// Whether the record that was read has an authentication tag. What is written has one.
    pub tagged: bool,
}

/// Some ids of objects, which contracts see as a list of lists.
#[derive(Drop)]
pub struct Ids {
    ids: Vec<Id>,
}

impl Model for Ids {
    ghost use Rattle.std.specs.Prelude.{ℕ, List};

    ghost Value = { List (List ℕ) };

    ghost view = { λ a. a.ids.items };
}

impl Ids {
    /// These ids.
    pub fn new(ids: Vec<Id>) -> Ids
        ensures ids { result ≡ ids.items }
    {
        Ids { ids }
    }

    /// The ids.
    pub fn as_slice(&self) -> &[Id]
        ensures ids { result.now ≡ self.now }
    {
        self.ids.as_slice()
    }

    /// The ids, to be changed.
    pub fn into_vec(self) -> Vec<Id>
        ensures ids { result.items ≡ self }
    {
        let Ids { ids } = self;
        ids
    }
}
