//! Names among the words.

ghost use Rattle.std.specs.Prelude.{◌≡◌};

use ferry_base::Bytes;
use std::marker::Model;

/// Some names of archives, each the bytes of a word in UTF-8. Contracts see them as a list of lists.
#[derive(Drop)]
pub struct Names {
    names: Vec<Bytes>,
}

impl Model for Names {
    ghost use Rattle.std.specs.Prelude.{ℕ, List};

    ghost Value = { List (List ℕ) };

    ghost view = { λ a. a.names.items };
}

impl Names {
    /// These names.
    pub fn new(names: Vec<Bytes>) -> Names
        ensures names { result ≡ names.items }
    {
        Names { names }
    }

    /// The names, in the order given.
    pub fn as_slice(&self) -> &[Bytes]
        ensures names { result.now ≡ self.now }
    {
        self.names.as_slice()
    }
}
