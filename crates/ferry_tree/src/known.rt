//! What is known of the paths of a tree.
ghost use Rattle.std.specs.Prelude.{◌≡◌, ℕ, List, None, Some, IfOk, OnOk, option_map, is_some, if◌then◌else◌};
ghost use Rattle.std.specs.Str.{bytes_eq};
ghost use Rattle.ferry_tree.specs.Index.{known_in};
ghost use Rattle.ferry_tree.specs.declared.known.Mark.{Mark as TheMark};

use ferry_base::Bytes;
use std::alloc::{AllocError, Global};
use std::collections::BTreeMap;

/// What is known of a node: its kind.
#[derive(Drop)]
pub(crate) enum Mark {
    Folder,
    File,
    Link,
    /// A hard link of the file at this path.
    Same(Bytes),
}

/// What is known of each path of a tree where something is.
#[derive(Drop)]
pub(crate) struct Index {
    marks: BTreeMap<Vec<u8>, Mark>,
}

impl Index {
    /// Nothing is known.
    pub(crate) fn new(alloc: Global) -> Index
        ensures none { (path : List ℕ) → known_in result path ≡ None }
    {
        Index {
            marks: BTreeMap::new(alloc),
        }
    }

    /// What is known of a path.
    pub(crate) fn at(&self, path: &[u8]) -> Option<&Mark>
        ensures mark { option_map (λ m. m.now) result ≡ known_in self.now path.now }
    {
        self.marks.get(path)
    }

    /// Keeps what was made at a path. What was known of it is gone.
    pub(crate) fn put(&mut self, alloc: Global, path: &[u8], mark: Mark) -> Result<(), AllocError>
        ensures put { OnOk result ((other : List ℕ)
            → known_in self.new other ≡ (if bytes_eq path.now other then Some mark else known_in self.old other)) }
    {
        let path = Vec::from_slice(alloc, path)?;
        drop(self.marks.insert(path, mark)?);
        Ok(())
    }
}
