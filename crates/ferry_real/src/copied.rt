//! Which archives a command has told of as copied.

use std::alloc::Global;

/// What a line begins with that tells of a copied archive.
const COPIED: &[u8] = b"transferred ";

/// The archives that the lines of a target have told of as copied: how many, and the name of the last one as it was printed.
#[derive(Drop)]
pub struct Copied {
    alloc: Global,
    count: u64,
    last: Vec<u8>,
}

impl Copied {
    /// None yet.
    pub fn new(alloc: Global) -> Copied {
        Copied {
            alloc,
            count: 0,
            last: Vec::new(alloc),
        }
    }

    /// Takes a line that was told. Where memory is refused for the name, the last one has none.
    pub fn take(&mut self, line: &[u8]) {
        let line = line.strip_suffix(b"\n").unwrap_or(line);
        if let Some(name) = line.strip_prefix(COPIED) {
            self.count = self.count.saturating_add(1);
            self.last = Vec::from_slice(self.alloc, name).unwrap_or(Vec::new(self.alloc));
        }
    }

    /// How many archives were copied.
    pub fn count(&self) -> u64 {
        self.count
    }

    /// The name of the last one, as it was printed.
    pub fn last(&self) -> &[u8] {
        self.last.as_slice()
    }
}
