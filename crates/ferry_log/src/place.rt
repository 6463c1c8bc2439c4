//! Places in the segments of a repository.

/// Where the blob of a PUT lies: its segment, the offset of its first byte in it, and its length in bytes.
#[derive(Clone, Copy, Debug, PartialEq, Eq)]
pub struct Place {
    pub segment: u64,
    pub at: u64,
    pub size: u32,
}

/// A segment of the log, its length in bytes, and the sizes in bytes of its live entries together.
#[derive(Clone, Copy, Debug, PartialEq, Eq)]
pub struct Extent {
    pub segment: u64,
    pub size: u64,
    pub live: u64,
}
