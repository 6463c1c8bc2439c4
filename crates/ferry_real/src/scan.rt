//! Which of the bytes that are read of a repository are read to open it.

use ferry_disk::Name;

/// How far the log of a repository is read. Each of its segments is sized, and then read forward to its end;
/// other reads go elsewhere.
#[derive(Clone, Copy)]
pub struct Scan {
    /// The file that was sized last, where it is being read.
    name: Option<Name>,
    /// The first byte of it that wasn't read.
    next: u64,
}

impl Scan {
    /// Nothing is being read.
    pub fn new() -> Scan {
        Scan {
            name: None,
            next: 0,
        }
    }

    /// A file was sized.
    pub fn begin(&mut self, name: Name) {
        self.name = Some(name);
        self.next = 0;
    }

    /// Whether so many bytes from byte `at` of a file on were read to open the repository. With the first
    /// that weren't the log has been read.
    pub fn takes(&mut self, name: Name, at: u64, count: usize) -> bool {
        let end = at.saturating_add(count as u64);
        let is_log = self.name == Some(name) && at <= self.next && self.next < end;
        if is_log {
            self.next = end;
        } else {
            self.name = None;
        }
        is_log
    }
}
