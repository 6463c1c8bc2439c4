//! The names of a repository's files.

/// A file of a repository. Source: BorgBackup 1.2, Internals, Repository.
#[derive(Clone, Copy, Debug, PartialEq, Eq, PartialOrd, Ord)]
pub enum Name {
    /// The settings and the encrypted key.
    Config,
    /// The first block number of the cipher's counter that isn't reserved.
    Nonce,
    /// The text that says what the folder is.
    Readme,
    /// The segment of this number.
    Segment(u64),
}
