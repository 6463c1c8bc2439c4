//! What is done to a repository's files, act by act.

use crate::name::Name;

/// What a call of a depot does where it is done. Bytes are owned.
#[derive(Debug, PartialEq, Eq, Drop)]
pub enum Kind {
    /// These bytes behind those of this segment, which is created where it is absent.
    Append(u64, Vec<u8>),
    /// What a read gives of this segment is stable.
    Sync(u64),
    /// This segment is gone.
    Remove(u64),
    /// This file, no segment, has these bytes alone.
    Replace(Name, Vec<u8>),
    /// All that a read gives is stable.
    Settle,
    /// The user was told this line.
    Tell(Vec<u8>),
}

/// An act of a run, and whether it was done.
#[derive(Debug, PartialEq, Eq, Drop)]
pub struct Act {
    pub kind: Kind,
    pub done: bool,
}
