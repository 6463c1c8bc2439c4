//! What a config says.

use ferry_base::{Bytes, Id};

/// What the file `config` of a repository says.
#[derive(Drop)]
pub struct Config {
    /// The repository's id.
    pub id: Id,
    /// The decoded key text: the msgpack bytes of the sealed repository key. Empty where the key lies in a file of its own.
    pub key: Bytes,
    /// How many segments a folder below `data` holds, from 1 to 4294967295.
    pub per_dir: u64,
    /// The size of a segment, in bytes, from 1 to 4294967295.
    pub limit: u64,
}
