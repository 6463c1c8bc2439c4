//! What a key file says.

use ferry_base::{Bytes, Id};

/// What a key file says.
#[derive(Drop)]
pub struct KeyFile {
    /// The id of the repository that the key is of.
    pub id: Id,
    /// The decoded key text: the msgpack bytes of the sealed repository key. Not empty in a file that was read.
    pub key: Bytes,
}
