//! What a key says.

use ferry_base::Id;
use ferry_mac::Keys;
use ferry_msgpack::Value;

/// What the repository key says once it is opened.
///
/// There is no `Debug`, so that no message can show it.
#[derive(Drop)]
pub struct KeyText {
    /// The secrets.
    pub keys: Keys,
    /// The id of the repository that the key was made for. It is compared with nothing.
    pub repository_id: Id,
    /// The seed of the chunker, from -2^63 to 2^64-1.
    pub chunk_seed: i128,
    /// The other names with their values, as a table.
    pub more: Value,
}
