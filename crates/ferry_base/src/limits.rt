//! The ids of objects, and the sizes that a repository allows.

/// The 32 bytes that name an object: the HMAC-SHA-256 of its content under the id key.
pub type Id = [u8; 32];

/// The id under which the manifest stands.
pub const ZERO_ID: Id = [0; 32];

/// The most bytes of an entry, 20 MiB (Internals, Segments).
pub const ENTRY_LIMIT: usize = 20_971_520;

/// The bytes of a PUT before its blob: a checksum of 4, a size of 4, a tag of 1, and a key of 32.
pub const PUT_HEAD: usize = 41;

/// The most bytes of a blob, so that its PUT is an entry.
pub const BLOB_LIMIT: usize = 20_971_479;

/// The most bytes of a content: in its blob stand a type of 1, an authentication code of 32, a counter of 8 and a compression
/// header of 2 before it.
pub const CONTENT_LIMIT: usize = 20_971_436;

const _: () = prove!(BLOB_LIMIT + PUT_HEAD == ENTRY_LIMIT);

const _: () = prove!(CONTENT_LIMIT + 43 == BLOB_LIMIT);
