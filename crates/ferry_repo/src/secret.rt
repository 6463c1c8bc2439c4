//! What opens the key of a repository.

use ferry_base::Bytes;

/// What opens the key of a repository: a passphrase, and the bytes of a key file where there is one.
///
/// There is no `Debug`, so that no message can show a secret.
#[derive(Drop)]
pub struct Secret {
    pub passphrase: Bytes,
    /// The bytes of the key file, none where there is no key file. They are looked at only where `config` has no key.
    pub key_file: Bytes,
}
