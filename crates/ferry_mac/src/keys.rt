/// The secrets of a repository, each of 32 bytes.
///
/// There is no `Debug`, so that no message can show them.
///
/// Source: BorgBackup 1.2, Internals, "Data structures and file formats", Encryption.
#[derive(Clone, Copy, PartialEq, Eq)]
pub struct Keys {
    /// Encrypts a content, by AES-256 in counter mode.
    pub enc_key: [u8; 32],
    /// Authenticates an encrypted content, by HMAC-SHA-256.
    pub enc_hmac_key: [u8; 32],
    /// Makes a content's id, by HMAC-SHA-256.
    pub id_key: [u8; 32],
}
