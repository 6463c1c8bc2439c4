ghost use Rattle.std.specs.Prelude.{◌≡◌};
ghost use Rattle.ferry_blob.specs.Blob.{has_type, type_of};

/// Where the key of a repository lies. The mode gives a blob its type, which isn't under the MAC: blobs of both types open in both
/// modes.
///
/// Source: BorgBackup 1.2, Internals, "Data structures and file formats", Encryption.
#[derive(Clone, Copy, Debug, PartialEq, Eq)]
pub enum Mode {
    /// In the repository's `config`.
    Repokey,
    /// In a key file outside of the repository.
    Keyfile,
}

/// The type of the blobs of a mode.
pub(crate) fn type_of(mode: Mode) -> u8
    ensures kind { result ≡ type_of mode }
{
    match mode {
        Mode::Repokey => 3,
        Mode::Keyfile => 0,
    }
}

/// Whether the first byte of a blob is the type of a mode.
#[tactic(auto, unfolding(crate::specs::Blob::has_type))]
pub(crate) fn has_type(kind: u8) -> bool
    ensures kind { result ≡ has_type kind }
{
    kind == type_of(Mode::Repokey) || kind == type_of(Mode::Keyfile)
}
