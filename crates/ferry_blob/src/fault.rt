ghost use Rattle.std.specs.Prelude.{◌≡◌};

use thiserror::Error;

/// Why a blob doesn't open. They are looked for in the order `Short`, `Kind`, `Mac`, `Compressed`,
/// `Id`.
#[derive(Clone, Copy, Debug, PartialEq, Eq, Error)]
pub enum BlobFault {
    /// The type is neither 03 nor 00.
    #[error("the type of the blob is neither 03 nor 00")]
    Kind = 1,
    /// Fewer than 43 bytes.
    #[error("the blob has fewer than 43 bytes")]
    Short = 2,
    /// The MAC is another one.
    #[error("the MAC of the blob is another one")]
    Mac = 3,
    /// The compression header isn't 00 00, which stands for no compression.
    #[error("the content of the blob is compressed")]
    Compressed = 4,
    /// The id isn't that of the content.
    #[error("the id isn't that of the content")]
    Id = 5,
}

impl BlobFault {
    ghost use Rattle.ferry_blob.specs.Fault.{number_of_fault};

    /// The number of the fault in printed lines, from 1 to 5.
    pub fn number(&self) -> u8
        ensures number { result ≡ number_of_fault self.now }
    {
        *self as u8
    }
}
