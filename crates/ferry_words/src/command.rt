//! The commands.

use crate::names::Names;
use ferry_base::Bytes;

/// A command, with its options and operands; texts are the bytes of a word in UTF-8.
#[derive(Drop)]
pub enum Command {
    /// `keys`: lists the live keys of the source.
    Keys,
    /// `key`: opens the repository key of the source.
    Key,
    /// `list`: lists the archives of the source.
    List,
    /// `list NAME`: lists the items of an archive of the source.
    ListItems {
        /// The archive's name.
        name: Bytes,
    },
    /// `extract NAME PATH`: writes the contents of a file in an archive of the source.
    Extract {
        /// The archive's name.
        name: Bytes,
        /// The item's path.
        path: Bytes,
    },
    /// `check`: verifies the source.
    Check,
    /// `init [--iterations N] [--timestamp T]`: makes a repository in the target.
    Init {
        /// The iterations of PBKDF2 for the passphrase, 1 to 10000000.
        iterations: u32,
        /// The manifest's timestamp, where one is given.
        timestamp: Option<Bytes>,
    },
    /// `make-key [--iterations N]`: writes a key file.
    MakeKey {
        /// The iterations of PBKDF2 for the passphrase, 1 to 10000000.
        iterations: u32,
    },
    /// `transfer [--block B] [--checkpoint N] [--timestamp T] [NAME ..]`: copies archives of the source into the target.
    Transfer {
        /// The size in bytes of the pieces that contents are cut into, 64 to 8388608.
        block: usize,
        /// How many chunks are put before what is done is committed, 1 to 1000000.
        checkpoint: u64,
        /// The manifest's timestamp, where one is given.
        timestamp: Option<Bytes>,
        /// The archives' names, in the order given; none where no name is given.
        names: Names,
    },
    /// `plan [--block B] [NAME ..]`: counts what a transfer would put.
    Plan {
        /// The size in bytes of the pieces that contents are cut into, 64 to 8388608.
        block: usize,
        /// The archives' names, in the order given; none where no name is given.
        names: Names,
    },
    /// `delete [--timestamp T] NAME`: takes an archive out of the target.
    Delete {
        /// The manifest's timestamp, where one is given.
        timestamp: Option<Bytes>,
        /// The archive's name.
        name: Bytes,
    },
    /// `compact [--threshold P]`: writes again what segments of the target hold that is in use, and removes the segments.
    Compact {
        /// How many hundredths of a segment's bytes are unused where it is compacted, 0 to 100.
        threshold: u8,
    },
    /// `tag-archives [--timestamp T]`: gives each archive of the target an authentication tag whose record has none.
    TagArchives {
        /// The manifest's timestamp, where one is given.
        timestamp: Option<Bytes>,
    },
    /// `drill N`: copies a source of its own into a target, and checks it.
    Drill {
        /// How many archives the source has, 1 to 64.
        count: u32,
    },
}
