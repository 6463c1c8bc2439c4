//! What stands at a path of a tree.

/// What stands at a path of a tree.
#[derive(Drop, Debug, PartialEq, Eq)]
pub enum Node {
    /// A folder.
    Folder,
    /// A file of these bytes.
    File(Vec<u8>),
    /// A symbolic link to this target.
    Link(Vec<u8>),
    /// A hard link of the file at this path.
    Same(Vec<u8>),
}
