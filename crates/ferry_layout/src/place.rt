//! The paths of a repository's files.

use ferry_disk::{Name, StoreFault};
use std::alloc::{AllocError, Global};

/// The word that stands for no folder.
const NO_FOLDER: &str = "-";

/// The paths of a repository's folder and of the one that it lies in.
#[derive(Drop)]
pub struct Place {
    alloc: Global,
    path: String,
    parent: String,
}

impl Place {
    /// The place that a word names, `None` where it stands for no folder: the word `-` and the empty one.
    pub fn named(alloc: Global, word: &str) -> Result<Option<Place>, AllocError> {
        if word == NO_FOLDER || word.is_empty() {
            return Ok(None);
        }
        let mut parent = String::from_str(alloc, word)?;
        parent.push_str("/..")?;
        let path = String::from_str(alloc, word)?;
        Ok(Some(Place {
            alloc,
            path,
            parent,
        }))
    }

    /// The folder itself.
    pub fn path(&self) -> &str {
        self.path.as_str()
    }

    /// The folder that it lies in.
    pub fn parent(&self) -> &str {
        self.parent.as_str()
    }

    /// The folder `data`.
    pub fn data(&self) -> Result<String, StoreFault> {
        self.path_to("data")
    }

    /// A numbered folder of `data`.
    pub fn folder(&self, folder: u64) -> Result<String, StoreFault> {
        path_of(format!(in self.alloc; "{}/data/{folder}", self.path))
    }

    /// A segment that lies in this folder of `data`, `None` being `data` itself.
    pub fn segment(&self, number: u64, folder: Option<u64>) -> Result<String, StoreFault> {
        path_of(match folder {
            Some(folder) => format!(in self.alloc; "{}/data/{folder}/{number}", self.path),
            None => format!(in self.alloc; "{}/data/{number}", self.path),
        })
    }

    /// What has this name in the folder.
    pub fn path_to(&self, name: &str) -> Result<String, StoreFault> {
        path_of(format!(in self.alloc; "{}/{name}", self.path))
    }

    /// The file that is written before it takes the place of the one of this name. No reader takes it for one.
    pub fn beside(&self, name: &str) -> Result<String, StoreFault> {
        path_of(format!(in self.alloc; "{}/{name}.borgferry-new", self.path))
    }
}

/// A file's name in the folder, `None` for a segment's.
pub fn file_name(name: Name) -> Option<&'static str> {
    match name {
        Name::Config => Some("config"),
        Name::Nonce => Some("nonce"),
        Name::Readme => Some("README"),
        Name::Segment(_) => None,
    }
}

/// The folder that a path of several names leads into: the path without its last name.
pub fn folder_of_path(path: &str) -> &str {
    match path.rsplit_once('/') {
        Some((folder, _)) => folder,
        None => path,
    }
}

/// The folder that lies in front of a path of a user, whose last name may have slashes behind it.
pub fn parent_of_path(path: &str) -> &str {
    match path.trim_end_matches('/').rsplit_once('/') {
        Some((folder, _)) if folder.trim_end_matches('/').is_empty() => "/",
        Some((folder, _)) => folder.trim_end_matches('/'),
        None => ".",
    }
}

/// A path that was put together, for which memory may have been refused.
fn path_of<E: Drop>(path: Result<String, E>) -> Result<String, StoreFault> {
    match path {
        Ok(path) => Ok(path),
        Err(_) => Err(StoreFault::Memory),
    }
}
