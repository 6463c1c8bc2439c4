//! Repositories on shelves in memory, and parts of manifests.
ghost use Rattle.std.specs.Prelude.{◌≡◌, IfOk};

use ferry_base::{Bytes, Id};
use ferry_disk::{MemoryShelf, Name, Shelf, StoreFault};
use ferry_manifest::ArchiveRef;
use ferry_repo::{Repo, RepoFault, Secret};
use hex::FromHexError;
use std::alloc::{AllocError, Global};
use std::mem;

/// The `config` of each repository, and its key, which the passphrase opens with one iteration.
const CONFIG: &str = "[repository]\nversion = 1\n\
    id = 0000000000000000000000000000000000000000000000000000000000000000\n\
    key = 3wAAAAbbAAAACWFsZ29yaXRobdsAAAAGc2hhMjU22wAAAARkYXRh2wAAARINUwE2Ll7fdW1b3j+A1ntd\
    QpVf3UWmNLbIYOnV464GEZ6VRWMPNBhexZ0I/az+zrUkV1iQly8Dh2gPuSmUJ+/ynJiOkBhKvoVWdgxz\
    Sv00BS+fIpBbiCStXe7hed2AJpQW2Ap2lIWprOn0Lt2mRCVMxoCTTlIopLlBhPZ/iFB96He379lOQiqr\
    mNaDThD6ieDt6pUKU/Y17WIIYB1nO4ZixHdj+dFyEz9umis9FxFPQt14roYuyIAEdp7PflAICv8PMhcL\
    yZjdsBjbs1mfzsdm/8XcMvafPVvC5YDNY6Rt2W7DMzFmDjlEIQaFg1M+5GbSFZl2Mn6ak3rVFkw/goQk\
    r4LyjLtltERXwmqOop6jQIhx2wAAAARoYXNo2wAAACA2y6QnWTNKlvyLg2qDMeCMTJPWjc5H6Xri0/oT\
    frIxVtsAAAAKaXRlcmF0aW9uc88AAAAAAAAAAdsAAAAEc2FsdNsAAAAgAAECAwQFBgcICQoLDA0ODxAR\
    EhMUFRYXGBkaGxwdHh/bAAAAB3ZlcnNpb27PAAAAAAAAAAE=\n";

/// A segment that ends a transaction.
pub(crate) const COMMITTED: &str = "424f52475f53454740f43c250900000002";

/// A shelf in memory that tells nothing, so that its files may change.
#[derive(Drop)]
pub(crate) struct Silent {
    pub(crate) shelf: MemoryShelf,
}

impl Shelf for Silent {
    ghost use Rattle.std.specs.Prelude.{None};

    ghost told = { λ _. None };

    ghost faults = { λ s. s.shelf.faults };

    fn segments(&mut self, alloc: Global) -> Result<Vec<u64>, StoreFault> {
        self.shelf.segments(alloc)
    }

    fn size(&mut self, name: Name) -> Result<Option<u64>, StoreFault> {
        self.shelf.size(name)
    }

    fn read_at(&mut self, name: Name, at: u64, into: &mut [u8]) -> Result<usize, StoreFault> {
        self.shelf.read_at(name, at, into)
    }
}

/// A repository, and the shelf on which it was opened.
#[derive(Drop)]
pub(crate) struct Opened {
    pub(crate) repo: Repo,
    pub(crate) shelf: Silent,
}

/// Puts a file of these bytes.
fn push_file(
    files: &mut Vec<(Name, Vec<u8>)>,
    name: Name,
    bytes: Vec<u8>,
) -> Result<(), AllocError> {
    files.push((name, bytes))?;
    Ok(())
}

/// Puts a file of these digits.
fn put_file(
    alloc: Global,
    files: &mut Vec<(Name, Vec<u8>)>,
    name: Name,
    digits: &str,
) -> Result<(), FromHexError> {
    Ok(push_file(files, name, hex::decode(alloc, digits)?)?)
}

/// Puts the files of a repository of these two segments.
fn put_files(
    alloc: Global,
    files: &mut Vec<(Name, Vec<u8>)>,
    segments: &[&'static str; 2],
) -> Result<(), FromHexError> {
    put_file(alloc, files, Name::Segment(0), segments[0])?;
    put_file(alloc, files, Name::Segment(1), segments[1])?;
    let config = Vec::from_slice(alloc, CONFIG.as_bytes())?;
    Ok(push_file(files, Name::Config, config)?)
}

/// The files of a repository of these two segments.
fn files_of(
    alloc: Global,
    segments: &[&'static str; 2],
) -> Result<Vec<(Name, Vec<u8>)>, FromHexError> {
    let mut files = Vec::new(alloc);
    match put_files(alloc, &mut files, segments) {
        Ok(()) => Ok(files),
        Err(fault) => {
            drop(files);
            Err(fault)
        }
    }
}

/// A shelf with a repository of these two segments, of which the calls of these numbers fail.
pub(crate) fn shelf_of(
    alloc: Global,
    segments: &[&'static str; 2],
    failing: &[u64],
) -> Result<MemoryShelf, FromHexError> {
    let failing = Vec::from_slice(alloc, failing)?;
    Ok(MemoryShelf::new(alloc, files_of(alloc, segments)?, failing)?)
}

/// Puts another shelf in the place of one.
pub(crate) fn put_shelf(silent: &mut Silent, shelf: MemoryShelf) {
    drop(mem::replace(&mut silent.shelf, shelf));
}

/// A passphrase and this key file.
pub(crate) fn secret_of(
    alloc: Global,
    passphrase: &[u8],
    key_file: &[u8],
) -> Result<Secret, AllocError> {
    Ok(Secret {
        passphrase: Bytes::new(Vec::from_slice(alloc, passphrase)?),
        key_file: Bytes::new(Vec::from_slice(alloc, key_file)?),
    })
}

/// The repository on a shelf.
fn repo_on(alloc: Global, shelf: &mut Silent) -> Result<Repo, RepoFault> {
    let secret = secret_of(alloc, b"passphrase", b"")?;
    let repo = Repo::open(alloc, shelf, &secret);
    drop(secret);
    repo
}

/// The repository of these two segments, on a shelf that tells nothing.
pub(crate) fn repository_of(alloc: Global, segments: &[&'static str; 2]) -> Option<Opened> {
    let Ok(shelf) = shelf_of(alloc, segments, &[]) else {
        return None;
    };
    let mut shelf = Silent { shelf };
    match repo_on(alloc, &mut shelf) {
        Ok(repo) => Some(Opened { repo, shelf }),
        Err(_) => {
            drop(shelf);
            None
        }
    }
}

/// Puts these names.
fn put_names(
    alloc: Global,
    names: &mut Vec<Vec<u8>>,
    texts: &[&'static [u8]],
) -> Result<(), AllocError> {
    for text in texts {
        names.push(Vec::from_slice(alloc, *text)?)?;
    }
    Ok(())
}

/// These names.
pub(crate) fn names(alloc: Global, texts: &[&'static [u8]]) -> Result<Vec<Vec<u8>>, AllocError> {
    let mut names = Vec::new(alloc);
    match put_names(alloc, &mut names, texts) {
        Ok(()) => Ok(names),
        Err(fault) => {
            drop(names);
            Err(fault)
        }
    }
}

/// The entry of an archive of this name.
pub(crate) fn entry(alloc: Global, name: &[u8]) -> Result<ArchiveRef, AllocError>
    ensures name { IfOk result (λ entry. entry.name ≡ name.now) }
{
    Ok(ArchiveRef {
        name: Bytes::new(Vec::from_slice(alloc, name)?),
        id: [7; 32],
        time: Bytes::new(Vec::from_slice(alloc, b"noon")?),
    })
}

/// The id of 64 digits, zeros where there are others.
pub(crate) fn id_of(digits: &str) -> Id {
    let mut id = [0; 32];
    let _ = hex::decode_to_slice(digits, &mut id);
    id
}
