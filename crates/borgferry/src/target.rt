//! What only the target is refused for, and what limits it meets, in plain words.

use crate::refusal::{COMPRESSED, TAG, of_repo};
use ferry_base::ZERO_ID;
use ferry_blob::BlobFault;
use ferry_manifest::MetaFault;
use ferry_nonce::NonceFault;
use ferry_real::Presence;
use ferry_top::{Limit, RepoFault};

/// Where the target's device failed.
pub const TARGET: &str =
    "{file} can't be read or written{why}: see that TARGET is a folder, that you may write all of it and that its disk has room";

/// Where the folder isn't there that the target's is to be made in.
pub const PARENT: &str =
    "the folder {file} isn't there, in which TARGET is to be made: make it first, or see how TARGET is spelled, where a ~ in quotes stays as it is";

/// Where the system hands out no random bytes.
pub const ENTROPY: &str =
    "the system hands out no random bytes{why}, without which no key is made: see that /dev/urandom can be read";

/// Where a repository is to be made over another.
pub const COMMITTED: &str =
    "there is a repository in TARGET already, and none is made over it: name a folder that is empty or isn't there";

/// Where records are to get tags and an archive of the target doesn't read.
const UNTAGGABLE: &str =
    "TARGET has an archive that doesn't read, and while it has one no record gets a tag, since an object might go that it uses: borg delete --force --force TARGET::NAME takes it out, and then borgferry-plain TARGET makes the manifest plain";

/// Where an archive is to be deleted and one of the target doesn't read, it or another.
const UNREAD: &str =
    "TARGET has an archive that doesn't read, and while it has one none is deleted, since a chunk might go that it uses: borg delete --force --force TARGET::NAME takes it out, and then borgferry-plain TARGET makes the manifest plain";

/// A target of which no archive is deleted. All archives have to read for that, so what the fault names may be an object of any.
pub fn of_deletion(fault: &RepoFault, presence: Presence) -> &'static str {
    of_reading(fault, presence, UNREAD)
}

/// A target whose records get no tags. All archives have to read for that, too.
pub fn of_tagging(fault: &RepoFault, presence: Presence) -> &'static str {
    of_reading(fault, presence, UNTAGGABLE)
}

/// A target of which all archives have to read, with the text for one that doesn't and that nothing makes read.
fn of_reading(fault: &RepoFault, presence: Presence, unread: &'static str) -> &'static str {
    match fault {
        RepoFault::Blob(_, BlobFault::Compressed) => COMPRESSED,
        RepoFault::Archive(_, MetaFault::Tag) => TAG,
        RepoFault::Missing(id) | RepoFault::Blob(id, _) if *id != ZERO_ID => unread,
        RepoFault::Archive(_, _) | RepoFault::Item(_, _) => unread,
        _ => of_repo(fault, presence),
    }
}

/// The file `nonce`.
pub fn of_nonce(fault: NonceFault) -> &'static str {
    match fault {
        NonceFault::Missing => {
            "TARGET has no file nonce, without which nothing is encrypted for it: take the file of the newest copy of TARGET"
        }
        _ => {
            "TARGET/nonce isn't 16 hex digits: take the file of the newest copy of TARGET, or remove it where TARGET never was a repository"
        }
    }
}

/// A limit that is met.
pub fn of_limit(limit: Limit) -> &'static str {
    match limit {
        Limit::Nonce => {
            "the counter of TARGET's cipher has no numbers left for what is to be written: make a repository with a new key elsewhere"
        }
        Limit::Manifest => {
            "the manifest would be longer than an object may be: give a shorter timestamp, or make another repository"
        }
        Limit::Archive => {
            "the archive's record would be longer than an object may be, so the archive can't be written"
        }
        Limit::Segment => {
            "the numbers of TARGET's segments are used up: make another repository"
        }
        Limit::Item => {
            "a file has more chunks than an item may have: a larger --block makes them fewer"
        }
    }
}
