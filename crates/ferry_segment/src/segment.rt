//! A whole segment: its magic, the constants of a commit, and whether it is committed.
ghost use Rattle.std.specs.Prelude.{◌≡◌, ◌↔◌, ◌++◌, IsTrue};
ghost use Rattle.ferry_segment.specs.Entry.{entry_view};
ghost use Rattle.ferry_segment.specs.Segment.{Committed, commits};

use crate::entry::{Entry, read_entry};

/// The eight bytes that a segment begins with, `BORG_SEG`.
pub const MAGIC: [u8; 8] = *b"BORG_SEG";

/// The bytes of a COMMIT.
pub const COMMIT: [u8; 9] = [0x40, 0xf4, 0x3c, 0x25, 9, 0, 0, 0, 2];

/// A segment of the magic and one COMMIT, with which a transaction ends.
pub const COMMIT_SEGMENT: [u8; 17] = [
    b'B', b'O', b'R', b'G', b'_', b'S', b'E', b'G', 0x40, 0xf4, 0x3c, 0x25, 9, 0, 0, 0, 2,
];

/// Whether the bytes are a committed segment: a COMMIT stands last, and nothing but COMMITs follows the first.
pub fn is_committed(bytes: &[u8]) -> bool
    ensures { IsTrue result ↔ Committed bytes.now }
{
    if !bytes.starts_with(&MAGIC) {
        return false;
    }
    let mut at = MAGIC.len();
    let mut closed = false;
    while at < bytes.len() {
        let Ok((entry, end)) = read_entry(bytes, at) else {
            return false;
        };
        let commits = is_commit(&entry);
        if closed && !commits {
            return false;
        }
        closed = commits;
        at = end;
    }
    closed
}

/// Whether an entry is a COMMIT.
fn is_commit(entry: &Entry) -> bool
    ensures { result ≡ commits (entry_view entry.now) }
{
    matches!(entry, Entry::Commit)
}
