//! Laws of the formats, each the contract of a function with nothing to do.
ghost use Rattle.std.specs.Prelude.{◌≡◌, ◌⊎◌, ◌++◌, ℕ, List, drop, None};
ghost use Rattle.ferry_segment.specs.Crc.{crc, crc_more};
ghost use Rattle.ferry_segment.specs.Entry.{LogEntry, CommitEntry, IsBytes, Fits, spelling, size_of, first_fault};
ghost use Rattle.ferry_segment.specs.Segment.{Splits, BreaksAt, magic};

use crate::segment::{COMMIT, COMMIT_SEGMENT, MAGIC};

/// A CRC goes on from that of the bytes before, and begins at 0.
pub fn crc_laws()
    ensures begins { (bytes : List ℕ) → crc bytes ≡ crc_more 0 bytes }
    ensures joined { (front bytes : List ℕ) → crc (front ++ bytes) ≡ crc_more (crc front) bytes }
{}

/// What is an entry breaks no rule, what breaks no rule is an entry, and no entry's bytes begin another's.
pub fn entry_laws()
    ensures apart { (d e : LogEntry) (x y : List ℕ) → Fits d → Fits e → spelling d ++ x ≡ spelling e ++ y → (d ≡ e) × (x ≡ y) }
    ensures right { (entry : LogEntry) (rest : List ℕ) → Fits entry → first_fault (spelling entry ++ rest) ≡ None }
    ensures read { (bytes : List ℕ) → IsBytes bytes → first_fault bytes ≡ None
        → (entry : LogEntry) × Fits entry × (bytes ≡ spelling entry ++ drop (size_of entry) bytes) }
{}

/// Bytes are split into entries in one way, or there is one first place that doesn't read, and never both.
pub fn segment_laws()
    ensures some { (bytes : List ℕ) → IsBytes bytes → ((entries : List LogEntry) × Splits bytes entries) ⊎ ((at : ℕ) × BreaksAt bytes at) }
    ensures apart { (bytes : List ℕ) (entries : List LogEntry) (at : ℕ) → Splits bytes entries → BreaksAt bytes at → ⊥ }
    ensures one_split { (bytes : List ℕ) (d e : List LogEntry) → Splits bytes d → Splits bytes e → d ≡ e }
    ensures one_place { (bytes : List ℕ) (a b : ℕ) → BreaksAt bytes a → BreaksAt bytes b → a ≡ b }
{}

/// The constants are the magic, a COMMIT, and a segment of both.
pub fn constants_spelled()
    ensures begins { MAGIC ≡ magic }
    ensures commit { COMMIT ≡ spelling CommitEntry }
    ensures segment { COMMIT_SEGMENT ≡ magic ++ spelling CommitEntry }
{}
