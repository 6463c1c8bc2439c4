//! One log entry: its parts, its reader and its writers.
ghost use Rattle.std.specs.Prelude.{◌≡◌, ◌≤◌, ◌+◌, ◌∷◌, ◌++◌, List, ℕ, length, take, drop, IfOk, IsOkAnd, MatchResult};
ghost use Rattle.std.specs.Int.{w32, from_le_bytes};
ghost use Rattle.ferry_base.specs.Limits.{blob_limit};
ghost use Rattle.ferry_segment.specs.Entry.{LogEntry, PutEntry, DeleteEntry, entry_view, spelling, size_of, Fits, IsEntryAt, first_fault};
ghost use Rattle.ferry_segment.specs.Crc.{all_ones, register_after};
ghost use Rattle.ferry_segment.specs.Head.{entry_with};

use crate::crc::{ALL_ONES, after_bytes, crc32};
use crate::head::{DELETE, Head, PUT, read_head};
use ferry_base::{Id, PUT_HEAD};
use thiserror::Error;

/// A log entry. The blob of a PUT borrows from the bytes that were read.
#[derive(Clone, Copy, Debug, PartialEq, Eq)]
pub enum Entry<'a> {
    /// Stores the object's encrypted bytes under its id.
    Put { key: Id, blob: &'a [u8] },
    /// Takes the object of this id away.
    Delete { key: Id },
    /// Ends a transaction.
    Commit,
}

/// Why no entry reads at a place, in the order of their numbers; `first_fault` says which one comes first.
#[derive(Clone, Copy, Debug, PartialEq, Eq, Error)]
pub enum EntryFault {
    /// The bytes end before the entry does.
    #[error("the entry is cut short")]
    Short,
    /// The size is out of range, or doesn't fit the entry tag.
    #[error("the entry's size is wrong")]
    Size,
    /// The CRC differs.
    #[error("the entry's checksum is wrong")]
    Crc,
    /// The entry tag is none of PUT, DELETE and COMMIT.
    #[error("the entry's tag is unknown")]
    Tag,
}

/// Reads the log entry that begins at byte `at` of a segment.
///
/// `bytes` is the whole segment, its eight bytes of magic included; `at` is an offset in bytes into it. `Ok` has the
/// entry, whose blob borrows from `bytes`, and the offset of the byte behind it. Nothing is allocated.
///
/// Source: BorgBackup 1.2, Internals, "Data structures and file formats", Segments.
pub fn read_entry<'a>(bytes: &'a [u8], at: usize) -> Result<(Entry<'a>, usize), EntryFault>
    requires { at ≤ length bytes.now }
    ensures entry { IfOk result (λ read. IsEntryAt bytes.now at (entry_view read.0) read.1) }
    // What is spelled here is read, whatever follows it.
    ensures only { (entry : LogEntry) (rest : List ℕ) → Fits entry → drop at bytes.now ≡ spelling entry ++ rest
        → IsOkAnd result (λ read. (entry_view read.0 ≡ entry) × (read.1 ≡ at + size_of entry)) }
    ensures fault { MatchResult result (λ _. first_fault (drop at bytes.now) ≡ None) (λ fault. first_fault (drop at bytes.now) ≡ Some fault) }
{
    let left = &bytes[at..];
    let stated = read_head(left, left.len() as u64)?;
    let size = stated.head.size as usize;
    let head = stated.check(crc32(&left[4..size]))?;
    Ok((entry_of(&left[..size], head), at + size))
}

/// The entry that has this head.
fn entry_of(entry: &[u8], head: Head) -> Entry<'_>
    requires { (head.tag ≡ 0 → 41 ≤ length entry.now) }
    ensures { entry_view result ≡ entry_with head entry.now }
{
    let key = head.key;
    match head.tag {
        PUT => Entry::Put {
            key,
            blob: &entry[PUT_HEAD..],
        },
        DELETE => Entry::Delete { key },
        _ => Entry::Commit,
    }
}

/// The 41 bytes before a blob: with the blob behind them they are the PUT of the blob under the key.
///
/// The blob is read for its CRC and not copied. Nothing is allocated.
pub fn put_head(key: &Id, blob: &[u8]) -> [u8; 41]
    requires { length blob.now ≤ blob_limit }
    ensures { result ++ blob.now ≡ spelling (PutEntry key.now blob.now) }
{
    let size = ((PUT_HEAD + blob.len()) as u32).to_le_bytes();
    let crc = head_register(size, PUT, key);
    let crc = after_bytes(crc, blob) ^ ALL_ONES;
    head_of(crc.to_le_bytes(), size, PUT, key)
}

/// The 41 bytes of a DELETE of the key.
pub fn delete_entry(key: &Id) -> [u8; 41]
    ensures { result ≡ spelling (DeleteEntry key.now) }
{
    let size = (PUT_HEAD as u32).to_le_bytes();
    let crc = head_register(size, DELETE, key) ^ ALL_ONES;
    head_of(crc.to_le_bytes(), size, DELETE, key)
}

/// The CRC's register behind the size, the entry tag and the key.
fn head_register(size: [u8; 4], tag: u8, key: &Id) -> u32
    ensures { result ≡ register_after all_ones (size ++ tag ∷ key.now) }
{
    let register = after_bytes(ALL_ONES, &size);
    let register = after_bytes(register, &[tag]);
    after_bytes(register, key)
}

/// A head of these fields.
fn head_of(crc: [u8; 4], size: [u8; 4], tag: u8, key: &Id) -> [u8; 41]
    ensures { result ≡ crc ++ size ++ tag ∷ key.now }
{
    let mut head = [0; 41];
    put_part(&mut head, 0, &crc);
    put_part(&mut head, 4, &size);
    put_part(&mut head, 8, &[tag]);
    put_part(&mut head, 9, key);
    head
}

/// Writes a part of a head behind the parts before it.
fn put_part(head: &mut [u8; 41], at: usize, part: &[u8])
    requires { at + length part.now ≤ 41 }
    ensures { take (at + length part.now) head.new ≡ take at head.old ++ part.now }
{
    head[at..at + part.len()].copy_from_slice(part);
}
