//! The pieces that a content shares with one that was cut before, where both have the same chunks at the same bytes.
ghost use Rattle.std.specs.Prelude.{◌≡◌, ◌+◌, ◌-◌, ◌*◌, ◌<◌, ◌≤◌, ◌^◌, IfOk, IfSome, IsTrue, OnOk, drop, length, min, take};
ghost use Rattle.std.specs.List.{AllByRecursion};
ghost use Rattle.ferry_repo.specs.Shared.{IsAt, IsShared, total_size};

use crate::notes::{Note, same_chunks};
use ferry_item::{ChunkRef, ChunkRefs};
use std::alloc::{AllocError, Global};
use std::cmp::min;

/// Pieces of a content that was cut, which another content has too. The chunks from `place` to `end` of that content are so: `skip` bytes of
/// the first stand in front of the pieces, and `left` bytes of the last one behind them.
#[derive(Drop)]
pub struct SharedPieces {
    /// The number of the first chunk.
    pub place: usize,
    /// The number behind that of the last chunk.
    pub end: usize,
    /// How many bytes of the first chunk stand in front of the pieces.
    pub skip: usize,
    /// How many bytes of the last chunk stand behind the pieces.
    pub left: usize,
    /// The chunks of the pieces.
    pub pieces: ChunkRefs,
}

/// How far two contents were looked at: the number and the first byte of the next chunk, of the content, and of the one that was cut.
#[derive(Clone, Copy)]
pub(crate) struct Cursor {
    pub(crate) place: usize,
    pub(crate) byte: u128,
    pub(crate) at: usize,
    pub(crate) start: u128,
}

/// How pieces of one size stand in some chunks: the number of the first, how many bytes stand in front of it, how many pieces are whole, and how many
/// bytes stand behind them.
#[derive(Clone, Copy)]
pub(crate) struct Measure {
    pub(crate) first: usize,
    pub(crate) skip: usize,
    pub(crate) count: usize,
    pub(crate) left: usize,
}

impl Note {
    /// The pieces of this content that one with these chunks has too, at the same bytes: those that stand whole in chunks that both have.
    pub(crate) fn shared(
        &self,
        alloc: Global,
        chunks: &[ChunkRef],
    ) -> Result<Vec<SharedPieces>, AllocError>
        ensures shared { IfOk result (λ all. AllByRecursion (IsShared self.now chunks.now) all.items) }
    {
        let mut found = Vec::new(alloc);
        let mut cursor = Cursor {
            place: 0,
            byte: 0,
            at: 0,
            start: 0,
        };
        for _ in 0..chunks.len().saturating_add(self.chunks.as_slice().len()) {
            look_on(alloc, self, chunks, &mut cursor, &mut found)?;
        }
        Ok(found)
    }
}

/// Looks at the next chunks: where both contents have the same one at the same byte, at all that follow so, and else at the one that begins first.
fn look_on(
    alloc: Global,
    note: &Note,
    chunks: &[ChunkRef],
    cursor: &mut Cursor,
    found: &mut Vec<SharedPieces>,
) -> Result<(), AllocError>
    requires at { IsAt note.now.chunks cursor.old }
    requires shared { AllByRecursion (IsShared note.now chunks.now) found.old.items }
    ensures at { OnOk result (IsAt note.now.chunks cursor.new) }
    ensures shared { OnOk result (AllByRecursion (IsShared note.now chunks.now) found.new.items) }
{
    let others = note.chunks.as_slice();
    let here = *cursor;
    if here.place >= chunks.len() || here.at >= others.len() {
        return Ok(());
    }
    let count = common(note.block, here, &chunks[here.place..], &others[here.at..]);
    if count > 0 {
        if let Some(one) = shared_at(alloc, note, chunks, here, count)? {
            found.push(one)?;
        }
        pass_chunks(cursor, chunks, count);
        pass_others(cursor, others, count);
        return Ok(());
    }
    if here.byte <= here.start {
        pass_chunks(cursor, chunks, 1);
    }
    if here.start <= here.byte {
        pass_others(cursor, others, 1);
    }
    Ok(())
}

/// Passes over so many chunks of the content.
fn pass_chunks(cursor: &mut Cursor, chunks: &[ChunkRef], count: usize)
    requires few { cursor.old.place + count ≤ length chunks.now }
    ensures others { (cursor.new.at ≡ cursor.old.at) × (cursor.new.start ≡ cursor.old.start) }
{
    let end = cursor.place + count;
    let passed = total_size(&chunks[cursor.place..end]);
    cursor.byte = cursor.byte.saturating_add(passed);
    cursor.place = end;
}

/// Passes over so many chunks of the content that was cut. Where its bytes can't be counted any more, nothing further is looked at.
fn pass_others(cursor: &mut Cursor, others: &[ChunkRef], count: usize)
    requires few { cursor.old.at + count ≤ length others.now }
    requires at { IsAt others.now cursor.old }
    ensures at { IsAt others.now cursor.new }
{
    let end = cursor.at + count;
    let passed = total_size(&others[cursor.at..end]);
    let sum = cursor.start.saturating_add(passed);
    if sum < u128::MAX {
        cursor.at = end;
        cursor.start = sum;
    } else {
        cursor.place = usize::MAX;
    }
}

/// How many chunks of the fronts of two contents, which stand at the same byte, are the same: up to the last that a piece ends in, where the first has
/// the begin of one.
fn common(block: usize, here: Cursor, chunks: &[ChunkRef], others: &[ChunkRef]) -> usize
    ensures few { (result ≤ length chunks.now) × (result ≤ length others.now) }
{
    let block = block as u128;
    if here.byte != here.start || block == 0 || chunks.is_empty() {
        return 0;
    }
    if (block - here.start % block) % block > u128::from(chunks[0].size) {
        return 0;
    }
    let mut byte = here.start;
    let mut count = 0;
    for place in 0..min(chunks.len(), others.len()) {
        if chunks[place] != others[place] {
            return count;
        }
        byte = byte.saturating_add(u128::from(chunks[place].size));
        if byte % block <= u128::from(chunks[place].size) {
            count = place + 1;
        }
    }
    count
}

/// The pieces of a content that was cut which stand whole in so many chunks that it and another have, where they have them.
fn shared_at(
    alloc: Global,
    note: &Note,
    chunks: &[ChunkRef],
    here: Cursor,
    count: usize,
) -> Result<Option<SharedPieces>, AllocError>
    requires at { IsAt note.now.chunks here }
    requires own { here.place + count ≤ length chunks.now }
    requires others { here.at + count ≤ length note.now.chunks }
    requires some { 1 ≤ count }
    ensures shared { IfOk result (λ found. IfSome found (IsShared note.now chunks.now)) }
{
    let end = here.place + count;
    let own = &chunks[here.place..end];
    let others = note.chunks.as_slice();
    if !same_chunks(own, &others[here.at..here.at + count]) {
        return Ok(None);
    }
    let Some(measure) = measured(note.block, here.start, own) else {
        return Ok(None);
    };
    let Some(pieces) = whole_pieces(note, measure) else {
        return Ok(None);
    };
    let pieces = ChunkRefs::new(Vec::from_slice(alloc, pieces)?);
    Ok(Some(SharedPieces {
        place: here.place,
        end,
        skip: measure.skip,
        left: measure.left,
        pieces,
    }))
}

/// How pieces of `block` bytes stand in these chunks, the first of which begins at a byte, where what stands in front of them and behind them is of the first
/// chunk and of the last.
fn measured(block: usize, start: u128, chunks: &[ChunkRef]) -> Option<Measure>
    ensures least { IfSome result (λ m. 1 ≤ block) }
    ensures begins { IfSome result (λ m. start + m.skip ≡ m.first * block) }
    ensures covers { IfSome result (λ m. m.skip + m.count * block + m.left ≡ total_size chunks.now) }
    ensures front { IfSome result (λ m. m.skip ≤ total_size (take 1 chunks.now)) }
    ensures behind { IfSome result (λ m. m.left ≤ total_size (drop (length chunks.now - 1) chunks.now)) }
{
    let total = total_size(chunks);
    if total == u128::MAX || block == 0 || chunks.is_empty() {
        return None;
    }
    let size = block as u128;
    let first = start.div_ceil(size);
    let skip = first.checked_mul(size)?.checked_sub(start)?;
    let room = total.checked_sub(skip)?;
    let count = room / size;
    let left = room.checked_sub(count.checked_mul(size)?)?;
    if skip > u128::from(chunks[0].size) || left > u128::from(chunks[chunks.len() - 1].size) {
        return None;
    }
    Some(Measure {
        first: as_usize(first)?,
        skip: as_usize(skip)?,
        count: as_usize(count)?,
        left: as_usize(left)?,
    })
}

/// A number, where it has at most 64 bits.
fn as_usize(number: u128) -> Option<usize>
    ensures same { IfSome result (λ n. n ≡ number) }
{
    match usize::try_from(number) {
        Ok(same) => Some(same),
        Err(_) => None,
    }
}

/// The chunks of so many pieces from the first on, where there is one and each has the whole block.
fn whole_pieces(note: &Note, measure: Measure) -> Option<&[ChunkRef]>
    ensures pieces { IfSome result (λ pieces. pieces.now ≡ take measure.count (drop measure.first note.now.pieces)) }
    ensures count { IfSome result (λ pieces. length pieces.now ≡ measure.count) }
    ensures some { IfSome result (λ pieces. 1 ≤ measure.count) }
    ensures whole { IfSome result (λ pieces. AllByRecursion (λ piece. piece.size ≡ note.now.block) pieces.now) }
{
    let pieces = note.pieces.as_slice();
    let end = measure.first.checked_add(measure.count)?;
    if measure.count == 0
        || end > pieces.len()
        || !are_whole(note.block, &pieces[measure.first..end])
    {
        return None;
    }
    Some(&pieces[measure.first..end])
}

/// Whether each of these pieces has this length.
fn are_whole(block: usize, pieces: &[ChunkRef]) -> bool
    ensures whole { IsTrue result → AllByRecursion (λ piece. piece.size ≡ block) pieces.now }
{
    let mut rest = pieces;
    while let [piece, behind @ ..] = rest {
        if piece.size != block as u64 {
            return false;
        }
        rest = behind;
    }
    true
}

/// The sum of the stated sizes of chunks.
fn total_size(chunks: &[ChunkRef]) -> u128
    ensures total { result ≡ min (total_size chunks.now) (2 ^ 128 - 1) }
{
    let mut total = 0u128;
    for place in 0..chunks.len() {
        total = total.saturating_add(u128::from(chunks[place].size));
    }
    total
}
