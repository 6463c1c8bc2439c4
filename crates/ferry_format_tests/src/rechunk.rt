//! Pieces cut by hand; and the loop of a transfer, which is proved to give the cut.

ghost use Rattle.std.specs.Prelude.{◌≡◌, ◌≤◌, ◌<◌, ◌++◌, ℕ, List, IfOk, OnOk, length};
ghost use Rattle.std.specs.List.{concat};
ghost use Rattle.ferry_rechunk.specs.Cut.{cut};
ghost use Rattle.ferry_rechunk.specs.Cutting.{IsFed};

use ferry_base::Bytes;
use ferry_rechunk::{Cutter, MOST_BLOCK};
use std::alloc::{AllocError, Global};

/// Takes each piece that a part of a content makes whole.
fn feed_part(
    alloc: Global,
    cutter: &mut Cutter,
    part: &[u8],
    pieces: &mut Vec<Bytes>,
) -> Result<(), AllocError>
    requires { length cutter.old.piece < cutter.old.block }
    ensures fed { (fed : List ℕ) → IsFed cutter.old.block fed pieces.old.items cutter.old.piece
        → OnOk result (IsFed cutter.old.block (fed ++ part.now) pieces.new.items cutter.new.piece) }
    ensures room { OnOk result (length cutter.new.piece < cutter.new.block) }
    ensures block { cutter.new.block ≡ cutter.old.block }
{
    let mut rest = part;
    loop {
        let taken = cutter.feed(rest);
        rest = &rest[taken..];
        let Some(piece) = cutter.full() else {
            return Ok(());
        };
        pieces.push(Bytes::new(Vec::from_slice(alloc, piece)?))?;
        cutter.clear();
    }
}

/// The pieces of a content that comes in parts, as a transfer takes them.
fn pieces_of(alloc: Global, block: usize, parts: &[Bytes]) -> Result<Vec<Bytes>, AllocError>
    requires least { 64 ≤ block }
    requires most { block ≤ 8388608 }
    ensures cut { IfOk result (λ pieces. pieces.items ≡ cut block (concat parts.now)) }
{
    let mut cutter = Cutter::new(alloc, block)?;
    let mut pieces = Vec::new(alloc);
    for part in parts {
        feed_part(alloc, &mut cutter, part.as_slice(), &mut pieces)?;
    }
    if let Some(piece) = cutter.last() {
        pieces.push(Bytes::new(Vec::from_slice(alloc, piece)?))?;
    }
    Ok(pieces)
}

/// A part of so many bytes, which count up from this one.
fn part_of(alloc: Global, first: u8, length: usize) -> Result<Bytes, AllocError> {
    let mut part = Vec::new(alloc);
    let mut byte = first;
    for _ in 0..length {
        part.push(byte)?;
        byte = byte.wrapping_add(1);
    }
    Ok(Bytes::new(part))
}

/// Parts of these lengths, whose bytes count up from 0.
fn parts_of(alloc: Global, lengths: &[usize]) -> Result<Vec<Bytes>, AllocError> {
    let mut parts = Vec::new(alloc);
    let mut first = 0u8;
    for length in lengths {
        parts.push(part_of(alloc, first, *length)?)?;
        first = first.wrapping_add((*length % 256) as u8);
    }
    Ok(parts)
}

/// Whether the bytes count up from this one.
fn counts_up(bytes: &[u8], first: u8) -> bool {
    let mut byte = first;
    for found in bytes {
        if *found != byte {
            return false;
        }
        byte = byte.wrapping_add(1);
    }
    true
}

/// Whether pieces have these lengths, and their bytes count up from 0.
fn have_lengths(pieces: &[Bytes], lengths: &[usize]) -> bool {
    if pieces.len() != lengths.len() {
        return false;
    }
    let mut first = 0u8;
    for place in 0..pieces.len() {
        let piece = pieces[place].as_slice();
        if piece.len() != lengths[place] || !counts_up(piece, first) {
            return false;
        }
        first = first.wrapping_add((lengths[place] % 256) as u8);
    }
    true
}

/// A block size, the lengths of the parts that a content comes in, and those of its pieces.
struct Case {
    block: usize,
    parts: &'static [usize],
    pieces: &'static [usize],
}

static CASES: [Case; 8] = [
    Case {
        block: 64,
        parts: &[],
        pieces: &[],
    },
    Case {
        block: 64,
        parts: &[0],
        pieces: &[],
    },
    Case {
        block: 64,
        parts: &[1],
        pieces: &[1],
    },
    Case {
        block: 64,
        parts: &[64],
        pieces: &[64],
    },
    Case {
        block: 64,
        parts: &[65],
        pieces: &[64, 1],
    },
    Case {
        block: 64,
        parts: &[128],
        pieces: &[64, 64],
    },
    Case {
        block: 64,
        parts: &[40, 0, 40, 70],
        pieces: &[64, 64, 22],
    },
    Case {
        block: 65,
        parts: &[1, 64, 1, 300],
        pieces: &[65, 65, 65, 65, 65, 41],
    },
];

/// Whether parts are cut into these pieces.
fn are_cut(alloc: Global, block: usize, parts: &[Bytes], lengths: &[usize]) -> bool {
    if block < 64 || MOST_BLOCK < block {
        return false;
    }
    match pieces_of(alloc, block, parts) {
        Ok(found) => have_lengths(found.as_slice(), lengths),
        Err(_) => false,
    }
}

/// Whether the parts of a case are cut into its pieces.
fn is_cut(alloc: Global, case: &Case) -> bool {
    match parts_of(alloc, case.parts) {
        Ok(parts) => are_cut(alloc, case.block, parts.as_slice(), case.pieces),
        Err(_) => false,
    }
}

#[test]
fn each_piece_but_the_last_is_whole(rt: HostRuntime) {
    for case in &CASES {
        assert!(rt; is_cut(rt.alloc(), case));
    }
}

/// Whether a cutter takes 100 bytes as no whole piece, lends room of 43 bytes before them, and takes what is written there.
fn lends_the_piece(cutter: &mut Cutter) -> bool {
    let is_fed = cutter.feed(&[1; 100]) == 100 && cutter.full().is_none();
    let buffer = cutter.buffer();
    if buffer.len() != 143 {
        return false;
    }
    buffer[43..].fill(2);
    is_fed && cutter.last() == Some(&[2; 100][..])
}

/// Whether a cutter does, and has no piece behind it.
fn lends_and_clears(cutter: &mut Cutter) -> bool {
    let is_lent = lends_the_piece(cutter);
    cutter.clear();
    is_lent && cutter.last().is_none()
}

/// Whether a new cutter does.
fn a_cutter_lends(alloc: Global) -> bool {
    match Cutter::new(alloc, MOST_BLOCK) {
        Ok(mut cutter) => lends_and_clears(&mut cutter),
        Err(_) => false,
    }
}

#[test]
fn what_is_written_where_a_piece_was_lent_is_the_piece(rt: HostRuntime) {
    assert!(rt; a_cutter_lends(rt.alloc()));
}
