//! Streams by hand from the msgpack specification, "Formats", and streams that others packed.

use crate::bytes::joined;
use ferry_item::{ChunkRefs, ItemFault, ItemReader, item_laws, write_item};
use std::alloc::{AllocError, Global};
use std::process::Abort;

/// What a reader answers: 0 for an item, 9 for none, or the number of the fault.
fn answer(reader: &mut ItemReader) -> u8 {
    match reader.next() {
        Ok(Some(_)) => 0,
        Ok(None) => 9,
        Err(fault) => fault.number(),
    }
}

/// Whether a new reader that is fed the first bytes and the second ones answers so, and no item twice.
fn answers(reader: &mut ItemReader, number: u8, before: &[u8], bytes: &[u8]) -> bool {
    reader.feed(before).is_ok()
        && reader.feed(bytes).is_ok()
        && answer(reader) == number
        && reader.feed(b"").is_ok()
        && (number == 0 || answer(reader) == number)
}

/// Asserts that readers that are fed these bytes and those of a row answer as the row says.
fn answers_are(rt: &impl Abort, alloc: Global, before: &[u8], rows: &[(u8, &[u8])]) {
    for (number, bytes) in rows {
        let is_right = answers(&mut ItemReader::new(alloc), *number, before, bytes);
        assert!(rt; is_right, "at {bytes:?}");
    }
}

/// What readers answer, and the bytes.
static ANSWERS: &[(u8, &[u8])] = &[
    (9, b""),
    (9, b"\x82\xa4path\xa1a"),
    (9, b"\x81\xa4path\xc4"),
    (0, b"\x81\xa4path\xc4\x00\xc1"),
    (0, b"\x82\xa4path\xa1a\xa6chunks\xc0"),
    (0, b"\x82\xa4path\xa1a\xa6chunks\x90"),
    (1, b"\xc1"),
    (1, b"\x90"),
    (1, b"\x81\x01\x02"),
    (1, b"\x82\xa4path\xa1a\xa4path\xa1a"),
    (2, b"\x80"),
    (2, b"\x82\xa4path\x01\xa6chunks\x01"),
    (3, b"\x82\xa4path\xa1a\xa6chunks\xc2"),
    (3, b"\x82\xa4path\xa1a\xa6chunks\x91\xc0"),
    (3, b"\x83\xa4path\xa1a\xa6chunks\xa0\xaechunks_healthy\xc0"),
    (4, b"\x82\xa4path\xa1a\xaechunks_healthy\xc0"),
    (4, b"\x83\xa4path\xa1a\xa6chunks\xc0\xaechunks_healthy\x90"),
];

/// What readers answer, and the chunks of an item of that path. A chunk is an id, a size and a csize.
static CHUNK_ANSWERS: &[(u8, &[u8])] = &[
    (0, b"\x91\x93\xd9 iiiiiiiiiiiiiiiiiiiiiiiiiiiiiiii\x40\x6b"),
    (
        0,
        b"\x91\x93\xd9 iiiiiiiiiiiiiiiiiiiiiiiiiiiiiiii\x00\xcf\xff\xff\xff\xff\xff\xff\xff\xff",
    ),
    (
        0,
        b"\x91\x93\xd9 iiiiiiiiiiiiiiiiiiiiiiiiiiiiiiii\xce\x01\x3f\xff\xac\x00",
    ),
    (
        3,
        b"\x91\x93\xd9 iiiiiiiiiiiiiiiiiiiiiiiiiiiiiiii\xce\x01\x3f\xff\xad\x00",
    ),
    (3, b"\x91\x93\xd9 iiiiiiiiiiiiiiiiiiiiiiiiiiiiiiii\xff\x00"),
    (3, b"\x91\x93\xd9 iiiiiiiiiiiiiiiiiiiiiiiiiiiiiiii\x00\xff"),
    (3, b"\x91\x93\xbfiiiiiiiiiiiiiiiiiiiiiiiiiiiiiii\x00\x00"),
    (3, b"\x91\x92\xd9 iiiiiiiiiiiiiiiiiiiiiiiiiiiiiiii\x00"),
    (
        3,
        b"\x91\x94\xd9 iiiiiiiiiiiiiiiiiiiiiiiiiiiiiiii\x00\x00\x00",
    ),
    (
        3,
        b"\x92\x93\xd9 iiiiiiiiiiiiiiiiiiiiiiiiiiiiiiii\x00\x00\x90",
    ),
];

#[test]
fn each_fault_has_its_number_and_comes_again(rt: HostRuntime) {
    answers_are(&rt, rt.alloc(), b"", ANSWERS);
    answers_are(
        &rt,
        rt.alloc(),
        b"\x82\xa4path\xa1a\xa6chunks",
        CHUNK_ANSWERS,
    );
}

/// The first three items of an archive that `borg create` of BorgBackup 1.2.4 wrote, as its
/// `borg debug dump-archive-items` gives them: a folder, an empty file and a file of 64 bytes.
static BORG: &[u8] =
    b"\x88\xa5ctime\xcf\x18\xeb\xb6\xddn)\xfd\xe6\xa3gid\x00\xa5group\xa4root\xa4mode\xcdA\xed\xa5mtime\xcf\x15:\x17h\x8d\xd3\xdeK\xa4path\xa1.\xa3uid\x00\xa4user\xa4root\x8b\xa6chunks\x90\xa5ctime\xcf\x18\xeb\xb6\xddn&\xab\x03\xa3gid\x00\xa5group\xa4root\xafhardlink_master\xc2\xa4mode\xcd\x81\xa4\xa5mtime\xcf\x15L\xb1\xf7Shm\xe6\xa4path\xa5empty\xa4size\x00\xa3uid\x00\xa4user\xa4root\x8b\xa6chunks\x91\x93\xda\x00 \x99@\xb5\xc8X\x9b#\x11\x1e\x08\xb7X\xd7\xe0\x062E\xbd\x0d.|u\xdadkh\x7fU\x1d\xf6\xbdN@k\xa5ctime\xcf\x18\xeb\xb6\xddn'\xd3~\xa3gid\x00\xa5group\xa4root\xafhardlink_master\xc2\xa4mode\xcd\x81\xa4\xa5mtime\xcf\x15\xa4\xae\x85i'7q\xa4path\xa3f64\xa4size@\xa3uid\x00\xa4user\xa4root";

/// What `msgpack.packb(.., use_bin_type=False)` of msgpack for Python 1.0.3 gives for an item whose names are in no
/// order, with values inside values and three chunks.
static PACKED: &[u8] =
    b"\x89\xa4path\xa6home/a\xa4mode\xcd\x81\xa4\xa4user\xc0\xa3uid\xcd\x03\xe8\xa5mtime\xcf\x17\x97\x9c\xfe=\x85\xcd\x15\xafhardlink_master\xc3\xa6xattrs\x82\xa6user.k\xa1v\xaauser.empty\xc0\xa4part\x93\xff\x90\x81\xa1n\x92\xa1x\xc2\xa6chunks\x93\x93\xda\x00 \x00\x01\x02\x03\x04\x05\x06\x07\x08\x09\x0a\x0b\x0c\x0d\x0e\x0f\x10\x11\x12\x13\x14\x15\x16\x17\x18\x19\x1a\x1b\x1c\x1d\x1e\x1f\xce\x00\x01\x00\x00\xce\x00\x01\x00+\x93\xda\x00 \x11\x11\x11\x11\x11\x11\x11\x11\x11\x11\x11\x11\x11\x11\x11\x11\x11\x11\x11\x11\x11\x11\x11\x11\x11\x11\x11\x11\x11\x11\x11\x11\x00+\x93\xda\x00 \"\"\"\"\"\"\"\"\"\"\"\"\"\"\"\"\"\"\"\"\"\"\"\"\"\"\"\"\"\"\"\"\xce\x01?\xff\xac\xcf\xff\xff\xff\xff\xff\xff\xff\xff";

/// The same item packed there with its names, and those inside it, in byte order.
static IN_ORDER: &[u8] =
    b"\x89\xa6chunks\x93\x93\xda\x00 \x00\x01\x02\x03\x04\x05\x06\x07\x08\x09\x0a\x0b\x0c\x0d\x0e\x0f\x10\x11\x12\x13\x14\x15\x16\x17\x18\x19\x1a\x1b\x1c\x1d\x1e\x1f\xce\x00\x01\x00\x00\xce\x00\x01\x00+\x93\xda\x00 \x11\x11\x11\x11\x11\x11\x11\x11\x11\x11\x11\x11\x11\x11\x11\x11\x11\x11\x11\x11\x11\x11\x11\x11\x11\x11\x11\x11\x11\x11\x11\x11\x00+\x93\xda\x00 \"\"\"\"\"\"\"\"\"\"\"\"\"\"\"\"\"\"\"\"\"\"\"\"\"\"\"\"\"\"\"\"\xce\x01?\xff\xac\xcf\xff\xff\xff\xff\xff\xff\xff\xff\xafhardlink_master\xc3\xa4mode\xcd\x81\xa4\xa5mtime\xcf\x17\x97\x9c\xfe=\x85\xcd\x15\xa4part\x93\xff\x90\x81\xa1n\x92\xa1x\xc2\xa4path\xa6home/a\xa3uid\xcd\x03\xe8\xa4user\xc0\xa6xattrs\x82\xaauser.empty\xc0\xa6user.k\xa1v";

/// Whether the next item is written again, where there is one.
fn writes_next(reader: &mut ItemReader, text: &mut Vec<u8>) -> bool {
    match reader.next() {
        Ok(Some(item)) => write_item(&item, text).is_ok(),
        Ok(None) => true,
        Err(_) => false,
    }
}

/// Whether a piece is fed, and up to three items that come then are written again.
fn writes_piece(reader: &mut ItemReader, piece: &[u8], text: &mut Vec<u8>) -> bool {
    reader.feed(piece).is_ok()
        && writes_next(reader, text)
        && writes_next(reader, text)
        && writes_next(reader, text)
}

/// Whether the items of a stream that comes in pieces of so many bytes are written again, up to three after a piece.
fn writes_pieces(
    reader: &mut ItemReader,
    stream: &[u8],
    length: usize,
    text: &mut Vec<u8>,
) -> bool {
    for piece in stream.chunks(length.max(1)) {
        if !writes_piece(reader, piece, text) {
            return false;
        }
    }
    true
}

/// Ends a stream, where no item is to come.
fn end(mut reader: ItemReader) -> Result<(), ItemFault> {
    match reader.next() {
        Ok(None) => reader.finish(),
        Ok(Some(_)) => Ok(()),
        Err(fault) => Err(fault),
    }
}

/// Whether a stream in pieces of so many bytes is written again, and ends.
fn writes_again(alloc: Global, stream: &[u8], length: usize, text: &mut Vec<u8>) -> bool {
    let mut reader = ItemReader::new(alloc);
    let is_written = writes_pieces(&mut reader, stream, length, text);
    end(reader) == Ok(()) && is_written
}

/// Whether a stream in pieces of so many bytes is written again as these bytes.
fn is_written(alloc: Global, stream: &[u8], length: usize, written: &[u8]) -> bool {
    let mut text = Vec::new(alloc);
    writes_again(alloc, stream, length, &mut text) && text.as_slice() == written
}

/// Whether the streams of others are written again, the first of them however it is cut.
fn streams_are_written(alloc: Global) -> bool {
    for length in [1, 77, 337] {
        if !is_written(alloc, BORG, length, BORG) {
            return false;
        }
    }
    is_written(alloc, PACKED, 77, IN_ORDER)
}

/// The spelling of 1000 chunks.
fn many_chunks(alloc: Global) -> Result<Vec<u8>, AllocError> {
    let mut bytes = Vec::new(alloc);
    for _ in 0..1000usize {
        bytes.extend_from_slice(
            b"\x93\xda\x00 iiiiiiiiiiiiiiiiiiiiiiiiiiiiiiii\xcd\x10\x00\xcd\x10\x2b",
        )?;
    }
    Ok(bytes)
}

/// Whether the item of this stream is written again with its names in byte order, where it has these chunks.
fn is_put_in_order(alloc: Global, stream: &[u8], chunks: &[u8]) -> bool {
    match joined(
        alloc,
        &[b"\x82\xa6chunks\xdc\x03\xe8", chunks, b"\xa4path\xa1a"],
    ) {
        Ok(written) => is_written(alloc, stream, 1000, &written),
        Err(_) => false,
    }
}

/// Whether an item of these 1000 chunks is.
fn are_put_in_order(alloc: Global, chunks: &[u8]) -> bool {
    match joined(alloc, &[b"\x82\xa4path\xa1a\xa6chunks\xdc\x03\xe8", chunks]) {
        Ok(stream) => is_put_in_order(alloc, &stream, chunks),
        Err(_) => false,
    }
}

/// Whether an item of 1000 chunks is.
fn many_are_written(alloc: Global) -> bool {
    match many_chunks(alloc) {
        Ok(chunks) => are_put_in_order(alloc, &chunks),
        Err(_) => false,
    }
}

#[test]
fn items_come_in_order_however_they_are_cut_and_are_written(rt: HostRuntime) {
    assert!(rt; streams_are_written(rt.alloc()) && many_are_written(rt.alloc()));
    item_laws();
}

/// The first answer of a new reader that isn't none, and how many bytes were fed by then, one at a time.
fn told_at(reader: &mut ItemReader, stream: &[u8]) -> Option<(u8, usize)> {
    for (at, byte) in stream.iter().enumerate() {
        if reader.feed(&[*byte]).is_err() {
            return None;
        }
        let number = answer(reader);
        if number != 9 {
            return Some((number, at + 1));
        }
    }
    Some((9, stream.len()))
}

/// Numbers, how many bytes were fed, and the bytes; last 64 arrays inside a map, of which the last has depth 65.
static TOLD: &[(u8, usize, &[u8])] = &[
    (0, 8, b"\x81\xa4path\xa1a\xc1"),
    (0, 9, b"\x81\xa4path\xc4\x01a\xc1"),
    (1, 2, b"\x81\x01\x02"),
    (1, 10, b"\x81\xa4path\x81\xa1k\xc1\x02"),
    (1, 13, b"\x82\xa4path\xa1a\xa4path\xa1a"),
    (1, 16, b"\x82\xa4path\xa1a\xa1x\x82\xa1y\x01\xa1y\x01"),
    (2, 4, b"\x81\xa0\x91\x01"),
    (3, 16, b"\x82\xa4path\xa1a\xa6chunks\xc2"),
    (9, 12, b"\x82\xa4path\xa1a\xdb\xff\xff\xff"),
    (
        1,
        66,
        b"\x81\xa0\x91\x91\x91\x91\x91\x91\x91\x91\x91\x91\x91\x91\x91\x91\x91\x91\x91\x91\x91\x91\x91\x91\x91\x91\x91\x91\x91\x91\x91\x91\x91\x91\x91\x91\x91\x91\x91\x91\x91\x91\x91\x91\x91\x91\x91\x91\x91\x91\x91\x91\x91\x91\x91\x91\x91\x91\x91\x91\x91\x91\x91\x91\x91\x91\x01",
    ),
];

#[test]
fn a_fault_is_told_at_the_byte_that_shows_it(rt: HostRuntime) {
    for (number, at, stream) in TOLD {
        let told = told_at(&mut ItemReader::new(rt.alloc()), stream);
        assert!(rt; told == Some((*number, *at)), "at {stream:?}");
    }
}

/// What ends a stream of these bytes, in which no item is whole.
fn ended(alloc: Global, bytes: &[u8]) -> Result<(), ItemFault> {
    let mut reader = ItemReader::new(alloc);
    reader.feed(bytes)?;
    end(reader)
}

#[test]
fn a_stream_that_ends_inside_an_item_has_a_rest(rt: HostRuntime) {
    assert!(rt; ended(rt.alloc(), b"\x81\xa4p") == Err(ItemFault::Rest));
}

/// Adds the sizes of an item's chunks.
fn add_sizes(chunks: &Option<ChunkRefs>, sizes: &mut Vec<u64>) -> Result<(), AllocError> {
    let Some(chunks) = chunks else {
        return Ok(());
    };
    for chunk in chunks.as_slice() {
        sizes.push(chunk.size)?;
    }
    Ok(())
}

/// The sizes of the chunks of the next items, of nine at most.
fn sizes_ahead(alloc: Global, reader: &ItemReader) -> Result<Vec<u64>, AllocError> {
    let mut sizes = Vec::new(alloc);
    let mut behind = 0;
    for _ in 0..9 {
        let Some((chunks, end)) = reader.item_ahead(behind) else {
            return Ok(sizes);
        };
        add_sizes(&chunks, &mut sizes)?;
        behind = end;
    }
    Ok(sizes)
}

/// The sizes of the chunks of the two streams: that of a file's chunk, and those of the item behind it.
static SIZES: &[u64] = &[64, 65_536, 0, 20_971_436];

/// Whether a reader of two streams tells their chunks, an item that isn't whole ends the look, and the first item is still to come.
fn tells_ahead(alloc: Global) -> bool {
    let mut reader = ItemReader::new(alloc);
    if reader.feed(BORG).is_err()
        || reader.feed(PACKED).is_err()
        || reader.feed(b"\x82\xa4path\xa1a\xa6chunks").is_err()
    {
        return false;
    }
    match sizes_ahead(alloc, &reader) {
        Ok(sizes) => sizes.as_slice() == SIZES && answer(&mut reader) == 0,
        Err(_) => false,
    }
}

#[test]
fn the_chunks_ahead_are_those_of_the_items_that_come(rt: HostRuntime) {
    assert!(rt; tells_ahead(rt.alloc()));
}
