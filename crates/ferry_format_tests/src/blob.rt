//! Blobs and their answers. The blobs, ids and MACs were computed by Python's hmac and hashlib and by OpenSSL's
//! `aes-256-ctr`, apart from this code. The three keys are the bytes 00 to 1f, 20 to 3f and 40 to 5f.

ghost use Rattle.std.specs.Prelude.{◌≡◌, ℕ, ◌+◌, ◌<◌, ◌≤◌, IsTrue, length, slice_index};
ghost use Rattle.ferry_blob.specs.Batch.{IsSealable, bytes_at};

use crate::bytes::joined;
use ferry_base::{Id, ZERO_ID};
use ferry_blob::{
    BlobFault, Mode, blob_laws, block_laws, blocks_of, id_of, ids_many, ids_of, open_blob,
    open_blobs, open_many, seal, seal_blobs, seal_many,
};
use ferry_mac::Keys;
use std::alloc::{AllocError, Global};

/// The 32 bytes from `first` on.
fn key_from(first: u8) -> [u8; 32]
    requires { first ≤ 64 }
{
    let mut key = [first; 32];
    for i in 0..32u8 {
        key[usize::from(i)] = first + i;
    }
    key
}

fn keys() -> Keys {
    Keys {
        enc_key: key_from(0),
        enc_hmac_key: key_from(32),
        id_key: key_from(64),
    }
}

/// The id of the content `hello`.
const HELLO_ID: Id = [
    0x01, 0x04, 0x32, 0x90, 0x09, 0x4d, 0xcd, 0x21, 0x10, 0x76, 0xcd, 0x9e, 0x66, 0xc4, 0x78, 0xf5,
    0x78, 0x91, 0x85, 0x6c, 0x3d, 0xbf, 0x59, 0x50, 0xf5, 0x11, 0x41, 0x91, 0x1b, 0x6c, 0xa4, 0x33,
];

/// A blob, an id, and the number of the fault, or 0 where the blob opens under the id.
struct Case {
    about: &'static str,
    blob: &'static [u8],
    id: Id,
    fault: u8,
}

static CASES: [Case; 8] = [
    Case {
        about: "whole, under the id of its content",
        blob: b"\x03k\xc63\x92\x92K\x924W\xd6\xb00\xb6\xf0\xeb\x86\xb7\xdbb\x86\xd3~X*C\x1b=N\x0d~\xec\xe3\x01\x02\x03\x04\x05\x06\
            \x07\x08^\x85\xe2\xf0p8\xa3",
        id: HELLO_ID,
        fault: 0,
    },
    Case {
        about: "the same, of the other mode's type",
        blob: b"\x00k\xc63\x92\x92K\x924W\xd6\xb00\xb6\xf0\xeb\x86\xb7\xdbb\x86\xd3~X*C\x1b=N\x0d~\xec\xe3\x01\x02\x03\x04\x05\x06\
            \x07\x08^\x85\xe2\xf0p8\xa3",
        id: HELLO_ID,
        fault: 0,
    },
    Case {
        about: "counters that pass 2^64",
        blob: b"\x03\xb6\x87\x89\xf7\xff\xfc'\xd57\x90\x06\xf98\x9c\x16\xea\xc7}\x06yl\x96p\xe38*\xe8\x97\x88\xf1U\xba\xff\xff\xff\
            \xff\xff\xff\xff\xff\xa6\xfb\xd8V\xec\xf8b=u\xc9\x0dc>\xec\xa8\x814q\xa6\x95\x1b\xe0\xa4\xeb9;:z\xd5\x8f\xbd\x0d",
        id: ZERO_ID,
        fault: 0,
    },
    Case {
        about: "42 bytes of another type",
        blob: b"\x02*,\x88\xd2\x13\xf7\x0b\xa4rd\x9a+k\xd2\x05\xa0\x10\xa2\xce\xef\x91\xcco\xd6\x8ab\x11\x0bd\xfdz\x90\x01\x02\x03\x04\x05\x06\x07\x08^",
        id: ZERO_ID,
        fault: 2,
    },
    Case {
        about: "another type and another MAC",
        blob: b"\x02j\xc63\x92\x92K\x924W\xd6\xb00\xb6\xf0\xeb\x86\xb7\xdbb\x86\xd3~X*C\x1b=N\x0d~\xec\xe3\x01\x02\x03\x04\x05\x06\
            \x07\x08^\x85\xe2\xf0p8\xa3",
        id: HELLO_ID,
        fault: 1,
    },
    Case {
        about: "another last byte of the ciphertext",
        blob: b"\x03k\xc63\x92\x92K\x924W\xd6\xb00\xb6\xf0\xeb\x86\xb7\xdbb\x86\xd3~X*C\x1b=N\x0d~\xec\xe3\x01\x02\x03\x04\x05\x06\
            \x07\x08^\x85\xe2\xf0p8\xa2",
        id: HELLO_ID,
        fault: 3,
    },
    Case {
        about: "the header 01 00 under another id",
        blob: b"\x03\xc4'\xe2\x95\xa9\xb2\xa7y\xa3\x84[\xc5\xaf\xa3\xed3\xa1 ON3y\x1e\xc9\x8e\xb3gQ{\xb0\xc7\x16\x01\x02\x03\x04\
            \x05\x06\x07\x08_\x85\xe2\xf0p8\xa3",
        id: [7; 32],
        fault: 4,
    },
    Case {
        about: "another id",
        blob: b"\x03k\xc63\x92\x92K\x924W\xd6\xb00\xb6\xf0\xeb\x86\xb7\xdbb\x86\xd3~X*C\x1b=N\x0d~\xec\xe3\x01\x02\x03\x04\x05\x06\
            \x07\x08^\x85\xe2\xf0p8\xa3",
        id: [7; 32],
        fault: 5,
    },
];

/// The number of a fault, 0 where there is none.
fn number_of(answer: Result<(), BlobFault>) -> u8 {
    match answer {
        Ok(()) => 0,
        Err(fault) => fault.number(),
    }
}

/// Whether an answer and what was left of a blob are those of `open_blob`, and the answer is that of the table.
fn is_opened(keys: &Keys, case: &Case, answer: Result<(), BlobFault>, left: &[u8]) -> bool {
    let mut buffer = [0u8; 80];
    let len = case.blob.len();
    if 80 < len {
        return false;
    }
    buffer[..len].copy_from_slice(case.blob);
    let alone = open_blob(keys, &case.id, &mut buffer[..len]);
    answer == alone && number_of(answer) == case.fault && left == &buffer[..len]
}

/// Four blobs of the table from number `first` on, which begins again behind its last.
fn four_of(alloc: Global, first: usize) -> Result<Vec<Vec<u8>>, AllocError>
    requires { first ≤ 7 }
{
    let mut blobs = Vec::new(alloc);
    for place in first..first + 4 {
        blobs.push(Vec::from_slice(alloc, CASES[place % 8].blob)?)?;
    }
    Ok(blobs)
}

/// Opens blobs of the table from number `first` on, four at a time. Tells whether each is opened as by `open_blob`.
fn four_are_opened_as_one(keys: &Keys, blobs: &mut [Vec<u8>], first: usize) -> bool
    requires { first ≤ 7 }
{
    if blobs.len() != 4 {
        return false;
    }
    let ids = [
        CASES[first].id,
        CASES[(first + 1) % 8].id,
        CASES[(first + 2) % 8].id,
        CASES[(first + 3) % 8].id,
    ];
    let answers = open_blobs(keys, &ids, blobs);
    for place in 0..4usize {
        let case = &CASES[(first + place) % 8];
        if !is_opened(keys, case, answers[place], blobs[place].as_slice()) {
            return false;
        }
    }
    true
}

/// Whether the four blobs from number `first` on are.
fn four_are_opened(alloc: Global, first: usize) -> bool
    requires { first ≤ 7 }
{
    match four_of(alloc, first) {
        Ok(mut blobs) => four_are_opened_as_one(&keys(), blobs.as_mut_slice(), first),
        Err(_) => false,
    }
}

#[test]
fn each_blob_in_each_of_four_places_is_opened_as_alone(rt: HostRuntime) {
    for first in 0..8usize {
        assert!(rt; four_are_opened(rt.alloc(), first));
    }
}

static FOX_CONTENT: &[u8; 43] = b"The quick brown fox jumps over the lazy dog";

/// That content sealed under the nonce 0102030405060708.
static FOX: &[u8] =
    b"\x03TS\xb2\xf4\xb5\xa0\x80 \x9a\x0a\x01\xea\xedk\x86\xd0\xef\xc6z7\xb0\xc1\xd0\xfaP\xd3^+\x8bm\xff\xb2\x01\x02\x03\x04\x05\
        \x06\x07\x08^\x85\xde\xfdyt\xbd\x12'Hl\x14\x18<\xd1(\x0flAj?\xc5\xcd\xc4\x00\x80qJ\xec\xd2\xb9J\x89\xe4j\xfe\x8e1H\x7f\x91\
        \xb7\x86\xd8L";

/// The id of that content.
static FOX_ID: &[u8] =
    b"\xd0\x1f\xa7S.\x82\x03\x9a\xc3+\xd2\x00\x90\x14\x1bO\x13\xaa\x8f/Kfk\x821\xb48\xf4;\x8f\xc2\x90";

/// Whether that content is sealed in either mode, and opened.
#[tactic(auto, unfolding(ferry_blob::specs::Blob::blocks))]
fn fox_is_sealed_and_opened(keys: &Keys) -> bool {
    let mut buffer = [0xa5u8; 86];
    buffer[43..].copy_from_slice(FOX_CONTENT);
    seal(keys, Mode::Repokey, NONCE, &mut buffer);
    let is_sealed = buffer.as_slice() == FOX;
    let is_opened = open_blob(keys, &id_of(keys, FOX_CONTENT), &mut buffer) == Ok(());
    let is_content = &buffer[43..] == FOX_CONTENT.as_slice();
    seal(keys, Mode::Keyfile, NONCE, &mut buffer);
    is_sealed && is_opened && is_content && buffer[0] == 0 && buffer[1..] == FOX[1..]
}

/// Whether that content has its id, and takes three blocks.
fn fox_is_named(keys: &Keys) -> bool {
    id_of(keys, FOX_CONTENT).as_slice() == FOX_ID && blocks_of(43) == 3
}

#[test]
fn a_content_is_sealed_named_and_opened_as_by_python(rt: HostRuntime) {
    assert!(rt; fox_is_sealed_and_opened(&keys()) && fox_is_named(&keys()));
    blob_laws();
    block_laws();
}

/// The nonce of the blobs of `hello` and of the fox.
const NONCE: u64 = 0x0102_0304_0506_0708;

/// The type and the MAC of the blob of 1000 times `a` under that nonce.
static LONG_HEAD: &[u8; 33] =
    b"\x03\x84\x82\x06bb1\xf7J\xc1\xe1\xb1w\x5c0\xbdf \x87\xa1\xd5BJ}[\xfa\xb3\x90\xe8\xee\xb3n\x91";

/// The id of 1000 times `a`.
static LONG_ID: &[u8] =
    b"\x9f_\x15\xe7\x5c\x0c\xf2\xae>S\xfd\xc3'u<\xa4\xc05Z,4\xd9\x10\xe9\xc1\x13t\xdf=\xb7\x044";

/// The id of no bytes.
static EMPTY_ID: &[u8] =
    b"fV\xedD@m\x88\x95I{\x1b\x8d\x85A\x18\xfc\xd7y\x0e\x18\x1c\xe6\xea|\xa4\xee\xd7\x93\xf0\xfc\xd5\x94";

/// Whether contents of up to 64 KiB with their heads can be sealed from those nonces on.
fn are_sealable(nonces: &[u64], buffers: &[Vec<u8>]) -> bool
    ensures { IsTrue result → (k : ℕ) → k < length buffers.now → IsSealable (slice_index nonces.now k) (bytes_at buffers.now k) }
{
    if nonces.len() != buffers.len() {
        return false;
    }
    for place in 0..buffers.len() {
        if !is_sealable(nonces[place], bytes_at(buffers, place)) {
            return false;
        }
    }
    true
}

/// The bytes of the buffer in a place, of which there are none behind the last buffer.
fn bytes_at(buffers: &[Vec<u8>], place: usize) -> &[u8]
    ensures { result.now ≡ bytes_at buffers.now place }
{
    match buffers.get(place) {
        Some(buffer) => buffer.as_slice(),
        None => &[],
    }
}

/// Whether a content of up to 64 KiB with its head can be sealed from this nonce on.
fn is_sealable(nonce: u64, buffer: &[u8]) -> bool
    ensures { IsTrue result → IsSealable nonce buffer.now }
{
    if NONCE < nonce {
        return false;
    }
    if buffer.len() < 43 {
        return false;
    }
    if 65536 < buffer.len() {
        return false;
    }
    true
}

/// Seals up to four contents. Tells whether it could.
fn seal_few(keys: &Keys, nonces: &[u64], buffers: &mut [Vec<u8>]) -> bool {
    if nonces.len() != buffers.len() || 4 < buffers.len() || !are_sealable(nonces, buffers) {
        return false;
    }
    seal_blobs(keys, Mode::Repokey, nonces, buffers);
    true
}

/// Seals up to 64 contents. Tells whether it could.
fn seal_all(keys: &Keys, nonces: &[u64], buffers: &mut [Vec<u8>]) -> bool {
    if nonces.len() != buffers.len() || 64 < buffers.len() || !are_sealable(nonces, buffers) {
        return false;
    }
    seal_many(keys, Mode::Repokey, nonces, buffers);
    true
}

/// Contents, each behind 43 bytes that are not read.
fn buffers_of(alloc: Global, contents: &[&[u8]]) -> Result<Vec<Vec<u8>>, AllocError> {
    let mut buffers = Vec::new(alloc);
    for content in contents {
        buffers.push(joined(alloc, &[&[0xa5u8; 43], content])?)?;
    }
    Ok(buffers)
}

/// Whether buffers have just these bytes.
fn are_bytes(buffers: &[Vec<u8>], wanted: &[&[u8]]) -> bool {
    if buffers.len() != wanted.len() {
        return false;
    }
    for place in 0..wanted.len() {
        if buffers[place].as_slice() != wanted[place] {
            return false;
        }
    }
    true
}

/// Whether two buffers are the blobs of `hello` and of 1000 times `a`.
fn are_two_blobs(buffers: &[Vec<u8>]) -> bool {
    buffers.len() == 2
        && buffers[0].as_slice() == CASES[0].blob
        && buffers[1].as_slice().starts_with(LONG_HEAD)
}

/// Whether two buffers end with `hello` and with this content.
fn are_two_contents(buffers: &[Vec<u8>], long: &[u8]) -> bool {
    buffers.len() == 2
        && buffers[0].as_slice().ends_with(b"hello")
        && buffers[1].as_slice().ends_with(long)
}

/// Whether two blobs are opened under those ids.
fn are_opened(keys: &Keys, ids: &[Id; 2], blobs: &mut [Vec<u8>]) -> bool {
    if blobs.len() != 2 {
        return false;
    }
    let answers = open_blobs(keys, ids, blobs);
    answers == [Ok(()), Ok(()), Err(BlobFault::Short), Err(BlobFault::Short)]
}

/// Whether the ids of four contents are told side by side.
fn are_ids(keys: &Keys, long: &[u8]) -> bool {
    let ids = ids_of(keys, [long, b"hello", b"", FOX_CONTENT]);
    let are_two = ids[0].as_slice() == LONG_ID && ids[1] == HELLO_ID;
    are_two && ids[2].as_slice() == EMPTY_ID && ids[3].as_slice() == FOX_ID
}

/// Whether `hello`, the fox, and both again are sealed as those blobs.
fn even_are_sealed(buffers: &mut [Vec<u8>]) -> bool {
    let blobs = [CASES[0].blob, FOX, CASES[0].blob, FOX];
    seal_few(&keys(), &[NONCE; 4], buffers) && are_bytes(buffers, &blobs)
}

/// Whether those four contents are sealed so.
fn four_are_sealed(alloc: Global) -> bool {
    match buffers_of(alloc, &[b"hello", FOX_CONTENT, b"hello", FOX_CONTENT]) {
        Ok(mut even) => even_are_sealed(even.as_mut_slice()),
        Err(_) => false,
    }
}

#[test]
fn up_to_four_are_sealed_named_and_opened_as_by_python(rt: HostRuntime) {
    assert!(rt; four_are_sealed(rt.alloc()));
}

/// Whether `hello` and this content are sealed and opened.
fn uneven_are_sealed(long: &[u8; 1000], buffers: &mut [Vec<u8>]) -> bool {
    let keys = keys();
    let ids = [HELLO_ID, id_of(&keys, long)];
    seal_few(&keys, &[NONCE; 2], buffers)
        && are_two_blobs(buffers)
        && are_opened(&keys, &ids, buffers)
        && are_two_contents(buffers, long)
}

/// Whether two contents of unequal lengths are sealed, named and opened.
fn two_are_sealed(alloc: Global) -> bool {
    let long = [b'a'; 1000];
    match buffers_of(alloc, &[b"hello", &long]) {
        Ok(mut uneven) => {
            uneven_are_sealed(&long, uneven.as_mut_slice()) && are_ids(&keys(), &long)
        }
        Err(_) => false,
    }
}

#[test]
fn two_of_unequal_lengths_are_sealed_named_and_opened(rt: HostRuntime) {
    assert!(rt; two_are_sealed(rt.alloc()));
}

/// Whether two blobs are opened by `open_many` under those ids.
fn all_are_opened(keys: &Keys, ids: &[Id; 2], blobs: &mut [Vec<u8>]) -> bool {
    if blobs.len() != 2 {
        return false;
    }
    let mut answers = [Err(BlobFault::Short); 2];
    open_many(keys, ids, blobs, &mut answers);
    answers == [Ok(()), Ok(())]
}

/// Whether `hello` and this content are sealed by `seal_many` and opened again.
fn all_are_sealed(long: &[u8; 1000], buffers: &mut [Vec<u8>]) -> bool {
    let keys = keys();
    let mut ids = [ZERO_ID; 2];
    ids_many(&keys, &[b"hello", long], &mut ids);
    ids[0] == HELLO_ID
        && seal_all(&keys, &[NONCE; 2], buffers)
        && are_two_blobs(buffers)
        && all_are_opened(&keys, &ids, buffers)
        && are_two_contents(buffers, long)
}

/// Whether many contents of unequal lengths are sealed, named and opened.
fn many_are_sealed(alloc: Global) -> bool {
    let long = [b'a'; 1000];
    match buffers_of(alloc, &[b"hello", &long]) {
        Ok(mut uneven) => all_are_sealed(&long, uneven.as_mut_slice()),
        Err(_) => false,
    }
}

#[test]
fn many_of_unequal_lengths_are_sealed_named_and_opened(rt: HostRuntime) {
    assert!(rt; many_are_sealed(rt.alloc()));
}
