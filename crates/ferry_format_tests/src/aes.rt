//! Vectors of the standards, and of OpenSSL 3.0.

use ferry_aes::{Schedule, keystream};
use std::alloc::Global;

/// The key of FIPS 197, appendix A.3, and of SP 800-38A, appendices F.1.5 and F.5.5.
static KEY: [u8; 32] = [
    0x60, 0x3d, 0xeb, 0x10, 0x15, 0xca, 0x71, 0xbe, 0x2b, 0x73, 0xae, 0xf0, 0x85, 0x7d, 0x77, 0x81,
    0x1f, 0x35, 0x2c, 0x07, 0x3b, 0x61, 0x08, 0xd7, 0x2d, 0x98, 0x10, 0xa3, 0x09, 0x14, 0xdf, 0xf4,
];

/// The key of FIPS 197, appendix C.3: the bytes 00 to 1f.
static COUNTED_KEY: [u8; 32] = [
    0x00, 0x01, 0x02, 0x03, 0x04, 0x05, 0x06, 0x07, 0x08, 0x09, 0x0a, 0x0b, 0x0c, 0x0d, 0x0e, 0x0f,
    0x10, 0x11, 0x12, 0x13, 0x14, 0x15, 0x16, 0x17, 0x18, 0x19, 0x1a, 0x1b, 0x1c, 0x1d, 0x1e, 0x1f,
];

/// The text and the block of FIPS 197, appendix C.3.
static TEXT: [u8; 16] = [
    0x00, 0x11, 0x22, 0x33, 0x44, 0x55, 0x66, 0x77, 0x88, 0x99, 0xaa, 0xbb, 0xcc, 0xdd, 0xee, 0xff,
];

static BLOCK: [u8; 16] = [
    0x8e, 0xa2, 0xb7, 0xca, 0x51, 0x67, 0x45, 0xbf, 0xea, 0xfc, 0x49, 0x90, 0x4b, 0x49, 0x60, 0x89,
];

/// The first text and the first block of SP 800-38A, appendix F.1.5.
static FIRST_TEXT: [u8; 16] = [
    0x6b, 0xc1, 0xbe, 0xe2, 0x2e, 0x40, 0x9f, 0x96, 0xe9, 0x3d, 0x7e, 0x11, 0x73, 0x93, 0x17, 0x2a,
];

static FIRST_BLOCK: [u8; 16] = [
    0xf3, 0xee, 0xd1, 0xbd, 0xb5, 0xd2, 0xa0, 0x3c, 0x06, 0x4b, 0x5a, 0x7e, 0x3d, 0xb1, 0x81, 0xf8,
];

/// The output blocks of SP 800-38A, appendix F.5.5.
static OUTPUT_BLOCKS: [u8; 64] = [
    0x0b, 0xdf, 0x7d, 0xf1, 0x59, 0x17, 0x16, 0x33, 0x5e, 0x9a, 0x8b, 0x15, 0xc8, 0x60, 0xc5, 0x02,
    0x5a, 0x6e, 0x69, 0x9d, 0x53, 0x61, 0x19, 0x06, 0x54, 0x33, 0x86, 0x3c, 0x8f, 0x65, 0x7b, 0x94,
    0x1b, 0xc1, 0x2c, 0x9c, 0x01, 0x61, 0x0d, 0x5d, 0x0d, 0x8b, 0xd6, 0xa3, 0x37, 0x8e, 0xca, 0x62,
    0x29, 0x56, 0xe1, 0xc8, 0x69, 0x35, 0x36, 0xb1, 0xbe, 0xe9, 0x9c, 0x73, 0xa3, 0x15, 0x76, 0xb6,
];

/// The blocks of 16 bytes ff and of 16 bytes 00 under the first key, by OpenSSL (`enc -aes-256-ctr` of zeros, with 16 bytes ff as `-iv`).
static WRAPPED_BLOCKS: [u8; 32] = [
    0x3b, 0x3c, 0x29, 0x21, 0xc8, 0x5a, 0x24, 0xde, 0x9a, 0xc6, 0x06, 0xce, 0x6d, 0x1d, 0x60, 0xcc,
    0xe5, 0x68, 0xf6, 0x81, 0x94, 0xcf, 0x76, 0xd6, 0x17, 0x4d, 0x4c, 0xc0, 0x43, 0x10, 0xa8, 0x54,
];

/// Sixteen times a text.
fn sixteen_of(text: &[u8; 16]) -> [u8; 256] {
    let mut texts = [0u8; 256];
    for place in 0..16usize {
        texts[16 * place..16 * place + 16].copy_from_slice(text);
    }
    texts
}

/// Whether this is the block of a text, alone and as each of sixteen.
fn is_block(key: &[u8; 32], text: &[u8; 16], block: &[u8; 16]) -> bool {
    let schedule = Schedule::new(key);
    let mut texts = sixteen_of(text);
    schedule.sixteen(&mut texts);
    schedule.block(text) == *block && texts == sixteen_of(block)
}

/// Whether the stream from a counter on is that of SP 800-38A, appendix F.5.5.
fn is_stream(schedule: &Schedule) -> bool {
    let mut stream = [0u8; 64];
    keystream(
        schedule,
        0xf0f1_f2f3_f4f5_f6f7_f8f9_fafb_fcfd_feff,
        &mut stream,
    );
    stream == OUTPUT_BLOCKS
}

/// Whether the stream from the last counter on goes on with counter 0.
fn is_wrapped(schedule: &Schedule) -> bool {
    let mut stream = [0u8; 32];
    keystream(schedule, u128::MAX, &mut stream);
    stream == WRAPPED_BLOCKS
}

/// How many bytes streams have: fewer than a block, some blocks, and more than go sixteen blocks at a time.
static LENGTHS: &[usize] = &[0, 1, 15, 16, 255, 256, 257, 513, 1_025, 2_090];

/// Whether a stream of so many bytes is the blocks of the counters from this one on, joined and cut; 0 comes behind 2^128 - 1.
fn is_joined(alloc: Global, schedule: &Schedule, counter: u128, length: usize) -> bool {
    let mut stream = Vec::new(alloc);
    if stream.resize(length, 0).is_err() {
        return false;
    }
    keystream(schedule, counter, &mut stream);
    let mut at = counter;
    for piece in stream.chunks(16) {
        if !schedule.block(&at.to_be_bytes()).starts_with(piece) {
            return false;
        }
        at = at.wrapping_add(1);
    }
    true
}

/// Whether streams of each length are joined so, behind counter 2^64 - 1 and behind 2^128 - 1.
fn are_joined(alloc: Global, schedule: &Schedule) -> bool {
    for length in LENGTHS {
        if !is_joined(alloc, schedule, u128::from(u64::MAX), *length)
            || !is_joined(alloc, schedule, u128::MAX, *length)
        {
            return false;
        }
    }
    true
}

/// Whether the streams are.
fn are_streams(alloc: Global) -> bool {
    let schedule = Schedule::new(&KEY);
    is_stream(&schedule) && is_wrapped(&schedule) && are_joined(alloc, &schedule)
}

#[test]
fn blocks_and_stream_of_fips_197_and_sp_800_38a(rt: HostRuntime) {
    assert!(rt; is_block(&COUNTED_KEY, &TEXT, &BLOCK) && is_block(&KEY, &FIRST_TEXT, &FIRST_BLOCK));
    assert!(rt; are_streams(rt.alloc()));
}
