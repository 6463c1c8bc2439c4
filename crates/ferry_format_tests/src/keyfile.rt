//! Files of Borg's form, and others, by hand.

use ferry_keyfile::{KeyFile, key_file_laws, print_key_file, read_key_file};
use std::alloc::Global;

/// A file of the id 0 to 31 and a key of 120 bytes, 0 to 119, as `print_key_file` gives it: the lines of the key are those that
/// Python's `base64` makes.
static PRINTED: &[u8] = b"BORG_KEY 000102030405060708090a0b0c0d0e0f101112131415161718191a1b1c1d1e1f
AAECAwQFBgcICQoLDA0ODxAREhMUFRYXGBkaGxwdHh8gISIjJCUmJygpKissLS4vMDEyMz
Q1Njc4OTo7PD0+P0BBQkNERUZHSElKS0xNTk9QUVJTVFVWV1hZWltcXV5fYGFiY2RlZmdo
aWprbG1ub3BxcnN0dXZ3
";

/// Files, each with the number of its fault, or 0.
static CASES: [(&[u8], u8); 9] = [
    (b"", 1),
    (b"BORG_KEY 12\nAA==\n", 1),
    (
        b"borg_key 000102030405060708090a0b0c0d0e0f101112131415161718191a1b1c1d1e1f\nAA==",
        1,
    ),
    (
        b"BORG_KEY 000102030405060708090a0b0c0d0e0f101112131415161718191a1b1c1d1e1f",
        1,
    ),
    (
        b"BORG_KEY 000102030405060708090a0b0c0d0e0f101112131415161718191a1b1c1d1e1f\rAA==",
        1,
    ),
    (
        b"BORG_KEY 000102030405060708090a0b0c0d0e0f101112131415161718191a1b1c1d1e1g\nAA==",
        1,
    ),
    (
        b"BORG_KEY 000102030405060708090a0b0c0d0e0f101112131415161718191a1b1c1d1e1f\n \r\n\t",
        2,
    ),
    (
        b"BORG_KEY 000102030405060708090a0b0c0d0e0f101112131415161718191a1b1c1d1e1f\n***\n",
        2,
    ),
    (
        b"BORG_KEY 000102030405060708090A0B0C0D0E0F101112131415161718191A1B1C1D1E1F\r\n A\tA\r\n==\n",
        0,
    ),
];

/// The number of the fault, or 0 where the bytes are read.
fn fault_of(alloc: Global, bytes: &[u8]) -> u8 {
    match read_key_file(alloc, bytes) {
        Ok(_) => 0,
        Err(fault) => fault.number(),
    }
}

/// Whether a file has a key of 120 bytes, the last of them 119, and is printed as that text.
fn is_printed(alloc: Global, file: &KeyFile) -> bool {
    let key = file.key.as_slice();
    if key.len() != 120 || key[119] != 119 {
        return false;
    }
    match print_key_file(alloc, file) {
        Ok(text) => text.as_slice() == PRINTED,
        Err(_) => false,
    }
}

/// Whether that text is read as a file, which is printed again.
fn is_read_and_printed(alloc: Global) -> bool {
    match read_key_file(alloc, PRINTED) {
        Ok(file) => is_printed(alloc, &file),
        Err(_) => false,
    }
}

/// Whether the files have their faults.
fn faults_are(alloc: Global) -> bool {
    for (bytes, number) in &CASES {
        if fault_of(alloc, bytes) != *number {
            return false;
        }
    }
    true
}

#[test]
fn key_files_are_read_and_printed(rt: HostRuntime) {
    assert!(rt; faults_are(rt.alloc()) && is_read_and_printed(rt.alloc()));
    key_file_laws();
}
