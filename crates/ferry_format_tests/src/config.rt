//! Texts and their answers, by the rules of the grammar, and a text as Borg writes it.

use ferry_base::Bytes;
use ferry_config::{Config, one_meaning, print_config, read_config};
use std::alloc::{AllocError, Global};

/// Texts, each with the number of its fault, or 0.
static CASES: [(&[u8], u8); 7] = [
    (b"[repository]\n\tversion = 1\n", 1),
    (b"[repository]\nversion = 01\n", 2),
    (b"[repository]\nversion = 2\nversion = 2\n", 6),
    (b"[repository]\nversion = 1\nid = 00\n", 3),
    (
        b"[repository]\nversion = 1\nid = 000102030405060708090a0b0c0d0e0f101112131415161718191a1b1c1d1e1f\nkey = \n",
        0,
    ),
    (
        b"[repository]\nversion = 1\nid = 000102030405060708090a0b0c0d0e0f101112131415161718191a1b1c1d1e1f\nkey = aGVsbG8\n",
        4,
    ),
    (
        b"[repository]\nversion = 1\nid = 000102030405060708090a0b0c0d0e0f101112131415161718191a1b1c1d1e1f\nkey = aGVsbG8=\nmax_segment_size = 4294967296\n",
        5,
    ),
];

/// Lines that end with CR LF or LF, comments, another section, an unknown name, and values on continued lines.
static MIXED: &[u8] =
    b"# a\r\n[other]\r\njunk\r\n[repository]\r\n; b\r\nversion=1\r\nid\t=\t 000102030405060708090a0b0c0d0e0f101112131415161718191a\
        1b1c1d1e1f\r\nkey = aG\n# a\n \n  Vs\t\n\tbG8=\nlock = 1\nsegments_per_dir = 20\n 48";

/// The id of these texts.
static ID: [u8; 32] = [
    0, 1, 2, 3, 4, 5, 6, 7, 8, 9, 10, 11, 12, 13, 14, 15, 16, 17, 18, 19, 20, 21, 22, 23, 24, 25,
    26, 27, 28, 29, 30, 31,
];

/// As BorgBackup 1.2 writes it: the lines of the key are those that Python's `base64` makes of the
/// bytes 0 to 119.
static PRINTED: &[u8] = b"[repository]
version = 1
segments_per_dir = 1000
max_segment_size = 524288000
append_only = 0
storage_quota = 0
additional_free_space = 0
id = 000102030405060708090a0b0c0d0e0f101112131415161718191a1b1c1d1e1f
key = AAECAwQFBgcICQoLDA0ODxAREhMUFRYXGBkaGxwdHh8gISIjJCUmJygpKissLS4vMDEyMz
\tQ1Njc4OTo7PD0+P0BBQkNERUZHSElKS0xNTk9QUVJTVFVWV1hZWltcXV5fYGFiY2RlZmdo
\taWprbG1ub3BxcnN0dXZ3
";

/// The number of the fault, or 0 where the text is read.
fn fault_of(alloc: Global, text: &[u8]) -> u8 {
    match read_config(alloc, text) {
        Ok(_) => 0,
        Err(fault) => fault.number(),
    }
}

/// Whether the mixed text is read.
fn mixed_is_read(alloc: Global) -> bool {
    match read_config(alloc, MIXED) {
        Ok(config) => is_mixed(&config),
        Err(_) => false,
    }
}

/// Whether a config is that of the mixed text.
fn is_mixed(config: &Config) -> bool {
    config.key.as_slice() == b"hello".as_slice()
        && config.id == ID
        && config.per_dir == 2048
        && config.limit == 524_288_000
}

/// The bytes 0 to 119.
fn counted(alloc: Global) -> Result<Bytes, AllocError> {
    let mut key = Vec::new(alloc);
    for byte in 0..120u8 {
        key.push(byte)?;
    }
    Ok(Bytes::new(key))
}

/// What is printed for the id and those bytes.
fn printed(alloc: Global) -> Result<Vec<u8>, AllocError> {
    let config = Config {
        id: ID,
        key: counted(alloc)?,
        per_dir: 1000,
        limit: 524_288_000,
    };
    print_config(alloc, &config)
}

/// Whether that is what BorgBackup writes.
fn is_printed(alloc: Global) -> bool {
    match printed(alloc) {
        Ok(text) => text.as_slice() == PRINTED,
        Err(_) => false,
    }
}

/// Whether the texts have their faults.
fn faults_are(alloc: Global) -> bool {
    for (text, number) in &CASES {
        if fault_of(alloc, text) != *number {
            return false;
        }
    }
    true
}

#[test]
fn texts_are_read_refused_and_printed(rt: HostRuntime) {
    assert!(rt; faults_are(rt.alloc()) && mixed_is_read(rt.alloc()) && is_printed(rt.alloc()));
    one_meaning();
}
