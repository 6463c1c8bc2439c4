//! Key texts and their answers. Envelopes are spelled by hand from the msgpack specification, "Formats"; sealed keys
//! are computed by Python's hashlib and hmac, and by OpenSSL's `aes-256-ctr`.

ghost use Rattle.std.specs.Prelude.{◌≡◌, IfOk, true, codes};
ghost use Rattle.ferry_msgpack.specs.Tree.{flag, nil, no_pairs, pair, table};
ghost use Rattle.ferry_msgpack.specs.View.{value_view};

use ferry_keyblob::{
    Envelope, KeyText, key_laws, open_envelope, open_key, read_envelope, seal_key,
};
use ferry_mac::Keys;
use ferry_msgpack::Value;
use std::alloc::{AllocError, Global};

/// A key text and the number of its fault under the passphrase `password`.
struct Case {
    text: &'static [u8],
    fault: u8,
}

/// Bytes behind the envelope, version 2, another algorithm and no iterations, no iterations, another hash, bytes behind the
/// map inside, and a secret of 31 bytes inside.
static CASES: [Case; 7] = [
    Case {
        text: b"\x86\xa9algorithm\xa6sha256\xa4data\xa1d\xa4hash\xda\x00 hhhhhhhhhhhhhhhhhhhhhhhhhhhhhhhh\xaaiterations\x02\xa4sal\
            t\xda\x00 ssssssssssssssssssssssssssssssss\xa7version\x01\x00",
        fault: 1,
    },
    Case {
        text: b"\x86\xa9algorithm\xa6sha256\xa4data\xa1d\xa4hash\xda\x00 hhhhhhhhhhhhhhhhhhhhhhhhhhhhhhhh\xaaiterations\x02\xa4sal\
            t\xda\x00 ssssssssssssssssssssssssssssssss\xa7version\x02",
        fault: 2,
    },
    Case {
        text: b"\x86\xa9algorithm\xa6sha512\xa4data\xa1d\xa4hash\xda\x00 hhhhhhhhhhhhhhhhhhhhhhhhhhhhhhhh\xaaiterations\x00\xa4sal\
            t\xda\x00 ssssssssssssssssssssssssssssssss\xa7version\x01",
        fault: 3,
    },
    Case {
        text: b"\x86\xa9algorithm\xa6sha256\xa4data\xa1d\xa4hash\xda\x00 hhhhhhhhhhhhhhhhhhhhhhhhhhhhhhhh\xaaiterations\x00\xa4sal\
            t\xda\x00 ssssssssssssssssssssssssssssssss\xa7version\x01",
        fault: 4,
    },
    Case {
        text: b"\x86\xa9algorithm\xa6sha256\xa4data\xda\x00\xdaA\xdc\xfd\xe6\x0a\xd9gx$\xb2=\x0ay\x92\x11\x90\xec\xd6\xed\xf1\x1c\
            \xc8\xa1\xef\xa9\x98\xf2\x94(\x90\xf3 \x02mr\xcd\x10\x0cG}\xeas`y\x9a\x11\x5c\xe0!\xab\x02%\xe2H\x17\x83\x92\xd95\xe8\
            \xeeF-\xe4F\xbe\x87\xc4d\xec\xe6\xf4\x94\xeaN\xa9\xeb!\xb3\xdc\x05\xfb\xb9\xd8\xb0c\x081w\xdd\x96\xd5j\xb9\xe9Rd\xba\
            \xac\xff|:\xfb{k\xf4%\x87?>\x92\x22\x9aeT.\x8d\x14\x1c\xc3\xe6.jH\xed\xdePec\xf7Gv\x0b\x12\xb4!\x1b\xb29\x89\xc6\xa2\
            \xd5\xb0h\xea\xb6\x0cs\xd5`x\xaa.\xc8\xb6\xe3\xcb/\x11\xe6\xad=\xec\x19LG\xba\xc2\x97!\x0fi\xaa\x01\xc0@\xc8\xfc\x07jI\
            \xea\xb7\xb2V\xe8\x88\x962\xa6\x97\xc0\xae\x16\xab\xc2\xf8\x92\x03\xa9F\x9b\x89\xf4\x8cP\x00\xf1\xa8\xd7\xfa]V\xf2M\
            \x0b6\xa4hash\xda\x00 \xc0\x1d\xabB\xa1\xe8\x15\xac\xed9\x0f\xfaO+-c?r\x01\x5c\x12u\x16]L\xea|\xb9\xb0T\xfa\xfb\xaaite\
            rations\x02\xa4salt\xda\x00 ssssssssssssssssssssssssssssssss\xa7version\x01",
        fault: 5,
    },
    Case {
        text: b"\x86\xa9algorithm\xa6sha256\xa4data\xda\x00\xdbA\xdc\xfd\xe6\x0a\xd9gx$\xb2=\x0ay\x92\x11\x90\xec\xd6\xed\xf1\x1c\
            \xc8\xa1\xef\xa9\x98\xf2\x94(\x90\xf3 \x02mr\xcd\x10\x0cG}\xeas`y\x9a\x11\x5c\xe0!\xab\x02%\xe2H\x17\x83\x92\xd95\xe8\
            \xeeF-\xe4F\xbe\x87\xc4d\xec\xe6\xf4\x94\xeaN\xa9\xeb!\xb3\xdc\x05\xfb\xb9\xd8\xb0c\x081w\xdd\x96\xd5j\xb9\xe9Rd\xba\
            \xac\xff|:\xfb{k\xf4%\x87?>\x92\x22\x9aeT.\x8d\x14\x1c\xc3\xe6.jH\xed\xdePec\xf7Gv\x0b\x12\xb4!\x1b\xb29\x89\xc6\xa2\
            \xd5\xb0h\xea\xb6\x0cs\xd5`x\xaa.\xc8\xb6\xe3\xcb/\x11\xe6\xad=\xec\x19LG\xba\xc2\x97!\x0fi\xaa\x01\xc0@\xc8\xfc\x07jI\
            \xea\xb7\xb2V\xe8\x88\x962\xa6\x97\xc0\xae\x16\xab\xc2\xf8\x92\x03\xa9F\x9b\x89\xf4\x8cP\x00\xf1\xa8\xd7\xfa]V\xf2M\
            \x0b6C\xa4hash\xda\x00 \x8a\xa7\x9b\xd2\xdb\xe6\xb7\x13I.\x08X\x06\xdcI\xd4$\x8a\xd7\xbf,\xfd\xffH\xce\xbb\xe2[\xd4}Q\
            \x80\xaaiterations\x02\xa4salt\xda\x00 ssssssssssssssssssssssssssssssss\xa7version\x01",
        fault: 1,
    },
    Case {
        text: b"\x86\xa9algorithm\xa6sha256\xa4data\xda\x00\xce@\xda\xfb\xe0\x1c\xe8dJ6\xb4\x07\x05\xe5G\xae\xfe\xaf\xe4\xe8\xf1\
            \x10\xc6\x93\xe9\xa1\x8cE\xf9e\x90\xf3 \x02mr\xcd\x10\x0cG}\xeas`y\x9a\x11\x5c\xe0!a\x0a&\xecz\x11\x8b\x86nX\xa5\xe6\
            \x84-\xef@\x84\x89\xc4xS\x83\xb1\x94\xeaN\xa9\xeb!\xb3\xdc\x05\xfb\xb9\xd8\xb0c\x081w\xdd\x96\xd5\xa9\xb5\xe8hj\xba\
            \xb0@\x19\x7f\xf7w\xa4\xf4(\xb1=2\x82\x91\xf3,T.\x8d\x14\x1c\xc3\xe6.jH\xed\xdePec\xf7Gv\x0b\x12p:\x17\xab?\x93\xc6\
            \xbf\xd3\xabx\xdcr\x1a\xcc\xa5/y\xb1(\xd5\xb6\xe8\xe64\x07N\xdfo\xec\x19LG\xba\xc2\x97!\x0fi\xaa\x01\xc0@\xc8\xfc\x07j\
            I\xeai\xb4E\xf7\xa5\x96%\xa5\x90\xdb\xae\x01cu>\x899\xa9P\x83\x93\xf3\xff\xa4hash\xda\x00 \x02[\x9d\xc6\x92G\xdd\xc6\
            \xc8\xd0!\xa6\xff\x00\xdd1\x92\xdam\xc0\xa3\xb2{o:\xb7\x805\xe2\xa6%\x96\xaaiterations\x02\xa4salt\xda\x00 sssssssssss\
            sssssssssssssssssssss\xa7version\x01",
        fault: 2,
    },
];

/// A key with `tam_required` true and `zone` nil beside its fields, under the passphrase `password`, a salt of 32 times `s`
/// and 2 iterations.
static SEALED: &[u8] =
    b"\x86\xa9algorithm\xa6sha256\xa4data\xda\x00\xe0N\xdc\xfd\xe6\x0a\xd9gx$\xb2=\x0ay\x92\x11\x90\xec\xd6\xed\xf1\x1c\xc8\xa1\
        \xef\xa9\x98\xf2\x94(\x90\xf3 \x02mr\xcd\x10\x0cG}\xeas`y\x9a\x11\\\xe0!\xab\x02%\xe2H\x17\x83\x92\xd95\xe8\xeeF-\xe4F\xbe\
        \x87\xc4d\xec\xe6\xf4\x94\xeaN\xa9\xeb!\xb3\xdc\x05\xfb\xb9\xd8\xb0c\x081w\xdd\x96\xd5j\xb9\xe9Rd\xba\xac\xff|:\xfb{k\xf4%\
        \x87?>\x92\"\x9aeT.\x8d\x14\x1c\xc3\xe6.jH\xed\xdePec\xf7Gv\x0b\x12\xb4!\x1b\xb29\x89\xc6\xa2\xd5\xb0h\xea\xb6\x0cs\xd5`x\
        \xaa.\xc8\xb6\xe3\xcb/\x11\xe6\xad=\xec\x19LG\xba\xc2\x97!\x0fi\xaa\x01\xc0@\xc8\xfc\x07jI\xea\xb7\xb2V\xe8\x88\x962\xa6\
        \x97\xc0\xae\x16\xab\xc2\xf8\x92\x03\xa9F\x9b\x89\xf4\x8cP\x00\xf1\xa8\xd7\xfa]V\xf2M\x0b6\xe7\xa8\x9d3\x09\xf8\xa4hash\
        \xda\x00 %\xfft[\x86`)\x09\xed\xbc=_\x8c\xfa\xb7\xa9\xf5\x9c\xd4#H\xac\xb1x\xda\xebjO=\x92\xd1\x8d\xaaiterations\x02\xa4sa\
        lt\xda\x00 ssssssssssssssssssssssssssssssss\xa7version\x01";

/// The number of the fault, or 0 where the text opens.
fn fault_of(alloc: Global, text: &[u8]) -> u8 {
    match open_key(alloc, text, b"password") {
        Ok(_) => 0,
        Err(fault) => fault.number(),
    }
}

/// The other names of that key.
fn other_names(alloc: Global) -> Result<Value, AllocError>
    ensures names { IfOk result (λ more. value_view more
        ≡ table (pair (codes "tam_required") (flag true) (pair (codes "zone") nil no_pairs))) }
{
    let mut pairs = Vec::new(alloc);
    pairs.push((Vec::from_slice(alloc, b"tam_required")?, Value::Flag(true)))?;
    pairs.push((Vec::from_slice(alloc, b"zone")?, Value::Nil))?;
    Ok(Value::Table(pairs))
}

/// The secrets of that key.
fn secrets() -> Keys {
    Keys {
        enc_key: [b'e'; 32],
        enc_hmac_key: [b'm'; 32],
        id_key: [b'i'; 32],
    }
}

/// The text that seals that key.
fn sealed(alloc: Global) -> Result<Vec<u8>, AllocError> {
    let key = KeyText {
        keys: Keys {
            enc_key: [b'e'; 32],
            enc_hmac_key: [b'm'; 32],
            id_key: [b'i'; 32],
        },
        repository_id: [b'r'; 32],
        chunk_seed: -7,
        more: other_names(alloc)?,
    };
    seal_key(alloc, &key, b"password", &[b's'; 32], 2)
}

/// Whether that is the key.
fn is_that_key(key: &KeyText) -> bool {
    key.keys == secrets() && key.repository_id == [b'r'; 32] && key.chunk_seed == -7
}

/// Whether an envelope has those iterations and that salt, and opens to that key.
fn opens(alloc: Global, envelope: &Envelope) -> bool {
    if envelope.iterations != 2 || envelope.salt != [b's'; 32] {
        return false;
    }
    match open_envelope(alloc, envelope, b"password") {
        Ok(key) => is_that_key(&key),
        Err(_) => false,
    }
}

/// Whether the sealed key is that text.
fn is_sealed(alloc: Global) -> bool {
    match sealed(alloc) {
        Ok(text) => text.as_slice() == SEALED,
        Err(_) => false,
    }
}

/// Whether that text opens to that key.
fn is_opened(alloc: Global) -> bool {
    match read_envelope(alloc, SEALED) {
        Ok(envelope) => opens(alloc, &envelope),
        Err(_) => false,
    }
}

/// Whether the key texts have their faults.
fn faults_are(alloc: Global) -> bool {
    for case in &CASES {
        if fault_of(alloc, case.text) != case.fault {
            return false;
        }
    }
    true
}

#[test]
fn a_key_is_sealed_as_by_python_and_opened(rt: HostRuntime) {
    assert!(rt; faults_are(rt.alloc()) && is_sealed(rt.alloc()) && is_opened(rt.alloc()));
    key_laws();
}
