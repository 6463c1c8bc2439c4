//! Reads and writes of a file where the system moves a part, is interrupted or fails.

use ferry_layout::{parent_of_path, read_file_at, write_all};
use std::io;
use std::io::{Cursor, Error, ErrorKind, Read, Seek, SeekFrom, Write};

/// A file that gives at most two bytes a read, is interrupted at its second, and fails at the one that is told.
#[derive(Drop)]
struct SlowFile {
    inside: Cursor<&'static [u8]>,
    reads: u32,
    fails_at: u32,
}

impl SlowFile {
    fn new(fails_at: u32) -> SlowFile {
        SlowFile {
            inside: Cursor::new(b"0123456789".as_slice()),
            reads: 0,
            fails_at,
        }
    }
}

impl Read for SlowFile {
    fn read(&mut self, buf: &mut [u8]) -> io::Result<usize> {
        self.reads = self.reads.saturating_add(1);
        if self.reads == self.fails_at {
            return Err(Error::from(ErrorKind::Other));
        }
        if self.reads == 2 {
            return Err(Error::from(ErrorKind::Interrupted));
        }
        let most = buf.len().min(2);
        self.inside.read(&mut buf[..most])
    }
}

impl Seek for SlowFile {
    fn seek(&mut self, to: SeekFrom) -> io::Result<u64> {
        self.inside.seek(to)
    }
}

#[test]
fn short_reads_are_joined_and_a_failed_one_is_told(rt: HostRuntime) {
    let cases = [
        (0, 3, Ok(5), b"34567"),
        (4, 3, Err(ErrorKind::Other), b"3456."),
        (0, 8, Ok(2), b"89..."),
    ];
    for (fails_at, at, want, bytes) in cases {
        let mut into = *b".....";
        let got = read_file_at(&mut SlowFile::new(fails_at), at, &mut into);
        let got = got.map_err(|error| error.kind());
        assert!(rt; got == want && &into == bytes, "{fails_at} {at}");
    }
}

/// An output that takes at most two bytes a call, is interrupted at its second, and takes none from the one on that is told.
#[derive(Drop)]
struct SlowOutput {
    /// The bytes that were taken, as the digits of a number of base 256.
    taken: u64,
    calls: u32,
    stops_at: u32,
}

impl Write for SlowOutput {
    fn write(&mut self, buf: &[u8]) -> io::Result<usize> {
        self.calls = self.calls.saturating_add(1);
        if self.calls >= self.stops_at {
            return Ok(0);
        }
        if self.calls == 2 {
            return Err(Error::from(ErrorKind::Interrupted));
        }
        let most = buf.len().min(2);
        for byte in &buf[..most] {
            self.taken = self.taken.wrapping_mul(256).wrapping_add(u64::from(*byte));
        }
        Ok(most)
    }

    fn flush(&mut self) -> io::Result<()> {
        Ok(())
    }
}

/// The kind of the error with which a piece of five bytes is refused, and what was taken of it.
fn refusal(stops_at: u32) -> (Option<ErrorKind>, [u8; 8]) {
    let mut out = SlowOutput {
        taken: 0,
        calls: 0,
        stops_at,
    };
    let outcome = write_all(&mut out, b"abcde");
    (
        outcome.err().map(|error| error.kind()),
        out.taken.to_be_bytes(),
    )
}

#[test]
fn a_piece_is_written_whole_or_the_write_fails(rt: HostRuntime) {
    let cases = [
        (9, None, *b"\0\0\0abcde"),
        (4, Some(ErrorKind::WriteZero), *b"\0\0\0\0abcd"),
    ];
    for (stops_at, want, taken) in cases {
        assert!(rt; refusal(stops_at) == (want, taken), "{stops_at}");
    }
}

#[test]
fn a_paths_parent_is_what_lies_in_front_of_its_last_name(rt: HostRuntime) {
    let cases = [
        ("a/b/c/T", "a/b/c"),
        ("a/b//T//", "a/b"),
        ("~/T", "~"),
        ("T", "."),
        ("T/", "."),
        ("/T", "/"),
        ("//T", "/"),
    ];
    for (path, want) in cases {
        assert!(rt; parent_of_path(path) == want, "{path}");
    }
}
