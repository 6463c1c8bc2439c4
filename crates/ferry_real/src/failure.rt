//! What failed first at a device, and why.

use std::alloc::Global;
use std::fmt;
use std::fmt::{Display, Formatter};
use std::io::{Error, ErrorKind};

/// The name of what lines and pieces are written to.
pub const OUTPUT: &str = "standard output";

/// Why a call failed.
#[derive(Clone, Copy, Debug, PartialEq, Eq)]
pub enum Word {
    /// The system's name of its error, as `EACCES`, or where the device itself made no call what was in its
    /// way, as `is a link`.
    Text(&'static str),
    /// The number of an error of the system that has no name here.
    Number(i32),
}

/// The names of the system's errors that a file can meet, each with its number on Linux.
static NAMES: [(i32, &str); 47] = [
    (1, "EPERM"),
    (2, "ENOENT"),
    (4, "EINTR"),
    (5, "EIO"),
    (6, "ENXIO"),
    (7, "E2BIG"),
    (9, "EBADF"),
    (11, "EAGAIN"),
    (12, "ENOMEM"),
    (13, "EACCES"),
    (16, "EBUSY"),
    (17, "EEXIST"),
    (18, "EXDEV"),
    (19, "ENODEV"),
    (20, "ENOTDIR"),
    (21, "EISDIR"),
    (22, "EINVAL"),
    (23, "ENFILE"),
    (24, "EMFILE"),
    (26, "ETXTBSY"),
    (27, "EFBIG"),
    (28, "ENOSPC"),
    (29, "ESPIPE"),
    (30, "EROFS"),
    (31, "EMLINK"),
    (32, "EPIPE"),
    (36, "ENAMETOOLONG"),
    (38, "ENOSYS"),
    (39, "ENOTEMPTY"),
    (40, "ELOOP"),
    (61, "ENODATA"),
    (71, "EPROTO"),
    (74, "EBADMSG"),
    (75, "EOVERFLOW"),
    (95, "EOPNOTSUPP"),
    (103, "ECONNABORTED"),
    (104, "ECONNRESET"),
    (107, "ENOTCONN"),
    (110, "ETIMEDOUT"),
    (112, "EHOSTDOWN"),
    (113, "EHOSTUNREACH"),
    (116, "ESTALE"),
    (117, "EUCLEAN"),
    (121, "EREMOTEIO"),
    (122, "EDQUOT"),
    (123, "ENOMEDIUM"),
    (126, "ENOKEY"),
];

impl Word {
    /// Why a call of the system failed.
    pub fn of(error: &Error) -> Word {
        match error.raw_os_error() {
            Some(number) => Word::of_number(number),
            None => Word::Text(text_of(error.kind())),
        }
    }

    /// The name of the system's error of this number, or the number.
    fn of_number(number: i32) -> Word {
        for (known, name) in &NAMES {
            if *known == number {
                return Word::Text(name);
            }
        }
        Word::Number(number)
    }
}

/// What stands for an error that std itself has found.
fn text_of(kind: ErrorKind) -> &'static str {
    match kind {
        ErrorKind::OutOfMemory => "ENOMEM",
        ErrorKind::WriteZero => "takes no more bytes",
        ErrorKind::UnexpectedEof => "has ended",
        ErrorKind::InvalidInput => "EINVAL",
        _ => "has failed",
    }
}

impl Display for Word {
    fn fmt<W: fmt::Write>(&self, f: &mut Formatter<W>) -> fmt::Result {
        match self {
            Word::Text(text) => f.write_str(text),
            Word::Number(number) => write!(f, "error {number}"),
        }
    }
}

/// The file or folder at which a device failed first, and why.
#[derive(Debug, Drop)]
pub struct Failure {
    place: Where,
    word: Word,
}

/// Where something failed.
#[derive(Debug, Drop)]
enum Where {
    /// At this path.
    Path(String),
    /// At what has this name.
    Named(&'static str),
}

impl Failure {
    /// What failed at a path. `None` where memory is refused for the path.
    pub fn at(alloc: Global, path: &str, word: Word) -> Option<Failure> {
        let path = String::from_str(alloc, path).ok()?;
        let place = Where::Path(path);
        Some(Failure { place, word })
    }

    /// What failed at that which has this name.
    pub fn named(name: &'static str, word: Word) -> Failure {
        let place = Where::Named(name);
        Failure { place, word }
    }

    /// The path as the system was asked for it, or the name of what has none: `standard output`.
    pub fn path(&self) -> &str {
        match &self.place {
            Where::Path(path) => path.as_str(),
            Where::Named(name) => name,
        }
    }

    /// Why it failed.
    pub fn word(&self) -> Word {
        self.word
    }
}
