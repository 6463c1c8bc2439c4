//! A line in plain words: one text for both repositories, into which the words of the one that it speaks of are put, and what failed there.

use ferry_real::{Failure, Word};
use ferry_text::write_text;
use ferry_top::{Secret, Secrets};
use std::alloc::{AllocError, Global};

/// What a device names where standard output failed.
const STANDARD_OUTPUT: &str = "standard output";

/// Why a folder can't be made in one that isn't there.
const ABSENT: Word = Word::Text("ENOENT");

/// The repository that a line speaks of.
#[derive(Clone, Copy, Debug, PartialEq, Eq)]
pub enum Side {
    /// The one that is read.
    Source,
    /// The one that is written.
    Target,
}

impl Side {
    /// The word for the repository.
    pub fn place(self) -> &'static str {
        match self {
            Side::Source => "SOURCE",
            Side::Target => "TARGET",
        }
    }

    /// Its secret of the two.
    pub fn secret(self, secrets: &Secrets) -> &Secret {
        match self {
            Side::Source => &secrets.source,
            Side::Target => &secrets.target,
        }
    }

    /// The fault line where its device failed.
    pub fn device_line(self) -> &'static str {
        match self {
            Side::Source => "source device failed",
            Side::Target => "target device failed",
        }
    }

    /// The status where its device failed.
    pub fn device_status(self) -> u8 {
        match self {
            Side::Source => 4,
            Side::Target => 5,
        }
    }

    /// What stands for a name in braces in a text.
    fn word(self, name: &str) -> &'static str {
        match (name, self) {
            ("place", _) => self.place(),
            ("passphrase", Side::Source) => "BORG_OTHER_PASSPHRASE",
            ("passphrase", Side::Target) => "BORG_PASSPHRASE",
            ("key file", Side::Source) => "BORG_OTHER_KEY_FILE",
            ("key file", Side::Target) => "BORG_KEY_FILE",
            ("init", Side::Target) => "; borgferry - TARGET init makes a repository there",
            _ => "",
        }
    }
}

/// Why something failed.
#[derive(Clone, Copy)]
enum Why<'a> {
    /// It isn't known.
    Unknown,
    /// For this.
    Word(Word),
    /// For what this says.
    Text(&'a str),
}

/// What failed, where that is known: the file or folder, and why.
#[derive(Clone, Copy)]
pub struct Cause<'a> {
    file: Option<&'a str>,
    why: Why<'a>,
}

impl<'a> Cause<'a> {
    /// Nothing that is known.
    pub fn unknown() -> Cause<'a> {
        Cause {
            file: None,
            why: Why::Unknown,
        }
    }

    /// What a device has noted.
    pub fn of(failure: Option<&'a Failure>) -> Cause<'a> {
        match failure {
            Some(failure) => Cause {
                file: Some(failure.path()),
                why: Why::Word(failure.word()),
            },
            None => Cause::unknown(),
        }
    }

    /// What is at a path, and why.
    pub fn at(path: &'a str, why: Word) -> Cause<'a> {
        Cause {
            file: Some(path),
            why: Why::Word(why),
        }
    }

    /// Something of this kind, of which no more is known.
    pub fn of_kind(kind: &'a str) -> Cause<'a> {
        Cause {
            file: Some(kind),
            why: Why::Unknown,
        }
    }

    /// What a line names by itself, and why it failed.
    pub fn of_word(why: Word) -> Cause<'a> {
        Cause {
            file: None,
            why: Why::Word(why),
        }
    }

    /// The same, where the reason was put into words.
    pub fn of_text(why: &'a str) -> Cause<'a> {
        Cause {
            file: None,
            why: Why::Text(why),
        }
    }

    /// Whether standard output failed.
    pub fn is_output(self) -> bool {
        match self.file {
            Some(file) => file == STANDARD_OUTPUT,
            None => false,
        }
    }

    /// Whether something wasn't there.
    pub fn is_absence(self) -> bool {
        match self.why {
            Why::Word(why) => why == ABSENT,
            Why::Unknown | Why::Text(_) => false,
        }
    }
}

/// What is put into a line: the repository that it speaks of, and what failed there.
#[derive(Clone, Copy)]
pub struct Filling<'a> {
    pub side: Side,
    pub cause: Cause<'a>,
}

impl Filling<'_> {
    /// Appends what stands for a name in braces in a text.
    fn push(self, alloc: Global, name: &str, line: &mut String) -> Result<(), AllocError> {
        match name {
            "file" => self.push_file(alloc, line),
            "why" => self.push_why(alloc, line),
            _ => line.push_str(self.side.word(name)),
        }
    }

    /// Appends the path of what failed.
    fn push_file(self, alloc: Global, line: &mut String) -> Result<(), AllocError> {
        match self.cause.file {
            Some(path) => push_escaped(alloc, path.as_bytes(), line),
            None => {
                line.push_str("the files of ")?;
                line.push_str(self.side.place())
            }
        }
    }

    /// Appends why it failed, in brackets.
    fn push_why(self, alloc: Global, line: &mut String) -> Result<(), AllocError> {
        match self.cause.why {
            Why::Unknown => Ok(()),
            Why::Word(why) => {
                let words = format!(in alloc; " ({why})")?;
                line.push_str(words.as_str())
            }
            Why::Text(why) => {
                line.push_str(" (")?;
                line.push_str(why)?;
                line.push_str(")")
            }
        }
    }
}

/// A text in which each name in braces is replaced by what stands for it.
pub fn filled(alloc: Global, text: &str, filling: Filling) -> Result<String, AllocError> {
    let mut line = String::new(alloc);
    for piece in text.split('{') {
        match piece.split_once('}') {
            Some((name, rest)) => {
                filling.push(alloc, name, &mut line)?;
                line.push_str(rest)?;
            }
            None => line.push_str(piece)?,
        }
    }
    Ok(line)
}

/// Appends bytes as names are printed; a byte that isn't part of a character of UTF-8 is printed as `\x` and two hex digits too.
pub fn push_escaped(alloc: Global, bytes: &[u8], line: &mut String) -> Result<(), AllocError> {
    let mut escaped = Vec::new(alloc);
    write_text(bytes, &mut escaped)?;
    for chunk in escaped.as_slice().utf8_chunks() {
        line.push_str(chunk.valid())?;
        push_digits(alloc, chunk.invalid(), line)?;
    }
    Ok(())
}

/// Appends `\x` and two hex digits for each byte.
fn push_digits(alloc: Global, bytes: &[u8], line: &mut String) -> Result<(), AllocError> {
    for byte in bytes {
        line.push_str("\\x")?;
        line.push_str(&hex::encode(alloc, [*byte])?)?;
    }
    Ok(())
}
