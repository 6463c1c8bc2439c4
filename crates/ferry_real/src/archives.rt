//! The archives that a command takes, as the line of progress names them.

use ferry_text::write_text;
use std::alloc::{AllocError, Global};

/// What stands for the end of a name that is cut.
const CUT: &str = "..";

/// The names of archives, in the order in which a command takes them, each as it is printed.
#[derive(Drop)]
pub struct Archives {
    names: Vec<String>,
}

impl Archives {
    /// The archives of these names.
    pub fn new(alloc: Global, names: &[String]) -> Result<Archives, AllocError> {
        let mut printed = Vec::new(alloc);
        for name in names {
            printed.push(printed_name(alloc, name.as_str())?)?;
        }
        Ok(Archives { names: printed })
    }

    /// Whether there is one behind so many.
    pub fn has(&self, before: usize) -> bool {
        before < self.names.len()
    }

    /// A text, and in front of it the archive behind so many and which of all it is, in so many columns where
    /// the text leaves room for its name.
    pub fn in_front(
        &self,
        alloc: Global,
        before: usize,
        text: &str,
        columns: usize,
    ) -> Result<String, AllocError> {
        let Some(name) = self.names.get(before) else {
            return String::from_str(alloc, text);
        };
        let all = self.names.len();
        let behind = if all == 1 {
            format!(in alloc; ": {text}")?
        } else {
            let number = before.saturating_add(1);
            format!(in alloc; " ({number} of {all}): {text}")?
        };
        let room = columns.saturating_sub(behind.len());
        let mut line = String::from_str(alloc, front_of(name.as_str(), room))?;
        if line.len() < name.len() {
            line.push_str(CUT)?;
        }
        line.push_str(behind.as_str())?;
        Ok(line)
    }
}

/// A name as it is printed.
fn printed_name(alloc: Global, name: &str) -> Result<String, AllocError> {
    let mut bytes = Vec::new(alloc);
    write_text(name.as_bytes(), &mut bytes)?;
    let text = str::from_utf8(bytes.as_slice()).unwrap_or("");
    String::from_str(alloc, text)
}

/// A name, where it takes so many columns at most, and else a front of it that leaves room for the mark of
/// the cut.
fn front_of(name: &str, columns: usize) -> &str {
    if width_of(name) <= columns {
        return name;
    }
    let room = columns.saturating_sub(CUT.len());
    let mut width = 0usize;
    for (at, one) in name.char_indices() {
        width = width.saturating_add(width_of_char(one));
        if width > room {
            return name.get(..at).unwrap_or("");
        }
    }
    name
}

/// The columns that a text takes at most.
fn width_of(text: &str) -> usize {
    let mut width = 0usize;
    for one in text.chars() {
        width = width.saturating_add(width_of_char(one));
    }
    width
}

/// The columns that a character takes at most on a terminal: two, as the wide ones do, where it isn't ASCII.
fn width_of_char(one: char) -> usize {
    if one.is_ascii() { 1 } else { 2 }
}
