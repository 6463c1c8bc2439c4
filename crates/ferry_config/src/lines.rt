//! The lines of a text.

ghost use Rattle.std.specs.Prelude.{◌≡◌, ◌<◌, ◌∷◌, IfOk, length, map};
ghost use Rattle.std.specs.Str.Lines.{lines, strip_carriage_return};
ghost use Rattle.ferry_config.specs.Line.{line_of};
ghost use Rattle.ferry_config.specs.View.{line_view};

use crate::line::{Line, line_of, place_of};
use std::alloc::{AllocError, Global};

/// The forms of all lines of `text`, in order.
pub(crate) fn lines_of(alloc: Global, text: &[u8]) -> Result<Vec<Line<'_>>, AllocError>
    ensures lines { IfOk result (λ all. map line_view all.items ≡ map line_of (lines text.now)) }
{
    let mut all = Vec::new(alloc);
    let mut rest = text;
    while !rest.is_empty() {
        let (line, behind) = first_line(rest);
        all.push(line_of(line))?;
        rest = behind;
    }
    Ok(all)
}

/// The first line of `text`, without its end, and what is behind the end.
fn first_line(text: &[u8]) -> (&[u8], &[u8])
    requires { 0 < length text.now }
    ensures lines { lines text.now ≡ result.0.now ∷ lines result.1.now }
    ensures shorter { length result.1.now < length text.now }
{
    match place_of(text, b'\n') {
        Some(at) => (without_return(&text[..at]), &text[at + 1..]),
        None => (text, &text[text.len()..]),
    }
}

/// `line` without the carriage return at its end.
fn without_return(line: &[u8]) -> &[u8]
    ensures stripped { result.now ≡ strip_carriage_return line.now }
{
    match line {
        [front @ .., b'\r'] => front,
        _ => line,
    }
}
