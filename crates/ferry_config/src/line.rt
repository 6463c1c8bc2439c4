//! The form of one line.

ghost use Rattle.std.specs.Prelude.{◌≡◌, ◌<◌, ◌==◌, length, position};
ghost use Rattle.std.specs.List.{list_all};
ghost use Rattle.std.specs.Option.{option_copied};
ghost use Rattle.ferry_config.specs.Line.{header_name, inner_line, is_passed, is_space, line_of, trimmed, trimmed_end, trimmed_front};
ghost use Rattle.ferry_config.specs.View.{line_view};

/// What a line is. The texts borrow from the line.
#[derive(Clone, Copy)]
pub(crate) enum Line<'a> {
    /// Blank, or a comment.
    Passed,
    /// The name of the section that begins here.
    Header(&'a [u8]),
    /// The piece that continues the value before it.
    Continued(&'a [u8]),
    /// A name and its value, as far as it stands on this line.
    Assigned(&'a [u8], &'a [u8]),
    /// None of these.
    Formless,
}

/// The place of the first `wanted` in `text`.
pub(crate) fn place_of(text: &[u8], wanted: u8) -> Option<usize>
    ensures place { result ≡ position (λ byte. byte == wanted) text.now }
{
    text.iter().position(|byte| *byte == wanted)
}

/// The form of the line `text`, which is given without its end.
#[tactic(auto, unfolding(crate::specs::Line::line_of))]
pub(crate) fn line_of(text: &[u8]) -> Line<'_>
    ensures line { line_view result ≡ line_of text.now }
{
    if is_passed(text) {
        return Line::Passed;
    }
    match header_name(text) {
        Some(name) => Line::Header(name),
        None => inner_line(text),
    }
}

/// The form of a line of a section that is neither passed over nor the beginning of one.
fn inner_line(text: &[u8]) -> Line<'_>
    requires { 0 < length text.now }
    ensures line { line_view result ≡ inner_line text.now }
{
    if is_space(text[0]) {
        return Line::Continued(trimmed(text));
    }
    match place_of(text, b'=') {
        Some(at) => Line::Assigned(trimmed(&text[..at]), trimmed(&text[at + 1..])),
        None => Line::Formless,
    }
}

/// Whether `byte` is a space or a tab.
fn is_space(byte: u8) -> bool
    ensures space { result ≡ is_space byte }
{
    byte == b' ' || byte == b'\t'
}

/// Whether `text` has spaces and tabs alone.
fn is_blank(text: &[u8]) -> bool
    ensures blank { result ≡ list_all is_space text.now }
{
    text.iter().all(|byte| is_space(*byte))
}

/// Whether the line `text` is blank or a comment.
fn is_passed(text: &[u8]) -> bool
    ensures passed { result ≡ is_passed text.now }
{
    is_blank(text) || text[0] == b'#' || text[0] == b';'
}

/// The name in a line that begins a section.
fn header_name(text: &[u8]) -> Option<&[u8]>
    ensures name { option_copied result ≡ header_name text.now }
{
    let end = text.len();
    if end < 2 || text[0] != b'[' || text[end - 1] != b']' {
        return None;
    }
    let name = &text[1..end - 1];
    if name.contains(&b']') {
        None
    } else {
        Some(name)
    }
}

/// `text` without the spaces and tabs around it.
fn trimmed(text: &[u8]) -> &[u8]
    ensures trimmed { result.now ≡ trimmed text.now }
{
    trimmed_end(trimmed_front(text))
}

/// `text` without the spaces and tabs in front.
fn trimmed_front(text: &[u8]) -> &[u8]
    ensures trimmed { result.now ≡ trimmed_front text.now }
{
    for start in 0..text.len() {
        if !is_space(text[start]) {
            return &text[start..];
        }
    }
    &text[text.len()..]
}

/// `text` without the spaces and tabs at its end.
fn trimmed_end(text: &[u8]) -> &[u8]
    ensures trimmed { result.now ≡ trimmed_end text.now }
{
    for dropped in 0..text.len() {
        let last = text.len() - 1 - dropped;
        if !is_space(text[last]) {
            return &text[..last + 1];
        }
    }
    &text[..0]
}
