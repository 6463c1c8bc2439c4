//! The section `repository`, and the values of its names.

ghost use Rattle.std.specs.Prelude.{◌≡◌, ℕ, ◌∷◌, [], ◌++◌, List, IfSome, IfNone, MatchOption, OnOk, IfOk, map};
ghost use Rattle.std.specs.List.{before_first, list_any};
ghost use Rattle.std.specs.Option.{option_map};
ghost use Rattle.std.specs.Str.{bytes_eq};
ghost use Rattle.ferry_config.specs.Section.{
  assignments,
  continuation,
  has_forms,
  is_assigned,
  is_continued,
  is_formless,
  is_header,
  repository_lines,
  repository_sections,
  stands_twice,
  value_of,
  values_to,
};
ghost use Rattle.ferry_config.specs.View.{line_view};

use crate::line::Line;
use std::alloc::{AllocError, Global};

/// The lines of the section `repository`, where there is one and no other.
pub(crate) fn repository_lines<'b, 'a>(lines: &'b [Line<'a>]) -> Option<&'b [Line<'a>]>
    ensures lines { option_map (λ found. map line_view found.now) result
        ≡ repository_lines (map line_view lines.now) }
{
    let behind = behind_repository(lines)?;
    match behind_repository(behind) {
        Some(_) => None,
        None => Some(before_header(behind)),
    }
}

/// The lines behind the first that begins a section `repository`.
fn behind_repository<'b, 'a>(lines: &'b [Line<'a>]) -> Option<&'b [Line<'a>]>
    ensures found { IfSome result (λ behind. repository_sections (map line_view lines.now)
        ≡ before_first is_header (map line_view behind.now)
        ∷ repository_sections (map line_view behind.now)) }
    ensures none { IfNone result (repository_sections (map line_view lines.now) ≡ []) }
{
    for place in 0..lines.len() {
        if let Line::Header(name) = lines[place] {
            if name == b"repository".as_slice() {
                return Some(&lines[place + 1..]);
            }
        }
    }
    None
}

/// The lines before the first that begins a section.
fn before_header<'b, 'a>(lines: &'b [Line<'a>]) -> &'b [Line<'a>]
    ensures front { map line_view result.now ≡ before_first is_header (map line_view lines.now) }
{
    for place in 0..lines.len() {
        if let Line::Header(_) = lines[place] {
            return &lines[..place];
        }
    }
    lines
}

/// The lines before the first that begins a value.
fn before_assigned<'b, 'a>(lines: &'b [Line<'a>]) -> &'b [Line<'a>]
    ensures front { map line_view result.now ≡ before_first is_assigned (map line_view lines.now) }
{
    for place in 0..lines.len() {
        if let Line::Assigned(_, _) = lines[place] {
            return &lines[..place];
        }
    }
    lines
}

/// Whether each line of a section has one of the forms, and none continues a value where none is.
#[tactic(auto, unfolding(crate::specs::Section::has_forms))]
pub(crate) fn has_forms(lines: &[Line<'_>]) -> bool
    ensures forms { result ≡ has_forms (map line_view lines.now) }
{
    !has_formless(lines) && !has_continued(before_assigned(lines))
}

/// Whether one of the lines has no form.
fn has_formless(lines: &[Line<'_>]) -> bool
    ensures formless { result ≡ list_any is_formless (map line_view lines.now) }
{
    for place in 0..lines.len() {
        if let Line::Formless = lines[place] {
            return true;
        }
    }
    false
}

/// Whether one of the lines continues a value.
fn has_continued(lines: &[Line<'_>]) -> bool
    ensures continued { result ≡ list_any is_continued (map line_view lines.now) }
{
    for place in 0..lines.len() {
        if let Line::Continued(_) = lines[place] {
            return true;
        }
    }
    false
}

/// The beginning of a value, and the lines behind it.
#[derive(Clone, Copy)]
struct Begun<'b, 'a> {
    value: &'a [u8],
    behind: &'b [Line<'a>],
}

/// The first assignment to `name`.
fn assignment_to<'b, 'a>(lines: &'b [Line<'a>], name: &[u8]) -> Option<Begun<'b, 'a>>
    ensures found { IfSome result (λ begun. values_to name.now (assignments (map line_view lines.now))
        ≡ (begun.value.now ++ continuation (map line_view begun.behind.now))
        ∷ values_to name.now (assignments (map line_view begun.behind.now))) }
    ensures none { IfNone result (values_to name.now (assignments (map line_view lines.now)) ≡ []) }
{
    for place in 0..lines.len() {
        if let Line::Assigned(found, value) = lines[place] {
            if found == name {
                let behind = &lines[place + 1..];
                return Some(Begun { value, behind });
            }
        }
    }
    None
}

/// Whether `name` stands twice or more.
pub(crate) fn stands_twice(lines: &[Line<'_>], name: &[u8]) -> bool
    ensures twice { result ≡ stands_twice name.now (assignments (map line_view lines.now)) }
{
    match assignment_to(lines, name) {
        Some(begun) => assignment_to(begun.behind, name).is_some(),
        None => false,
    }
}

/// The value of `name`, with the pieces that continue it.
pub(crate) fn value_of(
    alloc: Global,
    lines: &[Line<'_>],
    name: &[u8],
) -> Result<Option<Vec<u8>>, AllocError>
    ensures value { IfOk result (λ found. option_map (λ value. value.items) found
        ≡ value_of name.now (assignments (map line_view lines.now))) }
{
    let Some(begun) = assignment_to(lines, name) else {
        return Ok(None);
    };
    let mut value = Vec::from_slice(alloc, begun.value)?;
    append_pieces(&mut value, begun.behind)?;
    Ok(Some(value))
}

/// Appends the pieces that continue a value, which are those before the next value.
fn append_pieces(value: &mut Vec<u8>, lines: &[Line<'_>]) -> Result<(), AllocError>
    ensures ok { OnOk result (
        value.new.items ≡ value.old.items ++ continuation (map line_view lines.now)) }
{
    for place in 0..lines.len() {
        match lines[place] {
            Line::Assigned(_, _) => return Ok(()),
            Line::Continued(piece) => value.extend_from_slice(piece)?,
            _ => {}
        }
    }
    Ok(())
}
