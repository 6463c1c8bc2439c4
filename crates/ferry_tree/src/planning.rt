//! What is made of an item.
ghost use Rattle.std.specs.Prelude.{◌≡◌, ◌/◌, length, None, IfOk, IfErr};
ghost use Rattle.std.specs.List.{list_any, slice_split};
ghost use Rattle.ferry_tree.specs.Index.{known_in};
ghost use Rattle.ferry_tree.specs.Planning.{is_slash, is_in_the_way, are_dots, has_zero, is_bad_part, has_bad_part, has_bad_front, outcome_of};
ghost use Rattle.ferry_tree.specs.Planning.{kind_outcome, path_outcome, new_outcome, bare_outcome, link_outcome, original_outcome, same_outcome};
ghost use Rattle.ferry_tree.specs.Plans.{plan_view, IsRefused};

use crate::known::{Index, Mark};
use crate::nodes::Node;
use ferry_base::Bytes;
use std::alloc::{AllocError, Global};
use thiserror::Error;

/// Why an item has no place in a tree.
#[derive(Clone, Copy, Debug, PartialEq, Eq, Error)]
pub enum PlaceFault {
    /// A part of the path is empty, `.` or `..`, or has a zero byte.
    #[error("a part of the path names nothing that can be made")]
    Path,
    /// The mode isn't a number from 0 to 65535.
    #[error("the mode isn't a number from 0 to 65535")]
    Mode,
    /// A symbolic link has no target, or a hard link no file that is there.
    #[error("a link has no target")]
    Source,
    /// Something other than a folder is at a proper front of the path.
    #[error("a parent of the path isn't a folder")]
    Parent,
}

/// What an item says of its place in a tree.
#[derive(Drop)]
pub struct Shape {
    /// The path.
    pub path: Bytes,
    /// The mode, where it is a number of 16 bits.
    pub mode: Option<u16>,
    /// The target of a symbolic link, or the path of the file of a hard link.
    pub origin: Origin,
    /// Whether the item has content.
    pub has_content: bool,
}

/// The field `source` of an item.
#[derive(Drop)]
pub enum Origin {
    /// There is none.
    Absent,
    /// It isn't raw.
    Other,
    /// It is these bytes.
    Raw(Bytes),
}

/// What is made of an item.
#[derive(Drop)]
pub(crate) enum Plan {
    /// It counts as a folder, and adds nothing.
    Stays,
    /// It is passed over.
    Passed,
    /// This node is made, a file without bytes yet.
    Makes(Node),
}

/// Why there is no plan.
#[derive(Clone, Copy, Debug, PartialEq, Eq)]
pub(crate) enum Refusal {
    /// The item has no place.
    Place(PlaceFault),
    /// Memory was refused.
    Memory,
}

impl From<AllocError> for Refusal {
    ghost use Rattle.ferry_tree.specs.declared.planning.Refusal.TheVariants.{Memory};

    ghost from_gives = { λ _ refusal. refusal ≡ Memory };

    fn from(_error: AllocError) -> Refusal {
        Refusal::Memory
    }
}

/// What is made of an item beside what is known.
#[tactic(auto, unfolding(crate::specs::Planning::outcome_of))]
pub(crate) fn plan_item(alloc: Global, known: &Index, shape: &Shape) -> Result<Plan, Refusal>
    ensures plan { IfOk result (λ plan. plan_view plan ≡ outcome_of (known_in known.now) shape.now) }
    ensures refused { IfErr result (λ refusal. IsRefused refusal (outcome_of (known_in known.now) shape.now)) }
{
    let is_root = shape.path.as_slice() == b".".as_slice();
    if !is_root && has_bad_part(shape.path.as_slice()) {
        return Err(Refusal::Place(PlaceFault::Path));
    }
    let Some(mode) = shape.mode else {
        return Err(Refusal::Place(PlaceFault::Mode));
    };
    if is_root {
        return Ok(Plan::Stays);
    }
    plan_kind(alloc, known, shape, mode / 4096)
}

/// Whether a part of a path names nothing that can be made.
fn has_bad_part(path: &[u8]) -> bool
    ensures { result ≡ has_bad_part path.now }
{
    let mut from = 0usize;
    for place in 0..path.len() {
        if path[place] == b'/' {
            if is_bad_part(&path[from..place]) {
                return true;
            }
            from = place + 1;
        }
    }
    is_bad_part(&path[from..])
}

/// Whether a part of a path names nothing that can be made.
fn is_bad_part(part: &[u8]) -> bool
    ensures { result ≡ is_bad_part part.now }
{
    part.is_empty() || are_dots(part) || has_zero(part)
}

/// Whether a part of a path has a zero byte.
fn has_zero(part: &[u8]) -> bool
    ensures { result ≡ has_zero part.now }
{
    part.iter().any(|byte| *byte == 0)
}

/// Whether a part of a path is one dot or two.
fn are_dots(part: &[u8]) -> bool
    ensures { result ≡ are_dots part.now }
{
    part == b".".as_slice() || part == b"..".as_slice()
}

/// What is made of an item of this kind.
fn plan_kind(alloc: Global, known: &Index, shape: &Shape, kind: u16) -> Result<Plan, Refusal>
    ensures plan { IfOk result (λ plan. plan_view plan ≡ kind_outcome (known_in known.now) shape.now kind) }
    ensures refused { IfErr result (λ refusal. IsRefused refusal (kind_outcome (known_in known.now) shape.now kind)) }
{
    if kind != 4 && kind != 8 && kind != 10 {
        return Ok(Plan::Passed);
    }
    match known.at(shape.path.as_slice()) {
        Some(Mark::Folder) if kind == 4 => Ok(Plan::Stays),
        Some(_) => Ok(Plan::Passed),
        None => plan_new(alloc, known, shape, kind),
    }
}

/// What is made of an item of this kind at a path where nothing is.
fn plan_new(alloc: Global, known: &Index, shape: &Shape, kind: u16) -> Result<Plan, Refusal>
    ensures plan { IfOk result (λ plan. plan_view plan ≡ path_outcome (known_in known.now) shape.now kind None) }
    ensures refused { IfErr result (λ refusal. IsRefused refusal (path_outcome (known_in known.now) shape.now kind None)) }
{
    if has_bad_front(known, shape.path.as_slice()) {
        return Err(Refusal::Place(PlaceFault::Parent));
    }
    match kind {
        4 => Ok(Plan::Makes(Node::Folder)),
        8 if shape.has_content => Ok(Plan::Makes(Node::File(Vec::new(alloc)))),
        8 => plan_bare(alloc, known, &shape.origin),
        _ => plan_link(alloc, &shape.origin),
    }
}

/// Whether something other than a folder is at a proper front of a path.
fn has_bad_front(known: &Index, path: &[u8]) -> bool
    ensures { result ≡ has_bad_front (known_in known.now) path.now (length path.now) }
{
    for place in 0..path.len() {
        if path[place] == b'/' && is_in_the_way(known, &path[..place]) {
            return true;
        }
    }
    false
}

/// Whether something other than a folder is known at a path.
fn is_in_the_way(known: &Index, path: &[u8]) -> bool
    ensures { result ≡ is_in_the_way (known_in known.now path.now) }
{
    match known.at(path) {
        None => false,
        Some(Mark::Folder) => false,
        Some(_) => true,
    }
}

/// What is made of a file without content.
fn plan_bare(alloc: Global, known: &Index, origin: &Origin) -> Result<Plan, Refusal>
    ensures plan { IfOk result (λ plan. plan_view plan ≡ bare_outcome (known_in known.now) origin.now) }
    ensures refused { IfErr result (λ refusal. IsRefused refusal (bare_outcome (known_in known.now) origin.now)) }
{
    match origin {
        Origin::Absent => Ok(Plan::Makes(Node::File(Vec::new(alloc)))),
        Origin::Other => Err(Refusal::Place(PlaceFault::Source)),
        Origin::Raw(first) => plan_same(alloc, known, first.as_slice()),
    }
}

/// What is made of a hard link to this path.
fn plan_same(alloc: Global, known: &Index, first: &[u8]) -> Result<Plan, Refusal>
    ensures plan { IfOk result (λ plan. plan_view plan ≡ same_outcome (known_in known.now) first.now (known_in known.now first.now)) }
    ensures refused { IfErr result (λ refusal. IsRefused refusal (same_outcome (known_in known.now) first.now (known_in known.now first.now))) }
{
    match known.at(first) {
        Some(Mark::File) => Ok(Plan::Makes(Node::Same(Vec::from_slice(alloc, first)?))),
        Some(Mark::Same(original)) => plan_original(alloc, known, original.as_slice()),
        _ => Err(Refusal::Place(PlaceFault::Source)),
    }
}

/// What is made of a hard link to the file of a hard link.
fn plan_original(alloc: Global, known: &Index, original: &[u8]) -> Result<Plan, Refusal>
    ensures plan { IfOk result (λ plan. plan_view plan ≡ original_outcome original.now (known_in known.now original.now)) }
    ensures refused { IfErr result (λ refusal. IsRefused refusal (original_outcome original.now (known_in known.now original.now))) }
{
    match known.at(original) {
        Some(Mark::File) => Ok(Plan::Makes(Node::Same(Vec::from_slice(alloc, original)?))),
        _ => Err(Refusal::Place(PlaceFault::Source)),
    }
}

/// What is made of a symbolic link.
fn plan_link(alloc: Global, origin: &Origin) -> Result<Plan, Refusal>
    ensures plan { IfOk result (λ plan. plan_view plan ≡ link_outcome origin.now) }
    ensures refused { IfErr result (λ refusal. IsRefused refusal (link_outcome origin.now)) }
{
    match origin {
        Origin::Raw(target) => Ok(Plan::Makes(Node::Link(Vec::from_slice(
            alloc,
            target.as_slice(),
        )?))),
        _ => Err(Refusal::Place(PlaceFault::Source)),
    }
}
