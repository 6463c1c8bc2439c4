//! How far a value that isn't whole was read, so that its bytes aren't read again when more of them come.

ghost use Rattle.std.specs.Prelude.{◌≡◌, ◌≢◌, ◌≤◌, ◌++◌, ◌∷◌, [], drop, length, true, false, IfOk, IfSome, Err};
ghost use Rattle.ferry_msgpack.specs.declared.fault.PackFault.{PackFault};
ghost use Rattle.ferry_msgpack.specs.First.{array_value, map_value};
ghost use Rattle.ferry_msgpack.specs.Reading.{value_at};
ghost use Rattle.ferry_msgpack.specs.Tree.{nil, has_key, put};
ghost use Rattle.ferry_msgpack.specs.View.{pairs_view};
ghost use Rattle.ferry_item.specs.Progress.{BeginsWith, GoesOn, IsAhead, IsName, IsValue, count_view, is_flat};
ghost use Rattle.ferry_item.specs.declared.progress.Level.TheVariants.{Values, Pairs};

use crate::opening::{Count, Opening, count_of, opening_of};
use ferry_msgpack::{PackFault, Value, read};
use std::alloc::Global;
use std::collections::BTreeMap;

/// How many arrays and maps stand inside each other at most.
const DEPTH: usize = 64;

/// What an open array or map still misses. In each of its values at most `depth` arrays and maps may stand inside each
/// other.
#[derive(Drop)]
pub(crate) enum Level {
    /// So many values.
    Values {
        depth: usize,
        left: u64,
    },
    /// So many pairs, of which no name may stand among these, each of which is here with nil.
    Pairs {
        depth: usize,
        left: u64,
        names: BTreeMap<Vec<u8>, Value>,
    },
}

/// How far a value was read: so many of its bytes, inside these levels, the outermost first.
#[derive(Drop)]
pub(crate) struct Progress {
    pub(crate) seen: usize,
    pub(crate) levels: Vec<Level>,
}

/// How far the value at the front of the bytes is read from its first byte on. None as at `gone_on`.
pub(crate) fn begun(alloc: Global, bytes: &[u8]) -> Option<Progress>
    ensures ahead { IfSome result (λ later. IsAhead bytes.now later.seen later.levels.items) }
{
    let mut levels = Vec::new(alloc);
    let one = Level::Values {
        depth: DEPTH,
        left: 1,
    };
    let Ok(()) = levels.push(one) else {
        return None;
    };
    gone_on(alloc, Progress { seen: 0, levels }, bytes)
}

/// Reads on from where the progress is, up to the end of the bytes, of which the value is at the front. None where the
/// value is whole, where it breaks a rule, and where memory ran out.
pub(crate) fn gone_on(alloc: Global, progress: Progress, bytes: &[u8]) -> Option<Progress>
    requires { IsAhead bytes.now progress.seen progress.levels.items }
    ensures ahead { IfSome result (λ later. IsAhead bytes.now later.seen later.levels.items) }
    ensures short { IfSome result (λ _. value_at 64 bytes.now ≡ Err PackFault.Short) }
{
    let Progress {
        mut seen,
        mut levels,
    } = progress;
    'steps: for _ in 0..u64::MAX {
        let level = levels.pop()?;
        match step(alloc, &mut levels, level, behind(bytes, seen)) {
            Ok(Some(passed)) => seen += passed,
            Ok(None) => return Some(Progress { seen, levels }),
            Err(_) => return None,
        }
    }
    None
}

/// Reads one thing of what the innermost level misses.
fn step(
    alloc: Global,
    levels: &mut Vec<Level>,
    level: Level,
    bytes: &[u8],
) -> Result<Option<usize>, PackFault>
    ensures { IfOk result (λ passed. GoesOn passed (levels.old.items ++ level ∷ []) bytes.now levels.new.items) }
{
    match level {
        Level::Values { depth, left } => value_step(alloc, levels, depth, left, bytes),
        Level::Pairs { depth, left, names } => name_step(alloc, levels, depth, left, names, bytes),
    }
}

/// Reads the head of a value, and the whole value where it is neither an array nor a map.
fn value_step(
    alloc: Global,
    levels: &mut Vec<Level>,
    depth: usize,
    left: u64,
    bytes: &[u8],
) -> Result<Option<usize>, PackFault>
    ensures { IfOk result (λ passed. GoesOn passed (levels.old.items ++ Values depth left ∷ []) bytes.now levels.new.items) }
{
    if left == 0 {
        return Ok(Some(0));
    }
    if bytes.is_empty() {
        levels.push(Level::Values { depth, left })?;
        return Ok(None);
    }
    match opening_of(bytes[0]) {
        Opening::Array(count) => array_step(levels, depth, left, count, bytes),
        Opening::Map(count) => map_step(alloc, levels, depth, left, count, bytes),
        Opening::Raw | Opening::Other => flat_step(alloc, levels, depth, left, bytes),
    }
}

/// Reads the head of an array, whose values are missing then.
fn array_step(
    levels: &mut Vec<Level>,
    depth: usize,
    left: u64,
    count: Count,
    bytes: &[u8],
) -> Result<Option<usize>, PackFault>
    requires some { left ≢ 0 }
    requires head { BeginsWith bytes.now (λ first. first ≡ array_value (count_view count)) }
    ensures { IfOk result (λ passed. GoesOn passed (levels.old.items ++ Values depth left ∷ []) bytes.now levels.new.items) }
{
    if depth == 0 {
        return Err(PackFault::Deep);
    }
    let Some((number, length)) = count_of(count, behind(bytes, 1)) else {
        levels.push(Level::Values { depth, left })?;
        return Ok(None);
    };
    levels.push(Level::Values {
        depth,
        left: left - 1,
    })?;
    levels.push(Level::Values {
        depth: depth - 1,
        left: number,
    })?;
    Ok(Some(length + 1))
}

/// Reads the head of a map, whose pairs are missing then.
fn map_step(
    alloc: Global,
    levels: &mut Vec<Level>,
    depth: usize,
    left: u64,
    count: Count,
    bytes: &[u8],
) -> Result<Option<usize>, PackFault>
    requires some { left ≢ 0 }
    requires head { BeginsWith bytes.now (λ first. first ≡ map_value (count_view count)) }
    ensures { IfOk result (λ passed. GoesOn passed (levels.old.items ++ Values depth left ∷ []) bytes.now levels.new.items) }
{
    if depth == 0 {
        return Err(PackFault::Deep);
    }
    let Some((number, length)) = count_of(count, behind(bytes, 1)) else {
        levels.push(Level::Values { depth, left })?;
        return Ok(None);
    };
    levels.push(Level::Values {
        depth,
        left: left - 1,
    })?;
    levels.push(Level::Pairs {
        depth: depth - 1,
        left: number,
        names: BTreeMap::new(alloc),
    })?;
    Ok(Some(length + 1))
}

/// Reads a value that is neither an array nor a map.
fn flat_step(
    alloc: Global,
    levels: &mut Vec<Level>,
    depth: usize,
    left: u64,
    bytes: &[u8],
) -> Result<Option<usize>, PackFault>
    requires some { left ≢ 0 }
    requires head { BeginsWith bytes.now (λ first. is_flat first ≡ true) }
    ensures { IfOk result (λ passed. GoesOn passed (levels.old.items ++ Values depth left ∷ []) bytes.now levels.new.items) }
{
    let Some(length) = value_end(alloc, bytes)? else {
        levels.push(Level::Values { depth, left })?;
        return Ok(None);
    };
    levels.push(Level::Values {
        depth,
        left: left - 1,
    })?;
    Ok(Some(length))
}

/// Reads the name of a pair, whose value is missing then.
fn name_step(
    alloc: Global,
    levels: &mut Vec<Level>,
    depth: usize,
    left: u64,
    names: BTreeMap<Vec<u8>, Value>,
    bytes: &[u8],
) -> Result<Option<usize>, PackFault>
    ensures { IfOk result (λ passed. GoesOn passed (levels.old.items ++ Pairs depth left names ∷ []) bytes.now levels.new.items) }
{
    if left == 0 {
        return Ok(Some(0));
    }
    let Some((name, length)) = name_at(alloc, bytes)? else {
        levels.push(Level::Pairs { depth, left, names })?;
        return Ok(None);
    };
    let names = with_name(names, name)?;
    levels.push(Level::Pairs {
        depth,
        left: left - 1,
        names,
    })?;
    levels.push(Level::Values { depth, left: 1 })?;
    Ok(Some(length))
}

/// The names and this one, which may not stand among them.
fn with_name(
    names: BTreeMap<Vec<u8>, Value>,
    name: Vec<u8>,
) -> Result<BTreeMap<Vec<u8>, Value>, PackFault>
    ensures { IfOk result (λ more. (has_key name.items (pairs_view names.entries) ≡ false)
        × (pairs_view more.entries ≡ put name.items nil (pairs_view names.entries))) }
{
    let mut names = names;
    if names.contains_key(name.as_slice()) {
        return Err(PackFault::Repeat);
    }
    drop(names.insert(name, Value::Nil)?);
    Ok(names)
}

/// The name at the front, and how many bytes it takes; none where the bytes end before it does.
fn name_at(alloc: Global, bytes: &[u8]) -> Result<Option<(Vec<u8>, usize)>, PackFault>
    ensures { IfOk result (λ found. IsName found bytes.now) }
{
    if bytes.is_empty() {
        return Ok(None);
    }
    let Opening::Raw = opening_of(bytes[0]) else {
        return Err(PackFault::Key);
    };
    match read(alloc, bytes, 0) {
        Ok((value, length)) => match value {
            Value::Raw(name) => Ok(Some((name, length))),
            _ => Err(PackFault::Key),
        },
        Err(fault) => match fault {
            PackFault::Short => Ok(None),
            _ => Err(fault),
        },
    }
}

/// How many bytes the value at the front takes; none where the bytes end before it does.
fn value_end(alloc: Global, bytes: &[u8]) -> Result<Option<usize>, PackFault>
    ensures { IfOk result (λ end. IsValue end bytes.now) }
{
    match read(alloc, bytes, 0) {
        Ok((value, end)) => {
            drop(value);
            Ok(Some(end))
        }
        Err(fault) => match fault {
            PackFault::Short => Ok(None),
            _ => Err(fault),
        },
    }
}

/// The bytes behind the first `count`.
pub(crate) fn behind(bytes: &[u8], count: usize) -> &[u8]
    requires { count ≤ length bytes.now }
    ensures { result.now ≡ drop count bytes.now }
{
    &bytes[count..]
}
