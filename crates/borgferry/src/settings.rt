//! What is looked at in the `config` of a repository by the program itself.
//! Source: BorgBackup 1.2, Internals, Repository.

use crate::fault::StartFault;
use crate::side::{Cause, Side};
use ferry_base::Id;
use ferry_config::read_config;
use ferry_real::{SmallFault, read_small};
use std::alloc::{AllocError, Global};
use std::rt::Runtime;

/// The most bytes of a `config`.
const LIMIT: u64 = 1_048_576;

/// The name of the section that has a repository's settings.
const SECTION: &str = "[repository]";

/// The texts that Borg takes for yes.
const YES: [&str; 4] = ["1", "yes", "true", "on"];

/// The text of the `config` of the repository of a side, which lies at a place; nothing where there is none, or one that no repository has. Where the system
/// refuses to read it, the device of that repository has failed.
fn text_at<R: Runtime>(
    rt: &R,
    alloc: Global,
    place: &str,
    side: Side,
) -> Result<Vec<u8>, StartFault> {
    let path = format!(in alloc; "{place}/config")?;
    match read_small(rt, alloc, path.as_str(), LIMIT) {
        Ok(text) => Ok(text),
        Err(SmallFault::Memory) => Err(StartFault::Memory),
        Err(SmallFault::Unreadable(word)) => {
            Err(StartFault::of_look(alloc, side, Cause::at(path.as_str(), word)))
        }
        Err(_) => Ok(Vec::new(alloc)),
    }
}

/// The id of the repository of a side, which lies at a place; `None` where there is no `config` that reads.
pub fn id_at<R: Runtime>(
    rt: &R,
    alloc: Global,
    place: &str,
    side: Side,
) -> Result<Option<Id>, StartFault> {
    let text = text_at(rt, alloc, place, side)?;
    Ok(id_in(alloc, text.as_slice()))
}

/// The id that a text of `config` has, where it reads.
fn id_in(alloc: Global, text: &[u8]) -> Option<Id> {
    match read_config(alloc, text) {
        Ok(config) => Some(config.id),
        Err(_) => None,
    }
}

/// Whether Borg takes nothing out of the target at a place: `append_only` in its `config` says so.
pub fn is_append_only<R: Runtime>(rt: &R, alloc: Global, place: &str) -> Result<bool, StartFault> {
    let text = text_at(rt, alloc, place, Side::Target)?;
    match str::from_utf8(text.as_slice()) {
        Ok(text) => Ok(says_append_only(alloc, text)?),
        Err(_) => Ok(false),
    }
}

/// Whether a text of `config` says `append_only` in the section of the repository.
fn says_append_only(alloc: Global, text: &str) -> Result<bool, AllocError> {
    let mut is_inside = false;
    for line in text.lines() {
        let line = line.trim();
        if line.starts_with('[') {
            is_inside = line == SECTION;
        } else if is_inside && is_yes(alloc, line)? {
            return Ok(true);
        }
    }
    Ok(false)
}

/// Whether a line gives `append_only` a text that Borg takes for yes.
fn is_yes(alloc: Global, line: &str) -> Result<bool, AllocError> {
    match line.split_once('=') {
        Some((name, value)) if name.trim() == "append_only" => {
            let value = value.trim().to_ascii_lowercase(alloc)?;
            Ok(YES.contains(&value.as_str()))
        }
        _ => Ok(false),
    }
}

/// Whether the `config` of the target at a place has a key.
pub fn has_key<R: Runtime>(rt: &R, alloc: Global, place: &str) -> Result<bool, StartFault> {
    let text = text_at(rt, alloc, place, Side::Target)?;
    match str::from_utf8(text.as_slice()) {
        Ok(text) => Ok(says_key(text)),
        Err(_) => Ok(false),
    }
}

/// Whether a text of `config` has a line with a key.
fn says_key(text: &str) -> bool {
    for line in text.lines() {
        if is_key(line) {
            return true;
        }
    }
    false
}

/// Whether a line has a key.
fn is_key(line: &str) -> bool {
    match line.split_once('=') {
        Some((name, value)) => name.trim() == "key" && !value.trim().is_empty(),
        None => false,
    }
}
