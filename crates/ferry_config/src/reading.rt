//! The reader.

ghost use Rattle.std.specs.Prelude.{◌≡◌, ◌≢◌, ℕ, List, Option, Some, IfOk, IfErr, map};
ghost use Rattle.ferry_config.specs.Config.{config_in, config_of, fault_in, fault_or, has_version_1, id_in, key_in, number_in, repeats_known_name};
ghost use Rattle.ferry_config.specs.Section.{assignments};
ghost use Rattle.ferry_config.specs.View.{line_view};

use crate::config::Config;
use crate::fault::ConfigFault;
use crate::line::Line;
use crate::lines::lines_of;
use crate::section::{has_forms, repository_lines, stands_twice, value_of};
use crate::values::{read_id, read_key, read_number};
use ferry_base::{Bytes, Id};
use std::alloc::{AllocError, Global};

/// How many segments a folder holds where the text doesn't say.
const PER_DIR: u64 = 1000;

/// How many bytes a segment holds where the text doesn't say.
const LIMIT: u64 = 524_288_000;

/// Reads the bytes of the file `config`; an absent file is read as an empty one.
///
/// A fault is the first in the order Section, Repeat, Version, Id, Key, Number; `Memory` may come
/// from any text, at any point.
///
/// Source: BorgBackup 1.2, Internals, "Data structures and file formats", Config file.
#[tactic(auto, unfolding(crate::specs::Config::assignments_of, crate::specs::Config::config_of, crate::specs::Config::first_fault))]
pub fn read_config(alloc: Global, bytes: &[u8]) -> Result<Config, ConfigFault>
    ensures config { IfOk result (λ config. config_of bytes.now ≡ Ok config) }
    ensures fault { IfErr result (λ fault.
        fault ≢ ConfigFault.Memory → config_of bytes.now ≡ Err fault) }
{
    let lines = lines_of(alloc, bytes)?;
    let Some(section) = repository_lines(lines.as_slice()) else {
        return Err(ConfigFault::Section);
    };
    if !has_forms(section) {
        return Err(ConfigFault::Section);
    }
    config_in(alloc, section)
}

/// What the lines of the section `repository` say, each of which has its form.
fn config_in(alloc: Global, section: &[Line<'_>]) -> Result<Config, ConfigFault>
    ensures config { IfOk result (λ config. let all = assignments (map line_view section.now) in
        fault_or (fault_in all) (config_in all) ≡ Ok config) }
    ensures fault { IfErr result (λ fault. let all = assignments (map line_view section.now) in
        fault ≢ ConfigFault.Memory → fault_or (fault_in all) (config_in all) ≡ Err fault) }
{
    if repeats_known_name(section) {
        return Err(ConfigFault::Repeat);
    }
    if !has_version_1(alloc, section)? {
        return Err(ConfigFault::Version);
    }
    let Some(id) = id_in(alloc, section)? else {
        return Err(ConfigFault::Id);
    };
    let Some(key) = key_in(alloc, section)? else {
        return Err(ConfigFault::Key);
    };
    let Some(per_dir) = number_in(alloc, section, b"segments_per_dir", PER_DIR)? else {
        return Err(ConfigFault::Number);
    };
    let Some(limit) = number_in(alloc, section, b"max_segment_size", LIMIT)? else {
        return Err(ConfigFault::Number);
    };
    Ok(Config {
        id,
        key,
        per_dir,
        limit,
    })
}

/// Whether a name that means something stands twice.
fn repeats_known_name(section: &[Line<'_>]) -> bool
    ensures repeats { result ≡ repeats_known_name (assignments (map line_view section.now)) }
{
    stands_twice(section, b"version")
        || stands_twice(section, b"id")
        || stands_twice(section, b"key")
        || stands_twice(section, b"segments_per_dir")
        || stands_twice(section, b"max_segment_size")
}

/// Whether `version` is 1.
fn has_version_1(alloc: Global, section: &[Line<'_>]) -> Result<bool, AllocError>
    ensures version { IfOk result (λ right.
        right ≡ has_version_1 (assignments (map line_view section.now))) }
{
    match value_of(alloc, section, b"version")? {
        Some(text) => Ok(text.as_slice() == b"1".as_slice()),
        None => Ok(false),
    }
}

/// What `id` says.
fn id_in(alloc: Global, section: &[Line<'_>]) -> Result<Option<Id>, AllocError>
    ensures id { IfOk result (λ id. id ≡ id_in (assignments (map line_view section.now))) }
{
    match value_of(alloc, section, b"id")? {
        Some(text) => Ok(read_id(text.as_slice())),
        None => Ok(None),
    }
}

/// What `key` says.
fn key_in(alloc: Global, section: &[Line<'_>]) -> Result<Option<Bytes>, AllocError>
    ensures key { IfOk result (λ key. key ≡ key_in (assignments (map line_view section.now))) }
{
    match value_of(alloc, section, b"key")? {
        Some(text) => read_key(alloc, text.as_slice()),
        None => Ok(Some(Bytes::new(Vec::new(alloc)))),
    }
}

/// What the number's name says, which is `default` where it is absent.
fn number_in(
    alloc: Global,
    section: &[Line<'_>],
    name: &[u8],
    default: u64,
) -> Result<Option<u64>, AllocError>
    ensures number { IfOk result (λ number.
        number ≡ number_in name.now default (assignments (map line_view section.now))) }
{
    match value_of(alloc, section, name)? {
        Some(text) => Ok(read_number(text.as_slice())),
        None => Ok(Some(default)),
    }
}
