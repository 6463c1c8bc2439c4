//! The replacement of a file by one beside it.

use crate::stable::{keep_mode, make_file, mode_at, remove_if_there, synced};
use crate::system::{System, look, of_look};
use ferry_disk::{Name, StoreFault};
use ferry_layout::write_all;
use std::fs;
use std::rt::Runtime;

/// The bits of a mode that `config` keeps, which holds the key: those of its owner.
const KEY_MODE: u32 = 0o600;

/// The same of the other files: all.
const ANY_MODE: u32 = 0o7777;

/// Gives the file at `path`, which has this name, these bytes, by a file beside it, of which a failure leaves
/// nothing where that can be. A link at either path stays as it is, and is a failure.
pub fn replace_file<R: Runtime>(
    system: &System<R>,
    name: Name,
    path: &str,
    beside: &str,
    bytes: &[u8],
) -> Result<(), StoreFault> {
    let mode = mode_at(system, path, kept_bits(name))?;
    look(system, beside).map_err(of_look)?;
    let outcome = write_beside(system, path, beside, mode, bytes);
    if outcome.is_err() {
        let _ = fs::remove_file(&system.rt, beside);
    }
    outcome
}

/// The bits of its mode that a file of this name keeps.
fn kept_bits(name: Name) -> u32 {
    match name {
        Name::Config => KEY_MODE,
        _ => ANY_MODE,
    }
}

/// Writes the bytes into a file beside the one at `path`, makes them stable, and gives it the other's name.
fn write_beside<R: Runtime>(
    system: &System<R>,
    path: &str,
    beside: &str,
    mode: Option<u32>,
    bytes: &[u8],
) -> Result<(), StoreFault> {
    remove_if_there(system, beside)?;
    let mut file = make_file(system, beside)?;
    fill_as(system, beside, &mut file, mode, bytes)?;
    match fs::rename(&system.rt, beside, path) {
        Ok(()) => Ok(()),
        Err(error) => Err(system.failed(path, &error)),
    }
}

/// Gives a new file this mode, writes the bytes into it, and makes them stable.
fn fill_as<R: Runtime>(
    system: &System<R>,
    path: &str,
    file: &mut R::File,
    mode: Option<u32>,
    bytes: &[u8],
) -> Result<(), StoreFault> {
    keep_mode(system, path, file, mode)?;
    if let Err(error) = write_all(file, bytes) {
        return Err(system.failed(path, &error));
    }
    synced(system, path, file)
}
