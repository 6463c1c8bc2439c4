//! The reader.

ghost use Rattle.std.specs.Prelude.{◌≡◌, ◌≢◌, ◌≤◌, length, IfOk, IfErr, IfSome};
ghost use Rattle.ferry_keyfile.specs.KeyFile.{body_start, id_in, key_file_of, key_in, solid};

use crate::fault::KeyFileFault;
use crate::file::KeyFile;
use base64::DecodeAllocError;
use base64::engine::general_purpose::STANDARD;
use ferry_base::{Bytes, Id};
use std::alloc::{AllocError, Global};

/// What the first line begins with.
const MARK: &[u8] = b"BORG_KEY ";

/// Where the digits of the id end.
const DIGITS_END: usize = 73;

/// Reads the bytes of a key file.
///
/// A fault is the first in the order Header, Body; `Memory` may come from any text, at any point.
///
/// Source: BorgBackup 1.2, Internals, "Security", Key files.
#[tactic(auto, unfolding(crate::specs::KeyFile::key_file_of))]
pub fn read_key_file(alloc: Global, bytes: &[u8]) -> Result<KeyFile, KeyFileFault>
    ensures file { IfOk result (λ file. key_file_of bytes.now ≡ Ok file) }
    ensures fault { IfErr result (λ fault. fault ≢ KeyFileFault.Memory → key_file_of bytes.now ≡ Err fault) }
{
    let Some(start) = body_start(bytes) else {
        return Err(KeyFileFault::Header);
    };
    let Some(id) = id_in(bytes) else {
        return Err(KeyFileFault::Header);
    };
    match key_in(alloc, &bytes[start..])? {
        Some(key) => Ok(KeyFile { id, key }),
        None => Err(KeyFileFault::Body),
    }
}

/// The place behind the first line, where that has its form but for the digits.
#[tactic(auto, unfolding(crate::specs::KeyFile::body_start))]
fn body_start(bytes: &[u8]) -> Option<usize>
    ensures start { result ≡ body_start bytes.now }
    ensures within { IfSome result (λ start. (74 ≤ start) × (start ≤ length bytes.now)) }
{
    if !bytes.starts_with(MARK) || bytes.len() <= DIGITS_END {
        return None;
    }
    match bytes[DIGITS_END] {
        b'\n' => Some(DIGITS_END + 1),
        b'\r' if bytes.len() > DIGITS_END + 1 && bytes[DIGITS_END + 1] == b'\n' => {
            Some(DIGITS_END + 2)
        }
        _ => None,
    }
}

/// The id that the digits say, in a text of more bytes than the first line has before its end.
#[tactic(auto, unfolding(crate::specs::KeyFile::id_in))]
fn id_in(bytes: &[u8]) -> Option<Id>
    requires { 74 ≤ length bytes.now }
    ensures { result ≡ id_in bytes.now }
{
    let mut id = [0u8; 32];
    match hex::decode_to_slice(&bytes[MARK.len()..DIGITS_END], &mut id) {
        Ok(()) => Some(id),
        Err(_) => None,
    }
}

/// The bytes that a body says, where there are any.
#[tactic(auto, unfolding(crate::specs::KeyFile::key_in))]
fn key_in(alloc: Global, body: &[u8]) -> Result<Option<Bytes>, KeyFileFault>
    ensures key { IfOk result (λ key. key ≡ key_in body.now) }
    ensures fault { IfErr result (λ fault. fault ≡ KeyFileFault.Memory) }
{
    let text = solid(alloc, body)?;
    match STANDARD.decode(alloc, &text) {
        Ok(key) if key.is_empty() => Ok(None),
        Ok(key) => Ok(Some(Bytes::new(key))),
        Err(DecodeAllocError::DecodeError(_)) => Ok(None),
        Err(DecodeAllocError::OutOfMemory) => Err(KeyFileFault::Memory),
    }
}

/// The bytes of a text that are no blanks.
#[tactic(auto, using(crate::proofs::KeyFileLemmas::solid_next, crate::proofs::KeyFileLemmas::solid_blank), unfolding(crate::specs::KeyFile::solid))]
fn solid(alloc: Global, text: &[u8]) -> Result<Vec<u8>, KeyFileFault>
    ensures solid { IfOk result (λ bytes. bytes.items ≡ solid text.now) }
    ensures fault { IfErr result (λ fault. fault ≡ KeyFileFault.Memory) }
{
    let mut bytes = Vec::new(alloc);
    for byte in text {
        if !matches!(*byte, b' ' | b'\t' | b'\r' | b'\n') {
            bytes.push(*byte)?;
        }
    }
    Ok(bytes)
}
