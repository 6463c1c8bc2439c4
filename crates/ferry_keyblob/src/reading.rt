//! The reader of the envelope.

ghost use Rattle.std.specs.Prelude.{◌≡◌, ◌≢◌, ◌≤◌, IfOk, IfErr, IfSome, Ok, Err};
ghost use Rattle.ferry_msgpack.specs.View.{pairs_view};
ghost use Rattle.ferry_keyblob.specs.Envelope.{envelope_fault, envelope_in, envelope_of, fault_or, iterations_from};

use crate::envelope::Envelope;
use crate::fault::KeyFault;
use crate::fields::pairs_of;
use ferry_base::Bytes;
use ferry_fields::{has_version_1, number_in, raw_in, raw32_in};
use ferry_msgpack::Value;
use std::alloc::Global;

/// The greatest number of iterations that is taken.
const MOST_ITERATIONS: i128 = 10_000_000;

/// Reads the envelope of a key text, the decoded `key` of the file `config`.
///
/// A fault is the first in the order Pack, Field, Algorithm, Iterations; `Memory` may come from any
/// bytes, at any point.
///
/// Source: BorgBackup 1.2, Internals, "Data structures and file formats", Key files.
#[tactic(auto, unfolding(crate::specs::Envelope::envelope_of))]
pub fn read_envelope(alloc: Global, blob: &[u8]) -> Result<Envelope, KeyFault>
    ensures envelope { IfOk result (λ envelope. envelope_of blob.now ≡ Ok envelope) }
    ensures fault { IfErr result (λ fault.
        fault ≢ KeyFault.Memory → envelope_of blob.now ≡ Err fault) }
    ensures range { IfOk result (λ envelope.
        (1 ≤ envelope.iterations) × (envelope.iterations ≤ 10000000)) }
{
    let pairs = pairs_of(alloc, blob)?;
    envelope_in(alloc, pairs.as_slice())
}

/// What the fields of an envelope say.
fn envelope_in(alloc: Global, pairs: &[(Vec<u8>, Value)]) -> Result<Envelope, KeyFault>
    ensures envelope { IfOk result (λ envelope. let all = pairs_view pairs.now in
        fault_or (envelope_fault all) (envelope_in all) ≡ Ok envelope) }
    ensures fault { IfErr result (λ fault. let all = pairs_view pairs.now in
        fault ≢ KeyFault.Memory → fault_or (envelope_fault all) (envelope_in all) ≡ Err fault) }
    ensures range { IfOk result (λ envelope.
        (1 ≤ envelope.iterations) × (envelope.iterations ≤ 10000000)) }
{
    if !has_version_1(pairs) {
        return Err(KeyFault::Field);
    }
    let Some(algorithm) = raw_in(pairs, b"algorithm") else {
        return Err(KeyFault::Field);
    };
    let Some(iterations) = number_in(pairs, b"iterations") else {
        return Err(KeyFault::Field);
    };
    let Some(salt) = raw32_in(pairs, b"salt") else {
        return Err(KeyFault::Field);
    };
    let Some(hash) = raw32_in(pairs, b"hash") else {
        return Err(KeyFault::Field);
    };
    let Some(sealed) = raw_in(pairs, b"data") else {
        return Err(KeyFault::Field);
    };
    if algorithm != b"sha256".as_slice() {
        return Err(KeyFault::Algorithm);
    }
    let Some(iterations) = iterations_from(iterations) else {
        return Err(KeyFault::Iterations);
    };
    let sealed = Bytes::new(Vec::from_slice(alloc, sealed)?);
    Ok(Envelope {
        iterations,
        salt,
        hash,
        sealed,
    })
}

/// The iterations that a number tells.
fn iterations_from(number: i128) -> Option<u32>
    ensures iterations { result ≡ iterations_from number }
    ensures range { IfSome result (λ n. (1 ≤ n) × (n ≤ 10000000)) }
{
    if 1 <= number && number <= MOST_ITERATIONS {
        Some(number as u32)
    } else {
        None
    }
}
