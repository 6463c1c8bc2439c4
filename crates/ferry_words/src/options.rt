//! The options of the commands.

ghost use Rattle.std.specs.Prelude.{◌≡◌, ◌+◌, ◌≤◌, ℕ, [], IfOk, IfErr, length, Ok, Err, map, string_bytes};
ghost use Rattle.std.specs.Option.{option_map};
ghost use Rattle.ferry_words.specs.Options.{options_of};
ghost use Rattle.ferry_words.specs.Words as spec;

use crate::names::Names;
use crate::number::number_of;
use crate::usage::Usage;
use ferry_base::Bytes;
use std::alloc::{AllocError, Global};

/// The most iterations of PBKDF2 that are taken.
const ITERATIONS_LIMIT: u32 = 10_000_000;

/// The iterations of PBKDF2 where none are given.
const ITERATIONS: u32 = 100_000;

/// The least size in bytes of the pieces that contents are cut into.
const LEAST_BLOCK: u32 = 64;

/// The greatest size in bytes of the pieces that contents are cut into, 8 MiB.
const GREATEST_BLOCK: u32 = 8_388_608;

/// The size in bytes of the pieces where none is given, 2 MiB.
const BLOCK: u32 = 2_097_152;

/// The most chunks that are put before what is done is committed.
const CHECKPOINT_LIMIT: u32 = 1_000_000;

/// How many chunks are put before what is done is committed, where no number is given.
const CHECKPOINT: u32 = 1024;

/// The hundredths of a whole.
const WHOLE: u32 = 100;

/// How many hundredths of a segment are unused where it is compacted, where no number is given.
const THRESHOLD: u32 = 10;

/// Which options a command has.
#[derive(Clone, Copy)]
pub(crate) enum Options {
    /// None.
    None,
    /// `--iterations N` and `--timestamp T`.
    Init,
    /// `--iterations N`.
    MakeKey,
    /// `--block B`, `--checkpoint N` and `--timestamp T`.
    Transfer,
    /// `--block B`.
    Plan,
    /// `--timestamp T`.
    Delete,
    /// `--threshold P`.
    Compact,
    /// `--timestamp T`.
    TagArchives,
}

impl Options {
    /// Whether a word is the name of one of the options.
    fn has(self, name: &str) -> bool
        ensures known { result ≡ spec.is_known (options_of self) name.now }
    {
        match (self, name) {
            (Options::Init | Options::MakeKey, "--iterations") => true,
            (
                Options::Init | Options::Transfer | Options::Delete | Options::TagArchives,
                "--timestamp",
            ) => true,
            (Options::Transfer | Options::Plan, "--block") => true,
            (Options::Transfer, "--checkpoint") => true,
            (Options::Compact, "--threshold") => true,
            _ => false,
        }
    }

    /// Whether a word is the name of one of the options, and isn't among those that are given.
    fn is_new(self, given: &[String], name: &str) -> bool
        ensures new { result ≡ spec.is_new (options_of self) (map string_bytes given.now) name.now }
    {
        self.has(name) && value_of(given, name).is_none()
    }

    /// Whether a word may be the value of the option of this name.
    fn takes(self, name: &str, value: &str) -> bool
        ensures taken { result ≡ spec.is_taken (options_of self) name.now value.now }
    {
        match (self, name) {
            (Options::Init | Options::MakeKey, "--iterations") => {
                number_of(value, 1, ITERATIONS_LIMIT).is_some()
            }
            (
                Options::Init | Options::Transfer | Options::Delete | Options::TagArchives,
                "--timestamp",
            ) => !value.is_empty(),
            (Options::Transfer | Options::Plan, "--block") => {
                number_of(value, LEAST_BLOCK, GREATEST_BLOCK).is_some()
            }
            (Options::Transfer, "--checkpoint") => number_of(value, 1, CHECKPOINT_LIMIT).is_some(),
            (Options::Compact, "--threshold") => number_of(value, 0, WHOLE).is_some(),
            _ => false,
        }
    }
}

/// The options and the operands among the words behind a command's word.
#[derive(Clone, Copy)]
pub(crate) struct Parts<'a> {
    /// The options, each a name and its value behind it.
    pub(crate) given: &'a [String],
    /// The number, from 1, of the word at which the operands begin, or would begin.
    pub(crate) first: u64,
    /// The operands.
    pub(crate) operands: &'a [String],
}

/// The options and the operands among the words behind a command's word, or the number of the word that is wrong in an option's place.
pub(crate) fn parts_of(options: Options, behind: &[String]) -> Result<Parts<'_>, Usage>
    ensures parts { IfOk result (λ parts. spec.parts_of (options_of options) [] (map string_bytes behind.now)
        ≡ Ok record { given = map string_bytes parts.given.now; first = parts.first; operands = map string_bytes parts.operands.now }) }
    ensures first { IfOk result (λ parts. parts.first ≤ length behind.now + 2) }
    ensures wrong { IfErr result (λ usage. (number : ℕ) × (usage ≡ Usage.Word number)
        × (spec.parts_of (options_of options) [] (map string_bytes behind.now) ≡ Err number)) }
{
    let mut at = 0usize;
    while at < behind.len() {
        let word = behind[at].as_str();
        if word == "--" {
            return Ok(Parts {
                given: &behind[..at],
                first: at as u64 + 3,
                operands: &behind[at + 1..],
            });
        }
        if !is_option(word) {
            break;
        }
        if !options.is_new(&behind[..at], word) {
            return Err(Usage::Word(at as u64 + 2));
        }
        if at + 1 == behind.len() {
            return Err(Usage::Word(at as u64 + 3));
        }
        if !options.takes(word, behind[at + 1].as_str()) {
            return Err(Usage::Word(at as u64 + 3));
        }
        at += 2;
    }
    Ok(Parts {
        given: &behind[..at],
        first: at as u64 + 2,
        operands: &behind[at..],
    })
}

/// Whether a word has the form of an option's name.
fn is_option(word: &str) -> bool
    ensures { result ≡ spec.is_option word.now }
{
    word.as_bytes().starts_with(b"--")
}

/// The value of the option of this name among options, each a name and its value behind it.
#[tactic(auto, unfolding(crate::specs::Words::value_of))]
fn value_of<'a>(given: &'a [String], name: &str) -> Option<&'a String>
    ensures value { option_map (λ value. string_bytes value.now) result ≡ spec.value_of (map string_bytes given.now) name.now }
{
    let mut rest = given;
    while let [first, value, more @ ..] = rest {
        if first.as_str() == name {
            return Some(value);
        }
        rest = more;
    }
    None
}

/// The number from `least` to `most` that the option of this name has, or the default.
fn number_given(given: &[String], name: &str, least: u32, most: u32, default: u32) -> u32
    ensures number { result ≡ spec.number_given (map string_bytes given.now) name.now least most default }
{
    match value_of(given, name) {
        Some(value) => number_of(value.as_str(), least, most).unwrap_or(default),
        None => default,
    }
}

/// The iterations that are given, or 100000.
pub(crate) fn iterations_of(given: &[String]) -> u32
    ensures iterations { result ≡ spec.iterations_of (map string_bytes given.now) }
{
    number_given(given, "--iterations", 1, ITERATIONS_LIMIT, ITERATIONS)
}

/// The block size that is given, or 2097152.
pub(crate) fn block_of(given: &[String]) -> usize
    ensures block { result ≡ spec.block_of (map string_bytes given.now) }
{
    number_given(given, "--block", LEAST_BLOCK, GREATEST_BLOCK, BLOCK) as usize
}

/// The chunks between two checkpoints that are given, or 1024.
pub(crate) fn checkpoint_of(given: &[String]) -> u64
    ensures checkpoint { result ≡ spec.checkpoint_of (map string_bytes given.now) }
{
    u64::from(number_given(given, "--checkpoint", 1, CHECKPOINT_LIMIT, CHECKPOINT))
}

/// The hundredths that are given, or 10.
pub(crate) fn threshold_of(given: &[String]) -> u8
    ensures threshold { result ≡ spec.threshold_of (map string_bytes given.now) }
{
    number_given(given, "--threshold", 0, WHOLE, THRESHOLD) as u8
}

/// The timestamp that is given.
pub(crate) fn timestamp_of(alloc: Global, given: &[String]) -> Result<Option<Bytes>, AllocError>
    ensures timestamp { IfOk result (λ timestamp. timestamp ≡ spec.timestamp_of (map string_bytes given.now)) }
{
    match value_of(given, "--timestamp") {
        Some(value) => Ok(Some(bytes_of(alloc, value)?)),
        None => Ok(None),
    }
}

/// Copies of the words' bytes, in their order.
pub(crate) fn names_of(alloc: Global, words: &[String]) -> Result<Names, Usage>
    ensures names { IfOk result (λ names. names ≡ map string_bytes words.now) }
    ensures memory { IfErr result (λ usage. usage ≡ Usage.Memory) }
{
    let mut names = Vec::new(alloc);
    for word in words {
        names.push(bytes_of(alloc, word)?)?;
    }
    Ok(Names::new(names))
}

/// A copy of a word's bytes.
pub(crate) fn bytes_of(alloc: Global, word: &String) -> Result<Bytes, AllocError>
    ensures bytes { IfOk result (λ bytes. bytes ≡ string_bytes word.now) }
{
    let bytes = Vec::from_slice(alloc, word.as_bytes())?;
    Ok(Bytes::new(bytes))
}
