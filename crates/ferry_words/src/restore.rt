//! The words of `restore`.

ghost use Rattle.std.specs.Prelude.{◌≡◌, ◌≢◌, ◌↔◌, ℕ, List, [], Ok, Err, IfOk, IfErr, map, string_bytes};
ghost use Rattle.ferry_words.specs.Restore.{IsFirstWrong, IsRestoring, name_in, restored_of};
ghost use Rattle.ferry_words.specs.Words.{parts_of};

use crate::options::{Options, bytes_of, parts_of};
use crate::usage::Usage;
use ferry_base::Bytes;
use std::alloc::Global;

/// Reads the words of `restore`, of which the first is that word: `restore NAME`. `read_words` doesn't know it.
///
/// `Ok` has a copy of the bytes of the archive's name. `Word` has the number, from 1, of the first word at which the words can't go on, one more than there are
/// where words are missing. Words are compared as bytes of UTF-8.
pub fn read_restore(alloc: Global, words: &[String]) -> Result<Bytes, Usage>
    ensures name { IfOk result (λ name. restored_of (map string_bytes words.now) ≡ Ok name) }
    ensures wrong { IfErr result (λ usage. usage ≢ Usage.Memory
        → (number : ℕ) × (usage ≡ Usage.Word number) × (restored_of (map string_bytes words.now) ≡ Err number)) }
{
    read_word(alloc, words)
}

/// The name behind the command's word.
#[tactic(auto, unfolding(crate::specs::Restore::restored_of))]
fn read_word(alloc: Global, words: &[String]) -> Result<Bytes, Usage>
    ensures name { IfOk result (λ name. restored_of (map string_bytes words.now) ≡ Ok name) }
    ensures wrong { IfErr result (λ usage. usage ≢ Usage.Memory
        → (number : ℕ) × (usage ≡ Usage.Word number) × (restored_of (map string_bytes words.now) ≡ Err number)) }
{
    let [word, behind @ ..] = words else {
        return Err(Usage::Word(1));
    };
    if word.as_str() == "restore" {
        name_behind(alloc, behind)
    } else {
        Err(Usage::Word(1))
    }
}

/// The only operand among the words behind the command's word.
fn name_behind(alloc: Global, behind: &[String]) -> Result<Bytes, Usage>
    ensures name { IfOk result (λ name. name_in (parts_of [] [] (map string_bytes behind.now)) ≡ Ok name) }
    ensures wrong { IfErr result (λ usage. usage ≢ Usage.Memory
        → (number : ℕ) × (usage ≡ Usage.Word number) × (name_in (parts_of [] [] (map string_bytes behind.now)) ≡ Err number)) }
{
    let parts = parts_of(Options::None, behind)?;
    match parts.operands {
        [] => Err(Usage::Word(parts.first)),
        [name] => Ok(bytes_of(alloc, name)?),
        _ => Err(Usage::Word(parts.first + 1)),
    }
}

/// Laws with nothing to run: words name one archive, or have one first wrong word.
///
/// `restored_of` is a function, so the answers of `read_restore` exclude each other, and one of them always holds.
pub fn restore_words_laws()
    // Words name an archive exactly where they are spelled so.
    ensures name { (words : List (List ℕ)) (name : List ℕ) → (restored_of words ≡ Ok name) ↔ IsRestoring words name }

    // A number is told exactly where the words before can go on and with the word they can't; or where the words themselves can, and name
    // none, and the number is one more than there are.
    ensures wrong { (words : List (List ℕ)) (number : ℕ) → (restored_of words ≡ Err number) ↔ IsFirstWrong words number }
{}
