//! The reader.

ghost use Rattle.std.specs.Prelude.{◌≡◌, ◌≢◌, ℕ, Ok, Err, IfOk, IfErr, OnOk, map, string_bytes};
ghost use Rattle.ferry_words.specs.Lone.{lone_command};
ghost use Rattle.ferry_words.specs.Usage.{IsAnswer};
ghost use Rattle.ferry_words.specs.Words as spec;
ghost use Rattle.ferry_words.specs.Words.{IsInRange, command_of};
ghost use Rattle.ferry_words.specs.declared.command.Command.TheVariants as TheCommand;

use crate::command::Command;
use crate::number::number_of;
use crate::options::{
    Options, block_of, bytes_of, checkpoint_of, iterations_of, names_of, parts_of, threshold_of,
    timestamp_of,
};
use crate::usage::Usage;
use std::alloc::Global;

/// The most archives that a drill makes.
const MOST_ARCHIVES: u32 = 64;

/// A command of one word.
#[derive(Clone, Copy)]
enum Lone {
    /// `keys`.
    Keys,
    /// `key`.
    Key,
    /// `check`.
    Check,
}

/// Reads the words of a command, of which the first is the command's word.
///
/// `Ok` has the command, with copies of its texts' bytes, and with the defaults of options that aren't given. `Word`
/// has the number, from 1, of the first word at which the words can't go on to a command, one more than there are where
/// words are missing. Words are compared as bytes of UTF-8.
pub fn read_words(alloc: Global, words: &[String]) -> Result<Command, Usage>
    ensures command { IfOk result (λ command. command_of (map string_bytes words.now) ≡ Ok command) }
    ensures in_range { IfOk result (λ command. IsInRange command) }
    ensures wrong { IfErr result (λ usage. usage ≢ Usage.Memory
        → (number : ℕ) × (usage ≡ Usage.Word number) × (command_of (map string_bytes words.now) ≡ Err number)) }
{
    read_row(alloc, words)
}

/// The command that the row of the first word makes of the others.
#[tactic(auto, unfolding(crate::specs::Words::command_of, crate::specs::Words::row_of))]
fn read_row(alloc: Global, words: &[String]) -> Result<Command, Usage>
    ensures command { IfOk result (λ command. command_of (map string_bytes words.now) ≡ Ok command) }
    ensures wrong { IfErr result (λ usage. usage ≢ Usage.Memory
        → (number : ℕ) × (usage ≡ Usage.Word number) × (command_of (map string_bytes words.now) ≡ Err number)) }
{
    let [name, behind @ ..] = words else {
        return Err(Usage::Word(1));
    };
    match name.as_str() {
        "keys" => lone_word(Lone::Keys, behind),
        "key" => lone_word(Lone::Key, behind),
        "list" => list(alloc, behind),
        "extract" => extract(alloc, behind),
        "check" => lone_word(Lone::Check, behind),
        "init" => init(alloc, behind),
        "make-key" => make_key(behind),
        "transfer" => transfer(alloc, behind),
        "plan" => plan(alloc, behind),
        "delete" => delete(alloc, behind),
        "compact" => compact(behind),
        "tag-archives" => tag_archives(alloc, behind),
        "drill" => drill(behind),
        _ => Err(Usage::Word(1)),
    }
}

/// A command of one word.
fn lone_word(word: Lone, behind: &[String]) -> Result<Command, Usage>
    ensures answer { IsAnswer result (spec.meaning_of (spec.alone (lone_command word)) (map string_bytes behind.now)) }
{
    alone(behind)?;
    match word {
        Lone::Keys => Ok(Command::Keys),
        Lone::Key => Ok(Command::Key),
        Lone::Check => Ok(Command::Check),
    }
}

/// Nothing, where a command has neither an option nor an operand.
#[tactic(auto, unfolding(crate::specs::Words::made, crate::specs::Words::first_unfit))]
fn alone(behind: &[String]) -> Result<(), Usage>
    ensures fits { OnOk result ((command : Command) → spec.meaning_of (spec.alone command) (map string_bytes behind.now) ≡ Ok command) }
    ensures wrong { IfErr result (λ usage. (command : Command)
        → IsAnswer (Err usage) (spec.meaning_of (spec.alone command) (map string_bytes behind.now))) }
{
    let parts = parts_of(Options::None, behind)?;
    match parts.operands {
        [] => Ok(()),
        [_, ..] => Err(Usage::Word(parts.first)),
    }
}

/// `list` with no operand, or with an archive's name.
#[tactic(auto, unfolding(crate::specs::Words::made, crate::specs::Words::first_unfit))]
fn list(alloc: Global, behind: &[String]) -> Result<Command, Usage>
    ensures answer { IsAnswer result (spec.meaning_of spec.list_form (map string_bytes behind.now)) }
{
    let parts = parts_of(Options::None, behind)?;
    match parts.operands {
        [] => Ok(Command::List),
        [name] => list_items(alloc, name),
        [_, _, ..] => Err(Usage::Word(parts.first + 1)),
    }
}

/// `list` with this archive's name.
fn list_items(alloc: Global, name: &String) -> Result<Command, Usage>
    ensures answer { IsAnswer result (Ok (TheCommand.ListItems (string_bytes name.now))) }
{
    let name = bytes_of(alloc, name)?;
    Ok(Command::ListItems { name })
}

/// `extract` with an archive's name and a path.
#[tactic(auto, unfolding(crate::specs::Words::made, crate::specs::Words::first_unfit))]
fn extract(alloc: Global, behind: &[String]) -> Result<Command, Usage>
    ensures answer { IsAnswer result (spec.meaning_of spec.extract_form (map string_bytes behind.now)) }
{
    let parts = parts_of(Options::None, behind)?;
    match parts.operands {
        [] => Err(Usage::Word(parts.first)),
        [_] => Err(Usage::Word(parts.first + 1)),
        [name, path] => extract_path(alloc, name, path),
        [_, _, _, ..] => Err(Usage::Word(parts.first + 2)),
    }
}

/// `extract` with this archive's name and this path.
fn extract_path(alloc: Global, name: &String, path: &String) -> Result<Command, Usage>
    ensures answer { IsAnswer result (Ok (TheCommand.Extract (string_bytes name.now) (string_bytes path.now))) }
{
    let name = bytes_of(alloc, name)?;
    let path = bytes_of(alloc, path)?;
    Ok(Command::Extract { name, path })
}

/// `init` with its options.
#[tactic(auto, unfolding(crate::specs::Words::made, crate::specs::Words::first_unfit))]
fn init(alloc: Global, behind: &[String]) -> Result<Command, Usage>
    ensures answer { IsAnswer result (spec.meaning_of spec.init_form (map string_bytes behind.now)) }
{
    let parts = parts_of(Options::Init, behind)?;
    match parts.operands {
        [] => Ok(Command::Init {
            iterations: iterations_of(parts.given),
            timestamp: timestamp_of(alloc, parts.given)?,
        }),
        [_, ..] => Err(Usage::Word(parts.first)),
    }
}

/// `make-key` with its options.
#[tactic(auto, unfolding(crate::specs::Words::made, crate::specs::Words::first_unfit))]
fn make_key(behind: &[String]) -> Result<Command, Usage>
    ensures answer { IsAnswer result (spec.meaning_of spec.make_key_form (map string_bytes behind.now)) }
{
    let parts = parts_of(Options::MakeKey, behind)?;
    match parts.operands {
        [] => Ok(Command::MakeKey {
            iterations: iterations_of(parts.given),
        }),
        [_, ..] => Err(Usage::Word(parts.first)),
    }
}

/// `transfer` with its options and the archives' names.
#[tactic(auto, unfolding(crate::specs::Words::made, crate::specs::Words::first_unfit))]
fn transfer(alloc: Global, behind: &[String]) -> Result<Command, Usage>
    ensures answer { IsAnswer result (spec.meaning_of spec.transfer_form (map string_bytes behind.now)) }
{
    let parts = parts_of(Options::Transfer, behind)?;
    let timestamp = timestamp_of(alloc, parts.given)?;
    let names = names_of(alloc, parts.operands)?;
    Ok(Command::Transfer {
        block: block_of(parts.given),
        checkpoint: checkpoint_of(parts.given),
        timestamp,
        names,
    })
}

/// `plan` with its option and the archives' names.
#[tactic(auto, unfolding(crate::specs::Words::made, crate::specs::Words::first_unfit))]
fn plan(alloc: Global, behind: &[String]) -> Result<Command, Usage>
    ensures answer { IsAnswer result (spec.meaning_of spec.plan_form (map string_bytes behind.now)) }
{
    let parts = parts_of(Options::Plan, behind)?;
    let names = names_of(alloc, parts.operands)?;
    Ok(Command::Plan {
        block: block_of(parts.given),
        names,
    })
}

/// `delete` with its option and an archive's name.
#[tactic(auto, unfolding(crate::specs::Words::made, crate::specs::Words::first_unfit))]
fn delete(alloc: Global, behind: &[String]) -> Result<Command, Usage>
    ensures answer { IsAnswer result (spec.meaning_of spec.delete_form (map string_bytes behind.now)) }
{
    let parts = parts_of(Options::Delete, behind)?;
    match parts.operands {
        [] => Err(Usage::Word(parts.first)),
        [name] => delete_archive(alloc, parts.given, name),
        _ => Err(Usage::Word(parts.first + 1)),
    }
}

/// `delete` with these options and this archive's name.
fn delete_archive(alloc: Global, given: &[String], name: &String) -> Result<Command, Usage>
    ensures answer { IsAnswer result (Ok (TheCommand.Delete (spec.timestamp_of (map string_bytes given.now)) (string_bytes name.now))) }
{
    let timestamp = timestamp_of(alloc, given)?;
    let name = bytes_of(alloc, name)?;
    Ok(Command::Delete { timestamp, name })
}

/// `compact` with its option.
#[tactic(auto, unfolding(crate::specs::Words::made, crate::specs::Words::first_unfit))]
fn compact(behind: &[String]) -> Result<Command, Usage>
    ensures answer { IsAnswer result (spec.meaning_of spec.compact_form (map string_bytes behind.now)) }
{
    let parts = parts_of(Options::Compact, behind)?;
    match parts.operands {
        [] => Ok(Command::Compact {
            threshold: threshold_of(parts.given),
        }),
        [_, ..] => Err(Usage::Word(parts.first)),
    }
}

/// `tag-archives` with its option.
#[tactic(auto, unfolding(crate::specs::Words::made, crate::specs::Words::first_unfit))]
fn tag_archives(alloc: Global, behind: &[String]) -> Result<Command, Usage>
    ensures answer { IsAnswer result (spec.meaning_of spec.tag_archives_form (map string_bytes behind.now)) }
{
    let parts = parts_of(Options::TagArchives, behind)?;
    match parts.operands {
        [] => Ok(Command::TagArchives {
            timestamp: timestamp_of(alloc, parts.given)?,
        }),
        [_, ..] => Err(Usage::Word(parts.first)),
    }
}

/// `drill` with how many archives its source has.
#[tactic(auto, unfolding(crate::specs::Words::made, crate::specs::Words::first_unfit))]
fn drill(behind: &[String]) -> Result<Command, Usage>
    ensures answer { IsAnswer result (spec.meaning_of spec.drill_form (map string_bytes behind.now)) }
{
    let parts = parts_of(Options::None, behind)?;
    let [word, more @ ..] = parts.operands else {
        return Err(Usage::Word(parts.first));
    };
    match number_of(word.as_str(), 1, MOST_ARCHIVES) {
        None => Err(Usage::Word(parts.first)),
        Some(count) if more.is_empty() => Ok(Command::Drill { count }),
        Some(_) => Err(Usage::Word(parts.first + 1)),
    }
}
