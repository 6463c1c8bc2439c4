//! Words by hand.

use ferry_base::Bytes;
use ferry_words::{Command, Usage, read_words, words_laws};
use std::alloc::{AllocError, Global};

/// The words of a text, which spaces part.
fn words_of(alloc: Global, text: &str) -> Result<Vec<String>, AllocError> {
    let mut words = Vec::new(alloc);
    for word in text.split(' ') {
        words.push(String::from_str(alloc, word)?)?;
    }
    Ok(words)
}

/// The operands of a command, where it has some.
fn operands_of(command: &Command) -> (&[u8], &[u8]) {
    match command {
        Command::ListItems { name } => (name.as_slice(), b""),
        Command::Extract { name, path } => (name.as_slice(), path.as_slice()),
        _ => (b"", b""),
    }
}

/// The iterations and the timestamp of a command, where it has them.
fn options_of(command: &Command) -> (u32, &[u8]) {
    match command {
        Command::Init {
            iterations,
            timestamp: Some(timestamp),
        } => (*iterations, timestamp.as_slice()),
        Command::Init { iterations, .. } | Command::MakeKey { iterations } => (*iterations, b""),
        _ => (0, b""),
    }
}

/// The numbers, the timestamp and the names of a transfer.
fn transfer_of(command: &Command) -> (usize, u64, &[u8], &[Bytes]) {
    match command {
        Command::Transfer {
            block,
            checkpoint,
            timestamp: Some(timestamp),
            names,
        } => (*block, *checkpoint, timestamp.as_slice(), names.as_slice()),
        Command::Transfer {
            block,
            checkpoint,
            names,
            ..
        } => (*block, *checkpoint, b"", names.as_slice()),
        _ => (0, 0, b"", &[]),
    }
}

/// The command of the words of a text.
fn command_of(alloc: Global, text: &str) -> Result<Command, Usage> {
    let words = words_of(alloc, text)?;
    read_words(alloc, words.as_slice())
}

/// The numbers, the timestamp and the names of a transfer.
struct Transfer {
    block: usize,
    checkpoint: u64,
    timestamp: &'static [u8],
    names: &'static [&'static [u8]],
}

/// Whether these are the names.
fn are_names(given: &[Bytes], names: &[&[u8]]) -> bool {
    if given.len() != names.len() {
        return false;
    }
    for place in 0..names.len() {
        if given[place].as_slice() != names[place] {
            return false;
        }
    }
    true
}

/// Whether a command is that transfer.
fn is_transfer(command: &Command, wanted: &Transfer) -> bool {
    let (block, checkpoint, timestamp, names) = transfer_of(command);
    let has_numbers = block == wanted.block && checkpoint == wanted.checkpoint;
    has_numbers && timestamp == wanted.timestamp && are_names(names, wanted.names)
}

/// What a command has.
enum Want {
    Any,
    /// A name, and a path.
    Operands(&'static [u8], &'static [u8]),
    /// Iterations, and a timestamp.
    Options(u32, &'static [u8]),
    Transfer(Transfer),
}

/// Whether a command has these operands.
fn has_operands(command: &Command, name: &[u8], path: &[u8]) -> bool {
    let given = operands_of(command);
    given.0 == name && given.1 == path
}

/// Whether a command has these options.
fn has_options(command: &Command, iterations: u32, timestamp: &[u8]) -> bool {
    let given = options_of(command);
    given.0 == iterations && given.1 == timestamp
}

/// Whether a command has that.
fn has(command: &Command, want: &Want) -> bool {
    match want {
        Want::Any => true,
        Want::Operands(name, path) => has_operands(command, name, path),
        Want::Options(iterations, timestamp) => has_options(command, *iterations, timestamp),
        Want::Transfer(transfer) => is_transfer(command, transfer),
    }
}

/// Whether the words of a text are a command that has that.
fn is_read(alloc: Global, text: &str, want: &Want) -> Result<bool, Usage> {
    match command_of(alloc, text) {
        Ok(command) => Ok(has(&command, want)),
        Err(usage) => Err(usage),
    }
}

/// Whether the words of each text are a command that has what stands beside it.
fn are_read(alloc: Global, table: &[(&str, Want)]) -> bool {
    for (text, want) in table {
        if is_read(alloc, text, want) != Ok(true) {
            return false;
        }
    }
    true
}

/// Texts, with their names and paths.
static OPERANDS: [(&str, Want); 2] = [
    (
        "list \u{e9}t\u{e9}",
        Want::Operands(b"\xc3\xa9t\xc3\xa9", b""),
    ),
    ("extract -- a --p", Want::Operands(b"a", b"--p")),
];

/// Whether a fault has its number, and is printed with the number of its word.
fn is_printed(alloc: Global) -> bool {
    match format!(in alloc; "{}", Usage::Word(7)) {
        Ok(text) => Usage::Word(7).number() == 1 && text.as_str() == "word 7 is wrong or missing",
        Err(_) => false,
    }
}

#[test]
fn words_are_a_command_with_operands(rt: HostRuntime) {
    assert!(rt; are_read(rt.alloc(), &OPERANDS) && is_printed(rt.alloc()));
    words_laws();
}

/// Texts, with their iterations and timestamps.
static OPTIONS: [(&str, Want); 3] = [
    ("init", Want::Options(100_000, b"")),
    (
        "init --timestamp -- --iterations 7 --",
        Want::Options(7, b"--"),
    ),
    (
        "make-key --iterations 10000000",
        Want::Options(10_000_000, b""),
    ),
];

#[test]
fn options_stand_in_any_order_or_are_left_out(rt: HostRuntime) {
    assert!(rt; are_read(rt.alloc(), &OPTIONS));
}

/// Texts, with the transfers that they are.
static TRANSFERS: [(&str, Want); 4] = [
    (
        "transfer",
        Want::Transfer(Transfer {
            block: 2_097_152,
            checkpoint: 1024,
            timestamp: b"",
            names: &[],
        }),
    ),
    (
        "transfer b \u{e9} b",
        Want::Transfer(Transfer {
            block: 2_097_152,
            checkpoint: 1024,
            timestamp: b"",
            names: &[b"b", b"\xc3\xa9", b"b"],
        }),
    ),
    (
        "transfer --block 64 --checkpoint 1 -- --block",
        Want::Transfer(Transfer {
            block: 64,
            checkpoint: 1,
            timestamp: b"",
            names: &[b"--block"],
        }),
    ),
    (
        "transfer --timestamp now --checkpoint 1000000 --block 8388608 a",
        Want::Transfer(Transfer {
            block: 8_388_608,
            checkpoint: 1_000_000,
            timestamp: b"now",
            names: &[b"a"],
        }),
    ),
];

#[test]
fn a_transfer_has_its_names_in_the_order_given(rt: HostRuntime) {
    assert!(rt; are_read(rt.alloc(), &TRANSFERS));
}

/// The number of the word that is wrong or missing, 0 where the words are a command.
fn wrong_word(alloc: Global, text: &str) -> Option<u64> {
    match is_read(alloc, text, &Want::Any) {
        Ok(_) => Some(0),
        Err(Usage::Word(number)) => Some(number),
        Err(Usage::Memory) => None,
    }
}

/// Texts, each with the number of the word that is wrong or missing, or 0.
static WRONG_WORDS: [(&str, u64); 14] = [
    ("keys --", 0),
    ("list a b", 3),
    ("init --iterations", 3),
    ("init --iterations 0", 3),
    ("init --iterations 07", 3),
    ("init --iterations 7 --iterations 7", 4),
    ("make-key --timestamp now", 2),
    ("transfer --block 63 a", 3),
    ("transfer --block 8388609", 3),
    ("transfer --checkpoint 0 a", 3),
    ("transfer --checkpoint 1000001", 3),
    ("transfer --block 64 --block 64 a", 4),
    ("transfer --iterations 7 a", 2),
    ("transfer a b", 0),
];

/// Whether each text has that number.
fn wrong_words_are_told(alloc: Global) -> bool {
    for (text, number) in &WRONG_WORDS {
        if wrong_word(alloc, text) != Some(*number) {
            return false;
        }
    }
    true
}

#[test]
fn the_first_wrong_word_is_told(rt: HostRuntime) {
    assert!(rt; wrong_words_are_told(rt.alloc()));
}
