//! What the program does with its words: it prints what it says of itself, or runs a command.

use crate::advice::OUTPUT;
use crate::after::advise_of;
use crate::command::{Places, run_command};
use crate::fault::{StartFault, refuse};
use crate::lines::{COMMANDS, HEAD, TAIL, VERSION, lines_of};
use crate::places::{are_one, is_remote};
use crate::restoring::run_restore;
use crate::side::{Cause, Side};
use ferry_real::{Terminals, Word};
use ferry_top::places_fit;
use std::alloc::AllocGlobal;
use std::env;
use std::fs::File;
use std::io::ErrorKind;
use std::rt::Runtime;

/// The status where standard output can't be written.
const OUTPUT_STATUS: u8 = 7;

/// The command that restores an archive, which has a call of its own.
const RESTORE: &str = "restore";

/// What is open in the place of a standard stream that is closed: nothing can be written to it.
const NOTHING: &str = "/dev/null";

/// Does what the words say, and answers the status to end with. `terminals` says which of the program's streams lead to one.
///
/// Where a standard stream is closed, the next file that is opened would get its number, and what is printed would go into it. So three
/// files are opened first, one for each stream, and held to the end.
pub fn start<R: Runtime + AllocGlobal>(rt: &R, terminals: Terminals) -> u8 {
    let _input = File::open(rt, NOTHING);
    let _output = File::open(rt, NOTHING);
    let _error = File::open(rt, NOTHING);
    answer(rt, terminals)
}

/// Does what the words say, and answers the status to end with.
fn answer<R: Runtime + AllocGlobal>(rt: &R, terminals: Terminals) -> u8 {
    match carry_out(rt, terminals) {
        Ok(status) => status,
        Err(fault) => refuse(rt, &fault),
    }
}

/// Does what the words say, or answers why not.
fn carry_out<R: Runtime + AllocGlobal>(rt: &R, terminals: Terminals) -> Result<u8, StartFault> {
    let words = words(rt)?;
    do_words(rt, terminals, words.as_slice())
}

/// Prints what the program says of itself, where the words ask for that, or runs their command.
fn do_words<R: Runtime + AllocGlobal>(
    rt: &R,
    terminals: Terminals,
    words: &[String],
) -> Result<u8, StartFault> {
    match words {
        [word] if is_help(word) || is_asked(word) => Ok(print_help(rt)),
        [word] if word.as_str() == "--version" => Ok(print(rt, VERSION)),
        [command, help] | [_, _, command, help, ..] if is_help(help) => {
            help_of(rt, terminals, words, command)
        }
        [help, command] if is_help(help) || is_asked(help) => {
            help_of(rt, terminals, words, command)
        }
        _ => run_words(rt, terminals, words),
    }
}

/// Prints the lines of a command in the help, where there is such a command; else the words are no more than words.
fn help_of<R: Runtime + AllocGlobal>(
    rt: &R,
    terminals: Terminals,
    words: &[String],
    command: &String,
) -> Result<u8, StartFault> {
    match lines_of(command.as_str()) {
        Some(lines) => Ok(print(rt, lines)),
        None => run_words(rt, terminals, words),
    }
}

/// Runs the command of the words, where their places can be those of repositories.
fn run_words<R: Runtime + AllocGlobal>(
    rt: &R,
    terminals: Terminals,
    words: &[String],
) -> Result<u8, StartFault> {
    match words {
        [source, target, command @ ..] if places_fit(words) => {
            let places = Places {
                source: source.as_str(),
                target: target.as_str(),
            };
            look_at_places(rt, places)?;
            if is_restore(command) {
                run_restore(rt, terminals, places, command)
            } else {
                run_command(rt, terminals, places, command)
            }
        }
        _ => Err(StartFault::Usage),
    }
}

/// Whether the words of a command are those of `restore`, in whose place of the target stands a folder that is no repository.
fn is_restore(words: &[String]) -> bool {
    match words {
        [name, ..] => name.as_str() == RESTORE,
        [] => false,
    }
}

/// Refuses places that are on another machine, and two that are one folder: what is removed and written in the target would be so in
/// the source.
fn look_at_places<R: Runtime>(rt: &R, places: Places) -> Result<(), StartFault> {
    if is_remote(places.source) || is_remote(places.target) {
        return Err(StartFault::Remote);
    }
    if are_one(rt, places.source, places.target) {
        return Err(StartFault::OneFolder);
    }
    Ok(())
}

/// The program's words, without its own name.
fn words<R: Runtime + AllocGlobal>(rt: &R) -> Result<Vec<String>, StartFault> {
    match env::args(rt) {
        Ok(words) => Ok(words.skip(1).collect(rt.alloc())?),
        Err(error) if error.kind() == ErrorKind::InvalidData => Err(StartFault::WordNotText),
        Err(_) => Err(StartFault::Memory),
    }
}

/// Whether a first word asks for help in another way.
fn is_asked(word: &String) -> bool {
    word.as_str() == "help" || word.as_str() == "-h"
}

/// Whether a word asks for help.
fn is_help(word: &String) -> bool {
    word.as_str() == "--help"
}

/// Prints the help, and answers the status to end with.
fn print_help<R: Runtime + AllocGlobal>(rt: &R) -> u8 {
    let mut status = print(rt, HEAD);
    for command in COMMANDS {
        if status == 0
            && let Some(lines) = lines_of(command)
        {
            status = print(rt, lines);
        }
    }
    if status == 0 { print(rt, TAIL) } else { status }
}

/// Prints a text, and answers the status to end with.
fn print<R: Runtime + AllocGlobal>(rt: &R, text: &str) -> u8 {
    match rt.write_all(text.as_bytes()) {
        Ok(()) => 0,
        Err(error) => {
            let cause = Cause::of_word(Word::of(&error));
            advise_of(rt, rt.alloc(), OUTPUT, Side::Source, cause);
            OUTPUT_STATUS
        }
    }
}

/// Prints a line in plain words on standard error. Where it can't be written, the status and the fault line tell alone.
pub fn advise<P: Eprint>(rt: &P, line: &str) {
    let _ = rt.eprintln(line);
}
