//! The lines of a script.

ghost use Rattle.std.specs.Prelude.{◌≡◌, []};

use crate::case::{Case, numbers};
use crate::devices::{Device, copy_files, files_of, target_of};
use crate::each::{each_call, each_stop, run_of};
use crate::ran::{describe_calls, run_told};
use crate::stop::{Share, Stop, left_of};
use anyhow::{Result, bail};
use ferry_base::Bytes;
use ferry_disk::{MemoryDepot, Name};
use ferry_top::{Secret, Secrets, places_fit};
use std::alloc::{AllocError, Global};
use std::fs;

/// What the lines so far made.
#[derive(Drop)]
struct Script {
    case: Case,
    /// The files of a target that a line kept.
    kept: Vec<(Name, Vec<u8>)>,
    /// The calls of the next run that fail.
    failing: Vec<(Device, u64)>,
    /// What the last run printed.
    printed: Vec<u8>,
}

impl Script {
    fn new(alloc: Global) -> Script {
        Script {
            case: Case {
                secrets: Secrets {
                    source: nothing(alloc),
                    target: nothing(alloc),
                },
                source: Vec::new(alloc),
                target: Vec::new(alloc),
            },
            kept: Vec::new(alloc),
            failing: Vec::new(alloc),
            printed: Vec::new(alloc),
        }
    }
}

/// No passphrase and no key file.
fn nothing(alloc: Global) -> Secret {
    Secret {
        passphrase: Bytes::new(Vec::new(alloc)),
        key_file: Bytes::new(Vec::new(alloc)),
    }
}

/// Does each line of standard input, and prints it and what it did.
pub fn play(rt: &HostRuntime) -> Result<()> {
    let alloc = rt.alloc();
    let mut script = Script::new(alloc);
    for line in rt.lines(alloc) {
        play_line(rt, &mut script, line?.as_str())?;
    }
    Ok(())
}

/// Does a line, and prints it and what it did.
fn play_line(rt: &HostRuntime, script: &mut Script, line: &str) -> Result<()> {
    let mut page = String::new(rt.alloc());
    writeln!(page, "{line}")?;
    let words = line.split_whitespace().collect::<Vec<&str>>(rt.alloc())?;
    match words.as_slice() {
        [word, rest @ ..] if !word.starts_with('#') => {
            play_words(rt, script, word, rest, &mut page)?
        }
        _ => {}
    }
    rt.print(page.as_str())?;
    Ok(())
}

/// Does the words of a line.
fn play_words(
    rt: &HostRuntime,
    script: &mut Script,
    word: &str,
    rest: &[&str],
    page: &mut String,
) -> Result<()> {
    let alloc = rt.alloc();
    match (word, rest) {
        ("keep", []) => script.kept = copy_files(alloc, &script.case.target)?,
        ("target", ["kept"]) => script.case.target = copy_files(alloc, &script.kept)?,
        ("source", ["target"]) => script.case.source = copy_files(alloc, &script.case.target)?,
        ("source", file) => give(rt, &mut script.case.source, file)?,
        ("target", file) => give(rt, &mut script.case.target, file)?,
        ("passphrase" | "key-file", [place, rest @ ..]) => open_with(
            rt, script, word, place, rest,
        )?,
        ("fail", [device, number]) => {
            script.failing.push((device_of(device)?, number.parse()?))?
        }
        ("run", words) => run_words(alloc, script, &strings(alloc, words)?, page)?,
        ("stop", [acts, cut, share, words @ ..]) => {
            let stop = stop_of(acts.parse()?, cut, share)?;
            stop_words(alloc, script, &strings(alloc, words)?, stop, page)?
        }
        ("each", ["stop", cut, share, words @ ..]) => {
            let stop = stop_of(0, cut, share)?;
            each_stop(alloc, &script.case, &strings(alloc, words)?, stop, page)?
        }
        ("each", [device, words @ ..]) => {
            let device = device_of(device)?;
            each_call(alloc, &script.case, &strings(alloc, words)?, device, page)?
        }
        ("places", words) => {
            let fit = places_fit(&strings(alloc, words)?);
            writeln!(page, "  {}", if fit { "fit" } else { "don't fit" })?
        }
        ("show", what) => show(&script.case.target, what, page)?,
        _ => bail!("no line of a script"),
    }
    Ok(())
}

/// Puts a file into a list of files, or empties it.
fn give(rt: &HostRuntime, files: &mut Vec<(Name, Vec<u8>)>, words: &[&str]) -> Result<()> {
    match words {
        ["none"] => *files = Vec::new(rt.alloc()),
        ["segment", number, names @ ..] => {
            let digits = texts(rt, names)?;
            files.push((Name::Segment(number.parse()?), unhex(rt.alloc(), &digits)?))?
        }
        ["config", names @ ..] => files.push((Name::Config, texts(rt, names)?))?,
        ["nonce", names @ ..] => files.push((Name::Nonce, texts(rt, names)?))?,
        _ => bail!("no file of a repository"),
    }
    Ok(())
}

/// The bytes of these files beside the program, one behind the other.
fn texts(rt: &HostRuntime, names: &[&str]) -> Result<Vec<u8>> {
    let mut bytes = Vec::new(rt.alloc());
    for name in names {
        bytes.extend_from_slice(&fs::read(rt, *name)?)?;
    }
    Ok(bytes)
}

/// The bytes of hex digits on several lines.
fn unhex(alloc: Global, text: &[u8]) -> Result<Vec<u8>> {
    let mut digits = Vec::new(alloc);
    for byte in text {
        if !byte.is_ascii_whitespace() {
            digits.push(*byte)?;
        }
    }
    Ok(hex::decode(alloc, digits)?)
}

/// What opens the source or the target from now on: a passphrase, or a key file of these files or of what the last run printed.
fn open_with(
    rt: &HostRuntime,
    script: &mut Script,
    word: &str,
    place: &str,
    rest: &[&str],
) -> Result<()> {
    let bytes = match (word, rest) {
        ("passphrase", [phrase]) => Vec::from_slice(rt.alloc(), phrase.as_bytes())?,
        ("key-file", ["printed"]) => Vec::from_slice(rt.alloc(), &script.printed)?,
        ("key-file", names) => texts(rt, names)?,
        _ => bail!("no passphrase"),
    };
    match (word, place) {
        ("passphrase", "source") => script.case.secrets.source.passphrase = Bytes::new(bytes),
        ("passphrase", "target") => script.case.secrets.target.passphrase = Bytes::new(bytes),
        ("key-file", "source") => script.case.secrets.source.key_file = Bytes::new(bytes),
        ("key-file", "target") => script.case.secrets.target.key_file = Bytes::new(bytes),
        _ => bail!("no secret"),
    }
    Ok(())
}

fn device_of(word: &str) -> Result<Device> {
    match word {
        "source" => Ok(Device::Source),
        "target" => Ok(Device::Target),
        "entropy" => Ok(Device::Entropy),
        "output" => Ok(Device::Output),
        _ => bail!("no device"),
    }
}

fn stop_of(acts: usize, cut: &str, share: &str) -> Result<Stop> {
    let cut = match cut {
        "cut" => true,
        "done" => false,
        _ => bail!("neither cut nor done"),
    };
    let share = match share {
        "nothing" => Share::Nothing,
        "half" => Share::Half,
        "all" => Share::All,
        _ => bail!("no share"),
    };
    Ok(Stop { acts, cut, share })
}

/// Words in memory of their own.
fn strings(alloc: Global, words: &[&str]) -> Result<Vec<String>, AllocError> {
    let mut strings = Vec::new(alloc);
    for word in words {
        strings.push(String::from_str(alloc, *word)?)?;
    }
    Ok(strings)
}

/// Runs the words, and says what they did. The next run's target begins with what this one left.
fn run_words(
    alloc: Global,
    script: &mut Script,
    words: &[String],
    page: &mut String,
) -> Result<()> {
    let numbers = numbers(alloc, &script.failing, Device::Target)?;
    let mut target = target_of(alloc, &script.case.target, numbers)?;
    page.push_str("  ")?;
    run_on(alloc, script, words, &mut target, page)?;
    let mut left = target.again()?;
    script.case.target = files_of(alloc, &mut left)?;
    Ok(())
}

/// Runs the words over a target, and says what they did and how many calls and acts they made.
fn run_on(
    alloc: Global,
    script: &mut Script,
    words: &[String],
    target: &mut MemoryDepot,
    page: &mut String,
) -> Result<(), AllocError>
    requires begun { target.old.history.acts ≡ [] }
{
    let ran = run_told(
        alloc,
        &script.case,
        words,
        &script.failing,
        target,
        "\n  ",
        page,
    )?;
    describe_calls(&ran, target, page)?;
    script.printed = ran.printed;
    script.failing = Vec::new(alloc);
    Ok(())
}

/// Runs the words, stops them, and leaves the next run's target what the stop leaves.
fn stop_words(
    alloc: Global,
    script: &mut Script,
    words: &[String],
    stop: Stop,
    page: &mut String,
) -> Result<()> {
    let target = run_of(alloc, &script.case, words)?;
    match left_of(alloc, target, stop)? {
        Some(mut left) => script.case.target = files_of(alloc, &mut left)?,
        None => page.push_str("  there is no such stop\n")?,
    }
    Ok(())
}

/// Puts the sizes of the target's files behind the page, or a byte of a segment.
fn show(files: &[(Name, Vec<u8>)], what: &[&str], page: &mut String) -> Result<()> {
    match what {
        ["target"] => {
            for (name, bytes) in files {
                writeln!(page, "  {name:?} {}", bytes.len())?;
            }
        }
        ["byte", number, at] => {
            let segment = Name::Segment(number.parse()?);
            let at = at.parse::<usize>()?;
            for (name, bytes) in files {
                if *name == segment
                    && let Some(byte) = bytes.get(at)
                {
                    writeln!(page, "  {byte}")?;
                }
            }
        }
        _ => bail!("nothing to show"),
    }
    Ok(())
}
