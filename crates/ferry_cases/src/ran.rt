//! What a run did, as text.

ghost use Rattle.std.specs.Prelude.{◌≡◌, []};

use crate::case::{Case, Ran, run_over};
use crate::devices::{Device, acts_of, told};
use ferry_disk::MemoryDepot;
use std::alloc::{AllocError, Global};

/// Runs the words over the source of a case and a target, and puts what they did behind the text.
pub fn run_told(
    alloc: Global,
    case: &Case,
    words: &[String],
    failing: &[(Device, u64)],
    target: &mut MemoryDepot,
    between: &str,
    text: &mut String,
) -> Result<Ran, AllocError>
    requires begun { target.old.history.acts ≡ [] }
{
    let ran = run_over(alloc, case, words, failing, target)?;
    describe(alloc, &ran, target, between, text)?;
    Ok(ran)
}

/// Puts the number of a run's status behind the text, and behind `between` each line that it told and each that it printed.
fn describe(
    alloc: Global,
    ran: &Ran,
    target: &MemoryDepot,
    between: &str,
    text: &mut String,
) -> Result<(), AllocError> {
    write!(text, "status {}", ran.status)?;
    push_lines(&told(alloc, target)?, between, "tells", text)?;
    push_lines(&ran.printed, between, "prints", text)
}

/// Puts each line behind the text, one that has no end with a word that says so.
fn push_lines(
    lines: &[u8],
    between: &str,
    label: &str,
    text: &mut String,
) -> Result<(), AllocError> {
    let mut is_begun = false;
    for byte in lines {
        if !is_begun {
            write!(text, "{between}{label} ")?;
        }
        is_begun = *byte != b'\n';
        if is_begun {
            text.push(char::from(*byte))?;
        }
    }
    if is_begun {
        text.push_str(" (and no end of the line)")?;
    }
    Ok(())
}

/// Puts the calls of a run's devices behind the text, and its acts.
pub fn describe_calls(
    ran: &Ran,
    target: &MemoryDepot,
    text: &mut String,
) -> Result<(), AllocError> {
    let [source, of_target, entropy, output] = ran.calls;
    let (acts, appends) = acts_of(target);
    write!(
        text,
        "\n  calls: source {source}, target {of_target}, entropy {entropy}, output {output}; acts {acts}, appends {appends}\n"
    )
}
