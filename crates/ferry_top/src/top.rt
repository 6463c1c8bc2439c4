//! The top call.
ghost use Rattle.std.specs.Prelude.{◌≡◌, ◌⊎◌, ℕ, [], map, string_bytes, Ok, IfErr, IfSome, MatchResult};
ghost use Rattle.ferry_status.specs.Devices.{HasCauses, devices, store, drawn, written};
ghost use Rattle.ferry_top.specs.Run.{DoesCommand, Runs};
ghost use Rattle.ferry_words.specs.Words.{IsInRange, command_of};

use crate::check::check;
use crate::init::init;
use crate::items::{extract, list_items};
use crate::key::key;
use crate::keys::keys;
use crate::list::list;
use crate::make_key::make_key;
use ferry_carry::Options;
use ferry_disk::{Depot, Entropy, Shelf, Sink};
use ferry_run_compact::compact;
use ferry_run_delete::delete;
use ferry_run_drill::drill;
use ferry_run_plan::plan;
use ferry_run_tag::tag_archives;
use ferry_run_transfer::transfer;
use ferry_status::{Secrets, Status, report};
use ferry_words::{Command, Usage, read_words};
use std::alloc::Global;

/// Does what the words say.
///
/// `words` begins with the command. `keys` prints each live key of the source in byte order as 64 hex digits, with a space and the size of its
/// blob in bytes. `key` opens the repository key, in `config` or the key file, with the source's passphrase and prints its repository id as 64
/// hex digits, a space, and its iterations. `list` opens the source with its secret and prints, for each archive in byte order of names, the id
/// of its record, its time and its name; with a name it prints, for each item of that archive in the order of its stream, its kind, its size in
/// bytes and its path. `extract` writes the content of the first item of an archive that has content and a path. `check` opens every live chunk
/// and reads every archive, and prints how many there are, or the first fault, with which it answers `No`. None of these uses `target` and
/// `entropy`. `init` makes a repository in the target, with the key of the target's key file where there is one, and tells `initialized ` and
/// its id as 64 hex digits; it uses neither `source` nor `out` but for its fault line. `transfer` copies the chosen archives of the source, or
/// all, into the target, in pieces of its own length, those that the target lacks, and compares the others; it tells `transferred ` or `present
/// ` and the name of each, and at the end a line with the numbers of all, and uses `out` for its fault line alone. `plan` counts what that
/// would put, and prints how many pieces of contents, their bytes, and how many pieces of item streams; it only reads `target`, and doesn't use
/// `entropy`. `delete` takes the archive of a name out of the target, with the chunks that no other archive uses, and tells `deleted `, the name
/// and how many chunks went; it uses neither `source` nor `out` but for its fault line. `compact` writes again what is in use in those segments
/// of the target of which a part is unused, removes them, and tells `compacted ` and how many these were; it uses neither `source` and
/// `entropy` nor `out` but for its fault line. `tag-archives` gives the record of each archive of the target an authentication tag that has none,
/// and tells `tagged ` and how many these were; it uses neither `source` nor `out` but for its fault line. `make-key` draws a new key, seals it
/// with the target's passphrase and prints the text of its key file; it uses neither `source` nor `target`. `drill` makes a source of so many
/// archives in memory and a repository in the target, with passphrases of its own, copies all archives into it, which tells the lines of
/// `transfer`, checks it, and prints one line with the numbers of what was put; it doesn't use `source`.
pub fn run<S: Shelf, D: Depot, E: Entropy, K: Sink>(
    alloc: Global,
    words: &[String],
    secrets: &Secrets,
    source: &mut S,
    target: &mut D,
    entropy: &mut E,
    out: &mut K,
) -> Status
    requires begun { IfSome (D.told target.old) (λ t. t.history.acts ≡ []) }
    ensures usage { MatchResult (command_of (map string_bytes words.now)) (λ _. (n : ℕ) → result ≡ Status.Usage n → ⊥)
        (λ n. (result ≡ Status.Usage n) ⊎ (result ≡ Status.Memory)) }
    ensures idle { IfErr (command_of (map string_bytes words.now)) (λ _. source.new ≡ source.old) }
    ensures runs { Runs (command_of (map string_bytes words.now)) secrets.now
        (devices (store (S.told source.old) (S.faults source.old)) (store (D.told target.old) (D.faults target.old))
        (drawn (E.drawn entropy.old) (E.faults entropy.old)) (written (K.written out.old) (K.faults out.old)))
        result
        (devices (store (S.told source.new) (S.faults source.new)) (store (D.told target.new) (D.faults target.new))
        (drawn (E.drawn entropy.new) (E.faults entropy.new)) (written (K.written out.new) (K.faults out.new))) }
{
    let status = answer(alloc, words, secrets, source, target, entropy, out);
    report(alloc, &status, out);
    status
}

/// Does what the words say, but for the fault line.
fn answer<S: Shelf, D: Depot, E: Entropy, K: Sink>(
    alloc: Global,
    words: &[String],
    secrets: &Secrets,
    source: &mut S,
    target: &mut D,
    entropy: &mut E,
    out: &mut K,
) -> Status
    requires begun { IfSome (D.told target.old) (λ t. t.history.acts ≡ []) }
    ensures usage { MatchResult (command_of (map string_bytes words.now)) (λ _. (n : ℕ) → result ≡ Status.Usage n → ⊥)
        (λ n. (result ≡ Status.Usage n) ⊎ (result ≡ Status.Memory)) }
    ensures idle { IfErr (command_of (map string_bytes words.now)) (λ _. source.new ≡ source.old) }
    ensures does { DoesCommand (command_of (map string_bytes words.now)) secrets.now
        (devices (store (S.told source.old) (S.faults source.old)) (store (D.told target.old) (D.faults target.old))
        (drawn (E.drawn entropy.old) (E.faults entropy.old)) (written (K.written out.old) (K.faults out.old)))
        result
        (devices (store (S.told source.new) (S.faults source.new)) (store (D.told target.new) (D.faults target.new))
        (drawn (E.drawn entropy.new) (E.faults entropy.new)) (written (K.written out.new) (K.faults out.new))) }
    ensures causes { HasCauses result
        (devices (store (S.told source.old) (S.faults source.old)) (store (D.told target.old) (D.faults target.old))
        (drawn (E.drawn entropy.old) (E.faults entropy.old)) (written (K.written out.old) (K.faults out.old)))
        (devices (store (S.told source.new) (S.faults source.new)) (store (D.told target.new) (D.faults target.new))
        (drawn (E.drawn entropy.new) (E.faults entropy.new)) (written (K.written out.new) (K.faults out.new))) }
{
    match read_words(alloc, words) {
        Ok(command) => carry_out(alloc, command, secrets, source, target, entropy, out),
        Err(Usage::Word(word)) => Status::Usage(word),
        Err(Usage::Memory) => Status::Memory,
    }
}

/// Does a command, with the secrets and the devices that it uses.
fn carry_out<S: Shelf, D: Depot, E: Entropy, K: Sink>(
    alloc: Global,
    command: Command,
    secrets: &Secrets,
    source: &mut S,
    target: &mut D,
    entropy: &mut E,
    out: &mut K,
) -> Status
    requires in_range { IsInRange command }
    requires begun { IfSome (D.told target.old) (λ t. t.history.acts ≡ []) }
    ensures does { DoesCommand (Ok command) secrets.now
        (devices (store (S.told source.old) (S.faults source.old)) (store (D.told target.old) (D.faults target.old))
        (drawn (E.drawn entropy.old) (E.faults entropy.old)) (written (K.written out.old) (K.faults out.old)))
        result
        (devices (store (S.told source.new) (S.faults source.new)) (store (D.told target.new) (D.faults target.new))
        (drawn (E.drawn entropy.new) (E.faults entropy.new)) (written (K.written out.new) (K.faults out.new))) }
    ensures causes { HasCauses result
        (devices (store (S.told source.old) (S.faults source.old)) (store (D.told target.old) (D.faults target.old))
        (drawn (E.drawn entropy.old) (E.faults entropy.old)) (written (K.written out.old) (K.faults out.old)))
        (devices (store (S.told source.new) (S.faults source.new)) (store (D.told target.new) (D.faults target.new))
        (drawn (E.drawn entropy.new) (E.faults entropy.new)) (written (K.written out.new) (K.faults out.new))) }
    ensures used { (n : ℕ) → result ≡ Status.Usage n → ⊥ }
{
    match command {
        Command::Keys => keys(alloc, &secrets.source, source, out),
        Command::Key => key(alloc, &secrets.source, source, out),
        Command::List => list(alloc, &secrets.source, source, out),
        Command::ListItems { name } => list_items(alloc, &secrets.source, source, out, name),
        Command::Extract { name, path } => extract(alloc, &secrets.source, source, out, name, path),
        Command::Check => check(alloc, &secrets.source, source, out),
        Command::Init {
            iterations,
            timestamp,
        } => init(
            alloc,
            &secrets.target,
            iterations,
            timestamp,
            target,
            entropy,
        ),
        Command::Transfer {
            block,
            checkpoint,
            timestamp,
            names,
        } => {
            let options = Options {
                block,
                checkpoint,
                timestamp,
            };
            let chosen = names.as_slice();
            transfer(alloc, secrets, &options, chosen, source, target, entropy)
        }
        Command::Plan { block, names } => {
            let chosen = names.as_slice();
            plan(alloc, secrets, block, chosen, source, target, out)
        }
        Command::Delete { timestamp, name } => {
            delete(alloc, &secrets.target, timestamp, name, target, entropy)
        }
        Command::Compact { threshold } => compact(alloc, threshold, target),
        Command::TagArchives { timestamp } => {
            tag_archives(alloc, &secrets.target, timestamp, target, entropy)
        }
        Command::Drill { count } => drill(alloc, count, target, entropy, out),
        Command::MakeKey { iterations } => make_key(
            alloc,
            &secrets.target,
            iterations,
            entropy,
            out,
        ),
    }
}
