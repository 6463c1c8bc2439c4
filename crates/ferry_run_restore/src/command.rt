//! The command that restores an archive.
ghost use Rattle.std.specs.Prelude.{◌≡◌, ◌⊎◌, ℕ, false, map, string_bytes, true, IfErr, IfOk, IfSome, MatchResult, OnErr};
ghost use Rattle.ferry_disk.specs.Device.{HasCause, KeepsTold, KeptWhere, Rose, RoseWhere, heard, told_files};
ghost use Rattle.ferry_repo.specs.Opening.{FitsRepo, cached_in, repo_view};
ghost use Rattle.ferry_run_restore.specs.Restored.{counts_line, output_failed, source_failed, tree_failed};
ghost use Rattle.ferry_run_restore.specs.Restoring.{Answers, DoesWords, IsStatusOf, RefusesOpened, RefusesRestoring, Runs, Sends, WhereOpen};
ghost use Rattle.ferry_status.specs.Devices.{written};
ghost use Rattle.ferry_tree.specs.Restoring.{PartOfArchive, RestoresArchive};
ghost use Rattle.ferry_words.specs.Restore.{restored_of};

use crate::lines::{counts_line, report};
use crate::restored::{Restored, of_source};
use ferry_base::Bytes;
use ferry_disk::{Shelf, Sink};
use ferry_repo::{Repo, Secret};
use ferry_tree::{Counts, RestoreFault, Tree, restore as restore_archive};
use ferry_view::{ViewFault, send};
use ferry_words::{Usage, read_restore};
use std::alloc::Global;

/// Does what the words say: restores the archive of a name in an empty tree, and prints how many items of each kind it has.
///
/// `words` are `restore` and the archive's name; a name that begins with `--` stands behind `--`. The source is only read, with its secret. The archive's
/// folders, its files with their contents, and its symbolic and hard links are made, in the order of its items; what else an item says of a file isn't. `Done`
/// says that the line `restored F files D folders L links S skipped` was written whole, `OutputDevice` that the output failed over it; the tree is then that of
/// the archive. Any other status says why the archive wasn't restored to its end; nothing but its fault line is written then, and the tree has a part of the
/// archive at most. At `Memory` either may be.
///
/// Source: BorgBackup 1.2, Internals, "Data structures and file formats", Archives.
pub fn restore<S: Shelf, T: Tree, K: Sink>(
    alloc: Global,
    words: &[String],
    secret: &Secret,
    source: &mut S,
    tree: &mut T,
    out: &mut K,
) -> Restored
    ensures usage { MatchResult (restored_of (map string_bytes words.now)) (λ _. (n : ℕ) → result ≡ Restored.Usage n → ⊥)
        (λ n. (result ≡ Restored.Usage n) ⊎ (result ≡ Restored.Memory)) }
    ensures idle { IfErr (restored_of (map string_bytes words.now)) (λ _. (source.new ≡ source.old) × (tree.new ≡ tree.old)) }
    ensures runs { Runs (restored_of (map string_bytes words.now)) (S.told source.old) secret.now (T.told tree.old)
        (written (K.written out.old) (K.faults out.old)) result (T.told tree.new) (written (K.written out.new) (K.faults out.new)) }
    ensures same { KeptWhere (source_failed result) (heard (S.told source.old)) (S.told source.new) }
    ensures cause { RoseWhere (source_failed result) (S.faults source.old) (S.faults source.new) }
    ensures tree_cause { RoseWhere (tree_failed result) (T.faults tree.old) (T.faults tree.new) }
    ensures output_cause { output_failed result ≡ true → Rose (K.faults out.old) (K.faults out.new) }
{
    let ended = answer(alloc, words, secret, source, tree, out);
    report(alloc, &ended, out);
    ended
}

/// Does what the words say, but for the fault line.
fn answer<S: Shelf, T: Tree, K: Sink>(
    alloc: Global,
    words: &[String],
    secret: &Secret,
    source: &mut S,
    tree: &mut T,
    out: &mut K,
) -> Restored
    ensures usage { MatchResult (restored_of (map string_bytes words.now)) (λ _. (n : ℕ) → result ≡ Restored.Usage n → ⊥)
        (λ n. (result ≡ Restored.Usage n) ⊎ (result ≡ Restored.Memory)) }
    ensures idle { IfErr (restored_of (map string_bytes words.now)) (λ _. (source.new ≡ source.old) × (tree.new ≡ tree.old)) }
    ensures does { DoesWords (restored_of (map string_bytes words.now)) (S.told source.old) secret.now (T.told tree.old)
        (written (K.written out.old) (K.faults out.old)) result (T.told tree.new) (written (K.written out.new) (K.faults out.new)) }
    ensures same { KeptWhere (source_failed result) (heard (S.told source.old)) (S.told source.new) }
    ensures cause { RoseWhere (source_failed result) (S.faults source.old) (S.faults source.new) }
    ensures tree_cause { RoseWhere (tree_failed result) (T.faults tree.old) (T.faults tree.new) }
    ensures output_cause { output_failed result ≡ true → Rose (K.faults out.old) (K.faults out.new) }
{
    match read_restore(alloc, words) {
        Ok(name) => restore_named(alloc, secret, name.as_slice(), source, tree, out),
        Err(Usage::Word(word)) => Restored::Usage(word),
        Err(Usage::Memory) => Restored::Memory,
    }
}

/// Restores the archive of a name, and prints its counts.
fn restore_named<S: Shelf, T: Tree, K: Sink>(
    alloc: Global,
    secret: &Secret,
    name: &[u8],
    source: &mut S,
    tree: &mut T,
    out: &mut K,
) -> Restored
    ensures used { (n : ℕ) → result ≡ Restored.Usage n → ⊥ }
    ensures answers { Answers (S.told source.old) secret.now name.now (T.told tree.old) (written (K.written out.old) (K.faults out.old))
        result (T.told tree.new) (written (K.written out.new) (K.faults out.new)) }
    ensures same { KeptWhere (source_failed result) (heard (S.told source.old)) (S.told source.new) }
    ensures cause { RoseWhere (source_failed result) (S.faults source.old) (S.faults source.new) }
    ensures tree_cause { RoseWhere (tree_failed result) (T.faults tree.old) (T.faults tree.new) }
    ensures output_cause { output_failed result ≡ true → Rose (K.faults out.old) (K.faults out.new) }
{
    match restore_from(alloc, secret, name, source, tree) {
        Ok(counts) => print(alloc, &counts, out),
        Err(ended) => ended,
    }
}

/// Opens the source, and restores the archive of a name.
fn restore_from<S: Shelf, T: Tree>(
    alloc: Global,
    secret: &Secret,
    name: &[u8],
    source: &mut S,
    tree: &mut T,
) -> Result<Counts, Restored>
    ensures restored { IfOk result (λ counts. WhereOpen (S.told source.old) secret.now (λ repo.
        RestoresArchive (S.told source.old) repo name.now (T.told tree.old) (T.told tree.new) counts)) }
    ensures leaves { OnErr result ((T.told tree.new ≡ T.told tree.old) ⊎ WhereOpen (S.told source.old) secret.now (λ repo.
        PartOfArchive (S.told source.old) repo name.now (T.told tree.old) (T.told tree.new))) }
    ensures refused { IfErr result (RefusesRestoring (S.told source.old) secret.now name.now (T.told tree.old)) }
    ensures used { IfErr result (λ ended. (n : ℕ) → ended ≡ Restored.Usage n → ⊥) }
    ensures quiet { IfErr result (λ ended. output_failed ended ≡ false) }
    ensures same { KeepsTold source_failed (S.told source.old) (S.told source.new) result }
    ensures cause { HasCause source_failed (S.faults source.old) (S.faults source.new) result }
    ensures tree_cause { HasCause tree_failed (T.faults tree.old) (T.faults tree.new) result }
{
    let mut repo = match Repo::open(alloc, source, secret) {
        Ok(repo) => repo,
        Err(fault) => return Err(of_source(fault)),
    };
    restore_opened(alloc, &mut repo, name, source, tree)
}

/// Restores the archive of a name from the opened source.
fn restore_opened<S: Shelf, T: Tree>(
    alloc: Global,
    repo: &mut Repo,
    name: &[u8],
    source: &mut S,
    tree: &mut T,
) -> Result<Counts, Restored>
    requires fits { IfSome (S.told source.old) (λ t. FitsRepo (told_files t) (repo_view repo.old) (cached_in repo.old)) }
    ensures restored { IfOk result (λ counts.
        RestoresArchive (S.told source.old) (repo_view repo.old) name.now (T.told tree.old) (T.told tree.new) counts) }
    ensures leaves { OnErr result ((T.told tree.new ≡ T.told tree.old)
        ⊎ PartOfArchive (S.told source.old) (repo_view repo.old) name.now (T.told tree.old) (T.told tree.new)) }
    ensures refused { IfErr result (λ ended. IfSome (S.told source.old) (λ t.
        RefusesOpened (told_files t) (repo_view repo.old) name.now (T.told tree.old) ended)) }
    ensures used { IfErr result (λ ended. (n : ℕ) → ended ≡ Restored.Usage n → ⊥) }
    ensures quiet { IfErr result (λ ended. output_failed ended ≡ false) }
    ensures same { KeepsTold source_failed (S.told source.old) (S.told source.new) result }
    ensures cause { HasCause source_failed (S.faults source.old) (S.faults source.new) result }
    ensures tree_cause { HasCause tree_failed (T.faults tree.old) (T.faults tree.new) result }
{
    match restore_archive(alloc, repo, source, tree, name) {
        Ok(counts) => Ok(counts),
        Err(fault) => Err(of_restore(alloc, fault, name)),
    }
}

/// The status where the archive of a name isn't restored to its end.
fn of_restore(alloc: Global, fault: RestoreFault, name: &[u8]) -> Restored
    ensures status { IsStatusOf fault name.now result }
    ensures used { (n : ℕ) → result ≡ Restored.Usage n → ⊥ }
    ensures quiet { output_failed result ≡ false }
{
    match fault {
        RestoreFault::Source(fault) => of_source(fault),
        RestoreFault::Place(path, fault) => Restored::Place(path, fault),
        RestoreFault::NotFound => of_missing(alloc, name),
        RestoreFault::NotEmpty => Restored::NotEmpty,
        RestoreFault::Tree => Restored::TreeDevice,
        RestoreFault::Memory => Restored::Memory,
    }
}

/// The status where no archive has a name.
fn of_missing(alloc: Global, name: &[u8]) -> Restored
    ensures status { (result ≡ Restored.NotFound name.now) ⊎ (result ≡ Restored.Memory) }
{
    match Vec::from_slice(alloc, name) {
        Ok(copy) => Restored::NotFound(Bytes::new(copy)),
        Err(_) => Restored::Memory,
    }
}

/// Prints the line of what was restored.
fn print<K: Sink>(alloc: Global, counts: &Counts, out: &mut K) -> Restored
    ensures sent { Sends (counts_line counts.now) (written (K.written out.old) (K.faults out.old)) result (written (K.written out.new) (K.faults out.new)) }
{
    let line = match counts_line(alloc, counts) {
        Ok(line) => line,
        Err(_) => return Restored::Memory,
    };
    match send(&line, out) {
        Ok(()) => Restored::Done,
        Err(ViewFault::Output) => Restored::OutputDevice,
        Err(_) => Restored::Memory,
    }
}
