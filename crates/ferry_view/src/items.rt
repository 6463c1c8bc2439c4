//! The listing of an archive's items.
ghost use Rattle.std.specs.Prelude.{◌≡◌, ◌⊎◌, ◌<◌, ◌++◌, true, IfErr, IfSome, OnOk, OnErr, length, option_map};
ghost use Rattle.ferry_disk.specs.Device.{KeepsTold, HasCause, WritesSome, told_files};
ghost use Rattle.ferry_item.specs.Item.{item_view};
ghost use Rattle.ferry_repo.specs.Fault.{repo_failed};
ghost use Rattle.ferry_repo.specs.Opening.{repo_view, cached_in, FitsRepo};
ghost use Rattle.ferry_repo.specs.Walk.{walk_view, FitsWalk};
ghost use Rattle.ferry_view.specs.Items.{IsItemListing, IsItemText, RefusesItems};
ghost use Rattle.ferry_view.specs.Lines.{item_line};
ghost use Rattle.ferry_view.specs.Output.{view_failed, shelf_failed, IsOfArchive, IsOutputFault, Sends, ShowsAll, ShowsSome, repo_fault};
ghost use Rattle.ferry_view.specs.Steps.{AllLines, SomeLines, EndsWalk};

use crate::beginning::begin;
use crate::fault::ViewFault;
use crate::line::push_item;
use crate::output::{send, send_full};
use ferry_disk::{Shelf, Sink};
use ferry_item::Item;
use ferry_repo::{Repo, RepoFault, Walk};
use std::alloc::Global;

/// Writes a line for each item of the archive of a name: `f` where it has content, `l` where it has none and has the field `source`, else
/// `-`; the sum of the stated sizes of its chunks; and its path.
///
/// Paths are escaped, so an item has one line whatever its path is. No content is read. The item stream is read to its end; where it doesn't
/// read so far, the lines of the items in front have gone out, unless the device failed or memory was refused. `NotFound` comes where no archive has the name.
///
/// Source: BorgBackup 1.2, Internals, "Data structures and file formats", Archives.
pub fn list_items<S: Shelf, K: Sink>(
    alloc: Global,
    repo: &mut Repo,
    shelf: &mut S,
    out: &mut K,
    name: &[u8],
) -> Result<(), ViewFault>
    requires fits { IfSome (S.told shelf.old) (λ t. FitsRepo (told_files t) (repo_view repo.old) (cached_in repo.old)) }
    ensures ok { OnOk result (ShowsAll (λ f text. IsItemListing f (repo_view repo.old) name.now text)
        (S.told shelf.old) (K.written out.old) (K.written out.new)) }
    ensures err { OnErr result (ShowsSome (λ f text. IsItemText f (repo_view repo.old) name.now text)
        (S.told shelf.old) (K.written out.old) (K.written out.new)) }
    ensures all { IfErr result (λ fault. IsOfArchive fault → ShowsAll (λ f text. IsItemText f (repo_view repo.old) name.now text)
        (S.told shelf.old) (K.written out.old) (K.written out.new)) }
    ensures refused { IfErr result (λ fault. IfSome (S.told shelf.old) (λ t.
        RefusesItems (told_files t) (repo_view repo.old) name.now fault)) }
    ensures fits { IfSome (S.told shelf.new) (λ t. FitsRepo (told_files t) (repo_view repo.new) (cached_in repo.new)) }
    ensures kept { repo_view repo.new ≡ repo_view repo.old }
    ensures same { KeepsTold shelf_failed (S.told shelf.old) (S.told shelf.new) result }
    ensures source { HasCause shelf_failed (S.faults shelf.old) (S.faults shelf.new) result }
    ensures cause { HasCause view_failed (K.faults out.old) (K.faults out.new) result }
{
    match begin(repo, shelf, name) {
        Ok(mut walk) => write_items(alloc, repo, shelf, out, &mut walk),
        Err(fault) => Err(fault),
    }
}

/// Writes the lines of the items that are to come, to the end of the stream.
#[tactic(auto, using(crate::proofs::OutputLemmas::conversions))]
fn write_items<S: Shelf, K: Sink>(
    alloc: Global,
    repo: &mut Repo,
    shelf: &mut S,
    out: &mut K,
    walk: &mut Walk,
) -> Result<(), ViewFault>
    requires fits { IfSome (S.told shelf.old) (λ t. FitsRepo (told_files t) (repo_view repo.old) (cached_in repo.old)) }
    requires walk_fits { IfSome (S.told shelf.old) (λ t.
        FitsWalk (told_files t) (repo_view repo.old).log (repo_view repo.old).keys (walk_view walk.old)) }
    ensures ok { OnOk result (ShowsAll (λ f text. AllLines f (repo_view repo.old) (walk_view walk.old) text)
        (S.told shelf.old) (K.written out.old) (K.written out.new)) }
    ensures err { OnErr result (ShowsSome (λ f text. SomeLines f (repo_view repo.old) (walk_view walk.old) text)
        (S.told shelf.old) (K.written out.old) (K.written out.new)) }
    ensures all { IfErr result (λ fault. IsOfArchive fault → ShowsAll (λ f text. SomeLines f (repo_view repo.old) (walk_view walk.old) text)
        (S.told shelf.old) (K.written out.old) (K.written out.new)) }
    ensures refused { IfErr result (λ fault. IfSome (S.told shelf.old) (λ t.
        EndsWalk (told_files t) (repo_view repo.old) (walk_view walk.old) fault)) }
    ensures fits { IfSome (S.told shelf.new) (λ t. FitsRepo (told_files t) (repo_view repo.new) (cached_in repo.new)) }
    ensures kept { repo_view repo.new ≡ repo_view repo.old }
    ensures same { KeepsTold shelf_failed (S.told shelf.old) (S.told shelf.new) result }
    ensures source { HasCause shelf_failed (S.faults shelf.old) (S.faults shelf.new) result }
    ensures cause { HasCause view_failed (K.faults out.old) (K.faults out.new) result }
{
    let mut text = Vec::new(alloc);
    for _ in 0..u64::MAX {
        match walk.step(repo, shelf) {
            Ok(Some(item)) => {
                let added = add_item(&item, &mut text, out);
                drop(item);
                added?;
            }
            Ok(None) => return send(&text, out),
            Err(fault) => return end_lines(&text, fault, out),
        }
    }
    Err(ViewFault::Memory)
}

/// Answers why an archive doesn't read on, and writes what is gathered in front of that, but where the repository's device failed or memory was refused.
/// Where the output doesn't take it, that is the answer.
#[tactic(auto, using(crate::proofs::OutputLemmas::conversions))]
fn end_lines<K: Sink>(text: &[u8], fault: RepoFault, out: &mut K) -> Result<(), ViewFault>
    ensures refused { OnOk result ⊥ }
    ensures fault { IfErr result (λ answer. (answer ≡ repo_fault fault) ⊎ IsOutputFault answer) }
    ensures device { repo_failed fault ≡ true → IfErr result (λ answer. answer ≡ repo_fault fault) }
    ensures all { IfErr result (λ answer. IsOfArchive answer → K.written out.new ≡ option_map (λ w. w ++ text.now) (K.written out.old)) }
    ensures err { WritesSome (K.written out.old) text.now (K.written out.new) }
    ensures cause { HasCause view_failed (K.faults out.old) (K.faults out.new) result }
{
    match fault {
        RepoFault::Device | RepoFault::Memory => {}
        _ => send(text, out)?,
    }
    Err(ViewFault::from(fault))
}

/// Gathers the line of an item, and writes what is gathered where it is much.
fn add_item<K: Sink>(item: &Item, text: &mut Vec<u8>, out: &mut K) -> Result<(), ViewFault>
    ensures ok { OnOk result (Sends (K.written out.old) (K.written out.new) text.new.items
        (text.old.items ++ item_line (item_view item.now))) }
    ensures gathered { OnOk result (length text.new.items < 65536) }
    ensures err { OnErr result (WritesSome (K.written out.old) (text.old.items ++ item_line (item_view item.now)) (K.written out.new)) }
    ensures cause { HasCause view_failed (K.faults out.old) (K.faults out.new) result }
    ensures only { IfErr result IsOutputFault }
{
    push_item(item, text)?;
    send_full(text, out)
}
