//! The content of a file of an archive.
ghost use Rattle.std.specs.Prelude.{◌≡◌, if◌then◌else◌, Ok, None, false, IfOk, IfErr, IfSome, OnOk, OnErr};
ghost use Rattle.std.specs.Str.{bytes_eq};
ghost use Rattle.ferry_disk.specs.Device.{KeepsTold, HasCause, told_files};
ghost use Rattle.ferry_item.specs.Item.{item_view};
ghost use Rattle.ferry_repo.specs.Opening.{repo_view, cached_in, FitsRepo};
ghost use Rattle.ferry_repo.specs.Walk.{walk_view, FitsWalk};
ghost use Rattle.ferry_view.specs.Lines.{path_of};
ghost use Rattle.ferry_view.specs.Items.{IsFile, IsFileText, RefusesFile};
ghost use Rattle.ferry_view.specs.Output.{view_failed, shelf_failed, IsOfArchive, ShowsAll, ShowsSome};
ghost use Rattle.ferry_view.specs.Steps.{FindsFile, FindsNone, EndsBefore, AllContents, SomeContents, EndsContents, ReachesEnd, EndsWalk, WritesFile, EndsFile};

use crate::beginning::begin;
use crate::fault::ViewFault;
use crate::line::path_of;
use ferry_disk::{Shelf, Sink};
use ferry_item::{ChunkRef, ChunkRefs, Item};
use ferry_repo::{Repo, Walk};

/// Writes the content of a file: of the first item of the archive of a name that has content and the path.
///
/// The content goes out chunk by chunk as it is reached, and no other content is read. The item stream is read to its end before the answer
/// is `Ok`; where it or the content doesn't read so far, the contents of the chunks in front have gone out, unless a device failed or memory
/// was refused. `NotFound` comes where no archive has the name, or no such item is in it.
///
/// Source: BorgBackup 1.2, Internals, "Data structures and file formats", Archives.
pub fn extract<S: Shelf, K: Sink>(
    repo: &mut Repo,
    shelf: &mut S,
    out: &mut K,
    name: &[u8],
    path: &[u8],
) -> Result<(), ViewFault>
    requires fits { IfSome (S.told shelf.old) (λ t. FitsRepo (told_files t) (repo_view repo.old) (cached_in repo.old)) }
    ensures ok { OnOk result (ShowsAll (λ f text. IsFile f (repo_view repo.old) name.now path.now text)
        (S.told shelf.old) (K.written out.old) (K.written out.new)) }
    ensures err { OnErr result (ShowsSome (λ f text. IsFileText f (repo_view repo.old) name.now path.now text)
        (S.told shelf.old) (K.written out.old) (K.written out.new)) }
    ensures all { IfErr result (λ fault. IsOfArchive fault → ShowsAll (λ f text. IsFileText f (repo_view repo.old) name.now path.now text)
        (S.told shelf.old) (K.written out.old) (K.written out.new)) }
    ensures refused { IfErr result (λ fault. IfSome (S.told shelf.old) (λ t.
        RefusesFile (told_files t) (repo_view repo.old) name.now path.now fault)) }
    ensures fits { IfSome (S.told shelf.new) (λ t. FitsRepo (told_files t) (repo_view repo.new) (cached_in repo.new)) }
    ensures kept { repo_view repo.new ≡ repo_view repo.old }
    ensures same { KeepsTold shelf_failed (S.told shelf.old) (S.told shelf.new) result }
    ensures source { HasCause shelf_failed (S.faults shelf.old) (S.faults shelf.new) result }
    ensures cause { HasCause view_failed (K.faults out.old) (K.faults out.new) result }
{
    let mut walk = match begin(repo, shelf, name) {
        Ok(walk) => walk,
        Err(fault) => return Err(fault),
    };
    match find_file(repo, shelf, &mut walk, path) {
        Ok(Some(chunks)) => {
            let done = write_file(repo, shelf, out, &mut walk, &chunks);
            drop(chunks);
            drop(walk);
            done
        }
        Ok(None) => {
            drop(walk);
            Err(ViewFault::NotFound)
        }
        Err(fault) => {
            drop(walk);
            Err(fault)
        }
    }
}

/// Writes the contents of chunks, one after another, and reads the items that are to come, to the end of the stream.
fn write_file<S: Shelf, K: Sink>(
    repo: &mut Repo,
    shelf: &mut S,
    out: &mut K,
    walk: &mut Walk,
    chunks: &ChunkRefs,
) -> Result<(), ViewFault>
    requires fits { IfSome (S.told shelf.old) (λ t. FitsRepo (told_files t) (repo_view repo.old) (cached_in repo.old)) }
    requires walk_fits { IfSome (S.told shelf.old) (λ t.
        FitsWalk (told_files t) (repo_view repo.old).log (repo_view repo.old).keys (walk_view walk.old)) }
    ensures ok { OnOk result (ShowsAll (λ f text. WritesFile f (repo_view repo.old) (walk_view walk.old) chunks.now text)
        (S.told shelf.old) (K.written out.old) (K.written out.new)) }
    ensures err { OnErr result (ShowsSome (λ f text. SomeContents f (repo_view repo.old) chunks.now text)
        (S.told shelf.old) (K.written out.old) (K.written out.new)) }
    ensures all { IfErr result (λ fault. IsOfArchive fault → ShowsAll (λ f text. SomeContents f (repo_view repo.old) chunks.now text)
        (S.told shelf.old) (K.written out.old) (K.written out.new)) }
    ensures refused { IfErr result (λ fault. IfSome (S.told shelf.old) (λ t.
        EndsFile (told_files t) (repo_view repo.old) (walk_view walk.old) chunks.now fault)) }
    ensures fits { IfSome (S.told shelf.new) (λ t. FitsRepo (told_files t) (repo_view repo.new) (cached_in repo.new)) }
    ensures kept { repo_view repo.new ≡ repo_view repo.old }
    ensures same { KeepsTold shelf_failed (S.told shelf.old) (S.told shelf.new) result }
    ensures source { HasCause shelf_failed (S.faults shelf.old) (S.faults shelf.new) result }
    ensures cause { HasCause view_failed (K.faults out.old) (K.faults out.new) result }
{
    write_contents(repo, shelf, out, chunks.as_slice())?;
    finish(repo, shelf, walk)
}

/// The chunks of the first item to come that has content and the path; none where there is none up to the end of the stream.
#[tactic(auto, using(crate::proofs::OutputLemmas::conversions))]
fn find_file<S: Shelf>(
    repo: &mut Repo,
    shelf: &mut S,
    walk: &mut Walk,
    path: &[u8],
) -> Result<Option<ChunkRefs>, ViewFault>
    requires fits { IfSome (S.told shelf.old) (λ t. FitsRepo (told_files t) (repo_view repo.old) (cached_in repo.old)) }
    requires walk_fits { IfSome (S.told shelf.old) (λ t.
        FitsWalk (told_files t) (repo_view repo.old).log (repo_view repo.old).keys (walk_view walk.old)) }
    ensures found { IfOk result (λ found. IfSome found (λ chunks. IfSome (S.told shelf.old) (λ t.
        FindsFile (told_files t) (repo_view repo.old) (walk_view walk.old) path.now chunks (walk_view walk.new)))) }
    ensures none { result ≡ Ok None → IfSome (S.told shelf.old) (λ t.
        FindsNone (told_files t) (repo_view repo.old) (walk_view walk.old) path.now None) }
    ensures refused { IfErr result (λ fault. IfSome (S.told shelf.old) (λ t.
        EndsBefore (told_files t) (repo_view repo.old) (walk_view walk.old) path.now fault)) }
    ensures fits { IfSome (S.told shelf.new) (λ t. FitsRepo (told_files t) (repo_view repo.new) (cached_in repo.new)) }
    ensures kept { repo_view repo.new ≡ repo_view repo.old }
    ensures same { KeepsTold shelf_failed (S.told shelf.old) (S.told shelf.new) result }
    ensures source { HasCause shelf_failed (S.faults shelf.old) (S.faults shelf.new) result }
    ensures still { IfErr result (λ fault. view_failed fault ≡ false) }
{
    for _ in 0..u64::MAX {
        match walk.step(repo, shelf)? {
            Some(item) => match file_in(item, path) {
                Some(chunks) => return Ok(Some(chunks)),
                None => {}
            },
            None => return Ok(None),
        }
    }
    Err(ViewFault::Memory)
}

/// The chunks of an item, where it has content and the path.
fn file_in(item: Item, path: &[u8]) -> Option<ChunkRefs>
    ensures chunks { result ≡ (if bytes_eq (path_of (item_view item)) path.now then (item_view item).chunks else None) }
{
    if path_of(&item) == path {
        return item.chunks;
    }
    None
}

/// Writes the contents of chunks, one after another.
#[tactic(auto, using(crate::proofs::OutputLemmas::conversions))]
fn write_contents<S: Shelf, K: Sink>(
    repo: &mut Repo,
    shelf: &mut S,
    out: &mut K,
    chunks: &[ChunkRef],
) -> Result<(), ViewFault>
    requires fits { IfSome (S.told shelf.old) (λ t. FitsRepo (told_files t) (repo_view repo.old) (cached_in repo.old)) }
    ensures ok { OnOk result (ShowsAll (λ f text. AllContents f (repo_view repo.old) chunks.now text)
        (S.told shelf.old) (K.written out.old) (K.written out.new)) }
    ensures err { OnErr result (ShowsSome (λ f text. SomeContents f (repo_view repo.old) chunks.now text)
        (S.told shelf.old) (K.written out.old) (K.written out.new)) }
    ensures all { IfErr result (λ fault. IsOfArchive fault → ShowsAll (λ f text. SomeContents f (repo_view repo.old) chunks.now text)
        (S.told shelf.old) (K.written out.old) (K.written out.new)) }
    ensures refused { IfErr result (λ fault. IfSome (S.told shelf.old) (λ t.
        EndsContents (told_files t) (repo_view repo.old) chunks.now fault)) }
    ensures fits { IfSome (S.told shelf.new) (λ t. FitsRepo (told_files t) (repo_view repo.new) (cached_in repo.new)) }
    ensures kept { repo_view repo.new ≡ repo_view repo.old }
    ensures same { KeepsTold shelf_failed (S.told shelf.old) (S.told shelf.new) result }
    ensures source { HasCause shelf_failed (S.faults shelf.old) (S.faults shelf.new) result }
    ensures cause { HasCause view_failed (K.faults out.old) (K.faults out.new) result }
{
    for place in 0..chunks.len() {
        let content = repo.content_ahead(shelf, &chunks[place], &chunks[place..])?;
        out.write(&content)?;
    }
    Ok(())
}

/// Reads the items that are to come, to the end of the stream.
#[tactic(auto, using(crate::proofs::OutputLemmas::conversions))]
fn finish<S: Shelf>(repo: &mut Repo, shelf: &mut S, walk: &mut Walk) -> Result<(), ViewFault>
    requires fits { IfSome (S.told shelf.old) (λ t. FitsRepo (told_files t) (repo_view repo.old) (cached_in repo.old)) }
    requires walk_fits { IfSome (S.told shelf.old) (λ t.
        FitsWalk (told_files t) (repo_view repo.old).log (repo_view repo.old).keys (walk_view walk.old)) }
    ensures end { OnOk result (IfSome (S.told shelf.old) (λ t.
        ReachesEnd (told_files t) (repo_view repo.old) (walk_view walk.old))) }
    ensures refused { IfErr result (λ fault. IfSome (S.told shelf.old) (λ t.
        EndsWalk (told_files t) (repo_view repo.old) (walk_view walk.old) fault)) }
    ensures fits { IfSome (S.told shelf.new) (λ t. FitsRepo (told_files t) (repo_view repo.new) (cached_in repo.new)) }
    ensures kept { repo_view repo.new ≡ repo_view repo.old }
    ensures same { KeepsTold shelf_failed (S.told shelf.old) (S.told shelf.new) result }
    ensures source { HasCause shelf_failed (S.faults shelf.old) (S.faults shelf.new) result }
    ensures still { IfErr result (λ fault. view_failed fault ≡ false) }
{
    for _ in 0..u64::MAX {
        match walk.step(repo, shelf)? {
            Some(item) => drop(item),
            None => return Ok(()),
        }
    }
    Err(ViewFault::Memory)
}
