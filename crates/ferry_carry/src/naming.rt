//! The end of an archive: its record, its name in the manifest, and the commit of both.
ghost use Rattle.std.specs.Prelude.{◌≡◌, ◌≤◌, ◌⊎◌, ◌∷◌, ◌++◌, [], ℕ, Bool, List};
ghost use Rattle.std.specs.Prelude.{None, Ok, true, false, length, map, IfErr, IfOk, MatchResult, OnOk};
ghost use Rattle.ferry_base.specs.Limits.{content_limit};
ghost use Rattle.ferry_blob.specs.Blob.{content_id};
ghost use Rattle.ferry_piece.specs.Adding.{AddsOn, IsNoChunk};
ghost use Rattle.ferry_carry.specs.Copying.{IsReady};
ghost use Rattle.ferry_piece.specs.Fault.{random_failed};
ghost use Rattle.ferry_piece.specs.Gather.{chunks_of};
ghost use Rattle.ferry_carry.specs.Accepting.{NamesNew, named_next};
ghost use Rattle.ferry_carry.specs.Carrying.{Origin};
ghost use Rattle.ferry_carry.specs.Flight.{AcceptsOne, EndsCopy, IsFlown, NamesArchive, archive_adds};
ghost use Rattle.ferry_carry.specs.Progress.{IsAllCopied};
ghost use Rattle.ferry_piece.specs.Piece.{CountsOn};
ghost use Rattle.ferry_piece.specs.Puts.{Addition, ArePieces, IsCheckpoint, Record, Stream, addition};
ghost use Rattle.ferry_carry.specs.Naming.{BeginsRecord, Draws, PutsRecord, TaggedRecord, TagsDrawn, copied_archive, copied_in, entry_for, fixed_params};
ghost use Rattle.ferry_carry.specs.Refusals.{Leaves, RefusesEnd, RefusesRecordText};
ghost use Rattle.ferry_msgpack.specs.View.{value_view};
ghost use Rattle.ferry_disk.specs.Device.{HasCause};
ghost use Rattle.ferry_mac.specs.declared.keys.Keys.{Keys};
ghost use Rattle.ferry_manifest.specs.Manifest.Text.{ManifestText};
ghost use Rattle.ferry_manifest.specs.Manifest.Writing.{manifest_text};
ghost use Rattle.ferry_manifest.specs.declared.manifest.ArchiveRef.{ArchiveRef};
ghost use Rattle.ferry_manifest.specs.Record.Text.{archive_view};
ghost use Rattle.ferry_manifest.specs.Record.Writing.{IsPackableArchive, archive_text};
ghost use Rattle.ferry_next.specs.Next.{next_manifest, written_at};
ghost use Rattle.ferry_rechunk.specs.Cut.{cut};
ghost use Rattle.ferry_repo.specs.Archives.{archive_named};
ghost use Rattle.ferry_repo.specs.Opening.{repo_view};
ghost use Rattle.ferry_store.specs.Commit.{accepted_in};
ghost use Rattle.ferry_carry.specs.Calls.{CanEnd, IsOfCommit, AddsTo, CanCommit, LeavesUnnamed, DrawsRandom, CanTake, HasCommitted, OnlyAdds, IsTextOf};
ghost use Rattle.ferry_carry.specs.Calls.{CanWrite, CanAdd, CommitsThis};
ghost use Rattle.ferry_carry.specs.States.{target_state};
ghost use Rattle.ferry_carry.specs.Turns.{StopsEnding};

use crate::copy::Copy;
use crate::flight::Flight;
use crate::options::Carried;
use crate::time::time_for;
use ferry_base::{Bytes, Id};
use ferry_disk::{Depot, Entropy};
use ferry_item::ChunkRef;
use ferry_mac::Keys;
use ferry_manifest::{Archive, ArchiveRef, Ids, MetaFault, write_archive};
use ferry_msgpack::Value;
use ferry_piece::{CarryFault, add};
use ferry_repo::Repo;
use ferry_store::Store;
use std::alloc::{AllocError, Global};

/// The ids of chunks.
fn ids_of(alloc: Global, chunks: &[ChunkRef]) -> Result<Ids, AllocError>
    ensures ids { IfOk result (λ ids. ids ≡ map (λ chunk. chunk.id) chunks.now) }
{
    let mut ids = Vec::with_capacity(alloc, chunks.len())?;
    for place in 0..chunks.len() {
        let id = chunks[place].id;
        ids.push(id)?;
    }
    Ok(Ids::new(ids))
}

/// The parameters of a chunker that cuts pieces of `block` bytes: its name, the length, and that of a header.
fn fixed_params(alloc: Global, block: usize) -> Result<Value, AllocError>
    ensures params { IfOk result (λ params. value_view params ≡ fixed_params block) }
{
    let mut params = Vec::with_capacity(alloc, 3)?;
    params.push(Value::Raw(Vec::from_slice(alloc, b"fixed")?))?;
    params.push(Value::Number(block as i128))?;
    params.push(Value::Number(0))?;
    Ok(Value::Array(params))
}

/// Makes of a record that of an archive whose stream has these pieces, cut at `block`. After a refusal it may have the items all the same.
pub fn copied_archive(
    alloc: Global,
    archive: &mut Archive,
    block: usize,
    pieces: &[ChunkRef],
) -> Result<(), AllocError>
    requires packable { IsPackableArchive (archive_view archive.old) }
    ensures archive { OnOk result (archive_view archive.new ≡ copied_archive (archive_view archive.old) block (map (λ chunk. chunk.id) pieces.now)) }
    ensures packable { OnOk result (IsPackableArchive (archive_view archive.new)) }
{
    archive.items = ids_of(alloc, pieces)?;
    archive.params = Some(fixed_params(alloc, block)?);
    archive.tagged = true;
    Ok(())
}

/// The packed bytes of a record.
fn record_text(
    alloc: Global,
    keys: &Keys,
    archive: &Archive,
    salt: &[u8; 64],
) -> Result<Vec<u8>, CarryFault>
    requires packable { IsPackableArchive (archive_view archive.now) }
    ensures text { IfOk result (λ text. text.items ≡ archive_text keys.now salt.now (archive_view archive.now)) }
    ensures drawn { IfErr result (λ fault. random_failed fault ≡ false) }
    ensures refused { IsTextOf keys.now (archive_view archive.now) result }
{
    match write_archive(alloc, keys, archive, salt) {
        Ok(text) => Ok(text),
        Err(MetaFault::TooLarge) => Err(CarryFault::Record),
        Err(_) => Err(CarryFault::Memory),
    }
}

/// The record of an archive, tagged with 64 random bytes.
#[tactic(auto, using(ferry_piece::proofs::FaultLemmas::conversions))]
fn tagged_record<E: Entropy>(
    alloc: Global,
    keys: &Keys,
    entropy: &mut E,
    archive: &Archive,
) -> Result<Vec<u8>, CarryFault>
    requires packable { IsPackableArchive (archive_view archive.now) }
    ensures text { IfOk result (λ text. (salt : List ℕ) × (Draws salt (E.drawn entropy.old) (E.drawn entropy.new)
        × (text.items ≡ archive_text keys.now salt (archive_view archive.now)))) }
    ensures entropy { HasCause random_failed (E.faults entropy.old) (E.faults entropy.new) result }
    ensures refused { IsTextOf keys.now (archive_view archive.now) result }
{
    let mut salt = [0u8; 64];
    entropy.fill(&mut salt)?;
    record_text(alloc, keys, archive, &salt)
}

/// Adds a record, and answers its id.
fn add_record<D: Depot>(store: &mut Store, depot: &mut D, text: &[u8]) -> Result<Id, CarryFault>
    requires target { CanWrite (D.told depot.old) store.old }
    requires size { length text.now ≤ content_limit }
    ensures works { (put : Bool) × ((most : ℕ) → IsCheckpoint most → store.old.pending ≤ most
        → AddsOn most store.old (addition Record text.now put ∷ []) store.new
        (D.told depot.old) (D.told depot.new) (D.faults depot.old) (D.faults depot.new) result) }
    ensures id { IfOk result (λ id. id ≡ content_id (repo_view store.old.repo).keys text.now) }
    ensures target { OnlyAdds store.old (D.told depot.new) store.new result }
{
    let added = add(store, depot, text)?;
    Ok(added.id)
}

/// The entry of an archive whose record has another id.
fn entry_of(alloc: Global, named: &ArchiveRef, id: Id) -> Result<ArchiveRef, AllocError>
    ensures entry { IfOk result (λ entry. entry ≡ entry_for named.now id) }
{
    let name = Bytes::new(Vec::from_slice(alloc, named.name.as_slice())?);
    let time = Bytes::new(Vec::from_slice(alloc, named.time.as_slice())?);
    Ok(ArchiveRef { name, id, time })
}

/// Adds the record of an archive, with a tag over 64 random bytes, and answers its id; the archive isn't named by that.
#[tactic(auto, using(ferry_piece::proofs::FaultLemmas::conversions))]
pub fn put_record<D: Depot, E: Entropy>(
    alloc: Global,
    store: &mut Store,
    depot: &mut D,
    entropy: &mut E,
    archive: &Archive,
) -> Result<Id, CarryFault>
    requires target { CanWrite (D.told depot.old) store.old }
    requires packable { IsPackableArchive (archive_view archive.now) }
    ensures put { (more : List Addition) × (((most : ℕ) → IsCheckpoint most → store.old.pending ≤ most
        → AddsOn most store.old more store.new
        (D.told depot.old) (D.told depot.new) (D.faults depot.old) (D.faults depot.new) result)
        × (BeginsRecord (repo_view store.old.repo).keys (archive_view archive.now) more
        × PutsRecord (repo_view store.old.repo).keys (archive_view archive.now) more (E.drawn entropy.old) (E.drawn entropy.new) result)) }
    ensures left { (most : ℕ) → store.old.pending ≤ most → IfErr result (Leaves most store.old (D.told depot.new) store.new) }
    ensures refused { IfErr result (RefusesRecordText (repo_view store.old.repo).keys (archive_view archive.now)) }
    ensures target { AddsTo store.old (D.told depot.new) store.new result }
    ensures entropy { DrawsRandom (E.faults entropy.old) (E.faults entropy.new) result }
{
    let text = tagged_record(alloc, store.keys(), entropy, archive)?;
    add_record(store, depot, &text)
}

impl Copy {
    /// Adds what is left of the stream and the record, which has the stream's pieces as its items, and answers the record's id; the archive isn't
    /// named by that. After a refusal the record may have the items all the same.
    fn end_stream<D: Depot, E: Entropy>(
        &mut self,
        store: &mut Store,
        depot: &mut D,
        entropy: &mut E,
    ) -> Result<Id, CarryFault>
        requires stream { CanEnd self.old.stream }
        requires target { CanAdd self.old.stream.checkpoint (D.told depot.old) store.old }
        requires packable { IsPackableArchive (archive_view self.old.archive) }
        ensures ended { (last : List Addition) × ((more : List Addition) × (AddsOn self.old.stream.checkpoint store.old (last ++ more) store.new
            (D.told depot.old) (D.told depot.new) (D.faults depot.old) (D.faults depot.new) result
            × (ArePieces Stream (cut self.old.stream.cutter.block self.old.stream.cutter.piece) last
            × (BeginsRecord (repo_view store.old.repo).keys (copied_in (archive_view self.old.archive) self.old.block (self.old.stream.chunks.items
            ++ chunks_of (repo_view store.old.repo).keys (cut self.old.stream.cutter.block self.old.stream.cutter.piece))) more
            × (PutsRecord (repo_view store.old.repo).keys (copied_in (archive_view self.old.archive) self.old.block (self.old.stream.chunks.items
            ++ chunks_of (repo_view store.old.repo).keys (cut self.old.stream.cutter.block self.old.stream.cutter.piece))) more
            (E.drawn entropy.old) (E.drawn entropy.new) result
            × OnOk result (CountsOn Stream self.old.stream last self.new.stream)))))) }
        // Behind a refusal that isn't the target's the store can be used on.
        ensures left { IfErr result (Leaves self.old.stream.checkpoint store.old (D.told depot.new) store.new) }
        ensures refused { IfErr result (RefusesRecordText (repo_view store.old.repo).keys (copied_archive (archive_view self.old.archive)
            self.old.block (map (λ chunk. chunk.id) (self.old.stream.chunks.items
            ++ chunks_of (repo_view store.old.repo).keys (cut self.old.stream.cutter.block self.old.stream.cutter.piece))))) }
        ensures target { AddsTo store.old (D.told depot.new) store.new result }
        ensures entropy { DrawsRandom (E.faults entropy.old) (E.faults entropy.new) result }
        ensures kept { self.new.contents ≡ self.old.contents }
    {
        let pieces = self.stream.finish(store, depot)?;
        copied_archive(self.alloc, &mut self.archive, self.block, &pieces)?;
        put_record(self.alloc, store, depot, entropy, &self.archive)
    }
}

impl Flight {
    /// Names an archive whose record was added.
    fn name_record<D: Depot, E: Entropy>(
        &self,
        source: &Repo,
        store: &mut Store,
        depot: &mut D,
        entropy: &mut E,
        id: Id,
    ) -> Result<(), CarryFault>
        requires target { CanCommit (D.told depot.old) store.old }
        requires unnamed { archive_named self.now.named.name (accepted_in store.old).archives ≡ None }
        ensures works { NamesArchive (accepted_in store.old) (entry_for self.now.named id)
            (named_next self.now.options.timestamp (repo_view source.now) store.old self.now.named id)
            (target_state (D.told depot.old) (D.faults depot.old) store.old) (target_state (D.told depot.new) (D.faults depot.new) store.new) result }
        // Tagged with the salt that was drawn, what is accepted is no larger than the content of an object may be.
        ensures salt { OnOk result ((salt : List ℕ) × (Draws salt (E.drawn entropy.old) (E.drawn entropy.new)
            × (length (manifest_text (repo_view store.old.repo).keys salt (accepted_in store.new)) ≤ content_limit))) }
        ensures target { OnOk result (CommitsThis (named_next self.now.options.timestamp (repo_view source.now) store.old self.now.named id) store.old
            (D.told depot.new) store.new) }
        ensures refused { LeavesUnnamed (named_next self.now.options.timestamp (repo_view source.now) store.old self.now.named id) store.old
            (D.told depot.old) (D.told depot.new) store.new result }
        ensures refusal { IsOfCommit (E.faults entropy.old) (E.faults entropy.new) result }
    {
        let entry = entry_of(self.alloc, &self.named, id)?;
        let time = time_for(
            self.alloc,
            &self.options.timestamp,
            &source.manifest().timestamp,
            &store.manifest().timestamp,
        )?;
        commit_named(source, store, depot, entropy, entry, &time)
    }

    /// Ends an archive all of whose items were copied: adds what is left of its stream and its record, and commits it under its name. It answers
    /// the pieces that were put for it.
    pub(crate) fn end_copy<D: Depot, E: Entropy>(
        &self,
        copy: &mut Copy,
        source: &Repo,
        store: &mut Store,
        depot: &mut D,
        entropy: &mut E,
    ) -> Result<Carried, CarryFault>
        requires target { CanTake copy.old.contents.checkpoint (D.told depot.old) store.old }
        requires ready { IsReady copy.old }
        requires unnamed { archive_named self.now.named.name (accepted_in store.old).archives ≡ None }
        ensures works { (from : Origin) (added : List Addition) → IsAllCopied from self.now.named (D.told depot.old) store.old copy.old added
            → IsFlown from (repo_view source.now) self.now.options.timestamp self.now.named → (more : List Addition) × ((records : List TaggedRecord)
            × (EndsCopy from (archive_adds self.now.named.name added more records) (target_state (D.told depot.old) (D.faults depot.old) store.old)
            (target_state (D.told depot.new) (D.faults depot.new) store.new) result × MatchResult result (λ _. NamesNew self.now.options.timestamp
            (repo_view source.now) store.old self.now.named records store.new (E.drawn entropy.old) (E.drawn entropy.new)) (λ fault. IsNoChunk fault ⊎
            TagsDrawn (repo_view store.old.repo).keys more (E.drawn entropy.old) (E.drawn entropy.new)))) }
        ensures refused { (from : Origin) (added : List Addition) → IsAllCopied from self.now.named (D.told depot.old) store.old copy.old added
            → IfErr result (RefusesEnd from (D.told depot.old) (repo_view store.old.repo).keys self.now.named.name) }
        ensures target { OnOk result (HasCommitted store.old (D.told depot.new) store.new) }
        ensures refusal { IfErr result (StopsEnding copy.old.contents.checkpoint (repo_view source.now) self.now.options.timestamp store.old
            (D.told depot.new) store.new self.now.named) }
        ensures entropy { DrawsRandom (E.faults entropy.old) (E.faults entropy.new) result }
    {
        let id = copy.end_stream(store, depot, entropy)?;
        self.name_record(source, store, depot, entropy, id)?;
        Ok(Carried::of_pieces(copy.contents.put(), copy.stream.put().0))
    }
}

/// Accepts an archive whose record was added, and commits it.
fn commit_named<D: Depot, E: Entropy>(
    source: &Repo,
    store: &mut Store,
    depot: &mut D,
    entropy: &mut E,
    entry: ArchiveRef,
    timestamp: &[u8],
) -> Result<(), CarryFault>
    requires target { CanCommit (D.told depot.old) store.old }
    requires unnamed { archive_named entry.name (accepted_in store.old).archives ≡ None }
    ensures works { NamesArchive (accepted_in store.old) entry (written_at
        (next_manifest (accepted_in store.old) entry (repo_view source.now).manifest.item_keys) timestamp.now)
        (target_state (D.told depot.old) (D.faults depot.old) store.old) (target_state (D.told depot.new) (D.faults depot.new) store.new) result }
    // Tagged with the salt that was drawn, what is accepted is no larger than the content of an object may be.
    ensures salt { OnOk result ((salt : List ℕ) × (Draws salt (E.drawn entropy.old) (E.drawn entropy.new)
        × (length (manifest_text (repo_view store.old.repo).keys salt (accepted_in store.new)) ≤ content_limit))) }
    ensures target { OnOk result (CommitsThis (written_at (next_manifest (accepted_in store.old) entry (repo_view source.now).manifest.item_keys)
        timestamp.now) store.old (D.told depot.new) store.new) }
    ensures refused { LeavesUnnamed (written_at (next_manifest (accepted_in store.old) entry (repo_view source.now).manifest.item_keys)
        timestamp.now) store.old (D.told depot.old) (D.told depot.new) store.new result }
    ensures refusal { IsOfCommit (E.faults entropy.old) (E.faults entropy.new) result }
{
    store.name_archive(entry, source.manifest().item_keys.as_slice())?;
    commit(store, depot, entropy, timestamp)
}

/// Commits what was put and what was accepted.
#[tactic(auto, using(ferry_piece::proofs::FaultLemmas::conversions))]
fn commit<D: Depot, E: Entropy>(
    store: &mut Store,
    depot: &mut D,
    entropy: &mut E,
    timestamp: &[u8],
) -> Result<(), CarryFault>
    requires target { CanCommit (D.told depot.old) store.old }
    ensures works { (accepted : ManifestText) (entry : ArchiveRef) → AcceptsOne accepted store.old entry → NamesArchive accepted entry
        (written_at (accepted_in store.old) timestamp.now) (target_state (D.told depot.old) (D.faults depot.old) store.old)
        (target_state (D.told depot.new) (D.faults depot.new) store.new) result }
    // Tagged with the salt that was drawn, what is accepted is no larger than the content of an object may be.
    ensures salt { OnOk result ((salt : List ℕ) × (Draws salt (E.drawn entropy.old) (E.drawn entropy.new)
        × (length (manifest_text (repo_view store.old.repo).keys salt (accepted_in store.new)) ≤ content_limit))) }
    ensures target { OnOk result (CommitsThis (written_at (accepted_in store.old) timestamp.now) store.old (D.told depot.new) store.new) }
    ensures refused { LeavesUnnamed (written_at (accepted_in store.old) timestamp.now) store.old (D.told depot.old) (D.told depot.new) store.new
        result }
    ensures refusal { IsOfCommit (E.faults entropy.old) (E.faults entropy.new) result }
{
    store.commit(depot, entropy, timestamp)?;
    Ok(())
}
