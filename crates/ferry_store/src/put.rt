//! Objects sealed and put.
ghost use Rattle.std.specs.Prelude.{◌≡◌, ◌⊎◌, ◌<◌, ◌≤◌, ◌+◌, ◌-◌, ◌∷◌, ◌++◌, ◌↔◌, ℕ, List, [], true, false, drop, length, option_map};
ghost use Rattle.std.specs.Prelude.{Ok, IfOk, IfErr, IfSome, OnOk, IsErrOf, IsTrue};
ghost use Rattle.ferry_base.specs.Limits.{blob_limit, zero_id};
ghost use Rattle.ferry_blob.specs.Blob.{OpensTo, blocks, content_id, sealed};
ghost use Rattle.ferry_disk.specs.Device.{HasCause};
ghost use Rattle.ferry_disk.specs.Image.{settled};
ghost use Rattle.ferry_disk.specs.Moments.{Between};
ghost use Rattle.ferry_manifest.specs.Manifest.Text.{manifest_view};
ghost use Rattle.ferry_manifest.specs.Manifest.Writing.{IsPackable, manifest_text};
ghost use Rattle.ferry_nonce.specs.Counter.{IsExhausted};
ghost use Rattle.ferry_nonce.specs.declared.counter.Counter.{Counter};
ghost use Rattle.ferry_nonce.specs.declared.fault.NonceFault.TheVariants as Nonces;
ghost use Rattle.ferry_repo.specs.Opening.{mode_of};
ghost use Rattle.ferry_segment.specs.Entry.{PutEntry, DeleteEntry};
ghost use Rattle.ferry_stops.specs.Tells.{TellsNothing};
ghost use Rattle.ferry_store.specs.Causes.{Stops};
ghost use Rattle.ferry_store.specs.Dropping.{RefusesDrop};
ghost use Rattle.ferry_store.specs.Fault.{source_failed};
ghost use Rattle.ferry_store.specs.Limits.{BeginsFew, LeavesBoth, LimitsPut};
ghost use Rattle.ferry_store.specs.New.{IsPacked, PutsManifest, first_manifest};
ghost use Rattle.ferry_store.specs.Piece.{IsReady, content_in};
ghost use Rattle.ferry_store.specs.State.{Did, IsPlaced, KeepsSound, RefusesManifest, RefusesPut, TakesEntry};
ghost use Rattle.ferry_store.specs.Types.{FitsMode};
ghost use Rattle.ferry_store.specs.Writing.{WritesMore};
ghost use Rattle.ferry_store.specs.declared.fault.StoreRefusal.TheVariants as Refusal;
ghost use Rattle.ferry_write.specs.Room.{AreUsedUp, after_entry, must_begin};
ghost use Rattle.ferry_write.specs.Session.{OnlyAppends};
ghost use Rattle.ferry_write.specs.declared.fault.WriteFault.TheVariants as Writes;

use crate::fault::StoreRefusal;
use crate::key::Basis;
use crate::piece::seal_again;
use ferry_base::{Bytes, Id, ZERO_ID};
use ferry_blob::{Mode, blocks_of};
use ferry_config::Config;
use ferry_disk::{Depot, Entropy};
use ferry_log::Place;
use ferry_mac::Keys;
use ferry_manifest::{ArchiveRefs, Manifest, MetaFault, Names, write_manifest};
use ferry_msgpack::Value;
use ferry_nonce::Counter;
use ferry_write::Session;
use std::alloc::Global;

/// How many bytes of a blob stand before its content.
pub(crate) const HEAD: usize = 43;

/// Seals the content of a buffer with the next counter blocks, puts the blob under an id, and answers where the blob lies. The content stands behind byte
/// 43, or the buffer is its blob already, of other counter blocks perhaps.
pub(crate) fn put_object<D: Depot>(
    depot: &mut D,
    keys: &Keys,
    mode: Mode,
    session: &mut Session,
    counter: &mut Counter,
    id: &Id,
    is_blob: bool,
    buffer: &mut [u8],
) -> Result<Place, StoreRefusal>
    requires session { session.old.spent ≡ false }
    requires counter { counter.old.spent ≡ false }
    requires head { 43 ≤ length buffer.old }
    requires size { length buffer.old ≤ blob_limit }
    requires ready { IsReady keys.now mode is_blob buffer.old }
    requires settled { IfSome (D.told depot.old) (λ t. settled t.history.acts ≡ true) }
    requires mode { IfSome (D.told depot.old) (λ t. FitsMode t.history mode) }
    ensures did { Did (KeepsSound session.old counter.old)
        (λ _. TakesEntry session.old counter.old (PutEntry id.now (sealed keys.now mode counter.old.free (content_in keys.now is_blob buffer.old)))
        session.new counter.new)
        (D.told depot.old) (D.told depot.new) (D.faults depot.old) (D.faults depot.new) result }
    ensures untold { Between (D.told depot.old) (D.told depot.new) TellsNothing }
    ensures writes { Between (D.told depot.old) (D.told depot.new) (WritesMore
        ((name : List ℕ) → (name ≡ zero_id) ⊎ (name ≡ content_id keys.now (content_in keys.now is_blob buffer.old))
        → OpensTo keys.now name (sealed keys.now mode counter.old.free (content_in keys.now is_blob buffer.old)) (content_in keys.now is_blob buffer.old))
        (PutEntry id.now (sealed keys.now mode counter.old.free (content_in keys.now is_blob buffer.old)) ∷ []) session.old counter.old) }
    ensures placed { IfOk result (λ place. Between (D.told depot.old) (D.told depot.new)
        (IsPlaced session.old counter.old (sealed keys.now mode counter.old.free (content_in keys.now is_blob buffer.old)) place)) }
    ensures opens { OnOk result ((name : List ℕ) → (name ≡ zero_id) ⊎ (name ≡ content_id keys.now (content_in keys.now is_blob buffer.old))
        → OpensTo keys.now name (sealed keys.now mode counter.old.free (content_in keys.now is_blob buffer.old)) (content_in keys.now is_blob buffer.old)) }
    ensures session { OnOk result (session.new ≡ after_entry session.old (41 + length buffer.old)) }
    ensures counter { OnOk result (counter.new.spent ≡ false) }
    ensures refused { IfErr result (RefusesPut session.old (41 + length buffer.old)) }
    ensures exhausted { IsErrOf result (Refusal.Nonce Nonces.Exhausted) ↔ IsExhausted counter.old (blocks (length buffer.old - 43)) }
    ensures limits { LimitsPut result session.old counter.old (41 + length buffer.old) (blocks (length buffer.old - 43)) }
    ensures few { BeginsFew 1 session.old.last session.new.last (IsErrOf result (Refusal.Write Writes.Numbers)) }
    ensures limit { session.new.limit ≡ session.old.limit }
    ensures leaves { IfErr result (LeavesBoth session.old counter.old session.new counter.new (D.told depot.old) (D.told depot.new)) }
    ensures stops { IfErr result (λ refusal. Between (D.told depot.old) (D.told depot.new) (Stops session.old counter.old refusal)) }
{
    let blocks = blocks_of((buffer.len() - HEAD) as u64);
    let first = counter.draw(depot, blocks)?;
    seal_again(keys, mode, first, is_blob, buffer);
    let place = session.put(depot, id, buffer)?;
    Ok(place)
}

/// A manifest without archives.
fn no_archives(alloc: Global, timestamp: &[u8]) -> Result<Manifest, StoreRefusal>
    ensures manifest { IfOk result (λ manifest. manifest_view manifest ≡ first_manifest timestamp.now) }
    ensures refused { IfErr result (λ refusal. refusal ≡ Refusal.Memory) }
{
    Ok(Manifest {
        timestamp: Some(Bytes::new(Vec::from_slice(alloc, timestamp)?)),
        config: Value::Table(Vec::new(alloc)),
        item_keys: Names::new(Vec::new(alloc)),
        archives: ArchiveRefs::new(Vec::new(alloc)),
        more: Value::Table(Vec::new(alloc)),
    })
}

/// The packed bytes of a manifest without archives, behind room for the head of a blob. It takes 64 random bytes.
fn first_manifest<E: Entropy>(
    alloc: Global,
    entropy: &mut E,
    keys: &Keys,
    timestamp: &[u8],
) -> Result<Vec<u8>, StoreRefusal>
    ensures made { (salt : List ℕ) × ((length salt ≡ 64) × OnOk result (E.drawn entropy.new ≡ option_map (λ d. d ++ salt) (E.drawn entropy.old))
        × IfOk result (λ buffer. IsPacked keys.now salt (first_manifest timestamp.now) buffer.items)
        × IfErr result (RefusesManifest (length (manifest_text keys.now salt (first_manifest timestamp.now))))) }
    ensures cause { HasCause source_failed (E.faults entropy.old) (E.faults entropy.new) result }
{
    let manifest = no_archives(alloc, timestamp)?;
    packed(alloc, entropy, keys, &manifest)
}

/// The packed bytes of a manifest, behind room for the head of a blob. It takes 64 random bytes.
pub(crate) fn packed<E: Entropy>(
    alloc: Global,
    entropy: &mut E,
    keys: &Keys,
    manifest: &Manifest,
) -> Result<Vec<u8>, StoreRefusal>
    requires packable { IsPackable (manifest_view manifest.now) }
    ensures made { (salt : List ℕ) × ((length salt ≡ 64) × OnOk result (E.drawn entropy.new ≡ option_map (λ d. d ++ salt) (E.drawn entropy.old))
        × IfOk result (λ buffer. IsPacked keys.now salt (manifest_view manifest.now) buffer.items)
        × IfErr result (RefusesManifest (length (manifest_text keys.now salt (manifest_view manifest.now))))) }
    ensures cause { HasCause source_failed (E.faults entropy.old) (E.faults entropy.new) result }
{
    let mut salt = [0u8; 64];
    entropy.fill(&mut salt)?;
    match write_manifest(alloc, keys, manifest, &salt) {
        Ok(text) => behind_head(alloc, &text),
        Err(MetaFault::TooLarge) => Err(StoreRefusal::TooLarge),
        Err(_) => Err(StoreRefusal::Memory),
    }
}

/// A content behind room for the head of its blob.
pub(crate) fn behind_head(alloc: Global, content: &[u8]) -> Result<Vec<u8>, StoreRefusal>
    ensures buffer { IfOk result (λ buffer. (drop 43 buffer.items ≡ content.now) × (length buffer.items ≡ 43 + length content.now)) }
    ensures refused { IfErr result (λ refusal. refusal ≡ Refusal.Memory) }
{
    let mut buffer = Vec::from_slice(alloc, &[0; HEAD])?;
    buffer.extend_from_slice(content)?;
    Ok(buffer)
}

/// Where the key of these settings lies.
fn mode_of(config: &Config) -> Mode
    ensures mode { result ≡ mode_of config.now }
{
    if config.key.as_slice().is_empty() {
        Mode::Keyfile
    } else {
        Mode::Repokey
    }
}

/// Puts the first manifest of a repository.
pub(crate) fn put_manifest<D: Depot, E: Entropy>(
    alloc: Global,
    depot: &mut D,
    entropy: &mut E,
    basis: &Basis,
    timestamp: &[u8],
    counter: &mut Counter,
    session: &mut Session,
) -> Result<(), StoreRefusal>
    requires session { session.old.spent ≡ false }
    requires counter { counter.old.spent ≡ false }
    requires settled { IfSome (D.told depot.old) (λ t. settled t.history.acts ≡ true) }
    requires mode { IfSome (D.told depot.old) (λ t. FitsMode t.history (mode_of basis.now.config)) }
    ensures put { (salt : List ℕ) × ((length salt ≡ 64) × OnOk result (E.drawn entropy.new ≡ option_map (λ d. d ++ salt) (E.drawn entropy.old))
        × PutsManifest basis.now timestamp.now salt session.old counter.old session.new counter.new (D.told depot.old) (D.told depot.new)
        (D.faults depot.old) (D.faults depot.new) result) }
    ensures untold { Between (D.told depot.old) (D.told depot.new) TellsNothing }
    ensures unspent { OnOk result ((session.new.spent ≡ false) × (counter.new.spent ≡ false)) }
    ensures limit { session.new.limit ≡ session.old.limit }
    ensures cause { HasCause source_failed (E.faults entropy.old) (E.faults entropy.new) result }
{
    let mut buffer = first_manifest(alloc, entropy, &basis.keys, timestamp)?;
    let mode = mode_of(&basis.config);
    put_object(
        depot,
        &basis.keys,
        mode,
        session,
        counter,
        &ZERO_ID,
        false,
        &mut buffer,
    )?;
    Ok(())
}

/// Puts the DELETE of a chunk.
pub(crate) fn put_delete<D: Depot>(
    depot: &mut D,
    session: &mut Session,
    id: &Id,
) -> Result<(), StoreRefusal>
    requires session { session.old.spent ≡ false }
    ensures did { (counter : Counter) → Did (KeepsSound session.old counter)
        (λ _ h g. TakesEntry session.old counter (DeleteEntry id.now) session.new counter h g × OnlyAppends session.old h g)
        (D.told depot.old) (D.told depot.new) (D.faults depot.old) (D.faults depot.new) result }
    ensures untold { Between (D.told depot.old) (D.told depot.new) TellsNothing }
    ensures session { OnOk result (session.new ≡ after_entry session.old 41) }
    ensures limit { session.new.limit ≡ session.old.limit }
    ensures refused { IfErr result (RefusesDrop session.old) }
    ensures numbers { IsErrOf result (Refusal.Write Writes.Numbers)
        ↔ (IsTrue (must_begin session.old.last session.old.size session.old.limit 41) × AreUsedUp session.old.last) }
    ensures stops { (counter : Counter) → IfErr result (λ refusal. Between (D.told depot.old) (D.told depot.new) (Stops session.old counter refusal)) }
{
    session.delete(depot, id)?;
    Ok(())
}
