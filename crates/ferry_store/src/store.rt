//! A repository that is written.
ghost use Rattle.std.specs.Prelude.{◌≡◌, ◌≢◌, ◌↔◌, ◌<◌, ◌≤◌, nat_lt, slice_index, ◌+◌, ◌++◌, ◌||◌};
ghost use Rattle.std.specs.Prelude.{ℕ, List, [], true, false, None, length, is_some, map, option_map, IsSome};
ghost use Rattle.std.specs.Prelude.{Ok, IfOk, IfErr, IfSome, IsErrOf, OnOk, OnErr, IsTrue};
ghost use Rattle.std.specs.Borrow.{Lends, sem};
ghost use Rattle.ferry_base.specs.Limits.{content_limit, zero_id};
ghost use Rattle.ferry_disk.specs.Device.{HasCause, told_files};
ghost use Rattle.ferry_disk.specs.Files.{file_at};
ghost use Rattle.ferry_disk.specs.Moments.{Between};
ghost use Rattle.ferry_disk.specs.declared.name.Name.TheVariants as FileName;
ghost use Rattle.ferry_manifest.specs.Manifest.Text.{manifest_view};
ghost use Rattle.ferry_manifest.specs.Manifest.Writing.{IsPackable, manifest_text};
ghost use Rattle.ferry_next.specs.Next.{next_manifest, without_entry, written_at};
ghost use Rattle.ferry_repo.specs.Archives.{archive_named};
ghost use Rattle.ferry_repo.specs.Cached.{no_contents};
ghost use Rattle.ferry_repo.specs.Objects.{IsMissing};
ghost use Rattle.ferry_repo.specs.Opening.{OpensBare, OpensFilesTo, cached_in, mode_of, repo_view};
ghost use Rattle.ferry_repo.specs.contracts.repo.Repo.{the_row as row_of_repo};
ghost use Rattle.ferry_stops.specs.Tells.{TellsNothing};
ghost use Rattle.ferry_store.specs.Adding.{IsAnswered, Adds, Checkpoints, RefusesAdd, id_under, pending_after};
ghost use Rattle.ferry_store.specs.Causes.{Stops, StopsAt};
ghost use Rattle.ferry_store.specs.Commit.{Commits, CommitsEntry, HasCommitted, IsUnspentBy, RefusesManifestOf, accepted_in, manifest_entry};
ghost use Rattle.ferry_blob.specs.Batch.{IsSealable, bytes_at, id_at};
ghost use Rattle.ferry_blob.specs.Blob.{OpensTo, blocks};
ghost use Rattle.ferry_store.specs.Content.{IsNew, Learns, RefusesNew, RefusesOld, blob_for};
ghost use Rattle.ferry_store.specs.Dropping.{CommitsWithout, Drops, IsWriting, OpenBareFits, RefusesDrop};
ghost use Rattle.ferry_store.specs.Fault.{depot_failed, source_failed, spends};
ghost use Rattle.ferry_store.specs.Limits.{BeginsFew, LeavesBoth, LimitsManifest, LimitsPut};
ghost use Rattle.ferry_store.specs.Standing.{with_manifest};
ghost use Rattle.ferry_store.specs.Piece.{HasSize, IsPrepared, Prepares, content_in};
ghost use Rattle.ferry_store.specs.State.{CommitsSound, Did, HasNumber, KeepsSound, RefusesCommit};
ghost use Rattle.ferry_store.specs.Store.{HasLimit, InitEach, InitFits, InitMakes, IsKnown, IsUnspent};
ghost use Rattle.ferry_store.specs.Store.{OpenEach, OpenFits, OpenLeaves, RefusesInit, RefusesOpen, StoreFits};
ghost use Rattle.ferry_store.specs.Store.{RefusesOpenBare};
ghost use Rattle.ferry_store.specs.Writing.{WritesCommit, WritesContent, WritesManifest};
ghost use Rattle.ferry_store.specs.contracts.store.Store.{the_row};
ghost use Rattle.ferry_store.specs.declared.fault.StoreRefusal.TheVariants as Refusal;
ghost use Rattle.ferry_write.specs.Front.{OnlyRemoves};
ghost use Rattle.ferry_write.specs.Room.{AreUsedUp, behind, must_begin};
ghost use Rattle.ferry_write.specs.declared.fault.WriteFault.TheVariants as Writes;

use crate::commit::commit_manifest;
use crate::content::{Added, open_content, put_content};
use crate::fault::StoreRefusal;
use crate::init::make_repository;
use crate::key::given_basis;
use crate::piece::{behind_blocks, bytes_at, is_among, name_each};
use crate::put::{behind_head, put_delete};
use crate::state::{begin_at, commit, expect_no_commit};
use ferry_base::{Bytes, Id, ZERO_ID};
use ferry_blob::{Mode, id_of, seal_many};
use ferry_disk::{Depot, Entropy};
use ferry_mac::Keys;
use ferry_manifest::{ArchiveRef, Manifest};
use ferry_next::{copy_manifest, drop_archive, has_archive, name_archive, set_timestamp};
use ferry_nonce::Counter;
use ferry_repo::{Repo, RepoFault, Secret};
use ferry_write::Session;
use std::alloc::Global;
use std::collections::BTreeSet;

/// A repository that is written: the repository as it was read, the session and the counter with which it is written, how many
/// contents were put since the last commit, the ids that were live at opening and whose contents were opened since, and the manifest that the next
/// commit writes.
///
/// It owns them all, and is used with the depot on which it was opened. There is no `Debug`, so that no message can show a key. After a
/// refusal that is want of memory or a failed target, or where the numbers of segments are used up, it is spent, and no further call with
/// the depot may be made.
#[derive(Drop)]
pub struct Store {
    alloc: Global,
    repo: Repo,
    session: Session,
    counter: Counter,
    pending: u64,
    opened: BTreeSet<Id>,
    accepted: Manifest,
    spent: bool,
}

impl Store {
    /// Makes a repository in a place where no segment is committed: with the key of the secret's key file where there is one, and else with
    /// a new key, which stands in `config`, sealed with the passphrase by so many iterations of PBKDF2.
    ///
    /// A file `nonce` that is there is kept and goes on. A refusal is the first in the order `Committed`, `Repo` of the key file, and `Nonce`
    /// of the text of the file `nonce`; then the devices, `TooLarge` of the timestamp, and `Nonce` where no blocks are left. `Memory` may come
    /// at any point.
    ///
    /// Source: BorgBackup 1.2, Internals, "Data structures and file formats".
    pub fn init<D: Depot, E: Entropy>(
        alloc: Global,
        depot: &mut D,
        entropy: &mut E,
        secret: &Secret,
        iterations: u32,
        timestamp: &[u8],
    ) -> Result<Store, StoreRefusal>
        requires iterations { (1 ≤ iterations) × (iterations ≤ 10000000) }
        // In a run without an act before, nothing was committed, and the files are made of the drawn bytes and the timestamp.
        ensures made { (bytes : List ℕ) × (OnOk result (E.drawn entropy.new ≡ option_map (λ d. d ++ bytes) (E.drawn entropy.old))
            × OnOk result (Between (D.told depot.old) (D.told depot.new) (InitMakes secret.now iterations timestamp.now bytes))) }
        // Each stop leaves nothing committed or the new repository, and counter blocks are kept; where a segment is committed, nothing is done.
        ensures did { Did (InitEach secret.now) InitFits (D.told depot.old) (D.told depot.new) (D.faults depot.old) (D.faults depot.new) result }
        // The files open under the secret to the repository of the store.
        ensures opened { IfOk result (λ store. IfSome (D.told depot.new) (λ t. OpensFilesTo (told_files t) secret.now (repo_view store.repo))) }
        // No line is told, also by a call that fails.
        ensures untold { Between (D.told depot.old) (D.told depot.new) TellsNothing }
        // Each refusal says why, and each but `Committed`, the devices and memory says as well that nothing is committed.
        ensures refused { IfErr result (λ refusal. IfSome (D.told depot.old) (λ t. RefusesInit secret.now timestamp.now t.history refusal)) }
        // The source of random bytes counted a fault exactly where it is the answer.
        ensures entropy { HasCause source_failed (E.faults entropy.old) (E.faults entropy.new) result }
        // No content is kept in memory, and no entry counts as put.
        ensures fresh { IfOk result (λ store. (cached_in store.repo ≡ no_contents) × (store.pending ≡ 0)) }
        // What is accepted is the manifest of the repository.
        ensures accepted { IfOk result (λ store. accepted_in store ≡ (repo_view store.repo).manifest) }
        ensures unspent { IfOk result IsUnspent }
        // The limit of the settings is the session's.
        ensures limit { IfOk result (λ store. IfSome (D.told depot.old) (λ t. t.history.acts ≡ [] → HasLimit store)) }
        // It has two segments at most.
        ensures few { IfOk result (λ store. behind store.session.last ≤ 2) }
        // The manifest can be packed.
        ensures packable { IfOk result (λ store. IsPackable (accepted_in store)) }
    {
        expect_no_commit(alloc, depot)?;
        let given = given_basis(alloc, secret)?;
        let (counter, session) = make_repository(
            alloc, depot, entropy, secret, iterations, timestamp, given,
        )?;
        let repo = Repo::open(alloc, depot, secret)?;
        let accepted = copy_manifest(alloc, repo.manifest())?;
        Ok(Store {
            alloc,
            repo,
            session,
            counter,
            pending: 0,
            opened: BTreeSet::new(alloc),
            accepted,
            spent: false,
        })
    }

    /// Opens a repository to be written. What a read gives of it is made stable, and the segments behind its last commit, which count for
    /// nothing, are removed.
    ///
    /// A refusal is the first in the order `Repo`, `Nonce`; the devices and `Memory` may come at any point.
    pub fn open<D: Depot>(
        alloc: Global,
        depot: &mut D,
        secret: &Secret,
    ) -> Result<Store, StoreRefusal>
        // The files open under the secret to the repository of the store.
        ensures opened { IfOk result (λ store. IfSome (D.told depot.old) (λ t. OpensFilesTo (told_files t) secret.now (repo_view store.repo))) }
        // The file `nonce` is there and has a number: a lost one isn't taken for the number 0.
        ensures numbered { OnOk result (IfSome (D.told depot.old) (λ t. HasNumber (told_files t))) }
        // Each stop shows what is committed, with the settings as they are, and counter blocks are kept; the store fits with what was committed.
        ensures did { Did OpenEach OpenFits (D.told depot.old) (D.told depot.new) (D.faults depot.old) (D.faults depot.new) result }
        // Where the files don't open, or there is no such number, nothing is done.
        ensures kept { Between (D.told depot.old) (D.told depot.new) (OpenLeaves secret.now) }
        // No line is told, also by a call that fails.
        ensures untold { Between (D.told depot.old) (D.told depot.new) TellsNothing }
        // At each moment each segment is as it was, or is gone.
        ensures removes { Between (D.told depot.old) (D.told depot.new) OnlyRemoves }
        // The repository doesn't open; or it does, and the file `nonce` is absent or has no number; or a device failed.
        ensures refused { IfErr result (λ refusal. IfSome (D.told depot.old) (λ t. RefusesOpen secret.now (told_files t) refusal)) }
        // No content is kept in memory, and no entry counts as put.
        ensures fresh { IfOk result (λ store. (cached_in store.repo ≡ no_contents) × (store.pending ≡ 0)) }
        // What is accepted is the manifest of the repository.
        ensures accepted { IfOk result (λ store. accepted_in store ≡ (repo_view store.repo).manifest) }
        // A refusal isn't one of the source of random bytes.
        ensures drawn { IfErr result (λ refusal. source_failed refusal ≡ false) }
        ensures unspent { IfOk result IsUnspent }
        // The limit of the settings is the session's.
        ensures limit { IfOk result HasLimit }
        // The manifest can be packed.
        ensures packable { IfOk result (λ store. IsPackable (accepted_in store)) }
    {
        let repo = Repo::open(alloc, depot, secret)?;
        let accepted = copy_manifest(alloc, repo.manifest())?;
        let transaction = repo.log().transaction();
        let limit = repo.config().limit;
        let (counter, session) = begin_at(alloc, depot, true, Some(transaction), limit)?;
        Ok(Store {
            alloc,
            repo,
            session,
            counter,
            pending: 0,
            opened: BTreeSet::new(alloc),
            accepted,
            spent: false,
        })
    }

    /// Opens a repository to be written, also where its manifest doesn't open: then the manifest has no archives and no names, and isn't dated, and
    /// the second part is the fault, of the object under the zero id or of the manifest in it. The rest is as of `open`.
    pub fn open_bare<D: Depot>(
        alloc: Global,
        depot: &mut D,
        secret: &Secret,
    ) -> Result<(Store, Option<RepoFault>), StoreRefusal>
        // The files open under the secret to the repository of the store, or all of it but its manifest does, which is refused so.
        ensures opened { IfOk result (λ both. IfSome (D.told depot.old) (λ t. OpensBare (told_files t) secret.now (repo_view both.0.repo) both.1)) }
        // The file `nonce` is there and has a number.
        ensures numbered { OnOk result (IfSome (D.told depot.old) (λ t. HasNumber (told_files t))) }
        // As of `open`; beside a fault the store fits whatever is committed as its manifest.
        ensures did { Did OpenEach OpenBareFits (D.told depot.old) (D.told depot.new) (D.faults depot.old) (D.faults depot.new) result }
        ensures untold { Between (D.told depot.old) (D.told depot.new) TellsNothing }
        // As of `open`, and no fault of the manifest is among them.
        ensures refused { IfErr result (λ refusal. IfSome (D.told depot.old) (λ t. RefusesOpenBare secret.now (told_files t) refusal)) }
        ensures fresh { IfOk result (λ both. (cached_in both.0.repo ≡ no_contents) × (both.0.pending ≡ 0)) }
        ensures accepted { IfOk result (λ both. accepted_in both.0 ≡ (repo_view both.0.repo).manifest) }
        ensures drawn { IfErr result (λ refusal. source_failed refusal ≡ false) }
        ensures unspent { IfOk result (λ both. IsUnspent both.0) }
        ensures limit { IfOk result (λ both. HasLimit both.0) }
        ensures packable { IfOk result (λ both. IsPackable (accepted_in both.0)) }
    {
        let (repo, fault) = Repo::open_bare(alloc, depot, secret)?;
        let accepted = copy_manifest(alloc, repo.manifest())?;
        let after = Some(repo.log().transaction());
        let limit = repo.config().limit;
        let (counter, session) = begin_at(alloc, depot, true, after, limit)?;
        let store = Store {
            alloc,
            repo,
            session,
            counter,
            pending: 0,
            opened: BTreeSet::new(alloc),
            accepted,
            spent: false,
        };
        Ok((store, fault))
    }

    /// Lends the repository. What stands there when the loan ends is the store's repository from then on.
    pub fn repo(&mut self) -> &mut Repo
        ensures* lends { sem 𝓛 (Lends the_row row_of_repo self.entry result (λ w. record self.old { repo = w })) }
        // What is lent is the store's repository.
        ensures repo { result.now ≡ self.old.repo }
    {
        &mut self.repo
    }

    /// The secrets of the repository.
    pub fn keys(&self) -> &Keys
        ensures keys { result.now ≡ (repo_view self.now.repo).keys }
    {
        self.repo.keys()
    }

    /// Where the key of the repository is.
    pub fn mode(&self) -> Mode
        ensures mode { result ≡ mode_of (repo_view self.now.repo).config }
    {
        self.repo.mode()
    }

    /// The manifest that was committed last.
    pub fn manifest(&self) -> &Manifest
        ensures manifest { manifest_view result.now ≡ (repo_view self.now.repo).manifest }
    {
        self.repo.manifest()
    }

    /// Whether `add` of a content would put it: its id was neither live when the store was opened, nor was it put since.
    pub fn would_put(&self, content: &[u8]) -> bool
        ensures new { IsTrue result ↔ IsNew (repo_view self.now.repo) (id_under self.now content.now) }
    {
        self.is_new(&id_of(self.repo.keys(), content))
    }

    /// Whether a content of this id would be put, as `would_put` says it of a content.
    pub fn would_put_id(&self, id: &Id) -> bool
        ensures new { IsTrue result ↔ IsNew (repo_view self.now.repo) id.now }
    {
        self.is_new(id)
    }

    /// Whether a content of this id is there, and was put or opened since the store was opened: `add` of it would answer without a call of
    /// the depot.
    pub fn knows(&self, id: &Id) -> bool
        ensures answered { IsTrue result → IsAnswered self.now id.now }
    {
        !self.is_new(id) && self.is_known(id)
    }

    /// Prepares up to 64 contents, each of which stands behind byte 43 of its buffer: their ids are worked out side by side, and the first of them that are
    /// new are sealed side by side, with the counter blocks that they will have where they are added next, one after another. It answers how many are
    /// blobs then. No device is called, and nothing is allocated.
    ///
    /// Source: BorgBackup 1.2, Internals, "Data structures and file formats", Encryption.
    pub fn prepare(&self, buffers: &mut [Vec<u8>], ids: &mut [Id]) -> usize
        requires places { length buffers.old ≤ 64 }
        requires ids { length ids.old ≡ length buffers.old }
        requires sizes { (k : ℕ) → k < length buffers.old → HasSize (bytes_at buffers.old k) }
        ensures within { result ≤ length buffers.old }
        // Each is prepared, and has the content that it had.
        ensures prepared { (k : ℕ) → k < length buffers.old
            → Prepares (repo_view self.now.repo) (bytes_at buffers.old k) (id_at ids.new k) (nat_lt k result) (bytes_at buffers.new k) }
    {
        let keys = self.repo.keys();
        name_each(keys, buffers, ids);
        let mut nonces = [0u64; 64];
        let count = self.foresee(ids, buffers, &mut nonces);
        seal_many(
            keys,
            self.repo.mode(),
            &nonces[..count],
            &mut buffers[..count],
        );
        count
    }

    /// How many of the first contents would be put, each under an id of its own, and from which counter blocks on.
    fn foresee(&self, ids: &[Id], buffers: &[Vec<u8>], nonces: &mut [u64; 64]) -> usize
        requires places { length buffers.now ≤ 64 }
        requires ids { length ids.now ≡ length buffers.now }
        requires sizes { (k : ℕ) → k < length buffers.now → HasSize (bytes_at buffers.now k) }
        ensures within { result ≤ length buffers.now }
        ensures sealable { (k : ℕ) → k < result → IsSealable (slice_index nonces.new k) (bytes_at buffers.now k) }
    {
        let mut free = self.counter.free();
        for place in 0..buffers.len() {
            let Some(behind) = behind_blocks(free, bytes_at(buffers, place)) else {
                return place;
            };
            if !self.is_new(&ids[place]) || is_among(&ids[..place], &ids[place]) {
                return place;
            }
            nonces[place] = free;
            free = behind;
        }
        buffers.len()
    }

    /// Adds a content of at most 20971436 bytes: it is sealed and put where its id isn't live, and else it is opened, once for a store. A
    /// content that the store knows is answered without a call of the depot.
    pub fn add<D: Depot>(&mut self, depot: &mut D, content: &[u8]) -> Result<Added, StoreRefusal>
        requires size { length content.now ≤ content_limit }
        requires unspent { IsUnspent self.old }
        requires fits { IfSome (D.told depot.old) (λ t. StoreFits false self.old t.history) }
        // Each stop shows what was committed, and counter blocks are kept; a store that fits fits with what was put.
        ensures did { Did (KeepsSound self.old.session self.old.counter) (Adds self.old content.now self.new)
            (D.told depot.old) (D.told depot.new) (D.faults depot.old) (D.faults depot.new) result }
        // No line is told, also by a call that fails.
        ensures untold { Between (D.told depot.old) (D.told depot.new) TellsNothing }
        // At each moment the segments have a front of what was written, and of the entry of a new content behind it.
        ensures writes { Between (D.told depot.old) (D.told depot.new) (WritesContent self.old content.now) }
        // The id is that of the content under the keys of the repository.
        ensures id { IfOk result (λ added. added.id ≡ id_under self.old content.now) }
        // The content was put exactly where it was new.
        ensures new { IfOk result (λ added. IsTrue added.new ↔ IsNew (repo_view self.old.repo) (id_under self.old content.now)) }
        // The store knows the id from then on.
        ensures known { OnOk result (IsKnown self.new (id_under self.old content.now)) }
        // What the store knows is answered without a call of the depot.
        ensures answered { IsKnown self.old (id_under self.old content.now) → IfSome (D.told depot.old) (λ t. (depot.new ≡ depot.old)
            × (result ≡ Ok (record { id = id_under self.old content.now; new = false }))) }
        // The repository is the same, but that it has learnt the place of a content that was put.
        ensures repo { IfOk result (λ added. Learns (repo_view self.old.repo) added.id added.new (repo_view self.new.repo)) }
        // What is put opens to the content.
        ensures opens { IfOk result (λ added. IsTrue added.new → OpensTo (repo_view self.old.repo).keys (id_under self.old content.now)
            (blob_for (repo_view self.old.repo) self.old.counter content.now) content.now) }
        // What was accepted is the same.
        ensures accepted { self.new.accepted ≡ self.old.accepted }
        // One more entry counts as put where the content was put.
        ensures pending { IfOk result (λ added. self.new.pending ≡ pending_after self.old.pending added.new) }
        // The depot failed, the blob of a live id breaks a rule, or a new content has no counter blocks or no segment left.
        ensures refused { IfErr result (λ refusal. IfSome (D.told depot.old) (λ t. RefusesAdd self.old content.now (told_files t) refusal)) }
        // One segment begins at most.
        ensures few { BeginsFew 1 self.old.session.last self.new.session.last (IsErrOf result (Refusal.Write Writes.Numbers)) }
        // A new content is refused exactly where no blocks, or else no segment, are left for it.
        ensures limits { IsNew (repo_view self.old.repo) (id_under self.old content.now)
            → LimitsPut result self.old.session self.old.counter (84 + length content.now) (blocks (length content.now)) }
        // What a refusal says of the depot's files as they are read behind the call.
        ensures stops { IfErr result (λ refusal. IfSome (D.told depot.new)
            (λ t. StopsAt t.history.start (told_files t) (repo_view self.old.repo).keys refusal)) }
        // A refusal isn't one of the source of random bytes.
        ensures drawn { IfErr result (λ refusal. source_failed refusal ≡ false) }
        // After an answer the store isn't spent.
        ensures unspent { OnOk result (IsUnspent self.new) }
        // A refusal that doesn't spend the store leaves it and the files as they were.
        ensures kept { IfErr result (IsUnspentBy self.old self.new (D.told depot.old) (D.told depot.new)) }
        // The limit of the settings is the session's.
        ensures limit { HasLimit self.old → HasLimit self.new }
        // After a refusal it is exactly where that is memory, a failed target or used up numbers.
        ensures spent { IfErr result (λ refusal. self.new.spent ≡ spends refusal) }
    {
        let id = id_of(self.repo.keys(), content);
        if self.is_new(&id) {
            return match behind_head(self.alloc, content) {
                Ok(mut buffer) => self.add_new(depot, id, false, &mut buffer),
                Err(refusal) => Err(self.spend(refusal)),
            };
        }
        if self.is_known(&id) {
            return Ok(Added { id, new: false });
        }
        self.add_old(depot, id, &[])
    }

    /// Adds the content of a buffer that `prepare` has prepared, as `add` does. Where the buffer is a blob already, and of the counter blocks
    /// that are free now, it is put as it is; and else it is sealed, in place. What stands in the buffer behind the call isn't said. `later` are ids
    /// of contents that are added next: where this one is opened, those of them that will be are opened beside it. Only time depends on them.
    pub fn add_piece<D: Depot>(
        &mut self,
        depot: &mut D,
        id: Id,
        is_blob: bool,
        buffer: &mut [u8],
        later: &[Id],
    ) -> Result<Added, StoreRefusal>
        requires prepared { IsPrepared (repo_view self.old.repo) id is_blob buffer.old }
        requires unspent { IsUnspent self.old }
        requires fits { IfSome (D.told depot.old) (λ t. StoreFits false self.old t.history) }
        // Each stop shows what was committed, and counter blocks are kept; a store that fits fits with what was put.
        ensures did { Did (KeepsSound self.old.session self.old.counter) (Adds self.old (content_in (repo_view self.old.repo).keys is_blob buffer.old) self.new)
            (D.told depot.old) (D.told depot.new) (D.faults depot.old) (D.faults depot.new) result }
        // No line is told, also by a call that fails.
        ensures untold { Between (D.told depot.old) (D.told depot.new) TellsNothing }
        // At each moment the segments have a front of what was written, and of the entry of a new content behind it.
        ensures writes { Between (D.told depot.old) (D.told depot.new) (WritesContent self.old (content_in (repo_view self.old.repo).keys is_blob buffer.old)) }
        // The id is that of the content under the keys of the repository.
        ensures id { IfOk result (λ added. added.id ≡ id_under self.old (content_in (repo_view self.old.repo).keys is_blob buffer.old)) }
        // The content was put exactly where it was new.
        ensures new { IfOk result (λ added. IsTrue added.new ↔ IsNew (repo_view self.old.repo) (id_under self.old (content_in (repo_view
            self.old.repo).keys is_blob buffer.old))) }
        // The store knows the id from then on.
        ensures known { OnOk result (IsKnown self.new (id_under self.old (content_in (repo_view self.old.repo).keys is_blob buffer.old))) }
        // What the store knows is answered without a call of the depot.
        ensures answered { IsKnown self.old (id_under self.old (content_in (repo_view self.old.repo).keys is_blob buffer.old)) → IfSome (D.told depot.old)
            (λ t. (depot.new ≡ depot.old)
            × (result ≡ Ok (record { id = id_under self.old (content_in (repo_view self.old.repo).keys is_blob buffer.old); new = false }))) }
        // The repository is the same, but that it has learnt the place of a content that was put.
        ensures repo { IfOk result (λ added. Learns (repo_view self.old.repo) added.id added.new (repo_view self.new.repo)) }
        // What is put opens to the content.
        ensures opens { IfOk result (λ added. IsTrue added.new → OpensTo (repo_view self.old.repo).keys (id_under self.old (content_in (repo_view
            self.old.repo).keys is_blob buffer.old))
            (blob_for (repo_view self.old.repo) self.old.counter (content_in (repo_view self.old.repo).keys is_blob buffer.old)) (content_in (repo_view
            self.old.repo).keys is_blob buffer.old)) }
        // What was accepted is the same.
        ensures accepted { self.new.accepted ≡ self.old.accepted }
        // One more entry counts as put where the content was put.
        ensures pending { IfOk result (λ added. self.new.pending ≡ pending_after self.old.pending added.new) }
        // The depot failed, the blob of a live id breaks a rule, or a new content has no counter blocks or no segment left.
        ensures refused { IfErr result (λ refusal. IfSome (D.told depot.old) (λ t. RefusesAdd self.old (content_in (repo_view self.old.repo).keys is_blob
            buffer.old) (told_files t) refusal)) }
        // One segment begins at most.
        ensures few { BeginsFew 1 self.old.session.last self.new.session.last (IsErrOf result (Refusal.Write Writes.Numbers)) }
        // A new content is refused exactly where no blocks, or else no segment, are left for it.
        ensures limits { IsNew (repo_view self.old.repo) (id_under self.old (content_in (repo_view self.old.repo).keys is_blob buffer.old))
            → LimitsPut result self.old.session self.old.counter (84 + length (content_in (repo_view self.old.repo).keys is_blob buffer.old)) (blocks
            (length (content_in (repo_view self.old.repo).keys is_blob buffer.old))) }
        // What a refusal says of the depot's files as they are read behind the call.
        ensures stops { IfErr result (λ refusal. IfSome (D.told depot.new)
            (λ t. StopsAt t.history.start (told_files t) (repo_view self.old.repo).keys refusal)) }
        // A refusal isn't one of the source of random bytes.
        ensures drawn { IfErr result (λ refusal. source_failed refusal ≡ false) }
        // After an answer the store isn't spent.
        ensures unspent { OnOk result (IsUnspent self.new) }
        // A refusal that doesn't spend the store leaves it and the files as they were.
        ensures kept { IfErr result (IsUnspentBy self.old self.new (D.told depot.old) (D.told depot.new)) }
        // The limit of the settings is the session's.
        ensures limit { HasLimit self.old → HasLimit self.new }
        // After a refusal it is exactly where that is memory, a failed target or used up numbers.
        ensures spent { IfErr result (λ refusal. self.new.spent ≡ spends refusal) }
    {
        if self.is_new(&id) {
            return self.add_new(depot, id, is_blob, buffer);
        }
        if self.is_known(&id) {
            return Ok(Added { id, new: false });
        }
        self.add_old(depot, id, later)
    }

    /// Adds the content of a buffer, whose id isn't live.
    fn add_new<D: Depot>(
        &mut self,
        depot: &mut D,
        id: Id,
        is_blob: bool,
        buffer: &mut [u8],
    ) -> Result<Added, StoreRefusal>
        requires unspent { IsUnspent self.old }
        requires prepared { IsPrepared (repo_view self.old.repo) id is_blob buffer.old }
        requires new { IsNew (repo_view self.old.repo) id }
        requires fits { IfSome (D.told depot.old) (λ t. StoreFits false self.old t.history) }
        ensures did { Did (KeepsSound self.old.session self.old.counter) (Adds self.old (content_in (repo_view self.old.repo).keys is_blob buffer.old) self.new)
            (D.told depot.old) (D.told depot.new) (D.faults depot.old) (D.faults depot.new) result }
        ensures untold { Between (D.told depot.old) (D.told depot.new) TellsNothing }
        ensures writes { Between (D.told depot.old) (D.told depot.new) (WritesContent self.old (content_in (repo_view self.old.repo).keys is_blob buffer.old)) }
        ensures added { IfOk result (λ added. added ≡ record { id = id; new = true }) }
        ensures known { OnOk result (IsKnown self.new id) }
        ensures repo { OnOk result (Learns (repo_view self.old.repo) id true (repo_view self.new.repo)) }
        ensures opens { OnOk result (OpensTo (repo_view self.old.repo).keys id (blob_for (repo_view self.old.repo) self.old.counter (content_in (repo_view
            self.old.repo).keys is_blob buffer.old)) (content_in (repo_view self.old.repo).keys is_blob buffer.old)) }
        ensures accepted { self.new.accepted ≡ self.old.accepted }
        ensures pending { OnOk result (self.new.pending ≡ pending_after self.old.pending true) }
        ensures refused { IfErr result (RefusesNew self.old.session self.old.counter (content_in (repo_view self.old.repo).keys is_blob buffer.old)) }
        ensures limits { LimitsPut result self.old.session self.old.counter (84 + length (content_in (repo_view self.old.repo).keys is_blob buffer.old))
            (blocks (length (content_in (repo_view self.old.repo).keys is_blob buffer.old))) }
        ensures few { BeginsFew 1 self.old.session.last self.new.session.last (IsErrOf result (Refusal.Write Writes.Numbers)) }
        ensures stops { IfErr result (λ refusal. IfSome (D.told depot.new)
            (λ t. StopsAt t.history.start (told_files t) (repo_view self.old.repo).keys refusal)) }
        ensures unspent { OnOk result (IsUnspent self.new) }
        // A refusal that doesn't spend the store leaves it and the files as they were.
        ensures kept { IfErr result (IsUnspentBy self.old self.new (D.told depot.old) (D.told depot.new)) }
        // The limit of the settings is the session's.
        ensures limit { HasLimit self.old → HasLimit self.new }
        ensures spent { IfErr result (λ refusal. self.new.spent ≡ spends refusal) }
    {
        let put = put_content(
            depot,
            &mut self.repo,
            &mut self.session,
            &mut self.counter,
            &id,
            is_blob,
            buffer,
        );
        match put {
            Ok(()) => {
                self.pending = self.pending.saturating_add(1);
                Ok(Added { id, new: true })
            }
            Err(refusal) => Err(self.spend(refusal)),
        }
    }

    /// Adds a content whose id was live at opening and wasn't opened since. Those of `later` that will be opened are read with it.
    fn add_old<D: Depot>(
        &mut self,
        depot: &mut D,
        id: Id,
        later: &[Id],
    ) -> Result<Added, StoreRefusal>
        requires unspent { IsUnspent self.old }
        requires chunk { id ≢ zero_id }
        requires unknown { IsKnown self.old id → ⊥ }
        requires live { IsMissing (repo_view self.old.repo).log id → ⊥ }
        requires fits { IfSome (D.told depot.old) (λ t. StoreFits false self.old t.history) }
        ensures did { (content : List ℕ) → Did (KeepsSound self.old.session self.old.counter) (Adds self.old content self.new)
            (D.told depot.old) (D.told depot.new) (D.faults depot.old) (D.faults depot.new) result }
        ensures untold { Between (D.told depot.old) (D.told depot.new) TellsNothing }
        ensures writes { (content : List ℕ) → Between (D.told depot.old) (D.told depot.new) (WritesContent self.old content) }
        ensures added { IfOk result (λ added. added ≡ record { id = id; new = false }) }
        ensures known { OnOk result (IsKnown self.new id) }
        ensures repo { repo_view self.new.repo ≡ repo_view self.old.repo }
        ensures accepted { self.new.accepted ≡ self.old.accepted }
        ensures pending { self.new.pending ≡ self.old.pending }
        ensures refused { IfErr result (λ refusal. IfSome (D.told depot.old) (λ t. RefusesOld (told_files t) (repo_view self.old.repo) id refusal)) }
        ensures few { BeginsFew 0 self.old.session.last self.new.session.last (IsErrOf result (Refusal.Write Writes.Numbers)) }
        ensures stops { IfErr result (λ refusal. IfSome (D.told depot.new)
            (λ t. StopsAt t.history.start (told_files t) (repo_view self.old.repo).keys refusal)) }
        ensures drawn { IfErr result (λ refusal. source_failed refusal ≡ false) }
        ensures unspent { OnOk result (IsUnspent self.new) }
        // A refusal that doesn't spend the store leaves it and the files as they were.
        ensures kept { IfErr result (IsUnspentBy self.old self.new (D.told depot.old) (D.told depot.new)) }
        // The limit of the settings is the session's.
        ensures limit { HasLimit self.old → HasLimit self.new }
        ensures spent { IfErr result (λ refusal. self.new.spent ≡ spends refusal) }
    {
        match open_content(depot, &mut self.repo, &mut self.opened, id, later) {
            Ok(()) => Ok(Added { id, new: false }),
            Err(refusal) => Err(self.spend(refusal)),
        }
    }

    /// Commits what was put. The manifest is the one that was committed, so that no archive is new.
    pub fn checkpoint<D: Depot>(&mut self, depot: &mut D) -> Result<(), StoreRefusal>
        requires unspent { IsUnspent self.old }
        // Each stop shows what was committed before, or all that was put too, and counter blocks are kept.
        ensures did { Did (CommitsSound self.old.session self.old.counter) (λ _. Checkpoints self.old self.new)
            (D.told depot.old) (D.told depot.new) (D.faults depot.old) (D.faults depot.new) result }
        // No line is told, also by a call that fails.
        ensures untold { Between (D.told depot.old) (D.told depot.new) TellsNothing }
        // At each moment the segments have a front of what was written, and of a COMMIT behind it.
        ensures writes { Between (D.told depot.old) (D.told depot.new) (WritesCommit self.old.session self.old.counter) }
        // The repository is as it was, its manifest too.
        ensures repo { self.new.repo ≡ self.old.repo }
        // What was accepted is the same.
        ensures accepted { self.new.accepted ≡ self.old.accepted }
        // No entry counts as put.
        ensures pending { OnOk result (self.new.pending ≡ 0) }
        // The depot failed, or the numbers of segments are used up.
        ensures refused { IfErr result (RefusesCommit self.old.session) }
        // What a refusal says of the depot's files as they are read behind the call, where the store fits.
        ensures stops { IfSome (D.told depot.old) (λ t. StoreFits false self.old t.history)
            → IfErr result (λ refusal. IfSome (D.told depot.new) (λ t. StopsAt t.history.start (told_files t) (repo_view self.old.repo).keys refusal)) }
        // One segment begins at most.
        ensures few { BeginsFew 1 self.old.session.last self.new.session.last (IsErrOf result (Refusal.Write Writes.Numbers)) }
        // They are exactly where no number is left.
        ensures numbers { IsErrOf result (Refusal.Write Writes.Numbers) ↔ AreUsedUp self.old.session.last }
        // After an answer the store isn't spent.
        ensures unspent { OnOk result (IsUnspent self.new) }
        // The limit of the settings is the session's.
        ensures limit { HasLimit self.old → HasLimit self.new }
        // After a refusal it is.
        ensures spent { OnErr result (self.new.spent ≡ true) }
    {
        match commit(depot, &mut self.session) {
            Ok(()) => {
                self.pending = 0;
                Ok(())
            }
            Err(refusal) => Err(self.spend(refusal)),
        }
    }

    /// Takes a manifest that was committed, which was written at this time.
    fn take_manifest(&mut self, manifest: Manifest, timestamp: Bytes)
        requires packable { IsPackable (manifest_view manifest) }
        ensures taken { self.new ≡ record self.old { repo = self.new.repo; accepted = self.new.accepted; pending = 0 } }
        ensures accepted { accepted_in self.new ≡ written_at (accepted_in self.old) timestamp }
        ensures repo { repo_view self.new.repo ≡ record (repo_view self.old.repo) { manifest = manifest_view manifest } }
        ensures cached { cached_in self.new.repo ≡ cached_in self.old.repo }
    {
        self.repo.renew(manifest);
        set_timestamp(&mut self.accepted, timestamp);
        self.pending = 0;
    }

    /// Commits a copy of the manifest that was accepted, written at this time, and answers it and a copy of the time.
    fn commit_accepted<D: Depot, E: Entropy>(
        &mut self,
        depot: &mut D,
        entropy: &mut E,
        timestamp: &[u8],
    ) -> Result<(Manifest, Bytes), StoreRefusal>
        requires unspent { IsUnspent self.old }
        requires packable { IsPackable (accepted_in self.old) }
        requires fits { IfSome (D.told depot.old) (λ t. IsWriting self.old t.history) }
        ensures committed { (salt : List ℕ) × ((length salt ≡ 64) × OnOk result (E.drawn entropy.new ≡ option_map (λ d. d ++ salt) (E.drawn entropy.old))
            × Did (CommitsEntry (with_manifest (repo_view self.old.repo) (written_at (accepted_in self.old) timestamp.now)) self.old.session self.old.counter
            (manifest_entry (repo_view self.old.repo) self.old.counter (written_at (accepted_in self.old) timestamp.now) salt))
            (λ _. HasCommitted (with_manifest (repo_view self.old.repo) (written_at (accepted_in self.old) timestamp.now)) self.old.session self.old.counter
            (manifest_entry (repo_view self.old.repo) self.old.counter (written_at (accepted_in self.old) timestamp.now) salt)
            self.new.session self.new.counter) (D.told depot.old) (D.told depot.new) (D.faults depot.old) (D.faults depot.new) result
            × IfErr result (RefusesManifestOf self.old.counter
            (length (manifest_text (repo_view self.old.repo).keys salt (written_at (accepted_in self.old) timestamp.now))))
            × LimitsManifest result self.old.session self.old.counter
            (length (manifest_text (repo_view self.old.repo).keys salt (written_at (accepted_in self.old) timestamp.now)))) }
        ensures untold { Between (D.told depot.old) (D.told depot.new) TellsNothing }
        ensures writes { (blob : List ℕ) × Between (D.told depot.old) (D.told depot.new) (WritesManifest blob self.old.session self.old.counter) }
        ensures manifest { IfOk result (λ both. manifest_view both.0 ≡ written_at (accepted_in self.old) timestamp.now) }
        ensures written { IfOk result (λ both. both.1 ≡ timestamp.now) }
        ensures packable { IfOk result (λ both. IsPackable (manifest_view both.0)) }
        ensures rest { self.new ≡ record self.old { session = self.new.session; counter = self.new.counter } }
        ensures stops { IfErr result (λ refusal. Between (D.told depot.old) (D.told depot.new) (Stops self.old.session self.old.counter refusal)) }
        ensures few { BeginsFew 2 self.old.session.last self.new.session.last (IsErrOf result (Refusal.Write Writes.Numbers)) }
        // Where neither the device failed nor memory was refused, nothing is committed.
        ensures keeps { IfErr result (λ refusal. depot_failed refusal ≡ false → refusal ≢ Refusal.Memory
            → Between (D.told depot.old) (D.told depot.new) (KeepsSound self.old.session self.old.counter)) }
        ensures limit { self.new.session.limit ≡ self.old.session.limit }
        ensures leaves { IfErr result (LeavesBoth self.old.session self.old.counter self.new.session self.new.counter (D.told depot.old) (D.told depot.new)) }
        ensures session { OnOk result (self.new.session.spent ≡ false) }
        ensures counter { OnOk result (self.new.counter.spent ≡ false) }
        ensures entropy { HasCause source_failed (E.faults entropy.old) (E.faults entropy.new) result }
    {
        let manifest = self.accepted_at(timestamp)?;
        let written = Bytes::new(Vec::from_slice(self.alloc, timestamp)?);
        commit_manifest(
            self.alloc,
            depot,
            entropy,
            &self.repo,
            &mut self.session,
            &mut self.counter,
            &manifest,
        )?;
        Ok((manifest, written))
    }

    /// A copy of the manifest that was accepted, written at this time.
    fn accepted_at(&self, timestamp: &[u8]) -> Result<Manifest, StoreRefusal>
        requires packable { IsPackable (accepted_in self.now) }
        ensures manifest { IfOk result (λ manifest. manifest_view manifest ≡ written_at (accepted_in self.now) timestamp.now) }
        ensures packable { IfOk result (λ manifest. IsPackable (manifest_view manifest)) }
        ensures refused { IfErr result (λ refusal. refusal ≡ Refusal.Memory) }
    {
        let mut manifest = copy_manifest(self.alloc, &self.accepted)?;
        let timestamp = Vec::from_slice(self.alloc, timestamp)?;
        set_timestamp(&mut manifest, Bytes::new(timestamp));
        Ok(manifest)
    }

    /// Whether a content of this id would be put.
    fn is_new(&self, id: &Id) -> bool
        ensures { IsTrue result ↔ IsNew (repo_view self.now.repo) id.now }
    {
        *id != ZERO_ID && self.repo.log().find(id).is_none()
    }

    /// Whether the content of an id is known to be there.
    fn is_known(&self, id: &Id) -> bool
        ensures { IsTrue result ↔ IsKnown self.now id.now }
    {
        *id == ZERO_ID || self.repo.log().has_learnt(id) || self.opened.contains(id)
    }

    /// Takes note of a refusal that spends the store.
    fn spend(&mut self, refusal: StoreRefusal) -> StoreRefusal
        ensures same { result ≡ refusal }
        ensures spent { self.new ≡ record self.old { spent = spends refusal || self.old.spent } }
    {
        if refusal.spends() {
            self.spent = true;
        }
        refusal
    }

    /// Whether an archive of this name is in the manifest or was accepted since the last commit, and wasn't dropped since.
    pub fn has(&self, name: &[u8]) -> bool
        ensures has { result ≡ is_some (archive_named name.now (accepted_in self.now).archives) }
    {
        has_archive(&self.accepted, name)
    }

    /// Accepts an archive, whose record has the entry's id, with the names that its items have: it comes into the manifest by the next
    /// commit. A refused call leaves the store as it was.
    pub fn name_archive(
        &mut self,
        entry: ArchiveRef,
        item_keys: &[Vec<u8>],
    ) -> Result<(), StoreRefusal>
        requires packable { IsPackable (accepted_in self.old) }
        requires unnamed { archive_named entry.name (accepted_in self.old).archives ≡ None }
        // The archive is in its place, with the names of its items.
        ensures named { OnOk result (accepted_in self.new ≡ next_manifest (accepted_in self.old) entry (map (λ name. name.items) item_keys.now)) }
        // The manifest can be packed.
        ensures packable { IsPackable (accepted_in self.new) }
        // Nothing else of the store changes.
        ensures rest { self.new ≡ record self.old { accepted = self.new.accepted } }
        // A refused call leaves what was accepted.
        ensures err { OnErr result (accepted_in self.new ≡ accepted_in self.old) }
        ensures refused { IfErr result (λ refusal. refusal ≡ Refusal.Memory) }
    {
        name_archive(self.alloc, &mut self.accepted, entry, item_keys)?;
        Ok(())
    }

    /// Drops the archive of a name, which goes out of the manifest by the next commit. Its chunks stay. Nothing is allocated.
    pub fn drop_name(&mut self, name: &[u8])
        requires packable { IsPackable (accepted_in self.old) }
        requires named { IsSome (archive_named name.now (accepted_in self.old).archives) }
        // The manifest is without the archive of the name.
        ensures dropped { accepted_in self.new ≡ without_entry (accepted_in self.old) name.now }
        // The manifest can be packed.
        ensures packable { IsPackable (accepted_in self.new) }
        // Nothing else of the store changes.
        ensures rest { self.new ≡ record self.old { accepted = self.new.accepted } }
    {
        drop_archive(self.alloc, &mut self.accepted, name);
    }

    /// Drops a chunk that was live when the store was opened: its DELETE is put, and counts from the next commit on. The store's repository keeps
    /// the chunk; nothing may be added any more. Nothing is allocated.
    pub fn drop_chunk<D: Depot>(&mut self, depot: &mut D, id: &Id) -> Result<(), StoreRefusal>
        requires unspent { IsUnspent self.old }
        requires chunk { id.now ≢ zero_id }
        requires live { IsMissing (repo_view self.old.repo).log id.now → ⊥ }
        requires fits { IfSome (D.told depot.old) (λ t. IsWriting self.old t.history) }
        // Each stop shows what was committed, and counter blocks are kept; the store fits without this chunk too.
        ensures did { Did (KeepsSound self.old.session self.old.counter) (λ _. Drops self.old id.now self.new)
            (D.told depot.old) (D.told depot.new) (D.faults depot.old) (D.faults depot.new) result }
        // No line is told, also by a call that fails.
        ensures untold { Between (D.told depot.old) (D.told depot.new) TellsNothing }
        // Only the session goes on.
        ensures rest { self.new ≡ record self.old { session = self.new.session; spent = self.new.spent } }
        // The depot failed, or the DELETE has no room in the segment and the numbers of segments are used up.
        ensures refused { IfErr result (RefusesDrop self.old.session) }
        // They are exactly where no number is left.
        ensures numbers { IsErrOf result (Refusal.Write Writes.Numbers)
            ↔ (IsTrue (must_begin self.old.session.last self.old.session.size self.old.session.limit 41) × AreUsedUp self.old.session.last) }
        // What a refusal says of the depot's files as they are read behind the call.
        ensures stops { IfErr result (λ refusal. IfSome (D.told depot.new)
            (λ t. StopsAt t.history.start (told_files t) (repo_view self.old.repo).keys refusal)) }
        // After an answer the store isn't spent.
        ensures unspent { OnOk result (IsUnspent self.new) }
        // The limit of the settings is the session's.
        ensures limit { HasLimit self.old → HasLimit self.new }
        // After a refusal it is exactly where that is memory, a failed target or used up numbers.
        ensures spent { IfErr result (λ refusal. self.new.spent ≡ spends refusal) }
    {
        match put_delete(depot, &mut self.session, id) {
            Ok(()) => Ok(()),
            Err(refusal) => Err(self.spend(refusal)),
        }
    }

    /// Puts the manifest that was accepted, written at this time, and commits all that was put and dropped.
    pub fn commit<D: Depot, E: Entropy>(
        &mut self,
        depot: &mut D,
        entropy: &mut E,
        timestamp: &[u8],
    ) -> Result<(), StoreRefusal>
        requires unspent { IsUnspent self.old }
        requires packable { IsPackable (accepted_in self.old) }
        requires fits { IfSome (D.told depot.old) (λ t. IsWriting self.old t.history) }
        // 64 bytes are drawn, the tag's salt; each stop shows what was committed before, or all with that manifest; limits come exactly.
        ensures committed { (salt : List ℕ) × ((length salt ≡ 64) × OnOk result (E.drawn entropy.new ≡ option_map (λ d. d ++ salt) (E.drawn entropy.old))
            × Did (CommitsEntry (with_manifest (repo_view self.old.repo) (written_at (accepted_in self.old) timestamp.now)) self.old.session self.old.counter
            (manifest_entry (repo_view self.old.repo) self.old.counter (written_at (accepted_in self.old) timestamp.now) salt))
            (λ _. Commits self.old (manifest_entry (repo_view self.old.repo) self.old.counter (written_at (accepted_in self.old) timestamp.now) salt)
            self.new) (D.told depot.old) (D.told depot.new) (D.faults depot.old) (D.faults depot.new) result
            × IfErr result (RefusesManifestOf self.old.counter
            (length (manifest_text (repo_view self.old.repo).keys salt (written_at (accepted_in self.old) timestamp.now))))
            × LimitsManifest result self.old.session self.old.counter
            (length (manifest_text (repo_view self.old.repo).keys salt (written_at (accepted_in self.old) timestamp.now)))) }
        // Two segments begin at most.
        ensures few { BeginsFew 2 self.old.session.last self.new.session.last (IsErrOf result (Refusal.Write Writes.Numbers)) }
        // A store that fitted without some chunks fits without them, and its manifest is that of the commit, whatever it was before.
        ensures without { OnOk result (Between (D.told depot.old) (D.told depot.new) (CommitsWithout self.old self.new)) }
        // No line is told, also by a call that fails.
        ensures untold { Between (D.told depot.old) (D.told depot.new) TellsNothing }
        // At each moment the segments have a front of what was written, and of a manifest and its COMMIT behind it.
        ensures writes { (blob : List ℕ) × Between (D.told depot.old) (D.told depot.new) (WritesManifest blob self.old.session self.old.counter) }
        // The repository has the manifest that was accepted, written at this time.
        ensures repo { OnOk result (repo_view self.new.repo
            ≡ with_manifest (repo_view self.old.repo) (written_at (accepted_in self.old) timestamp.now)) }
        // What is accepted is that manifest.
        ensures accepted { OnOk result (accepted_in self.new ≡ written_at (accepted_in self.old) timestamp.now) }
        // The manifest can be packed.
        ensures packable { IsPackable (accepted_in self.new) }
        // No entry counts as put.
        ensures pending { OnOk result (self.new.pending ≡ 0) }
        // After an answer the store isn't spent.
        ensures unspent { OnOk result (IsUnspent self.new) }
        // A refusal that doesn't spend the store leaves it and the files as they were.
        ensures kept { IfErr result (IsUnspentBy self.old self.new (D.told depot.old) (D.told depot.new)) }
        // The limit of the settings is the session's.
        ensures limit { HasLimit self.old → HasLimit self.new }
        // After a refusal it is exactly where that is memory, a failed target or used up numbers.
        ensures spent { IfErr result (λ refusal. self.new.spent ≡ spends refusal) }
        // What a refusal says of the depot's files as they are read behind the call.
        ensures stops { IfErr result (λ refusal. IfSome (D.told depot.new)
            (λ t. StopsAt t.history.start (told_files t) (repo_view self.old.repo).keys refusal)) }
        // Where neither the device failed nor memory was refused, nothing is committed.
        ensures keeps { IfErr result (λ refusal. depot_failed refusal ≡ false → refusal ≢ Refusal.Memory
            → Between (D.told depot.old) (D.told depot.new) (KeepsSound self.old.session self.old.counter)) }
        // The source of random bytes counted a fault exactly where it is the answer.
        ensures entropy { HasCause source_failed (E.faults entropy.old) (E.faults entropy.new) result }
    {
        match self.commit_accepted(depot, entropy, timestamp) {
            Ok((manifest, written)) => {
                self.take_manifest(manifest, written);
                Ok(())
            }
            Err(refusal) => Err(self.spend(refusal)),
        }
    }

    /// How many entries were put since the last commit.
    pub fn pending(&self) -> u64
        ensures pending { result ≡ self.now.pending }
    {
        self.pending
    }
}
