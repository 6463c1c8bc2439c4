//! An opened repository.
ghost use Rattle.std.specs.List.{AllByRecursion};
ghost use Rattle.std.specs.Prelude.{◌≡◌, ◌⊎◌, ◌<◌, ◌≤◌, [], length, IfOk, IfErr, IfSome, OnOk, OnErr, MatchResult, Ok, Option, false};
ghost use Rattle.std.specs.Prelude.{is_some, option_copied, option_map};
ghost use Rattle.ferry_disk.specs.Files.{Files};
ghost use Rattle.ferry_disk.specs.Device.{KeepsTold, HasCause, Told, told_files};
ghost use Rattle.ferry_log.specs.State.{with_learnt};
ghost use Rattle.ferry_manifest.specs.Manifest.Text.{manifest_view};
ghost use Rattle.ferry_manifest.specs.Manifest.Writing.{IsPackable};
ghost use Rattle.ferry_manifest.specs.Record.Text.{archive_of, archive_view};
ghost use Rattle.ferry_repo.specs.Archives.{archive_named, IsNoRecord, HoldsNamed, RefusesNamed, HoldsContent, RefusesContent};
ghost use Rattle.ferry_repo.specs.Cached.{IsCached, content_in, no_contents, used};
ghost use Rattle.ferry_repo.specs.Fault.{repo_failed, IsOfFiles};
ghost use Rattle.ferry_repo.specs.Lengths.{HaveLengths, RefusesOne};
ghost use Rattle.ferry_repo.specs.Noted.{IsCut, IsNoted};
ghost use Rattle.ferry_repo.specs.Objects.{IsMissing, HoldsChunk, RefusesChunk};
ghost use Rattle.ferry_repo.specs.Opening.{repo_view, cached_in, mode_of, IsOfManifest, OpensBare, OpensFilesTo, RefusesBare, RefusesRepo, FitsRepo};
ghost use Rattle.ferry_repo.specs.Shared.{SharesPieces};
ghost use Rattle.ferry_repo.specs.Walk.{walk_view, begin_walk, FitsWalk};

use crate::batch::{AHEAD, Batch};
use crate::cache::{Cache, LIMIT as KEPT};
use crate::fault::{RepoFault, of_archive};
use crate::notes::{Note, Notes};
use crate::object::object;
use crate::opening::{mode_of, root_or_none, settings, unlock};
use crate::secret::Secret;
use crate::shared::SharedPieces;
use crate::walk::Walk;
use ferry_base::{Id, ZERO_ID};
use ferry_blob::Mode;
use ferry_config::Config;
use ferry_disk::Shelf;
use ferry_item::{ChunkRef, ChunkRefs};
use ferry_log::{Log, Place, open_log};
use ferry_mac::Keys;
use ferry_manifest::{Archive, ArchiveRef, Ids, Manifest, read_archive};
use std::alloc::{AllocError, Global};
use std::cmp::min;

/// A repository opened for reading: it owns what it read of its log, its settings, its keys and its manifest, the contents that it
/// answered or read ahead last, twenty-eight at most, and notes of contents that were cut for a target. It is used with the shelf on which
/// it was opened.
///
/// There is no `Debug`, so that no message can show a key.
#[derive(Drop)]
pub struct Repo {
    alloc: Global,
    log: Log,
    config: Config,
    keys: Keys,
    manifest: Manifest,
    cache: Cache,
    notes: Notes,
}

impl Repo {
    /// Opens a repository with a secret.
    ///
    /// A fault is the first in the order log, `config`, key file where `config` has no key, key, and the object under the zero id;
    /// `Memory` may come at any point.
    ///
    /// Source: BorgBackup 1.2, Internals, "Data structures and file formats".
    pub fn open<S: Shelf>(alloc: Global, shelf: &mut S, secret: &Secret) -> Result<Repo, RepoFault>
        ensures repository { IfOk result (λ repo. IfSome (S.told shelf.old) (λ t.
            OpensFilesTo (told_files t) secret.now (repo_view repo))) }
        ensures packable { IfOk result (λ repo. IsPackable (repo_view repo).manifest) }
        ensures cached { IfOk result (λ repo. cached_in repo ≡ no_contents) }
        ensures refused { IfErr result (λ fault. IfSome (S.told shelf.old) (λ t.
            RefusesRepo (told_files t) secret.now fault)) }
        ensures same { KeepsTold repo_failed (S.told shelf.old) (S.told shelf.new) result }
        ensures cause { HasCause repo_failed (S.faults shelf.old) (S.faults shelf.new) result }
    {
        let (repo, fault) = Repo::open_bare(alloc, shelf, secret)?;
        match fault {
            None => Ok(repo),
            Some(fault) => Err(fault),
        }
    }

    /// Opens a repository with a secret, also where its manifest doesn't open: then the manifest has no archives and no names, and isn't
    /// dated, and the second part is the fault, of the object under the zero id or of the manifest in it.
    ///
    /// A fault that is answered alone is the first in the order log, `config`, key file where `config` has no key, and key; `Device` and
    /// `Memory` may come at any point.
    ///
    /// Source: BorgBackup 1.2, Internals, "Data structures and file formats".
    #[tactic(auto, using(crate::proofs::FaultLemmas::conversions))]
    pub fn open_bare<S: Shelf>(
        alloc: Global,
        shelf: &mut S,
        secret: &Secret,
    ) -> Result<(Repo, Option<RepoFault>), RepoFault>
        ensures repository { IfOk result (λ both. IfSome (S.told shelf.old) (λ t.
            OpensBare (told_files t) secret.now (repo_view both.0) both.1)) }
        ensures packable { IfOk result (λ both. IsPackable (repo_view both.0).manifest) }
        ensures cached { IfOk result (λ both. cached_in both.0 ≡ no_contents) }
        ensures of_manifest { IfOk result (λ both. IfSome both.1 IsOfManifest) }
        ensures refused { IfErr result (λ fault. IfSome (S.told shelf.old) (λ t.
            RefusesBare (told_files t) secret.now fault)) }
        ensures same { KeepsTold repo_failed (S.told shelf.old) (S.told shelf.new) result }
        ensures cause { HasCause repo_failed (S.faults shelf.old) (S.faults shelf.new) result }
    {
        let log = open_log(alloc, shelf)?;
        let unlocked = unlock(alloc, shelf, secret)?;
        let (manifest, fault) = root_or_none(alloc, shelf, &log, &unlocked.key.keys)?;
        let cache = Cache::new(alloc)?;
        let notes = Notes::new(alloc);
        let (config, keys) = settings(unlocked);
        Ok((
            Repo {
                alloc,
                log,
                config,
                keys,
                manifest,
                cache,
                notes,
            },
            fault,
        ))
    }

    /// The manifest.
    pub fn manifest(&self) -> &Manifest
        ensures manifest { manifest_view result.now ≡ (repo_view self.now).manifest }
    {
        &self.manifest
    }

    /// The log.
    pub fn log(&self) -> &Log
        ensures log { result.now ≡ (repo_view self.now).log }
    {
        &self.log
    }

    /// What the file `config` says.
    pub fn config(&self) -> &Config
        ensures config { result.now ≡ (repo_view self.now).config }
    {
        &self.config
    }

    /// Where the key lies: in a key file exactly where `config` has none.
    pub fn mode(&self) -> Mode
        ensures mode { result ≡ mode_of (repo_view self.now).config }
    {
        mode_of(&self.config)
    }

    /// The content of a chunk, where it is kept.
    pub fn kept_content(&self, id: &Id) -> Option<&[u8]>
        ensures content { option_copied result ≡ content_in id.now (cached_in self.now).opened }
    {
        self.cache.get(id)
    }

    /// How many contents are kept, which is never more than twenty-eight.
    pub fn kept(&self) -> usize
        ensures kept { result ≡ length (cached_in self.now).opened }
        ensures few { length (cached_in self.now).opened ≤ 28 }
    {
        self.cache.count()
    }

    /// The secrets.
    pub fn keys(&self) -> &Keys
        ensures keys { result.now ≡ (repo_view self.now).keys }
    {
        &self.keys
    }

    /// The content of a chunk, decrypted and checked, and a copy of it is kept. The zero id is no chunk's.
    #[tactic(auto, using(crate::proofs::FaultLemmas::conversions))]
    pub fn chunk<S: Shelf>(&mut self, shelf: &mut S, id: &Id) -> Result<Vec<u8>, RepoFault>
        requires fits { IfSome (S.told shelf.old) (λ t. FitsRepo (told_files t) (repo_view self.old) (cached_in self.old)) }
        ensures content { IfOk result (λ content. IfSome (S.told shelf.old) (λ t.
            HoldsChunk (told_files t) (repo_view self.old).log (repo_view self.old).keys id.now content.items)) }
        ensures refused { IfErr result (λ fault. IfSome (S.told shelf.old) (λ t.
            RefusesChunk (told_files t) (repo_view self.old).log (repo_view self.old).keys id.now fault)) }
        ensures cached { IfOk result (λ content. cached_in self.new
            ≡ record (cached_in self.old) { opened = used id.now content.items (cached_in self.old).opened }) }
        ensures uncached { OnErr result (cached_in self.new ≡ cached_in self.old) }
        // A content that is kept is answered without a call on the shelf.
        ensures hit { IfSome (content_in id.now (cached_in self.old).opened) (λ kept.
            MatchResult result (λ content. content.items ≡ kept) (λ fault. fault ≡ RepoFault.Memory)) }
        ensures unread { IsCached id.now (cached_in self.old).opened → shelf.new ≡ shelf.old }
        ensures fits { IfSome (S.told shelf.new) (λ t. FitsRepo (told_files t) (repo_view self.new) (cached_in self.new)) }
        ensures kept { repo_view self.new ≡ repo_view self.old }
        ensures same { KeepsTold repo_failed (S.told shelf.old) (S.told shelf.new) result }
        ensures cause { HasCause repo_failed (S.faults shelf.old) (S.faults shelf.new) result }
    {
        let content = self.fetch(shelf, id)?;
        self.cache.keep(id, &content)?;
        Ok(content)
    }

    /// The content of an item's chunk, which has the size that the item states. A content of another size is not kept.
    #[tactic(auto, using(crate::proofs::FaultLemmas::conversions))]
    pub fn content<S: Shelf>(
        &mut self,
        shelf: &mut S,
        chunk: &ChunkRef,
    ) -> Result<Vec<u8>, RepoFault>
        requires fits { IfSome (S.told shelf.old) (λ t. FitsRepo (told_files t) (repo_view self.old) (cached_in self.old)) }
        ensures content { IfOk result (λ content. IfSome (S.told shelf.old) (λ t.
            HoldsContent (told_files t) (repo_view self.old).log (repo_view self.old).keys chunk.now content.items)) }
        ensures refused { IfErr result (λ fault. IfSome (S.told shelf.old) (λ t.
            RefusesContent (told_files t) (repo_view self.old).log (repo_view self.old).keys chunk.now fault)) }
        ensures cached { IfOk result (λ content. cached_in self.new
            ≡ record (cached_in self.old) { opened = used chunk.now.id content.items (cached_in self.old).opened }) }
        ensures uncached { OnErr result (cached_in self.new ≡ cached_in self.old) }
        ensures hit { IfSome (content_in chunk.now.id (cached_in self.old).opened) (λ kept.
            MatchResult result (λ content. content.items ≡ kept) (λ fault. (fault ≡ RepoFault.Memory) ⊎ (fault ≡ RepoFault.Size chunk.now.id))) }
        ensures unread { IsCached chunk.now.id (cached_in self.old).opened → shelf.new ≡ shelf.old }
        ensures fits { IfSome (S.told shelf.new) (λ t. FitsRepo (told_files t) (repo_view self.new) (cached_in self.new)) }
        ensures kept { repo_view self.new ≡ repo_view self.old }
        ensures same { KeepsTold repo_failed (S.told shelf.old) (S.told shelf.new) result }
        ensures cause { HasCause repo_failed (S.faults shelf.old) (S.faults shelf.new) result }
    {
        let content = self.fetch(shelf, &chunk.id)?;
        if content.len() as u64 != chunk.size {
            return Err(RepoFault::Size(chunk.id));
        }
        self.cache.keep(&chunk.id, &content)?;
        Ok(content)
    }

    /// The content of an item's chunk, which is the first of `later`, as `content` answers it. Where it isn't kept, those that follow are
    /// read with it, opened side by side and kept, as many as twenty-four contents and 48 MiB hold.
    #[tactic(auto, using(crate::proofs::FaultLemmas::conversions))]
    pub fn content_ahead<S: Shelf>(
        &mut self,
        shelf: &mut S,
        chunk: &ChunkRef,
        later: &[ChunkRef],
    ) -> Result<Vec<u8>, RepoFault>
        requires fits { IfSome (S.told shelf.old) (λ t. FitsRepo (told_files t) (repo_view self.old) (cached_in self.old)) }
        ensures content { IfOk result (λ content. IfSome (S.told shelf.old) (λ t.
            HoldsContent (told_files t) (repo_view self.old).log (repo_view self.old).keys chunk.now content.items)) }
        ensures refused { IfErr result (λ fault. IfSome (S.told shelf.old) (λ t.
            RefusesContent (told_files t) (repo_view self.old).log (repo_view self.old).keys chunk.now fault)) }
        ensures fits { IfSome (S.told shelf.new) (λ t. FitsRepo (told_files t) (repo_view self.new) (cached_in self.new)) }
        ensures kept { repo_view self.new ≡ repo_view self.old }
        ensures same { KeepsTold repo_failed (S.told shelf.old) (S.told shelf.new) result }
        ensures cause { HasCause repo_failed (S.faults shelf.old) (S.faults shelf.new) result }
    {
        self.read_contents(shelf, later)?;
        self.content(shelf, chunk)
    }

    /// The lengths in bytes of the contents of the chunks at the front of `ids`, which are opened side by side: of one chunk at least,
    /// and of as many as 64 and 16 MiB hold. None of the contents is kept.
    ///
    /// A refusal other than `Device` and `Memory` is that of the first chunk that is refused.
    pub fn lengths<S: Shelf>(&self, shelf: &mut S, ids: &[Id]) -> Result<Vec<u64>, RepoFault>
        requires fits { IfSome (S.told shelf.old) (λ t. FitsRepo (told_files t) (repo_view self.now) (cached_in self.now)) }
        requires some { 0 < length ids.now }
        ensures some { IfOk result (λ sizes. 0 < length sizes.items) }
        ensures few { IfOk result (λ sizes. length sizes.items ≤ length ids.now) }
        ensures lengths { IfOk result (λ sizes. IfSome (S.told shelf.old) (λ t.
            HaveLengths (told_files t) (repo_view self.now).log (repo_view self.now).keys ids.now sizes.items)) }
        ensures refused { IfErr result (λ fault. IsOfFiles fault → IfSome (S.told shelf.old) (λ t.
            RefusesOne (told_files t) (repo_view self.now).log (repo_view self.now).keys ids.now fault)) }
        ensures fits { IfSome (S.told shelf.new) (λ t. FitsRepo (told_files t) (repo_view self.now) (cached_in self.now)) }
        ensures same { KeepsTold repo_failed (S.told shelf.old) (S.told shelf.new) result }
        ensures cause { HasCause repo_failed (S.faults shelf.old) (S.faults shelf.new) result }
    {
        let batch = Batch::read_front(self.alloc, shelf, &self.log, ids)?;
        batch.lengths(self.alloc, &self.keys)
    }

    /// The id of the record of the archive of a name, and none where the manifest has no such name.
    pub fn record_id(&self, name: &[u8]) -> Option<Id>
        ensures id { result ≡ option_map (λ a. a.id) (archive_named name.now (repo_view self.now).manifest.archives) }
    {
        id_named(self.manifest.archives.as_slice(), name)
    }

    /// The record of the archive of a name, and none where the manifest has no such name.
    #[tactic(auto, using(crate::proofs::FaultLemmas::conversions))]
    pub fn archive<S: Shelf>(
        &mut self,
        shelf: &mut S,
        name: &[u8],
    ) -> Result<Option<Archive>, RepoFault>
        requires fits { IfSome (S.told shelf.old) (λ t. FitsRepo (told_files t) (repo_view self.old) (cached_in self.old)) }
        ensures archive { IfOk result (λ found. IfSome (S.told shelf.old) (λ t.
            HoldsNamed (told_files t) (repo_view self.old).log (repo_view self.old).keys
            (archive_named name.now (repo_view self.old).manifest.archives) (option_map archive_view found))) }
        ensures refused { IfErr result (λ fault. IfSome (S.told shelf.old) (λ t.
            RefusesNamed (told_files t) (repo_view self.old).log (repo_view self.old).keys
            (archive_named name.now (repo_view self.old).manifest.archives) fault)) }
        ensures fits { IfSome (S.told shelf.new) (λ t. FitsRepo (told_files t) (repo_view self.new) (cached_in self.new)) }
        ensures kept { repo_view self.new ≡ repo_view self.old }
        ensures same { KeepsTold repo_failed (S.told shelf.old) (S.told shelf.new) result }
        ensures cause { HasCause repo_failed (S.faults shelf.old) (S.faults shelf.new) result }
    {
        let Some(id) = self.record_id(name) else {
            return Ok(None);
        };
        let content = self.chunk(shelf, &id)?;
        let archive = record_in(self.alloc, &self.keys, id, &content)?;
        Ok(Some(archive))
    }

    /// A walk over the items of an archive, whose record has this id, from the front of its stream.
    pub fn walk(&self, id: &Id, archive: &Archive) -> Result<Walk, RepoFault>
        ensures walk { IfOk result (λ walk. walk_view walk ≡ begin_walk id.now archive.now.items) }
        // In front of its stream a walk fits all files.
        ensures fits { IfOk result (λ walk. (files : Files) → FitsWalk files (repo_view self.now).log (repo_view self.now).keys (walk_view walk)) }
        ensures memory { IfErr result (λ fault. fault ≡ RepoFault.Memory) }
    {
        let ids = Vec::from_slice(self.alloc, archive.items.as_slice())?;
        Ok(Walk::new(self.alloc, *id, Ids::new(ids), false))
    }

    /// The same walk for one who reads no contents between the steps: the chunks of the stream are read ahead, opened side by side and
    /// kept, as many as twenty-four and 48 MiB hold.
    pub fn walk_stream(&self, id: &Id, archive: &Archive) -> Result<Walk, RepoFault>
        ensures walk { IfOk result (λ walk. walk_view walk ≡ begin_walk id.now archive.now.items) }
        ensures fits { IfOk result (λ walk. (files : Files) → FitsWalk files (repo_view self.now).log (repo_view self.now).keys (walk_view walk)) }
        ensures memory { IfErr result (λ fault. fault ≡ RepoFault.Memory) }
    {
        let ids = Vec::from_slice(self.alloc, archive.items.as_slice())?;
        Ok(Walk::new(self.alloc, *id, Ids::new(ids), true))
    }

    /// The chunks of the pieces of a content that has these chunks, cut into pieces of `block` bytes under these keys, where `note` took them.
    pub fn noted(&self, keys: &Keys, block: usize, chunks: &[ChunkRef]) -> Option<&[ChunkRef]>
        ensures noted { IfSome result (λ pieces. (files : Files) → FitsRepo files (repo_view self.now) (cached_in self.now)
            → IsNoted files (repo_view self.now).log (repo_view self.now).keys
            (record { key = keys.now.id_key; block = block; chunks = chunks.now; pieces = pieces.now })) }
        ensures cut { IfSome result (λ pieces. IsCut (record { key = keys.now.id_key; block = block; chunks = chunks.now; pieces = pieces.now })) }
    {
        self.notes.get(&keys.id_key, block, chunks)
    }

    /// Pieces of `block` bytes under these keys of which a content with these chunks has each, since it has chunks at the same bytes as one that is noted.
    /// Where memory is refused there are none.
    pub fn shared(&self, keys: &Keys, block: usize, chunks: &[ChunkRef]) -> Vec<SharedPieces>
        ensures shared { AllByRecursion (λ shared. (told : Option Told)
            → IfSome told (λ t. FitsRepo (told_files t) (repo_view self.now) (cached_in self.now))
            → SharesPieces told (repo_view self.now) keys.now.id_key block chunks.now shared) result.items }
    {
        let Some(note) = self.notes.like(&keys.id_key, block, chunks) else {
            return Vec::new(self.alloc);
        };
        match note.shared(self.alloc, chunks) {
            Ok(shared) => shared,
            Err(_) => Vec::new(self.alloc),
        }
    }

    /// Whether a content with these chunks is likely to share pieces with one that is noted.
    pub(crate) fn is_like(&self, chunks: &[ChunkRef]) -> bool {
        self.notes.is_like(chunks)
    }

    /// Whether reading ahead passes over a content that has these chunks: it is noted, however it was cut, or `pass_over` took it.
    pub fn passes_over(&self, chunks: &[ChunkRef]) -> bool {
        self.notes.has(chunks)
    }

    /// Has reading ahead pass over a content that has these chunks, as over one that is noted. Only time depends on it.
    pub fn pass_over(&mut self, chunks: &[ChunkRef])
        ensures kept { repo_view self.new ≡ repo_view self.old }
        ensures cached { cached_in self.new ≡ cached_in self.old }
    {
        self.notes.pass_over(chunks);
    }

    /// Notes a content that has these chunks, by the chunks of the pieces of `block` bytes into which it is cut under these keys. Where the
    /// notes have no room left, or memory is refused, nothing is noted.
    pub fn note(&mut self, keys: &Keys, block: usize, chunks: &[ChunkRef], pieces: &[ChunkRef])
        requires cut { IsCut (record { key = keys.now.id_key; block = block; chunks = chunks.now; pieces = pieces.now }) }
        ensures fits { (files : Files) → FitsRepo files (repo_view self.old) (cached_in self.old)
            → IsNoted files (repo_view self.old).log (repo_view self.old).keys
            (record { key = keys.now.id_key; block = block; chunks = chunks.now; pieces = pieces.now })
            → FitsRepo files (repo_view self.new) (cached_in self.new) }
        ensures kept { repo_view self.new ≡ repo_view self.old }
    {
        if let Ok(note) = note_of(self.alloc, keys, block, chunks, pieces) {
            self.notes.place(chunks, pieces.len());
            self.notes.put(note);
        }
    }

    /// Learns the place of a chunk that isn't live, whose blob was put: from then on the chunk is live, and is read there. A refused call
    /// leaves the repository as it was.
    pub fn learn(&mut self, key: &Id, place: Place) -> Result<(), AllocError>
        requires new { IsMissing (repo_view self.old).log key.now }
        ensures learnt { OnOk result (repo_view self.new ≡ record (repo_view self.old) {
          log = with_learnt (repo_view self.old).log key.now place;
        }) }
        ensures cached { cached_in self.new ≡ cached_in self.old }
        ensures err { OnErr result (self.new ≡ self.old) }
    {
        self.log.learn(key, place)
    }

    /// Sets the manifest, as once another one was committed.
    pub fn renew(&mut self, manifest: Manifest)
        requires packable { IsPackable (manifest_view manifest) }
        ensures manifest { repo_view self.new ≡ record (repo_view self.old) { manifest = manifest_view manifest } }
        ensures cached { cached_in self.new ≡ cached_in self.old }
    {
        self.manifest = manifest;
    }
}

impl Repo {
    /// Whether the content of a chunk is kept.
    pub(crate) fn keeps(&self, id: &Id) -> bool
        ensures { result ≡ is_some (content_in id.now (cached_in self.now).opened) }
    {
        self.cache.get(id).is_some()
    }

    /// Reads the contents of the first of these chunks, which are looked at where the first one isn't kept. One content alone is left to
    /// the call that asks for it.
    #[tactic(auto, using(crate::proofs::FaultLemmas::conversions))]
    pub(crate) fn read_contents<S: Shelf>(
        &mut self,
        shelf: &mut S,
        chunks: &[ChunkRef],
    ) -> Result<(), RepoFault>
        requires fits { IfSome (S.told shelf.old) (λ t. FitsRepo (told_files t) (repo_view self.old) (cached_in self.old)) }
        ensures refused { IfErr result (λ fault. IsOfFiles fault → ⊥) }
        ensures fits { IfSome (S.told shelf.new) (λ t. FitsRepo (told_files t) (repo_view self.new) (cached_in self.new)) }
        ensures kept { repo_view self.new ≡ repo_view self.old }
        ensures same { KeepsTold repo_failed (S.told shelf.old) (S.told shelf.new) result }
        ensures cause { HasCause repo_failed (S.faults shelf.old) (S.faults shelf.new) result }
    {
        let ids = self.ids_ahead(chunks)?;
        let staying = self.cache.reach(chunks);
        self.read_ahead(shelf, ids.as_slice(), staying)
    }

    /// The ids of the first of these chunks, where the first one isn't kept: those whose contents aren't kept.
    fn ids_ahead(&self, chunks: &[ChunkRef]) -> Result<Vec<Id>, AllocError> {
        let mut ids = Vec::new(self.alloc);
        for chunk in chunks.iter().take(AHEAD) {
            if !self.keeps(&chunk.id) {
                ids.push(chunk.id)?;
            } else if ids.is_empty() {
                return Ok(ids);
            }
        }
        Ok(ids)
    }

    /// Reads the contents of chunks that aren't kept, as many as are read ahead at most, opens them side by side, and keeps them. One that
    /// can't be read is left to the call that asks for it, as is one alone. Of the contents that are kept before, so many stay that were used
    /// last, where there is room.
    #[tactic(auto, using(crate::proofs::FaultLemmas::conversions))]
    pub fn read_ahead<S: Shelf>(
        &mut self,
        shelf: &mut S,
        ids: &[Id],
        staying: usize,
    ) -> Result<(), RepoFault>
        requires fits { IfSome (S.told shelf.old) (λ t. FitsRepo (told_files t) (repo_view self.old) (cached_in self.old)) }
        ensures refused { IfErr result (λ fault. IsOfFiles fault → ⊥) }
        ensures fits { IfSome (S.told shelf.new) (λ t. FitsRepo (told_files t) (repo_view self.new) (cached_in self.new)) }
        ensures kept { repo_view self.new ≡ repo_view self.old }
        ensures same { KeepsTold repo_failed (S.told shelf.old) (S.told shelf.new) result }
        ensures cause { HasCause repo_failed (S.faults shelf.old) (S.faults shelf.new) result }
    {
        if ids.len() < 2 {
            return Ok(());
        }
        self.make_room(shelf, min(staying, KEPT - min(ids.len(), AHEAD)));
        self.read_batch(shelf, ids)
    }

    /// Lets all contents go but so many that were used last, before others are read.
    fn make_room<S: Shelf>(&mut self, shelf: &S, staying: usize)
        requires fits { IfSome (S.told shelf.now) (λ t. FitsRepo (told_files t) (repo_view self.old) (cached_in self.old)) }
        ensures fits { IfSome (S.told shelf.now) (λ t. FitsRepo (told_files t) (repo_view self.new) (cached_in self.new)) }
        ensures kept { repo_view self.new ≡ repo_view self.old }
    {
        self.cache.shorten(staying);
    }

    /// Reads the contents of chunks that aren't kept, opens them side by side, and keeps them.
    #[tactic(auto, using(crate::proofs::FaultLemmas::conversions))]
    fn read_batch<S: Shelf>(&mut self, shelf: &mut S, ids: &[Id]) -> Result<(), RepoFault>
        requires fits { IfSome (S.told shelf.old) (λ t. FitsRepo (told_files t) (repo_view self.old) (cached_in self.old)) }
        ensures refused { IfErr result (λ fault. IsOfFiles fault → ⊥) }
        ensures fits { IfSome (S.told shelf.new) (λ t. FitsRepo (told_files t) (repo_view self.new) (cached_in self.new)) }
        ensures kept { repo_view self.new ≡ repo_view self.old }
        ensures same { KeepsTold repo_failed (S.told shelf.old) (S.told shelf.new) result }
        ensures cause { HasCause repo_failed (S.faults shelf.old) (S.faults shelf.new) result }
    {
        let batch = Batch::read(self.alloc, shelf, &self.log, &self.cache, ids)?;
        batch.keep(&self.keys, &mut self.cache)?;
        Ok(())
    }

    /// The content of a chunk, copied where it is kept, and else read.
    #[tactic(auto, using(crate::proofs::FaultLemmas::conversions))]
    fn fetch<S: Shelf>(&self, shelf: &mut S, id: &Id) -> Result<Vec<u8>, RepoFault>
        requires fits { IfSome (S.told shelf.old) (λ t. FitsRepo (told_files t) (repo_view self.now) (cached_in self.now)) }
        ensures content { IfOk result (λ content. IfSome (S.told shelf.old) (λ t.
            HoldsChunk (told_files t) (repo_view self.now).log (repo_view self.now).keys id.now content.items)) }
        ensures refused { IfErr result (λ fault. IfSome (S.told shelf.old) (λ t.
            RefusesChunk (told_files t) (repo_view self.now).log (repo_view self.now).keys id.now fault)) }
        ensures hit { IfSome (content_in id.now (cached_in self.now).opened) (λ kept.
            MatchResult result (λ content. content.items ≡ kept) (λ fault. fault ≡ RepoFault.Memory)) }
        ensures unread { IsCached id.now (cached_in self.now).opened → shelf.new ≡ shelf.old }
        ensures same { KeepsTold repo_failed (S.told shelf.old) (S.told shelf.new) result }
        ensures cause { HasCause repo_failed (S.faults shelf.old) (S.faults shelf.new) result }
    {
        if let Some(content) = self.cache.get(id) {
            return Ok(Vec::from_slice(self.alloc, content)?);
        }
        if *id == ZERO_ID {
            return Err(RepoFault::Missing(*id));
        }
        object(self.alloc, shelf, &self.log, &self.keys, id)
    }
}

/// A note of a content.
fn note_of(
    alloc: Global,
    keys: &Keys,
    block: usize,
    chunks: &[ChunkRef],
    pieces: &[ChunkRef],
) -> Result<Note, AllocError>
    ensures note { IfOk result (λ note. note ≡ record { key = keys.now.id_key; block = block; chunks = chunks.now; pieces = pieces.now }) }
{
    let chunks = Vec::from_slice(alloc, chunks)?;
    let pieces = Vec::from_slice(alloc, pieces)?;
    Ok(Note {
        key: keys.id_key,
        block,
        chunks: ChunkRefs::new(chunks),
        pieces: ChunkRefs::new(pieces),
    })
}

/// The id of the record of the archive of a name.
fn id_named(archives: &[ArchiveRef], name: &[u8]) -> Option<Id>
    ensures id { result ≡ option_map (λ a. a.id) (archive_named name.now archives.now) }
{
    for place in 0..archives.len() {
        if archives[place].name.as_slice() == name {
            return Some(archives[place].id);
        }
    }
    None
}

/// The record that the chunk of this id is.
fn record_in(alloc: Global, keys: &Keys, id: Id, content: &[u8]) -> Result<Archive, RepoFault>
    ensures record { IfOk result (λ archive. archive_of keys.now content.now ≡ Ok (archive_view archive)) }
    ensures refused { IfErr result (IsNoRecord keys.now id content.now) }
    ensures still { IfErr result (λ fault. repo_failed fault ≡ false) }
{
    match read_archive(alloc, keys, content) {
        Ok(archive) => Ok(archive),
        Err(fault) => Err(of_archive(id, fault)),
    }
}
