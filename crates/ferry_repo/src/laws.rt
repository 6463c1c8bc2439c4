//! Laws of repositories and their chunks, each the contract of a function with nothing to do.
ghost use Rattle.std.specs.Prelude.{◌≡◌, ◌≢◌, ◌↔◌, ◌⊎◌, ◌++◌, ℕ, List, [], Option, Some, None};
ghost use Rattle.ferry_base.specs.Limits.{zero_id};
ghost use Rattle.ferry_blob.specs.Blob.{OpensTo as OpensBlob};
ghost use Rattle.ferry_disk.specs.Act.{replaced};
ghost use Rattle.ferry_disk.specs.Files.{Files, segment_bytes, with_file, without_segment};
ghost use Rattle.ferry_disk.specs.declared.name.Name.{Name};
ghost use Rattle.ferry_disk.specs.declared.name.Name.TheVariants as FileName;
ghost use Rattle.ferry_item.specs.Item.{ItemText};
ghost use Rattle.ferry_log.specs.Live.{live_blob};
ghost use Rattle.ferry_log.specs.State.{LogState, IsStateOf, FitsFiles, IsBlobAt, place_in, with_learnt};
ghost use Rattle.ferry_log.specs.declared.place.Place.{Place};
ghost use Rattle.ferry_mac.specs.declared.keys.Keys.{Keys};
ghost use Rattle.ferry_manifest.specs.Manifest.Text.{ManifestText};
ghost use Rattle.ferry_manifest.specs.declared.manifest.ArchiveRef.{ArchiveRef};
ghost use Rattle.ferry_segment.specs.Entry.{IsBytes};
ghost use Rattle.ferry_repo.specs.Archives.{archive_named, RefusesRecord};
ghost use Rattle.ferry_repo.specs.Cached.{Contents, no_contents};
ghost use Rattle.ferry_repo.specs.Fault.{IsOfFiles};
ghost use Rattle.ferry_repo.specs.Objects.{HasBlob, IsMissing, HoldsChunk, RefusesChunk, KeepsBlobs};
ghost use Rattle.ferry_repo.specs.Opening.{RepoState, OpensFilesTo, FitsRepo, RefusesRepo};
ghost use Rattle.ferry_repo.specs.Walk.{IsStream, Comes, WalkState, IsToCome, FitsWalk};
ghost use Rattle.ferry_repo.specs.Whole.{Reading, ReadsArchive, RefusesArchive, WholeArchive, IsWhole, RefusesWhole, HasWhole};
ghost use Rattle.ferry_repo.specs.declared.fault.RepoFault.{RepoFault};
ghost use Rattle.ferry_repo.specs.declared.secret.Secret.{Secret};

/// Files open under a secret to one repository, or are refused for one cause, and never both; and they fit what they open to.
pub fn repo_laws()
    ensures some { (files : Files) (secret : Secret) → ((n : ℕ) → IsBytes (segment_bytes files n))
        → ((repo : RepoState) × OpensFilesTo files secret repo)
        ⊎ ((fault : RepoFault) × IsOfFiles fault × RefusesRepo files secret fault) }
    ensures one { (files : Files) (secret : Secret) (a b : RepoState)
        → OpensFilesTo files secret a → OpensFilesTo files secret b → a ≡ b }
    ensures apart { (files : Files) (secret : Secret) (repo : RepoState) (fault : RepoFault)
        → OpensFilesTo files secret repo → IsOfFiles fault → RefusesRepo files secret fault → ⊥ }
    ensures one_fault { (files : Files) (secret : Secret) (f g : RepoFault) → IsOfFiles f → IsOfFiles g
        → RefusesRepo files secret f → RefusesRepo files secret g → f ≡ g }
    ensures fits { (files : Files) (secret : Secret) (repo : RepoState) → OpensFilesTo files secret repo → FitsRepo files repo no_contents }
{}

/// An id has one content over files that fit the log, or is refused for one cause, and never both. Over files as they were opened,
/// the blob at an id's place is that of the last entry of the log that names the id.
pub fn chunk_laws()
    ensures some { (files : Files) (log : LogState) (keys : Keys) (id : List ℕ) → FitsFiles files log
        → ((content : List ℕ) × HoldsChunk files log keys id content)
        ⊎ ((fault : RepoFault) × IsOfFiles fault × RefusesChunk files log keys id fault) }
    ensures one { (files : Files) (log : LogState) (keys : Keys) (id a b : List ℕ)
        → HoldsChunk files log keys id a → HoldsChunk files log keys id b → a ≡ b }
    ensures apart { (files : Files) (log : LogState) (keys : Keys) (id content : List ℕ) (fault : RepoFault)
        → HoldsChunk files log keys id content → IsOfFiles fault → RefusesChunk files log keys id fault → ⊥ }
    ensures one_fault { (files : Files) (log : LogState) (keys : Keys) (id : List ℕ) (f g : RepoFault) → IsOfFiles f → IsOfFiles g
        → RefusesChunk files log keys id f → RefusesChunk files log keys id g → f ≡ g }
    ensures live { (files : Files) (log : LogState) (is : IsStateOf files log) (id blob : List ℕ)
        → HasBlob files log id blob → live_blob id is.log ≡ Some blob }
    ensures there { (files : Files) (log : LogState) (is : IsStateOf files log) (id blob : List ℕ)
        → live_blob id is.log ≡ Some blob → HasBlob files log id blob }
{}

/// Of any bytes and chunks some items come and an end, and no others. What comes without a fault is the stream, and a walk that fits
/// stands behind the items that it answered.
pub fn walk_laws()
    ensures some { (files : Files) (log : LogState) (keys : Keys) (id ahead : List ℕ) (ids : List (List ℕ)) → FitsFiles files log
        → (items : List ItemText) × ((end : Option RepoFault) × Comes files log keys id ahead ids items end) }
    ensures one { (files : Files) (log : LogState) (keys : Keys) (id ahead : List ℕ) (ids : List (List ℕ)) (items others : List ItemText)
        (end other : Option RepoFault) → Comes files log keys id ahead ids items end → Comes files log keys id ahead ids others other
        → (items ≡ others) × (end ≡ other) }
    ensures whole { (files : Files) (log : LogState) (keys : Keys) (id : List ℕ) (ids : List (List ℕ)) (items : List ItemText)
        → Comes files log keys id [] ids items None ↔ IsStream files log keys ids items }
    ensures fits { (files : Files) (log : LogState) (keys : Keys) (walk : WalkState) (fits : FitsWalk files log keys walk) (items : List ItemText)
        → IsToCome files log keys walk items None → IsStream files log keys walk.ids (fits.items ++ items) }
    ensures to_come { (files : Files) (log : LogState) (keys : Keys) (walk : WalkState) → FitsFiles files log
        → (items : List ItemText) × ((end : Option RepoFault) × IsToCome files log keys walk items end) }
{}

/// With the contents of whichever items are wanted, an archive reads to one end, or its record is refused for one cause, and never both;
/// and an archive of the manifest is whole and says one thing, or is refused for one cause, and never both.
pub fn whole_laws()
    ensures some { (wanted : List ItemText → List ItemText) (files : Files) (log : LogState) (keys : Keys) (id : List ℕ) → FitsFiles files log
        → ((reading : Reading) × ReadsArchive wanted files log keys id reading)
        ⊎ ((fault : RepoFault) × IsOfFiles fault × RefusesRecord files log keys id fault) }
    ensures one { (wanted : List ItemText → List ItemText) (files : Files) (log : LogState) (keys : Keys) (id : List ℕ) (a b : Reading)
        → ReadsArchive wanted files log keys id a → ReadsArchive wanted files log keys id b → a ≡ b }
    ensures apart { (wanted : List ItemText → List ItemText) (files : Files) (log : LogState) (keys : Keys) (id : List ℕ) (reading : Reading)
        (fault : RepoFault) → ReadsArchive wanted files log keys id reading → IsOfFiles fault → RefusesRecord files log keys id fault → ⊥ }
    ensures one_fault { (wanted : List ItemText → List ItemText) (files : Files) (log : LogState) (keys : Keys) (id : List ℕ) (f g : RepoFault)
        → IsOfFiles f → IsOfFiles g → RefusesArchive wanted files log keys id f → RefusesArchive wanted files log keys id g → f ≡ g }
    ensures some_whole { (files : Files) (log : LogState) (keys : Keys) (archives : List ArchiveRef) (name : List ℕ) (named : ArchiveRef)
        → FitsFiles files log → archive_named name archives ≡ Some named
        → ((whole : WholeArchive) × IsWhole files log keys archives name whole)
        ⊎ ((fault : RepoFault) × IsOfFiles fault × RefusesWhole files log keys archives name fault) }
    ensures one_whole { (files : Files) (log : LogState) (keys : Keys) (archives : List ArchiveRef) (name : List ℕ) (a b : WholeArchive)
        → IsWhole files log keys archives name a → IsWhole files log keys archives name b → a ≡ b }
    ensures whole_apart { (files : Files) (log : LogState) (keys : Keys) (archives : List ArchiveRef) (name : List ℕ) (whole : WholeArchive)
        (fault : RepoFault) → IsWhole files log keys archives name whole → IsOfFiles fault → RefusesWhole files log keys archives name fault → ⊥ }
    ensures one_cause { (files : Files) (log : LogState) (keys : Keys) (archives : List ArchiveRef) (name : List ℕ) (f g : RepoFault)
        → IsOfFiles f → IsOfFiles g → RefusesWhole files log keys archives name f → RefusesWhole files log keys archives name g → f ≡ g }
    ensures view { (files : Files) (secret : Secret) (name : List ℕ) (a b : WholeArchive)
        → HasWhole files secret name a → HasWhole files secret name b → a ≡ b }
{}

/// What fits a repository or a walk stays so where each blob that was there is there still: so over files to which others did something, and
/// by a log that has learnt more. What fits the log then is said by `fits_laws` of ferry_log.
pub fn kept_laws()
    ensures repo { (files others : Files) (repo : RepoState) (cached : Contents) (log : LogState) → FitsFiles others log
        → KeepsBlobs files repo.log others log → FitsRepo files repo cached → FitsRepo others (record repo { log = log }) cached }
    ensures walk { (files others : Files) (log after : LogState) (keys : Keys) (walk : WalkState) → KeepsBlobs files log others after
        → FitsWalk files log keys walk → FitsWalk others after keys walk }
    ensures replaced { (files : Files) (log : LogState) (name : Name) (bytes : List ℕ) → KeepsBlobs files log (replaced files name bytes) log }
    ensures appended { (files : Files) (log : LogState) (n : ℕ) (bytes : List ℕ)
        → KeepsBlobs files log (with_file files (FileName.Segment n) (segment_bytes files n ++ bytes)) log }
    ensures removed { (files : Files) (log : LogState) (n : ℕ) → FitsFiles (without_segment files n) log
        → KeepsBlobs files log (without_segment files n) log }
    ensures learnt { (files : Files) (log after : LogState)
        → ((id : List ℕ) (place : Place) → place_in log id ≡ Some place → place_in after id ≡ Some place) → KeepsBlobs files log files after }
{}

/// A chunk that was learnt is read where its blob lies, and each other one is what it was. What fits the repository and its walks stays so,
/// and so it does with another manifest.
pub fn learn_laws()
    ensures blob { (files : Files) (log : LogState) (id blob : List ℕ) (place : Place)
        → HasBlob files (with_learnt log id place) id blob ↔ IsBlobAt (segment_bytes files place.segment) place.at place.size blob }
    ensures chunk { (files : Files) (log : LogState) (keys : Keys) (id blob content : List ℕ) (place : Place) → id ≢ zero_id
        → IsBlobAt (segment_bytes files place.segment) place.at place.size blob → OpensBlob keys id blob content
        → HoldsChunk files (with_learnt log id place) keys id content }
    ensures others { (files : Files) (log : LogState) (keys : Keys) (id other content : List ℕ) (place : Place) → other ≢ id
        → HoldsChunk files (with_learnt log id place) keys other content ↔ HoldsChunk files log keys other content }
    ensures others_refused { (files : Files) (log : LogState) (keys : Keys) (id other : List ℕ) (place : Place) (fault : RepoFault) → other ≢ id
        → RefusesChunk files (with_learnt log id place) keys other fault ↔ RefusesChunk files log keys other fault }
    ensures keeps { (files : Files) (log : LogState) (id : List ℕ) (place : Place) → IsMissing log id
        → KeepsBlobs files log files (with_learnt log id place) }
    ensures fits { (files : Files) (repo : RepoState) (cached : Contents) (id blob : List ℕ) (place : Place) → IsMissing repo.log id
        → IsBlobAt (segment_bytes files place.segment) place.at place.size blob → FitsRepo files repo cached
        → FitsRepo files (record repo { log = with_learnt repo.log id place }) cached }
    ensures walk { (files : Files) (log : LogState) (keys : Keys) (id : List ℕ) (place : Place) (walk : WalkState) → IsMissing log id
        → FitsWalk files log keys walk → FitsWalk files (with_learnt log id place) keys walk }
    ensures renewed { (files : Files) (repo : RepoState) (cached : Contents) (manifest : ManifestText) → FitsRepo files repo cached
        → FitsRepo files (record repo { manifest = manifest }) cached }
    ensures renewed_walk { (files : Files) (repo : RepoState) (manifest : ManifestText) (walk : WalkState)
        → FitsWalk files repo.log repo.keys walk
        → FitsWalk files (record repo { manifest = manifest }).log (record repo { manifest = manifest }).keys walk }
{}
