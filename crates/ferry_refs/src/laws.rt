//! Laws of references, each the contract of a function with nothing to do.
ghost use Rattle.std.specs.Prelude.{◌≡◌, ◌⊎◌, ℕ, Bool, true, List, Some, length};
ghost use Rattle.ferry_disk.specs.Files.{Files};
ghost use Rattle.ferry_log.specs.State.{FitsFiles};
ghost use Rattle.ferry_repo.specs.Fault.{IsOfFiles};
ghost use Rattle.ferry_repo.specs.Opening.{OpensFilesTo, RepoState};
ghost use Rattle.ferry_repo.specs.declared.fault.RepoFault.{RepoFault};
ghost use Rattle.ferry_repo.specs.declared.secret.Secret.{Secret};
ghost use Rattle.ferry_refs.specs.Deleting.{AreGoing, KeepsOthers, ShowsDeleted, ShowsEither};
ghost use Rattle.ferry_refs.specs.Refs.{Refs, RefusesRefs};
ghost use Rattle.ferry_refs.specs.Tagging.{AreFreed, AreOld, KeepsArchives, OldRecord, ShowsRenewed, ShowsTagged};
ghost use Rattle.ferry_check.specs.Report.{ArchiveRead, AreRead, untagged};
ghost use Rattle.ferry_segment.specs.Entry.{LogEntry};
ghost use Rattle.ferry_stops.specs.Entries.{Shows};
ghost use Rattle.ferry_store.specs.State.{found};

/// In a repository that files fit each id has a number of uses, or an archive doesn't read. An id has one number, and none where an archive doesn't
/// read; of the archives that don't read one is first, with one fault.
pub fn refs_laws()
    ensures some { (files : Files) (repo : RepoState) → FitsFiles files repo.log → ((id : List ℕ) → (n : ℕ) × Refs files repo id n)
        ⊎ ((fault : RepoFault) × IsOfFiles fault × RefusesRefs files repo fault) }
    ensures one { (files : Files) (repo : RepoState) (id : List ℕ) (m n : ℕ) → Refs files repo id m → Refs files repo id n → m ≡ n }
    ensures apart { (files : Files) (repo : RepoState) (id : List ℕ) (n : ℕ) (fault : RepoFault) → Refs files repo id n → IsOfFiles fault
        → RefusesRefs files repo fault → ⊥ }
    ensures fault { (files : Files) (repo : RepoState) (f g : RepoFault) → IsOfFiles f → IsOfFiles g → RefusesRefs files repo f
        → RefusesRefs files repo g → f ≡ g }
{}

/// What is left where an archive was deleted, or a stop came before it was: each other archive, as it was.
pub fn delete_laws()
    ensures kept { (secret : Secret) (start image : Files) (repo : RepoState) (name time : List ℕ) (committed : List LogEntry)
        → OpensFilesTo start secret repo → Shows start (Some committed)
        → ShowsEither start repo name time (found (Some committed) start) image
        → (gone : Bool) × KeepsOthers secret start repo name time gone image }
    // Behind the deletion the archive is gone.
    ensures gone { (secret : Secret) (start image : Files) (repo : RepoState) (name time : List ℕ) (committed : List LogEntry)
        → OpensFilesTo start secret repo → Shows start (Some committed)
        → ShowsDeleted start repo name time (found (Some committed) start) image
        → KeepsOthers secret start repo name time true image }
    // One list has the ids of all chunks that go.
    ensures ids { (files : Files) (repo : RepoState) (name : List ℕ) (ids others : List (List ℕ)) → AreGoing files repo name ids
        → AreGoing files repo name others → ids ≡ others }
{}

/// What is left where records have got their tags, or a stop came before they had: each archive, as it was.
pub fn tag_laws()
    ensures kept { (secret : Secret) (start image : Files) (repo : RepoState) (time : List ℕ) (committed : List LogEntry)
        → OpensFilesTo start secret repo → Shows start (Some committed)
        → ShowsRenewed start repo time (found (Some committed) start) image → (tagged : Bool) × KeepsArchives secret start repo time tagged image }
    // Behind the tagging no record is without a tag.
    ensures tagged { (secret : Secret) (start image : Files) (repo : RepoState) (time : List ℕ) (committed : List LogEntry)
        → OpensFilesTo start secret repo → Shows start (Some committed)
        → ShowsTagged start repo time (found (Some committed) start) image → KeepsArchives secret start repo time true image }
    // The archives without a tag are as many as a check of the repository counts.
    ensures count { (files : Files) (repo : RepoState) (olds : List OldRecord) (reads : List ArchiveRead) → AreOld files repo repo.manifest.archives olds
        → AreRead files repo repo.manifest.archives reads → length olds ≡ length (untagged reads) }
    // One list has the ids of all records that nothing uses any more.
    ensures ids { (files : Files) (repo : RepoState) (ids others : List (List ℕ)) → AreFreed files repo ids → AreFreed files repo others → ids ≡ others }
{}
