//! Laws of what is written, each the contract of a function with nothing to do.
ghost use Rattle.std.specs.Prelude.{◌≡◌, ◌≢◌, ◌++◌, ◌∷◌, ℕ, Bool, List, [], Option, Some, None, map};
ghost use Rattle.ferry_base.specs.Limits.{zero_id};
ghost use Rattle.ferry_disk.specs.Act.{History};
ghost use Rattle.ferry_disk.specs.Files.{Files};
ghost use Rattle.ferry_log.specs.Live.{live_blob};
ghost use Rattle.ferry_log.specs.Log.{Located};
ghost use Rattle.ferry_repo.specs.Opening.{OpensFilesTo, RepoState};
ghost use Rattle.ferry_repo.specs.declared.secret.Secret.{Secret};
ghost use Rattle.ferry_segment.specs.Entry.{LogEntry, PutEntry, DeleteEntry, CommitEntry};
ghost use Rattle.ferry_stops.specs.Entries.{Shows};
ghost use Rattle.ferry_store.specs.Dropping.{FitsLess, FitsWithout, IsWriting};
ghost use Rattle.ferry_store.specs.Standing.{CommitsManifest, HoldsManifest, Keeps, OpensLive, UnlocksSettings, committed_of, entries_committed};
ghost use Rattle.ferry_store.specs.Standing.{entries_of, live_in};
ghost use Rattle.ferry_store.specs.State.{ShowsStanding, Written, all_committed, with_entry};
ghost use Rattle.ferry_store.specs.Store.{StoreFits};
ghost use Rattle.ferry_store.specs.declared.store.Store.{Store};

/// Files that show entries which hold a manifest, with settings that open under a secret, open under it; and what opens is so.
pub fn store_laws()
    ensures opens { (secret : Secret) (files : Files) (repo : RepoState) (entries : List LogEntry) → Shows files (Some entries)
        → UnlocksSettings secret files.config repo.config repo.keys → HoldsManifest repo entries → OpensLive files secret repo entries }
    // What a stop leaves where what was committed is shown with the settings as they are.
    ensures stands { (secret : Secret) (files : Files) (repo : RepoState) (written : Written) → ShowsStanding written files
        → UnlocksSettings secret written.config repo.config repo.keys → CommitsManifest repo written.committed
        → OpensLive files secret repo (committed_of written) }
    // What was put keeps the manifest, so it is held once all is committed.
    ensures committed { (repo : RepoState) (written : Written) → Keeps (committed_of written) (entries_of written)
        → CommitsManifest repo written.committed → CommitsManifest repo (all_committed written).committed }
    ensures unlocks { (files : Files) (secret : Secret) (repo : RepoState) → OpensFilesTo files secret repo
        → UnlocksSettings secret files.config repo.config repo.keys }
    ensures holds { (files : Files) (secret : Secret) (repo : RepoState) (entries : List LogEntry) → OpensFilesTo files secret repo
        → Shows files (Some entries) → HoldsManifest repo entries }
{}

/// What is live by a list of entries is what is live by a log of them; each entry that is put changes what is live of its own id alone.
pub fn live_laws()
    ensures located { (id : List ℕ) (log : List Located) → live_in id (map (λ (e : Located). e.entry) log) ≡ live_blob id log }
    ensures put { (id blob : List ℕ) (entries : List LogEntry) → live_in id (entries ++ PutEntry id blob ∷ []) ≡ Some blob }
    ensures others { (id blob other : List ℕ) (entries : List LogEntry) → other ≢ id
        → live_in other (entries ++ PutEntry id blob ∷ []) ≡ live_in other entries }
    ensures commit { (id : List ℕ) (entries : List LogEntry) → live_in id (entries ++ CommitEntry ∷ []) ≡ live_in id entries }
    // With a manifest put, and all committed, each other id is what it was.
    ensures manifest { (written : Written) (blob id : List ℕ) → id ≢ zero_id
        → live_in id (entries_committed (with_entry written (PutEntry zero_id blob))) ≡ live_in id (entries_of written) }
{}

/// What is live is kept by entries that are the same, from list to list, by a COMMIT, and by a PUT of an id that isn't live; and with it is the
/// manifest.
pub fn keeps_laws()
    ensures same { (entries : List LogEntry) → Keeps entries entries }
    ensures both { (a b c : List LogEntry) → Keeps a b → Keeps b c → Keeps a c }
    ensures commit { (written : Written) → Keeps (entries_of written) (entries_committed written) }
    ensures put { (id blob : List ℕ) (entries : List LogEntry) → live_in id entries ≡ None → Keeps entries (entries ++ PutEntry id blob ∷ []) }
    ensures manifest { (repo : RepoState) (a b : List LogEntry) → Keeps a b → HoldsManifest repo a → HoldsManifest repo b }
{}

/// What holds of a store from which chunks are dropped: first of one from which none was, and then behind each commit.
pub fn drop_laws()
    ensures begin { (counts : Bool) (store : Store) (history : History) → StoreFits counts store history → FitsWithout counts [] store history }
    ensures writing { (reads counts : Bool) (dropped : List (List ℕ)) (store : Store) (history : History)
        → FitsLess reads counts dropped store history → IsWriting store history }
    // A DELETE takes its id away, and each other id is what it was.
    ensures gone { (id : List ℕ) (entries : List LogEntry) → live_in id (entries ++ DeleteEntry id ∷ []) ≡ None }
    ensures others { (id other : List ℕ) (entries : List LogEntry) → other ≢ id
        → live_in other (entries ++ DeleteEntry id ∷ []) ≡ live_in other entries }
{}
