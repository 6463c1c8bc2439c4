//! Laws of the log, each the contract of a function with nothing to do.
ghost use Rattle.std.specs.Prelude.{◌≡◌, ◌≢◌, ◌⊎◌, ◌+◌, ◌<◌, ◌≤◌, ◌++◌, ℕ, List, length, Option, Some, None};
ghost use Rattle.std.specs.FinMap.{get};
ghost use Rattle.ferry_segment.specs.Entry.{IsBytes};
ghost use Rattle.ferry_disk.specs.Act.{replaced};
ghost use Rattle.ferry_disk.specs.Files.{Files, segment_bytes, with_file, without_segment};
ghost use Rattle.ferry_disk.specs.declared.name.Name.{Name};
ghost use Rattle.ferry_disk.specs.declared.name.Name.TheVariants as FileName;
ghost use Rattle.ferry_segment.specs.declared.head.Head.{Head};
ghost use Rattle.ferry_log.specs.declared.place.Place.{Place};
ghost use Rattle.ferry_log.specs.Live.{live_blob, live_place};
ghost use Rattle.ferry_log.specs.Head.{IsHeadAt, IsUnreadAt};
ghost use Rattle.ferry_log.specs.Log.{Located, IsTransaction, IsUncommitted, IsLog, IsDamaged};
ghost use Rattle.ferry_log.specs.State.{LogState, IsStateOf, FitsFiles, IsBlobAt, place_in, with_learnt};

/// Files have one log, or one first place that doesn't read, or no committed segment, and never two of these.
pub fn log_laws()
    ensures some { (files : Files) → ((n : ℕ) → IsBytes (segment_bytes files n))
        → IsUncommitted files ⊎ (((t : ℕ) × (log : List Located) × IsLog files t log) ⊎ ((s : ℕ) × (at : ℕ) × IsDamaged files s at)) }
    ensures one_transaction { (files : Files) (t u : ℕ) → IsTransaction files t → IsTransaction files u → t ≡ u }
    ensures one_log { (files : Files) (t u : ℕ) (log other : List Located) → IsLog files t log → IsLog files u other → (t ≡ u) × (log ≡ other) }
    ensures one_place { (files : Files) (s u a b : ℕ) → IsDamaged files s a → IsDamaged files u b → (s ≡ u) × (a ≡ b) }
    ensures uncommitted { (files : Files) (t : ℕ) → IsUncommitted files → IsTransaction files t → ⊥ }
    ensures apart { (files : Files) (s at t : ℕ) (log : List Located) → IsDamaged files s at → IsLog files t log → ⊥ }
    ensures one_state { (files : Files) (a b : LogState) → IsStateOf files a → IsStateOf files b → a ≡ b }
{}

/// What fits a log: files as they were opened do, and each key has a blob at its place; what a layer above does to other files keeps it.
pub fn fits_laws()
    ensures opened { (files : Files) (state : LogState) → IsStateOf files state → FitsFiles files state }
    // Over files as they were opened, the place of a live key is where its blob lies, and a key without a place has no blob.
    ensures places { (files : Files) (state : LogState) (is : IsStateOf files state) (key : List ℕ) (place : Place) → place_in state key ≡ Some place
        → (blob : List ℕ) × (live_blob key is.log ≡ Some blob) × IsBlobAt (segment_bytes files place.segment) place.at place.size blob }
    ensures no_place { (files : Files) (state : LogState) (is : IsStateOf files state) (key : List ℕ) → place_in state key ≡ None
        → live_blob key is.log ≡ None }
    // A blob lies at the place of each live key, also of a learnt one.
    ensures lies { (files : Files) (state : LogState) (key : List ℕ) (place : Place) → FitsFiles files state → place_in state key ≡ Some place
        → (blob : List ℕ) × IsBlobAt (segment_bytes files place.segment) place.at place.size blob }
    // Kept by a plain file that is replaced, by an append to a segment above the transaction, and by the removal of one there that
    // holds no learnt blob. A call that reads and a sync change no file.
    ensures replaced { (files : Files) (state : LogState) (name : Name) (bytes : List ℕ) → FitsFiles files state
        → FitsFiles (replaced files name bytes) state }
    ensures appended { (files : Files) (state : LogState) (n : ℕ) (bytes : List ℕ) → state.transaction < n → FitsFiles files state
        → FitsFiles (with_file files (FileName.Segment n) (segment_bytes files n ++ bytes)) state }
    ensures removed { (files : Files) (state : LogState) (n : ℕ) → state.transaction < n
        → ((key : List ℕ) (place : Place) → get state.learnt key ≡ Some place → place.segment ≡ n → ⊥) → FitsFiles files state
        → FitsFiles (without_segment files n) state }
    // Kept by a key that is learnt with a place in its segment.
    ensures learnt { (files : Files) (state : LogState) (key : List ℕ) (place : Place) → place.at + place.size ≤ length (segment_bytes files place.segment)
        → FitsFiles files state → FitsFiles files (with_learnt state key place) }
{}

/// A key that is learnt has its place from then on, and the places of the others stay.
pub fn learn_laws()
    ensures place { (state : LogState) (key : List ℕ) (place : Place) → place_in (with_learnt state key place) key ≡ Some place }
    ensures others { (state : LogState) (key other : List ℕ) (place : Place) → other ≢ key
        → place_in (with_learnt state key place) other ≡ place_in state other }
{}

/// At a place one thing reads, or nothing does.
pub fn head_laws()
    ensures one_head { (bytes : List ℕ) (at : ℕ) (a b : Option Head) → IsHeadAt bytes at a → IsHeadAt bytes at b → a ≡ b }
    ensures apart { (bytes : List ℕ) (at : ℕ) (head : Option Head) → IsHeadAt bytes at head → IsUnreadAt bytes at → ⊥ }
{}
