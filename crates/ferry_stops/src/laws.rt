//! Laws of stops, each the contract of a function with nothing to do.
ghost use Rattle.std.specs.Prelude.{◌≡◌, ◌⊎◌, ◌<◌, ◌≤◌, ◌++◌, ℕ, suc, true, false, List, [], ◌∷◌, map, Option, Some, None};
ghost use Rattle.std.specs.FinMap.{get};
ghost use Rattle.std.specs.List.{AllByRecursion};
ghost use Rattle.ferry_disk.specs.Act.{Step, Act, History, files_now, with_act, untouched, after_run, after_stop};
ghost use Rattle.ferry_disk.specs.Files.{Files, segment_numbers};
ghost use Rattle.ferry_disk.specs.Image.{Fate, at_rest, MayLeave, settled, ImageOf};
ghost use Rattle.ferry_log.specs.Log.{Located, IsUncommitted, IsLog};
ghost use Rattle.ferry_segment.specs.Entry.{LogEntry, CommitEntry, spelling};
ghost use Rattle.ferry_segment.specs.Segment.{magic, Committed};
ghost use Rattle.ferry_stops.specs.Blobs.{FileHasBlob, BlobOf, AllTraced};
ghost use Rattle.ferry_stops.specs.Chance.{IsLeft, EachStop, FileByNoChance};
ghost use Rattle.ferry_stops.specs.Counters.{IsNonce, IsAbove, IsKept, Counts, TakenBelow};
ghost use Rattle.ferry_stops.specs.Entries.{HaveBelow, IsOpen, Shows, ShowsAt};
ghost use Rattle.ferry_stops.specs.Ground.{IsHarmless, IsDraft, IsOwn};

/// What files show is what the log reads of them, and one thing.
pub fn entry_laws()
    ensures log { (files : Files) (transaction : ℕ) (log : List Located) → IsLog files transaction log
        → ShowsAt files (suc transaction) (Some (map (λ e. e.entry) log)) }
    ensures shown { (files : Files) (end : ℕ) (entries : List LogEntry) → ShowsAt files end (Some entries)
        → (transaction : ℕ) × (log : List Located) × (end ≡ suc transaction) × IsLog files transaction log × (map (λ e. e.entry) log ≡ entries) }
    ensures uncommitted { (files : Files) → IsUncommitted files → ShowsAt files 0 None }
    ensures unshown { (files : Files) → Shows files None → IsUncommitted files }
    ensures one { (files : Files) (a b : Option (List LogEntry)) → Shows files a → Shows files b → a ≡ b }
    // Entries below a number are those of the segments below it alone.
    ensures below { (files others : Files) (end : ℕ) (entries : List LogEntry) → ((n : ℕ) → n < end → get files.segments n ≡ get others.segments n)
        → HaveBelow files end entries → HaveBelow others end entries }
{}

/// What a stop leaves of a writer's ground.
pub fn ground_laws()
    // What a read gives is left by a stop, where each act is done.
    ensures now { (history : History) → AllByRecursion (λ (a : Act). a.done ≡ true) history.acts → settled history.acts ≡ true
        → IsLeft history (files_now history) }
    // A segment of data that is being written isn't committed by a stop, and one at rest that isn't committed stays so.
    ensures draft { (fate : Fate) → IsDraft fate → IsHarmless fate }
    ensures rest { (bytes : Option (List ℕ)) → IsOpen bytes → IsHarmless (at_rest bytes) }
    // Of a commit that is being written a stop leaves the whole, or nothing that is committed.
    ensures torn { (fate : Fate) (left : Option (List ℕ)) → fate.all ≡ Some (magic ++ spelling CommitEntry) → MayLeave fate left
        → IsOpen left ⊎ (left ≡ Some (magic ++ spelling CommitEntry)) }
    // Over a ground that is safe each stop shows what is committed.
    ensures shows { (end : ℕ) (committed : Option (List LogEntry)) (history : History) → IsOwn end committed history
        → EachStop (λ image. ShowsAt image end committed) history }
{}

/// What is known of blobs.
pub fn blob_laws()
    // At the start of a run, each is traced.
    ensures begin { (start : Files) (past : List Act) → AllTraced (record { start = start; past = past; acts = [] }) }
    // What a stop leaves by no chance has no other blobs, and neither has the world that follows.
    ensures image { (history : History) (image : Files) (segment : ℕ) (blob : List ℕ) → AllTraced history → IsLeft history image
        → FileHasBlob (get image.segments segment) blob → BlobOf history blob }
    ensures stop { (history : History) (image : Files) (blob : List ℕ) → AllTraced history → IsLeft history image
        → BlobOf (after_stop image history.acts history) blob → BlobOf history blob }
{}

/// What a counter's file says at each moment.
pub fn counter_laws()
    // Where a counter's next free number is above each block, so is what a stop leaves of its file, chance or none.
    ensures above { (free : ℕ) (history : History) (image : Files) → settled history.acts ≡ true → Counts free history → TakenBelow free history
        → ImageOf history image → IsAbove history image }
{}

/// Files with no segment, whose file `nonce` is absent or a number, are kept. What is kept at a moment is kept by the world that follows: by
/// the run after a stop, whatever the stop left by no chance, and by the run after one that ended without a stop. So it is kept over every
/// list of runs and stops.
pub fn kept_laws()
    ensures empty { (files : Files) (value : ℕ) → segment_numbers files ≡ [] → IsNonce files.nonce value → IsKept (untouched files) }
    ensures stop { (history : History) (image : Files) → IsKept history → AllTraced history → IsLeft history image
        → IsKept (after_stop image history.acts history) }
    ensures again { (history : History) → IsKept history → AllTraced history → IsLeft history (files_now history) → IsKept (after_run history) }
{}
