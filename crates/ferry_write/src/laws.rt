//! Laws of sessions, the contract of a function with nothing to do.
ghost use Rattle.std.specs.Prelude.{◌≡◌, ◌↔◌, ◌≤◌, ℕ, suc, Bool, List, Option, None};
ghost use Rattle.std.specs.List.Sorted.{IsStrictlyIncreasing};
ghost use Rattle.ferry_disk.specs.Act.{Step, SettleAll, History, files_now, with_act};
ghost use Rattle.ferry_disk.specs.Files.{Files};
ghost use Rattle.ferry_segment.specs.Entry.{LogEntry};
ghost use Rattle.ferry_stops.specs.Blobs.{BlobOf, AllTraced};
ghost use Rattle.ferry_stops.specs.Chance.{EachStop};
ghost use Rattle.ferry_stops.specs.Entries.{ShowsAt, Shows};
ghost use Rattle.ferry_write.specs.Room.{behind, after_entry};
ghost use Rattle.ferry_write.specs.Rows.{SessionRows};
ghost use Rattle.ferry_write.specs.Script.{numbers_from};
ghost use Rattle.ferry_write.specs.Session.{SessionFits, IsBeside};
ghost use Rattle.ferry_write.specs.declared.session.Session.{Session};

/// What holds of a session that fits, and what a layer above may do beside it.
pub fn session_laws()
    // Each stop shows what is committed, and so do the files that a read gives.
    ensures stops { (session : Session) (committed : Option (List LogEntry)) (pending : List LogEntry) (history : History)
        → SessionFits session committed pending history → EachStop (λ image. ShowsAt image (behind session.after) committed) history }
    ensures shows { (session : Session) (committed : Option (List LogEntry)) (pending : List LogEntry) (history : History)
        → SessionFits session committed pending history → EachStop (λ image. Shows image committed) history }
    ensures now { (session : Session) (committed : Option (List LogEntry)) (pending : List LogEntry) (history : History)
        → SessionFits session committed pending history → ShowsAt (files_now history) (behind session.after) committed }
    // A line that is told, and a file replaced that is no segment, done or not, keep all that is known of a session and of blobs.
    ensures beside { (session : Session) (committed : Option (List LogEntry)) (pending : List LogEntry) (history : History) (step : Step) (done : Bool)
        → IsBeside step → SessionFits session committed pending history → SessionFits session committed pending (with_act step done history) }
    ensures beside_rows { (session : Session) (history : History) (step : Step) (done : Bool) → IsBeside step → SessionRows session history
        → SessionRows session (with_act step done history) }
    ensures beside_traced { (history : History) (step : Step) (done : Bool) → IsBeside step → AllTraced history → AllTraced (with_act step done history) }
    ensures beside_blobs { (history : History) (step : Step) (done : Bool) (blob : List ℕ) → IsBeside step
        → BlobOf (with_act step done history) blob ↔ BlobOf history blob }
    // So does a Settle, where no segment is written.
    ensures settle { (session : Session) (committed : Option (List LogEntry)) (pending : List LogEntry) (history : History) (done : Bool)
        → session.size ≡ None → SessionFits session committed pending history
        → SessionFits session committed pending (with_act SettleAll done history) }
    ensures settle_rows { (session : Session) (committed : Option (List LogEntry)) (pending : List LogEntry) (history : History) (done : Bool)
        → session.size ≡ None → SessionFits session committed pending history → SessionRows session history
        → SessionRows session (with_act SettleAll done history) }
    // An entry takes one segment more at most.
    ensures grows { (session : Session) (more : ℕ)
        → (behind session.last ≤ behind (after_entry session more).last) × (behind (after_entry session more).last ≤ suc (behind session.last)) }
    // The segments that a session's begin removes rise in number.
    ensures rising { (end : ℕ) (files : Files) → IsStrictlyIncreasing (numbers_from end files) }
{}
