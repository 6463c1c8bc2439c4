//! Laws of a plan, each the contract of a function with nothing to do.
ghost use Rattle.std.specs.Prelude.{◌≡◌, ℕ, List, [], Option, Some, Ok, false};
ghost use Rattle.std.specs.List.{AllByRecursion};
ghost use Rattle.ferry_carry.specs.Counting.{CountsOf};
ghost use Rattle.ferry_store.specs.Commit.{IsSettled};
ghost use Rattle.ferry_carry.specs.Listing.{ListsNames};
ghost use Rattle.ferry_carry.specs.Naming.{TaggedRecord};
ghost use Rattle.ferry_carry.specs.Telling.{ReportsWhole};
ghost use Rattle.ferry_carry.specs.declared.options.Carried.{Carried as TheCarried};
ghost use Rattle.ferry_carry.specs.States.{drawn_from, target_state};
ghost use Rattle.ferry_disk.specs.Device.{Told, told_files};
ghost use Rattle.ferry_disk.specs.Files.{Files};
ghost use Rattle.ferry_mac.specs.declared.keys.Keys.{Keys};
ghost use Rattle.ferry_piece.specs.Gather.{IsAmong, NoCollision};
ghost use Rattle.ferry_piece.specs.Puts.{Addition, AddsAll, Border, contents_in};
ghost use Rattle.ferry_plan.specs.Fault.{IsOfWork};
ghost use Rattle.ferry_plan.specs.Plan.{Plans, RefusesPlan};
ghost use Rattle.ferry_plan.specs.Transfer.{AreNoRecords, HaveOtherIds, PutsPlanned, transfer_from};
ghost use Rattle.ferry_plan.specs.declared.fault.PlanFault.{PlanFault as TheFault};
ghost use Rattle.ferry_plan.specs.declared.planning.Planned.{Planned as ThePlanned};
ghost use Rattle.ferry_repo.specs.Opening.{OpensFilesTo, RepoState, repo_view};
ghost use Rattle.ferry_repo.specs.declared.secret.Secret.{Secret};
ghost use Rattle.ferry_segment.specs.Entry.{LogEntry};
ghost use Rattle.ferry_stops.specs.Entries.{Shows};
ghost use Rattle.ferry_store.specs.Store.{StoreFits};
ghost use Rattle.ferry_store.specs.declared.store.Store.{Store as TheStore};

/// What a plan counts is what a transfer puts of the same names, from the same files, in pieces of the same length, into the target as it was planned
/// for: where the transfer is done, and none of its pieces has the id of a record that it adds.
pub fn plan_laws()
    // By what `carry` says of a store that had committed what it accepted.
    ensures numbers { (there : Files) (source : RepoState) (block : ℕ) (files : Files) (names : List (List ℕ)) (planned : ThePlanned) (most : ℕ)
        (time : Option (List ℕ)) (store store_now : TheStore) (before : Told) (now : Option Told) (count after : ℕ) (drawn drawn_now : Option (List ℕ))
        (carried : TheCarried)
        → IsSettled store → StoreFits false store before.history → Plans there source block files (repo_view store.repo) names planned
        → (did : ReportsWhole (transfer_from there source block most time) names (target_state (Some before) count store)
        (target_state now after store_now) (drawn_from drawn drawn_now) (Ok carried))
        → HaveOtherIds (repo_view store.repo).keys did.added → PutsPlanned planned carried }
    // By the entries that the target's files showed, behind which that was added.
    ensures shown { (there : Files) (source : RepoState) (block : ℕ) (files : Files) (secret : Secret) (target : RepoState) (names : List (List ℕ))
        (planned : ThePlanned) (at : Border) (most : ℕ) (time : Option (List ℕ)) (entries after : List LogEntry) (records : List TaggedRecord)
        (added : List Addition) (carried : TheCarried)
        → OpensFilesTo files secret target → Shows files (Some entries) → Plans there source block files target names planned
        → ListsNames (transfer_from there source block most time) target.keys target.manifest [] names records added
        → AddsAll at target.keys most entries added after → CountsOf added carried → HaveOtherIds target.keys added → PutsPlanned planned carried }
    // Where no contents collide it is enough that no piece is a record.
    ensures apart { (keys : Keys) (scope : List (List ℕ)) (added : List Addition) → NoCollision keys scope
        → AllByRecursion (IsAmong scope) (contents_in added) → AreNoRecords added → HaveOtherIds keys added }
{}

/// Over files that both devices tell the answers of a plan exclude each other, but for a device that failed and want of memory.
pub fn answer_laws()
    // Where a plan is made it isn't refused.
    ensures made { (s t : Told) (source : RepoState) (block : ℕ) (target : RepoState) (names : List (List ℕ)) (planned : ThePlanned) (fault : TheFault)
        → Plans (told_files s) source block (told_files t) target names planned → IsOfWork fault
        → RefusesPlan (Some s) source block (Some t) target names fault → ⊥ }
    // And where it is refused, so, it isn't otherwise.
    ensures refused { (s t : Told) (source : RepoState) (block : ℕ) (target : RepoState) (names : List (List ℕ)) (fault other : TheFault)
        → IsOfWork fault → IsOfWork other → RefusesPlan (Some s) source block (Some t) target names fault
        → RefusesPlan (Some s) source block (Some t) target names other → fault ≡ other }
{}
