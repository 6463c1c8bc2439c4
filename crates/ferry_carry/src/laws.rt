//! Laws of flights that share a source and a target, each the contract of a function with nothing to do.
ghost use Rattle.std.specs.Prelude.{◌≡◌, ◌∷◌, [], Err, IfSome, List, Ok, Option, false, ℕ};
ghost use Rattle.ferry_carry.specs.Accepting.{NamesNew};
ghost use Rattle.ferry_carry.specs.Carrying.{Origin};
ghost use Rattle.ferry_carry.specs.Flight.{FlightFits, Flies, IsCommitted};
ghost use Rattle.ferry_carry.specs.Grow.{IsNamedBy, KeepsMost};
ghost use Rattle.ferry_carry.specs.Naming.{TaggedRecord};
ghost use Rattle.ferry_carry.specs.Over.{OthersDid};
ghost use Rattle.ferry_carry.specs.Refusals.{IsLeft};
ghost use Rattle.ferry_carry.specs.declared.flight.Flight.{Flight};
ghost use Rattle.ferry_carry.specs.States.{target_state};
ghost use Rattle.ferry_carry.specs.declared.flight.Turn.{Turn};
ghost use Rattle.ferry_compare.specs.Compare.{Seen};
ghost use Rattle.ferry_disk.specs.Device.{Told, heard};
ghost use Rattle.ferry_manifest.specs.declared.manifest.ArchiveRef.{ArchiveRef};
ghost use Rattle.ferry_piece.specs.Adding.{HoldsRefused};
ghost use Rattle.ferry_piece.specs.Gather.{IsAmong};
ghost use Rattle.ferry_piece.specs.Puts.{Addition, Border};
ghost use Rattle.ferry_piece.specs.Stops.{is_target};
ghost use Rattle.ferry_piece.specs.declared.fault.CarryFault.{CarryFault};
ghost use Rattle.ferry_repo.specs.Opening.{RepoState};
ghost use Rattle.ferry_store.specs.Commit.{accepted_in};
ghost use Rattle.ferry_store.specs.Store.{StoreFits};
ghost use Rattle.ferry_store.specs.declared.store.Store.{Store};

/// What fits a flight fits it still over what others do to the source and the target between two of its turns, where they name other archives.
/// A difference that it met is one of the target in which it was met, whatever others put.
pub fn flight_laws()
    // Over what others added to the target.
    ensures over { (told : Option Told) (source : RepoState) (a b : Option Told) (store store_now : Store) (met : Seen) (flight : Flight)
        (names : List (List ℕ)) (added : List Addition) → FlightFits told source a store met flight → IfSome a (λ t. StoreFits false store t.history)
        → OthersDid names added store store_now a b → (IsAmong names flight.named.name → ⊥) → FlightFits told source b store_now met flight }
    // What was accepted of its name is committed still, where it was.
    ensures committed { (store store_now : Store) (names : List (List ℕ)) (added : List Addition) (a b : Option Told) (name : List ℕ)
        → OthersDid names added store store_now a b → (IsAmong names name → ⊥) → IsCommitted store name → IsCommitted store_now name }
    // That is what a turn of another did,
    ensures turn { (earlier : List Addition) (from : Origin) (name : List ℕ) (added : List Addition) (store store_now : Store) (a b : Option Told)
        (count after : ℕ) (turn : Turn) → Flies earlier from name added (target_state a count store) (target_state b after store_now) (Ok turn)
        → KeepsMost store store_now
        → IsNamedBy (accepted_in store) (name ∷ []) (accepted_in store_now) → OthersDid (name ∷ []) added store store_now a b }
    // by which its archive alone can be accepted,
    ensures named { (given : Option (List ℕ)) (source : RepoState) (store : Store) (named : ArchiveRef) (records : List TaggedRecord) (store_now : Store)
        (drawn drawn_now : Option (List ℕ)) → NamesNew given source store named records store_now drawn drawn_now
        → IsNamedBy (accepted_in store) (named.name ∷ []) (accepted_in store_now) }
    // and one that was refused, but not by the target.
    ensures refused { (earlier : List Addition) (from : Origin) (name : List ℕ) (at : Border) (limit most : ℕ) (added : List Addition)
        (store store_now : Store) (a b : Option Told) (count after : ℕ) (fault : CarryFault)
        → Flies earlier from name added (target_state a count store) (target_state b after store_now) (Err fault)
        → HoldsRefused {T = Turn} at limit store added store_now a b (Err fault) → is_target fault ≡ false → IsLeft most store b store_now
        → OthersDid [] added store store_now a b }
    // Over a source that others read.
    ensures source { (told later : Option Told) (source after : RepoState) (a : Option Told) (store : Store) (met : Seen) (flight : Flight)
        → heard later ≡ heard told → after ≡ source → FlightFits told source a store met flight → FlightFits later after a store met flight }
{}
