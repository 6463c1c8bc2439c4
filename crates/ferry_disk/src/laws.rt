//! Laws of images and moments, each the contract of a function with nothing to do.
ghost use Rattle.std.specs.Prelude.{◌≡◌, ◌↔◌, ◌⊎◌, ◌++◌, ◌∷◌, ◌≤◌, ℕ, Bool, true, false, List, [], length, Option, Result, IsTrue};
ghost use Rattle.ferry_disk.specs.Act.{Step, Act, did, undone, History, IsPlain, applied, with_act};
ghost use Rattle.ferry_disk.specs.Act.{AppendTo, SyncOf, RemoveOf, ReplaceBy, SettleAll, TellOf};
ghost use Rattle.ferry_disk.specs.Choice.{moment_of, MayList, Describes};
ghost use Rattle.ferry_disk.specs.Device.{Told, Acts, KeepsTold, store_failed};
ghost use Rattle.ferry_disk.specs.Faults.{EndsAtFault};
ghost use Rattle.ferry_disk.specs.Files.{Files};
ghost use Rattle.ferry_disk.specs.Image.{settled, IsImage};
ghost use Rattle.ferry_disk.specs.ImageSteps.{Appends, Syncs, Removes, Replaces, Stands};
ghost use Rattle.ferry_disk.specs.Moments.{Moments, IsMoment, with_steps};
ghost use Rattle.ferry_disk.specs.declared.choice.Choice.{Choice};
ghost use Rattle.ferry_disk.specs.declared.name.Name.{Name};
ghost use Rattle.ferry_disk.specs.declared.shelf.StoreFault.{StoreFault};

/// A depot's call that writes makes no call after one that failed, and neither does a body that only reads.
pub fn fault_laws()
    ensures act { (step : Step) (before now : Option Told) (result : Result (Unit {0}) StoreFault)
        → Acts step before now result → EndsAtFault store_failed before now result }
    ensures same { (before now : Option Told) (result : Result (Unit {0}) StoreFault)
        → KeepsTold store_failed before now result → EndsAtFault store_failed before now result }
{}

/// There is an image of any acts. Until the first Settle is done it is the start alone; from then on what a read gives is an image. A
/// run that begins with an image and has made no act, or a Settle alone, has that one image.
pub fn image_laws()
    ensures some { (start : Files) (acts : List Act) → (image : Files) × IsImage start acts image }
    ensures start { (start : Files) (acts : List Act) (image : Files) → settled acts ≡ false → IsImage start acts image ↔ (image ≡ start) }
    ensures read { (start : Files) (acts : List Act) → settled acts ≡ true → IsImage start acts (applied start acts) }
    ensures begun { (image next : Files) → IsImage image [] next ↔ (next ≡ image) }
    ensures settled { (image next : Files) → IsImage image (did SettleAll ∷ []) next ↔ (next ≡ image) }
{}

/// The images of one more act, by those before it: one clause for each kind of act, where a Settle is done.
pub fn step_laws()
    ensures append { (start : Files) (acts : List Act) (n : ℕ) (bytes : List ℕ) (done : Bool) (image : Files) → settled acts ≡ true
        → IsImage start (acts ++ record { step = AppendTo n bytes; done = done } ∷ []) image ↔ Appends start acts n bytes image }
    ensures sync { (start : Files) (acts : List Act) (n : ℕ) (image : Files) → settled acts ≡ true
        → IsImage start (acts ++ did (SyncOf n) ∷ []) image ↔ Syncs start acts n image }
    ensures sync_undone { (start : Files) (acts : List Act) (n : ℕ) (image : Files)
        → IsImage start (acts ++ undone (SyncOf n) ∷ []) image ↔ IsImage start acts image }
    ensures remove { (start : Files) (acts : List Act) (n : ℕ) (image : Files) → settled acts ≡ true
        → IsImage start (acts ++ did (RemoveOf n) ∷ []) image ↔ Removes start acts n image }
    ensures remove_undone { (start : Files) (acts : List Act) (n : ℕ) (image : Files) → settled acts ≡ true
        → IsImage start (acts ++ undone (RemoveOf n) ∷ []) image ↔ (IsImage start acts image ⊎ Removes start acts n image) }
    ensures replace { (start : Files) (acts : List Act) (name : Name) (bytes : List ℕ) (image : Files) → settled acts ≡ true → IsPlain name
        → IsImage start (acts ++ did (ReplaceBy name bytes) ∷ []) image ↔ Replaces start acts name bytes image }
    ensures replace_undone { (start : Files) (acts : List Act) (name : Name) (bytes : List ℕ) (image : Files) → settled acts ≡ true → IsPlain name
        → IsImage start (acts ++ undone (ReplaceBy name bytes) ∷ []) image
        ↔ (Stands start acts name image ⊎ Replaces start acts name bytes image) }
    ensures settle { (start : Files) (acts : List Act) (image : Files)
        → IsImage start (acts ++ did SettleAll ∷ []) image ↔ (image ≡ applied start acts) }
    ensures settle_undone { (start : Files) (acts : List Act) (image : Files)
        → IsImage start (acts ++ undone SettleAll ∷ []) image ↔ IsImage start acts image }
    ensures tell { (start : Files) (acts : List Act) (line : List ℕ) (done : Bool) (image : Files)
        → IsImage start (acts ++ record { step = TellOf line; done = done } ∷ []) image ↔ IsImage start acts image }
{}

/// `Moments` says what it says of each moment between: of each front of the acts, and of each with its last act taken as not done. And what
/// holds of each moment holds by `Moments`, where all acts between are done but perhaps the last.
pub fn moment_laws()
    ensures each { (p : History → Bool) (before now moment : History) → Moments (λ h. IsTrue (p h)) before now → IsMoment before now moment
        → IsTrue (p moment) }
    ensures done { (p : History → Bool) (before : History) (steps : List Step)
        → ((moment : History) → IsMoment before (with_steps steps before) moment → IsTrue (p moment))
        → Moments (λ h. IsTrue (p h)) before (with_steps steps before) }
    ensures undone { (p : History → Bool) (before : History) (steps : List Step) (step : Step)
        → ((moment : History) → IsMoment before (with_act step false (with_steps steps before)) moment → IsTrue (p moment))
        → Moments (λ h. IsTrue (p h)) before (with_act step false (with_steps steps before)) }
{}

/// A choice describes one image at most, and one exactly where there are as many acts as it keeps and, where a Settle of the moment is done,
/// what it lists of each segment may be left.
pub fn choice_laws()
    ensures one { (choice : Choice) (history : History) (a b : Files) → Describes choice history a → Describes choice history b → a ≡ b }
    ensures some { (choice : Choice) (history : History) → choice.acts ≤ length history.acts
        → (settled (moment_of choice history.acts) ≡ true → MayList choice history.start (moment_of choice history.acts))
        → (image : Files) × Describes choice history image }
    ensures listed { (choice : Choice) (history : History) (image : Files) → Describes choice history image
        → settled (moment_of choice history.acts) ≡ true → MayList choice history.start (moment_of choice history.acts) }
{}
