//! Laws of the file `nonce`, each the contract of a function with nothing to do.
ghost use Rattle.std.specs.Prelude.{◌≡◌, ◌<◌, ◌^◌, ℕ, Bool, true, List, [], Option, None};
ghost use Rattle.ferry_disk.specs.Act.{Step, SettleAll, Act, History, with_act};
ghost use Rattle.ferry_disk.specs.Files.{Files};
ghost use Rattle.ferry_disk.specs.Image.{plain_in};
ghost use Rattle.ferry_disk.specs.declared.name.Name.TheVariants.{Nonce};
ghost use Rattle.ferry_nonce.specs.Counter.{CounterFits, LeavesNonce};
ghost use Rattle.ferry_nonce.specs.Text.{number_text};
ghost use Rattle.ferry_nonce.specs.declared.counter.Counter.{Counter};
ghost use Rattle.ferry_stops.specs.Counters.{IsNonce, SpellsNumber};

/// A file has one number at most, and what is written of a number spells it.
pub fn text_laws()
    ensures spelled { (number : ℕ) → number < 2 ^ 64 → SpellsNumber (number_text number) number }
    ensures one { (file : Option (List ℕ)) (a b : ℕ) → IsNonce file a → IsNonce file b → a ≡ b }
{}

/// Nothing of the file `nonce` is in doubt at the start of a run and behind a Settle that is done; and neither an act that doesn't replace it
/// brings a doubt, nor takes the file from a counter.
pub fn rest_laws()
    ensures begun { (start : Files) (past : List Act) → (plain_in (record { start = start; past = past; acts = [] }) Nonce).perhaps ≡ None }
    ensures settled { (history : History) → (plain_in (with_act SettleAll true history) Nonce).perhaps ≡ None }
    ensures left { (history : History) (step : Step) (done : Bool) → LeavesNonce step → (plain_in history Nonce).perhaps ≡ None
        → plain_in (with_act step done history) Nonce ≡ plain_in history Nonce }
    ensures fits { (counter : Counter) (history : History) (step : Step) (done : Bool) → LeavesNonce step → CounterFits counter history
        → CounterFits counter (with_act step done history) }
{}
