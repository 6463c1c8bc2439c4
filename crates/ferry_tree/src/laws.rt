//! Laws of restored trees, each the contract of a function with nothing to do.
ghost use Rattle.std.specs.Prelude.{◌≡◌, ℕ, List, None};
ghost use Rattle.ferry_disk.specs.Files.{Files};
ghost use Rattle.ferry_item.specs.Item.{ItemText};
ghost use Rattle.ferry_repo.specs.Opening.{RepoState};
ghost use Rattle.ferry_repo.specs.Walk.{WalkState, IsToCome};
ghost use Rattle.ferry_repo.specs.Whole.{IsWhole, WholeArchive};
ghost use Rattle.ferry_tree.specs.Growth.{Grown, IsTreeOf, ReadItem};
ghost use Rattle.ferry_tree.specs.Restoring.{AreRead, RefusesItems, SaysSomething};
ghost use Rattle.ferry_tree.specs.Wholes.{AreOf, ReadsWhole};
ghost use Rattle.ferry_tree.specs.declared.fault.RestoreFault.{RestoreFault};
ghost use Rattle.ferry_view.specs.Steps.{Begins};

/// What is restored to its end is a whole archive, item by item, and a whole archive reads to its end with all contents. Some items have one tree at most, and
/// where all of an archive have one, no item is refused and the stream isn't.
pub fn restore_laws()
    ensures whole { (files : Files) (repo : RepoState) (name : List ℕ) (walk : WalkState) (items : List ItemText) (reads : List ReadItem)
        → Begins files repo name walk → IsToCome files repo.log repo.keys walk items None → AreRead files repo items reads
        → (whole : WholeArchive) × (IsWhole files repo.log repo.keys repo.manifest.archives name whole × AreOf whole.items reads) }
    ensures reads { (files : Files) (repo : RepoState) (name : List ℕ) (whole : WholeArchive)
        → IsWhole files repo.log repo.keys repo.manifest.archives name whole → ReadsWhole files repo name whole }
    ensures one { (reads : List ReadItem) (a b : Grown) → IsTreeOf reads a → IsTreeOf reads b → a ≡ b }
    ensures apart { (files : Files) (repo : RepoState) (name : List ℕ) (walk : WalkState) (items : List ItemText) (reads : List ReadItem) (grown : Grown)
        (fault : RestoreFault) → Begins files repo name walk → IsToCome files repo.log repo.keys walk items None → AreRead files repo items reads
        → IsTreeOf reads grown → SaysSomething fault → RefusesItems files repo walk fault → ⊥ }
{}
