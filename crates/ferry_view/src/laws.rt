//! Laws on what is shown of an archive, each the contract of a function with nothing to do.
ghost use Rattle.std.specs.Prelude.{◌≡◌, ◌⊎◌, ℕ, List};
ghost use Rattle.ferry_disk.specs.Files.{Files};
ghost use Rattle.ferry_log.specs.State.{FitsFiles};
ghost use Rattle.ferry_repo.specs.Opening.{RepoState};
ghost use Rattle.ferry_view.specs.Items.{IsItemListing, IsItemText, RefusesItems, IsFile, IsFileText, RefusesFile};
ghost use Rattle.ferry_view.specs.Output.{IsOfArchive};
ghost use Rattle.ferry_view.specs.declared.fault.ViewFault.{ViewFault};

/// The items of a name have a listing, or are refused for a cause, and never both; and one text is listed as far as the archive reads.
pub fn item_laws()
    ensures some { (files : Files) (repo : RepoState) (name : List ℕ) → FitsFiles files repo.log
        → ((text : List ℕ) × IsItemListing files repo name text)
        ⊎ ((fault : ViewFault) × IsOfArchive fault × RefusesItems files repo name fault) }
    ensures apart { (files : Files) (repo : RepoState) (name text : List ℕ) (fault : ViewFault)
        → IsItemListing files repo name text → IsOfArchive fault → RefusesItems files repo name fault → ⊥ }
    ensures one { (files : Files) (repo : RepoState) (name a b : List ℕ)
        → IsItemText files repo name a → IsItemText files repo name b → a ≡ b }
    ensures whole { (files : Files) (repo : RepoState) (name text : List ℕ)
        → IsItemListing files repo name text → IsItemText files repo name text }
{}

/// A path of a name has a content, or is refused for a cause, and never both; and one text is written as far as it reads.
pub fn file_laws()
    ensures some { (files : Files) (repo : RepoState) (name path : List ℕ) → FitsFiles files repo.log
        → ((text : List ℕ) × IsFile files repo name path text)
        ⊎ ((fault : ViewFault) × IsOfArchive fault × RefusesFile files repo name path fault) }
    ensures apart { (files : Files) (repo : RepoState) (name path text : List ℕ) (fault : ViewFault)
        → IsFile files repo name path text → IsOfArchive fault → RefusesFile files repo name path fault → ⊥ }
    ensures one { (files : Files) (repo : RepoState) (name path a b : List ℕ)
        → IsFileText files repo name path a → IsFileText files repo name path b → a ≡ b }
    ensures whole { (files : Files) (repo : RepoState) (name path text : List ℕ)
        → IsFile files repo name path text → IsFileText files repo name path text }
{}
