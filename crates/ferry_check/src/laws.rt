//! Laws of checks, each the contract of a function with nothing to do.
ghost use Rattle.std.specs.Prelude.{◌≡◌, ◌⊎◌, ℕ, List, IsSome};
ghost use Rattle.ferry_disk.specs.Files.{Files};
ghost use Rattle.ferry_log.specs.State.{FitsFiles, place_in};
ghost use Rattle.ferry_manifest.specs.Manifest.Writing.{AreIncreasing, archive_names};
ghost use Rattle.ferry_repo.specs.Objects.{HoldsObject};
ghost use Rattle.ferry_repo.specs.Opening.{RepoState};
ghost use Rattle.ferry_repo.specs.declared.fault.RepoFault.{RepoFault};
ghost use Rattle.ferry_check.specs.Verify.{Verifies, FilesVerify, BadArchive, BadName, FirstBad};
ghost use Rattle.ferry_repo.specs.declared.secret.Secret.{Secret};

/// A repository that files fit verifies or has a first fault, one and no more, and never both. Where the names of a manifest increase, an
/// archive that is refused first is the one of the least name. Where files verify under a secret, each live id opens, the manifest's too.
pub fn check_laws()
    ensures some { (files : Files) (repo : RepoState) → FitsFiles files repo.log → Verifies files repo ⊎ ((fault : RepoFault) × FirstBad files repo fault) }
    ensures apart { (files : Files) (repo : RepoState) (fault : RepoFault) → Verifies files repo → FirstBad files repo fault → ⊥ }
    ensures one { (files : Files) (repo : RepoState) (f g : RepoFault) → FirstBad files repo f → FirstBad files repo g → f ≡ g }
    ensures names { (files : Files) (repo : RepoState) (fault : RepoFault) → AreIncreasing (archive_names repo.manifest.archives)
        → BadArchive files repo fault → BadName files repo fault }
    ensures live { (files : Files) (secret : Secret) (verify : FilesVerify files secret) (id : List ℕ)
        → IsSome (place_in verify.repo.log id) → (content : List ℕ) × HoldsObject files verify.repo.log verify.repo.keys id content }
{}
