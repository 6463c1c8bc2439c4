//! Laws of comparisons, each the contract of a function with nothing to do.
ghost use Rattle.std.specs.Prelude.{◌≡◌, Option, Some};
ghost use Rattle.ferry_disk.specs.Device.{Told, told_files};
ghost use Rattle.ferry_log.specs.State.{LogState};
ghost use Rattle.ferry_manifest.specs.Manifest.Text.{ManifestText};
ghost use Rattle.ferry_repo.specs.Archives.{archive_named};
ghost use Rattle.ferry_repo.specs.Objects.{KeepsBlobs};
ghost use Rattle.ferry_repo.specs.Opening.{RepoState};
ghost use Rattle.ferry_compare.specs.Compare.{ComparisonState, FitsTold, Seen};

/// What fits a comparison stays so after other work on the target, where each blob that was there is there still, and the manifest has the
/// same for the name. A difference that was met is one of the files in which it was met, whatever is done later.
pub fn kept_laws()
    ensures target { (told : Option Told) (source target : RepoState) (before after : Told) (log : LogState) (manifest : ManifestText) (met : Seen)
        (state : ComparisonState) → KeepsBlobs (told_files before) target.log (told_files after) log
        → archive_named state.name manifest.archives ≡ archive_named state.name target.manifest.archives
        → FitsTold told source (Some before) target met state
        → FitsTold told source (Some after) (record target { log = log; manifest = manifest }) met state }
{}
