//! Laws of the command that restores an archive, the contract of a function with nothing to do.
ghost use Rattle.std.specs.Prelude.{◌≡◌, false, true, ℕ, List, Option, Some, Ok};
ghost use Rattle.ferry_disk.specs.Device.{Told, told_files};
ghost use Rattle.ferry_repo.specs.declared.secret.Secret.{Secret};
ghost use Rattle.ferry_run_restore.specs.Restoring.{CanBeRestored, DoesWords, HasArchive, IsRefusedFull, IsRestoredUnless};
ghost use Rattle.ferry_run_restore.specs.declared.restored.Restored.{Restored};
ghost use Rattle.ferry_status.specs.Devices.{Written};
ghost use Rattle.ferry_tree.specs.Nodes.{Planted, is_bare};

/// Where the source opens, the archive of the name is whole, each of its items has a place, and the tree is empty, the archive is restored to its end, and else
/// nothing but want of memory and a device that failed is why. Where the source opens, has the archive, and the tree has a
/// node, that is the status, or want of memory or a failed device is.
pub fn restoring_laws()
    ensures complete { (source : Told) (secret : Secret) (name : List ℕ) (before : Planted) (after : Option Planted)
        (output printed : Written) (ended : Restored) → CanBeRestored (told_files source) secret name → is_bare before ≡ true
        → DoesWords (Ok name) (Some source) secret (Some before) output ended after printed → IsRestoredUnless ended }
    ensures full { (source : Told) (secret : Secret) (name : List ℕ) (before : Planted) (after : Option Planted)
        (output printed : Written) (ended : Restored) → HasArchive (told_files source) secret name → is_bare before ≡ false
        → DoesWords (Ok name) (Some source) secret (Some before) output ended after printed → IsRefusedFull ended }
{}
