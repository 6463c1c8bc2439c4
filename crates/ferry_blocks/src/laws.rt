//! Laws of the end of the counter blocks, each the contract of a function with nothing to do.
ghost use Rattle.std.specs.Prelude.{◌≡◌, ◌≤◌, ℕ, List};
ghost use Rattle.std.specs.FinMap.{get};
ghost use Rattle.ferry_disk.specs.Act.{untouched};
ghost use Rattle.ferry_disk.specs.Files.{Files};
ghost use Rattle.ferry_stops.specs.Blobs.{HasBlob, FileHasBlob, BlobOf};
ghost use Rattle.ferry_stops.specs.Counters.{AreBelow};
ghost use Rattle.ferry_blocks.specs.Blocks.{IsStatedFrom, TakesBlocks, IsCountedBlob, IsEndOfBlocks};

/// Files have one end of blocks at most, which is the least number above each of the blocks.
pub fn end_laws()
    ensures one { (files : Files) (a b : ℕ) → IsEndOfBlocks files a → IsEndOfBlocks files b → a ≡ b }
    ensures least { (files : Files) (end value : ℕ) → IsEndOfBlocks files end
        → AreBelow (IsCountedBlob files) value → end ≤ value }
{}

/// What reads is stated, so that its blocks are below the end.
pub fn read_laws()
    ensures read { (bytes blob : List ℕ) → HasBlob bytes blob → IsStatedFrom bytes 8 blob }
    ensures above { (files : Files) (end value segment : ℕ) → IsEndOfBlocks files end → end ≤ value
        → AreBelow (λ blob. FileHasBlob (get files.segments segment) blob × TakesBlocks blob) value }
    // At the begin of a run these are all blobs that were put before.
    ensures taken { (files : Files) (end value : ℕ) → IsEndOfBlocks files end → end ≤ value
        → AreBelow (λ blob. BlobOf (untouched files) blob × TakesBlocks blob) value }
{}
