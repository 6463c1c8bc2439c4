//! Laws on the next manifest.

ghost use Rattle.std.specs.Prelude.{◌≡◌, ℕ, List, if◌then◌else◌, Some, None};
ghost use Rattle.std.specs.Str.{bytes_eq};
ghost use Rattle.ferry_manifest.specs.Manifest.Text.{ManifestText};
ghost use Rattle.ferry_manifest.specs.Manifest.Writing.{AreIncreasing, IsPackable, archive_names};
ghost use Rattle.ferry_manifest.specs.declared.manifest.ArchiveRef.{ArchiveRef};
ghost use Rattle.ferry_next.specs.Next.{IsUnion, next_manifest, union, with_archive, without_archive, without_entry};
ghost use Rattle.ferry_repo.specs.Archives.{archive_named};

/// Laws with nothing to run: what one more archive changes, what one less does, and which names are those of two lists.
pub fn next_laws()
    // Its name has it, and each other name has what it had.
    ensures named { (name : List ℕ) (archives : List ArchiveRef) (entry : ArchiveRef)
        → archive_named name (with_archive archives entry)
        ≡ (if bytes_eq entry.name name then Some entry else archive_named name archives) }
    ensures increasing { (archives : List ArchiveRef) (entry : ArchiveRef) → AreIncreasing (archive_names archives)
        → AreIncreasing (archive_names (with_archive archives entry)) }
    // Nothing else has these answers in byte order.
    ensures only { (archives : List ArchiveRef) (entry : ArchiveRef) (all : List ArchiveRef) → AreIncreasing (archive_names archives)
        → AreIncreasing (archive_names all)
        → ((name : List ℕ) → archive_named name all ≡ (if bytes_eq entry.name name then Some entry else archive_named name archives))
        → all ≡ with_archive archives entry }
    // Without an archive its name has none, and each other name has what it had.
    ensures without { (name other : List ℕ) (archives : List ArchiveRef)
        → archive_named other (without_archive archives name) ≡ (if bytes_eq name other then None else archive_named other archives) }
    // There is one list with the names of two lists.
    ensures union { (names more : List (List ℕ)) → IsUnion names more (union names more) }
    ensures one { (names more all : List (List ℕ)) → IsUnion names more all → all ≡ union names more }
    ensures packable { (manifest : ManifestText) (entry : ArchiveRef) (item_keys : List (List ℕ)) → IsPackable manifest
        → IsPackable (next_manifest manifest entry item_keys) }
    ensures packable_without { (manifest : ManifestText) (name : List ℕ) → IsPackable manifest → IsPackable (without_entry manifest name) }
{}
