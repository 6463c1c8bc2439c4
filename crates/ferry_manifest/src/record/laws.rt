//! Laws on what the packed records of archives mean.

ghost use Rattle.std.specs.Prelude.{◌≡◌, ◌≢◌, ◌↔◌, ◌⊎◌, ◌<◌, ◌^◌, ℕ, get_or, true, false, List, codes, Some, None, Ok, Err};
ghost use Rattle.ferry_mac.specs.declared.keys.Keys.{Keys};
ghost use Rattle.ferry_msgpack.specs.Tree.{Items, Pairs};
ghost use Rattle.ferry_fields.specs.Fields.{map_of, value_of};
ghost use Rattle.ferry_fields.specs.Others.{is_among, without};
ghost use Rattle.ferry_manifest.specs.Record.Text.{ArchiveText, apart_names, archive_of, ids_in, lacks_record_field, record_text};
ghost use Rattle.ferry_manifest.specs.Record.Writing.{AreIds, IsPackableArchive};
ghost use Rattle.ferry_manifest.specs.Stated.{IsTagged, StatesTag};
ghost use Rattle.ferry_manifest.specs.Tag.{archive_info, tag_of};
ghost use Rattle.ferry_manifest.specs.Values.{raws};
ghost use Rattle.ferry_manifest.specs.declared.fault.MetaFault.{MetaFault};

/// Laws with nothing to run: when each answer comes.
///
/// `archive_of` is a function, so the answers of `read_archive` exclude each other.
pub fn archive_laws()
    // A record is read exactly where the bytes are a map whose fields are right, and a tag that it states,
    // where it states one, is that of the bytes.
    ensures archive { (keys : Keys) (bytes : List ℕ) (archive : ArchiveText) → (archive_of keys bytes ≡ Ok archive)
        ↔ ((pairs : Pairs) × (map_of bytes ≡ Some pairs) × (lacks_record_field pairs ≡ false)
        × ((hmac salt : List ℕ) → StatesTag pairs hmac salt → tag_of archive_info keys salt bytes ≡ hmac)
        × (record_text pairs ≡ archive)) }
    // What is read of bytes can be written.
    ensures packable { (keys : Keys) (bytes : List ℕ) (archive : ArchiveText)
        → ((place : ℕ) → get_or bytes place 0 < 2 ^ 8)
        → archive_of keys bytes ≡ Ok archive → IsPackableArchive archive }
    // What is read as tagged has its tag in its place.
    ensures tagged { (keys : Keys) (bytes : List ℕ) (archive : ArchiveText) → archive_of keys bytes ≡ Ok archive
        → archive.tagged ≡ true
        → (pairs : Pairs) × (map_of bytes ≡ Some pairs) × IsTagged archive_info keys bytes pairs }
    // What is read as untagged has none.
    ensures untagged { (keys : Keys) (bytes : List ℕ) (archive : ArchiveText) → archive_of keys bytes ≡ Ok archive
        → archive.tagged ≡ false
        → (pairs : Pairs) × (map_of bytes ≡ Some pairs) × (value_of (codes "tam") pairs ≡ None) }
    // The bytes are no map exactly where that is the fault.
    ensures pack { (keys : Keys) (bytes : List ℕ)
        → (archive_of keys bytes ≡ Err MetaFault.Pack) ↔ (map_of bytes ≡ None) }
    // A field is at fault exactly where the bytes are a map with a field that isn't right.
    ensures field { (keys : Keys) (bytes : List ℕ) → (archive_of keys bytes ≡ Err MetaFault.Field)
        ↔ ((pairs : Pairs) × (map_of bytes ≡ Some pairs) × (lacks_record_field pairs ≡ true)) }
    // The tag is another one exactly where all fields are right and one is stated that differs.
    ensures tag { (keys : Keys) (bytes : List ℕ) → (archive_of keys bytes ≡ Err MetaFault.Tag)
        ↔ ((pairs : Pairs) × (hmac : List ℕ) × (salt : List ℕ) × (map_of bytes ≡ Some pairs)
        × (lacks_record_field pairs ≡ false) × StatesTag pairs hmac salt
        × (tag_of archive_info keys salt bytes ≢ hmac)) }
    // One of these answers always holds.
    ensures either { (keys : Keys) (bytes : List ℕ)
        → ((archive : ArchiveText) × (archive_of keys bytes ≡ Ok archive))
        ⊎ ((archive_of keys bytes ≡ Err MetaFault.Pack)
        ⊎ ((archive_of keys bytes ≡ Err MetaFault.Field) ⊎ (archive_of keys bytes ≡ Err MetaFault.Tag))) }
    // No bytes mean a tag that is missing, too many bytes or want of memory.
    ensures missing { (keys : Keys) (bytes : List ℕ) → archive_of keys bytes ≢ Err MetaFault.TagMissing }
    ensures large { (keys : Keys) (bytes : List ℕ) → archive_of keys bytes ≢ Err MetaFault.TooLarge }
    ensures memory { (keys : Keys) (bytes : List ℕ) → archive_of keys bytes ≢ Err MetaFault.Memory }
    // Values are ids exactly where they are raws of 32 bytes each.
    ensures ids { (items : Items) (ids : List (List ℕ))
        → (ids_in items ≡ Some ids) ↔ ((items ≡ raws ids) × AreIds ids) }
    // Each name of a record is among its fields with its value, but for `items`, `chunker_params` and `tam`.
    ensures kept { (pairs : Pairs) (name : List ℕ) → is_among apart_names name ≡ false
        → value_of name (without apart_names pairs) ≡ value_of name pairs }
    ensures apart { (pairs : Pairs) (name : List ℕ) → is_among apart_names name ≡ true
        → value_of name (without apart_names pairs) ≡ None }
{}
