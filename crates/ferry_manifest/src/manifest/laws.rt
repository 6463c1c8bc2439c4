//! Laws on what packed manifests mean.

ghost use Rattle.std.specs.Prelude.{◌≡◌, ◌≢◌, ◌⊎◌, ◌↔◌, ◌≤◌, ◌<◌, ◌^◌, ℕ, get_or, true, false, List, ◌++◌, length, codes, replicate, Some, None, Ok, Err};
ghost use Rattle.std.specs.List.{list_any};
ghost use Rattle.std.specs.Str.{bytes_eq};
ghost use Rattle.ferry_mac.specs.declared.keys.Keys.{Keys};
ghost use Rattle.ferry_msgpack.specs.Tree.{Pairs, raw, table, put};
ghost use Rattle.ferry_msgpack.specs.Spelling.{Spells};
ghost use Rattle.ferry_fields.specs.Fields.{map_of, value_of};
ghost use Rattle.ferry_manifest.specs.Manifest.Text.{ManifestText, in_order, lacks_field, manifest_of};
ghost use Rattle.ferry_manifest.specs.Manifest.Laws.{IsRead};
ghost use Rattle.ferry_manifest.specs.Place.{TagStands, first_place};
ghost use Rattle.ferry_manifest.specs.Stated.{IsTagged, StatesTag};
ghost use Rattle.ferry_manifest.specs.Tag.{manifest_info, tag_of};
ghost use Rattle.ferry_manifest.specs.Walk.{zeroed};
ghost use Rattle.ferry_manifest.specs.Manifest.Writing.{AreIncreasing, IsPackable};
ghost use Rattle.ferry_manifest.specs.declared.fault.MetaFault.{MetaFault};

/// Laws with nothing to run: the place of the authentication tag in packed bytes, and when each answer
/// comes.
///
/// `manifest_of` is a function, so the answers of `read_manifest` exclude each other, and one of them
/// always holds.
pub fn manifest_laws()
    // The tag has one place.
    ensures place { (bytes front tag back : List ℕ) (front2 tag2 back2 : List ℕ)
        → TagStands bytes front tag back → TagStands bytes front2 tag2 back2
        → (front ≡ front2) × (tag ≡ tag2) × (back ≡ back2) }
    // A map with a tag has it there.
    ensures stands { (bytes tag : List ℕ) (pairs tam : Pairs) → Spells (table pairs) bytes
        → value_of (codes "tam") pairs ≡ Some (table tam) → value_of (codes "hmac") tam ≡ Some (raw tag)
        → length tag ≡ 64 → (front : List ℕ) × ((back : List ℕ) × TagStands bytes front tag back) }
    // With any other 64 bytes there, the bytes spell the same map but that `hmac` is those bytes.
    ensures other { (bytes tag : List ℕ) (pairs tam : Pairs) (front back other : List ℕ)
        → Spells (table pairs) bytes → value_of (codes "tam") pairs ≡ Some (table tam)
        → value_of (codes "hmac") tam ≡ Some (raw tag) → TagStands bytes front tag back → length other ≡ 64
        → Spells (table (put (codes "tam") (table (put (codes "hmac") (raw other) tam)) pairs))
        (front ++ (other ++ back)) }
    // Where the tag's bytes don't also stand earlier, this place is their first occurrence.
    ensures first { (bytes front tag back : List ℕ) → TagStands bytes front tag back
        → ((before after : List ℕ) → bytes ≡ before ++ (tag ++ after) → length front ≤ length before)
        → first_place tag bytes ≡ Some (length front) }
    // The tag is made of the bytes with 64 zero bytes there.
    ensures zeroed { (bytes front tag back : List ℕ) → TagStands bytes front tag back
        → zeroed bytes ≡ front ++ (replicate 64 0 ++ back) }

    // What is read of bytes can be written: so the names of its archives are in strictly increasing order.
    ensures packable { (keys : Keys) (bytes : List ℕ) (manifest : ManifestText)
        → ((place : ℕ) → get_or bytes place 0 < 2 ^ 8)
        → manifest_of keys bytes ≡ Ok manifest → IsPackable manifest }
    // What is read has its tag in its place.
    ensures tagged { (keys : Keys) (bytes : List ℕ) (manifest : ManifestText)
        → manifest_of keys bytes ≡ Ok manifest
        → (pairs : Pairs) × (map_of bytes ≡ Some pairs) × IsTagged manifest_info keys bytes pairs }
    // A text is read exactly where the map has all fields and states the tag that the bytes have to have.
    ensures ok { (keys : Keys) (bytes : List ℕ) (manifest : ManifestText)
        → (manifest_of keys bytes ≡ Ok manifest) ↔ IsRead keys bytes manifest }
    // A text is read or refused for one cause, and never both.
    ensures either { (keys : Keys) (bytes : List ℕ) → ((manifest : ManifestText) × (manifest_of keys bytes ≡ Ok manifest))
        ⊎ ((fault : MetaFault) × (manifest_of keys bytes ≡ Err fault)) }
    ensures apart { (keys : Keys) (bytes : List ℕ) (manifest : ManifestText) (fault : MetaFault)
        → manifest_of keys bytes ≡ Ok manifest → manifest_of keys bytes ≡ Err fault → ⊥ }
    // Bytes are refused as no map exactly where they spell none, with nothing behind it.
    ensures pack { (keys : Keys) (bytes : List ℕ)
        → (manifest_of keys bytes ≡ Err MetaFault.Pack) ↔ (map_of bytes ≡ None) }
    // A field is wrong exactly where the map lacks one.
    ensures field { (keys : Keys) (bytes : List ℕ) → (manifest_of keys bytes ≡ Err MetaFault.Field)
        ↔ ((pairs : Pairs) × (map_of bytes ≡ Some pairs) × (lacks_field pairs ≡ true)) }
    // The tag is missing exactly where all fields are right and none has its name.
    ensures missing { (keys : Keys) (bytes : List ℕ) → (manifest_of keys bytes ≡ Err MetaFault.TagMissing)
        ↔ ((pairs : Pairs) × (map_of bytes ≡ Some pairs) × (lacks_field pairs ≡ false)
        × (value_of (codes "tam") pairs ≡ None)) }
    // The tag is another one exactly where all fields are right and the one that is stated differs.
    ensures tag { (keys : Keys) (bytes : List ℕ) → (manifest_of keys bytes ≡ Err MetaFault.Tag)
        ↔ ((pairs : Pairs) × (hmac : List ℕ) × (salt : List ℕ) × (map_of bytes ≡ Some pairs)
        × (lacks_field pairs ≡ false) × StatesTag pairs hmac salt × (tag_of manifest_info keys salt bytes ≢ hmac)) }
    // No bytes mean too many bytes or want of memory.
    ensures large { (keys : Keys) (bytes : List ℕ) → manifest_of keys bytes ≢ Err MetaFault.TooLarge }
    ensures memory { (keys : Keys) (bytes : List ℕ) → manifest_of keys bytes ≢ Err MetaFault.Memory }
    // The names of items are the same names in increasing order.
    ensures increasing { (names : List (List ℕ)) → AreIncreasing (in_order names) }
    ensures same { (names : List (List ℕ)) (name : List ℕ)
        → list_any (bytes_eq name) (in_order names) ≡ list_any (bytes_eq name) names }
{}
