//! Laws on what maps say and on which can be written.

ghost use Rattle.std.specs.Prelude.{◌≡◌, ◌↔◌, ◌≤◌, ◌<◌, ◌^◌, ℕ, List, length, Some};
ghost use Rattle.ferry_msgpack.specs.Tree.{Tree, Pairs, table};
ghost use Rattle.ferry_msgpack.specs.Spelling.{Spells};
ghost use Rattle.ferry_msgpack.specs.Shortest.{shortest};
ghost use Rattle.ferry_msgpack.specs.Writable.{IsWritable, depth};
ghost use Rattle.ferry_fields.specs.Fields.{map_of};
ghost use Rattle.ferry_fields.specs.Sizes.{IsOrdered};

/// Laws with nothing to run. `map_of` is a function, so what `map_of` answers has one meaning.
pub fn fields_laws()
    // Bytes have the pairs of a map exactly where they spell it, with nothing behind it.
    ensures map { (bytes : List ℕ) (pairs : Pairs)
        → (map_of bytes ≡ Some pairs) ↔ Spells (table pairs) bytes }
    // What is written of a map is read again.
    ensures again { (pairs : Pairs) → IsWritable (table pairs)
        → map_of (shortest (table pairs)) ≡ Some pairs }

    // A value in order can be written where its spelling is short enough for every length in it,
    // and what can be written is in order.
    ensures sizes { (t : Tree) → depth t ≤ 64 → IsOrdered t → length (shortest t) < 2 ^ 32
        → IsWritable t }
    ensures ordered { (t : Tree) → IsWritable t → IsOrdered t }
{}
