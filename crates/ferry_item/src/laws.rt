//! Laws on item streams.

ghost use Rattle.std.specs.Prelude.{◌≡◌, ◌≢◌, ◌↔◌, ℕ, List, [], ◌∷◌, ◌++◌};
ghost use Rattle.ferry_item.specs.Item.{ItemText};
ghost use Rattle.ferry_item.specs.Stream.{Front, an_item, nothing_yet, a_fault, StandsInFront, front_item, ItemsOf, End, bytes_left, Reads, joined};
ghost use Rattle.ferry_item.specs.declared.fault.ItemFault.{ItemFault};

/// Laws with nothing to run, on the items of a stream and its pieces.
pub fn item_laws()
    // One answer, and one alone, stands in front of bytes.
    ensures front { (bytes : List ℕ) (front : Front)
        → StandsInFront bytes front ↔ (front_item bytes ≡ front) }
    // What stands in front stands there with more bytes behind.
    ensures item { (bytes rest more : List ℕ) (text : ItemText)
        → front_item bytes ≡ an_item text rest → front_item (bytes ++ more) ≡ an_item text (rest ++ more) }
    ensures fault { (bytes more : List ℕ) (fault : ItemFault)
        → front_item bytes ≡ a_fault fault → front_item (bytes ++ more) ≡ a_fault fault }
    // A malformed item is no end of the stream, and no want of memory.
    ensures kinds { (bytes : List ℕ) (fault : ItemFault)
        → front_item bytes ≡ a_fault fault → (fault ≢ ItemFault.Rest) × (fault ≢ ItemFault.Memory) }
    // Nothing stands in front of no bytes.
    ensures nothing { front_item [] ≡ nothing_yet }

    // Reading a stream gives items and an end, and gives no others.
    ensures some { (bytes : List ℕ) (pieces : List (List ℕ))
        → (items : List ItemText) × ((end : End) × Reads bytes pieces items end) }
    ensures one { (bytes : List ℕ) (pieces : List (List ℕ)) (items others : List ItemText) (end other : End)
        → Reads bytes pieces items end → Reads bytes pieces others other → (items ≡ others) × (end ≡ other) }
    // They are the same however the stream is cut.
    ensures cut { (pieces others : List (List ℕ)) (items : List ItemText) (end : End)
        → joined pieces ≡ joined others → Reads [] pieces items end → Reads [] others items end }
    // The items of a whole stream come in order, and no byte is left; no other stream is read so.
    ensures whole { (pieces : List (List ℕ)) (items : List ItemText)
        → ItemsOf (joined pieces) items ↔ Reads [] pieces items (bytes_left []) }
    // An item in front of a stream is its first one.
    ensures first { (bytes rest : List ℕ) (text : ItemText) (items : List ItemText)
        → front_item bytes ≡ an_item text rest → ItemsOf rest items → ItemsOf bytes (text ∷ items) }
    // Streams joined are the stream of their items joined.
    ensures joined { (bytes more : List ℕ) (items others : List ItemText)
        → ItemsOf bytes items → ItemsOf more others → ItemsOf (bytes ++ more) (items ++ others) }
{}
