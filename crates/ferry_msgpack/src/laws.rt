//! What holds of all spellings and faults, whoever reads or writes them.

ghost use Rattle.std.specs.Prelude.{◌≡◌, ◌≢◌, ◌⊎◌, List, ℕ, ◌++◌};
ghost use Rattle.ferry_msgpack.specs.declared.fault.PackFault.{PackFault};
ghost use Rattle.ferry_msgpack.specs.Tree.{Tree, Pairs, put};
ghost use Rattle.ferry_msgpack.specs.Spelling.{Spells};
ghost use Rattle.ferry_msgpack.specs.Faults.{Breaks};
ghost use Rattle.ferry_msgpack.specs.Shortest.{shortest};
ghost use Rattle.ferry_msgpack.specs.Writable.{IsWritable};

/// The laws of the definitions. The call does nothing: what it ensures holds of every list of bytes.
pub fn spelling_laws()
    // No spelling begins another, and bytes spell one value at most.
    ensures prefix { (t u : Tree) (a b x y : List ℕ) → Spells t a → Spells u b → a ++ x ≡ b ++ y → (a ≡ b) × (t ≡ u) }
    // What is written is a spelling: by the law before, it is read again whatever follows.
    ensures written { (t : Tree) → IsWritable t → Spells t (shortest t) }
    // The order in which the pairs of a map are spelled makes no difference.
    ensures order { (k l : List ℕ) (t u : Tree) (pairs : Pairs) → k ≢ l → put k t (put l u pairs) ≡ put l u (put k t pairs) }

    // Where a value is spelled no rule is broken, and where none is spelled one is.
    ensures apart { (t : Tree) (front rest : List ℕ) (fault : PackFault) → Spells t front → ¬ Breaks (front ++ rest) fault }
    ensures either { (bytes : List ℕ)
        → ((t : Tree) × (front : List ℕ) × (rest : List ℕ) × Spells t front × (bytes ≡ front ++ rest))
        ⊎ ((fault : PackFault) × Breaks bytes fault) }
    // One rule is the first that is broken, and want of memory is none.
    ensures first { (bytes : List ℕ) (f g : PackFault) → Breaks bytes f → Breaks bytes g → f ≡ g }
    ensures rule { (bytes : List ℕ) (fault : PackFault) → Breaks bytes fault → fault ≢ PackFault.Memory }
{}
