//! Laws of cutting, the contract of a function with nothing to do.

ghost use Rattle.std.specs.Prelude.{◌≡◌, ◌≤◌, ◌↔◌, ◌++◌, ◌∷◌, [], ℕ, List, All, drop, length};
ghost use Rattle.std.specs.List.{concat};
ghost use Rattle.ferry_rechunk.specs.Cut.{cut, piece_count, IsCut};
ghost use Rattle.ferry_rechunk.specs.Cutting.{Cutting, IsFed, after_loan};

/// What holds of every cut, and of the pieces that come of any feeding of a cutter.
pub fn cut_laws()
    // A content has one cut, which is the function's.
    ensures is { (block : ℕ) (content : List ℕ) (pieces : List (List ℕ)) → 1 ≤ block
        → IsCut block content pieces ↔ (pieces ≡ cut block content) }
    ensures one { (block : ℕ) (content : List ℕ) (pieces others : List (List ℕ)) → 1 ≤ block
        → IsCut block content pieces → IsCut block content others → pieces ≡ others }
    ensures joined { (block : ℕ) (content : List ℕ) → 1 ≤ block → concat (cut block content) ≡ content }
    ensures sizes { (block : ℕ) (content : List ℕ) → 1 ≤ block
        → All (λ piece. (1 ≤ length piece) × (length piece ≤ block)) (cut block content) }
    ensures count { (block : ℕ) (content : List ℕ) → length (cut block content) ≡ piece_count block content }

    // It goes from the front: a whole piece and then the cut of the rest, to a last piece that is a block at most.
    ensures nothing { (block : ℕ) → 1 ≤ block → cut block [] ≡ [] }
    ensures whole { (block : ℕ) (piece rest : List ℕ) → 1 ≤ block → length piece ≡ block
        → cut block (piece ++ rest) ≡ piece ∷ cut block rest }
    ensures last { (block : ℕ) (piece : List ℕ) → 1 ≤ length piece → length piece ≤ block → cut block piece ≡ piece ∷ [] }

    // What a cutter was fed: it begins with nothing, takes bytes that fit, and gives a whole piece away.
    ensures begun { (block : ℕ) → IsFed block [] [] [] }
    ensures fed { (block : ℕ) (fed piece more : List ℕ) (taken : List (List ℕ)) → IsFed block fed taken piece
        → length (piece ++ more) ≤ block → IsFed block (fed ++ more) taken (piece ++ more) }
    ensures taken { (block : ℕ) (fed piece : List ℕ) (taken : List (List ℕ)) → IsFed block fed taken piece
        → length piece ≡ block → IsFed block fed (taken ++ piece ∷ []) [] }
    // However it was fed, the pieces are those that were taken and the one in hand, where it isn't empty.
    ensures ended { (block : ℕ) (fed piece : List ℕ) (taken : List (List ℕ)) → 1 ≤ block → IsFed block fed taken piece
        → cut block fed ≡ taken ++ cut block piece }

    // What is written where a piece was lent is the piece from then on.
    ensures lent { (cutting : Cutting) (lent written : List ℕ) → length written ≡ length lent
        → after_loan cutting lent written ≡ record cutting { piece = drop 43 written } }
{}
