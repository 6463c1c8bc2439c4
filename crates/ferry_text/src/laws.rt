//! Laws of printed texts.
ghost use Rattle.std.specs.Prelude.{◌≡◌, ◌≢◌, ◌<◌, ◌≤◌, ◌^◌, ℕ, List, All, decimal};
ghost use Rattle.std.specs.List.{AllPass};
ghost use Rattle.hex.specs.Hex.{IsBytes, encode_lower};
ghost use Rattle.ferry_text.specs.Text.{is_plain, escaped};

/// Laws with nothing to run. `escaped` is a function, so bytes have one text.
pub fn text_laws()
    // Different bytes have different texts, and so have different ids and different numbers.
    ensures apart { (a b : List ℕ) → escaped a ≡ escaped b → a ≡ b }
    ensures ids { (a b : List ℕ) → IsBytes a → IsBytes b → encode_lower a ≡ encode_lower b → a ≡ b }
    ensures numbers { (a b : ℕ) → a < 2 ^ 128 → b < 2 ^ 128 → decimal a ≡ decimal b → a ≡ b }
    // No text has a byte below 32, a line feed among them, or the byte 127: a text is one line.
    ensures line { (bytes : List ℕ) → All (λ byte. (32 ≤ byte) × (byte ≢ 127)) (escaped bytes) }
    // Bytes that are all printed as they are have themselves as their text.
    ensures plain { (bytes : List ℕ) → AllPass is_plain bytes → escaped bytes ≡ bytes }
{}
