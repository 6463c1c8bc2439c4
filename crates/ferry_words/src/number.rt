//! Numbers among the words.

ghost use Rattle.std.specs.Prelude.{◌≡◌, ◌^◌, ◌<◌, true};
ghost use Rattle.std.specs.Option.{SomeIff};
ghost use Rattle.std.specs.Str.Parse.{digits_value};
ghost use Rattle.ferry_words.specs.Words as spec;

/// The number that a word writes, where it is from `least` to `most`.
#[tactic(auto, unfolding(crate::specs::Words::number_of))]
pub(crate) fn number_of(word: &str, least: u32, most: u32) -> Option<u32>
    ensures number { result ≡ spec.number_of least most word.now }
{
    let number = decimal_of(word)?;
    if least <= number && number <= most {
        Some(number)
    } else {
        None
    }
}

/// The number below 2^32 that a word writes in decimal digits, without a zero in front but for `0` itself.
fn decimal_of(word: &str) -> Option<u32>
    ensures decimal { SomeIff result ((spec.is_decimal word.now ≡ true) × (digits_value 10 word.now < 2 ^ 32))
        (digits_value 10 word.now) }
{
    match word.as_bytes() {
        [b'0'] => Some(0),
        [first, ..] if *first > b'0' => word.parse().ok(),
        _ => None,
    }
}
