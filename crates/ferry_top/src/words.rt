//! The words of the program.
ghost use Rattle.std.specs.Prelude.{◌≡◌, map, string_bytes};
ghost use Rattle.ferry_top.specs.Words as spec;

/// Whether the program's words name a source, a target and a command: three words or more, and the first two differ or are
/// `-`, which stands for no folder. Takes no memory.
pub fn places_fit(words: &[String]) -> bool
    ensures { result ≡ spec.places_fit (map string_bytes words.now) }
{
    match words {
        [source, target, _, ..] => source.as_str() != target.as_str() || source.as_str() == "-",
        _ => false,
    }
}
