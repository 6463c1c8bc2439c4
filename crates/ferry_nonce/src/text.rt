//! The text of the file `nonce`.
ghost use Rattle.std.specs.Prelude.{◌≡◌};
ghost use Rattle.ferry_nonce.specs.Text.{digits_of, number_in, number_text};

/// How many hex digits a number has in the file.
pub(crate) const DIGITS: usize = 16;

/// The number that a text spells, which has 16 hex digits and at most one line feed behind.
#[tactic(auto, unfolding(crate::specs::Text::number_in))]
pub(crate) fn read_number(text: &[u8]) -> Option<u64>
    ensures number { result ≡ number_in text.now }
{
    let mut bytes = [0u8; 8];
    match hex::decode_to_slice(without_line_feed(text), &mut bytes) {
        Ok(()) => Some(u64::from_be_bytes(bytes)),
        Err(_) => None,
    }
}

/// A text without the line feed that may stand behind 16 digits.
fn without_line_feed(text: &[u8]) -> &[u8]
    ensures digits { result.now ≡ digits_of text.now }
{
    if text.len() == DIGITS + 1 && text[DIGITS] == b'\n' {
        &text[..DIGITS]
    } else {
        text
    }
}

/// A number as it is written: 16 hex digits in lower case.
pub(crate) fn spell_number(number: u64) -> [u8; DIGITS]
    ensures text { result ≡ number_text number }
{
    let mut digits = [0u8; DIGITS];
    let _ = hex::encode_to_slice(number.to_be_bytes(), &mut digits);
    digits
}
