//! Timestamps of manifests, as Borg reads them.
//! Source: BorgBackup 1.2, Internals, "Data structures and file formats", The manifest.

use jiff::civil::DateTime;

/// The form of a timestamp: a digit stands for any, and each other character for itself.
const FORM: &[u8] = b"0000-00-00T00:00:00";

/// The most digits of a part of a second.
const MOST_DIGITS: usize = 6;

/// Whether a text is a timestamp of Borg's form, with or without a part of the second: one of a day and a time that there is.
pub fn is_of_form(text: &[u8]) -> bool {
    match text.split_at_checked(FORM.len()) {
        Some((front, rest)) => has_form(front) && is_moment(front) && is_part(rest),
        None => false,
    }
}

/// Whether each character of a text is of the form.
fn has_form(text: &[u8]) -> bool {
    for (byte, form) in text.iter().zip(FORM) {
        let fits = if *form == b'0' {
            byte.is_ascii_digit()
        } else {
            byte == form
        };
        if !fits {
            return false;
        }
    }
    true
}

/// Whether the numbers of a text of the form are those of a day, from the year 1 on, and of a time.
fn is_moment(text: &[u8]) -> bool {
    let hundreds = i16::from(pair(text, 0)).saturating_mul(100);
    let year = hundreds.saturating_add(i16::from(pair(text, 2)));
    let time = DateTime::new(
        year,
        pair(text, 5),
        pair(text, 8),
        pair(text, 11),
        pair(text, 14),
        pair(text, 17),
        0,
    );
    year > 0 && time.is_ok()
}

/// The number of the two digits at a place, 0 where there are none.
fn pair(text: &[u8], at: usize) -> i8 {
    match text.get(at..) {
        Some([tens, ones, ..]) => digit(*tens).saturating_mul(10).saturating_add(digit(*ones)),
        _ => 0,
    }
}

/// The number of a digit.
fn digit(byte: u8) -> i8 {
    i8::try_from(byte.saturating_sub(b'0')).unwrap_or(0)
}

/// Whether a text is nothing, or a point and the first digits of a part of a second.
fn is_part(text: &[u8]) -> bool {
    match text {
        [] => true,
        [b'.', digits @ ..] => {
            !digits.is_empty() && digits.len() <= MOST_DIGITS && are_digits(digits)
        }
        _ => false,
    }
}

/// Whether all characters of a text are digits.
fn are_digits(text: &[u8]) -> bool {
    for byte in text {
        if !byte.is_ascii_digit() {
            return false;
        }
    }
    true
}
