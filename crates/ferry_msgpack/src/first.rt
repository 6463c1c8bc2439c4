//! The table of first bytes.

ghost use Rattle.std.specs.Prelude.{◌≡◌};
ghost use Rattle.ferry_msgpack.specs.Reading.{first_of};
ghost use Rattle.ferry_msgpack.specs.FirstView.{first_view};

/// A number's width in bytes.
#[derive(Clone, Copy)]
pub(crate) enum Width {
    One,
    Two,
    Four,
    Eight,
}

/// A count that stands in the first byte, or in bytes behind it.
#[derive(Clone, Copy)]
pub(crate) enum Count {
    Given(u8),
    Behind(Width),
}

/// What a first byte says of the value that it begins.
#[derive(Clone, Copy)]
pub(crate) enum First {
    Refused,
    Nil,
    Flag(bool),
    Small(i16),
    Unsigned(Width),
    Signed(Width),
    Raw(Count),
    Array(Count),
    Table(Count),
}

/// The row of the table that a first byte stands in.
///
/// Source: msgpack specification, "Formats", "Overview".
#[tactic(auto, unfolding(crate::specs::Reading::first_of))]
pub(crate) fn first_of(byte: u8) -> First
    ensures { first_view result ≡ first_of byte }
{
    match byte {
        0x00..=0x7f => First::Small(i16::from(byte)),
        0x80..=0x8f => First::Table(Count::Given(byte - 0x80)),
        0x90..=0x9f => First::Array(Count::Given(byte - 0x90)),
        0xa0..=0xbf => First::Raw(Count::Given(byte - 0xa0)),
        0xc0 => First::Nil,
        0xc2 => First::Flag(false),
        0xc3 => First::Flag(true),
        0xc4 | 0xd9 => First::Raw(Count::Behind(Width::One)),
        0xc5 | 0xda => First::Raw(Count::Behind(Width::Two)),
        0xc6 | 0xdb => First::Raw(Count::Behind(Width::Four)),
        0xcc => First::Unsigned(Width::One),
        0xcd => First::Unsigned(Width::Two),
        0xce => First::Unsigned(Width::Four),
        0xcf => First::Unsigned(Width::Eight),
        0xd0 => First::Signed(Width::One),
        0xd1 => First::Signed(Width::Two),
        0xd2 => First::Signed(Width::Four),
        0xd3 => First::Signed(Width::Eight),
        0xdc => First::Array(Count::Behind(Width::Two)),
        0xdd => First::Array(Count::Behind(Width::Four)),
        0xde => First::Table(Count::Behind(Width::Two)),
        0xdf => First::Table(Count::Behind(Width::Four)),
        0xe0..=0xff => First::Small(i16::from(byte) - 0x100),
        0xc1 | 0xc7..=0xcb | 0xd4..=0xd8 => First::Refused,
    }
}
