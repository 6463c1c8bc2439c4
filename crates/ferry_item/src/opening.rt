//! What a first byte opens.

ghost use Rattle.std.specs.Prelude.{◌≡◌};
ghost use Rattle.ferry_msgpack.specs.Reading.{first_of};
ghost use Rattle.ferry_item.specs.Progress.{count_view, IsCount, Opens};

/// A count that stands in the first byte, or in two or four bytes behind it, the highest first.
#[derive(Clone, Copy)]
pub(crate) enum Count {
    Given(u8),
    Two,
    Four,
}

/// What a first byte opens: an array or a map of so many values or pairs, a raw, or anything else.
#[derive(Clone, Copy)]
pub(crate) enum Opening {
    Array(Count),
    Map(Count),
    Raw,
    Other,
}

/// What a first byte opens. A byte that begins no value is among the others.
///
/// Source: msgpack specification, "Formats", "Overview".
#[tactic(auto, unfolding(ferry_msgpack::specs::Reading::first_of))]
pub(crate) fn opening_of(byte: u8) -> Opening
    ensures { Opens result (first_of byte) }
{
    match byte {
        0x80..=0x8f => Opening::Map(Count::Given(byte - 0x80)),
        0x90..=0x9f => Opening::Array(Count::Given(byte - 0x90)),
        0xa0..=0xbf | 0xc4..=0xc6 | 0xd9..=0xdb => Opening::Raw,
        0xdc => Opening::Array(Count::Two),
        0xdd => Opening::Array(Count::Four),
        0xde => Opening::Map(Count::Two),
        0xdf => Opening::Map(Count::Four),
        _ => Opening::Other,
    }
}

/// The count that a first byte opens with, from the bytes behind it, and how many of them it takes; none where they end.
#[tactic(auto, unfolding(ferry_msgpack::specs::Reading::count_at, ferry_msgpack::specs::Reading::number_at))]
pub(crate) fn count_of(count: Count, bytes: &[u8]) -> Option<(u64, usize)>
    ensures { IsCount result (count_view count) bytes.now }
{
    match count {
        Count::Given(number) => Some((u64::from(number), 0)),
        Count::Two => {
            if bytes.len() < 2 {
                return None;
            }
            let number = u16::from_be_bytes([bytes[0], bytes[1]]);
            Some((u64::from(number), 2))
        }
        Count::Four => {
            if bytes.len() < 4 {
                return None;
            }
            let number = u32::from_be_bytes([bytes[0], bytes[1], bytes[2], bytes[3]]);
            Some((u64::from(number), 4))
        }
    }
}
