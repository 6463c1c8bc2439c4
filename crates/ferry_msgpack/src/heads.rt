//! Heads and numbers, written in their shortest form.

ghost use Rattle.std.specs.Prelude.{◌≡◌, ◌+◌, ◌^◌, ◌<◌, ◌≤◌, ◌++◌, ◌∷◌, length, OnOk, OnErr};
ghost use Rattle.ferry_msgpack.specs.Shortest.{shortest_number, shortest_count, shortest_raw, array_head, map_head};
ghost use Rattle.ferry_msgpack.specs.Writable.{IsNumber};
ghost use Rattle.ferry_msgpack.specs.Calls.Write.{Begins};

use std::alloc::AllocError;

/// Appends a first byte and the bytes that it announces.
fn put(into: &mut Vec<u8>, first: u8, bytes: &[u8]) -> Result<(), AllocError>
    ensures ok { OnOk result (into.new.items ≡ into.old.items ++ (first ∷ bytes.now)) }
    ensures err { OnErr result (Begins into.old.items into.new.items) }
{
    into.push(first)?;
    into.extend_from_slice(bytes)
}

/// Appends a number.
#[tactic(auto, unfolding(crate::specs::Shortest::shortest_number))]
pub(crate) fn put_number(into: &mut Vec<u8>, number: i128) -> Result<(), AllocError>
    requires { IsNumber number }
    ensures ok { OnOk result (into.new.items ≡ into.old.items ++ shortest_number number) }
    ensures err { OnErr result (Begins into.old.items into.new.items) }
{
    if number < -0x8000_0000 {
        put(into, 0xd3, &(number as i64).cast_unsigned().to_be_bytes())
    } else if number < -0x8000 {
        put(into, 0xd2, &(number as i32).cast_unsigned().to_be_bytes())
    } else if number < -0x80 {
        put(into, 0xd1, &(number as i16).cast_unsigned().to_be_bytes())
    } else if number < -0x20 {
        put(into, 0xd0, &[(number as i8).cast_unsigned()])
    } else if number < 0x80 {
        put(into, (number as i8).cast_unsigned(), &[])
    } else if number < 0x100 {
        put(into, 0xcc, &[number as u8])
    } else if number < 0x1_0000 {
        put(into, 0xcd, &(number as u16).to_be_bytes())
    } else if number < 0x1_0000_0000 {
        put(into, 0xce, &(number as u32).to_be_bytes())
    } else {
        put(into, 0xcf, &(number as u64).to_be_bytes())
    }
}

/// The first bytes of a raw, an array or a map.
struct Heads {
    /// The first byte to which a small count is added.
    first: u8,
    /// The least count that isn't small.
    small: u8,
    /// The first byte before a count of 2 bytes, and before one of 4.
    two: u8,
    four: u8,
}

/// Appends a count with its first byte.
#[tactic(auto, unfolding(crate::specs::Shortest::shortest_count))]
fn put_count(into: &mut Vec<u8>, heads: &Heads, count: usize) -> Result<(), AllocError>
    requires count_fits { count < 2 ^ 32 }
    requires small_fits { heads.now.first + heads.now.small ≤ 2 ^ 8 }
    ensures ok { OnOk result (into.new.items ≡ into.old.items
        ++ shortest_count heads.now.first heads.now.small heads.now.two heads.now.four count) }
    ensures err { OnErr result (Begins into.old.items into.new.items) }
{
    if count < usize::from(heads.small) {
        put(into, heads.first + count as u8, &[])
    } else if count < 0x1_0000 {
        put(into, heads.two, &(count as u16).to_be_bytes())
    } else {
        put(into, heads.four, &(count as u32).to_be_bytes())
    }
}

const RAW: Heads = Heads {
    first: 0xa0,
    small: 0x20,
    two: 0xda,
    four: 0xdb,
};

const ARRAY: Heads = Heads {
    first: 0x90,
    small: 0x10,
    two: 0xdc,
    four: 0xdd,
};

const MAP: Heads = Heads {
    first: 0x80,
    small: 0x10,
    two: 0xde,
    four: 0xdf,
};

/// Appends the head of an array.
pub(crate) fn put_array_head(into: &mut Vec<u8>, count: usize) -> Result<(), AllocError>
    requires { count < 2 ^ 32 }
    ensures ok { OnOk result (into.new.items ≡ into.old.items ++ array_head count) }
    ensures err { OnErr result (Begins into.old.items into.new.items) }
{
    put_count(into, &ARRAY, count)
}

/// Appends the head of a map.
pub(crate) fn put_map_head(into: &mut Vec<u8>, count: usize) -> Result<(), AllocError>
    requires { count < 2 ^ 32 }
    ensures ok { OnOk result (into.new.items ≡ into.old.items ++ map_head count) }
    ensures err { OnErr result (Begins into.old.items into.new.items) }
{
    put_count(into, &MAP, count)
}

/// Appends a raw, its head and its bytes.
pub(crate) fn put_raw(into: &mut Vec<u8>, content: &[u8]) -> Result<(), AllocError>
    requires { length content.now < 2 ^ 32 }
    ensures ok { OnOk result (into.new.items ≡ into.old.items ++ shortest_raw content.now) }
    ensures err { OnErr result (Begins into.old.items into.new.items) }
{
    put_count(into, &RAW, content.len())?;
    into.extend_from_slice(content)
}
