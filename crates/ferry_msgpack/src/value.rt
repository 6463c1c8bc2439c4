//! A msgpack value in memory.

/// How many arrays and maps stand inside each other at most, the outermost one included.
pub(crate) const DEPTH: usize = 64;

/// A value, which owns its bytes. `read` gives such values, and `is_writable` tells whether one has the ranges and the
/// order that are said here.
///
/// Source: msgpack specification, "Type system".
#[derive(Drop, PartialEq, Eq)]
pub enum Value {
    Nil,
    /// False or true.
    Flag(bool),
    /// An integer that 64 bits hold, with a sign or without one: -2^63 to 2^64-1.
    Number(i128),
    /// Any bytes, text among them.
    Raw(Vec<u8>),
    Array(Vec<Value>),
    /// The pairs of a map, in strictly increasing byte order of their keys.
    Table(Vec<(Vec<u8>, Value)>),
}
