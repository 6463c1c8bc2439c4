//! What is expected is worked out by hand from the rule.

use ferry_text::{text_laws, write_id, write_number, write_text};
use std::alloc::{AllocError, Global};

/// A line of a text with each kind of byte, two numbers and an id.
static LINE: &[u8] =
    b"f a \\x5cx\\x00\\x1f~\\x7f\x80\xff\\x0a 0 340282366920938463463374607431768211455 0a0a0a0a0a0a0a0a0a0a0a0a0a0a0a0a0a0a0a0a0a0a0a0a0a0a0a0a0a0a0a0a";

/// Writes that line behind its first two bytes.
fn write_line(line: &mut Vec<u8>) -> Result<(), AllocError> {
    write_text(b"a \\x\x00\x1f~\x7f\x80\xff\n ", line)?;
    write_number(0, line)?;
    write_text(b" ", line)?;
    write_number(u128::MAX, line)?;
    write_text(b" ", line)?;
    write_id(&[0x0a; 32], line)
}

/// Whether that line is written.
fn is_written(alloc: Global) -> bool {
    match Vec::from_slice(alloc, b"f ") {
        Ok(mut line) => write_line(&mut line).is_ok() && line.as_slice() == LINE,
        Err(_) => false,
    }
}

#[test]
fn a_line_is_made_of_a_text_numbers_and_an_id(rt: HostRuntime) {
    assert!(rt; is_written(rt.alloc()));
    text_laws();
}
