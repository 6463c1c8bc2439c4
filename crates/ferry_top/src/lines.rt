//! Printed lines.
ghost use Rattle.std.specs.Prelude.{◌≡◌, ◌++◌, OnOk};
ghost use Rattle.ferry_top.specs.Keys.{key_line};

use ferry_base::Id;
use ferry_text::{write_id, write_number};
use std::alloc::AllocError;

/// Puts the line of an id and a number behind the lines.
pub(crate) fn push_line(lines: &mut Vec<u8>, id: &Id, number: u32) -> Result<(), AllocError>
    ensures { OnOk result (lines.new.items ≡ lines.old.items ++ key_line id.now number) }
{
    write_id(id, lines)?;
    lines.push(b' ')?;
    write_number(u128::from(number), lines)?;
    lines.push(b'\n')?;
    Ok(())
}
