//! The lines of the drill.
ghost use Rattle.std.specs.Prelude.{◌≡◌, IfOk, string_bytes};
ghost use Rattle.ferry_run_drill.specs.Drill.{done_line};
ghost use Rattle.ferry_status.specs.Status.{bad_line};

use ferry_carry::Carried;
use ferry_repo::RepoFault;
use ferry_status::append_reason;
use std::alloc::{AllocError, Global};

/// The line of a drill of so many archives that is done.
pub(crate) fn done_line(alloc: Global, count: u32, carried: &Carried) -> Result<String, AllocError>
    ensures line { IfOk result (λ line. string_bytes line ≡ done_line count carried.now) }
{
    let Carried {
        transferred,
        chunks,
        bytes,
        ..
    } = *carried;
    format!(in alloc;
        "drill {count}: transferred {transferred} chunks {chunks} bytes {bytes} check ok\n"
    )
}

/// The line of a target that doesn't verify.
pub(crate) fn bad_line(alloc: Global, fault: &RepoFault) -> Result<Vec<u8>, AllocError>
    ensures line { IfOk result (λ line. line.items ≡ bad_line fault.now) }
{
    let mut line = Vec::from_slice(alloc, b"bad ")?;
    append_reason(fault, &mut line)?;
    line.push(b'\n')?;
    Ok(line)
}
