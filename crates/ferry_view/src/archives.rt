//! The listing of the archives.
ghost use Rattle.std.specs.Prelude.{◌≡◌, ◌++◌, IfErr, OnOk, OnErr, option_map};
ghost use Rattle.ferry_disk.specs.Device.{WritesSome, HasCause};
ghost use Rattle.ferry_repo.specs.Opening.{repo_view};
ghost use Rattle.ferry_view.specs.Lines.{archive_line, archive_lines};
ghost use Rattle.ferry_view.specs.Output.{view_failed, IsOutputFault};

use crate::fault::ViewFault;
use crate::output::{send, send_full};
use ferry_disk::Sink;
use ferry_manifest::ArchiveRef;
use ferry_repo::Repo;
use ferry_text::{write_id, write_text};
use std::alloc::{AllocError, Global};

/// Writes a line for each archive of the manifest, in byte order of names: the id of its record, its time and its name.
///
/// Texts are escaped, so an archive has one line whatever its name is. Only `Output` and `Memory` come.
pub fn list<K: Sink>(alloc: Global, repo: &mut Repo, out: &mut K) -> Result<(), ViewFault>
    ensures ok { OnOk result (K.written out.new
        ≡ option_map (λ w. w ++ archive_lines (repo_view repo.old).manifest.archives) (K.written out.old)) }
    ensures err { OnErr result (
        WritesSome (K.written out.old) (archive_lines (repo_view repo.old).manifest.archives) (K.written out.new)) }
    ensures kept { repo_view repo.new ≡ repo_view repo.old }
    ensures cause { HasCause view_failed (K.faults out.old) (K.faults out.new) result }
    ensures only { IfErr result IsOutputFault }
{
    write_archives(alloc, repo.manifest().archives.as_slice(), out)
}

/// Writes the lines of archives.
fn write_archives<K: Sink>(
    alloc: Global,
    archives: &[ArchiveRef],
    out: &mut K,
) -> Result<(), ViewFault>
    ensures ok { OnOk result (
        K.written out.new ≡ option_map (λ w. w ++ archive_lines archives.now) (K.written out.old)) }
    ensures err { OnErr result (WritesSome (K.written out.old) (archive_lines archives.now) (K.written out.new)) }
    ensures cause { HasCause view_failed (K.faults out.old) (K.faults out.new) result }
    ensures only { IfErr result IsOutputFault }
{
    let mut text = Vec::new(alloc);
    for place in 0..archives.len() {
        push_archive(&archives[place], &mut text)?;
        send_full(&mut text, out)?;
    }
    send(&text, out)
}

/// Appends the line of an archive.
#[tactic(auto, unfolding(crate::specs::Lines::archive_line))]
fn push_archive(archive: &ArchiveRef, text: &mut Vec<u8>) -> Result<(), AllocError>
    ensures ok { OnOk result (text.new.items ≡ text.old.items ++ archive_line archive.now) }
{
    write_id(&archive.id, text)?;
    text.push(b' ')?;
    write_text(archive.time.as_slice(), text)?;
    text.push(b' ')?;
    write_text(archive.name.as_slice(), text)?;
    text.push(b'\n')?;
    Ok(())
}
