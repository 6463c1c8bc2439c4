//! Two archives are made, and the repository opens to their names.
ghost use Rattle.std.specs.Prelude.{◌≤◌, IfOk};
ghost use Rattle.ferry_gen.specs.Source.{IsEmpty};

use ferry_disk::MemoryDepot;
use ferry_gen::{make_source, source_secret};
use ferry_repo::Repo;
use ferry_store::StoreRefusal;
use std::alloc::{AllocError, Global};
use std::rt::HostRuntime;

/// A depot that has no file.
fn empty_depot(alloc: Global) -> Result<MemoryDepot, AllocError>
    ensures empty { IfOk result (λ depot. IsEmpty depot.history) }
{
    let depot = MemoryDepot::new(alloc, Vec::new(alloc), Vec::new(alloc))?;
    Ok(depot)
}

/// A depot with the source of so many archives.
fn made(alloc: Global, count: u32) -> Result<MemoryDepot, StoreRefusal>
    requires least { 1 ≤ count }
    requires most { count ≤ 64 }
{
    let mut depot = empty_depot(alloc)?;
    make_source(alloc, &mut depot, count)?;
    Ok(depot)
}

#[test]
fn two_archives(rt: HostRuntime) {
    let alloc = rt.alloc();
    let made = made(alloc, 2);
    assert!(rt; made.is_ok());
    let Ok(mut depot) = made else {
        return;
    };
    let secret = source_secret(alloc).expect(&rt, "secret");
    let repo = Repo::open(alloc, &mut depot, &secret);
    assert!(rt; repo.is_ok());
    let Ok(repo) = repo else {
        return;
    };
    let archives = repo.manifest().archives.as_slice();
    assert!(rt; archives.len() == 2);
    assert!(rt; archives[0].name.as_slice() == b"a0000".as_slice());
    assert!(rt; archives[1].name.as_slice() == b"a0001".as_slice());
}
