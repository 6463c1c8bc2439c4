//! The counter of a repository over depots in memory: the numbers and texts of two runs, and each fault.
ghost use Rattle.std.specs.Prelude.{◌≡◌, true, OnOk};
ghost use Rattle.ferry_disk.specs.Image.{settled};

use crate::devices::depot_of;
use ferry_disk::{Depot, MemoryDepot, Name, Shelf, StoreFault};
use ferry_nonce::{Counter, NonceFault};
use std::alloc::{AllocError, Global};

/// Two draws: the first numbers of one block and of five, how many calls they took, and the text that they leave.
type Draws = Result<(u64, u64, u64, [u8; 16]), NonceFault>;

/// A file `nonce` of this text, absent where there is none.
fn files(alloc: Global, text: &[u8]) -> Result<Vec<(Name, Vec<u8>)>, AllocError> {
    if text.is_empty() {
        return Ok(Vec::new(alloc));
    }
    let text = Vec::from_slice(alloc, text)?;
    Ok(vec![in alloc; (Name::Nonce, text)]?)
}

/// A depot whose file `nonce` has this text, absent where there is none, and of which this call fails.
fn nonce_depot(alloc: Global, text: &[u8], failing: u64) -> Result<MemoryDepot, AllocError> {
    let files = files(alloc, text)?;
    depot_of(alloc, files, failing)
}

/// Settles a depot.
fn settle_all(depot: &mut MemoryDepot) -> Result<(), StoreFault>
    ensures settled { OnOk result (settled depot.new.history.acts ≡ true) }
{
    depot.settle()
}

/// What a counter answers to draws of one block and of five.
fn two_draws(depot: &mut MemoryDepot, committed: bool) -> Result<(u64, u64), NonceFault> {
    let mut counter = Counter::open(depot, committed)?;
    settle_all(depot)?;
    let first = counter.draw(depot, 1)?;
    let next = counter.draw(depot, 5)?;
    Ok((first, next))
}

/// How many calls a depot has had, and the text of its file `nonce`.
fn state_of(depot: &mut MemoryDepot) -> (u64, [u8; 16]) {
    let mut text = [b'.'; 16];
    let calls = depot.count();
    let _ = depot.read_at(Name::Nonce, 0, &mut text);
    (calls, text)
}

/// What two draws answer over a depot, and what they leave.
fn draws_over(depot: &mut MemoryDepot, committed: bool) -> Draws {
    let (first, next) = two_draws(depot, committed)?;
    let (calls, text) = state_of(depot);
    Ok((first, next, calls, text))
}

/// Whether two draws answer so over a file of this text, with this call failing, where something is committed or not.
fn answers(alloc: Global, text: &[u8], failing: u64, committed: bool, want: &Draws) -> bool {
    match nonce_depot(alloc, text, failing) {
        Ok(mut depot) => draws_over(&mut depot, committed) == *want,
        Err(_) => false,
    }
}

#[test]
fn a_counter_reserves_once_for_many_draws_or_tells_why_not(rt: HostRuntime) {
    let cases: [(&[u8], u64, bool, Draws); 6] = [
        (b"", 0, false, Ok((0, 1, 3, *b"0000000010000001"))),
        (
            b"00000000000000fF\n",
            0,
            true,
            Ok((255, 256, 4, *b"0000000010000100")),
        ),
        (b"", 0, true, Err(NonceFault::Missing)),
        (b"12", 0, true, Err(NonceFault::Text)),
        (b"ffffffffffffffff", 0, true, Err(NonceFault::Exhausted)),
        (b"00000000000000ff", 4, true, Err(NonceFault::Device)),
    ];
    for (text, failing, committed, want) in &cases {
        let is_right = answers(rt.alloc(), text, *failing, *committed, want);
        assert!(rt; is_right, "{want:?}");
    }
}
