//! Compaction of a repository.
ghost use Rattle.std.specs.Prelude.{◌≡◌, false, IfOk, IfErr, IfSome};
ghost use Rattle.std.specs.FinMap.{empty};
ghost use Rattle.ferry_compact.specs.Choice.{chosen_in};
ghost use Rattle.ferry_compact.specs.Compact.{Compacts, KeepsBlocks, KeepsLive, NumbersStay, RemovesFront};
ghost use Rattle.ferry_compact.specs.Fault.{RefusesCompact, compact_failed};
ghost use Rattle.ferry_compact.specs.Runs.{CommitsChosen, EndsRun, MovesChosen};
ghost use Rattle.ferry_disk.specs.Device.{HasCause, told_files};
ghost use Rattle.ferry_disk.specs.Faults.{EndsAtFault};
ghost use Rattle.ferry_disk.specs.Moments.{Between};
ghost use Rattle.ferry_log.specs.State.{IsStateOf};
ghost use Rattle.ferry_stops.specs.Tells.{TellsNothing};
ghost use Rattle.ferry_write.specs.Session.{KeepsPlain, SettlesFirst};

use crate::choice::{choose, extents_of, is_idle};
use crate::fault::CompactFault;
use crate::moving::move_all;
use crate::removal::remove_all;
use crate::stays::puts_that_stay;
use ferry_disk::Depot;
use ferry_log::{Extent, Log};
use ferry_write::Session;
use std::alloc::Global;

/// Compacts a repository, whose log was just opened and has learnt nothing, and answers how many segments were removed.
///
/// A segment is chosen where so many hundredths of its bytes (`threshold`), or more, belong to no live PUT. What the chosen ones hold that is in use is put
/// again behind the last commit, in segments of at most `limit` bytes, and committed; then they are removed, the lowest number first. Where none is chosen,
/// or that of the last commit alone, nothing is written. `Damaged` says that an entry doesn't read any more that was read when the log was opened.
///
/// Source: BorgBackup 1.2, Internals, Repository, "Compaction".
pub fn compact<D: Depot>(
    alloc: Global,
    depot: &mut D,
    log: Log,
    limit: u64,
    threshold: u8,
) -> Result<u64, CompactFault>
    requires learnt { log.learnt ≡ empty }
    requires opened { IfSome (D.told depot.old) (λ t. IsStateOf (told_files t) log) }
    ensures compacted { IfOk result (λ count. Between (D.told depot.old) (D.told depot.new) (Compacts limit log threshold count)) }
    // Whatever a stop leaves, each key has the blob that it had, or none where it had none.
    ensures live { Between (D.told depot.old) (D.told depot.new) (KeepsLive log.transaction) }
    ensures kept { Between (D.told depot.old) (D.told depot.new) KeepsBlocks }
    ensures numbers { Between (D.told depot.old) (D.told depot.new) NumbersStay }
    ensures first { Between (D.told depot.old) (D.told depot.new) SettlesFirst }
    ensures removes { Between (D.told depot.old) (D.told depot.new) (RemovesFront log.transaction (chosen_in threshold log.extents)) }
    ensures plain { Between (D.told depot.old) (D.told depot.new) KeepsPlain }
    ensures untold { Between (D.told depot.old) (D.told depot.new) TellsNothing }
    ensures refused { IfErr result (λ fault. IfSome (D.told depot.new) (λ t. RefusesCompact (told_files t) fault)) }
    ensures cause { HasCause compact_failed (D.faults depot.old) (D.faults depot.new) result }
    ensures ends { EndsAtFault compact_failed (D.told depot.old) (D.told depot.new) result }
{
    let after = Some(log.transaction());
    let mut session = Session::begin(alloc, depot, after, limit)?;
    compact_log(alloc, depot, &log, threshold, &mut session)
}

/// Compacts the repository behind which a session was begun.
fn compact_log<D: Depot>(
    alloc: Global,
    depot: &mut D,
    log: &Log,
    threshold: u8,
    session: &mut Session,
) -> Result<u64, CompactFault>
    requires unspent { session.old.spent ≡ false }
    ensures ends { EndsRun log.now threshold session.old (D.told depot.old) (D.told depot.new) (D.faults depot.old) (D.faults depot.new) result }
{
    let extents = extents_of(alloc, log)?;
    compact_segments(alloc, depot, log, &extents, threshold, session)
}

/// The same, with the segments of the log.
fn compact_segments<D: Depot>(
    alloc: Global,
    depot: &mut D,
    log: &Log,
    extents: &[Extent],
    threshold: u8,
    session: &mut Session,
) -> Result<u64, CompactFault>
    requires unspent { session.old.spent ≡ false }
    requires extents { extents.now ≡ log.now.extents }
    ensures ends { EndsRun log.now threshold session.old (D.told depot.old) (D.told depot.new) (D.faults depot.old) (D.faults depot.new) result }
{
    let chosen = choose(alloc, extents, threshold)?;
    if is_idle(log.transaction(), &chosen) {
        return Ok(0);
    }
    move_chosen(alloc, depot, log, extents, &chosen, session)?;
    Ok(chosen.len() as u64)
}

/// Puts again what the chosen segments hold that is in use, commits it, and removes them.
fn move_chosen<D: Depot>(
    alloc: Global,
    depot: &mut D,
    log: &Log,
    extents: &[Extent],
    chosen: &[u64],
    session: &mut Session,
) -> Result<(), CompactFault>
    requires unspent { session.old.spent ≡ false }
    requires extents { extents.now ≡ log.now.extents }
    ensures moves { MovesChosen log.now chosen.now session.old (D.told depot.old) (D.told depot.new) (D.faults depot.old) (D.faults depot.new) result }
{
    let stays = puts_that_stay(alloc, depot, log, extents, chosen)?;
    move_all(alloc, depot, log, extents, chosen, &stays, session)?;
    commit_and_remove(depot, chosen, session)
}

/// Commits what was put again, and removes the chosen segments behind it.
fn commit_and_remove<D: Depot>(
    depot: &mut D,
    chosen: &[u64],
    session: &mut Session,
) -> Result<(), CompactFault>
    requires unspent { session.old.spent ≡ false }
    ensures commits { CommitsChosen chosen.now session.old (D.told depot.old) (D.told depot.new) (D.faults depot.old) (D.faults depot.new) result }
{
    session.commit(depot)?;
    remove_all(depot, chosen)?;
    Ok(())
}
