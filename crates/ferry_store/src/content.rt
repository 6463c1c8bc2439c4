//! Contents that are added: put where they are new, and opened where they are live.
ghost use Rattle.std.specs.Prelude.{◌≡◌, ◌≢◌, ◌+◌, ◌∷◌, [], length, true, false, IfErr, IfSome, IsErrOf, OnOk, OnErr};
ghost use Rattle.std.specs.BTreeSet.{IsUnchanged, Updates};
ghost use Rattle.ferry_base.specs.Limits.{zero_id};
ghost use Rattle.ferry_blob.specs.Blob.{OpensTo, blocks};
ghost use Rattle.ferry_disk.specs.Device.{HasCause, KeepsTold, told_files};
ghost use Rattle.ferry_disk.specs.Image.{settled};
ghost use Rattle.ferry_disk.specs.Moments.{Between};
ghost use Rattle.ferry_log.specs.Live.{key_cmp};
ghost use Rattle.ferry_repo.specs.Fault.{IsOfFiles, repo_failed};
ghost use Rattle.ferry_repo.specs.Objects.{IsMissing};
ghost use Rattle.ferry_repo.specs.Opening.{FitsRepo, cached_in, mode_of, repo_view};
ghost use Rattle.ferry_segment.specs.Entry.{PutEntry};
ghost use Rattle.ferry_stops.specs.Tells.{TellsNothing};
ghost use Rattle.ferry_store.specs.Causes.{Stops};
ghost use Rattle.ferry_store.specs.Content.{blob_for, HasPut, IsThere, Learns, RefusesNew, RefusesOld};
ghost use Rattle.ferry_store.specs.Fault.{depot_failed, source_failed, spends};
ghost use Rattle.ferry_store.specs.Limits.{BeginsFew, LeavesBoth, LimitsPut};
ghost use Rattle.ferry_store.specs.Piece.{IsPrepared, content_in};
ghost use Rattle.ferry_store.specs.State.{Did, KeepsSound};
ghost use Rattle.ferry_store.specs.Types.{FitsMode};
ghost use Rattle.ferry_store.specs.Writing.{WritesMore};
ghost use Rattle.ferry_store.specs.declared.fault.StoreRefusal.TheVariants as Refusal;
ghost use Rattle.ferry_write.specs.declared.fault.WriteFault.TheVariants as Writes;

use crate::fault::StoreRefusal;
use crate::put::put_object;
use ferry_base::{Id, ZERO_ID};
use ferry_disk::Depot;
use ferry_nonce::Counter;
use ferry_repo::{Repo, RepoFault};
use ferry_write::Session;
use std::alloc::AllocError;
use std::cmp::min;
use std::collections::BTreeSet;

/// How many contents are read side by side at most.
const AHEAD: usize = 24;

/// What adding a content answers: the id of the content, and whether it was put.
#[derive(Clone, Copy, Debug, PartialEq, Eq)]
pub struct Added {
    pub id: Id,
    pub new: bool,
}

/// Puts the content of a buffer that isn't live under its id, and learns where its blob lies.
pub(crate) fn put_content<D: Depot>(
    depot: &mut D,
    repo: &mut Repo,
    session: &mut Session,
    counter: &mut Counter,
    id: &Id,
    is_blob: bool,
    buffer: &mut [u8],
) -> Result<(), StoreRefusal>
    requires session { session.old.spent ≡ false }
    requires counter { counter.old.spent ≡ false }
    requires new { IsMissing (repo_view repo.old).log id.now }
    requires prepared { IsPrepared (repo_view repo.old) id.now is_blob buffer.old }
    requires settled { IfSome (D.told depot.old) (λ t. settled t.history.acts ≡ true) }
    requires mode { IfSome (D.told depot.old) (λ t. FitsMode t.history (mode_of (repo_view repo.old).config)) }
    ensures did { Did (KeepsSound session.old counter.old)
        (λ _. HasPut (repo_view repo.old) session.old counter.old id.now (content_in (repo_view repo.old).keys is_blob buffer.old)
        (repo_view repo.new) session.new counter.new)
        (D.told depot.old) (D.told depot.new) (D.faults depot.old) (D.faults depot.new) result }
    ensures untold { Between (D.told depot.old) (D.told depot.new) TellsNothing }
    ensures writes { Between (D.told depot.old) (D.told depot.new) (WritesMore
        (OpensTo (repo_view repo.old).keys id.now (blob_for (repo_view repo.old) counter.old (content_in (repo_view repo.old).keys is_blob buffer.old))
        (content_in (repo_view repo.old).keys is_blob buffer.old))
        (PutEntry id.now (blob_for (repo_view repo.old) counter.old (content_in (repo_view repo.old).keys is_blob buffer.old)) ∷ []) session.old counter.old) }
    ensures cached { cached_in repo.new ≡ cached_in repo.old }
    ensures learns { OnOk result (Learns (repo_view repo.old) id.now true (repo_view repo.new)) }
    ensures opens { OnOk result (OpensTo (repo_view repo.old).keys id.now (blob_for (repo_view repo.old) counter.old
        (content_in (repo_view repo.old).keys is_blob buffer.old)) (content_in (repo_view repo.old).keys is_blob buffer.old)) }
    ensures session { OnOk result (session.new.spent ≡ false) }
    ensures after { OnOk result (session.new.after ≡ session.old.after) }
    ensures counter { OnOk result (counter.new.spent ≡ false) }
    ensures refused { IfErr result (RefusesNew session.old counter.old (content_in (repo_view repo.old).keys is_blob buffer.old)) }
    ensures limits { LimitsPut result session.old counter.old (84 + length (content_in (repo_view repo.old).keys is_blob buffer.old))
        (blocks (length (content_in (repo_view repo.old).keys is_blob buffer.old))) }
    ensures few { BeginsFew 1 session.old.last session.new.last (IsErrOf result (Refusal.Write Writes.Numbers)) }
    ensures limit { session.new.limit ≡ session.old.limit }
    ensures config { (repo_view repo.new).config ≡ (repo_view repo.old).config }
    ensures leaves { IfErr result (LeavesBoth session.old counter.old session.new counter.new (D.told depot.old) (D.told depot.new)) }
    ensures unlearnt { IfErr result (λ refusal. spends refusal ≡ false → repo.new ≡ repo.old) }
    ensures stops { IfErr result (λ refusal. Between (D.told depot.old) (D.told depot.new) (Stops session.old counter.old refusal)) }
{
    let mode = repo.mode();
    let place = put_object(
        depot,
        repo.keys(),
        mode,
        session,
        counter,
        id,
        is_blob,
        buffer,
    )?;
    repo.learn(id, place)?;
    Ok(())
}

/// Opens the content of an id that is live, and notes the id. Where it isn't kept, those of `later` that will be opened are read with it, side
/// by side.
pub(crate) fn open_content<D: Depot>(
    depot: &mut D,
    repo: &mut Repo,
    opened: &mut BTreeSet<Id>,
    id: Id,
    later: &[Id],
) -> Result<(), StoreRefusal>
    requires fits { IfSome (D.told depot.old) (λ t. FitsRepo (told_files t) (repo_view repo.old) (cached_in repo.old)) }
    requires chunk { id ≢ zero_id }
    requires live { IsMissing (repo_view repo.old).log id → ⊥ }
    ensures there { OnOk result (IfSome (D.told depot.old) (λ t. IsThere (told_files t) (repo_view repo.old) id)) }
    ensures fits { IfSome (D.told depot.new) (λ t. FitsRepo (told_files t) (repo_view repo.new) (cached_in repo.new)) }
    ensures kept { repo_view repo.new ≡ repo_view repo.old }
    ensures noted { OnOk result (Updates key_cmp opened.old opened.new id true) }
    ensures unnoted { OnErr result (IsUnchanged opened.old opened.new) }
    ensures untouched { IfErr result (λ refusal. spends refusal ≡ false → opened.new ≡ opened.old) }
    ensures refused { IfErr result (λ refusal. IfSome (D.told depot.old) (λ t. RefusesOld (told_files t) (repo_view repo.old) id refusal)) }
    ensures drawn { IfErr result (λ refusal. source_failed refusal ≡ false) }
    ensures unwritten { IsErrOf result (Refusal.Write Writes.Numbers) → ⊥ }
    ensures same { KeepsTold depot_failed (D.told depot.old) (D.told depot.new) result }
    ensures cause { HasCause depot_failed (D.faults depot.old) (D.faults depot.new) result }
{
    read_later(depot, repo, opened, &id, later)?;
    repo.chunk(depot, &id)?;
    note(opened, id)?;
    Ok(())
}

/// Brings the content of an id and those of the ids behind it that are live and weren't opened among those that the repository keeps, where the
/// first isn't there. Only time depends on it: the call that opens a content says what is wrong with it.
fn read_later<D: Depot>(
    depot: &mut D,
    repo: &mut Repo,
    opened: &BTreeSet<Id>,
    id: &Id,
    later: &[Id],
) -> Result<(), RepoFault>
    requires fits { IfSome (D.told depot.old) (λ t. FitsRepo (told_files t) (repo_view repo.old) (cached_in repo.old)) }
    ensures refused { IfErr result (λ fault. IsOfFiles fault → ⊥) }
    ensures fits { IfSome (D.told depot.new) (λ t. FitsRepo (told_files t) (repo_view repo.new) (cached_in repo.new)) }
    ensures kept { repo_view repo.new ≡ repo_view repo.old }
    ensures same { KeepsTold repo_failed (D.told depot.old) (D.told depot.new) result }
    ensures cause { HasCause repo_failed (D.faults depot.old) (D.faults depot.new) result }
{
    if later.is_empty() || repo.kept_content(id).is_some() {
        return Ok(());
    }
    let (ids, count) = ids_ahead(repo, opened, id, later);
    repo.read_ahead(depot, &ids[..min(count, AHEAD)], 0)
}

/// An id, and those of the ids behind it that are live and weren't opened, with how many that are: as many as are read ahead at most.
fn ids_ahead(repo: &Repo, opened: &BTreeSet<Id>, id: &Id, later: &[Id]) -> ([Id; AHEAD], usize) {
    let mut ids = [ZERO_ID; AHEAD];
    ids[0] = *id;
    let mut count = 1;
    for place in 0..later.len() {
        if count >= AHEAD {
            break;
        }
        if is_to_open(repo, opened, &later[place]) {
            ids[count] = later[place];
            count += 1;
        }
    }
    (ids, count)
}

/// Whether the content of an id is live since the opening, and wasn't opened.
fn is_to_open(repo: &Repo, opened: &BTreeSet<Id>, id: &Id) -> bool {
    repo.log().find(id).is_some() && !repo.log().has_learnt(id) && !opened.contains(id)
}

/// Takes an id in. A refused call leaves the ids as they were.
fn note(ids: &mut BTreeSet<Id>, id: Id) -> Result<(), AllocError>
    ensures noted { OnOk result (Updates key_cmp ids.old ids.new id true) }
    ensures unnoted { OnErr result (IsUnchanged ids.old ids.new) }
{
    ids.insert(id)?;
    Ok(())
}
