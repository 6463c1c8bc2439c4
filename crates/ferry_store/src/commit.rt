//! A manifest that is put and committed.
ghost use Rattle.std.specs.Prelude.{◌≡◌, ◌≢◌, ◌++◌, ℕ, List, false, true, length, option_map, IfErr, IfSome, IsErrOf, OnOk};
ghost use Rattle.ferry_disk.specs.Device.{HasCause};
ghost use Rattle.ferry_disk.specs.Image.{settled};
ghost use Rattle.ferry_disk.specs.Moments.{Between};
ghost use Rattle.ferry_manifest.specs.Manifest.Text.{manifest_view};
ghost use Rattle.ferry_manifest.specs.Manifest.Writing.{IsPackable, manifest_text};
ghost use Rattle.ferry_repo.specs.Opening.{mode_of, repo_view};
ghost use Rattle.ferry_stops.specs.Tells.{TellsNothing};
ghost use Rattle.ferry_store.specs.Causes.{Stops};
ghost use Rattle.ferry_store.specs.Commit.{CommitsEntry, HasCommitted, RefusesManifestOf, manifest_entry};
ghost use Rattle.ferry_store.specs.Fault.{depot_failed, source_failed};
ghost use Rattle.ferry_store.specs.Limits.{BeginsFew, LeavesBoth, LimitsManifest};
ghost use Rattle.ferry_store.specs.Standing.{with_manifest};
ghost use Rattle.ferry_store.specs.State.{Did, KeepsSound};
ghost use Rattle.ferry_store.specs.Types.{FitsMode};
ghost use Rattle.ferry_store.specs.Writing.{WritesManifest};
ghost use Rattle.ferry_store.specs.declared.fault.StoreRefusal.TheVariants as Refusal;
ghost use Rattle.ferry_write.specs.declared.fault.WriteFault.TheVariants as Writes;

use crate::fault::StoreRefusal;
use crate::put::{packed, put_object};
use crate::state::commit;
use ferry_base::ZERO_ID;
use ferry_disk::{Depot, Entropy};
use ferry_manifest::Manifest;
use ferry_nonce::Counter;
use ferry_repo::Repo;
use ferry_write::Session;
use std::alloc::Global;

/// Puts a manifest under the zero id, and commits it with all that was put.
pub(crate) fn commit_manifest<D: Depot, E: Entropy>(
    alloc: Global,
    depot: &mut D,
    entropy: &mut E,
    repo: &Repo,
    session: &mut Session,
    counter: &mut Counter,
    manifest: &Manifest,
) -> Result<(), StoreRefusal>
    requires session { session.old.spent ≡ false }
    requires counter { counter.old.spent ≡ false }
    requires packable { IsPackable (manifest_view manifest.now) }
    requires settled { IfSome (D.told depot.old) (λ t. settled t.history.acts ≡ true) }
    requires mode { IfSome (D.told depot.old) (λ t. FitsMode t.history (mode_of (repo_view repo.now).config)) }
    ensures committed { (salt : List ℕ) × ((length salt ≡ 64) × OnOk result (E.drawn entropy.new ≡ option_map (λ d. d ++ salt) (E.drawn entropy.old))
        × Did (CommitsEntry (with_manifest (repo_view repo.now) (manifest_view manifest.now)) session.old counter.old
        (manifest_entry (repo_view repo.now) counter.old (manifest_view manifest.now) salt))
        (λ _. HasCommitted (with_manifest (repo_view repo.now) (manifest_view manifest.now)) session.old counter.old
        (manifest_entry (repo_view repo.now) counter.old (manifest_view manifest.now) salt)
        session.new counter.new) (D.told depot.old) (D.told depot.new) (D.faults depot.old) (D.faults depot.new) result
        × IfErr result (RefusesManifestOf counter.old (length (manifest_text (repo_view repo.now).keys salt (manifest_view manifest.now))))
        × LimitsManifest result session.old counter.old (length (manifest_text (repo_view repo.now).keys salt (manifest_view manifest.now)))) }
    ensures untold { Between (D.told depot.old) (D.told depot.new) TellsNothing }
    ensures writes { (blob : List ℕ) × Between (D.told depot.old) (D.told depot.new) (WritesManifest blob session.old counter.old) }
    ensures few { BeginsFew 2 session.old.last session.new.last (IsErrOf result (Refusal.Write Writes.Numbers)) }
    ensures limit { session.new.limit ≡ session.old.limit }
    ensures leaves { IfErr result (LeavesBoth session.old counter.old session.new counter.new (D.told depot.old) (D.told depot.new)) }
    ensures session { OnOk result (session.new.spent ≡ false) }
    ensures counter { OnOk result (counter.new.spent ≡ false) }
    ensures stops { IfErr result (λ refusal. Between (D.told depot.old) (D.told depot.new) (Stops session.old counter.old refusal)) }
    // Where neither the device failed nor memory was refused, nothing is committed.
    ensures keeps { IfErr result (λ refusal. depot_failed refusal ≡ false → refusal ≢ Refusal.Memory
        → Between (D.told depot.old) (D.told depot.new) (KeepsSound session.old counter.old)) }
    ensures cause { HasCause source_failed (E.faults entropy.old) (E.faults entropy.new) result }
{
    let mut buffer = packed(alloc, entropy, repo.keys(), manifest)?;
    let mode = repo.mode();
    put_object(
        depot,
        repo.keys(),
        mode,
        session,
        counter,
        &ZERO_ID,
        false,
        &mut buffer,
    )?;
    commit(depot, session)
}
