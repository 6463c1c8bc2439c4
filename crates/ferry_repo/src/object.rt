//! The objects of a repository, each read at the place of its blob.
ghost use Rattle.std.specs.Prelude.{◌≡◌, ◌≤◌, ◌+◌, ◌<◌, drop, take, length, IfOk, IfErr, IfSome};
ghost use Rattle.ferry_blob.specs.Blob.{OpensTo as OpensBlob};
ghost use Rattle.ferry_disk.specs.Files.{segment_bytes};
ghost use Rattle.ferry_disk.specs.Device.{KeepsTold, HasCause, told_files};
ghost use Rattle.ferry_log.specs.State.{FitsFiles};
ghost use Rattle.ferry_repo.specs.Fault.{repo_failed};
ghost use Rattle.ferry_repo.specs.Objects.{HoldsObject, RefusesObject, LosesBlob, BreaksBlob};

use crate::fault::RepoFault;
use ferry_base::Id;
use ferry_blob::open_blob;
use ferry_disk::{Name, Shelf, read_part};
use ferry_log::{Log, Place};
use ferry_mac::Keys;
use std::alloc::Global;

/// How many bytes of a blob stand in front of its content: a type of 1, an authentication code of 32, a counter of 8 and a
/// compression header of 2.
const BLOB_HEAD: usize = 43;

/// The content of an object.
#[tactic(auto, using(crate::proofs::FaultLemmas::conversions))]
pub(crate) fn object<S: Shelf>(
    alloc: Global,
    shelf: &mut S,
    log: &Log,
    keys: &Keys,
    id: &Id,
) -> Result<Vec<u8>, RepoFault>
    requires fits { IfSome (S.told shelf.old) (λ t. FitsFiles (told_files t) log.now) }
    ensures content { IfOk result (λ content. IfSome (S.told shelf.old) (λ t.
        HoldsObject (told_files t) log.now keys.now id.now content.items)) }
    ensures refused { IfErr result (λ fault. IfSome (S.told shelf.old) (λ t.
        RefusesObject (told_files t) log.now keys.now id.now fault)) }
    ensures same { KeepsTold repo_failed (S.told shelf.old) (S.told shelf.new) result }
    ensures cause { HasCause repo_failed (S.faults shelf.old) (S.faults shelf.new) result }
{
    let Some(place) = log.find(id) else {
        return Err(RepoFault::Missing(*id));
    };
    let blob = blob_at(alloc, shelf, place)?;
    content_of(keys, id, blob)
}

/// The blob at a place.
#[tactic(auto, using(crate::proofs::FaultLemmas::conversions))]
pub(crate) fn blob_at<S: Shelf>(
    alloc: Global,
    shelf: &mut S,
    place: Place,
) -> Result<Vec<u8>, RepoFault>
    ensures blob { IfOk result (λ blob. IfSome (S.told shelf.old) (λ t.
        blob.items ≡ take place.size (drop place.at (segment_bytes (told_files t) place.segment)))) }
    ensures refused { IfErr result (λ fault. IfSome (S.told shelf.old) (λ t.
        LosesBlob (segment_bytes (told_files t) place.segment) place fault)) }
    ensures same { KeepsTold repo_failed (S.told shelf.old) (S.told shelf.new) result }
    ensures cause { HasCause repo_failed (S.faults shelf.old) (S.faults shelf.new) result }
{
    let size = place.size as usize;
    if place.at.checked_add(u64::from(place.size)).is_none() {
        return Err(RepoFault::Memory);
    }
    let mut blob = Vec::new(alloc);
    let name = Name::Segment(place.segment);
    read_part(shelf, name, place.at, size, &mut blob)?;
    if blob.len() < size {
        return Err(RepoFault::Damaged {
            segment: place.segment,
            at: place.at,
        });
    }
    Ok(blob)
}

/// The content of a blob.
fn content_of(keys: &Keys, id: &Id, mut blob: Vec<u8>) -> Result<Vec<u8>, RepoFault>
    ensures content { IfOk result (λ content. OpensBlob keys.now id.now blob.items content.items) }
    ensures refused { IfErr result (BreaksBlob keys.now id.now blob.items) }
{
    match open_blob(keys, id, &mut blob) {
        Ok(()) => {}
        Err(fault) => return Err(RepoFault::Blob(*id, fault)),
    }
    Ok(without_head(blob))
}

/// The content of a blob that was opened in place.
pub(crate) fn without_head(mut blob: Vec<u8>) -> Vec<u8>
    requires { 43 ≤ length blob.items }
    ensures { result.items ≡ drop 43 blob.items }
{
    let size = blob.len() - BLOB_HEAD;
    blob.copy_within(BLOB_HEAD.., 0);
    blob.truncate(size);
    blob
}
