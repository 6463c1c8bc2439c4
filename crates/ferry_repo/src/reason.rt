//! The texts of faults.
ghost use Rattle.std.specs.Prelude.{◌≡◌, ◌∷◌, ◌++◌, length, take, OnOk, OnErr, codes, decimal};
ghost use Rattle.hex.specs.Hex.{encode_lower};
ghost use Rattle.ferry_repo.specs.Fault.{IsOfFiles};
ghost use Rattle.ferry_repo.specs.Reason.{reason};

use crate::fault::RepoFault;
use ferry_base::Id;
use ferry_text::{write_id, write_number};
use std::alloc::AllocError;

/// Appends why files are refused, as fault lines have it: what is wrong, with the number of its fault, its place or its id.
///
/// Memory is taken by `into` alone; after a refusal `into` is as it was.
pub fn write_reason(fault: &RepoFault, into: &mut Vec<u8>) -> Result<(), AllocError>
    requires of_files { IsOfFiles fault.now }
    ensures ok { OnOk result (into.new.items ≡ into.old.items ++ reason fault.now) }
    ensures err { OnErr result (into.new.items ≡ into.old.items) }
{
    let before = into.len();
    match append_reason(fault, into) {
        Ok(()) => Ok(()),
        Err(refused) => {
            into.truncate(before);
            Err(refused)
        }
    }
}

/// Appends the reason. After a refusal a part of it may stand behind what was there.
#[tactic(auto, unfolding(crate::specs::Reason::reason))]
fn append_reason(fault: &RepoFault, into: &mut Vec<u8>) -> Result<(), AllocError>
    ensures ok { OnOk result (into.new.items ≡ into.old.items ++ reason fault.now) }
    ensures err { OnErr result (take (length into.old.items) into.new.items ≡ into.old.items) }
{
    match fault {
        RepoFault::NoCommit => into.extend_from_slice(b"no commit"),
        RepoFault::Damaged { segment, at } => append_damaged(*segment, *at, into),
        RepoFault::Config(fault) => append_number(b"config ", fault.number(), into),
        RepoFault::Key(fault) => append_number(b"key ", fault.number(), into),
        RepoFault::Missing(id) => append_id(b"missing ", id, into),
        RepoFault::Blob(id, fault) => append_both(b"blob ", fault.number(), id, into),
        RepoFault::Manifest(fault) => append_number(b"manifest ", fault.number(), into),
        RepoFault::Archive(id, fault) => append_both(b"record ", fault.number(), id, into),
        RepoFault::Item(id, fault) => append_both(b"items ", fault.number(), id, into),
        RepoFault::Size(id) => append_id(b"size ", id, into),
        RepoFault::KeyFile(fault) => append_number(b"key file ", fault.number(), into),
        RepoFault::Other { file, config: _ } => append_id(b"key file of ", file, into),
        RepoFault::NoKey => into.extend_from_slice(b"no key"),
        RepoFault::Device | RepoFault::Memory => Ok(()),
    }
}

/// Appends a word and a number.
fn append_number(word: &[u8], number: u8, into: &mut Vec<u8>) -> Result<(), AllocError>
    ensures ok { OnOk result (into.new.items ≡ into.old.items ++ (word.now ++ decimal number)) }
    ensures err { OnErr result (take (length into.old.items) into.new.items ≡ into.old.items) }
{
    into.extend_from_slice(word)?;
    write_number(u128::from(number), into)
}

/// Appends a word and an id.
fn append_id(word: &[u8], id: &Id, into: &mut Vec<u8>) -> Result<(), AllocError>
    ensures ok { OnOk result (into.new.items ≡ into.old.items ++ (word.now ++ encode_lower id.now)) }
    ensures err { OnErr result (take (length into.old.items) into.new.items ≡ into.old.items) }
{
    into.extend_from_slice(word)?;
    write_id(id, into)
}

/// Appends a damaged segment and the place in it.
fn append_damaged(segment: u64, at: u64, into: &mut Vec<u8>) -> Result<(), AllocError>
    ensures ok { OnOk result (into.new.items ≡ into.old.items
        ++ (codes "damaged segment " ++ (decimal segment ++ (codes " at " ++ decimal at)))) }
    ensures err { OnErr result (take (length into.old.items) into.new.items ≡ into.old.items) }
{
    into.extend_from_slice(b"damaged segment ")?;
    write_number(u128::from(segment), into)?;
    into.extend_from_slice(b" at ")?;
    write_number(u128::from(at), into)
}

/// Appends a word, a number and an id.
fn append_both(word: &[u8], number: u8, id: &Id, into: &mut Vec<u8>) -> Result<(), AllocError>
    ensures ok { OnOk result (into.new.items ≡ into.old.items
        ++ (word.now ++ (decimal number ++ (32 ∷ encode_lower id.now)))) }
    ensures err { OnErr result (take (length into.old.items) into.new.items ≡ into.old.items) }
{
    into.extend_from_slice(word)?;
    write_number(u128::from(number), into)?;
    into.extend_from_slice(b" ")?;
    write_id(id, into)
}
