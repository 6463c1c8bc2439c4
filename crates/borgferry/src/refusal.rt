//! What the refusal of a repository means and what to do about it, in plain words. One table serves both repositories: the names in
//! braces stand for the words of the one that is refused.

use crate::advice::MEMORY;
use ferry_base::ZERO_ID;
use ferry_blob::BlobFault;
use ferry_config::ConfigFault;
use ferry_item::ItemFault;
use ferry_keyblob::KeyFault;
use ferry_keyfile::KeyFileFault;
use ferry_manifest::MetaFault;
use ferry_real::Presence;
use ferry_top::RepoFault;

/// Where a repository's files can't be read.
pub const DEVICE: &str =
    "{file} can't be read{why}: see that {place} is a folder, that you may read all of it and that its disk answers";

/// Where a word that stands for no folder is to be a repository.
pub const UNNAMED: &str =
    "{place} is - or empty, which stands for no folder: name the folder of the repository";

const ABSENT: &str =
    "the folder {place} isn't there: see how it is spelled, and from which folder a path without / in front goes{init}";

/// Where Borg compressed an object.
pub const COMPRESSED: &str =
    "Borg compressed this object, as by its default all that it writes, archives and manifest: borgferry-plain {place} puts what is compressed there again without, and leaves names, ids and times as they are";

/// Where the tag of an archive's record is that of another text.
pub const TAG: &str =
    "the archive's authentication tag is that of another text, as borg rename, and borg recreate without --target, leave it: borgferry-plain --tag-archives {place} writes the right one, by which the archive gets another id";

/// A repository that doesn't open. A folder that isn't there reads as one without files, so this is told in the place of what such a
/// folder lacks first.
pub fn of_repo(fault: &RepoFault, presence: Presence) -> &'static str {
    match (fault, presence) {
        (RepoFault::NoCommit | RepoFault::Config(ConfigFault::Section), Presence::Absent) => ABSENT,
        (RepoFault::NoCommit | RepoFault::Config(ConfigFault::Section), Presence::Unnamed) => {
            UNNAMED
        }
        (RepoFault::NoCommit, Presence::There) => {
            "no segment below {place}/data ends with a commit: see that {place} is a repository's own folder, with config and data in it{init}"
        }
        (RepoFault::Damaged { .. }, _) => {
            "this segment's file in {place} isn't as Borg wrote it: take the file of another copy of the repository, or see what borg check finds"
        }
        (RepoFault::Config(fault), _) => of_config(*fault),
        (RepoFault::Key(fault), _) => of_key(*fault),
        (RepoFault::Missing(id), _) => of_missing(*id == ZERO_ID),
        (RepoFault::Blob(_, fault), _) => of_blob(*fault),
        (RepoFault::Manifest(fault), _) => of_manifest(*fault),
        (RepoFault::Archive(_, fault), _) => of_record(*fault),
        (RepoFault::Item(_, fault), _) => of_item(*fault),
        (RepoFault::Size(_), _) => {
            "a file's content in {place} isn't as long as its archive says: see what borg check --verify-data finds, and look at another copy"
        }
        (RepoFault::KeyFile(fault), _) => of_key_file(*fault),
        (RepoFault::Other { .. }, _) => {
            "the key file is that of another repository: set the variable {key file} to that of {place}, or to what borg key export writes of it"
        }
        (RepoFault::NoKey, _) => {
            "{place}/config has no key: in keyfile mode it lies in a file, often one below ~/.config/borg/keys, so set the variable {key file} to it; a repository of --encryption none has no key and isn't read"
        }
        (RepoFault::Device, _) => DEVICE,
        (RepoFault::Memory, _) => MEMORY,
    }
}

fn of_config(fault: ConfigFault) -> &'static str {
    match fault {
        ConfigFault::Section => {
            "{place}/config isn't there or has no single section [repository]: see that {place} is a repository's own folder"
        }
        ConfigFault::Version => {
            "version in {place}/config isn't 1: only repositories that Borg 1 has made are read"
        }
        ConfigFault::Id => {
            "id in {place}/config isn't 64 hex digits: take config from another copy of the repository"
        }
        ConfigFault::Key => {
            "the key in {place}/config isn't base64: take config from another copy of the repository"
        }
        ConfigFault::Number => {
            "segments_per_dir or max_segment_size in {place}/config isn't plain digits from 1 to 4294967295: write 2097152 for 2M, say"
        }
        ConfigFault::Repeat => {
            "a name stands twice in {place}/config: take out the line that is wrong"
        }
        ConfigFault::Memory => MEMORY,
    }
}

fn of_key(fault: KeyFault) -> &'static str {
    match fault {
        KeyFault::Pack => {
            "the key isn't whole: take {place}/config, or the key file, from another copy"
        }
        KeyFault::Field => {
            "the key isn't of --encryption repokey or keyfile: one of a -blake2 mode isn't read; where it is no such mode the key is broken, so take {place}/config, or the key file, from another copy"
        }
        KeyFault::Algorithm => {
            "the key is sealed in a way that Borg 1 doesn't use: only keys that Borg 1 has made are opened"
        }
        KeyFault::Iterations => {
            "the key wants no iterations or more than 10000000: where Borg opens it, borg key change-passphrase {place} seals it with 100000"
        }
        KeyFault::Passphrase => {
            "the passphrase doesn't open the key: set the variable {passphrase} to that of the repository which is {place} in this command, whatever it was in another"
        }
        KeyFault::Memory => MEMORY,
    }
}

fn of_key_file(fault: KeyFileFault) -> &'static str {
    match fault {
        KeyFileFault::Header => {
            "the key file doesn't begin with BORG_KEY and the repository's id: see which file {key file} names"
        }
        KeyFileFault::Body => {
            "the key file has no key behind its first line: take another copy of it, or what borg key export writes"
        }
        KeyFileFault::Memory => MEMORY,
    }
}

fn of_missing(is_manifest: bool) -> &'static str {
    if is_manifest {
        "there is no manifest, which lists the archives: see that no file of {place} is missing; on a copy, borg check --repair makes it anew, and borgferry-plain makes that plain"
    } else {
        "an object isn't there that {place} needs: see that no file of {place} is missing, and what borg check finds"
    }
}

fn of_blob(fault: BlobFault) -> &'static str {
    match fault {
        BlobFault::Kind => {
            "the object isn't of a repository made with --encryption repokey or keyfile, and no others are read"
        }
        BlobFault::Short => {
            "the object is too short to be an encrypted one: see what borg check --verify-data {place} finds, and look at another copy"
        }
        BlobFault::Mac => {
            "the object was changed, or sealed with another key: see what borg check --verify-data {place} finds, and look at another copy"
        }
        BlobFault::Compressed => COMPRESSED,
        BlobFault::Id => {
            "the object isn't the one that its id names: see what borg check --verify-data {place} finds, and look at another copy"
        }
    }
}

fn of_manifest(fault: MetaFault) -> &'static str {
    match fault {
        MetaFault::Pack | MetaFault::Field | MetaFault::TooLarge => {
            "the manifest of {place} isn't as Borg 1 writes it: see what borg check finds, and look at another copy of the repository"
        }
        MetaFault::TagMissing => {
            "the manifest of {place} has no authentication tag, so anybody may have written it: if you trust it, borg create --compression none {place}::NAME FOLDER writes one with its tag, and where Borg refuses that, the same after borg upgrade --tam --force {place}"
        }
        MetaFault::Tag => {
            "the manifest's authentication tag is wrong, so it was changed without the key: don't trust {place}, look at another copy"
        }
        MetaFault::Memory => MEMORY,
    }
}

fn of_record(fault: MetaFault) -> &'static str {
    match fault {
        MetaFault::Tag | MetaFault::TagMissing => TAG,
        MetaFault::Memory => MEMORY,
        MetaFault::Pack | MetaFault::Field | MetaFault::TooLarge => {
            "the archive's record isn't as Borg 1 writes it: see what borg check {place} finds, and look at another copy of the repository"
        }
    }
}

fn of_item(fault: ItemFault) -> &'static str {
    match fault {
        ItemFault::Healed => {
            "borg check --repair has put zeros in the place of lost data of a file of this archive in {place}: only whole archives are read"
        }
        ItemFault::Memory => MEMORY,
        ItemFault::Pack | ItemFault::Path | ItemFault::Chunks | ItemFault::Rest => {
            "the list of the archive's items isn't as Borg 1 writes it: see what borg check {place} finds, and look at another copy"
        }
    }
}
