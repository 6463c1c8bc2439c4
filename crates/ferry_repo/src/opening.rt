//! The parts of a repository as they are opened, one after another.
ghost use Rattle.std.specs.Prelude.{◌≡◌, ◌↔◌, IfOk, IfErr, IfSome, IsTrue, Ok, false};
ghost use Rattle.ferry_disk.specs.Files.{contents_at};
ghost use Rattle.ferry_disk.specs.Device.{KeepsTold, HasCause, told_files};
ghost use Rattle.ferry_disk.specs.declared.name.Name.TheVariants as FileName;
ghost use Rattle.ferry_keyblob.specs.Opening.{key_view};
ghost use Rattle.ferry_log.specs.State.{FitsFiles};
ghost use Rattle.ferry_manifest.specs.Manifest.Writing.{IsPackable};
ghost use Rattle.ferry_manifest.specs.Manifest.Text.{manifest_of, manifest_view};
ghost use Rattle.ferry_repo.specs.Fault.{repo_failed};
ghost use Rattle.ferry_repo.specs.Opening.{HoldsRoot, IsOfManifest, LacksRoot, RootOrNone, no_manifest};
ghost use Rattle.ferry_repo.specs.Opening.{UnlocksTo, OpensKeyTo, RefusesKey, IsRefusal, IsNoManifest, key_text, mode_of, opened_key, opened_text, text_in};

use crate::fault::RepoFault;
use crate::object::object;
use crate::secret::Secret;
use ferry_base::{Id, ZERO_ID};
use ferry_blob::Mode;
use ferry_config::{Config, read_config};
use ferry_disk::{Name, Shelf, read_whole};
use ferry_keyblob::{KeyText, open_envelope, read_envelope};
use ferry_keyfile::{KeyFile, read_key_file};
use ferry_log::Log;
use ferry_mac::Keys;
use ferry_manifest::{ArchiveRefs, Manifest, Names, read_manifest};
use ferry_msgpack::Value;
use std::alloc::Global;

/// What the file `config` of a repository says, and its key, opened with a secret.
///
/// There is no `Debug`, so that no message can show a key.
#[derive(Drop)]
pub struct Unlocked {
    pub config: Config,
    /// The iterations of PBKDF2 with which the key is sealed.
    pub iterations: u32,
    pub key: KeyText,
}

/// Reads the file `config` of a repository and opens its key with a secret. Nothing else of the repository is read.
///
/// A fault is the first in the order `Config`, then `NoKey`, `KeyFile` and `Other` where `config` has no key, and `Key` of the key text;
/// `Device` and `Memory` may come at any point.
///
/// Source: BorgBackup 1.2, Internals, "Data structures and file formats", Key files.
#[tactic(auto, using(crate::proofs::FaultLemmas::conversions))]
pub fn unlock<S: Shelf>(
    alloc: Global,
    shelf: &mut S,
    secret: &Secret,
) -> Result<Unlocked, RepoFault>
    ensures unlocked { IfOk result (λ u. IfSome (S.told shelf.old) (λ t.
        UnlocksTo (contents_at (told_files t) FileName.Config) secret.now u.config u.iterations (key_view u.key))) }
    ensures refused { IfErr result (λ fault. IfSome (S.told shelf.old) (λ t.
        RefusesKey (contents_at (told_files t) FileName.Config) secret.now fault)) }
    ensures same { KeepsTold repo_failed (S.told shelf.old) (S.told shelf.new) result }
    ensures cause { HasCause repo_failed (S.faults shelf.old) (S.faults shelf.new) result }
{
    let mut bytes = Vec::new(alloc);
    read_whole(shelf, Name::Config, &mut bytes)?;
    unlock_text(alloc, &bytes, secret)
}

/// Reads a file `config` and opens its key with a secret.
#[tactic(auto, unfolding(crate::specs::Opening::unlocked))]
fn unlock_text(alloc: Global, bytes: &[u8], secret: &Secret) -> Result<Unlocked, RepoFault>
    ensures unlocked { IfOk result (λ u. UnlocksTo bytes.now secret.now u.config u.iterations (key_view u.key)) }
    ensures refused { IfErr result (RefusesKey bytes.now secret.now) }
    ensures still { IfErr result (λ fault. repo_failed fault ≡ false) }
{
    let config = read_config(alloc, bytes)?;
    let (iterations, key) = open_key(alloc, &config, secret)?;
    Ok(Unlocked {
        config,
        iterations,
        key,
    })
}

/// Opens the key of a config with a secret: the iterations with which it is sealed, and the key.
#[tactic(auto, unfolding(crate::specs::Opening::opened_key, crate::specs::Opening::key_text))]
fn open_key(alloc: Global, config: &Config, secret: &Secret) -> Result<(u32, KeyText), RepoFault>
    ensures opened { IfOk result (λ k. OpensKeyTo (opened_key config.now secret.now) k.0 (key_view k.1)) }
    ensures refused { IfErr result (IsRefusal (opened_key config.now secret.now)) }
    ensures still { IfErr result (λ fault. repo_failed fault ≡ false) }
{
    let passphrase = secret.passphrase.as_slice();
    match mode_of(config) {
        Mode::Repokey => open_text(alloc, config.key.as_slice(), passphrase),
        Mode::Keyfile => {
            let file = key_file(alloc, &config.id, secret.key_file.as_slice())?;
            open_text(alloc, file.key.as_slice(), passphrase)
        }
    }
}

/// Where a config says that the key lies.
pub(crate) fn mode_of(config: &Config) -> Mode
    ensures mode { result ≡ mode_of config.now }
{
    if config.key.as_slice().is_empty() {
        Mode::Keyfile
    } else {
        Mode::Repokey
    }
}

/// Reads a key file, which has to be that of the repository of this id. No bytes are no file.
#[tactic(auto, unfolding(crate::specs::Opening::text_in))]
fn key_file(alloc: Global, id: &Id, bytes: &[u8]) -> Result<KeyFile, RepoFault>
    ensures file { IfOk result (λ file. text_in id.now bytes.now ≡ Ok file.key) }
    ensures refused { IfErr result (IsRefusal (text_in id.now bytes.now)) }
    ensures still { IfErr result (λ fault. repo_failed fault ≡ false) }
{
    if bytes.is_empty() {
        return Err(RepoFault::NoKey);
    }
    let file = read_key_file(alloc, bytes)?;
    if file.id != *id {
        return Err(RepoFault::Other {
            file: file.id,
            config: *id,
        });
    }
    Ok(file)
}

/// Opens a key text with a passphrase: the iterations of its envelope, and its key.
#[tactic(auto, unfolding(crate::specs::Opening::opened_text))]
fn open_text(alloc: Global, text: &[u8], passphrase: &[u8]) -> Result<(u32, KeyText), RepoFault>
    ensures opened { IfOk result (λ k. OpensKeyTo (opened_text passphrase.now text.now) k.0 (key_view k.1)) }
    ensures refused { IfErr result (IsRefusal (opened_text passphrase.now text.now)) }
    ensures still { IfErr result (λ fault. repo_failed fault ≡ false) }
{
    let envelope = read_envelope(alloc, text)?;
    let key = open_envelope(alloc, &envelope, passphrase)?;
    Ok((envelope.iterations, key))
}

/// The manifest that a content is.
fn manifest(alloc: Global, keys: &Keys, content: &[u8]) -> Result<Manifest, RepoFault>
    ensures manifest { IfOk result (λ manifest. manifest_of keys.now content.now ≡ Ok (manifest_view manifest)) }
    ensures packable { IfOk result (λ manifest. IsPackable (manifest_view manifest)) }
    ensures refused { IfErr result (IsNoManifest keys.now content.now) }
    ensures still { IfErr result (λ fault. repo_failed fault ≡ false) }
{
    Ok(read_manifest(alloc, keys, content)?)
}

/// A manifest without archives and further names, which isn't dated.
fn no_manifest(alloc: Global) -> Manifest
    ensures manifest { manifest_view result ≡ no_manifest }
{
    Manifest {
        timestamp: None,
        config: Value::Table(Vec::new(alloc)),
        item_keys: Names::new(Vec::new(alloc)),
        archives: ArchiveRefs::new(Vec::new(alloc)),
        more: Value::Table(Vec::new(alloc)),
    }
}

/// Whether a fault is one of the object under the zero id, or of the manifest in it.
fn is_of_manifest(fault: &RepoFault) -> bool
    ensures { IsTrue result ↔ IsOfManifest fault.now }
{
    match fault {
        RepoFault::Missing(_) | RepoFault::Blob(_, _) | RepoFault::Manifest(_) => true,
        _ => false,
    }
}

/// The manifest under the zero id.
#[tactic(auto, using(crate::proofs::FaultLemmas::conversions))]
fn root<S: Shelf>(
    alloc: Global,
    shelf: &mut S,
    log: &Log,
    keys: &Keys,
) -> Result<Manifest, RepoFault>
    requires fits { IfSome (S.told shelf.old) (λ t. FitsFiles (told_files t) log.now) }
    ensures manifest { IfOk result (λ manifest. IfSome (S.told shelf.old)
        (λ t. HoldsRoot (told_files t) log.now keys.now (manifest_view manifest))) }
    ensures packable { IfOk result (λ manifest. IsPackable (manifest_view manifest)) }
    ensures refused { IfErr result (λ fault. IfSome (S.told shelf.old) (λ t. LacksRoot (told_files t) log.now keys.now fault)) }
    ensures same { KeepsTold repo_failed (S.told shelf.old) (S.told shelf.new) result }
    ensures cause { HasCause repo_failed (S.faults shelf.old) (S.faults shelf.new) result }
{
    let content = object(alloc, shelf, log, keys, &ZERO_ID)?;
    manifest(alloc, keys, &content)
}

/// The manifest under the zero id; or none, and the fault for which there is none.
pub(crate) fn root_or_none<S: Shelf>(
    alloc: Global,
    shelf: &mut S,
    log: &Log,
    keys: &Keys,
) -> Result<(Manifest, Option<RepoFault>), RepoFault>
    requires fits { IfSome (S.told shelf.old) (λ t. FitsFiles (told_files t) log.now) }
    ensures root { IfOk result (λ both. IfSome (S.told shelf.old)
        (λ t. RootOrNone (told_files t) log.now keys.now (manifest_view both.0) both.1)) }
    ensures of_manifest { IfOk result (λ both. IfSome both.1 IsOfManifest) }
    ensures packable { IfOk result (λ both. IsPackable (manifest_view both.0)) }
    ensures refused { IfErr result (λ fault. IfSome (S.told shelf.old) (λ t. LacksRoot (told_files t) log.now keys.now fault)) }
    ensures other { IfErr result (λ fault. IsOfManifest fault → ⊥) }
    ensures same { KeepsTold repo_failed (S.told shelf.old) (S.told shelf.new) result }
    ensures cause { HasCause repo_failed (S.faults shelf.old) (S.faults shelf.new) result }
{
    match root(alloc, shelf, log, keys) {
        Ok(manifest) => Ok((manifest, None)),
        Err(fault) => {
            if is_of_manifest(&fault) {
                Ok((no_manifest(alloc), Some(fault)))
            } else {
                Err(fault)
            }
        }
    }
}

/// The config and the secrets of what was unlocked.
pub(crate) fn settings(unlocked: Unlocked) -> (Config, Keys)
    ensures config { result.0 ≡ unlocked.config }
    ensures keys { result.1 ≡ unlocked.key.keys }
{
    (unlocked.config, unlocked.key.keys)
}
