//! The settings and the key of a new repository.
ghost use Rattle.std.specs.Prelude.{◌≡◌, ◌≢◌, ◌≤◌, ◌++◌, ℕ, List, [], Ok, Err, IfOk, IfErr, IfSome, OnOk, Option, Some, None, length, map, option_map};
ghost use Rattle.ferry_config.specs.declared.config.Config.{Config};
ghost use Rattle.ferry_disk.specs.Device.{HasCause};
ghost use Rattle.ferry_keyblob.specs.Opening.{key_of, key_view};
ghost use Rattle.ferry_keyblob.specs.Sealing.{IsSealable};
ghost use Rattle.ferry_store.specs.Fault.{source_failed};
ghost use Rattle.ferry_store.specs.Key.{BasisOpens, GivenOpens, IsDrawn, IsNewBasis, IsGiven, RefusesGiven, IsFree, IsNewKeyFile, new_key, new_text};
ghost use Rattle.ferry_store.specs.declared.fault.StoreRefusal.TheVariants as Refusal;

use crate::fault::StoreRefusal;
use ferry_base::{Bytes, Id};
use ferry_config::Config;
use ferry_disk::Entropy;
use ferry_keyblob::{KeyText, open_key, seal_key};
use ferry_keyfile::{KeyFile, print_key_file, read_key_file};
use ferry_mac::Keys;
use ferry_msgpack::Value;
use ferry_repo::Secret;
use std::alloc::{AllocError, Global};

/// How many segments a folder of a new repository holds.
const PER_DIR: u64 = 1000;

/// The limit of a segment's size in a new repository, in bytes.
pub(crate) const LIMIT: u64 = 524_288_000;

/// The random bytes of a new repository and its key, in the order in which they are drawn.
///
/// There is no `Debug`, so that no message can show a key.
#[derive(Drop)]
struct NewBytes {
    id: Id,
    enc_key: [u8; 32],
    enc_hmac_key: [u8; 32],
    id_key: [u8; 32],
    seed: [u8; 4],
    salt: [u8; 32],
}

/// The settings of a new repository, and its secrets.
///
/// There is no `Debug`, so that no message can show a key.
#[derive(Drop)]
pub(crate) struct Basis {
    pub config: Config,
    pub keys: Keys,
}

/// Draws the random bytes of a new repository.
fn draw_bytes<E: Entropy>(entropy: &mut E) -> Result<NewBytes, StoreRefusal>
    ensures drawn { IfOk result (λ new. (bytes : List ℕ) × IsDrawn new bytes
        × (E.drawn entropy.new ≡ option_map (λ d. d ++ bytes) (E.drawn entropy.old))) }
    ensures refused { IfErr result (λ refusal. refusal ≡ Refusal.Entropy) }
    ensures cause { HasCause source_failed (E.faults entropy.old) (E.faults entropy.new) result }
{
    let mut new = NewBytes {
        id: [0; 32],
        enc_key: [0; 32],
        enc_hmac_key: [0; 32],
        id_key: [0; 32],
        seed: [0; 4],
        salt: [0; 32],
    };
    entropy.fill(&mut new.id)?;
    entropy.fill(&mut new.enc_key)?;
    entropy.fill(&mut new.enc_hmac_key)?;
    entropy.fill(&mut new.id_key)?;
    entropy.fill(&mut new.seed)?;
    entropy.fill(&mut new.salt)?;
    Ok(new)
}

/// The key of these bytes.
fn new_key(alloc: Global, new: &NewBytes) -> Result<KeyText, AllocError>
    ensures key { IfOk result (λ key. key_view key ≡ new_key new.now) }
{
    let name = Vec::from_slice(alloc, b"tam_required")?;
    let mut more = Vec::new(alloc);
    more.push((name, Value::Flag(true)))?;
    Ok(KeyText {
        keys: Keys {
            enc_key: new.enc_key,
            enc_hmac_key: new.enc_hmac_key,
            id_key: new.id_key,
        },
        repository_id: new.id,
        chunk_seed: i32::from_be_bytes(new.seed) as i128,
        more: Value::Table(more),
    })
}

/// The text of the key of these bytes, sealed with a passphrase.
fn new_text(
    alloc: Global,
    new: &NewBytes,
    passphrase: &[u8],
    iterations: u32,
) -> Result<Vec<u8>, AllocError>
    requires iterations { (1 ≤ iterations) × (iterations ≤ 10000000) }
    requires drawn { (bytes : List ℕ) × IsDrawn new.now bytes }
    ensures opens { IfOk result (λ text. key_of passphrase.now text.items ≡ Ok (new_key new.now)) }
    ensures text { IfOk result (λ text. text.items ≡ new_text new.now passphrase.now iterations) }
    ensures there { IfOk result (λ text. text.items ≢ []) }
{
    let key = new_key(alloc, new)?;
    seal_key(alloc, &key, passphrase, &new.salt, iterations)
}

/// A new repository with a key of its own, which stands in its `config`.
pub(crate) fn new_basis<E: Entropy>(
    alloc: Global,
    entropy: &mut E,
    secret: &Secret,
    iterations: u32,
) -> Result<Basis, StoreRefusal>
    requires { (1 ≤ iterations) × (iterations ≤ 10000000) }
    ensures opens { IfOk result (BasisOpens secret.now) }
    ensures made { IfOk result (λ basis. (bytes : List ℕ) × IsNewBasis secret.now.passphrase iterations bytes basis
        × (E.drawn entropy.new ≡ option_map (λ d. d ++ bytes) (E.drawn entropy.old))) }
    ensures refused { IfErr result IsFree }
    ensures cause { HasCause source_failed (E.faults entropy.old) (E.faults entropy.new) result }
{
    let new = draw_bytes(entropy)?;
    let key = new_text(alloc, &new, secret.passphrase.as_slice(), iterations)?;
    Ok(Basis {
        config: Config {
            id: new.id,
            key: Bytes::new(key),
            per_dir: PER_DIR,
            limit: LIMIT,
        },
        keys: Keys {
            enc_key: new.enc_key,
            enc_hmac_key: new.enc_hmac_key,
            id_key: new.id_key,
        },
    })
}

/// A new repository with the key of a key file, which is read and opened; none where no bytes are the file.
pub(crate) fn given_basis(alloc: Global, secret: &Secret) -> Result<Option<Basis>, StoreRefusal>
    ensures given { IfOk result (IsGiven secret.now) }
    ensures opens { IfOk result (GivenOpens secret.now) }
    ensures refused { IfErr result (RefusesGiven secret.now) }
{
    if secret.key_file.as_slice().is_empty() {
        return Ok(None);
    }
    let file = read_key_file(alloc, secret.key_file.as_slice())?;
    let key = open_key(alloc, file.key.as_slice(), secret.passphrase.as_slice())?;
    Ok(Some(Basis {
        config: Config {
            id: file.id,
            key: Bytes::new(Vec::new(alloc)),
            per_dir: PER_DIR,
            limit: LIMIT,
        },
        keys: key.keys,
    }))
}

/// Makes a key, and answers the text of its key file, sealed with a passphrase. It takes 164 random bytes.
///
/// Source: BorgBackup 1.2, Internals, "Data structures and file formats", Key files.
pub fn make_key<E: Entropy>(
    alloc: Global,
    entropy: &mut E,
    passphrase: &[u8],
    iterations: u32,
) -> Result<Vec<u8>, StoreRefusal>
    requires { (1 ≤ iterations) × (iterations ≤ 10000000) }
    ensures made { IfOk result (λ text. (bytes : List ℕ) × IsNewKeyFile passphrase.now iterations bytes text.items
        × (E.drawn entropy.new ≡ option_map (λ d. d ++ bytes) (E.drawn entropy.old))) }
    ensures refused { IfErr result IsFree }
    ensures cause { HasCause source_failed (E.faults entropy.old) (E.faults entropy.new) result }
{
    let new = draw_bytes(entropy)?;
    let key = new_text(alloc, &new, passphrase, iterations)?;
    let file = KeyFile {
        id: new.id,
        key: Bytes::new(key),
    };
    let text = print_key_file(alloc, &file)?;
    Ok(text)
}
