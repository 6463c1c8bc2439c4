ghost use Rattle.std.specs.Prelude.{◌≡◌, length, map};
ghost use Rattle.ferry_blob.specs.Blob.{content_id, is_named};

use crate::macs::macs_of;
use ferry_base::{Id, ZERO_ID};
use ferry_lanes::same;
use ferry_mac::{Keys, hmac256, hmac256_many};

/// The id of a content: its HMAC-SHA-256 under the id key.
///
/// Source: BorgBackup 1.2, Internals, "Data structures and file formats", Encryption.
#[tactic(auto, unfolding(crate::specs::Blob::content_id))]
pub fn id_of(keys: &Keys, content: &[u8]) -> Id
    ensures id { result ≡ content_id keys.now content.now }
{
    hmac256(&keys.id_key, content)
}

/// The ids of four contents, side by side. A place that isn't needed has an empty content.
///
/// Source: BorgBackup 1.2, Internals, "Data structures and file formats", Encryption.
#[tactic(auto, unfolding(crate::specs::Blob::content_id))]
pub fn ids_of(keys: &Keys, contents: [&[u8]; 4]) -> [Id; 4]
    ensures ids { result ≡ map (λ content. content_id keys.now content.now) contents.entry }
{
    macs_of(&keys.id_key, contents)
}

/// The ids of contents of any number and any lengths, side by side, each in the place of its content.
///
/// Source: BorgBackup 1.2, Internals, "Data structures and file formats", Encryption.
#[tactic(auto, unfolding(crate::specs::Blob::content_id))]
pub fn ids_many(keys: &Keys, contents: &[&[u8]], ids: &mut [Id])
    requires size { length ids.old ≡ length contents.now }
    ensures ids { ids.new ≡ map (λ content. content_id keys.now content.now) contents.now }
{
    hmac256_many(&keys.id_key, contents, ids);
}

/// Whether a content may stand under an id: the zero id, or its own.
pub(crate) fn is_named(keys: &Keys, id: &Id, content: &[u8]) -> bool
    ensures named { result ≡ is_named keys.now id.now content.now }
{
    same(id, &ZERO_ID) || same(id, &id_of(keys, content))
}
