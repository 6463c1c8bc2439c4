//! From up to 64 blobs to their contents.

ghost use Rattle.std.specs.Prelude.{◌≡◌, ℕ, ◌<◌, ◌≤◌, true, [], drop, length, slice_index, slice_index_or, IsOk};
ghost use Rattle.ferry_base.specs.Limits.{zero_id};
ghost use Rattle.ferry_mac.specs.Hmac.{hmac256};
ghost use Rattle.ferry_blob.specs.Batch.{IsOpened, answer_at, answer_under, bytes_at, id_at, is_id};
ghost use Rattle.ferry_blob.specs.Blob.{content_id, has_type};

use crate::fault::BlobFault;
use crate::many_macs::macs_of_first;
use crate::opening::{authenticated_part, open_by_mac};
use crate::places::bytes_at;
use ferry_base::{Id, ZERO_ID};
use ferry_lanes::same;
use ferry_mac::Keys;

/// Opens up to 64 blobs in place, each as `open_blob` does, with their MACs and then their ids worked out side by side.
///
/// `ids` has the id of each blob, and `answers` gets its answer, in the same order. The blobs may have any lengths.
///
/// Source: BorgBackup 1.2, Internals, "Data structures and file formats", Encryption.
pub fn open_many(
    keys: &Keys,
    ids: &[Id],
    blobs: &mut [Vec<u8>],
    answers: &mut [Result<(), BlobFault>],
)
    requires ids { length ids.now ≡ length blobs.old }
    requires answers { length answers.old ≡ length blobs.old }
    requires places { length blobs.old ≤ 64 }
    ensures size { length answers.new ≡ length answers.old }
    ensures opened { (k : ℕ) → k < length blobs.old
        → IsOpened keys.now (id_at ids.now k) (bytes_at blobs.old k) (answer_at answers.new k) (bytes_at blobs.new k) }
{
    let macs = macs_of_blobs(keys, blobs);
    open_each(keys, &macs, blobs, answers);
    let names = ids_of_opened(keys, answers, blobs);
    put_answers(ids, &names, answers);
}

/// The MAC of each blob.
fn macs_of_blobs(keys: &Keys, blobs: &[Vec<u8>]) -> [[u8; 32]; 64]
    requires places { length blobs.now ≤ 64 }
    ensures macs { (k : ℕ) → k < length blobs.now → 43 ≤ length (bytes_at blobs.now k)
        → has_type (slice_index (bytes_at blobs.now k) 0) ≡ true
        → slice_index_or result k [] ≡ hmac256 keys.now.enc_hmac_key (drop 33 (bytes_at blobs.now k)) }
{
    let mut texts: [&[u8]; 64] = [&[]; 64];
    for place in 0..blobs.len() {
        texts[place] = authenticated_part(bytes_at(blobs, place));
    }
    macs_of_first(&keys.enc_hmac_key, &texts, blobs.len())
}

/// Opens each blob under the zero id.
fn open_each(
    keys: &Keys,
    macs: &[[u8; 32]; 64],
    blobs: &mut [Vec<u8>],
    answers: &mut [Result<(), BlobFault>],
)
    requires answers { length answers.old ≡ length blobs.old }
    requires places { length blobs.old ≤ 64 }
    requires macs { (k : ℕ) → k < length blobs.old → 43 ≤ length (bytes_at blobs.old k)
        → has_type (slice_index (bytes_at blobs.old k) 0) ≡ true
        → slice_index_or macs.now k [] ≡ hmac256 keys.now.enc_hmac_key (drop 33 (bytes_at blobs.old k)) }
    ensures size { length answers.new ≡ length answers.old }
    ensures opened { (k : ℕ) → k < length blobs.old
        → IsOpened keys.now zero_id (bytes_at blobs.old k) (answer_at answers.new k) (bytes_at blobs.new k) }
{
    for place in 0..blobs.len() {
        let blob = blobs[place].as_mut_slice();
        answers[place] = open_by_mac(keys, &macs[place], blob);
    }
}

/// The content of an opened blob, and no bytes where none was opened.
fn content_at<'a>(answers: &[Result<(), BlobFault>], blobs: &'a [Vec<u8>], place: usize) -> &'a [u8]
    requires { place < length answers.now }
    ensures content { IsOk (answer_at answers.now place) → result.now ≡ drop 43 (bytes_at blobs.now place) }
{
    let blob = bytes_at(blobs, place);
    if answers[place].is_err() || blob.len() < 43 {
        return &[];
    }
    &blob[43..]
}

/// The id of the content of each opened blob.
fn ids_of_opened(keys: &Keys, answers: &[Result<(), BlobFault>], blobs: &[Vec<u8>]) -> [Id; 64]
    requires answers { length answers.now ≡ length blobs.now }
    requires places { length blobs.now ≤ 64 }
    ensures ids { (k : ℕ) → k < length blobs.now → IsOk (answer_at answers.now k)
        → slice_index_or result k [] ≡ content_id keys.now (drop 43 (bytes_at blobs.now k)) }
{
    let mut texts: [&[u8]; 64] = [&[]; 64];
    for place in 0..blobs.len() {
        texts[place] = content_at(answers, blobs, place);
    }
    macs_of_first(&keys.id_key, &texts, blobs.len())
}

/// The answer under an id, of the answer under the zero id. `name` is the id of the content.
fn answer_under(id: &Id, name: &Id, answer: Result<(), BlobFault>) -> Result<(), BlobFault>
    ensures answer { result ≡ answer_under (is_id id.now name.now) answer }
{
    if answer.is_err() || same(id, &ZERO_ID) || same(id, name) {
        return answer;
    }
    Err(BlobFault::Id)
}

/// From the answers under the zero id to those under the ids. `names` has the ids of the contents.
fn put_answers(ids: &[Id], names: &[Id; 64], answers: &mut [Result<(), BlobFault>])
    requires ids { length ids.now ≡ length answers.old }
    requires places { length answers.old ≤ 64 }
    ensures size { length answers.new ≡ length answers.old }
    ensures answers { (k : ℕ) → k < length answers.old → answer_at answers.new k
        ≡ answer_under (is_id (id_at ids.now k) (slice_index_or names.now k [])) (answer_at answers.old k) }
{
    for place in 0..answers.len() {
        answers[place] = answer_under(&ids[place], &names[place], answers[place]);
    }
}
