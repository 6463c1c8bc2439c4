//! From up to four blobs to their contents.

ghost use Rattle.std.specs.Prelude.{◌≡◌, ℕ, ◌<◌, ◌≤◌, true, [], drop, length, slice_index, slice_index_or, IsOk, Ok};
ghost use Rattle.ferry_base.specs.Limits.{zero_id};
ghost use Rattle.ferry_mac.specs.Hmac.{hmac256};
ghost use Rattle.ferry_blob.specs.Batch.{IsOpened, answer_at, answer_under, bytes_at, id_at, is_id};
ghost use Rattle.ferry_blob.specs.Blob.{content_id, has_type};

use crate::fault::BlobFault;
use crate::id::ids_of;
use crate::macs::macs_of;
use crate::opening::{authenticated_part, open_by_mac};
use crate::places::bytes_at;
use ferry_base::{Id, ZERO_ID};
use ferry_lanes::same;
use ferry_mac::Keys;

/// Opens up to four blobs in place, each as `open_blob` does, with the MACs and the ids of the four worked out side by side.
///
/// `ids` has the id of each blob, in the same order. The answers are those of the blobs in their order; a place behind the last blob is
/// answered as an empty blob is.
///
/// Source: BorgBackup 1.2, Internals, "Data structures and file formats", Encryption.
pub fn open_blobs(keys: &Keys, ids: &[Id], blobs: &mut [Vec<u8>]) -> [Result<(), BlobFault>; 4]
    requires ids { length ids.now ≡ length blobs.old }
    requires places { length blobs.old ≤ 4 }
    ensures opened { (k : ℕ) → k < 4
        → IsOpened keys.now (id_at ids.now k) (bytes_at blobs.old k) (answer_at result k) (bytes_at blobs.new k) }
{
    let macs = macs_of_blobs(keys, blobs);
    let answers = open_each(keys, &macs, blobs);
    let names = ids_of_opened(keys, &answers, blobs);
    answers_under(ids, &names, answers)
}

/// The MAC of each blob.
fn macs_of_blobs(keys: &Keys, blobs: &[Vec<u8>]) -> [[u8; 32]; 4]
    ensures macs { (k : ℕ) → k < 4 → 43 ≤ length (bytes_at blobs.now k) → has_type (slice_index (bytes_at blobs.now k) 0) ≡ true
        → slice_index_or result k [] ≡ hmac256 keys.now.enc_hmac_key (drop 33 (bytes_at blobs.now k)) }
{
    let texts = [
        authenticated_part(bytes_at(blobs, 0)),
        authenticated_part(bytes_at(blobs, 1)),
        authenticated_part(bytes_at(blobs, 2)),
        authenticated_part(bytes_at(blobs, 3)),
    ];
    macs_of(&keys.enc_hmac_key, texts)
}

/// Opens each blob under the zero id.
fn open_each(keys: &Keys, macs: &[[u8; 32]; 4], blobs: &mut [Vec<u8>]) -> [Result<(), BlobFault>; 4]
    requires places { length blobs.old ≤ 4 }
    requires macs { (k : ℕ) → k < 4 → 43 ≤ length (bytes_at blobs.old k) → has_type (slice_index (bytes_at blobs.old k) 0) ≡ true
        → slice_index_or macs.now k [] ≡ hmac256 keys.now.enc_hmac_key (drop 33 (bytes_at blobs.old k)) }
    ensures opened { (k : ℕ) → k < 4
        → IsOpened keys.now zero_id (bytes_at blobs.old k) (answer_at result k) (bytes_at blobs.new k) }
{
    let mut answers = [Err(BlobFault::Short); 4];
    for place in 0..blobs.len() {
        let blob = blobs[place].as_mut_slice();
        answers[place] = open_by_mac(keys, &macs[place], blob);
    }
    answers
}

/// The content of an opened blob, and no bytes where none was opened.
fn content_at<'a>(
    answers: &[Result<(), BlobFault>; 4],
    blobs: &'a [Vec<u8>],
    place: usize,
) -> &'a [u8]
    requires { place < 4 }
    ensures content { IsOk (answer_at answers.now place) → result.now ≡ drop 43 (bytes_at blobs.now place) }
{
    let blob = bytes_at(blobs, place);
    if answers[place].is_err() || blob.len() < 43 {
        return &[];
    }
    &blob[43..]
}

/// The id of the content of each opened blob.
fn ids_of_opened(keys: &Keys, answers: &[Result<(), BlobFault>; 4], blobs: &[Vec<u8>]) -> [Id; 4]
    ensures ids { (k : ℕ) → k < 4 → IsOk (answer_at answers.now k)
        → slice_index_or result k [] ≡ content_id keys.now (drop 43 (bytes_at blobs.now k)) }
{
    let contents = [
        content_at(answers, blobs, 0),
        content_at(answers, blobs, 1),
        content_at(answers, blobs, 2),
        content_at(answers, blobs, 3),
    ];
    ids_of(keys, contents)
}

/// The answer under an id, of the answer under the zero id. `name` is the id of the content.
fn answer_under(id: &Id, name: &Id, answer: Result<(), BlobFault>) -> Result<(), BlobFault>
    ensures answer { result ≡ answer_under (is_id id.now name.now) answer }
{
    if answer.is_err() || same(id, &ZERO_ID) || same(id, name) {
        return answer;
    }
    Err(BlobFault::Id)
}

/// The answers under the ids, of those under the zero id. `names` has the ids of the contents.
fn answers_under(
    ids: &[Id],
    names: &[Id; 4],
    answers: [Result<(), BlobFault>; 4],
) -> [Result<(), BlobFault>; 4]
    requires { length ids.now ≤ 4 }
    ensures answers { (k : ℕ) → k < 4 → answer_at result k
        ≡ answer_under (is_id (id_at ids.now k) (slice_index_or names.now k [])) (answer_at answers k) }
{
    let mut under = answers;
    for place in 0..ids.len() {
        under[place] = answer_under(&ids[place], &names[place], under[place]);
    }
    under
}
