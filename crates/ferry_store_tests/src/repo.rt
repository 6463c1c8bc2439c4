//! Chunks of repositories whose files change, by shelves that tell nothing.

use crate::fixture::{COMMITTED, Opened, Silent, id_of, put_shelf, repository_of};
use ferry_base::Id;
use ferry_disk::{MemoryShelf, Name};
use ferry_item::ChunkRef;
use ferry_log::Place;
use ferry_repo::{Repo, RepoFault};
use ferry_segment::MAGIC;
use std::alloc::{AllocError, Global};

/// The segment of a repository with a chunk `hello` and a manifest with two archives, sealed. Python made it and the next one, by
/// `checks/repositories.py`.
const TWO_ARCHIVES: &str =
    "424f52475f534547c3f0eee6590000000004985b39cf4b04ada01f70e336bbd872152b429321dfb8576f6108e5f9ecf1120300de9c6700c3edd6dad9fef9c4822d92f988438d\
    177093e95bd166de64a69cee00000000000000649dcdba5740209bf913081b5f0200000000000000000000000000000000000000000000000000000000000000000000000330\
    538bae9b50460269fac8f56a2a4e5a3ce5fd8bd5d2f1db5cabdb7837eddb3500000000000000151b62ba01fada65c3d34b96c14bfe287ed961dd1f50eadb52a35b348e88f980\
    d3f8ecf4bc691d73815fa1f6da9e24395429a09d6c6a3e3466a5daae7d35b83353fe335e5f3d0770d6d70ce41d3c1f2b8d16d9461760827b8ecab2e893d76b5269e843ac6dff\
    34edb0f43dd313cb3b5e70991cc461320c576297d07d32f5afbe51920a5eff64c6772599b8980b75cafb5bd12b29612cf46ccc1d0668dbf99021fbf09e18afea75143bb6fd4c\
    8a80dcaface2d0f5754821321c7e950fbcda159413fb93f5cb27fb3ba584b41e7c27948116094d628e922097f391f1e346b0936d6929aa535c79c1a36aff05928eaff9c7fd78\
    4dbccf96b76bf9d0fe469541b1421e7800c7fd08f45c4be8670e6ebfcdfaf300e5ba64c736a71e387b57f6913dc34b3150ee599bb3888799356979ab70e54803c70d3c0e42e4\
    d11b12ce0acdc3a3b813e389a09b444d7644edcd0d0dbf6a0e779d190cbf2a808ec017ad77c1038390de83f9ff977e7cf18207497551daeffd7d384bf1f0bee2e833fb16bf7c\
    fab8e8313efa5492762680f822c6db60b5a1ea7e42c7a8300c52bd0507fe3616fef13b6f15f312bc387999619906e06d1a5ace0e4447023867846caf684fc2a9dda67e7e76c9\
    2a09bd2e100b041e209749b3e122febf662331786cbe927242866aeaa5528543a8d1ef178fa0ce09b5a794cc5f2f700ca41ec5e7f382f4c94babcf5f7e5fcd5e7e3f261fea91\
    3cb815bf";

/// The id of the chunk.
const CHUNK_ID: &str = "04985b39cf4b04ada01f70e336bbd872152b429321dfb8576f6108e5f9ecf112";

/// The blob of a chunk of one byte, 0, under the same key.
const BLOB: &str =
    "03a719f043a1fa1eaf02f994d2a03c41dab728f8960d4e0ff9ab9cef4964284df800000000000003e84ec1a7";

/// The segment of a repository without archives, with chunks of one byte each, 0 to 16, in this order.
const SEVENTEEN: &str =
    "424f52475f53454761325e925500000000f814045e89671a827b47e8eb9d919b0baf5f5a9a21870ba844a263f50f7e60c103a719f043a1fa1eaf02f994d2a03c41dab728f896\
    0d4e0ff9ab9cef4964284df800000000000003e84ec1a75b1dedda5500000000c7a42d771608b737837d975293c9a8f181149490533e03d7804c865569cef47c03de39659f2c\
    6964f7ef8730f41383f702efee6d03e45b453131adda3c880f5eea00000000000003e982fd4dc73a0aee5500000000b96976ac21141a155557387d9a840c8be105bbd598c49c\
    f2401ae0fe5e0efb5403ba2677c9ed3611e7e3deb879574b179f92ff1ec54ef9a2a5314170eba6c00aed00000000000003ea2d90765b1694545500000000d27e7db71fa0272c\
    945d0b2bb765d910230d290a2775dece7dfd9abde8d657c50367818e2dd4fcf77e637ada0c231a13d89f668308dc95495d83d629a0d0f0375f00000000000003ebefde9ccd91\
    8dc555000000001d54996f7544f55f6d0f09b225a1359c39d74f9be09035335352a225d526da3203f0103d7216138b1be3141134eafbc7164b70ab10c6c144dfc40bf74178d4\
    ac1700000000000003ec85365d2414a48f55000000001516c20e1cdb60ccb0d51a644538090573f3358ba414566ede06775c8d3a100b032b0d2979f95ae7ff9116006b242c9b\
    e5155897a22360030f8df3b7d1c989365e00000000000003eda5b73c7eeb25225500000000a2fe22ef4d6621aba909d7c44c637469898cc889acd84eb637d9ebe7fe0deb4703\
    1d8003d67d8f06cdf9fd3662da134cf651e3f492ec10f2e2c6fc0e1a58edb6aa00000000000003ee7c6bb8c6ccc9c65500000000e226ff935427608398fd0e6a9cf2e58bddb8\
    62130fc401ac9501a69936bf0e620323ed5b56b423223fe423fae32affa9d7ef760b0b2ef94b5565e0803fe2c3e20100000000000003ef0394a55f630af25500000000874f03\
    d690839a4a8de0b941640e3b014dd3266ffedf06c3d63315f6353add4003314afa2623589c090d050fb5a2b168b63dde1e1603a8230aac9274b164b52f2900000000000003f0\
    54bfe035c4652f550000000069b7291d6c0989a6bc89653ab0feb6f596451d34d17e33362e0a8cf3d3e41ccf030733b0e955ecd25b536d6d72260b630a84cd149673c1445944\
    b3f71b250aa20600000000000003f1ea99ca9de6e5b25500000000e633033813ed6498415f8e8a4bc8ec0a140fb5ef2e05a9eae41ee18cd8a0593b0381cc701ade3d4bc4fe75\
    fcebb893457efcc984f5f703d84a1cd644388414f54000000000000003f2204467acf0835c5500000000ee0eb1be5bc2ea58119bfa8addd2e71991458ce218736aee67e181ed\
    9a1b759203dbb9207b72afe1b3220cfbfec3ae4beb10b935d51d36ae2e90a272570235c52900000000000003f32985842f63b91355000000006480bad7e764c8bdec9c306848\
    ecaf9b444975936908ca820398ede751d7b8030362b494bc5bed88c9b0838ad40dcfcf308a37af59f07c103d838f7c8a935cb22e00000000000003f4cada4b9a948829550000\
    0000fac168f5c94eead9116500a93c28430df36e14cf3fb76e14b95a262bcbaf38b603ddc9306e86b8dd8cff993f1dea32beaf5be928d0befb885bb655a6ece02ef7f8000000\
    00000003f52c8960238b120c5500000000f3d9f28d8c4d8468f8ea659a660637c0640879c47b42d82bc279e2c30f158dd603b69a0e188217ae5887eb8c042d05843f6c386f8c\
    b74c51ff694486d3754d938100000000000003f6b63c6c54c261ae550000000083449ed039e71c8bce294272942ef1d5d503dff6919139dcd50984e0cebc94320323cb113d19\
    d9c7f8b930f0bc7811b13ac9778be82e074c3246400e8997d188cc00000000000003f7fbbf517706634d55000000006295b11a047726ee0d713298a0d7f1a18ff1c8dbc4c0e4\
    1ed7901a559046967603a4fbba4ba30d5ae769df839f1f3807101b3418d970ef92676736d6065b2100b600000000000003f839cf54132d26aaa0010000000000000000000000\
    00000000000000000000000000000000000000000000000003399e5d15146fb2c9298f755896cacc927590c1bb12096dff62a905317707a98400000000000000009ae86c824f\
    fdde96332cf8d9add0dbc2c697f2fac4c1c6562462883c5a0d74447d4f0b9f1b65001097cf67ac8897f48a27931b32a84031cdc9a4bad70fcb82337721e9fe545551aeda7396\
    b6de75086a4c223f9a99f480e3180674661579c1f3d36ebe6abc7e4a717ce79c52328eb82cc269c6b8379eff0fed4d14283ae530c3148180725c09e25ac9557b959db4049983\
    8db14a7c451c5e1d70a87b03d4fc81af7cbcf914a078b0249f62efc05f593f9b3961b31bd2b249fbfc92e79cf9c0c17be0e9d5699bfdb13858461236f1513f8c442e88868af2\
    dac27c5c433767eba6ba05f3f43f00aada9e98f92504d4ee69b470caa98de850c412df6c98b9fe3f050baed825a11334a07e8ac491c5a269c721904ff14b1e2d0617248f5d01\
    b5a88afea50247a7a843bac90cdbd10d8589276a127d5feaeadcb48f8ef02efe927e0fc787152651934c60066467742185";

/// Their ids.
static SMALL: [&str; 17] = [
    "f814045e89671a827b47e8eb9d919b0baf5f5a9a21870ba844a263f50f7e60c1",
    "c7a42d771608b737837d975293c9a8f181149490533e03d7804c865569cef47c",
    "b96976ac21141a155557387d9a840c8be105bbd598c49cf2401ae0fe5e0efb54",
    "d27e7db71fa0272c945d0b2bb765d910230d290a2775dece7dfd9abde8d657c5",
    "1d54996f7544f55f6d0f09b225a1359c39d74f9be09035335352a225d526da32",
    "1516c20e1cdb60ccb0d51a644538090573f3358ba414566ede06775c8d3a100b",
    "a2fe22ef4d6621aba909d7c44c637469898cc889acd84eb637d9ebe7fe0deb47",
    "e226ff935427608398fd0e6a9cf2e58bddb862130fc401ac9501a69936bf0e62",
    "874f03d690839a4a8de0b941640e3b014dd3266ffedf06c3d63315f6353add40",
    "69b7291d6c0989a6bc89653ab0feb6f596451d34d17e33362e0a8cf3d3e41ccf",
    "e633033813ed6498415f8e8a4bc8ec0a140fb5ef2e05a9eae41ee18cd8a0593b",
    "ee0eb1be5bc2ea58119bfa8addd2e71991458ce218736aee67e181ed9a1b7592",
    "6480bad7e764c8bdec9c306848ecaf9b444975936908ca820398ede751d7b803",
    "fac168f5c94eead9116500a93c28430df36e14cf3fb76e14b95a262bcbaf38b6",
    "f3d9f28d8c4d8468f8ea659a660637c0640879c47b42d82bc279e2c30f158dd6",
    "83449ed039e71c8bce294272942ef1d5d503dff6919139dcd50984e0cebc9432",
    "6295b11a047726ee0d713298a0d7f1a18ff1c8dbc4c0e41ed7901a5590469676",
];

/// A shelf with one file alone.
fn one_file(alloc: Global, number: u64, bytes: Vec<u8>) -> Result<MemoryShelf, AllocError> {
    let files = vec![in alloc; (Name::Segment(number), bytes)]?;
    MemoryShelf::new(alloc, files, Vec::new(alloc))
}

/// Learns that a chunk of 44 bytes is at the begin of segment 2, where it isn't live.
fn learn(repo: &mut Repo, id: &Id) -> Result<(), AllocError> {
    let place = Place {
        segment: 2,
        at: 0,
        size: 44,
    };
    if repo.log().find(id).is_none() {
        repo.learn(id, place)?;
    }
    Ok(())
}

/// Whether a chunk is answered, and has this content.
fn has(opened: &mut Opened, digits: &str, content: &[u8]) -> bool {
    match opened.repo.chunk(&mut opened.shelf, &id_of(digits)) {
        Ok(found) => {
            let is_same = found.as_slice() == content;
            drop(found);
            is_same
        }
        Err(_) => false,
    }
}

/// Whether an answer is this fault.
fn is_refused(answer: Result<Vec<u8>, RepoFault>, fault: RepoFault) -> bool {
    answer.err() == Some(fault)
}

/// Whether no chunk has this id.
fn is_missing(opened: &mut Opened, id: Id) -> bool {
    is_refused(
        opened.repo.chunk(&mut opened.shelf, &id),
        RepoFault::Missing(id),
    )
}

/// Leaves one file alone on a shelf.
fn leave_file(alloc: Global, shelf: &mut Silent, number: u64, bytes: Vec<u8>) -> bool {
    match one_file(alloc, number, bytes) {
        Ok(made) => {
            put_shelf(shelf, made);
            true
        }
        Err(_) => false,
    }
}

/// Puts a blob behind the log, as a writer does, and learns it.
fn put_blob(alloc: Global, opened: &mut Opened) -> bool {
    match hex::decode(alloc, BLOB) {
        Ok(blob) => {
            leave_file(alloc, &mut opened.shelf, 2, blob)
                && learn(&mut opened.repo, &id_of(SMALL[0])).is_ok()
        }
        Err(_) => false,
    }
}

/// Whether a repository is that of two archives.
fn is_of_two(repo: &Repo) -> bool {
    repo.log().transaction() == 1
        && repo.config().per_dir == 1000
        && repo.manifest().archives.as_slice().len() == 2
}

/// Whether the chunk of that repository is answered, others are missing, and a blob that a writer puts behind the log is read once it is learnt.
fn are_answered(alloc: Global, opened: &mut Opened) -> bool {
    is_of_two(&opened.repo)
        && has(opened, CHUNK_ID, b"hello")
        && is_missing(opened, [0; 32])
        && is_missing(opened, [7; 32])
        && put_blob(alloc, opened)
        && has(opened, SMALL[0], &[0])
}

/// The same, where it opens.
fn two_are_answered(alloc: Global) -> bool {
    match repository_of(alloc, &[TWO_ARCHIVES, COMMITTED]) {
        Some(mut opened) => {
            let done = are_answered(alloc, &mut opened);
            drop(opened);
            done
        }
        None => false,
    }
}

#[test]
fn a_chunk_opens_under_its_id(rt: HostRuntime) {
    assert!(rt; two_are_answered(rt.alloc()));
}

/// Whether each chunk but the first is answered by its byte.
fn has_sixteen(opened: &mut Opened) -> bool {
    let mut all = true;
    let mut byte = 0u8;
    for digits in SMALL.iter().skip(1) {
        byte = byte.wrapping_add(1);
        all &= has(opened, digits, &[byte]);
    }
    all
}

/// Whether a content of another size is refused.
fn is_of_wrong_size(opened: &mut Opened) -> bool {
    let id = id_of(SMALL[0]);
    let wrong = ChunkRef {
        id,
        size: 2,
        csize: 44,
    };
    is_refused(
        opened.repo.content(&mut opened.shelf, &wrong),
        RepoFault::Size(id),
    )
}

/// Leaves no blob at its place on the shelf.
fn leave_magic(alloc: Global, shelf: &mut Silent) -> bool {
    match Vec::from_slice(alloc, &MAGIC) {
        Ok(magic) => leave_file(alloc, shelf, 0, magic),
        Err(_) => false,
    }
}

/// Whether the first chunk isn't at its place any more.
fn is_damaged(opened: &mut Opened) -> bool {
    is_refused(
        opened.repo.chunk(&mut opened.shelf, &id_of(SMALL[0])),
        RepoFault::Damaged { segment: 0, at: 49 },
    )
}

/// Whether sixteen contents are answered, also behind a content of another size, which is read, and neither kept nor answered, and where their
/// blobs are gone.
fn are_kept(alloc: Global, opened: &mut Opened) -> bool {
    has_sixteen(opened)
        && is_of_wrong_size(opened)
        && leave_magic(alloc, &mut opened.shelf)
        && is_damaged(opened)
        && has_sixteen(opened)
}

/// The same, where their repository opens.
fn sixteen_are_kept(alloc: Global) -> bool {
    match repository_of(alloc, &[SEVENTEEN, COMMITTED]) {
        Some(mut opened) => {
            let done = are_kept(alloc, &mut opened);
            drop(opened);
            done
        }
        None => false,
    }
}

#[test]
fn sixteen_contents_are_answered_without_the_shelf(rt: HostRuntime) {
    assert!(rt; sixteen_are_kept(rt.alloc()));
}
