//! The ids that an archive uses, counted by hand.

use crate::fixture::{COMMITTED, Opened, id_of, repository_of};
use ferry_refs::{Counts, refs_laws};
use std::alloc::Global;

/// The segment of a repository with an archive `a`, in this order: the manifest, the archive's record, the two pieces of its item stream, and the
/// contents of its files: `hello` of `f` and `g`, and `!`, which `g` has too. Python made it, by `checks/repositories.py`.
const SEGMENT: &str =
    "424f52475f5345471d6d021fff010000000000000000000000000000000000000000000000000000000000000000000000039b73bb80425a07501412288ab97101f5561277f2\
    a88cc811d3d7aef7b9ed260e00000000000000009ae86c824ffdde96332cf8d9add0dbc2c697f2fac4c1c6562562883c5a0a76f4132962fa1f650010957d0377889e9ddec034\
    3a5732c9dbdc487a06199e753c300d49416a9ec1d7b8f2f34c9b24c6d6039721e49a9d80ede610bc17bd1563f383ccefbe35d29da21591d83e581b8c646240ad98f258134a6f\
    8202e2ef7b59ac7f50656f804ca9428ebb8a8a6a577e6bf381bf42c95099d60f5e6b1787d1084cd6041dc891cbd319dc533003821f1f0c6acdb734e64e838f71cfca1cb2c9ac\
    d583cf846911f4394b750e6f6f1c77d7a4a49c2f84a4499bdae82cf99b152b53eb201efdf68970eddf000d437a2fffbb218559de34e58ac7a7b10b39108ec331cf9854e69560\
    912d0b9ce4bff5a35ef73c927db173c97b380c322f01010854e0e7ed9bc2673fc2cc3bdfad0dbeb462e0ec480f77063a8f8fb9d1ea00a57babc05d3fe0a1291c6a0919355331\
    3221745fbbed1b6611788abfb818d34b868161c80d49f85af92fd0b9931394b1065588fbe1d0538599d918b212ec2f789fbe453e0b643bb2927e79312675d3c8bc6527aa2b41\
    ec3f4c4d2f1562c42e2ec63f194b6cdd476b2979af860fe7a7d73393d6c4aca8e2b30100000082ca7e0efff099cc81debccf4abebe037e18c9e0a24f86162883ae4c976cde69\
    037caa803a01b8b4b0e23fb11d354ece1684787bc20d6b8d04ed1ddfee7a2aece5000000000000001bd8714340cf05c55bc569e32492640327cc429e8a023c6757d7671c5b9b\
    75dc8e920f3789daab04f89bd1fcd2aecafb7be098d6a2b74efd5f94ec581afda49c90220e5193a12bb9d8c87ea09d637fcff5a50bf5754c75a14156029451641d4d78a197b7\
    95bf99c21e414937fba741d733edafd63b62c17cc34af1e728d79d67dc4fc33482181aa36a2406e6efcb4fb39815110caaefc4b291bd9f249541b1425a7a28e4184ab972ab26\
    098fc0577e3302c30f0fa8c91536fed43aaf4684498261ac0476dc261084a0706e029c5e1b274c5fa7a1fa36a3d359d1c6da0d07c6aa1d6074e1e7f0b96d6fb59f43753b0902\
    e785211f9c1c0f157dd481dab77a46ef1e8bd6acaeb14a45d00c521c2044daeffd7d384bf1f0bee2e833fb16bf7cfab8e8313efa5492762680f822c6db60b52fbf2b1796891c\
    2962335052ab730be0e0286508eb06aa327f8475f96287e3c15ace093656093b6b300260685f8ae299e021375bb0f03d5201000000a2eed28aab808298fb21d01525ac7ac381\
    582d5a4fbcf26f92fd06f2b271489c0391c5a326c0e05b6cfcdc05f696c486c233220c1eef43c59f9040708720c04b42000000000000003256970d0350451bdace497246eb1f\
    bcf0afb56e98e0c2273f5025398f97a0860e6b36e7942ef5d6ed86f4c94baf623a0c2ca25278854874994c3cb815bf47a621c736836d34038b52a5c0ba7eeed092478738275d\
    ab579ea0393c5c94cc749f1cfcbc2c98dc34d106e9fc5caa4ba58925d5d6fa653ebfc4d0847d27ae70ecc2fc4357298c4db4422953169dc0e5444706162a55246a7a1dfbd815\
    276e116cd870baf5e2ba3106c8a557e71467a8b744551a8e256b7512d4a2e3cc4734d0d0ce9933c2e1537ea9dcf477118160912b3d964a06c3211b58e5a25ec0a48310378980\
    aec28a4c02cebb05669920429c41ad0ec4cb73d7b9dda0d2aec526be8ba6e1c9d7a92456d300000000fa304d4c9bedbe12eb5b68356f6ea94fc98a91cd19bdb0e56c15d4cc84\
    85c0d103d37b56b8e113d677e12c230dea3e2c8f729b26eec1b834b31a627e6cb0073c670000000000000042ec2841f4b17dcaf9aae55d20b0362fc8a5064be97736a2336225\
    4fba675105ba905e6696c0d23c69549524f08695432f5916689a7438245197e5013f1be86a3b38fca72611c5f779ccd838a8d417a3bea4a38010f2002f910978f7ea2151daee\
    5b62e47306e2cb689f96b94ef0174f099ac92a5151b9d42eda24bf685d30f398baf2c56ef4590000000004985b39cf4b04ada01f70e336bbd872152b429321dfb8576f6108e5\
    f9ecf1120335e5f4b651f7f3da0ff94c912e62ed1f569a4c58f9afe9c8d5f301caba7c857a000000000000004b3c35d617616ea6907430eb5500000000a724cb467c45d55c00\
    bc2e7928e74e438cd18006b0e91c749d0a9b9bac82e5a3039db573e44cb18980fa94d00cd3483d407fe2b08f1c6977dfd459c4286c119268000000000000004c92c61a";

/// No id that is there, then the record, the two pieces, the contents `hello` and `!`, and again no id that is there.
static IDS: [&str; 7] = [
    "0000000000000000000000000000000000000000000000000000000000000000",
    "82ca7e0efff099cc81debccf4abebe037e18c9e0a24f86162883ae4c976cde69",
    "a2eed28aab808298fb21d01525ac7ac381582d5a4fbcf26f92fd06f2b271489c",
    "fa304d4c9bedbe12eb5b68356f6ea94fc98a91cd19bdb0e56c15d4cc8485c0d1",
    "04985b39cf4b04ada01f70e336bbd872152b429321dfb8576f6108e5f9ecf112",
    "a724cb467c45d55c00bc2e7928e74e438cd18006b0e91c749d0a9b9bac82e5a3",
    "0303030303030303030303030303030303030303030303030303030303030303",
];

/// How often each id counts.
fn numbers(counts: &Counts) -> [u64; 7] {
    let mut numbers = [9; 7];
    for place in 0..7usize {
        numbers[place] = counts.get(&id_of(IDS[place]));
    }
    numbers
}

/// How often each id counts in an opened repository, none where its archives don't read.
fn counted_in(alloc: Global, opened: &mut Opened) -> Option<[u64; 7]> {
    match Counts::of(alloc, &mut opened.repo, &mut opened.shelf) {
        Ok(counts) => {
            let numbers = numbers(&counts);
            drop(counts);
            Some(numbers)
        }
        Err(_) => None,
    }
}

/// The same, none where the repository doesn't open either.
fn counted(alloc: Global) -> Option<[u64; 7]> {
    match repository_of(alloc, &[SEGMENT, COMMITTED]) {
        Some(mut opened) => {
            let numbers = counted_in(alloc, &mut opened);
            drop(opened);
            numbers
        }
        None => None,
    }
}

#[test]
fn an_id_is_counted_each_time_that_it_stands_there(rt: HostRuntime) {
    assert_eq!(rt; counted(rt.alloc()), Some([0u64, 1, 1, 1, 2, 1, 0]));
    refs_laws();
}
