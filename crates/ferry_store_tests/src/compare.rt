//! Two archives of one name, in chunks cut alike and not, with differences and faults.

use crate::fixture::{COMMITTED, Opened, Silent, put_shelf, repository_of, shelf_of};
use ferry_compare::{CompareFault, Compared, Comparison};
use ferry_disk::MemoryShelf;
use ferry_repo::{Repo, RepoFault};
use std::alloc::Global;

/// The segment of a repository with an archive `a`: an empty file, 64 bytes `a` in one chunk, 65 bytes `b` in two, a folder, a hard link and a
/// link, with its item stream in four pieces. Python made it and those below, by `checks/repositories.py`.
const SOURCE: &str =
    "424f52475f534547bf7e0ec9ff010000000000000000000000000000000000000000000000000000000000000000000000039039824ccd76666ec76548a0ffa84c28db019a6d\
    3fb3059d47f9ec60e8dd93a700000000000000009ae86c824ffdde96332cf8d9add0dbc2c697f2fac4c1c6562562883c5a0a76f4132962fa1f650010957d0377889e9ddee2ea\
    1be8b7a9851faf4e6a94a4fae53946dc8c4be3701ba19d319c47f94a10789721e49a9d80ede610bc17bd1563f383ccefbe35d29da21591d83e581b8c646240ad98f258134a6f\
    8202e2ef7b59ac7f50656f804ca9428ebb8a8a6a577e6bf381bf42c95099d60f5e6b1787d1084cd6041dc891cbd319dc533003821f1f0c6acdb734e64e838f71cfca1cb2c9ac\
    d56b396bd182b3962e884fefcddf8bee1e604f57d34a0de0b946e5b375bb03cadaff40c35c46d1c227e61a69301eef3df8c10a11d1db212f0994d9d9fcd7cc3ee09854e69560\
    912d0b9ce4bff5a35ef73c927db173c97b380c322f01010854e0e7ed9bc2673fc2cc3bdfad0dbeb462e0ec480f77063a8f8fb9d1ea00a57babc05d3fe0a1291c6a0919355331\
    3221745fbbed1b6611788abfb818d34b868161c80d49f85af92fd0b9931394b1065588fbe1d0538599d918b212ec2f789fbe453e0b643bb2927e79312675d3c8bc6527aa2b41\
    ec3f4c4d2f1562c42e2ec63f194b6cdd476b2979af860fe7a7d73393d6e6072602fd01000000a0145fb17a90c70f66ead0427031670a358d04c1dffe4a0f47417e904ae01812\
    039a2d6edb48b375e3a6cb2c0e62be9bc34f75f261964d34e8c0cb2373972ce248000000000000001bd8714340cf05c55bc569e32492640327cc429e8a023c6757d7671c5b9b\
    75dc8e920f3789daab04f89bd1fcd4aecafb7be0cb9c3edbe26540308b92cd2584592dadab58824a1da301d950b7de7c0393f56c0bf5754c752c0f4691f01c75880c1094b1de\
    048fbfeb0bd668e7d06c5b0e9edd9989ad1ef67cc34af1c37b8471c53f1b8eea37978e98743b0edf4c118c80aa6f0a65d82405f934109a849541b1423a2f76c95f88e949dfe7\
    5268dea8e51565dbc7c234a40897086cfdc2f9fdbd47e2f8a28e8d0e46ec491c02745b9934a50c05c716671b1145e80895e6dd3b85b68ebf1c8c8697110c03c10409b64b8b88\
    28c982172f0659ab3b0a3e4d5029a0eb2b031ac047b3fc18d946fd34121ca287601ce2ad1a92a1b6f905f879273bd53647e3df8dfb7525d5932567488e35e0f0cc4a7be62665\
    5907a80507fe3616fef13b6f15f312bc387999619906e06d940f9b5b15662e1d570a39fa3d0adfb7ccb574636edd3c03bb33046b6079aec21ce6bd03c2875605104c54154972\
    428204a1e5056e6e98e0d26ff5b0b866c7dae5b5304c167da11fc70cc359f4ce3dc9cb496543cafe10f0261fea913cb920d92f90ea00000000f1a44ee607189d3c9ceb07cd05\
    69c74c24513cb179a62b7ebcea45edce2d48550308cd17a17d11e44da381c54bb24475841680ea597e4bb7adc259ade4a70eaa5b0000000000000036c735876d3403a88d3d9b\
    83b7c6bc4a89f33b196b108fec6e127ecfb17ea3ac1652b4c96130c5c3484d275caa4ba1f9416ebe21653ebfc1b5d9d653d7afe8af9324e9e68c4db2214126f9526838444702\
    6796214cb179c6fbd973d88f55d2d5c49ebd506253b4675b5a2625e7dd4ded0fcf66532268b7135c63ab46fbd0d0cff5e8c2e113b7dab3810572e4bbfaf03d972cddae4e7f3e\
    f1a2f0003c06ea00000000777e5ddfffa0af87aa335d1306ff9969e09f06ecc9967bffb5b8e4fadb13bce6030f29deeba116b1df3073cbf23ff27bac13f27b641959060a7035\
    cfb91305910d0000000000000040dd1f8a4c02cc6684c24223999c45dd4fb43bf3ee7696a51ed1da565dbec639bbec2e37b786808055cfb23241ba0ed62454175fe97736824c\
    78a2ddd4717117889cacc30cad50f738c4a5a94e0613b4b96c2edefcceded722b99c29d855abe6c277fa17cf0db16a73049e942a31b7b7bea4a3a0bf5b084972a480aa3df942\
    fa39152abe30251c12ad1c260f40a500aa8221373c9e51b9d05ea3c2b9ccea000000003d3281c738544ddeb4ee4f3b1e1f0b4dc2b71c33327a18b272cbc14fcdc064c303fd87\
    217ed5979e9d270a4f0be99879b37f14acfdc44c016f7d65a5a668619525000000000000004add8c6cc389969f4e3a017001f0eefd213c35be76606dade9ee193fd0e6940add\
    361d3b9958587481534c1d640c38e5639b6b877ca3468772054327cbc20aa299ce936a42c71a4fa4ba5e6fe537a90a98742a9baa3783ba4d798a97fdc8a50a10ea99fcd98792\
    5fedc7dff9fa9107b79542c1019a181bec182f4b6da0fa8e297a8bfa32472db3f7b2879813b049a0b31b5eaa542d6d2404e323a321dd8b0000000027177aca5b1d15940c4107\
    ddc828ef96d8f97850633a587b35e54e0f6c80c4d1037d101c46a8e7c3233542567bceddb374d55c6eac313c77bad96e9a30f5c5d6360000000000000054d7298fa10d7a4e40\
    e00a406d003f97f416d60e5587299cd61d343005a9554f63c97cbbf000931da82b1a8df64f2cce48d78a40ae242249ac5bba4d699a9400000000e144be0e6f2448b2dc0fddcb\
    9bc2c1318075faa9db713376491da1b79ff40fda03c8ed5a5bc2df092004d8d6d819edd41710e98e6bdc6b0c053bcffe468ecff9c50000000000000058f203e762faf0958015\
    ef442a81452c27fe33476bd5051214ad95ed05efdbc073ffdf32a319fe65550a60d3ee7556fbac46ef3fa0b317dbd352d8cb6611f1bf4df0d3026eef657c000000007f1a8797\
    a1162012320cf2a5aab082cb5193eb8dbe80a650b2fe7eca236fbaf3036f0df0f9ccecb884faf0cf647b66cb9ea8963568a6c354e52b6a4412d720dcd7000000000000005d1d\
    9407aa9210834e71675ecb9fbd23c1ed0a3880ee37d67a0762ebaaaeae5223338e3ec594181263635639dc71f16d00000000afa908672cadf85dd7d81320fb95485a432793b6\
    a1e67fb60e5517e58b3a5acd0395eeaba60e43649121e2c169c6c6a28a9c71a92155a4aa4cc54658a272298036000000000000006023ee0d5c4ea5e751376dbd5ce4405fc8c3\
    9c893b6d3836803aa6d2";

/// The same archive in other chunks: the empty file has one of no bytes, the bytes `a` are in two and the bytes `b` in one, the items in one.
const SAME: &str =
    "424f52475f534547d6bf171dff0100000000000000000000000000000000000000000000000000000000000000000000000373d563d82a31ca485e6246734ed9180d37a9db09\
    3622f962421da8d25564b498000000000000006239504c9ea6f3486fc2b41dda70f776775049a307297106978f9b1fd1d78bd0109dcdd230f74cf4f641f859cfa391226b23d9\
    42085ff26e2ac24734b8d2cc1d89c59740a49a3cfad96ec3b202e5f1cc152cc912473440e51feb909bdf36e5a2fdcd271cecf9b1952aae35faa1eba13aa426bb7e2fae067dfa\
    c36e2e6d522f5a1c29e86b6576d04044172a93fe904677d85aa148d30acbd8614ea6476a973243f6e8ed80c9690be299796f5d5cf4e5b3f88971dfe36028ae1b7556cf4c3d51\
    eb4cc67eaeaee30a4192c78abfa7557e43514f43f18ab0cd31f5d0054e62b4f113dc3e1cc526a9fb21b7428518c9d5274544b83634f2062a04730b1327921c977152068ed963\
    124c0cf843f3f3997c48a939dec384319cb217683571255190df248906f0c81c98324ebc113e633260d6cb75c4296386d90563ee00ac789c64e09d77d0b6782a4aad3d14ca21\
    9aa01348f603c7813e3db91c956d71d2fe07def3805d08f0a3bea460fd61dd71c42791ae8cbf09f02384c3ef978c56beb36faf2ecba4c3ee6b40f411c94aef25ebc5821cd28d\
    88f4feee12b3b5588f6adfa9b569bf29e15bdde6332cf23f798b0973aff533b6e88e01000000cc08f6cd9ba57edd756593b739f21c272617bbe13f2c2ddbc53435ab2c7554d5\
    03b57de202f910e378c7984113a03bb58dd386f167706eb77b11d9b3da2ea55f50000000000000007da777a5783676c4f54bb9632b285be55179b5dd0212c4f6eed59e1c5482\
    98d6008f4d296526af1f801254a0f51f19912da03f3c0065663e148e7337ce26c565d5073fee1520f6fd2e3c18e7981bb17c116a59de3858e80d743d25792bf433b78dd21b1a\
    38248e04a37f49e12cd0f2c1fe9b61c46445e26594c509ae7d0bfec0b94b7f16de23b89a300554ec666dbfff93ce02f97e9de34e5c28ec9a96e678bdb6a9046e30df67f503cc\
    e5db5af5ca9ee9aa7d8aec1877f15d4c5680c9e53d4de13129ff38e0cffac5eea9c30d9cda31181bd1819c3422bdf971958f5724de12cb41ed9bef5f1f15aec9d809a06936c0\
    91ce93bc55f2f17d83d587ac73fc40acb75766fd680ea0ffd4fc7105afb8acab8374d709464b869df06c0fd7c0538d6ff2056781928358a1d6ac4576bd500f40a5d2fec88c94\
    efbddf0a250339fda12a378902000000423d653b29eb6efc72bcc93c90bfb0a25ac43c4f6b88927da0c8c2d2ac0e73a8034c4c18875ab301580b7ba4091cd2fe51c42acbebcc\
    38cb47bd5f7d01e5870ef90000000000000091809ab71496b7201589b70ed3efa91e136913a7c80c68eb59e717ec6717021ff702e5c3cadc1c69c8b5ad884973f6219602b6ca\
    54627bd1e19f658469cce93382b365211de5f19d6c9fac19fc5d98644313e701c621e3d6e938c4ef58a39d639077d1bf731aada845a16394bf501b192d5305d085e7f62e409d\
    4cf6f0417d3ca3f10945280b64f516c6202d8003da68ec9fe49d37ee31f1513e6050e73ba89923e149f3aa18c6b2bcb39857fff4edef04ad5d6f0b24ec3a2d7fd9cd53f79d35\
    3b32fecfa3021e43bff3d82784b973bcc66f6f3c86c54ae3d81b2c4785f51797629b404790effb50435ceb2e44491399b62a440b718d31f9d97e259c10b5e7bcdc376ef78f85\
    a15d1ea0d4f63df765a23ef479299b5f31d2f418a3f9bc52585fbab2521bd5a2f9b53a18dfec5f0b79ffc17400adbf054f2b307d34ca0eae43952e5a1b007dadc1eaeb7abd34\
    e6c102ba29d21baa43b8ba2f2939d4a7671964afbd085473ecc36c11283d5480980def7e67e4892da3eb2caa50a8246ccf7f87b70d5cec540c57b92c5ad69a69ed91c899ec31\
    6fb0841bbc7fd5da250a79e47e66c1dc152e6e3d1423826cd725d3b0d3685f902afa1983214a2b4740ee1ec35e657d86e503cbd7b065f4569688cd084d0578e990b53a096248\
    6d74da9eee83aa2193bd994e8b8b23874e896469d2ece134c165ed856ed1c43c30d04e3a91e8b0d29dac8630a445145a26e4d65e6e4cc26ad93aa49b64631b5ddc6869d0d4f4\
    5ecb2a97f8acd40dee74d4152765fb66fff8b3cdd647ce51f4292411c7ae540000000033af60c5acdb9d91d4ffaaf14e317b1abde4c4fff4e5da347bf450fb195f0b6a03da5c\
    159a5b5ca9b71ae5c7cbf12addb71948e4fd5cf1398ed079217d252118c800000000000000b5db22ee9205b473000000000519a7220699789e3d1be7196661c25c5ff6572a12\
    e17ffdc66ac0cc3778bd28031baa0d0e2ebbc329b54f44aad943904f4e979b6ca132c95557a364ce9a2a0b4200000000000000b6ed4e0bce6a4759c9a36f5053ff4dce42c88c\
    427c45d16fb599e4e87036d4a5c1f2e71d2f2c75000000002a3891d77a515701954e14c51d93ac6570e230c549e1e4d2c994487e47a6c6e4035b5786b4265f1ab030723b68bd\
    8ceb858fa3d9fc8100727b5fe5f383216be1e700000000000000b9f8e70999becddd86c7ddac7a847e7bfc790d0f1dbb9f0087bbec9b61bc675203ca0e63c1dca98e95000000\
    00a9be947d0ee2ca3c49afb5041f6f17f31d841e2b9a83461b6feafe5e4780f3bd0358ec37f6e4223bf592c2fdbd6966a0f300d972e6fb6dbd5cea43159f57f7003600000000\
    000000bc2184cd0fb43f714ea447d010889d866247b7ca6f1bd79c12c56a611658ccd94253f55a5f57d489a939c8ca6fcca4d39cfe6af42c0720e46e0528b72c54334c33194f\
    54";

/// An archive of the same name in which the last of the 65 bytes is `c`.
const OTHER: &str =
    "424f52475f5345478d57f28aff0100000000000000000000000000000000000000000000000000000000000000000000000308895131583c26fac8f62a63a124a1fadf247d96\
    004af3348d571746ed9b457200000000000000c106b0a6024e37eb0c8c8380f90cdd5ca7a2fafdef425375af2bd299d4240b50e8ccb63ad906b54d0fef3a6f1f471e3cd90b5f\
    15eb79a7751c098a8117fa4a251613973658be9aa8ab86f2a7ba94425c01dea2481ab052d5b2751181ce3b4238179e7a20bb2cac7f8a76e025dbc831d485c43172a6431c08d7\
    f2c66a93992a461dd3798cebc3367ff0babca10d02ceae2a810584fdfd8ea1d2a15e0dae9b56bfd363597767833a09777709da5d1b78a0200b7032d886dede00bb1085067be8\
    fb4805a1135887f3e0214cfe90d9b14e389263bf315a16740ef5fb1ce4e57409cf3e9c19b74d7b872995da81de5dc75a9fa9f3ba85cbd9cd5668c886cf6d10d39fc352ae330e\
    7256752efaf2ad98c860b245e12300d8373a6a37d0c66e8fd1afdc26580a8afd3b27ff16d43d427ff44d793cecd40dc8ef48f250ae7ee6c862ff7e7353d4247d19d0115c8e9b\
    b62ea36386cff14a3eac361338278d079b00086c4c783edb8423c3232f7377a10d290c3a205d22e77ee1b633514d991448dd2e42d2333844db53d135e60f353a937ade15464b\
    1cc0ea10ef60076c7e91a2e0cd8cb0c9915993e86f78cf29f5a32370c4db8377728e010000009879041e23480c00daa160c7de3df922550cfdcffed29892bde7a0ae62654b86\
    031fda1e75bb0be6bbf6a08ea8585d3c33531a176ea0f00924a20132c59e3363cc00000000000000dc39dfdb4de1c98f98b2e6231dd1d35bee7cfa8fe44132940578e0f32237\
    814a62c837904b433baaf03b510179776d04cd387cb6e925a43e31d6560beb8d01ef55985186339b355abddfaf502f5446a88b80b6f45f27e842e036eb3fb3a77616086ef446\
    5f2bd56319b14f07a3980c4cf0b722d24ca4fa00a4b8acb5d68474178a3719dccc33409aef00de32e94534d5ca08deee29dbb41ef0b5e45d16311e6121a7442cef9e0b2f11af\
    3e843832081ff8dfafd8cf57e154d57b63ec9a64b61d72ea0cb16ed7609ef51406452b2fda307f7fa516dd5d3ed032457d948558cf47a438dd704efd17afc2fd6a2acd963728\
    2564bff44afc0a36c6037bdcc805aeb72597c6381b9d88d760189b109ca1e9c409103920e680bf2f414812563ec609e587c6f40ec0909084ada477b94fd6a4580ddd5acd37c8\
    50711923c57bfc736eeb47110200000063fe1058148462a0d4cfa4730c39f0bf18f63057fbd6240a2af3355cad265b68031645a851cd7e9f175b3d3e80f96c8dbc1af439e2d2\
    a8ecd66aeda99a1078c28400000000000000f040a222422c5ea909e9815bac99d70ffc7be423532e39ebaffc2748ade79a8f255c2781d03ef78ec07b7f885e98b2dbb8088c21\
    99ae9e6de79b7535d2211c0c31fa58d37d87c6713ead7eed8413aba3e4a7cd32d9d56489378546aee0bab08707065e639b33fd7144fa96fbda0a6d5354d3fe2b683fbe891e41\
    8b06cc40c5cb5db7d65c9b2ebd112dbfc59e740ce870a50d5b468985af9817874ec30479265c9d4ede3cb47a8a46edb243bdb1ef32f3b93ac24a213dffdf7e0f91b67c2deb43\
    5942ca27c373ee048e685914b3e522093b52c1d675012ced14e4e5a38df1fd6b4b6c487c7023fbea6c63e8fbe25fc3f15e9fb7b6eaf56a265a8ab0d9cfa90c93601b05b86b2e\
    a123dc0042670cb9b334a6544611c97e8f0d9e4dac2bd02abf689c209c38096ad19a264400949515bd263bae0becc467e716f5a425502a4409893884227cdce69c34fd2bad9f\
    edf348c7b0201c2d579fb7b50ed0fc8f62f768051a5168b45f677d2354d3cbce4465b48ffdf8d144abc3e6f4311f32101b7a2cf07803123bcf901f45dce1c85b994d25d419b5\
    9bcbfdbb57af4cc57cff410eca080a19e3d194cb2b86d1098e3f6f0f82d81b3fbb8ee7ce6e07bd9d53ba8893e8fe1971bb179400000000e144be0e6f2448b2dc0fddcb9bc2c1\
    318075faa9db713376491da1b79ff40fda036a9b826e8db7ab40b9a3ef24d35e78a346c2ec5759fb34f5a9e566aaed55b19c000000000000010cc356107c45375a9a7b027f2a\
    be6e44f965da89c90fccdecd2babedce2505a41254294ceac29e809ddc5371dc3606ccd1f23e90434026e2a972aba67e4fd34d9a69e23c384f0a95000000007b2d072a712288\
    a2ebb4eda0ec1682889dad0dcb5dae4f738bb57a0a4c7a5158030721938ce9105444dd06703f2b83879a085af4a279e428b676267629dcc5ab2600000000000001118e990418\
    85f90c209efddd1eb6186535775e02d20764d1cd463c2b1577704eaffb39955577eb0dc8df93e9ba0516187d89e7a23f3f87022710e9c403d36037a71cb701";

/// A segment that ends a transaction, behind the removal of the second chunk of the bytes `b` of the source.
const SOURCE_LACKS: &str =
    "424f52475f53454756fde4c12900000001afa908672cadf85dd7d81320fb95485a432793b6a1e67fb60e5517e58b3a5acd40f43c250900000002";

/// The same, behind the removal of the chunk of the bytes `b` of the target.
const SAME_LACKS: &str =
    "424f52475f534547c07b83f92900000001a9be947d0ee2ca3c49afb5041f6f17f31d841e2b9a83461b6feafe5e4780f3bd40f43c250900000002";

/// The number of an answer, for a table.
fn number_of(answer: Result<Compared, CompareFault>) -> u8 {
    match answer {
        Ok(Compared::More) => 0,
        Ok(Compared::Equal) => 1,
        Ok(Compared::Differs) => 2,
        Err(CompareFault::Source(RepoFault::Missing(_))) => 3,
        Err(CompareFault::Target(RepoFault::Device)) => 4,
        Err(_) => 5,
    }
}

/// The last answer of a comparison, and how many steps came before it.
fn last_answer(
    comparison: &mut Comparison,
    source: &mut Repo,
    shelf: &mut Silent,
    target: &mut Repo,
    other: &mut Silent,
) -> (u8, u64) {
    for steps in 0..9u64 {
        match comparison.step(source, shelf, target, other) {
            Ok(Compared::More) => {}
            answer => return (number_of(answer), steps),
        }
    }
    (0, 9)
}

/// Compares the archives `a` of a source and a target.
fn compared_with(
    alloc: Global,
    source: &mut Repo,
    from: &mut Silent,
    target: &mut Repo,
    to: &mut Silent,
) -> (u8, u64) {
    if source.record_id(b"a").is_none() || target.record_id(b"a").is_none() {
        return (6, 0);
    }
    match Comparison::begin(alloc, source, from, target, to, b"a") {
        Ok(mut comparison) => {
            let answer = last_answer(&mut comparison, source, from, target, to);
            drop(comparison);
            answer
        }
        Err(fault) => (number_of(Err(fault)), 0),
    }
}

/// The same of a target on another shelf.
fn compared_on(
    alloc: Global,
    source: &mut Opened,
    target: &mut Opened,
    shelf: MemoryShelf,
) -> (u8, u64) {
    put_shelf(&mut target.shelf, shelf);
    compared_with(
        alloc,
        &mut source.repo,
        &mut source.shelf,
        &mut target.repo,
        &mut target.shelf,
    )
}

/// The same of a source and a target of these segments. The calls of these numbers on the target fail, once it is opened.
fn compared_from(
    alloc: Global,
    source: &mut Opened,
    others: &[&'static str; 2],
    failing: &[u64],
) -> (u8, u64) {
    match repository_of(alloc, others) {
        Some(mut target) => {
            let answer = match shelf_of(alloc, others, failing) {
                Ok(shelf) => compared_on(alloc, source, &mut target, shelf),
                Err(_) => (7, 0),
            };
            drop(target);
            answer
        }
        None => (8, 0),
    }
}

/// The same of repositories of these segments.
fn compared(
    alloc: Global,
    segments: &[&'static str; 2],
    others: &[&'static str; 2],
    failing: &[u64],
) -> (u8, u64) {
    match repository_of(alloc, segments) {
        Some(mut source) => {
            let answer = compared_from(alloc, &mut source, others, failing);
            drop(source);
            answer
        }
        None => (9, 0),
    }
}

/// The repositories that are compared.
static PAIRS: [[&str; 2]; 5] = [
    [SOURCE, COMMITTED],
    [SAME, COMMITTED],
    [OTHER, COMMITTED],
    [SAME, SAME_LACKS],
    [SOURCE, SOURCE_LACKS],
];

/// The numbers of two of them, which calls of the target fail, and what a comparison answers after how many steps.
static CASES: [(usize, usize, &[u64], (u8, u64)); 9] = [
    (0, 0, &[], (1, 6)),
    (0, 1, &[], (1, 6)),
    (1, 0, &[], (1, 6)),
    (0, 2, &[], (2, 6)),
    (2, 1, &[], (2, 6)),
    // A chunk that is missing in the target is a difference, and in the source a fault, though a difference came before it.
    (0, 3, &[], (2, 6)),
    (4, 2, &[], (3, 2)),
    (0, 1, &[1], (4, 0)),
    (0, 1, &[4], (4, 1)),
];

/// What a case answers.
fn answered(alloc: Global, source: usize, target: usize, failing: &[u64]) -> (u8, u64) {
    match (PAIRS.get(source), PAIRS.get(target)) {
        (Some(segments), Some(others)) => compared(alloc, segments, others, failing),
        _ => (10, 0),
    }
}

#[test]
fn archives_are_compared_to_their_end(rt: HostRuntime) {
    for (source, target, failing, answer) in &CASES {
        assert_eq!(rt; answered(rt.alloc(), *source, *target, failing), *answer);
    }
}
