//! The key expansion of AES-256, FIPS 197, section 5.2.
ghost use Rattle.std.specs.Prelude.{◌≡◌, ◌<◌, ◌≤◌, ◌*◌, ◌%◌};
ghost use Rattle.ferry_aes.specs.KeyExpansion.{add_words, sub_word, rot_word, key_word, addend, next_word, key_expansion};

use crate::substitution::substituted;

/// The first bytes of Rcon[1] to Rcon[7], table 5. Their other bytes are 0.
static ROUND_CONSTANTS: [u8; 7] = [0x01, 0x02, 0x04, 0x08, 0x10, 0x20, 0x40];

/// SubWord: each byte of a word is replaced by its S-box value.
#[tactic(auto, unfolding(crate::specs::KeyExpansion::sub_word))]
fn sub_word(word: [u8; 4]) -> [u8; 4]
    ensures { result ≡ sub_word word }
{
    [
        substituted(word[0]),
        substituted(word[1]),
        substituted(word[2]),
        substituted(word[3]),
    ]
}

/// RotWord: the first byte of a word goes to its end.
#[tactic(auto, unfolding(crate::specs::KeyExpansion::rot_word))]
fn rot_word(word: [u8; 4]) -> [u8; 4]
    ensures { result ≡ rot_word word }
{
    [word[1], word[2], word[3], word[0]]
}

/// The sum of two words.
#[tactic(auto, unfolding(crate::specs::KeyExpansion::add_words))]
fn add_words(left: [u8; 4], right: [u8; 4]) -> [u8; 4]
    ensures { result ≡ add_words left right }
{
    [
        left[0] ^ right[0],
        left[1] ^ right[1],
        left[2] ^ right[2],
        left[3] ^ right[3],
    ]
}

/// Word `i` of the key itself.
#[tactic(auto, unfolding(crate::specs::KeyExpansion::key_word))]
fn key_word(key: &[u8; 32], i: usize) -> [u8; 4]
    requires { i < 8 }
    ensures { result ≡ key_word key.now i }
{
    [key[4 * i], key[4 * i + 1], key[4 * i + 2], key[4 * i + 3]]
}

/// What is added to word `i - 8` to give word `i`, from word `i - 1`.
#[tactic(auto, unfolding(crate::specs::KeyExpansion::addend))]
fn addend(i: usize, before: [u8; 4]) -> [u8; 4]
    requires past_key { 8 ≤ i }
    requires in_range { i < 60 }
    ensures { result ≡ addend i before }
{
    if i % 8 == 0 {
        let constant = [ROUND_CONSTANTS[i / 8 - 1], 0, 0, 0];
        add_words(sub_word(rot_word(before)), constant)
    } else if i % 8 == 4 {
        sub_word(before)
    } else {
        before
    }
}

/// Word `i` of the expanded key, from the words before it.
#[tactic(auto, unfolding(crate::specs::KeyExpansion::next_word))]
fn next_word(key: &[u8; 32], words: &[[u8; 4]; 60], i: usize) -> [u8; 4]
    requires { i < 60 }
    ensures { result ≡ next_word key.now words.now i }
{
    if i < 8 {
        key_word(key, i)
    } else {
        add_words(words[i - 8], addend(i, words[i - 1]))
    }
}

/// The 60 words of the expanded key.
pub(crate) fn expanded(key: &[u8; 32]) -> [[u8; 4]; 60]
    ensures { result ≡ key_expansion key.now }
{
    let mut words = [[0u8; 4]; 60];
    for i in 0..60usize {
        words[i] = next_word(key, &words, i);
    }
    words
}
