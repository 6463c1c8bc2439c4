//! The stored schedule of one key.
ghost use Rattle.std.specs.Prelude.{◌≡◌};
ghost use Rattle.ferry_aes.specs.KeyExpansion.{key_expansion};
ghost use Rattle.ferry_aes.specs.Cipher.{cipher, each_encrypted};

use crate::cipher::encrypted;
use crate::eight::{eight_blocks, round_keys};
use crate::expansion::expanded;
use crate::joining::{eight_rows, put_blocks};
use std::marker::Model;

/// The expanded key of AES-256, FIPS 197, section 5.2: 60 words of 4 bytes.
///
/// It is as secret as the key, and has no `Debug`. It is not wiped when it is dropped.
#[derive(Drop)]
pub struct Schedule {
    pub(crate) words: [[u8; 4]; 60],
}

impl Model for Schedule {
    ghost use Rattle.std.specs.Prelude.{ℕ, List};

    ghost Value = { List (List ℕ) };

    ghost view = { λ s. s.words };
}

impl Schedule {
    /// Expands a key of 32 bytes.
    pub fn new(key: &[u8; 32]) -> Schedule
        ensures words { result ≡ key_expansion key.now }
    {
        Schedule {
            words: expanded(key),
        }
    }

    /// Encrypts one block of 16 bytes: CIPHER of FIPS 197, section 5.1.
    pub fn block(&self, input: &[u8; 16]) -> [u8; 16]
        ensures output { result ≡ cipher self.now input.now }
    {
        encrypted(&self.words, input)
    }

    /// Encrypts sixteen blocks of 16 bytes where they are, each for itself: in bit planes, eight at a time.
    pub fn sixteen(&self, states: &mut [u8; 256])
        ensures blocks { states.new ≡ each_encrypted self.now states.old 16 }
    {
        let keys = round_keys(&self.words);
        let low = eight_rows(states, 0);
        let high = eight_rows(states, 8);
        let first = eight_blocks(&keys, &low);
        let second = eight_blocks(&keys, &high);
        put_blocks(states, 0, &first);
        put_blocks(states, 128, &second);
    }
}
