//! AES-256 in counter mode over a text, in place.

ghost use Rattle.std.specs.Prelude.{◌≡◌, ◌≤◌, length};
ghost use Rattle.ferry_aes.specs.CounterMode.{ctr, key_stream, xor_lists};

use ferry_aes::{Schedule, keystream};
use ferry_lanes::xor_into;

/// The number of bytes of key stream that are held at a time: 1024 counter blocks.
const PIECE: usize = 16384;

/// The number of counter blocks of a piece.
const PIECE_BLOCKS: usize = 1024;

/// Adds the key stream from `counter` on to a piece.
fn add_to_piece(schedule: &Schedule, counter: u128, piece: &mut [u8])
    requires { length piece.old ≤ 16384 }
    ensures sum { piece.new ≡ xor_lists piece.old (key_stream schedule.now counter (length piece.old)) }
{
    let mut stream = [0u8; PIECE];
    let part = &mut stream[..piece.len()];
    keystream(schedule, counter, part);
    xor_into(piece, part);
}

/// Encrypts or decrypts a text in place, from the counter block of 8 zero bytes and the nonce on.
pub(crate) fn add_key_stream(key: &[u8; 32], nonce: u64, text: &mut [u8])
    ensures text { text.new ≡ ctr key.now nonce text.old }
{
    let schedule = Schedule::new(key);
    for number in 0..text.len().div_ceil(PIECE) {
        let at = PIECE * number;
        let end = (at + PIECE).min(text.len());
        let counter = u128::from(nonce) + (PIECE_BLOCKS * number) as u128;
        add_to_piece(&schedule, counter, &mut text[at..end]);
    }
}
