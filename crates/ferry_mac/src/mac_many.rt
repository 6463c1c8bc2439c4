//! HMAC over SHA-256 of any number of texts.
ghost use Rattle.std.specs.Prelude.{ℕ, List, [], ◌≡◌, ◌⊎◌, ◌<◌, ◌≤◌, ◌+◌, ◌*◌, length, map, slice_index, slice_index_or};
ghost use Rattle.sha2.specs.Sha256.{digest_bytes};
ghost use Rattle.ferry_mac.specs.Hmac.{hmac256, inner_pad, outer_pad};
ghost use Rattle.ferry_mac.specs.Lanes.{lane, nth_text};
ghost use Rattle.ferry_mac.specs.Many.{HasKey, HasMac, digest_behind};

use crate::compression::State;
use crate::four::{keyed, widened};
use crate::mac256::{INNER_PAD, OUTER_PAD, block_of, hmac256, padded};
use crate::many::{finished, hash_in_lanes, hashed, lanes_from, put_digest, text_at};
use crate::order::{WINDOW, alone_count, is_even, is_for_eight, longest_first};

/// Computes HMAC-SHA-256 of each text under `key`, in the place of the text. The key and each text may have any length.
///
/// Four or eight texts at a time are hashed side by side, and another one begins where one has ended. A text that is longer than all shorter ones
/// together is hashed alone. Four texts or more of any lengths so take about half the time of single calls, where no three of them have
/// most of the bytes.
///
/// Source: RFC 2104, section 2; FIPS 180-4, section 6.2.
pub fn hmac256_many(key: &[u8], texts: &[&[u8]], macs: &mut [[u8; 32]])
    requires size { length macs.old ≡ length texts.now }
    ensures macs { macs.new ≡ map (λ text. hmac256 key.now text.now) texts.now }
{
    let block = block_of(key);
    let inner_block = padded(&block, INNER_PAD);
    let outer_block = padded(&block, OUTER_PAD);
    let inner = keyed(&inner_block);
    let outer = keyed(&outer_block);
    for window in 0..texts.len().div_ceil(WINDOW) {
        let at = WINDOW * window;
        let end = (at + WINDOW).min(texts.len());
        macs_of_window(key, &inner, &outer, &texts[at..end], &mut macs[at..end]);
    }
}

/// The MACs of up to 64 texts. `inner` and `outer` have the hash values after the key's two blocks.
fn macs_of_window(
    key: &[u8],
    inner: &State<4>,
    outer: &State<4>,
    texts: &[&[u8]],
    macs: &mut [[u8; 32]],
)
    requires size { length macs.old ≡ length texts.now }
    requires few { length texts.now ≤ 64 }
    requires inner { HasKey 4 inner.now inner_pad key.now }
    requires outer { HasKey 4 outer.now outer_pad key.now }
    ensures macs { macs.new ≡ map (λ text. hmac256 key.now text.now) texts.now }
{
    if is_even(texts) {
        hash_by_groups(inner, texts, macs);
        finish_macs(outer, macs);
    } else {
        macs_by_order(key, inner, outer, texts, macs);
    }
}

/// Puts the digests of texts, group after group: of eight texts where more than four are left, and else of four.
fn hash_by_groups(start: &State<4>, texts: &[&[u8]], digests: &mut [[u8; 32]])
    requires size { length digests.old ≡ length texts.now }
    requires few { length texts.now ≤ 64 }
    ensures size { length digests.new ≡ length digests.old }
    ensures digests { (h : List ℕ) → ((l : ℕ) → l < 4 → lane start.now l ≡ h) → (k : ℕ) → k < length texts.now
        → slice_index_or digests.new k [] ≡ digest_behind h (nth_text texts.now k) }
{
    let wide = widened(start);
    let mut at = 0usize;
    while at < texts.len() {
        if texts.len() - at > 4 {
            hash_group(&wide, texts, at, digests);
            at += 8;
        } else {
            hash_group(start, texts, at, digests);
            at += 4;
        }
    }
}

/// Puts the digests of the N texts from a place on, or of as many as there are.
fn hash_group<const N: usize>(
    start: &State<N>,
    texts: &[&[u8]],
    at: usize,
    digests: &mut [[u8; 32]],
)
    requires width { N ≤ 64 }
    requires size { length digests.old ≡ length texts.now }
    requires few { length texts.now ≤ 64 }
    requires at { at < length texts.now }
    ensures size { length digests.new ≡ length digests.old }
    ensures digests { (h : List ℕ) → ((l : ℕ) → l < N → lane start.now l ≡ h) → (k : ℕ) → at ≤ k → k < at + N → k < length texts.now
        → slice_index_or digests.new k [] ≡ digest_behind h (nth_text texts.now k) }
    ensures others { (k : ℕ) → (k < at) ⊎ (at + N ≤ k) → slice_index_or digests.new k [] ≡ slice_index_or digests.old k [] }
{
    let lanes = lanes_from::<N>(texts, at);
    let last = finished(&lanes, start, texts);
    put_group(&last, at, digests);
}

/// Puts N digests from a place on, or as many as there are places.
fn put_group<const N: usize>(state: &State<N>, at: usize, digests: &mut [[u8; 32]])
    requires width { N ≤ 64 }
    requires at { at < length digests.old }
    ensures size { length digests.new ≡ length digests.old }
    ensures put { (l : ℕ) → l < N → at + l < length digests.old
        → slice_index_or digests.new (at + l) [] ≡ digest_bytes (lane state.now l) 8 }
    ensures others { (k : ℕ) → (k < at) ⊎ (at + N ≤ k) → slice_index_or digests.new k [] ≡ slice_index_or digests.old k [] }
{
    for l in 0..N {
        put_digest(state, l, at + l, digests);
    }
}

/// The eight digests from a place on, and zeros behind the last one.
fn digests_from(digests: &[[u8; 32]], at: usize) -> [[u8; 32]; 8]
    requires { at < length digests.now }
    ensures { (l : ℕ) → l < 8 → at + l < length digests.now → slice_index_or result l [] ≡ slice_index_or digests.now (at + l) [] }
{
    let mut taken = [[0u8; 32]; 8];
    for l in 0..8usize {
        if l < digests.len() - at {
            taken[l] = digests[at + l];
        }
    }
    taken
}

/// From the N inner digests from a place on, or as many as there are, to their MACs.
fn finish_group<const N: usize>(outer: &State<N>, at: usize, macs: &mut [[u8; 32]])
    requires width { N ≤ 8 }
    requires at { at < length macs.old }
    ensures size { length macs.new ≡ length macs.old }
    ensures digests { (h : List ℕ) → ((l : ℕ) → l < N → lane outer.now l ≡ h) → (k : ℕ) → at ≤ k → k < at + N → k < length macs.old
        → slice_index_or macs.new k [] ≡ digest_behind h (slice_index_or macs.old k []) }
    ensures others { (k : ℕ) → (k < at) ⊎ (at + N ≤ k) → slice_index_or macs.new k [] ≡ slice_index_or macs.old k [] }
{
    let [a, b, c, d, e, f, g, h] = digests_from(macs, at);
    let last = hashed(outer, &[&a, &b, &c, &d, &e, &f, &g, &h]);
    put_group(&last, at, macs);
}

/// From the inner digests to the MACs, group after group: of eight where more than four are left, and else of four.
fn finish_macs(outer: &State<4>, macs: &mut [[u8; 32]])
    requires few { length macs.old ≤ 64 }
    ensures size { length macs.new ≡ length macs.old }
    ensures digests { (h : List ℕ) → ((l : ℕ) → l < 4 → lane outer.now l ≡ h) → (k : ℕ) → k < length macs.old
        → slice_index_or macs.new k [] ≡ digest_behind h (slice_index_or macs.old k []) }
{
    let wide = widened(outer);
    let mut at = 0usize;
    while at < macs.len() {
        if macs.len() - at > 4 {
            finish_group(&wide, at, macs);
            at += 8;
        } else {
            finish_group(outer, at, macs);
            at += 4;
        }
    }
}

/// Puts the digests of the texts in the places of `order`, in four lanes or in eight.
fn hash_by_order(start: &State<4>, texts: &[&[u8]], order: &[usize], digests: &mut [[u8; 32]])
    requires size { length digests.old ≡ length texts.now }
    requires few { length texts.now ≤ 64 }
    requires places { (i : ℕ) → i < length order.now → slice_index order.now i < length texts.now }
    ensures size { length digests.new ≡ length digests.old }
    ensures digests { (h : List ℕ) → ((l : ℕ) → l < 4 → lane start.now l ≡ h) → (i : ℕ) → i < length order.now
        → slice_index_or digests.new (slice_index order.now i) [] ≡ digest_behind h (nth_text texts.now (slice_index order.now i)) }
{
    if is_for_eight(texts, order) {
        hash_in_lanes(&widened(start), texts, order, digests);
    } else {
        hash_in_lanes(start, texts, order, digests);
    }
}

/// The MACs of the texts in the places of `order`, in lanes.
fn macs_in_lanes(
    inner: &State<4>,
    outer: &State<4>,
    texts: &[&[u8]],
    order: &[usize],
    macs: &mut [[u8; 32]],
)
    requires size { length macs.old ≡ length texts.now }
    requires few { length texts.now ≤ 64 }
    requires places { (i : ℕ) → i < length order.now → slice_index order.now i < length texts.now }
    ensures size { length macs.new ≡ length macs.old }
    ensures macs { (key : List ℕ) → HasKey 4 inner.now inner_pad key → HasKey 4 outer.now outer_pad key
        → (i : ℕ) → i < length order.now → HasMac key texts.now macs.new (slice_index order.now i) }
{
    if order.is_empty() {
        return;
    }
    hash_by_order(inner, texts, order, macs);
    finish_macs(outer, macs);
}

/// The MACs of the texts in the places of `order`, one after another.
fn macs_alone(key: &[u8], texts: &[&[u8]], order: &[usize], macs: &mut [[u8; 32]])
    requires size { length macs.old ≡ length texts.now }
    requires places { (i : ℕ) → i < length order.now → slice_index order.now i < length texts.now }
    ensures size { length macs.new ≡ length macs.old }
    ensures macs { (i : ℕ) → i < length order.now → HasMac key.now texts.now macs.new (slice_index order.now i) }
    ensures kept { (k : ℕ) → HasMac key.now texts.now macs.old k → HasMac key.now texts.now macs.new k }
{
    for turn in 0..order.len() {
        let place = order[turn];
        macs[place] = hmac256(key, text_at(texts, place));
    }
}

/// The MACs of up to 64 texts, the longest ones first.
fn macs_by_order(
    key: &[u8],
    inner: &State<4>,
    outer: &State<4>,
    texts: &[&[u8]],
    macs: &mut [[u8; 32]],
)
    requires size { length macs.old ≡ length texts.now }
    requires few { length texts.now ≤ 64 }
    requires inner { HasKey 4 inner.now inner_pad key.now }
    requires outer { HasKey 4 outer.now outer_pad key.now }
    ensures size { length macs.new ≡ length macs.old }
    ensures macs { (k : ℕ) → k < length texts.now → HasMac key.now texts.now macs.new k }
{
    let order = longest_first(texts);
    let alone = alone_count(texts, &order);
    macs_in_lanes(inner, outer, texts, &order[alone..texts.len()], macs);
    macs_alone(key, texts, &order[..alone], macs);
}
