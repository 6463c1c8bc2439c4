//! Digests of SHA-256 of any number of texts, in N lanes.
ghost use Rattle.std.specs.Prelude.{ℕ, List, [], ◌∷◌, ◌≡◌, ◌≢◌, ◌<◌, ◌≤◌, ◌+◌, ◌*◌, ◌/◌, ◌^◌, length, min, take, drop, slice_index, slice_index_or};
ghost use Rattle.std.specs.Prelude.{if◌then◌else◌, ◌==◌};
ghost use Rattle.std.specs.Borrow.{Bor};
ghost use Rattle.sha2.specs.Sha256.{digest_bytes, hash_after};
ghost use Rattle.ferry_mac.specs.Lanes.{behind_key, hashed_behind, lane, nth_text, HasRows, HasWords};
ghost use Rattle.ferry_mac.specs.Many.{IsCovered, IsHashed, IsInLane, digest_behind, text_of};

use crate::compression::{Schedule, State, compressed, put_words};
use crate::four::{block_at, block_count, digest, ending, going, kept, most};
use std::simd::prelude::*;

/// What is behind the last whole block of a text, with its padding: one block or two.
#[derive(Clone, Copy)]
pub(crate) struct End {
    bytes: [u8; 128],
}

/// N lanes, each with a text behind the block of a key.
#[derive(Drop)]
pub(crate) struct Lanes<const N: usize> {
    /// The place of each lane's text. Behind the last text it is a text of no bytes.
    places: [usize; N],
    /// How many blocks of each text are hashed.
    done: [usize; N],
    /// How many blocks of each text and its padding are left.
    lefts: [usize; N],
    /// What is behind the last whole block of each text, with its padding.
    ends: [End; N],
}

/// The text in a place, and no bytes behind the last one.
pub(crate) fn text_at<'a>(texts: &[&'a [u8]], place: usize) -> &'a [u8]
    ensures { result.now ≡ nth_text texts.now place }
{
    if place < texts.len() {
        texts[place]
    } else {
        &[]
    }
}

/// Puts a text in a lane. None of its blocks is hashed.
fn set_text<const N: usize>(lanes: &mut Lanes<N>, texts: &[&[u8]], l: usize, place: usize)
    requires width { N ≤ 64 }
    requires lane { l < N }
    ensures lane { IsInLane texts.now lanes.new l }
    ensures place { slice_index lanes.new.places l ≡ place }
    ensures none { slice_index lanes.new.done l ≡ 0 }
    ensures lanes { (j : ℕ) → j ≢ l → IsInLane texts.now lanes.old j → IsInLane texts.now lanes.new j }
    ensures places { (j : ℕ) → j ≢ l → slice_index lanes.new.places j ≡ slice_index lanes.old.places j }
    ensures done { (j : ℕ) → j ≢ l → slice_index lanes.new.done j ≡ slice_index lanes.old.done j }
{
    let text = text_at(texts, place);
    lanes.places[l] = place;
    lanes.done[l] = 0;
    lanes.lefts[l] = block_count(text);
    lanes.ends[l] = End {
        bytes: ending(text),
    };
}

/// Lanes with the texts from a place on, of which no block is hashed.
pub(crate) fn lanes_from<const N: usize>(texts: &[&[u8]], at: usize) -> Lanes<N>
    requires width { N ≤ 64 }
    requires fits { at + N < 2 ^ 60 }
    ensures lanes { (l : ℕ) → l < N → IsInLane texts.now result l }
    ensures places { (l : ℕ) → l < N → slice_index result.places l ≡ at + l }
    ensures none { (l : ℕ) → l < N → slice_index result.done l ≡ 0 }
{
    let mut lanes = Lanes {
        places: [0; N],
        done: [0; N],
        lefts: [0; N],
        ends: [End { bytes: [0; 128] }; N],
    };
    for l in 0..N {
        set_text(&mut lanes, texts, l, at + l);
    }
    lanes
}

/// The lane that has the fewest blocks left.
pub(crate) fn soonest<const N: usize>(lefts: &[usize; N]) -> usize
    requires { 0 < N }
    ensures lane { result < N }
    ensures least { (l : ℕ) → l < N → slice_index lefts.now result ≤ slice_index lefts.now l }
{
    let mut soonest = 0usize;
    for l in 0..N {
        if lefts[l] < lefts[soonest] {
            soonest = l;
        }
    }
    soonest
}

/// Puts the words of each lane's block that is `n` behind those that are hashed at the head of its W. Behind the last block it is any block.
#[inline(always)]
fn put_blocks<const N: usize>(w: &mut Schedule<N>, lanes: &Lanes<N>, texts: &[&[u8]], n: usize)
    requires width { N ≤ 64 }
    requires few { n < 2 ^ 60 }
    requires lanes { (l : ℕ) → l < N → IsInLane texts.now lanes.now l }
    requires rows { HasRows w.old N }
    ensures rows { HasRows w.new N }
    ensures words { (l : ℕ) → l < N → n < slice_index lanes.now.lefts l
        → HasWords w.new l (take 64 (drop ((slice_index lanes.now.done l + n) * 64) (behind_key (text_of texts.now lanes.now l)))) }
{
    for l in 0..N {
        let text = text_at(texts, lanes.places[l]);
        put_words(
            w,
            l,
            block_at(text, &lanes.ends[l].bytes, lanes.done[l] + n),
        );
    }
}

/// The hash values after `count` more blocks in each lane.
fn run<const N: usize>(
    lanes: &Lanes<N>,
    state: &State<N>,
    texts: &[&[u8]],
    count: usize,
) -> State<N>
    requires width { N ≤ 64 }
    requires lanes { (l : ℕ) → l < N → IsInLane texts.now lanes.now l }
    requires left { (l : ℕ) → l < N → count ≤ slice_index lanes.now.lefts l }
    requires few { count ≤ 2 ^ 60 }
    ensures { (start : List ℕ) (l : ℕ) → l < N → IsHashed start texts.now lanes.now state.now l
        → lane result l ≡ hash_after start (behind_key (text_of texts.now lanes.now l)) (slice_index lanes.now.done l + count) }
{
    let mut w = [[0u32; N]; 64];
    let mut state = *state;
    for n in 0..count {
        put_blocks(&mut w, lanes, texts, n);
        let next = compressed(&state, &mut w);
        state = next;
    }
    state
}

/// The hash values after up to `count` more blocks in each lane. A lane that has no block left stands still while others go on.
fn run_out<const N: usize>(
    lanes: &Lanes<N>,
    state: &State<N>,
    texts: &[&[u8]],
    count: usize,
) -> State<N>
    requires width { N ≤ 64 }
    requires lanes { (l : ℕ) → l < N → IsInLane texts.now lanes.now l }
    requires few { count ≤ 2 ^ 60 }
    ensures { (start : List ℕ) (l : ℕ) → l < N → IsHashed start texts.now lanes.now state.now l
        → lane result l ≡ hash_after start (behind_key (text_of texts.now lanes.now l))
        (slice_index lanes.now.done l + min count (slice_index lanes.now.lefts l)) }
{
    let mut w = [[0u32; N]; 64];
    let mut state = *state;
    for n in 0..count {
        put_blocks(&mut w, lanes, texts, n);
        let next = compressed(&state, &mut w);
        let chosen = kept(going(&lanes.lefts, n), &next, &state);
        state = chosen;
    }
    state
}

/// Counts `count` blocks in each lane as hashed.
fn count_blocks<const N: usize>(lanes: &mut Lanes<N>, count: usize)
    requires width { N ≤ 64 }
    requires fits { (l : ℕ) → l < N → slice_index lanes.old.done l + count < 2 ^ 60 }
    requires left { (l : ℕ) → l < N → count ≤ slice_index lanes.old.lefts l }
    ensures done { (l : ℕ) → l < N → slice_index lanes.new.done l ≡ slice_index lanes.old.done l + count }
    ensures left { (l : ℕ) → l < N → slice_index lanes.new.lefts l + count ≡ slice_index lanes.old.lefts l }
    ensures places { lanes.new.places ≡ lanes.old.places }
    ensures ends { lanes.new.ends ≡ lanes.old.ends }
{
    for l in 0..N {
        lanes.done[l] += count;
        lanes.lefts[l] -= count;
    }
}

/// Goes on by `count` blocks in each lane.
fn advance<const N: usize>(
    lanes: &mut Lanes<N>,
    state: &mut State<N>,
    texts: &[&[u8]],
    count: usize,
)
    requires width { N ≤ 64 }
    requires some { 0 < N }
    requires lanes { (l : ℕ) → l < N → IsInLane texts.now lanes.old l }
    requires left { (l : ℕ) → l < N → count ≤ slice_index lanes.old.lefts l }
    ensures lanes { (l : ℕ) → l < N → IsInLane texts.now lanes.new l }
    ensures hash { (start : List ℕ) (l : ℕ) → l < N → IsHashed start texts.now lanes.old state.old l
        → IsHashed start texts.now lanes.new state.new l }
    ensures places { lanes.new.places ≡ lanes.old.places }
    ensures left { (l : ℕ) → l < N → slice_index lanes.new.lefts l + count ≡ slice_index lanes.old.lefts l }
{
    let next = run(lanes, state, texts, count);
    *state = next;
    count_blocks(lanes, count);
}

/// The hash values where each lane has hashed all of its text.
pub(crate) fn finished<const N: usize>(
    lanes: &Lanes<N>,
    state: &State<N>,
    texts: &[&[u8]],
) -> State<N>
    requires width { N ≤ 64 }
    requires lanes { (l : ℕ) → l < N → IsInLane texts.now lanes.now l }
    ensures { (start : List ℕ) (l : ℕ) → l < N → IsHashed start texts.now lanes.now state.now l
        → lane result l ≡ hashed_behind start (text_of texts.now lanes.now l) }
{
    run_out(lanes, state, texts, most(&lanes.lefts))
}

/// The hash values of the first N texts, each behind a block that leaves that of `start`.
pub(crate) fn hashed<const N: usize>(start: &State<N>, texts: &[&[u8]]) -> State<N>
    requires width { N ≤ 64 }
    ensures { (l : ℕ) → l < N → lane result l ≡ hashed_behind (lane start.now l) (nth_text texts.now l) }
{
    finished(&lanes_from::<N>(texts, 0), start, texts)
}

/// Puts the digest of a lane in the place of its text, where it has one.
pub(crate) fn put_digest<const N: usize>(
    state: &State<N>,
    l: usize,
    place: usize,
    digests: &mut [[u8; 32]],
)
    requires { l < N }
    ensures size { length digests.new ≡ length digests.old }
    ensures put { place < length digests.old → slice_index_or digests.new place [] ≡ digest_bytes (lane state.now l) 8 }
    ensures others { (k : ℕ) → k ≢ place → slice_index_or digests.new k [] ≡ slice_index_or digests.old k [] }
{
    if place < digests.len() {
        digests[place] = digest(state, l);
    }
}

/// 1 for one lane, and 0 for the others.
fn only<const N: usize>(l: usize) -> Simd<u32, N>
    requires { l < N }
    ensures { (j : ℕ) → j < N → slice_index result j ≡ (if j == l then 1 else 0) }
{
    let mut marks = [0u32; N];
    marks[l] = 1;
    Simd::from_array(marks)
}

/// Begins a text in a lane.
fn begin<const N: usize>(
    lanes: &mut Lanes<N>,
    state: &mut State<N>,
    start: &State<N>,
    texts: &[&[u8]],
    l: usize,
    place: usize,
)
    requires width { N ≤ 64 }
    requires lane { l < N }
    requires lanes { (j : ℕ) → j < N → IsInLane texts.now lanes.old j }
    ensures lanes { (j : ℕ) → j < N → IsInLane texts.now lanes.new j }
    ensures hash { (h : List ℕ) (j : ℕ) → j < N → lane start.now j ≡ h → IsHashed h texts.now lanes.old state.old j
        → IsHashed h texts.now lanes.new state.new j }
    ensures begun { slice_index lanes.new.places l ≡ place }
    ensures others { (j : ℕ) → j < N → j ≢ l → slice_index lanes.new.places j ≡ slice_index lanes.old.places j }
{
    let next = kept(only::<N>(l), start, state);
    *state = next;
    set_text(lanes, texts, l, place);
}

/// Hashes on until a lane has no block left, puts its digest in the place of its text, and begins another text in it.
fn take_text<const N: usize>(
    lanes: &mut Lanes<N>,
    state: &mut State<N>,
    start: &State<N>,
    texts: &[&[u8]],
    place: usize,
    digests: &mut [[u8; 32]],
)
    requires width { N ≤ 64 }
    requires some { 0 < N }
    requires size { length digests.old ≡ length texts.now }
    requires lanes { (l : ℕ) → l < N → IsInLane texts.now lanes.old l }
    ensures size { length digests.new ≡ length digests.old }
    ensures lanes { (l : ℕ) → l < N → IsInLane texts.now lanes.new l }
    ensures hash { (h : List ℕ) → ((l : ℕ) → l < N → lane start.now l ≡ h)
        → ((l : ℕ) → l < N → IsHashed h texts.now lanes.old state.old l) → (l : ℕ) → l < N → IsHashed h texts.now lanes.new state.new l }
    ensures covered { (h : List ℕ) → ((l : ℕ) → l < N → IsHashed h texts.now lanes.old state.old l) → (k : ℕ) → k < length texts.now
        → IsCovered N h texts.now lanes.old.places digests.old k → IsCovered N h texts.now lanes.new.places digests.new k }
    ensures taken { (h : List ℕ) → IsCovered N h texts.now lanes.new.places digests.new place }
{
    let l = soonest(&lanes.lefts);
    let count = lanes.lefts[l];
    advance(lanes, state, texts, count);
    put_digest(state, l, lanes.places[l], digests);
    begin(lanes, state, start, texts, l, place);
}

/// Puts the digest of each lane in the place of its text.
fn put_digests<const N: usize>(state: &State<N>, places: &[usize; N], digests: &mut [[u8; 32]])
    requires width { N ≤ 64 }
    ensures size { length digests.new ≡ length digests.old }
    ensures digests { (h : List ℕ) (texts : List (Bor (List ℕ))) → ((l : ℕ) → l < N
        → lane state.now l ≡ hashed_behind h (nth_text texts (slice_index places.now l)))
        → (k : ℕ) → k < length digests.old → IsCovered N h texts places.now digests.old k
        → slice_index_or digests.new k [] ≡ digest_behind h (nth_text texts k) }
{
    for l in 0..N {
        put_digest(state, l, places[l], digests);
    }
}

/// Puts the digests of the texts at the places in `order`, behind the block that leaves `start`.
pub(crate) fn hash_in_lanes<const N: usize>(
    start: &State<N>,
    texts: &[&[u8]],
    order: &[usize],
    digests: &mut [[u8; 32]],
)
    requires size { length digests.old ≡ length texts.now }
    requires some { 0 < N }
    requires width { N ≤ 64 }
    requires few { length texts.now ≤ 64 }
    requires places { (i : ℕ) → i < length order.now → slice_index order.now i < length texts.now }
    ensures size { length digests.new ≡ length digests.old }
    ensures digests { (h : List ℕ) → ((l : ℕ) → l < N → lane start.now l ≡ h) → (i : ℕ) → i < length order.now
        → slice_index_or digests.new (slice_index order.now i) [] ≡ digest_behind h (nth_text texts.now (slice_index order.now i)) }
{
    let mut lanes = lanes_from::<N>(texts, texts.len());
    let mut state = *start;
    for turn in 0..order.len() {
        take_text(&mut lanes, &mut state, start, texts, order[turn], digests);
    }
    let last = finished(&lanes, &state, texts);
    put_digests(&last, &lanes.places, digests);
}
