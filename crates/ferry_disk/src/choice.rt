//! Which image of which moment a stop of the machine leaves.

/// A moment of a run, and what a stop of the machine leaves at it.
///
/// The moment is the first `acts` acts of the run; with `cut` the last of them counts as not done. `took` says whether a Replace or
/// Remove that isn't done took effect. `tails` has for a segment the bytes behind those that are stable, or `None` where it is absent;
/// of two for one segment the first counts. A segment that isn't listed has its stable bytes alone. Until the first Settle of the
/// moment is done, the start is left, whatever is listed.
#[derive(Drop)]
pub struct Choice {
    pub acts: u64,
    pub cut: bool,
    pub took: bool,
    pub tails: Vec<(u64, Option<Vec<u8>>)>,
}
