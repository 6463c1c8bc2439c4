//! What a plan has counted.
ghost use Rattle.std.specs.Prelude.{◌≡◌, ◌≤◌, [], List, IfOk};
ghost use Rattle.ferry_piece.specs.Puts.{Addition};
ghost use Rattle.ferry_log.specs.State.{LogState};
ghost use Rattle.ferry_mac.specs.declared.keys.Keys.{Keys};
ghost use Rattle.ferry_plan.specs.Plan.{CountsOf};
ghost use Rattle.ferry_plan.specs.Tally.{IsReady, Tallied};

use crate::pieces::Pieces;
use crate::planning::Planned;
use ferry_base::Id;
use std::alloc::{AllocError, Global};
use std::collections::BTreeSet;

/// The length of the pieces of an item stream.
const STREAM_BLOCK: usize = 131_072;

/// The ids of the pieces that would be put so far, and contents and item streams on their way into pieces. It owns the memory of two pieces, and
/// an entry for each id.
#[derive(Drop)]
pub(crate) struct Tally {
    pub(crate) alloc: Global,
    pub(crate) block: usize,
    pub(crate) known: BTreeSet<Id>,
    pub(crate) contents: Pieces,
    pub(crate) stream: Pieces,
}

impl Tally {
    /// A tally of nothing, with contents cut into pieces of `block` bytes.
    pub(crate) fn new(alloc: Global, block: usize) -> Result<Tally, AllocError>
        requires least { 64 ≤ block }
        requires most { block ≤ 8388608 }
        ensures ready { IfOk result (IsReady) }
        ensures block { IfOk result (λ tally. tally.block ≡ block) }
        ensures stream { IfOk result (λ tally. tally.stream.cutter.piece ≡ []) }
        ensures nothing { (keys : Keys) (log : LogState) → IfOk result (λ tally. Tallied keys log tally []) }
    {
        Ok(Tally {
            alloc,
            block,
            known: BTreeSet::new(alloc),
            contents: Pieces::new(alloc, block)?,
            stream: Pieces::new(alloc, STREAM_BLOCK)?,
        })
    }

    /// The numbers of what would be put.
    pub(crate) fn planned(&self) -> Planned
        ensures counts { (keys : Keys) (log : LogState) (added : List Addition) → Tallied keys log self.now added → CountsOf added result }
    {
        Planned {
            chunks: self.contents.put,
            bytes: self.contents.bytes,
            meta: self.stream.put,
        }
    }
}
