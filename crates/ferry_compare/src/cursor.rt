//! The content of an item of the target, passed piece by piece along the bytes of the source's.
ghost use Rattle.std.specs.Prelude.{◌≡◌, ◌≢◌, ◌≤◌, ◌<◌, ◌+◌, ◌++◌, ℕ, List, [], Ok, Some, None, true, false, take, drop, min, length, IfOk, IfErr, IfSome};
ghost use Rattle.ferry_disk.specs.Device.{KeepsTold, HasCause, told_files};
ghost use Rattle.ferry_repo.specs.Opening.{repo_view, cached_in, FitsRepo};
ghost use Rattle.ferry_compare.specs.Fault.{source_failed, target_failed, IsTargetFault};
ghost use Rattle.ferry_compare.specs.Steps.{cursor_view, left_in, IsWithin, PassesOn, GivesContent, EndsContent, HoldsWhere};
ghost use Rattle.ferry_repo.specs.Archives.{HoldsContent};

use crate::fault::{CompareFault, of_target};
use ferry_disk::Shelf;
use ferry_item::ChunkRef;
use ferry_repo::Repo;
use std::alloc::Global;

/// Where the passing of the target's content stands: how many of its chunks were read, the content of the last of these, and how many
/// bytes of that were passed.
#[derive(Drop)]
pub(crate) struct Cursor {
    next: usize,
    piece: Vec<u8>,
    at: usize,
}

impl Cursor {
    /// In front of all chunks.
    pub(crate) fn new(alloc: Global) -> Cursor
        ensures front { ((cursor_view result).next ≡ 0) × ((cursor_view result).piece ≡ []) × ((cursor_view result).at ≡ 0) }
    {
        Cursor {
            next: 0,
            piece: Vec::new(alloc),
            at: 0,
        }
    }

    /// Passes these bytes. False where the content of the chunks doesn't go on so.
    pub(crate) fn pass<T: Shelf>(
        &mut self,
        target: &mut Repo,
        other: &mut T,
        others: &[ChunkRef],
        bytes: &[u8],
    ) -> Result<bool, CompareFault>
        requires fits { IfSome (T.told other.old) (λ t. FitsRepo (told_files t) (repo_view target.old) (cached_in target.old)) }
        requires within { IsWithin others.now (cursor_view self.old) }
        ensures passes { IfOk result (λ same. PassesOn (T.told other.old) (repo_view target.old) others.now
            (cursor_view self.old) bytes.now same (cursor_view self.new)) }
        ensures within { IsWithin others.now (cursor_view self.new) }
        ensures refused { IfErr result IsTargetFault }
        ensures still { IfErr result (λ fault. source_failed fault ≡ false) }
        ensures fits { IfSome (T.told other.new) (λ t. FitsRepo (told_files t) (repo_view target.new) (cached_in target.new)) }
        ensures kept { repo_view target.new ≡ repo_view target.old }
        ensures same { KeepsTold target_failed (T.told other.old) (T.told other.new) result }
        ensures cause { HasCause target_failed (T.faults other.old) (T.faults other.new) result }
    {
        let mut taken = 0usize;
        for _ in 0..u64::MAX {
            if taken == bytes.len() {
                return Ok(true);
            }
            match self.go_on(target, other, others, &bytes[taken..])? {
                Some(count) => taken += count,
                None => return Ok(false),
            }
        }
        Err(CompareFault::Memory)
    }

    /// Passes some of these bytes, or reads the next chunk where all of the last one are passed. None where the content doesn't go on so.
    fn go_on<T: Shelf>(
        &mut self,
        target: &mut Repo,
        other: &mut T,
        others: &[ChunkRef],
        bytes: &[u8],
    ) -> Result<Option<usize>, CompareFault>
        requires some { 0 < length bytes.now }
        requires fits { IfSome (T.told other.old) (λ t. FitsRepo (told_files t) (repo_view target.old) (cached_in target.old)) }
        requires within { IsWithin others.now (cursor_view self.old) }
        ensures count { IfOk result (λ passed. IfSome passed (λ count. count ≤ length bytes.now)) }
        ensures passes { IfOk result (λ passed. IfSome passed (λ count. PassesOn (T.told other.old) (repo_view target.old) others.now
            (cursor_view self.old) (take count bytes.now) true (cursor_view self.new))) }
        ensures strays { result ≡ Ok None → PassesOn (T.told other.old) (repo_view target.old) others.now
            (cursor_view self.old) bytes.now false (cursor_view self.new) }
        ensures within { IsWithin others.now (cursor_view self.new) }
        ensures refused { IfErr result IsTargetFault }
        ensures still { IfErr result (λ fault. source_failed fault ≡ false) }
        ensures fits { IfSome (T.told other.new) (λ t. FitsRepo (told_files t) (repo_view target.new) (cached_in target.new)) }
        ensures kept { repo_view target.new ≡ repo_view target.old }
        ensures same { KeepsTold target_failed (T.told other.old) (T.told other.new) result }
        ensures cause { HasCause target_failed (T.faults other.old) (T.faults other.new) result }
    {
        if self.at < self.piece.len() {
            return Ok(self.match_piece(bytes));
        }
        if self.next == others.len() {
            return Ok(None);
        }
        self.read_piece(target, other, others)
    }

    /// Passes as many of these bytes as are left of the piece, if they are the same.
    fn match_piece(&mut self, bytes: &[u8]) -> Option<usize>
        requires within { (cursor_view self.old).at ≤ length (cursor_view self.old).piece }
        ensures count { IfSome result (λ count. count ≤ length bytes.now) }
        ensures passed { IfSome result (λ count. left_in (cursor_view self.old) ≡ take count bytes.now ++ left_in (cursor_view self.new)) }
        ensures differ { result ≡ None → (rest more : List ℕ) → bytes.now ++ rest ≡ left_in (cursor_view self.old) ++ more → ⊥ }
        ensures within { (cursor_view self.new).at ≤ length (cursor_view self.new).piece }
        ensures next { (cursor_view self.new).next ≡ (cursor_view self.old).next }
    {
        match common(bytes, &self.piece[self.at..]) {
            Some(count) => {
                self.at += count;
                Some(count)
            }
            None => None,
        }
    }

    /// Reads the next chunk, where all of the last one is passed. None where the target's files refuse it.
    fn read_piece<T: Shelf>(
        &mut self,
        target: &mut Repo,
        other: &mut T,
        others: &[ChunkRef],
    ) -> Result<Option<usize>, CompareFault>
        requires passed { left_in (cursor_view self.old) ≡ [] }
        requires more { (cursor_view self.old).next < length others.now }
        requires fits { IfSome (T.told other.old) (λ t. FitsRepo (told_files t) (repo_view target.old) (cached_in target.old)) }
        requires within { IsWithin others.now (cursor_view self.old) }
        ensures count { IfOk result (λ passed. IfSome passed (λ count. count ≡ 0)) }
        ensures passes { IfOk result (λ passed. IfSome passed (λ count. PassesOn (T.told other.old) (repo_view target.old) others.now
            (cursor_view self.old) [] true (cursor_view self.new))) }
        ensures strays { result ≡ Ok None → PassesOn (T.told other.old) (repo_view target.old) others.now
            (cursor_view self.old) [] false (cursor_view self.new) }
        ensures within { IsWithin others.now (cursor_view self.new) }
        ensures refused { IfErr result IsTargetFault }
        ensures still { IfErr result (λ fault. source_failed fault ≡ false) }
        ensures fits { IfSome (T.told other.new) (λ t. FitsRepo (told_files t) (repo_view target.new) (cached_in target.new)) }
        ensures kept { repo_view target.new ≡ repo_view target.old }
        ensures same { KeepsTold target_failed (T.told other.old) (T.told other.new) result }
        ensures cause { HasCause target_failed (T.faults other.old) (T.faults other.new) result }
    {
        match target_content(target, other, &others[self.next], &others[self.next..])? {
            Some(piece) => {
                self.next += 1;
                self.piece = piece;
                self.at = 0;
                Ok(Some(0))
            }
            None => Ok(None),
        }
    }

    /// Whether the content of the chunks ends here. The chunks behind are read, since each has to be there.
    pub(crate) fn ends<T: Shelf>(
        &self,
        target: &mut Repo,
        other: &mut T,
        others: &[ChunkRef],
    ) -> Result<bool, CompareFault>
        requires fits { IfSome (T.told other.old) (λ t. FitsRepo (told_files t) (repo_view target.old) (cached_in target.old)) }
        requires within { IsWithin others.now (cursor_view self.now) }
        ensures ends { IfOk result (λ ended. EndsContent (T.told other.old) (repo_view target.old) others.now (cursor_view self.now) ended) }
        ensures refused { IfErr result IsTargetFault }
        ensures still { IfErr result (λ fault. source_failed fault ≡ false) }
        ensures fits { IfSome (T.told other.new) (λ t. FitsRepo (told_files t) (repo_view target.new) (cached_in target.new)) }
        ensures kept { repo_view target.new ≡ repo_view target.old }
        ensures same { KeepsTold target_failed (T.told other.old) (T.told other.new) result }
        ensures cause { HasCause target_failed (T.faults other.old) (T.faults other.new) result }
    {
        if self.at < self.piece.len() {
            return Ok(false);
        }
        for place in self.next..others.len() {
            if !is_empty(target, other, &others[place], &others[place..])? {
                return Ok(false);
            }
        }
        Ok(true)
    }
}

/// How many bytes stand at the front of both: all of the shorter one. None where they aren't the same.
fn common(bytes: &[u8], piece: &[u8]) -> Option<usize>
    ensures count { IfSome result (λ count. count ≡ min (length bytes.now) (length piece.now)) }
    ensures same { IfSome result (λ count. take count bytes.now ≡ take count piece.now) }
    ensures differ { result ≡ None → take (min (length bytes.now) (length piece.now)) bytes.now
        ≢ take (min (length bytes.now) (length piece.now)) piece.now }
{
    let count = if bytes.len() < piece.len() {
        bytes.len()
    } else {
        piece.len()
    };
    if bytes[..count] == piece[..count] {
        Some(count)
    } else {
        None
    }
}

/// The content of a chunk of an item of the target, which is the first of `later`, and none where the target's files refuse it.
fn target_content<T: Shelf>(
    target: &mut Repo,
    other: &mut T,
    chunk: &ChunkRef,
    later: &[ChunkRef],
) -> Result<Option<Vec<u8>>, CompareFault>
    requires fits { IfSome (T.told other.old) (λ t. FitsRepo (told_files t) (repo_view target.old) (cached_in target.old)) }
    ensures content { IfOk result (λ found. IfSome found (λ content. IfSome (T.told other.old) (λ t.
        HoldsContent (told_files t) (repo_view target.old).log (repo_view target.old).keys chunk.now content.items))) }
    ensures none { result ≡ Ok None → IfSome (T.told other.old) (λ t. GivesContent (told_files t) (repo_view target.old) chunk.now None) }
    ensures refused { IfErr result IsTargetFault }
    ensures still { IfErr result (λ fault. source_failed fault ≡ false) }
    ensures fits { IfSome (T.told other.new) (λ t. FitsRepo (told_files t) (repo_view target.new) (cached_in target.new)) }
    ensures kept { repo_view target.new ≡ repo_view target.old }
    ensures same { KeepsTold target_failed (T.told other.old) (T.told other.new) result }
    ensures cause { HasCause target_failed (T.faults other.old) (T.faults other.new) result }
{
    match target.content_ahead(other, chunk, later) {
        Ok(content) => Ok(Some(content)),
        Err(fault) => match of_target(fault) {
            Some(fault) => Err(fault),
            None => Ok(None),
        },
    }
}

/// Whether a chunk of an item of the target, which is the first of `later`, has a content of no bytes.
fn is_empty<T: Shelf>(
    target: &mut Repo,
    other: &mut T,
    chunk: &ChunkRef,
    later: &[ChunkRef],
) -> Result<bool, CompareFault>
    requires fits { IfSome (T.told other.old) (λ t. FitsRepo (told_files t) (repo_view target.old) (cached_in target.old)) }
    ensures empty { IfOk result (λ empty. IfSome (T.told other.old) (λ t. HoldsWhere empty
        (HoldsContent (told_files t) (repo_view target.old).log (repo_view target.old).keys chunk.now []))) }
    ensures refused { IfErr result IsTargetFault }
    ensures still { IfErr result (λ fault. source_failed fault ≡ false) }
    ensures fits { IfSome (T.told other.new) (λ t. FitsRepo (told_files t) (repo_view target.new) (cached_in target.new)) }
    ensures kept { repo_view target.new ≡ repo_view target.old }
    ensures same { KeepsTold target_failed (T.told other.old) (T.told other.new) result }
    ensures cause { HasCause target_failed (T.faults other.old) (T.faults other.new) result }
{
    match target_content(target, other, chunk, later)? {
        Some(content) => Ok(content.len() == 0),
        None => Ok(false),
    }
}
