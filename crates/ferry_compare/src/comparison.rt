//! The comparison of two archives of one name.
ghost use Rattle.std.specs.Prelude.{◌≡◌, [], Ok, None, false, option_map, OnOk, IfOk, IfErr, IfSome, IsSome};
ghost use Rattle.ferry_disk.specs.Device.{KeepsTold, HasCause, told_files};
ghost use Rattle.ferry_item.specs.Item.{item_view};
ghost use Rattle.ferry_repo.specs.Archives.{archive_named};
ghost use Rattle.ferry_repo.specs.Opening.{repo_view, cached_in, FitsRepo};
ghost use Rattle.ferry_repo.specs.Walk.{walk_view};
ghost use Rattle.ferry_compare.specs.Compare.{comparison_view, Seen, seen, met_behind, FitsTold, AreEqual, Differ};
ghost use Rattle.ferry_compare.specs.Fault.{source_failed, target_failed, IsTargetFault, RefusesTarget};
ghost use Rattle.ferry_compare.specs.Matched.{AreMatched};
ghost use Rattle.ferry_compare.specs.Steps.{EndsBeside, GoesOn, RefusesSource, RefusesItem, TakesItem, WalksBeside, kept_where};

use crate::ahead::step_ahead;
use crate::beginning::{keep_side, open_side, open_target, walk_of};
use crate::contents::{read_content, same_item};
use crate::fault::CompareFault;
use crate::items::{ends_beside, next_beside};
use crate::matches::Matches;
use ferry_disk::Shelf;
use ferry_item::Item;
use ferry_repo::{Repo, Walk};
use std::alloc::Global;

/// A comparison of the archives that two repositories have under one name. It is used with the repositories on which it was begun, and
/// their shelves.
#[derive(Drop)]
pub struct Comparison {
    alloc: Global,
    name: Vec<u8>,
    walk: Walk,
    other: Option<Walk>,
    matches: Matches,
}

/// What a step of a comparison answers.
#[derive(Clone, Copy, Debug, PartialEq, Eq)]
pub enum Compared {
    /// One more item of the source was taken.
    More,
    /// The source's archive ended, and the target's says the same.
    Equal,
    /// The source's archive ended, and the target's doesn't say the same.
    Differs,
}

impl Comparison {
    /// Begins to compare the archives of a name: reads both records, and compares the times in the manifests and the fields of the records.
    ///
    /// A record of the target that is refused is a difference, which `step` answers once the source's archive has ended.
    ///
    /// Source: BorgBackup 1.2, Internals, "Data structures and file formats", Archives.
    #[tactic(auto, using(crate::proofs::FaultLemmas::conversions))]
    pub fn begin<S: Shelf, T: Shelf>(
        alloc: Global,
        source: &mut Repo,
        shelf: &mut S,
        target: &mut Repo,
        other: &mut T,
        name: &[u8],
    ) -> Result<Comparison, CompareFault>
        requires source_fits { IfSome (S.told shelf.old) (λ t. FitsRepo (told_files t) (repo_view source.old) (cached_in source.old)) }
        requires target_fits { IfSome (T.told other.old) (λ t. FitsRepo (told_files t) (repo_view target.old) (cached_in target.old)) }
        requires named { IsSome (archive_named name.now (repo_view source.old).manifest.archives) }
        requires target_named { IsSome (archive_named name.now (repo_view target.old).manifest.archives) }
        ensures fits { IfOk result (λ comparison. FitsTold (S.told shelf.new) (repo_view source.new) (T.told other.new) (repo_view target.new)
            (seen (T.told other.new) (repo_view target.new)) (comparison_view comparison)) }
        ensures name { IfOk result (λ comparison. (comparison_view comparison).name ≡ name.now) }
        ensures new { IfOk result (λ comparison. (comparison_view comparison).matched ≡ []) }
        ensures refused_source { IfErr result (RefusesSource (S.told shelf.old) (repo_view source.old) name.now) }
        ensures refused_target { IfErr result RefusesTarget }
        ensures source_fits { IfSome (S.told shelf.new) (λ t. FitsRepo (told_files t) (repo_view source.new) (cached_in source.new)) }
        ensures target_fits { IfSome (T.told other.new) (λ t. FitsRepo (told_files t) (repo_view target.new) (cached_in target.new)) }
        ensures kept { repo_view source.new ≡ repo_view source.old }
        ensures target_kept { repo_view target.new ≡ repo_view target.old }
        ensures same { KeepsTold source_failed (S.told shelf.old) (S.told shelf.new) result }
        ensures target_same { KeepsTold target_failed (T.told other.old) (T.told other.new) result }
        ensures cause { HasCause source_failed (S.faults shelf.old) (S.faults shelf.new) result }
        ensures target_cause { HasCause target_failed (T.faults other.old) (T.faults other.new) result }
    {
        let owned = Vec::from_slice(alloc, name)?;
        let first = open_side(source, shelf, name)?;
        match open_target(target, other, name) {
            Ok(second) => {
                let beside = keep_side(source, target, name, &first, second);
                Ok(Comparison {
                    alloc,
                    name: owned,
                    walk: walk_of(first),
                    other: beside,
                    matches: Matches::new(alloc),
                })
            }
            Err(fault) => {
                drop(first);
                Err(fault)
            }
        }
    }

    /// Goes on with the contents that earlier comparisons of the same repositories found to be the same.
    pub fn resume(&mut self, matches: Matches)
        ensures resumed { comparison_view self.new ≡ record (comparison_view self.old) { matched = matches } }
    {
        self.matches = matches;
    }

    /// The contents that were found to be the same, for a comparison of other archives of the same repositories.
    pub fn into_matches(self) -> Matches
        ensures matched { result ≡ (comparison_view self).matched }
    {
        self.matches
    }

    /// Takes one more item of the source with its content, and compares that of the target beside it; or meets the end of the source's archive.
    ///
    /// Once a difference was met, the target is read no more, and the source on to its end, so that a fault of the source comes before a
    /// difference. Contents are compared piece by piece: at most one chunk of either side is in memory besides those that the repositories
    /// keep. Both read contents ahead. A content that was found to be the same isn't read again.
    ///
    /// Source: BorgBackup 1.2, Internals, "Data structures and file formats", Archives.
    #[tactic(auto, using(crate::proofs::FaultLemmas::conversions))]
    pub fn step<S: Shelf, T: Shelf>(
        &mut self,
        source: &mut Repo,
        shelf: &mut S,
        target: &mut Repo,
        other: &mut T,
    ) -> Result<Compared, CompareFault>
        requires source_fits { IfSome (S.told shelf.old) (λ t. FitsRepo (told_files t) (repo_view source.old) (cached_in source.old)) }
        requires target_fits { IfSome (T.told other.old) (λ t. FitsRepo (told_files t) (repo_view target.old) (cached_in target.old)) }
        requires fits { (met : Seen) × FitsTold (S.told shelf.old) (repo_view source.old) (T.told other.old) (repo_view target.old) met
            (comparison_view self.old) }
        ensures fits { (met : Seen) → FitsTold (S.told shelf.old) (repo_view source.old) (T.told other.old) (repo_view target.old) met
            (comparison_view self.old) → result ≡ Ok Compared.More
            → FitsTold (S.told shelf.new) (repo_view source.new) (T.told other.new) (repo_view target.new)
            (met_behind (comparison_view self.old).other met (seen (T.told other.new) (repo_view target.new))) (comparison_view self.new) }
        ensures more { result ≡ Ok Compared.More → IfSome (S.told shelf.old) (λ t.
            GoesOn (told_files t) (repo_view source.old) (comparison_view self.old).walk (comparison_view self.new).walk) }
        ensures name { (comparison_view self.new).name ≡ (comparison_view self.old).name }
        ensures matched { OnOk result (AreMatched (S.told shelf.new) (repo_view source.new) (T.told other.new) (repo_view target.new)
            (comparison_view self.new).matched) }
        // Once a difference was met, the target is read no more.
        ensures unread { (comparison_view self.old).other ≡ None → (other.new ≡ other.old) × ((comparison_view self.new).other ≡ None) }
        ensures equal { result ≡ Ok Compared.Equal → AreEqual (S.told shelf.old) (repo_view source.old) (T.told other.old) (repo_view target.old)
            (comparison_view self.old).name }
        ensures differs { (met : Seen) → FitsTold (S.told shelf.old) (repo_view source.old) (T.told other.old) (repo_view target.old) met
            (comparison_view self.old) → result ≡ Ok Compared.Differs
            → (let then = met_behind (comparison_view self.old).other met (seen (T.told other.old) (repo_view target.old)) in
            Differ (S.told shelf.old) (repo_view source.old) then.told then.repo (comparison_view self.old).name) }
        ensures refused_source { IfErr result (RefusesSource (S.told shelf.old) (repo_view source.old) (comparison_view self.old).name) }
        ensures refused_target { IfErr result RefusesTarget }
        ensures source_fits { IfSome (S.told shelf.new) (λ t. FitsRepo (told_files t) (repo_view source.new) (cached_in source.new)) }
        ensures target_fits { IfSome (T.told other.new) (λ t. FitsRepo (told_files t) (repo_view target.new) (cached_in target.new)) }
        ensures kept { repo_view source.new ≡ repo_view source.old }
        ensures target_kept { repo_view target.new ≡ repo_view target.old }
        ensures same { KeepsTold source_failed (S.told shelf.old) (S.told shelf.new) result }
        ensures target_same { KeepsTold target_failed (T.told other.old) (T.told other.new) result }
        ensures cause { HasCause source_failed (S.faults shelf.old) (S.faults shelf.new) result }
        ensures target_cause { HasCause target_failed (T.faults other.old) (T.faults other.new) result }
    {
        match step_ahead(&mut self.walk, source, shelf)? {
            Some(item) => {
                take(
                    self.alloc,
                    source,
                    shelf,
                    target,
                    other,
                    &item,
                    &mut self.other,
                    &mut self.matches,
                )?;
                Ok(Compared::More)
            }
            None => finish(target, other, &mut self.other),
        }
    }
}

/// Reads the content of an item of the source, and compares the next item of the target with it. The target's walk isn't kept where that
/// isn't the same.
#[tactic(auto, using(crate::proofs::FaultLemmas::conversions))]
fn take<S: Shelf, T: Shelf>(
    alloc: Global,
    source: &mut Repo,
    shelf: &mut S,
    target: &mut Repo,
    other: &mut T,
    item: &Item,
    walk: &mut Option<Walk>,
    matches: &mut Matches,
) -> Result<(), CompareFault>
    requires source_fits { IfSome (S.told shelf.old) (λ t. FitsRepo (told_files t) (repo_view source.old) (cached_in source.old)) }
    requires target_fits { IfSome (T.told other.old) (λ t. FitsRepo (told_files t) (repo_view target.old) (cached_in target.old)) }
    requires walk_fits { IfSome (T.told other.old) (λ t. WalksBeside (told_files t) (repo_view target.old) (option_map walk_view walk.old)) }
    requires matched { AreMatched (S.told shelf.old) (repo_view source.old) (T.told other.old) (repo_view target.old) matches.old }
    ensures takes { OnOk result (TakesItem (S.told shelf.old) (repo_view source.old) (T.told other.old) (repo_view target.old)
        (item_view item.now) (option_map walk_view walk.old) (option_map walk_view walk.new)) }
    ensures matched { OnOk result (AreMatched (S.told shelf.new) (repo_view source.new) (T.told other.new) (repo_view target.new) matches.new) }
    ensures unread { option_map walk_view walk.old ≡ None → (other.new ≡ other.old) × (option_map walk_view walk.new ≡ None) }
    ensures refused { IfErr result (RefusesItem (S.told shelf.old) (repo_view source.old) (item_view item.now).chunks) }
    ensures refused_target { IfErr result RefusesTarget }
    ensures source_fits { IfSome (S.told shelf.new) (λ t. FitsRepo (told_files t) (repo_view source.new) (cached_in source.new)) }
    ensures target_fits { IfSome (T.told other.new) (λ t. FitsRepo (told_files t) (repo_view target.new) (cached_in target.new)) }
    ensures kept { repo_view source.new ≡ repo_view source.old }
    ensures target_kept { repo_view target.new ≡ repo_view target.old }
    ensures same { KeepsTold source_failed (S.told shelf.old) (S.told shelf.new) result }
    ensures target_same { KeepsTold target_failed (T.told other.old) (T.told other.new) result }
    ensures cause { HasCause source_failed (S.faults shelf.old) (S.faults shelf.new) result }
    ensures target_cause { HasCause target_failed (T.faults other.old) (T.faults other.new) result }
{
    match next_beside(walk, target, other)? {
        Some(beside) => {
            let compared = same_item(alloc, source, shelf, target, other, item, &beside, matches);
            drop(beside);
            keep_where(compared?, walk);
            Ok(())
        }
        None => {
            *walk = None;
            read_content(source, shelf, &item.chunks)
        }
    }
}

/// Keeps a walk, where the test holds.
fn keep_where(test: bool, walk: &mut Option<Walk>)
    ensures kept { option_map walk_view walk.new ≡ kept_where test (option_map walk_view walk.old) }
{
    if !test {
        *walk = None;
    }
}

/// What is answered at the end of the source's archive.
fn finish<T: Shelf>(
    target: &mut Repo,
    other: &mut T,
    walk: &mut Option<Walk>,
) -> Result<Compared, CompareFault>
    requires fits { IfSome (T.told other.old) (λ t. FitsRepo (told_files t) (repo_view target.old) (cached_in target.old)) }
    requires walk_fits { IfSome (T.told other.old) (λ t. WalksBeside (told_files t) (repo_view target.old) (option_map walk_view walk.old)) }
    ensures more { result ≡ Ok Compared.More → ⊥ }
    ensures equal { result ≡ Ok Compared.Equal → IfSome (T.told other.old) (λ t.
        EndsBeside (told_files t) (repo_view target.old) (option_map walk_view walk.old)) }
    ensures differs { result ≡ Ok Compared.Differs → IfSome (T.told other.old) (λ t.
        EndsBeside (told_files t) (repo_view target.old) (option_map walk_view walk.old) → ⊥) }
    ensures unread { option_map walk_view walk.old ≡ None → (other.new ≡ other.old) × (option_map walk_view walk.new ≡ None) }
    ensures refused { IfErr result IsTargetFault }
    ensures still { IfErr result (λ fault. source_failed fault ≡ false) }
    ensures fits { IfSome (T.told other.new) (λ t. FitsRepo (told_files t) (repo_view target.new) (cached_in target.new)) }
    ensures kept { repo_view target.new ≡ repo_view target.old }
    ensures same { KeepsTold target_failed (T.told other.old) (T.told other.new) result }
    ensures cause { HasCause target_failed (T.faults other.old) (T.faults other.new) result }
{
    match ends_beside(walk, target, other) {
        Ok(true) => Ok(Compared::Equal),
        Ok(false) => Ok(Compared::Differs),
        Err(fault) => Err(fault),
    }
}
