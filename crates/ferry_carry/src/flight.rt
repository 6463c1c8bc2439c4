//! One archive, item by item.
ghost use Rattle.std.specs.Prelude.{◌≡◌, ◌≢◌, ◌⊎◌, ℕ, List, Option, None, Ok, [], true, false, IfErr, IfOk, IsSome, MatchResult, OnOk};
ghost use Rattle.ferry_piece.specs.Adding.{AddsOn, BeginsSegments, IsNoChunk, SparesStore};
ghost use Rattle.ferry_carry.specs.Accepting.{NamesNew};
ghost use Rattle.ferry_carry.specs.Flight.{AreRight, FlightFits, FlightStands, TakesTurn, flown_from, FitsComparing, FitsNamed, FitsCopying};
ghost use Rattle.ferry_carry.specs.Flight.{archive_adds, matched_in, met_by};
ghost use Rattle.ferry_piece.specs.Gather.{GathersAt, KeepsStandingAt};
ghost use Rattle.ferry_carry.specs.Naming.{TaggedRecord, TagsDrawn};
ghost use Rattle.ferry_carry.specs.Progress.{IsCopiedSoFar};
ghost use Rattle.ferry_piece.specs.Puts.{Addition, AtBegin};
ghost use Rattle.ferry_piece.specs.Work.{Works};
ghost use Rattle.ferry_compare.specs.Matched.{AreMatched};
ghost use Rattle.ferry_compare.specs.Compare.{FitsTold, Seen, comparison_view, met_behind, seen};
ghost use Rattle.ferry_disk.specs.Device.{Told, heard};
ghost use Rattle.ferry_repo.specs.Archives.{archive_named};
ghost use Rattle.ferry_repo.specs.Opening.{repo_view};
ghost use Rattle.ferry_carry.specs.Calls.{CanWrite, Compares, OnlyAdds, CanCompare};
ghost use Rattle.ferry_carry.specs.States.{source_state, target_state};
ghost use Rattle.ferry_carry.specs.Turns.{OnlyCompares, OnlyReads, DrawsInTurn, ReadsWhere, StopsComparing, StopsTurn, Finds, Turns, CanTurn};

use crate::copy::Copy;
use crate::options::{Carried, Options};
use ferry_base::Bytes;
use ferry_compare::{Compared, Comparison, Matches};
use ferry_disk::{Depot, Entropy, Shelf};
use ferry_manifest::ArchiveRef;
use ferry_piece::{CarryFault, commit_pieces};
use ferry_repo::Repo;
use ferry_store::Store;
use std::alloc::{AllocError, Global};
use std::mem;

/// What one turn of a flight did.
#[derive(Clone, Copy, Debug, PartialEq, Eq)]
pub enum Turn {
    /// It took one further item.
    More,
    /// All items were taken, and the archive, which the target lacked, is committed under its name.
    Named,
    /// All items were compared, and the archive, which was there, is equal.
    Present,
}

/// An archive of the source that is copied into a target, or compared with the one that has its name there, an item a turn.
///
/// It owns copies of what it was begun with. It is used with the source of its begin and the store of its first step.
#[derive(Drop)]
pub struct Flight {
    pub(crate) alloc: Global,
    pub(crate) named: ArchiveRef,
    pub(crate) options: Options,
    work: Work,
    matches: Matches,
    put: Carried,
}

/// What a flight does.
#[derive(Drop)]
pub(crate) enum Work {
    /// No step was taken.
    Waiting,
    /// The archive is copied.
    Copying(Copy),
    /// The archive is compared.
    Comparing(Comparison),
}

impl Work {
    /// Goes on with other work. What was there is dropped by a call, and not part by part as at an assignment.
    fn renew(&mut self, work: Work)
        ensures { self.new ≡ work }
    {
        drop(mem::replace(self, work));
    }
}

impl Flight {
    /// A flight of the archive of a name.
    ///
    /// `NotFound` says that the source has no archive of this name.
    pub fn begin(
        alloc: Global,
        source: &Repo,
        name: &[u8],
        options: &Options,
    ) -> Result<Flight, CarryFault>
        requires options { AreRight options.now }
        ensures flight { IfOk result (λ flight. (told heard : Option Told) (store : Store) (met : Seen)
            → (fits : FlightFits told (repo_view source.now) heard store met flight) × (fits.added ≡ [])) }
        ensures name { IfOk result (λ flight. flight.named.name ≡ name.now) }
        ensures options { IfOk result (λ flight. flight.options ≡ options.now) }
        ensures refused { IfErr result (λ fault. (fault ≡ CarryFault.Memory) ⊎ ((fault ≡ CarryFault.NotFound name.now)
            × (archive_named name.now (repo_view source.now).manifest.archives ≡ None))) }
    {
        let archives = source.manifest().archives.as_slice();
        let Some(named) = entry_named(alloc, archives, name)? else {
            return Err(CarryFault::NotFound(copy_bytes(alloc, name)?));
        };
        Ok(Flight {
            alloc,
            named,
            options: copy_options(alloc, options)?,
            work: Work::Waiting,
            matches: Matches::new(alloc),
            put: Carried::nothing(),
        })
    }

    /// Where its memory is from.
    pub(crate) fn alloc(&self) -> Global {
        self.alloc
    }

    /// The name of the archive.
    pub(crate) fn name(&self) -> &[u8]
        ensures { result.now ≡ self.now.named.name }
    {
        self.named.name.as_slice()
    }

    /// Goes on with the contents that earlier flights found to be the same.
    pub(crate) fn resume(&mut self, matches: Matches)
        ensures resumed { self.new ≡ record self.old { matches = matches } }
    {
        drop(mem::replace(&mut self.matches, matches));
    }

    /// The contents that were found to be the same, where the archive was compared to its end.
    pub(crate) fn take_matches(&mut self) -> Matches
        ensures matches { result ≡ matched_in self.old.work }
    {
        match mem::replace(&mut self.work, Work::Waiting) {
            Work::Comparing(comparison) => comparison.into_matches(),
            Work::Copying(copy) => {
                drop(copy);
                Matches::new(self.alloc)
            }
            Work::Waiting => Matches::new(self.alloc),
        }
    }

    /// Lets what is under way go, where this number isn't 0.
    fn let_go(&mut self, pending: u64)
        ensures kept { pending ≡ 0 → self.new ≡ self.old }
        ensures gone { pending ≢ 0 → matched_in self.new.work ≡ [] }
        ensures others { self.new ≡ record self.old { work = self.new.work } }
    {
        if pending != 0 {
            self.work.renew(Work::Waiting);
        }
    }

    /// The pieces that were put for the archive, once it is named.
    pub(crate) fn put(&self) -> Carried
        ensures { result ≡ self.now.put }
    {
        self.put
    }
}

impl Flight {
    /// Takes one further item, or meets the archive's end.
    ///
    /// A refused step ends the flight; what it added stays in the store. `Taken` says that the target has another archive of this name.
    pub fn step<S: Shelf, D: Depot, E: Entropy>(
        &mut self,
        source: &mut Repo,
        shelf: &mut S,
        store: &mut Store,
        depot: &mut D,
        entropy: &mut E,
    ) -> Result<Turn, CarryFault>
        requires both { CanTurn self.old.options.checkpoint self.old.named.name (source_state (S.told shelf.old) (S.faults shelf.old) source.old)
            (target_state (D.told depot.old) (D.faults depot.old) store.old) }
        requires flight { (met : Seen) × FlightFits (S.told shelf.old) (repo_view source.old) (D.told depot.old) store.old met self.old }
        ensures works { (met : Seen) (fits : FlightFits (S.told shelf.old) (repo_view source.old) (D.told depot.old) store.old met self.old)
            → (more : List Addition) × ((records : List TaggedRecord) × (TakesTurn (seen (S.told shelf.new) (repo_view source.new))
            (flown_from (S.told shelf.old) (repo_view source.old) self.old) (archive_adds self.old.named.name fits.added more records)
            (target_state (D.told depot.old) (D.faults depot.old) store.old) (target_state (D.told depot.new) (D.faults depot.new) store.new)
            (met_by self.old.work met (seen (D.told depot.new) (repo_view store.new.repo))) self.new result × MatchResult result (λ turn. turn ≡ Turn.Named →
            NamesNew self.old.options.timestamp (repo_view source.old) store.old self.old.named records store.new (E.drawn entropy.old)
            (E.drawn entropy.new)) (λ fault. IsNoChunk fault ⊎ TagsDrawn (repo_view store.old.repo).keys more (E.drawn entropy.old)
            (E.drawn entropy.new)))) }
        ensures draws { DrawsInTurn (E.drawn entropy.old) (E.drawn entropy.new) (E.faults entropy.old) (E.faults entropy.new) result }
        ensures turn { Turns self.old self.new (source_state (S.told shelf.old) (S.faults shelf.old) source.old)
            (source_state (S.told shelf.new) (S.faults shelf.new) source.new) (target_state (D.told depot.old) (D.faults depot.old) store.old)
            (target_state (D.told depot.new) (D.faults depot.new) store.new) result }
        ensures refused { (met : Seen) → FlightFits (S.told shelf.old) (repo_view source.old) (D.told depot.old) store.old met self.old
            → IfErr result (StopsTurn (flown_from (S.told shelf.old) (repo_view source.old) self.old) (D.told depot.old) store.old (D.told depot.new)
            store.new (met_by self.old.work met (seen (D.told depot.new) (repo_view store.new.repo))) self.old.named) }
        ensures matched { IfOk result (λ turn. turn ≢ Turn.More → AreMatched (S.told shelf.new) (repo_view source.new) (D.told depot.new)
            (repo_view store.new.repo) (matched_in self.new.work)) }
        ensures reads { ReadsWhere self.old.work (target_state (D.told depot.old) (D.faults depot.old) store.old)
            (target_state (D.told depot.new) (D.faults depot.new) store.new) result }
    {
        match mem::replace(&mut self.work, Work::Waiting) {
            Work::Waiting => self.take_first(source, shelf, store, depot, entropy),
            Work::Copying(copy) => self.copy(source, shelf, store, depot, entropy, copy),
            Work::Comparing(comparison) => { self.compare(source, shelf, store, depot, comparison) }
        }
    }

    /// Begins to copy or to compare, and takes the first item.
    fn take_first<S: Shelf, D: Depot, E: Entropy>(
        &mut self,
        source: &mut Repo,
        shelf: &mut S,
        store: &mut Store,
        depot: &mut D,
        entropy: &mut E,
    ) -> Result<Turn, CarryFault>
        requires both { CanTurn self.old.options.checkpoint self.old.named.name (source_state (S.told shelf.old) (S.faults shelf.old) source.old)
            (target_state (D.told depot.old) (D.faults depot.old) store.old) }
        requires flight { FlightStands (repo_view source.old) self.old }
        requires matched { AreMatched (S.told shelf.old) (repo_view source.old) (D.told depot.old) (repo_view store.old.repo) self.old.matches }
        ensures works { (more : List Addition) × ((records : List TaggedRecord) × (TakesTurn (seen (S.told shelf.new) (repo_view source.new))
            (flown_from (S.told shelf.old) (repo_view source.old) self.old) (archive_adds self.old.named.name [] more records)
            (target_state (D.told depot.old) (D.faults depot.old) store.old) (target_state (D.told depot.new) (D.faults depot.new) store.new)
            (seen (D.told depot.new) (repo_view store.new.repo)) self.new result × MatchResult result (λ turn. turn ≡ Turn.Named →
            NamesNew self.old.options.timestamp (repo_view source.old) store.old self.old.named records store.new (E.drawn entropy.old)
            (E.drawn entropy.new)) (λ fault. IsNoChunk fault ⊎ TagsDrawn (repo_view store.old.repo).keys more (E.drawn entropy.old)
            (E.drawn entropy.new)))) }
        ensures matched { IfOk result (λ turn. turn ≢ Turn.More → AreMatched (S.told shelf.new) (repo_view source.new) (D.told depot.new)
            (repo_view store.new.repo) (matched_in self.new.work)) }
        ensures draws { DrawsInTurn (E.drawn entropy.old) (E.drawn entropy.new) (E.faults entropy.old) (E.faults entropy.new) result }
        ensures turn { Turns self.old self.new (source_state (S.told shelf.old) (S.faults shelf.old) source.old)
            (source_state (S.told shelf.new) (S.faults shelf.new) source.new) (target_state (D.told depot.old) (D.faults depot.old) store.old)
            (target_state (D.told depot.new) (D.faults depot.new) store.new) result }
        ensures refused { IfErr result (StopsTurn (flown_from (S.told shelf.old) (repo_view source.old) self.old) (D.told depot.old) store.old
            (D.told depot.new) store.new (seen (D.told depot.new) (repo_view store.new.repo)) self.old.named) }
    {
        if store.has(self.named.name.as_slice()) {
            let comparison = self.begin_comparing(source, shelf, store, depot)?;
            self.compare(source, shelf, store, depot, comparison)
        } else {
            let copy = Copy::begin(self.alloc, source, shelf, &self.named.id, &self.options)?;
            self.copy(source, shelf, store, depot, entropy, copy)
        }
    }

    /// Copies one further item, or names the archive.
    fn copy<S: Shelf, D: Depot, E: Entropy>(
        &mut self,
        source: &mut Repo,
        shelf: &mut S,
        store: &mut Store,
        depot: &mut D,
        entropy: &mut E,
        copy: Copy,
    ) -> Result<Turn, CarryFault>
        requires both { CanTurn self.old.options.checkpoint self.old.named.name (source_state (S.told shelf.old) (S.faults shelf.old) source.old)
            (target_state (D.told depot.old) (D.faults depot.old) store.old) }
        requires copy { (added : List Addition) × FitsCopying (S.told shelf.old) (repo_view source.old) (D.told depot.old) store.old self.old.named
            self.old.options added copy }
        requires flight { FlightStands (repo_view source.old) self.old }
        ensures works { (added : List Addition) → IsCopiedSoFar (flown_from (S.told shelf.old) (repo_view source.old) self.old) self.old.named
            (D.told depot.old) store.old copy added → (more : List Addition) × ((records : List TaggedRecord) × (TakesTurn (seen (S.told shelf.new)
            (repo_view source.new)) (flown_from (S.told shelf.old) (repo_view source.old) self.old)
            (archive_adds self.old.named.name added more records) (target_state (D.told depot.old) (D.faults depot.old) store.old)
            (target_state (D.told depot.new) (D.faults depot.new) store.new) (seen (D.told depot.new) (repo_view store.new.repo)) self.new result
            × MatchResult result (λ turn. turn ≡ Turn.Named → NamesNew self.old.options.timestamp (repo_view source.old) store.old
            self.old.named records store.new (E.drawn entropy.old) (E.drawn entropy.new)) (λ fault. IsNoChunk fault ⊎ TagsDrawn
            (repo_view store.old.repo).keys more (E.drawn entropy.old) (E.drawn entropy.new)))) }
        ensures matched { IfOk result (λ turn. turn ≢ Turn.More → matched_in self.new.work ≡ []) }
        ensures draws { DrawsInTurn (E.drawn entropy.old) (E.drawn entropy.new) (E.faults entropy.old) (E.faults entropy.new) result }
        ensures turn { Turns self.old self.new (source_state (S.told shelf.old) (S.faults shelf.old) source.old)
            (source_state (S.told shelf.new) (S.faults shelf.new) source.new) (target_state (D.told depot.old) (D.faults depot.old) store.old)
            (target_state (D.told depot.new) (D.faults depot.new) store.new) result }
        ensures refused { IfErr result (StopsTurn (flown_from (S.told shelf.old) (repo_view source.old) self.old) (D.told depot.old) store.old
            (D.told depot.new) store.new (seen (D.told depot.new) (repo_view store.new.repo)) self.old.named) }
    {
        let mut copy = copy;
        match copy.step(source, shelf, store, depot) {
            Ok(true) => {
                self.work.renew(Work::Copying(copy));
                Ok(Turn::More)
            }
            Ok(false) => {
                let put = self.end_copy(&mut copy, source, store, depot, entropy);
                drop(copy);
                self.put = put?;
                self.work.renew(Work::Waiting);
                Ok(Turn::Named)
            }
            Err(fault) => {
                drop(copy);
                Err(fault)
            }
        }
    }

    /// Compares one further item, or answers that the archive is there.
    fn compare<S: Shelf, D: Depot>(
        &mut self,
        source: &mut Repo,
        shelf: &mut S,
        store: &mut Store,
        depot: &mut D,
        comparison: Comparison,
    ) -> Result<Turn, CarryFault>
        requires both { CanTurn self.old.options.checkpoint self.old.named.name (source_state (S.told shelf.old) (S.faults shelf.old) source.old)
            (target_state (D.told depot.old) (D.faults depot.old) store.old) }
        requires comparison { (met : Seen) × FitsComparing (S.told shelf.old) (repo_view source.old) (D.told depot.old) (repo_view store.old.repo)
            met self.old.named.name comparison }
        requires flight { FlightStands (repo_view source.old) self.old }
        ensures works { (met : Seen) → FitsComparing (S.told shelf.old) (repo_view source.old) (D.told depot.old) (repo_view store.old.repo)
            met self.old.named.name comparison → TakesTurn (seen (S.told shelf.new) (repo_view source.new))
            (flown_from (S.told shelf.old) (repo_view source.old) self.old) (archive_adds self.old.named.name [] [] [])
            (target_state (D.told depot.old) (D.faults depot.old) store.old) (target_state (D.told depot.new) (D.faults depot.new) store.new)
            (met_behind (comparison_view comparison).other met (seen (D.told depot.new) (repo_view store.new.repo))) self.new result }
        ensures only { OnlyCompares result }
        ensures matched { IfOk result (λ turn. turn ≢ Turn.More → AreMatched (S.told shelf.new) (repo_view source.new) (D.told depot.new)
            (repo_view store.new.repo) (matched_in self.new.work)) }
        ensures turn { Turns self.old self.new (source_state (S.told shelf.old) (S.faults shelf.old) source.old)
            (source_state (S.told shelf.new) (S.faults shelf.new) source.new) (target_state (D.told depot.old) (D.faults depot.old) store.old)
            (target_state (D.told depot.new) (D.faults depot.new) store.new) result }
        ensures refused { (met : Seen) → FitsComparing (S.told shelf.old) (repo_view source.old) (D.told depot.old) (repo_view store.old.repo)
            met self.old.named.name comparison → IfErr result (StopsTurn (flown_from (S.told shelf.old) (repo_view source.old) self.old)
            (D.told depot.old) store.old (D.told depot.new) store.new
            (met_behind (comparison_view comparison).other met (seen (D.told depot.new) (repo_view store.new.repo))) self.old.named) }
        ensures reads { OnlyReads (target_state (D.told depot.old) (D.faults depot.old) store.old)
            (target_state (D.told depot.new) (D.faults depot.new) store.new) result }
    {
        let mut comparison = comparison;
        let compared = compare_item(source, shelf, store, depot, &mut comparison);
        self.work.renew(Work::Comparing(comparison));
        match compared? {
            Compared::More => Ok(Turn::More),
            Compared::Equal => {
                self.let_go(store.pending());
                present(store, depot)
            }
            Compared::Differs => Err(taken(self.alloc, self.named.name.as_slice())),
        }
    }

    /// Begins to compare.
    #[tactic(auto, using(ferry_piece::proofs::FaultLemmas::conversions))]
    fn begin_comparing<S: Shelf, D: Depot>(
        &mut self,
        source: &mut Repo,
        shelf: &mut S,
        store: &mut Store,
        depot: &mut D,
    ) -> Result<Comparison, CarryFault>
        requires both { CanCompare (source_state (S.told shelf.old) (S.faults shelf.old) source.old)
            (target_state (D.told depot.old) (D.faults depot.old) store.old) }
        requires flight { FlightStands (repo_view source.old) self.old }
        requires matched { AreMatched (S.told shelf.old) (repo_view source.old) (D.told depot.old) (repo_view store.old.repo) self.old.matches }
        requires there { IsSome (archive_named self.old.named.name (repo_view store.old.repo).manifest.archives) }
        ensures works { (most : ℕ) → AddsOn most store.old [] store.new
            (D.told depot.old) (D.told depot.new) (D.faults depot.old) (D.faults depot.new) result }
        ensures comparison { IfOk result (FitsNamed (S.told shelf.new) (repo_view source.new) (D.told depot.new) (repo_view store.new.repo)
            (seen (D.told depot.new) (repo_view store.new.repo)) self.old.named.name) }
        ensures others { self.new ≡ record self.old { matches = self.new.matches } }
        ensures refused { StopsComparing (S.told shelf.old) (repo_view source.old) self.old.named.name result }
        ensures both { Compares (source_state (S.told shelf.old) (S.faults shelf.old) source.old)
            (source_state (S.told shelf.new) (S.faults shelf.new) source.new) (target_state (D.told depot.old) (D.faults depot.old) store.old)
            (target_state (D.told depot.new) (D.faults depot.new) store.new) result }
    {
        let name = self.named.name.as_slice();
        let mut comparison = Comparison::begin(
            self.alloc,
            source,
            shelf,
            store.repo(),
            depot,
            name,
        )?;
        comparison.resume(mem::replace(&mut self.matches, Matches::new(self.alloc)));
        Ok(comparison)
    }
}

/// Compares one further item, and answers what the comparison says.
#[tactic(auto, using(ferry_piece::proofs::FaultLemmas::conversions))]
fn compare_item<S: Shelf, D: Depot>(
    source: &mut Repo,
    shelf: &mut S,
    store: &mut Store,
    depot: &mut D,
    comparison: &mut Comparison,
) -> Result<Compared, CarryFault>
    requires both { CanCompare (source_state (S.told shelf.old) (S.faults shelf.old) source.old)
        (target_state (D.told depot.old) (D.faults depot.old) store.old) }
    requires comparison { (met : Seen) × FitsTold (S.told shelf.old) (repo_view source.old) (D.told depot.old) (repo_view store.old.repo) met
        (comparison_view comparison.old) }
    ensures works { (most : ℕ) → AddsOn most store.old [] store.new
        (D.told depot.old) (D.told depot.new) (D.faults depot.old) (D.faults depot.new) result }
    ensures comparison { (met : Seen) → FitsTold (S.told shelf.old) (repo_view source.old) (D.told depot.old) (repo_view store.old.repo) met
        (comparison_view comparison.old) → result ≡ Ok Compared.More
        → FitsTold (S.told shelf.new) (repo_view source.new) (D.told depot.new) (repo_view store.new.repo)
        (met_behind (comparison_view comparison.old).other met (seen (D.told depot.new) (repo_view store.new.repo))) (comparison_view comparison.new) }
    ensures matched { OnOk result (AreMatched (S.told shelf.new) (repo_view source.new) (D.told depot.new) (repo_view store.new.repo)
        (comparison_view comparison.new).matched) }
    ensures name { (comparison_view comparison.new).name ≡ (comparison_view comparison.old).name }
    ensures found { (met : Seen) → FitsTold (S.told shelf.old) (repo_view source.old) (D.told depot.old) (repo_view store.old.repo) met
        (comparison_view comparison.old) → Finds (S.told shelf.old) (repo_view source.old) (D.told depot.new) (repo_view store.new.repo)
        (met_behind (comparison_view comparison.old).other met (seen (D.told depot.new) (repo_view store.new.repo)))
        (comparison_view comparison.old).name result }
    ensures same { OnOk result (heard (D.told depot.new) ≡ heard (D.told depot.old)) }
    ensures refused { StopsComparing (S.told shelf.old) (repo_view source.old) (comparison_view comparison.old).name result }
    ensures both { Compares (source_state (S.told shelf.old) (S.faults shelf.old) source.old)
        (source_state (S.told shelf.new) (S.faults shelf.new) source.new) (target_state (D.told depot.old) (D.faults depot.old) store.old)
        (target_state (D.told depot.new) (D.faults depot.new) store.new) result }
{
    let compared = comparison.step(source, shelf, store.repo(), depot)?;
    Ok(compared)
}

/// Answers that an archive is there, with nothing pending, so that each stop shows what was compared.
fn present<D: Depot>(store: &mut Store, depot: &mut D) -> Result<Turn, CarryFault>
    requires target { CanWrite (D.told depot.old) store.old }
    ensures works { (most : ℕ) → Works (KeepsStandingAt AtBegin most store.old []) (λ _. GathersAt AtBegin most store.old [] store.new)
        (D.told depot.old) (D.told depot.new) (D.faults depot.old) (D.faults depot.new) result }
    ensures still { store.old.pending ≡ 0 → (store.new ≡ store.old) × (depot.new ≡ depot.old) }
    ensures spent { IfErr result (λ fault. SparesStore fault → ⊥) }
    ensures few { BeginsSegments 1 store.old store.new result }
    ensures present { IfOk result (λ turn. turn ≡ Turn.Present) }
    ensures pending { OnOk result (store.new.pending ≡ 0) }
    ensures target { OnlyAdds store.old (D.told depot.new) store.new result }
{
    if store.pending() == 0 {
        return Ok(Turn::Present);
    }
    commit_pieces(store, depot)?;
    Ok(Turn::Present)
}

/// That a name is taken.
fn taken(alloc: Global, name: &[u8]) -> CarryFault
    ensures taken { (result ≡ CarryFault.Taken name.now) ⊎ (result ≡ CarryFault.Memory) }
{
    match copy_bytes(alloc, name) {
        Ok(name) => CarryFault::Taken(name),
        Err(_) => CarryFault::Memory,
    }
}

/// A copy of bytes.
fn copy_bytes(alloc: Global, bytes: &[u8]) -> Result<Bytes, AllocError>
    ensures bytes { IfOk result (λ copy. copy ≡ bytes.now) }
{
    Ok(Bytes::new(Vec::from_slice(alloc, bytes)?))
}

/// A copy of a time, where there is one.
fn copy_time(alloc: Global, time: &Option<Bytes>) -> Result<Option<Bytes>, AllocError>
    ensures time { IfOk result (λ copy. copy ≡ time.now) }
{
    match time {
        Some(time) => Ok(Some(copy_bytes(alloc, time.as_slice())?)),
        None => Ok(None),
    }
}

/// A copy of how archives are copied.
fn copy_options(alloc: Global, options: &Options) -> Result<Options, AllocError>
    ensures options { IfOk result (λ copy. copy ≡ options.now) }
{
    Ok(Options {
        block: options.block,
        checkpoint: options.checkpoint,
        timestamp: copy_time(alloc, &options.timestamp)?,
    })
}

/// A copy of the entry of a name among these, none where no entry has it.
#[tactic(auto, unfolding(ferry_repo::specs::Archives::archive_named))]
fn entry_named(
    alloc: Global,
    archives: &[ArchiveRef],
    name: &[u8],
) -> Result<Option<ArchiveRef>, AllocError>
    ensures entry { IfOk result (λ entry. entry ≡ archive_named name.now archives.now) }
{
    for place in 0..archives.len() {
        if archives[place].name.as_slice() == name {
            return Ok(Some(copy_entry(alloc, &archives[place])?));
        }
    }
    Ok(None)
}

/// A copy of an entry.
fn copy_entry(alloc: Global, entry: &ArchiveRef) -> Result<ArchiveRef, AllocError>
    ensures entry { IfOk result (λ copy. copy ≡ entry.now) }
{
    let name = copy_bytes(alloc, entry.name.as_slice())?;
    let time = copy_bytes(alloc, entry.time.as_slice())?;
    Ok(ArchiveRef {
        name,
        id: entry.id,
        time,
    })
}
