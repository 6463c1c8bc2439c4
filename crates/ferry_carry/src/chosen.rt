//! The chosen archives, one after another.
ghost use Rattle.std.specs.Prelude.{◌≡◌, ◌⊎◌, ◌++◌, ℕ, List, [], ◌∷◌, None, Some};
ghost use Rattle.std.specs.Prelude.{Err, true, false, slice_get, IfErr, IfOk, IfSome, IsSome, MatchResult, OnOk};
ghost use Rattle.ferry_carry.specs.Chosen.{IsMissingName, TellsLine};
ghost use Rattle.ferry_carry.specs.Counting.{TellsNew, nothing_carried};
ghost use Rattle.ferry_carry.specs.Flight.{AreRight, FlightFits, TakesAll, flown_from, matched_in, origin_of, archive_adds};
ghost use Rattle.ferry_carry.specs.Lines.{name_line, told_of};
ghost use Rattle.ferry_carry.specs.Naming.{TaggedRecord, TagsDrawn};
ghost use Rattle.ferry_piece.specs.Adding.{IsNoChunk};
ghost use Rattle.ferry_piece.specs.Puts.{Addition};
ghost use Rattle.ferry_carry.specs.Refusals.{RefusesName, RefusesNames, RefusesOne, WhereTold};
ghost use Rattle.ferry_carry.specs.Telling.{AcceptsNames, Reports, ReportsWhole};
ghost use Rattle.ferry_piece.specs.Work.{Works};
ghost use Rattle.ferry_compare.specs.Compare.{seen};
ghost use Rattle.ferry_compare.specs.Matched.{AreMatched};
ghost use Rattle.ferry_disk.specs.Act.{TellOf};
ghost use Rattle.ferry_repo.specs.Archives.{archive_named};
ghost use Rattle.ferry_repo.specs.Opening.{repo_view};
ghost use Rattle.ferry_store.specs.Commit.{accepted_in};
ghost use Rattle.ferry_store.specs.State.{IsStep};
ghost use Rattle.ferry_store.specs.Store.{StoreFits};
ghost use Rattle.ferry_carry.specs.Calls.{OnlyTells, CarriesFrom, CanCarryFrom};
ghost use Rattle.ferry_carry.specs.States.{drawn_from, source_state, target_state};
ghost use Rattle.ferry_carry.specs.Turns.{StopsName, StopsFlight, StopsNames};

use crate::flight::{Flight, Turn};
use crate::lines::{name_line, total_line};
use crate::options::{Carried, Options};
use ferry_base::Bytes;
use ferry_compare::Matches;
use ferry_disk::{Depot, Entropy, Shelf};
use ferry_piece::CarryFault;
use ferry_repo::Repo;
use ferry_store::Store;
use std::alloc::Global;
use std::mem;

/// The place of the first of these names that no archive of the repository has.
pub fn missing_name(repo: &Repo, names: &[Bytes]) -> Option<usize>
    ensures missing { IfSome result (λ place. IsMissingName (repo_view repo.now).manifest names.now place) }
    ensures found { result ≡ None → (place : ℕ) (name : List ℕ) → slice_get names.now place ≡ Some name
        → IsSome (archive_named name (repo_view repo.now).manifest.archives) }
{
    for place in 0..names.len() {
        if repo.record_id(names[place].as_slice()).is_none() {
            return Some(place);
        }
    }
    None
}

/// Copies the archives of these names, in this order, those that the target lacks, and compares the others; tells each, and at the end the
/// numbers of all.
///
/// `NotFound` has the first name that the source lacks; nothing is done then. `Taken` has a name that the target has with another archive.
pub fn carry<S: Shelf, D: Depot, E: Entropy>(
    alloc: Global,
    source: &mut Repo,
    shelf: &mut S,
    store: &mut Store,
    depot: &mut D,
    entropy: &mut E,
    names: &[Bytes],
    options: &Options,
) -> Result<Carried, CarryFault>
    requires both { CanCarryFrom options.now.checkpoint (source_state (S.told shelf.old) (S.faults shelf.old) source.old)
        (target_state (D.told depot.old) (D.faults depot.old) store.old) }
    requires options { AreRight options.now }
    ensures works { ReportsWhole (origin_of (S.told shelf.old) (repo_view source.old) options.now) names.now
        (target_state (D.told depot.old) (D.faults depot.old) store.old) (target_state (D.told depot.new) (D.faults depot.new) store.new)
        (drawn_from (E.drawn entropy.old) (E.drawn entropy.new)) result }
    ensures refused { IfErr result (RefusesNames (origin_of (S.told shelf.old) (repo_view source.old) options.now)
        (D.told depot.old) store.old (D.told depot.new) store.new names.now) }
    ensures stops { IfErr result (StopsNames (origin_of (S.told shelf.old) (repo_view source.old) options.now) names.now store.old (D.told
        depot.old) (D.told depot.new) (E.drawn entropy.old) (E.drawn entropy.new)) }
    // Where a name is missing that is answered, but for want of memory, and nothing is done.
    ensures missing { ((place : ℕ) (name : List ℕ) → slice_get names.now place ≡ Some name
        → archive_named name (repo_view source.old).manifest.archives ≡ None
        → (result ≡ Err CarryFault.Memory) ⊎ ((missing : List ℕ) × (result ≡ Err (CarryFault.NotFound missing))))
        × ((missing : List ℕ) → result ≡ Err (CarryFault.NotFound missing) → (source.new ≡ source.old) × (shelf.new ≡ shelf.old)
        × (store.new ≡ store.old) × (depot.new ≡ depot.old) × (entropy.new ≡ entropy.old)) }
    ensures both { CarriesFrom options.now.checkpoint (source_state (S.told shelf.old) (S.faults shelf.old) source.old)
        (source_state (S.told shelf.new) (S.faults shelf.new) source.new) (target_state (D.told depot.old) (D.faults depot.old) store.old)
        (target_state (D.told depot.new) (D.faults depot.new) store.new) (E.faults entropy.old) (E.faults entropy.new) result }
{
    if let Some(place) = missing_name(source, names) {
        let name = Vec::from_slice(alloc, names[place].as_slice())?;
        return Err(CarryFault::NotFound(Bytes::new(name)));
    }
    let mut carried = Carried::nothing();
    let mut matches = Matches::new(alloc);
    let order = Order {
        alloc,
        names,
        options,
    };
    order.carry_all(
        source,
        shelf,
        store,
        depot,
        entropy,
        &mut carried,
        &mut matches,
    )?;
    let line = total_line(alloc, &carried)?;
    tell(store, depot, &line)?;
    Ok(carried)
}

/// What is to be carried: the archives of these names, and how they are copied.
#[derive(Clone, Copy)]
struct Order<'a> {
    alloc: Global,
    names: &'a [Bytes],
    options: &'a Options,
}

impl Order<'_> {
    /// Copies or compares the archives of these names, one after another, and counts them from none on.
    fn carry_all<S: Shelf, D: Depot, E: Entropy>(
        &self,
        source: &mut Repo,
        shelf: &mut S,
        store: &mut Store,
        depot: &mut D,
        entropy: &mut E,
        carried: &mut Carried,
        matches: &mut Matches,
    ) -> Result<(), CarryFault>
        requires both { CanCarryFrom self.now.options.now.checkpoint (source_state (S.told shelf.old) (S.faults shelf.old) source.old)
            (target_state (D.told depot.old) (D.faults depot.old) store.old) }
        requires options { AreRight self.now.options.now }
        requires uncounted { carried.old ≡ nothing_carried }
        requires matched { AreMatched (S.told shelf.old) (repo_view source.old) (D.told depot.old) (repo_view store.old.repo) matches.old }
        ensures works { Reports (origin_of (S.told shelf.old) (repo_view source.old) self.now.options.now) self.now.names.now
            (target_state (D.told depot.old) (D.faults depot.old) store.old) (target_state (D.told depot.new) (D.faults depot.new) store.new) carried.old
            carried.new (drawn_from (E.drawn entropy.old) (E.drawn entropy.new)) result }
        ensures refused { IfErr result (RefusesOne (origin_of (S.told shelf.old) (repo_view source.old) self.now.options.now)
            (D.told depot.old) store.old (D.told depot.new) store.new self.now.names.now) }
        ensures stops { IfErr result (StopsNames (origin_of (S.told shelf.old) (repo_view source.old) self.now.options.now) self.now.names.now store.old (D.told
            depot.old) (D.told depot.new) (E.drawn entropy.old) (E.drawn entropy.new)) }
        ensures both { CarriesFrom self.now.options.now.checkpoint (source_state (S.told shelf.old) (S.faults shelf.old) source.old)
            (source_state (S.told shelf.new) (S.faults shelf.new) source.new) (target_state (D.told depot.old) (D.faults depot.old) store.old)
            (target_state (D.told depot.new) (D.faults depot.new) store.new) (E.faults entropy.old) (E.faults entropy.new) result }
    {
        for place in 0..self.names.len() {
            let name = self.names[place].as_slice();
            let single = Single {
                alloc: self.alloc,
                name,
                options: self.options,
            };
            single.carry_one(source, shelf, store, depot, entropy, carried, matches)?;
        }
        Ok(())
    }
}

/// The same of the archive of one name.
#[derive(Clone, Copy)]
struct Single<'a> {
    alloc: Global,
    name: &'a [u8],
    options: &'a Options,
}

impl Single<'_> {
    /// Copies or compares the archive of one name, tells it, and counts what was done.
    fn carry_one<S: Shelf, D: Depot, E: Entropy>(
        &self,
        source: &mut Repo,
        shelf: &mut S,
        store: &mut Store,
        depot: &mut D,
        entropy: &mut E,
        carried: &mut Carried,
        matches: &mut Matches,
    ) -> Result<(), CarryFault>
        requires both { CanCarryFrom self.now.options.now.checkpoint (source_state (S.told shelf.old) (S.faults shelf.old) source.old)
            (target_state (D.told depot.old) (D.faults depot.old) store.old) }
        requires options { AreRight self.now.options.now }
        requires matched { AreMatched (S.told shelf.old) (repo_view source.old) (D.told depot.old) (repo_view store.old.repo) matches.old }
        ensures matched { OnOk result (AreMatched (S.told shelf.new) (repo_view source.new) (D.told depot.new) (repo_view store.new.repo) matches.new) }
        ensures works { Reports (origin_of (S.told shelf.old) (repo_view source.old) self.now.options.now) (self.now.name.now ∷ [])
            (target_state (D.told depot.old) (D.faults depot.old) store.old) (target_state (D.told depot.new) (D.faults depot.new) store.new) carried.old
            carried.new (drawn_from (E.drawn entropy.old) (E.drawn entropy.new)) result }
        ensures refused { IfErr result (RefusesName (origin_of (S.told shelf.old) (repo_view source.old) self.now.options.now)
            (D.told depot.old) store.old (D.told depot.new) store.new self.now.name.now) }
        ensures stops { IfErr result (StopsName (origin_of (S.told shelf.old) (repo_view source.old) self.now.options.now) self.now.name.now store.old (D.told
            depot.old) (D.told depot.new) (E.drawn entropy.old) (E.drawn entropy.new)) }
        ensures both { CarriesFrom 0 (source_state (S.told shelf.old) (S.faults shelf.old) source.old)
            (source_state (S.told shelf.new) (S.faults shelf.new) source.new) (target_state (D.told depot.old) (D.faults depot.old) store.old)
            (target_state (D.told depot.new) (D.faults depot.new) store.new) (E.faults entropy.old) (E.faults entropy.new) result }
    {
        let mut flight = Flight::begin(self.alloc, source, self.name, self.options)?;
        flight.resume(mem::replace(matches, Matches::new(self.alloc)));
        let done = flight.complete(source, shelf, store, depot, entropy, carried);
        drop(mem::replace(matches, flight.take_matches()));
        // By a call: at a scope's end each of its parts would have to be gone through here.
        drop(flight);
        done
    }
}

impl Flight {
    /// Takes a flight to its end, tells the archive of its name, and counts what was done.
    fn complete<S: Shelf, D: Depot, E: Entropy>(
        &mut self,
        source: &mut Repo,
        shelf: &mut S,
        store: &mut Store,
        depot: &mut D,
        entropy: &mut E,
        carried: &mut Carried,
    ) -> Result<(), CarryFault>
        requires both { CanCarryFrom self.old.options.checkpoint (source_state (S.told shelf.old) (S.faults shelf.old) source.old)
            (target_state (D.told depot.old) (D.faults depot.old) store.old) }
        requires flight { (fits : FlightFits (S.told shelf.old) (repo_view source.old) (D.told depot.old) store.old
            (seen (D.told depot.old) (repo_view store.old.repo)) self.old) × (fits.added ≡ []) }
        ensures works { Reports (flown_from (S.told shelf.old) (repo_view source.old) self.old) (self.old.named.name ∷ [])
            (target_state (D.told depot.old) (D.faults depot.old) store.old) (target_state (D.told depot.new) (D.faults depot.new) store.new) carried.old
            carried.new (drawn_from (E.drawn entropy.old) (E.drawn entropy.new)) result }
        ensures matched { OnOk result (AreMatched (S.told shelf.new) (repo_view source.new) (D.told depot.new) (repo_view store.new.repo)
            (matched_in self.new.work)) }
        ensures refused { IfErr result (RefusesName (flown_from (S.told shelf.old) (repo_view source.old) self.old) (D.told depot.old) store.old
            (D.told depot.new) store.new self.old.named.name) }
        ensures stops { IfErr result (StopsName (flown_from (S.told shelf.old) (repo_view source.old) self.old) self.old.named.name store.old
            (D.told depot.old) (D.told depot.new) (E.drawn entropy.old) (E.drawn entropy.new)) }
        ensures both { CarriesFrom 0 (source_state (S.told shelf.old) (S.faults shelf.old) source.old)
            (source_state (S.told shelf.new) (S.faults shelf.new) source.new) (target_state (D.told depot.old) (D.faults depot.old) store.old)
            (target_state (D.told depot.new) (D.faults depot.new) store.new) (E.faults entropy.old) (E.faults entropy.new) result }
    {
        let named = fly(self, source, shelf, store, depot, entropy)?;
        tell_name(self.alloc(), store, depot, named, self.name())?;
        carried.count(named, &self.put());
        Ok(())
    }
}

/// Takes the steps of a flight to its end, and answers whether the archive is new in the target.
fn fly<S: Shelf, D: Depot, E: Entropy>(
    flight: &mut Flight,
    source: &mut Repo,
    shelf: &mut S,
    store: &mut Store,
    depot: &mut D,
    entropy: &mut E,
) -> Result<bool, CarryFault>
    requires both { CanCarryFrom flight.old.options.checkpoint (source_state (S.told shelf.old) (S.faults shelf.old) source.old)
        (target_state (D.told depot.old) (D.faults depot.old) store.old) }
    requires flight { FlightFits (S.told shelf.old) (repo_view source.old) (D.told depot.old) store.old (seen (D.told depot.old) (repo_view store.old.repo))
        flight.old }
    ensures works { (fits : FlightFits (S.told shelf.old) (repo_view source.old) (D.told depot.old) store.old
        (seen (D.told depot.old) (repo_view store.old.repo)) flight.old) → (more : List Addition) × ((records : List TaggedRecord) ×
        (TakesAll (flown_from (S.told shelf.old) (repo_view source.old) flight.old)
        (archive_adds flight.old.named.name fits.added more records) (target_state (D.told depot.old) (D.faults depot.old) store.old)
        (target_state (D.told depot.new) (D.faults depot.new) store.new) flight.new result × MatchResult result (λ _. AcceptsNames
        (flown_from (S.told shelf.old) (repo_view source.old) flight.old) (flight.old.named.name ∷ []) records store.old store.new
        (E.drawn entropy.old) (E.drawn entropy.new)) (λ fault. IsNoChunk fault ⊎ WhereTold
        (flown_from (S.told shelf.old) (repo_view source.old) flight.old) (D.told depot.old) (λ _. TagsDrawn (repo_view store.old.repo).keys
        (fits.added ++ more) (E.drawn entropy.old) (E.drawn entropy.new))))) }
    ensures matched { OnOk result (AreMatched (S.told shelf.new) (repo_view source.new) (D.told depot.new) (repo_view store.new.repo)
        (matched_in flight.new.work)) }
    ensures word { IfOk result (λ copied. TellsNew (accepted_in store.old) [] flight.old.named.name copied) }
    ensures name { OnOk result (flight.new.named ≡ flight.old.named) }
    ensures refused { IfErr result (StopsFlight (flown_from (S.told shelf.old) (repo_view source.old) flight.old) (D.told depot.old) store.old
        (D.told depot.new) store.new flight.old.named.name) }
    ensures both { CarriesFrom 0 (source_state (S.told shelf.old) (S.faults shelf.old) source.old)
        (source_state (S.told shelf.new) (S.faults shelf.new) source.new) (target_state (D.told depot.old) (D.faults depot.old) store.old)
        (target_state (D.told depot.new) (D.faults depot.new) store.new) (E.faults entropy.old) (E.faults entropy.new) result }
{
    for _ in 0..u64::MAX {
        match flight.step(source, shelf, store, depot, entropy)? {
            Turn::More => {}
            Turn::Named => return Ok(true),
            Turn::Present => return Ok(false),
        }
    }
    Err(CarryFault::Memory)
}

/// Tells what was done with the archive of a name.
fn tell_name<D: Depot>(
    alloc: Global,
    store: &Store,
    depot: &mut D,
    named: bool,
    name: &[u8],
) -> Result<(), CarryFault>
    requires fits { IfSome (D.told depot.old) (λ t. StoreFits false store.now t.history) }
    ensures works { Works (IsStep (TellOf (name_line (told_of named) name.now))) (λ _. TellsLine (name_line (told_of named) name.now))
        (D.told depot.old) (D.told depot.new) (D.faults depot.old) (D.faults depot.new) result }
    ensures target { OnlyTells store.now (D.told depot.new) result }
{
    let line = name_line(alloc, what_of(named), name)?;
    tell(store, depot, &line)
}

/// What is told of an archive that was copied, and of one that was there.
fn what_of(copied: bool) -> &'static [u8]
    ensures what { result.now ≡ told_of copied }
{
    if copied { b"transferred " } else { b"present " }
}

/// Tells a line. The store is the one that writes the depot.
fn tell<D: Depot>(store: &Store, depot: &mut D, line: &[u8]) -> Result<(), CarryFault>
    requires fits { IfSome (D.told depot.old) (λ t. StoreFits false store.now t.history) }
    ensures works { Works (IsStep (TellOf line.now)) (λ _. TellsLine line.now)
        (D.told depot.old) (D.told depot.new) (D.faults depot.old) (D.faults depot.new) result }
    ensures target { OnlyTells store.now (D.told depot.new) result }
{
    depot.tell(line)?;
    Ok(())
}
