//! The check of a repository, and what it reports.
ghost use Rattle.std.specs.Prelude.{◌≡◌, Some, false, IfOk, IfErr, IfSome};
ghost use Rattle.ferry_disk.specs.Device.{KeepsTold, HasCause, told_files};
ghost use Rattle.ferry_repo.specs.Fault.{repo_failed, IsOfFiles};
ghost use Rattle.ferry_repo.specs.Opening.{repo_view, cached_in, FitsRepo};
ghost use Rattle.ferry_check.specs.Report.{AreChunks, Counts, IsReport};
ghost use Rattle.ferry_check.specs.Verify.{FirstBad};
ghost use Rattle.ferry_check.specs.Steps.{CountsRest};

use crate::archive::{archive_count, check_archives};
use crate::chunks::{chunk_ids, open_chunks};
use crate::marks::count_unused;
use ferry_base::Id;
use ferry_disk::Shelf;
use ferry_repo::{Repo, RepoFault};
use std::alloc::Global;

/// What a check reports.
#[derive(Clone, Copy, Debug, PartialEq, Eq)]
pub struct Report {
    /// How many archives the manifest has.
    pub archives: u64,
    /// How many chunks are live; the manifest is none.
    pub chunks: u64,
    /// How many live chunks no archive uses, as its record, in its stream or as a content; 0 where there is a fault.
    pub orphans: u64,
    /// How many archives have a record without an authentication tag; 0 where there is a fault.
    pub untagged: u64,
    /// The first fault.
    pub bad: Option<RepoFault>,
}

/// What is counted where there is no fault.
#[derive(Clone, Copy)]
struct Tally {
    orphans: u64,
    untagged: u64,
}

/// Opens every live chunk in byte order of ids, and then reads every archive in byte order of names with all its contents.
///
/// Each content is opened once, and its length kept; after that records and pieces of item streams alone are opened again. A
/// refusal is `Device` or `Memory`, and any other fault is reported.
///
/// Source: BorgBackup 1.2, Internals, Repository, and "Data structures and file formats", Archives.
pub fn check<S: Shelf>(alloc: Global, repo: &mut Repo, shelf: &mut S) -> Result<Report, RepoFault>
    requires fits { IfSome (S.told shelf.old) (λ t. FitsRepo (told_files t) (repo_view repo.old) (cached_in repo.old)) }
    ensures report { IfOk result (λ report. IfSome (S.told shelf.old) (λ t.
        IsReport (told_files t) (repo_view repo.old) report)) }
    ensures counts { IfOk result (λ report. Counts (repo_view repo.old) report) }
    ensures of_files { IfOk result (λ report. IfSome report.bad IsOfFiles) }
    ensures refused { IfErr result (λ fault. IsOfFiles fault → ⊥) }
    ensures fits { IfSome (S.told shelf.new) (λ t. FitsRepo (told_files t) (repo_view repo.new) (cached_in repo.new)) }
    ensures kept { repo_view repo.new ≡ repo_view repo.old }
    ensures same { KeepsTold repo_failed (S.told shelf.old) (S.told shelf.new) result }
    ensures cause { HasCause repo_failed (S.faults shelf.old) (S.faults shelf.new) result }
{
    let ids = chunk_ids(alloc, repo.log())?;
    let archives = archive_count(repo) as u64;
    let chunks = ids.len() as u64;
    match examine(alloc, repo, shelf, &ids) {
        Ok(tally) => Ok(Report {
            archives,
            chunks,
            orphans: tally.orphans,
            untagged: tally.untagged,
            bad: None,
        }),
        Err(fault) => bad_report(archives, chunks, fault),
    }
}

/// The report of a fault, unless it is the device's or want of memory.
fn bad_report(archives: u64, chunks: u64, fault: RepoFault) -> Result<Report, RepoFault>
    ensures report { IfOk result (λ report. report
        ≡ record { archives = archives; chunks = chunks; orphans = 0; untagged = 0; bad = Some fault }) }
    ensures of_files { IfOk result (λ _. IsOfFiles fault) }
    ensures still { IfOk result (λ _. repo_failed fault ≡ false) }
    ensures fault { IfErr result (λ f. f ≡ fault) }
    ensures refused { IfErr result (λ f. IsOfFiles f → ⊥) }
{
    match fault {
        RepoFault::Device => Err(RepoFault::Device),
        RepoFault::Memory => Err(RepoFault::Memory),
        fault => Ok(Report {
            archives,
            chunks,
            orphans: 0,
            untagged: 0,
            bad: Some(fault),
        }),
    }
}

/// Opens these chunks, which are all live ones, and reads the archives.
fn examine<S: Shelf>(
    alloc: Global,
    repo: &mut Repo,
    shelf: &mut S,
    ids: &[Id],
) -> Result<Tally, RepoFault>
    requires fits { IfSome (S.told shelf.old) (λ t. FitsRepo (told_files t) (repo_view repo.old) (cached_in repo.old)) }
    requires all { AreChunks (repo_view repo.old).log ids.now }
    ensures rest { IfOk result (λ tally. IfSome (S.told shelf.old) (λ t.
        CountsRest (told_files t) (repo_view repo.old) ids.now tally)) }
    ensures refused { IfErr result (λ fault. IsOfFiles fault → IfSome (S.told shelf.old) (λ t.
        FirstBad (told_files t) (repo_view repo.old) fault)) }
    ensures fits { IfSome (S.told shelf.new) (λ t. FitsRepo (told_files t) (repo_view repo.new) (cached_in repo.new)) }
    ensures kept { repo_view repo.new ≡ repo_view repo.old }
    ensures same { KeepsTold repo_failed (S.told shelf.old) (S.told shelf.new) result }
    ensures cause { HasCause repo_failed (S.faults shelf.old) (S.faults shelf.new) result }
{
    let mut chunks = open_chunks(alloc, repo, shelf, ids)?;
    let untagged = check_archives(alloc, repo, shelf, &mut chunks)?;
    Ok(Tally {
        orphans: count_unused(ids, &chunks),
        untagged,
    })
}
