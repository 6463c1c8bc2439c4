//! Files in memory.
ghost use Rattle.std.specs.Prelude.{◌≡◌, ◌+◌, ◌-◌, ◌++◌, ℕ, min, map, length, take, drop, IfOk, OnOk, OnErr, option_map, unwrap_or, []};
ghost use Rattle.std.specs.Ordering.{nat_cmp};
ghost use Rattle.std.specs.List.Sorted.{IsStrictlyIncreasing};
ghost use Rattle.std.specs.BTreeMap.{keys, IsOrdered};
ghost use Rattle.ferry_disk.specs.Act.{stepped, replaced, AppendTo};
ghost use Rattle.ferry_disk.specs.Acts.{step_of};
ghost use Rattle.ferry_disk.specs.Files.{no_files, file_at, with_file, without_segment, segment_numbers};
ghost use Rattle.ferry_disk.specs.Memory.{files_of, files_given};

use crate::act::Kind;
use crate::name::Name;
use std::alloc::{AllocError, Global};
use std::collections::BTreeMap;

/// The files of a repository, their bytes in memory.
#[derive(Drop)]
pub(crate) struct MemoryFiles {
    pub config: Option<Vec<u8>>,
    pub nonce: Option<Vec<u8>>,
    pub readme: Option<Vec<u8>>,
    pub segments: BTreeMap<u64, Vec<u8>>,
}

impl MemoryFiles {
    /// No files.
    pub fn new(alloc: Global) -> MemoryFiles
        ensures { files_of result ≡ no_files }
    {
        MemoryFiles {
            config: None,
            nonce: None,
            readme: None,
            segments: BTreeMap::new(alloc),
        }
    }

    /// The files of a list.
    pub fn of(alloc: Global, files: Vec<(Name, Vec<u8>)>) -> Result<MemoryFiles, AllocError>
        ensures { IfOk result (λ all. files_of all ≡ files_given (map (λ e. (e.0, e.1.items)) files.items)) }
    {
        let mut all = MemoryFiles::new(alloc);
        for (name, bytes) in files {
            all.put(name, bytes)?;
        }
        Ok(all)
    }

    /// Puts a file in the place of what had its name. At an error nothing has changed.
    pub fn put(&mut self, name: Name, bytes: Vec<u8>) -> Result<(), AllocError>
        ensures ok { OnOk result (files_of self.new ≡ with_file (files_of self.old) name bytes.items) }
        ensures err { OnErr result (files_of self.new ≡ files_of self.old) }
    {
        match name {
            Name::Config => self.config = Some(bytes),
            Name::Nonce => self.nonce = Some(bytes),
            Name::Readme => self.readme = Some(bytes),
            Name::Segment(number) => {
                self.segments.insert(number, bytes)?;
            }
        }
        Ok(())
    }

    /// Appends bytes to a segment in its place, which is created where it is absent. At an error nothing has changed.
    pub fn append(&mut self, alloc: Global, segment: u64, bytes: &[u8]) -> Result<(), AllocError>
        ensures ok { OnOk result (files_of self.new ≡ stepped (files_of self.old) (AppendTo segment bytes.now)) }
        ensures err { OnErr result (files_of self.new ≡ files_of self.old) }
    {
        if let Some(stored) = self.segments.get_mut(&segment) {
            return stored.extend_from_slice(bytes);
        }
        let copy = Vec::from_slice(alloc, bytes)?;
        self.put(Name::Segment(segment), copy)
    }

    /// Does to the files what an act does where it is done. At an error nothing has changed.
    pub fn carry_out(&mut self, alloc: Global, kind: &Kind) -> Result<(), AllocError>
        ensures ok { OnOk result (files_of self.new ≡ stepped (files_of self.old) (step_of kind.now)) }
        ensures err { OnErr result (files_of self.new ≡ files_of self.old) }
    {
        match kind {
            Kind::Append(segment, bytes) => self.append(alloc, *segment, bytes),
            Kind::Replace(name, bytes) => self.replace(alloc, *name, bytes),
            Kind::Remove(segment) => {
                self.remove(*segment);
                Ok(())
            }
            Kind::Sync(_) | Kind::Settle | Kind::Tell(_) => Ok(()),
        }
    }

    /// Replaces a file that is no segment; a segment isn't replaced. At an error nothing has changed.
    fn replace(&mut self, alloc: Global, name: Name, bytes: &[u8]) -> Result<(), AllocError>
        ensures ok { OnOk result (files_of self.new ≡ replaced (files_of self.old) name bytes.now) }
        ensures err { OnErr result (files_of self.new ≡ files_of self.old) }
    {
        if matches!(name, Name::Segment(_)) {
            return Ok(());
        }
        let copy = Vec::from_slice(alloc, bytes)?;
        self.put(name, copy)
    }

    /// Takes a segment out.
    pub fn remove(&mut self, segment: u64)
        ensures { files_of self.new ≡ without_segment (files_of self.old) segment }
    {
        self.segments.remove(&segment);
    }

    /// The same files in memory of their own.
    pub fn copy(&self, alloc: Global) -> Result<MemoryFiles, AllocError>
        ensures { IfOk result (λ files. files_of files ≡ files_of self.now) }
    {
        let config = copy_of(alloc, &self.config)?;
        let nonce = copy_of(alloc, &self.nonce)?;
        let readme = copy_of(alloc, &self.readme)?;
        let segments = self.segments.clone()?;
        Ok(MemoryFiles {
            config,
            nonce,
            readme,
            segments,
        })
    }

    /// A file's bytes.
    pub fn get(&self, name: Name) -> Option<&Vec<u8>>
        ensures { option_map (λ v. v.now.items) result ≡ file_at (files_of self.now) name }
    {
        match name {
            Name::Config => self.config.as_ref(),
            Name::Nonce => self.nonce.as_ref(),
            Name::Readme => self.readme.as_ref(),
            Name::Segment(number) => self.segments.get(&number),
        }
    }

    /// The numbers of the segments, increasing.
    pub fn numbers(&self, alloc: Global) -> Result<Vec<u64>, AllocError>
        ensures numbers { IfOk result (λ numbers. numbers.items ≡ segment_numbers (files_of self.now)) }
        ensures increasing { IfOk result (λ numbers. IsStrictlyIncreasing numbers.items) }
    {
        keys_of(alloc, &self.segments)
    }
}

/// A file's bytes in memory of their own.
pub(crate) fn copy_of(alloc: Global, file: &Option<Vec<u8>>) -> Result<Option<Vec<u8>>, AllocError>
    ensures { IfOk result (λ copy. option_map (λ v. v.items) copy ≡ option_map (λ v. v.items) file.now) }
{
    match file {
        Some(bytes) => Ok(Some(Vec::from_slice(alloc, bytes)?)),
        None => Ok(None),
    }
}

/// The keys of a map, in order.
fn keys_of(alloc: Global, map: &BTreeMap<u64, Vec<u8>>) -> Result<Vec<u64>, AllocError>
    ensures keys { IfOk result (λ numbers. numbers.items ≡ keys map.now) }
    ensures ordered { IsOrdered nat_cmp map.now }
{
    map.keys().copied().collect(alloc)
}

/// Copies bytes from `at` on to the front of `into`, and answers how many.
pub(crate) fn copy_from(bytes: &[u8], at: u64, into: &mut [u8]) -> usize
    ensures count { result ≡ min (length into.old) (length bytes.now - at) }
    ensures copied { into.new ≡ take result (drop at bytes.now) ++ drop result into.old }
{
    let Ok(start) = usize::try_from(at) else {
        return 0;
    };
    let start = start.min(bytes.len());
    let rest = &bytes[start..];
    let count = rest.len().min(into.len());
    into[..count].copy_from_slice(&rest[..count]);
    count
}
