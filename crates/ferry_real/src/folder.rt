//! A repository's folder, whose files are read where they lie. No fault is counted here.
ghost use Rattle.std.specs.Prelude.{◌≤◌, length, IfOk};
ghost use Rattle.std.specs.List.Sorted.{IsStrictlyIncreasing};

use crate::failure::Word;
use crate::opened::{Opened, make_room, place_of};
use crate::small::{SmallFault, read_small};
use crate::system::{System, length_of};
use crate::walk::walk;
use ferry_config::{ConfigFault, read_config};
use ferry_disk::{Name, StoreFault};
use ferry_layout::{Listing, Place, file_name, numbers, read_file_at};
use std::alloc::{AllocError, Global};
use std::fs;
use std::fs::File;
use std::io::ErrorKind;
use std::num::NonZeroU64;
use std::rt::Runtime;

/// How many segments a folder of `data` holds, where the repository's settings don't read.
/// Source: BorgBackup 1.2, Internals, Repository.
const SEGMENTS_PER_FOLDER: u64 = 1000;

/// How many bytes `config` may have, which is read as a whole, and without a key. Borg's has less than 1000.
const CONFIG_LIMIT: u64 = 1 << 20;

/// What is in the way where it has more.
const TOO_LARGE: Word = Word::Text("is larger than 1 MiB");

/// Whether there is anything at a repository's place.
#[derive(Clone, Copy, Debug, PartialEq, Eq)]
pub enum Presence {
    /// Something is there, or it can't be told.
    There,
    /// Nothing is there.
    Absent,
    /// The word stands for no folder.
    Unnamed,
}

/// A repository's folder.
#[derive(Drop)]
pub struct Folder<R: Runtime> {
    pub system: System<R>,
    /// The folder's place, `None` where the word stands for no folder.
    pub place: Option<Place>,
    /// What lies below `data`, `None` before it was listed.
    pub found: Option<Listing>,
    /// The files that were read, which stay open until others are.
    opened: Vec<Opened<R>>,
}

impl<R: Runtime> Folder<R> {
    /// The folder at this path; nothing is looked at yet. The word `-` and an empty path name no folder.
    pub fn new(
        rt: R,
        alloc: Global,
        path: &str,
        follows_links: bool,
    ) -> Result<Folder<R>, AllocError> {
        let place = Place::named(alloc, path)?;
        Ok(Folder {
            system: System::new(rt, alloc, follows_links),
            place,
            found: None,
            opened: Vec::new(alloc),
        })
    }

    /// Whether the folder is there now. Nothing in it is looked at.
    pub fn presence(&self) -> Presence {
        let Some(place) = &self.place else {
            return Presence::Unnamed;
        };
        match fs::metadata(&self.system.rt, place.path()) {
            Err(error) if error.kind() == ErrorKind::NotFound => Presence::Absent,
            _ => Presence::There,
        }
    }

    /// The numbers of the segments that are there now, increasing.
    pub fn segments(&mut self, alloc: Global) -> Result<Vec<u64>, StoreFault>
        ensures increasing { IfOk result (λ numbers. IsStrictlyIncreasing numbers.items) }
    {
        self.close();
        let found = self.list()?;
        let listed = numbers(alloc, &found.places);
        self.found = Some(found);
        match listed {
            Ok(numbers) => Ok(numbers),
            Err(_) => Err(StoreFault::Memory),
        }
    }

    /// A file's length in bytes, `None` where it is absent.
    pub fn size(&mut self, name: Name) -> Result<Option<u64>, StoreFault> {
        match self.path_of(name)? {
            Some(path) => bounded_length(&self.system, name, path.as_str()),
            None => Ok(None),
        }
    }

    /// Fills the front of `into` from byte `at` of a file on, and answers how many bytes it got.
    pub fn read_at(&mut self, name: Name, at: u64, into: &mut [u8]) -> Result<usize, StoreFault>
        ensures within { IfOk result (λ count. count ≤ length into.old) }
    {
        let place = self.open(name)?;
        match self.opened.get_mut(place) {
            Some(opened) => read_opened(&self.system, opened, at, into),
            None => Ok(0),
        }
    }

    /// Opens a file, where it isn't open, and answers its place among those that are open: one behind all of
    /// them where the file is absent.
    fn open(&mut self, name: Name) -> Result<usize, StoreFault> {
        let place = place_of(&self.opened, name);
        if place < self.opened.len() {
            return Ok(place);
        }
        match self.path_of(name)? {
            Some(path) => self.open_at(name, path),
            None => Ok(self.opened.len()),
        }
    }

    /// Opens a file at its path, where it is there.
    fn open_at(&mut self, name: Name, path: String) -> Result<usize, StoreFault> {
        match open_to_read(&self.system, name, path.as_str()) {
            Ok(Some(file)) => self.keep(Opened { name, path, file }),
            Ok(None) => Ok(self.opened.len()),
            Err(fault) => Err(fault),
        }
    }

    /// Keeps a file open, and answers its place.
    fn keep(&mut self, opened: Opened<R>) -> Result<usize, StoreFault> {
        make_room(&mut self.opened);
        match self.opened.push(opened) {
            Ok(()) => Ok(self.opened.len().saturating_sub(1)),
            Err(_) => Err(StoreFault::Memory),
        }
    }

    /// Closes the files that were read, which may be others from now on.
    pub fn close(&mut self) {
        self.opened.clear();
    }

    /// Where a file lies. `None` where there is no folder, or no segment of that number in it.
    fn path_of(&mut self, name: Name) -> Result<Option<String>, StoreFault> {
        match name {
            Name::Segment(number) => self.path_of_segment(number),
            _ => match (&self.place, file_name(name)) {
                (Some(place), Some(name)) => Ok(Some(place.path_to(name)?)),
                _ => Ok(None),
            },
        }
    }

    /// Where a segment's file lies, `None` where there is none.
    pub fn path_of_segment(&mut self, number: u64) -> Result<Option<String>, StoreFault> {
        match self.folder_of(number)? {
            Some(folder) => self.path_in(number, folder),
            None => Ok(None),
        }
    }

    /// The path of a segment in this folder of `data`, `None` being `data` itself.
    fn path_in(&self, number: u64, folder: Option<u64>) -> Result<Option<String>, StoreFault> {
        match &self.place {
            Some(place) => Ok(Some(place.segment(number, folder)?)),
            None => Ok(None),
        }
    }

    /// The folder of `data` that a segment's file lies in, where there is one. What lies below `data` is listed first, where it was
    /// not.
    pub fn folder_of(&mut self, number: u64) -> Result<Option<Option<u64>>, StoreFault> {
        if self.found.is_none() {
            self.found = Some(self.list()?);
        }
        match &self.found {
            Some(found) => Ok(found.folder_of(number)),
            None => Ok(None),
        }
    }

    /// Finds the segments that are there.
    pub fn list(&self) -> Result<Listing, StoreFault> {
        let mut found = Listing::new(self.system.alloc, self.per_folder()?);
        if let Some(place) = &self.place {
            walk(&self.system, place, &mut found)?;
        }
        Ok(found)
    }

    /// How many segments a folder of `data` holds.
    fn per_folder(&self) -> Result<NonZeroU64, StoreFault> {
        let number = self.said_per_folder()?.unwrap_or(SEGMENTS_PER_FOLDER);
        Ok(NonZeroU64::new(number).unwrap_or(NonZeroU64::MIN))
    }

    /// The same as `config` says it, `None` where there is none or it doesn't read.
    fn said_per_folder(&self) -> Result<Option<u64>, StoreFault> {
        let Some(place) = &self.place else {
            return Ok(None);
        };
        let path = place.path_to("config")?;
        per_folder_in(&self.system, path.as_str())
    }
}

/// How many segments a folder holds by the file at a path, `None` where it isn't there or doesn't read as
/// `config`.
fn per_folder_in<R: Runtime>(system: &System<R>, path: &str) -> Result<Option<u64>, StoreFault> {
    match length_of(system, path)? {
        Some(_) => read_per_folder(system, path),
        None => Ok(None),
    }
}

/// The same of a file that is there.
fn read_per_folder<R: Runtime>(system: &System<R>, path: &str) -> Result<Option<u64>, StoreFault> {
    match read_small(&system.rt, system.alloc, path, CONFIG_LIMIT) {
        Ok(text) => per_folder_of(system.alloc, text.as_slice()),
        Err(SmallFault::Absent) | Err(SmallFault::NotFile) => Ok(None),
        Err(SmallFault::TooLarge) => Err(system.refused(path, TOO_LARGE)),
        Err(SmallFault::Unreadable(word)) => Err(system.refused(path, word)),
        Err(SmallFault::Memory) => Err(StoreFault::Memory),
    }
}

/// How many segments a folder holds by the text of `config`, `None` where it doesn't read.
fn per_folder_of(alloc: Global, text: &[u8]) -> Result<Option<u64>, StoreFault> {
    match read_config(alloc, text) {
        Ok(config) => Ok(Some(config.per_dir)),
        Err(ConfigFault::Memory) => Err(StoreFault::Memory),
        Err(_) => Ok(None),
    }
}

/// The length of the file of this name at a path, which for `config` has a bound.
fn bounded_length<R: Runtime>(
    system: &System<R>,
    name: Name,
    path: &str,
) -> Result<Option<u64>, StoreFault> {
    match length_of(system, path)? {
        Some(length) if name == Name::Config && length > CONFIG_LIMIT => {
            Err(system.refused(path, TOO_LARGE))
        }
        length => Ok(length),
    }
}

/// Opens the file of this name at a path to read it, where a regular file is there.
fn open_to_read<R: Runtime>(
    system: &System<R>,
    name: Name,
    path: &str,
) -> Result<Option<R::File>, StoreFault> {
    if bounded_length(system, name, path)?.is_none() {
        return Ok(None);
    }
    match File::open(&system.rt, path) {
        Ok(file) => Ok(Some(file)),
        Err(error) if error.kind() == ErrorKind::NotFound => Ok(None),
        Err(error) => Err(system.unread(path, &error)),
    }
}

/// Fills the front of `into` from byte `at` of an open file on, and answers how many bytes it got.
fn read_opened<R: Runtime>(
    system: &System<R>,
    opened: &mut Opened<R>,
    at: u64,
    into: &mut [u8],
) -> Result<usize, StoreFault>
    ensures within { IfOk result (λ count. count ≤ length into.old) }
{
    match read_file_at(&mut opened.file, at, into) {
        Ok(count) => Ok(count),
        Err(error) => Err(system.unread(opened.path.as_str(), &error)),
    }
}
