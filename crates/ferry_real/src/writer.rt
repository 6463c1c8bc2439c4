//! A repository's folder as it is written. No fault is counted here.
//!
//! Paths are put together, and lists grow, before the first change of a call, so that a call that answers want of memory has changed
//! nothing.

use crate::appending::{Appending, append_to, is_absent, sync_at, sync_regular};
use crate::folder::Folder;
use crate::removing::{add_path, add_spare, remove_files};
use crate::replacing::replace_file;
use crate::settling::{sync_files, sync_folders};
use crate::stable::{
    make_file, make_folder, make_place, open_to_append, sync_folder, sync_folder_unless,
};
use crate::system::{look_through, of_look};
use ferry_disk::{Name, StoreFault};
use ferry_layout::{Place, file_name, folder_of_path, write_all};
use std::alloc::{AllocError, Global};
use std::fs::OpenFile;
use std::io;
use std::io::ErrorKind;
use std::rt::Runtime;

/// A repository's folder that is written.
#[derive(Drop)]
pub struct Writer<R: Runtime> {
    pub folder: Folder<R>,
    /// The segment that was appended to last, whose file stays open.
    appending: Option<Appending<R>>,
    /// The segments that were made here and whose names in their folders aren't stable yet.
    made: Vec<u64>,
    /// Whether `data` or a folder in it was made, and its name isn't stable yet.
    made_folders: bool,
    /// Whether the repository's folder was made, and its name isn't stable yet.
    made_place: bool,
}

impl<R: Runtime> Writer<R> {
    /// The folder at this path; nothing is looked at yet. It may be a link, and no link in it is followed.
    pub fn new(rt: R, alloc: Global, path: &str) -> Result<Writer<R>, AllocError> {
        let folder = Folder::new(rt, alloc, path, false)?;
        Ok(Writer {
            folder,
            appending: None,
            made: Vec::new(alloc),
            made_folders: false,
            made_place: false,
        })
    }

    /// Forgets what is known of the files, of which a call that failed may have left anything.
    pub fn forget(&mut self) {
        self.appending = None;
        self.folder.close();
        self.folder.found = None;
    }

    /// Appends bytes to a segment, which is made where it is absent.
    pub fn append(&mut self, segment: u64, bytes: &[u8]) -> Result<(), StoreFault> {
        self.open(segment)?;
        let Some(open) = &mut self.appending else {
            return Err(StoreFault::Failed);
        };
        append_to(&self.folder.system, open, bytes)
    }

    /// Opens a segment to append to it, where it isn't the open one, and makes it where it is absent.
    fn open(&mut self, segment: u64) -> Result<(), StoreFault> {
        if let Some(open) = &self.appending
            && open.segment == segment
        {
            return Ok(());
        }
        self.appending = None;
        match self.folder.path_of_segment(segment)? {
            Some(path) => self.open_at(segment, path),
            None => self.make(segment),
        }
    }

    /// Opens the file of a segment at its path.
    fn open_at(&mut self, segment: u64, path: String) -> Result<(), StoreFault> {
        match open_to_append(&self.folder.system, path.as_str()) {
            Ok(file) => {
                self.appending = Some(Appending {
                    segment,
                    path,
                    file,
                });
                Ok(())
            }
            Err(fault) => Err(fault),
        }
    }

    /// Makes a segment at its own place, and the folders that it lies in.
    fn make(&mut self, segment: u64) -> Result<(), StoreFault> {
        let path = self.own_path(segment)?;
        self.prepare(segment, path.as_str())?;
        self.make_at(segment, path)
    }

    /// The path of a segment at its own place.
    fn own_path(&self, segment: u64) -> Result<String, StoreFault> {
        match (&self.folder.place, &self.folder.found) {
            (Some(place), Some(found)) => place.segment(segment, Some(found.own_folder(segment))),
            _ => Err(StoreFault::Failed),
        }
    }

    /// Prepares the making of a segment at its own place, which is this path: it counts as made from now on, and its folders are there.
    fn prepare(&mut self, segment: u64, path: &str) -> Result<(), StoreFault> {
        self.note_made(segment)?;
        self.make_folders(path)
    }

    /// Counts a segment at its own place as made.
    fn note_made(&mut self, segment: u64) -> Result<(), StoreFault> {
        let Some(found) = &mut self.folder.found else {
            return Err(StoreFault::Failed);
        };
        let own = found.own_folder(segment);
        if self.made.push(segment).is_err() || found.add(segment, Some(own)).is_err() {
            return Err(StoreFault::Memory);
        }
        Ok(())
    }

    /// Makes the folders that the path of a segment leads through, where they aren't there.
    fn make_folders(&mut self, path: &str) -> Result<(), StoreFault> {
        let folder = folder_of_path(path);
        self.make_place()?;
        self.make_folder(folder_of_path(folder))?;
        self.make_folder(folder)
    }

    /// Makes the repository's folder, where it isn't there.
    fn make_place(&mut self) -> Result<(), StoreFault> {
        let is_made = self.makes_place()?;
        self.made_place |= is_made;
        Ok(())
    }

    /// Makes the repository's folder, where it isn't there, and answers whether it did.
    fn makes_place(&self) -> Result<bool, StoreFault> {
        match &self.folder.place {
            Some(place) => make_place(&self.folder.system, place.path()),
            None => Err(StoreFault::Failed),
        }
    }

    /// Makes `data` or a folder in it, where it isn't there.
    fn make_folder(&mut self, path: &str) -> Result<(), StoreFault> {
        self.made_folders |= make_folder(&self.folder.system, path)?;
        Ok(())
    }

    /// Makes the file of a segment at its path.
    fn make_at(&mut self, segment: u64, path: String) -> Result<(), StoreFault> {
        match make_file(&self.folder.system, path.as_str()) {
            Ok(file) => {
                self.appending = Some(Appending {
                    segment,
                    path,
                    file,
                });
                Ok(())
            }
            Err(fault) => Err(fault),
        }
    }

    /// Makes a segment stable, its bytes before its name.
    pub fn sync(&mut self, segment: u64) -> Result<(), StoreFault> {
        if !self.sync_open(segment)? {
            self.sync_file_of(segment)?;
        }
        self.sync_name(segment)
    }

    /// Makes the bytes of a segment stable, where its file is the open one, and answers whether it is.
    fn sync_open(&self, segment: u64) -> Result<bool, StoreFault> {
        match &self.appending {
            Some(open) if open.segment == segment => {
                sync_at(&self.folder.system, open)?;
                Ok(true)
            }
            _ => Ok(false),
        }
    }

    /// Makes the bytes of a segment stable whose file isn't open.
    fn sync_file_of(&mut self, segment: u64) -> Result<(), StoreFault> {
        match self.folder.path_of_segment(segment)? {
            Some(path) => sync_regular(&self.folder.system, path.as_str()),
            None => Err(self.absent(segment)),
        }
    }

    /// Makes a segment's name stable, and those of the folders that it lies in, where they were made here.
    fn sync_name(&mut self, segment: u64) -> Result<(), StoreFault> {
        if self.made.contains(&segment) {
            self.sync_folder_of(segment)?;
            self.made.retain(|made| *made != segment);
        }
        if self.made_folders {
            self.sync_made_folders()?;
            self.made_folders = false;
        }
        self.sync_place()
    }

    /// Makes the names in the folder stable that a segment lies in.
    fn sync_folder_of(&mut self, segment: u64) -> Result<(), StoreFault> {
        match self.folder.path_of_segment(segment)? {
            Some(path) => sync_folder(&self.folder.system, folder_of_path(path.as_str())),
            None => Err(self.absent(segment)),
        }
    }

    /// The failure where there is no file of a segment, at whose own place one should be.
    fn absent(&self, segment: u64) -> StoreFault {
        match self.own_path(segment) {
            Ok(path) => is_absent(&self.folder.system, path.as_str()),
            Err(_) => StoreFault::Failed,
        }
    }

    /// Makes the names of `data` and of the folders in it stable.
    fn sync_made_folders(&self) -> Result<(), StoreFault> {
        let Some(place) = &self.folder.place else {
            return Ok(());
        };
        sync_folder(&self.folder.system, place.data()?.as_str())?;
        sync_folder(&self.folder.system, place.path())
    }

    /// Makes the name of the repository's folder stable, where it was made here.
    fn sync_place(&mut self) -> Result<(), StoreFault> {
        if self.made_place {
            self.sync_made_place()?;
            self.made_place = false;
        }
        Ok(())
    }

    /// Makes the name of the repository's folder stable in the one that it lies in.
    fn sync_made_place(&self) -> Result<(), StoreFault> {
        match &self.folder.place {
            Some(place) => sync_folder(&self.folder.system, place.parent()),
            None => Ok(()),
        }
    }

    /// Removes a segment for good: first its files that don't count, so that none of them comes to count, then the one that does.
    pub fn remove(&mut self, segment: u64) -> Result<(), StoreFault> {
        self.remove_files_of(segment)?;
        self.take_out(segment);
        Ok(())
    }

    /// Removes a segment's files, the one that counts last.
    fn remove_files_of(&mut self, segment: u64) -> Result<(), StoreFault> {
        let paths = self.paths_of(segment)?;
        remove_files(&self.folder.system, paths.as_slice())
    }

    /// Closes what is open, and forgets a segment that was removed.
    fn take_out(&mut self, segment: u64) {
        self.appending = None;
        self.folder.close();
        self.made.retain(|made| *made != segment);
        if let Some(found) = &mut self.folder.found {
            found.take_out(segment);
        }
    }

    /// The paths of a segment's files, the one that counts last. That there is none is a failure.
    fn paths_of(&mut self, segment: u64) -> Result<Vec<String>, StoreFault> {
        let Some(folder) = self.folder.folder_of(segment)? else {
            return Err(self.absent(segment));
        };
        let mut paths = Vec::new(self.folder.system.alloc);
        self.add_paths(segment, folder, &mut paths)?;
        Ok(paths)
    }

    /// Adds the paths of a segment's files, where the one that counts lies in this folder of `data`.
    fn add_paths(
        &self,
        segment: u64,
        folder: Option<u64>,
        paths: &mut Vec<String>,
    ) -> Result<(), StoreFault> {
        let (Some(place), Some(found)) = (&self.folder.place, &self.folder.found) else {
            return Ok(());
        };
        add_spare(place, found, segment, paths)?;
        add_path(place, segment, folder, paths)
    }

    /// Replaces a file that is no segment, or makes it.
    pub fn replace(&mut self, name: Name, bytes: &[u8]) -> Result<(), StoreFault> {
        self.replace_file(name, bytes)?;
        self.folder.close();
        if name == Name::Config {
            self.folder.found = None;
        }
        Ok(())
    }

    /// Replaces the file of this name.
    fn replace_file(&mut self, name: Name, bytes: &[u8]) -> Result<(), StoreFault> {
        let (Some(place), Some(word)) = (&self.folder.place, file_name(name)) else {
            return Err(StoreFault::Failed);
        };
        let path = place.path_to(word)?;
        self.replace_at(name, path.as_str(), word, bytes)
    }

    /// Replaces the file at a path, which has this name in the folder.
    fn replace_at(
        &mut self,
        name: Name,
        path: &str,
        word: &str,
        bytes: &[u8],
    ) -> Result<(), StoreFault> {
        let Some(place) = &self.folder.place else {
            return Err(StoreFault::Failed);
        };
        let beside = place.beside(word)?;
        self.replace_by(name, path, beside.as_str(), bytes)
    }

    /// The same by a file at the path beside it.
    fn replace_by(
        &mut self,
        name: Name,
        path: &str,
        beside: &str,
        bytes: &[u8],
    ) -> Result<(), StoreFault> {
        self.make_place()?;
        replace_file(&self.folder.system, name, path, beside, bytes)?;
        self.sync_names()
    }

    /// Makes the names in the repository's folder stable, and its own, where it was made here.
    fn sync_names(&mut self) -> Result<(), StoreFault> {
        self.sync_names_inside()?;
        self.sync_place()
    }

    /// Makes the names in the repository's folder stable.
    fn sync_names_inside(&self) -> Result<(), StoreFault> {
        match &self.folder.place {
            Some(place) => sync_folder(&self.folder.system, place.path()),
            None => Ok(()),
        }
    }

    /// Makes all stable that a read gives: the bytes of files, then the names in folders. Where the folder isn't there, there is nothing.
    pub fn settle(&mut self) -> Result<(), StoreFault> {
        if !self.has_place()? {
            return Ok(());
        }
        self.folder.found = Some(self.folder.list()?);
        self.sync_found()?;
        self.made.clear();
        self.made_folders = false;
        self.made_place = false;
        Ok(())
    }

    /// Whether the repository's folder is there. That it can't be told is a failure.
    fn has_place(&self) -> Result<bool, StoreFault> {
        let Some(place) = &self.folder.place else {
            return Err(StoreFault::Failed);
        };
        match look_through(&self.folder.system, place.path()) {
            Ok(looked) => Ok(looked.is_some()),
            Err(fault) => Err(of_look(fault)),
        }
    }

    /// Makes all stable that was listed.
    fn sync_found(&self) -> Result<(), StoreFault> {
        let (Some(place), Some(found)) = (&self.folder.place, &self.folder.found) else {
            return Ok(());
        };
        sync_files(&self.folder.system, place, found)?;
        sync_folders(&self.folder.system, place, found)?;
        self.sync_parent(place)
    }

    /// Makes the name of the repository's folder stable. A user may be refused to look into the folder that it lies in, as into the one of
    /// all home folders: that is passed over, where it wasn't this run that made the repository's folder.
    fn sync_parent(&self, place: &Place) -> Result<(), StoreFault> {
        if self.made_place {
            sync_folder(&self.folder.system, place.parent())
        } else {
            let reason = ErrorKind::PermissionDenied;
            sync_folder_unless(&self.folder.system, place.parent(), reason)
        }
    }

    /// Writes a line to standard output.
    pub fn tell(&mut self, line: &[u8]) -> Result<(), StoreFault> {
        match write_all(&mut io::writer(&self.folder.system.rt), line) {
            Ok(()) => Ok(()),
            Err(error) => Err(self.folder.system.failed_output(&error)),
        }
    }
}
