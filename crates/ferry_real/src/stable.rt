//! What the system does to make files, folders and their names stable.

use crate::failure::Word;
use crate::system::{IS_LINK, System, look, look_through, of_look};
use ferry_disk::StoreFault;
use ferry_layout::parent_of_path;
use std::fs;
use std::fs::{DirBuilder, File, Metadata, OpenFile, OpenOptions, Permissions};
use std::io::{Error, ErrorKind};
use std::os::unix::fs::{DirBuilderExt, MetadataExt, OpenOptionsExt, PermissionsExt};
use std::rt::Runtime;

/// Who may read and write the files that are made: their owner alone, as where Borg makes them, since `config` holds the key.
const FILE_MODE: u32 = 0o600;

/// The same of folders.
pub const FOLDER_MODE: u32 = 0o700;

/// The bits of a mode that say who may do what.
const ALL_MODES: u32 = 0o7777;

/// Makes a file stable as it is.
pub fn sync_file<R: Runtime>(system: &System<R>, path: &str) -> Result<(), StoreFault> {
    match File::open(&system.rt, path) {
        Ok(file) => synced(system, path, &file),
        Err(error) => Err(system.failed(path, &error)),
    }
}

/// Makes an open file stable as it is.
pub fn synced<R: Runtime, F: OpenFile>(
    system: &System<R>,
    path: &str,
    file: &F,
) -> Result<(), StoreFault> {
    match file.sync_all() {
        Ok(()) => Ok(()),
        Err(error) => Err(system.failed(path, &error)),
    }
}

/// Makes the names in a folder stable.
pub fn sync_folder<R: Runtime>(system: &System<R>, path: &str) -> Result<(), StoreFault> {
    match File::open(&system.rt, path) {
        Ok(folder) => sync_names(system, path, &folder),
        Err(error) => Err(system.failed(path, &error)),
    }
}

/// Makes the names in a folder stable, where the system doesn't refuse to open it for this reason.
pub fn sync_folder_unless<R: Runtime>(
    system: &System<R>,
    path: &str,
    reason: ErrorKind,
) -> Result<(), StoreFault> {
    match File::open(&system.rt, path) {
        Ok(folder) => sync_names(system, path, &folder),
        Err(error) if error.kind() == reason => Ok(()),
        Err(error) => Err(system.failed(path, &error)),
    }
}

/// Makes the names in an open folder stable. Some file systems over a network know no sync of a folder, and answer that the call isn't
/// valid; Borg passes that over too, and no other answer.
fn sync_names<R: Runtime, F: OpenFile>(
    system: &System<R>,
    path: &str,
    folder: &F,
) -> Result<(), StoreFault> {
    match folder.sync_all() {
        Ok(()) => Ok(()),
        Err(error) if error.kind() == ErrorKind::InvalidInput => Ok(()),
        Err(error) => Err(system.failed(path, &error)),
    }
}

/// Makes the folder in which all of a device lies, where it isn't there, and answers whether it did. It may
/// be a link.
pub fn make_place<R: Runtime>(system: &System<R>, path: &str) -> Result<bool, StoreFault> {
    let looked = look_through(system, path);
    make_where_absent(system, path, looked)
}

/// Makes a folder in it, where it isn't there, and answers whether it did.
pub fn make_folder<R: Runtime>(system: &System<R>, path: &str) -> Result<bool, StoreFault> {
    let looked = look(system, path);
    make_where_absent(system, path, looked)
}

/// Makes a folder where a look has found nothing. What it couldn't tell isn't taken for nothing.
fn make_where_absent<R: Runtime>(
    system: &System<R>,
    path: &str,
    looked: Result<Option<Metadata>, StoreFault>,
) -> Result<bool, StoreFault> {
    match looked {
        Ok(Some(metadata)) if metadata.is_dir() => Ok(false),
        Ok(Some(_)) => Err(system.refused(path, Word::Text("isn't a folder"))),
        Ok(None) => create_folder(system, path),
        Err(fault) => Err(of_look(fault)),
    }
}

/// Makes a folder. Where the one that it would lie in isn't there, that one is what failed.
fn create_folder<R: Runtime>(system: &System<R>, path: &str) -> Result<bool, StoreFault> {
    match DirBuilder::new().mode(FOLDER_MODE).create(&system.rt, path) {
        Ok(()) => Ok(true),
        Err(error) if error.kind() == ErrorKind::NotFound => {
            Err(system.failed(parent_of_path(path), &error))
        }
        Err(error) => Err(not_created(system, path, &error)),
    }
}

/// The failure of a folder that wasn't made. Where nothing was found and its name is taken all the same, a
/// link has it.
fn not_created<R: Runtime>(system: &System<R>, path: &str, error: &Error) -> StoreFault {
    match fs::symlink_metadata(&system.rt, path) {
        Ok(metadata) if metadata.is_symlink() => {
            system.refused(path, Word::Text("is a link that leads nowhere"))
        }
        _ => system.failed(path, error),
    }
}

/// Makes a file that is appended to. Where anything has its name, a link too, that fails.
pub fn make_file<R: Runtime>(system: &System<R>, path: &str) -> Result<R::File, StoreFault> {
    let mut options = OpenOptions::new();
    options.append(true).create_new(true).mode(FILE_MODE);
    match options.open(&system.rt, path) {
        Ok(file) => Ok(file),
        Err(error) => Err(system.failed(path, &error)),
    }
}

/// Opens a file to append to it. What isn't a regular file, a link too, isn't opened.
pub fn open_to_append<R: Runtime>(system: &System<R>, path: &str) -> Result<R::File, StoreFault> {
    match fs::symlink_metadata(&system.rt, path) {
        Ok(metadata) if metadata.is_file() => open_at_end(system, path),
        Ok(metadata) if metadata.is_symlink() => Err(system.refused(path, Word::Text(IS_LINK))),
        Ok(_) => Err(not_file(system, path)),
        Err(error) => Err(system.failed(path, &error)),
    }
}

/// Opens a file that is there to append to it.
fn open_at_end<R: Runtime>(system: &System<R>, path: &str) -> Result<R::File, StoreFault> {
    let mut options = OpenOptions::new();
    options.append(true);
    match options.open(&system.rt, path) {
        Ok(file) => Ok(file),
        Err(error) => Err(system.failed(path, &error)),
    }
}

/// The failure of what isn't a regular file.
pub fn not_file<R: Runtime>(system: &System<R>, path: &str) -> StoreFault {
    system.refused(path, Word::Text("isn't a regular file"))
}

/// Fails where an open file isn't the one at its path any more.
pub fn stays_at<R: Runtime>(
    system: &System<R>,
    file: &R::File,
    path: &str,
) -> Result<(), StoreFault> {
    match is_at(&system.rt, file, path) {
        Ok(true) => Ok(()),
        Ok(false) => Err(system.refused(path, Word::Text("was replaced"))),
        Err(error) => Err(system.failed(path, &error)),
    }
}

/// Whether an open file is the one at a path.
fn is_at<R: Runtime>(rt: &R, file: &R::File, path: &str) -> Result<bool, Error> {
    let open = file.metadata()?;
    let named = fs::symlink_metadata(rt, path)?;
    Ok(open.dev() == named.dev() && open.ino() == named.ino())
}

/// Removes what is left of an earlier file of this name, where there is one.
pub fn remove_if_there<R: Runtime>(system: &System<R>, path: &str) -> Result<(), StoreFault> {
    match fs::remove_file(&system.rt, path) {
        Ok(()) => Ok(()),
        Err(error) if error.kind() == ErrorKind::NotFound => Ok(()),
        Err(error) => Err(system.failed(path, &error)),
    }
}

/// The bits of these by which users may read and write a file as one that is at a path, `None` where nothing
/// is there.
pub fn mode_at<R: Runtime>(
    system: &System<R>,
    path: &str,
    bits: u32,
) -> Result<Option<u32>, StoreFault> {
    match look(system, path) {
        Ok(Some(metadata)) => Ok(Some(metadata.mode() & ALL_MODES & bits)),
        Ok(None) => Ok(None),
        Err(fault) => Err(of_look(fault)),
    }
}

/// Gives an open file a mode, where there is one to be given.
pub fn keep_mode<R: Runtime>(
    system: &System<R>,
    path: &str,
    file: &R::File,
    mode: Option<u32>,
) -> Result<(), StoreFault> {
    let Some(mode) = mode else {
        return Ok(());
    };
    match file.set_permissions(Permissions::from_mode(mode)) {
        Ok(()) => Ok(()),
        Err(error) => Err(system.failed(path, &error)),
    }
}
