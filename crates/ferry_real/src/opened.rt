//! The files of a repository that stay open.

use ferry_disk::Name;
use std::rt::Runtime;

/// How many files stay open: an item stream and its contents mostly lie in fewer segments, and a process may
/// have some hundred files open.
const KEPT: usize = 8;

/// An open file.
#[derive(Drop)]
pub struct Opened<R: Runtime> {
    pub name: Name,
    pub path: String,
    pub file: R::File,
}

/// The place of the file of this name among those that are open, one behind all of them where it isn't open.
pub fn place_of<R: Runtime>(opened: &[Opened<R>], name: Name) -> usize {
    for place in 0..opened.len() {
        if opened[place].name == name {
            return place;
        }
    }
    opened.len()
}

/// Closes the file that was opened first, where as many are open as may be.
pub fn make_room<R: Runtime>(opened: &mut Vec<Opened<R>>) {
    if opened.len() >= KEPT {
        let _ = opened.remove(0);
    }
}
