//! Archives are restored in trees in memory, of which calls fail.

use crate::fixture::{secret, shelf};
use ferry_disk::Shelf;
use ferry_repo::{Repo, Secret};
use ferry_tree::{Counts, MemoryTree, Node, PlaceFault, RestoreFault, Tree, restore, restore_laws};
use std::alloc::{AllocError, Global};

/// What is answered: the status that stands for it, and for `Ok` how many files, folders, links and skipped items there were, for a place fault its number
/// and whether it has the path that is expected.
pub(crate) type Said = [u64; 5];

/// What is in a tree: at each of the paths 0 for nothing, 1 for a folder, 2 for a file, 3 for a symbolic link and 4 for a hard link, how many bytes `d/f` has,
/// and how many bytes were given as holes.
type Left = [u64; 9];

/// The paths of all nodes.
static PATHS: [&[u8]; 7] = [b"d", b"d/f", b"d/s", b"h", b"x", b"x/y", b"x/y/e"];

/// The number of a place fault.
fn number_of(fault: PlaceFault) -> u64 {
    match fault {
        PlaceFault::Path => 1,
        PlaceFault::Mode => 2,
        PlaceFault::Source => 3,
        PlaceFault::Parent => 4,
    }
}

/// What a refusal says, where this path is expected.
fn refusal(fault: RestoreFault, path: &[u8]) -> Said {
    match fault {
        RestoreFault::Place(at, fault) => {
            [8, number_of(fault), (at.as_slice() == path) as u64, 0, 0]
        }
        RestoreFault::Source(_) => [8, 0, 0, 0, 0],
        RestoreFault::NotFound => [11, 0, 0, 0, 0],
        RestoreFault::Tree => [13, 0, 0, 0, 0],
        RestoreFault::NotEmpty => [14, 0, 0, 0, 0],
        RestoreFault::Memory => [3, 0, 0, 0, 0],
    }
}

/// What `restore` says, where this path is expected at a place fault.
fn said(answer: Result<Counts, RestoreFault>, path: &[u8]) -> Said {
    match answer {
        Ok(counts) => [
            0,
            counts.files,
            counts.folders,
            counts.links,
            counts.skipped,
        ],
        Err(fault) => refusal(fault, path),
    }
}

/// What `restore` says of an archive of the repository on a shelf.
fn restored_on<S: Shelf, T: Tree>(
    alloc: Global,
    shelf: &mut S,
    secret: &Secret,
    tree: &mut T,
    name: &[u8],
    path: &[u8],
) -> Said {
    match Repo::open(alloc, shelf, secret) {
        Ok(mut repo) => {
            let said = said(restore(alloc, &mut repo, shelf, tree, name), path);
            drop(repo);
            said
        }
        Err(_) => [9; 5],
    }
}

/// What `restore` says of an archive.
pub(crate) fn restored<T: Tree>(alloc: Global, tree: &mut T, name: &[u8], path: &[u8]) -> Said {
    match (shelf(alloc), secret(alloc)) {
        (Ok(mut shelf), Ok(secret)) => {
            let said = restored_on(alloc, &mut shelf, &secret, tree, name, path);
            drop(shelf);
            drop(secret);
            said
        }
        _ => [9; 5],
    }
}

/// The number of what is at a path.
fn kind_at(tree: &MemoryTree, path: &[u8]) -> u64 {
    match tree.node(path) {
        None => 0,
        Some(Node::Folder) => 1,
        Some(Node::File(_)) => 2,
        Some(Node::Link(_)) => 3,
        Some(Node::Same(_)) => 4,
    }
}

/// The bytes of the file or link at a path, none where there is something else or nothing.
fn bytes_at<'a>(tree: &'a MemoryTree, path: &[u8]) -> &'a [u8] {
    match tree.node(path) {
        Some(Node::File(bytes)) => bytes.as_slice(),
        Some(Node::Link(target)) => target.as_slice(),
        Some(Node::Same(first)) => first.as_slice(),
        _ => b"",
    }
}

/// What is in a tree.
fn left(tree: &MemoryTree) -> Left {
    let mut left = [9; 9];
    for place in 0..7usize {
        left[place] = kind_at(tree, PATHS[place]);
    }
    left[7] = bytes_at(tree, b"d/f").len() as u64;
    left[8] = tree.holes();
    left
}

/// A tree of which this call fails.
fn tree_of(alloc: Global, failing: u64) -> Result<MemoryTree, AllocError> {
    MemoryTree::new(alloc, vec![in alloc; failing]?)
}

/// What `restore` says of an archive where this call of the tree fails, and what is in the tree then.
fn stopped_at(alloc: Global, failing: u64, name: &[u8], path: &[u8]) -> (Said, Left) {
    match tree_of(alloc, failing) {
        Ok(mut tree) => {
            let said = restored(alloc, &mut tree, name, path);
            let left = left(&tree);
            drop(tree);
            (said, left)
        }
        Err(_) => ([9; 5], [9; 9]),
    }
}

/// What is in the tree of `whole`.
const WHOLE: Left = [1, 2, 3, 4, 1, 1, 2, 8, 3];

/// The bytes of its files and links.
static BYTES: [(&[u8], &[u8]); 4] = [
    (b"d/f", b"hello\0\0\0"),
    (b"d/s", b"/etc"),
    (b"h", b"d/f"),
    (b"x/y/e", b""),
];

/// Whether a tree is that of `whole`.
fn is_whole(tree: &MemoryTree) -> bool {
    let mut all = left(tree) == WHOLE;
    for (path, bytes) in BYTES.iter() {
        all &= bytes_at(tree, path) == *bytes;
    }
    all
}

/// Whether an archive that isn't there makes nothing, one that is there its tree, by ten calls, and nothing then in that tree.
fn is_restored_once(alloc: Global, tree: &mut MemoryTree) -> bool {
    restored(alloc, tree, b"none", b"") == [11, 0, 0, 0, 0]
        && tree.count() == 0
        && restored(alloc, tree, b"whole", b"") == [0, 2, 2, 2, 2]
        && tree.count() == 10
        && restored(alloc, tree, b"whole", b"") == [14, 0, 0, 0, 0]
        && is_whole(tree)
}

/// The same, in a tree without nodes.
fn is_restored(alloc: Global) -> bool {
    match tree_of(alloc, 0) {
        Ok(mut tree) => {
            let done = is_restored_once(alloc, &mut tree);
            drop(tree);
            done
        }
        Err(_) => false,
    }
}

#[test]
fn each_item_has_its_place_and_its_content(rt: HostRuntime) {
    assert!(rt; is_restored(rt.alloc()));
    restore_laws();
}

/// The answers of places, one for each archive, and what is in the tree then.
static PLACES: [(&[u8], &[u8], u64, Left); 4] = [
    (b"parent", b"d/f", 4, [3, 0, 0, 0, 0, 0, 0, 0, 0]),
    (b"path", b"../d", 1, [1, 0, 0, 0, 0, 0, 0, 0, 0]),
    (b"mode", b"d", 2, [0, 0, 0, 0, 0, 0, 0, 0, 0]),
    (b"source", b"h", 3, [0, 0, 0, 0, 0, 0, 0, 0, 0]),
];

#[test]
fn an_item_without_a_place_ends_it(rt: HostRuntime) {
    for (name, path, number, left) in &PLACES {
        let said = [8, *number, 1, 0, 0];
        assert_eq!(rt; stopped_at(rt.alloc(), 0, name, path), (said, *left));
    }
}

/// What is in the tree of `whole` where each of its calls fails in turn: whether it is empty, the folder `d`, the file `d/f`, its bytes, its hole, the links
/// `d/s` and `h`, the folders `x` and `x/y`, and the file `x/y/e`.
static FRONTS: [Left; 10] = [
    [0, 0, 0, 0, 0, 0, 0, 0, 0],
    [0, 0, 0, 0, 0, 0, 0, 0, 0],
    [1, 0, 0, 0, 0, 0, 0, 0, 0],
    [1, 2, 0, 0, 0, 0, 0, 0, 0],
    [1, 2, 0, 0, 0, 0, 0, 5, 0],
    [1, 2, 0, 0, 0, 0, 0, 8, 3],
    [1, 2, 3, 0, 0, 0, 0, 8, 3],
    [1, 2, 3, 4, 0, 0, 0, 8, 3],
    [1, 2, 3, 4, 1, 0, 0, 8, 3],
    [1, 2, 3, 4, 1, 1, 0, 8, 3],
];

#[test]
fn a_failed_call_leaves_a_front(rt: HostRuntime) {
    for call in 0..10usize {
        let stopped = stopped_at(rt.alloc(), call as u64 + 1, b"whole", b"");
        assert_eq!(rt; stopped, ([13, 0, 0, 0, 0], FRONTS[call]));
    }
}
