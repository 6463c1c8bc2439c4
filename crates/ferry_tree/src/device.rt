//! A place where files, folders and links are made.
ghost use Rattle.std.specs.Prelude.{◌≡◌, ℕ, [], Option, IfOk, IfSome, OnOk, OnErr, option_map};
ghost use Rattle.ferry_disk.specs.Device.{HasCause};
ghost use Rattle.ferry_tree.specs.Nodes.{Planted, CanMake, IsFile, HasCurrent, is_bare, with_node, with_bytes, with_hole, folder_node, file_node};
ghost use Rattle.ferry_tree.specs.Nodes.{link_node, same_node, tree_failed, Appends, LeavesHole};

use std::alloc::AllocError;
use thiserror::Error;

/// Why a tree didn't do what it was asked.
#[derive(Clone, Copy, Debug, PartialEq, Eq, Error)]
pub enum TreeFault {
    /// The device failed.
    #[error("the folder failed")]
    Failed,
    /// Memory was refused.
    #[error("out of memory")]
    Memory,
}

impl From<AllocError> for TreeFault {
    ghost use Rattle.ferry_tree.specs.declared.device.TreeFault.TheVariants.{Memory};

    ghost from_gives = { λ _ fault. fault ≡ Memory };

    fn from(_error: AllocError) -> TreeFault {
        TreeFault::Memory
    }
}

/// A place where files, folders and links are made, which may fail.
///
/// A path has its parts between slashes, and none of them in front; it is below the root of the tree, which is no node. `told` is what a tree in memory tells:
/// its nodes, in the order in which they were made, and how many bytes were given by `hole`. A tree over a folder tells nothing. `faults` counts the calls
/// that failed. The current file is the node that was made last, where that is a file.
pub trait Tree {
    ghost told: { Self → Option Planted };

    ghost faults: { Self → ℕ };

    /// Whether there is no node, and so no bytes that were given by `hole`.
    fn is_empty(&mut self) -> Result<bool, TreeFault>
        ensures empty { IfOk result (λ empty. IfSome (told self.old) (λ t. empty ≡ is_bare t)) }
        ensures same { told self.new ≡ told self.old }
        ensures cause { HasCause tree_failed (faults self.old) (faults self.new) result };

    /// Makes a folder.
    fn folder(&mut self, path: &[u8]) -> Result<(), TreeFault>
        requires place { IfSome (told self.old) (λ t. CanMake t.nodes path.now) }
        ensures ok { OnOk result (told self.new ≡ option_map (λ t. with_node path.now folder_node t) (told self.old)) }
        ensures err { OnErr result (told self.new ≡ told self.old) }
        ensures cause { HasCause tree_failed (faults self.old) (faults self.new) result };

    /// Makes a file of no bytes.
    fn file(&mut self, path: &[u8]) -> Result<(), TreeFault>
        requires place { IfSome (told self.old) (λ t. CanMake t.nodes path.now) }
        ensures ok { OnOk result (told self.new ≡ option_map (λ t. with_node path.now (file_node []) t) (told self.old)) }
        ensures err { OnErr result (told self.new ≡ told self.old) }
        ensures cause { HasCause tree_failed (faults self.old) (faults self.new) result };

    /// Makes a symbolic link to a target, which may be any bytes.
    fn symlink(&mut self, path: &[u8], target: &[u8]) -> Result<(), TreeFault>
        requires place { IfSome (told self.old) (λ t. CanMake t.nodes path.now) }
        ensures ok { OnOk result (told self.new ≡ option_map (λ t. with_node path.now (link_node target.now) t) (told self.old)) }
        ensures err { OnErr result (told self.new ≡ told self.old) }
        ensures cause { HasCause tree_failed (faults self.old) (faults self.new) result };

    /// Makes a hard link of the file at the path `first`.
    fn same(&mut self, path: &[u8], first: &[u8]) -> Result<(), TreeFault>
        requires place { IfSome (told self.old) (λ t. CanMake t.nodes path.now) }
        requires first { IfSome (told self.old) (λ t. IsFile t.nodes first.now) }
        ensures ok { OnOk result (told self.new ≡ option_map (λ t. with_node path.now (same_node first.now) t) (told self.old)) }
        ensures err { OnErr result (told self.new ≡ told self.old) }
        ensures cause { HasCause tree_failed (faults self.old) (faults self.new) result };

    /// Appends bytes to the current file. After an error a front of them may be there.
    fn write(&mut self, bytes: &[u8]) -> Result<(), TreeFault>
        requires current { IfSome (told self.old) (λ t. HasCurrent t.nodes) }
        ensures ok { OnOk result (told self.new ≡ option_map (λ t. with_bytes bytes.now t) (told self.old)) }
        ensures err { OnErr result (Appends bytes.now (told self.old) (told self.new)) }
        ensures cause { HasCause tree_failed (faults self.old) (faults self.new) result };

    /// Appends so many zero bytes to the current file, which may take no space. After an error fewer of them may be there.
    fn hole(&mut self, zeros: u64) -> Result<(), TreeFault>
        requires current { IfSome (told self.old) (λ t. HasCurrent t.nodes) }
        ensures ok { OnOk result (told self.new ≡ option_map (λ t. with_hole zeros t) (told self.old)) }
        ensures err { OnErr result (LeavesHole zeros (told self.old) (told self.new)) }
        ensures cause { HasCause tree_failed (faults self.old) (faults self.new) result };
}
