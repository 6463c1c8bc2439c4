//! A tree in memory.
ghost use Rattle.std.specs.Prelude.{◌≡◌, ◌<◌, ◌+◌, ◌^◌, ◌↔◌, ◌⊎◌, ◌≤◌, ◌++◌, ◌∷◌, if◌then◌else◌, ℕ, Option, Some, [], IsTrue, IfOk, OnOk, OnErr, IsErrOf};
ghost use Rattle.std.specs.Prelude.{option_map, map};
ghost use Rattle.ferry_disk.specs.Calls.{fails};
ghost use Rattle.ferry_disk.specs.Device.{HasCause, counted};
ghost use Rattle.ferry_tree.specs.Memory.{state_of, failing_of, calls_of, faults_of, placed, placed_in};
ghost use Rattle.ferry_tree.specs.Nodes.{Planted, CanMake, IsFile, HasCurrent, is_bare, node_at, node_view, with_node, with_bytes, with_hole, folder_node};
ghost use Rattle.ferry_tree.specs.Nodes.{file_node, link_node, same_node, tree_failed, write_last, longer, zeros_of, Appends, LeavesHole};

use crate::device::{Tree, TreeFault};
use crate::nodes::Node;
use std::alloc::{AllocError, Global};

/// A tree in memory. Its calls are numbered from 1; those whose numbers are listed fail, and those by which the holes would have 2^64 bytes or more, no other.
#[derive(Drop)]
pub struct MemoryTree {
    alloc: Global,
    nodes: Vec<Entry>,
    holes: u64,
    failing: Vec<u64>,
    calls: u64,
    faults: u64,
}

/// A node at its path.
#[derive(Drop)]
pub(crate) struct Entry {
    pub path: Vec<u8>,
    pub node: Node,
}

impl MemoryTree {
    /// A tree without nodes. `failing` has the numbers of the calls that fail.
    pub fn new(alloc: Global, failing: Vec<u64>) -> Result<MemoryTree, AllocError>
        ensures empty { IfOk result (λ tree. state_of tree ≡ record { nodes = []; holes = 0 }) }
        ensures failing { IfOk result (λ tree. failing_of tree ≡ failing.items) }
        ensures unused { IfOk result (λ tree. (calls_of tree ≡ 0) × (faults_of tree ≡ 0)) }
    {
        Ok(MemoryTree {
            alloc,
            nodes: Vec::new(alloc),
            holes: 0,
            failing,
            calls: 0,
            faults: 0,
        })
    }

    /// How many bytes were given by `hole`.
    pub fn holes(&self) -> u64
        ensures { result ≡ (state_of self.now).holes }
    {
        self.holes
    }

    /// How many calls it has had.
    pub fn count(&self) -> u64
        ensures { result ≡ calls_of self.now }
    {
        self.calls
    }

    /// The node at a path.
    pub fn node(&self, path: &[u8]) -> Option<&Node>
        ensures node { option_map (λ n. node_view n.now) result ≡ node_at path.now (state_of self.now).nodes }
    {
        find(&self.nodes, path)
    }
}

/// The last of these nodes that is at a path.
fn find<'a>(nodes: &'a [Entry], path: &[u8]) -> Option<&'a Node>
    ensures node { option_map (λ n. node_view n.now) result ≡ node_at path.now (placed_in nodes.now) }
{
    for back in 0..nodes.len() {
        let entry = &nodes[nodes.len() - 1 - back];
        if entry.path.as_slice() == path {
            return Some(&entry.node);
        }
    }
    None
}

impl MemoryTree {
    /// Counts one more call, and answers whether it fails.
    fn next_fails(&mut self) -> bool
        ensures fails { result ≡ fails (failing_of self.old) (calls_of self.old) }
        ensures counted { calls_of self.new ≡ counted (calls_of self.old) }
        ensures cause { faults_of self.new ≡ (if result then counted (faults_of self.old) else faults_of self.old) }
        ensures same { (state_of self.new ≡ state_of self.old) × (failing_of self.new ≡ failing_of self.old) }
    {
        self.calls = self.calls.saturating_add(1);
        let number = self.calls;
        let fails = self.failing.iter().any(|failing| *failing == number);
        if fails {
            self.faults = self.faults.saturating_add(1);
        }
        fails
    }

    /// Makes a node, where the call that does it doesn't fail.
    fn make(&mut self, path: &[u8], node: Node) -> Result<(), TreeFault>
        ensures ok { OnOk result (state_of self.new ≡ with_node path.now (node_view node) (state_of self.old)) }
        ensures err { OnErr result (state_of self.new ≡ state_of self.old) }
        ensures cause { HasCause tree_failed (faults_of self.old) (faults_of self.new) result }
        ensures failed { IsErrOf result TreeFault.Failed ↔ IsTrue (fails (failing_of self.old) (calls_of self.old)) }
        ensures calls { calls_of self.new ≡ counted (calls_of self.old) }
        ensures failing { failing_of self.new ≡ failing_of self.old }
    {
        if self.next_fails() {
            return Err(TreeFault::Failed);
        }
        match push(self.alloc, &mut self.nodes, path, node) {
            Ok(()) => Ok(()),
            Err(_) => Err(TreeFault::Memory),
        }
    }
}

impl MemoryTree {
    /// Appends bytes to the file that was made last, where the call that does it doesn't fail.
    fn append(&mut self, bytes: &[u8]) -> Result<(), TreeFault>
        ensures ok { OnOk result (state_of self.new ≡ with_bytes bytes.now (state_of self.old)) }
        ensures err { OnErr result (state_of self.new ≡ state_of self.old) }
        ensures cause { HasCause tree_failed (faults_of self.old) (faults_of self.new) result }
        ensures failed { IsErrOf result TreeFault.Failed ↔ IsTrue (fails (failing_of self.old) (calls_of self.old)) }
        ensures calls { calls_of self.new ≡ counted (calls_of self.old) }
        ensures failing { failing_of self.new ≡ failing_of self.old }
    {
        if self.next_fails() {
            return Err(TreeFault::Failed);
        }
        match append(&mut self.nodes, bytes) {
            Ok(()) => Ok(()),
            Err(_) => Err(TreeFault::Memory),
        }
    }

    /// Appends zero bytes to the file that was made last, where the call that does it doesn't fail and the holes aren't too many bytes.
    fn append_hole(&mut self, zeros: u64) -> Result<(), TreeFault>
        ensures ok { OnOk result (state_of self.new ≡ with_hole zeros (state_of self.old)) }
        ensures err { OnErr result (state_of self.new ≡ state_of self.old) }
        ensures cause { HasCause tree_failed (faults_of self.old) (faults_of self.new) result }
        ensures failed { IsErrOf result TreeFault.Failed
            ↔ (IsTrue (fails (failing_of self.old) (calls_of self.old)) ⊎ (2 ^ 64 ≤ (state_of self.old).holes + zeros)) }
        ensures calls { calls_of self.new ≡ counted (calls_of self.old) }
        ensures failing { failing_of self.new ≡ failing_of self.old }
    {
        let Some(holes) = self.holes.checked_add(zeros) else {
            self.calls = self.calls.saturating_add(1);
            self.faults = self.faults.saturating_add(1);
            return Err(TreeFault::Failed);
        };
        if self.next_fails() {
            return Err(TreeFault::Failed);
        }
        match append_zeros(&mut self.nodes, zeros) {
            Ok(()) => {
                self.holes = holes;
                Ok(())
            }
            Err(_) => Err(TreeFault::Memory),
        }
    }
}

/// Appends a node at a path.
fn push(alloc: Global, nodes: &mut Vec<Entry>, path: &[u8], node: Node) -> Result<(), AllocError>
    ensures ok { OnOk result (placed_in nodes.new.items ≡ placed_in nodes.old.items ++ (record { path = path.now; node = node_view node } ∷ [])) }
    ensures err { OnErr result (placed_in nodes.new.items ≡ placed_in nodes.old.items) }
{
    let path = Vec::from_slice(alloc, path)?;
    nodes.push(Entry { path, node })?;
    Ok(())
}

/// Appends bytes to the file that was made last.
fn append(nodes: &mut [Entry], bytes: &[u8]) -> Result<(), AllocError>
    ensures ok { OnOk result (placed_in nodes.new ≡ write_last bytes.now (placed_in nodes.old)) }
    ensures err { OnErr result (placed_in nodes.new ≡ placed_in nodes.old) }
{
    match nodes.last_mut() {
        Some(last) => last.append(bytes),
        None => Ok(()),
    }
}

impl Entry {
    /// Appends bytes to a file.
    fn append(&mut self, bytes: &[u8]) -> Result<(), AllocError>
        ensures ok { OnOk result (placed self.new ≡ record { path = self.old.path.items; node = longer bytes.now (node_view self.old.node) }) }
        ensures err { OnErr result (placed self.new ≡ placed self.old) }
    {
        match &mut self.node {
            Node::File(content) => content.extend_from_slice(bytes),
            _ => Ok(()),
        }
    }

    /// Appends zero bytes to a file.
    fn append_zeros(&mut self, zeros: u64) -> Result<(), AllocError>
        ensures ok { OnOk result (placed self.new ≡ record { path = self.old.path.items; node = longer (zeros_of zeros) (node_view self.old.node) }) }
        ensures err { OnErr result (placed self.new ≡ placed self.old) }
    {
        match &mut self.node {
            Node::File(content) => push_zeros(content, zeros),
            _ => Ok(()),
        }
    }
}

impl Tree for MemoryTree {
    ghost told = { λ t. Some (state_of t) };

    ghost faults = { λ t. faults_of t };

    fn is_empty(&mut self) -> Result<bool, TreeFault>
        ensures empty { IfOk result (λ empty. empty ≡ is_bare (state_of self.old)) }
        ensures same { state_of self.new ≡ state_of self.old }
        ensures cause { HasCause tree_failed (faults_of self.old) (faults_of self.new) result }
        ensures failed { IsErrOf result TreeFault.Failed ↔ IsTrue (fails (failing_of self.old) (calls_of self.old)) }
        ensures calls { calls_of self.new ≡ counted (calls_of self.old) }
        ensures failing { failing_of self.new ≡ failing_of self.old }
    {
        if self.next_fails() {
            return Err(TreeFault::Failed);
        }
        Ok(self.nodes.is_empty() && self.holes == 0)
    }

    fn folder(&mut self, path: &[u8]) -> Result<(), TreeFault>
        ensures ok { OnOk result (state_of self.new ≡ with_node path.now folder_node (state_of self.old)) }
        ensures err { OnErr result (state_of self.new ≡ state_of self.old) }
        ensures cause { HasCause tree_failed (faults_of self.old) (faults_of self.new) result }
        ensures failed { IsErrOf result TreeFault.Failed ↔ IsTrue (fails (failing_of self.old) (calls_of self.old)) }
        ensures calls { calls_of self.new ≡ counted (calls_of self.old) }
        ensures failing { failing_of self.new ≡ failing_of self.old }
    {
        self.make(path, Node::Folder)
    }

    fn file(&mut self, path: &[u8]) -> Result<(), TreeFault>
        ensures ok { OnOk result (state_of self.new ≡ with_node path.now (file_node []) (state_of self.old)) }
        ensures err { OnErr result (state_of self.new ≡ state_of self.old) }
        ensures cause { HasCause tree_failed (faults_of self.old) (faults_of self.new) result }
        ensures failed { IsErrOf result TreeFault.Failed ↔ IsTrue (fails (failing_of self.old) (calls_of self.old)) }
        ensures calls { calls_of self.new ≡ counted (calls_of self.old) }
        ensures failing { failing_of self.new ≡ failing_of self.old }
    {
        let content = Vec::new(self.alloc);
        self.make(path, Node::File(content))
    }

    fn symlink(&mut self, path: &[u8], target: &[u8]) -> Result<(), TreeFault>
        ensures ok { OnOk result (state_of self.new ≡ with_node path.now (link_node target.now) (state_of self.old)) }
        ensures err { OnErr result (state_of self.new ≡ state_of self.old) }
        ensures cause { HasCause tree_failed (faults_of self.old) (faults_of self.new) result }
        ensures failed { IsErrOf result TreeFault.Failed → IsTrue (fails (failing_of self.old) (calls_of self.old)) }
        ensures calls { calls_of self.new ≡ counted (calls_of self.old) }
        ensures failing { failing_of self.new ≡ failing_of self.old }
    {
        let Ok(copy) = Vec::from_slice(self.alloc, target) else {
            self.calls = self.calls.saturating_add(1);
            return Err(TreeFault::Memory);
        };
        self.make(path, Node::Link(copy))
    }

    fn same(&mut self, path: &[u8], first: &[u8]) -> Result<(), TreeFault>
        ensures ok { OnOk result (state_of self.new ≡ with_node path.now (same_node first.now) (state_of self.old)) }
        ensures err { OnErr result (state_of self.new ≡ state_of self.old) }
        ensures cause { HasCause tree_failed (faults_of self.old) (faults_of self.new) result }
        ensures failed { IsErrOf result TreeFault.Failed → IsTrue (fails (failing_of self.old) (calls_of self.old)) }
        ensures calls { calls_of self.new ≡ counted (calls_of self.old) }
        ensures failing { failing_of self.new ≡ failing_of self.old }
    {
        let Ok(copy) = Vec::from_slice(self.alloc, first) else {
            self.calls = self.calls.saturating_add(1);
            return Err(TreeFault::Memory);
        };
        self.make(path, Node::Same(copy))
    }

    fn write(&mut self, bytes: &[u8]) -> Result<(), TreeFault>
        ensures ok { OnOk result (state_of self.new ≡ with_bytes bytes.now (state_of self.old)) }
        ensures err { OnErr result (Appends bytes.now (Some (state_of self.old)) (Some (state_of self.new))) }
        ensures cause { HasCause tree_failed (faults_of self.old) (faults_of self.new) result }
        ensures failed { IsErrOf result TreeFault.Failed ↔ IsTrue (fails (failing_of self.old) (calls_of self.old)) }
        ensures calls { calls_of self.new ≡ counted (calls_of self.old) }
        ensures failing { failing_of self.new ≡ failing_of self.old }
    {
        self.append(bytes)
    }

    fn hole(&mut self, zeros: u64) -> Result<(), TreeFault>
        ensures ok { OnOk result (state_of self.new ≡ with_hole zeros (state_of self.old)) }
        ensures err { OnErr result (LeavesHole zeros (Some (state_of self.old)) (Some (state_of self.new))) }
        ensures cause { HasCause tree_failed (faults_of self.old) (faults_of self.new) result }
        ensures failed { IsErrOf result TreeFault.Failed
            ↔ (IsTrue (fails (failing_of self.old) (calls_of self.old)) ⊎ (2 ^ 64 ≤ (state_of self.old).holes + zeros)) }
        ensures calls { calls_of self.new ≡ counted (calls_of self.old) }
        ensures failing { failing_of self.new ≡ failing_of self.old }
    {
        self.append_hole(zeros)
    }
}

/// Appends zero bytes to the file that was made last.
fn append_zeros(nodes: &mut [Entry], zeros: u64) -> Result<(), AllocError>
    ensures ok { OnOk result (placed_in nodes.new ≡ write_last (zeros_of zeros) (placed_in nodes.old)) }
    ensures err { OnErr result (placed_in nodes.new ≡ placed_in nodes.old) }
{
    match nodes.last_mut() {
        Some(last) => last.append_zeros(zeros),
        None => Ok(()),
    }
}

/// Appends zero bytes.
fn push_zeros(content: &mut Vec<u8>, zeros: u64) -> Result<(), AllocError>
    ensures ok { OnOk result (content.new.items ≡ content.old.items ++ zeros_of zeros) }
    ensures err { OnErr result (content.new.items ≡ content.old.items) }
{
    match content.len().checked_add(zeros as usize) {
        Some(length) => content.resize(length, 0),
        None => Err(AllocError),
    }
}
