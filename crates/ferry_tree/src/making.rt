//! Nodes are made where they were planned.
ghost use Rattle.std.specs.Prelude.{◌≡◌, ◌≤◌, ◌<◌, ◌-◌, ◌⊎◌, ℕ, false, length, IfSome, OnOk, OnErr, option_map};
ghost use Rattle.ferry_disk.specs.Device.{HasCause};
ghost use Rattle.ferry_tree.specs.Growth.{Holds, WritesFront, with_folder, with_parents, with_content};
ghost use Rattle.ferry_tree.specs.Index.{known_in};
ghost use Rattle.ferry_tree.specs.Making.{HasRoom, CanBeMade};
ghost use Rattle.ferry_tree.specs.Runs.{IsKind, IsRun};
ghost use Rattle.ferry_tree.specs.Nodes.{HasCurrent, Planted, node_view, tree_failed, with_node};
ghost use Rattle.ferry_tree.specs.Planning.{has_bad_front};

use crate::device::{Tree, TreeFault};
use crate::known::{Index, Mark};
use crate::nodes::Node;
use ferry_base::Bytes;
use ferry_lanes::zero_prefix;
use std::alloc::Global;

/// How many bytes of a content are looked at together for a hole.
const BLOCK: usize = 4096;

/// Makes the folders above a path that aren't there.
pub(crate) fn make_parents<T: Tree>(
    alloc: Global,
    tree: &mut T,
    known: &mut Index,
    path: &[u8],
) -> Result<(), TreeFault>
    requires room { has_bad_front (known_in known.old) path.now (length path.now) ≡ false }
    requires holds { (before : Planted) × Holds (T.told tree.old) known.old before }
    ensures made { (before : Planted) → Holds (T.told tree.old) known.old before
        → OnOk result (Holds (T.told tree.new) known.new (with_parents path.now (length path.now) before)) }
    ensures err { (before : Planted) → Holds (T.told tree.old) known.old before
        → OnErr result ((n : ℕ) × IfSome (T.told tree.new) (λ t. t ≡ with_parents path.now n before)) }
    ensures cause { HasCause tree_failed (T.faults tree.old) (T.faults tree.new) result }
{
    for place in 0..path.len() {
        if path[place] == b'/' {
            make_folder(alloc, tree, known, &path[..place])?;
        }
    }
    Ok(())
}

/// Makes a folder, where nothing is at its path.
fn make_folder<T: Tree>(
    alloc: Global,
    tree: &mut T,
    known: &mut Index,
    path: &[u8],
) -> Result<(), TreeFault>
    requires holds { (before : Planted) × (Holds (T.told tree.old) known.old before × HasRoom before path.now) }
    ensures made { (before : Planted) → Holds (T.told tree.old) known.old before
        → OnOk result (Holds (T.told tree.new) known.new (with_folder path.now before)) }
    ensures err { (before : Planted) → Holds (T.told tree.old) known.old before → OnErr result (IfSome (T.told tree.new) (λ t. t ≡ before)) }
    ensures cause { HasCause tree_failed (T.faults tree.old) (T.faults tree.new) result }
{
    if known.at(path).is_some() {
        return Ok(());
    }
    known.put(alloc, path, Mark::Folder)?;
    tree.folder(path)
}

/// Makes a node; a file has no bytes yet.
pub(crate) fn make_node<T: Tree>(
    alloc: Global,
    tree: &mut T,
    known: &mut Index,
    path: &[u8],
    node: &Node,
) -> Result<(), TreeFault>
    requires holds { (before : Planted) × (Holds (T.told tree.old) known.old before × CanBeMade before path.now (node_view node.now)) }
    ensures made { (before : Planted) → Holds (T.told tree.old) known.old before
        → OnOk result (Holds (T.told tree.new) known.new (with_node path.now (node_view node.now) before)) }
    ensures err { (before : Planted) → Holds (T.told tree.old) known.old before → OnErr result (IfSome (T.told tree.new) (λ t. t ≡ before)) }
    ensures cause { HasCause tree_failed (T.faults tree.old) (T.faults tree.new) result }
{
    match node {
        Node::Folder => {
            known.put(alloc, path, Mark::Folder)?;
            tree.folder(path)
        }
        Node::File(_) => {
            known.put(alloc, path, Mark::File)?;
            tree.file(path)
        }
        Node::Link(target) => {
            known.put(alloc, path, Mark::Link)?;
            tree.symlink(path, target)
        }
        Node::Same(first) => {
            let copy = Bytes::new(Vec::from_slice(alloc, first)?);
            known.put(alloc, path, Mark::Same(copy))?;
            tree.same(path, first)
        }
    }
}

/// Appends a content to the current file, in blocks of 4096 bytes: each run of blocks of one kind at once.
pub(crate) fn write_content<T: Tree>(tree: &mut T, content: &[u8]) -> Result<(), TreeFault>
    requires current { IfSome (T.told tree.old) (λ t. HasCurrent t.nodes) }
    ensures ok { OnOk result (T.told tree.new ≡ option_map (λ t. with_content content.now t) (T.told tree.old)) }
    ensures err { OnErr result (WritesFront content.now (T.told tree.old) (T.told tree.new)) }
    ensures cause { HasCause tree_failed (T.faults tree.old) (T.faults tree.new) result }
{
    let mut from = 0usize;
    while from < content.len() {
        let first = block_end(from, content.len());
        let is_hole = has_zeros(&content[from..first]);
        let end = run_end(content, from, first, is_hole);
        write_run(tree, &content[from..end], is_hole)?;
        from = end;
    }
    Ok(())
}

/// Where the blocks end that follow the block from `from` to `first` and are of its kind: `is_hole` says whether they have zeros alone.
fn run_end(content: &[u8], from: usize, first: usize, is_hole: bool) -> usize
    requires first { IsRun is_hole content.now from first }
    ensures run { IsRun is_hole content.now from result }
{
    let mut end = first;
    while end < content.len() {
        let next = block_end(end, content.len());
        if has_zeros(&content[end..next]) != is_hole {
            return end;
        }
        end = next;
    }
    end
}

/// Where the block ends that begins at byte `from` of a content of `total` bytes.
fn block_end(from: usize, total: usize) -> usize
    requires in_range { from < total }
    ensures some { from < result }
    ensures within { result ≤ total }
    ensures fits { result - from ≤ 4096 }
    ensures size { (result - from ≡ 4096) ⊎ (result ≡ total) }
{
    if total - from < BLOCK {
        return total;
    }
    from + BLOCK
}

/// Whether a block has zeros alone.
fn has_zeros(block: &[u8]) -> bool
    requires some { 1 ≤ length block.now }
    requires fits { length block.now ≤ 4096 }
    ensures { IsKind result block.now }
{
    zero_prefix(block) == block.len()
}

/// Appends blocks of one kind to the current file, as a hole where they have zeros alone.
fn write_run<T: Tree>(tree: &mut T, run: &[u8], is_hole: bool) -> Result<(), TreeFault>
    requires kind { IsKind is_hole run.now }
    requires current { IfSome (T.told tree.old) (λ t. HasCurrent t.nodes) }
    ensures ok { OnOk result (T.told tree.new ≡ option_map (λ t. with_content run.now t) (T.told tree.old)) }
    ensures err { OnErr result (WritesFront run.now (T.told tree.old) (T.told tree.new)) }
    ensures cause { HasCause tree_failed (T.faults tree.old) (T.faults tree.new) result }
{
    if is_hole {
        return tree.hole(run.len() as u64);
    }
    tree.write(run)
}
