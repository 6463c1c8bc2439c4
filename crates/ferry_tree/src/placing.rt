//! An item gets its place in a tree.
ghost use Rattle.std.specs.Prelude.{◌≡◌, ℕ, false, true, length, IfOk, IfErr, IfSome, OnErr};
ghost use Rattle.ferry_disk.specs.Device.{HasCause};
ghost use Rattle.ferry_tree.specs.Growth.{Holds, counted_as, outcome_at, takes_content, with_parents};
ghost use Rattle.ferry_tree.specs.Index.{known_in};
ghost use Rattle.ferry_tree.specs.Making.{CanBeMade};
ghost use Rattle.ferry_tree.specs.Nodes.{HasCurrent, Planted, node_view};
ghost use Rattle.ferry_tree.specs.Placing.{IsStopped, Placed, stop_failed};
ghost use Rattle.ferry_tree.specs.Planning.{has_bad_front, makes};

use crate::device::{Tree, TreeFault};
use crate::known::Index;
use crate::making::{make_node, make_parents};
use crate::nodes::Node;
use crate::planning::{PlaceFault, Plan, Refusal, Shape, plan_item};
use std::alloc::Global;

/// How many items a tree was made of, each counted once. A hard link is a link.
#[derive(Clone, Copy, Debug, PartialEq, Eq)]
pub struct Counts {
    /// The items that are files.
    pub files: u64,
    /// Those that are folders.
    pub folders: u64,
    /// Those that are links.
    pub links: u64,
    /// Those that were passed over.
    pub skipped: u64,
}

impl Counts {
    /// Counts one more node.
    fn add(&mut self, node: &Node)
        ensures counted { self.new ≡ counted_as (makes (node_view node.now)) self.old }
    {
        match node {
            Node::Folder => self.folders = self.folders.saturating_add(1),
            Node::File(_) => self.files = self.files.saturating_add(1),
            Node::Link(_) => self.links = self.links.saturating_add(1),
            Node::Same(_) => self.links = self.links.saturating_add(1),
        }
    }
}

/// Why an item got no place.
#[derive(Clone, Copy, Debug, PartialEq, Eq)]
pub(crate) enum Stop {
    /// It has none.
    Place(PlaceFault),
    /// The tree failed.
    Tree,
    /// Memory was refused.
    Memory,
}

impl From<TreeFault> for Stop {
    ghost use Rattle.ferry_tree.specs.Placing.{tree_stop};

    ghost from_gives = { λ fault gives. gives ≡ tree_stop fault };

    fn from(fault: TreeFault) -> Stop {
        match fault {
            TreeFault::Failed => Stop::Tree,
            TreeFault::Memory => Stop::Memory,
        }
    }
}

/// Makes the node of an item, with the folders above it, and counts the item. Answers whether its content belongs to the file that was made.
pub(crate) fn place_item<T: Tree>(
    alloc: Global,
    tree: &mut T,
    known: &mut Index,
    counts: &mut Counts,
    shape: &Shape,
) -> Result<bool, Stop>
    requires holds { (before : Planted) × Holds (T.told tree.old) known.old before }
    ensures placed { (before : Planted) → Holds (T.told tree.old) known.old before → IfOk result (λ takes.
        Placed (outcome_at before shape.now) shape.now.path before counts.old takes (T.told tree.new) known.new counts.new) }
    ensures current { IfOk result (λ takes. takes ≡ true → IfSome (T.told tree.new) (λ t. HasCurrent t.nodes)) }
    ensures refused { (before : Planted) → Holds (T.told tree.old) known.old before → IfErr result (λ stop.
        IsStopped stop (outcome_at before shape.now)) }
    ensures err { (before : Planted) → Holds (T.told tree.old) known.old before
        → OnErr result ((n : ℕ) × IfSome (T.told tree.new) (λ t. t ≡ with_parents shape.now.path n before)) }
    ensures cause { HasCause stop_failed (T.faults tree.old) (T.faults tree.new) result }
{
    match plan_item(alloc, known, shape) {
        Ok(Plan::Stays) => {
            counts.folders = counts.folders.saturating_add(1);
            Ok(false)
        }
        Ok(Plan::Passed) => {
            counts.skipped = counts.skipped.saturating_add(1);
            Ok(false)
        }
        Ok(Plan::Makes(node)) => {
            make_item(alloc, tree, known, counts, shape.path.as_slice(), &node)
        }
        Err(Refusal::Place(fault)) => Err(Stop::Place(fault)),
        Err(Refusal::Memory) => Err(Stop::Memory),
    }
}

/// Makes a node with the folders above it, and counts it.
fn make_item<T: Tree>(
    alloc: Global,
    tree: &mut T,
    known: &mut Index,
    counts: &mut Counts,
    path: &[u8],
    node: &Node,
) -> Result<bool, Stop>
    requires room { has_bad_front (known_in known.old) path.now (length path.now) ≡ false }
    requires holds { (before : Planted) × (Holds (T.told tree.old) known.old before
        × CanBeMade (with_parents path.now (length path.now) before) path.now (node_view node.now)) }
    ensures placed { (before : Planted) → Holds (T.told tree.old) known.old before → IfOk result (λ takes.
        Placed (makes (node_view node.now)) path.now before counts.old takes (T.told tree.new) known.new counts.new) }
    ensures current { IfOk result (λ takes. takes ≡ true → IfSome (T.told tree.new) (λ t. HasCurrent t.nodes)) }
    ensures err { (before : Planted) → Holds (T.told tree.old) known.old before
        → OnErr result ((n : ℕ) × IfSome (T.told tree.new) (λ t. t ≡ with_parents path.now n before)) }
    ensures refused { IfErr result (λ stop. IsStopped stop (makes (node_view node.now))) }
    ensures cause { HasCause stop_failed (T.faults tree.old) (T.faults tree.new) result }
{
    make_parents(alloc, tree, known, path)?;
    make_node(alloc, tree, known, path, node)?;
    counts.add(node);
    Ok(is_file(node))
}

/// Whether a node is a file.
fn is_file(node: &Node) -> bool
    ensures { result ≡ takes_content (makes (node_view node.now)) }
{
    match node {
        Node::File(_) => true,
        _ => false,
    }
}
