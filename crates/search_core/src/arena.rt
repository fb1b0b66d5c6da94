//! The nodes made so far, by number.

ghost use Rattle.std.specs.Prelude.{◌≡◌, ◌+◌, ◌<◌, ◌^◌, ◌∷◌, ◌++◌, [], length, OnOk, OnErr, IfOk, Some, slice_get};
ghost use Rattle.proof_tree.specs.Tree.{preorder, leaf_of};
ghost use Rattle.search_rules.specs.Machine.{put, leaf_node, fork_node, open_node, tree_of};
ghost use Rattle.search_core.specs.Arena.{draft_of, closure_of, IsArena, StaysOpen};

use lp_frame::Mults;
use outcomes::Memory;
use proof_tree::{Node, NodeList, Split};
use std::alloc::Global;

/// What closes a leaf.
#[derive(Drop)]
pub enum Leaf {
    /// Multipliers that refute what holds.
    Refuted(Mults),
    /// A scale and multipliers that bound the goal.
    Bounded {
        /// By what the goal is multiplied.
        scale: i128,
        /// By what the rows are multiplied.
        mults: Mults,
    },
    /// An item that is false.
    LogicFalse(u32),
}

/// A node that was made.
#[derive(Drop)]
pub enum Slot {
    /// It has not settled.
    Open,
    /// It is a leaf.
    Leaf(Leaf),
    /// It was split; its two nodes have the numbers `first` and `first` + 1.
    Fork {
        /// The split.
        split: Split,
        /// The number of the first of its nodes.
        first: usize,
    },
}

/// The nodes made, by number: a fork's two nodes stand next to one another, after it.
#[derive(Drop)]
pub struct Arena {
    pub(crate) slots: Vec<Slot>,
    ghost ordered: { IsArena slots.items },
}

impl Arena {
    /// One open node.
    pub fn new(alloc: Global) -> Result<Arena, Memory>
        ensures { IfOk result (λ a. a.slots.items ≡ Slot.Open ∷ []) }
    {
        let mut slots = Vec::new(alloc);
        slots.push(Slot::Open)?;
        Ok(Arena { slots })
    }

    /// Closes the node of this number.
    pub fn close(&mut self, number: usize, leaf: Leaf)
        requires inside { number < length self.old.slots.items }
        requires unsettled { slice_get self.old.slots.items number ≡ Some Slot.Open }
        ensures draft { draft_of self.new.slots.items ≡ put number (leaf_node (closure_of leaf)) (draft_of self.old.slots.items) }
        ensures made { length self.new.slots.items ≡ length self.old.slots.items }
        ensures others { StaysOpen number self.old.slots.items self.new.slots.items }
    {
        self.slots[number] = Slot::Leaf(leaf);
    }

    /// Parts the node of this number.
    pub fn part(&mut self, number: usize, split: Split) -> Result<(), Memory>
        requires inside { number < length self.old.slots.items }
        requires unsettled { slice_get self.old.slots.items number ≡ Some Slot.Open }
        requires room { length self.old.slots.items < 2 ^ 40 }
        ensures draft { OnOk result (draft_of self.new.slots.items ≡ put number (fork_node split (open_node (length self.old.slots.items)) (open_node (length self.old.slots.items + 1))) (draft_of self.old.slots.items)) }
        ensures made { OnOk result (length self.new.slots.items ≡ length self.old.slots.items + 2) }
        ensures others { OnOk result (StaysOpen number self.old.slots.items self.new.slots.items) }
        ensures first { OnOk result (slice_get self.new.slots.items (length self.old.slots.items) ≡ Some Slot.Open) }
        ensures second { OnOk result (slice_get self.new.slots.items (length self.old.slots.items + 1) ≡ Some Slot.Open) }
        ensures err { OnErr result (self.new.slots.items ≡ self.old.slots.items) }
    {
        self.slots.reserve(2)?;
        let first = self.slots.len();
        self.slots.push_reserved(Slot::Open);
        self.slots.push_reserved(Slot::Open);
        self.slots[number] = Slot::Fork { split, first };
        Ok(())
    }

    /// The nodes in preorder, in a copy.
    pub fn preorder(&self, alloc: Global) -> Result<NodeList, Memory>
        requires { 0 < length self.now.slots.items }
        ensures { IfOk result (λ nodes. nodes ≡ preorder (tree_of (draft_of self.now.slots.items))) }
    {
        let mut nodes = NodeList::new(alloc);
        let mut stack = Vec::new(alloc);
        stack.push(0)?;
        'nodes: while let Some(number) = stack.pop() {
            match &self.slots[number] {
                Slot::Open => append(&mut nodes, Node::Refuted(Mults::new(alloc)))?,
                Slot::Leaf(leaf) => append(&mut nodes, node_of(alloc, leaf)?)?,
                Slot::Fork { split, first } => {
                    append(&mut nodes, Node::Split(*split))?;
                    stack.push(*first + 1)?;
                    stack.push(*first)?;
                }
            }
        }
        Ok(nodes)
    }
}

// Appends a node, which is let go.
fn append(nodes: &mut NodeList, node: Node) -> Result<(), Memory>
    ensures { OnOk result (nodes.new ≡ nodes.old ++ node ∷ []) }
{
    nodes.push(&node)
}

// The node of a leaf, with copies of its multipliers.
fn node_of(alloc: Global, leaf: &Leaf) -> Result<Node, Memory>
    ensures { IfOk result (λ node. node ≡ leaf_of (closure_of leaf.now)) }
{
    match leaf {
        Leaf::Refuted(mults) => Ok(Node::Refuted(mults.copy(alloc)?)),
        Leaf::Bounded { scale, mults } => Ok(Node::Bounded {
            scale: *scale,
            mults: mults.copy(alloc)?,
        }),
        Leaf::LogicFalse(item) => Ok(Node::LogicFalse(*item)),
    }
}
