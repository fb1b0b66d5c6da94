//! Lists of nodes that are kept as bytes.

ghost use Rattle.std.specs.Prelude.{◌≡◌, ◌&&◌, ◌+◌, ◌<◌, ◌^◌, ◌∷◌, ◌++◌, [], length, OnOk, OnErr, IfOk};
ghost use Rattle.std.specs.Option.{MatchOption};
ghost use Rattle.proof_tree.specs.Tree.{opens, are_listed, is_listed, is_proof};

use crate::pack::push_node;
use crate::proof::Node;
use crate::unpack::read_node;
use lp_rows::{do_ids_ascend, has_zero_coefficient};
use outcomes::Memory;
use packed_numbers::Numbers;
use std::alloc::Global;
use std::marker::Model;

/// Nodes in order, kept as bytes, which contracts see as a list. A list knows whether it is a proof.
#[derive(Drop)]
pub struct NodeList {
    bytes: Vec<u8>,
    len: usize,
    // How many nodes are due behind these, if they are the front of a proof.
    due: usize,
    is_front: bool,
}

impl Model for NodeList {
    ghost use Rattle.std.specs.Prelude.{List};
    ghost use Rattle.proof_tree.specs.declared.proof.Node.{Node};
    ghost use Rattle.proof_tree.specs.Packing.{nodes_of};
    ghost use Rattle.proof_tree.specs.Lists.{IsNodeList};

    ghost Value = { List Node };

    ghost view = { λ l. nodes_of l.bytes.items };

    ghost invariant = { λ l. IsNodeList l.bytes.items l.len l.due l.is_front };
}

/// The nodes of a list that are left to read, which contracts see as a list.
#[derive(Drop)]
pub struct Nodes<'a> {
    numbers: Numbers<'a>,
}

impl<'a> Model for Nodes<'a> {
    ghost use Rattle.std.specs.Prelude.{List};
    ghost use Rattle.proof_tree.specs.declared.proof.Node.{Node};
    ghost use Rattle.proof_tree.specs.Packing.{nodes_of};
    ghost use Rattle.proof_tree.specs.Lists.{ArePacked};

    ghost Value = { List Node };

    ghost view = { λ n. nodes_of n.numbers };

    ghost invariant = { λ n. ArePacked n.numbers };
}

// How many nodes are due behind this one, the first of `rest` + 1.
fn due_behind(node: &Node, rest: usize) -> usize
    requires { rest + 2 < 2 ^ 64 }
    ensures { result ≡ opens node.now rest }
{
    match node {
        Node::Split(_) => rest + 2,
        _ => rest,
    }
}

// Whether the multipliers ascend by row and are not 0.
fn are_multipliers_listed(multipliers: &[(u32, i128)]) -> bool
    ensures { result ≡ are_listed multipliers.now }
{
    do_ids_ascend(multipliers) && !has_zero_coefficient(multipliers)
}

fn is_node_listed(node: &Node) -> bool
    ensures { result ≡ is_listed node.now }
{
    match node {
        Node::Split(_) => true,
        Node::Refuted(mults) => are_multipliers_listed(mults.as_slice()),
        Node::Bounded { scale: _, mults } => are_multipliers_listed(mults.as_slice()),
        Node::LogicFalse(_) => true,
    }
}

// Whether nodes are the front of a proof with one more, if more are due.
fn is_front_with(is_front: bool, node: &Node) -> bool
    ensures { result ≡ (is_front && is_listed node.now) }
{
    is_front && is_node_listed(node)
}

impl NodeList {
    /// No nodes.
    pub fn new(alloc: Global) -> NodeList
        ensures { result ≡ [] }
    {
        NodeList {
            bytes: Vec::new(alloc),
            len: 0,
            due: 1,
            is_front: true,
        }
    }

    /// How many nodes there are.
    pub fn len(&self) -> usize
        ensures { result ≡ length self.now }
    {
        self.len
    }

    /// Appends a node; a refused one changes nothing.
    pub fn push(&mut self, node: &Node) -> Result<(), Memory>
        ensures ok { OnOk result (self.new ≡ self.old ++ node.now ∷ []) }
        ensures err { OnErr result (self.new ≡ self.old) }
    {
        push_node(&mut self.bytes, node)?;
        self.len += 1;
        if self.due == 0 {
            self.is_front = false;
        } else {
            self.due = due_behind(node, self.due - 1);
            self.is_front = is_front_with(self.is_front, node);
        }
        Ok(())
    }

    /// The nodes in order.
    pub fn nodes(&self) -> Nodes<'_>
        ensures nodes { result ≡ self.now }
        ensures few { length self.now < 2 ^ 64 }
    {
        let _len = self.len;
        Nodes {
            numbers: Numbers::new(self.bytes.as_slice()),
        }
    }

    /// Whether the list is a proof.
    #[tactic(auto, using(crate::proofs::Lists::list_proof))]
    pub(crate) fn is_proof(&self) -> bool
        ensures { result ≡ is_proof self.now }
    {
        self.is_front && self.due == 0
    }
}

impl<'a> Nodes<'a> {
    /// Takes the next node, with room for its multipliers alone; none where no node is left.
    pub fn next(&mut self, alloc: Global) -> Result<Option<Node>, Memory>
        ensures ok { IfOk result (λ next. MatchOption next ((self.old ≡ []) × (self.new ≡ [])) (λ node. self.old ≡ node ∷ self.new)) }
        ensures err { OnErr result (self.new ≡ self.old) }
    {
        if self.numbers.is_empty() {
            return Ok(None);
        }
        let mut rest = self.numbers.again();
        let node = read_node(alloc, &mut rest)?;
        self.numbers = rest;
        Ok(Some(node))
    }
}
