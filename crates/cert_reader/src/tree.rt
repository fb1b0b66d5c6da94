//! What the lines of a proof gave so far.

ghost use Rattle.std.specs.Prelude.{◌≡◌, IfSome, OnErr, true};
ghost use Rattle.cert_grammar.specs.ExactLines.{parts_of};
ghost use Rattle.cert_grammar.specs.Trees.{tree_open, with_node, with_end, with_words};
ghost use Rattle.proof_tree.specs.Tree.{opens};
ghost use Rattle.cert_grammar.specs.Trees.{is_end as are_end};
ghost use Rattle.cert_reader.specs.TreeReads.{LineGives};
ghost use Rattle.proof_tree.specs.Tree.{is_listed};

use crate::fault::LineFault;
use cert_grammar::CertCause;
use cert_lines::{NodeRead, Words, read_node};
use proof_tree::{Node, NodeList, Proof};
use std::alloc::Global;
use std::marker::Model;

/// What the lines of a proof gave so far: how many halves are open, the nodes, and whether the end was among them.
#[derive(Drop)]
pub struct TreeRead {
    halves: u64,
    nodes: NodeList,
    ended: bool,
}

impl Model for TreeRead {
    ghost use Rattle.cert_grammar.specs.Trees.{TreeTaken};
    ghost use Rattle.cert_reader.specs.Grown.{IsGrown};

    ghost Value = { TreeTaken };

    ghost view = { λ t. record { halves = t.halves; nodes = t.nodes; ended = t.ended } };

    ghost invariant = { λ t. IsGrown t.nodes t.halves t.ended };
}

// How many halves are open behind a node, if they can be counted.
fn opened(node: &Node, halves: u64) -> Option<u64>
    ensures { IfSome result (λ more. more ≡ opens node.now halves) }
{
    match node {
        Node::Split(_) => halves.checked_add(2),
        Node::Refuted(_) => Some(halves),
        Node::Bounded { scale: _, mults: _ } => Some(halves),
        Node::LogicFalse(_) => Some(halves),
    }
}

// Whether the line is the end.
fn is_end(line: &[u8]) -> bool
    ensures { result ≡ are_end (parts_of line.now) }
{
    let mut words = Words::new(line);
    let Some(word) = words.next() else {
        return false;
    };
    match words.next() {
        None => word == b"end".as_slice(),
        Some(_) => false,
    }
}

impl TreeRead {
    /// One tree is open.
    #[tactic(auto, using(crate::proofs::Grown::grown_start))]
    pub fn new(alloc: Global) -> TreeRead
        ensures { result ≡ tree_open }
    {
        TreeRead {
            halves: 1,
            nodes: NodeList::new(alloc),
            ended: false,
        }
    }

    /// Whether the end was read.
    pub fn is_ended(&self) -> bool
        ensures { result ≡ self.now.ended }
    {
        self.ended
    }

    /// The proof, with no copy.
    #[tactic(auto, using(crate::proofs::Grown::grown_proof))]
    pub fn into_proof(self) -> Proof
        requires { self.ended ≡ true }
        ensures { result ≡ self.nodes }
    {
        match Proof::make(self.nodes) {
            Ok(proof) => proof,
            Err(_) => unreachable!(),
        }
    }

    // Takes a node.
    #[tactic(auto, using(crate::proofs::TreeReads::never_open, crate::proofs::TreeReads::one_added, crate::proofs::Grown::grown_more))]
    fn add(&mut self, node: Node) -> Result<(), LineFault>
        requires { is_listed node ≡ true }
        ensures gives { LineGives result (with_node self.old node self.old.halves) self.new }
        ensures kept { OnErr result (self.new ≡ self.old) }
    {
        if self.halves == 0 {
            return Err(LineFault::Refused(CertCause::Shape));
        }
        let Some(halves) = opened(&node, self.halves - 1) else {
            return Err(LineFault::Memory);
        };
        if self.nodes.push(&node).is_err() {
            return Err(LineFault::Memory);
        }
        self.halves = halves;
        self.ended = false;
        Ok(())
    }

    // Takes the end.
    #[tactic(auto, using(crate::proofs::Grown::grown_end))]
    fn end(&mut self) -> Result<(), LineFault>
        ensures gives { LineGives result (with_end self.old) self.new }
        ensures kept { OnErr result (self.new ≡ self.old) }
    {
        if self.halves != 0 {
            return Err(LineFault::Refused(CertCause::Shape));
        }
        self.ended = true;
        Ok(())
    }

    /// Takes the words of a line; one that is refused changes nothing.
    #[tactic(auto, using(crate::proofs::TreeReads::words_behind, crate::proofs::TreeReads::words_end, crate::proofs::TreeReads::words_bad, crate::proofs::TreeReads::words_node, crate::proofs::Grown::listed_node))]
    pub fn take(&mut self, alloc: Global, line: &[u8]) -> Result<(), LineFault>
        ensures gives { LineGives result (with_words self.old (parts_of line.now)) self.new }
        ensures kept { OnErr result (self.new ≡ self.old) }
    {
        if self.ended {
            return Err(LineFault::Refused(CertCause::Form));
        }
        if is_end(line) {
            return self.end();
        }
        match read_node(alloc, Words::new(line)) {
            Err(_) => Err(LineFault::Memory),
            Ok(NodeRead::Malformed) => Err(LineFault::Refused(CertCause::Form)),
            Ok(NodeRead::Wide) => Err(LineFault::Refused(CertCause::Number)),
            Ok(NodeRead::Is(node)) => self.add(node),
        }
    }
}
