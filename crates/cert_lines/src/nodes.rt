//! The line of a node.

ghost use Rattle.std.specs.Prelude.{◌≡◌, IfOk};
ghost use Rattle.cert_grammar.specs.Nodes.{int_form, truth_form, logic_form, bounded_form, node_of, pairs_from};
ghost use Rattle.cert_lines.specs.NodeReads.{node_result, node_with, refuted_form, int_result, truth_result, logic_result, refuted_result, bounded_result};

use crate::number::{Natural, Whole, read_natural, read_whole};
use crate::pairs::{Pairs, read_pairs};
use crate::words::Words;
use outcomes::Memory;
use proof_tree::{Node, Split};
use std::alloc::Global;

/// A node, if a line spells one.
#[derive(Drop)]
pub enum NodeRead {
    /// The line has another form.
    Malformed,
    /// A number doesn't fit.
    Wide,
    /// The node.
    Is(Node),
}

fn int_node(column: Natural, at: Whole) -> NodeRead
    ensures { node_result result ≡ int_result column at }
{
    match column {
        Natural::Malformed => NodeRead::Malformed,
        Natural::Wide => match at {
            Whole::Malformed => NodeRead::Malformed,
            Whole::Wide => NodeRead::Wide,
            Whole::Is(_) => NodeRead::Wide,
        },
        Natural::Is(column) => match at {
            Whole::Malformed => NodeRead::Malformed,
            Whole::Wide => NodeRead::Wide,
            Whole::Is(at) => NodeRead::Is(Node::Split(Split::Int { column, at })),
        },
    }
}

fn truth_node(id: Natural) -> NodeRead
    ensures { node_result result ≡ truth_result id }
{
    match id {
        Natural::Malformed => NodeRead::Malformed,
        Natural::Wide => NodeRead::Wide,
        Natural::Is(id) => NodeRead::Is(Node::Split(Split::Truth { id })),
    }
}

fn logic_node(place: Natural) -> NodeRead
    ensures { node_result result ≡ logic_result place }
{
    match place {
        Natural::Malformed => NodeRead::Malformed,
        Natural::Wide => NodeRead::Wide,
        Natural::Is(place) => NodeRead::Is(Node::LogicFalse(place)),
    }
}

fn refuted_node(mults: Pairs) -> NodeRead
    ensures { node_result result ≡ refuted_result mults }
{
    match mults {
        Pairs::Malformed => NodeRead::Malformed,
        Pairs::Wide => NodeRead::Wide,
        Pairs::Are(mults) => NodeRead::Is(Node::Refuted(mults)),
    }
}

fn bounded_node(scale: Whole, mults: Pairs) -> NodeRead
    ensures { node_result result ≡ bounded_result scale mults }
{
    match mults {
        Pairs::Malformed => NodeRead::Malformed,
        Pairs::Wide => match scale {
            Whole::Malformed => NodeRead::Malformed,
            Whole::Wide => NodeRead::Wide,
            Whole::Is(_) => NodeRead::Wide,
        },
        Pairs::Are(mults) => match scale {
            Whole::Malformed => NodeRead::Malformed,
            Whole::Wide => NodeRead::Wide,
            Whole::Is(scale) => NodeRead::Is(Node::Bounded { scale, mults }),
        },
    }
}

#[tactic(auto, using(crate::proofs::NodeReads::int_is))]
fn read_int(words: Words<'_>) -> NodeRead
    ensures { node_result result ≡ node_with (int_form words.entry) }
{
    let mut left = words;
    let Some(column) = left.next() else {
        return NodeRead::Malformed;
    };
    let Some(at) = left.next() else {
        return NodeRead::Malformed;
    };
    match left.next() {
        None => int_node(read_natural(column), read_whole(at)),
        Some(_) => NodeRead::Malformed,
    }
}

#[tactic(auto, using(crate::proofs::NodeReads::truth_is))]
fn read_truth(words: Words<'_>) -> NodeRead
    ensures { node_result result ≡ node_with (truth_form words.entry) }
{
    let mut left = words;
    let Some(id) = left.next() else {
        return NodeRead::Malformed;
    };
    match left.next() {
        None => truth_node(read_natural(id)),
        Some(_) => NodeRead::Malformed,
    }
}

#[tactic(auto, using(crate::proofs::NodeReads::logic_is))]
fn read_logic(words: Words<'_>) -> NodeRead
    ensures { node_result result ≡ node_with (logic_form words.entry) }
{
    let mut left = words;
    let Some(place) = left.next() else {
        return NodeRead::Malformed;
    };
    match left.next() {
        None => logic_node(read_natural(place)),
        Some(_) => NodeRead::Malformed,
    }
}

#[tactic(auto, using(crate::proofs::NodeReads::refuted_is))]
fn read_refuted(alloc: Global, words: Words<'_>) -> Result<NodeRead, Memory>
    ensures { IfOk result (λ r. node_result r ≡ node_with (refuted_form words.entry)) }
{
    let mults = read_pairs(alloc, words)?;
    Ok(refuted_node(mults))
}

#[tactic(auto, using(crate::proofs::NodeReads::bounded_is))]
fn read_bounded(alloc: Global, words: Words<'_>) -> Result<NodeRead, Memory>
    ensures { IfOk result (λ r. node_result r ≡ node_with (bounded_form words.entry)) }
{
    let mut left = words;
    let Some(word) = left.next() else {
        return Ok(NodeRead::Malformed);
    };
    let scale = read_whole(word);
    let mults = read_pairs(alloc, left)?;
    Ok(bounded_node(scale, mults))
}

/// The node that a line's words spell.
#[tactic(auto, using(crate::proofs::NodeReads::node_with_is))]
pub fn read_node(alloc: Global, words: Words<'_>) -> Result<NodeRead, Memory>
    ensures { IfOk result (λ r. node_result r ≡ node_of words.entry) }
{
    let mut left = words;
    let Some(word) = left.next() else {
        return Ok(NodeRead::Malformed);
    };
    if word == b"int".as_slice() {
        return Ok(read_int(left));
    }
    if word == b"truth".as_slice() {
        return Ok(read_truth(left));
    }
    if word == b"refuted".as_slice() {
        return read_refuted(alloc, left);
    }
    if word == b"bounded".as_slice() {
        return read_bounded(alloc, left);
    }
    if word == b"logic".as_slice() {
        return Ok(read_logic(left));
    }
    Ok(NodeRead::Malformed)
}
