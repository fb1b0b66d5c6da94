//! Nodes are appended to bytes.

ghost use Rattle.std.specs.Prelude.{◌≡◌, ◌++◌, OnOk, OnErr, take, length, true};
ghost use Rattle.proof_tree.specs.declared.proof.Node.TheVariants.{Split as as_node};
ghost use Rattle.std.specs.List.{list_all};
ghost use Rattle.proof_tree.specs.Packing.{packed_pairs, packed_mults, packed_node, pair_fits, mults_fit, node_fits};
ghost use Rattle.packed_numbers.specs.Packed.{packed_natural, packed_number};

use crate::path::Split;
use crate::proof::Node;
use outcomes::Memory;
use packed_numbers::{push_natural, push_number};

// The kinds of nodes, as they stand before their numbers.
pub(crate) const INT: u64 = 0;

pub(crate) const TRUTH: u64 = 1;

pub(crate) const REFUTED: u64 = 2;

pub(crate) const BOUNDED: u64 = 3;

pub(crate) const LOGIC_FALSE: u64 = 4;

// Appends a multiplier behind its row.
fn push_pair(bytes: &mut Vec<u8>, pair: (u32, i128)) -> Result<(), Memory>
    ensures ok { OnOk result (bytes.new.items ≡ bytes.old.items ++ (packed_natural pair.0 ++ packed_number pair.1)) }
    ensures fits { OnOk result (pair_fits pair ≡ true) }
    ensures before { take (length bytes.old.items) bytes.new.items ≡ bytes.old.items }
{
    push_natural(bytes, u64::from(pair.0))?;
    push_number(bytes, pair.1)
}

// Appends multipliers behind their count.
fn push_mults(bytes: &mut Vec<u8>, mults: &[(u32, i128)]) -> Result<(), Memory>
    ensures ok { OnOk result (bytes.new.items ≡ bytes.old.items ++ packed_mults mults.now) }
    ensures fits { OnOk result (mults_fit mults.now ≡ true) }
    ensures before { take (length bytes.old.items) bytes.new.items ≡ bytes.old.items }
{
    push_natural(bytes, mults.len() as u64)?;
    for pair in mults {
        push_pair(bytes, *pair)?;
    }
    Ok(())
}

// Appends the kind of a split, and its numbers.
fn push_split(bytes: &mut Vec<u8>, split: Split) -> Result<(), Memory>
    ensures ok { OnOk result (bytes.new.items ≡ bytes.old.items ++ packed_node (as_node split)) }
    ensures fits { OnOk result (node_fits (as_node split) ≡ true) }
    ensures before { take (length bytes.old.items) bytes.new.items ≡ bytes.old.items }
{
    match split {
        Split::Int { column, at } => {
            push_natural(bytes, INT)?;
            push_natural(bytes, u64::from(column))?;
            push_number(bytes, at)
        }
        Split::Truth { id } => {
            push_natural(bytes, TRUTH)?;
            push_natural(bytes, u64::from(id))
        }
    }
}

// Appends the kind of a node, and its numbers; a refused one may leave some of them.
fn push_numbers(bytes: &mut Vec<u8>, node: &Node) -> Result<(), Memory>
    ensures ok { OnOk result (bytes.new.items ≡ bytes.old.items ++ packed_node node.now) }
    ensures fits { OnOk result (node_fits node.now ≡ true) }
    ensures before { take (length bytes.old.items) bytes.new.items ≡ bytes.old.items }
{
    match node {
        Node::Split(split) => push_split(bytes, *split),
        Node::Refuted(mults) => {
            push_natural(bytes, REFUTED)?;
            push_mults(bytes, mults.as_slice())
        }
        Node::Bounded { scale, mults } => {
            push_natural(bytes, BOUNDED)?;
            push_number(bytes, *scale)?;
            push_mults(bytes, mults.as_slice())
        }
        Node::LogicFalse(item) => {
            push_natural(bytes, LOGIC_FALSE)?;
            push_natural(bytes, u64::from(*item))
        }
    }
}

/// Appends a node; a refused one changes nothing.
pub(crate) fn push_node(bytes: &mut Vec<u8>, node: &Node) -> Result<(), Memory>
    ensures ok { OnOk result (bytes.new.items ≡ bytes.old.items ++ packed_node node.now) }
    ensures fits { OnOk result (node_fits node.now ≡ true) }
    ensures err { OnErr result (bytes.new.items ≡ bytes.old.items) }
{
    let length = bytes.len();
    let pushed = push_numbers(bytes, node);
    if pushed.is_err() {
        bytes.truncate(length);
    }
    pushed
}
