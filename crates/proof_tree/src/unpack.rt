//! Nodes are read from packed numbers.

ghost use Rattle.std.specs.Prelude.{◌≡◌, ◌<◌, ◌^◌, IfOk, OnOk, true};
ghost use Rattle.packed_numbers.specs.Packed.{natural_in};
ghost use Rattle.proof_tree.specs.Packing.{mults_in, pair_in, kind_in, node_in, pair_fits, mults_fit, node_fits};

use crate::pack::{BOUNDED, INT, REFUTED, TRUTH};
use crate::path::Split;
use crate::proof::Node;
use lp_frame::Mults;
use outcomes::Memory;
use packed_numbers::Numbers;
use std::alloc::Global;

// Takes a natural number of 32 bits.
fn read_short(numbers: &mut Numbers<'_>) -> u32
    requires { (natural_in numbers.old).0 < 2 ^ 32 }
    ensures number { result ≡ (natural_in numbers.old).0 }
    ensures rest { numbers.new ≡ (natural_in numbers.old).1 }
{
    numbers.natural() as u32
}

// Takes a multiplier behind its row.
fn read_pair(numbers: &mut Numbers<'_>) -> (u32, i128)
    requires { pair_fits (pair_in numbers.old).0 ≡ true }
    ensures pair { result ≡ (pair_in numbers.old).0 }
    ensures rest { numbers.new ≡ (pair_in numbers.old).1 }
{
    let row = read_short(numbers);
    let multiplier = numbers.number();
    (row, multiplier)
}

// Takes multipliers behind their count.
fn read_mults(alloc: Global, numbers: &mut Numbers<'_>) -> Result<Mults, Memory>
    requires { mults_fit (mults_in numbers.old).0 ≡ true }
    ensures mults { IfOk result (λ mults. mults ≡ (mults_in numbers.old).0) }
    ensures rest { OnOk result (numbers.new ≡ (mults_in numbers.old).1) }
{
    let mut left = numbers.natural();
    let mut mults = Vec::with_capacity(alloc, left as usize)?;
    while left > 0 {
        mults.push_reserved(read_pair(numbers));
        left -= 1;
    }
    Ok(Mults::from_vec(mults))
}

// Takes the numbers of a node of this kind.
fn read_kind(alloc: Global, kind: u64, numbers: &mut Numbers<'_>) -> Result<Node, Memory>
    requires { node_fits (kind_in kind numbers.old).0 ≡ true }
    ensures node { IfOk result (λ node. node ≡ (kind_in kind numbers.old).0) }
    ensures rest { OnOk result (numbers.new ≡ (kind_in kind numbers.old).1) }
{
    match kind {
        INT => {
            let column = read_short(numbers);
            let at = numbers.number();
            Ok(Node::Split(Split::Int { column, at }))
        }
        TRUTH => {
            let id = read_short(numbers);
            Ok(Node::Split(Split::Truth { id }))
        }
        REFUTED => Ok(Node::Refuted(read_mults(alloc, numbers)?)),
        BOUNDED => {
            let scale = numbers.number();
            let mults = read_mults(alloc, numbers)?;
            Ok(Node::Bounded { scale, mults })
        }
        _ => Ok(Node::LogicFalse(read_short(numbers))),
    }
}

/// Takes a node.
pub(crate) fn read_node(alloc: Global, numbers: &mut Numbers<'_>) -> Result<Node, Memory>
    requires kind { (natural_in numbers.old).0 < 2 ^ 64 }
    requires fits { node_fits (node_in numbers.old).0 ≡ true }
    ensures node { IfOk result (λ node. node ≡ (node_in numbers.old).0) }
    ensures rest { OnOk result (numbers.new ≡ (node_in numbers.old).1) }
{
    let kind = numbers.natural();
    read_kind(alloc, kind, numbers)
}
