//! The walk over a proof's nodes.

ghost use Rattle.std.specs.Prelude.{◌≡◌, [], OnOk};
ghost use Rattle.outcomes.specs.Calls.{OrMemory};
ghost use Rattle.proof_tree.specs.Tree.{ProofTree, preorder, visits, next_path};
ghost use Rattle.proof_tree.specs.Paths.{rest_of};
ghost use Rattle.proof_tree.specs.Checks.{verdict};
ghost use Rattle.node_checker.specs.Tests.{least_of, node_test, Refuses};

use crate::errors::NodeError;
use crate::least::Least;
use crate::leaves::test_node;
use crate::tested::Tested;
use milp_forces::Trail;
use outcomes::Memory;
use proof_tree::{CheckError, Half, Node, Proof};
use std::alloc::Global;

/// Tests the nodes in preorder, each at its path: the first that fails, or in whose test a number is wide, decides.
///
/// With a value the proof is to show that no point has a better one, and else that there is no point. One path is kept,
/// which is as long as the node is deep, with the bounds that it sets, so that going on takes no longer where it is deep.
pub fn check_nodes<T: Tested>(
    alloc: Global,
    tested: &T,
    least: &Option<Least>,
    proof: &Proof,
) -> Result<(), CheckError>
    ensures { (t : ProofTree) → preorder t ≡ proof.now →
        OrMemory CheckError.Memory result (verdict (node_test (T.subject tested.now) (least_of least.now)) 0 (visits [] t)) }
{
    let mut trail = Trail::new(alloc);
    let mut number: u64 = 0;
    let mut nodes = proof.nodes();
    'nodes: while let Some(node) = nodes.next(alloc)? {
        match test_node(alloc, tested, least, &trail, &node) {
            Ok(()) => {}
            Err(error) => return Err(refusal(number, error)),
        }
        number += 1;
        if step(&mut trail, node).is_err() {
            return Err(CheckError::Memory);
        }
    }
    Ok(())
}

// Why the proof is refused, where the node of this number is.
fn refusal(node: u64, error: NodeError) -> CheckError
    ensures { Refuses node error result }
{
    match error {
        NodeError::Fails(cause) => CheckError::At { node, cause },
        NodeError::Memory => CheckError::Memory,
    }
}

// Goes on from a node's path to that of the next node.
fn step(trail: &mut Trail, node: Node) -> Result<(), Memory>
    ensures { OnOk result (trail.new ≡ rest_of (next_path trail.old node)) }
{
    match node {
        Node::Split(split) => trail.push(Half {
            split,
            second: false,
        }),
        _ => trail.advance(),
    }
}
