//! The walk over a proof that tests its nodes.

ghost use Rattle.std.specs.Prelude.{◌≡◌, ◌⊎◌, List, [], Result, Ok, OnOk};
ghost use Rattle.proof_tree.specs.declared.path.Half.{Half};
ghost use Rattle.proof_tree.specs.declared.proof.Node.{Node};
ghost use Rattle.proof_tree.specs.declared.checker.Cause.{Cause};
ghost use Rattle.proof_tree.specs.Tree.{ProofTree, preorder, visits};
ghost use Rattle.outcomes.specs.Calls.{OrMemory};
ghost use Rattle.proof_tree.specs.Checks.{verdict, AreSound};

use crate::path::{Half, Path};
use crate::proof::{Node, Proof};
use lp_rows::WideAt;
use outcomes::Memory;
use std::alloc::Global;

/// Why a node fails.
#[derive(Clone, Copy, Debug, PartialEq, Eq)]
pub enum Cause {
    /// A split that may not stand there.
    Tree,
    /// A leaf that closes nothing.
    Leaf,
    /// A number left 128 bits.
    Wide(WideAt),
}

/// Why a proof is refused.
#[derive(Drop)]
pub enum CheckError {
    /// A node fails.
    At {
        /// Its number in preorder.
        node: u64,
        /// Why.
        cause: Cause,
    },
    /// Memory ran out.
    Memory,
}

impl From<Memory> for CheckError {
    ghost use Rattle.std.specs.Prelude.{◌≡◌};
    ghost use Rattle.proof_tree.specs.declared.checker.CheckError.{CheckError};

    ghost from_gives = { λ _ error. error ≡ CheckError.Memory };

    fn from(_error: Memory) -> CheckError {
        CheckError::Memory
    }
}

/// The tests of a proof's nodes.
pub trait Tests {
    /// What the test of a node at a path answers.
    ghost outcome: { Self → List Half → Node → Result (Unit {0}) Cause };

    /// The points.
    ghost Point: { Type 0 };

    /// A point that lies on a path.
    ghost holds: { Self → List Half → Point → Type 0 };

    /// What is to be shown of all points.
    ghost good: { Self → Point → Type 0 };

    /// Tests a node.
    fn test(&self, path: &Path, node: &Node) -> Result<(), Cause>
        ensures { result ≡ outcome self.now path.now node.now };

    ghost sound: { (me : Self) → AreSound Point (outcome me) (holds me) (good me) };
}

/// Tests the nodes in preorder.
pub fn check<T: Tests>(tests: &T, proof: &Proof, alloc: Global) -> Result<(), CheckError>
    ensures first { (t : ProofTree) → preorder t ≡ proof.now → OrMemory CheckError.Memory result (verdict (T.outcome tests.now) 0 (visits [] t)) }
    ensures sound { OnOk result ((x : T.Point) → T.holds tests.now [] x → T.good tests.now x) }
{
    let mut path = Path::new(alloc);
    let mut number: u64 = 0;
    let mut nodes = proof.nodes();
    'nodes: while let Some(node) = nodes.next(alloc)? {
        match tests.test(&path, &node) {
            Ok(()) => {}
            Err(cause) => return Err(CheckError::At {
                node: number,
                cause,
            }),
        }
        number += 1;
        match node {
            Node::Split(split) => {
                if path
                    .push(Half {
                        split,
                        second: false,
                    })
                    .is_err()
                {
                    return Err(CheckError::Memory);
                }
            }
            _ => {
                let _more = path.advance();
            }
        }
    }
    Ok(())
}
