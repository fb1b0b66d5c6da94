//! Proof trees as lists of nodes in preorder, and the walk that tests them.
//!
//! Its contract in one sentence: a list is a proof exactly where it is the preorder of one tree whose multipliers ascend
//! by row and are not 0, and the walk answers the first node's test that fails; where all pass and the tests are sound,
//! every point is as they claim.
//!
//! Read `path.rt` with `specs/Paths.antt` for splits, halves and paths; `proof.rt` with `specs/Tree.antt` for which
//! lists are proofs; `list.rt` with `specs/Lists.antt` and `specs/Packing.antt` for how a list of nodes is kept as
//! bytes, which `pack.rt` writes and `unpack.rt` reads; `checker.rt` with `specs/Checks.antt` for what the walk
//! answers. The walk keeps one path and takes memory by depth alone.
#![tactic(auto)]

mod checker;
mod list;
mod pack;
mod path;
mod proof;
mod unpack;

pub use checker::{Cause, CheckError, Tests, check};
pub use list::{NodeList, Nodes};
pub use path::{Half, Path, Split};
pub use proof::{Node, Proof};
