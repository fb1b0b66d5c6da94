//! The nodes of a problem.

ghost use Rattle.std.specs.Prelude.{◌≡◌, true, ℕ, List, Bool, Option, None, Result, IfOk};
ghost use Rattle.int_linear.specs.Sums.{at as at_place};
ghost use Rattle.lp_rows.specs.declared.columns.WideAt.{WideAt};
ghost use Rattle.lp_rows.specs.Points.{PointValue};
ghost use Rattle.lp_frame.specs.declared.force.Force.{Force};
ghost use Rattle.lp_frame.specs.Force.{is_bounded, IsForcePoint};
ghost use Rattle.proof_tree.specs.declared.path.Split.{Split};
ghost use Rattle.proof_tree.specs.declared.path.Half.{Half};
ghost use Rattle.settling.specs.declared.ending.Found.{Found};
ghost use Rattle.settling.specs.Reading.{Answers};

use crate::ending::{Found, TestError};
use lp_frame::Force;
use lp_rows::Point;
use outcomes::Memory;
use proof_tree::{Path, Split};
use std::alloc::Global;

/// The nodes of a problem, each named by its path.
pub trait Nodes {
    /// The splits of the path may stand there.
    ghost ready: { Self → List Half → Type 0 };

    /// An item that is false at the path.
    ghost dead_of: { Self → List Half → Option ℕ };

    /// What holds at the path, with the goal or without.
    ghost force_of: { Self → List Half → Bool → Force };

    /// A split that is to be made at an unbounded node before its point is read.
    ghost loose_of: { Self → List Half → Option Split };

    /// What the test of a point finds at the path.
    ghost test_of: { Self → List Half → PointValue → Result Found WideAt };

    /// An item that is false.
    fn dead(&self, path: &Path) -> Result<Option<u32>, Memory>
        requires { ready self.now path.now }
        ensures { IfOk result (λ item. item ≡ dead_of self.now path.now) };

    /// What holds.
    fn force(&self, alloc: Global, path: &Path, goal: bool) -> Result<Force, Memory>
        requires { ready self.now path.now }
        ensures { IfOk result (λ force. force ≡ force_of self.now path.now goal) };

    /// A split to be made first.
    fn loose(&self, path: &Path) -> Option<Split>
        requires { ready self.now path.now }
        ensures { result ≡ loose_of self.now path.now };

    /// Tests a point that holds in the path's force.
    fn test(&self, alloc: Global, path: &Path, at: &Point) -> Result<Found, TestError>
        requires ready { ready self.now path.now }
        requires dead { dead_of self.now path.now ≡ None }
        requires holds { (goal : Bool) × IsForcePoint (force_of self.now path.now goal) at.now.over (at_place at.now.nums) }
        ensures { Answers (λ r. r ≡ test_of self.now path.now at.now) result };

    ghost bounded: { (me : Self) (path : List Half) (goal : Bool) → ready me path → is_bounded (force_of me path goal) ≡ true };
}
