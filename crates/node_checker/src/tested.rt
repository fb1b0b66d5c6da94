//! What the nodes of a proof are tested against.

ghost use Rattle.std.specs.Prelude.{◌≡◌, true, IfOk};
ghost use Rattle.lp_frame.specs.Force.{is_bounded};
ghost use Rattle.node_checker.specs.Subjects.{Subject, IsAllowed};

use lp_frame::Force;
use milp_forces::Trail;
use outcomes::Memory;
use proof_tree::Split;
use std::alloc::Global;

/// What the nodes of a proof are tested against.
pub trait Tested {
    /// What nodes speak of.
    ghost subject: { Self → Subject };

    /// What holds where the trail stands, with the goal.
    fn force(&self, alloc: Global, trail: &Trail) -> Result<Force, Memory>
        requires { IsAllowed (subject self.now) trail.now }
        ensures force { IfOk result (λ force. force ≡ (subject self.now).force trail.now) }
        ensures bounded { IfOk result (λ force. is_bounded force ≡ true) };

    /// Whether the split may stand there.
    fn allows(&self, trail: &Trail, split: Split) -> bool
        requires { IsAllowed (subject self.now) trail.now }
        ensures { result ≡ (subject self.now).allows trail.now split };

    /// Whether the item is false there.
    fn is_false(&self, alloc: Global, trail: &Trail, item: u32) -> Result<bool, Memory>
        requires { IsAllowed (subject self.now) trail.now }
        ensures { IfOk result (λ answer. answer ≡ (subject self.now).is_false trail.now item) };
}
