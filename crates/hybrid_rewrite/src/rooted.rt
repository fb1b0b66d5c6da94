//! The root block of a model.

ghost use Rattle.std.specs.Prelude.{◌≡◌, ◌≤◌, ◌^◌, Bool, length, IfOk};
ghost use Rattle.block_tree.specs.Tree.{Disjuncts};
ghost use Rattle.block_tree.specs.Values.{model_tree};
ghost use Rattle.bound_propagation.specs.Kept.{box_of};
ghost use Rattle.bound_propagation.specs.Propagated.{box_after};
ghost use Rattle.emission.specs.Items.{always};
ghost use Rattle.emission.specs.Run.{Runs};
ghost use Rattle.emission.specs.Sums.{nothing};
ghost use Rattle.emission.specs.View.{state_of, open_sum};
ghost use Rattle.hull_rewrite.specs.Choices.{flags_in};
ghost use Rattle.hull_rewrite.specs.Expanded.{listed_frame};
ghost use Rattle.hybrid_rewrite.specs.Blocks.{block_items};
ghost use Rattle.hybrid_rewrite.specs.Rewritten.{same_place, setting_of};

use crate::framed::emit_framed;
use crate::guards::Guard;
use block_tree::Model;
use bound_propagation::Bounds;
use emission::{Emitter, Halt};
use outcomes::Memory;
use std::alloc::Global;

// The frame of the variables themselves.
fn own_frame(alloc: Global, count: usize) -> Result<Vec<u32>, Memory>
    requires few { count ≤ 2 ^ 31 }
    ensures { IfOk result (λ frame. frame.items ≡ listed_frame count same_place) }
{
    let mut frame = Vec::new(alloc);
    for var in 0..count {
        if frame.push(var as u32).is_err() {
            return Err(Memory);
        }
    }
    Ok(frame)
}

/// The root block of a model: its rows, its propositions and its disjunctions, each by big-M or by hull as its
/// flag says. The variables are the first columns, and the Booleans the next.
pub fn emit_root(model: &Model, flags: &[bool], bounds: &Bounds, out: &mut Emitter)
    requires empty { open_sum out.old ≡ nothing }
    requires count { length bounds.now.lows ≡ length model.now.vars }
    requires boxed { box_of bounds.now ≡ box_after (model_tree model.now) }
    ensures runs { (h : Disjuncts → Bool) → flags.now ≡ flags_in h (model_tree model.now).root → Runs (block_items (setting_of (model_tree model.now) h) same_place always always (length (state_of out.old).milp.cols) (model_tree model.now).root) (state_of out.old) (state_of out.new) }
    ensures empty { open_sum out.new ≡ nothing }
{
    let count = model.vars().len();
    match own_frame(out.alloc(), count) {
        Err(_) => out.stop(Halt::Memory),
        Ok(frame) => emit_framed(
            model.root(),
            count as u32,
            &frame,
            Guard::Always,
            Guard::Always,
            flags,
            0,
            bounds,
            out,
        ),
    }
}
