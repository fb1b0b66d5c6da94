//! Which disjunctions are rewritten by hull.

ghost use Rattle.std.specs.Prelude.{◌≡◌, ◌≤◌, ◌*◌, ◌++◌, ◌∷◌, ◌&&◌, length, nat_le, is_none, IfOk, OnOk};
ghost use Rattle.block_tree.specs.View.{block_of, disjunct_of, disjunction_of, disjuncts_of, disjunctions_of};
ghost use Rattle.bound_propagation.specs.Kept.{box_of};
ghost use Rattle.hull_rewrite.specs.Choices.{flags_below, flags_in, flags_within, is_small_hull as is_small_by, is_xor as is_mode_xor, takes_hull};
ghost use Rattle.hull_rewrite.specs.Expanded.{disjunct_count};

use crate::occurring::{first_unbounded, occurring_in};
use block_tree::{Block, Disjunct, Disjunction, Mode, Model};
use bound_propagation::Bounds;
use lp_rows::Flags;
use outcomes::Memory;
use std::alloc::Global;

/// How the disjunctions of mode xor are rewritten.
#[derive(Clone, Copy, Debug, PartialEq, Eq)]
pub enum Choice {
    /// All by big-M.
    BigM,
    /// All by hull.
    Hull,
    /// By hull where that takes few copies, of variables that have both bounds, and else by big-M.
    Hybrid,
}

/// Whether each disjunction of the model is rewritten by hull, in the order of the text.
pub fn hulled(
    alloc: Global,
    model: &Model,
    choice: Choice,
    bounds: &Bounds,
) -> Result<Flags, Memory>
    requires few { length bounds.now.lows ≤ 500 }
    ensures { IfOk result (λ flags. flags ≡ flags_in (takes_hull choice (length bounds.now.lows) (box_of bounds.now)) (block_of model.now.root)) }
{
    let mut flags = Flags::new(alloc);
    if add_block(alloc, &mut flags, model.root(), choice, bounds).is_err() {
        return Err(Memory);
    }
    Ok(flags)
}

/// Whether the disjunction is rewritten by hull.
pub fn is_hulled(
    alloc: Global,
    disjunction: &Disjunction,
    choice: Choice,
    bounds: &Bounds,
) -> Result<bool, Memory>
    requires few { length bounds.now.lows ≤ 500 }
    ensures { IfOk result (λ flag. flag ≡ (is_mode_xor (disjunction_of disjunction.now).0.mode && takes_hull choice (length bounds.now.lows) (box_of bounds.now) (disjunction_of disjunction.now).1)) }
{
    match disjunction.mode() {
        Mode::Or => Ok(false),
        Mode::Xor => match choice {
            Choice::BigM => Ok(false),
            Choice::Hull => Ok(true),
            Choice::Hybrid => is_small_hull(alloc, disjunction, bounds),
        },
    }
}

// Whether a hull takes few copies, of variables that have both bounds.
fn is_small_hull(alloc: Global, disjunction: &Disjunction, bounds: &Bounds) -> Result<bool, Memory>
    requires few { length bounds.now.lows ≤ 500 }
    ensures { IfOk result (λ flag. flag ≡ is_small_by (length bounds.now.lows) (box_of bounds.now) (disjunction_of disjunction.now).1) }
{
    match occurring_in(alloc, disjunction, bounds.len()) {
        Err(_) => Err(Memory),
        Ok(vars) => {
            let small = is_product_small(vars.len(), disjunction.disjuncts());
            Ok(small && first_unbounded(&vars, bounds).is_none())
        }
    }
}

// Whether that many variables times the disjuncts are at most 12.
fn is_product_small(count: usize, disjuncts: &[Disjunct]) -> bool
    ensures { result ≡ nat_le (count * disjunct_count (disjuncts_of disjuncts.now)) 12 }
{
    match count.checked_mul(disjuncts.len()) {
        Some(product) => product <= 12,
        None => false,
    }
}

#[cycle(flags)]
fn add_block(
    alloc: Global,
    flags: &mut Flags,
    block: &Block,
    choice: Choice,
    bounds: &Bounds,
) -> Result<(), Memory>
    requires few { length bounds.now.lows ≤ 500 }
    ensures { OnOk result (flags.new ≡ flags.old ++ flags_in (takes_hull choice (length bounds.now.lows) (box_of bounds.now)) (block_of block.now)) }
{
    add_disjunctions(alloc, flags, block.disjunctions(), choice, bounds)
}

#[cycle(flags)]
fn add_disjunctions(
    alloc: Global,
    flags: &mut Flags,
    disjunctions: &[Disjunction],
    choice: Choice,
    bounds: &Bounds,
) -> Result<(), Memory>
    requires few { length bounds.now.lows ≤ 500 }
    ensures { OnOk result (flags.new ≡ flags.old ++ flags_below (takes_hull choice (length bounds.now.lows) (box_of bounds.now)) (disjunctions_of disjunctions.now)) }
{
    for disjunction in disjunctions {
        let flag = is_hulled(alloc, disjunction, choice, bounds)?;
        flags.push(alloc, flag)?;
        add_disjuncts(alloc, flags, disjunction.disjuncts(), choice, bounds)?;
    }
    Ok(())
}

#[cycle(flags)]
fn add_disjuncts(
    alloc: Global,
    flags: &mut Flags,
    disjuncts: &[Disjunct],
    choice: Choice,
    bounds: &Bounds,
) -> Result<(), Memory>
    requires few { length bounds.now.lows ≤ 500 }
    ensures { OnOk result (flags.new ≡ flags.old ++ flags_within (takes_hull choice (length bounds.now.lows) (box_of bounds.now)) (disjuncts_of disjuncts.now)) }
{
    for disjunct in disjuncts {
        add_block(alloc, flags, disjunct.block(), choice, bounds)?;
    }
    Ok(())
}
