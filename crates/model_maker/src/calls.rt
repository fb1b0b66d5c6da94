//! Calls of a builder that it does not refuse, so that only memory can run out.

ghost use Rattle.std.specs.Prelude.{◌≡◌, true, IfOk, Ok, is_ok, string_bytes};
ghost use Rattle.model_builder.specs.Building.{finish_outcome, row_outcome, var_outcome};
ghost use Rattle.model_builder.specs.Nesting.{close_outcome, goal_outcome, open_disjunct_outcome, open_disjunction_outcome};
ghost use Rattle.model_builder.specs.Props.{prop_outcome};
ghost use Rattle.model_builder.specs.Standing.{stands_for};
ghost use Rattle.model_tree.specs.Values.{model_tree};
ghost use Rattle.propositions.specs.View.{prop_tree};
ghost use Rattle.model_maker.specs.Generated.{numbered as numbered_of, up_to, whole as whole_of};
ghost use Rattle.model_maker.specs.Steps.{IsAccepted};

use fractions::Frac;
use lp_rows::{Kind, Rel, Sense};
use model_builder::ModelBuilder;
use model_tree::{Bound, Mode, Model};
use outcomes::Memory;
use propositions::Prop;
use std::alloc::Global;

/// A whole number as a fraction.
pub fn whole(number: u32) -> Frac
    ensures { result ≡ whole_of number }
{
    Frac::reduced(i128::from(number), 1)
}

/// A letter and a number.
pub fn numbered(alloc: Global, letter: &str, number: u32) -> Result<String, Memory>
    ensures { IfOk result (λ name. string_bytes name ≡ numbered_of letter.now number) }
{
    let name = format!(in alloc; "{letter}{number}")?;
    Ok(name)
}

/// Declares a variable from 0 to a number.
pub fn add_var(
    alloc: Global,
    builder: &mut ModelBuilder,
    name: &str,
    kind: Kind,
    high: u32,
    line: u32,
) -> Result<(), Memory>
    requires { IsAccepted (var_outcome name.now kind (up_to high) line (stands_for builder.old)) }
    ensures { IfOk result (λ _. stands_for builder.new ≡ (var_outcome name.now kind (up_to high) line (stands_for builder.old)).1) }
{
    let bound = Bound {
        low: Some(whole(0)),
        high: Some(whole(high)),
    };
    match builder.var(alloc, name, kind, bound, line) {
        Ok(_) => Ok(()),
        Err(_) => Err(Memory),
    }
}

/// Sets the goal, to be maximised.
pub fn set_goal(
    alloc: Global,
    builder: &mut ModelBuilder,
    terms: &[(u32, Frac)],
    line: u32,
) -> Result<(), Memory>
    requires { IsAccepted (goal_outcome Sense.Max terms.now (whole_of 0) line (stands_for builder.old)) }
    ensures { IfOk result (λ _. stands_for builder.new ≡ (goal_outcome Sense.Max terms.now (whole_of 0) line (stands_for builder.old)).1) }
{
    match builder.goal(alloc, Sense::Max, terms, whole(0), line) {
        Ok(()) => Ok(()),
        Err(_) => Err(Memory),
    }
}

/// Opens a choice of exactly one.
pub fn open_choice(alloc: Global, builder: &mut ModelBuilder, line: u32) -> Result<(), Memory>
    requires { IsAccepted (open_disjunction_outcome Mode.Xor line (stands_for builder.old)) }
    ensures { IfOk result (λ _. stands_for builder.new ≡ (open_disjunction_outcome Mode.Xor line (stands_for builder.old)).1) }
{
    match builder.open_disjunction(alloc, Mode::Xor, line) {
        Ok(()) => Ok(()),
        Err(_) => Err(Memory),
    }
}

/// Opens a disjunct of the choice that is open.
pub fn open_disjunct(
    alloc: Global,
    builder: &mut ModelBuilder,
    name: &str,
    line: u32,
) -> Result<(), Memory>
    requires { IsAccepted (open_disjunct_outcome name.now line (stands_for builder.old)) }
    ensures { IfOk result (λ _. stands_for builder.new ≡ (open_disjunct_outcome name.now line (stands_for builder.old)).1) }
{
    match builder.open_disjunct(alloc, name, line) {
        Ok(_) => Ok(()),
        Err(_) => Err(Memory),
    }
}

/// Adds a row of terms that are at most a number.
pub fn add_row(
    alloc: Global,
    builder: &mut ModelBuilder,
    terms: &[(u32, Frac)],
    right: u32,
    line: u32,
) -> Result<(), Memory>
    requires { IsAccepted (row_outcome terms.now Rel.AtMost (whole_of right) line (stands_for builder.old)) }
    ensures { IfOk result (λ _. stands_for builder.new ≡ (row_outcome terms.now Rel.AtMost (whole_of right) line (stands_for builder.old)).1) }
{
    match builder.row(alloc, terms, Rel::AtMost, whole(right), line) {
        Ok(()) => Ok(()),
        Err(_) => Err(Memory),
    }
}

/// Adds a proposition.
pub fn add_prop(
    alloc: Global,
    builder: &mut ModelBuilder,
    prop: &Prop,
    line: u32,
) -> Result<(), Memory>
    requires { IsAccepted (prop_outcome (prop_tree prop.now) line (stands_for builder.old)) }
    ensures { IfOk result (λ _. stands_for builder.new ≡ (prop_outcome (prop_tree prop.now) line (stands_for builder.old)).1) }
{
    match builder.prop(alloc, prop, line) {
        Ok(()) => Ok(()),
        Err(_) => Err(Memory),
    }
}

/// Closes the innermost disjunct or choice that is open.
pub fn close(alloc: Global, builder: &mut ModelBuilder) -> Result<(), Memory>
    requires { IsAccepted (close_outcome (stands_for builder.old)) }
    ensures { IfOk result (λ _. stands_for builder.new ≡ (close_outcome (stands_for builder.old)).1) }
{
    match builder.close(alloc) {
        Ok(()) => Ok(()),
        Err(_) => Err(Memory),
    }
}

/// The model of all that was given.
pub fn finish(alloc: Global, builder: ModelBuilder) -> Model
    requires { is_ok (finish_outcome (stands_for builder)) ≡ true }
    ensures { finish_outcome (stands_for builder) ≡ Ok (model_tree result) }
{
    match builder.finish(alloc) {
        Ok(model) => model,
        Err(_) => unreachable!(),
    }
}
