//! Choices between two rows.

ghost use Rattle.std.specs.Prelude.{◌≡◌, ◌<◌, ◌≤◌, Some, IfOk};
ghost use Rattle.model_builder.specs.Building.{OpenDisjunction};
ghost use Rattle.model_builder.specs.Standing.{stands_for};
ghost use Rattle.model_maker.specs.Draws.{after};
ghost use Rattle.model_maker.specs.Generated.{choice_line as line_of};
ghost use Rattle.model_maker.specs.Steps.{CanChoose, CanTake, IsChosen, IsDeclared, row_of, with_alternative, with_choice, with_choices, with_some_first};

use crate::calls::{add_prop, add_row, close, numbered, open_choice, open_disjunct, whole};
use crate::draws::Draws;
use model_builder::ModelBuilder;
use outcomes::Memory;
use propositions::Prop;
use std::alloc::Global;

/// A row over a pair of variables: `first` times the one and `second` times the other are at most `right`.
#[derive(Clone, Copy, Debug)]
pub struct PairRow {
    pub pair: u32,
    pub first: u32,
    pub second: u32,
    pub right: u32,
}

/// The line of choice `i`, and behind the last one that of the proposition.
fn choice_line(size: u32, i: u32) -> u32
    requires size { size ≤ 20 }
    requires i { i ≤ size }
    ensures line { result ≡ line_of size i }
    ensures small { result < 1000 }
{
    2 * size + 3 + 8 * i
}

/// Adds a disjunct with one row to the choice that is open.
fn add_alternative(
    alloc: Global,
    builder: &mut ModelBuilder,
    name: &str,
    line: u32,
    row: PairRow,
) -> Result<(), Memory>
    requires taken { (d : OpenDisjunction) × CanTake name.now row (stands_for builder.old) d }
    requires line { line < 2000 }
    requires pair { row.pair < 1000 }
    ensures { (d : OpenDisjunction) → (stands_for builder.old).opened ≡ Some d →
        IfOk result (λ _. stands_for builder.new ≡ with_alternative name.now line (row_of row) (stands_for builder.old) d) }
{
    let x = 2 * row.pair;
    let terms = [(x, whole(row.first)), (x + 1, whole(row.second))];
    open_disjunct(alloc, builder, name, line)?;
    add_row(alloc, builder, &terms, row.right, line + 1)?;
    close(alloc, builder)
}

/// Adds a choice between two rows over pair `i`, whose numbers are drawn.
fn add_choice(
    alloc: Global,
    builder: &mut ModelBuilder,
    draws: &mut Draws,
    size: u32,
    i: u32,
) -> Result<(), Memory>
    requires size { size ≤ 20 }
    requires i { i < size }
    requires chosen { CanChoose size i (stands_for builder.old) }
    ensures drawn { IfOk result (λ _. draws.new ≡ after draws.old 4) }
    ensures added { IfOk result (λ _. stands_for builder.new ≡ with_choice draws.old size i (stands_for builder.old)) }
{
    let line = choice_line(size, i);
    let a = numbered(alloc, "a", i)?;
    let b = numbered(alloc, "b", i)?;
    let first = PairRow {
        pair: i,
        first: 1 + draws.draw(3),
        second: 1 + draws.draw(3),
        right: 6 + draws.draw(10),
    };
    let second = PairRow {
        pair: i,
        first: 1,
        second: 1,
        right: 3 + draws.draw(5),
    };
    open_choice(alloc, builder, line)?;
    add_alternative(alloc, builder, a.as_str(), line + 1, first)?;
    add_alternative(alloc, builder, b.as_str(), line + 4, second)?;
    close(alloc, builder)
}

/// Adds a choice for each pair.
pub fn add_choices(
    alloc: Global,
    builder: &mut ModelBuilder,
    draws: &mut Draws,
    size: u32,
) -> Result<(), Memory>
    requires size { size ≤ 20 }
    requires declared { IsDeclared size (stands_for builder.old) }
    ensures { IfOk result (λ _. stands_for builder.new ≡ with_choices (stands_for builder.old) draws.old size size) }
{
    for i in 0..size {
        add_choice(alloc, builder, draws, size, i)?;
    }
    Ok(())
}

/// Adds that at least one choice is the first of its two.
pub fn add_some_first(alloc: Global, builder: &mut ModelBuilder, size: u32) -> Result<(), Memory>
    requires some { 1 ≤ size }
    requires size { size ≤ 20 }
    requires chosen { IsChosen size (stands_for builder.old) }
    ensures { IfOk result (λ _. stands_for builder.new ≡ with_some_first size (stands_for builder.old)) }
{
    let mut firsts = Vec::new(alloc);
    for i in 0..size {
        firsts.push(Prop::Atom(2 * i))?;
    }
    let some = Prop::AtLeast(1, firsts);
    add_prop(alloc, builder, &some, choice_line(size, size))
}
