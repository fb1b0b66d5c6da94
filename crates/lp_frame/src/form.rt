//! The standard form, in which every column is non-negative.

ghost use Rattle.std.specs.Prelude.{◌≡◌, ◌≤◌, ◌<◌, ◌+◌, ◌^◌, ◌++◌, true, length, map, OnOk, IfOk};
ghost use Rattle.std.specs.List.{list_all};
ghost use Rattle.lp_rows.specs.Holding.{ids_below};
ghost use Rattle.lp_frame.specs.Split.{place, ArePlaces, split_term, split_terms as terms_over_split};
ghost use Rattle.lp_frame.specs.Force.{are_terms, is_row, is_bounded};
ghost use Rattle.fractions.specs.Width.{is_narrow};
ghost use Rattle.lp_frame.specs.Standard.{is_standard, standard_of, split_row, SamePoints};

use crate::force::{AtMost, AtMostList, Force};
use crate::sizes::{split_count, width};
use lp_rows::{Col, Sign, Terms};
use outcomes::Memory;
use std::alloc::Global;
use std::marker::Model;

/// A standard form: rows and a goal over columns that are all non-negative.
#[derive(Drop)]
pub struct StandardForm {
    columns: u32,
    rows: AtMostList,
    goal: Terms,
}

impl Model for StandardForm {
    ghost use Rattle.std.specs.Prelude.{◌≡◌, true};
    ghost use Rattle.lp_frame.specs.Standard.{Standard, is_standard};

    ghost Value = { Standard };

    ghost view = { λ s. record { columns = s.columns; rows = s.rows; goal = s.goal } };

    ghost invariant = { λ s. is_standard (record { columns = s.columns; rows = s.rows; goal = s.goal }) ≡ true };
}

impl StandardForm {
    /// How many columns there are.
    pub fn columns(&self) -> u32
        ensures value { result ≡ self.now.columns }
        ensures sound { is_standard self.now ≡ true }
    {
        self.columns
    }

    /// The rows.
    pub fn rows(&self) -> &[AtMost]
        ensures { result.now ≡ self.now.rows }
    {
        self.rows.as_slice()
    }

    /// The goal's terms; the goal is to be minimised.
    pub fn goal(&self) -> &[(u32, i128)]
        ensures { result.now ≡ self.now.goal }
    {
        self.goal.as_slice()
    }
}

/// The standard form of a force: each free column split into a plus and a minus column, side by side.
pub fn standard(alloc: Global, force: &Force) -> Result<StandardForm, Memory>
    requires { is_bounded force.now ≡ true }
    ensures form { IfOk result (λ form. form ≡ standard_of force.now) }
    ensures points { IfOk result (SamePoints force.now) }
{
    let cols = force.cols.as_slice();
    let places = places_of(alloc, cols)?;
    let rows = split_rows(alloc, cols, &places, force.rows.as_slice())?;
    let goal = split_terms(alloc, cols, &places, force.goal.as_slice())?;
    Ok(StandardForm {
        columns: split_count(cols) as u32,
        rows,
        goal,
    })
}

// The first column that each column becomes.
fn places_of(alloc: Global, cols: &[Col]) -> Result<Vec<u32>, Memory>
    requires { place cols.now (length cols.now) ≤ 4000 }
    ensures { IfOk result (λ places. ArePlaces cols.now places.items) }
{
    let mut places = Vec::new(alloc);
    let mut next: u32 = 0;
    for col in cols {
        places.push(next)?;
        next += width(col.sign) as u32;
    }
    Ok(places)
}

fn split_rows(
    alloc: Global,
    cols: &[Col],
    places: &[u32],
    rows: &[AtMost],
) -> Result<AtMostList, Memory>
    requires places { ArePlaces cols.now places.now }
    requires few { place cols.now (length cols.now) ≤ 4000 }
    requires rows { list_all (is_row (length cols.now)) rows.now ≡ true }
    ensures { IfOk result (λ split. split ≡ map (split_row cols.now) rows.now) }
{
    let mut split = AtMostList::from_vec(Vec::with_capacity(alloc, rows.len())?);
    for row in rows {
        let terms = split_terms(alloc, cols, places, row.terms.as_slice())?;
        split.push(
            alloc,
            AtMost {
                terms,
                bound: row.bound,
            },
        )?;
    }
    Ok(split)
}

fn split_terms(
    alloc: Global,
    cols: &[Col],
    places: &[u32],
    terms: &[(u32, i128)],
) -> Result<Terms, Memory>
    requires places { ArePlaces cols.now places.now }
    requires few { place cols.now (length cols.now) ≤ 4000 }
    requires terms { are_terms (length cols.now) terms.now ≡ true }
    ensures { IfOk result (λ split. split ≡ terms_over_split cols.now terms.now) }
{
    let mut split = Terms::new(alloc);
    for term in terms {
        let id = term.0 as usize;
        push_split(alloc, &mut split, cols[id].sign, places[id], term.1)?;
    }
    Ok(split)
}

// Adds a term over the columns that its column becomes.
fn push_split(
    alloc: Global,
    split: &mut Terms,
    sign: Sign,
    place: u32,
    coefficient: i128,
) -> Result<(), Memory>
    requires few { place < 2 ^ 16 }
    requires narrow { is_narrow coefficient ≡ true }
    ensures { OnOk result (split.new ≡ split.old ++ split_term sign place coefficient) }
{
    split.push(alloc, (place, coefficient))?;
    match sign {
        Sign::Free => split.push(alloc, (place + 1, -coefficient)),
        Sign::Nonneg => Ok(()),
    }
}
