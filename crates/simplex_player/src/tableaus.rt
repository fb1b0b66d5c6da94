//! The lines about tableaus.

use crate::rows::point_text;
use exact_simplex::{Event, Log, Move, Tableau};
use lp_frame::{Force, bounded, standard};
use script::{Trouble, add_to, shown, terms_text};
use std::alloc::Global;

/// The most moves of a run.
const MOST: u32 = 20;

/// A tableau with the log of its moves.
#[derive(Drop)]
pub struct Table {
    tableau: Tableau,
    log: Log,
}

impl Table {
    /// The first tableau of the force's standard form.
    pub fn make(alloc: Global, force: &Force) -> Result<Table, Trouble> {
        if !bounded(force) {
            return Err(Trouble::Line);
        }
        let form = standard(alloc, force)?;
        Ok(Table {
            tableau: Tableau::make(alloc, &form)?,
            log: Log::new(alloc, MOST)?,
        })
    }
}

/// What these words ask of a tableau.
pub fn ask_table(alloc: Global, table: &mut Table, words: &[&str]) -> Result<String, Trouble> {
    match words {
        ["run"] => run(alloc, table),
        ["run_no_step"] => run_no_step(alloc, table),
        ["moves"] => moves(alloc, table.log.events()),
        ["level"] => level(alloc, &table.tableau),
        ["multipliers_of"] => multipliers(alloc, &table.tableau),
        ["point_of"] => point(alloc, &table.tableau),
        ["ray_of"] => ray(alloc, &table.tableau),
        _ => Err(Trouble::Line),
    }
}

// How the run ends that makes as many moves as the log has room for.
fn run(alloc: Global, table: &mut Table) -> Result<String, Trouble> {
    let mut steps = table.log.spare();
    let outcome = table.tableau.run(&mut steps, &mut table.log);
    let text = format!(in alloc; "{outcome:?}")?;
    Ok(text)
}

fn run_no_step(alloc: Global, table: &mut Table) -> Result<String, Trouble> {
    let mut steps = 0;
    let outcome = table.tableau.run(&mut steps, &mut table.log);
    let text = format!(in alloc; "{outcome:?}")?;
    Ok(text)
}

// Of each move the column that enters and the one that leaves.
fn moves(alloc: Global, events: &[Event]) -> Result<String, Trouble> {
    let mut text = String::new(alloc);
    for event in events {
        let Event::Move { enter, leave } = *event else {
            return Err(Trouble::Line);
        };
        add_to(&mut text, format!(in alloc; "{enter}-{leave}")?.as_str())?;
    }
    Ok(text)
}

// The level of an optimal tableau, and its scale.
fn level(alloc: Global, tableau: &Tableau) -> Result<String, Trouble> {
    let Move::Optimal = tableau.bland() else {
        return Err(Trouble::Line);
    };
    let (level, scale) = (tableau.level(), tableau.scale());
    let (num, den) = (level.num(), level.den());
    let text = format!(in alloc; "{num}/{den} scale {scale}")?;
    Ok(text)
}

fn multipliers(alloc: Global, tableau: &Tableau) -> Result<String, Trouble> {
    let read = match tableau.bland() {
        Move::Optimal => tableau.multipliers(alloc)?,
        Move::Infeasible => tableau.multipliers(alloc)?,
        _ => return Err(Trouble::Line),
    };
    terms_text(alloc, read.as_slice())
}

fn point(alloc: Global, tableau: &Tableau) -> Result<String, Trouble> {
    match tableau.point(alloc) {
        Ok(point) => point_text(alloc, &point),
        Err(refusal) => {
            let text = format!(in alloc; "{refusal:?}")?;
            Ok(text)
        }
    }
}

fn ray(alloc: Global, tableau: &Tableau) -> Result<String, Trouble> {
    let Move::Unbounded { enter } = tableau.bland() else {
        return Err(Trouble::Line);
    };
    match tableau.ray(alloc, enter) {
        Ok(nums) => {
            let mut text = String::new(alloc);
            for number in nums.as_slice() {
                add_to(&mut text, shown(alloc, number)?.as_str())?;
            }
            Ok(text)
        }
        Err(refusal) => {
            let text = format!(in alloc; "{refusal:?}")?;
            Ok(text)
        }
    }
}
