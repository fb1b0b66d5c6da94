//! The lines about forces and standard forms.

ghost use Rattle.std.specs.Prelude.{◌↔◌, pos, ◌≤ℤ◌, All, IsTrue};

use crate::bench::column;
use crate::rows::point_text;
use lp_frame::{AtMost, AtMostList, Force, Mults, bounded, lift, standard};
use lp_rows::{ColList, Point, Terms};
use script::{Trouble, add_to, number, numbers, shown, terms_text};
use std::alloc::Global;

/// What these words ask about a force, or none where they ask something else.
pub fn ask_force(alloc: Global, force: &Force, words: &[&str]) -> Result<Option<String>, Trouble> {
    let answer = match words {
        ["bounded"] => shown(alloc, &bounded(force))?,
        ["standard"] => standard_text(alloc, force)?,
        ["lift", over, words @ ..] => lifted(alloc, force, over, words)?,
        _ => return Ok(None),
    };
    Ok(Some(answer))
}

// How many columns the standard form has, its goal, and its rows with their bounds.
fn standard_text(alloc: Global, force: &Force) -> Result<String, Trouble> {
    if !bounded(force) {
        return Err(Trouble::Line);
    }
    let form = standard(alloc, force)?;
    let (columns, goal) = (form.columns(), terms_text(alloc, form.goal())?);
    let mut text = format!(in alloc; "{columns} columns, goal {goal}")?;
    for row in form.rows() {
        let (terms, bound) = (terms_text(alloc, row.terms.as_slice())?, row.bound);
        add_to(
            &mut text,
            format!(in alloc; "row {terms} at most {bound}")?.as_str(),
        )?;
    }
    Ok(text)
}

fn none_negative(nums: &[i128]) -> bool
    ensures { IsTrue result ↔ All (λ n. pos 0 ≤ℤ n) nums.now }
{
    nums.iter().all(|n| *n >= 0)
}

// The point of a force whose split point this is.
fn lifted(alloc: Global, force: &Force, over: &str, words: &[&str]) -> Result<String, Trouble> {
    let nums = numbers(alloc, words)?;
    let Ok(split) = Point::make(alloc, number(over)?, nums.as_slice()) else {
        return Err(Trouble::Line);
    };
    if !bounded(force) || !none_negative(split.nums()) {
        return Err(Trouble::Line);
    }
    let form = standard(alloc, force)?;
    if split.nums().len() != form.columns() as usize {
        return Err(Trouble::Line);
    }
    point_text(alloc, &lift(alloc, force, &split)?)
}

/// Whether a force of that many columns of one kind and that many empty rows is bounded.
pub fn large(alloc: Global, word: &str, cols: u32, rows: u32) -> Result<String, Trouble> {
    let mut list = ColList::new(alloc);
    for byte in word.bytes() {
        for _ in 0..cols {
            list.push(alloc, column(byte)?)?;
        }
    }
    let mut all = AtMostList::new(alloc);
    for _ in 0..rows {
        let terms = Terms::new(alloc);
        all.push(alloc, AtMost { terms, bound: 0 })?;
    }
    let force = Force {
        cols: list,
        rows: all,
        goal: Terms::new(alloc),
    };
    shown(alloc, &bounded(&force))
}

/// The list of these multipliers, pushed one by one.
pub fn multipliers(alloc: Global, given: &[(u32, i128)]) -> Result<String, Trouble> {
    let mut pushed = Mults::new(alloc);
    for multiplier in given {
        pushed.push(alloc, *multiplier)?;
    }
    let (len, is_empty) = (pushed.len(), pushed.is_empty());
    let all = terms_text(alloc, pushed.as_slice())?;
    let text = format!(in alloc; "{len} {is_empty} [{all}]")?;
    Ok(text)
}
