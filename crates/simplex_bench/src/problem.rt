//! The text of a standard form: the counts of columns and of rows, then each row as its terms and its bound, then the
//! goal's terms. Terms are their count and then the column and the coefficient of each. All are whole numbers between
//! white space, and the ends of lines count as white space.

ghost use Rattle.std.specs.Prelude.{◌≡◌};
ghost use Rattle.simplex_bench.specs.declared.problem.BadProblem.{BadProblem};

use lp_frame::{AtMost, AtMostList, Force, StandardForm, bounded, standard};
use lp_rows::{Col, ColList, Kind, Sign, Terms};
use outcomes::Memory;
use std::alloc::{AllocError, AllocFailed, Global};
use std::io;
use std::num::{ParseIntError, TryFromIntError};
use std::str::SplitWhitespace;

/// Why there is no standard form to measure.
#[derive(Clone, Copy, Debug, PartialEq, Eq)]
pub enum BadProblem {
    /// The words are no files and count, a file can't be read, or its text is no standard form.
    Refused,
    /// Memory ran out.
    Memory,
}

impl From<Memory> for BadProblem {
    ghost from_gives = { λ _ problem. problem ≡ BadProblem.Memory };

    fn from(_error: Memory) -> BadProblem {
        BadProblem::Memory
    }
}

impl<T: Drop> From<AllocFailed<T>> for BadProblem {
    ghost from_gives = { λ _ problem. problem ≡ BadProblem.Memory };

    fn from(_refused: AllocFailed<T>) -> BadProblem {
        BadProblem::Memory
    }
}

impl From<io::Error> for BadProblem {
    ghost from_gives = { λ _ problem. problem ≡ BadProblem.Refused };

    fn from(_error: io::Error) -> BadProblem {
        BadProblem::Refused
    }
}

impl From<ParseIntError> for BadProblem {
    ghost from_gives = { λ _ problem. problem ≡ BadProblem.Refused };

    fn from(_error: ParseIntError) -> BadProblem {
        BadProblem::Refused
    }
}

impl From<TryFromIntError> for BadProblem {
    ghost from_gives = { λ _ problem. problem ≡ BadProblem.Refused };

    fn from(_error: TryFromIntError) -> BadProblem {
        BadProblem::Refused
    }
}

// The next number.
fn number(words: &mut SplitWhitespace<'_>) -> Result<i128, BadProblem> {
    let Some(word) = words.next() else {
        return Err(BadProblem::Refused);
    };
    let number = word.parse::<i128>()?;
    Ok(number)
}

// The next number, as a count or a column.
fn count(words: &mut SplitWhitespace<'_>) -> Result<u32, BadProblem> {
    let number = u32::try_from(number(words)?)?;
    Ok(number)
}

fn read_terms(alloc: Global, words: &mut SplitWhitespace<'_>) -> Result<Terms, BadProblem> {
    let mut terms = Terms::new(alloc);
    for _ in 0..count(words)? {
        let column = count(words)?;
        let coefficient = number(words)?;
        terms.push(alloc, (column, coefficient))?;
    }
    Ok(terms)
}

fn read_rows(
    alloc: Global,
    words: &mut SplitWhitespace<'_>,
    height: u32,
) -> Result<AtMostList, BadProblem> {
    let mut rows = AtMostList::new(alloc);
    for _ in 0..height {
        let terms = read_terms(alloc, words)?;
        let bound = number(words)?;
        rows.push(alloc, AtMost { terms, bound })?;
    }
    Ok(rows)
}

// That many columns that are non-negative.
fn nonnegative(alloc: Global, columns: u32) -> Result<ColList, Memory> {
    let mut cols = ColList::new(alloc);
    for _ in 0..columns {
        cols.push(
            alloc,
            Col {
                kind: Kind::Real,
                sign: Sign::Nonneg,
            },
        )?;
    }
    Ok(cols)
}

/// The standard form that the text describes.
pub fn read_problem(alloc: Global, text: &str) -> Result<StandardForm, BadProblem> {
    let mut words = text.split_whitespace();
    let columns = count(&mut words)?;
    let height = count(&mut words)?;
    let rows = read_rows(alloc, &mut words, height)?;
    let goal = read_terms(alloc, &mut words)?;
    let force = Force {
        cols: nonnegative(alloc, columns)?,
        rows,
        goal,
    };
    if !bounded(&force) {
        return Err(BadProblem::Refused);
    }
    let form = standard(alloc, &force)?;
    Ok(form)
}
