//! Programs that are built call by call, up to their limits.

use emission::{Emitter, Halt};
use lp_rows::{Col, Kind, Rel, Sign};
use milps::MilpBuilder;
use script::{Trouble, id, number, split, terms, terms_text};
use std::alloc::Global;

/// What the emitter of a new program answers for a line: that many columns or rows, or one row of ten columns.
pub fn play(alloc: Global, line: &str) -> Result<String, Trouble> {
    match split(alloc, line)?.as_slice() {
        ["cols", sign, kind, count] => {
            let col = Col {
                kind: kind_of(kind)?,
                sign: sign_of(sign)?,
            };
            push_cols(alloc, col, id(count)?)
        }
        ["rows", rel, count] => push_rows(alloc, rel_of(rel)?, id(count)?),
        ["row", right, words @ ..] => {
            push_row(alloc, number(right)?, terms(alloc, words)?.as_slice())
        }
        _ => Err(Trouble::Line),
    }
}

fn kind_of(word: &str) -> Result<Kind, Trouble> {
    match word {
        "int" => Ok(Kind::Int),
        "real" => Ok(Kind::Real),
        _ => Err(Trouble::Line),
    }
}

fn sign_of(word: &str) -> Result<Sign, Trouble> {
    match word {
        "free" => Ok(Sign::Free),
        "nonneg" => Ok(Sign::Nonneg),
        _ => Err(Trouble::Line),
    }
}

fn rel_of(word: &str) -> Result<Rel, Trouble> {
    match word {
        "<=" => Ok(Rel::AtMost),
        ">=" => Ok(Rel::AtLeast),
        "=" => Ok(Rel::Equal),
        _ => Err(Trouble::Line),
    }
}

fn halt_word(halt: Option<Halt>) -> &'static str {
    match halt {
        None => "all",
        Some(Halt::TooBig) => "too big",
        Some(Halt::Unfit) => "unfit",
        Some(_) => "out of memory",
    }
}

// Whether all columns were added, and how many there are.
fn push_cols(alloc: Global, col: Col, count: u32) -> Result<String, Trouble> {
    let mut out = Emitter::over(alloc, MilpBuilder::new(alloc));
    for _ in 0..count {
        out.push_col(col);
    }
    let word = halt_word(out.halt());
    let made = out.col_count();
    let text = format!(in alloc; "{word} {made}")?;
    Ok(text)
}

// Whether all rows were added, each without terms, and how many there are.
fn push_rows(alloc: Global, rel: Rel, count: u32) -> Result<String, Trouble> {
    let mut out = Emitter::over(alloc, MilpBuilder::new(alloc));
    for _ in 0..count {
        out.push(rel, &[], 0);
    }
    let word = halt_word(out.halt());
    let made = out.milp().rows().len();
    let text = format!(in alloc; "{word} {made}")?;
    Ok(text)
}

// The terms of a row as it was added, and its right side, or that it is unfit.
fn push_row(alloc: Global, right: i128, terms: &[(u32, i128)]) -> Result<String, Trouble> {
    if right.unsigned_abs() >= 1 << 100 {
        return Err(Trouble::Line);
    }
    let mut out = Emitter::over(alloc, MilpBuilder::new(alloc));
    let col = Col {
        kind: Kind::Real,
        sign: Sign::Nonneg,
    };
    for _ in 0..10 {
        out.push_col(col);
    }
    out.push(Rel::AtMost, terms, -right);
    let word = halt_word(out.halt());
    let text = match out.milp().rows().last() {
        Some(row) => {
            let made = terms_text(alloc, row.terms())?;
            let right = row.right();
            format!(in alloc; "{made} <= {right}")?
        }
        None => format!(in alloc; "{word}")?,
    };
    Ok(text)
}
