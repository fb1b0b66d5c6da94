//! What a script has made so far, and how a line changes it.

use crate::forms::{ask_force, large, multipliers};
use crate::rows::ask_rows;
use crate::tableaus::{Table, ask_table};
use lp_frame::{AtMost, AtMostList, Force};
use lp_rows::{Col, ColList, Kind, Sign, Terms};
use script::{Player, Trouble, id, number, split, terms};
use std::alloc::Global;

/// What holds at a node, and the tableau that was made last.
#[derive(Drop)]
pub struct Bench {
    /// Columns, rows and a goal.
    pub force: Force,
    /// A tableau with its log.
    pub table: Option<Table>,
}

impl Bench {
    /// An empty bench.
    pub fn new(alloc: Global) -> Bench {
        Bench {
            force: no_force(alloc),
            table: None,
        }
    }
}

fn no_force(alloc: Global) -> Force {
    Force {
        cols: ColList::new(alloc),
        rows: AtMostList::new(alloc),
        goal: Terms::new(alloc),
    }
}

impl Player for Bench {
    fn play(&mut self, rt: &HostRuntime, line: &str) -> Result<String, Trouble> {
        play_words(rt.alloc(), self, split(rt.alloc(), line)?.as_slice())
    }
}

fn play_words(alloc: Global, bench: &mut Bench, words: &[&str]) -> Result<String, Trouble> {
    match words {
        [] => Ok(String::new(alloc)),
        ["force", word] => {
            bench.force = no_force(alloc);
            bench.force.cols = columns(alloc, word)?;
            Ok(String::new(alloc))
        }
        ["goal", words @ ..] => {
            bench.force.goal = Terms::from_slice(alloc, terms(alloc, words)?.as_slice())?;
            Ok(String::new(alloc))
        }
        ["at_most", bound, words @ ..] => {
            add_row(alloc, &mut bench.force.rows, bound, words)?;
            Ok(String::new(alloc))
        }
        ["table"] => {
            bench.table = Some(Table::make(alloc, &bench.force)?);
            Ok(String::new(alloc))
        }
        words => ask(alloc, bench, words),
    }
}

fn add_row(
    alloc: Global,
    rows: &mut AtMostList,
    bound: &str,
    words: &[&str],
) -> Result<(), Trouble> {
    let terms = Terms::from_slice(alloc, terms(alloc, words)?.as_slice())?;
    let bound = number(bound)?;
    rows.push(alloc, AtMost { terms, bound })?;
    Ok(())
}

/// A column: `f` a free real one, `n` a non-negative whole one, `r` a non-negative real one.
pub fn column(byte: u8) -> Result<Col, Trouble> {
    let (kind, sign) = match byte {
        b'f' => (Kind::Real, Sign::Free),
        b'n' => (Kind::Int, Sign::Nonneg),
        b'r' => (Kind::Real, Sign::Nonneg),
        _ => return Err(Trouble::Line),
    };
    Ok(Col { kind, sign })
}

/// A column for each byte. A dash stands for none.
pub fn columns(alloc: Global, word: &str) -> Result<ColList, Trouble> {
    let mut cols = ColList::new(alloc);
    for byte in word.bytes() {
        if byte != b'-' {
            cols.push(alloc, column(byte)?)?;
        }
    }
    Ok(cols)
}

// What a line answers that changes no force.
fn ask(alloc: Global, bench: &mut Bench, words: &[&str]) -> Result<String, Trouble> {
    if let Some(answer) = ask_rows(alloc, words)? {
        return Ok(answer);
    }
    if let ["large", word, cols, rows] = words {
        return large(alloc, word, id(cols)?, id(rows)?);
    }
    if let ["multipliers", words @ ..] = words {
        return multipliers(alloc, terms(alloc, words)?.as_slice());
    }
    if let Some(answer) = ask_force(alloc, &bench.force, words)? {
        return Ok(answer);
    }
    match &mut bench.table {
        Some(table) => ask_table(alloc, table, words),
        None => Err(Trouble::Line),
    }
}
