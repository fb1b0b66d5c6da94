//! The lines about rows, points and lists.

use crate::bench::columns;
use lp_rows::{
    ColList, Flags, Nums, Point, Rel, Row, Terms, are_coefficients_storable, are_ids_below,
    do_ids_ascend, has_zero_coefficient, is_storable, row_holds, sum_at,
};
use script::{Trouble, add_to, number, numbers, shown, terms, terms_text, truths};
use std::alloc::Global;

/// What these words ask about rows, points and lists, or none where they ask something else.
pub fn ask_rows(alloc: Global, words: &[&str]) -> Result<Option<String>, Trouble> {
    let answer = match words {
        ["row", rel, right, words @ ..] => row(alloc, rel, right, words)?,
        ["point", over, words @ ..] => point(alloc, over, words)?,
        ["holds", rel, right, over, words @ ..] => holds(alloc, rel, right, over, words)?,
        ["sum", words @ ..] => sum(alloc, words)?,
        ["storable", word] => storable(alloc, number(word)?)?,
        ["terms", words @ ..] => pushed_terms(alloc, words)?,
        ["nums", words @ ..] => pushed_numbers(alloc, words)?,
        ["flags", word] => pushed_flags(alloc, word)?,
        ["cols", word] => pushed_columns(alloc, word)?,
        _ => return Ok(None),
    };
    Ok(Some(answer))
}

fn rel_of(word: &str) -> Rel {
    match word {
        "<=" => Rel::AtMost,
        ">=" => Rel::AtLeast,
        _ => Rel::Equal,
    }
}

// The row as it gives itself back, or why it is none.
fn row(alloc: Global, rel: &str, right: &str, words: &[&str]) -> Result<String, Trouble> {
    let given = terms(alloc, words)?;
    match Row::make(alloc, given.as_slice(), rel_of(rel), number(right)?) {
        Ok(row) => {
            let (rel, right) = (row.rel(), row.right());
            let terms = terms_text(alloc, row.terms())?;
            let text = format!(in alloc; "{rel:?} {right} [{terms}]")?;
            Ok(text)
        }
        Err(error) => {
            let text = format!(in alloc; "{error:?}")?;
            Ok(text)
        }
    }
}

/// The numbers of a point after its denominator.
pub fn point_text(alloc: Global, point: &Point) -> Result<String, Trouble> {
    let mut text = shown(alloc, &point.over())?;
    for number in point.nums() {
        add_to(&mut text, shown(alloc, number)?.as_str())?;
    }
    Ok(text)
}

fn point(alloc: Global, over: &str, words: &[&str]) -> Result<String, Trouble> {
    let nums = numbers(alloc, words)?;
    match Point::make(alloc, number(over)?, nums.as_slice()) {
        Ok(point) => point_text(alloc, &point),
        Err(error) => {
            let text = format!(in alloc; "{error:?}")?;
            Ok(text)
        }
    }
}

fn holds(
    alloc: Global,
    rel: &str,
    right: &str,
    over: &str,
    words: &[&str],
) -> Result<String, Trouble> {
    let terms = terms(alloc, words)?;
    let nums = numbers(alloc, words)?;
    let Ok(row) = Row::make(alloc, terms.as_slice(), rel_of(rel), number(right)?) else {
        return Err(Trouble::Line);
    };
    let Ok(at) = Point::make(alloc, number(over)?, nums.as_slice()) else {
        return Err(Trouble::Line);
    };
    if !are_ids_below(row.terms(), at.nums().len()) {
        return Err(Trouble::Line);
    }
    match row_holds(&row, &at) {
        Ok(holds) => shown(alloc, &holds),
        Err(_) => shown(alloc, &"wide"),
    }
}

fn sum(alloc: Global, words: &[&str]) -> Result<String, Trouble> {
    let terms = terms(alloc, words)?;
    let nums = numbers(alloc, words)?;
    if !are_ids_below(terms.as_slice(), nums.len()) {
        return shown(alloc, &"an id out of range");
    }
    match sum_at(terms.as_slice(), nums.as_slice()) {
        Ok(sum) => shown(alloc, &sum),
        Err(_) => shown(alloc, &"wide"),
    }
}

// Whether the number may be stored, alone and as the second coefficient of a row.
fn storable(alloc: Global, number: i128) -> Result<String, Trouble> {
    let alone = is_storable(number);
    let second = are_coefficients_storable(&[(0, 1), (1, number)]);
    let text = format!(in alloc; "{alone} {second}")?;
    Ok(text)
}

// The list of these terms, pushed one by one and made at once, and whether ids ascend and a coefficient is 0.
fn pushed_terms(alloc: Global, words: &[&str]) -> Result<String, Trouble> {
    let given = terms(alloc, words)?;
    let mut pushed = Terms::new(alloc);
    for term in &given {
        pushed.push(alloc, *term)?;
    }
    let made = Terms::from_slice(alloc, given.as_slice())?;
    let (len, is_empty) = (pushed.len(), made.is_empty());
    let (one_by_one, at_once) = (
        terms_text(alloc, pushed.as_slice())?,
        terms_text(alloc, made.as_slice())?,
    );
    let ascends = do_ids_ascend(made.as_slice());
    let has_zero = has_zero_coefficient(made.as_slice());
    let text = format!(in alloc;
        "{len} {is_empty} [{one_by_one}] [{at_once}] {ascends} {has_zero}"
    )?;
    Ok(text)
}

fn pushed_numbers(alloc: Global, words: &[&str]) -> Result<String, Trouble> {
    let mut pushed = Nums::new(alloc);
    for number in &numbers(alloc, words)? {
        pushed.push(alloc, *number)?;
    }
    let back = Nums::from_vec(pushed.into_vec());
    let mut text = shown(alloc, &back.len())?;
    for number in back.as_slice() {
        add_to(&mut text, shown(alloc, number)?.as_str())?;
    }
    Ok(text)
}

fn pushed_flags(alloc: Global, word: &str) -> Result<String, Trouble> {
    let mut pushed = Flags::new(alloc);
    for flag in &truths(alloc, word)? {
        pushed.push(alloc, *flag)?;
    }
    let is_empty = pushed.is_empty();
    let back = Flags::from_vec(pushed.into_vec());
    let (len, flags) = (back.len(), back.as_slice());
    let text = format!(in alloc; "{len} {is_empty} {flags:?}")?;
    Ok(text)
}

fn pushed_columns(alloc: Global, word: &str) -> Result<String, Trouble> {
    let cols = columns(alloc, word)?;
    let (len, is_empty) = (cols.len(), cols.is_empty());
    let back = ColList::from_vec(cols.into_vec());
    let mut text = format!(in alloc; "{len} {is_empty}")?;
    for col in back.as_slice() {
        let (kind, sign) = (col.kind, col.sign);
        add_to(&mut text, format!(in alloc; "{kind:?} {sign:?}")?.as_str())?;
    }
    Ok(text)
}
