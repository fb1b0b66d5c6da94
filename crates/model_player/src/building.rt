//! The lines that call a builder.

use crate::bench::Bench;
use block_tree::{Bound, BuildError, Mode, ModelBuilder};
use lp_rows::{Kind, Rel, Sense};
use propositions::{Prop, copy};
use script::{Trouble, frac, id, shown};
use std::alloc::Global;

/// Makes the call that these words stand for, and says what it answers. None where they stand for none.
pub fn build(alloc: Global, bench: &mut Bench, words: &[&str]) -> Result<Option<String>, Trouble> {
    let before = bench.mark;
    bench.mark = before.saturating_add(1);
    let answer = match words {
        ["var", name, low, high] => var(alloc, bench, name, Kind::Real, low, high)?,
        ["int", name, low, high] => var(alloc, bench, name, Kind::Int, low, high)?,
        ["boolean", name] => boolean(alloc, bench, name),
        ["row", rel, right] => row(alloc, bench, rel, right)?,
        ["goal", sense, constant] => goal(alloc, bench, sense, constant)?,
        ["prop"] => prop(alloc, bench)?,
        ["choose", mode] => choose(alloc, bench, mode),
        ["open", name] => open(alloc, bench, name),
        ["close"] => bench.builder.close(alloc),
        ["finish"] => finish(alloc, bench),
        _ => {
            bench.mark = before;
            return stack(alloc, bench, words);
        }
    };
    Ok(Some(said(alloc, answer)?))
}

// What a call that answers nothing else says.
fn said(alloc: Global, answer: Result<(), BuildError>) -> Result<String, Trouble> {
    match answer {
        Ok(()) => shown(alloc, &"ok"),
        Err(error) => shown(alloc, &error),
    }
}

// The bound of a word: a fraction, or none for another word.
fn bound(low: &str, high: &str) -> Result<Bound, Trouble> {
    if low == "-" {
        return Ok(Bound {
            low: None,
            high: None,
        });
    }
    Ok(Bound {
        low: Some(frac(low)?),
        high: Some(frac(high)?),
    })
}

fn var(
    alloc: Global,
    bench: &mut Bench,
    name: &str,
    kind: Kind,
    low: &str,
    high: &str,
) -> Result<Result<(), BuildError>, Trouble> {
    let bound = bound(low, high)?;
    let answer = bench.builder.var(alloc, name, kind, bound, bench.mark);
    Ok(without_number(answer))
}

fn without_number(answer: Result<u32, BuildError>) -> Result<(), BuildError> {
    match answer {
        Ok(_) => Ok(()),
        Err(error) => Err(error),
    }
}

fn boolean(alloc: Global, bench: &mut Bench, name: &str) -> Result<(), BuildError> {
    without_number(bench.builder.boolean(alloc, name, bench.mark))
}

fn row(
    alloc: Global,
    bench: &mut Bench,
    rel: &str,
    right: &str,
) -> Result<Result<(), BuildError>, Trouble> {
    let rel = match rel {
        "<=" => Rel::AtMost,
        ">=" => Rel::AtLeast,
        _ => Rel::Equal,
    };
    let right = frac(right)?;
    let terms = std::mem::replace(&mut bench.terms, Vec::new(alloc));
    Ok(
        bench
            .builder
            .row(alloc, terms.as_slice(), rel, right, bench.mark),
    )
}

fn goal(
    alloc: Global,
    bench: &mut Bench,
    sense: &str,
    constant: &str,
) -> Result<Result<(), BuildError>, Trouble> {
    let sense = if sense == "min" {
        Sense::Min
    } else {
        Sense::Max
    };
    let constant = frac(constant)?;
    let terms = std::mem::replace(&mut bench.terms, Vec::new(alloc));
    Ok(
        bench
            .builder
            .goal(alloc, sense, terms.as_slice(), constant, bench.mark),
    )
}

fn prop(alloc: Global, bench: &mut Bench) -> Result<Result<(), BuildError>, Trouble> {
    match bench.props.pop() {
        Some(prop) => Ok(bench.builder.prop(alloc, &prop, bench.mark)),
        None => Err(Trouble::Line),
    }
}

fn choose(alloc: Global, bench: &mut Bench, mode: &str) -> Result<(), BuildError> {
    let mode = if mode == "or" { Mode::Or } else { Mode::Xor };
    bench.builder.open_disjunction(alloc, mode, bench.mark)
}

fn open(alloc: Global, bench: &mut Bench, name: &str) -> Result<(), BuildError> {
    without_number(bench.builder.open_disjunct(alloc, name, bench.mark))
}

fn finish(alloc: Global, bench: &mut Bench) -> Result<(), BuildError> {
    let builder = std::mem::replace(&mut bench.builder, ModelBuilder::new(alloc));
    match builder.finish(alloc) {
        Ok(model) => {
            bench.model = Some(model);
            Ok(())
        }
        Err((builder, error)) => {
            bench.builder = builder;
            Err(error)
        }
    }
}

// Changes the propositions: an atom that many times, or a connective of those that stand last.
fn stack(alloc: Global, bench: &mut Bench, words: &[&str]) -> Result<Option<String>, Trouble> {
    match words {
        ["atom", boolean, count] => atoms(bench, id(boolean)?, id(count)?)?,
        ["not", count] => not(alloc, bench, id(count)?)?,
        ["copy"] => copied(alloc, bench)?,
        ["implies"] => implies(alloc, bench)?,
        ["xor"] => xor(alloc, bench)?,
        ["equivalent"] => equivalent(alloc, bench)?,
        ["and", count] => and(alloc, bench, id(count)?)?,
        ["or", count] => or(alloc, bench, id(count)?)?,
        ["exactly", number, count] => exactly(alloc, bench, id(number)?, id(count)?)?,
        ["atmost", number, count] => at_most(alloc, bench, id(number)?, id(count)?)?,
        ["atleast", number, count] => at_least(alloc, bench, id(number)?, id(count)?)?,
        _ => return Ok(None),
    }
    Ok(Some(String::new(alloc)))
}

fn atoms(bench: &mut Bench, boolean: u32, count: u32) -> Result<(), Trouble> {
    for _ in 0..count {
        bench.props.push(Prop::Atom(boolean))?;
    }
    Ok(())
}

fn last(bench: &mut Bench) -> Result<Prop, Trouble> {
    match bench.props.pop() {
        Some(prop) => Ok(prop),
        None => Err(Trouble::Line),
    }
}

// Puts a copy in the place of the last proposition.
fn copied(alloc: Global, bench: &mut Bench) -> Result<(), Trouble> {
    let prop = copy(alloc, &last(bench)?)?;
    bench.props.push(prop)?;
    Ok(())
}

fn not(alloc: Global, bench: &mut Bench, count: u32) -> Result<(), Trouble> {
    let mut prop = last(bench)?;
    for _ in 0..count {
        prop = Prop::Not(Box::new(alloc, prop)?);
    }
    bench.props.push(prop)?;
    Ok(())
}

fn implies(alloc: Global, bench: &mut Bench) -> Result<(), Trouble> {
    let second = Box::new(alloc, last(bench)?)?;
    let first = Box::new(alloc, last(bench)?)?;
    bench.props.push(Prop::Implies(first, second))?;
    Ok(())
}

fn xor(alloc: Global, bench: &mut Bench) -> Result<(), Trouble> {
    let second = Box::new(alloc, last(bench)?)?;
    let first = Box::new(alloc, last(bench)?)?;
    bench.props.push(Prop::Xor(first, second))?;
    Ok(())
}

fn equivalent(alloc: Global, bench: &mut Bench) -> Result<(), Trouble> {
    let second = Box::new(alloc, last(bench)?)?;
    let first = Box::new(alloc, last(bench)?)?;
    bench.props.push(Prop::Equivalent(first, second))?;
    Ok(())
}

// That many propositions that stand last, in the order in which they were made.
fn list(alloc: Global, bench: &mut Bench, count: u32) -> Result<Vec<Prop>, Trouble> {
    let mut props = Vec::new(alloc);
    for _ in 0..count {
        props.push(last(bench)?)?;
    }
    props.reverse();
    Ok(props)
}

fn and(alloc: Global, bench: &mut Bench, count: u32) -> Result<(), Trouble> {
    let props = list(alloc, bench, count)?;
    bench.props.push(Prop::And(props))?;
    Ok(())
}

fn or(alloc: Global, bench: &mut Bench, count: u32) -> Result<(), Trouble> {
    let props = list(alloc, bench, count)?;
    bench.props.push(Prop::Or(props))?;
    Ok(())
}

fn exactly(alloc: Global, bench: &mut Bench, number: u32, count: u32) -> Result<(), Trouble> {
    let props = list(alloc, bench, count)?;
    bench.props.push(Prop::Exactly(number, props))?;
    Ok(())
}

fn at_most(alloc: Global, bench: &mut Bench, number: u32, count: u32) -> Result<(), Trouble> {
    let props = list(alloc, bench, count)?;
    bench.props.push(Prop::AtMost(number, props))?;
    Ok(())
}

fn at_least(alloc: Global, bench: &mut Bench, number: u32, count: u32) -> Result<(), Trouble> {
    let props = list(alloc, bench, count)?;
    bench.props.push(Prop::AtLeast(number, props))?;
    Ok(())
}
