//! The lines that ask what a model says.

use crate::bench::Bench;
use crate::words::{tri_text, tris};
use block_tree::{
    Block, Model, SumWide, ValueWide, Verdict, item_count, item_tri, occurs, satisfies, value,
};
use gdp_io::Text;
use gdp_printer::{model_text, put_prop_line};
use lp_rows::Point;
use propositions::Prop;
use script::{Trouble, add_to, id, number, numbers, shown, terms_text, truths};
use std::alloc::Global;
use std::fmt;

/// What these words ask.
pub fn ask(alloc: Global, bench: &mut Bench, words: &[&str]) -> Result<String, Trouble> {
    match words {
        ["logic_line"] => match (bench.props.pop(), &bench.model) {
            (Some(prop), Some(model)) => logic_line(alloc, model, prop),
            _ => Err(Trouble::Line),
        },
        ["boolean_of_builder", name] => place(alloc, bench.builder.boolean_id(name)),
        _ => match &bench.model {
            Some(model) => ask_model(alloc, model, words),
            None => Err(Trouble::Line),
        },
    }
}

fn place<T: fmt::Display + Drop>(alloc: Global, place: Option<T>) -> Result<String, Trouble> {
    match place {
        Some(place) => shown(alloc, &place),
        None => shown(alloc, &"none"),
    }
}

fn ask_model(alloc: Global, model: &Model, words: &[&str]) -> Result<String, Trouble> {
    match words {
        ["find_var", name] => place(alloc, model.find_var(name)),
        ["find_boolean", name] => place(alloc, model.find_boolean(name)),
        ["items"] => shown(alloc, &item_count(model)),
        ["reading", place, word] => reading(alloc, model, id(place)?, word),
        ["verdict", word, over, nums @ ..] => verdict(alloc, model, word, over, nums),
        ["value", over, nums @ ..] => value_at(alloc, model, over, nums),
        ["occurs"] => occurring(alloc, model),
        ["goal_of"] => goal(alloc, model),
        ["rows_of"] => rows(alloc, model),
        ["text"] => text(alloc, model),
        ["props_of"] => props(alloc, model),
        _ => Err(Trouble::Line),
    }
}

fn reading(alloc: Global, model: &Model, place: u32, word: &str) -> Result<String, Trouble> {
    let tris = tris(alloc, word)?;
    if item_count(model) <= place || model.booleans().len() != tris.len() {
        return Err(Trouble::Line);
    }
    tri_text(alloc, item_tri(model, place, tris.as_slice()))
}

fn point(alloc: Global, model: &Model, over: &str, nums: &[&str]) -> Result<Point, Trouble> {
    let nums = numbers(alloc, nums)?;
    match Point::make(alloc, number(over)?, nums.as_slice()) {
        Ok(at) => Ok(at),
        Err(_) => Err(Trouble::Line),
    }
}

fn verdict(
    alloc: Global,
    model: &Model,
    word: &str,
    over: &str,
    nums: &[&str],
) -> Result<String, Trouble> {
    let truths = truths(alloc, word)?;
    let at = point(alloc, model, over, nums)?;
    if model.vars().len() != at.nums().len() || model.booleans().len() != truths.len() {
        return Err(Trouble::Line);
    }
    let text = match satisfies(model, &at, truths.as_slice()) {
        Ok(Verdict::Holds) => return shown(alloc, &"holds"),
        Ok(Verdict::FailsAt(mark)) => format!(in alloc; "fails at {mark}")?,
        Err(SumWide { mark }) => format!(in alloc; "wide at {mark}")?,
    };
    Ok(text)
}

fn value_at(alloc: Global, model: &Model, over: &str, nums: &[&str]) -> Result<String, Trouble> {
    let at = point(alloc, model, over, nums)?;
    if model.vars().len() != at.nums().len() {
        return Err(Trouble::Line);
    }
    match value(model, &at) {
        Ok(found) => {
            let (num, den) = (found.num(), found.den());
            let text = format!(in alloc; "{num}/{den}")?;
            Ok(text)
        }
        Err(ValueWide) => shown(alloc, &"wide"),
    }
}

fn occurring(alloc: Global, model: &Model) -> Result<String, Trouble> {
    let mut text = String::new(alloc);
    for disjunction in model.root().disjunctions() {
        for id in &occurs(alloc, disjunction)? {
            add_to(&mut text, shown(alloc, id)?.as_str())?;
        }
    }
    Ok(text)
}

fn goal(alloc: Global, model: &Model) -> Result<String, Trouble> {
    let terms = terms_text(alloc, model.terms())?;
    let sense = model.sense();
    let (constant, scale, mark) = (model.constant(), model.scale(), model.goal_mark());
    let text = format!(in alloc; "{sense:?} {terms} constant {constant} scale {scale} at {mark}")?;
    Ok(text)
}

fn rows(alloc: Global, model: &Model) -> Result<String, Trouble> {
    let mut text = String::new(alloc);
    for (row, mark) in model.root().rows() {
        let (terms, right) = (terms_text(alloc, row.terms())?, row.right());
        let row = format!(in alloc; "{terms} right {right} at {mark}")?;
        add_to(&mut text, row.as_str())?;
    }
    Ok(text)
}

// The atoms among the propositions of the root block and of the disjuncts in it.
fn props(alloc: Global, model: &Model) -> Result<String, Trouble> {
    let mut text = String::new(alloc);
    add_atoms(alloc, &mut text, model.root())?;
    for disjunction in model.root().disjunctions() {
        for disjunct in disjunction.disjuncts() {
            add_atoms(alloc, &mut text, disjunct.block())?;
        }
    }
    Ok(text)
}

fn add_atoms(alloc: Global, text: &mut String, block: &Block) -> Result<(), Trouble> {
    for (prop, mark) in block.props() {
        if let Prop::Atom(id) = prop {
            add_to(text, format!(in alloc; "{id} at {mark}")?.as_str())?;
        }
    }
    Ok(())
}

// The text of a model.
fn text(alloc: Global, model: &Model) -> Result<String, Trouble> {
    let text = model_text(alloc, model)?;
    printed(alloc, &text)
}

// The line of the last proposition, which this takes.
fn logic_line(alloc: Global, model: &Model, prop: Prop) -> Result<String, Trouble> {
    let mut text = Text::new(alloc);
    put_prop_line(alloc, &mut text, model, &(prop, 0))?;
    printed(alloc, &text)
}

fn printed(alloc: Global, text: &Text) -> Result<String, Trouble> {
    match std::str::from_utf8(text.as_slice()) {
        Ok(text) => shown(alloc, &text),
        Err(_) => Err(Trouble::Line),
    }
}
