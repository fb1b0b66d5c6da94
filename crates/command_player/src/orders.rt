//! The line that searches in another order than by depth.

use crate::texts::Texts;
use certificate_checker::check_program;
use exact_simplex::Event;
use fractions::Frac;
use gdp_reader::read_model;
use hybrid_rewrite::{Choice, compile};
use milp_branching::search_milp;
use milps::Milp;
use proof_tree::Proof;
use script::{Trouble, add_to, id, shown};
use search_core::Solved;
use search_rules::{Answer, Outcome};
use std::alloc::Global;

/// How many bytes a model may have that is searched.
const LONGEST: usize = 1_000_000;

/// What a search over the program of the model comes to, by big-M and in the order of picks, and then its log. The first
/// word says how many steps it may take, and the others are the picks.
pub fn ask(alloc: Global, texts: &Texts, words: &[&str]) -> Result<String, Trouble> {
    let [steps, picks @ ..] = words else {
        return Err(Trouble::Line);
    };
    let picks = ids(alloc, picks)?;
    if LONGEST < texts.model.len() {
        return Err(Trouble::Line);
    }
    let Ok(model) = read_model(alloc, texts.model.as_slice()) else {
        return Err(Trouble::Line);
    };
    match compile(alloc, &model, Choice::BigM) {
        Ok(compiled) => searched(alloc, compiled.milp(), id(steps)?, picks.as_slice()),
        Err(_) => Err(Trouble::Line),
    }
}

fn ids(alloc: Global, words: &[&str]) -> Result<Vec<u32>, Trouble> {
    let mut ids = Vec::new(alloc);
    for word in words {
        ids.push(id(word)?)?;
    }
    Ok(ids)
}

fn searched(alloc: Global, milp: &Milp, steps: u32, picks: &[u32]) -> Result<String, Trouble> {
    let Solved { answer, log } = search_milp(alloc, milp, steps, picks)?;
    let mut text = claimed(alloc, milp, &answer)?;
    for event in log.events() {
        add_to(&mut text, named(alloc, *event)?.as_str())?;
    }
    Ok(text)
}

// What is claimed of the program, and what the checker says of its proof.
fn claimed(alloc: Global, milp: &Milp, answer: &Answer) -> Result<String, Trouble> {
    match answer {
        Answer::Done(Outcome::Best { best, proof }) => {
            let (num, den) = (best.value.num(), best.value.den());
            let verdict = verdict(alloc, milp, Some(best.value), proof);
            let text = format!(in alloc; "best {num}/{den}, {verdict}:")?;
            Ok(text)
        }
        Answer::Done(Outcome::Empty { proof }) => {
            let verdict = verdict(alloc, milp, None, proof);
            let text = format!(in alloc; "empty, {verdict}:")?;
            Ok(text)
        }
        Answer::Endless { .. } => shown(alloc, &"endless:"),
        Answer::Stopped(_) => shown(alloc, &"stopped:"),
    }
}

fn verdict(alloc: Global, milp: &Milp, best: Option<Frac>, proof: &Proof) -> &'static str {
    match check_program(alloc, milp, &best, proof) {
        Ok(()) => "accepted",
        Err(_) => "rejected",
    }
}

// An event, as a word.
fn named(alloc: Global, event: Event) -> Result<String, Trouble> {
    let text = match event {
        Event::OpenRoot => format!(in alloc; "root")?,
        Event::Open { parent, second } => {
            if second {
                format!(in alloc; "second:{parent}")?
            } else {
                format!(in alloc; "first:{parent}")?
            }
        }
        Event::Move { enter, leave } => format!(in alloc; "move:{enter}:{leave}")?,
    };
    Ok(text)
}
