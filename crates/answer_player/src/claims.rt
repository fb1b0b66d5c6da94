//! The lines on answers.

use crate::texts::{bytes_of, line_of};
use answer_texts::write_again;
use answers::{Answer, Claim};
use cert_reader::{CertError, read_answer};
use gdp_io::Name;
use lp_rows::Point;
use script::{Trouble, add_to, shown, split};
use std::alloc::Global;

/// The names of variables and of Booleans.
#[derive(Drop)]
pub struct Names {
    variables: Vec<Name>,
    booleans: Vec<Name>,
}

// The names that a line has.
fn names_in(alloc: Global, line: &str) -> Result<Vec<Name>, Trouble> {
    let mut names = Vec::new(alloc);
    for word in split(alloc, line)? {
        names.push(Name::from_str(alloc, word)?)?;
    }
    Ok(names)
}

impl Names {
    /// No names.
    pub fn new(alloc: Global) -> Names {
        Names {
            variables: Vec::new(alloc),
            booleans: Vec::new(alloc),
        }
    }

    /// Takes the names of the variables.
    pub fn set_variables(&mut self, alloc: Global, line: &str) -> Result<String, Trouble> {
        self.variables = names_in(alloc, line)?;
        shown(alloc, &self.variables.len())
    }

    /// Takes the names of the Booleans.
    pub fn set_booleans(&mut self, alloc: Global, line: &str) -> Result<String, Trouble> {
        self.booleans = names_in(alloc, line)?;
        shown(alloc, &self.booleans.len())
    }
}

// The first bad line of a text, and the cause.
fn refusal(alloc: Global, error: CertError) -> Result<String, Trouble> {
    match error {
        CertError::At { line, cause } => {
            let text = format!(in alloc; "line {line}: {cause:?}")?;
            Ok(text)
        }
        CertError::Memory => Err(Trouble::Host),
    }
}

/// Reads an answer and writes it again, or says where and why it is refused.
pub fn again(alloc: Global, kept: &Names, line: &str) -> Result<String, Trouble> {
    let text = bytes_of(alloc, line)?;
    match write_again(
        alloc,
        kept.variables.as_slice(),
        kept.booleans.as_slice(),
        text.as_slice(),
    ) {
        Ok(again) => line_of(alloc, again.as_slice()),
        Err(error) => refusal(alloc, error),
    }
}

// The denominator of a point and its numerators.
fn point_text(alloc: Global, point: &Point) -> Result<String, Trouble> {
    let mut text = shown(alloc, &point.over())?;
    for number in point.nums() {
        add_to(&mut text, shown(alloc, number)?.as_str())?;
    }
    Ok(text)
}

// Truth values, `y` or `n` for each.
fn truths_text(alloc: Global, truths: &[bool]) -> Result<String, Trouble> {
    let mut text = String::new(alloc);
    for truth in truths {
        text.push_str(if *truth { "y" } else { "n" })?;
    }
    Ok(text)
}

// What is claimed, in a few words.
fn claim_text(alloc: Global, answer: &Answer) -> Result<String, Trouble> {
    let route = answer.route;
    match &answer.claim {
        Claim::Best {
            at,
            truths,
            value,
            proof,
        } => {
            let (num, den) = (value.num(), value.den());
            let point = point_text(alloc, at)?;
            let truths = truths_text(alloc, truths.as_slice())?;
            let nodes = proof.len();
            let text = format!(in alloc;
                "{route:?} best {num}/{den} at {point} with {truths} by {nodes}"
            )?;
            Ok(text)
        }
        Claim::Empty { proof } => {
            let nodes = proof.len();
            let text = format!(in alloc; "{route:?} empty by {nodes}")?;
            Ok(text)
        }
        Claim::Endless { at, truths, ray } => {
            let point = point_text(alloc, at)?;
            let truths = truths_text(alloc, truths.as_slice())?;
            let mut text = format!(in alloc; "{route:?} endless from {point} with {truths} along")?;
            for step in ray.as_slice() {
                add_to(&mut text, shown(alloc, step)?.as_str())?;
            }
            Ok(text)
        }
    }
}

/// Reads an answer and says what it claims, or where and why it is refused.
pub fn claim(alloc: Global, kept: &Names, line: &str) -> Result<String, Trouble> {
    let text = bytes_of(alloc, line)?;
    match read_answer(
        alloc,
        kept.variables.as_slice(),
        kept.booleans.as_slice(),
        text.as_slice(),
    ) {
        Ok(answer) => claim_text(alloc, &answer),
        Err(error) => refusal(alloc, error),
    }
}
