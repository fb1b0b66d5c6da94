//! The program `compile_player`: compiles each model in the files that its words name, and prints the flags of its
//! disjunctions and its program, a term a line. A word that is a choice's name says how the disjunctions of the models
//! after it are rewritten, at first all by big-M.
//!
//! A file whose name ends in `.calls` is played by lines instead: each builds a program call by call, up to its limits.
//!
//! It is a test: the models stand in `data`, the words in `args`, and the answers, which come from another
//! implementation, in `stdout`.
#![tactic(auto)]

mod calls;

use block_tree::Model;
use gdp_reader::read_model;
use hybrid_rewrite::{Choice, CompileError, compile};
use lp_rows::{Kind, Rel, Sense, Sign};
use milps::Milp;
use script::Trouble;
use std::env::Env;
use std::io::Print;
use std::process::ExitCode;
use std::rt::Files;
use std::{env, fs, io};

/// Why nothing is written.
#[derive(Clone, Copy, Debug, PartialEq, Eq)]
enum Refused {
    /// A file cannot be read, or what is written is not taken.
    Refused,
    /// Memory ran out.
    Memory,
}

impl From<io::Error> for Refused {
    fn from(_error: io::Error) -> Refused {
        Refused::Refused
    }
}

impl<T: Drop> From<std::alloc::AllocFailed<T>> for Refused {
    fn from(_refused: std::alloc::AllocFailed<T>) -> Refused {
        Refused::Memory
    }
}

impl From<Trouble> for Refused {
    fn from(_trouble: Trouble) -> Refused {
        Refused::Refused
    }
}

// Writes a term.
fn print_term(rt: &impl Print, c: i128, id: usize) -> io::Result<()> {
    if c < 0 {
        let magnitude = c.unsigned_abs();
        println!(rt; " - {magnitude} x{id}")
    } else {
        println!(rt; " + {c} x{id}")
    }
}

// The coefficient of a column.
fn coefficient(terms: &[(u32, i128)], id: usize) -> i128 {
    for term in terms {
        if term.0 as usize == id {
            return term.1;
        }
    }
    0
}

// Writes the LP text of a program.
fn print_milp(rt: &impl Print, milp: &Milp) -> io::Result<()> {
    match milp.sense() {
        Sense::Min => println!(rt; "Minimize")?,
        Sense::Max => println!(rt; "Maximize")?,
    }
    println!(rt; " obj:")?;
    for id in 0..milp.cols().len() {
        print_term(rt, coefficient(milp.goal(), id), id)?;
    }
    println!(rt; "Subject To")?;
    for (place, row) in milp.rows().iter().enumerate() {
        println!(rt; " r{place}:")?;
        for term in row.terms() {
            print_term(rt, term.1, term.0 as usize)?;
        }
        if row.terms().is_empty() {
            println!(rt; " + 0 x0")?;
        }
        let right = row.right();
        match row.rel() {
            Rel::AtMost => println!(rt; " <= {right}")?,
            Rel::AtLeast => println!(rt; " >= {right}")?,
            Rel::Equal => println!(rt; " = {right}")?,
        }
    }
    if milp.cols().iter().any(|col| col.sign == Sign::Free) {
        println!(rt; "Bounds")?;
        for (id, col) in milp.cols().iter().enumerate() {
            if col.sign == Sign::Free {
                println!(rt; " x{id} free")?;
            }
        }
    }
    if milp.cols().iter().any(|col| col.kind == Kind::Int) {
        println!(rt; "Generals")?;
        for (id, col) in milp.cols().iter().enumerate() {
            if col.kind == Kind::Int {
                println!(rt; " x{id}")?;
            }
        }
    }
    println!(rt; "End")
}

// Writes what compiling a model answers.
fn print_compiled(
    rt: &(impl Print + AllocGlobal),
    model: &Model,
    choice: Choice,
) -> io::Result<()> {
    match compile(rt.alloc(), model, choice) {
        Ok(compiled) => {
            for flag in compiled.hulled().as_slice() {
                if *flag {
                    println!(rt; "by hull")?;
                } else {
                    println!(rt; "by big-M")?;
                }
            }
            print_milp(rt, compiled.milp())
        }
        Err(CompileError::NoBound { mark, var }) => {
            println!(rt; "no bound at line {mark} for {var}")
        }
        Err(CompileError::MTooWide { mark }) => println!(rt; "too wide at line {mark}"),
        Err(CompileError::TooBig) => println!(rt; "too big"),
        Err(CompileError::Memory) => println!(rt; "out of memory"),
    }
}

// The choice of this name.
fn choice_of(word: &str) -> Option<Choice> {
    match word {
        "bigm" => Some(Choice::BigM),
        "hull" => Some(Choice::Hull),
        "hybrid" => Some(Choice::Hybrid),
        _ => None,
    }
}

// Writes what each line of calls answers.
fn print_calls(rt: &(impl Print + AllocGlobal), text: &str) -> Result<(), Refused> {
    for line in text.lines() {
        let answer = calls::play(rt.alloc(), line)?;
        println!(rt; "{answer}")?;
    }
    Ok(())
}

// Writes the program of the model in a file.
fn print_file(
    rt: &(impl Print + Files + AllocGlobal),
    name: &str,
    choice: Choice,
) -> Result<(), Refused> {
    let text = fs::read_to_string(rt, name)?;
    println!(rt; "file {name}")?;
    if text.len() > 1_000_000 {
        return Err(Refused::Refused);
    }
    if name.ends_with(".calls") {
        return print_calls(rt, text.as_str());
    }
    match read_model(rt.alloc(), text.as_str().as_bytes()) {
        Ok(model) => print_compiled(rt, &model, choice)?,
        Err(_) => println!(rt; "no model")?,
    }
    Ok(())
}

// Writes the program of the model in each file.
fn print_each(rt: &(impl Print + Env + Files + AllocGlobal)) -> Result<(), Refused> {
    let mut choice = Choice::BigM;
    for word in env::args(rt)?.skip(1) {
        match choice_of(word.as_str()) {
            Some(named) => choice = named,
            None => print_file(rt, word.as_str(), choice)?,
        }
    }
    Ok(())
}

fn main(rt: HostRuntime) -> ExitCode {
    match print_each(&rt) {
        Ok(()) => ExitCode::SUCCESS,
        Err(Refused::Refused) => ExitCode::from(1),
        Err(Refused::Memory) => ExitCode::from(2),
    }
}
