//! The program `simplex_bench`: measures the exact simplex on standard forms in files.
//!
//! Its words are the files and a count. It makes Bland's moves from the slack basis of each form once and prints each, the
//! column that enters and the one that leaves, and then the answer; then it goes through the forms as often again as the
//! count says, so that the time of a count, less that of 0, is the moves' time alone.
//!
//! Read `problem.rt` for the file's form, then `replay.rt`.
#![tactic(auto)]

mod problem;
mod replay;

use exact_simplex::{Event, Outcome};
use lp_frame::StandardForm;
use lp_rows::WideAt;
use problem::{BadProblem, read_problem};
use replay::{Replayed, replay};
use std::env::Env;
use std::io::Print;
use std::process::ExitCode;
use std::rt::Files;
use std::{env, fs, io};

/// The status where the words, the file or its text are refused.
const REFUSED: u8 = 1;

/// The status where memory runs out.
const MEMORY: u8 = 2;

/// The standard forms in the files that the words before the last one name, and how often they are to be replayed.
fn read_words(
    rt: &(impl Env + Files + AllocGlobal),
) -> Result<(Vec<StandardForm>, u32), BadProblem> {
    let mut words = Vec::new(rt.alloc());
    for word in env::args(rt)?.skip(1) {
        words.push(word)?;
    }
    let [files @ .., count] = words.as_slice() else {
        return Err(BadProblem::Refused);
    };
    let count = count.parse::<u32>()?;
    let mut forms = Vec::new(rt.alloc());
    for file in files {
        let text = fs::read_to_string(rt, file.as_str())?;
        forms.push(read_problem(rt.alloc(), text.as_str())?)?;
    }
    Ok((forms, count))
}

/// Prints the moves and the answer.
fn print(rt: &impl Print, replayed: &Replayed) -> io::Result<()> {
    for event in replayed.log.events() {
        if let Event::Move { enter, leave } = *event {
            println!(rt; "{enter} {leave}")?;
        }
    }
    match replayed.outcome {
        Outcome::Optimal => println!(rt; "optimal"),
        Outcome::Infeasible => println!(rt; "infeasible"),
        Outcome::Unbounded { enter } => println!(rt; "unbounded {enter}"),
        Outcome::Steps => println!(rt; "steps"),
        Outcome::Wide(WideAt::Entry { row, column }) => println!(rt; "wide {row} {column}"),
        Outcome::Wide(_) => println!(rt; "wide"),
    }
}

/// Replays each form once and prints it, and then all of them in turn so often again.
fn measure(rt: &(impl Print + Env + Files + AllocGlobal)) -> Result<(), BadProblem> {
    let (forms, count) = read_words(rt)?;
    for form in &forms {
        print(rt, &replay(rt.alloc(), form)?)?;
    }
    for _ in 0..count {
        for form in &forms {
            replay(rt.alloc(), form)?;
        }
    }
    Ok(())
}

fn main(rt: HostRuntime) -> ExitCode {
    match measure(&rt) {
        Ok(()) => ExitCode::SUCCESS,
        Err(BadProblem::Refused) => ExitCode::from(REFUSED),
        Err(BadProblem::Memory) => ExitCode::from(MEMORY),
    }
}
