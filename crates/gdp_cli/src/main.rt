//! The program `gdp`: linear generalised disjunctive programs, read, tested, formatted and compiled.
//!
//! `main` makes a shelf over the host's files and two sinks over its streams, and calls [`run`] of `gdp_commands` with the
//! words of the command line. All else is `run`, whose contract says what the program does.
#![tactic(auto)]

use gdp_commands::{Status, run, say};
use gdp_io::{FileShelf, OutSink};
use std::env::Env;
use std::process::ExitCode;
use std::{env, io};

/// The status where the words can't be had for another cause than memory, as where one is not UTF-8.
const NO_WORDS: u8 = 9;

/// The words after the program's name.
fn read_words(rt: &(impl Env + AllocGlobal)) -> io::Result<Vec<String>> {
    let mut words = Vec::new(rt.alloc());
    for word in env::args(rt)?.skip(1) {
        words.push(word)?;
    }
    Ok(words)
}

fn main(rt: HostRuntime) -> ExitCode {
    let mut out = OutSink::new(rt.stdout());
    let mut err = OutSink::new(rt.stderr());
    let code = match read_words(&rt) {
        Ok(words) => {
            let mut shelf = FileShelf::new(&rt);
            run(rt.alloc(), words.as_slice(), &mut shelf, &mut out, &mut err).code()
        }
        Err(error) if error.kind() == io::ErrorKind::OutOfMemory => {
            say(&mut err, b"out of memory\n");
            Status::Memory.code()
        }
        Err(_) => NO_WORDS,
    };
    ExitCode::from(code)
}
