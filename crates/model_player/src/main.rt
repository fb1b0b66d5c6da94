//! The program `model_player`: plays a script of calls on models and propositions, a line each, and prints what
//! each call answers.
//!
//! It is a test: the script stands in the file `stdin`, and the answers, which come from outside, in `stdout`.
//! Read `bench.rt` for what a script has made so far, then `building.rt` for the lines that make it, and `asking.rt`
//! and `logic.rt` for those that ask.
#![tactic(auto)]

mod asking;
mod bench;
mod building;
mod logic;
mod words;

use bench::Bench;
use script::play_script;
use std::process::ExitCode;

fn main(rt: HostRuntime) -> ExitCode {
    let mut bench = Bench::new(rt.alloc());
    play_script(&rt, &mut bench)
}
