//! The program `simplex_player`: plays a script of calls on rows, standard forms and tableaus, a line each, and prints
//! what each call answers.
//!
//! It is a test: the script stands in the file `stdin`, and the answers, which come from outside, in `stdout`.
//! Read `bench.rt` for what a script has made so far, then `rows.rt`, `forms.rt` and `tableaus.rt`.
#![tactic(auto)]

mod bench;
mod forms;
mod rows;
mod tableaus;

use bench::Bench;
use script::play_script;
use std::process::ExitCode;

fn main(rt: HostRuntime) -> ExitCode {
    let mut bench = Bench::new(rt.alloc());
    play_script(&rt, &mut bench)
}
