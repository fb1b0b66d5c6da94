//! The program `answer_player`: plays a script of answers and logs, a line each, and prints how each is read or written.
//!
//! It is a test: the script stands in the file `stdin`, and the answers, which come from outside, in `stdout`. A text stands
//! in one line, with `|` for a newline. Read `texts.rt` for how texts are spelled, `claims.rt` for answers, `logs.rt` for
//! logs.
#![tactic(auto)]

mod claims;
mod logs;
mod texts;

use claims::Names;
use script::{Player, Trouble, first_word, play_script};
use std::process::ExitCode;

impl Player for Names {
    fn play(&mut self, rt: &HostRuntime, line: &str) -> Result<String, Trouble> {
        let alloc = rt.alloc();
        let (call, rest) = first_word(line);
        match call {
            "variables" => self.set_variables(alloc, rest),
            "booleans" => self.set_booleans(alloc, rest),
            "again" => claims::again(alloc, self, rest),
            "claim" => claims::claim(alloc, self, rest),
            "log" => logs::log(alloc, rest),
            _ => Err(Trouble::Line),
        }
    }
}

fn main(rt: HostRuntime) -> ExitCode {
    let mut names = Names::new(rt.alloc());
    play_script(&rt, &mut names)
}
