//! The program `command_player`: plays a script of commands over shelves and sinks in memory, a line each, and prints
//! the status, what was written and which names were opened.
//!
//! It is a test: the script stands in the file `stdin`, and the answers, which come from outside, in `stdout`.
//! Read `commands.rt` for the calls of `run`, `orders.rt` for searches in another order than by depth, `texts.rt` for the
//! texts of a script, and `watched.rt` for a shelf that reveals the names that were opened.
#![tactic(auto)]

mod commands;
mod orders;
mod texts;
mod watched;

use script::{Player, Trouble, first_word, play_script, shown, split};
use std::process::ExitCode;
use texts::{Texts, add_often, blanks, bytes};

impl Player for Texts {
    fn play(&mut self, rt: &HostRuntime, line: &str) -> Result<String, Trouble> {
        let alloc = rt.alloc();
        let (call, text) = first_word(line);
        match call {
            "model" => self.model = bytes(alloc, text)?,
            "more" => add_often(alloc, &mut self.model, text)?,
            "point" => self.point = bytes(alloc, text)?,
            "blank_model" => self.model = blanks(alloc, text)?,
            "blank_point" => self.point = blanks(alloc, text)?,
            "run" => return commands::ask(alloc, self, split(alloc, text)?.as_slice()),
            "search" => return orders::ask(alloc, self, split(alloc, text)?.as_slice()),
            _ => return Err(Trouble::Line),
        }
        shown(alloc, &call)
    }
}

fn main(rt: HostRuntime) -> ExitCode {
    let mut texts = Texts::new(rt.alloc());
    play_script(&rt, &mut texts)
}
