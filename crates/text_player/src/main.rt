//! The program `text_player`: plays a script of texts, a line each, and prints what each is read as. It also plays calls
//! on shelves, sinks and files.
//!
//! It is a test: the script stands in the file `stdin`, and the answers, which come from outside, in `stdout`.
//! Read `readings.rt` for models and points, `tokens.rt` for what stands in a line, `shelves.rt` and `files.rt`.
#![tactic(auto)]

mod files;
mod readings;
mod shelves;
mod tokens;
mod words;

use files::ask_host;
use model_tree::Model;
use script::{Player, Trouble, first_word, id, play_script, split};
use shelves::ask_shelf;
use std::alloc::Global;
use std::process::ExitCode;

/// The model that was read last.
#[derive(Drop)]
struct Texts {
    model: Option<Model>,
}

impl Player for Texts {
    fn play(&mut self, rt: &HostRuntime, line: &str) -> Result<String, Trouble> {
        match ask_host(rt, line)? {
            Some(answer) => Ok(answer),
            None => ask(rt.alloc(), &mut self.model, line),
        }
    }
}

// What a line answers that asks nothing of the host.
fn ask(alloc: Global, kept: &mut Option<Model>, line: &str) -> Result<String, Trouble> {
    let (call, text) = first_word(line);
    match call {
        "model" => readings::model(alloc, kept, text),
        "point" => readings::point(alloc, kept, text),
        "goal_of" => readings::goal(alloc, kept),
        "logic" => tokens::logic(alloc, text),
        "known" => tokens::known(alloc, text),
        "deep" => tokens::deep(alloc, id(text)?),
        "worth" => tokens::worth(alloc, text),
        "cut" => tokens::cut(alloc, text),
        _ => ask_shelf(alloc, split(alloc, line)?.as_slice()),
    }
}

fn main(rt: HostRuntime) -> ExitCode {
    let mut texts = Texts { model: None };
    play_script(&rt, &mut texts)
}
