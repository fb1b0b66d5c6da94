//! What a script has made so far, and how a line changes it.

use crate::asking::ask;
use crate::building::build;
use crate::logic::ask_prop;
use block_tree::{Model, ModelBuilder, is_name};
use fractions::Frac;
use propositions::Prop;
use script::{Player, Trouble, first_word, frac, id, shown, split};
use std::alloc::Global;

/// A builder and a model, and the terms and propositions for its next call.
#[derive(Drop)]
pub struct Bench {
    /// The builder.
    pub builder: ModelBuilder,
    /// The mark of its last call.
    pub mark: u32,
    /// The terms for the next row or goal.
    pub terms: Vec<(u32, Frac)>,
    /// Propositions, the innermost last.
    pub props: Vec<Prop>,
    /// The model that was finished last.
    pub model: Option<Model>,
}

impl Bench {
    /// An empty bench.
    pub fn new(alloc: Global) -> Bench {
        Bench {
            builder: ModelBuilder::new(alloc),
            mark: 1,
            terms: Vec::new(alloc),
            props: Vec::new(alloc),
            model: None,
        }
    }
}

impl Player for Bench {
    fn play(&mut self, rt: &HostRuntime, line: &str) -> Result<String, Trouble> {
        let alloc = rt.alloc();
        let (call, text) = first_word(line);
        if call == "name" {
            return shown(alloc, &is_name(text));
        }
        play_words(alloc, self, split(alloc, line)?.as_slice())
    }
}

fn play_words(alloc: Global, bench: &mut Bench, words: &[&str]) -> Result<String, Trouble> {
    match words {
        [] => Ok(String::new(alloc)),
        ["new"] => {
            *bench = Bench::new(alloc);
            Ok(String::new(alloc))
        }
        ["term", var, number] => {
            bench.terms.push((id(var)?, frac(number)?))?;
            Ok(String::new(alloc))
        }
        _ => {
            if let Some(answer) = build(alloc, bench, words)? {
                return Ok(answer);
            }
            if let Some(answer) = ask_prop(alloc, bench, words)? {
                return Ok(answer);
            }
            ask(alloc, bench, words)
        }
    }
}
