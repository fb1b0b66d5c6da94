//! The words of the command line.
ghost use Rattle.std.specs.Prelude.{◌≡◌, ◌≢◌, ◌≤◌, ℕ, [], ◌∷◌, IfSome, IfNone, codes};
ghost use Rattle.cert_grammar.specs.Claims.{route_word};
ghost use Rattle.gdp_commands.specs.Words.{Form, IsForm, IsSeed, IsSize, IsSteps, NoForm, choice_word, words_of};
ghost use Rattle.gdp_commands.specs.Command.{form_of};
ghost use Rattle.gdp_commands.specs.Words.Form.{Format};

use answers::Route;
use hybrid_rewrite::Choice;
use std::marker::Model;
use text_reader::natural;

/// The size of a model that is made: 1 to 20.
#[derive(Clone, Copy, Debug)]
pub struct Size {
    number: u32,
}

impl Model for Size {
    ghost use Rattle.std.specs.Prelude.{ℕ, ◌≤◌};

    ghost Value = { ℕ };

    ghost view = { λ s. s.number };

    ghost invariant = { λ s. (1 ≤ s.number) × (s.number ≤ 20) };

    ghost inverse = { λ n. record { number = n } };
}

impl Size {
    /// The number.
    pub fn get(self) -> u32
        ensures same { result ≡ self }
        ensures some { 1 ≤ result }
        ensures few { result ≤ 20 }
    {
        self.number
    }
}

/// A command, with what its words stand for.
#[derive(Clone, Copy, Debug)]
pub enum Command<'a> {
    /// Tests a point of a model; both are names for the shelf.
    Test {
        model: &'a str,
        point: &'a str,
    },
    /// Writes the canonical text of a model, which is a name for the shelf.
    Format {
        model: &'a str,
    },
    /// Writes the program of a model, whose disjunctions are rewritten as the choice says.
    Compile {
        choice: Choice,
        model: &'a str,
    },
    /// Solves a model by a route with at most so many steps.
    Solve {
        route: Route,
        steps: u32,
        model: &'a str,
    },
    /// Checks an answer for a model; both are names for the shelf.
    Check {
        model: &'a str,
        answer: &'a str,
    },
    /// Writes the model of a seed and a size.
    Make {
        seed: u64,
        size: Size,
    },
    /// Solves the model of a seed and a size by a route with at most so many steps.
    Bench {
        route: Route,
        steps: u32,
        seed: u64,
        size: Size,
    },
    /// Solves the program of an LP text, which is a name for the shelf, with at most so many steps.
    Lp {
        steps: u32,
        file: &'a str,
    },
}

/// The command that the words are a form of.
pub fn parse_words(words: &[String]) -> Option<Command<'_>>
    ensures form { IfSome result (λ command. IsForm (words_of words.now) (form_of command)) }
    ensures only { IfSome result (λ command. (form : Form) → IsForm (words_of words.now) form → form ≡ form_of command) }
    ensures none { IfNone result (NoForm (words_of words.now)) }
{
    match words {
        [command, first] => parse_two(command.as_str(), first.as_str()),
        [command, first, second] => {
            parse_three(command.as_str(), first.as_str(), second.as_str())
        }
        [command, first, second, third] => parse_four(
            command.as_str(),
            first.as_str(),
            second.as_str(),
            third.as_str(),
        ),
        [command, first, second, third, fourth] => parse_five(
            command.as_str(),
            first.as_str(),
            second.as_str(),
            third.as_str(),
            fourth.as_str(),
        ),
        _ => None,
    }
}

/// The command of two words.
fn parse_two<'a>(command: &str, first: &'a str) -> Option<Command<'a>>
    ensures form { IfSome result (λ it. (command.now ≡ codes "format") × (form_of it ≡ Format first.now)) }
    ensures none { IfNone result (command.now ≢ codes "format") }
{
    match command {
        "format" => Some(Command::Format { model: first }),
        _ => None,
    }
}

/// The command of three words.
fn parse_three<'a>(command: &str, first: &'a str, second: &'a str) -> Option<Command<'a>>
    ensures form { IfSome result (λ it. IsForm (command.now ∷ first.now ∷ second.now ∷ []) (form_of it)) }
    ensures none { IfNone result (NoForm (command.now ∷ first.now ∷ second.now ∷ [])) }
{
    match command {
        "test" => Some(Command::Test {
            model: first,
            point: second,
        }),
        "compile" => parse_compile(first, second),
        "check" => Some(Command::Check {
            model: first,
            answer: second,
        }),
        "make" => parse_make(first, second),
        "lp" => parse_lp(first, second),
        _ => None,
    }
}

/// The command that compiles, where the word is a choice's.
fn parse_compile<'a>(word: &str, model: &'a str) -> Option<Command<'a>>
    ensures form { IfSome result (λ it. IsForm (codes "compile" ∷ word.now ∷ model.now ∷ []) (form_of it)) }
    ensures none { IfNone result ((choice : Choice) → word.now ≢ choice_word choice) }
{
    match parse_choice(word) {
        Some(choice) => Some(Command::Compile { choice, model }),
        None => None,
    }
}

/// The choice of this word.
fn parse_choice(word: &str) -> Option<Choice>
    ensures some { IfSome result (λ choice. word.now ≡ choice_word choice) }
    ensures none { IfNone result ((choice : Choice) → word.now ≢ choice_word choice) }
{
    match word {
        "bigm" => Some(Choice::BigM),
        "hull" => Some(Choice::Hull),
        "hybrid" => Some(Choice::Hybrid),
        _ => None,
    }
}

/// The command of four words.
fn parse_four<'a>(command: &str, first: &str, second: &str, third: &'a str) -> Option<Command<'a>>
    ensures form { IfSome result (λ it. IsForm (command.now ∷ first.now ∷ second.now ∷ third.now ∷ []) (form_of it)) }
    ensures none { IfNone result (NoForm (command.now ∷ first.now ∷ second.now ∷ third.now ∷ [])) }
{
    match command {
        "solve" => parse_solve(first, second, third),
        _ => None,
    }
}

/// The command that solves, where the words are a route's and a number of steps.
fn parse_solve<'a>(word: &str, number: &str, model: &'a str) -> Option<Command<'a>>
    ensures form { IfSome result (λ it. IsForm (codes "solve" ∷ word.now ∷ number.now ∷ model.now ∷ []) (form_of it)) }
    ensures none { IfNone result (NoForm (codes "solve" ∷ word.now ∷ number.now ∷ model.now ∷ [])) }
{
    let route = parse_route(word)?;
    let steps = parse_steps(number)?;
    Some(Command::Solve {
        route,
        steps,
        model,
    })
}

/// The command of five words.
fn parse_five<'a>(
    command: &str,
    first: &str,
    second: &str,
    third: &str,
    fourth: &str,
) -> Option<Command<'a>>
    ensures form { IfSome result (λ it. IsForm (command.now ∷ first.now ∷ second.now ∷ third.now ∷ fourth.now ∷ []) (form_of it)) }
    ensures none { IfNone result (NoForm (command.now ∷ first.now ∷ second.now ∷ third.now ∷ fourth.now ∷ [])) }
{
    match command {
        "bench" => parse_bench(first, second, third, fourth),
        _ => None,
    }
}

/// The command that makes a model, where the words are a seed and a size.
fn parse_make<'a>(first: &str, second: &str) -> Option<Command<'a>>
    ensures form { IfSome result (λ it. IsForm (codes "make" ∷ first.now ∷ second.now ∷ []) (form_of it)) }
    ensures none { IfNone result (NoForm (codes "make" ∷ first.now ∷ second.now ∷ [])) }
{
    let seed = parse_seed(first)?;
    let size = parse_size(second)?;
    Some(Command::Make { seed, size })
}

/// The command that solves an LP text, where the word is a number of steps.
fn parse_lp<'a>(word: &str, file: &'a str) -> Option<Command<'a>>
    ensures form { IfSome result (λ it. IsForm (codes "lp" ∷ word.now ∷ file.now ∷ []) (form_of it)) }
    ensures none { IfNone result (NoForm (codes "lp" ∷ word.now ∷ file.now ∷ [])) }
{
    let steps = parse_steps(word)?;
    Some(Command::Lp { steps, file })
}

/// The command that solves a model that is made, where the words are a route's, a number of steps, a seed and a size.
fn parse_bench<'a>(word: &str, first: &str, second: &str, third: &str) -> Option<Command<'a>>
    ensures form { IfSome result (λ it. IsForm (codes "bench" ∷ word.now ∷ first.now ∷ second.now ∷ third.now ∷ []) (form_of it)) }
    ensures none { IfNone result (NoForm (codes "bench" ∷ word.now ∷ first.now ∷ second.now ∷ third.now ∷ [])) }
{
    let route = parse_route(word)?;
    let steps = parse_steps(first)?;
    let seed = parse_seed(second)?;
    let size = parse_size(third)?;
    Some(Command::Bench {
        route,
        steps,
        seed,
        size,
    })
}

/// The seed that a word spells, in digits alone.
fn parse_seed(word: &str) -> Option<u64>
    ensures some { IfSome result (λ seed. IsSeed word.now seed) }
    ensures none { IfNone result ((seed : ℕ) → ¬ IsSeed word.now seed) }
{
    natural(word.as_bytes(), u64::MAX)
}

/// The size that a word spells: 1 to 20, in digits alone.
fn parse_size(word: &str) -> Option<Size>
    ensures some { IfSome result (λ size. IsSize word.now size) }
    ensures none { IfNone result ((size : ℕ) → ¬ IsSize word.now size) }
{
    match natural(word.as_bytes(), 20) {
        None | Some(0) => None,
        Some(size) => Some(Size {
            number: size as u32,
        }),
    }
}

/// The route of this word.
fn parse_route(word: &str) -> Option<Route>
    ensures some { IfSome result (λ route. word.now ≡ route_word route) }
    ensures none { IfNone result ((route : Route) → word.now ≢ route_word route) }
{
    match word {
        "bigm" => Some(Route::BigM),
        "hull" => Some(Route::Hull),
        "hybrid" => Some(Route::Hybrid),
        "logic" => Some(Route::Logic),
        _ => None,
    }
}

/// The number of steps that a word spells: 1 to 1,000,000, in digits alone.
fn parse_steps(word: &str) -> Option<u32>
    ensures some { IfSome result (λ steps. IsSteps word.now steps) }
    ensures none { IfNone result ((steps : ℕ) → ¬ IsSteps word.now steps) }
{
    match natural(word.as_bytes(), 1_000_000) {
        None | Some(0) => None,
        Some(steps) => Some(steps as u32),
    }
}
