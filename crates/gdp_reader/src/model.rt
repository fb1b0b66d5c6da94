//! Reads model texts.

ghost use Rattle.std.specs.Prelude.{◌≡◌, ◌^◌, ◌-◌, ◌<◌, ◌≤◌, length, IfOk, IfErr};
ghost use Rattle.model_tree.specs.Values.{ModelTree, model_tree};
ghost use Rattle.text_grammar.specs.Grammars.{at_line, follow_by, given_by};
ghost use Rattle.text_grammar.specs.Lines.{lines_of};
ghost use Rattle.gdp_grammar.specs.Reading.{nothing_taken, with_header, with_tokens, with_content, with_line, model_after};
ghost use Rattle.gdp_grammar.specs.Spelling.{model_grammar, Spells};
ghost use Rattle.gdp_grammar.specs.Tokens.{tokens_of};
ghost use Rattle.text_grammar.specs.Words.{words_of};
ghost use Rattle.gdp_lines.specs.Gives.{Gives};
ghost use Rattle.gdp_reader.specs.Taking.{taken_of, GivesText, IsReadAs, IsRefused};

use crate::building::add;
use crate::error::ReadError;
use gdp_grammar::ReadCause;
use gdp_lines::fault::LineError;
use gdp_lines::form::read_form;
use gdp_lines::line::{first_line, without_comment};
use gdp_lines::token::Tokens;
use gdp_lines::word::{are_words, is_blank};
use model_builder::ModelBuilder;
use model_tree::Model;
use std::alloc::Global;

/// What the lines so far gave.
#[derive(Drop)]
struct Taking {
    is_headed: bool,
    builder: ModelBuilder,
}

impl Taking {
    /// Before the first line.
    fn new(alloc: Global) -> Taking
        ensures { taken_of result ≡ nothing_taken }
    {
        Taking {
            is_headed: false,
            builder: ModelBuilder::new(alloc),
        }
    }

    /// The header is the first line that isn't blank.
    fn take_header(&mut self, line: &[u8]) -> Result<(), LineError>
        ensures { Gives (λ _. taken_of self.new) result (with_header (taken_of self.old) (words_of line.now)) }
    {
        if is_blank(line) {
            return Ok(());
        }
        if !are_words(line, b"gdp", b"1") {
            return Err(LineError::Refused(ReadCause::Header));
        }
        self.is_headed = true;
        Ok(())
    }

    /// A line after the header adds what its form says, and a blank one nothing.
    fn take_form(&mut self, alloc: Global, line: u32, content: &[u8]) -> Result<(), LineError>
        ensures { Gives (λ _. taken_of self.new) result (with_tokens (taken_of self.old) line (tokens_of content.now)) }
    {
        let mut tokens = Tokens::new(content);
        if tokens.peek().is_none() {
            return Ok(());
        }
        let form = read_form(alloc, &mut tokens)?;
        add(alloc, &mut self.builder, line, &form)
    }

    /// Takes what stands in a line before its comment.
    fn take_content(&mut self, alloc: Global, line: u32, content: &[u8]) -> Result<(), LineError>
        ensures { Gives (λ _. taken_of self.new) result (with_content (taken_of self.old) line content.now) }
    {
        if self.is_headed {
            return self.take_form(alloc, line, content);
        }
        self.take_header(content)
    }

    /// Takes a line.
    #[tactic(auto, unfolding(gdp_grammar::specs::Reading::with_line))]
    fn take(&mut self, alloc: Global, line: u32, bytes: &[u8]) -> Result<(), LineError>
        ensures { Gives (λ _. taken_of self.new) result (with_line (taken_of self.old) line bytes.now) }
    {
        self.take_content(alloc, line, without_comment(bytes))
    }
}

/// What the lines of a text give, and how many there are.
fn take_lines(alloc: Global, text: &[u8]) -> Result<(Taking, u32), ReadError>
    requires { length text.now < 2 ^ 32 - 1 }
    ensures taken { GivesText (λ x. taken_of x.0) result (follow_by model_grammar 1 nothing_taken (lines_of text.now)) }
    ensures counted { IfOk result (λ x. x.1 ≡ length (lines_of text.now)) }
    ensures few { IfOk result (λ x. x.1 ≤ length text.now) }
{
    let mut taking = Taking::new(alloc);
    let mut rest = text;
    let mut lines = 0u32;
    'lines: while !rest.is_empty() {
        let (first, after) = first_line(rest);
        lines += 1;
        if let Err(error) = taking.take(alloc, lines, first) {
            return Err(ReadError::at(lines, error));
        }
        rest = after;
    }
    Ok((taking, lines))
}

/// The model that the lines gave; `line` is the number after the last one's.
#[tactic(auto, unfolding(gdp_grammar::specs::Reading::model_after))]
fn finish(alloc: Global, taking: Taking, line: u32) -> Result<Model, ReadError>
    ensures { GivesText model_tree result (at_line line (model_after (taken_of taking))) }
{
    if !taking.is_headed {
        return Err(ReadError::At {
            line,
            cause: ReadCause::Header,
        });
    }
    let Taking { builder, .. } = taking;
    match builder.finish(alloc) {
        Ok(model) => Ok(model),
        Err((_, refusal)) => Err(ReadError::at(line, LineError::from(refusal))),
    }
}

/// The model that the lines of a text give, or its first bad line.
fn read_text(alloc: Global, text: &[u8]) -> Result<Model, ReadError>
    requires { length text.now < 2 ^ 32 - 1 }
    ensures { GivesText model_tree result (given_by model_grammar (lines_of text.now)) }
{
    let (taking, lines) = take_lines(alloc, text)?;
    finish(alloc, taking, lines + 1)
}

/// The model that a text spells, or its first bad line with its cause.
pub fn read_model(alloc: Global, text: &[u8]) -> Result<Model, ReadError>
    requires { length text.now < 2 ^ 32 - 1 }
    // What is read is spelled.
    ensures found { IfOk result (λ model. Spells text.now (model_tree model)) }
    // What is spelled is read, and nothing else, unless memory ran out.
    ensures only { (m : ModelTree) → Spells text.now m → IsReadAs m result }
    // What is refused is the first bad line, with its cause.
    ensures refused { IfErr result (λ error. IsRefused text.now error) }
{
    read_text(alloc, text)
}
