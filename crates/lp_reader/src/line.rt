//! Lines of an LP text.

ghost use Rattle.std.specs.Prelude.{◌≡◌, ◌&&◌, length, map, IfOk, if◌then◌else◌};
ghost use Rattle.std.specs.List.{list_any};
ghost use Rattle.text_grammar.specs.Lines.{lines_of};
ghost use Rattle.lp_grammar.specs.declared.cause.LpCause.TheVariants as cause;
ghost use Rattle.lp_grammar.specs.Items.{opening_of, opening_word, begins_barred as begins_barred_of, is_barred_token as is_barred_token_of, colon_first, colon_next, items_of, plain_items};
ghost use Rattle.lp_grammar.specs.Reading.{with_items, with_line};
ghost use Rattle.lp_grammar.specs.Tokens.{tokens_of};
ghost use Rattle.lp_reader.specs.Kept.{most_items, IsReady};
ghost use Rattle.lp_reader.specs.Taken.{taken_of, line_before, is_fresh as is_fresh_at, Leaves, LineLeaves};
ghost use Rattle.lp_tokens.specs.Views.{piece};

use crate::taking::Taking;
use lp_grammar::{LpCause, Section, Stage};
use lp_tokens::words::{are_barred_words, are_constraints, is_barred_word, section};
use lp_tokens::{Token, Tokens, colon_before};
use outcomes::Memory;
use std::alloc::Global;

/// The section that a word would open, with the tokens after it.
fn opening_by<'a>(name: &[u8], tokens: Tokens<'a>) -> Option<(Section, Tokens<'a>)>
    ensures { result ≡ opening_word name.now tokens.entry }
{
    match section(name) {
        None => None,
        Some(section) => Some((section, tokens)),
    }
}

/// The section that the first words of a line would open, and the tokens after them.
fn opening<'a>(line: &Tokens<'a>) -> Option<(Section, Tokens<'a>)>
    ensures { result ≡ opening_of line.now }
{
    let mut tokens = line.again();
    let Some(Token::Name(first)) = tokens.next() else {
        return None;
    };
    match tokens.peek() {
        Some(Token::Name(second)) => {
            if are_constraints(first, second) {
                tokens.next();
                return Some((Section::Constraints, tokens));
            }
            opening_by(first, tokens)
        }
        _ => opening_by(first, tokens),
    }
}

/// Whether a line begins with words of something that isn't supported.
fn begins_barred(line: &Tokens<'_>) -> bool
    ensures { result ≡ begins_barred_of line.now }
{
    let mut tokens = line.again();
    let Some(Token::Name(first)) = tokens.next() else {
        return false;
    };
    match tokens.peek() {
        Some(Token::Name(second)) => is_barred_word(first) || are_barred_words(first, second),
        _ => is_barred_word(first),
    }
}

/// Whether the token is one of something that isn't supported.
fn is_barred_token(token: Token<'_>) -> bool
    ensures { result ≡ is_barred_token_of (piece token.entry) }
{
    match token {
        Token::Barred => true,
        _ => false,
    }
}

/// Whether a token is one of something that isn't supported.
fn has_barred(line: Tokens<'_>) -> bool
    ensures { result ≡ list_any is_barred_token_of line.entry }
{
    let mut tokens = line;
    'tokens: while let Some(token) = tokens.next() {
        if is_barred_token(token) {
            return true;
        }
    }
    false
}

/// The cause against a line whose items can't come where they stand.
fn refusal(line: Tokens<'_>) -> LpCause
    ensures { result ≡ (if list_any is_barred_token_of line.entry then cause.Unsupported else cause.Form) }
{
    if has_barred(line) {
        LpCause::Unsupported
    } else {
        LpCause::Form
    }
}

/// Whether a label may come where the text stands.
fn is_fresh(stage: &Stage) -> bool
    ensures { result ≡ is_fresh_at stage.now }
{
    match *stage {
        Stage::Goal(is_fresh, _) => is_fresh,
        Stage::Rows(is_fresh, _) => is_fresh,
        _ => false,
    }
}

/// Whether a label may come where the text stands, and a colon comes next, before a text.
fn is_labelled(stage: &Stage, tokens: &Tokens<'_>, behind: &[u8]) -> bool
    ensures { result ≡ (is_fresh_at stage.now && colon_first tokens.now (colon_next (map tokens_of (lines_of behind.now)))) }
{
    is_fresh(stage) && colon_before(tokens, behind)
}

impl Taking {
    /// The tokens of a line before a text, one after the other; whether they can come here.
    fn take_tokens(
        &mut self,
        alloc: Global,
        tokens: Tokens<'_>,
        behind: &[u8],
    ) -> Result<bool, Memory>
        requires { IsReady most_items (length tokens) (taken_of self.old) }
        ensures { IfOk result (λ fits. Leaves (taken_of self.new) fits (with_items (taken_of self.old) (plain_items tokens.entry (colon_next (map tokens_of (lines_of behind.now)))))) }
    {
        let mut left = tokens;
        'tokens: while let Some(token) = left.next() {
            let is_labelled = is_labelled(&self.stage, &left, behind);
            if !self.take_token(alloc, token, is_labelled)? {
                return Ok(false);
            }
        }
        Ok(true)
    }

    /// The items of a line before a text; whether they can come here.
    fn take_items(
        &mut self,
        alloc: Global,
        line: &Tokens<'_>,
        behind: &[u8],
    ) -> Result<bool, Memory>
        requires { IsReady most_items (length line.now) (taken_of self.old) }
        ensures { IfOk result (λ fits. Leaves (taken_of self.new) fits (with_items (taken_of self.old) (items_of line.now (colon_next (map tokens_of (lines_of behind.now)))))) }
    {
        match opening(line) {
            None => self.take_tokens(alloc, line.again(), behind),
            Some((section, tokens)) => {
                if colon_before(&tokens, behind) {
                    return self.take_tokens(alloc, line.again(), behind);
                }
                if !self.take_section(alloc, section)? {
                    return Ok(false);
                }
                self.take_tokens(alloc, tokens, behind)
            }
        }
    }

    /// A line before a text; the cause against it. A line whose tokens can come where they stand has none of what isn't
    /// supported, so they are only looked for in others.
    pub fn take_line(
        &mut self,
        alloc: Global,
        line: &[u8],
        behind: &[u8],
    ) -> Result<Option<LpCause>, Memory>
        requires { IsReady most_items (length line.now) (taken_of self.old) }
        ensures { IfOk result (λ cause. LineLeaves (taken_of self.new) cause (with_line (taken_of self.old) (line_before line.now behind.now))) }
    {
        let tokens = Tokens::new(line);
        if begins_barred(&tokens) {
            return Ok(Some(LpCause::Unsupported));
        }
        if !self.take_items(alloc, &tokens, behind)? {
            return Ok(Some(refusal(tokens)));
        }
        Ok(self.noted)
    }
}
