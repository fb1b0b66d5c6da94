//! The colon that may come next, on whatever line.

ghost use Rattle.std.specs.Prelude.{◌≡◌, map};
ghost use Rattle.text_grammar.specs.Lines.{lines_of};
ghost use Rattle.lp_grammar.specs.Items.{colon_first, colon_next};
ghost use Rattle.lp_grammar.specs.Tokens.{tokens_of};
ghost use Rattle.lp_tokens.specs.Views.{piece, is_colon_piece};

use crate::line::first_line;
use crate::token::{Token, Tokens};

/// Whether the token is a colon.
pub fn is_colon(token: Token<'_>) -> bool
    ensures { result ≡ is_colon_piece (piece token.entry) }
{
    match token {
        Token::Colon => true,
        _ => false,
    }
}

/// Whether the first token of a text is a colon, after whatever lines without tokens.
pub fn colon_comes(text: &[u8]) -> bool
    ensures { result ≡ colon_next (map tokens_of (lines_of text.now)) }
{
    let mut left = text;
    'lines: while !left.is_empty() {
        let (line, rest) = first_line(left);
        let mut tokens = Tokens::new(line);
        if let Some(token) = tokens.next() {
            return is_colon(token);
        }
        left = rest;
    }
    false
}

/// Whether a colon comes next, before a text.
pub fn colon_before(tokens: &Tokens<'_>, behind: &[u8]) -> bool
    ensures { result ≡ colon_first tokens.now (colon_next (map tokens_of (lines_of behind.now))) }
{
    match tokens.peek() {
        Some(token) => is_colon(token),
        None => colon_comes(behind),
    }
}
