//! Tokens: the words, numbers and symbols of a line.

ghost use Rattle.std.specs.Prelude.{◌≡◌, [], ◌∷◌, drop};
ghost use Rattle.std.specs.Option.{MatchOption};
ghost use Rattle.gdp_grammar.specs.Classes.{front, rest};
ghost use Rattle.gdp_grammar.specs.Tokens.{numeral_of, double_of, token_of, tokens_of};
ghost use Rattle.gdp_lines.specs.Tokens.{spelled, piece, tokens_left, is_last as is_last_of};

use crate::class::{belongs, split_front};
use gdp_grammar::{Class, Symbol};
use std::marker::Model;

/// A number as it is spelled: its digits, after them those below a stroke or behind a point.
#[derive(Clone, Copy)]
pub enum Numeral<'a> {
    Whole(&'a [u8]),
    Fraction(&'a [u8], &'a [u8]),
    Decimal(&'a [u8], &'a [u8]),
}

/// A token of a line. `Stray` is a byte that begins none.
#[derive(Clone, Copy)]
pub enum Token<'a> {
    Word(&'a str),
    Number(Numeral<'a>),
    Mark(Symbol),
    Stray,
}

/// The number with these digits before what follows, and the rest.
#[tactic(auto, unfolding(gdp_grammar::specs::Tokens::numeral_of))]
fn split_numeral<'a>(digits: &'a [u8], after: &'a [u8]) -> (Numeral<'a>, &'a [u8])
    ensures { numeral_of digits.now after.now ≡ (spelled result.0, result.1.now) }
{
    match after {
        [b'/', b'0'..=b'9', ..] => {
            let (under, rest) = split_front(&after[1..], Class::Digit);
            (Numeral::Fraction(digits, under), rest)
        }
        [b'.', b'0'..=b'9', ..] => {
            let (places, rest) = split_front(&after[1..], Class::Digit);
            (Numeral::Decimal(digits, places), rest)
        }
        _ => (Numeral::Whole(digits), after),
    }
}

/// A symbol of two bytes, of which the second is `=`, and the rest.
#[tactic(auto, unfolding(gdp_grammar::specs::Tokens::double_of))]
fn split_double<'a>(symbol: Symbol, after: &'a [u8]) -> (Token<'a>, &'a [u8])
    ensures { double_of symbol after.now ≡ (piece result.0, result.1.now) }
{
    match after {
        [b'=', rest @ ..] => (Token::Mark(symbol), rest),
        _ => (Token::Stray, after),
    }
}

/// The name at the front of the bytes, and what follows it.
fn split_name(bytes: &[u8]) -> (&str, &[u8])
    ensures name { result.0.now ≡ front Class.Name bytes.now }
    ensures rest { result.1.now ≡ rest Class.Name bytes.now }
{
    let (name, rest) = split_front(bytes, Class::Name);
    match str::from_utf8(name) {
        Ok(name) => (name, rest),
        Err(_) => unreachable!(),
    }
}

/// The token that begins with this byte and goes on with what follows, and the rest.
#[tactic(auto, unfolding(gdp_grammar::specs::Tokens::token_of))]
fn split_token<'a>(bytes: &'a [u8], first: u8, after: &'a [u8]) -> (Token<'a>, &'a [u8])
    requires { bytes.now ≡ first ∷ after.now }
    ensures { token_of first after.now ≡ (piece result.0, result.1.now) }
{
    if belongs(Class::Start, first) {
        let (name, rest) = split_name(bytes);
        return (Token::Word(name), rest);
    }
    if belongs(Class::Digit, first) {
        let (digits, rest) = split_front(bytes, Class::Digit);
        let (number, rest) = split_numeral(digits, rest);
        return (Token::Number(number), rest);
    }
    match first {
        b'+' => (Token::Mark(Symbol::Plus), after),
        b'-' => (Token::Mark(Symbol::Minus), after),
        b'(' => (Token::Mark(Symbol::Open), after),
        b')' => (Token::Mark(Symbol::Close), after),
        b',' => (Token::Mark(Symbol::Comma), after),
        b'=' => (Token::Mark(Symbol::Equal), after),
        b'<' => split_double(Symbol::AtMost, after),
        b'>' => split_double(Symbol::AtLeast, after),
        _ => (Token::Stray, after),
    }
}

/// The first token of the bytes, and what follows it.
fn split_first(bytes: &[u8]) -> (Option<Token<'_>>, &[u8])
    ensures { tokens_of bytes.now ≡ tokens_left result.0 result.1.now }
{
    let bytes = split_front(bytes, Class::Blank).1;
    match bytes {
        [] => (None, bytes),
        [first, after @ ..] => {
            let (token, rest) = split_token(bytes, *first, after);
            (Some(token), rest)
        }
    }
}

/// The tokens of a line that are left to read. The first of them is cut already, so however often it is looked at, it is
/// cut once.
#[derive(Drop)]
pub struct Tokens<'a> {
    first: Option<Token<'a>>,
    after: &'a [u8],
}

impl<'a> Model for Tokens<'a> {
    ghost use Rattle.std.specs.Prelude.{List};
    ghost use Rattle.gdp_grammar.specs.Tokens.{Piece};
    ghost use Rattle.gdp_lines.specs.Tokens.{tokens_left};

    ghost Value = { List Piece };

    ghost view = { λ t. tokens_left t.first t.after.now };
}

impl<'a> Tokens<'a> {
    /// The tokens of a line.
    pub fn new(line: &'a [u8]) -> Tokens<'a>
        ensures { result ≡ tokens_of line.now }
    {
        let (first, after) = split_first(line);
        Tokens { first, after }
    }

    /// Takes the first of the tokens that are left.
    pub fn next(&mut self) -> Option<Token<'a>>
        ensures { MatchOption result ((self.old ≡ []) × (self.new ≡ [])) (λ t. self.old ≡ piece t ∷ self.new) }
    {
        let first = self.first;
        if first.is_some() {
            let (next, after) = split_first(self.after);
            self.first = next;
            self.after = after;
        }
        first
    }

    /// The first of the tokens that are left, which it leaves.
    pub fn peek(&self) -> Option<Token<'a>>
        ensures { MatchOption result (self.now ≡ []) (λ t. self.now ≡ piece t ∷ drop 1 self.now) }
    {
        self.first
    }

    /// Whether no token is left behind the first.
    pub fn is_last(&self) -> bool
        ensures { result ≡ is_last_of self.now }
    {
        match self.first {
            None => true,
            Some(_) => split_front(self.after, Class::Blank).1.is_empty(),
        }
    }

    /// The tokens that are left, to look ahead.
    pub fn ahead(&self) -> Tokens<'a>
        ensures { result ≡ self.now }
    {
        Tokens {
            first: self.first,
            after: self.after,
        }
    }

    /// The tokens after the first of those that are left, to look ahead.
    pub fn after_first(&self) -> Tokens<'a>
        ensures { result ≡ drop 1 self.now }
    {
        let mut others = self.ahead();
        others.skip();
        others
    }

    /// Passes over the first of the tokens that are left.
    pub fn skip(&mut self)
        ensures { self.new ≡ drop 1 self.old }
    {
        let _ = self.next();
    }
}
