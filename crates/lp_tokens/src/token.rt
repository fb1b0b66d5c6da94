//! Tokens of a line.

ghost use Rattle.std.specs.Prelude.{◌≡◌, [], ◌∷◌, drop};
ghost use Rattle.std.specs.Option.{MatchOption};
ghost use Rattle.lp_grammar.specs.Tokens.{
  exponent_digits as digits_of_exponent,
  exponent_after as after_letter,
  exponent_of,
  numeral_with,
  numeral_after,
  point_token,
  minus_token,
  less_token,
  greater_token,
  equal_token,
  token_of,
  tokens_of,
};
ghost use Rattle.lp_tokens.specs.Views.{exponent, numeral, piece};

use crate::bytes::{NameBytes, begins_name};
use crate::line::without_comment;
use lp_rows::Rel;
use std::marker::Model;
use text_reader::{Blanks, Digits, split_front};

/// An exponent: whether a `-` stands before it, and its digits, none where there is no exponent.
#[derive(Clone, Copy)]
pub struct Exponent<'a> {
    pub is_negative: bool,
    pub digits: &'a [u8],
}

/// A number as it is spelled: its digits, those behind its point, and its exponent.
#[derive(Clone, Copy)]
pub struct Numeral<'a> {
    pub digits: &'a [u8],
    pub places: &'a [u8],
    pub exponent: Exponent<'a>,
}

/// A token. `Barred` is one of something that isn't supported, and `Stray` a byte that begins none.
#[derive(Clone, Copy)]
pub enum Token<'a> {
    Name(&'a [u8]),
    Number(Numeral<'a>),
    Sign(bool),
    Compare(Rel),
    Colon,
    Barred,
    Stray,
}

/// An exponent's digits behind its sign, and the rest; or none, before these bytes.
fn exponent_digits<'a>(
    is_negative: bool,
    after: &'a [u8],
    bytes: &'a [u8],
) -> (Exponent<'a>, &'a [u8])
    ensures { digits_of_exponent is_negative after.now bytes.now ≡ (exponent result.0, result.1.now) }
{
    match after {
        [b'0'..=b'9', ..] => {
            let (digits, rest) = split_front::<Digits>(after);
            (
                Exponent {
                    is_negative,
                    digits,
                },
                rest,
            )
        }
        _ => (
            Exponent {
                is_negative: false,
                digits: &[],
            },
            bytes,
        ),
    }
}

/// An exponent after its letter.
fn exponent_after<'a>(after: &'a [u8], bytes: &'a [u8]) -> (Exponent<'a>, &'a [u8])
    ensures { after_letter after.now bytes.now ≡ (exponent result.0, result.1.now) }
{
    match after {
        [b'+', rest @ ..] => exponent_digits(false, rest, bytes),
        [b'-', rest @ ..] => exponent_digits(true, rest, bytes),
        _ => exponent_digits(false, after, bytes),
    }
}

/// An exponent, and the rest.
fn split_exponent(bytes: &[u8]) -> (Exponent<'_>, &[u8])
    ensures { exponent_of bytes.now ≡ (exponent result.0, result.1.now) }
{
    match bytes {
        [b'e', rest @ ..] => exponent_after(rest, bytes),
        [b'E', rest @ ..] => exponent_after(rest, bytes),
        _ => (
            Exponent {
                is_negative: false,
                digits: &[],
            },
            bytes,
        ),
    }
}

/// The number with these digits before what follows, and the rest.
fn numeral_behind<'a>(digits: &'a [u8], after: &'a [u8]) -> (Token<'a>, &'a [u8])
    ensures { numeral_after digits.now after.now ≡ (piece result.0, result.1.now) }
{
    match after {
        [b'.', behind @ ..] => {
            let (places, rest) = split_front::<Digits>(behind);
            let (exponent, rest) = split_exponent(rest);
            (
                Token::Number(Numeral {
                    digits,
                    places,
                    exponent,
                }),
                rest,
            )
        }
        _ => {
            let (exponent, rest) = split_exponent(after);
            (
                Token::Number(Numeral {
                    digits,
                    places: &[],
                    exponent,
                }),
                rest,
            )
        }
    }
}

/// A number that begins with its point.
fn split_point(after: &[u8]) -> (Token<'_>, &[u8])
    ensures { point_token after.now ≡ (piece result.0, result.1.now) }
{
    match after {
        [b'0'..=b'9', ..] => {
            let (places, rest) = split_front::<Digits>(after);
            let (exponent, rest) = split_exponent(rest);
            (
                Token::Number(Numeral {
                    digits: &[],
                    places,
                    exponent,
                }),
                rest,
            )
        }
        _ => (Token::Stray, after),
    }
}

/// After `-`.
fn split_minus(after: &[u8]) -> (Token<'_>, &[u8])
    ensures { minus_token after.now ≡ (piece result.0, result.1.now) }
{
    match after {
        [b'>', rest @ ..] => (Token::Barred, rest),
        _ => (Token::Sign(true), after),
    }
}

/// After `<`.
fn split_less(after: &[u8]) -> (Token<'_>, &[u8])
    ensures { less_token after.now ≡ (piece result.0, result.1.now) }
{
    match after {
        [b'=', rest @ ..] => (Token::Compare(Rel::AtMost), rest),
        [b'-', b'>', rest @ ..] => (Token::Barred, rest),
        _ => (Token::Compare(Rel::AtMost), after),
    }
}

/// After `>`.
fn split_greater(after: &[u8]) -> (Token<'_>, &[u8])
    ensures { greater_token after.now ≡ (piece result.0, result.1.now) }
{
    match after {
        [b'=', rest @ ..] => (Token::Compare(Rel::AtLeast), rest),
        _ => (Token::Compare(Rel::AtLeast), after),
    }
}

/// After `=`.
fn split_equal(after: &[u8]) -> (Token<'_>, &[u8])
    ensures { equal_token after.now ≡ (piece result.0, result.1.now) }
{
    match after {
        [b'<', rest @ ..] => (Token::Compare(Rel::AtMost), rest),
        [b'>', rest @ ..] => (Token::Compare(Rel::AtLeast), rest),
        _ => (Token::Compare(Rel::Equal), after),
    }
}

/// The token that begins with this byte and goes on with what follows, and the rest.
#[tactic(auto, unfolding(lp_grammar::specs::Tokens::token_of))]
fn split_token<'a>(bytes: &'a [u8], first: u8, after: &'a [u8]) -> (Token<'a>, &'a [u8])
    requires { bytes.now ≡ first ∷ after.now }
    ensures { token_of first after.now ≡ (piece result.0, result.1.now) }
{
    if begins_name(first) {
        let (name, rest) = split_front::<NameBytes>(bytes);
        return (Token::Name(name), rest);
    }
    if first.is_ascii_digit() {
        let (digits, rest) = split_front::<Digits>(bytes);
        return numeral_behind(digits, rest);
    }
    match first {
        b'.' => split_point(after),
        b'+' => (Token::Sign(false), after),
        b'-' => split_minus(after),
        b'<' => split_less(after),
        b'>' => split_greater(after),
        b'=' => split_equal(after),
        b':' => (Token::Colon, after),
        b'^' | b'*' | b'[' => (Token::Barred, after),
        _ => (Token::Stray, after),
    }
}

/// The tokens of a line that are left to read.
#[derive(Drop)]
pub struct Tokens<'a> {
    bytes: &'a [u8],
}

impl<'a> Model for Tokens<'a> {
    ghost use Rattle.std.specs.Prelude.{List};
    ghost use Rattle.text_grammar.specs.Lexers.{tokens_by};
    ghost use Rattle.lp_grammar.specs.Tokens.{Token, token_of};

    ghost Value = { List Token };

    ghost view = { λ t. tokens_by token_of t.bytes.now };
}

impl<'a> Tokens<'a> {
    /// The tokens of a line.
    pub fn new(line: &'a [u8]) -> Tokens<'a>
        ensures { result ≡ tokens_of line.now }
    {
        Tokens {
            bytes: without_comment(line),
        }
    }

    /// The same tokens once more.
    pub fn again(&self) -> Tokens<'a>
        ensures { result ≡ self.now }
    {
        Tokens { bytes: self.bytes }
    }

    /// Takes the first of the tokens that are left.
    pub fn next(&mut self) -> Option<Token<'a>>
        ensures { MatchOption result ((self.old ≡ []) × (self.new ≡ [])) (λ t. self.old ≡ piece t ∷ self.new) }
    {
        let bytes = split_front::<Blanks>(self.bytes).1;
        match bytes {
            [] => {
                self.bytes = bytes;
                None
            }
            [first, after @ ..] => {
                let (token, rest) = split_token(bytes, *first, after);
                self.bytes = rest;
                Some(token)
            }
        }
    }

    /// The first of the tokens that are left, which it leaves.
    pub fn peek(&self) -> Option<Token<'a>>
        ensures { MatchOption result (self.now ≡ []) (λ t. self.now ≡ piece t ∷ drop 1 self.now) }
    {
        let bytes = split_front::<Blanks>(self.bytes).1;
        match bytes {
            [] => None,
            [first, after @ ..] => Some(split_token(bytes, *first, after).0),
        }
    }
}
