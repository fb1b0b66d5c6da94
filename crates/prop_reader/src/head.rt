//! What comes next of a proposition, read from left to right.

ghost use Rattle.std.specs.Prelude.{◌≡◌};
ghost use Rattle.text_grammar.specs.Outcomes.{result_map};
ghost use Rattle.prop_reader.specs.steps.Heads.{
  past_open,
  past_comma,
  digits_of,
  opening_of,
  head_of,
  head_value,
  joint_of,
};
ghost use Rattle.prop_reader.specs.steps.Operators.{operator_value, word_value};

use crate::operator::{Operator, OperatorWord, operator_word};
use gdp_grammar::{ReadCause, Symbol};
use gdp_lines::form::is_reserved;
use gdp_lines::token::{Numeral, Token, Tokens};

/// What a proposition begins with: its name, or its operator with all that stands before the first argument.
#[derive(Clone, Copy)]
pub enum Head<'a> {
    Name(&'a str),
    Opens(Operator<'a>),
}

/// What follows a proposition: nothing, a further argument, or the end of the arguments.
#[derive(Clone, Copy)]
pub enum Joint {
    End,
    Further,
    Closes,
}

/// The opening parenthesis.
fn take_open(tokens: &mut Tokens<'_>) -> Result<(), ReadCause>
    ensures { past_open tokens.old ≡ result_map (λ _. tokens.new) result }
{
    match tokens.next() {
        Some(Token::Mark(Symbol::Open)) => Ok(()),
        _ => Err(ReadCause::Form),
    }
}

/// A comma.
fn take_comma(tokens: &mut Tokens<'_>) -> Result<(), ReadCause>
    ensures { past_comma tokens.old ≡ result_map (λ _. tokens.new) result }
{
    match tokens.next() {
        Some(Token::Mark(Symbol::Comma)) => Ok(()),
        _ => Err(ReadCause::Form),
    }
}

/// The digits of a whole number.
fn take_digits<'a>(tokens: &mut Tokens<'a>) -> Result<&'a [u8], ReadCause>
    ensures { digits_of tokens.old ≡ result_map (λ digits. (digits.now, tokens.new)) result }
{
    match tokens.next() {
        Some(Token::Number(Numeral::Whole(digits))) => Ok(digits),
        _ => Err(ReadCause::Form),
    }
}

/// The operator that began with this word.
fn take_opening<'a>(
    tokens: &mut Tokens<'a>,
    word: OperatorWord<'a>,
) -> Result<Operator<'a>, ReadCause>
    ensures { opening_of (word_value word.entry) tokens.old ≡ result_map (λ operator. (operator_value operator, tokens.new)) result }
{
    take_open(tokens)?;
    match word {
        OperatorWord::Plain(operator) => Ok(operator),
        OperatorWord::Number(counting) => {
            let digits = take_digits(tokens)?;
            take_comma(tokens)?;
            Ok(Operator::Counted(counting, digits))
        }
    }
}

/// What a proposition begins with.
pub fn take_head<'a>(tokens: &mut Tokens<'a>) -> Result<Head<'a>, ReadCause>
    ensures { head_of tokens.old ≡ result_map (λ head. (head_value head, tokens.new)) result }
{
    let Some(Token::Word(word)) = tokens.next() else {
        return Err(ReadCause::Form);
    };
    match operator_word(word) {
        Some(first) => {
            let operator = take_opening(tokens, first)?;
            Ok(Head::Opens(operator))
        }
        None if is_reserved(word) => Err(ReadCause::Form),
        None => Ok(Head::Name(word)),
    }
}

/// What follows a proposition.
pub fn take_joint(tokens: &mut Tokens<'_>) -> Result<Joint, ReadCause>
    ensures { joint_of tokens.old ≡ result_map (λ joint. (joint, tokens.new)) result }
{
    match tokens.next() {
        None => Ok(Joint::End),
        Some(Token::Mark(Symbol::Comma)) => Ok(Joint::Further),
        Some(Token::Mark(Symbol::Close)) => Ok(Joint::Closes),
        _ => Err(ReadCause::Form),
    }
}
