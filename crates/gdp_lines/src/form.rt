//! The forms of lines.

ghost use Rattle.std.specs.Prelude.{◌≡◌, map, length, drop, IfSome, IfNone};
ghost use Rattle.std.specs.Option.{option_map};
ghost use Rattle.std.specs.Str.{bytes_eq};
ghost use Rattle.text_grammar.specs.Outcomes.{result_map};
ghost use Rattle.gdp_grammar.specs.Keywords.{is_reserved as is_reserved_word};
ghost use Rattle.gdp_grammar.specs.Forms.{
  ended,
  name_of,
  kind_of,
  numeral_of,
  sign_of,
  signed_of,
  low_after,
  low_of,
  high_of,
  rel_of,
  mode_of,
  summand_of,
  summands_within,
  number_alone,
  joint_of,
  word_next,
  nought_next,
  is_nought as is_nought_of,
  summands_of,
  sum_of,
  last_number as last_number_of,
  constant_of,
  var_of,
  boolean_of,
  number_goal_of,
  terms_goal_of,
  goal_of,
  row_of,
  disjunction_of,
  disjunct_of,
  end_of,
  form_of,
};
ghost use Rattle.gdp_lines.specs.Gives.{Gives};
ghost use Rattle.gdp_lines.specs.Tokens.{spelled};
ghost use Rattle.gdp_lines.specs.Lines.{signed, summand, form};

use crate::fault::LineError;
use crate::token::{Numeral, Token, Tokens};
use gdp_grammar::{ReadCause, Symbol};
use lp_rows::{Kind, Rel, Sense};
use model_tree::Mode;
use std::alloc::Global;

/// A number with its sign.
#[derive(Clone, Copy)]
pub struct Signed<'a> {
    pub is_negative: bool,
    pub size: Numeral<'a>,
}

/// A term of a sum: its sign, its number where one is written, and the name of its variable.
#[derive(Clone, Copy)]
pub struct Summand<'a> {
    pub is_negative: bool,
    pub size: Option<Numeral<'a>>,
    pub name: &'a str,
}

/// A line, by what it says.
#[derive(Drop)]
pub enum Form<'a> {
    Var(&'a str, Kind, Option<Signed<'a>>, Option<Signed<'a>>),
    Boolean(&'a str),
    Goal(Sense, Vec<Summand<'a>>, Option<Signed<'a>>),
    Row(Vec<Summand<'a>>, Rel, Signed<'a>),
    /// The tokens of a proposition, which are read where it is added.
    Logic(Tokens<'a>),
    Disjunction(Mode),
    Disjunct(&'a str),
    End,
}

/// Whether the word is this one. Most words differ in their lengths.
fn is_word(word: &str, other: &str) -> bool
    ensures { result ≡ bytes_eq word.now other.now }
{
    word.len() == other.len() && word == other
}

/// Whether the word is no name.
#[tactic(auto, unfolding(model_tree::specs::Names::reserved_words))]
pub fn is_reserved(word: &str) -> bool
    ensures { result ≡ is_reserved_word word.now }
{
    is_word(word, "not")
        || is_word(word, "and")
        || is_word(word, "or")
        || is_word(word, "implies")
        || is_word(word, "equivalent")
        || is_word(word, "xor")
        || is_word(word, "exactly")
        || is_word(word, "atleast")
        || is_word(word, "atmost")
        || is_word(word, "inf")
        || is_word(word, "end")
}

/// Nothing is left.
fn end_of_line(tokens: &mut Tokens<'_>) -> Result<(), ReadCause>
    ensures { result ≡ ended tokens.old }
{
    match tokens.next() {
        None => Ok(()),
        Some(_) => Err(ReadCause::Form),
    }
}

/// A name.
fn name_word<'a>(tokens: &mut Tokens<'a>) -> Result<&'a str, ReadCause>
    ensures { name_of tokens.old ≡ result_map (λ word. (word.now, tokens.new)) result }
{
    match tokens.next() {
        Some(Token::Word(word)) if !is_reserved(word) => Ok(word),
        _ => Err(ReadCause::Form),
    }
}

/// `real` or `int`.
fn kind_word(tokens: &mut Tokens<'_>) -> Result<Kind, ReadCause>
    ensures { kind_of tokens.old ≡ result_map (λ kind. (kind, tokens.new)) result }
{
    let Some(Token::Word(word)) = tokens.next() else {
        return Err(ReadCause::Form);
    };
    if word == "real" {
        return Ok(Kind::Real);
    }
    if word == "int" {
        return Ok(Kind::Int);
    }
    Err(ReadCause::Form)
}

/// A number.
fn number<'a>(tokens: &mut Tokens<'a>) -> Result<Numeral<'a>, ReadCause>
    ensures { numeral_of tokens.old ≡ result_map (λ number. (spelled number, tokens.new)) result }
{
    match tokens.next() {
        Some(Token::Number(number)) => Ok(number),
        _ => Err(ReadCause::Form),
    }
}

/// An optional sign: whether it is a minus.
fn sign(tokens: &mut Tokens<'_>) -> bool
    ensures { (result, tokens.new) ≡ sign_of tokens.old }
{
    match tokens.peek() {
        Some(Token::Mark(Symbol::Plus)) => {
            tokens.skip();
            false
        }
        Some(Token::Mark(Symbol::Minus)) => {
            tokens.skip();
            true
        }
        _ => false,
    }
}

/// A number with an optional sign.
#[tactic(auto, unfolding(gdp_grammar::specs::Forms::signed_of))]
fn signed_number<'a>(tokens: &mut Tokens<'a>) -> Result<Signed<'a>, ReadCause>
    ensures { signed_of tokens.old ≡ result_map (λ n. (signed n, tokens.new)) result }
{
    let is_negative = sign(tokens);
    let size = number(tokens)?;
    Ok(Signed { is_negative, size })
}

/// A low bound after its sign: a number, or `inf` behind a minus for none.
#[tactic(auto, unfolding(gdp_grammar::specs::Forms::low_after))]
fn low_after_sign<'a>(
    tokens: &mut Tokens<'a>,
    is_negative: bool,
) -> Result<Option<Signed<'a>>, ReadCause>
    ensures { low_after is_negative tokens.old ≡ result_map (λ low. (option_map signed low, tokens.new)) result }
{
    match tokens.peek() {
        Some(Token::Word(word)) if is_negative => {
            tokens.skip();
            if word == "inf" {
                return Ok(None);
            }
            Err(ReadCause::Form)
        }
        _ => {
            let size = number(tokens)?;
            Ok(Some(Signed { is_negative, size }))
        }
    }
}

/// A low bound: a number, or `-inf` for none.
fn low_bound<'a>(tokens: &mut Tokens<'a>) -> Result<Option<Signed<'a>>, ReadCause>
    ensures { low_of tokens.old ≡ result_map (λ low. (option_map signed low, tokens.new)) result }
{
    let is_negative = sign(tokens);
    low_after_sign(tokens, is_negative)
}

/// A high bound: a number, or `inf` for none.
#[tactic(auto, unfolding(gdp_grammar::specs::Forms::high_of))]
fn high_bound<'a>(tokens: &mut Tokens<'a>) -> Result<Option<Signed<'a>>, ReadCause>
    ensures { high_of tokens.old ≡ result_map (λ high. (option_map signed high, tokens.new)) result }
{
    match tokens.peek() {
        Some(Token::Word(word)) => {
            tokens.skip();
            if word == "inf" {
                return Ok(None);
            }
            Err(ReadCause::Form)
        }
        _ => {
            let high = signed_number(tokens)?;
            Ok(Some(high))
        }
    }
}

/// `<=`, `>=` or `=`.
fn relation(tokens: &mut Tokens<'_>) -> Result<Rel, ReadCause>
    ensures { rel_of tokens.old ≡ result_map (λ rel. (rel, tokens.new)) result }
{
    match tokens.next() {
        Some(Token::Mark(Symbol::AtMost)) => Ok(Rel::AtMost),
        Some(Token::Mark(Symbol::AtLeast)) => Ok(Rel::AtLeast),
        Some(Token::Mark(Symbol::Equal)) => Ok(Rel::Equal),
        _ => Err(ReadCause::Form),
    }
}

/// `xor` or `or`.
fn mode_word(tokens: &mut Tokens<'_>) -> Result<Mode, ReadCause>
    ensures { mode_of tokens.old ≡ result_map (λ mode. (mode, tokens.new)) result }
{
    let Some(Token::Word(word)) = tokens.next() else {
        return Err(ReadCause::Form);
    };
    if word == "xor" {
        return Ok(Mode::Xor);
    }
    if word == "or" {
        return Ok(Mode::Or);
    }
    Err(ReadCause::Form)
}

/// A term, after its sign.
#[tactic(auto, unfolding(gdp_grammar::specs::Forms::summand_of))]
fn term<'a>(tokens: &mut Tokens<'a>, is_negative: bool) -> Result<Summand<'a>, ReadCause>
    ensures { summand_of is_negative tokens.old ≡ result_map (λ term. (summand term, tokens.new)) result }
{
    match tokens.peek() {
        Some(Token::Number(number)) => {
            tokens.skip();
            let name = name_word(tokens)?;
            Ok(Summand {
                is_negative,
                size: Some(number),
                name,
            })
        }
        _ => {
            let name = name_word(tokens)?;
            Ok(Summand {
                is_negative,
                size: None,
                name,
            })
        }
    }
}

/// Whether a number is all that is left.
fn is_number_alone(tokens: &Tokens<'_>) -> bool
    ensures { result ≡ number_alone tokens.now }
{
    match tokens.peek() {
        Some(Token::Number(_)) => tokens.is_last(),
        _ => false,
    }
}

/// Takes the sign between two terms, if one comes: not that of a goal's constant.
fn joint(tokens: &mut Tokens<'_>) -> Option<bool>
    ensures sign { result ≡ joint_of tokens.old }
    ensures some { IfSome result (λ _. tokens.new ≡ drop 1 tokens.old) }
    ensures none { IfNone result (tokens.new ≡ tokens.old) }
{
    let is_negative = match tokens.peek() {
        Some(Token::Mark(Symbol::Plus)) => false,
        Some(Token::Mark(Symbol::Minus)) => true,
        _ => return None,
    };
    let others = tokens.after_first();
    if is_number_alone(&others) {
        return None;
    }
    *tokens = others;
    Some(is_negative)
}

/// Whether the number is spelled `0`.
fn is_nought(number: &Numeral<'_>) -> bool
    ensures { result ≡ is_nought_of (spelled number.now) }
{
    match number {
        Numeral::Whole(digits) => *digits == b"0".as_slice(),
        _ => false,
    }
}

/// Terms joined by signs, the first with this sign.
fn terms<'a>(
    alloc: Global,
    tokens: &mut Tokens<'a>,
    is_first_negative: bool,
) -> Result<Vec<Summand<'a>>, LineError>
    ensures { Gives (λ sum. (map summand sum.items, tokens.new)) result (summands_within (length tokens.old) is_first_negative tokens.old) }
{
    let mut sum = Vec::new(alloc);
    let mut is_negative = is_first_negative;
    'terms: loop {
        let first = term(tokens, is_negative)?;
        sum.push(first)?;
        match joint(tokens) {
            None => return Ok(sum),
            Some(sign) => is_negative = sign,
        }
    }
}

/// Whether the token after the next one is a word.
fn is_word_second(tokens: &Tokens<'_>) -> bool
    ensures { result ≡ word_next (drop 1 tokens.now) }
{
    matches!(tokens.after_first().peek(), Some(Token::Word(_)))
}

/// A variable's line, after its first word.
#[tactic(auto, unfolding(gdp_grammar::specs::Forms::var_of))]
fn var_line<'a>(tokens: &mut Tokens<'a>) -> Result<Form<'a>, ReadCause>
    ensures { var_of tokens.old ≡ result_map form result }
{
    let name = name_word(tokens)?;
    let kind = kind_word(tokens)?;
    let low = low_bound(tokens)?;
    let high = high_bound(tokens)?;
    end_of_line(tokens)?;
    Ok(Form::Var(name, kind, low, high))
}

/// Terms joined by signs, the first with an optional sign.
#[tactic(auto, unfolding(gdp_grammar::specs::Forms::summands_of))]
fn signed_terms<'a>(alloc: Global, tokens: &mut Tokens<'a>) -> Result<Vec<Summand<'a>>, LineError>
    ensures { Gives (λ sum. (map summand sum.items, tokens.new)) result (summands_of tokens.old) }
{
    let is_negative = sign(tokens);
    terms(alloc, tokens, is_negative)
}

/// Whether `0` alone comes next.
fn is_nought_next(tokens: &Tokens<'_>) -> bool
    ensures { result ≡ nought_next tokens.now }
{
    match tokens.peek() {
        Some(Token::Number(number)) if is_nought(&number) => !is_word_second(tokens),
        _ => false,
    }
}

/// A sum: `0` alone, or terms.
#[tactic(auto, unfolding(gdp_grammar::specs::Forms::sum_of))]
fn sum<'a>(alloc: Global, tokens: &mut Tokens<'a>) -> Result<Vec<Summand<'a>>, LineError>
    ensures { Gives (λ sum. (map summand sum.items, tokens.new)) result (sum_of tokens.old) }
{
    if is_nought_next(tokens) {
        tokens.skip();
        return Ok(Vec::new(alloc));
    }
    signed_terms(alloc, tokens)
}

/// A row's line, after its first word.
#[tactic(auto, unfolding(gdp_grammar::specs::Forms::row_of))]
fn row_line<'a>(alloc: Global, tokens: &mut Tokens<'a>) -> Result<Form<'a>, LineError>
    ensures { Gives form result (row_of tokens.old) }
{
    let sum = sum(alloc, tokens)?;
    let rel = relation(tokens)?;
    let right = signed_number(tokens)?;
    end_of_line(tokens)?;
    Ok(Form::Row(sum, rel, right))
}

/// A Boolean's line, after its first word.
#[tactic(auto, unfolding(gdp_grammar::specs::Forms::boolean_of))]
fn boolean_line<'a>(tokens: &mut Tokens<'a>) -> Result<Form<'a>, ReadCause>
    ensures { boolean_of tokens.old ≡ result_map form result }
{
    let name = name_word(tokens)?;
    end_of_line(tokens)?;
    Ok(Form::Boolean(name))
}

/// A number that ends the line, after its sign.
fn last_number<'a>(
    tokens: &mut Tokens<'a>,
    is_negative: bool,
) -> Result<Option<Signed<'a>>, ReadCause>
    ensures { last_number_of is_negative tokens.old ≡ result_map (λ constant. option_map signed constant) result }
{
    let size = number(tokens)?;
    end_of_line(tokens)?;
    Ok(Some(Signed { is_negative, size }))
}

/// A goal's constant: nothing, or a sign and a number.
#[tactic(auto, unfolding(gdp_grammar::specs::Forms::constant_of))]
fn goal_constant<'a>(tokens: &mut Tokens<'a>) -> Result<Option<Signed<'a>>, ReadCause>
    ensures { constant_of tokens.old ≡ result_map (λ constant. option_map signed constant) result }
{
    match tokens.next() {
        None => Ok(None),
        Some(Token::Mark(Symbol::Plus)) => last_number(tokens, false),
        Some(Token::Mark(Symbol::Minus)) => last_number(tokens, true),
        _ => Err(ReadCause::Form),
    }
}

/// A goal that is a number alone.
#[tactic(auto, unfolding(gdp_grammar::specs::Forms::number_goal_of))]
fn number_goal<'a>(
    alloc: Global,
    tokens: &mut Tokens<'a>,
    sense: Sense,
) -> Result<Form<'a>, ReadCause>
    ensures { number_goal_of sense tokens.old ≡ result_map form result }
{
    let constant = signed_number(tokens)?;
    Ok(Form::Goal(sense, Vec::new(alloc), Some(constant)))
}

/// A goal of terms, with a constant or without.
#[tactic(auto, unfolding(gdp_grammar::specs::Forms::terms_goal_of))]
fn terms_goal<'a>(
    alloc: Global,
    tokens: &mut Tokens<'a>,
    sense: Sense,
) -> Result<Form<'a>, LineError>
    ensures { Gives form result (terms_goal_of sense tokens.old) }
{
    let sum = signed_terms(alloc, tokens)?;
    let constant = goal_constant(tokens)?;
    Ok(Form::Goal(sense, sum, constant))
}

/// Whether a number with an optional sign is all that is left.
fn is_signed_alone(tokens: &Tokens<'_>) -> bool
    ensures { result ≡ number_alone (sign_of tokens.now).1 }
{
    let mut others = tokens.ahead();
    let _ = sign(&mut others);
    is_number_alone(&others)
}

/// A goal's line, after its first word.
fn goal_line<'a>(
    alloc: Global,
    tokens: &mut Tokens<'a>,
    sense: Sense,
) -> Result<Form<'a>, LineError>
    ensures { Gives form result (goal_of sense tokens.old) }
{
    if is_signed_alone(tokens) {
        return Ok(number_goal(alloc, tokens, sense)?);
    }
    terms_goal(alloc, tokens, sense)
}

/// The line that opens a disjunction, after its first word.
#[tactic(auto, unfolding(gdp_grammar::specs::Forms::disjunction_of))]
fn disjunction_line<'a>(tokens: &mut Tokens<'a>) -> Result<Form<'a>, ReadCause>
    ensures { disjunction_of tokens.old ≡ result_map form result }
{
    let mode = mode_word(tokens)?;
    end_of_line(tokens)?;
    Ok(Form::Disjunction(mode))
}

/// The line that opens a disjunct, after its first word.
#[tactic(auto, unfolding(gdp_grammar::specs::Forms::disjunct_of))]
fn disjunct_line<'a>(tokens: &mut Tokens<'a>) -> Result<Form<'a>, ReadCause>
    ensures { disjunct_of tokens.old ≡ result_map form result }
{
    let name = name_word(tokens)?;
    end_of_line(tokens)?;
    Ok(Form::Disjunct(name))
}

/// The line that closes a block or a disjunction, after its first word.
#[tactic(auto, unfolding(gdp_grammar::specs::Forms::end_of))]
fn end_line<'a>(tokens: &mut Tokens<'a>) -> Result<Form<'a>, ReadCause>
    ensures { end_of tokens.old ≡ result_map form result }
{
    end_of_line(tokens)?;
    Ok(Form::End)
}

/// The form of a line.
pub fn read_form<'a>(alloc: Global, tokens: &mut Tokens<'a>) -> Result<Form<'a>, LineError>
    ensures { Gives form result (form_of tokens.old) }
{
    let Some(Token::Word(word)) = tokens.next() else {
        return Err(LineError::Refused(ReadCause::Form));
    };
    match word {
        "var" => Ok(var_line(tokens)?),
        "boolean" => Ok(boolean_line(tokens)?),
        "min" => goal_line(alloc, tokens, Sense::Min),
        "max" => goal_line(alloc, tokens, Sense::Max),
        "row" => row_line(alloc, tokens),
        "logic" => Ok(Form::Logic(tokens.ahead())),
        "disjunction" => Ok(disjunction_line(tokens)?),
        "disjunct" => Ok(disjunct_line(tokens)?),
        "end" => Ok(end_line(tokens)?),
        _ => Err(LineError::Refused(ReadCause::Form)),
    }
}
