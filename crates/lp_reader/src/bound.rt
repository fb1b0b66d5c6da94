//! Tokens of bounds, and names of integer columns.

ghost use Rattle.std.specs.Prelude.{◌≡◌, ◌≤◌, ◌^◌, Some, None, IfOk, OnOk};
ghost use Rattle.lp_grammar.specs.Taking.{
  column_of as column_of_name,
  bounded_by,
  freed,
  turned,
  with_column,
  with_name as with_one_name,
  added_rows,
  is_infinite_word as is_infinite_of,
  is_free_word as is_free_of,
};
ghost use Rattle.lp_grammar.specs.Reading.{
  signed_value as signed_value_of,
  with_value as with_one_value,
  bound_name as bound_of_name,
  bound_token,
  bound_of_token,
  bound_to_token,
  bound_sign_token,
  bound_from_token,
  bound_from as bound_from_value,
  bound_on_token,
  bound_more_token,
  stage_after as stage_behind,
  integer_change,
  with_integer,
  name_token,
};
ghost use Rattle.lp_grammar.specs.Tokens.{Name};
ghost use Rattle.lp_tokens.specs.Views.{numeral, piece};
ghost use Rattle.lp_reader.specs.Taken.{taken_of, Leaves};

use crate::row::is_minus;
use crate::taking::Taking;
use fractions::Frac;
use lp_grammar::Stage;
use lp_parts::columns::{bounded, made_integer, unbounded};
use lp_rows::Rel;
use lp_tokens::value::{signed_or_one, value};
use lp_tokens::words::{is_free_word, is_infinite_word};
use lp_tokens::{Numeral, Token, is_huge};
use outcomes::Memory;
use std::alloc::Global;

/// The value of a bound with its sign, none where it is infinite.
fn signed_value(is_negative: bool, number: &Numeral<'_>) -> Option<Frac>
    ensures { result ≡ signed_value_of is_negative (numeral number.now) }
{
    if is_huge(number) {
        return None;
    }
    Some(signed_or_one(is_negative, value(number)))
}

/// The relation, turned round.
fn turn(rel: Rel) -> Rel
    ensures { result ≡ turned rel }
{
    match rel {
        Rel::AtMost => Rel::AtLeast,
        Rel::AtLeast => Rel::AtMost,
        Rel::Equal => Rel::Equal,
    }
}

/// Where a text stands behind a value, its relation and a column.
fn stage_after(rel: Rel, id: usize) -> Stage
    ensures { result ≡ stage_behind rel id }
{
    match rel {
        Rel::AtMost => Stage::BoundMore(id),
        _ => Stage::Bounds,
    }
}

impl Taking {
    /// A value of a bound that is out of range is noted.
    fn take_value(&mut self, number: &Numeral<'_>)
        ensures { taken_of self.new ≡ with_one_value (numeral number.now) (taken_of self.old) }
    {
        if !is_huge(number) {
            self.take_number(&value(number));
        }
    }

    /// The column gets a bound.
    fn bound_column(&mut self, id: usize, rel: Rel, bound: Option<Frac>)
        ensures { taken_of self.new ≡ with_column id (bounded_by rel bound) (taken_of self.old) }
    {
        if id < self.columns.len() {
            let column = self.columns[id];
            self.columns[id] = bounded(rel, bound, column);
        }
    }

    /// The column loses its bounds.
    fn free_column(&mut self, id: usize)
        ensures { taken_of self.new ≡ with_column id freed (taken_of self.old) }
    {
        if id < self.columns.len() {
            let column = self.columns[id];
            self.columns[id] = unbounded(column);
        }
    }

    /// The column becomes an integer or a binary one.
    fn make_integer(&mut self, id: usize, is_binary: bool)
        ensures { taken_of self.new ≡ with_column id (integer_change is_binary) (taken_of self.old) }
    {
        if id < self.columns.len() {
            let column = self.columns[id];
            self.columns[id] = made_integer(is_binary, column);
        }
    }

    /// How many rows more are counted where the column becomes an integer one.
    fn added_rows(&self, id: usize) -> u64
        ensures value { result ≡ added_rows id (taken_of self.now).columns }
        ensures few { result ≤ 2 }
    {
        if id >= self.columns.len() {
            return 0;
        }
        if self.columns[id].is_integer { 0 } else { 2 }
    }

    /// A name that begins a bound.
    pub fn take_bound_name(&mut self, alloc: Global, name: &[u8]) -> Result<(), Memory>
        ensures { OnOk result (taken_of self.new ≡ bound_of_name (column_of_name (with_one_name name.now (taken_of self.old)) name.now)) }
    {
        self.take_name(name);
        let id = self.column_of(alloc, name)?;
        self.stand_at(Stage::BoundOf(id));
        Ok(())
    }

    /// A token that begins a bound; whether it can come here.
    pub fn take_bound(&mut self, alloc: Global, token: Token<'_>) -> Result<bool, Memory>
        ensures { IfOk result (λ fits. Leaves (taken_of self.new) fits (bound_token (taken_of self.old) (piece token.entry))) }
    {
        match token {
            Token::Name(name) => {
                if is_infinite_word(name) {
                    self.stand_at(Stage::BoundFrom(None));
                    return Ok(true);
                }
                if is_free_word(name) {
                    return Ok(false);
                }
                self.take_bound_name(alloc, name)?;
                Ok(true)
            }
            Token::Sign(is_negative) => {
                self.stand_at(Stage::BoundSign(is_negative));
                Ok(true)
            }
            Token::Number(number) => {
                self.stand_at(Stage::BoundFrom(signed_value(false, &number)));
                self.take_value(&number);
                Ok(true)
            }
            _ => Ok(false),
        }
    }

    /// A token behind the column of a bound; whether it can come here.
    pub fn take_bound_of(&mut self, id: usize, token: Token<'_>) -> bool
        ensures { Leaves (taken_of self.new) result (bound_of_token (taken_of self.old) id (piece token.entry)) }
    {
        match token {
            Token::Name(name) => {
                if !is_free_word(name) {
                    return false;
                }
                self.stand_at(Stage::Bounds);
                self.free_column(id);
                true
            }
            Token::Compare(rel) => {
                self.stand_at(Stage::BoundTo(id, rel, None));
                true
            }
            _ => false,
        }
    }

    /// A token behind the relation of a column; whether it can come here.
    pub fn take_bound_to(
        &mut self,
        id: usize,
        rel: Rel,
        sign: Option<bool>,
        token: Token<'_>,
    ) -> bool
        ensures { Leaves (taken_of self.new) result (bound_to_token (taken_of self.old) id rel sign (piece token.entry)) }
    {
        match (sign, token) {
            (None, Token::Sign(is_negative)) => {
                self.stand_at(Stage::BoundTo(id, rel, Some(is_negative)));
                true
            }
            (sign, Token::Number(number)) => {
                self.stand_at(Stage::Bounds);
                self.bound_column(id, rel, signed_value(is_minus(sign), &number));
                self.take_value(&number);
                true
            }
            (_, Token::Name(name)) => {
                if !is_infinite_word(name) {
                    return false;
                }
                self.stand_at(Stage::Bounds);
                self.bound_column(id, rel, None);
                true
            }
            _ => false,
        }
    }

    /// A token behind a sign that begins a bound; whether it can come here.
    pub fn take_bound_sign(&mut self, is_negative: bool, token: Token<'_>) -> bool
        ensures { Leaves (taken_of self.new) result (bound_sign_token (taken_of self.old) is_negative (piece token.entry)) }
    {
        match token {
            Token::Number(number) => {
                self.stand_at(Stage::BoundFrom(signed_value(is_negative, &number)));
                self.take_value(&number);
                true
            }
            Token::Name(name) => {
                if !is_infinite_word(name) {
                    return false;
                }
                self.stand_at(Stage::BoundFrom(None));
                true
            }
            _ => false,
        }
    }

    /// A token behind a value that begins a bound; whether it can come here.
    pub fn take_bound_from(&mut self, bound: Option<Frac>, token: Token<'_>) -> bool
        ensures { Leaves (taken_of self.new) result (bound_from_token (taken_of self.old) bound (piece token.entry)) }
    {
        match token {
            Token::Compare(rel) => {
                self.stand_at(Stage::BoundOn(bound, rel));
                true
            }
            _ => false,
        }
    }

    /// The column behind a value and its relation.
    pub fn take_bounded(
        &mut self,
        alloc: Global,
        bound: Option<Frac>,
        rel: Rel,
        name: &[u8],
    ) -> Result<(), Memory>
        ensures { OnOk result (taken_of self.new ≡ bound_from_value bound rel (column_of_name (with_one_name name.now (taken_of self.old)) name.now)) }
    {
        self.take_name(name);
        let id = self.column_of(alloc, name)?;
        self.stand_at(stage_after(rel, id));
        self.bound_column(id, turn(rel), bound);
        Ok(())
    }

    /// A token behind a value and its relation; whether it can come here.
    pub fn take_bound_on(
        &mut self,
        alloc: Global,
        bound: Option<Frac>,
        rel: Rel,
        token: Token<'_>,
    ) -> Result<bool, Memory>
        ensures { IfOk result (λ fits. Leaves (taken_of self.new) fits (bound_on_token (taken_of self.old) bound rel (piece token.entry))) }
    {
        match token {
            Token::Name(name) => {
                if is_infinite_word(name) || is_free_word(name) {
                    return Ok(false);
                }
                self.take_bounded(alloc, bound, rel, name)?;
                Ok(true)
            }
            _ => Ok(false),
        }
    }

    /// A token behind a bound that may go on; whether it can come here.
    pub fn take_bound_more(
        &mut self,
        alloc: Global,
        id: usize,
        token: Token<'_>,
    ) -> Result<bool, Memory>
        ensures { IfOk result (λ fits. Leaves (taken_of self.new) fits (bound_more_token (taken_of self.old) id (piece token.entry))) }
    {
        match token {
            Token::Compare(Rel::AtMost) => {
                self.stand_at(Stage::BoundTo(id, Rel::AtMost, None));
                Ok(true)
            }
            _ => self.take_bound(alloc, token),
        }
    }

    /// The name of an integer or a binary column.
    fn take_integer(&mut self, alloc: Global, is_binary: bool, name: &[u8]) -> Result<(), Memory>
        requires { (taken_of self.old).count ≤ 2 ^ 40 }
        ensures { OnOk result (taken_of self.new ≡ with_integer is_binary (column_of_name (with_one_name name.now (taken_of self.old)) name.now)) }
    {
        self.take_name(name);
        let id = self.column_of(alloc, name)?;
        self.count += self.added_rows(id);
        self.make_integer(id, is_binary);
        self.take_count();
        Ok(())
    }

    /// A token among names of integer or binary columns; whether it can come here.
    pub fn take_integer_token(
        &mut self,
        alloc: Global,
        is_binary: bool,
        token: Token<'_>,
    ) -> Result<bool, Memory>
        requires { (taken_of self.old).count ≤ 2 ^ 40 }
        ensures { IfOk result (λ fits. Leaves (taken_of self.new) fits (name_token (taken_of self.old) is_binary (piece token.entry))) }
    {
        match token {
            Token::Name(name) => {
                self.take_integer(alloc, is_binary, name)?;
                Ok(true)
            }
            _ => Ok(false),
        }
    }
}
