//! Tokens of a row.

ghost use Rattle.std.specs.Prelude.{◌≡◌, ◌≤◌, ◌^◌, None, Some, IfOk, OnOk, IfSome, true, false};
ghost use Rattle.lp_rows.specs.Rows.{is_storable};
ghost use Rattle.lp_grammar.specs.Taking.{with_row as with_one_row, row_of, or_one, turned_if};
ghost use Rattle.lp_grammar.specs.Reading.{row_token, right_token, with_number as with_one_number, is_minus as is_minus_of};
ghost use Rattle.milps.specs.Building.{height_of};
ghost use Rattle.lp_grammar.specs.Tokens.{Sign, Compare};
ghost use Rattle.lp_tokens.specs.Views.{piece};
ghost use Rattle.lp_parts.specs.Stored.{AreOrdered};
ghost use Rattle.lp_reader.specs.Taken.{taken_of, row_size, Leaves};

use crate::sum::Sum;
use crate::taking::Taking;
use fractions::Frac;
use lp_grammar::{LpCause, Pending, Stage};
use lp_parts::pending::{no_pending, push_sign, sized};
use lp_parts::scaling::make_row;
use lp_rows::{Rel, Row};
use lp_tokens::Token;
use lp_tokens::value::{signed_or_one, value};
use outcomes::Memory;
use std::alloc::Global;

/// How many rows one counts.
fn rows_counted(rel: Rel) -> u64
    ensures count { result ≡ height_of rel }
    ensures few { result ≤ 2 }
{
    match rel {
        Rel::AtMost => 1,
        Rel::AtLeast => 1,
        Rel::Equal => 2,
    }
}

/// Whether the sign is a minus.
pub fn is_minus(sign: Option<bool>) -> bool
    ensures { result ≡ is_minus_of sign }
{
    match sign {
        None => false,
        Some(is_negative) => is_negative,
    }
}

impl Taking {
    /// A sign or a number in a row; whether it can come here.
    fn take_row_sign(&mut self, pending: Pending, is_negative: bool) -> bool
        ensures { Leaves (taken_of self.new) result (row_token (taken_of self.old) false pending (Sign is_negative) false) }
    {
        if pending.size.is_some() {
            return false;
        }
        self.stand_at(Stage::Rows(false, push_sign(is_negative, pending)));
        true
    }

    /// A relation in a row; whether it can come here.
    fn take_row_relation(&mut self, pending: Pending, rel: Rel) -> bool
        ensures { Leaves (taken_of self.new) result (row_token (taken_of self.old) false pending (Compare rel) false) }
    {
        if pending.is_open || self.terms.is_empty() {
            return false;
        }
        self.stand_at(Stage::Right(rel, None));
        true
    }

    /// A number in a row; whether it can come here.
    fn take_row_size(&mut self, pending: Pending, value: Option<Frac>) -> bool
        requires { IfSome value (λ f. is_storable f.num ≡ true) }
        ensures { Leaves (taken_of self.new) result (row_size (taken_of self.old) pending value) }
    {
        if pending.size.is_some() {
            return false;
        }
        self.stand_at(Stage::Rows(false, sized(pending, value)));
        self.take_number(&value);
        true
    }

    /// A token of a row before its relation; whether it can come here.
    pub fn take_row_token(
        &mut self,
        alloc: Global,
        is_fresh: bool,
        pending: Pending,
        token: Token<'_>,
        is_labelled: bool,
    ) -> Result<bool, Memory>
        ensures { IfOk result (λ fits. Leaves (taken_of self.new) fits (row_token (taken_of self.old) is_fresh pending (piece token.entry) is_labelled)) }
    {
        match token {
            Token::Name(name) => {
                self.take_sum_name(alloc, Sum::Row, is_fresh, pending, name, is_labelled)
            }
            Token::Sign(is_negative) => Ok(self.take_row_sign(pending, is_negative)),
            Token::Number(number) => Ok(self.take_row_size(pending, value(&number))),
            Token::Compare(rel) => Ok(self.take_row_relation(pending, rel)),
            _ => Ok(false),
        }
    }

    /// A row is appended.
    fn push_row(&mut self, row: Row) -> Result<(), Memory>
        requires { (taken_of self.old).count ≤ 2 ^ 40 }
        ensures { OnOk result (taken_of self.new ≡ with_one_row (Some row) (taken_of self.old)) }
    {
        let count = self.count + rows_counted(row.rel());
        let Ok(()) = self.rows.push(row) else {
            return Err(Memory);
        };
        self.count = count;
        self.terms.clear();
        self.stand_at(Stage::Rows(true, no_pending()));
        self.take_count();
        Ok(())
    }

    /// A row that can't be stored is noted.
    fn drop_row(&mut self)
        ensures { taken_of self.new ≡ with_one_row None (taken_of self.old) }
    {
        self.terms.clear();
        self.stand_at(Stage::Rows(true, no_pending()));
        self.note_if(true, LpCause::Number);
    }

    /// A row with its relation and its right side.
    fn take_row(&mut self, alloc: Global, rel: Rel, right: Frac) -> Result<(), Memory>
        requires ordered { AreOrdered (2 ^ 32) (taken_of self.old).terms }
        requires few { (taken_of self.old).count ≤ 2 ^ 40 }
        ensures { OnOk result (taken_of self.new ≡ with_one_row (row_of (taken_of self.old).terms rel right) (taken_of self.old)) }
    {
        let terms = self.terms.to_vec(alloc)?;
        match make_row(alloc, terms.as_slice(), rel, right)? {
            None => {
                self.drop_row();
                Ok(())
            }
            Some(row) => self.push_row(row),
        }
    }

    /// The right side of a row.
    fn take_right_size(
        &mut self,
        alloc: Global,
        rel: Rel,
        sign: Option<bool>,
        value: Option<Frac>,
    ) -> Result<(), Memory>
        requires value { IfSome value (λ f. is_storable f.num ≡ true) }
        requires ordered { AreOrdered (2 ^ 32) (taken_of self.old).terms }
        requires few { (taken_of self.old).count ≤ 2 ^ 40 }
        ensures { OnOk result (taken_of self.new ≡ with_one_row (row_of (taken_of self.old).terms rel (turned_if (is_minus_of sign) (or_one value))) (with_one_number value (taken_of self.old))) }
    {
        self.take_number(&value);
        self.take_row(alloc, rel, signed_or_one(is_minus(sign), value))
    }

    /// A token behind a row's relation; whether it can come here.
    pub fn take_right(
        &mut self,
        alloc: Global,
        rel: Rel,
        sign: Option<bool>,
        token: Token<'_>,
    ) -> Result<bool, Memory>
        requires ordered { AreOrdered (2 ^ 32) (taken_of self.old).terms }
        requires few { (taken_of self.old).count ≤ 2 ^ 40 }
        ensures { IfOk result (λ fits. Leaves (taken_of self.new) fits (right_token (taken_of self.old) rel sign (piece token.entry))) }
    {
        match (sign, token) {
            (None, Token::Sign(is_negative)) => {
                self.stand_at(Stage::Right(rel, Some(is_negative)));
                Ok(true)
            }
            (sign, Token::Number(number)) => {
                self.take_right_size(alloc, rel, sign, value(&number))?;
                Ok(true)
            }
            _ => Ok(false),
        }
    }
}
