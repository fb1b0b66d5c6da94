//! Tokens of an objective.

ghost use Rattle.std.specs.Prelude.{◌≡◌, IfOk, IfSome, true};
ghost use Rattle.lp_rows.specs.Rows.{is_storable};
ghost use Rattle.lp_grammar.specs.Reading.{goal_sign as goal_sign_of, goal_size as goal_size_of, goal_token};
ghost use Rattle.lp_tokens.specs.Views.{piece};
ghost use Rattle.lp_reader.specs.Taken.{taken_of, Leaves};

use crate::sum::Sum;
use crate::taking::Taking;
use fractions::Frac;
use lp_grammar::{Pending, Stage};
use lp_parts::pending::{no_pending, push_sign, sized};
use lp_tokens::Token;
use lp_tokens::value::value;
use outcomes::Memory;
use std::alloc::Global;

impl Taking {
    /// A sign in an objective; whether it can come here.
    fn take_goal_sign(&mut self, pending: Pending, is_negative: bool) -> bool
        ensures { Leaves (taken_of self.new) result (goal_sign_of (taken_of self.old) pending pending.size is_negative) }
    {
        match pending.size {
            None => {
                self.stand_at(Stage::Goal(false, push_sign(is_negative, pending)));
                true
            }
            Some(_) => {
                if !self.take_constant(pending) {
                    return false;
                }
                self.stand_at(Stage::Goal(false, push_sign(is_negative, no_pending())));
                true
            }
        }
    }

    /// A number in an objective; whether it can come here.
    fn take_goal_size(&mut self, pending: Pending, value: Option<Frac>) -> bool
        requires { IfSome value (λ f. is_storable f.num ≡ true) }
        ensures { Leaves (taken_of self.new) result (goal_size_of (taken_of self.old) pending pending.size value) }
    {
        match pending.size {
            None => {
                self.stand_at(Stage::Goal(false, sized(pending, value)));
                self.take_number(&value);
                true
            }
            Some(_) => {
                if !self.take_constant(pending) {
                    return false;
                }
                self.stand_at(Stage::Goal(false, sized(no_pending(), value)));
                self.take_number(&value);
                true
            }
        }
    }

    /// A token of an objective; whether it can come here.
    pub fn take_goal(
        &mut self,
        alloc: Global,
        is_fresh: bool,
        pending: Pending,
        token: Token<'_>,
        is_labelled: bool,
    ) -> Result<bool, Memory>
        ensures { IfOk result (λ fits. Leaves (taken_of self.new) fits (goal_token (taken_of self.old) is_fresh pending (piece token.entry) is_labelled)) }
    {
        match token {
            Token::Name(name) => {
                self.take_sum_name(alloc, Sum::Goal, is_fresh, pending, name, is_labelled)
            }
            Token::Sign(is_negative) => Ok(self.take_goal_sign(pending, is_negative)),
            Token::Number(number) => Ok(self.take_goal_size(pending, value(&number))),
            _ => Ok(false),
        }
    }
}
