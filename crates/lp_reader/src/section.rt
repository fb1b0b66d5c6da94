//! Sections, and tokens by where a text stands.

ghost use Rattle.std.specs.Prelude.{◌≡◌, ◌^◌, [], None, true, IfOk, OnOk};
ghost use Rattle.lp_grammar.specs.Taking.{nothing_pending, or_zero, objective_of, with_objective};
ghost use Rattle.lp_grammar.specs.declared.stage.Stage.TheVariants.{Goal};
ghost use Rattle.lp_grammar.specs.Reading.{closed, opened, is_due as is_due_at, is_objective as is_objective_of, is_constraints as is_constraints_of, is_later as is_later_of, with_section, with_token};
ghost use Rattle.lp_tokens.specs.Views.{piece};
ghost use Rattle.lp_rows.specs.Holding.{ids_below};
ghost use Rattle.lp_reader.specs.Kept.{most_items, IsReady};
ghost use Rattle.lp_reader.specs.Taken.{taken_of, Leaves};

use crate::taking::Taking;
use fractions::Frac;
use lp_grammar::{LpCause, Section, Stage};
use lp_parts::pending::no_pending;
use lp_parts::scaling::make_objective;
use lp_rows::Sense;
use lp_tokens::Token;
use lp_tokens::value::whole_number;
use outcomes::Memory;
use std::alloc::Global;

/// Whether the section is an objective.
fn is_objective(section: Section) -> bool
    ensures { result ≡ is_objective_of section }
{
    match section {
        Section::Minimize => true,
        Section::Maximize => true,
        _ => false,
    }
}

/// Whether the section is that of the constraints.
fn is_constraints(section: Section) -> bool
    ensures { result ≡ is_constraints_of section }
{
    match section {
        Section::Constraints => true,
        _ => false,
    }
}

/// Whether the section may come behind the constraints.
fn is_later(section: Section) -> bool
    ensures { result ≡ is_later_of section }
{
    !(is_objective(section) || is_constraints(section))
}

/// Whether the section may come where the text stands.
fn is_due(stage: &Stage, section: Section) -> bool
    ensures { result ≡ is_due_at stage.now section }
{
    match *stage {
        Stage::Before => is_objective(section),
        Stage::Goal(_, _) => is_constraints(section),
        _ => is_later(section),
    }
}

/// The constant, 0 where none stands.
fn constant_or_zero(constant: Option<Frac>) -> Frac
    ensures { result ≡ or_zero constant }
{
    match constant {
        None => whole_number(0),
        Some(constant) => constant,
    }
}

impl Taking {
    /// The open section ends, if it may end here.
    fn close(&mut self) -> bool
        ensures { Leaves (taken_of self.new) result (closed (taken_of self.old) (taken_of self.old).stage) }
    {
        match self.stage {
            Stage::Before => true,
            Stage::Goal(_, pending) => self.take_constant(pending),
            Stage::Rows(is_fresh, _) => is_fresh,
            Stage::Bounds => true,
            Stage::BoundMore(_) => true,
            Stage::Names(_) => true,
            _ => false,
        }
    }

    /// An objective begins.
    fn open_objective(&mut self, sense: Sense)
        ensures { taken_of self.new ≡ record (taken_of self.old) { stage = Goal true nothing_pending; sense = sense; goal = []; constant = None } }
    {
        self.goal.clear();
        self.constant = None;
        self.sense = sense;
        self.stand_at(Stage::Goal(true, no_pending()));
    }

    /// The objective is stored in whole numbers, or noted where it can't be.
    fn store_objective(&mut self, alloc: Global) -> Result<(), Memory>
        requires { ids_below (2 ^ 32) (taken_of self.old).goal ≡ true }
        ensures { OnOk result (taken_of self.new ≡ with_objective (objective_of (taken_of self.old).goal (or_zero (taken_of self.old).constant)) (taken_of self.old)) }
    {
        let terms = self.goal.to_vec(alloc)?;
        match make_objective(alloc, terms.as_slice(), constant_or_zero(self.constant))? {
            None => self.note_if(true, LpCause::Number),
            Some(objective) => self.objective = objective,
        }
        Ok(())
    }

    /// A section is opened.
    fn open(&mut self, alloc: Global, section: Section) -> Result<(), Memory>
        requires { ids_below (2 ^ 32) (taken_of self.old).goal ≡ true }
        ensures { OnOk result (taken_of self.new ≡ opened section (taken_of self.old)) }
    {
        match section {
            Section::Minimize => self.open_objective(Sense::Min),
            Section::Maximize => self.open_objective(Sense::Max),
            Section::Constraints => {
                self.stand_at(Stage::Rows(true, no_pending()));
                return self.store_objective(alloc);
            }
            Section::Bounds => self.stand_at(Stage::Bounds),
            Section::General => self.stand_at(Stage::Names(false)),
            Section::Binary => self.stand_at(Stage::Names(true)),
            Section::End => self.stand_at(Stage::Ended),
        }
        Ok(())
    }

    /// The word of a section; whether it can come here.
    pub fn take_section(&mut self, alloc: Global, section: Section) -> Result<bool, Memory>
        requires { IsReady most_items 1 (taken_of self.old) }
        ensures { IfOk result (λ fits. Leaves (taken_of self.new) fits (with_section (taken_of self.old) section)) }
    {
        let is_due = is_due(&self.stage, section);
        if !self.close() {
            return Ok(false);
        }
        self.open(alloc, section)?;
        self.note_if(!is_due, LpCause::Section);
        Ok(true)
    }

    /// A token, by where the text stands; whether it can come there.
    pub fn take_token(
        &mut self,
        alloc: Global,
        token: Token<'_>,
        is_labelled: bool,
    ) -> Result<bool, Memory>
        requires { IsReady most_items 1 (taken_of self.old) }
        ensures { IfOk result (λ fits. Leaves (taken_of self.new) fits (with_token (taken_of self.old) (taken_of self.old).stage (piece token.entry) is_labelled)) }
    {
        match self.stage {
            Stage::Before => Ok(false),
            Stage::Goal(is_fresh, pending) => {
                self.take_goal(alloc, is_fresh, pending, token, is_labelled)
            }
            Stage::GoalLabel => Ok(self.take_colon(Stage::Goal(false, no_pending()), token)),
            Stage::Rows(is_fresh, pending) => {
                self.take_row_token(alloc, is_fresh, pending, token, is_labelled)
            }
            Stage::RowLabel => Ok(self.take_colon(Stage::Rows(false, no_pending()), token)),
            Stage::Right(rel, sign) => self.take_right(alloc, rel, sign, token),
            Stage::Bounds => self.take_bound(alloc, token),
            Stage::BoundOf(id) => Ok(self.take_bound_of(id, token)),
            Stage::BoundTo(id, rel, sign) => Ok(self.take_bound_to(id, rel, sign, token)),
            Stage::BoundSign(is_negative) => Ok(self.take_bound_sign(is_negative, token)),
            Stage::BoundFrom(bound) => Ok(self.take_bound_from(bound, token)),
            Stage::BoundOn(bound, rel) => self.take_bound_on(alloc, bound, rel, token),
            Stage::BoundMore(id) => self.take_bound_more(alloc, id, token),
            Stage::Names(is_binary) => self.take_integer_token(alloc, is_binary, token),
            Stage::Ended => Ok(false),
        }
    }
}
