//! The emitter: a program that is being built, and a sum that stands open in it. Once it has halted it stays as it is.

ghost use Rattle.std.specs.Prelude.{◌≡◌, ◌+◌, ◌<◌, ◌≤◌, ◌^◌, [], ◌∷◌, true, length, nat_le, neg_ℤ, unsigned_abs, is_some, None, Some};
ghost use Rattle.outcomes.specs.Calls.{OrMemory};
ghost use Rattle.emission.specs.Items.{Meaning, Refusal, col as item, refused, stand};
ghost use Rattle.emission.specs.Literals.{literal_times};
ghost use Rattle.emission.specs.Run.{Runs, Adds, is_fit, halted_by, finished, refused_by};
ghost use Rattle.emission.specs.Sums.{column, number, nothing};
ghost use Rattle.milps.specs.Building.{are_summable as summable};
ghost use Rattle.emission.specs.View.{state_of, status_of, open_sum};

use crate::halts::Halt;
use crate::literals::Literal;
use lp_rows::{Col, Rel, Sense, are_ids_below};
use milps::{Milp, MilpBuilder, MilpError};
use std::alloc::Global;

/// A program that is being built, with the sum of the row that comes next.
#[derive(Drop)]
pub struct Emitter {
    pub(crate) alloc: Global,
    pub(crate) milp: MilpBuilder,
    pub(crate) terms: Vec<(u32, i128)>,
    pub(crate) number: i128,
    pub(crate) halt: Option<Halt>,
}

impl Emitter {
    /// An emitter over the program.
    pub fn over(alloc: Global, milp: MilpBuilder) -> Emitter
        ensures state { state_of result ≡ record { milp = milp; halt = None } }
        ensures empty { open_sum result ≡ nothing }
    {
        Emitter {
            alloc,
            milp,
            terms: Vec::new(alloc),
            number: 0,
            halt: None,
        }
    }

    /// The allocator.
    pub fn alloc(&self) -> Global {
        self.alloc
    }

    /// The program so far.
    pub fn milp(&self) -> &MilpBuilder
        ensures { result.now ≡ (state_of self.now).milp }
    {
        &self.milp
    }

    /// Why it has halted, if it has.
    pub fn halt(&self) -> Option<Halt>
        ensures { result ≡ self.now.halt }
    {
        self.halt
    }

    /// Whether it has halted.
    pub fn is_halted(&self) -> bool
        ensures { result ≡ is_some self.now.halt }
    {
        self.halt.is_some()
    }

    /// How many columns the program has.
    pub fn col_count(&self) -> u32
        ensures value { result ≡ length (state_of self.now).milp.cols }
        ensures few { result ≤ 4000 }
    {
        self.milp.col_count() as u32
    }

    /// Halts for this reason, unless it has halted before.
    pub fn refuse(&mut self, halt: Halt)
        ensures runs { (r : Refusal) → halt ≡ refused_by r → Runs (refused r ∷ []) (state_of self.old) (state_of self.new) }
        ensures halts { is_some self.new.halt ≡ true }
        ensures open { open_sum self.new ≡ open_sum self.old }
    {
        if self.halt.is_none() {
            self.halt = Some(halt);
        }
    }

    /// Halts for this reason.
    pub fn stop(&mut self, halt: Halt)
        ensures state { state_of self.new ≡ record { milp = (state_of self.old).milp; halt = Some halt } }
        ensures open { open_sum self.new ≡ open_sum self.old }
    {
        self.halt = Some(halt);
    }

    /// Adds a column, and answers its number.
    pub fn push_col(&mut self, col: Col) -> u32
        ensures id { self.new.halt ≡ None → result ≡ length (state_of self.old).milp.cols }
        ensures runs { (m : Meaning) → Runs (item (length (state_of self.old).milp.cols) col m ∷ []) (state_of self.old) (state_of self.new) }
        ensures open { open_sum self.new ≡ open_sum self.old }
    {
        if self.halt.is_some() {
            return 0;
        }
        match self.milp.push_col(self.alloc, col) {
            Ok(id) => id,
            Err(error) => {
                self.halt = Some(halt_of(error));
                0
            }
        }
    }

    /// Adds a column to the open sum, c times.
    #[tactic(auto, unfolding(crate::specs::Sums::plus, crate::specs::Sums::column))]
    pub fn add(&mut self, c: i128, id: u32)
        ensures adds { Adds (column c id) (status_of self.old) (status_of self.new) }
        ensures same { self.new.number ≡ self.old.number }
    {
        if self.terms.push((id, c)).is_err() {
            self.halt = Some(Halt::Memory);
        }
    }

    /// Adds a number to the open sum.
    #[tactic(auto, unfolding(crate::specs::Sums::plus, crate::specs::Sums::number))]
    pub fn add_number(&mut self, c: i128)
        requires small { unsigned_abs self.old.number < 2 ^ 100 }
        requires added { unsigned_abs c < 2 ^ 100 }
        ensures adds { Adds (number c) (status_of self.old) (status_of self.new) }
        ensures small { unsigned_abs self.new.number ≤ unsigned_abs self.old.number + unsigned_abs c }
    {
        self.number += c;
    }

    /// Adds a literal to the open sum, or takes it away.
    pub fn add_literal(&mut self, c: i128, l: Literal)
        requires small { unsigned_abs self.old.number < 2 ^ 100 }
        requires unit { unsigned_abs c ≤ 1 }
        ensures adds { Adds (literal_times c l) (status_of self.old) (status_of self.new) }
        ensures small { unsigned_abs self.new.number ≤ unsigned_abs self.old.number + 1 }
    {
        if l.negated {
            self.add(-c, l.column);
            self.add_number(c);
        } else {
            self.add(c, l.column);
        }
    }

    /// Adds the row that sets the open sum in a relation to 0. No sum stands open then.
    pub fn stand(&mut self, rel: Rel)
        requires { unsigned_abs self.old.number < 2 ^ 101 }
        ensures runs { Runs (stand rel (open_sum self.old) ∷ []) (state_of self.old) (state_of self.new) }
        ensures empty { open_sum self.new ≡ nothing }
    {
        let terms = std::mem::replace(&mut self.terms, Vec::new(self.alloc));
        let right = -self.number;
        self.number = 0;
        if self.halt.is_some() {
            return;
        }
        if !is_taken(&terms, self.milp.col_count()) {
            self.halt = Some(Halt::Unfit);
            return;
        }
        if let Err(error) = self.milp.push_row(self.alloc, &terms, rel, right) {
            self.halt = Some(halt_of(error));
        }
    }

    /// Adds the row that sets the sum of these terms and a number in a relation to 0.
    pub fn push(&mut self, rel: Rel, terms: &[(u32, i128)], number: i128)
        requires { unsigned_abs number < 2 ^ 120 }
        ensures runs { Runs (stand rel (record { terms = terms.now; number = number }) ∷ []) (state_of self.old) (state_of self.new) }
        ensures open { open_sum self.new ≡ open_sum self.old }
    {
        if self.halt.is_some() {
            return;
        }
        if !is_taken(terms, self.milp.col_count()) {
            self.halt = Some(Halt::Unfit);
            return;
        }
        if let Err(error) = self.milp.push_row(self.alloc, terms, rel, opposite(number)) {
            self.halt = Some(halt_of(error));
        }
    }

    /// The program with this goal, or why the emission has halted.
    pub fn finish(self, sense: Sense, terms: &[(u32, i128)]) -> Result<Milp, Halt>
        ensures { OrMemory Halt.Memory result (finished sense terms.now (state_of self)) }
    {
        if let Some(halt) = self.halt {
            return Err(halt);
        }
        if !is_taken(terms, self.milp.col_count()) {
            return Err(Halt::Unfit);
        }
        let mut milp = self.milp;
        match milp.set_goal(self.alloc, sense, terms) {
            Ok(()) => Ok(milp.finish()),
            Err(error) => Err(halt_of(error)),
        }
    }
}

// The number with the other sign.
fn opposite(number: i128) -> i128
    requires { unsigned_abs number < 2 ^ 120 }
    ensures { result ≡ neg_ℤ number }
{
    -number
}

// Whether the builder takes a row of these terms.
fn is_taken(terms: &[(u32, i128)], count: usize) -> bool
    ensures { result ≡ is_fit count terms.now }
{
    terms.len() <= 4_000 && are_ids_below(terms, count) && are_summable(terms)
}

// Whether no coefficient passes 10^34.
fn are_summable(terms: &[(u32, i128)]) -> bool
    ensures { result ≡ summable terms.now }
{
    terms.iter().all(|term| is_summable(term.1))
}

// Whether the coefficient is at most 10^34 in magnitude.
fn is_summable(c: i128) -> bool
    ensures { result ≡ nat_le (unsigned_abs c) (10 ^ 34) }
{
    c.unsigned_abs() <= 10_000_000_000_000_000_000_000_000_000_000_000
}

// The halt that is the builder's refusal.
fn halt_of(error: MilpError) -> Halt
    ensures { result ≡ halted_by error }
{
    match error {
        MilpError::TooBig => Halt::TooBig,
        MilpError::Coefficient => Halt::Unfit,
        MilpError::Memory => Halt::Memory,
    }
}
