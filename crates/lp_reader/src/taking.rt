//! What the items of a text so far gave.

ghost use Rattle.std.specs.Prelude.{◌≡◌, ℕ, None, length, IfOk};
ghost use Rattle.lp_grammar.specs.Taking.{
  nothing_taken,
  note_if as noted_if,
  deciding,
  at_stage,
  place_from,
  with_new_column,
  column_of as column_of_name,
  counted,
  with_name as with_one_name,
  with_constant as with_one_constant,
};
ghost use Rattle.lp_grammar.specs.Reading.{with_number as with_one_number, colon_token};
ghost use Rattle.lp_tokens.specs.Views.{piece};
ghost use Rattle.lp_reader.specs.Taken.{taken_of, Leaves, IsFound};

use fractions::Frac;
use lp_grammar::{Column, LpCause, Pending, Stage};
use lp_parts::columns::new_column;
use lp_parts::{Objective, TermMap};
use lp_rows::{Row, Sense};
use lp_tokens::{Names, Token};
use outcomes::Memory;
use std::alloc::Global;

/// What the items so far gave.
#[derive(Drop)]
pub struct Taking {
    pub stage: Stage,
    pub sense: Sense,
    pub goal: TermMap,
    pub constant: Option<Frac>,
    pub names: Names,
    pub columns: Vec<Column>,
    pub terms: TermMap,
    pub objective: Objective,
    pub rows: Vec<Row>,
    pub count: u64,
    pub noted: Option<LpCause>,
}

/// Of a cause and one that may be noted, the one that decides.
fn decide(cause: LpCause, noted: Option<LpCause>) -> LpCause
    ensures { result ≡ deciding cause noted }
{
    match (cause, noted) {
        (cause, None) => cause,
        (LpCause::Section, _) => LpCause::Section,
        (LpCause::Number, Some(LpCause::Section)) => LpCause::Section,
        (LpCause::Number, Some(_)) => LpCause::Number,
        (_, Some(noted)) => noted,
    }
}

impl Taking {
    /// Nothing is taken before the first line.
    pub fn new(alloc: Global) -> Taking
        ensures { taken_of result ≡ nothing_taken }
    {
        Taking {
            stage: Stage::Before,
            sense: Sense::Min,
            goal: TermMap::new(alloc),
            constant: None,
            names: Names::new(alloc),
            columns: Vec::new(alloc),
            terms: TermMap::new(alloc),
            objective: Objective::new(alloc),
            rows: Vec::new(alloc),
            count: 0,
            noted: None,
        }
    }

    /// Notes the cause where the test is true.
    pub fn note_if(&mut self, test: bool, cause: LpCause)
        ensures { taken_of self.new ≡ noted_if test cause (taken_of self.old) }
    {
        if test {
            self.noted = Some(decide(cause, self.noted));
        }
    }

    /// The text stands here now.
    pub fn stand_at(&mut self, stage: Stage)
        ensures { taken_of self.new ≡ at_stage stage (taken_of self.old) }
    {
        self.stage = stage;
    }

    /// A number that is out of range is noted.
    pub fn take_number(&mut self, value: &Option<Frac>)
        ensures { taken_of self.new ≡ with_one_number value.now (taken_of self.old) }
    {
        self.note_if(value.is_none(), LpCause::Number);
    }

    /// The number before the next item of an objective is its constant, if one stands and it can be; whether it can be.
    pub fn take_constant(&mut self, pending: Pending) -> bool
        ensures { Leaves (taken_of self.new) result (with_one_constant (taken_of self.old) pending pending.size) }
    {
        match pending.size {
            None => !pending.is_open,
            Some(size) => {
                if self.constant.is_some() {
                    return false;
                }
                self.constant = Some(size);
                true
            }
        }
    }

    /// The colon of a label, behind which the text stands at a stage; whether it can come here.
    pub fn take_colon(&mut self, stage: Stage, token: Token<'_>) -> bool
        ensures { Leaves (taken_of self.new) result (colon_token (taken_of self.old) stage (piece token.entry)) }
    {
        match token {
            Token::Colon => {
                self.stand_at(stage);
                true
            }
            _ => false,
        }
    }

    /// A name that is too long is noted.
    pub fn take_name(&mut self, name: &[u8])
        ensures { taken_of self.new ≡ with_one_name name.now (taken_of self.old) }
    {
        self.note_if(name.len() > 255, LpCause::Limit);
    }

    /// Appends a column with a new name.
    fn push_column(&mut self, alloc: Global, name: &[u8]) -> Result<usize, Memory>
        requires { place_from 0 name.now (taken_of self.old).names ≡ None }
        ensures { IfOk result (λ id. (id ≡ length (taken_of self.old).names) × (taken_of self.new ≡ with_new_column name.now (taken_of self.old))) }
    {
        let id = self.names.len();
        self.names.push(alloc, name)?;
        let Ok(()) = self.columns.push(new_column()) else {
            return Err(Memory);
        };
        self.note_if(id >= 4000, LpCause::Limit);
        Ok(id)
    }

    /// The number of the column with this name, which is a new one where there is none.
    pub fn column_of(&mut self, alloc: Global, name: &[u8]) -> Result<usize, Memory>
        ensures { IfOk result (λ id. IsFound id (taken_of self.new) (column_of_name (taken_of self.old) name.now)) }
    {
        match self.names.find(name) {
            Some(id) => Ok(id),
            None => self.push_column(alloc, name),
        }
    }

    /// The rows are counted.
    pub fn take_count(&mut self)
        ensures { taken_of self.new ≡ counted (taken_of self.old) }
    {
        self.note_if(self.count > 3000, LpCause::Limit);
    }
}
