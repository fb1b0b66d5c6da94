//! The program that an LP text spells.

ghost use Rattle.std.specs.Prelude.{◌≡◌, ◌<◌, ◌≤◌, ◌^◌, pos, true, Some, None, length, not, ◌||◌, IfOk, if◌then◌else◌};
ghost use Rattle.lp_rows.specs.Rows.{is_storable};
ghost use Rattle.lp_grammar.specs.Reading.{may_end as may_end_at, is_within, is_empty, milp_of, lp_of};
ghost use Rattle.lp_reader.specs.Kept.{most_items, IsKept};
ghost use Rattle.lp_reader.specs.Taken.{taken_of};

use crate::taking::Taking;
use lp_grammar::Stage;
use lp_parts::Objective;
use lp_parts::building::{push_bounds, push_cols, push_rows, set_goal};
use lp_tokens::Names;
use milps::{Milp, MilpBuilder};
use outcomes::Memory;
use std::alloc::Global;
use std::marker::Model;

/// A program with the names of its columns, and the objective's constant and scale.
#[derive(Drop)]
pub struct LpFile {
    milp: Milp,
    names: Names,
    objective: Objective,
}

impl Model for LpFile {
    ghost use Rattle.lp_grammar.specs.Reading.{LpValue};
    ghost use Rattle.std.specs.Prelude.{◌≡◌, length};

    ghost Value = { LpValue };

    ghost view = { λ f. record {
      milp = f.milp;
      names = f.names;
      constant = f.objective.constant;
      scale = f.objective.scale;
    } };

    ghost invariant = { λ f. length f.names ≡ length f.milp.cols };
}

impl LpFile {
    /// The program.
    pub fn milp(&self) -> &Milp
        ensures { result.now ≡ self.now.milp }
    {
        &self.milp
    }

    /// The names of its columns, one for each.
    pub fn names(&self) -> &Names
        ensures names { result.now ≡ self.now.names }
        ensures counted { length self.now.names ≡ length self.now.milp.cols }
    {
        &self.names
    }

    /// The constant of the objective, times its scale.
    pub fn constant(&self) -> i128
        ensures value { result ≡ self.now.constant }
        ensures small { is_storable self.now.constant ≡ true }
    {
        self.objective.constant()
    }

    /// What the objective was multiplied by: 1 to 10^15.
    pub fn scale(&self) -> i128
        ensures value { result ≡ pos self.now.scale }
        ensures some { 0 < self.now.scale }
        ensures small { self.now.scale ≤ 10 ^ 15 }
    {
        self.objective.scale() as i128
    }
}

/// Whether a text may end where it stands.
fn may_end(stage: &Stage) -> bool
    ensures { result ≡ may_end_at stage.now }
{
    match *stage {
        Stage::Rows(is_fresh, _) => is_fresh,
        Stage::Bounds => true,
        Stage::BoundMore(_) => true,
        Stage::Names(_) => true,
        Stage::Ended => true,
        _ => false,
    }
}

impl Taking {
    /// Whether something is missing at the end of a text.
    pub fn is_unfinished(&self) -> bool
        ensures { result ≡ (not (may_end_at (taken_of self.now).stage) || is_empty (taken_of self.now).names) }
    {
        !may_end(&self.stage) || self.names.is_empty()
    }

    /// Builds the program that was taken, or none where it passes a limit.
    fn build(&self, alloc: Global) -> Result<Option<Milp>, Memory>
        requires { IsKept most_items (taken_of self.now) }
        ensures { IfOk result (λ milp. milp ≡ (if is_within (milp_of (taken_of self.now)) then Some (milp_of (taken_of self.now)) else None)) }
    {
        let mut milp = MilpBuilder::new(alloc);
        if !push_cols(&mut milp, alloc, self.columns.as_slice())? {
            return Ok(None);
        }
        set_goal(&mut milp, alloc, self.sense, self.objective.terms())?;
        if !push_rows(&mut milp, alloc, self.rows.as_slice())? {
            return Ok(None);
        }
        if !push_bounds(&mut milp, alloc, self.columns.as_slice())? {
            return Ok(None);
        }
        Ok(Some(milp.finish()))
    }

    /// The program that was taken, or none where it passes a limit.
    pub fn into_program(self, alloc: Global) -> Result<Option<LpFile>, Memory>
        requires { IsKept most_items (taken_of self) }
        ensures { IfOk result (λ program. program ≡ (if is_within (milp_of (taken_of self)) then Some (lp_of (taken_of self)) else None)) }
    {
        let Some(milp) = self.build(alloc)? else {
            return Ok(None);
        };
        let Taking {
            names,
            objective,
            ..
        } = self;
        Ok(Some(LpFile {
            milp,
            names,
            objective,
        }))
    }
}
