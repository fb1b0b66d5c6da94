//! The parts of a builder, and its calls on them.

ghost use Rattle.std.specs.Prelude.{◌≡◌, None, IsSome, IsNone, OnOk};
ghost use Rattle.outcomes.specs.Calls.{Acts};
ghost use Rattle.model_builder.specs.Building.{new_building, var_outcome, row_outcome, refusal_of_finish as finish_refusal, built_model, closed_block, goal_of, is_at_root as at_root};
ghost use Rattle.model_builder.specs.Nesting.{boolean_outcome, goal_outcome, open_disjunction_outcome, open_disjunct_outcome, close_outcome, closed_disjunct, closed_disjunction};
ghost use Rattle.model_builder.specs.Builders.{
  building_of,
  open_block_of,
  open_disjunction_of,
  IsCounted,
};
ghost use Rattle.model_tree.specs.Values.{model_tree};
ghost use Rattle.model_builder.specs.Props.{prop_outcome};
ghost use Rattle.propositions.specs.View.{prop_tree};
ghost use Rattle.model_tree.specs.Scaling.{AreLowest};
ghost use Rattle.model_tree.specs.Bounds.{AreEndsLowest};
ghost use Rattle.model_builder.specs.Whole.{IsWhole};
ghost use Rattle.model_tree.specs.View.{block_of, disjunct_of, disjunction_of};

use crate::prop_limits::{has_fair_lists, has_small_numbers, is_shallow};
use fractions::Frac;
use lp_rows::{Kind, Rel, Row, Sense};
use model_tree::limits::{DEEPEST_DISJUNCT, MOST_BOOLEANS, MOST_NODES, MOST_ROWS, MOST_VARIABLES};
use model_tree::models::Goal;
use model_tree::scaling::{is_bound, stored_goal, stored_row};
use model_tree::{
    Block, Booleans, Bound, BuildError, Disjunct, Disjunction, Mode, Model, Variables, is_name,
};
use propositions::{Prop, copy, has_ids_below, node_count};
use std::alloc::Global;

/// A block that is open.
#[derive(Drop)]
pub(crate) struct Level {
    pub(crate) indicator: u32,
    pub(crate) mark: u32,
    pub(crate) rows: Vec<(Row, u32)>,
    pub(crate) props: Vec<(Prop, u32)>,
    pub(crate) disjunctions: Vec<Disjunction>,
}

/// A disjunction that is open.
#[derive(Drop)]
pub(crate) struct Opened {
    pub(crate) mode: Mode,
    pub(crate) mark: u32,
    pub(crate) disjuncts: Vec<Disjunct>,
}

/// How many rows all blocks have, and how many nodes all propositions.
#[derive(Clone, Copy)]
pub(crate) struct Totals {
    pub(crate) rows: u32,
    pub(crate) nodes: usize,
}

/// What a builder holds: the innermost open block, the disjunction that is open in it, and in `outer` the blocks
/// around it, each with the disjunction that is open in it, the innermost last.
#[derive(Drop)]
pub struct Parts {
    pub(crate) vars: Variables,
    pub(crate) booleans: Booleans,
    pub(crate) goal: Option<Goal>,
    pub(crate) inner: Level,
    pub(crate) opened: Option<Opened>,
    pub(crate) outer: Vec<(Level, Opened)>,
    pub(crate) totals: Totals,
}

impl Parts {
    /// Nothing declared, and an empty root.
    pub fn new(alloc: Global) -> Parts
        ensures value { building_of result ≡ new_building }
        ensures counted { IsCounted result.totals new_building }
    {
        Parts {
            vars: Variables::new(alloc),
            booleans: Booleans::new(alloc),
            goal: None,
            inner: Level {
                indicator: 0,
                mark: 0,
                rows: Vec::new(alloc),
                props: Vec::new(alloc),
                disjunctions: Vec::new(alloc),
            },
            opened: None,
            outer: Vec::new(alloc),
            totals: Totals { rows: 0, nodes: 0 },
        }
    }

    /// Declares a variable.
    pub fn var(
        &mut self,
        alloc: Global,
        name: &str,
        kind: Kind,
        bound: Bound,
        mark: u32,
    ) -> Result<u32, BuildError>
        ensures acts { Acts BuildError.Memory (building_of self.old) (var_outcome name.now kind bound mark (building_of self.old)) result
            (building_of self.new) }
        ensures ends { OnOk result (AreEndsLowest bound) }
        ensures counted { self.new.totals ≡ self.old.totals }
    {
        if self.opened.is_some() || !self.outer.is_empty() {
            return Err(BuildError::Place);
        }
        if self.vars.contains(name) || self.booleans.contains(name) {
            return Err(BuildError::NameTwice);
        }
        if !is_bound(&bound) {
            return Err(BuildError::Number);
        }
        let number = self.vars.len();
        if number >= MOST_VARIABLES || !is_name(name) {
            return Err(BuildError::Limit);
        }
        if self.vars.push(alloc, name, kind, bound, mark).is_err() {
            return Err(BuildError::Memory);
        }
        Ok(number as u32)
    }

    /// Adds a row to the innermost open block.
    pub fn row(
        &mut self,
        alloc: Global,
        terms: &[(u32, Frac)],
        rel: Rel,
        right: Frac,
        mark: u32,
    ) -> Result<(), BuildError>
        requires { IsCounted self.old.totals (building_of self.old) }
        ensures acts { Acts BuildError.Memory (building_of self.old) (row_outcome terms.now rel right mark (building_of self.old)) result
            (building_of self.new) }
        ensures counted { IsCounted self.new.totals (building_of self.new) }
    {
        if self.opened.is_some() {
            return Err(BuildError::Place);
        }
        let row = match stored_row(alloc, terms, rel, &right, self.vars.len()) {
            Ok(row) => row,
            Err(error) => return Err(error),
        };
        if self.totals.rows >= MOST_ROWS {
            return Err(BuildError::Limit);
        }
        if self.inner.rows.reserve(1).is_err() {
            return Err(BuildError::Memory);
        }
        self.inner.rows.push_reserved((row, mark));
        self.totals.rows += 1;
        Ok(())
    }

    /// Adds a proposition to the innermost open block.
    pub fn prop(&mut self, alloc: Global, prop: &Prop, mark: u32) -> Result<(), BuildError>
        requires { IsCounted self.old.totals (building_of self.old) }
        ensures acts { Acts BuildError.Memory (building_of self.old) (prop_outcome (prop_tree prop.now) mark (building_of self.old)) result
            (building_of self.new) }
        ensures counted { IsCounted self.new.totals (building_of self.new) }
    {
        if self.opened.is_some() {
            return Err(BuildError::Place);
        }
        if !has_ids_below(prop, self.booleans.len()) {
            return Err(BuildError::NameUnknown);
        }
        if !has_small_numbers(prop) {
            return Err(BuildError::Number);
        }
        if !is_shallow(prop) {
            return Err(BuildError::Nesting);
        }
        let nodes = self.totals.nodes.saturating_add(node_count(prop));
        if !has_fair_lists(prop) || nodes > MOST_NODES {
            return Err(BuildError::Limit);
        }
        let Ok(copied) = copy(alloc, prop) else {
            return Err(BuildError::Memory);
        };
        if self.inner.props.reserve(1).is_err() {
            return Err(BuildError::Memory);
        }
        self.inner.props.push_reserved((copied, mark));
        self.totals.nodes = nodes;
        Ok(())
    }

    /// Declares a Boolean.
    pub fn boolean(&mut self, alloc: Global, name: &str, mark: u32) -> Result<u32, BuildError>
        ensures acts { Acts BuildError.Memory (building_of self.old) (boolean_outcome name.now mark (building_of self.old)) result
            (building_of self.new) }
        ensures counted { self.new.totals ≡ self.old.totals }
    {
        if self.opened.is_some() || !self.outer.is_empty() || !self.inner.disjunctions.is_empty() {
            return Err(BuildError::Place);
        }
        if self.vars.contains(name) || self.booleans.contains(name) {
            return Err(BuildError::NameTwice);
        }
        let number = self.booleans.len();
        if number >= MOST_BOOLEANS || !is_name(name) {
            return Err(BuildError::Limit);
        }
        if self.booleans.push(alloc, name, mark).is_err() {
            return Err(BuildError::Memory);
        }
        Ok(number as u32)
    }

    /// Sets the goal.
    pub fn goal(
        &mut self,
        alloc: Global,
        sense: Sense,
        terms: &[(u32, Frac)],
        constant: Frac,
        mark: u32,
    ) -> Result<(), BuildError>
        ensures acts { Acts BuildError.Memory (building_of self.old) (goal_outcome sense terms.now constant mark (building_of self.old)) result
            (building_of self.new) }
        ensures lowest { OnOk result (AreLowest terms.now constant) }
        ensures counted { self.new.totals ≡ self.old.totals }
    {
        if !self.is_at_root() || self.goal.is_some() {
            return Err(BuildError::Place);
        }
        let goal = match stored_goal(alloc, sense, terms, &constant, self.vars.len(), mark) {
            Ok(goal) => goal,
            Err(error) => return Err(error),
        };
        self.goal = Some(goal);
        Ok(())
    }

    // Whether the root is the innermost that is open.
    fn is_at_root(&self) -> bool
        ensures { result ≡ at_root (building_of self.now) }
    {
        self.opened.is_none() && self.outer.is_empty()
    }

    /// Opens a disjunction in the innermost open block.
    pub fn open_disjunction(
        &mut self,
        alloc: Global,
        mode: Mode,
        mark: u32,
    ) -> Result<(), BuildError>
        ensures acts { Acts BuildError.Memory (building_of self.old) (open_disjunction_outcome mode mark (building_of self.old)) result
            (building_of self.new) }
        ensures counted { self.new.totals ≡ self.old.totals }
    {
        if self.opened.is_some() {
            return Err(BuildError::Place);
        }
        self.opened = Some(Opened {
            mode,
            mark,
            disjuncts: Vec::new(alloc),
        });
        Ok(())
    }

    /// Opens a disjunct in the disjunction that is open.
    pub fn open_disjunct(&mut self, alloc: Global, name: &str, mark: u32) -> Result<u32, BuildError>
        ensures acts { Acts BuildError.Memory (building_of self.old) (open_disjunct_outcome name.now mark (building_of self.old)) result
            (building_of self.new) }
        ensures counted { self.new.totals ≡ self.old.totals }
    {
        if self.opened.is_none() {
            return Err(BuildError::Place);
        }
        if self.vars.contains(name) || self.booleans.contains(name) {
            return Err(BuildError::NameTwice);
        }
        if self.outer.len() >= DEEPEST_DISJUNCT {
            return Err(BuildError::Nesting);
        }
        let number = self.booleans.len();
        if number >= MOST_BOOLEANS || !is_name(name) {
            return Err(BuildError::Limit);
        }
        if self.outer.reserve(1).is_err() {
            return Err(BuildError::Memory);
        }
        if self.booleans.push(alloc, name, mark).is_err() {
            return Err(BuildError::Memory);
        }
        let level = Level {
            indicator: number as u32,
            mark,
            rows: Vec::new(alloc),
            props: Vec::new(alloc),
            disjunctions: Vec::new(alloc),
        };
        if let Some(opened) = self.opened.take() {
            let around = std::mem::replace(&mut self.inner, level);
            self.outer.push_reserved((around, opened));
        }
        Ok(number as u32)
    }

    /// Closes the innermost that is open.
    pub fn close(&mut self) -> Result<(), BuildError>
        ensures acts { Acts BuildError.Memory (building_of self.old) (close_outcome (building_of self.old)) result (building_of self.new) }
        ensures counted { self.new.totals ≡ self.old.totals }
    {
        if self.opened.is_some() {
            self.close_disjunction()
        } else {
            self.close_disjunct()
        }
    }

    // Closes the disjunction that is open.
    fn close_disjunction(&mut self) -> Result<(), BuildError>
        requires { IsSome self.old.opened }
        ensures acts { Acts BuildError.Memory (building_of self.old) (close_outcome (building_of self.old)) result (building_of self.new) }
        ensures counted { self.new.totals ≡ self.old.totals }
    {
        if self.inner.disjunctions.reserve(1).is_err() {
            return Err(BuildError::Memory);
        }
        match self.opened.take() {
            Some(opened) => {
                if opened.disjuncts.is_empty() {
                    self.opened = Some(opened);
                    return Err(BuildError::Missing);
                }
                self.inner
                    .disjunctions
                    .push_reserved(opened.into_disjunction());
                Ok(())
            }
            None => unreachable!(),
        }
    }

    // Closes the innermost open block, with no disjunction open in it.
    fn close_disjunct(&mut self) -> Result<(), BuildError>
        requires { IsNone self.old.opened }
        ensures acts { Acts BuildError.Memory (building_of self.old) (close_outcome (building_of self.old)) result (building_of self.new) }
        ensures counted { self.new.totals ≡ self.old.totals }
    {
        match self.outer.pop() {
            None => Err(BuildError::Place),
            Some((level, mut opened)) => {
                if opened.disjuncts.reserve(1).is_err() {
                    self.outer.push_reserved((level, opened));
                    return Err(BuildError::Memory);
                }
                let inner = std::mem::replace(&mut self.inner, level);
                opened.disjuncts.push_reserved(inner.into_disjunct());
                self.opened = Some(opened);
                Ok(())
            }
        }
    }

    /// Why no model can be made now.
    pub fn refusal_of_finish(&self) -> Option<BuildError>
        ensures { result ≡ finish_refusal (building_of self.now) }
    {
        if self.opened.is_some() || !self.outer.is_empty() {
            return Some(BuildError::Unclosed);
        }
        if self.vars.len() == 0 {
            return Some(BuildError::Missing);
        }
        None
    }

    /// The model of all that was given.
    pub fn into_model(self, alloc: Global) -> Model
        requires whole { IsWhole (building_of self) }
        requires ready { finish_refusal (building_of self) ≡ None }
        ensures { model_tree result ≡ built_model (building_of self) }
    {
        let Parts {
            vars,
            booleans,
            goal,
            inner,
            opened: _,
            outer: _,
            totals: _,
        } = self;
        let root = inner.into_block();
        let goal = goal_or_none(alloc, goal);
        Model::new(vars, booleans, goal, root)
    }
}

impl Level {
    // The block of what it holds.
    fn into_block(self) -> Block
        ensures { block_of result ≡ closed_block (open_block_of self) }
    {
        let Level {
            indicator: _,
            mark: _,
            rows,
            props,
            disjunctions,
        } = self;
        Block::new(rows, props, disjunctions)
    }

    // The disjunct of what it holds.
    fn into_disjunct(self) -> Disjunct
        ensures { disjunct_of result ≡ closed_disjunct (open_block_of self) }
    {
        let indicator = self.indicator;
        let mark = self.mark;
        Disjunct::new(indicator, self.into_block(), mark)
    }
}

impl Opened {
    // The disjunction of what it holds.
    fn into_disjunction(self) -> Disjunction
        ensures { disjunction_of result ≡ closed_disjunction (open_disjunction_of self) }
    {
        let Opened {
            mode,
            mark,
            disjuncts,
        } = self;
        Disjunction::new(mode, disjuncts, mark)
    }
}

// The goal that was given, or the one of a model without.
fn goal_or_none(alloc: Global, goal: Option<Goal>) -> Goal
    ensures { result ≡ goal_of goal }
{
    match goal {
        Some(goal) => goal,
        None => Goal::none(alloc),
    }
}
