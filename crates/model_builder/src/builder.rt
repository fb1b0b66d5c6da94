//! How a model is built.

ghost use Rattle.std.specs.Prelude.{◌≡◌, true, Ok, Err, IfOk, IfErr, map, position};
ghost use Rattle.std.specs.Str.{bytes_eq};
ghost use Rattle.outcomes.specs.Calls.{Acts};
ghost use Rattle.model_builder.specs.Builders.{building_of, IsCounted};
ghost use Rattle.model_builder.specs.Building.{new_building, var_outcome, row_outcome, finish_outcome};
ghost use Rattle.model_builder.specs.Nesting.{boolean_outcome, goal_outcome, open_disjunction_outcome, open_disjunct_outcome, close_outcome};
ghost use Rattle.model_builder.specs.Props.{prop_outcome};
ghost use Rattle.model_builder.specs.Whole.{IsWhole};
ghost use Rattle.model_tree.specs.Values.{model_tree};
ghost use Rattle.propositions.specs.View.{prop_tree};

use crate::parts::Parts;
use fractions::Frac;
use lp_rows::{Kind, Rel, Sense};
use model_tree::{Bound, BuildError, Mode, Model};
use propositions::Prop;
use std::alloc::Global;

/// A model that is being built.
///
/// It stands for what was declared and given so far. Each call appends what it says, or refuses with the first cause
/// that holds, in the order of [`BuildError`], and then changes nothing.
#[derive(Drop)]
pub struct ModelBuilder {
    pub(crate) parts: Parts,
    ghost whole: { IsWhole (building_of parts) },
    ghost counted: { IsCounted parts.totals (building_of parts) },
}

impl ModelBuilder {
    ghost use Rattle.model_builder.specs.Standing.{stands_for};

    /// Nothing declared, and an empty root block.
    pub fn new(alloc: Global) -> ModelBuilder
        ensures { stands_for result ≡ new_building }
    {
        ModelBuilder {
            parts: Parts::new(alloc),
        }
    }

    /// Declares a variable, and answers its number.
    ///
    /// `Place` where a block or a disjunction is open, `NameTwice` where the name is taken, `Number` where a part of a
    /// bound passes 10^15 or the low bound exceeds the high one, `Limit` where there are 500 variables or the name is no
    /// name of a model.
    pub fn var(
        &mut self,
        alloc: Global,
        name: &str,
        kind: Kind,
        bound: Bound,
        mark: u32,
    ) -> Result<u32, BuildError>
        ensures { Acts BuildError.Memory (stands_for self.old) (var_outcome name.now kind bound mark (stands_for self.old)) result
            (stands_for self.new) }
    {
        self.parts.var(alloc, name, kind, bound, mark)
    }

    /// Adds a row to the innermost open block. Its terms may stand in any order.
    ///
    /// `Place` where a disjunction is open, `NameTwice` where one id stands twice, `NameUnknown` where an id is out of
    /// range, `Number` where a coefficient is 0 or a number passes 10^15, `Limit` where there are 1,000 rows.
    pub fn row(
        &mut self,
        alloc: Global,
        terms: &[(u32, Frac)],
        rel: Rel,
        right: Frac,
        mark: u32,
    ) -> Result<(), BuildError>
        ensures { Acts BuildError.Memory (stands_for self.old) (row_outcome terms.now rel right mark (stands_for self.old)) result
            (stands_for self.new) }
    {
        self.parts.row(alloc, terms, rel, right, mark)
    }

    /// Adds a copy of a proposition to the innermost open block.
    ///
    /// `Place` where a disjunction is open, `NameUnknown` where an id is out of range, `Number` where the number of a
    /// counting connective passes 1,000, `Nesting` where the proposition is more than 16 deep, an atom being 1 deep,
    /// `Limit` where a connective has more than 200 arguments or a list without any, or where all propositions would
    /// have more than 5,000 atoms and connectives in all.
    pub fn prop(&mut self, alloc: Global, prop: &Prop, mark: u32) -> Result<(), BuildError>
        ensures { Acts BuildError.Memory (stands_for self.old) (prop_outcome (prop_tree prop.now) mark (stands_for self.old)) result
            (stands_for self.new) }
    {
        self.parts.prop(alloc, prop, mark)
    }

    /// Declares a Boolean, and answers its number.
    ///
    /// `Place` where a block or a disjunction is open or one was opened before, `NameTwice` where the name is taken,
    /// `Limit` where there are 200 Booleans or the name is not a valid name.
    pub fn boolean(&mut self, alloc: Global, name: &str, mark: u32) -> Result<u32, BuildError>
        ensures { Acts BuildError.Memory (stands_for self.old) (boolean_outcome name.now mark (stands_for self.old)) result
            (stands_for self.new) }
    {
        self.parts.boolean(alloc, name, mark)
    }

    /// Sets the goal. Its terms may stand in any order.
    ///
    /// `Place` where a block or a disjunction is open or a goal is set, `NameTwice` where one id stands twice,
    /// `NameUnknown` where an id is out of range, `Number` where a coefficient is 0 or a number or the scale passes
    /// 10^15.
    pub fn goal(
        &mut self,
        alloc: Global,
        sense: Sense,
        terms: &[(u32, Frac)],
        constant: Frac,
        mark: u32,
    ) -> Result<(), BuildError>
        ensures { Acts BuildError.Memory (stands_for self.old) (goal_outcome sense terms.now constant mark (stands_for self.old)) result
            (stands_for self.new) }
    {
        self.parts.goal(alloc, sense, terms, constant, mark)
    }

    /// Opens a disjunction in the innermost open block. `Place` where a disjunction is open.
    pub fn open_disjunction(
        &mut self,
        alloc: Global,
        mode: Mode,
        mark: u32,
    ) -> Result<(), BuildError>
        ensures { Acts BuildError.Memory (stands_for self.old) (open_disjunction_outcome mode mark (stands_for self.old)) result
            (stands_for self.new) }
    {
        self.parts.open_disjunction(alloc, mode, mark)
    }

    /// Opens a disjunct in the disjunction that is open, and answers the number of its indicator.
    ///
    /// `Place` where no disjunction is open, `NameTwice` where the name is taken, `Nesting` where eight disjuncts are
    /// open, `Limit` where there are 200 Booleans or the name is not a valid name.
    pub fn open_disjunct(&mut self, alloc: Global, name: &str, mark: u32) -> Result<u32, BuildError>
        ensures { Acts BuildError.Memory (stands_for self.old) (open_disjunct_outcome name.now mark (stands_for self.old)) result
            (stands_for self.new) }
    {
        self.parts.open_disjunct(alloc, name, mark)
    }

    /// Closes the innermost block or disjunction that is open, and appends it to what is around it.
    ///
    /// `Place` where nothing is open, `Missing` where it is a disjunction without a disjunct.
    pub fn close(&mut self, _alloc: Global) -> Result<(), BuildError>
        ensures { Acts BuildError.Memory (stands_for self.old) (close_outcome (stands_for self.old)) result (stands_for self.new) }
    {
        self.parts.close()
    }

    /// The number of the variable with this name.
    pub fn find_var(&self, name: &str) -> Option<usize>
        ensures { result ≡ position (bytes_eq name.now) (map (λ v. v.0) (stands_for self.now).vars) }
    {
        self.parts.vars.find(name)
    }

    /// The number of the Boolean with this name.
    pub fn find_boolean(&self, name: &str) -> Option<usize>
        ensures { result ≡ position (bytes_eq name.now) (map (λ b. b.0) (stands_for self.now).booleans) }
    {
        self.parts.booleans.find(name)
    }

    /// The model of all that was given.
    ///
    /// `Unclosed` where a block or a disjunction is open, `Missing` where there is no variable; the builder is then
    /// handed back.
    pub fn finish(self, alloc: Global) -> Result<Model, (ModelBuilder, BuildError)>
        ensures ok { IfOk result (λ m. finish_outcome (stands_for self) ≡ Ok (model_tree m)) }
        ensures err { IfErr result (λ e. (finish_outcome (stands_for self) ≡ Err e.1) × (e.0 ≡ self)) }
    {
        if let Some(error) = self.parts.refusal_of_finish() {
            return Err((self, error));
        }
        let ModelBuilder { parts } = self;
        Ok(parts.into_model(alloc))
    }
}
