//! Models, and how their fields are read.

ghost use Rattle.std.specs.Prelude.{◌≡◌, map, position};
ghost use Rattle.std.specs.Str.{bytes_eq};
ghost use Rattle.model_tree.specs.Sound.{IsSound};
ghost use Rattle.model_tree.specs.Values.{model_tree, no_goal};
ghost use Rattle.model_tree.specs.View.{block_of};

use crate::bounds::Bound;
use crate::declarations::{Booleans, Variables};
use crate::tree::Block;
use gdp_io::Name;
use lp_rows::{Kind, Sense, Terms};
use std::alloc::Global;
use std::marker;

/// A goal: the sum of its terms and its constant, both whole, over its scale.
#[derive(Drop)]
pub struct Goal {
    pub(crate) sense: Sense,
    pub(crate) terms: Terms,
    pub(crate) constant: i128,
    pub(crate) scale: i128,
    pub(crate) mark: u32,
}

impl marker::Model for Goal {
    ghost use Rattle.model_tree.specs.Values.{GoalValue};

    ghost Value = { GoalValue };

    ghost view = { λ g. record { sense = g.sense; terms = g.terms; constant = g.constant; scale = g.scale; mark = g.mark } };
}

impl Goal {
    /// The goal of a model for which none is given: the least value of 0.
    pub fn none(alloc: Global) -> Goal
        ensures { result ≡ no_goal }
    {
        Goal {
            sense: Sense::Min,
            terms: Terms::new(alloc),
            constant: 0,
            scale: 1,
            mark: 0,
        }
    }
}

/// A model: variables, Booleans, a goal and a root block.
///
/// It has a variable, its names differ, its rows and propositions name variables and Booleans that it has, and it
/// keeps the limits on size.
#[derive(Drop)]
pub struct Model {
    vars: Variables,
    booleans: Booleans,
    goal: Goal,
    root: Block,
}

impl marker::Model for Model {
    ghost use Rattle.std.specs.Coded.{codes};
    ghost use Rattle.model_tree.specs.contracts.tree.Block as block_row;
    ghost use Rattle.model_tree.specs.Values.{ModelValue, model_tree};
    ghost use Rattle.model_tree.specs.Sound.{IsSound};

    ghost Value = { ModelValue };

    ghost coded = { Prim.hlevel (codes, block_row.the_row.coded) };

    ghost view = { λ m. record { vars = m.vars; booleans = m.booleans; goal = m.goal; root = m.root } };

    ghost invariant = { λ m. IsSound (model_tree (record { vars = m.vars; booleans = m.booleans; goal = m.goal; root = m.root })) };
}

impl Model {
    /// The model of these variables, Booleans, goal and root block.
    pub fn new(vars: Variables, booleans: Booleans, goal: Goal, root: Block) -> Model
        requires { IsSound (record { vars = vars; booleans = booleans; goal = goal; root = block_of root }) }
        ensures { model_tree result ≡ record { vars = vars; booleans = booleans; goal = goal; root = block_of root } }
    {
        Model {
            vars,
            booleans,
            goal,
            root,
        }
    }

    /// The variables, each with its name, its kind, its bounds and its mark.
    pub fn vars(&self) -> &[(Name, Kind, Bound, u32)]
        ensures value { result.now ≡ self.now.vars }
        ensures sound { IsSound (model_tree self.now) }
    {
        self.vars.as_slice()
    }

    /// The Booleans, each with its name and its mark, indicators included.
    pub fn booleans(&self) -> &[(Name, u32)]
        ensures { result.now ≡ self.now.booleans }
    {
        self.booleans.as_slice()
    }

    /// The number of the variable with this name.
    pub fn find_var(&self, name: &str) -> Option<usize>
        ensures { result ≡ position (bytes_eq name.now) (map (λ v. v.0) self.now.vars) }
    {
        self.vars.find(name)
    }

    /// The number of the Boolean with this name.
    pub fn find_boolean(&self, name: &str) -> Option<usize>
        ensures { result ≡ position (bytes_eq name.now) (map (λ b. b.0) self.now.booleans) }
    {
        self.booleans.find(name)
    }

    /// Whether a lesser or a greater value of the goal is better.
    pub fn sense(&self) -> Sense
        ensures { result ≡ self.now.goal.sense }
    {
        self.goal.sense
    }

    /// The terms of the goal times its scale.
    pub fn terms(&self) -> &[(u32, i128)]
        ensures { result.now ≡ self.now.goal.terms }
    {
        self.goal.terms.as_slice()
    }

    /// The constant of the goal times its scale.
    pub fn constant(&self) -> i128
        ensures { result ≡ self.now.goal.constant }
    {
        self.goal.constant
    }

    /// What the goal's terms and constant are divided by.
    pub fn scale(&self) -> i128
        ensures { result ≡ self.now.goal.scale }
    {
        self.goal.scale
    }

    /// The mark of the goal, 0 where none was given.
    pub fn goal_mark(&self) -> u32
        ensures { result ≡ self.now.goal.mark }
    {
        self.goal.mark
    }

    /// The root block.
    pub fn root(&self) -> &Block
        ensures { result.now ≡ self.now.root }
    {
        &self.root
    }
}
