//! Objectives in whole numbers.

ghost use Rattle.std.specs.Prelude.{◌≡◌, ◌<◌, ◌≤◌, ◌^◌, true};
ghost use Rattle.lp_rows.specs.Rows.{is_storable};
ghost use Rattle.lp_grammar.specs.Taking.{no_objective};

use lp_rows::Terms;
use std::alloc::Global;
use std::marker::Model;

/// An objective in whole numbers: its terms, its constant, and what they were multiplied by.
#[derive(Drop)]
pub struct Objective {
    terms: Terms,
    constant: i128,
    scale: u128,
}

impl Model for Objective {
    ghost use Rattle.lp_grammar.specs.Taking as text;
    ghost use Rattle.lp_parts.specs.Stored.{IsStoredObjective};

    ghost Value = { text.Objective };

    ghost view = { λ o. record { terms = o.terms; constant = o.constant; scale = o.scale } };

    ghost invariant = { λ o. IsStoredObjective (record { terms = o.terms; constant = o.constant; scale = o.scale }) };
}

impl Objective {
    /// No objective.
    pub fn new(alloc: Global) -> Objective
        ensures { result ≡ no_objective }
    {
        Objective {
            terms: Terms::new(alloc),
            constant: 0,
            scale: 1,
        }
    }

    /// The objective of these terms and this constant, multiplied by a scale.
    pub fn with_parts(terms: Terms, constant: i128, scale: u128) -> Objective
        requires small { is_storable constant ≡ true }
        requires some_scale { 0 < scale }
        requires small_scale { scale ≤ 10 ^ 15 }
        ensures { result ≡ record { terms = terms; constant = constant; scale = scale } }
    {
        Objective {
            terms,
            constant,
            scale,
        }
    }

    /// The terms.
    pub fn terms(&self) -> &[(u32, i128)]
        ensures { result.now ≡ self.now.terms }
    {
        self.terms.as_slice()
    }

    /// The constant.
    pub fn constant(&self) -> i128
        ensures value { result ≡ self.now.constant }
        ensures small { is_storable self.now.constant ≡ true }
    {
        self.constant
    }

    /// What the terms and the constant were multiplied by.
    pub fn scale(&self) -> u128
        ensures value { result ≡ self.now.scale }
        ensures some { 0 < self.now.scale }
        ensures small { self.now.scale ≤ 10 ^ 15 }
    {
        self.scale
    }
}
