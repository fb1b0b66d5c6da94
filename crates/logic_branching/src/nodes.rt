//! The nodes of a model that is branched on truth values.

ghost use Rattle.std.specs.Prelude.{◌≡◌};
ghost use Rattle.model_tree.specs.Sound.{IsSound};
ghost use Rattle.model_tree.specs.Values.{model_tree};
ghost use Rattle.model_forces.specs.Paths.{IsPathOf};
ghost use Rattle.model_forces.specs.Forces.{model_force_of};
ghost use Rattle.model_reading.specs.Reading.{first_false};
ghost use Rattle.model_nodes.specs.Nodes.{model_loose, model_test, model_problem};
ghost use Rattle.model_forces.proofs.Sizes.{force_is_bounded};
ghost use Rattle.model_nodes.proofs.Promised.{model_nodes_promise, path_of};

use lp_frame::Force;
use lp_rows::Point;
use model_forces::model_force;
use model_nodes::{loose, model_point};
use model_reading::false_item;
use model_tree::Model;
use outcomes::Memory;
use proof_tree::{Path, Split};
use search_core::Promising;
use settling::{Found, Nodes, TestError};
use std::alloc::Global;

/// The nodes of a model.
#[derive(Drop)]
pub struct LogicNodes<'a> {
    /// The model.
    pub model: &'a Model,
    alloc: Global,
    ghost sound: { IsSound (model_tree model.now) },
}

impl<'a> LogicNodes<'a> {
    /// The nodes of this model.
    pub fn new(alloc: Global, model: &'a Model) -> LogicNodes<'a>
        ensures { result.model.now ≡ model.now }
    {
        let _ = model.vars();
        LogicNodes { model, alloc }
    }
}

impl<'a> Nodes for LogicNodes<'a> {
    ghost ready = { λ me path. IsPathOf (model_tree me.model.now) path };

    ghost dead_of = { λ me path. first_false (model_tree me.model.now) path };

    ghost force_of = { λ me path goal. model_force_of (model_tree me.model.now) path goal };

    ghost loose_of = { λ me path. model_loose (model_tree me.model.now) path };

    ghost test_of = { λ me path x. model_test (model_tree me.model.now) path x };

    ghost bounded = { λ me path goal ready. force_is_bounded (model_tree me.model.now) path goal me.sound ready };

    fn dead(&self, path: &Path) -> Result<Option<u32>, Memory> {
        false_item(self.alloc, self.model, path.halves())
    }

    fn force(&self, alloc: Global, path: &Path, goal: bool) -> Result<Force, Memory> {
        model_force(alloc, self.model, path, goal)
    }

    fn loose(&self, path: &Path) -> Option<Split> {
        loose(self.model, path.halves())
    }

    fn test(&self, alloc: Global, path: &Path, at: &Point) -> Result<Found, TestError> {
        model_point(alloc, self.model, path, at)
    }
}

impl<'a> Promising for LogicNodes<'a> {
    ghost problem = { λ me. model_problem (model_tree me.model.now) };

    ghost promised = { λ me. model_nodes_promise (model_tree me.model.now) me.sound };

    ghost allowed = { λ me path a. path_of (model_tree me.model.now) path a };
}
