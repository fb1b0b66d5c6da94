//! The split that is made first.

ghost use Rattle.std.specs.Prelude.{◌≡◌, reverse};
ghost use Rattle.model_tree.specs.Values.{model_tree};
ghost use Rattle.model_nodes.specs.Nodes.{model_loose, truth_split};

use model_reading::open_boolean;
use model_tree::Model;
use proof_tree::{Half, Split};

/// The split to be made first, where the halves from the root on have been taken: on the least open Boolean.
pub fn loose(model: &Model, halves: &[Half]) -> Option<Split>
    ensures { result ≡ model_loose (model_tree model.now) (reverse halves.now) }
{
    split_on(open_boolean(model, halves))
}

fn split_on(id: Option<u32>) -> Option<Split>
    ensures { result ≡ truth_split id }
{
    match id {
        Some(id) => Some(Split::Truth { id }),
        None => None,
    }
}
