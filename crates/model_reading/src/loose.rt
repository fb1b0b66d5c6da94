//! The least open Boolean.

ghost use Rattle.std.specs.Prelude.{◌≡◌, ◌<◌, ◌≤◌, ℕ, true, reverse};
ghost use Rattle.std.specs.List.{list_any};
ghost use Rattle.model_tree.specs.Values.{model_tree};
ghost use Rattle.model_forces.specs.Paths.{tris_on};
ghost use Rattle.model_reading.specs.Reading.{first_open, least_open};
ghost use Rattle.model_reading.specs.Passing.{names as names_it};

use model_forces::known;
use model_tree::Model;
use proof_tree::{Half, Split};
use propositions::is_open;

/// The least Boolean that is open where the halves from the root on have been taken. It takes no memory, and goes three
/// times over halves that take the Booleans in ascending order.
#[tactic(auto, using(crate::proofs::OpenBooleans::open_at))]
pub fn open_boolean(model: &Model, halves: &[Half]) -> Option<u32>
    ensures { result ≡ least_open (model_tree model.now) (reverse halves.now) }
{
    let _ = model.vars();
    let count = model.booleans().len() as u32;
    first_open_below(halves, count)
}

// The least open one of the first Booleans.
fn first_open_below(halves: &[Half], count: u32) -> Option<u32>
    ensures { result ≡ first_open (tris_on (reverse halves.now)) 0 count }
{
    let mut id = 0;
    for round in 0..count {
        let _ = round;
        if id >= count {
            return None;
        }
        if is_open(known(halves, id)) {
            return Some(id);
        }
        id = past_named(halves, id + 1, count);
    }
    None
}

// A Boolean from this one on, at most the last, before which each from this one on is named by a half: one pass goes past
// all that are named in ascending order.
fn past_named(halves: &[Half], from: u32, count: u32) -> u32
    requires { from ≤ count }
    ensures after { from ≤ result }
    ensures within { result ≤ count }
    ensures named { (k : ℕ) → from ≤ k → k < result → list_any (names_it k) halves.now ≡ true }
{
    let mut next = from;
    for half in halves {
        if next < count && names(half, next) {
            next += 1;
        }
    }
    next
}

// Whether the half makes this Boolean known.
fn names(half: &Half, id: u32) -> bool
    ensures { result ≡ names_it id half.now }
{
    match half.split {
        Split::Truth { id: other } => other == id,
        Split::Int { column: _, at: _ } => false,
    }
}
