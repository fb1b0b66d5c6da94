//! Whether the condition of one item is read as false.

ghost use Rattle.std.specs.Prelude.{◌≡◌, ◌+◌, ◌<◌, ◌^◌, true, length, slice_index_or};
ghost use Rattle.gdp_tables.specs.declared.tri.Tri.TheVariants.{No};
ghost use Rattle.propositions.specs.Reading.{tri_of, tris_of, yes_count, open_count};
ghost use Rattle.propositions.specs.Truth.{are_ids_below};
ghost use Rattle.propositions.specs.View.{prop_tree};
ghost use Rattle.model_tree.specs.View.{disjunction_of, disjuncts_of};
ghost use Rattle.model_items.specs.Items.{enforced, indicators_of, selection, choice};
ghost use Rattle.model_reading.specs.Reading.{is_false};
ghost use Rattle.model_reading.specs.Passing.{has_yes};

use gdp_tables::Tri;
use model_forces::is_no;
use model_tree::{Disjunct, Disjunction, Mode};
use propositions::{Prop, at_least_of, exactly_of, is_open, is_yes, tri};

// Whether a proposition's condition is false: in the block of an indicator only where the indicator is true.
#[tactic(auto, using(crate::proofs::FalseConditions::falsity))]
pub(crate) fn is_enforced_false(prop: &Prop, under: Option<u32>, tris: &[Tri]) -> bool
    requires { are_ids_below (length tris.now) (prop_tree prop.now) ≡ true }
    ensures { result ≡ is_false (λ k. slice_index_or tris.now k No) (enforced under (prop_tree prop.now)) }
{
    match under {
        None => is_no(tri(prop, tris)),
        Some(indicator) => is_yes(known_of(tris, indicator)) && is_no(tri(prop, tris)),
    }
}

// Whether a disjunction's condition is false: in the block of a true indicator by its selection, in that of a false one
// where one of its own indicators is true, in that of an open one never.
#[tactic(auto, using(crate::proofs::FalseConditions::falsity))]
pub(crate) fn is_choice_false(disjunction: &Disjunction, under: Option<u32>, tris: &[Tri]) -> bool
    ensures { result ≡ is_false (λ k. slice_index_or tris.now k No)
        (choice under (disjunction_of disjunction.now).0.mode (disjunction_of disjunction.now).1) }
{
    match under {
        None => is_selection_false(disjunction.mode(), disjunction.disjuncts(), tris),
        Some(indicator) => match known_of(tris, indicator) {
            Tri::Yes => is_selection_false(disjunction.mode(), disjunction.disjuncts(), tris),
            Tri::No => has_true(disjunction.disjuncts(), tris),
            Tri::Open => false,
        },
    }
}

// Whether too many or too few of the disjuncts' indicators can be true.
fn is_selection_false(mode: Mode, disjuncts: &[Disjunct], tris: &[Tri]) -> bool
    ensures { result ≡ is_false (λ k. slice_index_or tris.now k No) (selection mode (disjuncts_of disjuncts.now)) }
{
    let counts = count_known(disjuncts, tris);
    match mode {
        Mode::Xor => is_no(exactly_of(1, counts.yes, counts.undecided)),
        Mode::Or => is_no(at_least_of(1, counts.yes, counts.undecided)),
    }
}

// How many of some indicators are known to be true, and of how many nothing is known.
#[derive(Clone, Copy)]
struct Counts {
    yes: usize,
    undecided: usize,
}

fn count_known(disjuncts: &[Disjunct], tris: &[Tri]) -> Counts
    ensures yes { result.yes ≡ yes_count (tris_of (indicators_of (disjuncts_of disjuncts.now)) (λ k. slice_index_or tris.now k No)) }
    ensures undecided { result.undecided ≡ open_count (tris_of (indicators_of (disjuncts_of disjuncts.now)) (λ k. slice_index_or tris.now k No)) }
    ensures few { result.yes + result.undecided < 2 ^ 63 }
{
    let mut yes = 0;
    let mut undecided = 0;
    for disjunct in disjuncts {
        let reading = known_of(tris, disjunct.indicator());
        yes += usize::from(is_yes(reading));
        undecided += usize::from(is_open(reading));
    }
    Counts { yes, undecided }
}

// Whether one of the disjuncts' indicators is known to be true.
fn has_true(disjuncts: &[Disjunct], tris: &[Tri]) -> bool
    ensures { result ≡ has_yes (disjuncts_of disjuncts.now) (λ k. slice_index_or tris.now k No) }
{
    for disjunct in disjuncts {
        if is_yes(known_of(tris, disjunct.indicator())) {
            return true;
        }
    }
    false
}

// What is known of the Boolean of this number.
fn known_of(tris: &[Tri], number: u32) -> Tri
    ensures { result ≡ slice_index_or tris.now number No }
{
    match tris.get(number as usize) {
        Some(reading) => *reading,
        None => Tri::No,
    }
}
