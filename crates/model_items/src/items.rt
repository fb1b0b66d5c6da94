//! The items of a model, its propositions and disjunctions, and what is known of the condition of each.
//!
//! A block's propositions come first, and then each disjunction followed by the items of its disjuncts' blocks.

ghost use Rattle.std.specs.Prelude.{
  ◌≡◌,
  ◌<◌,
  ◌+◌,
  ◌^◌,
  ◌∷◌,
  ℕ,
  Bool,
  true,
  length,
  map,
  Some,
  slice_index_or,
};
ghost use Rattle.gdp_tables.specs.declared.tri.Tri.TheVariants.{No};
ghost use Rattle.propositions.specs.Laws.{HoldsOfCompletions, IsTruthWhereKnown};
ghost use Rattle.propositions.specs.Reading.{tri_of, tris_of, and_all, yes_count, open_count, is_yes as sure, is_open as unsure};
ghost use Rattle.propositions.specs.Truth.{are_ids_below};
ghost use Rattle.propositions.specs.View.{prop_tree};
ghost use Rattle.model_items.specs.Items.{
  enforced,
  indicators_of,
  selection,
  each_implies,
  choice,
  conditions_in,
  conditions_of_disjunctions,
  conditions_of_disjuncts,
  item_count_of,
  condition_of,
};
ghost use Rattle.model_items.specs.steps.Picking.{
  readings,
  reading_at,
  is_block_below,
  are_disjunctions_below,
  are_disjuncts_below,
  item_total,
  item_total_below,
  item_total_within,
};
ghost use Rattle.model_tree.specs.Earlier.{name_only_first};
ghost use Rattle.model_tree.specs.Values.{model_tree};
ghost use Rattle.model_tree.specs.View.{
  block_of,
  disjunction_of,
  disjunct_of,
  disjunctions_of,
  disjuncts_of,
  props_of,
};

use gdp_tables::{Tri, tri_and, tri_not, tri_or};
use model_tree::{Block, Disjunct, Disjunction, Mode, Model};
use propositions::{Prop, at_least_of, exactly_of, tri};

/// How many items the model has.
pub fn item_count(model: &Model) -> u32
    ensures { result ≡ item_count_of (model_tree model.now) }
{
    let _ = model.vars();
    count_in_block(model.root())
}

// How many items there are in the block and below it.
#[cycle(count)]
fn count_in_block(block: &Block) -> u32
    requires { item_total (block_of block.now) < 2 ^ 32 }
    ensures { result ≡ item_total (block_of block.now) }
{
    block.props().len() as u32 + count_in_disjunctions(block.disjunctions())
}

// How many items the disjunctions and those of their disjuncts are.
#[cycle(count)]
fn count_in_disjunctions(disjunctions: &[Disjunction]) -> u32
    requires { item_total_below (disjunctions_of disjunctions.now) < 2 ^ 32 }
    ensures { result ≡ item_total_below (disjunctions_of disjunctions.now) }
{
    let mut count = 0;
    for disjunction in disjunctions {
        count += count_in_disjunction(disjunction);
    }
    count
}

// How many items the disjunction and those of its disjuncts are.
#[cycle(count)]
fn count_in_disjunction(disjunction: &Disjunction) -> u32
    requires { item_total_within (disjunction_of disjunction.now).1 + 1 < 2 ^ 32 }
    ensures { result ≡ item_total_within (disjunction_of disjunction.now).1 + 1 }
{
    count_in_disjuncts(disjunction.disjuncts()) + 1
}

// How many items there are in the disjuncts' blocks.
#[cycle(count)]
fn count_in_disjuncts(disjuncts: &[Disjunct]) -> u32
    requires { item_total_within (disjuncts_of disjuncts.now) < 2 ^ 32 }
    ensures { result ≡ item_total_within (disjuncts_of disjuncts.now) }
{
    let mut count = 0;
    for disjunct in disjuncts {
        count += count_in_disjunct(disjunct);
    }
    count
}

// How many items there are in the disjunct's block.
#[cycle(count)]
fn count_in_disjunct(disjunct: &Disjunct) -> u32
    requires { item_total (disjunct_of disjunct.now).1 < 2 ^ 32 }
    ensures { result ≡ item_total (disjunct_of disjunct.now).1 }
{
    count_in_block(disjunct.block())
}

/// What is known of the condition of the item with this number, where this is known of the Booleans.
pub fn item_tri(model: &Model, place: u32, truths: &[Tri]) -> Tri
    requires place { place < item_count_of (model_tree model.now) }
    requires truths { length truths.now ≡ length model.now.booleans }
    ensures reading { result ≡ tri_of (condition_of (model_tree model.now) place) (λ k. slice_index_or truths.now k No) }
    ensures sound { HoldsOfCompletions (condition_of (model_tree model.now) place) (λ k. slice_index_or truths.now k No) result }
    ensures known { IsTruthWhereKnown (condition_of (model_tree model.now) place) (λ k. slice_index_or truths.now k No) result }
{
    read_item(model, place, truths)
}

// The reading of the condition.
fn read_item(model: &Model, place: u32, truths: &[Tri]) -> Tri
    requires place { place < item_count_of (model_tree model.now) }
    requires truths { length truths.now ≡ length model.now.booleans }
    ensures { result ≡ tri_of (condition_of (model_tree model.now) place) (λ k. slice_index_or truths.now k No) }
{
    let _ = model.vars();
    match find_in_block(model.root(), None, place, truths) {
        Ok(reading) => reading,
        Err(_) => Tri::Open,
    }
}

// What is known of the Boolean of this number.
fn known_of(truths: &[Tri], number: u32) -> Tri
    ensures { result ≡ slice_index_or truths.now number No }
{
    match truths.get(number as usize) {
        Some(reading) => *reading,
        None => Tri::No,
    }
}

// The reading at this place among the items of the block, or how far the place lies past them.
#[cycle(items)]
#[tactic(auto, using(crate::proofs::PickingLemmas::picked))]
fn find_in_block(block: &Block, under: Option<u32>, place: u32, truths: &[Tri]) -> Result<Tri, u32>
    requires { is_block_below (length truths.now) (block_of block.now) ≡ true }
    ensures { result ≡ reading_at (readings (λ k. slice_index_or truths.now k No) (conditions_in under (block_of block.now))) place }
{
    match find_in_props(block.props(), under, place, truths) {
        Ok(reading) => Ok(reading),
        Err(left) => find_in_disjunctions(block.disjunctions(), under, left, truths),
    }
}

// The reading at this place among the items of the disjunctions, or how far the place lies past them.
#[cycle(items)]
fn find_in_disjunctions(
    disjunctions: &[Disjunction],
    under: Option<u32>,
    place: u32,
    truths: &[Tri],
) -> Result<Tri, u32>
    requires { are_disjunctions_below (length truths.now) (disjunctions_of disjunctions.now) ≡ true }
    ensures { result ≡ reading_at (readings (λ k. slice_index_or truths.now k No)
        (conditions_of_disjunctions under (disjunctions_of disjunctions.now))) place }
{
    let mut left = place;
    for disjunction in disjunctions {
        match find_in_disjunction(disjunction, under, left, truths) {
            Ok(reading) => return Ok(reading),
            Err(rest) => left = rest,
        }
    }
    Err(left)
}

// The reading at this place among the disjunction and the items of its disjuncts, or how far the place lies past them.
#[cycle(items)]
fn find_in_disjunction(
    disjunction: &Disjunction,
    under: Option<u32>,
    place: u32,
    truths: &[Tri],
) -> Result<Tri, u32>
    requires { are_disjuncts_below (length truths.now) (disjunction_of disjunction.now).1 ≡ true }
    ensures { result ≡ reading_at (readings (λ k. slice_index_or truths.now k No)
        (choice under (disjunction_of disjunction.now).0.mode (disjunction_of disjunction.now).1
        ∷ conditions_of_disjuncts (disjunction_of disjunction.now).1)) place }
{
    if place == 0 {
        return Ok(choice_tri(disjunction, under, truths));
    }
    find_in_disjuncts(disjunction.disjuncts(), place - 1, truths)
}

// The reading at this place among the items of the disjuncts' blocks, or how far the place lies past them.
#[cycle(items)]
fn find_in_disjuncts(disjuncts: &[Disjunct], place: u32, truths: &[Tri]) -> Result<Tri, u32>
    requires { are_disjuncts_below (length truths.now) (disjuncts_of disjuncts.now) ≡ true }
    ensures { result ≡ reading_at (readings (λ k. slice_index_or truths.now k No) (conditions_of_disjuncts (disjuncts_of disjuncts.now))) place }
{
    let mut left = place;
    for disjunct in disjuncts {
        match find_in_disjunct(disjunct, left, truths) {
            Ok(reading) => return Ok(reading),
            Err(rest) => left = rest,
        }
    }
    Err(left)
}

// The reading at this place among the items of the disjunct's block, or how far the place lies past them.
#[cycle(items)]
fn find_in_disjunct(disjunct: &Disjunct, place: u32, truths: &[Tri]) -> Result<Tri, u32>
    requires { is_block_below (length truths.now) (disjunct_of disjunct.now).1 ≡ true }
    ensures { result ≡ reading_at (readings (λ k. slice_index_or truths.now k No)
        (conditions_in (Some (disjunct_of disjunct.now).0.indicator) (disjunct_of disjunct.now).1)) place }
{
    find_in_block(disjunct.block(), Some(disjunct.indicator()), place, truths)
}

// The reading at this place among the propositions' conditions, or how far the place lies past them.
fn find_in_props(
    props: &[(Prop, u32)],
    under: Option<u32>,
    place: u32,
    truths: &[Tri],
) -> Result<Tri, u32>
    requires { name_only_first (length truths.now) (props_of props.now) ≡ true }
    ensures { result ≡ reading_at (readings (λ k. slice_index_or truths.now k No) (map (λ q. enforced under q.0) (props_of props.now))) place }
{
    let mut left = place;
    for prop in props {
        if left == 0 {
            return Ok(enforced_tri(&prop.0, under, truths));
        }
        left -= 1;
    }
    Err(left)
}

// The reading of a proposition's condition: in the block of an indicator it is that the indicator implies it.
fn enforced_tri(prop: &Prop, under: Option<u32>, truths: &[Tri]) -> Tri
    requires { are_ids_below (length truths.now) (prop_tree prop.now) ≡ true }
    ensures { result ≡ tri_of (enforced under (prop_tree prop.now)) (λ k. slice_index_or truths.now k No) }
{
    let reading = tri(prop, truths);
    match under {
        None => reading,
        Some(indicator) => tri_or(tri_not(known_of(truths, indicator)), reading),
    }
}

// The reading of a disjunction's condition: its selection, and in the block of an indicator that this implies the
// selection and is implied by each of the disjunction's own.
fn choice_tri(disjunction: &Disjunction, under: Option<u32>, truths: &[Tri]) -> Tri
    ensures { result ≡ tri_of (choice under (disjunction_of disjunction.now).0.mode (disjunction_of disjunction.now).1)
        (λ k. slice_index_or truths.now k No) }
{
    let selected = selection_tri(disjunction.mode(), disjunction.disjuncts(), truths);
    match under {
        None => selected,
        Some(indicator) => tri_and(
            tri_or(tri_not(known_of(truths, indicator)), selected),
            each_implies_tri(disjunction.disjuncts(), indicator, truths),
        ),
    }
}

// Whether as many indicators are true as the mode says.
fn selection_tri(mode: Mode, disjuncts: &[Disjunct], truths: &[Tri]) -> Tri
    ensures { result ≡ tri_of (selection mode (disjuncts_of disjuncts.now)) (λ k. slice_index_or truths.now k No) }
{
    let counts = count_known(disjuncts, truths);
    match mode {
        Mode::Xor => exactly_of(1, counts.yes, counts.undecided),
        Mode::Or => at_least_of(1, counts.yes, counts.undecided),
    }
}

// How many of some indicators are known to be true, and of how many nothing is known.
#[derive(Clone, Copy)]
struct Counts {
    yes: usize,
    undecided: usize,
}

// How many of the disjuncts' indicators are Yes, and how many are Open.
fn count_known(disjuncts: &[Disjunct], truths: &[Tri]) -> Counts
    ensures yes { result.yes ≡ yes_count (tris_of (indicators_of (disjuncts_of disjuncts.now)) (λ k. slice_index_or truths.now k No)) }
    ensures undecided { result.undecided ≡ open_count (tris_of (indicators_of (disjuncts_of disjuncts.now)) (λ k. slice_index_or truths.now k No)) }
    ensures few { result.yes + result.undecided < 2 ^ 63 }
{
    let mut yes = 0;
    let mut undecided = 0;
    for disjunct in disjuncts {
        let reading = known_of(truths, disjunct.indicator());
        yes += usize::from(is_yes(reading));
        undecided += usize::from(is_open(reading));
    }
    Counts { yes, undecided }
}

// Whether it is known to be true.
fn is_yes(reading: Tri) -> bool
    ensures { result ≡ sure reading }
{
    matches!(reading, Tri::Yes)
}

// Whether nothing is known.
fn is_open(reading: Tri) -> bool
    ensures { result ≡ unsure reading }
{
    matches!(reading, Tri::Open)
}

// Whether each of the disjuncts' indicators implies the Boolean of this number.
#[tactic(auto, using(crate::proofs::PickingLemmas::connected))]
fn each_implies_tri(disjuncts: &[Disjunct], number: u32, truths: &[Tri]) -> Tri
    ensures { result ≡ and_all (tris_of (each_implies number (disjuncts_of disjuncts.now)) (λ k. slice_index_or truths.now k No)) }
{
    let around = known_of(truths, number);
    let mut all = Tri::Yes;
    for disjunct in disjuncts {
        let inside = known_of(truths, disjunct.indicator());
        all = tri_and(all, tri_or(tri_not(inside), around));
    }
    all
}
