//! The truth of a proposition.

ghost use Rattle.std.specs.Prelude.{◌≡◌, true, false, length, slice_index_or};
ghost use Rattle.propositions.specs.Truth.{
  truth_of,
  truths_of,
  are_all_true as all_true,
  is_some_true as some_true,
  true_count as count_true,
  are_ids_below,
  are_all_ids_below,
};
ghost use Rattle.propositions.specs.View.{prop_tree, prop_trees};

use crate::tree::Prop;

/// Whether the proposition is true where the Booleans have these truth values.
#[cycle(truth)]
pub fn truth(prop: &Prop, truths: &[bool]) -> bool
    requires { are_ids_below (length truths.now) (prop_tree prop.now) ≡ true }
    ensures { result ≡ truth_of (prop_tree prop.now) (λ k. slice_index_or truths.now k false) }
{
    match prop {
        Prop::Atom(id) => truths[*id as usize],
        Prop::Not(inner) => !truth(inner, truths),
        Prop::And(props) => are_all_true(props, truths),
        Prop::Or(props) => is_some_true(props, truths),
        Prop::Implies(first, second) => !truth(first, truths) || truth(second, truths),
        Prop::Equivalent(first, second) => truth(first, truths) == truth(second, truths),
        Prop::Xor(first, second) => truth(first, truths) != truth(second, truths),
        Prop::Exactly(number, props) => true_count(props, truths) == *number as usize,
        Prop::AtLeast(number, props) => true_count(props, truths) >= *number as usize,
        Prop::AtMost(number, props) => true_count(props, truths) <= *number as usize,
    }
}

// Whether all are true.
#[cycle(truth)]
fn are_all_true(props: &[Prop], truths: &[bool]) -> bool
    requires { are_all_ids_below (length truths.now) (prop_trees props.now) ≡ true }
    ensures { result ≡ all_true (truths_of (prop_trees props.now) (λ k. slice_index_or truths.now k false)) }
{
    for prop in props {
        if !truth(prop, truths) {
            return false;
        }
    }
    true
}

// Whether some is true.
#[cycle(truth)]
fn is_some_true(props: &[Prop], truths: &[bool]) -> bool
    requires { are_all_ids_below (length truths.now) (prop_trees props.now) ≡ true }
    ensures { result ≡ some_true (truths_of (prop_trees props.now) (λ k. slice_index_or truths.now k false)) }
{
    for prop in props {
        if truth(prop, truths) {
            return true;
        }
    }
    false
}

// How many are true.
#[cycle(truth)]
fn true_count(props: &[Prop], truths: &[bool]) -> usize
    requires { are_all_ids_below (length truths.now) (prop_trees props.now) ≡ true }
    ensures { result ≡ count_true (truths_of (prop_trees props.now) (λ k. slice_index_or truths.now k false)) }
{
    let mut count = 0;
    for prop in props {
        count += usize::from(truth(prop, truths));
    }
    count
}

/// Whether every Boolean that the proposition names has a number below this count.
#[cycle(ids)]
pub fn has_ids_below(prop: &Prop, count: usize) -> bool
    ensures { result ≡ are_ids_below count (prop_tree prop.now) }
{
    match prop {
        Prop::Atom(id) => (*id as usize) < count,
        Prop::Not(inner) => has_ids_below(inner, count),
        Prop::Implies(first, second) | Prop::Equivalent(first, second) | Prop::Xor(first, second) =>
            { has_ids_below(first, count) && has_ids_below(second, count) }
        Prop::And(props)
        | Prop::Or(props)
        | Prop::Exactly(_, props)
        | Prop::AtLeast(_, props)
        | Prop::AtMost(_, props) => have_ids_below(props, count),
    }
}

// Whether every Boolean that one of the propositions names has a number below this count.
#[cycle(ids)]
fn have_ids_below(props: &[Prop], count: usize) -> bool
    ensures { result ≡ are_all_ids_below count (prop_trees props.now) }
{
    for prop in props {
        if !has_ids_below(prop, count) {
            return false;
        }
    }
    true
}
