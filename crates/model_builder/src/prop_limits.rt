//! The limits that a proposition of a model keeps.

ghost use Rattle.std.specs.Prelude.{◌≡◌};
ghost use Rattle.model_tree.specs.PropLimits.{
  has_small_numbers as are_numbers_small,
  is_shallow_prop,
  has_fair_lists as are_lists_fair,
};
ghost use Rattle.propositions.specs.View.{prop_tree};

use model_tree::limits::{DEEPEST_PROPOSITION, GREATEST_NUMBER, MOST_ARGUMENTS};
use propositions::{Prop, depth, greatest_number, has_empty_list, most_arguments};

// Whether the numbers of its counting connectives are small.
pub(crate) fn has_small_numbers(prop: &Prop) -> bool
    ensures { result ≡ are_numbers_small (prop_tree prop.now) }
{
    greatest_number(prop) <= GREATEST_NUMBER
}

// Whether it is not too deep.
pub(crate) fn is_shallow(prop: &Prop) -> bool
    ensures { result ≡ is_shallow_prop (prop_tree prop.now) }
{
    depth(prop) <= DEEPEST_PROPOSITION
}

// Whether each connective has arguments, and not too many.
pub(crate) fn has_fair_lists(prop: &Prop) -> bool
    ensures { result ≡ are_lists_fair (prop_tree prop.now) }
{
    most_arguments(prop) <= MOST_ARGUMENTS && !has_empty_list(prop)
}
