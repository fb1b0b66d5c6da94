//! How large a proposition is.

ghost use Rattle.std.specs.Prelude.{◌≡◌, ◌-◌, ◌^◌, min, length};
ghost use Rattle.propositions.specs.Sizes.{
  depth_of,
  depth_within,
  node_count_of,
  node_count_within,
  most_arguments_of,
  most_arguments_within as most_within,
  greatest_number_of,
  greatest_number_within as greatest_within,
  is_empty,
  prop_count,
  has_empty_list_of,
  has_empty_list_within,
};
ghost use Rattle.propositions.specs.View.{prop_tree, prop_trees};

use crate::tree::Prop;

/// The depth: 1 of an atom, and else one more than that of the deepest argument; `usize::MAX` where it is more.
#[cycle(depth)]
pub fn depth(prop: &Prop) -> usize
    ensures { result ≡ min (depth_of (prop_tree prop.now)) (2 ^ 64 - 1) }
{
    match prop {
        Prop::Atom(_) => 1,
        Prop::Not(inner) => depth(inner).saturating_add(1),
        Prop::Implies(first, second) | Prop::Equivalent(first, second) | Prop::Xor(first, second) =>
            depth(first).max(depth(second)).saturating_add(1),
        Prop::And(props)
        | Prop::Or(props)
        | Prop::Exactly(_, props)
        | Prop::AtLeast(_, props)
        | Prop::AtMost(_, props) => greatest_depth(props).saturating_add(1),
    }
}

// The depth of the deepest.
#[cycle(depth)]
fn greatest_depth(props: &[Prop]) -> usize
    ensures { result ≡ min (depth_within (prop_trees props.now)) (2 ^ 64 - 1) }
{
    let mut deepest = 0;
    for prop in props {
        deepest = deepest.max(depth(prop));
    }
    deepest
}

/// How many atoms and connectives there are; `usize::MAX` where there are more.
#[cycle(nodes)]
pub fn node_count(prop: &Prop) -> usize
    ensures { result ≡ min (node_count_of (prop_tree prop.now)) (2 ^ 64 - 1) }
{
    match prop {
        Prop::Atom(_) => 1,
        Prop::Not(inner) => node_count(inner).saturating_add(1),
        Prop::Implies(first, second) | Prop::Equivalent(first, second) | Prop::Xor(first, second) =>
            {
                node_count(first)
                    .saturating_add(node_count(second))
                    .saturating_add(1)
            }
        Prop::And(props)
        | Prop::Or(props)
        | Prop::Exactly(_, props)
        | Prop::AtLeast(_, props)
        | Prop::AtMost(_, props) => sum_of_nodes(props).saturating_add(1),
    }
}

// How many there are in all of them.
#[cycle(nodes)]
fn sum_of_nodes(props: &[Prop]) -> usize
    ensures { result ≡ min (node_count_within (prop_trees props.now)) (2 ^ 64 - 1) }
{
    let mut sum = 0_usize;
    for prop in props {
        sum = sum.saturating_add(node_count(prop));
    }
    sum
}

/// The most arguments that one connective has, 0 of an atom.
#[cycle(arguments)]
pub fn most_arguments(prop: &Prop) -> usize
    ensures { result ≡ most_arguments_of (prop_tree prop.now) }
{
    match prop {
        Prop::Atom(_) => 0,
        Prop::Not(inner) => most_arguments(inner).max(1),
        Prop::Implies(first, second) | Prop::Equivalent(first, second) | Prop::Xor(first, second) =>
            { most_arguments(first).max(most_arguments(second)).max(2) }
        Prop::And(props)
        | Prop::Or(props)
        | Prop::Exactly(_, props)
        | Prop::AtLeast(_, props)
        | Prop::AtMost(_, props) => argument_count(props).max(most_arguments_within(props)),
    }
}

// The most arguments that a connective in one of them has.
#[cycle(arguments)]
fn most_arguments_within(props: &[Prop]) -> usize
    ensures { result ≡ most_within (prop_trees props.now) }
{
    let mut most = 0;
    for prop in props {
        most = most.max(most_arguments(prop));
    }
    most
}

/// The greatest number of a counting connective, 0 where there is none.
#[cycle(numbers)]
pub fn greatest_number(prop: &Prop) -> u32
    ensures { result ≡ greatest_number_of (prop_tree prop.now) }
{
    match prop {
        Prop::Atom(_) => 0,
        Prop::Not(inner) => greatest_number(inner),
        Prop::Implies(first, second) | Prop::Equivalent(first, second) | Prop::Xor(first, second) =>
            greatest_number(first).max(greatest_number(second)),
        Prop::And(props) | Prop::Or(props) => greatest_number_within(props),
        Prop::Exactly(number, props) | Prop::AtLeast(number, props) | Prop::AtMost(number, props) =>
            { greatest_number_within(props).max(*number) }
    }
}

// The greatest number of a counting connective in one of them.
#[cycle(numbers)]
fn greatest_number_within(props: &[Prop]) -> u32
    ensures { result ≡ greatest_within (prop_trees props.now) }
{
    let mut greatest = 0;
    for prop in props {
        greatest = greatest.max(greatest_number(prop));
    }
    greatest
}

/// Whether some connective has a list without arguments.
#[cycle(lists)]
pub fn has_empty_list(prop: &Prop) -> bool
    ensures { result ≡ has_empty_list_of (prop_tree prop.now) }
{
    match prop {
        Prop::Atom(_) => false,
        Prop::Not(inner) => has_empty_list(inner),
        Prop::Implies(first, second) | Prop::Equivalent(first, second) | Prop::Xor(first, second) =>
            has_empty_list(first) || has_empty_list(second),
        Prop::And(props)
        | Prop::Or(props)
        | Prop::Exactly(_, props)
        | Prop::AtLeast(_, props)
        | Prop::AtMost(_, props) => lacks_arguments(props) || have_empty_list(props),
    }
}

// Whether some connective in one of them has a list without arguments.
#[cycle(lists)]
fn have_empty_list(props: &[Prop]) -> bool
    ensures { result ≡ has_empty_list_within (prop_trees props.now) }
{
    for prop in props {
        if has_empty_list(prop) {
            return true;
        }
    }
    false
}

// Whether there are none.
#[tactic(auto, using(crate::proofs::Layers::emptied))]
fn lacks_arguments(props: &[Prop]) -> bool
    ensures { result ≡ is_empty (prop_trees props.now) }
{
    argument_count(props) == 0
}

// How many there are.
#[tactic(auto, using(crate::proofs::Layers::counted))]
fn argument_count(props: &[Prop]) -> usize
    ensures { result ≡ prop_count (prop_trees props.now) }
{
    props.len()
}
