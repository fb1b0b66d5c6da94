//! What is known of a proposition's truth where some Booleans are open.

ghost use Rattle.std.specs.Prelude.{◌≡◌, ◌+◌, ◌<◌, ◌≤◌, ◌^◌, true, length, slice_index_or};
ghost use Rattle.gdp_tables.specs.declared.tri.Tri.TheVariants.{No};
ghost use Rattle.propositions.specs.Laws.{HoldsOfCompletions, IsTruthWhereKnown};
ghost use Rattle.propositions.specs.Reading.{
  tri_of,
  tris_of,
  and_all as and_of_all,
  or_all as or_of_all,
  is_yes as sure,
  is_open as unsure,
  yes_count,
  open_count,
  list_tri,
  at_least_of as tri_at_least,
  at_most_of as tri_at_most,
  exactly_of as tri_exactly,
};
ghost use Rattle.propositions.specs.Tree.{
  exactly as exactly_so_many,
  at_least as at_least_so_many,
  at_most as at_most_so_many,
};
ghost use Rattle.propositions.specs.Truth.{are_ids_below, are_all_ids_below};
ghost use Rattle.propositions.specs.View.{prop_tree, prop_trees};

use crate::tree::Prop;
use gdp_tables::{Tri, tri_and, tri_not, tri_or, tri_same};

/// What is known of the proposition where this is known of the Booleans.
pub fn tri(prop: &Prop, truths: &[Tri]) -> Tri
    requires { are_ids_below (length truths.now) (prop_tree prop.now) ≡ true }
    ensures reading { result ≡ tri_of (prop_tree prop.now) (λ k. slice_index_or truths.now k No) }
    ensures sound { HoldsOfCompletions (prop_tree prop.now) (λ k. slice_index_or truths.now k No) result }
    ensures known { IsTruthWhereKnown (prop_tree prop.now) (λ k. slice_index_or truths.now k No) result }
{
    read(prop, truths)
}

/// How many of some readings are Yes, and how many are Open.
#[derive(Clone, Copy, Debug, PartialEq, Eq)]
pub struct Counts {
    /// How many are known to be true.
    pub yes: usize,
    /// Of how many nothing is known.
    pub undecided: usize,
}

// The reading of the proposition.
#[cycle(reading)]
fn read(prop: &Prop, truths: &[Tri]) -> Tri
    requires { are_ids_below (length truths.now) (prop_tree prop.now) ≡ true }
    ensures { result ≡ tri_of (prop_tree prop.now) (λ k. slice_index_or truths.now k No) }
{
    match prop {
        Prop::Atom(id) => truths[*id as usize],
        Prop::Not(inner) => tri_not(read(inner, truths)),
        Prop::And(props) => and_all(props, truths),
        Prop::Or(props) => or_all(props, truths),
        Prop::Implies(first, second) => tri_or(tri_not(read(first, truths)), read(second, truths)),
        Prop::Equivalent(first, second) => tri_same(read(first, truths), read(second, truths)),
        Prop::Xor(first, second) => tri_not(tri_same(read(first, truths), read(second, truths))),
        Prop::Exactly(number, props) => exactly(*number, props, truths),
        Prop::AtLeast(number, props) => at_least(*number, props, truths),
        Prop::AtMost(number, props) => at_most(*number, props, truths),
    }
}

// `and` of the readings.
#[cycle(reading)]
#[tactic(auto, using(crate::proofs::Connectives::connectives))]
fn and_all(props: &[Prop], truths: &[Tri]) -> Tri
    requires { are_all_ids_below (length truths.now) (prop_trees props.now) ≡ true }
    ensures { result ≡ and_of_all (tris_of (prop_trees props.now) (λ k. slice_index_or truths.now k No)) }
{
    let mut all = Tri::Yes;
    for prop in props {
        all = tri_and(all, read(prop, truths));
    }
    all
}

// `or` of the readings.
#[cycle(reading)]
#[tactic(auto, using(crate::proofs::Connectives::connectives))]
fn or_all(props: &[Prop], truths: &[Tri]) -> Tri
    requires { are_all_ids_below (length truths.now) (prop_trees props.now) ≡ true }
    ensures { result ≡ or_of_all (tris_of (prop_trees props.now) (λ k. slice_index_or truths.now k No)) }
{
    let mut some = Tri::No;
    for prop in props {
        some = tri_or(some, read(prop, truths));
    }
    some
}

// Whether exactly that many are true.
#[cycle(reading)]
fn exactly(number: u32, props: &[Prop], truths: &[Tri]) -> Tri
    requires { are_all_ids_below (length truths.now) (prop_trees props.now) ≡ true }
    ensures { result ≡ list_tri (exactly_so_many number) (tris_of (prop_trees props.now) (λ k. slice_index_or truths.now k No)) }
{
    let counts = count_known(props, truths);
    exactly_of(number, counts.yes, counts.undecided)
}

// Whether at least that many are true.
#[cycle(reading)]
fn at_least(number: u32, props: &[Prop], truths: &[Tri]) -> Tri
    requires { are_all_ids_below (length truths.now) (prop_trees props.now) ≡ true }
    ensures { result ≡ list_tri (at_least_so_many number) (tris_of (prop_trees props.now) (λ k. slice_index_or truths.now k No)) }
{
    let counts = count_known(props, truths);
    at_least_of(number as usize, counts.yes, counts.undecided)
}

// Whether at most that many are true.
#[cycle(reading)]
fn at_most(number: u32, props: &[Prop], truths: &[Tri]) -> Tri
    requires { are_all_ids_below (length truths.now) (prop_trees props.now) ≡ true }
    ensures { result ≡ list_tri (at_most_so_many number) (tris_of (prop_trees props.now) (λ k. slice_index_or truths.now k No)) }
{
    let counts = count_known(props, truths);
    at_most_of(number, counts.yes, counts.undecided)
}

// How many of the readings are Yes, and how many are Open.
#[cycle(reading)]
fn count_known(props: &[Prop], truths: &[Tri]) -> Counts
    requires { are_all_ids_below (length truths.now) (prop_trees props.now) ≡ true }
    ensures yes { result.yes ≡ yes_count (tris_of (prop_trees props.now) (λ k. slice_index_or truths.now k No)) }
    ensures undecided { result.undecided ≡ open_count (tris_of (prop_trees props.now) (λ k. slice_index_or truths.now k No)) }
    ensures few { result.yes + result.undecided < 2 ^ 63 }
{
    let mut yes = 0;
    let mut undecided = 0;
    for prop in props {
        let reading = read(prop, truths);
        yes += usize::from(is_yes(reading));
        undecided += usize::from(is_open(reading));
    }
    Counts { yes, undecided }
}

/// Whether it is known to be true.
pub fn is_yes(reading: Tri) -> bool
    ensures { result ≡ sure reading }
{
    matches!(reading, Tri::Yes)
}

/// Whether nothing is known.
pub fn is_open(reading: Tri) -> bool
    ensures { result ≡ unsure reading }
{
    matches!(reading, Tri::Open)
}

/// Whether at least that many are true, where that many are Yes and that many Open.
pub fn at_least_of(number: usize, yes: usize, undecided: usize) -> Tri
    requires { yes + undecided < 2 ^ 63 }
    ensures { result ≡ tri_at_least number yes undecided }
{
    if number <= yes {
        Tri::Yes
    } else if yes + undecided < number {
        Tri::No
    } else {
        Tri::Open
    }
}

// Whether at most that many are: not at least one more.
fn at_most_of(number: u32, yes: usize, undecided: usize) -> Tri
    requires { yes + undecided < 2 ^ 63 }
    ensures { result ≡ tri_at_most number yes undecided }
{
    tri_not(at_least_of(number as usize + 1, yes, undecided))
}

/// Whether exactly that many are: at least and at most that many.
pub fn exactly_of(number: u32, yes: usize, undecided: usize) -> Tri
    requires { yes + undecided < 2 ^ 63 }
    ensures { result ≡ tri_exactly number yes undecided }
{
    tri_and(
        at_least_of(number as usize, yes, undecided),
        at_most_of(number, yes, undecided),
    )
}
