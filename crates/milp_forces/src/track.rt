//! The halves of a path, each with what stood before it, kept as bytes.

ghost use Rattle.std.specs.Prelude.{◌≡◌, ◌∷◌, ◌++◌, [], MatchOption, OnOk, OnErr, length, reverse, take};
ghost use Rattle.milp_forces.specs.Tracks.{
  ArePacked,
  BeforeFits,
  SplitFits,
  before_in,
  packed_before,
  packed_split,
  packed_step,
  split_in,
  steps_in,
  tag_of,
};

use outcomes::Memory;
use packed_numbers::{put_natural, put_number, take_natural, take_number};
use proof_tree::{Half, Split};
use std::alloc::Global;
use std::marker::Model;

/// A half, and what stood before it.
#[derive(Clone, Copy)]
pub(crate) struct Step {
    /// The half.
    pub(crate) half: Half,
    /// The bound of its column on its side.
    pub(crate) before: Option<i128>,
}

/// Steps, which clauses see from the last up to the first, each kept as a few bytes.
#[derive(Drop)]
pub(crate) struct Track {
    bytes: Vec<u8>,
}

impl Model for Track {
    ghost use Rattle.std.specs.Prelude.{List, reverse};
    ghost use Rattle.milp_forces.specs.declared.track.Step.{Step};
    ghost use Rattle.milp_forces.specs.Tracks.{ArePacked, steps_in};

    ghost Value = { List Step };

    ghost view = { λ t. steps_in (reverse t.bytes.items) };

    ghost invariant = { λ t. ArePacked (reverse t.bytes.items) };
}

impl Track {
    /// No step.
    pub(crate) fn new(alloc: Global) -> Track
        ensures { result ≡ [] }
    {
        Track {
            bytes: Vec::new(alloc),
        }
    }

    /// Appends a step; a refused one changes nothing.
    pub(crate) fn push(&mut self, step: Step) -> Result<(), Memory>
        ensures ok { OnOk result (self.new ≡ step ∷ self.old) }
        ensures err { OnErr result (self.new ≡ self.old) }
    {
        put_step(&mut self.bytes, step)
    }

    /// Takes the last step away; None where there is none.
    pub(crate) fn pop(&mut self) -> Option<Step>
        ensures { MatchOption result ((self.old ≡ []) × (self.new ≡ [])) (λ step. self.old ≡ step ∷ self.new) }
    {
        take_step(&mut self.bytes)
    }
}

// Puts the bytes of a step; a refused one changes nothing.
fn put_step(bytes: &mut Vec<u8>, step: Step) -> Result<(), Memory>
    ensures ok { OnOk result (reverse bytes.new.items ≡ packed_step step ++ reverse bytes.old.items) }
    ensures err { OnErr result (bytes.new.items ≡ bytes.old.items) }
    ensures fits { SplitFits step.half.split × BeforeFits step.before }
{
    let length = bytes.len();
    let put = put_parts(bytes, step);
    if put.is_err() {
        bytes.truncate(length);
    }
    put
}

// Puts the bytes of a step; a refused one may leave some of them.
fn put_parts(bytes: &mut Vec<u8>, step: Step) -> Result<(), Memory>
    ensures ok { OnOk result (reverse bytes.new.items ≡ packed_step step ++ reverse bytes.old.items) }
    ensures below { take (length bytes.old.items) bytes.new.items ≡ bytes.old.items }
{
    put_before(bytes, step.before)?;
    put_split(bytes, step.half.split)?;
    bytes.push(tag(step))?;
    Ok(())
}

// Puts what stood before; a refused one changes nothing.
fn put_before(bytes: &mut Vec<u8>, before: Option<i128>) -> Result<(), Memory>
    ensures ok { OnOk result (reverse bytes.new.items ≡ packed_before before ++ reverse bytes.old.items) }
    ensures err { OnErr result (bytes.new.items ≡ bytes.old.items) }
{
    match before {
        None => Ok(()),
        Some(number) => put_number(bytes, number),
    }
}

// Puts the numbers of a split; a refused one may leave some of them.
fn put_split(bytes: &mut Vec<u8>, split: Split) -> Result<(), Memory>
    ensures ok { OnOk result (reverse bytes.new.items ≡ packed_split split ++ reverse bytes.old.items) }
    ensures below { take (length bytes.old.items) bytes.new.items ≡ bytes.old.items }
{
    match split {
        Split::Truth { id } => put_natural(bytes, u64::from(id)),
        Split::Int { column, at } => {
            put_number(bytes, at)?;
            put_natural(bytes, u64::from(column))
        }
    }
}

// What kind of step it is.
fn tag(step: Step) -> u8
    ensures { result ≡ tag_of step }
{
    let on_truth = match step.half.split {
        Split::Int { column: _, at: _ } => false,
        Split::Truth { id: _ } => true,
    };
    u8::from(step.half.second) + 2 * u8::from(step.before.is_some()) + 4 * u8::from(on_truth)
}

// Takes the bytes of the last step away.
fn take_step(bytes: &mut Vec<u8>) -> Option<Step>
    requires { ArePacked (reverse bytes.old.items) }
    ensures kept { ArePacked (reverse bytes.new.items) }
    ensures step { MatchOption result ((steps_in (reverse bytes.old.items) ≡ []) × (steps_in (reverse bytes.new.items) ≡ [])) (λ step. steps_in (reverse bytes.old.items) ≡ step ∷ steps_in (reverse bytes.new.items)) }
{
    let tag = bytes.pop()?;
    let split = take_split(bytes, tag / 4 == 1);
    let before = take_before(bytes, tag / 2 % 2 == 1);
    let half = Half {
        split,
        second: tag % 2 == 1,
    };
    Some(Step { half, before })
}

// Takes a split away, on a Boolean or not.
fn take_split(bytes: &mut Vec<u8>, on_truth: bool) -> Split
    requires { SplitFits (split_in on_truth (reverse bytes.old.items)).0 }
    ensures split { result ≡ (split_in on_truth (reverse bytes.old.items)).0 }
    ensures rest { reverse bytes.new.items ≡ (split_in on_truth (reverse bytes.old.items)).1 }
{
    if on_truth {
        return Split::Truth {
            id: take_natural(bytes) as u32,
        };
    }
    let column = take_natural(bytes) as u32;
    Split::Int {
        column,
        at: take_number(bytes),
    }
}

// Takes what stood before away, if anything did.
fn take_before(bytes: &mut Vec<u8>, any: bool) -> Option<i128>
    requires { BeforeFits (before_in any (reverse bytes.old.items)).0 }
    ensures before { result ≡ (before_in any (reverse bytes.old.items)).0 }
    ensures rest { reverse bytes.new.items ≡ (before_in any (reverse bytes.old.items)).1 }
{
    if any { Some(take_number(bytes)) } else { None }
}
