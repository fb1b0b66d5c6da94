//! What changes a board.

ghost use Rattle.std.specs.Prelude.{◌≡◌, ◌+◌, ◌<◌, ◌^◌, ◌≤◌, ◌++◌, ◌∷◌, length, OnOk, IfOk, Ok, Some, [], vec_len, vec_capacity, slice_get, ◌*◌};
ghost use Rattle.search_rules.specs.Machine.{open_at, start, closed, bettered, parted, settled, value_of, below as below_split};
ghost use Rattle.search_core.specs.Arena.{closure_of};
ghost use Rattle.search_core.specs.Tidy.{IsTaken};
ghost use Rattle.search_core.specs.Boards.{rest_of};
ghost use Rattle.search_rules.specs.Turns.{SettlesAs};

use crate::arena::{Arena, Leaf};
use crate::board::Board;
use exact_simplex::Event;
use fractions::Frac;
use lp_rows::Nums;
use outcomes::Memory;
use proof_tree::{Half, Path, Split};
use search_rules::{Best, Turn, Waiting};
use settling::Ending;
use std::alloc::Global;

impl Board {
    /// The board at the start.
    pub(crate) fn new(alloc: Global) -> Result<Board, Memory>
        ensures { IfOk result (λ b. rest_of b ≡ start) }
    {
        let mut waiting = Vec::new(alloc);
        waiting.push(Waiting {
            number: 0,
            event: Event::OpenRoot,
            path: Path::new(alloc),
            kept: None,
        })?;
        let arena = Arena::new(alloc)?;
        Ok(Board {
            opened: 0,
            waiting,
            arena,
            best: None,
        })
    }

    /// Takes the half at a place in order of making, which is what opens it: the count of openings is its node's number.
    pub(crate) fn take(&mut self, pick: usize) -> Waiting
        requires pick { pick < length self.old.waiting.items }
        requires room { self.old.opened + 1 < 2 ^ 32 }
        ensures opened { open_at (rest_of self.old) result.event [] self.old.waiting.items ≡ Some (record { half = result; number = self.old.opened; rest = rest_of self.new }) }
        ensures place { slice_get self.old.waiting.items pick ≡ Some result }
        ensures taken { IsTaken result self.old.opened self.new.opened self.new.waiting.items self.new.arena.slots.items }
        ensures count { self.new.opened ≡ self.old.opened + 1 }
        ensures best { self.new.best ≡ self.old.best }
        ensures made { length self.new.arena.slots.items ≡ length self.old.arena.slots.items }
    {
        let half = self.waiting.remove(pick);
        self.opened += 1;
        half
    }

    /// Closes a node that was taken.
    pub(crate) fn close(&mut self, half: Waiting, number: u32, leaf: Leaf)
        requires taken { IsTaken half number self.old.opened self.old.waiting.items self.old.arena.slots.items }
        ensures { rest_of self.new ≡ closed half (closure_of leaf) (rest_of self.old) }
    {
        self.arena.close(half.number, leaf);
    }

    /// Closes a node that was taken, where a better point was found.
    pub(crate) fn improve(&mut self, half: Waiting, number: u32, leaf: Leaf, best: Best)
        requires taken { IsTaken half number self.old.opened self.old.waiting.items self.old.arena.slots.items }
        ensures { rest_of self.new ≡ bettered half (closure_of leaf) best (rest_of self.old) }
    {
        self.close(half, number, leaf);
        self.best = Some(best);
    }

    /// The best value.
    pub(crate) fn value(&self) -> Option<Frac>
        ensures { result ≡ value_of self.now.best }
    {
        match &self.best {
            None => None,
            Some(best) => Some(best.value),
        }
    }

    /// Settles a node that was taken and has this number in order of opening.
    pub(crate) fn settle(
        &mut self,
        alloc: Global,
        half: Waiting,
        number: u32,
        ending: Ending,
    ) -> Result<Turn, Memory>
        requires made { length self.old.arena.slots.items < 2 ^ 40 }
        requires taken { IsTaken half number self.old.opened self.old.waiting.items self.old.arena.slots.items }
        ensures settles { IfOk result (λ turn. SettlesAs (settled half number (rest_of self.old) (Ok ending)) (rest_of self.new) turn) }
        ensures opened { self.new.opened ≡ self.old.opened }
        ensures made { length self.new.arena.slots.items ≤ length self.old.arena.slots.items + 2 }
        ensures some { length self.old.arena.slots.items ≤ length self.new.arena.slots.items }
    {
        match ending {
            Ending::LogicFalse(item) => {
                self.close(half, number, Leaf::LogicFalse(item));
                Ok(Turn::Rested)
            }
            Ending::Refuted(mults) => {
                self.close(half, number, Leaf::Refuted(mults));
                Ok(Turn::Rested)
            }
            Ending::Bounded { scale, mults } => {
                self.close(half, number, Leaf::Bounded { scale, mults });
                Ok(Turn::Rested)
            }
            Ending::Better {
                at,
                truths,
                value,
                scale,
                mults,
            } => {
                self.improve(
                    half,
                    number,
                    Leaf::Bounded { scale, mults },
                    Best { at, truths, value },
                );
                Ok(Turn::Rested)
            }
            Ending::Split { split, ray } => {
                self.part(alloc, half, number, split, ray)?;
                Ok(Turn::Rested)
            }
            Ending::Endless { at, truths, ray } => Ok(Turn::Endless { at, truths, ray }),
        }
    }

    /// Parts a node that was taken.
    pub(crate) fn part(
        &mut self,
        alloc: Global,
        half: Waiting,
        number: u32,
        split: Split,
        ray: Option<Nums>,
    ) -> Result<(), Memory>
        requires made { length self.old.arena.slots.items < 2 ^ 40 }
        requires taken { IsTaken half number self.old.opened self.old.waiting.items self.old.arena.slots.items }
        ensures parted { OnOk result (rest_of self.new ≡ parted half number split ray (rest_of self.old)) }
        ensures opened { self.new.opened ≡ self.old.opened }
        ensures made { length self.new.arena.slots.items ≤ length self.old.arena.slots.items + 2 }
        ensures some { length self.old.arena.slots.items ≤ length self.new.arena.slots.items }
    {
        let mut first = half.path.copy()?;
        first.push(Half {
            split,
            second: false,
        })?;
        let mut second = half.path.copy()?;
        second.push(Half {
            split,
            second: true,
        })?;
        let kept = below(half.kept, ray);
        let other = copied(alloc, &kept)?;
        self.waiting.reserve(2)?;
        let made = self.arena.slots.len();
        self.arena.part(half.number, split)?;
        let first = Waiting {
            number: made,
            event: Event::Open {
                parent: number,
                second: false,
            },
            path: first,
            kept,
        };
        let second = Waiting {
            number: made + 1,
            event: Event::Open {
                parent: number,
                second: true,
            },
            path: second,
            kept: other,
        };
        append_two(&mut self.waiting, first, second);
        Ok(())
    }
}

// The ray that is kept below a split.
fn below(kept: Option<Nums>, ray: Option<Nums>) -> Option<Nums>
    ensures { result ≡ below_split kept ray }
{
    match ray {
        None => kept,
        Some(ray) => Some(ray),
    }
}

fn copied(alloc: Global, kept: &Option<Nums>) -> Result<Option<Nums>, Memory>
    ensures { IfOk result (λ copy. copy ≡ kept.now) }
{
    match kept {
        None => Ok(None),
        Some(ray) => Ok(Some(ray.copy(alloc)?)),
    }
}

// Appends two halves, for which there is room.
fn append_two(waiting: &mut Vec<Waiting>, first: Waiting, second: Waiting)
    requires { vec_len waiting.old + 2 ≤ vec_capacity waiting.old }
    ensures { waiting.new.items ≡ (waiting.old.items ++ first ∷ []) ++ second ∷ [] }
{
    waiting.push_reserved(first);
    waiting.push_reserved(second);
}
