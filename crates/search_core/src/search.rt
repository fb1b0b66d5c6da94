//! The search.

ghost use Rattle.std.specs.Prelude.{◌≡◌, ◌<◌, [], List, IfOk, length};
ghost use Rattle.proof_tree.specs.declared.path.Half.{Half};
ghost use Rattle.search_rules.specs.Machine.{resting, start, IsLegalLog};
ghost use Rattle.search_rules.specs.Searching.{IsWithin, IsUnderWay};
ghost use Rattle.search_core.specs.Boards.{searching_of};
ghost use Rattle.search_rules.specs.Depth.{depth_place, are_halves};
ghost use Rattle.search_rules.specs.Solved.{SolvesBy, IsDepthLog};
ghost use Rattle.search_rules.specs.Claims.{Shows};
ghost use Rattle.search_rules.specs.Problem.{Problem, AreNodes, IsAllowed, words_of};
ghost use Rattle.search_rules.specs.Outcomes.{outcome_at, outcome_of, IsRightOutcome};
ghost use Rattle.search_rules.specs.Turns.{meaning_of, failure_of, HasTurned};

use crate::board::Board;
use answers::Stop;
use exact_simplex::{Event, Log, Room};
use outcomes::Memory;
use proof_tree::Proof;
use search_rules::{Best, Outcome, Turn, TurnError, Waiting};
use settling::{Nodes, WorkError, work};
use std::alloc::Global;

/// The nodes of a problem, which promise what a search needs.
pub trait Promising: Nodes {
    /// The problem.
    ghost problem: { Self → Problem };

    ghost promised: { (me : Self) → AreNodes (problem me) (meaning_of (Self.dead_of me) (Self.force_of me) (Self.loose_of me) (Self.test_of me)) };

    ghost allowed: { (me : Self) (path : List Half) → IsAllowed (problem me) path → Self.ready me path };
}

/// A search. Its room keeps the memory of a node's tableau for the next node's.
#[derive(Drop)]
pub struct Search<N> {
    nodes: N,
    board: Board,
    steps: u32,
    log: Log,
    room: Room,
}

impl<N: Promising + Drop> Search<N> {
    /// A search that has not begun, with so many steps.
    pub fn new(alloc: Global, nodes: N, steps: u32) -> Result<Search<N>, Memory>
        ensures rest { IfOk result (λ s. (searching_of s).rest ≡ start) }
        ensures log { IfOk result (λ s. (searching_of s).log.events ≡ []) }
        ensures steps { IfOk result (λ s. (searching_of s).steps ≡ steps) }
        ensures nodes { IfOk result (λ s. (searching_of s).nodes ≡ nodes) }
        ensures within { IfOk result (λ s. IsWithin (searching_of s)) }
    {
        let log = Log::new(alloc, steps)?;
        let board = Board::new(alloc)?;
        Ok(Search {
            nodes,
            board,
            steps,
            log,
            room: Room::new(alloc),
        })
    }
}

impl<N: Promising> Search<N> {
    /// Opens the half at a place in order of making, and works at it until it settles or stops.
    pub fn turn(&mut self, alloc: Global, pick: usize) -> Result<Turn, TurnError>
        requires pick { pick < length (searching_of self.old).rest.waiting }
        requires under_way { IsUnderWay (meaning_of (N.dead_of (searching_of self.old).nodes) (N.force_of (searching_of self.old).nodes) (N.loose_of (searching_of self.old).nodes) (N.test_of (searching_of self.old).nodes)) (searching_of self.old) }
        ensures turned { HasTurned (meaning_of (N.dead_of (searching_of self.old).nodes) (N.force_of (searching_of self.old).nodes) (N.loose_of (searching_of self.old).nodes) (N.test_of (searching_of self.old).nodes)) (searching_of self.old) pick (searching_of self.new) result }
        ensures nodes { (searching_of self.new).nodes ≡ (searching_of self.old).nodes }
        ensures within { IsWithin (searching_of self.new) }
    {
        if self.steps == 0 {
            return Err(TurnError::Stopped(Stop::Steps));
        }
        let number = self.board.opened;
        let half = self.board.take(pick);
        self.log.push(half.event);
        self.steps -= 1;
        let value = self.board.value();
        match work(
            alloc,
            &self.nodes,
            &half.path,
            &half.kept,
            value,
            &mut self.steps,
            &mut self.log,
            &mut self.room,
        ) {
            Err(error) => Err(failure(error)),
            Ok(ending) => match self.board.settle(alloc, half, number, ending) {
                Ok(turn) => Ok(turn),
                Err(_) => Err(TurnError::Memory),
            },
        }
    }
}

impl<N: Promising> Search<N> {
    /// Searches in depth order, until all halves are opened, or the search is endless or stops.
    pub fn solve(&mut self, alloc: Global) -> Result<Turn, TurnError>
        requires start { (searching_of self.old).rest ≡ start }
        requires log { (searching_of self.old).log.events ≡ [] }
        requires within { IsWithin (searching_of self.old) }
        ensures solves { SolvesBy (IsDepthLog (meaning_of (N.dead_of (searching_of self.old).nodes) (N.force_of (searching_of self.old).nodes) (N.loose_of (searching_of self.old).nodes) (N.test_of (searching_of self.old).nodes))) (searching_of self.old).steps (searching_of self.new).log.events (searching_of self.new).rest result }
        ensures nodes { (searching_of self.new).nodes ≡ (searching_of self.old).nodes }
        ensures within { IsWithin (searching_of self.new) }
    {
        'turns: while !self.board.waiting.is_empty() {
            let pick = place(&self.board.waiting);
            match self.turn(alloc, pick) {
                Ok(Turn::Rested) => {}
                Ok(Turn::Endless { at, truths, ray }) => {
                    return Ok(Turn::Endless { at, truths, ray });
                }
                Err(error) => return Err(error),
            }
        }
        Ok(Turn::Rested)
    }

    /// Searches in the order of these picks, until all halves are opened, or the search is endless or stops: each turn
    /// opens the half at the next pick in order of making, taken modulo how many wait, and past the last pick the half
    /// made first.
    pub fn search(&mut self, alloc: Global, picks: &[u32]) -> Result<Turn, TurnError>
        requires start { (searching_of self.old).rest ≡ start }
        requires log { (searching_of self.old).log.events ≡ [] }
        requires within { IsWithin (searching_of self.old) }
        ensures solves { SolvesBy (IsLegalLog (meaning_of (N.dead_of (searching_of self.old).nodes) (N.force_of (searching_of self.old).nodes) (N.loose_of (searching_of self.old).nodes) (N.test_of (searching_of self.old).nodes))) (searching_of self.old).steps (searching_of self.new).log.events (searching_of self.new).rest result }
        ensures nodes { (searching_of self.new).nodes ≡ (searching_of self.old).nodes }
        ensures within { IsWithin (searching_of self.new) }
    {
        let mut turns: usize = 0;
        'turns: while !self.board.waiting.is_empty() {
            let pick = picked(picks, turns, self.board.waiting.len());
            turns = turns.wrapping_add(1);
            match self.turn(alloc, pick) {
                Ok(Turn::Rested) => {}
                Ok(Turn::Endless { at, truths, ray }) => {
                    return Ok(Turn::Endless { at, truths, ray });
                }
                Err(error) => return Err(error),
            }
        }
        Ok(Turn::Rested)
    }
}

impl<N: Promising + Drop> Search<N> {
    /// Ends a search whose halves are all opened, with its claim, its proof and its log.
    pub fn finish(self, alloc: Global) -> Result<(Outcome, Log), Memory>
        requires under_way { IsUnderWay (meaning_of (N.dead_of (searching_of self).nodes) (N.force_of (searching_of self).nodes) (N.loose_of (searching_of self).nodes) (N.test_of (searching_of self).nodes)) (searching_of self) }
        requires done { (searching_of self).rest.waiting ≡ [] }
        ensures right { IfOk result (λ r. IsRightOutcome (words_of (N.problem (searching_of self).nodes) (meaning_of (N.dead_of (searching_of self).nodes) (N.force_of (searching_of self).nodes) (N.loose_of (searching_of self).nodes) (N.test_of (searching_of self).nodes))) r.0) }
        ensures outcome { IfOk result (λ r. r.0 ≡ outcome_at (searching_of self).rest) }
        ensures log { IfOk result (λ r. r.1 ≡ (searching_of self).log) }
    {
        is_right(&self);
        let nodes = self.board.arena.preorder(alloc)?;
        match Proof::make(nodes) {
            Err(_) => unreachable!(),
            Ok(proof) => Ok((ended_with(best_of(self.board), proof), self.log)),
        }
    }
}

impl<N: Drop> Search<N> {
    /// The log.
    pub fn into_log(self) -> Log
        ensures { result ≡ (searching_of self).log }
    {
        self.log
    }
}

fn best_of(board: Board) -> Option<Best>
    ensures { result ≡ board.best }
{
    board.best
}

fn ended_with(best: Option<Best>, proof: Proof) -> Outcome
    ensures { result ≡ outcome_of best proof }
{
    match best {
        None => Outcome::Empty { proof },
        Some(best) => Outcome::Best { best, proof },
    }
}

// The turn's error, from the work's.
fn failure(error: WorkError) -> TurnError
    ensures { result ≡ failure_of error }
{
    match error {
        WorkError::Stopped(stop) => TurnError::Stopped(stop),
        WorkError::Memory => TurnError::Memory,
    }
}

/// A search whose halves are all opened has a proof, and its best point is the best, or there is none.
pub fn is_right<N: Promising>(search: &Search<N>)
    requires under_way { IsUnderWay (meaning_of (N.dead_of (searching_of search.now).nodes) (N.force_of (searching_of search.now).nodes) (N.loose_of (searching_of search.now).nodes) (N.test_of (searching_of search.now).nodes)) (searching_of search.now) }
    requires done { (searching_of search.now).rest.waiting ≡ [] }
    ensures { Shows (words_of (N.problem (searching_of search.now).nodes) (meaning_of (N.dead_of (searching_of search.now).nodes) (N.force_of (searching_of search.now).nodes) (N.loose_of (searching_of search.now).nodes) (N.test_of (searching_of search.now).nodes))) (resting (searching_of search.now).rest) }
{}

// The pick of this turn, as a place among that many halves.
fn picked(picks: &[u32], turn: usize, count: usize) -> usize
    requires { 0 < count }
    ensures { result < count }
{
    match picks.get(turn) {
        None => 0,
        Some(pick) => *pick as usize % count,
    }
}

// The place of the half to open next in depth order.
fn place(waiting: &[Waiting]) -> usize
    requires { 0 < length waiting.now }
    ensures place { result ≡ depth_place waiting.now }
    ensures inside { result < length waiting.now }
{
    let last = waiting.len() - 1;
    if last == 0 {
        return 0;
    }
    if halves(waiting[last - 1].event, waiting[last].event) {
        last - 1
    } else {
        last
    }
}

// Whether the openings are of one split.
fn halves(one: Event, two: Event) -> bool
    ensures { result ≡ are_halves one two }
{
    match (one, two) {
        (Event::Open { parent: p, .. }, Event::Open { parent: q, .. }) => p == q,
        _ => false,
    }
}
