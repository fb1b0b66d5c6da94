//! A whole search in depth order.

ghost use Rattle.std.specs.Prelude.{◌≡◌, IfOk};
ghost use Rattle.search_rules.specs.Problem.{words_of};
ghost use Rattle.search_rules.specs.Searching.{IsWithin};
ghost use Rattle.search_core.specs.Boards.{searching_of};
ghost use Rattle.search_rules.specs.Solved.{SolvesBy, IsDepthLog};
ghost use Rattle.search_rules.specs.Machine.{IsLegalLog};
ghost use Rattle.search_rules.specs.Answered.{IsAnswer, IsAnswerInAnyOrder};
ghost use Rattle.search_rules.specs.Turns.{meaning_of};

use crate::search::{Promising, Search};
use exact_simplex::Log;
use outcomes::Memory;
use search_rules::{Answer, Turn, TurnError};
use std::alloc::Global;

/// A whole search, with its log.
#[derive(Drop)]
pub struct Solved {
    /// What it comes to.
    pub answer: Answer,
    /// The log.
    pub log: Log,
}

/// Searches in depth order with at most so many steps.
pub fn solve_nodes<N: Promising + Drop>(
    alloc: Global,
    nodes: N,
    steps: u32,
) -> Result<Solved, Memory>
    ensures { IfOk result (λ s. IsAnswer (N.problem nodes) (meaning_of (N.dead_of nodes) (N.force_of nodes) (N.loose_of nodes) (N.test_of nodes)) steps s.log.events s.answer) }
{
    let mut search = Search::new(alloc, nodes, steps)?;
    let result = search.solve(alloc);
    answered(alloc, search, result, steps)
}

/// Searches in the order of these picks with at most so many steps: each turn opens the half at the next pick in order of
/// making, taken modulo how many wait, and past the last pick the half made first.
pub fn search_nodes<N: Promising + Drop>(
    alloc: Global,
    nodes: N,
    steps: u32,
    picks: &[u32],
) -> Result<Solved, Memory>
    ensures { IfOk result (λ s. IsAnswerInAnyOrder (N.problem nodes) (meaning_of (N.dead_of nodes) (N.force_of nodes) (N.loose_of nodes) (N.test_of nodes)) steps s.log.events s.answer) }
{
    let mut search = Search::new(alloc, nodes, steps)?;
    let result = search.search(alloc, picks);
    answered_by_picks(alloc, search, result, steps)
}

// The answer of a search that ended so.
fn answered<N: Promising + Drop>(
    alloc: Global,
    search: Search<N>,
    ended: Result<Turn, TurnError>,
    steps: u32,
) -> Result<Solved, Memory>
    requires solved { SolvesBy (IsDepthLog (meaning_of (N.dead_of (searching_of search).nodes) (N.force_of (searching_of search).nodes) (N.loose_of (searching_of search).nodes) (N.test_of (searching_of search).nodes))) steps (searching_of search).log.events (searching_of search).rest ended }
    requires within { IsWithin (searching_of search) }
    ensures { IfOk result (λ s. IsAnswer (N.problem (searching_of search).nodes) (meaning_of (N.dead_of (searching_of search).nodes) (N.force_of (searching_of search).nodes) (N.loose_of (searching_of search).nodes) (N.test_of (searching_of search).nodes)) steps s.log.events s.answer) }
{
    match ended {
        Err(TurnError::Memory) => Err(Memory),
        Err(TurnError::Stopped(stop)) => Ok(Solved {
            answer: Answer::Stopped(stop),
            log: search.into_log(),
        }),
        Ok(Turn::Endless { at, truths, ray }) => Ok(Solved {
            answer: Answer::Endless { at, truths, ray },
            log: search.into_log(),
        }),
        Ok(Turn::Rested) => {
            let (outcome, log) = search.finish(alloc)?;
            Ok(Solved {
                answer: Answer::Done(outcome),
                log,
            })
        }
    }
}

// The answer of a search in the order of picks that ended so.
fn answered_by_picks<N: Promising + Drop>(
    alloc: Global,
    search: Search<N>,
    ended: Result<Turn, TurnError>,
    steps: u32,
) -> Result<Solved, Memory>
    requires solved { SolvesBy (IsLegalLog (meaning_of (N.dead_of (searching_of search).nodes) (N.force_of (searching_of search).nodes) (N.loose_of (searching_of search).nodes) (N.test_of (searching_of search).nodes))) steps (searching_of search).log.events (searching_of search).rest ended }
    requires within { IsWithin (searching_of search) }
    ensures { IfOk result (λ s. IsAnswerInAnyOrder (N.problem (searching_of search).nodes) (meaning_of (N.dead_of (searching_of search).nodes) (N.force_of (searching_of search).nodes) (N.loose_of (searching_of search).nodes) (N.test_of (searching_of search).nodes)) steps s.log.events s.answer) }
{
    match ended {
        Err(TurnError::Memory) => Err(Memory),
        Err(TurnError::Stopped(stop)) => Ok(Solved {
            answer: Answer::Stopped(stop),
            log: search.into_log(),
        }),
        Ok(Turn::Endless { at, truths, ray }) => Ok(Solved {
            answer: Answer::Endless { at, truths, ray },
            log: search.into_log(),
        }),
        Ok(Turn::Rested) => {
            let (outcome, log) = search.finish(alloc)?;
            Ok(Solved {
                answer: Answer::Done(outcome),
                log,
            })
        }
    }
}
