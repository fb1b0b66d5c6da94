//! One run of a standard form by Bland's rule.

ghost use Rattle.std.specs.Prelude.{IfOk};
ghost use Rattle.simplex_bench.specs.Replays.{IsReplay};

use exact_simplex::{Log, Outcome, Tableau};
use lp_frame::StandardForm;
use outcomes::Memory;
use std::alloc::Global;

/// The most moves of a run.
const MOST: u32 = 100_000;

/// A run: its moves, and how it ended.
#[derive(Drop)]
pub struct Replayed {
    /// The moves.
    pub log: Log,
    /// How the run ended.
    pub outcome: Outcome,
}

/// Makes Bland's moves from the slack basis to the end.
pub fn replay(alloc: Global, form: &StandardForm) -> Result<Replayed, Memory>
    ensures { IfOk result (λ replayed. IsReplay form.now MOST replayed.log.events replayed.outcome) }
{
    let mut tableau = Tableau::make(alloc, form)?;
    let mut log = Log::new(alloc, MOST)?;
    let mut steps = MOST;
    let outcome = tableau.run(&mut steps, &mut log);
    Ok(Replayed { log, outcome })
}
