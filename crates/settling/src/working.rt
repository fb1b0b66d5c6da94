//! The work at a node.

ghost use Rattle.std.specs.Prelude.{◌≡◌, ◌≤◌, ◌+◌, ℕ, Bool, true, None, IfOk};
ghost use Rattle.lp_frame.specs.Force.{is_bounded};
ghost use Rattle.lp_frame.specs.Standard.{standard_of};
ghost use Rattle.exact_simplex.specs.Bland.{bland_move};
ghost use Rattle.exact_simplex.specs.Equations.{IsTableauOf};
ghost use Rattle.settling.specs.Settled.{with_goal};
ghost use Rattle.settling.specs.Worked.{HasRunFrom, HasWorked, Works, WorkEnds, IsFirstOf};
ghost use Rattle.exact_simplex.specs.Run.{HasEnded};

use crate::deciding::settle;
use crate::ending::{Ending, TestError, WorkError};
use crate::nodes::Nodes;
use answers::Stop;
use exact_simplex::{Log, Move, Outcome, Room, Tableau};
use fractions::Frac;
use lp_frame::{Force, standard};
use lp_rows::Nums;
use outcomes::Memory;
use proof_tree::Path;
use std::alloc::Global;
use std::mem;

// The first tableau of a force, in a room.
fn first_of(alloc: Global, force: &Force, room: Room) -> Result<Tableau, Memory>
    requires { is_bounded force.now ≡ true }
    ensures { IfOk result (IsFirstOf force.now) }
{
    let form = standard(alloc, force)?;
    Tableau::make_in(alloc, &form, room)
}

// Runs the tableau.
fn run_from(force: &Force, tableau: &mut Tableau, steps: &mut u32, log: &mut Log) -> Outcome
    requires room { steps.old ≤ log.old.spare }
    requires first { IsFirstOf force.now tableau.old }
    ensures run { HasRunFrom force.now tableau.new steps.old steps.new log.old.events log.new.events }
    ensures ended { HasEnded tableau.new steps.new result }
    ensures spare { log.new.spare + steps.old ≡ log.old.spare + steps.new }
{
    tableau.run(steps, log)
}

// How the work ends after the run.
fn ended<N: Nodes>(
    alloc: Global,
    nodes: &N,
    path: &Path,
    force: &Force,
    tableau: &Tableau,
    outcome: Outcome,
    kept: &Option<Nums>,
    best: Option<Frac>,
    steps: u32,
) -> Result<Ending, WorkError>
    requires ready { N.ready nodes.now path.now }
    requires dead { N.dead_of nodes.now path.now ≡ None }
    requires force { (goal : Bool) × (force.now ≡ N.force_of nodes.now path.now goal) }
    requires form { IsTableauOf (standard_of force.now) tableau.now }
    requires ended { HasEnded tableau.now steps outcome }
    ensures { WorkEnds (record { force = force.now; loose = N.loose_of nodes.now path.now; test = N.test_of nodes.now path.now }) tableau.now kept.now best steps result }
{
    match outcome {
        Outcome::Steps => Err(WorkError::Stopped(Stop::Steps)),
        Outcome::Wide(place) => Err(WorkError::Stopped(Stop::Wide(place))),
        Outcome::Optimal => settled(alloc, nodes, path, force, tableau, kept, best, steps),
        Outcome::Infeasible => settled(alloc, nodes, path, force, tableau, kept, best, steps),
        Outcome::Unbounded { enter: _ } => settled(
            alloc, nodes, path, force, tableau, kept, best, steps,
        ),
    }
}

// The settling, as the work's answer.
fn settled<N: Nodes>(
    alloc: Global,
    nodes: &N,
    path: &Path,
    force: &Force,
    tableau: &Tableau,
    kept: &Option<Nums>,
    best: Option<Frac>,
    steps: u32,
) -> Result<Ending, WorkError>
    requires ready { N.ready nodes.now path.now }
    requires dead { N.dead_of nodes.now path.now ≡ None }
    requires force { (goal : Bool) × (force.now ≡ N.force_of nodes.now path.now goal) }
    requires form { IsTableauOf (standard_of force.now) tableau.now }
    requires due { (enter leave : ℕ) → bland_move tableau.now ≡ Move.Exchange enter leave → ⊥ }
    ensures { WorkEnds (record { force = force.now; loose = N.loose_of nodes.now path.now; test = N.test_of nodes.now path.now }) tableau.now kept.now best steps result }
{
    match settle(alloc, nodes, path, force, tableau, kept, best) {
        Ok(ending) => Ok(ending),
        Err(TestError::Wide(place)) => Err(WorkError::Stopped(Stop::Wide(place))),
        Err(TestError::Memory) => Err(WorkError::Memory),
    }
}

// The run from the first tableau, and how the work ends after it.
fn run_out<N: Nodes>(
    alloc: Global,
    nodes: &N,
    path: &Path,
    force: &Force,
    tableau: &mut Tableau,
    kept: &Option<Nums>,
    best: Option<Frac>,
    steps: &mut u32,
    log: &mut Log,
) -> Result<Ending, WorkError>
    requires ready { N.ready nodes.now path.now }
    requires dead { N.dead_of nodes.now path.now ≡ None }
    requires force { force.now ≡ N.force_of nodes.now path.now (with_goal kept.now) }
    requires first { IsFirstOf force.now tableau.old }
    requires room { steps.old ≤ log.old.spare }
    ensures worked { HasWorked (record { force = force.now; loose = N.loose_of nodes.now path.now; test = N.test_of nodes.now path.now }) kept.now best steps.old steps.new log.old.events log.new.events result }
    ensures spare { log.new.spare + steps.old ≡ log.old.spare + steps.new }
{
    let outcome = run_from(force, tableau, steps, log);
    ended(
        alloc, nodes, path, force, tableau, outcome, kept, best, *steps,
    )
}

// The work with what holds.
fn work_with<N: Nodes>(
    alloc: Global,
    nodes: &N,
    path: &Path,
    force: &Force,
    kept: &Option<Nums>,
    best: Option<Frac>,
    steps: &mut u32,
    log: &mut Log,
    room: &mut Room,
) -> Result<Ending, WorkError>
    requires ready { N.ready nodes.now path.now }
    requires dead { N.dead_of nodes.now path.now ≡ None }
    requires force { force.now ≡ N.force_of nodes.now path.now (with_goal kept.now) }
    requires room { steps.old ≤ log.old.spare }
    ensures worked { Works None (record { force = force.now; loose = N.loose_of nodes.now path.now; test = N.test_of nodes.now path.now }) kept.now best steps.old steps.new log.old.events log.new.events result }
    ensures spare { log.new.spare + steps.old ≡ log.old.spare + steps.new }
{
    let taken = mem::replace(room, Room::new(alloc));
    match first_of(alloc, force, taken) {
        Err(_) => Err(WorkError::Memory),
        Ok(mut tableau) => {
            let worked = run_out(
                alloc,
                nodes,
                path,
                force,
                &mut tableau,
                kept,
                best,
                steps,
                log,
            );
            *room = tableau.into_room();
            worked
        }
    }
}

// The work at a node with no false item.
fn work_alive<N: Nodes>(
    alloc: Global,
    nodes: &N,
    path: &Path,
    kept: &Option<Nums>,
    best: Option<Frac>,
    steps: &mut u32,
    log: &mut Log,
    room: &mut Room,
) -> Result<Ending, WorkError>
    requires ready { N.ready nodes.now path.now }
    requires dead { N.dead_of nodes.now path.now ≡ None }
    requires room { steps.old ≤ log.old.spare }
    ensures worked { Works None (record { force = N.force_of nodes.now path.now (with_goal kept.now); loose = N.loose_of nodes.now path.now; test = N.test_of nodes.now path.now }) kept.now best steps.old steps.new log.old.events log.new.events result }
    ensures spare { log.new.spare + steps.old ≡ log.old.spare + steps.new }
{
    match nodes.force(alloc, path, kept.is_none()) {
        Err(_) => Err(WorkError::Memory),
        Ok(force) => work_with(alloc, nodes, path, &force, kept, best, steps, log, room),
    }
}

/// Works at a node until it settles or stops: the tableau of what holds there runs from its slack basis, each move
/// takes a step and is logged, and the node settles by what is read out. The tableau is made in the room, and its
/// memory goes back there.
pub fn work<N: Nodes>(
    alloc: Global,
    nodes: &N,
    path: &Path,
    kept: &Option<Nums>,
    best: Option<Frac>,
    steps: &mut u32,
    log: &mut Log,
    room: &mut Room,
) -> Result<Ending, WorkError>
    requires ready { N.ready nodes.now path.now }
    requires room { steps.old ≤ log.old.spare }
    ensures worked { Works (N.dead_of nodes.now path.now) (record { force = N.force_of nodes.now path.now (with_goal kept.now); loose = N.loose_of nodes.now path.now; test = N.test_of nodes.now path.now }) kept.now best steps.old steps.new log.old.events log.new.events result }
    ensures spare { log.new.spare + steps.old ≡ log.old.spare + steps.new }
{
    match nodes.dead(path) {
        Err(_) => Err(WorkError::Memory),
        Ok(Some(item)) => Ok(Ending::LogicFalse(item)),
        Ok(None) => work_alive(alloc, nodes, path, kept, best, steps, log, room),
    }
}
