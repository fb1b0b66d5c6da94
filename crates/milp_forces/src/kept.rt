//! What holds where a trail stands.

ghost use Rattle.std.specs.Prelude.{◌≡◌, ◌<◌, ◌^◌, ◌++◌, length, OnOk, IfOk};
ghost use Rattle.milp_forces.specs.Forces.{column_rows, path_rows, force_at};

use crate::force::{milp_force, next, push_high, push_low};
use crate::trail::Trail;
use lp_frame::{AtMostList, Force};
use lp_rows::{Col, Kind};
use milps::Milp;
use outcomes::Memory;
use proof_tree::Path;
use std::alloc::Global;

/// What holds where the trail stands, as `milp_force` says it of the path. No half of it is looked at.
pub fn trail_force(alloc: Global, milp: &Milp, trail: &Trail, goal: bool) -> Result<Force, Memory>
    ensures { IfOk result (λ force. force ≡ force_at milp.now trail.now goal) }
{
    let mut force = milp_force(alloc, milp, &Path::new(alloc), goal)?;
    push_kept(alloc, &mut force.rows, milp.cols(), trail)?;
    Ok(force)
}

// Adds the bounds that the trail keeps.
fn push_kept(
    alloc: Global,
    rows: &mut AtMostList,
    cols: &[Col],
    trail: &Trail,
) -> Result<(), Memory>
    requires { length cols.now < 2 ^ 32 }
    ensures { OnOk result (rows.new ≡ rows.old ++ path_rows trail.now 0 cols.now) }
{
    let mut column: u32 = 0;
    'cols: for col in cols {
        push_kept_column(alloc, rows, col.kind, column, trail)?;
        column = next(column);
    }
    Ok(())
}

/// Adds the bounds of one column where the trail stands, none where its kind is real.
pub fn push_kept_column(
    alloc: Global,
    rows: &mut AtMostList,
    kind: Kind,
    column: u32,
    trail: &Trail,
) -> Result<(), Memory>
    ensures { OnOk result (rows.new ≡ rows.old ++ column_rows kind column trail.now) }
{
    match kind {
        Kind::Real => Ok(()),
        Kind::Int => {
            push_low(alloc, rows, column, trail.low(column))?;
            push_high(alloc, rows, column, trail.high(column))
        }
    }
}
