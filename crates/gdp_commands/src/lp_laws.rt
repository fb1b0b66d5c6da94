//! What `lp` promises, each law the contract of a function with an empty body.

ghost use Rattle.gdp_commands.specs.LpLaws.{LpGivesUpExactly, LpSolvesTruly};

/// What `lp` answers with status 0 is true of the program that the text spells.
pub fn lp_solves_truly()
    ensures { LpSolvesTruly }
{}

/// It gives up only at the end of the steps, or before a number past 128 bits.
pub fn lp_gives_up_exactly()
    ensures { LpGivesUpExactly }
{}
