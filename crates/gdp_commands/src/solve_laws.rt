//! What `solve` and `check` promise, each law the contract of a function with an empty body.

ghost use Rattle.gdp_commands.specs.SolveLaws.{ChecksTruly, GivesUpExactly, SolvedIsAccepted, SolvesOnce, SolvesTruly};

/// What `solve` answers with status 0 is true of the model, and certified.
pub fn solves_truly()
    ensures { SolvesTruly }
{}

/// It gives up only at the end of the steps, or before a number past 128 bits.
pub fn gives_up_exactly()
    ensures { GivesUpExactly }
{}

/// The contents behind the name fix its status and its text.
pub fn solves_once()
    ensures { SolvesOnce }
{}

/// Whatever `check` accepts is true.
pub fn checks_truly()
    ensures { ChecksTruly }
{}

/// What `solve` writes with status 0 is accepted by `check`.
pub fn solved_is_accepted()
    ensures { SolvedIsAccepted }
{}
