//! The laws of solving, each the contract of a function with an empty body.

ghost use Rattle.gdp_solve.specs.Laws.{ClaimsAreRight, SolvesOnce};

/// What solving claims is true of the model, and the checker accepts it.
pub fn claims_are_right()
    ensures { ClaimsAreRight }
{}

/// The model, the route and the steps fix what solving comes to.
pub fn solves_once()
    ensures { SolvesOnce }
{}
