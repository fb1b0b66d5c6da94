//! The laws, each the contract of a function with an empty body.

ghost use Rattle.rewrite_solving.specs.Laws.{BestIsAccepted, CutsArePoints, EmptyIsAccepted, RaysAreEndless, SolvedOnce};

/// The cut of a best point is a point of the model.
pub fn cuts_are_points()
    ensures { CutsArePoints }
{}

/// A best claim whose tests pass is accepted with the search's proof, and true.
pub fn best_is_accepted()
    ensures { BestIsAccepted }
{}

/// Where the search finds no point, that is accepted with its proof, and true.
pub fn empty_is_accepted()
    ensures { EmptyIsAccepted }
{}

/// A ray of the program leads, cut, to points of the model without end.
pub fn rays_are_endless()
    ensures { RaysAreEndless }
{}

/// The program and the budget fix what solving over it comes to.
pub fn solved_once()
    ensures { SolvedOnce }
{}
