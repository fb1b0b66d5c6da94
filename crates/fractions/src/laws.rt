//! Laws, each the contract of a function with an empty body.

ghost use Rattle.fractions.specs.Laws.{OneLowestForm, LowestIsReduced};

/// Two fractions in lowest terms that are one quotient are one fraction.
pub fn one_lowest_form()
    ensures { OneLowestForm }
{}

/// The quotient as specifications compute it is the one in lowest terms.
pub fn lowest_is_reduced()
    ensures { LowestIsReduced }
{}
