//! Worked models, each the contract of a function with an empty body.

ghost use Rattle.model_maker.specs.Laws.{FirstQuotients, FirstText};

/// The first quotients of seed 0.
pub fn first_quotients()
    ensures { FirstQuotients }
{}

/// The text of the model of seed 0 and size 1.
pub fn first_text()
    ensures { FirstText }
{}
