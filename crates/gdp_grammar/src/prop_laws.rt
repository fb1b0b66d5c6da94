//! The law of the propositions of texts, the contract of a function with an empty body.

ghost use Rattle.gdp_grammar.specs.PropReading.{PropositionsRead};

/// Tokens are read as a proposition exactly where they are those that it is written with.
pub fn propositions_read()
    ensures { PropositionsRead }
{}
