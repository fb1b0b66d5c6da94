//! What the items of a proposition say.

ghost use Rattle.logic_to_rows.specs.Laws.{PropositionsAreExact};

/// Numbers meet a proposition's items exactly where each new column has its truth, and so has the literal.
pub fn propositions_are_exact()
    ensures { PropositionsAreExact }
{}
