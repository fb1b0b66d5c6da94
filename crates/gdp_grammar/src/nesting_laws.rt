//! The laws of nesting, each the contract of a function with an empty body.

ghost use Rattle.gdp_grammar.specs.Nested.{NestedAsSpelled};
ghost use Rattle.gdp_grammar.specs.Owners.{OneOwner};
ghost use Rattle.gdp_grammar.specs.Stacks.{OwnerFound, OwnedFound};
ghost use Rattle.gdp_grammar.specs.WorkedPoints.{WorkedOwners};

/// The owner of a line is the last line before it that opens what isn't closed before it.
pub fn owner_found()
    ensures { OwnerFound }
{}

/// A line has one owner.
pub fn one_owner()
    ensures { OneOwner }
{}
/// The lines that are found to be an owner's are those that it owns, in order, and no others.
pub fn owned_found()
    ensures { OwnedFound }
{}

/// A model that a text spells is nested as the lines of the text are.
pub fn nested_as_spelled()
    ensures { NestedAsSpelled }
{}

/// In a text with a choice the lines own what they are to own.
pub fn worked_owners()
    ensures { WorkedOwners }
{}
