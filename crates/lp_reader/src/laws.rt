//! The law of what LP texts spell, the contract of a function with an empty body.

ghost use Rattle.lp_reader.specs.Laws.{SpelledIsMilp};

/// What a text spells is a program within the limits that is stored without zeros, with a name for each column.
pub fn spelled_is_milp()
    ensures { SpelledIsMilp }
{}
