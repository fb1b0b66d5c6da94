//! What `compile` promises, each law the contract of a function with an empty body.

ghost use Rattle.gdp_commands.specs.CompileLaws.{CompilesExactly, RefusesExactly, SpelledIsSound};

/// What `compile` answers with status 0 is LP text of an exact rewrite of the model, behind the names of its columns.
pub fn compiles_exactly()
    ensures { CompilesExactly }
{}

/// What it answers with status 4 is the first refusal of the rewrite.
pub fn refuses_exactly()
    ensures { RefusesExactly }
{}

/// A model that a text spells keeps what every model keeps.
pub fn spelled_is_sound()
    ensures { SpelledIsSound }
{}
