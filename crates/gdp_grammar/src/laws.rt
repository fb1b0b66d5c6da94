//! The laws of model texts, each the contract of a function with an empty body.

ghost use Rattle.gdp_grammar.specs.Laws.{OneModel, SpelledOrBad, NeverBoth, OneFirstBad, LaidOut, WorkedTexts};

/// A text spells at most one model.
pub fn one_model()
    ensures { OneModel }
{}

/// Every text spells a model or has a first bad line.
pub fn spelled_or_bad()
    ensures { SpelledOrBad }
{}

/// No text spells a model and has a first bad line.
pub fn never_both()
    ensures { NeverBoth }
{}

/// A text has at most one first bad line, with one cause.
pub fn one_first_bad()
    ensures { OneFirstBad }
{}

/// A text that spells a model is blank lines, the header, and lines that declare its variables, its Booleans and its goal.
pub fn laid_out()
    ensures { LaidOut }
{}

/// Two texts spell their models, one of them with a choice of blocks, and three have a first bad line.
pub fn worked_texts()
    ensures { WorkedTexts }
{}
