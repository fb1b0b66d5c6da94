//! The laws of the canonical text, each the contract of a function with an empty body.

ghost use Rattle.gdp_grammar.specs.CanonicalLaws.{CanonicalSpells, CanonicalIgnoresMarks, CanonicalAgain, CanonicalTexts};

/// The canonical text of a model spells a model that is the same but for its marks.
pub fn canonical_spells()
    ensures { CanonicalSpells }
{}

/// Models that are the same but for their marks have the same canonical text.
pub fn canonical_ignores_marks()
    ensures { CanonicalIgnoresMarks }
{}

/// What a canonical text spells has that very canonical text.
pub fn canonical_again()
    ensures { CanonicalAgain }
{}

/// The canonical text of the feed and process choice.
pub fn canonical_texts()
    ensures { CanonicalTexts }
{}
