//! The laws of texts that come in pieces, each the contract of a function with an empty body.

ghost use Rattle.text_grammar.specs.Feeding.{WholeAndLeft, PieceAddsLines, PieceLeavesOver, AnyPieces};

/// A text's lines are those that a newline ends, and what is left over.
pub fn whole_and_left()
    ensures { WholeAndLeft }
{}

/// A further piece adds the lines that it ends, with what was left over in front.
pub fn piece_adds_lines()
    ensures { PieceAddsLines }
{}

/// What is left over after a further piece depends on what was left over before it, and on no more.
pub fn piece_leaves_over()
    ensures { PieceLeavesOver }
{}

/// However a text is cut into pieces, they give its lines.
pub fn any_pieces()
    ensures { AnyPieces }
{}
