//! The laws of point texts, each the contract of a function with an empty body.

ghost use Rattle.gdp_grammar.specs.PointDeclaring.{LaidOutPoint, OneLineEach};
ghost use Rattle.gdp_grammar.specs.PointLaws.{OnePoint, PointOrBad, NeverPointAndBad, OneFirstBadOfPoint};
ghost use Rattle.gdp_grammar.specs.WorkedPoints.{WorkedPoints};

/// A text spells at most one point of a model.
pub fn one_point()
    ensures { OnePoint }
{}

/// Every text spells a point of the model or has a first bad line.
pub fn point_or_bad()
    ensures { PointOrBad }
{}

/// No text spells a point of the model and has a first bad line.
pub fn never_point_and_bad()
    ensures { NeverPointAndBad }
{}

/// A text has at most one first bad line as a point of the model, with one cause.
pub fn one_first_bad_of_point()
    ensures { OneFirstBadOfPoint }
{}

/// A point that a text spells is what the lines of the text say, each for itself.
pub fn laid_out_point()
    ensures { LaidOutPoint }
{}

/// In a text that spells a point each name has at most one line.
pub fn one_line_each()
    ensures { OneLineEach }
{}

/// A text spells its point, and three texts go wrong where they are to.
pub fn worked_points()
    ensures { WorkedPoints }
{}
