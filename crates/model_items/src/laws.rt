//! The laws of the definitions, each the contract of a function with an empty body.

ghost use Rattle.model_items.specs.Force.{PointMeetsForce, ConditionsMakePoints};
ghost use Rattle.model_items.specs.Items.{PointMeetsConditions};

/// A point of a model makes the condition of each item true.
pub fn point_meets_conditions()
    ensures { PointMeetsConditions }
{}

/// At a point of a model what is in force holds: the bounds and kinds of variables, and the rows of the root and of each
/// block whose indicators are true.
pub fn point_meets_force()
    ensures { PointMeetsForce }
{}

/// A point at which what is in force holds, and that makes the condition of each item true, is one of the model's.
pub fn conditions_make_points()
    ensures { ConditionsMakePoints }
{}
