//! The laws of answers over rewrites, each the contract of a function with an empty body.

ghost use Rattle.rewrite_checker.specs.Accepted.{AcceptedIsTrue, AcceptedOverListing};

/// An accepted answer over an exact rewrite is true of the model.
pub fn accepted_is_true()
    ensures { AcceptedIsTrue }
{}

/// An accepted answer over a listed rewrite, of whatever flagging, is true of the model.
pub fn accepted_over_listing()
    ensures { AcceptedOverListing }
{}
