//! The laws, each the contract of a function with an empty body.

ghost use Rattle.hybrid_rewrite.specs.Compiled.{RewritesAreFit, RunsNeverLackMemory};
ghost use Rattle.hybrid_rewrite.specs.Cuts.{CutsAreExact};
ghost use Rattle.hybrid_rewrite.specs.Laws.{RewritesAreExact, RunsAreListed};
ghost use Rattle.hybrid_rewrite.specs.Mixes.{HullsAreMixes};

/// For every flagging, a rewrite that is not refused lists a program that is an exact rewrite of the model.
pub fn rewrites_are_exact()
    ensures { RewritesAreExact }
{}

/// Numbers meet the rows of a hull exactly where they are a mix of its disjuncts.
pub fn hulls_are_mixes()
    ensures { HullsAreMixes }
{}

/// A run of the listed rewrite that does not halt makes the listed program.
pub fn runs_are_listed()
    ensures { RunsAreListed }
{}

/// For every flagging, no row of the rewrite is one that the builder would not take.
pub fn rewrites_are_fit()
    ensures { RewritesAreFit }
{}

/// Of an exact rewrite the cut of each point is a point of the model with the same value.
pub fn cuts_are_exact()
    ensures { CutsAreExact }
{}

/// For every flagging, the listed rewrite itself never halts because memory ran out.
pub fn runs_never_lack_memory()
    ensures { RunsNeverLackMemory }
{}
