//! Propositions as columns and rows of a program.
//!
//! Its contract in one sentence: `emit` leaves what the proposition lists and answers its literal, and numbers meet what
//! is listed exactly where the literal, a column or 1 less a column, is 1 where the proposition is true and else 0.
//!
//! Read `bits.rt` for the rows of one new column, `connectives.rt` for the connectives, `emitting.rt` for the recursion,
//! and `laws.rt` for the law; `specs/Emitted.antt` has what each connective lists.
#![tactic(auto)]

pub mod bits;
pub mod connectives;
pub mod emitting;
pub mod laws;

pub use emitting::emit;
pub use laws::propositions_are_exact;
