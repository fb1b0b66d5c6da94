//! A model as a mixed-integer program, each of its disjunctions by big-M or by hull.
//!
//! Its contract in one sentence: `compile` answers the listed program, an exact rewrite of the model (the cuts of the
//! program's points are the model's points, with the same values), or the first refusal in the order of emission.
//!
//! Read `errors.rt` for refusals, `compiling.rt` for `compile`, `compile_flags` and `cut`, `specs/Rewritten.antt` for the
//! listed rewrite and what exact means, `laws.rt` for the laws. Below: `heads.rt` (columns and bounds of variables and
//! Booleans), `rooted.rt`, `framed.rt`, `props.rt`, `selecting.rt` (blocks), `goals.rt` (the goal's own column),
//! `flags.rt` and `guards.rt`.
#![tactic(auto)]

pub mod compiling;
pub mod errors;
pub mod flags;
pub mod framed;
pub mod goals;
pub mod guards;
pub mod heads;
pub mod laws;
pub mod props;
pub mod rooted;
pub mod selecting;

pub use compiling::{Compiled, compile, compile_flags};
pub use errors::CompileError;
pub use hull_rewrite::Choice;
