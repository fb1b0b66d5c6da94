//! Running out of memory, and the words that nearly every contract uses of a call.
//!
//! Its contract in one sentence: a call answers what its definition says, or runs out of memory and changes nothing.
//!
//! Read `memory.rt` for the error, then `specs/Calls.antt`: ordered refusals (`refuse_if`), an outcome (`refused_or`,
//! `unless`), and a call that meets it (`OrMemory`, `Acts`).
#![tactic(auto)]

pub mod memory;

pub use memory::Memory;
