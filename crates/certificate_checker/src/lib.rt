//! The checker of proofs over a mixed-integer program.
//!
//! Its contract in one sentence: the first node in preorder that fails its test, or in which a number leaves 128 bits,
//! decides; and a proof whose nodes pass shows that no point of the program is better than the value, or that there is
//! none.
//!
//! It shares no part with a search: it stands on exact tests alone.
//!
//! Read `specs/Programs.antt` for the nodes over a program and what a proof shows, `specs/Answers.antt` for the tests of
//! an answer in their order; then `programs.rt`, `refusal.rt` for why an answer is refused, and `proofs_of.rt`.
#![tactic(auto)]

pub mod programs;
pub mod proofs_of;
pub mod refusal;

pub use programs::{check_program, is_inner};
pub use proofs_of::{check_by_program, check_proof, refusal_of_claim};
pub use refusal::Refusal;
