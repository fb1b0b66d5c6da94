//! The rules of a search: which logs are legal, what is due after one, and what a complete one shows.
//!
//! Its contract in one sentence: one log comes to one stage, the budget and the nodes fix the log in depth order and what
//! it answers, and whatever order the halves are opened in, a complete log has a proof and a true claim.
//!
//! Read `specs/Machine.antt` for the search as a machine over its log, `specs/Claims.antt` and `specs/Problem.antt` for
//! what a complete log shows and what the nodes promise, `specs/Depth.antt` and `specs/Solved.antt` for the log in depth
//! order, `specs/Searching.antt` and `specs/Turns.antt` for a search and its turns, `specs/Outcomes.antt` and
//! `specs/Answered.antt` for what it ends with; `laws.rt` has the laws. No function of this crate does anything.
#![tactic(auto)]

mod ending;
mod laws;
mod outcome;
mod waiting;

pub use ending::{Turn, TurnError};
pub use laws::{answers_once, one_answer, one_answer_of_log, one_log, one_stage};
pub use outcome::{Answer, Outcome};
pub use waiting::{Best, Waiting};
