//! Writes the texts of logs: what a search did, and why it stopped without an answer.
//!
//! Its contract in one sentence: `log_text` gives exactly the text that `specs/Logs.antt` defines for a route, the events and
//! a stop, and two logs have different texts.
//!
//! Read `specs/Logs.antt`, then `logs.rt`; `laws.rt` has the law.
#![tactic(auto)]

mod laws;
mod logs;

pub use laws::one_log;
pub use logs::log_text;
