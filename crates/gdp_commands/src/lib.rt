//! The commands: all that the program does but for the host's files and streams.
//!
//! [`run`] goes from the words of the command line, a shelf of texts and two sinks to a status. Its contract in one
//! sentence: the words pick a command, the command answers a status and a text by a table over the texts behind its
//! names, that text goes to `out` or to `err`, and a read or a write is reported as failed only where a count of faults
//! rose.
//!
//! Read `specs/Words.antt` and `specs/Table.antt`, a table for each command (`Test`, `Format`, `Compile`, `Solve`, `Check`,
//! `Make`, `Bench`, `Lp`), then `commands.rt`, `streams.rt`, `fetched.rt`, `replies.rt`, and a file for each command; `specs/CompileLaws.antt` and
//! `specs/SolveLaws.antt` say what the tables mean.
#![tactic(auto)]

mod bench_command;
mod check_command;
mod commands;
mod compile_command;
pub mod compile_laws;
mod fetched;
mod format_command;
mod lp_command;
pub mod lp_laws;
mod make_command;
pub mod make_laws;
mod messages;
mod replies;
mod solve_command;
pub mod solve_laws;
mod status;
mod streams;
mod test_command;
mod words;

pub use commands::run;
pub use status::Status;
pub use streams::say;
