//! What LP texts say: tokens, section words, and the program that a text spells, with its columns, rows and goal.
//!
//! The definitions stand in `specs/`, to be read in the order Programs, Tokens, Items, Taking, Reading, Spelling for texts
//! that are read, and Canonical for the text that is written; the code here is the enumerations that they share with the
//! reader and the writer. An LP text is a grammar of lines whose state is carried from token to token, so that a line may
//! end between any two tokens.
#![tactic(auto)]

pub mod cause;
pub mod laws;
pub mod section;
pub mod stage;

pub use cause::LpCause;
pub use section::Section;
pub use stage::{Column, Pending, Stage};
