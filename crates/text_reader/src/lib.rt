//! Takes texts apart: the front whose bytes meet a test, the first line, and the number that digits spell.
//!
//! Its contract in one sentence: a text's lines are its first line and those of what follows it, by the definitions of
//! `text_grammar`.
//!
//! Every reader of texts stands on it. A language adds its own tests of bytes, each a type that is a `ByteTest`. Read
//! `bytes.rt`, then `lines.rt` and `digits.rt`; `proofs/Following.antt` has what a loop over the lines of any grammar keeps.
#![tactic(auto)]

pub mod bytes;
pub mod digits;
pub mod lines;

pub use bytes::{Blanks, ByteTest, Digits, Inline, split_front};
pub use digits::{natural, size_of};
pub use lines::{first_line, first_whole_line};
