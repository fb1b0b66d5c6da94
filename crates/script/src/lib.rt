//! Tests as scripts: a line is a call in words, and a player answers it by a line.
//!
//! A player is a program whose `stdin` is a script and whose `stdout` has the answers, which come from outside. Further
//! lines cost no proof. Read `trouble.rt` for why a script stops, then `words.rt` for the words of a line, `texts.rt` for
//! those of an answer, and `playing.rt` for what all players do.
#![tactic(auto)]

pub mod playing;
pub mod texts;
pub mod trouble;
pub mod words;

pub use playing::{Player, play_script};
pub use texts::{add_to, shown, terms_text};
pub use trouble::Trouble;
pub use words::{first_word, frac, id, number, numbers, split, terms, truths};
