//! The tokens of LP texts: names, numbers, signs, relations and colons, and what they say.
//!
//! Its contract in one sentence: a line's tokens, the value of each number, the section that a word opens and the number
//! of a name are what `lp_grammar` defines.
//!
//! Tokens are cut off one after the other and lend their bytes from the text. Read `line.rt`, `bytes.rt`, `token.rt`,
//! `colon.rt` and `words.rt`, then `value.rt` and `huge.rt` for numbers and `names.rt` for the names of columns.
//! `specs/Views.antt` says how tokens in code are those of the definition.
#![tactic(auto)]

pub mod bytes;
pub mod colon;
pub mod huge;
pub mod line;
pub mod names;
pub mod token;
pub mod value;
pub mod words;

pub use colon::{colon_before, is_colon};
pub use huge::is_huge;
pub use line::first_line;
pub use names::Names;
pub use token::{Exponent, Numeral, Token, Tokens};
