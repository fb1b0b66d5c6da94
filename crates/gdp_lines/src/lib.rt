//! The lines of a text and what they say: words, tokens, the forms of lines, and the values of their numbers.
//!
//! Each function gives just what the definition of its part gives for the bytes or tokens that it reads, and refuses a
//! line with the cause that the definition tells. No line, word or token is copied.
//! A line of a model text is cut into tokens (`token.rt`), and these are read as a line form (`form.rt`); a line of a
//! point text is read by its words (`word.rt`, `point_form.rt`). `value.rt` and `integer.rt` value the numbers of both.
#![tactic(auto)]

pub mod class;
pub mod fault;
pub mod form;
pub mod integer;
pub mod line;
pub mod point_form;
pub mod token;
pub mod value;
pub mod word;

pub use fault::LineError;
pub use form::{Form, Signed, Summand, is_reserved, read_form};
pub use integer::{integer_value, over_value};
pub use line::{first_line, without_comment};
pub use point_form::{Integer, PointForm, read_point_form};
pub use token::{Numeral, Token, Tokens};
pub use word::{are_words, is_blank};
