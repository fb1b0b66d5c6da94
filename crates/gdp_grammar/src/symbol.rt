//! The symbols of the model text.

/// A symbol of the model text.
#[derive(Clone, Copy, Debug, PartialEq, Eq)]
pub enum Symbol {
    Plus,
    Minus,
    Open,
    Close,
    Comma,
    AtMost,
    AtLeast,
    Equal,
}
