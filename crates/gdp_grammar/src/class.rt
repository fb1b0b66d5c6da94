//! Classes of bytes.

/// A class of bytes, by which a text is cut.
#[derive(Clone, Copy, Debug, PartialEq, Eq)]
pub enum Class {
    /// What stands in a line: all but the newline.
    Line,
    /// What stands before a comment: all but `#`.
    Content,
    /// Spaces and tabs.
    Blank,
    /// What stands in a word: all but blanks.
    Word,
    /// The digits `0` to `9`.
    Digit,
    /// What begins a name: letters and `_`.
    Start,
    /// What stands in a name after its first byte: letters, digits, `_` and `.`.
    Name,
}
