//! Why a line of a text is refused.

/// Why a line of a text is refused, in the order in which a line is tested.
#[derive(Clone, Copy, Debug, PartialEq, Eq)]
pub enum ReadCause {
    /// The first line isn't the header.
    Header,
    /// The line has none of the shapes, or stands where it isn't allowed.
    Form,
    /// A declared name is taken, or one variable stands twice in one sum.
    NameTwice,
    /// A name wasn't declared before.
    NameUnknown,
    /// A number is out of its range.
    Number,
    /// A depth limit would be passed.
    Nesting,
    /// The text ends in an open block.
    Unclosed,
    /// A limit on the size of the model or of a name would be passed.
    Limit,
    /// Something that has to stand there is missing.
    Missing,
}
